//! Joins with a table that has no columns of its own.
ghost use Rattle.std.specs.Prelude.{◌≡◌, ◌&&◌, ◌<◌, IfOk, IsTrue, length};
ghost use Rattle.std.specs.List.{filter};
ghost use Rattle.std.specs.List.Sorted.{IsStrictlySortedBy};
ghost use Rattle.mfotl_model.specs.Ascending.{ascending};
ghost use Rattle.mfotl_model.specs.FreeVariables.{joined};
ghost use Rattle.mfotl_model.specs.Satisfaction.{Valuation};
ghost use Rattle.mfotl_model.specs.Tables.{all_among, all_sized, has, has_row, part};
ghost use Rattle.mfotl_model.specs.Values.{row_cmp};
ghost use Rattle.relations.specs.Operations.{has_part, joined_rows, joined_table};

use crate::antijoin::has_part;
use crate::columns::{all_among, both_columns};
use crate::hashed::pairs_kept_by;
use crate::join::index_of_common;
use crate::steps::Steps;
use crate::table::Table;
use mfotl_model::Row;
use std::alloc::{AllocError, Global};
use std::marker::Brand;
use std::sync::ledger::{Blank, Ledger};

/// The rows whose part at these columns is one of the second's.
fn moved_matched(
    alloc: Global,
    columns: &[u32],
    wanted: &[u32],
    rows: Vec<Row>,
    seconds: &[Row],
) -> Result<Vec<Row>, AllocError>
    requires sorted { IsStrictlySortedBy row_cmp seconds.now }
    ensures { IfOk result (λ kept. kept.items ≡
        filter (λ row. has_row seconds.now (part columns.now wanted.now row)) rows.items) }
{
    let mut kept = Vec::new(alloc);
    for row in rows {
        if has_part(alloc, columns, wanted, &row, seconds)? {
            kept.push(row)?;
        }
    }
    Ok(kept)
}

// The join with a table that has no columns of its own: some of the rows, which stay in their order.
fn only_matched(alloc: Global, table: Table, other: &Table) -> Result<Table, AllocError>
    requires inside { IsTrue (all_among other.now.columns table.columns) }
    ensures columns { IfOk result (λ kept. kept.columns ≡ joined table.columns other.now.columns) }
    ensures rows { IfOk result (λ kept. kept.rows ≡ joined_rows table other.now) }
    ensures has { IfOk result (λ kept. (v : Valuation) →
        has kept v ≡ (has table v && has other.now v)) }
{
    let wanted = other.columns();
    let seconds = other.rows();
    let (columns, rows) = table.into_parts();
    let kept = moved_matched(alloc, columns.as_slice(), wanted, rows, seconds)?;
    Ok(Table::from_ascending(columns, kept))
}

// The pairs that agree and of which the third has a part, by an index of the second.
fn pairs_kept<L: Ledger>(
    alloc: Global,
    first: &Table,
    second: &Table,
    third: &Table,
    steps: &mut Steps<L>,
) -> Result<Vec<Row>, AllocError>
    ensures sized { IfOk result (λ rows.
        IsTrue (all_sized (length (joined first.now.columns second.now.columns)) rows.items)) }
    ensures rows { IfOk result (λ rows. ascending row_cmp rows.items ≡
        filter (has_part third.now (joined first.now.columns second.now.columns))
        (joined_rows first.now second.now)) }
{
    let index = index_of_common(alloc, second, first, second)?;
    let rows = pairs_kept_by(alloc, first, &index, third, steps)?;
    Ok(rows)
}

// The rows of the join of two tables of which the third has a part. Other pairs aren't made.
fn join_kept<L: Ledger>(
    alloc: Global,
    first: &Table,
    second: &Table,
    third: &Table,
    blank: Blank,
) -> Result<Table, AllocError>
    requires name { blank.name ≡ L.name }
    requires parts { blank.parts ≡ L.parts }
    requires some { 0 < blank.parts }
    ensures columns { IfOk result (λ kept.
        kept.columns ≡ joined first.now.columns second.now.columns) }
    ensures rows { IfOk result (λ kept. kept.rows ≡
        filter (has_part third.now (joined first.now.columns second.now.columns))
        (joined_rows first.now second.now)) }
{
    let columns = both_columns(alloc, first.columns(), second.columns())?;
    let mut steps = Steps::<L>::new(blank);
    let rows = pairs_kept(alloc, first, second, third, &mut steps)?;
    Ok(Table::from_rows(columns, rows))
}

// Both joins, where the third has no columns of its own.
fn both_kept(
    alloc: Global,
    first: &Table,
    second: &Table,
    third: &Table,
) -> Result<Table, AllocError>
    requires inside { IsTrue (all_among third.now.columns (joined first.now.columns second.now.columns)) }
    ensures columns { IfOk result (λ kept. kept.columns
        ≡ joined (joined first.now.columns second.now.columns) third.now.columns) }
    ensures rows { IfOk result (λ kept. kept.rows
        ≡ joined_rows (joined_table first.now second.now) third.now) }
    ensures has { IfOk result (λ kept. (v : Valuation) →
        has kept v ≡ ((has first.now v && has second.now v) && has third.now v)) }
{
    let _ = first.rows();
    let _ = second.rows();
    let _ = third.rows();
    let table = join_kept::<Brand>(alloc, first, second, third, Blank::new(1))?;
    Ok(table)
}

// Whether an index or a set of the other's rows pays.
fn is_long(first: &Table, other: &Table) -> bool {
    first.rows().len() >= 16 && first.rows().len() >= other.rows().len() / 8
}

// Whether it pays to join the first with an index of the second before the third is looked at.
fn is_narrowed(
    alloc: Global,
    first: &Table,
    second: &Table,
    third: &Table,
) -> Result<bool, AllocError>
    ensures { IfOk result (λ yes. IsTrue yes →
        IsTrue (all_among third.now.columns (joined first.now.columns second.now.columns))) }
{
    let columns = both_columns(alloc, first.columns(), second.columns())?;
    let own = !all_among(second.columns(), first.columns());
    let long = is_long(first, second) && is_long(first, third);
    Ok(all_among(third.columns(), columns.as_slice()) && own && long)
}

impl Table {
    /// What `join` gives. Where the other has no columns of its own, the rows that stay are moved, and
    /// each row is looked up by a binary search.
    pub fn joined(self, alloc: Global, other: &Table) -> Result<Self, AllocError>
        ensures columns { IfOk result (λ table.
            table.columns ≡ joined self.columns other.now.columns) }
        ensures rows { IfOk result (λ table. table.rows ≡ joined_rows self other.now) }
        ensures has { IfOk result (λ table. (v : Valuation) →
            has table v ≡ (has self v && has other.now v)) }
    {
        if all_among(other.columns(), self.columns()) {
            return only_matched(alloc, self, other);
        }
        self.join(alloc, other)
    }

    /// What `joined` gives with the one and then with the other. Where the last has no columns of its
    /// own, rows of which it lacks the part aren't made.
    pub fn joined_twice(
        self,
        alloc: Global,
        second: &Table,
        third: &Table,
    ) -> Result<Self, AllocError>
        ensures columns { IfOk result (λ table. table.columns
            ≡ joined (joined self.columns second.now.columns) third.now.columns) }
        ensures rows { IfOk result (λ table. table.rows
            ≡ joined_rows (joined_table self second.now) third.now) }
        ensures has { IfOk result (λ table. (v : Valuation) →
            has table v ≡ ((has self v && has second.now v) && has third.now v)) }
    {
        if is_narrowed(alloc, &self, second, third)? {
            return both_kept(alloc, &self, second, third);
        }
        let both = self.joined(alloc, second)?;
        both.joined(alloc, third)
    }
}
