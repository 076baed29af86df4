//! The rows of two tables that agree in the columns of both.
ghost use Rattle.std.specs.Prelude.{◌≡◌, ◌&&◌, ◌≤◌, ◌<◌, ◌^◌, ◌+◌, ◌*◌, ℕ, IfOk, IsTrue, OnOk, length};
ghost use Rattle.std.specs.List.Sorted.{IsPermutation, IsSorted};
ghost use Rattle.mfotl_model.specs.Ascending.{ascending};
ghost use Rattle.mfotl_model.specs.FreeVariables.{joined};
ghost use Rattle.mfotl_model.specs.Satisfaction.{Valuation};
ghost use Rattle.mfotl_model.specs.Tables.{all_among, has};
ghost use Rattle.mfotl_model.specs.Values.{row_cmp};
ghost use Rattle.relations.specs.Indexes.{index_cmp, table_of};
ghost use Rattle.relations.specs.Operations.{common, joined_rows};

use crate::columns::{Columns, both_columns, common};
use crate::index::Index;
use crate::matched::{matched_pairs, turned_pairs};
use crate::steps::Steps;
use crate::table::Table;
use mfotl_model::Row;
use std::alloc::{AllocError, Global};
use std::marker::Brand;
use std::sync::ledger::{Blank, Ledger};

/// A table's rows in the order of the columns that both of two tables have.
pub(crate) fn index_of_common(
    alloc: Global,
    table: &Table,
    first: &Table,
    second: &Table,
) -> Result<Index, AllocError>
    requires inside { IsTrue (all_among (common first.now.columns second.now.columns) table.now.columns) }
    ensures columns { IfOk result (λ index. index.columns ≡ table.now.columns) }
    ensures key { IfOk result (λ index.
        index.key_columns ≡ common first.now.columns second.now.columns) }
    ensures moved { IfOk result (λ index. IsPermutation table.now.rows index.rows) }
{
    let key = common(alloc, first.columns(), second.columns())?;
    table.index(alloc, key)
}

/// The pairs that agree, by an index of the second table.
fn pairs_by_second<L: Ledger>(
    alloc: Global,
    first: &Table,
    second: &Table,
    steps: &mut Steps<L>,
) -> Result<Vec<Row>, AllocError>
    ensures { IfOk result (λ rows.
        ascending row_cmp rows.items ≡ joined_rows first.now second.now) }
{
    let index = index_of_common(alloc, second, first, second)?;
    let rows = matched_pairs(alloc, first.columns(), first.rows(), &index, steps)?;
    Ok(rows)
}

/// The pairs that agree, by an index of the first table.
fn pairs_by_first<L: Ledger>(
    alloc: Global,
    first: &Table,
    second: &Table,
    steps: &mut Steps<L>,
) -> Result<Vec<Row>, AllocError>
    ensures { IfOk result (λ rows.
        ascending row_cmp rows.items ≡ joined_rows first.now second.now) }
{
    let index = index_of_common(alloc, first, first, second)?;
    let rows = turned_pairs(alloc, &index, second.columns(), second.rows(), steps)?;
    Ok(rows)
}

/// The pairs that agree, by an index of the first table or of the second.
fn pairs<L: Ledger>(
    alloc: Global,
    first: &Table,
    second: &Table,
    by_first: bool,
    steps: &mut Steps<L>,
) -> Result<Vec<Row>, AllocError>
    ensures { IfOk result (λ rows.
        ascending row_cmp rows.items ≡ joined_rows first.now second.now) }
{
    if by_first {
        pairs_by_first(alloc, first, second, steps)
    } else {
        pairs_by_second(alloc, first, second, steps)
    }
}

fn join_within<L: Ledger>(
    alloc: Global,
    first: &Table,
    second: &Table,
    blank: Blank,
) -> Result<Table, AllocError>
    requires name { blank.name ≡ L.name }
    requires parts { blank.parts ≡ L.parts }
    requires some { 0 < blank.parts }
    ensures columns { IfOk result (λ table.
        table.columns ≡ joined first.now.columns second.now.columns) }
    ensures rows { IfOk result (λ table. table.rows ≡ joined_rows first.now second.now) }
    ensures has { IfOk result (λ table. (v : Valuation) →
        has table v ≡ (has first.now v && has second.now v)) }
{
    let columns = both_columns(alloc, first.columns(), second.columns())?;
    // pairs by an index of the first come in the order of the second's rows, and have to be sorted
    let by_first = first.rows().len() < second.rows().len() / 8;
    let mut steps = Steps::<L>::new(blank);
    let rows = pairs(alloc, first, second, by_first, &mut steps)?;
    Ok(Table::from_rows(columns, rows))
}

impl Table {
    /// The rows of both tables that agree in the columns that both have: each of this table's,
    /// followed by what the other has in the columns that this one lacks.
    pub fn join(&self, alloc: Global, other: &Table) -> Result<Self, AllocError>
        ensures columns { IfOk result (λ table.
            table.columns ≡ joined self.now.columns other.now.columns) }
        ensures rows { IfOk result (λ table. table.rows ≡ joined_rows self.now other.now) }
        ensures has { IfOk result (λ table. (v : Valuation) →
            has table v ≡ (has self.now v && has other.now v)) }
    {
        let table = join_within::<Brand>(alloc, self, other, Blank::new(1))?;
        Ok(table)
    }

    /// The rows in the order of their values in these columns, then of all their values.
    pub fn index(&self, alloc: Global, key_columns: Columns) -> Result<Index, AllocError>
        requires inside { IsTrue (all_among key_columns.items self.now.columns) }
        ensures columns { IfOk result (λ index. index.columns ≡ self.now.columns) }
        ensures key_columns { IfOk result (λ index. index.key_columns ≡ key_columns.items) }
        ensures moved { IfOk result (λ index. IsPermutation self.now.rows index.rows) }
        ensures order { IfOk result (λ index.
            IsSorted (index_cmp self.now.columns key_columns.items) index.rows) }
    {
        let columns = Columns::from_slice(alloc, self.columns())?;
        Index::of(alloc, columns, key_columns, self.rows())
    }

    /// What `join` gives with the index's table, in two searches for each row. The key is the
    /// columns of both, in the index's order.
    pub fn join_by<L: Ledger>(
        &self,
        alloc: Global,
        index: &Index,
        steps: &mut Steps<L>,
    ) -> Result<Self, AllocError>
        requires key { index.now.key_columns ≡ common self.now.columns index.now.columns }
        ensures columns { IfOk result (λ table.
            table.columns ≡ joined self.now.columns index.now.columns) }
        ensures rows { IfOk result (λ table.
            table.rows ≡ joined_rows self.now (table_of index.now)) }
        ensures has { IfOk result (λ table. (v : Valuation) →
            has table v ≡ (has self.now v && has (table_of index.now) v)) }
        ensures cost { OnOk result ((d : ℕ) → length index.now.rows < 2 ^ d →
            steps.new ≤ steps.old + length self.now.rows * (2 * d)) }
    {
        let columns = both_columns(alloc, self.columns(), index.columns())?;
        let rows = matched_pairs(alloc, self.columns(), self.rows(), index, steps)?;
        Ok(Table::from_rows(columns, rows))
    }
}
