//! The rows of one table of which another has no part.
ghost use Rattle.std.specs.Prelude.{◌≡◌, ◌&&◌, ◌≤◌, ◌<◌, ◌^◌, ◌+◌, ◌*◌, ℕ, IfOk, IsTrue, OnOk, length, not};
ghost use Rattle.std.specs.List.{filter};
ghost use Rattle.std.specs.List.Sorted.{IsStrictlySortedBy};
ghost use Rattle.mfotl_model.specs.Satisfaction.{Valuation};
ghost use Rattle.mfotl_model.specs.Tables.{all_among, has, has_row, part};
ghost use Rattle.mfotl_model.specs.Values.{row_cmp};
ghost use Rattle.relations.specs.Indexes.{table_of};
ghost use Rattle.relations.specs.Operations.{unmatched_rows};

use crate::columns::{Columns, part_of};
use crate::index::Index;
use crate::matched::unmatched;
use crate::rows::has_row;
use crate::steps::Steps;
use crate::table::Table;
use mfotl_model::Row;
use std::alloc::{AllocError, Global};
use std::sync::ledger::Ledger;

pub(crate) fn has_part(
    alloc: Global,
    columns: &[u32],
    wanted: &[u32],
    row: &Row,
    seconds: &[Row],
) -> Result<bool, AllocError>
    requires sorted { IsStrictlySortedBy row_cmp seconds.now }
    ensures { IfOk result (λ yes.
        yes ≡ has_row seconds.now (part columns.now wanted.now row.now)) }
{
    let key = part_of(alloc, columns, wanted, row.values())?;
    Ok(has_row(seconds, &key))
}

fn copied_apart(
    alloc: Global,
    columns: &[u32],
    wanted: &[u32],
    rows: &[Row],
    seconds: &[Row],
) -> Result<Vec<Row>, AllocError>
    requires sorted { IsStrictlySortedBy row_cmp seconds.now }
    ensures { IfOk result (λ kept. kept.items ≡
        filter (λ row. not (has_row seconds.now (part columns.now wanted.now row))) rows.now) }
{
    let mut kept = Vec::new(alloc);
    for row in rows {
        if !has_part(alloc, columns, wanted, row, seconds)? {
            kept.push(row.copy(alloc)?)?;
        }
    }
    Ok(kept)
}

fn moved_apart(
    alloc: Global,
    columns: &[u32],
    wanted: &[u32],
    rows: Vec<Row>,
    seconds: &[Row],
) -> Result<Vec<Row>, AllocError>
    requires sorted { IsStrictlySortedBy row_cmp seconds.now }
    ensures { IfOk result (λ kept. kept.items ≡
        filter (λ row. not (has_row seconds.now (part columns.now wanted.now row))) rows.items) }
{
    let mut kept = Vec::new(alloc);
    for row in rows {
        if !has_part(alloc, columns, wanted, &row, seconds)? {
            kept.push(row)?;
        }
    }
    Ok(kept)
}

impl Table {
    /// The rows whose part at the other's columns is no row of the other: each is looked up there by
    /// a binary search.
    pub fn antijoin(&self, alloc: Global, other: &Table) -> Result<Self, AllocError>
        requires inside { IsTrue (all_among other.now.columns self.now.columns) }
        ensures columns { IfOk result (λ table. table.columns ≡ self.now.columns) }
        ensures rows { IfOk result (λ table. table.rows ≡ unmatched_rows self.now other.now) }
        ensures has { IfOk result (λ table. (v : Valuation) →
            has table v ≡ (has self.now v && not (has other.now v))) }
    {
        let columns = Columns::from_slice(alloc, self.columns())?;
        let seconds = other.rows();
        let rows = copied_apart(alloc, self.columns(), other.columns(), self.rows(), seconds)?;
        Ok(Table::from_ascending(columns, rows))
    }

    /// What `antijoin` gives, without copies of the rows that stay.
    pub fn antijoined(self, alloc: Global, other: &Table) -> Result<Self, AllocError>
        requires inside { IsTrue (all_among other.now.columns self.columns) }
        ensures columns { IfOk result (λ table. table.columns ≡ self.columns) }
        ensures rows { IfOk result (λ table. table.rows ≡ unmatched_rows self other.now) }
        ensures has { IfOk result (λ table. (v : Valuation) →
            has table v ≡ (has self v && not (has other.now v))) }
    {
        let (columns, rows) = self.into_parts();
        let seconds = other.rows();
        let kept = moved_apart(alloc, columns.as_slice(), other.columns(), rows, seconds)?;
        Ok(Table::from_ascending(columns, kept))
    }

    /// What `antijoin` gives with the index's table, in two searches for each row.
    pub fn antijoin_by<L: Ledger>(
        &self,
        alloc: Global,
        index: &Index,
        steps: &mut Steps<L>,
    ) -> Result<Self, AllocError>
        requires key { index.now.key_columns ≡ index.now.columns }
        requires inside { IsTrue (all_among index.now.columns self.now.columns) }
        ensures columns { IfOk result (λ table. table.columns ≡ self.now.columns) }
        ensures rows { IfOk result (λ table.
            table.rows ≡ unmatched_rows self.now (table_of index.now)) }
        ensures has { IfOk result (λ table. (v : Valuation) →
            has table v ≡ (has self.now v && not (has (table_of index.now) v))) }
        ensures cost { OnOk result ((d : ℕ) → length index.now.rows < 2 ^ d →
            steps.new ≤ steps.old + length self.now.rows * (2 * d)) }
    {
        let columns = Columns::from_slice(alloc, self.columns())?;
        let rows = unmatched(alloc, self.columns(), self.rows(), index, steps)?;
        Ok(Table::from_ascending(columns, rows))
    }
}
