//! Tables by the values of some of their columns.
ghost use Rattle.std.specs.Prelude.{◌≡◌, ◌++◌, ◌+◌, ◌*◌, ◌<◌, ◌≤◌, ◌^◌, IfOk, IsTrue, OnOk, length, map, ℕ};
ghost use Rattle.std.specs.List.{filter};
ghost use Rattle.std.specs.List.Sorted.{IsPermutation, IsSorted};
ghost use Rattle.std.specs.Ordering.{eq_by_cmp};
ghost use Rattle.mfotl_model.specs.Tables.{all_apart, all_sized, has_row, part};
ghost use Rattle.mfotl_model.specs.Values.{row_cmp};
ghost use Rattle.relations.specs.Entries.{keyed_entry};
ghost use Rattle.relations.specs.Indexes.{index_cmp, rows_with_key};

use crate::columns::{Columns, part_of};
use crate::entry::Entry;
use crate::search::place;
use crate::steps::Steps;
use mfotl_model::Row;
use std::alloc::{AllocError, Global};
use std::marker::Model;
use std::sync::ledger::Ledger;

fn entries(
    alloc: Global,
    columns: &[u32],
    key_columns: &[u32],
    rows: &[Row],
) -> Result<Vec<Entry>, AllocError>
    ensures { IfOk result (λ entries.
        entries.items ≡ map (keyed_entry columns.now key_columns.now) rows.now) }
{
    let mut entries = Vec::with_capacity(alloc, rows.len())?;
    for row in rows {
        let key = part_of(alloc, columns, key_columns, row.values())?;
        entries.push(Entry {
            key,
            row: row.copy(alloc)?,
        })?;
    }
    Ok(entries)
}

/// The rows behind their keys, in order.
fn ordered(
    alloc: Global,
    columns: &[u32],
    key_columns: &[u32],
    rows: &[Row],
) -> Result<Vec<Entry>, AllocError>
    ensures moved { IfOk result (λ entries.
        IsPermutation rows.now (map (λ e. e.row) entries.items)) }
    ensures keys { IfOk result (λ entries. map (λ e. e.key) entries.items
        ≡ map (part columns.now key_columns.now) (map (λ e. e.row) entries.items)) }
    ensures rises { IfOk result (λ entries. IsSorted row_cmp (map (λ e. e.key) entries.items)) }
    ensures order { IfOk result (λ entries.
        IsSorted (index_cmp columns.now key_columns.now) (map (λ e. e.row) entries.items)) }
{
    let mut entries = entries(alloc, columns, key_columns, rows)?;
    entries.sort_unstable();
    Ok(entries)
}

/// Puts the keys and the rows behind those of two lists.
fn part_entries(
    entries: Vec<Entry>,
    keys: &mut Vec<Row>,
    rows: &mut Vec<Row>,
) -> Result<(), AllocError>
    ensures keys { OnOk result
        (keys.new.items ≡ keys.old.items ++ map (λ e. e.key) entries.items) }
    ensures rows { OnOk result
        (rows.new.items ≡ rows.old.items ++ map (λ e. e.row) entries.items) }
{
    for entry in entries {
        keys.push(entry.key)?;
        rows.push(entry.row)?;
    }
    Ok(())
}

/// The keys and the rows in lists of their own.
fn parted(alloc: Global, entries: Vec<Entry>) -> Result<(Vec<Row>, Vec<Row>), AllocError>
    ensures keys { IfOk result (λ lists. lists.0.items ≡ map (λ e. e.key) entries.items) }
    ensures rows { IfOk result (λ lists. lists.1.items ≡ map (λ e. e.row) entries.items) }
{
    let mut keys = Vec::with_capacity(alloc, entries.len())?;
    let mut rows = Vec::with_capacity(alloc, entries.len())?;
    part_entries(entries, &mut keys, &mut rows)?;
    Ok((keys, rows))
}

/// The rows whose key is this one.
fn matching<'a, L: Ledger>(
    columns: &[u32],
    key_columns: &[u32],
    keys: &[Row],
    rows: &'a [Row],
    key: &Row,
    steps: &mut Steps<L>,
) -> &'a [Row]
    requires keys { keys.now ≡ map (part columns.now key_columns.now) rows.now }
    requires rises { IsSorted row_cmp keys.now }
    ensures rows { result.now ≡
        filter (λ row. eq_by_cmp row_cmp key.now (part columns.now key_columns.now row)) rows.now }
    ensures cost { (d : ℕ) → length rows.now < 2 ^ d → steps.new ≤ steps.old + 2 * d }
{
    let low = place(keys, key, false, steps);
    let high = place(keys, key, true, steps);
    &rows[low..high]
}

/// The rows of a table in the order of their values in some columns, the key's, and then of all
/// their values.
#[derive(Drop)]
pub struct Index {
    columns: Columns,
    key_columns: Columns,
    keys: Vec<Row>,
    rows: Vec<Row>,
}

impl Model for Index {
    ghost use Rattle.relations.specs.Indexes.{IndexOf, IsIndex};

    ghost Value = { IndexOf };

    ghost view = { λ t. record { columns = t.columns.items; key_columns = t.key_columns.items; rows = t.rows.items } };

    ghost invariant = { λ t. IsIndex t.columns.items t.key_columns.items t.keys.items t.rows.items };
}

impl Index {
    pub(crate) fn of(
        alloc: Global,
        columns: Columns,
        key_columns: Columns,
        rows: &[Row],
    ) -> Result<Index, AllocError>
        requires apart { IsTrue (all_apart columns.items) }
        requires sized { IsTrue (all_sized (length columns.items) rows.now) }
        ensures columns { IfOk result (λ index. index.columns ≡ columns.items) }
        ensures key_columns { IfOk result (λ index. index.key_columns ≡ key_columns.items) }
        ensures moved { IfOk result (λ index. IsPermutation rows.now index.rows) }
        ensures order { IfOk result (λ index. IsSorted (index_cmp columns.items key_columns.items) index.rows) }
    {
        let entries = ordered(alloc, columns.as_slice(), key_columns.as_slice(), rows)?;
        let (keys, rows) = parted(alloc, entries)?;
        Ok(Index {
            columns,
            key_columns,
            keys,
            rows,
        })
    }

    pub fn columns(&self) -> &[u32]
        ensures columns { result.now ≡ self.now.columns }
        ensures apart { IsTrue (all_apart self.now.columns) }
        ensures sized { IsTrue (all_sized (length self.now.columns) self.now.rows) }
    {
        self.columns.as_slice()
    }

    pub fn key_columns(&self) -> &[u32]
        ensures { result.now ≡ self.now.key_columns }
    {
        self.key_columns.as_slice()
    }

    pub fn rows(&self) -> &[Row]
        ensures rows { result.now ≡ self.now.rows }
        ensures sized { IsTrue (all_sized (length self.now.columns) self.now.rows) }
    {
        self.rows.as_slice()
    }

    fn keys(&self) -> &[Row]
        ensures keys { result.now ≡ map (part self.now.columns self.now.key_columns) self.now.rows }
        ensures rises { IsSorted row_cmp result.now }
    {
        self.keys.as_slice()
    }

    /// The rows that have the key's values in the key's columns, in that order, by two searches.
    pub fn matches<L: Ledger>(&self, key: &Row, steps: &mut Steps<L>) -> &[Row]
        ensures rows { result.now ≡ rows_with_key self.now key.now }
        ensures cost { (d : ℕ) → length self.now.rows < 2 ^ d → steps.new ≤ steps.old + 2 * d }
    {
        let keys = self.keys();
        let rows = self.rows();
        matching(self.columns(), self.key_columns(), keys, rows, key, steps)
    }

    /// Whether some row is this one, where the key's columns are all.
    pub(crate) fn has<L: Ledger>(&self, row: &Row, steps: &mut Steps<L>) -> bool
        requires key { self.now.key_columns ≡ self.now.columns }
        ensures found { result ≡ has_row self.now.rows row.now }
        ensures cost { (d : ℕ) → length self.now.rows < 2 ^ d → steps.new ≤ steps.old + 2 * d }
    {
        let _ = self.columns();
        !self.matches(row, steps).is_empty()
    }
}
