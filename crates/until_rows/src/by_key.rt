//! The rows that have entries, found by their part at some columns.
ghost use Rattle.std.specs.Prelude.{◌≡◌, ◌||◌, ◌&&◌, [], true, false, List, OnOk, IfOk, IsTrue, cond, length, nat_eq};
ghost use Rattle.std.specs.BTreeMap.{is_at};
ghost use Rattle.std.specs.List.{list_any};
ghost use Rattle.mfotl_model.specs.Tables.{has_row};
ghost use Rattle.mfotl_model.specs.Values.{row_cmp};
ghost use Rattle.mfotl_model.specs.declared.value.Value.{Value};
ghost use Rattle.relations.specs.KeptRows.{list_for};
ghost use Rattle.until_rows.specs.ByKey.{Listed, is_listed};
ghost use Rattle.until_rows.specs.Entries.{met_by};
ghost use Rattle.until_rows.specs.Rules.{NoneEmpty};

use crate::entries::Entries;
use crate::row_set::RowSet;
use mfotl_model::{Interval, Row};
use relations::part_of;
use std::alloc::{AllocError, Global};
use std::collections::HashMap;
use std::collections::hash_map::Entry;
use std::marker::Model;

/// Rows by their part at these columns. By no columns none is listed.
#[derive(Drop)]
pub struct RowsByKey {
    columns: Vec<u32>,
    sets: HashMap<Row, RowSet>,
}

impl Model for RowsByKey {
    ghost use Rattle.until_rows.specs.ByKey.{KeyedRows};

    ghost Value = { KeyedRows };

    ghost view = { λ k. record { columns = k.columns.items; sets = k.sets.entries } };
}

fn put_in(
    alloc: Global,
    sets: &mut HashMap<Row, RowSet>,
    key: Row,
    row: Row,
) -> Result<(), AllocError>
    ensures { OnOk result ((q u : List Value) → has_row (list_for sets.new.entries q) u
        ≡ cond (is_at (row_cmp key) q && is_at (row_cmp row) u) true (has_row (list_for sets.old.entries q) u)) }
{
    let set = sets.entry(key)?.or_insert(RowSet::new());
    set.add(alloc, row)?;
    Ok(())
}

// A set that is left without rows goes.
fn take_out(sets: &mut HashMap<Row, RowSet>, key: Row, row: &Row)
    ensures { (q u : List Value) → has_row (list_for sets.new.entries q) u
        ≡ cond (is_at (row_cmp key) q && is_at (row_cmp row.now) u) false (has_row (list_for sets.old.entries q) u) }
{
    let slot = match sets.entry(key) {
        Ok(slot) => slot,
        Err(_absent) => return,
    };
    match slot {
        Entry::Occupied(mut kept) => {
            let set = kept.get_mut();
            set.remove(row);
            if set.is_empty() {
                kept.remove();
            }
        }
        Entry::Vacant(vacant) => drop(vacant.into_key()),
    }
}

impl RowsByKey {
    /// Without rows.
    pub fn new(alloc: Global, columns: Vec<u32>) -> Self
        ensures { result ≡ record { columns = columns.items; sets = [] } }
    {
        RowsByKey {
            columns,
            sets: HashMap::new(alloc),
        }
    }

    /// The columns by which rows are found.
    pub fn columns(&self) -> &[u32]
        ensures { result.now ≡ self.now.columns }
    {
        self.columns.as_slice()
    }

    /// Whether rows are found at once by their values in these columns.
    pub fn finds_by(&self, columns: &[u32]) -> bool
        ensures some { IsTrue result → nat_eq (length self.now.columns) 0 ≡ false }
        ensures same { IsTrue result → columns.now ≡ self.now.columns }
        ensures yes { nat_eq (length self.now.columns) 0 ≡ false → columns.now ≡ self.now.columns → result ≡ true }
    {
        !columns.is_empty() && columns == self.columns()
    }

    /// One row more, which has the columns `right`.
    pub fn add(&mut self, alloc: Global, right: &[u32], row: &Row) -> Result<(), AllocError>
        ensures listed { OnOk result ((u : List Value) → is_listed right.now self.new u
            ≡ (is_listed right.now self.old u || is_at (row_cmp row.now) u)) }
        ensures keys { self.new.columns ≡ self.old.columns }
    {
        let key = part_of(alloc, right, self.columns.as_slice(), row.values())?;
        put_in(alloc, &mut self.sets, key, row.copy(alloc)?)
    }

    /// Drops a row. Without memory for its part it stays.
    pub fn remove(&mut self, alloc: Global, right: &[u32], row: &Row) -> Result<(), AllocError>
        ensures gone { OnOk result (is_listed right.now self.new row.now ≡ nat_eq (length self.new.columns) 0) }
        ensures others { (u : List Value) → is_at (row_cmp row.now) u ≡ false →
            is_listed right.now self.new u ≡ is_listed right.now self.old u }
        ensures keys { self.new.columns ≡ self.old.columns }
    {
        if self.columns.is_empty() {
            return Ok(());
        }
        let key = part_of(alloc, right, self.columns.as_slice(), row.values())?;
        take_out(&mut self.sets, key, row);
        Ok(())
    }

    // appends the rows that are listed by one key, as `push_found` does
    fn push_key(
        &self,
        alloc: Global,
        rows: &HashMap<Row, Entries>,
        out: &mut Vec<Row>,
        key: &Row,
        interval: &Interval,
        i: u64,
        x: u64,
    ) -> Result<(), AllocError>
        ensures { OnOk result ((u : List Value) → has_row out.new.items u ≡ (has_row out.old.items u
            || (has_row (list_for self.now.sets key.now) u
            && met_by interval.now i x (list_for rows.now.entries u)))) }
    {
        match self.sets.get(key) {
            Some(set) => set.push_met(alloc, rows, out, interval, i, x),
            None => Ok(()),
        }
    }

    /// Appends the rows that are listed by these keys and of which some entry meets UNTIL at the position `i`,
    /// whose time is `x`.
    pub fn push_found(
        &self,
        alloc: Global,
        rows: &HashMap<Row, Entries>,
        out: &mut Vec<Row>,
        keys: &[Row],
        interval: &Interval,
        i: u64,
        x: u64,
    ) -> Result<(), AllocError>
        ensures { OnOk result ((u : List Value) → has_row out.new.items u ≡ (has_row out.old.items u
            || list_any (λ k. has_row (list_for self.now.sets k) u
            && met_by interval.now i x (list_for rows.now.entries u)) keys.now)) }
    {
        for key in keys {
            self.push_key(alloc, rows, out, key, interval, i, x)?;
        }
        Ok(())
    }
}

/// Lists the rows of a table. Those that have entries are listed already.
pub fn list_rows(
    alloc: Global,
    by_key: &mut RowsByKey,
    rows: &HashMap<Row, Entries>,
    right: &[u32],
    table: &[Row],
) -> Result<(), AllocError>
    requires some { NoneEmpty rows.now.entries }
    requires listed { Listed right.now by_key.old rows.now.entries }
    ensures listed { OnOk result ((u : List Value) → is_listed right.now by_key.new u
        ≡ (is_listed right.now by_key.old u || has_row table.now u)) }
    ensures keys { by_key.new.columns ≡ by_key.old.columns }
{
    if by_key.columns().is_empty() {
        return Ok(());
    }
    for row in table {
        if !rows.contains_key(row) {
            by_key.add(alloc, right, row)?;
        }
    }
    Ok(())
}

/// The rows that have entries, by their part at these columns.
pub fn rows_by_key(
    alloc: Global,
    right: &[u32],
    keys: &[u32],
    rows: &HashMap<Row, Entries>,
) -> Result<RowsByKey, AllocError>
    ensures listed { IfOk result (λ by_key. Listed right.now by_key rows.now.entries) }
    ensures keys { IfOk result (λ by_key. by_key.columns ≡ keys.now) }
{
    let columns = Vec::from_slice(alloc, keys)?;
    let mut by_key = RowsByKey::new(alloc, columns);
    if by_key.columns().is_empty() {
        return Ok(by_key);
    }
    for (row, _) in rows {
        by_key.add(alloc, right, row)?;
    }
    Ok(by_key)
}
