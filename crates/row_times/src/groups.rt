//! Rows with the times kept for them, in groups by their part at the columns that they are grouped by.
ghost use Rattle.std.specs.Prelude.{◌≡◌, ◌||◌, ◌&&◌, ◌==◌, ◌<◌, [], IfOk, IsTrue, List, ℕ, OnOk, None};
ghost use Rattle.std.specs.Prelude.{Some, cond, length, not};
ghost use Rattle.std.specs.BTreeMap.{is_at};
ghost use Rattle.std.specs.List.{list_any};
ghost use Rattle.std.specs.List.Sorted.{IsStrictlyIncreasing};
ghost use Rattle.std.specs.Map.{lookup};
ghost use Rattle.std.specs.Option.{option_or};
ghost use Rattle.mfotl_model.specs.declared.interval.Interval.{Interval};
ghost use Rattle.relations.specs.KeptRows.{RowsDiffer, kept_for, list_for};
ghost use Rattle.row_times.specs.KeptTimes.{first_times};
ghost use Rattle.mfotl_model.specs.Values.{row_cmp};
ghost use Rattle.mfotl_model.specs.declared.value.Value.{Value};
ghost use Rattle.row_times.specs.Groups.{NoneEmpty, NoneEmptyBut, times_at};
ghost use Rattle.row_times.specs.PackedRows.{packed_rows};
ghost use Rattle.mfotl_model.specs.Tables.{has_row, part};
ghost use Rattle.row_times.specs.Times.{ArePast, added, reaches, recent};

use crate::group::Group;
use crate::ordered::OrderedGroup;
use crate::packed_rows::PackedRows;
use crate::times::Times;
use mfotl_model::{Interval, Row};
use relations::Table;
use std::alloc::{AllocError, Global};
use std::collections::HashMap;
use std::marker::Model;

/// Each row stands in the group of a key, which the caller gives with it, and a row may stand in several groups.
/// A call that fails for want of memory may leave out rows or times, so that what is left is right for nothing.
#[derive(Drop)]
pub struct Groups {
    groups: HashMap<Row, Group>,
}

impl Model for Groups {
    ghost use Rattle.std.specs.Prelude.{List, ℕ};
    ghost use Rattle.mfotl_model.specs.declared.value.Value.{Value as OneValue};

    ghost Value = { List (List OneValue × List (List OneValue × List ℕ)) };

    ghost view = { λ w. w.groups.entries };
}

fn keep_group(kept: &mut HashMap<Row, Group>, key: Row, group: Group) -> Result<(), AllocError>
    ensures { OnOk result ((q : List Value) → lookup (is_at (row_cmp q)) kept.new.entries
        ≡ cond (is_at (row_cmp key) q) (Some group) (lookup (is_at (row_cmp q)) kept.old.entries)) }
{
    kept.insert(key, group)?;
    Ok(())
}

// Forgets in a group, and tells whether it is left without rows.
#[tactic(auto, using(crate::proofs::ForgetLemmas::not_there))]
fn forget_in(groups: &mut HashMap<Row, Group>, key: &Row, row: Row, hi: u64, now: u64) -> bool
    ensures times { (q v : List Value) → times_at groups.new.entries q v
        ≡ cond (is_at (row_cmp key.now) q && is_at (row_cmp row) v)
        (recent hi now (times_at groups.old.entries q v)) (times_at groups.old.entries q v) }
    ensures empty { IsTrue result → list_for groups.new.entries key.now ≡ [] }
    ensures some { NoneEmpty groups.old.entries → NoneEmptyBut result key.now groups.new.entries }
{
    match groups.get_mut(key) {
        Some(group) => {
            group.forget(row, hi, now);
            group.is_empty()
        }
        None => false,
    }
}

// The same of more rows of the group.
#[tactic(auto, using(crate::proofs::ForgetLemmas::not_there))]
fn forget_all_in(
    groups: &mut HashMap<Row, Group>,
    alloc: Global,
    key: &Row,
    rows: PackedRows,
    hi: u64,
    now: u64,
) -> Result<bool, AllocError>
    ensures times { OnOk result ((q v : List Value) → times_at groups.new.entries q v
        ≡ cond (is_at (row_cmp key.now) q && has_row (packed_rows rows) v)
        (recent hi now (times_at groups.old.entries q v)) (times_at groups.old.entries q v)) }
    ensures empty { IfOk result (λ empty. IsTrue empty → list_for groups.new.entries key.now ≡ []) }
    ensures some { IfOk result (λ empty.
        NoneEmpty groups.old.entries → NoneEmptyBut empty key.now groups.new.entries) }
{
    match groups.get_mut(key) {
        Some(group) => {
            group.forget_all(alloc, rows, hi, now)?;
            Ok(group.is_empty())
        }
        None => Ok(false),
    }
}

fn drop_group(groups: &mut HashMap<Row, Group>, key: &Row)
    ensures { (q : List Value) → kept_for groups.new.entries q
        ≡ cond (is_at (row_cmp key.now) q) None (kept_for groups.old.entries q) }
{
    groups.remove(key);
}

impl Groups {
    /// No rows. It takes no memory.
    pub fn new(alloc: Global) -> Self
        ensures { result ≡ [] }
    {
        Groups {
            groups: HashMap::new(alloc),
        }
    }

    /// The times of a row, with one more, unless it is there. Where they aren't `bounded` a row keeps the first alone:
    /// it lies in an interval without an upper end whenever a later one does.
    pub fn add(
        &mut self,
        alloc: Global,
        key: Row,
        row: Row,
        x: u64,
        bounded: bool,
    ) -> Result<(), AllocError>
        requires { ArePast x (times_at self.old key row) }
        ensures times { OnOk result ((q v : List Value) → times_at self.new q v
            ≡ cond (is_at (row_cmp key) q && is_at (row_cmp row) v)
            (added bounded (times_at self.old q v) x) (times_at self.old q v)) }
        ensures some { OnOk result (NoneEmpty self.old → NoneEmpty self.new) }
    {
        let group = self.groups.entry(key)?.or_insert(Group::new());
        group.add(alloc, row, x, bounded)?;
        Ok(())
    }

    /// The same for each of these rows, which all stand in the group of the empty row.
    pub fn add_ungrouped(
        &mut self,
        alloc: Global,
        rows: &[Row],
        x: u64,
        bounded: bool,
    ) -> Result<(), AllocError>
        requires { (v : List Value) → ArePast x (times_at self.old [] v) }
        ensures times { OnOk result ((q v : List Value) → times_at self.new q v
            ≡ cond (is_at (row_cmp []) q && has_row rows.now v)
            (added bounded (times_at self.old q v) x) (times_at self.old q v)) }
        ensures some { OnOk result (NoneEmpty self.old → NoneEmpty self.new) }
    {
        if rows.is_empty() {
            return Ok(());
        }
        let group = self.groups.entry(Row::empty())?.or_insert(Group::new());
        group.add_all(alloc, rows, x, bounded)?;
        Ok(())
    }

    /// Forgets the times of a row that lie further back than `hi`. A group that is left without rows goes.
    pub fn forget(&mut self, key: Row, row: Row, hi: u64, now: u64)
        ensures times { (q v : List Value) → times_at self.new q v
            ≡ cond (is_at (row_cmp key) q && is_at (row_cmp row) v)
            (recent hi now (times_at self.old q v)) (times_at self.old q v) }
        ensures some { NoneEmpty self.old → NoneEmpty self.new }
    {
        if forget_in(&mut self.groups, &key, row, hi, now) {
            drop_group(&mut self.groups, &key);
        }
    }

    /// The same for each of these rows, which all stand in the group of the empty row.
    pub fn forget_ungrouped(
        &mut self,
        alloc: Global,
        rows: PackedRows,
        hi: u64,
        now: u64,
    ) -> Result<(), AllocError>
        ensures times { OnOk result ((q v : List Value) → times_at self.new q v
            ≡ cond (is_at (row_cmp []) q && has_row (packed_rows rows) v)
            (recent hi now (times_at self.old q v)) (times_at self.old q v)) }
        ensures some { OnOk result (NoneEmpty self.old → NoneEmpty self.new) }
    {
        let key = Row::empty();
        if forget_all_in(&mut self.groups, alloc, &key, rows, hi, now)? {
            drop_group(&mut self.groups, &key);
        }
        Ok(())
    }

    // drops the groups of other parts where they stand
    fn drop_others(&mut self, parts: &Table)
        ensures times { (q v : List Value) → times_at self.new q v
            ≡ cond (has_row parts.now.rows q) (times_at self.old q v) [] }
        ensures some { NoneEmpty self.old → NoneEmpty self.new }
    {
        self.groups.retain(|key, _| parts.contains(key));
    }

    // moves the groups of these parts into a map of their own
    fn move_groups(&mut self, alloc: Global, parts: &[Row]) -> Result<(), AllocError>
        ensures times { OnOk result ((q v : List Value) → times_at self.new q v
            ≡ cond (has_row parts.now q) (times_at self.old q v) []) }
        ensures some { OnOk result (NoneEmpty self.old → NoneEmpty self.new) }
    {
        let mut kept = HashMap::new(alloc);
        for part in parts {
            if let Some((key, group)) = self.groups.remove_entry(part) {
                keep_group(&mut kept, key, group)?;
            }
        }
        self.groups = kept;
        Ok(())
    }

    /// Keeps the groups of a table's rows alone. Out of few the others are dropped, which takes no memory;
    /// of many those that stay are found by their hashes, and take no more room than they need.
    pub fn keep(&mut self, alloc: Global, parts: &Table) -> Result<(), AllocError>
        ensures times { OnOk result ((q v : List Value) → times_at self.new q v
            ≡ cond (has_row parts.now.rows q) (times_at self.old q v) []) }
        ensures some { OnOk result (NoneEmpty self.old → NoneEmpty self.new) }
    {
        if self.groups.capacity() > 64 {
            return self.move_groups(alloc, parts.rows());
        }
        self.drop_others(parts);
        Ok(())
    }

    /// Drops the groups of these parts.
    pub fn drop_groups(&mut self, parts: &[Row])
        ensures times { (q v : List Value) → times_at self.new q v
            ≡ cond (has_row parts.now q) [] (times_at self.old q v) }
        ensures some { NoneEmpty self.old → NoneEmpty self.new }
    {
        for part in parts {
            self.groups.remove(part);
        }
    }

    /// Whether the times of a row reach: whether one of them lies in the interval, seen from `x`.
    pub fn reaches(&self, key: &Row, row: &Row, interval: &Interval, x: u64) -> bool
        ensures { result ≡ reaches interval.now (times_at self.now key.now row.now) x }
    {
        match self.groups.get(key) {
            Some(group) => group.reaches(row, interval, x),
            None => false,
        }
    }

    /// Appends the rows whose times reach.
    pub fn push_reaching(
        &self,
        alloc: Global,
        out: &mut Vec<Row>,
        interval: &Interval,
        x: u64,
    ) -> Result<(), AllocError>
        ensures rows { OnOk result ((u : List Value) → has_row out.new.items u
            ≡ (has_row out.old.items u
            || list_any (λ e. reaches interval.now (list_for e.1 u) x) self.now)) }
        ensures differ { RowsDiffer self.now }
    {
        for (key, group) in &self.groups {
            let _ = key;
            group.push_reaching(alloc, out, interval, x)?;
        }
        Ok(())
    }

    /// Appends the rows whose times reach, of those whose part at the columns of `keys` is one of its rows.
    pub fn push_matching(
        &self,
        alloc: Global,
        out: &mut Vec<Row>,
        interval: &Interval,
        x: u64,
        columns: &[u32],
        keys: &Table,
    ) -> Result<(), AllocError>
        ensures rows { OnOk result ((u : List Value) → has_row out.new.items u
            ≡ (has_row out.old.items u || list_any (λ e. reaches interval.now (list_for e.1 u) x
            && has_row keys.now.rows (part columns.now keys.now.columns u)) self.now)) }
        ensures differ { RowsDiffer self.now }
    {
        for (_, group) in &self.groups {
            group.push_matching(alloc, out, interval, x, columns, keys)?;
        }
        Ok(())
    }

    /// Appends the rows of the groups of these keys whose times reach.
    pub fn push_found(
        &self,
        alloc: Global,
        out: &mut Vec<Row>,
        interval: &Interval,
        x: u64,
        keys: &[Row],
    ) -> Result<(), AllocError>
        ensures { OnOk result ((u : List Value) → has_row out.new.items u
            ≡ (has_row out.old.items u
            || list_any (λ k. reaches interval.now (times_at self.now k u) x) keys.now)) }
    {
        for key in keys {
            self.push_group(alloc, out, interval, x, key)?;
        }
        Ok(())
    }

    fn push_group(
        &self,
        alloc: Global,
        out: &mut Vec<Row>,
        interval: &Interval,
        x: u64,
        key: &Row,
    ) -> Result<(), AllocError>
        ensures { OnOk result ((u : List Value) → has_row out.new.items u
            ≡ (has_row out.old.items u || reaches interval.now (times_at self.now key.now u) x)) }
    {
        match self.groups.get(key) {
            Some(group) => group.push_reaching(alloc, out, interval, x),
            None => Ok(()),
        }
    }

    /// Puts the times of a row into a group, in the place of those that it has there.
    pub fn put(
        &mut self,
        alloc: Global,
        key: Row,
        row: Row,
        times: Vec<u64>,
    ) -> Result<(), AllocError>
        requires { IsStrictlyIncreasing times.items }
        ensures times { OnOk result ((q v : List Value) → times_at self.new q v
            ≡ cond (is_at (row_cmp key) q && is_at (row_cmp row) v) times.items (times_at self.old q v)) }
        ensures some { OnOk result (0 < length times.items → NoneEmpty self.old → NoneEmpty self.new) }
    {
        let times = Times::from_vec(alloc, times)?;
        let group = self.groups.entry(key)?.or_insert(Group::new());
        group.put(alloc, row, times)?;
        Ok(())
    }

    /// Copies the rows that have times into one group in order, each from the first that has some for it. What
    /// `out` has of a row stays.
    pub fn pour(&self, alloc: Global, out: &mut OrderedGroup) -> Result<(), AllocError>
        ensures rows { OnOk result ((u : List Value) → kept_for out.new u
            ≡ option_or (kept_for out.old u) (first_times self.now u)) }
        ensures differ { RowsDiffer self.now }
    {
        for (_, group) in &self.groups {
            group.pour(alloc, out)?;
        }
        Ok(())
    }
}
