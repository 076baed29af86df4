//! Many rows with the times kept for them, each found by the hash of a key that stands for it.
ghost use Rattle.std.specs.Prelude.{◌≡◌, ◌||◌, ◌&&◌, ◌==◌, ◌<◌, ◌++◌, ◌∷◌, [], IfOk, List, None, OnOk, Some};
ghost use Rattle.std.specs.Prelude.{cond, length};
ghost use Rattle.std.specs.BTreeMap.{is_at};
ghost use Rattle.std.specs.Option.{option_or};
ghost use Rattle.mfotl_model.specs.Tables.{has_row, part};
ghost use Rattle.mfotl_model.specs.Values.{row_cmp};
ghost use Rattle.mfotl_model.specs.declared.interval.Interval.{Interval};
ghost use Rattle.mfotl_model.specs.declared.value.Value.{Value};
ghost use Rattle.relations.specs.KeptRows.{filled, kept_for, list_for};
ghost use Rattle.row_times.specs.Groups.{HaveTimes};
ghost use Rattle.row_times.specs.RowKeys.{by_rows, itself};
ghost use Rattle.row_times.specs.Times.{ArePast, added, reaches, recent};

use crate::ordered::OrderedGroup;
use crate::row_key::RowKey;
use crate::times::Times;
use mfotl_model::{Interval, Row};
use relations::Table;
use std::alloc::{AllocError, Global};
use std::collections::HashMap;
use std::collections::hash_map::Entry;
use std::marker::Model;

#[derive(Drop)]
pub(crate) struct KeyedRows<K: RowKey> {
    rows: HashMap<K, Times>,
}

impl<K: RowKey> Model for KeyedRows<K> {
    ghost use Rattle.std.specs.Prelude.{List, ℕ};

    ghost Value = { List (K × List ℕ) };

    ghost view = { λ g. g.rows.entries };
}

// A row that is left without times goes.
fn forget_times<K: RowKey>(rows: &mut HashMap<K, Times>, key: K, hi: u64, now: u64)
    ensures times { (v : List Value) → list_for (by_rows K.row_of rows.new.entries) v
        ≡ cond (is_at (row_cmp (K.row_of key)) v)
        (recent hi now (list_for (by_rows K.row_of rows.old.entries) v))
        (list_for (by_rows K.row_of rows.old.entries) v) }
    ensures some { HaveTimes (by_rows K.row_of rows.old.entries) → HaveTimes (by_rows K.row_of rows.new.entries) }
{
    match rows.entry(key) {
        Ok(slot) => match slot {
            Entry::Occupied(mut kept) => {
                let times = kept.get_mut();
                times.forget(hi, now);
                if times.is_empty() {
                    kept.remove();
                }
            }
            Entry::Vacant(vacant) => drop(vacant.into_key()),
        },
        Err(_absent) => {}
    }
}

fn keep_row<K: RowKey>(
    alloc: Global,
    wide: &mut HashMap<Row, Times>,
    key: K,
    times: Times,
) -> Result<(), AllocError>
    ensures { OnOk result ((v : List Value) → kept_for wide.new.entries v
        ≡ cond (is_at (row_cmp (K.row_of key)) v) (Some times) (kept_for wide.old.entries v)) }
{
    let row = key.to_row(alloc)?;
    wide.insert(row, times)?;
    Ok(())
}

/// The same times, each found by its row itself.
pub(crate) fn widened<K: RowKey>(
    alloc: Global,
    kept: KeyedRows<K>,
) -> Result<KeyedRows<Row>, AllocError>
    ensures times { IfOk result (λ wide. (v : List Value) →
        list_for (by_rows itself wide) v ≡ list_for (by_rows K.row_of kept) v) }
    ensures some { IfOk result (λ wide. HaveTimes (by_rows K.row_of kept) → HaveTimes (by_rows itself wide)) }
{
    let mut rows = HashMap::new(alloc);
    for (key, times) in kept.rows {
        keep_row(alloc, &mut rows, key, times)?;
    }
    Ok(KeyedRows { rows })
}

fn push_row<K: RowKey>(alloc: Global, out: &mut Vec<Row>, key: &K) -> Result<(), AllocError>
    ensures { OnOk result (out.new.items ≡ out.old.items ++ K.row_of key.now ∷ []) }
{
    let row = key.to_row(alloc)?;
    out.push(row)?;
    Ok(())
}

// The row if its part at the columns of `keys` is one of its rows.
fn push_wanted<K: RowKey>(
    alloc: Global,
    out: &mut Vec<Row>,
    key: &K,
    columns: &[u32],
    keys: &Table,
) -> Result<(), AllocError>
    ensures { OnOk result ((u : List Value) → has_row out.new.items u
        ≡ (has_row out.old.items u || (is_at (row_cmp u) (K.row_of key.now)
        && has_row keys.now.rows (part columns.now keys.now.columns (K.row_of key.now))))) }
{
    if key.has_part(alloc, columns, keys)? {
        push_row(alloc, out, key)?;
    }
    Ok(())
}

fn pour_row<K: RowKey>(
    alloc: Global,
    out: &mut OrderedGroup,
    key: &K,
    times: &Times,
) -> Result<(), AllocError>
    ensures { OnOk result ((u : List Value) → kept_for out.new u ≡ option_or (kept_for out.old u)
        (cond (is_at (row_cmp u) (K.row_of key.now)) (filled times.now) None)) }
{
    let row = key.to_row(alloc)?;
    out.pour_row(alloc, row, times)
}

impl<K: RowKey> KeyedRows<K> {
    pub fn new(alloc: Global) -> Self
        ensures { result ≡ [] }
    {
        KeyedRows {
            rows: HashMap::new(alloc),
        }
    }

    pub fn is_empty(&self) -> bool
        ensures { result ≡ (length self.now == 0) }
    {
        self.rows.len() == 0
    }

    /// The times of a row, with one more.
    pub fn add(&mut self, alloc: Global, key: K, x: u64, bounded: bool) -> Result<(), AllocError>
        requires { ArePast x (list_for (by_rows K.row_of self.old) (K.row_of key)) }
        ensures times { OnOk result ((v : List Value) → list_for (by_rows K.row_of self.new) v
            ≡ cond (is_at (row_cmp (K.row_of key)) v)
            (added bounded (list_for (by_rows K.row_of self.old) v) x) (list_for (by_rows K.row_of self.old) v)) }
        ensures some { OnOk result (HaveTimes (by_rows K.row_of self.old) → HaveTimes (by_rows K.row_of self.new)) }
    {
        let times = self.rows.entry(key)?.or_insert(Times::new());
        times.add(alloc, x, bounded)?;
        Ok(())
    }

    /// Forgets the times of a row that lie further back than `hi`.
    pub fn forget(&mut self, key: K, hi: u64, now: u64)
        ensures times { (v : List Value) → list_for (by_rows K.row_of self.new) v
            ≡ cond (is_at (row_cmp (K.row_of key)) v)
            (recent hi now (list_for (by_rows K.row_of self.old) v)) (list_for (by_rows K.row_of self.old) v) }
        ensures some { HaveTimes (by_rows K.row_of self.old) → HaveTimes (by_rows K.row_of self.new) }
    {
        forget_times(&mut self.rows, key, hi, now);
    }

    /// Whether the times of a row reach.
    pub fn reaches(&self, key: &K, interval: &Interval, x: u64) -> bool
        ensures { result ≡ reaches interval.now (list_for (by_rows K.row_of self.now) (K.row_of key.now)) x }
    {
        match self.rows.get(key) {
            Some(times) => times.reaches(interval, x),
            None => false,
        }
    }

    /// Appends the rows whose times reach.
    pub fn push_reaching(
        &self,
        alloc: Global,
        out: &mut Vec<Row>,
        interval: &Interval,
        x: u64,
    ) -> Result<(), AllocError>
        ensures { OnOk result ((u : List Value) → has_row out.new.items u
            ≡ (has_row out.old.items u || reaches interval.now (list_for (by_rows K.row_of self.now) u) x)) }
    {
        for (key, times) in &self.rows {
            if times.reaches(interval, x) {
                push_row(alloc, out, key)?;
            }
        }
        Ok(())
    }

    /// Appends the rows whose times reach, of those whose part at the columns of `keys` is one of its rows.
    pub fn push_matching(
        &self,
        alloc: Global,
        out: &mut Vec<Row>,
        interval: &Interval,
        x: u64,
        columns: &[u32],
        keys: &Table,
    ) -> Result<(), AllocError>
        ensures { OnOk result ((u : List Value) → has_row out.new.items u
            ≡ (has_row out.old.items u || (reaches interval.now (list_for (by_rows K.row_of self.now) u) x
            && has_row keys.now.rows (part columns.now keys.now.columns u)))) }
    {
        for (key, times) in &self.rows {
            if times.reaches(interval, x) {
                push_wanted(alloc, out, key, columns, keys)?;
            }
        }
        Ok(())
    }

    /// Puts the times of a row in the place of those that it has.
    pub fn put(&mut self, key: K, times: Times) -> Result<(), AllocError>
        ensures times { OnOk result ((v : List Value) → list_for (by_rows K.row_of self.new) v
            ≡ cond (is_at (row_cmp (K.row_of key)) v) times (list_for (by_rows K.row_of self.old) v)) }
        ensures some { OnOk result (0 < length times →
            HaveTimes (by_rows K.row_of self.old) → HaveTimes (by_rows K.row_of self.new)) }
    {
        self.rows.insert(key, times)?;
        Ok(())
    }

    /// Copies the rows that have times into one that has them in order, but those that it has.
    pub fn pour(&self, alloc: Global, out: &mut OrderedGroup) -> Result<(), AllocError>
        ensures { OnOk result ((u : List Value) → kept_for out.new u
            ≡ option_or (kept_for out.old u) (filled (list_for (by_rows K.row_of self.now) u))) }
    {
        for (key, times) in &self.rows {
            pour_row(alloc, out, key, times)?;
        }
        Ok(())
    }
}
