//! A few rows with the times kept for them, each found by looking at them in turn.
ghost use Rattle.std.specs.Prelude.{◌≡◌, ◌||◌, ◌&&◌, ◌==◌, ◌∷◌, ◌<◌, [], IfOk, List, None, OnOk, cond};
ghost use Rattle.std.specs.Prelude.{length, nat_lt, position};
ghost use Rattle.std.specs.BTreeMap.{is_at};
ghost use Rattle.std.specs.Option.{is_some, option_or};
ghost use Rattle.mfotl_model.specs.Tables.{has_row, part};
ghost use Rattle.mfotl_model.specs.Values.{row_cmp};
ghost use Rattle.mfotl_model.specs.declared.interval.Interval.{Interval};
ghost use Rattle.mfotl_model.specs.declared.value.Value.{Value};
ghost use Rattle.relations.specs.KeptRows.{filled, kept_for, list_for};
ghost use Rattle.row_times.specs.Groups.{HaveTimes};
ghost use Rattle.row_times.specs.Times.{ArePast, added, reaches, recent};

use crate::hashed::Hashed;
use crate::keys::has_part;
use crate::ordered::OrderedGroup;
use crate::times::Times;
use mfotl_model::{Interval, Row};
use relations::Table;
use std::alloc::{AllocError, Global};
use std::marker::Model;

// How many rows are looked at in turn: a map takes several blocks of memory, and two hashes for each look-up.
const MOST_FEW: usize = 8;

#[derive(Drop)]
pub(crate) struct FewRows {
    rows: Vec<(Row, Times)>,
}

impl Model for FewRows {
    ghost use Rattle.std.specs.Prelude.{List, ℕ};
    ghost use Rattle.mfotl_model.specs.declared.value.Value.{Value as OneValue};
    ghost use Rattle.relations.specs.KeptRows.{RowsDiffer};

    ghost Value = { List (List OneValue × List ℕ) };

    ghost view = { λ g. g.rows.items };

    ghost invariant = { λ g. RowsDiffer g.rows.items };
}

// The place of a row, if it is there.
fn place_of(rows: &[(Row, Times)], row: &Row) -> Option<usize>
    ensures { result ≡ position (λ e. is_at (row_cmp row.now) e.0) rows.now }
{
    rows.iter().position(|entry| *row == entry.0)
}

impl FewRows {
    /// A first row, with room for a second one.
    pub fn one(alloc: Global, row: Row, times: Times) -> Result<Self, AllocError>
        ensures { IfOk result (λ few. few ≡ (row, times) ∷ []) }
    {
        let mut rows = Vec::with_capacity(alloc, 2)?;
        rows.push((row, times))?;
        Ok(FewRows { rows })
    }

    pub fn is_empty(&self) -> bool
        ensures { result ≡ (length self.now == 0) }
    {
        self.rows.is_empty()
    }

    /// Whether the row is there, or one more still makes few.
    pub fn has_room_for(&self, row: &Row) -> bool
        ensures { result ≡ (nat_lt (length self.now) 8 || is_some (kept_for self.now row.now)) }
    {
        self.rows.len() < MOST_FEW || place_of(self.rows.as_slice(), row).is_some()
    }

    /// The times of a row, with one more.
    pub fn add(&mut self, alloc: Global, row: Row, x: u64, bounded: bool) -> Result<(), AllocError>
        requires { ArePast x (list_for self.old row) }
        ensures times { OnOk result ((v : List Value) → list_for self.new v
            ≡ cond (is_at (row_cmp row) v)
            (added bounded (list_for self.old v) x) (list_for self.old v)) }
        ensures some { OnOk result (HaveTimes self.old → HaveTimes self.new) }
    {
        if let Some(place) = place_of(self.rows.as_slice(), &row) {
            return self.rows[place].1.add(alloc, x, bounded);
        }
        self.add_row(alloc, row, x, bounded)
    }

    // The same of a row that isn't there yet.
    fn add_row(&mut self, alloc: Global, row: Row, x: u64, bounded: bool) -> Result<(), AllocError>
        requires { position (λ e. is_at (row_cmp row) e.0) self.old ≡ None }
        ensures times { OnOk result ((v : List Value) → list_for self.new v
            ≡ cond (is_at (row_cmp row) v)
            (added bounded (list_for self.old v) x) (list_for self.old v)) }
        ensures some { OnOk result (HaveTimes self.old → HaveTimes self.new) }
    {
        let times = Times::first(alloc, x, bounded)?;
        self.rows.push((row, times))?;
        Ok(())
    }

    /// Forgets the times of a row that lie further back than `hi`. A row that is left without times goes.
    pub fn forget(&mut self, row: &Row, hi: u64, now: u64)
        ensures times { (v : List Value) → list_for self.new v
            ≡ cond (is_at (row_cmp row.now) v)
            (recent hi now (list_for self.old v)) (list_for self.old v) }
        ensures some { HaveTimes self.old → HaveTimes self.new }
    {
        let Some(place) = place_of(self.rows.as_slice(), row) else {
            return;
        };
        let times = &mut self.rows[place].1;
        times.forget(hi, now);
        if times.is_empty() {
            drop(self.rows.remove(place));
        }
    }

    /// Whether the times of a row reach.
    pub fn reaches(&self, row: &Row, interval: &Interval, x: u64) -> bool
        ensures { result ≡ reaches interval.now (list_for self.now row.now) x }
    {
        match place_of(self.rows.as_slice(), row) {
            Some(place) => self.rows[place].1.reaches(interval, x),
            None => false,
        }
    }

    /// Appends the rows whose times reach.
    pub fn push_reaching(
        &self,
        alloc: Global,
        out: &mut Vec<Row>,
        interval: &Interval,
        x: u64,
    ) -> Result<(), AllocError>
        ensures { OnOk result ((u : List Value) → has_row out.new.items u
            ≡ (has_row out.old.items u || reaches interval.now (list_for self.now u) x)) }
    {
        for (row, times) in &self.rows {
            if times.reaches(interval, x) {
                out.push(row.copy(alloc)?)?;
            }
        }
        Ok(())
    }

    /// Appends the rows whose times reach, of those whose part at the columns of `keys` is one of its rows.
    pub fn push_matching(
        &self,
        alloc: Global,
        out: &mut Vec<Row>,
        interval: &Interval,
        x: u64,
        columns: &[u32],
        keys: &Table,
    ) -> Result<(), AllocError>
        ensures { OnOk result ((u : List Value) → has_row out.new.items u
            ≡ (has_row out.old.items u || (reaches interval.now (list_for self.now u) x
            && has_row keys.now.rows (part columns.now keys.now.columns u)))) }
    {
        for (row, times) in &self.rows {
            if times.reaches(interval, x) && has_part(alloc, columns, row, keys)? {
                out.push(row.copy(alloc)?)?;
            }
        }
        Ok(())
    }

    /// Puts the times of a row in the place of those that it has.
    pub fn put(&mut self, row: Row, times: Times) -> Result<(), AllocError>
        ensures times { OnOk result ((v : List Value) → list_for self.new v
            ≡ cond (is_at (row_cmp row) v) times (list_for self.old v)) }
        ensures some { OnOk result (0 < length times → HaveTimes self.old → HaveTimes self.new) }
    {
        if let Some(place) = place_of(self.rows.as_slice(), &row) {
            self.rows[place].1 = times;
            return Ok(());
        }
        self.rows.push((row, times))?;
        Ok(())
    }

    /// Copies the rows that have times into one that has them in order, but those that it has.
    pub fn pour(&self, alloc: Global, out: &mut OrderedGroup) -> Result<(), AllocError>
        ensures { OnOk result ((u : List Value) → kept_for out.new u
            ≡ option_or (kept_for out.old u) (filled (list_for self.now u))) }
    {
        for (row, times) in &self.rows {
            out.pour_row(alloc, row.copy(alloc)?, times)?;
        }
        Ok(())
    }

    /// The same rows with the same times in a map.
    pub fn into_hashed(self, alloc: Global) -> Result<Hashed, AllocError>
        ensures times { IfOk result (λ hashed. (v : List Value) → list_for hashed v ≡ list_for self v) }
        ensures some { IfOk result (λ hashed. HaveTimes self → HaveTimes hashed) }
    {
        let mut hashed = Hashed::new(alloc);
        for (row, times) in self.rows {
            hashed.put(alloc, row, times)?;
        }
        Ok(hashed)
    }
}
