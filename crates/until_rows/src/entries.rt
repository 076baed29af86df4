//! The entries of one row, by ascending positions.
ghost use Rattle.std.specs.Prelude.{◌≡◌, ◌==◌, ◌∷◌, ◌++◌, ◌<◌, [], List, IfOk, IsTrue, OnOk, length, map};
ghost use Rattle.std.specs.Prelude.{slice_index_or, true};
ghost use Rattle.std.specs.List.{list_all};
ghost use Rattle.relations.specs.KeptRows.{list_for};
ghost use Rattle.until_rows.specs.Entries.{from_place, met_by};
ghost use Rattle.until_rows.specs.Recalled.{entry_at};
ghost use Rattle.until_rows.specs.Rules.{PlacesAscend, all_before};
ghost use Rattle.until_rows.specs.Timed.{is_timed};

use crate::level::{NEVER, level_of, next_level};
use crate::meeting::{first_meets, some_meets};
use crate::recalled::Mark;
use mfotl_model::{Interval, Row};
use short_queue::ShortQueue;
use std::alloc::{AllocError, Global};
use std::collections::{HashMap, VecDeque};
use std::marker::Model;

/// The right operand held of a row at `place`, whose time is `ts`, and the left one from `start` up to
/// the position before.
#[derive(Clone, Copy, Drop)]
pub struct Entry {
    pub place: u64,
    pub start: u64,
    pub ts: u64,
}

/// The entries of one row, by ascending positions. Up to two stand in place.
#[derive(Drop)]
pub struct Entries {
    list: ShortQueue<Entry>,
    // seen from this position on neither times nor starts fall, unless it is NEVER
    level: u64,
}

impl Model for Entries {
    ghost use Rattle.std.specs.Prelude.{List};
    ghost use Rattle.until_rows.specs.Levels.{AreKept};
    ghost use Rattle.until_rows.specs.declared.entries.Entry.{Entry as OneEntry};

    ghost Value = { List OneEntry };

    ghost view = { λ e. e.list };

    ghost invariant = { λ e. AreKept e.level e.list };
}

// a kept entry has the time of its position, which `times` has, too
fn mark_of(entry: Entry, pulled: u64, times: &VecDeque<u64>) -> Mark
    requires { is_timed pulled times.now.items entry ≡ true }
    ensures { entry_at pulled times.now.items result ≡ entry }
{
    Mark {
        place: entry.place,
        start: entry.start,
    }
}

impl Entries {
    pub(crate) fn new() -> Self
        ensures { result ≡ [] }
    {
        Entries {
            list: ShortQueue::new(),
            level: 0,
        }
    }

    /// The entries of a list, by ascending positions.
    pub(crate) fn from_vec(alloc: Global, list: Vec<Entry>) -> Result<Self, AllocError>
        requires { PlacesAscend list.items }
        ensures { IfOk result (λ entries. entries ≡ list.items) }
    {
        let level = level_of(list.as_slice());
        let list = ShortQueue::from_vec(alloc, list)?;
        Ok(Entries { list, level })
    }

    /// The marks of the entries, where `times` are those of the positions from `pulled` on. No time is looked up: the
    /// promise alone names them.
    pub(crate) fn marks(
        &self,
        alloc: Global,
        pulled: u64,
        times: &VecDeque<u64>,
    ) -> Result<Vec<Mark>, AllocError>
        requires { list_all (is_timed pulled times.now.items) self.now ≡ true }
        ensures { IfOk result (λ marks.
            map (entry_at pulled times.now.items) marks.items ≡ self.now) }
    {
        let mut marks = Vec::with_capacity(alloc, self.list.len())?;
        for k in 0..self.list.len() {
            marks.push(mark_of(self.list.get(k), pulled, times))?;
        }
        Ok(marks)
    }

    pub(crate) fn copy(&self, alloc: Global) -> Result<Self, AllocError>
        ensures { IfOk result (λ copy. copy ≡ self.now) }
    {
        let items = self.list.to_vec(alloc)?;
        let list = ShortQueue::from_vec(alloc, items)?;
        Ok(Entries {
            list,
            level: self.level,
        })
    }

    /// How many entries there are.
    pub fn len(&self) -> usize
        ensures { result ≡ length self.now }
    {
        self.list.len()
    }

    /// The entry at a place, the first being at 0.
    pub fn get(&self, place: usize) -> Entry
        requires { place < length self.now }
        ensures { result ≡ slice_index_or self.now place result }
    {
        self.list.get(place)
    }

    pub(crate) fn is_empty(&self) -> bool
        ensures { result ≡ (length self.now == 0) }
    {
        self.list.is_empty()
    }

    /// One entry more, behind the others.
    pub(crate) fn push(&mut self, alloc: Global, entry: Entry) -> Result<(), AllocError>
        requires { IsTrue (all_before entry.place self.old) }
        ensures { OnOk result (self.new ≡ self.old ++ entry ∷ []) }
    {
        let level = next_level(self.level, self.list.back(), entry);
        self.list.push_back(alloc, entry)?;
        self.level = level;
        Ok(())
    }

    /// Forgets what stands before the position `next`.
    pub(crate) fn forget(&mut self, next: u64)
        ensures { self.new ≡ from_place next self.old }
    {
        while let Some(first) = self.list.front() {
            if first.place >= next {
                return;
            }
            self.list.pop_front();
        }
    }

    /// Whether some entry meets UNTIL at the position `i`, whose time is `x`.
    pub(crate) fn met(&self, interval: &Interval, i: u64, x: u64) -> bool
        ensures { result ≡ met_by interval.now i x self.now }
    {
        if self.level <= i && self.level < NEVER {
            first_meets(&self.list, interval, i, x)
        } else {
            some_meets(&self.list, interval, i, x)
        }
    }
}

/// Whether some entry of a row meets UNTIL at the position `i`, whose time is `x`.
pub fn row_met(rows: &HashMap<Row, Entries>, row: &Row, interval: &Interval, i: u64, x: u64) -> bool
    ensures { result ≡ met_by interval.now i x (list_for rows.now.entries row.now) }
{
    match rows.get(row) {
        Some(entries) => entries.met(interval, i, x),
        None => false,
    }
}
