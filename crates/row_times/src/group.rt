//! Rows with the times kept for them.
ghost use Rattle.std.specs.Prelude.{◌≡◌, ◌||◌, ◌&&◌, ◌==◌, ◌∷◌, ◌<◌, [], List, OnOk, cond, length};
ghost use Rattle.std.specs.BTreeMap.{is_at};
ghost use Rattle.mfotl_model.specs.Values.{row_cmp};
ghost use Rattle.mfotl_model.specs.declared.value.Value.{Value};
ghost use Rattle.row_times.specs.Groups.{HaveTimes};
ghost use Rattle.mfotl_model.specs.Tables.{has_row, part};
ghost use Rattle.row_times.specs.Times.{ArePast, added, reaches, recent};
ghost use Rattle.std.specs.Option.{option_or};
ghost use Rattle.mfotl_model.specs.declared.interval.Interval.{Interval};
ghost use Rattle.relations.specs.KeptRows.{filled, kept_for, list_for};

use crate::held::{Held, with_recent, with_time, with_times};
use crate::keys::has_part;
use crate::ordered::OrderedGroup;
use crate::times::Times;
use mfotl_model::{Interval, Row};
use relations::Table;
use std::alloc::{AllocError, Global};
use std::marker::Model;
use std::mem;

#[derive(Drop)]
pub struct Group {
    held: Held,
}

impl Model for Group {
    ghost use Rattle.std.specs.Prelude.{List, ℕ};
    ghost use Rattle.mfotl_model.specs.declared.value.Value.{Value as OneValue};
    ghost use Rattle.row_times.specs.HeldTimes.{held_times};

    ghost Value = { List (List OneValue × List ℕ) };

    ghost view = { λ g. held_times g.held };
}

fn row_reaches(first: &Row, times: &Times, row: &Row, interval: &Interval, x: u64) -> bool
    ensures { result ≡ reaches interval.now (list_for ((first.now, times.now) ∷ []) row.now) x }
{
    if *first == *row {
        return times.reaches(interval, x);
    }
    false
}

fn push_row(
    alloc: Global,
    out: &mut Vec<Row>,
    row: &Row,
    times: &Times,
    interval: &Interval,
    x: u64,
) -> Result<(), AllocError>
    ensures { OnOk result ((u : List Value) → has_row out.new.items u
        ≡ (has_row out.old.items u || reaches interval.now (list_for ((row.now, times.now) ∷ []) u) x)) }
{
    if times.reaches(interval, x) {
        out.push(row.copy(alloc)?)?;
    }
    Ok(())
}

impl Group {
    pub fn new() -> Self
        ensures { result ≡ [] }
    {
        Group { held: Held::Zero }
    }

    pub fn is_empty(&self) -> bool
        ensures { result ≡ (length self.now == 0) }
    {
        match &self.held {
            Held::Zero => true,
            Held::One(_, _) => false,
            Held::Few(rows) => rows.is_empty(),
            Held::Many(rows) => rows.is_empty(),
        }
    }

    /// The times of a row, with one more.
    pub fn add(&mut self, alloc: Global, row: Row, x: u64, bounded: bool) -> Result<(), AllocError>
        requires { ArePast x (list_for self.old row) }
        ensures times { OnOk result ((v : List Value) → list_for self.new v
            ≡ cond (is_at (row_cmp row) v)
            (added bounded (list_for self.old v) x) (list_for self.old v)) }
        ensures some { OnOk result (HaveTimes self.old → HaveTimes self.new) }
    {
        match &mut self.held {
            Held::Many(rows) => rows.add(alloc, row, x, bounded),
            Held::Few(rows) => {
                if rows.has_room_for(&row) {
                    return rows.add(alloc, row, x, bounded);
                }
                self.add_anew(alloc, row, x, bounded)
            }
            _ => self.add_anew(alloc, row, x, bounded),
        }
    }

    // The same where the rows may have to stand elsewhere.
    fn add_anew(&mut self, alloc: Global, row: Row, x: u64, bounded: bool) -> Result<(), AllocError>
        requires { ArePast x (list_for self.old row) }
        ensures times { OnOk result ((v : List Value) → list_for self.new v
            ≡ cond (is_at (row_cmp row) v)
            (added bounded (list_for self.old v) x) (list_for self.old v)) }
        ensures some { OnOk result (HaveTimes self.old → HaveTimes self.new) }
    {
        let held = mem::replace(&mut self.held, Held::Zero);
        self.held = with_time(alloc, held, row, x, bounded)?;
        Ok(())
    }

    /// Forgets the times of a row that lie further back than `hi`.
    pub fn forget(&mut self, row: Row, hi: u64, now: u64)
        ensures times { (v : List Value) → list_for self.new v
            ≡ cond (is_at (row_cmp row) v)
            (recent hi now (list_for self.old v)) (list_for self.old v) }
        ensures some { HaveTimes self.old → HaveTimes self.new }
    {
        match &mut self.held {
            Held::Many(rows) => rows.forget(row, hi, now),
            Held::Few(rows) => rows.forget(&row, hi, now),
            _ => self.forget_anew(row, hi, now),
        }
    }

    // The same where the row may have to go from its place.
    fn forget_anew(&mut self, row: Row, hi: u64, now: u64)
        ensures times { (v : List Value) → list_for self.new v
            ≡ cond (is_at (row_cmp row) v)
            (recent hi now (list_for self.old v)) (list_for self.old v) }
        ensures some { HaveTimes self.old → HaveTimes self.new }
    {
        let held = mem::replace(&mut self.held, Held::Zero);
        self.held = with_recent(held, row, hi, now);
    }

    /// Whether the times of a row reach.
    pub fn reaches(&self, row: &Row, interval: &Interval, x: u64) -> bool
        ensures { result ≡ reaches interval.now (list_for self.now row.now) x }
    {
        match &self.held {
            Held::Zero => false,
            Held::One(first, times) => row_reaches(first, times, row, interval, x),
            Held::Few(rows) => rows.reaches(row, interval, x),
            Held::Many(rows) => rows.reaches(row, interval, x),
        }
    }

    /// Appends the rows whose times reach.
    pub fn push_reaching(
        &self,
        alloc: Global,
        out: &mut Vec<Row>,
        interval: &Interval,
        x: u64,
    ) -> Result<(), AllocError>
        ensures { OnOk result ((u : List Value) → has_row out.new.items u
            ≡ (has_row out.old.items u || reaches interval.now (list_for self.now u) x)) }
    {
        match &self.held {
            Held::Zero => Ok(()),
            Held::One(row, times) => push_row(alloc, out, row, times, interval, x),
            Held::Few(rows) => rows.push_reaching(alloc, out, interval, x),
            Held::Many(rows) => rows.push_reaching(alloc, out, interval, x),
        }
    }

    /// Appends the rows whose times reach, of those whose part at the columns of `keys` is one of its rows.
    pub fn push_matching(
        &self,
        alloc: Global,
        out: &mut Vec<Row>,
        interval: &Interval,
        x: u64,
        columns: &[u32],
        keys: &Table,
    ) -> Result<(), AllocError>
        ensures { OnOk result ((u : List Value) → has_row out.new.items u
            ≡ (has_row out.old.items u || (reaches interval.now (list_for self.now u) x
            && has_row keys.now.rows (part columns.now keys.now.columns u)))) }
    {
        match &self.held {
            Held::Zero => Ok(()),
            Held::One(row, times) => {
                if times.reaches(interval, x) && has_part(alloc, columns, row, keys)? {
                    out.push(row.copy(alloc)?)?;
                }
                Ok(())
            }
            Held::Few(rows) => rows.push_matching(alloc, out, interval, x, columns, keys),
            Held::Many(rows) => rows.push_matching(alloc, out, interval, x, columns, keys),
        }
    }

    /// Puts the times of a row in the place of those that it has.
    pub fn put(&mut self, alloc: Global, row: Row, times: Times) -> Result<(), AllocError>
        ensures times { OnOk result ((v : List Value) → list_for self.new v
            ≡ cond (is_at (row_cmp row) v) times (list_for self.old v)) }
        ensures some { OnOk result (0 < length times → HaveTimes self.old → HaveTimes self.new) }
    {
        let held = mem::replace(&mut self.held, Held::Zero);
        self.held = with_times(alloc, held, row, times)?;
        Ok(())
    }

    /// Copies the rows that have times into one that has them in order, but those that it has.
    pub fn pour(&self, alloc: Global, out: &mut OrderedGroup) -> Result<(), AllocError>
        ensures { OnOk result ((u : List Value) → kept_for out.new u
            ≡ option_or (kept_for out.old u) (filled (list_for self.now u))) }
    {
        match &self.held {
            Held::Zero => Ok(()),
            Held::One(row, times) => out.pour_row(alloc, row.copy(alloc)?, times),
            Held::Few(rows) => rows.pour(alloc, out),
            Held::Many(rows) => rows.pour(alloc, out),
        }
    }
}
