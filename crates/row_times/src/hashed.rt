//! Many rows with the times kept for them, each found by its hash.
ghost use Rattle.std.specs.Prelude.{◌≡◌, ◌||◌, ◌&&◌, ◌==◌, ◌<◌, [], IfOk, List, OnOk, cond, length};
ghost use Rattle.std.specs.BTreeMap.{is_at};
ghost use Rattle.mfotl_model.specs.Values.{row_cmp};
ghost use Rattle.mfotl_model.specs.declared.value.Value.{Value};
ghost use Rattle.row_times.specs.Groups.{HaveTimes};
ghost use Rattle.row_times.specs.HashedTimes.{stored_times};
ghost use Rattle.row_times.specs.RowKeys.{by_rows, itself, one_int};
ghost use Rattle.mfotl_model.specs.Tables.{has_row, part};
ghost use Rattle.row_times.specs.Times.{ArePast, added, reaches, recent};
ghost use Rattle.std.specs.Option.{option_or};
ghost use Rattle.mfotl_model.specs.declared.interval.Interval.{Interval};
ghost use Rattle.relations.specs.KeptRows.{filled, kept_for, list_for};

use crate::keyed::{KeyedRows, widened};
use crate::ordered::OrderedGroup;
use crate::row_key::int_of;
use crate::times::Times;
use mfotl_model::{Interval, Row};
use relations::Table;
use std::alloc::{AllocError, Global};
use std::marker::Model;
use std::mem;

// Rows of one integer each stand as these integers: a row has room for two values. The first row of another kind
// brings all into rows.
#[derive(Drop)]
enum Stored {
    Ints(KeyedRows<i64>),
    Wide(KeyedRows<Row>),
}

#[derive(Drop)]
pub(crate) struct Hashed {
    stored: Stored,
}

impl Model for Hashed {
    ghost use Rattle.std.specs.Prelude.{List, ℕ};
    ghost use Rattle.mfotl_model.specs.declared.value.Value.{Value as OneValue};
    ghost use Rattle.row_times.specs.HashedTimes.{stored_times};

    ghost Value = { List (List OneValue × List ℕ) };

    ghost view = { λ g. stored_times g.stored };
}

fn wide(alloc: Global, stored: Stored) -> Result<KeyedRows<Row>, AllocError>
    ensures times { IfOk result (λ rows. (v : List Value) →
        list_for (by_rows itself rows) v ≡ list_for (stored_times stored) v) }
    ensures some { IfOk result (λ rows. HaveTimes (stored_times stored) → HaveTimes (by_rows itself rows)) }
{
    match stored {
        Stored::Ints(rows) => widened(alloc, rows),
        Stored::Wide(rows) => Ok(rows),
    }
}

fn wide_time(
    alloc: Global,
    stored: Stored,
    row: Row,
    x: u64,
    bounded: bool,
) -> Result<Stored, AllocError>
    requires { ArePast x (list_for (stored_times stored) row) }
    ensures times { IfOk result (λ more. (v : List Value) → list_for (stored_times more) v
        ≡ cond (is_at (row_cmp row) v)
        (added bounded (list_for (stored_times stored) v) x) (list_for (stored_times stored) v)) }
    ensures some { IfOk result (λ more.
        HaveTimes (stored_times stored) → HaveTimes (stored_times more)) }
{
    let mut rows = wide(alloc, stored)?;
    rows.add(alloc, row, x, bounded)?;
    Ok(Stored::Wide(rows))
}

fn wide_put(alloc: Global, stored: Stored, row: Row, times: Times) -> Result<Stored, AllocError>
    ensures times { IfOk result (λ more. (v : List Value) → list_for (stored_times more) v
        ≡ cond (is_at (row_cmp row) v) times (list_for (stored_times stored) v)) }
    ensures some { IfOk result (λ more.
        0 < length times → HaveTimes (stored_times stored) → HaveTimes (stored_times more)) }
{
    let mut rows = wide(alloc, stored)?;
    rows.put(row, times)?;
    Ok(Stored::Wide(rows))
}

// A row of other values has no times here.
fn forget_int(rows: &mut KeyedRows<i64>, row: &Row, hi: u64, now: u64)
    ensures times { (v : List Value) → list_for (by_rows one_int rows.new) v
        ≡ cond (is_at (row_cmp row.now) v)
        (recent hi now (list_for (by_rows one_int rows.old) v)) (list_for (by_rows one_int rows.old) v) }
    ensures some { HaveTimes (by_rows one_int rows.old) → HaveTimes (by_rows one_int rows.new) }
{
    match int_of(row) {
        Some(number) => rows.forget(number, hi, now),
        None => {}
    }
}

impl Hashed {
    pub fn new(alloc: Global) -> Self
        ensures { result ≡ [] }
    {
        Hashed {
            stored: Stored::Ints(KeyedRows::new(alloc)),
        }
    }

    pub fn is_empty(&self) -> bool
        ensures { result ≡ (length self.now == 0) }
    {
        match &self.stored {
            Stored::Ints(rows) => rows.is_empty(),
            Stored::Wide(rows) => rows.is_empty(),
        }
    }

    /// The times of a row, with one more.
    pub fn add(&mut self, alloc: Global, row: Row, x: u64, bounded: bool) -> Result<(), AllocError>
        requires { ArePast x (list_for self.old row) }
        ensures times { OnOk result ((v : List Value) → list_for self.new v
            ≡ cond (is_at (row_cmp row) v)
            (added bounded (list_for self.old v) x) (list_for self.old v)) }
        ensures some { OnOk result (HaveTimes self.old → HaveTimes self.new) }
    {
        match &mut self.stored {
            Stored::Wide(rows) => rows.add(alloc, row, x, bounded),
            Stored::Ints(rows) => {
                if let Some(number) = int_of(&row) {
                    return rows.add(alloc, number, x, bounded);
                }
                self.add_wide(alloc, row, x, bounded)
            }
        }
    }

    // The same once all stand as rows.
    fn add_wide(&mut self, alloc: Global, row: Row, x: u64, bounded: bool) -> Result<(), AllocError>
        requires { ArePast x (list_for self.old row) }
        ensures times { OnOk result ((v : List Value) → list_for self.new v
            ≡ cond (is_at (row_cmp row) v)
            (added bounded (list_for self.old v) x) (list_for self.old v)) }
        ensures some { OnOk result (HaveTimes self.old → HaveTimes self.new) }
    {
        let stored = mem::replace(&mut self.stored, Stored::Ints(KeyedRows::new(alloc)));
        self.stored = wide_time(alloc, stored, row, x, bounded)?;
        Ok(())
    }

    /// Forgets the times of a row that lie further back than `hi`.
    pub fn forget(&mut self, row: Row, hi: u64, now: u64)
        ensures times { (v : List Value) → list_for self.new v
            ≡ cond (is_at (row_cmp row) v)
            (recent hi now (list_for self.old v)) (list_for self.old v) }
        ensures some { HaveTimes self.old → HaveTimes self.new }
    {
        match &mut self.stored {
            Stored::Wide(rows) => rows.forget(row, hi, now),
            Stored::Ints(rows) => forget_int(rows, &row, hi, now),
        }
    }

    /// Whether the times of a row reach.
    pub fn reaches(&self, row: &Row, interval: &Interval, x: u64) -> bool
        ensures { result ≡ reaches interval.now (list_for self.now row.now) x }
    {
        match &self.stored {
            Stored::Wide(rows) => rows.reaches(row, interval, x),
            Stored::Ints(rows) => match int_of(row) {
                Some(number) => rows.reaches(&number, interval, x),
                None => false,
            },
        }
    }

    /// Appends the rows whose times reach.
    pub fn push_reaching(
        &self,
        alloc: Global,
        out: &mut Vec<Row>,
        interval: &Interval,
        x: u64,
    ) -> Result<(), AllocError>
        ensures { OnOk result ((u : List Value) → has_row out.new.items u
            ≡ (has_row out.old.items u || reaches interval.now (list_for self.now u) x)) }
    {
        match &self.stored {
            Stored::Ints(rows) => rows.push_reaching(alloc, out, interval, x),
            Stored::Wide(rows) => rows.push_reaching(alloc, out, interval, x),
        }
    }

    /// Appends the rows whose times reach, of those whose part at the columns of `keys` is one of its rows.
    pub fn push_matching(
        &self,
        alloc: Global,
        out: &mut Vec<Row>,
        interval: &Interval,
        x: u64,
        columns: &[u32],
        keys: &Table,
    ) -> Result<(), AllocError>
        ensures { OnOk result ((u : List Value) → has_row out.new.items u
            ≡ (has_row out.old.items u || (reaches interval.now (list_for self.now u) x
            && has_row keys.now.rows (part columns.now keys.now.columns u)))) }
    {
        match &self.stored {
            Stored::Ints(rows) => rows.push_matching(alloc, out, interval, x, columns, keys),
            Stored::Wide(rows) => rows.push_matching(alloc, out, interval, x, columns, keys),
        }
    }

    /// Puts the times of a row in the place of those that it has.
    pub fn put(&mut self, alloc: Global, row: Row, times: Times) -> Result<(), AllocError>
        ensures times { OnOk result ((v : List Value) → list_for self.new v
            ≡ cond (is_at (row_cmp row) v) times (list_for self.old v)) }
        ensures some { OnOk result (0 < length times → HaveTimes self.old → HaveTimes self.new) }
    {
        match &mut self.stored {
            Stored::Wide(rows) => rows.put(row, times),
            Stored::Ints(rows) => {
                if let Some(number) = int_of(&row) {
                    return rows.put(number, times);
                }
                self.put_wide(alloc, row, times)
            }
        }
    }

    // The same once all stand as rows.
    fn put_wide(&mut self, alloc: Global, row: Row, times: Times) -> Result<(), AllocError>
        ensures times { OnOk result ((v : List Value) → list_for self.new v
            ≡ cond (is_at (row_cmp row) v) times (list_for self.old v)) }
        ensures some { OnOk result (0 < length times → HaveTimes self.old → HaveTimes self.new) }
    {
        let stored = mem::replace(&mut self.stored, Stored::Ints(KeyedRows::new(alloc)));
        self.stored = wide_put(alloc, stored, row, times)?;
        Ok(())
    }

    /// Copies the rows that have times into one that has them in order, but those that it has.
    pub fn pour(&self, alloc: Global, out: &mut OrderedGroup) -> Result<(), AllocError>
        ensures { OnOk result ((u : List Value) → kept_for out.new u
            ≡ option_or (kept_for out.old u) (filled (list_for self.now u))) }
    {
        match &self.stored {
            Stored::Ints(rows) => rows.pour(alloc, out),
            Stored::Wide(rows) => rows.pour(alloc, out),
        }
    }
}
