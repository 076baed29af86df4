//! Sets of rows.
ghost use Rattle.std.specs.Prelude.{◌≡◌, ◌==◌, ◌||◌, ◌&&◌, [], false, List, OnOk, IfOk, cond, length};
ghost use Rattle.std.specs.BTreeMap.{is_at};
ghost use Rattle.std.specs.List.{list_any};
ghost use Rattle.mfotl_model.specs.Tables.{has_row};
ghost use Rattle.mfotl_model.specs.Values.{row_cmp};
ghost use Rattle.mfotl_model.specs.declared.value.Value.{Value};
ghost use Rattle.relations.specs.KeptRows.{list_for};
ghost use Rattle.until_rows.specs.Entries.{met_by};
ghost use Rattle.until_rows.specs.HeldRows.{held_rows};

use crate::entries::{Entries, row_met};
use mfotl_model::{Interval, Row};
use std::alloc::{AllocError, Global};
use std::collections::{HashMap, HashSet};
use std::marker::Model;
use std::mem;

// Most sets have one row, and a table takes much more memory than that, even if it is empty.
#[derive(Drop)]
enum Held {
    Zero,
    One(Row),
    Many(Box<HashSet<Row>>),
}

/// A set of rows.
#[derive(Drop)]
pub struct RowSet {
    held: Held,
}

impl Model for RowSet {
    ghost use Rattle.std.specs.Prelude.{List};
    ghost use Rattle.mfotl_model.specs.declared.value.Value.{Value as OneValue};
    ghost use Rattle.until_rows.specs.HeldRows.{held_rows};

    ghost Value = { List (List OneValue) };

    ghost view = { λ s. held_rows s.held };
}

fn put_row(set: &mut HashSet<Row>, row: Row) -> Result<(), AllocError>
    ensures { OnOk result ((u : List Value) →
        has_row set.new.keys u ≡ (has_row set.old.keys u || is_at (row_cmp row) u)) }
{
    set.insert(row)?;
    Ok(())
}

fn two_rows(alloc: Global, first: Row, second: Row) -> Result<Held, AllocError>
    ensures { IfOk result (λ held. (u : List Value) →
        has_row (held_rows held) u ≡ (is_at (row_cmp first) u || is_at (row_cmp second) u)) }
{
    let mut set = HashSet::new(alloc);
    put_row(&mut set, first)?;
    put_row(&mut set, second)?;
    Ok(Held::Many(Box::new(alloc, set)?))
}

fn next_row(alloc: Global, first: Row, row: Row) -> Result<Held, AllocError>
    ensures { IfOk result (λ held. (u : List Value) →
        has_row (held_rows held) u ≡ (is_at (row_cmp first) u || is_at (row_cmp row) u)) }
{
    if first == row {
        return Ok(Held::One(first));
    }
    two_rows(alloc, first, row)
}

fn with_row(alloc: Global, held: Held, row: Row) -> Result<Held, AllocError>
    ensures { IfOk result (λ more. (u : List Value) →
        has_row (held_rows more) u ≡ (has_row (held_rows held) u || is_at (row_cmp row) u)) }
{
    match held {
        Held::Zero => Ok(Held::One(row)),
        Held::One(first) => next_row(alloc, first, row),
        Held::Many(mut set) => {
            put_row(&mut set, row)?;
            Ok(Held::Many(set))
        }
    }
}

fn one_without(first: Row, row: &Row) -> Held
    ensures { (u : List Value) → has_row (held_rows result) u
        ≡ cond (is_at (row_cmp row.now) u) false (is_at (row_cmp first) u) }
{
    if first == *row {
        return Held::Zero;
    }
    Held::One(first)
}

fn without_row(held: Held, row: &Row) -> Held
    ensures { (u : List Value) → has_row (held_rows result) u
        ≡ cond (is_at (row_cmp row.now) u) false (has_row (held_rows held) u) }
{
    match held {
        Held::Zero => Held::Zero,
        Held::One(first) => one_without(first, row),
        Held::Many(mut set) => {
            set.remove(row);
            Held::Many(set)
        }
    }
}

// a row, where some entry of it meets UNTIL at the position `i`, whose time is `x`
fn push_one(
    alloc: Global,
    rows: &HashMap<Row, Entries>,
    out: &mut Vec<Row>,
    row: &Row,
    interval: &Interval,
    i: u64,
    x: u64,
) -> Result<(), AllocError>
    ensures { OnOk result ((u : List Value) → has_row out.new.items u ≡ (has_row out.old.items u
        || (is_at (row_cmp u) row.now && met_by interval.now i x (list_for rows.now.entries u)))) }
{
    if row_met(rows, row, interval, i, x) {
        out.push(row.copy(alloc)?)?;
    }
    Ok(())
}

fn push_each(
    alloc: Global,
    rows: &HashMap<Row, Entries>,
    out: &mut Vec<Row>,
    set: &HashSet<Row>,
    interval: &Interval,
    i: u64,
    x: u64,
) -> Result<(), AllocError>
    ensures { OnOk result ((u : List Value) → has_row out.new.items u ≡ (has_row out.old.items u
        || list_any (λ r. is_at (row_cmp u) r && met_by interval.now i x (list_for rows.now.entries u))
        set.now.keys)) }
{
    for row in set {
        push_one(alloc, rows, out, row, interval, i, x)?;
    }
    Ok(())
}

impl RowSet {
    /// No rows.
    pub fn new() -> Self
        ensures { result ≡ [] }
    {
        RowSet { held: Held::Zero }
    }

    /// Whether the set has no rows.
    pub fn is_empty(&self) -> bool
        ensures { result ≡ (length self.now == 0) }
    {
        match &self.held {
            Held::Zero => true,
            Held::One(_) => false,
            Held::Many(set) => set.is_empty(),
        }
    }

    /// One row more, if the set doesn't have it.
    pub fn add(&mut self, alloc: Global, row: Row) -> Result<(), AllocError>
        ensures { OnOk result ((u : List Value) →
            has_row self.new u ≡ (has_row self.old u || is_at (row_cmp row) u)) }
    {
        let held = mem::replace(&mut self.held, Held::Zero);
        self.held = with_row(alloc, held, row)?;
        Ok(())
    }

    /// Drops a row, if the set has it.
    pub fn remove(&mut self, row: &Row)
        ensures { (u : List Value) → has_row self.new u
            ≡ cond (is_at (row_cmp row.now) u) false (has_row self.old u) }
    {
        let held = mem::replace(&mut self.held, Held::Zero);
        self.held = without_row(held, row);
    }

    /// Appends those rows of the set of which some entry meets UNTIL at the position `i`, whose time is `x`.
    pub fn push_met(
        &self,
        alloc: Global,
        rows: &HashMap<Row, Entries>,
        out: &mut Vec<Row>,
        interval: &Interval,
        i: u64,
        x: u64,
    ) -> Result<(), AllocError>
        ensures { OnOk result ((u : List Value) → has_row out.new.items u ≡ (has_row out.old.items u
            || (has_row self.now u && met_by interval.now i x (list_for rows.now.entries u)))) }
    {
        match &self.held {
            Held::Zero => Ok(()),
            Held::One(row) => push_one(alloc, rows, out, row, interval, i, x),
            Held::Many(set) => push_each(alloc, rows, out, set, interval, i, x),
        }
    }
}
