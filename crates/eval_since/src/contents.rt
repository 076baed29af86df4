//! What a window keeps, and how it goes on by a position.
ghost use Rattle.std.specs.Prelude.{◌≡◌, ◌||◌, ◌&&◌, ◌-◌, ◌≤◌, [], ℕ, IfOk, IsTrue, List, OnOk, cond, length, map};
ghost use Rattle.std.specs.BTreeMap.{is_at};
ghost use Rattle.std.specs.List.{AllByRecursion};
ghost use Rattle.mfotl_model.specs.Intervals.{in_interval};
ghost use Rattle.mfotl_model.specs.Tables.{all_apart, all_sized, has_row, part};
ghost use Rattle.mfotl_model.specs.Values.{row_cmp};
ghost use Rattle.mfotl_model.specs.declared.value.Value.{Value};
ghost use Rattle.row_times.specs.Groups.{NoneEmpty, times_at};
ghost use Rattle.eval_since.specs.LeftOperand.{lead, left_has};
ghost use Rattle.relations.specs.KeptRows.{RowsAscend};
ghost use Rattle.row_times.specs.KeptTimes.{times_for, times_kept};
ghost use Rattle.eval_since.specs.SinceData.{KeepsTimes};
ghost use Rattle.row_times.specs.Times.{added, reaches};
ghost use Rattle.eval_since.specs.Windows.{Keeps, Past, Queues};

use crate::expiry::expire;
use crate::keys::holds_on;
use crate::rebuild::{dated_rows, grouped};
use mfotl_model::{Interval, Row};
use relations::{Table, part_of};
use row_times::{Groups, KeptRow, PackedRows, packed};
use std::alloc::{AllocError, Global};
use std::collections::VecDeque;

/// The rows of one table of the right operand, with its time.
#[derive(Drop)]
pub struct Dated {
    pub ts: u64,
    pub rows: PackedRows,
}

// rows go on where the left operand holds at the new position
fn apply_left(
    alloc: Global,
    groups: &mut Groups,
    closed: bool,
    negated: bool,
    lefts: &Table,
) -> Result<(), AllocError>
    ensures times { OnOk result ((q v : List Value) → times_at groups.new q v
        ≡ cond (left_has negated lefts.now.rows (lead closed q)) (times_at groups.old q v) []) }
    ensures some { OnOk result (NoneEmpty groups.old → NoneEmpty groups.new) }
{
    if closed {
        apply_closed(alloc, groups, holds_on(negated, lefts, &Row::empty()));
        Ok(())
    } else {
        apply_rows(alloc, groups, negated, lefts)
    }
}

// all rows go on, or none
fn apply_closed(alloc: Global, groups: &mut Groups, held: bool)
    ensures times { (q v : List Value) → times_at groups.new q v ≡ cond held (times_at groups.old q v) [] }
    ensures some { NoneEmpty groups.old → NoneEmpty groups.new }
{
    if !held {
        *groups = Groups::new(alloc);
    }
}

// those of each group go on of whose values the left operand holds
fn apply_rows(
    alloc: Global,
    groups: &mut Groups,
    negated: bool,
    lefts: &Table,
) -> Result<(), AllocError>
    ensures times { OnOk result ((q v : List Value) → times_at groups.new q v
        ≡ cond (left_has negated lefts.now.rows q) (times_at groups.old q v) []) }
    ensures some { OnOk result (NoneEmpty groups.old → NoneEmpty groups.new) }
{
    if negated {
        groups.drop_groups(lefts.rows());
        Ok(())
    } else {
        groups.keep(alloc, lefts)
    }
}

// rows begin where the right operand holds at the new position
fn add_rows(
    alloc: Global,
    groups: &mut Groups,
    right: &[u32],
    left: &[u32],
    rows: &[Row],
    now: u64,
    bounded: bool,
) -> Result<(), AllocError>
    requires { Past now groups.old }
    ensures times { OnOk result ((q v : List Value) → times_at groups.new q v
        ≡ cond (is_at (row_cmp (part right.now left.now v)) q && has_row rows.now v)
        (added bounded (times_at groups.old q v) now) (times_at groups.old q v)) }
    ensures some { OnOk result (NoneEmpty groups.old → NoneEmpty groups.new) }
{
    if left.is_empty() {
        return groups.add_ungrouped(alloc, rows, now, bounded);
    }
    for row in rows {
        let key = part_of(alloc, right, left, row.values())?;
        groups.add(alloc, key, row.copy(alloc)?, now, bounded)?;
    }
    Ok(())
}

// a time without rows isn't looked for when it is old
fn put_dated(
    alloc: Global,
    queue: &mut VecDeque<Dated>,
    rows: Vec<Row>,
    ts: u64,
) -> Result<(), AllocError>
    ensures { OnOk result (Queues queue.old.items ts rows.items queue.new.items) }
{
    if rows.is_empty() {
        return Ok(());
    }
    let rows = packed(alloc, rows)?;
    queue.push_back(Dated { ts, rows })?;
    Ok(())
}

/// What a window keeps, and the rows that its times came with, oldest first, so that old times are
/// found. Without an upper end nothing gets old, and no rows are kept for that.
#[derive(Drop)]
pub struct Contents {
    pub groups: Groups,
    pub dated: VecDeque<Dated>,
}

impl Contents {
    pub fn new(alloc: Global) -> Self
        ensures groups { result.groups ≡ [] }
        ensures dated { result.dated.items ≡ [] }
    {
        Contents {
            groups: Groups::new(alloc),
            dated: VecDeque::new(alloc),
        }
    }
}

/// One position more: the left operand's table, then the right operand's rows. Without memory what is
/// left is right for nothing.
pub fn step(
    alloc: Global,
    contents: &mut Contents,
    interval: &Interval,
    right: &[u32],
    keys: &[u32],
    closed: bool,
    negated: bool,
    lefts: &Table,
    rights: Vec<Row>,
    last: u64,
    now: u64,
) -> Result<(), AllocError>
    requires kept { Keeps interval.now.hi right.now keys.now last contents.old.groups contents.old.dated.items }
    requires sized { IsTrue (all_sized (length right.now) rights.items) }
    requires rises { last ≤ now }
    ensures within { OnOk result ((x : ℕ) (u : List Value) → now ≤ x →
        reaches interval.now (times_at contents.new.groups (part right.now keys.now u) u) x
        ≡ ((reaches interval.now (times_at contents.old.groups (part right.now keys.now u) u) x
        && left_has negated lefts.now.rows (lead closed (part right.now keys.now u)))
        || (in_interval interval.now (x - now) && has_row rights.items u))) }
    ensures kept { OnOk result (
        Keeps interval.now.hi right.now keys.now now contents.new.groups contents.new.dated.items) }
{
    apply_left(alloc, &mut contents.groups, closed, negated, lefts)?;
    let rows = rights.as_slice();
    add_rows(
        alloc,
        &mut contents.groups,
        right,
        keys,
        rows,
        now,
        interval.hi.is_some(),
    )?;
    let Some(hi) = interval.hi else {
        return Ok(());
    };
    put_dated(alloc, &mut contents.dated, rights, now)?;
    expire(
        alloc,
        &mut contents.groups,
        &mut contents.dated,
        right,
        keys,
        now,
        hi,
    )?;
    Ok(())
}

/// What a window keeps with these rows.
pub fn restored(
    alloc: Global,
    interval: &Interval,
    right: &[u32],
    left: &[u32],
    last: u64,
    rows: Vec<KeptRow>,
) -> Result<Contents, AllocError>
    requires apart { IsTrue (all_apart right.now) }
    requires rows { RowsAscend (times_kept rows.items) }
    requires sized { IsTrue (all_sized (length right.now) (map (λ k. k.row) rows.items)) }
    requires kept { AllByRecursion (λ k. KeepsTimes interval.now.hi last k.times.items) rows.items }
    ensures kept { IfOk result (λ contents.
        Keeps interval.now.hi right.now left.now last contents.groups contents.dated.items) }
    ensures times { IfOk result (λ contents. (q v : List Value) → times_at contents.groups q v
        ≡ cond (is_at (row_cmp (part right.now left.now v)) q) (times_for rows.items v) []) }
{
    if interval.hi.is_none() {
        let groups = grouped(alloc, right, left, rows)?;
        let dated = VecDeque::new(alloc);
        return Ok(Contents { groups, dated });
    }
    let dated = dated_rows(alloc, rows.as_slice())?;
    let groups = grouped(alloc, right, left, rows)?;
    Ok(Contents { groups, dated })
}
