//! Where the left operand's present runs begin.
ghost use Rattle.std.specs.Prelude.{◌≡◌, ◌+◌, ◌<◌, ◌^◌, List, OnOk, IfOk, Some, None, cond, false};
ghost use Rattle.std.specs.BTreeMap.{is_at};
ghost use Rattle.mfotl_model.specs.Tables.{has_row};
ghost use Rattle.mfotl_model.specs.Values.{row_cmp};
ghost use Rattle.mfotl_model.specs.declared.value.Value.{Value};
ghost use Rattle.relations.specs.KeptRows.{kept_for};
ghost use Rattle.until_rows.specs.Starts.{later_start, start_of, start_taken};

use crate::run_starts::RunStarts;
use mfotl_model::Row;
use std::alloc::{AllocError, Global};

// The run of one row goes on, or begins at the position `place`, and no other does. A function apart, as `kept_starts`
// and `break_starts` are: where the only run goes on, as at each position of an EVENTUALLY but the first, none of them
// is called.
#[inline(never)]
fn begin_alone(
    alloc: Global,
    starts: &mut RunStarts,
    row: &Row,
    place: u64,
) -> Result<(), AllocError>
    ensures { OnOk result ((w : List Value) → kept_for starts.new w
        ≡ cond (is_at (row_cmp row.now) w) (Some (start_of false place starts.old w)) None) }
{
    let start = starts.start_at(false, place, row);
    starts.put_alone(alloc, row.copy(alloc)?, start);
    Ok(())
}

// Where this row's run is the only one already, nothing changes.
fn keep_alone(
    alloc: Global,
    starts: &mut RunStarts,
    row: &Row,
    place: u64,
) -> Result<(), AllocError>
    ensures { OnOk result ((w : List Value) → kept_for starts.new w
        ≡ cond (is_at (row_cmp row.now) w) (Some (start_of false place starts.old w)) None) }
{
    if starts.has_only(row) {
        return Ok(());
    }
    begin_alone(alloc, starts, row, place)
}

fn keep_start(
    alloc: Global,
    kept: &mut RunStarts,
    starts: &RunStarts,
    row: &Row,
    place: u64,
) -> Result<(), AllocError>
    ensures { OnOk result ((w : List Value) → kept_for kept.new w
        ≡ cond (is_at (row_cmp row.now) w) (Some (start_of false place starts.now row.now)) (kept_for kept.old w)) }
{
    kept.insert(row.copy(alloc)?, starts.start_at(false, place, row))?;
    Ok(())
}

// the runs that go on or begin at the position `place`
#[inline(never)]
fn kept_starts(
    alloc: Global,
    starts: &RunStarts,
    table: &[Row],
    place: u64,
) -> Result<RunStarts, AllocError>
    ensures { IfOk result (λ kept. (w : List Value) → kept_for kept w
        ≡ cond (has_row table.now w) (Some (start_of false place starts.now w)) None) }
{
    let mut kept = RunStarts::new(alloc);
    for row in table {
        keep_start(alloc, &mut kept, starts, row, place)?;
    }
    Ok(kept)
}

// only those runs are kept
fn keep_starts(
    alloc: Global,
    starts: &mut RunStarts,
    table: &[Row],
    place: u64,
) -> Result<(), AllocError>
    ensures { OnOk result ((w : List Value) → kept_for starts.new w
        ≡ cond (has_row table.now w) (Some (start_of false place starts.old w)) None) }
{
    if table.len() == 1 {
        keep_alone(alloc, starts, &table[0], place)?;
    } else {
        *starts = kept_starts(alloc, starts, table, place)?;
    }
    Ok(())
}

// the runs that break, and begin anew at the position `behind`
#[inline(never)]
fn break_starts(
    alloc: Global,
    starts: &mut RunStarts,
    table: &[Row],
    behind: u64,
) -> Result<(), AllocError>
    ensures { OnOk result ((w : List Value) → kept_for starts.new w
        ≡ cond (has_row table.now w) (Some behind) (kept_for starts.old w)) }
{
    for row in table {
        starts.insert(row.copy(alloc)?, behind)?;
    }
    Ok(())
}

// forgets the start of one row where it is not behind the position `next`
fn forget_start(starts: &mut RunStarts, row: &Row, next: u64)
    ensures { (w : List Value) → kept_for starts.new w
        ≡ cond (is_at (row_cmp row.now) w) (later_start next (kept_for starts.old w))
        (kept_for starts.old w) }
{
    let Some(start) = starts.get(row) else {
        return;
    };
    if start <= next {
        starts.remove(row);
    }
}

impl RunStarts {
    /// Where the run of a row begins, when the positions before `place` were taken.
    pub fn start_at(&self, negated: bool, place: u64, row: &Row) -> u64
        ensures { result ≡ start_of negated place self.now row.now }
    {
        match self.get(row) {
            Some(start) => start,
            None => { if negated { 0 } else { place } }
        }
    }

    /// Applies the rows of the left operand's table at the position `place`.
    pub fn apply_left(
        &mut self,
        alloc: Global,
        negated: bool,
        table: &[Row],
        place: u64,
    ) -> Result<(), AllocError>
        requires { place < 2 ^ 63 }
        ensures { OnOk result ((w : List Value) → kept_for self.new w
            ≡ start_taken negated place table.now self.old w) }
    {
        if negated {
            break_starts(alloc, self, table, place + 1)
        } else {
            keep_starts(alloc, self, table, place)
        }
    }

    /// Forgets the starts of these rows that are not behind the position `next`.
    pub fn forget(&mut self, table: &[Row], next: u64)
        ensures { (w : List Value) → kept_for self.new w
            ≡ cond (has_row table.now w) (later_start next (kept_for self.old w)) (kept_for self.old w) }
    {
        for row in table {
            forget_start(self, row, next);
        }
    }
}
