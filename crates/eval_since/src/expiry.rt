//! Old times are forgotten, by the rows that came with them.
ghost use Rattle.std.specs.Prelude.{◌≡◌, ◌&&◌, ◌∷◌, [], ℕ, List, OnOk, cond};
ghost use Rattle.std.specs.BTreeMap.{is_at};
ghost use Rattle.mfotl_model.specs.Tables.{has_row, part};
ghost use Rattle.mfotl_model.specs.Values.{row_cmp};
ghost use Rattle.mfotl_model.specs.declared.value.Value.{Value};
ghost use Rattle.row_times.specs.Groups.{NoneEmpty, times_at};
ghost use Rattle.row_times.specs.PackedRows.{alone, packed_rows};
ghost use Rattle.row_times.specs.Times.{recent};
ghost use Rattle.eval_since.specs.Windows.{Covered, EachHasRows, Fresh, IsThinned, NotAfter, Placed, Rising};

use crate::contents::Dated;
use mfotl_model::{Row, Value as OneValue};
use relations::part_of;
use row_times::{Groups, PackedRows};
use std::alloc::{AllocError, Global};
use std::collections::VecDeque;

// forgets a row's old times
fn forget_row(
    alloc: Global,
    groups: &mut Groups,
    right: &[u32],
    left: &[u32],
    row: Row,
    now: u64,
    hi: u64,
) -> Result<(), AllocError>
    ensures times { OnOk result ((q v : List Value) → times_at groups.new q v
        ≡ cond (is_at (row_cmp (part right.now left.now row)) q && is_at (row_cmp row) v)
        (recent hi now (times_at groups.old q v)) (times_at groups.old q v)) }
    ensures some { OnOk result (NoneEmpty groups.old → NoneEmpty groups.new) }
{
    let key = part_of(alloc, right, left, row.values())?;
    groups.forget(key, row, hi, now);
    Ok(())
}

fn forget_rows(
    alloc: Global,
    groups: &mut Groups,
    right: &[u32],
    left: &[u32],
    rows: Vec<Row>,
    now: u64,
    hi: u64,
) -> Result<(), AllocError>
    ensures times { OnOk result ((q v : List Value) → times_at groups.new q v
        ≡ cond (is_at (row_cmp (part right.now left.now v)) q && has_row rows.items v)
        (recent hi now (times_at groups.old q v)) (times_at groups.old q v)) }
    ensures some { OnOk result (NoneEmpty groups.old → NoneEmpty groups.new) }
{
    for row in rows {
        forget_row(alloc, groups, right, left, row, now, hi)?;
    }
    Ok(())
}

// forgets the old times of a value's row
fn forget_value(
    alloc: Global,
    groups: &mut Groups,
    right: &[u32],
    left: &[u32],
    value: OneValue,
    now: u64,
    hi: u64,
) -> Result<(), AllocError>
    ensures times { OnOk result ((q v : List Value) → times_at groups.new q v
        ≡ cond (is_at (row_cmp (part right.now left.now (value ∷ []))) q && is_at (row_cmp (value ∷ [])) v)
        (recent hi now (times_at groups.old q v)) (times_at groups.old q v)) }
    ensures some { OnOk result (NoneEmpty groups.old → NoneEmpty groups.new) }
{
    let row = Row::empty().push(alloc, value)?;
    forget_row(alloc, groups, right, left, row, now, hi)
}

fn forget_values(
    alloc: Global,
    groups: &mut Groups,
    right: &[u32],
    left: &[u32],
    values: Vec<OneValue>,
    now: u64,
    hi: u64,
) -> Result<(), AllocError>
    ensures times { OnOk result ((q v : List Value) → times_at groups.new q v
        ≡ cond (is_at (row_cmp (part right.now left.now v)) q && has_row (alone values.items) v)
        (recent hi now (times_at groups.old q v)) (times_at groups.old q v)) }
    ensures some { OnOk result (NoneEmpty groups.old → NoneEmpty groups.new) }
{
    for value in values {
        forget_value(alloc, groups, right, left, value, now, hi)?;
    }
    Ok(())
}

fn forget_packed(
    alloc: Global,
    groups: &mut Groups,
    right: &[u32],
    left: &[u32],
    rows: PackedRows,
    now: u64,
    hi: u64,
) -> Result<(), AllocError>
    ensures times { OnOk result ((q v : List Value) → times_at groups.new q v
        ≡ cond (is_at (row_cmp (part right.now left.now v)) q && has_row (packed_rows rows) v)
        (recent hi now (times_at groups.old q v)) (times_at groups.old q v)) }
    ensures some { OnOk result (NoneEmpty groups.old → NoneEmpty groups.new) }
{
    if left.is_empty() {
        return groups.forget_ungrouped(alloc, rows, hi, now);
    }
    match rows {
        PackedRows::One(value) => {
            forget_value(alloc, groups, right, left, value, now, hi)?;
            Ok(())
        }
        PackedRows::Alone(values) => forget_values(alloc, groups, right, left, values, now, hi),
        PackedRows::Wide(rows) => forget_rows(alloc, groups, right, left, rows, now, hi),
    }
}

/// Forgets the times that lie further back than `hi`, by the rows that came with them.
pub fn expire(
    alloc: Global,
    groups: &mut Groups,
    dated: &mut VecDeque<Dated>,
    right: &[u32],
    left: &[u32],
    now: u64,
    hi: u64,
) -> Result<(), AllocError>
    requires placed { Placed right.now left.now groups.old }
    requires covered { Covered dated.old.items groups.old }
    requires rising { Rising dated.old.items }
    ensures thin { OnOk result ((q v : List Value) →
        IsThinned hi now (times_at groups.old q v) (times_at groups.new q v)) }
    ensures some { OnOk result (NoneEmpty groups.old → NoneEmpty groups.new) }
    ensures covered { OnOk result (Covered dated.new.items groups.new) }
    ensures rising { OnOk result (Rising dated.new.items) }
    ensures fresh { OnOk result (Fresh hi now dated.new.items) }
    ensures after { OnOk result ((x : ℕ) →
        NotAfter x dated.old.items → NotAfter x dated.new.items) }
    ensures rows { OnOk result (EachHasRows dated.old.items → EachHasRows dated.new.items) }
{
    while let Some(front) = dated.front() {
        if now.saturating_sub(front.ts) <= hi {
            return Ok(());
        }
        let Some(old) = dated.pop_front() else {
            return Ok(());
        };
        forget_packed(alloc, groups, right, left, old.rows, now, hi)?;
    }
    Ok(())
}
