//! What goes, once a position is pulled.
ghost use Rattle.std.specs.Prelude.{◌≡◌, ◌&&◌, ℕ, true, List, cond};
ghost use Rattle.mfotl_model.specs.Tables.{has_row};
ghost use Rattle.mfotl_model.specs.declared.value.Value.{Value};
ghost use Rattle.relations.specs.KeptRows.{kept_for, list_for};
ghost use Rattle.until_rows.specs.ByKey.{Listed};
ghost use Rattle.eval_until.specs.Keeping.{Covered, CoveredStarts, Fresh, IsLater, IsThinned, NotAfter, Rising};
ghost use Rattle.until_rows.specs.Rules.{NoneEmpty};
ghost use Rattle.until_rows.specs.Starts.{later_start};

use crate::contents::Taken;
use mfotl_model::Row;
use std::alloc::Global;
use std::collections::VecDeque;
use until_rows::{RowEntries, RunStarts};

// a run that began with the position `next` or before tells nothing more; only those of a negated
// operand may be forgotten, since they are taken to begin with the first position
fn forget_breaks(starts: &mut RunStarts, negated: bool, table: &[Row], next: u64)
    ensures { (w : List Value) → kept_for starts.new w
        ≡ cond (negated && has_row table.now w) (later_start next (kept_for starts.old w))
        (kept_for starts.old w) }
{
    if negated {
        starts.forget(table, next);
    }
}

/// Forgets what stands before the position `next`, by the rows that it came with.
pub fn expire(
    alloc: Global,
    right: &[u32],
    rows: &mut RowEntries,
    starts: &mut RunStarts,
    queue: &mut VecDeque<Taken>,
    negated: bool,
    next: u64,
)
    requires rows { Covered queue.old.items rows.old.entries }
    requires rising { Rising queue.old.items }
    ensures rows { (u : List Value) →
        IsThinned next (list_for rows.old.entries u) (list_for rows.new.entries u) }
    ensures some { NoneEmpty rows.old.entries → NoneEmpty rows.new.entries }
    ensures listed { Listed right.now rows.old.keyed rows.old.entries →
        Listed right.now rows.new.keyed rows.new.entries }
    ensures starts { (w : List Value) →
        IsLater negated next (kept_for starts.old w) (kept_for starts.new w) }
    ensures covered { Covered queue.new.items rows.new.entries }
    ensures breaks { negated ≡ true → CoveredStarts queue.old.items starts.old →
        CoveredStarts queue.new.items starts.new }
    ensures rising { Rising queue.new.items }
    ensures fresh { Fresh next queue.new.items }
    ensures after { (p : ℕ) → NotAfter p queue.old.items → NotAfter p queue.new.items }
{
    while let Some(front) = queue.front() {
        if front.place >= next {
            return;
        }
        let Some(old) = queue.pop_front() else {
            return;
        };
        let Taken { rights, breaks, .. } = old;
        rows.forget(alloc, right, rights, next);
        forget_breaks(starts, negated, breaks.as_slice(), next);
    }
}
