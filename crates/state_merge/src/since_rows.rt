//! The rows of SINCE with their times, united.
ghost use Rattle.std.specs.Prelude.{◌≡◌, IfOk};
ghost use Rattle.std.specs.List.{AllByRecursion};
ghost use Rattle.std.specs.List.Sorted.{IsStrictlyIncreasing};
ghost use Rattle.mfotl_model.specs.Values.{row_cmp};
ghost use Rattle.relations.specs.KeptRows.{RowsAscend};
ghost use Rattle.row_times.specs.KeptTimes.{times_kept};
ghost use Rattle.monitor_state.specs.JoinedRows.{RowsUnion, times_joined};

use crate::keyed::{Keyed, joined};
use crate::times::joined_times;
use row_times::KeptRow;
use std::alloc::{AllocError, Global};
use std::cmp::Ordering;

impl Keyed for KeptRow {
    ghost use Rattle.std.specs.Prelude.{ℕ, List};
    ghost use Rattle.mfotl_model.specs.declared.value.Value.{Value};

    type Limit = Option<u64>;

    ghost Told = { List Value × List ℕ };

    ghost told = { λ k. (k.row, k.times.items) };

    ghost order = { λ x y. row_cmp x.row y.row };

    ghost fits = { λ k. IsStrictlyIncreasing k.times.items };

    ghost both = { λ hi x y. (x.row, times_joined hi x.times.items y.times.items) };

    fn order(&self, other: &Self) -> Ordering {
        self.row.cmp(&other.row)
    }

    fn united(self, alloc: Global, hi: Option<u64>, other: Self) -> Result<Self, AllocError> {
        let times = joined_times(alloc, hi, self.times, other.times)?;
        Ok(KeptRow {
            row: self.row,
            times,
        })
    }
}

/// For each row the times of both, where `hi` is the greatest distance of the window, by one walk over the
/// two lists.
pub fn united_times(
    alloc: Global,
    hi: Option<u64>,
    first: Vec<KeptRow>,
    second: Vec<KeptRow>,
) -> Result<Vec<KeptRow>, AllocError>
    requires first { RowsAscend (times_kept first.items) }
    requires first_times { AllByRecursion (λ k. IsStrictlyIncreasing k.times.items) first.items }
    requires second { RowsAscend (times_kept second.items) }
    requires second_times { AllByRecursion (λ k. IsStrictlyIncreasing k.times.items) second.items }
    ensures { IfOk result (λ rows. RowsUnion (times_joined hi)
        (times_kept first.items) (times_kept second.items) (times_kept rows.items)) }
{
    let rows = joined(alloc, hi, first, second)?;
    Ok(rows)
}
