//! The times of a row, united.
ghost use Rattle.std.specs.Prelude.{◌≡◌, IfOk};
ghost use Rattle.std.specs.List.Sorted.{IsStrictlyIncreasing};
ghost use Rattle.monitor_state.specs.JoinedRows.{least_time, times_joined};

use crate::keyed::{Keyed, joined};
use std::alloc::{AllocError, Global};
use std::cmp::Ordering;

impl Keyed for u64 {
    ghost use Rattle.std.specs.Prelude.{ℕ};
    ghost use Rattle.std.specs.Ordering.{nat_cmp};

    type Limit = ();

    ghost Told = { ℕ };

    ghost told = { λ t. t };

    ghost order = { nat_cmp };

    ghost fits = { λ t. Unit {0} };

    ghost both = { λ limit x y. y };

    fn order(&self, other: &Self) -> Ordering {
        self.cmp(other)
    }

    fn united(self, _alloc: Global, _limit: (), other: Self) -> Result<Self, AllocError> {
        Ok(other)
    }
}

fn least(alloc: Global, first: Vec<u64>, second: Vec<u64>) -> Result<Vec<u64>, AllocError>
    ensures { IfOk result (λ times. times.items ≡ least_time first.items second.items) }
{
    match (first.first().copied(), second.first().copied()) {
        (None, _) => Ok(second),
        (_, None) => Ok(first),
        (Some(x), Some(y)) => {
            let mut times = Vec::with_capacity(alloc, 1)?;
            times.push(x.min(y))?;
            Ok(times)
        }
    }
}

/// The times of both, where `hi` is the greatest distance of the window.
#[tactic(auto, using(crate::proofs::PairLemmas::unasked))]
pub fn joined_times(
    alloc: Global,
    hi: Option<u64>,
    first: Vec<u64>,
    second: Vec<u64>,
) -> Result<Vec<u64>, AllocError>
    requires first { IsStrictlyIncreasing first.items }
    requires second { IsStrictlyIncreasing second.items }
    ensures { IfOk result (λ times. times.items ≡ times_joined hi first.items second.items) }
{
    match hi {
        None => least(alloc, first, second),
        Some(_) => {
            let times = joined(alloc, (), first, second)?;
            Ok(times)
        }
    }
}
