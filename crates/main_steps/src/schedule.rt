//! When the strategy changes.
ghost use Rattle.std.specs.Prelude.{◌≡◌, ◌+◌, ◌<◌, ◌≤◌, ◌^◌, ◌⊎◌, All, Any};
ghost use Rattle.mfotl_model.specs.Strategies.{workers_of};
ghost use Rattle.main_steps.specs.Changes.{DueTells, TakesDue};

use slice_strategy::{Change, Slicer, Strategy};
use std::collections::VecDeque;

/// The changes that are to come, in order, and how many time-points were read.
#[derive(Drop)]
pub struct Schedule {
    pub(crate) changes: VecDeque<Change>,
    pub(crate) routed: u64,
}

impl Schedule {
    /// All changes are to come, and nothing was read.
    pub fn new(changes: Vec<Change>) -> Self
        ensures changes { result.changes.items ≡ changes.items }
        ensures routed { result.routed ≡ 0 }
    {
        Schedule {
            changes: VecDeque::from_vec(changes),
            routed: 0,
        }
    }

    /// Whether the next change is to be made before the next time-point is read.
    pub(crate) fn is_due(&self) -> bool
        ensures { DueTells self.now result }
    {
        match self.changes.front() {
            Some(change) => change.before <= self.routed,
            None => false,
        }
    }

    /// The strategy of the next change, if it is to be made before the next time-point is read.
    pub(crate) fn next_due(&mut self) -> Option<Strategy>
        ensures { TakesDue self.old result self.new }
    {
        if !self.is_due() {
            return None;
        }
        match self.changes.pop_front() {
            Some(change) => {
                let Change {
                    before: _,
                    strategy,
                } = change;
                Some(strategy)
            }
            None => None,
        }
    }

    /// One time-point more was read.
    pub(crate) fn count(&mut self)
        requires few { self.old.routed < 2 ^ 63 }
        ensures changes { self.new.changes ≡ self.old.changes }
        ensures routed { self.new.routed ≡ self.old.routed + 1 }
    {
        self.routed += 1;
    }
}

/// How many workers the strategy with the most of them has.
pub fn most_workers(first: &Strategy, changes: &[Change]) -> u32
    ensures some { 0 < result }
    ensures first { workers_of first.now ≤ result }
    ensures changes { All (λ c. workers_of c.strategy ≤ result) changes.now }
    ensures attained { (workers_of first.now ≡ result) ⊎ Any (λ c. workers_of c.strategy ≡ result) changes.now }
{
    let mut most = first.workers();
    for change in changes {
        most = most.max(change.strategy.workers());
    }
    most
}
