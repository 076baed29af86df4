//! A worker, and what lies between it and the router.
ghost use Rattle.std.specs.Prelude.{◌≡◌, ◌+◌, IfOk};
ghost use Rattle.rescale_core.specs.Cells.{MayTake, CellTakes};

use crate::step::Applied;
use rescale_worker::{Item, Out, Worker};
use std::alloc::{AllocError, Global};
use std::collections::VecDeque;
use turn_hub::Work;

/// A worker, the items that it was handed and didn't take, and how many it took that were not collected, with what it
/// gave for these.
#[derive(Drop)]
pub(crate) struct Cell {
    pub(crate) worker: Worker,
    pub(crate) items: VecDeque<Item>,
    pub(crate) taken: u64,
    pub(crate) outs: Vec<Out>,
}

impl Cell {
    /// The worker takes the next item, if it was handed one.
    pub(crate) fn take(&mut self, alloc: Global) -> Result<Applied, AllocError>
        requires { MayTake self.old }
        ensures { IfOk result (λ applied. CellTakes self.old applied self.new) }
    {
        let Some(item) = self.items.pop_front() else {
            return Ok(Applied::NotEnabled);
        };
        self.worker.work(alloc, item, &mut self.outs)?;
        self.taken = one_more(self.taken)?;
        Ok(Applied::Did)
    }
}

/// One more than a count, such as the number of the next generation.
pub(crate) fn one_more(count: u64) -> Result<u64, AllocError>
    ensures { IfOk result (λ more. more ≡ count + 1) }
{
    count.checked_add(1).ok_or(AllocError)
}
