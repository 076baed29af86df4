//! The machine: one step after the other, in any order.
ghost use Rattle.std.specs.Prelude.{◌≡◌, IfOk, List, Some, length};
ghost use Rattle.rescale_core.specs.Cells.{Applies, IsMachineOf};
ghost use Rattle.rescale_core.specs.Worlds.{World, ready_in};
ghost use Rattle.rescale_worker.specs.declared.item.Entry.{Entry as OneEntry};

use crate::cell::Cell;
use crate::router::Router;
use crate::step::{Applied, Step};
use rescale_worker::Entry;
use std::alloc::{AllocError, Global};
use std::collections::VecDeque;
use std::mem;
use verdict_merge::Verdict;

/// Router and workers on one thread, over entries that are known beforehand.
#[derive(Drop)]
pub struct Machine {
    pub(crate) router: Router,
    pub(crate) cells: Vec<Cell>,
    pub(crate) left: VecDeque<Entry>,
    pub(crate) verdicts: Vec<Verdict>,
}

impl Machine {
    /// How many items may be handed to the worker now.
    pub fn ready(&self, worker: u32) -> u64
        ensures { (entries : List OneEntry) (w : World) → IsMachineOf self.now entries w
            → result ≡ length (ready_in w worker) }
    {
        self.router.ready(worker)
    }

    /// The verdicts that were emitted.
    pub fn verdicts(&self) -> &[Verdict]
        ensures { (entries : List OneEntry) (w : World) → IsMachineOf self.now entries w → w.emitted ≡ result.now }
    {
        self.verdicts.as_slice()
    }

    /// Does the step, if it can be done. After an error the machine is of no further use.
    pub fn apply(&mut self, alloc: Global, step: Step) -> Result<Applied, AllocError>
        requires { (entries : List OneEntry) × (w : World) × IsMachineOf self.old entries w }
        ensures { IfOk result (λ applied. Applies self.old step applied self.new) }
    {
        match step {
            Step::Read => self.read(alloc),
            Step::Feed(worker) => self.feed(alloc, worker),
            Step::Take(worker) => self.take(alloc, worker),
            Step::Collect(worker) => self.collect(alloc, worker),
            Step::Emit => self.emit(alloc),
        }
    }

    fn read(&mut self, alloc: Global) -> Result<Applied, AllocError>
        requires { (entries : List OneEntry) × (w : World) × IsMachineOf self.old entries w }
        ensures { IfOk result (λ applied. Applies self.old Step.Read applied self.new) }
    {
        match self.left.pop_front() {
            None => Ok(Applied::NotEnabled),
            Some(Entry::Point(point)) => {
                self.router.read_point(alloc, point)?;
                Ok(Applied::Did)
            }
            Some(Entry::Change(strategy)) => {
                self.router.read_change(alloc, strategy)?;
                Ok(Applied::Did)
            }
        }
    }

    fn feed(&mut self, alloc: Global, worker: u32) -> Result<Applied, AllocError>
        ensures { IfOk result (λ applied. Applies self.old (Step.Feed worker) applied self.new) }
    {
        if worker as usize >= self.cells.len() {
            return Ok(Applied::NotEnabled);
        }
        let mut items = self.router.take_ready(alloc, worker, 1)?;
        let Some(item) = items.pop() else {
            return Ok(Applied::NotEnabled);
        };
        let cell = &mut self.cells[worker as usize];
        cell.items.push_back(item)?;
        Ok(Applied::Did)
    }

    fn take(&mut self, alloc: Global, worker: u32) -> Result<Applied, AllocError>
        requires { (entries : List OneEntry) × (w : World) × IsMachineOf self.old entries w }
        ensures { IfOk result (λ applied. Applies self.old (Step.Take worker) applied self.new) }
    {
        if worker as usize >= self.cells.len() {
            return Ok(Applied::NotEnabled);
        }
        let cell = &mut self.cells[worker as usize];
        let applied = cell.take(alloc)?;
        Ok(applied)
    }

    fn collect(&mut self, alloc: Global, worker: u32) -> Result<Applied, AllocError>
        requires { (entries : List OneEntry) × (w : World) × IsMachineOf self.old entries w }
        ensures { IfOk result (λ applied. Applies self.old (Step.Collect worker) applied self.new) }
    {
        if worker as usize >= self.cells.len() {
            return Ok(Applied::NotEnabled);
        }
        let cell = &mut self.cells[worker as usize];
        let taken = mem::replace(&mut cell.taken, 0);
        if taken == 0 {
            return Ok(Applied::NotEnabled);
        }
        let outs = mem::replace(&mut cell.outs, Vec::new(alloc));
        self.router.collect(worker, taken, outs)?;
        Ok(Applied::Did)
    }

    fn emit(&mut self, alloc: Global) -> Result<Applied, AllocError>
        ensures { IfOk result (λ applied. Applies self.old Step.Emit applied self.new) }
    {
        let emitted = self.router.emit(alloc)?;
        let Some(verdict) = emitted else {
            return Ok(Applied::NotEnabled);
        };
        self.verdicts.push(verdict)?;
        Ok(Applied::Did)
    }
}
