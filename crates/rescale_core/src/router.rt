//! The router: what is read is queued for each worker, until it is handed over.
ghost use Rattle.std.specs.Prelude.{◌≡◌, ◌++◌, ◌∷◌, [], ◌≤◌, IfOk, IfSome, IfNone, length, take, true, ℕ};
ghost use Rattle.monitor_state.specs.Verdicts.{MayFollow};
ghost use Rattle.rescale_core.specs.Queues.{all_put, queue_at};
ghost use Rattle.rescale_core.specs.Routing.{HasEnded, HasTaken, IsRouterOf, MayAdd, TakesFront, feeds};
ghost use Rattle.rescale_worker.specs.Workers.{IsFor};
ghost use Rattle.rescale_core.specs.Worlds.{World, Allowed, AreAllowed, IsGathered, world_after, run_steps, spot_in};
ghost use Rattle.rescale_core.specs.Worlds.{pieces_in, ready_in, rows_in};
ghost use Rattle.rescale_core.specs.Worlds.Step.{Read, Collect, Emit};
ghost use Rattle.rescale_worker.specs.declared.item.Entry.TheVariants.{Change, Point};

use crate::cell::one_more;
use crate::outstanding::{grow_counts, lower, none_outstanding, raise};
use crate::queue::{Queue, none_wait};
use crate::queueing::{push_change, push_point};
use mfotl_model::TimePoint;
use monitorable::Core;
use rescale_worker::{BoxedPiece, Item, Out};
use slice_strategy::{Slicer, Strategy};
use std::alloc::{AllocError, Global};
use verdict_merge::{Gather, Verdict};

/// Queues what is read for each worker, and gathers what they give.
#[derive(Drop)]
pub struct Router {
    pub(crate) core: Core,
    pub(crate) strategy: Strategy,
    pub(crate) generation: u64,
    pub(crate) points: u64,
    pub(crate) queues: Vec<Queue>,
    // how many items each worker was handed that were not collected
    pub(crate) outstanding: Vec<u64>,
    pub(crate) gather: Gather,
}

impl Router {
    /// Queues a slice of the time-point for each worker, also an empty one.
    pub fn read_point(&mut self, alloc: Global, point: TimePoint) -> Result<(), AllocError>
        requires { (w : World) × IsRouterOf self.old w × MayFollow (spot_in w).points point }
        ensures { IfOk result (λ _. (w : World) → IsRouterOf self.old w → MayFollow (spot_in w).points point
            → IsRouterOf self.new (world_after w (Read (Point point)))) }
    {
        push_point(
            alloc,
            &mut self.queues,
            &self.core,
            &self.strategy,
            self.generation,
            self.points,
            point,
        )?;
        self.points += 1;
        Ok(())
    }

    /// Queues a part for each worker of the present strategy, and behind it a place for all their pieces for each
    /// worker of the next one.
    pub fn read_change(&mut self, alloc: Global, strategy: Strategy) -> Result<(), AllocError>
        requires { (w : World) × IsRouterOf self.old w × IsFor w.core strategy }
        ensures { IfOk result (λ _. (w : World) → IsRouterOf self.old w → IsFor w.core strategy
            → IsRouterOf self.new (world_after w (Read (Change strategy)))) }
    {
        let generation = one_more(self.generation)?;
        self.gather.begin(generation, strategy.workers())?;
        push_change(
            alloc,
            &mut self.queues,
            generation,
            &self.strategy,
            &strategy,
        )?;
        grow_counts(&mut self.outstanding, self.queues.len())?;
        self.generation = generation;
        self.strategy = strategy;
        Ok(())
    }

    /// How many items may be handed to the worker now: those before the first place whose pieces were not all handed
    /// over, and at that place the pieces that were collected.
    pub fn ready(&self, worker: u32) -> u64
        ensures { (w : World) → IsRouterOf self.now w → result ≡ length (ready_in w worker) }
    {
        if worker as usize >= self.queues.len() {
            return 0;
        }
        self.queues[worker as usize].ready()
    }

    /// Hands the first items to the worker: as many as wanted, or all that are ready.
    pub fn take_ready(
        &mut self,
        alloc: Global,
        worker: u32,
        most: u64,
    ) -> Result<Vec<Item>, AllocError>
        ensures moves { IfOk result (λ items. (w : World) → IsRouterOf self.old w
            → AreAllowed w (feeds worker items.items) × IsRouterOf self.new (run_steps w (feeds worker items.items))) }
        ensures few { IfOk result (λ items. length items.items ≤ most) }
        ensures first { IfOk result (λ items. (w : World) → IsRouterOf self.old w
            → items.items ≡ take most (ready_in w worker)) }
    {
        if worker as usize >= self.queues.len() {
            return Ok(Vec::new(alloc));
        }
        let queue = &mut self.queues[worker as usize];
        let items = take_front(alloc, queue, most)?;
        raise(&mut self.outstanding, worker, items.len() as u64)?;
        Ok(items)
    }

    /// Takes what the worker gave for the next items that it was handed.
    pub fn collect(&mut self, worker: u32, taken: u64, outs: Vec<Out>) -> Result<(), AllocError>
        requires taken { (w : World) × IsRouterOf self.old w × HasTaken w worker taken outs.items }
        ensures { IfOk result (λ _. (w : World) → IsRouterOf self.old w → HasTaken w worker taken outs.items
            → IsRouterOf self.new (world_after w (Collect worker))) }
    {
        collect_all(&mut self.queues, &mut self.gather, outs)?;
        lower(&mut self.outstanding, worker, taken);
        Ok(())
    }

    /// The next verdict, once all its Rows were collected.
    pub fn emit(&mut self, alloc: Global) -> Result<Option<Verdict>, AllocError>
        ensures emitted { IfOk result (λ o. IfSome o (λ v. (w : World) → IsRouterOf self.old w
            → Allowed w (Emit v) × IsRouterOf self.new (world_after w (Emit v)))) }
        ensures none { IfOk result (λ o. IfNone o ((w : World) → IsRouterOf self.old w
            → (IsGathered w (length w.emitted) → ⊥) × IsRouterOf self.new w)) }
    {
        let verdict = self.gather.emit(alloc)?;
        Ok(verdict)
    }

    /// Whether no item waits, every item handed over was collected, and there is no verdict to emit.
    pub fn ended(&self) -> bool
        ensures ended { (w : World) → IsRouterOf self.now w → result ≡ true → HasEnded w }
        ensures open { (w : World) → IsRouterOf self.now w → HasEnded w → result ≡ true }
    {
        if !none_wait(&self.queues) {
            return false;
        }
        if !none_outstanding(&self.outstanding) {
            return false;
        }
        !self.gather.is_ready()
    }
}

// Takes out the first items, as many as wanted or all that are ready.
fn take_front(alloc: Global, queue: &mut Queue, most: u64) -> Result<Vec<Item>, AllocError>
    ensures { IfOk result (λ items. TakesFront queue.old most items.items queue.new) }
{
    let mut items = queue.take_front(alloc, most);
    for _ in items.len() as u64..most {
        let last = queue.first_ends();
        match queue.pop() {
            None => return Ok(items),
            Some(item) => items.push(item)?,
        }
        if last {
            return Ok(items);
        }
    }
    Ok(items)
}

// The Rows are gathered, and each piece comes into its worker's queue.
fn collect_all(
    queues: &mut Vec<Queue>,
    gather: &mut Gather,
    outs: Vec<Out>,
) -> Result<(), AllocError>
    requires { MayAdd gather.old (rows_in outs.items) }
    ensures gathered { IfOk result (λ _. gather.new ≡ record {
      begun = gather.old.begun;
      next = gather.old.next;
      added = gather.old.added ++ rows_in outs.items;
    }) }
    ensures len { IfOk result (λ _. length queues.new.items ≡ length queues.old.items) }
    ensures filled { IfOk result (λ _. (q : ℕ) → queue_at queues.new.items q
        ≡ all_put q (pieces_in outs.items) (queue_at queues.old.items q)) }
{
    for out in outs {
        match out {
            Out::Rows(rows) => gather.add(rows)?,
            Out::Piece(piece) => put(queues, piece),
        }
    }
    Ok(())
}

// The piece comes into its worker's queue.
fn put(queues: &mut Vec<Queue>, piece: BoxedPiece)
    ensures len { length queues.new.items ≡ length queues.old.items }
    ensures filled { (q : ℕ) → queue_at queues.new.items q ≡ all_put q (piece ∷ []) (queue_at queues.old.items q) }
{
    let to = piece.get().to as usize;
    if to < queues.len() {
        let queue = &mut queues[to];
        queue.fill(piece);
    }
}
