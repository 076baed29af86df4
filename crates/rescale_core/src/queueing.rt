//! What reading an entry puts into the queues.
ghost use Rattle.std.specs.Prelude.{◌≡◌, ◌++◌, ◌∷◌, ◌<◌, ◌≤◌, [], IfOk, length, ℕ};
ghost use Rattle.mfotl_model.specs.Strategies.{workers_of};
ghost use Rattle.monitorable.specs.Cores.{core_form};
ghost use Rattle.rescale_core.specs.Queues.{queue_at};
ghost use Rattle.rescale_core.specs.Routing.{all_slices, part_below, place_below, slices_for};

use crate::queue::Queue;
use event_splitter::{only_part, split};
use mfotl_model::TimePoint;
use monitorable::Core;
use rescale_worker::{BoxedStrategy, Item};
use slice_strategy::{Slicer, Strategy};
use std::alloc::{AllocError, Global};

/// Queues a slice of the time-point for each worker.
pub(crate) fn push_point(
    alloc: Global,
    queues: &mut Vec<Queue>,
    core: &Core,
    strategy: &Strategy,
    generation: u64,
    number: u64,
    point: TimePoint,
) -> Result<(), AllocError>
    requires { workers_of strategy.now ≤ length queues.old.items }
    ensures len { IfOk result (λ _. length queues.new.items ≡ length queues.old.items) }
    ensures queued { IfOk result (λ _. (q : ℕ) → queue_at queues.new.items q ≡ queue_at queues.old.items q
        ++ slices_for generation number 0 (all_slices (core_form core.now) strategy.now point) q) }
{
    if strategy.workers() == 1 {
        push_first(queues, generation, number, only_part(core, strategy, point))?;
        return Ok(());
    }
    let slices = split(alloc, core, strategy, &point)?;
    push_slices(queues, generation, number, slices)?;
    Ok(())
}

// Queues a slice for each worker.
fn push_slices(
    queues: &mut Vec<Queue>,
    generation: u64,
    number: u64,
    slices: Vec<TimePoint>,
) -> Result<(), AllocError>
    requires { length slices.items ≤ length queues.old.items }
    ensures len { IfOk result (λ _. length queues.new.items ≡ length queues.old.items) }
    ensures queued { IfOk result (λ _. (q : ℕ) → queue_at queues.new.items q
        ≡ queue_at queues.old.items q ++ slices_for generation number 0 slices.items q) }
{
    let mut k = 0;
    for point in slices {
        let queue = &mut queues[k];
        queue.push(Item::Slice {
            generation,
            number,
            point,
        })?;
        k += 1;
    }
    Ok(())
}

// Queues a slice for the first worker.
fn push_first(
    queues: &mut Vec<Queue>,
    generation: u64,
    number: u64,
    point: TimePoint,
) -> Result<(), AllocError>
    requires { 0 < length queues.old.items }
    ensures len { IfOk result (λ _. length queues.new.items ≡ length queues.old.items) }
    ensures queued { IfOk result (λ _. (q : ℕ) → queue_at queues.new.items q
        ≡ queue_at queues.old.items q ++ slices_for generation number 0 (point ∷ []) q) }
{
    let queue = &mut queues[0];
    queue.push(Item::Slice {
        generation,
        number,
        point,
    })?;
    Ok(())
}

/// Queues a part for each worker of the old strategy, and behind it a place for all their pieces for each worker of
/// the new one, which all have a queue then.
pub(crate) fn push_change(
    alloc: Global,
    queues: &mut Vec<Queue>,
    generation: u64,
    old: &Strategy,
    new: &Strategy,
) -> Result<(), AllocError>
    requires { workers_of old.now ≤ length queues.old.items }
    ensures len { IfOk result (λ _. length queues.old.items ≤ length queues.new.items) }
    ensures wide { IfOk result (λ _. workers_of new.now ≤ length queues.new.items) }
    ensures queued { IfOk result (λ _. (q : ℕ) → queue_at queues.new.items q ≡ queue_at queues.old.items q
        ++ part_below q (workers_of old.now) generation old.now new.now
        ++ place_below q (workers_of new.now) generation new.now (workers_of old.now)) }
{
    grow(alloc, queues, new.workers())?;
    let present = BoxedStrategy::copied(alloc, old)?;
    let next = BoxedStrategy::copied(alloc, new)?;
    push_parts(queues, generation, &present, &next)?;
    push_places(queues, generation, &next, old.workers())?;
    Ok(())
}

// Queues a part for each worker that has a state.
fn push_parts(
    queues: &mut Vec<Queue>,
    generation: u64,
    old: &BoxedStrategy,
    new: &BoxedStrategy,
) -> Result<(), AllocError>
    requires { workers_of old.now ≤ length queues.old.items }
    ensures len { IfOk result (λ _. length queues.new.items ≡ length queues.old.items) }
    ensures queued { IfOk result (λ _. (q : ℕ) → queue_at queues.new.items q
        ≡ queue_at queues.old.items q ++ part_below q (workers_of old.now) generation old.now new.now) }
{
    for k in 0..old.get().workers() {
        let item = Item::Part {
            generation,
            old: old.shared()?,
            new: new.shared()?,
        };
        let queue = &mut queues[k as usize];
        queue.push(item)?;
    }
    Ok(())
}

// Queues a place for so many pieces for each worker that gets a state.
fn push_places(
    queues: &mut Vec<Queue>,
    generation: u64,
    now: &BoxedStrategy,
    count: u32,
) -> Result<(), AllocError>
    requires { workers_of now.now ≤ length queues.old.items }
    ensures len { IfOk result (λ _. length queues.new.items ≡ length queues.old.items) }
    ensures queued { IfOk result (λ _. (q : ℕ) → queue_at queues.new.items q
        ≡ queue_at queues.old.items q ++ place_below q (workers_of now.now) generation now.now count) }
{
    for k in 0..now.get().workers() {
        let queue = &mut queues[k as usize];
        queue.push_place(generation, now, count)?;
    }
    Ok(())
}

// Adds empty queues until there is one for each of so many workers.
fn grow(alloc: Global, queues: &mut Vec<Queue>, workers: u32) -> Result<(), AllocError>
    ensures wide { IfOk result (λ _. workers ≤ length queues.new.items) }
    ensures len { IfOk result (λ _. length queues.old.items ≤ length queues.new.items) }
    ensures same { IfOk result (λ _. (q : ℕ) → queue_at queues.new.items q ≡ queue_at queues.old.items q) }
{
    for _ in queues.len()..workers as usize {
        queues.push(Queue::new(alloc))?;
    }
    Ok(())
}
