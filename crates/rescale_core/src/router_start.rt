//! How a router begins.
ghost use Rattle.std.specs.Prelude.{◌≡◌, ◌∷◌, [], ◌<◌, IfOk, length, get_or, ℕ};
ghost use Rattle.monitorable.specs.Cores.{core_form};
ghost use Rattle.rescale_core.specs.Queues.{queue_at};
ghost use Rattle.rescale_core.specs.Routing.{IsRouterOf};
ghost use Rattle.rescale_worker.specs.Workers.{IsFor};
ghost use Rattle.rescale_core.specs.Worlds.{first_world};

use crate::queue::Queue;
use crate::router::Router;
use monitorable::Core;
use slice_strategy::{Slicer, Strategy};
use std::alloc::{AllocError, Global};
use verdict_merge::Gather;

impl Router {
    /// The router that read nothing yet.
    pub fn start(alloc: Global, core: Core, strategy: Strategy) -> Result<Self, AllocError>
        requires { IsFor (core_form core) strategy }
        ensures { IfOk result (λ router. IsRouterOf router (first_world (core_form core) strategy)) }
    {
        let (gather, queues, outstanding) = first_parts(alloc, strategy.workers())?;
        Ok(Router::first(core, strategy, gather, queues, outstanding))
    }

    // The router of the first generation.
    fn first(
        core: Core,
        strategy: Strategy,
        gather: Gather,
        queues: Vec<Queue>,
        outstanding: Vec<u64>,
    ) -> Self
        ensures fits { (core_form result.core ≡ core_form core) × (result.strategy ≡ strategy) }
        ensures counts { (result.generation ≡ 0) × (result.points ≡ 0) }
        ensures waits { (result.gather ≡ gather) × (result.queues ≡ queues) × (result.outstanding ≡ outstanding) }
    {
        Router {
            core,
            strategy,
            generation: 0,
            points: 0,
            queues,
            outstanding,
            gather,
        }
    }
}

// What is gathered, queued and counted before anything was read.
fn first_parts(alloc: Global, workers: u32) -> Result<(Gather, Vec<Queue>, Vec<u64>), AllocError>
    requires { 0 < workers }
    ensures gather { IfOk result (λ parts. parts.0 ≡ record {
      begun = record { generation = 0; workers = workers } ∷ [];
      next = 0;
      added = [];
    }) }
    ensures len { IfOk result (λ parts. length parts.1.items ≡ workers) }
    ensures empty { IfOk result (λ parts. (q : ℕ) → queue_at parts.1.items q ≡ []) }
    ensures counted { IfOk result (λ parts. length parts.2.items ≡ workers) }
    ensures zero { IfOk result (λ parts. (q : ℕ) → get_or parts.2.items q 0 ≡ 0) }
{
    let mut gather = Gather::new(alloc);
    gather.begin(0, workers)?;
    let queues = new_queues(alloc, workers)?;
    let outstanding = Vec::from_elem(alloc, 0, workers as usize)?;
    Ok((gather, queues, outstanding))
}

// An empty queue for each worker.
fn new_queues(alloc: Global, workers: u32) -> Result<Vec<Queue>, AllocError>
    ensures len { IfOk result (λ queues. length queues.items ≡ workers) }
    ensures empty { IfOk result (λ queues. (q : ℕ) → queue_at queues.items q ≡ []) }
{
    let mut queues = Vec::new(alloc);
    for _ in 0..workers {
        queues.push(Queue::new(alloc))?;
    }
    Ok(queues)
}
