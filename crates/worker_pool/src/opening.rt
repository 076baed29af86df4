//! How the workers, their hub and main's part begin.
ghost use Rattle.std.specs.Prelude.{◌≡◌, ◌<◌, IfOk, length};
ghost use Rattle.monitorable.specs.Cores.{core_form};
ghost use Rattle.rescale_core.specs.Moving.{IsDriverOf};
ghost use Rattle.rescale_worker.specs.Workers.{IsFor};
ghost use Rattle.rescale_core.specs.Worlds.{first_world};
ghost use Rattle.turn_hub.specs.Ends.{AreInOrder, IsMainOf, cell_count};
ghost use Rattle.hub_threads.specs.Hands.{AreHandsOf};
ghost use Rattle.worker_pool.specs.Opening.{AreStarted};

use main_steps::{WorkerHand, WorkerHub};
use monitorable::Core;
use rescale_core::laws::opened_workers;
use rescale_core::{Driver, Router, Worker};
use slice_strategy::Strategy;
use std::alloc::{AllocError, Global};
use turn_hub::Hub;

// The workers of so many cells, by their numbers.
fn start_workers(
    alloc: Global,
    core: &Core,
    strategy: &Strategy,
    cells: u32,
) -> Result<Vec<Worker>, AllocError>
    requires { IsFor (core_form core.now) strategy.now }
    ensures count { IfOk result (λ works. length works.items ≡ cells) }
    ensures started { IfOk result (λ works. AreStarted (core_form core.now) strategy.now works.items) }
{
    let mut works = Vec::new(alloc);
    for k in 0..cells {
        let worker = Worker::start(alloc, core, strategy, k)?;
        works.push(worker)?;
    }
    Ok(works)
}

/// A hub with so many cells, main's part, and the hands, before anything was read. Each cell has the worker of its
/// number.
pub(crate) fn open(
    alloc: Global,
    core: Core,
    strategy: Strategy,
    cells: u32,
) -> Result<(WorkerHub, Driver, Vec<WorkerHand>), AllocError>
    requires suits { IsFor (core_form core) strategy }
    requires some { 0 < cells }
    ensures count { IfOk result (λ r. (cell_count r.0 ≡ cells) × (length r.2.items ≡ cells)) }
    ensures driver { IfOk result (λ r. IsDriverOf r.1 (first_world (core_form core) strategy)) }
    ensures main { IfOk result (λ r. IsMainOf r.0 r.1.main) }
    ensures hands { IfOk result (λ r. AreHandsOf r.0 r.2.items × AreInOrder r.2.items) }
{
    let works = start_workers(alloc, &core, &strategy, cells)?;
    opened_workers();
    let (hub, main, hands) = Hub::open(alloc, works)?;
    let router = Router::start(alloc, core, strategy)?;
    let driver = Driver::open(router, main);
    Ok((hub, driver, hands))
}
