//! What main and the threads work with.
ghost use Rattle.std.specs.Prelude.{◌≡◌, ◌<◌, ◌≤◌, ◌⊎◌, All, Any, IfOk, length};
ghost use Rattle.std.specs.List.{range_with_len};
ghost use Rattle.mfotl_model.specs.Strategies.{workers_of};
ghost use Rattle.monitorable.specs.Cores.{core_form};
ghost use Rattle.rescale_core.specs.Moving.{IsDriverOf};
ghost use Rattle.rescale_core.specs.Worlds.{first_world};
ghost use Rattle.rescale_worker.specs.Workers.{IsFor};
ghost use Rattle.turn_hub.specs.Ends.{IsMainOf, cell_count};
ghost use Rattle.hub_threads.specs.Bells.{bell_count};
ghost use Rattle.hub_threads.specs.Hands.{AreDealt, AreGroupsOf, AreHandsOf};
ghost use Rattle.main_steps.specs.Changes.{AllSuit, HaveCells, Suits};
ghost use Rattle.main_steps.specs.Writing.{HasReadNothing};

use crate::opening::open;
use crate::plan::Plan;
use hub_threads::{Bells, deal_with_bells};
use main_steps::{Schedule, WorkerHand, WorkerHub};
use rescale_core::Driver;
use std::alloc::{AllocError, Global};

/// The hub, main's part and the bells, before anything was read.
#[derive(Drop)]
pub(crate) struct Prepared {
    pub(crate) hub: WorkerHub,
    pub(crate) driver: Driver,
    pub(crate) schedule: Schedule,
    pub(crate) bells: Bells,
}

/// Opens so many cells, each for the worker of its number, and deals the hands: in groups to threads, and the others to
/// main.
pub(crate) fn prepare(
    alloc: Global,
    plan: Plan,
    cells: u32,
    threads: u32,
) -> Result<(Prepared, Vec<Vec<WorkerHand>>, Vec<WorkerHand>), AllocError>
    requires suits { IsFor (core_form plan.core) plan.first }
    requires changes { AllSuit (core_form plan.core) plan.changes.items }
    requires some { 0 < cells }
    requires first { workers_of plan.first ≤ cells }
    requires wide { All (λ c. workers_of c.strategy ≤ cells) plan.changes.items }
    requires attained { (workers_of plan.first ≡ cells)
        ⊎ Any (λ c. workers_of c.strategy ≡ cells) plan.changes.items }
    ensures count { IfOk result (λ r. cell_count r.0.hub ≡ cells) }
    ensures first { IfOk result (λ r. IsDriverOf r.0.driver (first_world (core_form plan.core) plan.first)) }
    ensures begins { IfOk result (λ r. HasReadNothing (core_form plan.core) r.0.driver) }
    ensures suits { IfOk result (λ r. Suits r.0.driver r.0.schedule) }
    ensures seated { IfOk result (λ r. HaveCells cells r.0.schedule) }
    ensures all { IfOk result (λ r. r.0.schedule.changes.items ≡ plan.changes.items) }
    ensures unread { IfOk result (λ r. r.0.schedule.routed ≡ 0) }
    ensures main { IfOk result (λ r. IsMainOf r.0.hub r.0.driver.main) }
    ensures groups { IfOk result (λ r. AreGroupsOf r.0.hub r.1.items) }
    ensures own { IfOk result (λ r. AreHandsOf r.0.hub r.2.items) }
    ensures bells { IfOk result (λ r. bell_count r.0.bells ≡ length r.1.items) }
    ensures dealt { IfOk result (λ r. AreDealt (range_with_len 0 cells) threads r.1.items r.2.items) }
{
    let Plan {
        core,
        first,
        changes,
    } = plan;
    let (hub, driver, hands) = open(alloc, core, first, cells)?;
    let (groups, own, bells) = deal_with_bells(alloc, hands, threads)?;
    let prepared = Prepared {
        hub,
        driver,
        schedule: Schedule::new(changes),
        bells,
    };
    Ok((prepared, groups, own))
}
