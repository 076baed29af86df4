//! A plan of one worker and no changes, followed without cells and queues.
ghost use Rattle.std.specs.Prelude.{◌≡◌, ◌<◌, ◌≤◌, [], IsTrue, length};
ghost use Rattle.mfotl_model.specs.Strategies.{workers_of};
ghost use Rattle.monitorable.specs.Cores.{core_form};
ghost use Rattle.log_reader.specs.Progress.{nothing_fed};
ghost use Rattle.log_reader.specs.Readers.{Reads, progress};
ghost use Rattle.rescale_worker.specs.Workers.{IsFor};
ghost use Rattle.lone_worker.specs.Chunks.{run_end};
ghost use Rattle.lone_worker.specs.Effects.{effect};
ghost use Rattle.lone_worker.specs.Endings.{FollowsLog};
ghost use Rattle.lone_worker.specs.Policies.{ForEachPolicy};

use crate::plan::Plan;
use log_reader::LogReader;
use lone_worker::{Stop, Tally, follow_alone};
use mon_outside::{Inputs, Sink};
use std::alloc::Global;

/// Monitors the open file as a log by the plan's one worker, and answers what was counted of its lines.
pub(crate) fn follow_by_one<I: Inputs, O: Sink>(
    alloc: Global,
    plan: &Plan,
    buffer: &mut [u8],
    log: &mut LogReader<'_>,
    inputs: &mut I,
    out: &mut O,
) -> Result<Tally, Stop>
    requires suits { IsFor (core_form plan.now.core) plan.now.first }
    requires one { workers_of plan.now.first ≡ 1 }
    requires unchanged { plan.now.changes.items ≡ [] }
    requires room { 0 < length buffer.old }
    requires opened { IsTrue (I.is_open inputs.old) }
    requires fresh { progress log.old [] ≡ nothing_fed log.old.sig log.old.limits }
    requires reads { Reads log.old [] }
    ensures files { I.files inputs.new ≡ I.files inputs.old }
    ensures stays_open { I.is_open inputs.new ≡ I.is_open inputs.old }
    ensures asks_nothing { I.asked inputs.new ≡ I.asked inputs.old }
    ensures later { I.faults inputs.old ≤ I.faults inputs.new }
    ensures later_out { O.faults out.old ≤ O.faults out.new }
    ensures follows { ForEachPolicy (core_form plan.now.core) (λ policy. FollowsLog log.old.sig log.old.limits policy
        (effect I.Inputs O.Sink inputs.old inputs.new out.old out.new) (run_end result)) }
{
    follow_alone(alloc, &plan.core, buffer, log, inputs, out)
}
