//! The monitoring of a log by one worker alone: each time-point is monitored as soon as it is read, and its lines are
//! written at once.
ghost use Rattle.std.specs.Prelude.{◌≡◌, ◌<◌, ◌≤◌, IsTrue, [], length};
ghost use Rattle.monitorable.specs.CoreForms.{CoreForm};
ghost use Rattle.monitorable.specs.Cores.{core_form};
ghost use Rattle.log_reader.specs.Progress.{nothing_fed};
ghost use Rattle.log_reader.specs.Readers.{Reads, progress};
ghost use Rattle.monitor_state.specs.Verdicts.{IsEvaluable};
ghost use Rattle.lone_worker.specs.Alone.{HasTakenNone};
ghost use Rattle.lone_worker.specs.Chunks.{run_end};
ghost use Rattle.lone_worker.specs.Effects.{effect};
ghost use Rattle.lone_worker.specs.Endings.{FollowsLog};
ghost use Rattle.lone_worker.specs.FollowingAlone.{BeginningAlone, ComesToAlone, HasComeAlone, alone_state};
ghost use Rattle.lone_worker.specs.Policies.{ForEachPolicy};

use crate::alone_points::take_complete;
use crate::lone_worker::LoneWorker;
use crate::reading_on::read_on;
use crate::stop::Stop;
use crate::tally::Tally;
use log_reader::LogReader;
use mon_outside::{Inputs, Sink};
use monitorable::Core;
use std::alloc::Global;

// Writes all lines that are due for what was read, and then reads the next chunk, unless the log is at its end. Answers
// whether it is.
fn take_chunk<I: Inputs, O: Sink>(
    alloc: Global,
    worker: &mut LoneWorker,
    buffer: &mut [u8],
    log: &mut LogReader<'_>,
    inputs: &mut I,
    out: &mut O,
) -> Result<bool, Stop>
    requires room { 0 < length buffer.old }
    requires opened { IsTrue (I.is_open inputs.old) }
    requires under_way { (b : BeginningAlone) × HasComeAlone b (alone_state I.Inputs O.Sink worker.old.monitor
        worker.old.writer.tally log.old inputs.old out.old) }
    ensures files { I.files inputs.new ≡ I.files inputs.old }
    ensures stays_open { I.is_open inputs.new ≡ I.is_open inputs.old }
    ensures asks_nothing { I.asked inputs.new ≡ I.asked inputs.old }
    ensures later { I.faults inputs.old ≤ I.faults inputs.new }
    ensures later_out { O.faults out.old ≤ O.faults out.new }
    ensures comes { (b : BeginningAlone) → HasComeAlone b (alone_state I.Inputs O.Sink worker.old.monitor
        worker.old.writer.tally log.old inputs.old out.old) → ComesToAlone b (alone_state I.Inputs O.Sink
        worker.new.monitor worker.new.writer.tally log.new inputs.new out.new) result }
{
    match take_complete(alloc, worker, log, out) {
        Ok(()) => {}
        Err(stop) => return Err(stop),
    }
    if log.is_finished() {
        return Ok(true);
    }
    match read_on(alloc, inputs, buffer, log, out) {
        Ok(()) => Ok(false),
        Err(stop) => Err(stop),
    }
}

// Monitors the open file as a log, chunk after chunk, and answers what was counted of its lines. What was written is
// handed on before each read.
fn follow_with<I: Inputs, O: Sink>(
    alloc: Global,
    worker: &mut LoneWorker,
    buffer: &mut [u8],
    log: &mut LogReader<'_>,
    inputs: &mut I,
    out: &mut O,
) -> Result<Tally, Stop>
    requires room { 0 < length buffer.old }
    requires opened { IsTrue (I.is_open inputs.old) }
    requires fresh { progress log.old [] ≡ nothing_fed log.old.sig log.old.limits }
    requires reads { Reads log.old [] }
    requires begins { (core : CoreForm) × HasTakenNone core worker.old.monitor worker.old.writer.tally }
    ensures files { I.files inputs.new ≡ I.files inputs.old }
    ensures stays_open { I.is_open inputs.new ≡ I.is_open inputs.old }
    ensures asks_nothing { I.asked inputs.new ≡ I.asked inputs.old }
    ensures later { I.faults inputs.old ≤ I.faults inputs.new }
    ensures later_out { O.faults out.old ≤ O.faults out.new }
    ensures follows { (core : CoreForm) → HasTakenNone core worker.old.monitor worker.old.writer.tally
        → ForEachPolicy core (λ policy. FollowsLog log.old.sig log.old.limits policy
        (effect I.Inputs O.Sink inputs.old inputs.new out.old out.new) (run_end result)) }
{
    'chunks: for _ in 0..u64::MAX {
        if take_chunk(alloc, worker, buffer, log, inputs, out)? {
            return Ok(worker.writer.tally);
        }
    }
    // No log has so many.
    Err(Stop::Memory)
}

/// Monitors the open file as a log by one worker of all rows, and answers what was counted of its lines. Each
/// time-point is taken as soon as it is read, and its lines are written at once; what was written is handed on before
/// each read.
pub fn follow_alone<I: Inputs, O: Sink>(
    alloc: Global,
    core: &Core,
    buffer: &mut [u8],
    log: &mut LogReader<'_>,
    inputs: &mut I,
    out: &mut O,
) -> Result<Tally, Stop>
    requires evaluable { IsEvaluable (core_form core.now) }
    requires room { 0 < length buffer.old }
    requires opened { IsTrue (I.is_open inputs.old) }
    requires fresh { progress log.old [] ≡ nothing_fed log.old.sig log.old.limits }
    requires reads { Reads log.old [] }
    ensures files { I.files inputs.new ≡ I.files inputs.old }
    ensures stays_open { I.is_open inputs.new ≡ I.is_open inputs.old }
    ensures asks_nothing { I.asked inputs.new ≡ I.asked inputs.old }
    ensures later { I.faults inputs.old ≤ I.faults inputs.new }
    ensures later_out { O.faults out.old ≤ O.faults out.new }
    ensures follows { ForEachPolicy (core_form core.now) (λ policy. FollowsLog log.old.sig log.old.limits policy
        (effect I.Inputs O.Sink inputs.old inputs.new out.old out.new) (run_end result)) }
{
    let mut worker = LoneWorker::new(alloc, core)?;
    follow_with(alloc, &mut worker, buffer, log, inputs, out)
}
