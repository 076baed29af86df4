//! The whole run over a log.
ghost use Rattle.std.specs.Prelude.{◌≡◌, ◌<◌, ◌≤◌, [], IfOk, IsTrue, length};
ghost use Rattle.log_reader.specs.Progress.{nothing_fed};
ghost use Rattle.log_reader.specs.Readers.{Reads, progress};
ghost use Rattle.monitorable.specs.Cores.{core_form};
ghost use Rattle.rescale_core.specs.declared.driver.Driver.{Driver};
ghost use Rattle.rescale_worker.specs.Workers.{IsFor};
ghost use Rattle.lone_worker.specs.Effects.{effect};
ghost use Rattle.lone_worker.specs.Endings.{FollowsLog};
ghost use Rattle.lone_worker.specs.Chunks.{run_end};
ghost use Rattle.lone_worker.specs.Policies.{ForEachPolicy};
ghost use Rattle.main_steps.specs.Changes.{AllSuit};
ghost use Rattle.worker_pool.specs.Chunks.{ReadsPlan};

use crate::by_one::follow_by_one;
use crate::main_loop::follow_beside;
use crate::plan::Plan;
use crate::preparing::prepare;
use log_reader::LogReader;
use lone_worker::{End, Stop, Tally, chunk_room};
use main_steps::LoopContext;
use mon_outside::{Gate, Inputs, Sink};
use slice_strategy::Slicer;
use std::alloc::Global;
use std::sync::Wait;
use std::thread::Threads;

// Follows the log by the plan, with so many threads.
fn follow_together<R: Threads + Wait + Sync, I: Inputs, O: Sink, G: Gate + Sync>(
    rt: &R,
    alloc: Global,
    plan: Plan,
    buffer: &mut Vec<u8>,
    log: &mut LogReader<'_>,
    inputs: &mut I,
    out: &mut O,
    threads: u32,
    gate: &G,
) -> Result<Tally, Stop>
    requires suits { IsFor (core_form plan.core) plan.first }
    requires changes { AllSuit (core_form plan.core) plan.changes.items }
    requires room { 0 < length buffer.old.items }
    requires opened { IsTrue (I.is_open inputs.old) }
    requires fresh { progress log.old [] ≡ nothing_fed log.old.sig log.old.limits }
    requires reads { Reads log.old [] }
    ensures files { I.files inputs.new ≡ I.files inputs.old }
    ensures stays_open { I.is_open inputs.new ≡ I.is_open inputs.old }
    ensures asks_nothing { I.asked inputs.new ≡ I.asked inputs.old }
    ensures later { I.faults inputs.old ≤ I.faults inputs.new }
    ensures later_out { O.faults out.old ≤ O.faults out.new }
    ensures follows { ForEachPolicy (core_form plan.core) (λ policy. FollowsLog log.old.sig log.old.limits policy
        (effect I.Inputs O.Sink inputs.old inputs.new out.old out.new) (run_end result)) }
    ensures planned { IfOk result (λ tally. (driver : Driver) × ReadsPlan (core_form plan.core) log.old.sig
        log.old.limits plan.changes.items (I.rest inputs.old) (I.rest inputs.new) (O.written out.old) driver
        (O.written out.new) tally) }
{
    let cells = plan.most_workers();
    let (mut prepared, groups, own) = prepare(alloc, plan, cells, threads)?;
    let context = LoopContext {
        rt,
        alloc,
        hub: &prepared.hub,
        gate,
        bells: &prepared.bells,
        cells,
    };
    let done = follow_beside(
        &context,
        groups,
        own,
        &mut prepared.driver,
        &mut prepared.schedule,
        buffer,
        log,
        inputs,
        out,
    );
    // Whole: field by field it is dear to prove.
    drop(prepared);
    done
}

// What was counted of all lines, or why main stopped.
fn run_plan<R: Threads + Wait + Sync, I: Inputs, O: Sink, G: Gate + Sync>(
    rt: &R,
    alloc: Global,
    plan: Plan,
    buffer: &mut Vec<u8>,
    log: &mut LogReader<'_>,
    inputs: &mut I,
    out: &mut O,
    threads: u32,
    gate: &G,
) -> Result<Tally, Stop>
    requires suits { IsFor (core_form plan.core) plan.first }
    requires changes { AllSuit (core_form plan.core) plan.changes.items }
    requires room { 0 < length buffer.old.items }
    requires opened { IsTrue (I.is_open inputs.old) }
    requires fresh { progress log.old [] ≡ nothing_fed log.old.sig log.old.limits }
    requires reads { Reads log.old [] }
    ensures files { I.files inputs.new ≡ I.files inputs.old }
    ensures stays_open { I.is_open inputs.new ≡ I.is_open inputs.old }
    ensures asks_nothing { I.asked inputs.new ≡ I.asked inputs.old }
    ensures later { I.faults inputs.old ≤ I.faults inputs.new }
    ensures later_out { O.faults out.old ≤ O.faults out.new }
    ensures follows { ForEachPolicy (core_form plan.core) (λ policy. FollowsLog log.old.sig log.old.limits policy
        (effect I.Inputs O.Sink inputs.old inputs.new out.old out.new) (run_end result)) }
{
    // No other worker's rows are to be merged, and nobody is to be waited for.
    if threads == 0 && plan.first.workers() == 1 && plan.changes.is_empty() {
        let done = follow_by_one(alloc, &plan, buffer, log, inputs, out);
        // Whole: field by field it is dear to prove.
        drop(plan);
        return done;
    }
    follow_together(rt, alloc, plan, buffer, log, inputs, out, threads, gate)
}

// The end of a run that counted all lines or stopped.
fn end_after(done: Result<Tally, Stop>) -> End
    ensures { result ≡ run_end done }
{
    match done {
        Ok(tally) => End::Finished {
            settled: tally.settled,
            violated: tally.violated,
            rows: tally.rows,
        },
        Err(Stop::Log(fault)) => End::LogEnds(fault),
        Err(Stop::Read) => End::ReadFailed,
        Err(Stop::Sink) => End::SinkFailed,
        Err(Stop::Memory) => End::Memory,
    }
}

/// Monitors the open log by the plan, with so many threads beside the caller's, and writes the line of each settled
/// position, in order, before more of the log is read. A change is made just before the time-point of its number is
/// read, and never where the log ends before it. What is written is handed on before each read. However many threads
/// there are and however they run, this holds, and so do the clauses.
pub fn monitor<R: Threads + Wait + Sync, I: Inputs, O: Sink, G: Gate + Sync>(
    rt: &R,
    alloc: Global,
    plan: Plan,
    log: &mut LogReader<'_>,
    inputs: &mut I,
    out: &mut O,
    threads: u32,
    gate: &G,
) -> End
    requires suits { IsFor (core_form plan.core) plan.first }
    requires changes { AllSuit (core_form plan.core) plan.changes.items }
    requires opened { IsTrue (I.is_open inputs.old) }
    requires fresh { progress log.old [] ≡ nothing_fed log.old.sig log.old.limits }
    requires reads { Reads log.old [] }
    ensures files { I.files inputs.new ≡ I.files inputs.old }
    ensures stays_open { I.is_open inputs.new ≡ I.is_open inputs.old }
    ensures asks_nothing { I.asked inputs.new ≡ I.asked inputs.old }
    ensures later { I.faults inputs.old ≤ I.faults inputs.new }
    ensures later_out { O.faults out.old ≤ O.faults out.new }
    ensures follows { ForEachPolicy (core_form plan.core) (λ policy. FollowsLog log.old.sig log.old.limits policy
        (effect I.Inputs O.Sink inputs.old inputs.new out.old out.new) result) }
{
    let Ok(mut buffer) = chunk_room(alloc) else {
        return End::Memory;
    };
    let done = run_plan(
        rt,
        alloc,
        plan,
        &mut buffer,
        log,
        inputs,
        out,
        threads,
        gate,
    );
    end_after(done)
}
