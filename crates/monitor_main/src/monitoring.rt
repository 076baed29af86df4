//! How a log is monitored by a task.
ghost use Rattle.std.specs.Prelude.{◌≡◌, ◌≤◌, [], Err, IsTrue};
ghost use Rattle.log_reader.specs.Limits.{standard};
ghost use Rattle.log_reader.specs.Progress.{nothing_fed};
ghost use Rattle.log_reader.specs.Readers.{Reads, progress};
ghost use Rattle.monitorable.specs.Cores.{core_form};
ghost use Rattle.rescale_worker.specs.Workers.{IsFor};
ghost use Rattle.main_steps.specs.Changes.{AllSuit};
ghost use Rattle.lone_worker.specs.Effects.{effect};
ghost use Rattle.lone_worker.specs.Endings.{FollowsLog};
ghost use Rattle.lone_worker.specs.Policies.{ForEachPolicy};
ghost use Rattle.monitor_main.specs.CheckedPolicies.{checked_in};
ghost use Rattle.command_line.specs.CommandViews.{text_in};
ghost use Rattle.monitor_main.specs.Decisions.{MonitorsLog};
ghost use Rattle.monitor_main.specs.Divisions.{BeginsBy, ChangesAt};
ghost use Rattle.monitor_main.specs.LogRuns.{outcome_of};
ghost use Rattle.monitor_main.specs.ReadyTasks.{IsReady};

use crate::refusal::{InputFile, Refusal};
use crate::task::Task;
use command_line::RunOptions;
use log_reader::{Limits, LogReader};
use mfotl_sig::Signature;
use mon_outside::{Gate, Inputs, Sink};
use std::alloc::Global;
use std::sync::Wait;
use std::thread::Threads;
use worker_pool::{End, Plan, monitor};

// A reader of a log to which nothing was fed.
fn reader_over<'a>(alloc: Global, sig: &'a Signature) -> LogReader<'a>
    ensures fresh { progress result [] ≡ nothing_fed sig.now standard }
    ensures reads { Reads result [] }
{
    LogReader::new(alloc, sig, Limits::standard())
}

// Whether some line has a row, or why not all lines were written.
fn outcome(end: End) -> Result<bool, Refusal>
    ensures { result ≡ outcome_of end }
{
    match end {
        End::Finished { violated, .. } => Ok(violated > 0),
        End::LogEnds(fault) => Err(Refusal::from(fault)),
        End::ReadFailed => Err(Refusal::Read(InputFile::Log)),
        End::SinkFailed => Err(Refusal::Write),
        End::Memory => Err(Refusal::Memory),
    }
}

// Monitors the open log, which is over this signature, by a plan.
fn follow_plan<R: Threads + Wait + Sync, I: Inputs, O: Sink, G: Gate + Sync>(
    rt: &R,
    alloc: Global,
    sig: &Signature,
    plan: Plan,
    inputs: &mut I,
    out: &mut O,
    threads: u32,
    gate: &G,
) -> End
    requires suits { IsFor (core_form plan.core) plan.first }
    requires changes { AllSuit (core_form plan.core) plan.changes.items }
    requires opened { IsTrue (I.is_open inputs.old) }
    ensures files { I.files inputs.new ≡ I.files inputs.old }
    ensures stays_open { I.is_open inputs.new ≡ I.is_open inputs.old }
    ensures asks_nothing { I.asked inputs.new ≡ I.asked inputs.old }
    ensures later { I.faults inputs.old ≤ I.faults inputs.new }
    ensures later_out { O.faults out.old ≤ O.faults out.new }
    ensures follows { ForEachPolicy (core_form plan.core) (λ policy. FollowsLog sig.now standard policy
        (effect I.Inputs O.Sink inputs.old inputs.new out.old out.new) result) }
{
    let mut log = reader_over(alloc, sig);
    monitor(rt, alloc, plan, &mut log, inputs, out, threads, gate)
}

/// Monitors the open log by a task.
pub fn follow<R: Threads + Wait + Sync, I: Inputs, O: Sink, G: Gate + Sync>(
    rt: &R,
    alloc: Global,
    task: Task,
    inputs: &mut I,
    out: &mut O,
    gate: &G,
) -> End
    requires ready { IsReady task }
    requires opened { IsTrue (I.is_open inputs.old) }
    ensures files { I.files inputs.new ≡ I.files inputs.old }
    ensures stays_open { I.is_open inputs.new ≡ I.is_open inputs.old }
    ensures asks_nothing { I.asked inputs.new ≡ I.asked inputs.old }
    ensures later { I.faults inputs.old ≤ I.faults inputs.new }
    ensures later_out { O.faults out.old ≤ O.faults out.new }
    ensures follows { FollowsLog task.checked.sig standard (checked_in task.checked).policy.formula
        (effect I.Inputs O.Sink inputs.old inputs.new out.old out.new) result }
{
    let threads = task.threads;
    let (sig, plan) = task.into_parts();
    follow_plan(rt, alloc, &sig, plan, inputs, out, threads, gate)
}

// Lets the task go, whose log could not be opened.
fn unopened(task: Task) -> Result<bool, Refusal>
    ensures { result ≡ Err (Refusal.Read InputFile.Log) }
{
    drop(task);
    Err(Refusal::Read(InputFile::Log))
}

/// Monitors the log that the options name, by the task that they ask for, and answers whether some line has a row.
pub fn monitor_task<R: Threads + Wait + Sync, I: Inputs, O: Sink, G: Gate + Sync>(
    rt: &R,
    alloc: Global,
    task: Task,
    options: &RunOptions<'_>,
    inputs: &mut I,
    out: &mut O,
    gate: &G,
) -> Result<bool, Refusal>
    requires ready { IsReady task }
    requires first { BeginsBy options.now.strategy.now task }
    requires changes { ChangesAt (text_in options.now.changes) (I.files inputs.old) task }
    requires threads { task.threads ≡ options.now.threads }
    ensures { MonitorsLog (checked_in task.checked) options.now.log.now
        (effect I.Inputs O.Sink inputs.old inputs.new out.old out.new) result }
{
    match inputs.open(options.log) {
        Ok(()) => outcome(follow(rt, alloc, task, inputs, out, gate)),
        Err(_) => unopened(task),
    }
}
