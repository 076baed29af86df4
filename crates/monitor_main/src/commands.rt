//! What is done at each command.
ghost use Rattle.lone_worker.specs.Effects.{effect};
ghost use Rattle.command_line.specs.CommandViews.{command_in, options_in, sources_in};
ghost use Rattle.monitor_main.specs.Decisions.{CarriesOut};
ghost use Rattle.command_line.specs.Words.{Check, Demo, Run};

use crate::check::tell_columns;
use crate::checked_policy::load_sources;
use crate::demo::answer_demo;
use crate::loading::load_task;
use crate::monitoring::monitor_task;
use crate::refusal::Refusal;
use command_line::{Command, RunOptions, Sources};
use mon_outside::{Gate, Inputs, Sink};
use std::alloc::Global;
use std::sync::Wait;
use std::thread::Threads;

// `run`: monitors a log, and answers whether some line has a row.
fn run_policy<R: Threads + Wait + Sync, I: Inputs, O: Sink, G: Gate + Sync>(
    rt: &R,
    alloc: Global,
    sources: &Sources<'_>,
    options: &RunOptions<'_>,
    inputs: &mut I,
    out: &mut O,
    gate: &G,
) -> Result<bool, Refusal>
    ensures { CarriesOut (Run (sources_in sources.now) (options_in options.now))
        (effect I.Inputs O.Sink inputs.old inputs.new out.old out.new) result }
{
    let task = load_task(alloc, sources, options, inputs)?;
    monitor_task(rt, alloc, task, options, inputs, out, gate)
}

// `check`: tells whether the policy can be monitored.
fn check_policy<I: Inputs, O: Sink>(
    alloc: Global,
    sources: &Sources<'_>,
    inputs: &mut I,
    out: &mut O,
) -> Result<bool, Refusal>
    ensures { CarriesOut (Check (sources_in sources.now))
        (effect I.Inputs O.Sink inputs.old inputs.new out.old out.new) result }
{
    let checked = load_sources(alloc, sources, inputs)?;
    tell_columns(alloc, &checked, out)
}

// `demo`: monitors a log that is drawn from the seed.
fn run_demo<R: Threads + Wait + Sync, I: Inputs, O: Sink, G: Gate + Sync>(
    rt: &R,
    alloc: Global,
    seed: u64,
    inputs: &mut I,
    out: &mut O,
    gate: &G,
) -> Result<bool, Refusal>
    ensures { CarriesOut (Demo seed)
        (effect I.Inputs O.Sink inputs.old inputs.new out.old out.new) result }
{
    answer_demo(rt, alloc, seed, out, gate)
}

/// Does what the command says, and answers whether some line has a row.
pub fn carry_out<R: Threads + Wait + Sync, I: Inputs, O: Sink, G: Gate + Sync>(
    rt: &R,
    alloc: Global,
    command: &Command<'_>,
    inputs: &mut I,
    out: &mut O,
    gate: &G,
) -> Result<bool, Refusal>
    ensures { CarriesOut (command_in command.now)
        (effect I.Inputs O.Sink inputs.old inputs.new out.old out.new) result }
{
    match command {
        Command::Run(sources, options) => {
            run_policy(rt, alloc, sources, options, inputs, out, gate)
        }
        Command::Check(sources) => check_policy(alloc, sources, inputs, out),
        Command::Demo(seed) => run_demo(rt, alloc, *seed, inputs, out, gate),
    }
}
