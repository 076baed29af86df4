//! A machine and its steps.
ghost use Rattle.std.specs.Prelude.{IfOk, OnOk};
ghost use Rattle.machine_cases.specs.Machines.{IsMachine};

use crate::script::entries_of;
use crate::setting::Setting;
use crate::texts::{Case, Stop, halves, number, parted, put};
use rescale_core::{Applied, Machine, Step};
use std::alloc::{AllocError, Global};
use verdict_merge::line;

/// What a machine answers to each of the steps.
pub fn machine(alloc: Global, setting: &Setting, case: &Case<'_>) -> Result<Vec<u8>, Stop> {
    let (entries, steps) = halves(case.rest)?;
    let mut machine = machine_of(alloc, setting, case.strategy, entries)?;
    steps_told(alloc, &mut machine, steps)
}

// The machine that begins by the strategy of a text, and reads the entries of another.
fn machine_of(
    alloc: Global,
    setting: &Setting,
    strategy: &str,
    entries: &str,
) -> Result<Machine, Stop>
    ensures { IfOk result IsMachine }
{
    let entries = entries_of(alloc, setting, entries)?;
    let core = setting.core.copy(alloc)?;
    let strategy = setting.strategy(alloc, strategy)?;
    Ok(Machine::start(alloc, core, strategy, entries)?)
}

fn steps_told(alloc: Global, machine: &mut Machine, steps: &str) -> Result<Vec<u8>, Stop>
    requires { IsMachine machine.old }
{
    let mut told = Vec::new(alloc);
    for step in steps.split("; ") {
        put_next(alloc, machine, step, &mut told)?;
    }
    Ok(told)
}

// Puts the answer to a step behind those before it.
fn put_next(
    alloc: Global,
    machine: &mut Machine,
    step: &str,
    told: &mut Vec<u8>,
) -> Result<(), Stop>
    requires { IsMachine machine.old }
    ensures { OnOk result (IsMachine machine.new) }
{
    if !told.is_empty() {
        put(told, "; ")?;
    }
    put_step(alloc, machine, step, told)
}

// Puts how many items are ready for a worker, or the answer to a step.
fn put_step(
    alloc: Global,
    machine: &mut Machine,
    text: &str,
    told: &mut Vec<u8>,
) -> Result<(), Stop>
    requires { IsMachine machine.old }
    ensures { OnOk result (IsMachine machine.new) }
{
    let (kind, worker) = parted(text);
    if kind == "ready" {
        return put_ready(alloc, machine, worker, told);
    }
    let step = step_of(kind, worker)?;
    let applied = applied(alloc, machine, step)?;
    put_applied(alloc, machine, kind, applied, told)
}

fn put_ready(
    alloc: Global,
    machine: &Machine,
    worker: &str,
    told: &mut Vec<u8>,
) -> Result<(), Stop> {
    let count = machine.ready(number(worker)?);
    put(told, format!(in alloc; "{count}")?.as_str())
}

// Puts what came of a step of this kind.
fn put_applied(
    alloc: Global,
    machine: &Machine,
    kind: &str,
    applied: Applied,
    told: &mut Vec<u8>,
) -> Result<(), Stop> {
    match applied {
        Applied::NotEnabled => put(told, "not enabled"),
        Applied::Did if kind == "emit" => put_emitted(alloc, machine, told),
        Applied::Did => put(told, "did"),
    }
}

// Does the step, if it can be done.
fn applied(alloc: Global, machine: &mut Machine, step: Step) -> Result<Applied, AllocError>
    requires { IsMachine machine.old }
    ensures { OnOk result (IsMachine machine.new) }
{
    machine.apply(alloc, step)
}

// The step of this kind, and of a worker where it is one's.
fn step_of(kind: &str, worker: &str) -> Result<Step, Stop> {
    match kind {
        "read" => Ok(Step::Read),
        "feed" => Ok(Step::Feed(number(worker)?)),
        "take" => Ok(Step::Take(number(worker)?)),
        "collect" => Ok(Step::Collect(number(worker)?)),
        "emit" => Ok(Step::Emit),
        _ => Err(Stop::Malformed),
    }
}

// Puts the line of the verdict that was emitted last, without its line feed.
fn put_emitted(alloc: Global, machine: &Machine, told: &mut Vec<u8>) -> Result<(), Stop> {
    match machine.verdicts().last() {
        Some(verdict) => {
            let text = line(alloc, verdict)?;
            Ok(told.extend_from_slice(text.trim_ascii_end())?)
        }
        None => Err(Stop::Malformed),
    }
}
