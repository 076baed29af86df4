//! The monitoring of a demo, whose files are in memory and whose lines are only counted.
ghost use Rattle.std.specs.Prelude.{◌≡◌, [], codes, Ok, IfOk, IfErr, string_bytes};
ghost use Rattle.mon_outside.specs.Files.{content};
ghost use Rattle.mon_outside.specs.Memory.{as_files};
ghost use Rattle.log_reader.specs.DemoTexts.{changes_text};
ghost use Rattle.monitor_main.specs.CheckedPolicies.{Fails, Gives, IsInside, checked_in};
ghost use Rattle.monitor_main.specs.DemoRuns.{EndsDemo, EndsOn};
ghost use Rattle.monitor_main.specs.Divisions.{BeginsBy, ChangesBy};
ghost use Rattle.command_line.specs.Limits.{default_threads};
ghost use Rattle.monitor_main.specs.ReadyTasks.{IsReady};
ghost use Rattle.monitor_main.specs.Tasks.{demo_task, divided_texts, task_on};

use crate::checked_policy::check_texts;
use crate::division::read_division;
use crate::monitoring::follow;
use crate::refusal::Refusal;
use crate::task::Task;
use command_line::DEFAULT_THREADS;
use log_reader::{Demo, generate};
use mon_outside::{Gate, Inputs, NamedFile, SureInputs, SureSink};
use std::alloc::{AllocError, Global};
use std::sync::Wait;
use std::thread::Threads;
use worker_pool::End;

// The name of the log's file.
const LOG: &str = "log";

// The most bytes that a read gives.
const CHUNK: usize = 65_536;

// The policy of these texts, whose work is divided by no strategy at first, and then by these changes.
fn task_of(alloc: Global, sig: &[u8], policy: &[u8], changes: &[u8]) -> Result<Task, Refusal>
    ensures gives { Gives (λ task. checked_in task.checked) result
        (divided_texts sig.now policy.now changes.now) }
    ensures ready { IfOk result IsReady }
    ensures first { IfOk result (BeginsBy []) }
    ensures changes { IfOk result (ChangesBy changes.now) }
    ensures threads { IfOk result (λ task. task.threads ≡ default_threads) }
    ensures inside { IfErr result IsInside }
{
    let checked = check_texts(alloc, sig, policy)?;
    match read_division(alloc, changes, &checked.policy) {
        Ok(division) => Ok(Task::new(checked, division, DEFAULT_THREADS)),
        Err(refusal) => Task::refused(checked, refusal),
    }
}

// The log's file alone, with these bytes.
fn log_files(alloc: Global, log: String) -> Result<Vec<NamedFile>, AllocError>
    ensures { IfOk result (λ files. content (as_files files.items) (codes "log") ≡ string_bytes log) }
{
    let file = NamedFile {
        name: String::from_str(alloc, LOG)?,
        bytes: log.into_bytes(),
    };
    Ok(vec![in alloc; file]?)
}

// The task of the demo of this seed, and its files: the log's alone.
fn draw(alloc: Global, seed: u64) -> Result<(Task, Vec<NamedFile>), Refusal>
    ensures ok { IfOk result (λ drawn. demo_task seed
        ≡ Ok (task_on (checked_in drawn.0.checked) (content (as_files drawn.1.items) (codes "log")))) }
    ensures ready { IfOk result (λ drawn. IsReady drawn.0) }
    ensures first { IfOk result (λ drawn. BeginsBy [] drawn.0) }
    ensures changes { IfOk result (λ drawn. ChangesBy changes_text drawn.0) }
    ensures threads { IfOk result (λ drawn. drawn.0.threads ≡ default_threads) }
    ensures refused { IfErr result (λ r. Fails r (demo_task seed)) }
    ensures inside { IfErr result IsInside }
{
    let Demo {
        sig,
        policy,
        log,
        changes,
    } = generate(alloc, seed)?;
    let files = log_files(alloc, log)?;
    let task = task_of(alloc, sig.as_bytes(), policy.as_bytes(), changes.as_bytes())?;
    Ok((task, files))
}

// Monitors the log among these files, of which no call fails, and keeps none of its lines.
fn follow_log<R: Threads + Wait + Sync, G: Gate + Sync>(
    rt: &R,
    alloc: Global,
    task: Task,
    files: &[NamedFile],
    gate: &G,
) -> End
    requires ready { IsReady task }
    requires first { BeginsBy [] task }
    requires changes { ChangesBy changes_text task }
    requires threads { task.threads ≡ default_threads }
    ensures { EndsOn (task_on (checked_in task.checked) (content (as_files files.now) (codes "log"))) result }
{
    let mut inputs = SureInputs::new(files, CHUNK);
    let mut out = SureSink::new();
    inputs.open(LOG).unwrap();
    follow(rt, alloc, task, &mut inputs, &mut out, gate)
}

/// Monitors the demo of this seed.
pub fn follow_demo<R: Threads + Wait + Sync, G: Gate + Sync>(
    rt: &R,
    alloc: Global,
    seed: u64,
    gate: &G,
) -> Result<End, Refusal>
    ensures ok { IfOk result (EndsDemo seed) }
    ensures refused { IfErr result (λ r. Fails r (demo_task seed)) }
    ensures inside { IfErr result IsInside }
{
    let (task, files) = draw(alloc, seed)?;
    Ok(follow_log(rt, alloc, task, files.as_slice(), gate))
}
