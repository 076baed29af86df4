//! `demo`: monitors a log that is drawn from a seed, and tells how often its policy is violated.
ghost use Rattle.std.specs.Prelude.{◌≡◌, ◌≤◌, false, IfOk, IfErr};
ghost use Rattle.mon_outside.specs.Sink.{Appends, AppendsFront};
ghost use Rattle.monitor_main.specs.Answer.{demo_answer, demo_line};
ghost use Rattle.monitor_main.specs.Decisions.{ComesTo};
ghost use Rattle.monitor_main.specs.DemoRuns.{EndsDemo, IsDemoFault};
ghost use Rattle.monitor_main.specs.LogRuns.{IsOutputFault};

use crate::demo_end::follow_demo;
use crate::line::write_line;
use crate::refusal::Refusal;
use mon_outside::{Gate, Sink};
use std::alloc::{AllocError, Global};
use std::sync::Wait;
use std::thread::Threads;
use worker_pool::End;

#[tactic(auto, unfolding(crate::specs::Answer::demo_line))]
fn demo_line(
    alloc: Global,
    seed: u64,
    settled: u64,
    violated: u64,
    rows: u128,
) -> Result<Vec<u8>, AllocError>
    ensures { IfOk result (λ line. line.items ≡ demo_line seed settled violated rows) }
{
    let line = format!(in alloc;
        "demo {seed}: settled {settled} violated {violated} rows {rows}\n"
    )?;
    Ok(line.into_bytes())
}

fn write_counts<O: Sink>(
    alloc: Global,
    seed: u64,
    settled: u64,
    violated: u64,
    rows: u128,
    out: &mut O,
) -> Result<(), Refusal>
    ensures ok { IfOk result (λ _. Appends (O.written out.old) (O.written out.new)
        (demo_line seed settled violated rows)) }
    ensures fault { IfErr result (λ r.
        IsOutputFault r (O.faults out.old) (O.faults out.new)) }
    ensures front { AppendsFront (O.written out.old) (O.written out.new)
        (demo_line seed settled violated rows) }
    ensures later { O.faults out.old ≤ O.faults out.new }
{
    let line = demo_line(alloc, seed, settled, violated, rows)?;
    write_line(line.as_slice(), out)
}

// Tells how the monitoring of a demo ended. No line of its own has a row.
fn tell_end<O: Sink>(alloc: Global, seed: u64, end: End, out: &mut O) -> Result<bool, Refusal>
    requires { EndsDemo seed end }
    ensures comes { ComesTo (demo_answer seed) (λ _. ⊥) (O.written out.old) (O.written out.new) result }
    ensures fault { IfErr result (λ r. IsDemoFault r (O.faults out.old) (O.faults out.new)) }
    ensures later { O.faults out.old ≤ O.faults out.new }
{
    match end {
        End::Finished {
            settled,
            violated,
            rows,
        } => match write_counts(alloc, seed, settled, violated, rows, out) {
            Ok(()) => Ok(false),
            Err(refusal) => Err(refusal),
        },
        End::LogEnds(fault) => Err(Refusal::from(fault)),
        End::ReadFailed | End::SinkFailed => unreachable!(),
        End::Memory => Err(Refusal::Memory),
    }
}

/// Monitors the demo of this seed, and tells how many positions are settled, how many are violated, and by how many
/// rows.
pub fn answer_demo<R: Threads + Wait + Sync, O: Sink, G: Gate + Sync>(
    rt: &R,
    alloc: Global,
    seed: u64,
    out: &mut O,
    gate: &G,
) -> Result<bool, Refusal>
    ensures comes { ComesTo (demo_answer seed) (λ _. ⊥) (O.written out.old) (O.written out.new) result }
    ensures fault { IfErr result (λ r. IsDemoFault r (O.faults out.old) (O.faults out.new)) }
    ensures later { O.faults out.old ≤ O.faults out.new }
{
    let end = follow_demo(rt, alloc, seed, gate)?;
    tell_end(alloc, seed, end, out)
}
