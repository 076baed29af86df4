//! Writing a line.
ghost use Rattle.std.specs.Prelude.{◌≤◌, IfOk, IfErr};
ghost use Rattle.mon_outside.specs.Sink.{Appends, AppendsFront};
ghost use Rattle.monitor_main.specs.LogRuns.{IsOutputFault};

use crate::refusal::Refusal;
use mon_outside::{Sink, write_whole};

/// Writes the line.
#[tactic(auto, using(lone_worker::proofs::SinkLemmas::whole_front))]
pub fn write_line<O: Sink>(line: &[u8], out: &mut O) -> Result<(), Refusal>
    ensures ok { IfOk result (λ _. Appends (O.written out.old) (O.written out.new) line.now) }
    ensures fault { IfErr result (λ r.
        IsOutputFault r (O.faults out.old) (O.faults out.new)) }
    ensures front { AppendsFront (O.written out.old) (O.written out.new) line.now }
    ensures later { O.faults out.old ≤ O.faults out.new }
{
    match write_whole(out, line) {
        Ok(()) => Ok(()),
        Err(_) => Err(Refusal::Write),
    }
}
