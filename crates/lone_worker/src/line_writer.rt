//! The lines of verdicts.
ghost use Rattle.std.specs.Prelude.{◌≡◌, ◌++◌, ◌∷◌, ◌≤◌, [], List, IfErr, OnOk, OnErr};
ghost use Rattle.mon_outside.specs.Sink.{Appends, AppendsFront};
ghost use Rattle.mfotl_model.specs.VerdictText.{VerdictOf, line_of};
ghost use Rattle.lone_worker.specs.Texts.{tally_of};
ghost use Rattle.lone_worker.specs.Verdicts.{IsOutputStop, seen};

use crate::line_front::{END, ROOM, put_front};
use crate::stop::Stop;
use crate::tally::Tally;
use mfotl_model::push_rows;
use mon_outside::{Sink, write_whole};
use std::alloc::{AllocError, Global};
use verdict_merge::Verdict;

/// Writes the lines of verdicts, and counts them: a buffer for one line, and what was counted so far.
#[derive(Drop)]
pub struct LineWriter {
    line: Vec<u8>,
    pub tally: Tally,
}

impl LineWriter {
    /// Nothing was written.
    pub fn new(alloc: Global) -> Self
        ensures { result.tally ≡ tally_of [] }
    {
        LineWriter {
            line: Vec::new(alloc),
            tally: Tally::none(),
        }
    }

    // Makes the line of a verdict.
    fn make_line(&mut self, verdict: &Verdict) -> Result<(), AllocError>
        ensures line { OnOk result (self.new.line.items ≡ line_of (seen verdict.now)) }
        ensures tally { self.new.tally ≡ self.old.tally }
    {
        let mut room = [b'\n'; ROOM];
        let start = put_front(&mut room, verdict.point, verdict.ts);
        self.line.clear();
        self.line.extend_from_slice(&room[start..END])?;
        push_rows(&mut self.line, verdict.rows.rows())?;
        self.line.push(b'\n')?;
        Ok(())
    }

    // Writes the line of a verdict.
    fn write_line<O: Sink>(&mut self, verdict: &Verdict, out: &mut O) -> Result<(), Stop>
        ensures tally { self.new.tally ≡ self.old.tally }
        ensures ok { OnOk result (Appends (O.written out.old) (O.written out.new) (line_of (seen verdict.now))) }
        ensures front { OnErr result (AppendsFront (O.written out.old) (O.written out.new)
            (line_of (seen verdict.now))) }
        ensures stop { IfErr result (λ stop. IsOutputStop (O.faults out.old) (O.faults out.new) stop) }
        ensures later { O.faults out.old ≤ O.faults out.new }
    {
        if verdict.rows.rows().is_empty() {
            return write_bare(verdict, out);
        }
        self.make_line(verdict)?;
        match write_whole(out, self.line.as_slice()) {
            Ok(()) => Ok(()),
            Err(_) => Err(Stop::Sink),
        }
    }

    /// Writes the line of a verdict, and counts it. At an error a part of the line may be written, and the count is of
    /// no use.
    pub fn write<O: Sink>(&mut self, verdict: &Verdict, out: &mut O) -> Result<(), Stop>
        ensures ok { OnOk result (Appends (O.written out.old) (O.written out.new) (line_of (seen verdict.now))) }
        ensures counts { OnOk result ((verdicts : List VerdictOf) → self.old.tally ≡ tally_of verdicts
            → self.new.tally ≡ tally_of (verdicts ++ seen verdict.now ∷ [])) }
        ensures front { OnErr result (AppendsFront (O.written out.old) (O.written out.new)
            (line_of (seen verdict.now))) }
        ensures stop { IfErr result (λ stop. IsOutputStop (O.faults out.old) (O.faults out.new) stop) }
        ensures later { O.faults out.old ≤ O.faults out.new }
    {
        self.tally.count(verdict.rows.rows().len())?;
        self.write_line(verdict, out)?;
        Ok(())
    }
}

// Writes the line of a verdict without rows.
fn write_bare<O: Sink>(verdict: &Verdict, out: &mut O) -> Result<(), Stop>
    requires bare { verdict.now.rows ≡ [] }
    ensures ok { OnOk result (Appends (O.written out.old) (O.written out.new) (line_of (seen verdict.now))) }
    ensures front { OnErr result (AppendsFront (O.written out.old) (O.written out.new)
        (line_of (seen verdict.now))) }
    ensures stop { IfErr result (λ stop. IsOutputStop (O.faults out.old) (O.faults out.new) stop) }
    ensures later { O.faults out.old ≤ O.faults out.new }
{
    let mut room = [b'\n'; ROOM];
    let at = put_front(&mut room, verdict.point, verdict.ts);
    match write_whole(out, &room[at..]) {
        Ok(()) => Ok(()),
        Err(_) => Err(Stop::Sink),
    }
}
