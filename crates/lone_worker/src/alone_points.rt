//! The time-points of a log, taken by one worker alone as soon as each is complete.
ghost use Rattle.std.specs.Prelude.{◌≡◌, ◌+◌, ◌≤◌, IfErr, Ok, OnErr, OnOk, false, true};
ghost use Rattle.mon_outside.specs.Sink.{AppendsFront};
ghost use Rattle.log_reader.specs.Progress.{read};
ghost use Rattle.log_reader.specs.Readers.{progress};
ghost use Rattle.lone_worker.specs.Alone.{ForEachRunAlone, IsReadAlone, IsUnderWayAlone, WritesAlone};
ghost use Rattle.lone_worker.specs.Chunks.{StopsLines};
ghost use Rattle.lone_worker.specs.Courses.{HasDoneAll};
ghost use Rattle.lone_worker.specs.Policies.{ForEachPolicy};
ghost use Rattle.lone_worker.specs.Texts.{text_on};

use crate::lone_worker::LoneWorker;
use crate::stop::Stop;
use log_reader::{LogReader, Next};
use mon_outside::Sink;
use std::alloc::Global;

// Takes the next time-point, if it is complete, and writes the lines that are due by then. Answers whether there was
// one.
fn take_next<O: Sink>(
    alloc: Global,
    worker: &mut LoneWorker,
    reader: &mut LogReader<'_>,
    out: &mut O,
) -> Result<bool, Stop>
    requires works { reader.old.is_broken ≡ false }
    requires under_way { IsUnderWayAlone reader.old worker.old.monitor (O.written out.old) worker.old.writer.tally }
    ensures reader { OnOk result (reader.new
        ≡ record reader.old { given = reader.new.given; kept = reader.new.kept }) }
    ensures goes_on { result ≡ Ok true → reader.new.given ≡ reader.old.given + 1 }
    ensures one { result ≡ Ok true → ForEachRunAlone reader.old worker.old.monitor (O.written out.old)
        worker.old.writer.tally (λ core bytes start. IsReadAlone core start reader.new worker.new.monitor
        (O.written out.new) worker.new.writer.tally bytes) }
    ensures none { result ≡ Ok false → ForEachRunAlone reader.old worker.old.monitor (O.written out.old)
        worker.old.writer.tally (λ core bytes start. HasDoneAll core
        (WritesAlone core start worker.new.monitor (O.written out.new) worker.new.writer.tally) reader.new bytes
        start (O.written out.new) worker.new.writer.tally) }
    ensures stops { IfErr result (λ stop. ForEachRunAlone reader.old worker.old.monitor (O.written out.old)
        worker.old.writer.tally (λ core bytes start. ForEachPolicy core (λ policy. StopsLines policy
        (read (progress reader.old bytes)) start (O.written out.new) (O.faults out.old) (O.faults out.new) stop))) }
    ensures front { OnErr result (ForEachRunAlone reader.old worker.old.monitor (O.written out.old)
        worker.old.writer.tally (λ core bytes start. ForEachPolicy core (λ policy. AppendsFront
        start (O.written out.new) (text_on policy (read (progress reader.old bytes)))))) }
    ensures later { O.faults out.old ≤ O.faults out.new }
{
    match reader.next(alloc) {
        Ok(Next::Point(point)) => {
            worker.take(alloc, &point, out)?;
            reader.take_back(point);
            Ok(true)
        }
        Ok(Next::More) => Ok(false),
        Ok(Next::End) => Ok(false),
        Err(fault) => Err(Stop::from(fault)),
    }
}

/// Takes all time-points that are complete, and writes all lines that are due by then.
pub(crate) fn take_complete<O: Sink>(
    alloc: Global,
    worker: &mut LoneWorker,
    reader: &mut LogReader<'_>,
    out: &mut O,
) -> Result<(), Stop>
    requires works { reader.old.is_broken ≡ false }
    requires under_way { IsUnderWayAlone reader.old worker.old.monitor (O.written out.old) worker.old.writer.tally }
    ensures reader { OnOk result (reader.new
        ≡ record reader.old { given = reader.new.given; kept = reader.new.kept }) }
    ensures ok { OnOk result (ForEachRunAlone reader.old worker.old.monitor (O.written out.old)
        worker.old.writer.tally (λ core bytes start. HasDoneAll core
        (WritesAlone core start worker.new.monitor (O.written out.new) worker.new.writer.tally) reader.new bytes
        start (O.written out.new) worker.new.writer.tally)) }
    ensures stops { IfErr result (λ stop. ForEachRunAlone reader.old worker.old.monitor (O.written out.old)
        worker.old.writer.tally (λ core bytes start. ForEachPolicy core (λ policy. StopsLines policy
        (read (progress reader.old bytes)) start (O.written out.new) (O.faults out.old) (O.faults out.new) stop))) }
    ensures front { ForEachRunAlone reader.old worker.old.monitor (O.written out.old) worker.old.writer.tally
        (λ core bytes start. ForEachPolicy core (λ policy. AppendsFront
        start (O.written out.new) (text_on policy (read (progress reader.old bytes))))) }
    ensures later { O.faults out.old ≤ O.faults out.new }
{
    'points: for _ in 0..u64::MAX {
        if !take_next(alloc, worker, reader, out)? {
            return Ok(());
        }
    }
    // No log has so many.
    Err(Stop::Memory)
}
