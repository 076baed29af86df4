//! The time-points of a log that are complete, one after the other.
ghost use Rattle.std.specs.Prelude.{◌≡◌, ◌≤◌, IfErr, IfOk, OnOk, false, true};
ghost use Rattle.mon_outside.specs.Sink.{AppendsFront};
ghost use Rattle.log_reader.specs.Progress.{read};
ghost use Rattle.log_reader.specs.Readers.{ForEach, progress};
ghost use Rattle.turn_hub.specs.Ends.{IsMainOf};
ghost use Rattle.hub_threads.specs.Hands.{AreHandsOf};
ghost use Rattle.lone_worker.specs.Chunks.{StopsLines};
ghost use Rattle.lone_worker.specs.Courses.{HasDoneAll};
ghost use Rattle.lone_worker.specs.Policies.{ForEachPolicy};
ghost use Rattle.lone_worker.specs.Texts.{text_on};
ghost use Rattle.main_steps.specs.Changes.{HaveCells, Suits};
ghost use Rattle.main_steps.specs.Steps.{main_state};
ghost use Rattle.main_steps.specs.Writing.{FallsShort, Runs};
ghost use Rattle.worker_pool.specs.Chunks.{ForEachRun, IsUnderWay, Routes};
ghost use Rattle.worker_pool.specs.Routing.{HasGivenAll, Routed, RoutesShort, StopsBehind};

use crate::batch::turns_before;
use crate::loop_end::end_of;
use log_reader::{LogFault, LogReader, Next};
use lone_worker::{LineWriter, Stop};
use main_steps::{LoopContext, Schedule, WorkerHand, drain, route};
use mon_outside::{Gate, Sink};
use rescale_core::Driver;
use std::sync::Wait;

// Writes all lines that stand before a fault of the log. Answers what stops main: the fault, or what kept a line back.
fn stop_behind_lines<R: Wait, O: Sink, G: Gate>(
    context: &LoopContext<'_, R, G>,
    own: &mut Vec<WorkerHand>,
    driver: &mut Driver,
    writer: &mut LineWriter,
    out: &mut O,
    fault: LogFault,
) -> Stop
    requires runs { Runs driver.old (O.written out.old) writer.old.tally }
    requires main { IsMainOf context.now.hub.now driver.old.main }
    requires hands { AreHandsOf context.now.hub.now own.old.items }
    ensures hands { AreHandsOf context.now.hub.now own.new.items }
    ensures short { FallsShort driver.old (O.written out.old) writer.old.tally (O.written out.new) }
    ensures stops { StopsBehind fault (main_state O.Sink driver.old out.old writer.old.tally)
        (main_state O.Sink driver.new out.new writer.new.tally) result }
    ensures later { O.faults out.old ≤ O.faults out.new }
{
    match drain(context, own, driver, writer, out) {
        Ok(()) => Stop::from(fault),
        Err(stop) => stop,
    }
}

// Reads the next time-point, if one is complete, behind the changes that are to be made before it. Answers whether
// none was.
fn route_next<R: Wait, O: Sink, G: Gate>(
    context: &LoopContext<'_, R, G>,
    own: &mut Vec<WorkerHand>,
    driver: &mut Driver,
    schedule: &mut Schedule,
    writer: &mut LineWriter,
    reader: &mut LogReader<'_>,
    out: &mut O,
    batch: &mut usize,
) -> Result<bool, Stop>
    requires works { reader.old.is_broken ≡ false }
    requires suits { Suits driver.old schedule.old }
    requires seated { HaveCells context.now.cells schedule.old }
    requires routed { schedule.old.routed ≡ reader.old.given }
    requires under_way { IsUnderWay reader.old driver.old schedule.old.changes.items (O.written out.old)
        writer.old.tally }
    requires main { IsMainOf context.now.hub.now driver.old.main }
    requires hands { AreHandsOf context.now.hub.now own.old.items }
    ensures hands { AreHandsOf context.now.hub.now own.new.items }
    ensures ok { OnOk result (Routed context.now.hub.now context.now.cells schedule.old schedule.new
        reader.old reader.new (main_state O.Sink driver.old out.old writer.old.tally)
        (main_state O.Sink driver.new out.new writer.new.tally)) }
    ensures all { IfOk result (λ over. over ≡ true → ForEach reader.old (λ bytes. HasGivenAll reader.new bytes)) }
    ensures err { IfErr result (λ stop. RoutesShort schedule.old reader.old
        (main_state O.Sink driver.old out.old writer.old.tally)
        (main_state O.Sink driver.new out.new writer.new.tally) stop) }
    ensures later { O.faults out.old ≤ O.faults out.new }
{
    match reader.next(context.alloc) {
        Ok(Next::Point(point)) => {
            let turns = turns_before(batch, &point);
            route(context, own, driver, schedule, writer, out, turns, point)?;
            Ok(false)
        }
        Ok(Next::More) => Ok(true),
        Ok(Next::End) => Ok(true),
        Err(fault) => Err(stop_behind_lines(context, own, driver, writer, out, fault)),
    }
}

// Reads all time-points that are complete, each behind the changes that are to be made before it.
fn route_points<R: Wait, O: Sink, G: Gate>(
    context: &LoopContext<'_, R, G>,
    own: &mut Vec<WorkerHand>,
    driver: &mut Driver,
    schedule: &mut Schedule,
    writer: &mut LineWriter,
    reader: &mut LogReader<'_>,
    out: &mut O,
) -> Result<(), Stop>
    requires works { reader.old.is_broken ≡ false }
    requires suits { Suits driver.old schedule.old }
    requires seated { HaveCells context.now.cells schedule.old }
    requires routed { schedule.old.routed ≡ reader.old.given }
    requires under_way { IsUnderWay reader.old driver.old schedule.old.changes.items (O.written out.old)
        writer.old.tally }
    requires main { IsMainOf context.now.hub.now driver.old.main }
    requires hands { AreHandsOf context.now.hub.now own.old.items }
    ensures hands { AreHandsOf context.now.hub.now own.new.items }
    ensures ok { OnOk result (Routed context.now.hub.now context.now.cells schedule.old schedule.new
        reader.old reader.new (main_state O.Sink driver.old out.old writer.old.tally)
        (main_state O.Sink driver.new out.new writer.new.tally)) }
    ensures all { OnOk result (ForEach reader.old (λ bytes. HasGivenAll reader.new bytes)) }
    ensures err { IfErr result (λ stop. RoutesShort schedule.old reader.old
        (main_state O.Sink driver.old out.old writer.old.tally)
        (main_state O.Sink driver.new out.new writer.new.tally) stop) }
    ensures later { O.faults out.old ≤ O.faults out.new }
{
    let mut batch = 0usize;
    'points: for _ in context.rt.forever() {
        let over = route_next(
            context, own, driver, schedule, writer, reader, out, &mut batch,
        );
        match end_of(over, ()) {
            None => {}
            Some(end) => return end,
        }
    }
    unreachable!()
}

/// Reads all time-points that are complete, each behind the changes that are to be made before it, and writes all
/// lines that are due by then.
pub(crate) fn route_complete<R: Wait, O: Sink, G: Gate>(
    context: &LoopContext<'_, R, G>,
    own: &mut Vec<WorkerHand>,
    driver: &mut Driver,
    schedule: &mut Schedule,
    writer: &mut LineWriter,
    reader: &mut LogReader<'_>,
    out: &mut O,
) -> Result<(), Stop>
    requires works { reader.old.is_broken ≡ false }
    requires suits { Suits driver.old schedule.old }
    requires seated { HaveCells context.now.cells schedule.old }
    requires routed { schedule.old.routed ≡ reader.old.given }
    requires under_way { IsUnderWay reader.old driver.old schedule.old.changes.items (O.written out.old)
        writer.old.tally }
    requires main { IsMainOf context.now.hub.now driver.old.main }
    requires hands { AreHandsOf context.now.hub.now own.old.items }
    ensures hands { AreHandsOf context.now.hub.now own.new.items }
    ensures main { OnOk result (IsMainOf context.now.hub.now driver.new.main) }
    ensures suits { OnOk result (Suits driver.new schedule.new) }
    ensures seated { OnOk result (HaveCells context.now.cells schedule.new) }
    ensures routed { OnOk result (schedule.new.routed ≡ reader.new.given) }
    ensures reader { OnOk result (reader.new
        ≡ record reader.old { given = reader.new.given; kept = reader.new.kept }) }
    ensures ok { OnOk result (ForEachRun reader.old driver.old schedule.old.changes.items (O.written out.old)
        writer.old.tally (λ core plan bytes start. HasDoneAll core (Routes core plan start driver.new
        schedule.new.changes.items (O.written out.new) writer.new.tally) reader.new bytes start
        (O.written out.new) writer.new.tally)) }
    ensures stops { IfErr result (λ stop. ForEachRun reader.old driver.old schedule.old.changes.items
        (O.written out.old) writer.old.tally (λ core plan bytes start. ForEachPolicy core (λ policy. StopsLines policy
        (read (progress reader.old bytes)) start (O.written out.new) (O.faults out.old) (O.faults out.new) stop))) }
    ensures front { ForEachRun reader.old driver.old schedule.old.changes.items (O.written out.old) writer.old.tally
        (λ core plan bytes start. ForEachPolicy core (λ policy. AppendsFront
        start (O.written out.new) (text_on policy (read (progress reader.old bytes))))) }
    ensures later { O.faults out.old ≤ O.faults out.new }
{
    route_points(context, own, driver, schedule, writer, reader, out)?;
    drain(context, own, driver, writer, out)
}
