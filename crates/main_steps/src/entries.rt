//! The entries that main reads: changes of the strategy, and time-points.
ghost use Rattle.std.specs.Prelude.{◌≡◌, ◌+◌, ◌≤◌, ◌<◌, ◌^◌, [], ◌∷◌, IfErr, OnOk, OnErr};
ghost use Rattle.mfotl_model.specs.Strategies.{workers_of};
ghost use Rattle.monitor_state.specs.Verdicts.{MayFollow};
ghost use Rattle.rescale_core.specs.Moving.{IsDriverOf, core_of};
ghost use Rattle.rescale_worker.specs.Workers.{IsFor};
ghost use Rattle.rescale_core.specs.Waiting.{most_waiting};
ghost use Rattle.rescale_core.specs.Worlds.{World, spot_in};
ghost use Rattle.turn_hub.specs.Ends.{IsMainOf};
ghost use Rattle.rescale_worker.specs.declared.item.Entry.TheVariants.{Change as ToStrategy};
ghost use Rattle.hub_threads.specs.Hands.{AreHandsOf};
ghost use Rattle.lone_worker.specs.Verdicts.{IsOutputStop};
ghost use Rattle.main_steps.specs.Changes.{HaveCells, NoneDue, Suits, changes_due, changes_later};
ghost use Rattle.main_steps.specs.Steps.{MakesDue, main_state};
ghost use Rattle.main_steps.specs.Writing.{AddsEntries, AddsPoint, ChangesIn, FallsShort, IsRoomy, ReadsIn, Runs};
ghost use Rattle.main_steps.specs.Writing.{RunsTo, WaitAtMost};

use crate::hands::{LoopContext, WorkerHand};
use crate::schedule::Schedule;
use crate::turns::make_room;
use lone_worker::{LineWriter, Stop};
use mfotl_model::TimePoint;
use mon_outside::{Gate, Sink};
use rescale_core::Driver;
use slice_strategy::Strategy;
use std::alloc::{AllocError, Global};
use std::sync::Wait;

// Reads a time-point. There is room for it, and no change is to be made before it.
fn admit(
    alloc: Global,
    driver: &mut Driver,
    _schedule: &Schedule,
    point: TimePoint,
) -> Result<(), AllocError>
    requires room { IsRoomy driver.old }
    requires made { NoneDue _schedule.now }
    requires may { (w : World) × IsDriverOf driver.old w × MayFollow (spot_in w).points point }
    ensures reads { OnOk result (ReadsIn driver.old point driver.new) }
    ensures main { OnOk result (driver.new.main ≡ driver.old.main) }
{
    driver.read_point(alloc, point)
}

// Reads a change to another strategy. There is room for it.
fn read_change(alloc: Global, driver: &mut Driver, strategy: Strategy) -> Result<(), AllocError>
    requires room { IsRoomy driver.old }
    requires may { (w : World) × IsDriverOf driver.old w × IsFor w.core strategy }
    ensures changes { OnOk result (ChangesIn driver.old strategy driver.new) }
    ensures main { OnOk result (driver.new.main ≡ driver.old.main) }
{
    driver.read_change(alloc, strategy)
}

// Reads a change to another strategy, once there is room for it.
fn make_change<R: Wait, O: Sink, G: Gate>(
    context: &LoopContext<'_, R, G>,
    own: &mut Vec<WorkerHand>,
    driver: &mut Driver,
    writer: &mut LineWriter,
    out: &mut O,
    strategy: Strategy,
) -> Result<(), Stop>
    requires runs { Runs driver.old (O.written out.old) writer.old.tally }
    requires suits { IsFor (core_of driver.old) strategy }
    requires seated { workers_of strategy ≤ context.now.cells }
    requires main { IsMainOf context.now.hub.now driver.old.main }
    requires hands { AreHandsOf context.now.hub.now own.old.items }
    ensures hands { AreHandsOf context.now.hub.now own.new.items }
    ensures main { OnOk result (IsMainOf context.now.hub.now driver.new.main) }
    ensures ok { OnOk result (AddsEntries driver.old (O.written out.old) writer.old.tally (ToStrategy strategy ∷ [])
        driver.new (O.written out.new) writer.new.tally) }
    ensures narrow { OnOk result (WaitAtMost (most_waiting + 1) driver.new) }
    ensures err { OnErr result (FallsShort driver.old (O.written out.old) writer.old.tally (O.written out.new)) }
    ensures stop { IfErr result (λ stop. IsOutputStop (O.faults out.old) (O.faults out.new) stop) }
    ensures later { O.faults out.old ≤ O.faults out.new }
{
    make_room(context, own, driver, writer, out, false)?;
    read_change(context.alloc, driver, strategy)?;
    Ok(())
}

// Reads just the changes that are to be made before the next time-point, in order.
fn make_due<R: Wait, O: Sink, G: Gate>(
    context: &LoopContext<'_, R, G>,
    own: &mut Vec<WorkerHand>,
    driver: &mut Driver,
    schedule: &mut Schedule,
    writer: &mut LineWriter,
    out: &mut O,
) -> Result<(), Stop>
    requires runs { Runs driver.old (O.written out.old) writer.old.tally }
    requires suits { Suits driver.old schedule.old }
    requires seated { HaveCells context.now.cells schedule.old }
    requires main { IsMainOf context.now.hub.now driver.old.main }
    requires hands { AreHandsOf context.now.hub.now own.old.items }
    ensures { MakesDue context.now.hub.now context.now.cells own.new.items schedule.old schedule.new
        (main_state O.Sink driver.old out.old writer.old.tally)
        (main_state O.Sink driver.new out.new writer.new.tally) result }
{
    for _ in context.rt.forever() {
        match schedule.next_due() {
            None => return Ok(()),
            Some(strategy) => make_change(context, own, driver, writer, out, strategy)?,
        }
    }
    unreachable!()
}

// The same, where mostly there are none.
fn make_changes<R: Wait, O: Sink, G: Gate>(
    context: &LoopContext<'_, R, G>,
    own: &mut Vec<WorkerHand>,
    driver: &mut Driver,
    schedule: &mut Schedule,
    writer: &mut LineWriter,
    out: &mut O,
) -> Result<(), Stop>
    requires runs { Runs driver.old (O.written out.old) writer.old.tally }
    requires suits { Suits driver.old schedule.old }
    requires seated { HaveCells context.now.cells schedule.old }
    requires main { IsMainOf context.now.hub.now driver.old.main }
    requires hands { AreHandsOf context.now.hub.now own.old.items }
    ensures { MakesDue context.now.hub.now context.now.cells own.new.items schedule.old schedule.new
        (main_state O.Sink driver.old out.old writer.old.tally)
        (main_state O.Sink driver.new out.new writer.new.tally) result }
{
    if schedule.is_due() {
        return make_due(context, own, driver, schedule, writer, out);
    }
    Ok(())
}

// Makes the changes that are to be made before the next time-point, and then room for it; where `turns` is true, main
// takes a turn.
fn make_way<R: Wait, O: Sink, G: Gate>(
    context: &LoopContext<'_, R, G>,
    own: &mut Vec<WorkerHand>,
    driver: &mut Driver,
    schedule: &mut Schedule,
    writer: &mut LineWriter,
    out: &mut O,
    turns: bool,
) -> Result<(), Stop>
    requires runs { Runs driver.old (O.written out.old) writer.old.tally }
    requires suits { Suits driver.old schedule.old }
    requires seated { HaveCells context.now.cells schedule.old }
    requires main { IsMainOf context.now.hub.now driver.old.main }
    requires hands { AreHandsOf context.now.hub.now own.old.items }
    ensures due { MakesDue context.now.hub.now context.now.cells own.new.items schedule.old schedule.new
        (main_state O.Sink driver.old out.old writer.old.tally)
        (main_state O.Sink driver.new out.new writer.new.tally) result }
    ensures room { OnOk result (IsRoomy driver.new) }
{
    make_changes(context, own, driver, schedule, writer, out)?;
    make_room(context, own, driver, writer, out, turns)
}

/// Reads a time-point, once the changes before it are made and there is room for it; where `turns` is true, main takes
/// a turn first.
pub fn route<R: Wait, O: Sink, G: Gate>(
    context: &LoopContext<'_, R, G>,
    own: &mut Vec<WorkerHand>,
    driver: &mut Driver,
    schedule: &mut Schedule,
    writer: &mut LineWriter,
    out: &mut O,
    turns: bool,
    point: TimePoint,
) -> Result<(), Stop>
    requires runs { RunsTo driver.old (O.written out.old) writer.old.tally point }
    requires suits { Suits driver.old schedule.old }
    requires seated { HaveCells context.now.cells schedule.old }
    requires few { schedule.old.routed < 2 ^ 63 }
    requires main { IsMainOf context.now.hub.now driver.old.main }
    requires hands { AreHandsOf context.now.hub.now own.old.items }
    ensures hands { AreHandsOf context.now.hub.now own.new.items }
    ensures main { OnOk result (IsMainOf context.now.hub.now driver.new.main) }
    ensures suits { OnOk result (Suits driver.new schedule.new) }
    ensures seated { OnOk result (HaveCells context.now.cells schedule.new) }
    ensures left { OnOk result (schedule.new.changes.items
        ≡ changes_later schedule.old.routed schedule.old.changes.items) }
    ensures routed { OnOk result (schedule.new.routed ≡ schedule.old.routed + 1) }
    ensures ok { OnOk result (AddsPoint driver.old (O.written out.old) writer.old.tally
        (changes_due schedule.old.routed schedule.old.changes.items) point
        driver.new (O.written out.new) writer.new.tally) }
    ensures narrow { OnOk result (WaitAtMost most_waiting driver.new) }
    ensures err { OnErr result (FallsShort driver.old (O.written out.old) writer.old.tally (O.written out.new)) }
    ensures stop { IfErr result (λ stop. IsOutputStop (O.faults out.old) (O.faults out.new) stop) }
    ensures later { O.faults out.old ≤ O.faults out.new }
{
    make_way(context, own, driver, schedule, writer, out, turns)?;
    admit(context.alloc, driver, schedule, point)?;
    schedule.count();
    Ok(())
}
