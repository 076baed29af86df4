//! Main's turns: it goes on until what it waits for is so.
ghost use Rattle.std.specs.Prelude.{◌≡◌, ◌≤◌, IfErr, IfOk, OnOk, OnErr, true};
ghost use Rattle.turn_hub.specs.Ends.{IsMainOf};
ghost use Rattle.hub_threads.specs.Hands.{AreHandsOf};
ghost use Rattle.lone_worker.specs.Verdicts.{IsOutputStop};
ghost use Rattle.main_steps.specs.Steps.{IsReached, MakesRoom, main_state};
ghost use Rattle.main_steps.specs.Writing.{FallsShort, AllEmitted, WritesOnly, Runs};

use crate::hands::{LoopContext, WorkerHand};
use crate::rounds::round;
use lone_worker::{LineWriter, Stop};
use mon_outside::{Gate, Sink};
use rescale_core::Driver;
use std::sync::Wait;

/// What main waits for.
#[derive(Clone, Copy)]
enum Until {
    /// All verdicts on what was read were emitted.
    Drained,
    /// Each worker's queue has room for an item.
    Roomy,
}

// Whether all verdicts on what was read were emitted.
fn is_drained(driver: &Driver) -> bool
    ensures { result ≡ true → AllEmitted driver.now }
{
    driver.ended()
}

// Whether what main waits for is so.
fn is_reached(until: Until, driver: &Driver) -> bool
    ensures { result ≡ true → IsReached until driver.now }
{
    match until {
        Until::Drained => is_drained(driver),
        Until::Roomy => driver.has_room(),
    }
}

// One round, and behind one without work a little time, unless what main waits for is so. Answers whether it is.
fn round_until<R: Wait, O: Sink, G: Gate>(
    context: &LoopContext<'_, R, G>,
    own: &mut Vec<WorkerHand>,
    driver: &mut Driver,
    writer: &mut LineWriter,
    out: &mut O,
    until: Until,
    idle: &mut u64,
) -> Result<bool, Stop>
    requires runs { Runs driver.old (O.written out.old) writer.old.tally }
    requires main { IsMainOf context.now.hub.now driver.old.main }
    requires hands { AreHandsOf context.now.hub.now own.old.items }
    ensures hands { AreHandsOf context.now.hub.now own.new.items }
    ensures main { OnOk result (IsMainOf context.now.hub.now driver.new.main) }
    ensures reached { IfOk result (λ reached. reached ≡ true → IsReached until driver.new) }
    ensures ok { OnOk result (WritesOnly driver.old (O.written out.old) writer.old.tally
        driver.new (O.written out.new) writer.new.tally) }
    ensures err { OnErr result (FallsShort driver.old (O.written out.old) writer.old.tally (O.written out.new)) }
    ensures stop { IfErr result (λ stop. IsOutputStop (O.faults out.old) (O.faults out.new) stop) }
    ensures later { O.faults out.old ≤ O.faults out.new }
{
    let heard = context.bells.main.rings();
    let busy = round(context, own, driver, writer, out)?;
    if is_reached(until, driver) {
        return Ok(true);
    }
    *idle = context.rest(busy, heard, *idle);
    Ok(false)
}

// Goes on until what main waits for is so.
fn turn_until<R: Wait, O: Sink, G: Gate>(
    context: &LoopContext<'_, R, G>,
    own: &mut Vec<WorkerHand>,
    driver: &mut Driver,
    writer: &mut LineWriter,
    out: &mut O,
    until: Until,
) -> Result<(), Stop>
    requires runs { Runs driver.old (O.written out.old) writer.old.tally }
    requires main { IsMainOf context.now.hub.now driver.old.main }
    requires hands { AreHandsOf context.now.hub.now own.old.items }
    ensures hands { AreHandsOf context.now.hub.now own.new.items }
    ensures main { OnOk result (IsMainOf context.now.hub.now driver.new.main) }
    ensures reached { OnOk result (IsReached until driver.new) }
    ensures ok { OnOk result (WritesOnly driver.old (O.written out.old) writer.old.tally
        driver.new (O.written out.new) writer.new.tally) }
    ensures err { OnErr result (FallsShort driver.old (O.written out.old) writer.old.tally (O.written out.new)) }
    ensures stop { IfErr result (λ stop. IsOutputStop (O.faults out.old) (O.faults out.new) stop) }
    ensures later { O.faults out.old ≤ O.faults out.new }
{
    let mut idle = 0u64;
    for _ in context.rt.forever() {
        if round_until(context, own, driver, writer, out, until, &mut idle)? {
            return Ok(());
        }
    }
    unreachable!()
}

/// Goes on until the lines of all settled positions are written.
pub fn drain<R: Wait, O: Sink, G: Gate>(
    context: &LoopContext<'_, R, G>,
    own: &mut Vec<WorkerHand>,
    driver: &mut Driver,
    writer: &mut LineWriter,
    out: &mut O,
) -> Result<(), Stop>
    requires runs { Runs driver.old (O.written out.old) writer.old.tally }
    requires main { IsMainOf context.now.hub.now driver.old.main }
    requires hands { AreHandsOf context.now.hub.now own.old.items }
    ensures hands { AreHandsOf context.now.hub.now own.new.items }
    ensures main { OnOk result (IsMainOf context.now.hub.now driver.new.main) }
    ensures over { OnOk result (AllEmitted driver.new) }
    ensures ok { OnOk result (WritesOnly driver.old (O.written out.old) writer.old.tally
        driver.new (O.written out.new) writer.new.tally) }
    ensures err { OnErr result (FallsShort driver.old (O.written out.old) writer.old.tally (O.written out.new)) }
    ensures stop { IfErr result (λ stop. IsOutputStop (O.faults out.old) (O.faults out.new) stop) }
    ensures later { O.faults out.old ≤ O.faults out.new }
{
    turn_until(context, own, driver, writer, out, Until::Drained)
}

/// Goes on until each worker's queue has room for an item, where `turns` is true, for one turn at least.
pub(crate) fn make_room<R: Wait, O: Sink, G: Gate>(
    context: &LoopContext<'_, R, G>,
    own: &mut Vec<WorkerHand>,
    driver: &mut Driver,
    writer: &mut LineWriter,
    out: &mut O,
    turns: bool,
) -> Result<(), Stop>
    requires runs { Runs driver.old (O.written out.old) writer.old.tally }
    requires main { IsMainOf context.now.hub.now driver.old.main }
    requires hands { AreHandsOf context.now.hub.now own.old.items }
    ensures { MakesRoom context.now.hub.now own.new.items
        (main_state O.Sink driver.old out.old writer.old.tally)
        (main_state O.Sink driver.new out.new writer.new.tally) result }
{
    if !turns && driver.has_room() {
        return Ok(());
    }
    turn_until(context, own, driver, writer, out, Until::Roomy)
}
