//! One round of main's loop: what is ready is handed over, collected and written.
ghost use Rattle.std.specs.Prelude.{◌≡◌, ◌≢◌, ◌<◌, ◌≤◌, ℕ, IfErr, List, OnOk, OnErr, Option};
ghost use Rattle.rescale_core.specs.Moving.{IsDriverOf};
ghost use Rattle.rescale_core.specs.Worlds.{World};
ghost use Rattle.turn_hub.specs.Ends.{IsMainOf, main_view};
ghost use Rattle.turn_hub.specs.Words.{broken};
ghost use Rattle.hub_threads.specs.Hands.{AreHandsOf};
ghost use Rattle.lone_worker.specs.Verdicts.{IsOutputStop};
ghost use Rattle.lone_worker.specs.declared.tally.Tally.{Tally};
ghost use Rattle.main_steps.specs.Writing.{FallsShort, WritesOnly, Runs};

use crate::hands::{LoopContext, WorkerHand};
use hub_threads::serve_each;
use lone_worker::{LineWriter, Stop};
use mon_outside::{Gate, Sink};
use rescale_core::{Driver, Turn};
use std::alloc::{AllocError, Global};

// Writes the line of the next verdict, if it is ready. Answers whether it was.
fn write_next<O: Sink>(
    alloc: Global,
    driver: &mut Driver,
    writer: &mut LineWriter,
    out: &mut O,
) -> Result<bool, Stop>
    ensures main { OnOk result (driver.new.main ≡ driver.old.main) }
    ensures ok { OnOk result (WritesOnly driver.old (O.written out.old) writer.old.tally
        driver.new (O.written out.new) writer.new.tally) }
    ensures err { OnErr result (FallsShort driver.old (O.written out.old) writer.old.tally (O.written out.new)) }
    ensures stop { IfErr result (λ stop. IsOutputStop (O.faults out.old) (O.faults out.new) stop) }
    ensures later { O.faults out.old ≤ O.faults out.new }
{
    let ready = driver.emit(alloc)?;
    match ready {
        None => Ok(false),
        Some(verdict) => {
            writer.write(&verdict, out)?;
            Ok(true)
        }
    }
}

// Writes the line of each verdict that is ready. It waits for nobody.
fn write_ready<O: Sink>(
    alloc: Global,
    driver: &mut Driver,
    writer: &mut LineWriter,
    out: &mut O,
) -> Result<(), Stop>
    requires { Runs driver.old (O.written out.old) writer.old.tally }
    ensures main { OnOk result (driver.new.main ≡ driver.old.main) }
    ensures ok { OnOk result (WritesOnly driver.old (O.written out.old) writer.old.tally
        driver.new (O.written out.new) writer.new.tally) }
    ensures err { OnErr result (FallsShort driver.old (O.written out.old) writer.old.tally (O.written out.new)) }
    ensures stop { IfErr result (λ stop. IsOutputStop (O.faults out.old) (O.faults out.new) stop) }
    ensures later { O.faults out.old ≤ O.faults out.new }
{
    for _ in 0..u64::MAX {
        if !write_next(alloc, driver, writer, out)? {
            return Ok(());
        }
    }
    Err(Stop::Memory)
}

// Collects from the worker what it gave, and hands over what is ready for it. Answers whether there was any of it.
#[tactic(auto, using(crate::proofs::WritingLemmas::turn_stands, crate::proofs::WritingLemmas::turn_written))]
fn turn_one<R, G>(
    context: &LoopContext<'_, R, G>,
    driver: &mut Driver,
    worker: u32,
) -> Result<bool, AllocError>
    requires stands { (w : World) × IsDriverOf driver.old w }
    requires main { IsMainOf context.now.hub.now driver.old.main }
    requires within { worker < context.now.cells }
    ensures stands { OnOk result ((w : World) × IsDriverOf driver.new w) }
    ensures main { OnOk result (IsMainOf context.now.hub.now driver.new.main) }
    ensures ok { OnOk result ((written : Option (List ℕ)) (tally : Tally)
        → WritesOnly driver.old written tally driver.new written tally) }
    ensures whole { OnOk result ((main_view driver.new.main).word ≢ broken) }
{
    let turn = driver.turn(context.alloc, context.hub, worker)?;
    match turn {
        Turn::NotYet => Ok(false),
        Turn::Broken => Err(AllocError),
        Turn::Moved(given, handed) => {
            if handed != 0 {
                context.bells.ring(worker);
            }
            Ok(given != 0 || handed != 0)
        }
    }
}

// Collects from each worker what it gave, and hands over what is ready for it. Answers whether there was any of it.
fn turn_all<R, G>(context: &LoopContext<'_, R, G>, driver: &mut Driver) -> Result<bool, AllocError>
    requires stands { (w : World) × IsDriverOf driver.old w }
    requires main { IsMainOf context.now.hub.now driver.old.main }
    ensures main { OnOk result (IsMainOf context.now.hub.now driver.new.main) }
    ensures ok { OnOk result ((written : Option (List ℕ)) (tally : Tally)
        → WritesOnly driver.old written tally driver.new written tally) }
{
    let mut busy = false;
    for k in 0..context.cells {
        let turned = turn_one(context, driver, k)?;
        busy |= turned;
    }
    Ok(busy)
}

/// One round: each worker, main's own hands, and the lines that are ready. Answers whether there was something to do.
pub(crate) fn round<R, O: Sink, G: Gate>(
    context: &LoopContext<'_, R, G>,
    own: &mut Vec<WorkerHand>,
    driver: &mut Driver,
    writer: &mut LineWriter,
    out: &mut O,
) -> Result<bool, Stop>
    requires runs { Runs driver.old (O.written out.old) writer.old.tally }
    requires main { IsMainOf context.now.hub.now driver.old.main }
    requires hands { AreHandsOf context.now.hub.now own.old.items }
    ensures hands { AreHandsOf context.now.hub.now own.new.items }
    ensures main { OnOk result (IsMainOf context.now.hub.now driver.new.main) }
    ensures ok { OnOk result (WritesOnly driver.old (O.written out.old) writer.old.tally
        driver.new (O.written out.new) writer.new.tally) }
    ensures err { OnErr result (FallsShort driver.old (O.written out.old) writer.old.tally (O.written out.new)) }
    ensures stop { IfErr result (λ stop. IsOutputStop (O.faults out.old) (O.faults out.new) stop) }
    ensures later { O.faults out.old ≤ O.faults out.new }
{
    let turned = turn_all(context, driver)?;
    let served = serve_each(context.alloc, context.hub, own, context.gate);
    write_ready(context.alloc, driver, writer, out)?;
    Ok(turned || served)
}
