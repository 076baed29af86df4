//! One chunk of main's loop.
ghost use Rattle.std.specs.Prelude.{◌≡◌, ◌<◌, ◌≤◌, IsTrue, OnOk, length};
ghost use Rattle.turn_hub.specs.Ends.{IsMainOf};
ghost use Rattle.hub_threads.specs.Hands.{AreHandsOf};
ghost use Rattle.main_steps.specs.Changes.{HaveCells, Suits};
ghost use Rattle.worker_pool.specs.Following.{Beginning, ComesTo, HasCome, loop_state};

use crate::following::MainLoop;
use crate::routing::route_complete;
use lone_worker::{LineWriter, Stop, read_on};
use main_steps::WorkerHand;
use mon_outside::{Gate, Inputs, Sink};
use std::sync::Wait;

impl<R: Wait, G: Gate, I: Inputs, O: Sink> MainLoop<'_, '_, R, G, I, O> {
    /// Writes all lines that are due for what was read, and then reads the next chunk, unless the log is at its end.
    /// Answers whether it is.
    pub(crate) fn take_chunk(
        &mut self,
        own: &mut Vec<WorkerHand>,
        writer: &mut LineWriter,
    ) -> Result<bool, Stop>
        requires room { 0 < length self.old.buffer.now }
        requires opened { IsTrue (I.is_open self.old.inputs.now) }
        requires under_way { (b : Beginning) × HasCome b (loop_state I.Inputs O.Sink self.old.driver.now
            self.old.schedule.now writer.old.tally self.old.log.now self.old.inputs.now self.old.out.now) }
        requires suits { Suits self.old.driver.now self.old.schedule.now }
        requires seated { HaveCells self.old.context.now.cells self.old.schedule.now }
        requires main { IsMainOf self.old.context.now.hub.now self.old.driver.now.main }
        requires hands { AreHandsOf self.old.context.now.hub.now own.old.items }
        ensures hands { AreHandsOf self.new.context.now.hub.now own.new.items }
        ensures same_context { self.new.context ≡ self.old.context }
        ensures same_log { self.new.log.ghost_name ≡ self.old.log.ghost_name }
        ensures same_inputs { self.new.inputs.ghost_name ≡ self.old.inputs.ghost_name }
        ensures same_out { self.new.out.ghost_name ≡ self.old.out.ghost_name }
        ensures same_driver { self.new.driver.ghost_name ≡ self.old.driver.ghost_name }
        ensures files { I.files self.new.inputs.now ≡ I.files self.old.inputs.now }
        ensures stays_open { I.is_open self.new.inputs.now ≡ I.is_open self.old.inputs.now }
        ensures asks_nothing { I.asked self.new.inputs.now ≡ I.asked self.old.inputs.now }
        ensures later { I.faults self.old.inputs.now ≤ I.faults self.new.inputs.now }
        ensures later_out { O.faults self.old.out.now ≤ O.faults self.new.out.now }
        ensures room { 0 < length self.new.buffer.now }
        ensures main { OnOk result (IsMainOf self.new.context.now.hub.now self.new.driver.now.main) }
        ensures suits { OnOk result (Suits self.new.driver.now self.new.schedule.now) }
        ensures seated { OnOk result (HaveCells self.new.context.now.cells self.new.schedule.now) }
        ensures comes { (b : Beginning) → HasCome b (loop_state I.Inputs O.Sink self.old.driver.now
            self.old.schedule.now writer.old.tally self.old.log.now self.old.inputs.now self.old.out.now)
            → ComesTo b (loop_state I.Inputs O.Sink self.new.driver.now self.new.schedule.now writer.new.tally
            self.new.log.now self.new.inputs.now self.new.out.now) result }
    {
        route_complete(
            self.context,
            own,
            &mut *self.driver,
            &mut *self.schedule,
            writer,
            &mut *self.log,
            &mut *self.out,
        )?;
        if self.log.is_finished() {
            return Ok(true);
        }
        read_on(
            self.context.alloc,
            &mut *self.inputs,
            &mut *self.buffer,
            &mut *self.log,
            &mut *self.out,
        )?;
        Ok(false)
    }
}
