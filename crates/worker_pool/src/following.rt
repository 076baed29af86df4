//! The log in chunks: all lines of a chunk are written and handed on before the next chunk is read.
ghost use Rattle.std.specs.Prelude.{◌≡◌, ◌<◌, ◌≤◌, IfOk, IsTrue, length, []};
ghost use Rattle.log_reader.specs.Progress.{nothing_fed};
ghost use Rattle.log_reader.specs.Readers.{Reads, progress};
ghost use Rattle.monitorable.specs.CoreForms.{CoreForm};
ghost use Rattle.turn_hub.specs.Ends.{IsMainOf};
ghost use Rattle.hub_threads.specs.Hands.{AreHandsOf};
ghost use Rattle.lone_worker.specs.Chunks.{run_end};
ghost use Rattle.lone_worker.specs.Effects.{effect};
ghost use Rattle.lone_worker.specs.Endings.{FollowsLog};
ghost use Rattle.lone_worker.specs.Policies.{ForEachPolicy};
ghost use Rattle.lone_worker.specs.Texts.{tally_of};
ghost use Rattle.main_steps.specs.Changes.{HaveCells, Suits};
ghost use Rattle.main_steps.specs.Writing.{HasReadNothing};
ghost use Rattle.worker_pool.specs.Chunks.{ReadsPlan};

use crate::loop_end::end_of;
use log_reader::LogReader;
use lone_worker::{LineWriter, Stop, Tally};
use main_steps::{LoopContext, Schedule, WorkerHand};
use mon_outside::{Gate, Inputs, Sink};
use rescale_core::Driver;
use std::sync::Wait;

/// What main's loop has and is lent.
#[derive(Drop)]
pub(crate) struct MainLoop<'o, 's, R, G, I, O> {
    pub(crate) context: &'o LoopContext<'o, R, G>,
    pub(crate) driver: &'o mut Driver,
    pub(crate) schedule: &'o mut Schedule,
    pub(crate) buffer: &'o mut [u8],
    pub(crate) log: &'o mut LogReader<'s>,
    pub(crate) inputs: &'o mut I,
    pub(crate) out: &'o mut O,
}

impl<R: Wait, G: Gate, I: Inputs, O: Sink> MainLoop<'_, '_, R, G, I, O> {
    /// Monitors the open file as a log, chunk after chunk, and answers what was counted of its lines. What was
    /// written is handed on before each read.
    pub(crate) fn follow(
        &mut self,
        own: &mut Vec<WorkerHand>,
        writer: &mut LineWriter,
    ) -> Result<Tally, Stop>
        requires room { 0 < length self.old.buffer.now }
        requires opened { IsTrue (I.is_open self.old.inputs.now) }
        requires fresh { progress self.old.log.now []
            ≡ nothing_fed self.old.log.now.sig self.old.log.now.limits }
        requires reads { Reads self.old.log.now [] }
        requires begins { (core : CoreForm) × HasReadNothing core self.old.driver.now }
        requires suits { Suits self.old.driver.now self.old.schedule.now }
        requires seated { HaveCells self.old.context.now.cells self.old.schedule.now }
        requires unread { self.old.schedule.now.routed ≡ 0 }
        requires uncounted { writer.old.tally ≡ tally_of [] }
        requires main { IsMainOf self.old.context.now.hub.now self.old.driver.now.main }
        requires hands { AreHandsOf self.old.context.now.hub.now own.old.items }
        ensures hands { AreHandsOf self.old.context.now.hub.now own.new.items }
        ensures same_log { self.new.log.ghost_name ≡ self.old.log.ghost_name }
        ensures same_inputs { self.new.inputs.ghost_name ≡ self.old.inputs.ghost_name }
        ensures same_out { self.new.out.ghost_name ≡ self.old.out.ghost_name }
        ensures same_driver { self.new.driver.ghost_name ≡ self.old.driver.ghost_name }
        ensures files { I.files self.new.inputs.now ≡ I.files self.old.inputs.now }
        ensures stays_open { I.is_open self.new.inputs.now ≡ I.is_open self.old.inputs.now }
        ensures asks_nothing { I.asked self.new.inputs.now ≡ I.asked self.old.inputs.now }
        ensures later { I.faults self.old.inputs.now ≤ I.faults self.new.inputs.now }
        ensures later_out { O.faults self.old.out.now ≤ O.faults self.new.out.now }
        ensures follows { (core : CoreForm) → HasReadNothing core self.old.driver.now → ForEachPolicy core (λ policy.
            FollowsLog self.old.log.now.sig self.old.log.now.limits policy (effect I.Inputs O.Sink
            self.old.inputs.now self.new.inputs.now self.old.out.now self.new.out.now) (run_end result)) }
        ensures planned { (core : CoreForm) → HasReadNothing core self.old.driver.now → IfOk result (λ tally.
            ReadsPlan core self.old.log.now.sig self.old.log.now.limits self.old.schedule.now.changes.items
            (I.rest self.old.inputs.now) (I.rest self.new.inputs.now) (O.written self.old.out.now)
            self.new.driver.now (O.written self.new.out.now) tally) }
    {
        'chunks: for _ in self.context.rt.forever() {
            let ended = self.take_chunk(own, writer);
            match end_of(ended, writer.tally) {
                None => {}
                Some(end) => return end,
            }
        }
        unreachable!()
    }
}
