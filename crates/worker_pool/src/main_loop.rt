//! Main's loop as what main does beside the threads.
ghost use Rattle.std.specs.Prelude.{◌≡◌, ◌≤◌, ◌<◌, [], IfOk, IsTrue, length};
ghost use Rattle.log_reader.specs.Progress.{nothing_fed};
ghost use Rattle.log_reader.specs.Readers.{Reads, progress};
ghost use Rattle.monitorable.specs.CoreForms.{CoreForm};
ghost use Rattle.turn_hub.specs.Ends.{IsMainOf};
ghost use Rattle.hub_threads.specs.Bells.{bell_count};
ghost use Rattle.hub_threads.specs.Hands.{AreGroupsOf, AreHandsOf};
ghost use Rattle.lone_worker.specs.Chunks.{run_end};
ghost use Rattle.lone_worker.specs.Effects.{effect};
ghost use Rattle.lone_worker.specs.Endings.{FollowsLog};
ghost use Rattle.lone_worker.specs.Policies.{ForEachPolicy};
ghost use Rattle.main_steps.specs.Changes.{HaveCells, Suits};
ghost use Rattle.main_steps.specs.Writing.{HasReadNothing};
ghost use Rattle.worker_pool.specs.Chunks.{ReadsPlan};

use crate::following::MainLoop;
use hub_threads::{MainTask, beside};
use log_reader::LogReader;
use lone_worker::{LineWriter, Stop, Tally};
use main_steps::{LoopContext, Schedule, WorkerHand};
use mon_outside::{Gate, Inputs, Sink};
use rescale_core::{Driver, Worker};
use std::alloc::AllocError;
use std::sync::Wait;
use std::thread::Threads;

impl<'o, 's, R: Wait, G: Gate, I: Inputs, O: Sink> MainTask<Worker>
    for MainLoop<'o, 's, R, G, I, O> {
    ghost use Rattle.std.specs.Prelude.{◌≡◌, ◌≤◌, ◌<◌, [], IfOk, IsTrue, length};
    ghost use Rattle.log_reader.specs.Progress.{nothing_fed};
    ghost use Rattle.log_reader.specs.Readers.{Reads, progress};
    ghost use Rattle.monitorable.specs.CoreForms.{CoreForm};
    ghost use Rattle.turn_hub.specs.Ends.{IsMainOf};
    ghost use Rattle.hub_threads.specs.Hands.{AreHandsOf};
    ghost use Rattle.lone_worker.specs.Chunks.{run_end};
    ghost use Rattle.lone_worker.specs.Effects.{effect};
    ghost use Rattle.lone_worker.specs.Endings.{FollowsLog};
    ghost use Rattle.lone_worker.specs.Policies.{ForEachPolicy};
    ghost use Rattle.main_steps.specs.Changes.{HaveCells, Suits};
    ghost use Rattle.main_steps.specs.Writing.{HasReadNothing};
    ghost use Rattle.worker_pool.specs.Chunks.{ReadsPlan};

    type Answer = Result<Tally, Stop>;

    ghost can = { λ d own. (0 < length d.buffer.now)
        × IsTrue (I.is_open d.inputs.now)
        × (progress d.log.now [] ≡ nothing_fed d.log.now.sig d.log.now.limits)
        × Reads d.log.now []
        × ((core : CoreForm) × HasReadNothing core d.driver.now)
        × Suits d.driver.now d.schedule.now
        × HaveCells d.context.now.cells d.schedule.now
        × (d.schedule.now.routed ≡ 0)
        × IsMainOf d.context.now.hub.now d.driver.now.main
        × AreHandsOf d.context.now.hub.now own };

    ghost did = { λ d r e. (e.log.ghost_name ≡ d.log.ghost_name)
        × (e.inputs.ghost_name ≡ d.inputs.ghost_name)
        × (e.out.ghost_name ≡ d.out.ghost_name)
        × (e.driver.ghost_name ≡ d.driver.ghost_name)
        × (I.files e.inputs.now ≡ I.files d.inputs.now)
        × (I.is_open e.inputs.now ≡ I.is_open d.inputs.now)
        × (I.asked e.inputs.now ≡ I.asked d.inputs.now)
        × (I.faults d.inputs.now ≤ I.faults e.inputs.now)
        × (O.faults d.out.now ≤ O.faults e.out.now)
        × ((core : CoreForm) → HasReadNothing core d.driver.now → IfOk r (λ tally. ReadsPlan core
        d.log.now.sig d.log.now.limits d.schedule.now.changes.items (I.rest d.inputs.now) (I.rest e.inputs.now)
        (O.written d.out.now) e.driver.now (O.written e.out.now) tally))
        × ((core : CoreForm) → HasReadNothing core d.driver.now
        → ForEachPolicy core (λ policy. FollowsLog d.log.now.sig d.log.now.limits policy
        (effect I.Inputs O.Sink d.inputs.now e.inputs.now d.out.now e.out.now) (run_end r))) };

    fn run(
        &mut self,
        ready: Result<(), AllocError>,
        own: &mut Vec<WorkerHand>,
    ) -> Result<Tally, Stop> {
        ready?;
        let mut writer = LineWriter::new(self.context.alloc);
        self.follow(own, &mut writer)
    }
}

/// Follows the log with a thread for each group of hands. Main serves its own.
pub(crate) fn follow_beside<'o, 's, R: Threads + Wait + Sync, I: Inputs, O: Sink, G: Gate + Sync>(
    context: &'o LoopContext<'o, R, G>,
    groups: Vec<Vec<WorkerHand>>,
    own: Vec<WorkerHand>,
    driver: &'o mut Driver,
    schedule: &'o mut Schedule,
    buffer: &'o mut Vec<u8>,
    log: &'o mut LogReader<'s>,
    inputs: &'o mut I,
    out: &'o mut O,
) -> Result<Tally, Stop>
    requires room { 0 < length buffer.old.items }
    requires opened { IsTrue (I.is_open inputs.old) }
    requires fresh { progress log.old [] ≡ nothing_fed log.old.sig log.old.limits }
    requires reads { Reads log.old [] }
    requires begins { (core : CoreForm) × HasReadNothing core driver.old }
    requires suits { Suits driver.old schedule.old }
    requires seated { HaveCells context.now.cells schedule.old }
    requires unread { schedule.old.routed ≡ 0 }
    requires main { IsMainOf context.now.hub.now driver.old.main }
    requires groups { AreGroupsOf context.now.hub.now groups.items }
    requires bells { length groups.items ≡ bell_count context.now.bells.now }
    requires hands { AreHandsOf context.now.hub.now own.items }
    ensures files { I.files inputs.new ≡ I.files inputs.old }
    ensures stays_open { I.is_open inputs.new ≡ I.is_open inputs.old }
    ensures asks_nothing { I.asked inputs.new ≡ I.asked inputs.old }
    ensures later { I.faults inputs.old ≤ I.faults inputs.new }
    ensures later_out { O.faults out.old ≤ O.faults out.new }
    ensures follows { (core : CoreForm) → HasReadNothing core driver.old → ForEachPolicy core (λ policy.
        FollowsLog log.old.sig log.old.limits policy
        (effect I.Inputs O.Sink inputs.old inputs.new out.old out.new) (run_end result)) }
    ensures planned { (core : CoreForm) → HasReadNothing core driver.old → IfOk result (λ tally. ReadsPlan core
        log.old.sig log.old.limits schedule.old.changes.items (I.rest inputs.old) (I.rest inputs.new)
        (O.written out.old) driver.new (O.written out.new) tally) }
{
    let mut main_loop = MainLoop {
        context,
        driver,
        schedule,
        buffer: buffer.as_mut_slice(),
        log,
        inputs,
        out,
    };
    beside(context, groups, own, &mut main_loop)
}
