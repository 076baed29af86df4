//! Main's part: it reads, hands over, collects and emits.
ghost use Rattle.std.specs.Prelude.{◌≡◌, ◌∷◌, [], ◌<◌, true, IfOk, IfSome, IfNone, length};
ghost use Rattle.mfotl_model.specs.Strategies.{Strategy as OneStrategy};
ghost use Rattle.monitorable.specs.CoreForms.{CoreForm};
ghost use Rattle.monitor_state.specs.Verdicts.{MayFollow};
ghost use Rattle.turn_hub.specs.Ends.{AllMine, IsMainOf, cell_count, main_view};
ghost use Rattle.rescale_core.specs.Moving.{HandsOver, HasTurn, IsDriverOf, IsOpened, LookedAtItsTurn, Reaches};
ghost use Rattle.rescale_core.specs.Moving.{TakesBack, TurnsTo};
ghost use Rattle.rescale_core.specs.Moving.StepKind.{Reads};
ghost use Rattle.rescale_core.specs.Routing.{HasEnded, IsRouterOf};
ghost use Rattle.rescale_worker.specs.Workers.{IsFor};
ghost use Rattle.rescale_core.specs.Worlds.{World, Allowed, IsGathered, world_after, first_world, spot_in};
ghost use Rattle.rescale_core.specs.Worlds.Step.{Emit};
ghost use Rattle.rescale_worker.specs.declared.item.Entry.TheVariants.{Change, Point};

use crate::router::Router;
use mfotl_model::TimePoint;
use rescale_worker::Worker;
use slice_strategy::Strategy;
use std::alloc::{AllocError, Global};
use turn_hub::{Hub, Main, Swap};
use verdict_merge::Verdict;

/// The router beside main's end of a hub of workers.
#[derive(Drop)]
pub struct Driver {
    pub(crate) router: Router,
    pub(crate) main: Main<Worker>,
}

/// What main found at a worker.
#[derive(Drop)]
pub enum Turn {
    /// How many items the worker had, all of which it took, and how many it was handed now.
    Moved(u64, u64),
    /// It is the worker's turn.
    NotYet,
    /// The worker ran out of memory.
    Broken,
}

impl Driver {
    /// The driver that did nothing yet, of a router that was just started and a hub that was just opened on workers of
    /// its core and strategy.
    pub fn open(router: Router, main: Main<Worker>) -> Self
        requires { (c : CoreForm) × (s : OneStrategy) × IsRouterOf router (first_world c s) × IsOpened c s main }
        ensures stands { (c : CoreForm) (s : OneStrategy) → IsRouterOf router (first_world c s) → IsOpened c s main
            → IsDriverOf result (first_world c s) }
        ensures main { result.main ≡ main }
    {
        Driver { router, main }
    }

    /// Queues a slice of the time-point for each worker, also an empty one.
    pub fn read_point(&mut self, alloc: Global, point: TimePoint) -> Result<(), AllocError>
        requires { (w : World) × IsDriverOf self.old w × MayFollow (spot_in w).points point }
        ensures moves { IfOk result (λ _. (w : World) → MayFollow (spot_in w).points point → IsDriverOf self.old w
            → (x : World) × Reaches w (Reads (Point point) ∷ []) x × IsDriverOf self.new x) }
        ensures main { IfOk result (λ _. self.new.main ≡ self.old.main) }
    {
        self.router.read_point(alloc, point)?;
        Ok(())
    }

    /// Queues a part for each worker of the present strategy, and behind it a place for all their pieces for each
    /// worker of the next one.
    pub fn read_change(&mut self, alloc: Global, strategy: Strategy) -> Result<(), AllocError>
        requires { (w : World) × IsDriverOf self.old w × IsFor w.core strategy }
        ensures moves { IfOk result (λ _. (w : World) → IsFor w.core strategy → IsDriverOf self.old w
            → (x : World) × Reaches w (Reads (Change strategy) ∷ []) x × IsDriverOf self.new x) }
        ensures main { IfOk result (λ _. self.new.main ≡ self.old.main) }
    {
        self.router.read_change(alloc, strategy)?;
        Ok(())
    }

    /// The next verdict, once all its Rows were collected.
    pub fn emit(&mut self, alloc: Global) -> Result<Option<Verdict>, AllocError>
        ensures emitted { IfOk result (λ o. IfSome o (λ v. (w : World) → IsDriverOf self.old w
            → Allowed w (Emit v) × IsDriverOf self.new (world_after w (Emit v)))) }
        ensures none { IfOk result (λ o. IfNone o ((w : World) → IsDriverOf self.old w
            → (IsGathered w (length w.emitted) → ⊥) × IsDriverOf self.new w)) }
        ensures main { IfOk result (λ _. self.new.main ≡ self.old.main) }
    {
        let verdict = self.router.emit(alloc)?;
        Ok(verdict)
    }

    /// Whether no item waits, every item handed over was collected, and there is no verdict to emit. Then all turns are
    /// main's.
    pub fn ended(&self) -> bool
        ensures ended { (w : World) → IsDriverOf self.now w → result ≡ true → HasEnded w }
        ensures open { (w : World) → IsDriverOf self.now w → HasEnded w → result ≡ true }
        ensures mine { (w : World) → IsDriverOf self.now w → result ≡ true → AllMine (main_view self.now.main) }
    {
        self.router.ended()
    }

    /// Main's end, as it stands.
    pub fn release(self) -> Main<Worker>
        ensures { result ≡ self.main }
    {
        let Driver { router: _, main } = self;
        main
    }

    /// Collects what the items that the worker had gave, and hands over all that are ready then. Where it is the
    /// worker's turn, or the worker is broken, nothing happens.
    pub fn turn(
        &mut self,
        alloc: Global,
        hub: &Hub<Worker>,
        worker: u32,
    ) -> Result<Turn, AllocError>
        requires stands { (w : World) × IsDriverOf self.old w }
        requires main { IsMainOf hub.now self.old.main × (worker < cell_count hub.now) }
        ensures did { IfOk result (λ turn. TurnsTo self.old worker turn self.new) }
        ensures main { IfOk result (λ _. IsMainOf hub.now self.new.main) }
    {
        let back = self.take_back(alloc, hub, worker)?;
        match back {
            Err(turn) => Ok(turn),
            Ok(given) => {
                let handed = self.hand_over(alloc, hub, worker)?;
                Ok(Turn::Moved(given, handed))
            }
        }
    }

    // Collects what the items that the worker had gave, and says how many these were. Where there is nothing to hand
    // over to, the turn is over.
    fn take_back(
        &mut self,
        alloc: Global,
        hub: &Hub<Worker>,
        worker: u32,
    ) -> Result<Result<u64, Turn>, AllocError>
        requires stands { (w : World) × IsDriverOf self.old w }
        requires main { IsMainOf hub.now self.old.main × (worker < cell_count hub.now) }
        ensures did { IfOk result (λ back. TakesBack self.old worker back self.new) }
        ensures main { IfOk result (λ _. IsMainOf hub.now self.new.main) }
    {
        match hub.swap(&mut self.main, worker, Vec::new(alloc)) {
            Swap::NotYet(_) => Ok(Err(Turn::NotYet)),
            Swap::Broken(_) => Ok(Err(Turn::Broken)),
            Swap::Back(given, outs) => {
                if given != 0 {
                    self.router.collect(worker, given, outs)?;
                }
                Ok(Ok(given))
            }
        }
    }

    // Hands over all that are ready, and says how many these are. Where none is, the cell stays as it is.
    fn hand_over(
        &mut self,
        alloc: Global,
        hub: &Hub<Worker>,
        worker: u32,
    ) -> Result<u64, AllocError>
        requires stands { (w : World) × IsDriverOf self.old w }
        requires main { IsMainOf hub.now self.old.main × (worker < cell_count hub.now) }
        requires mine { HasTurn (main_view self.old.main).lines worker }
        ensures did { IfOk result (λ m. (w : World) → IsDriverOf self.old w → HandsOver w worker m self.new) }
        ensures looked { IfOk result (λ _. (before : Driver) → LookedAtItsTurn before worker self.old
            → LookedAtItsTurn before worker self.new) }
        ensures main { IfOk result (λ _. IsMainOf hub.now self.new.main) }
    {
        let items = self.router.take_ready(alloc, worker, u64::MAX)?;
        if items.is_empty() {
            return Ok(0);
        }
        let handed = items.len() as u64;
        match hub.swap(&mut self.main, worker, items) {
            Swap::Back(_, _) => Ok(handed),
            _ => unreachable!(),
        }
    }
}
