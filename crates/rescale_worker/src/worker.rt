//! A worker: what it does with what it is handed.
ghost use Rattle.std.specs.Prelude.{◌≡◌, [], IfOk};
ghost use Rattle.monitorable.specs.Cores.{core_form};
ghost use Rattle.rescale_worker.specs.Workers.{IsFor};
ghost use Rattle.rescale_worker.specs.Working.{CanTake, Gave, IsAt, StandsFor, first_phase, seed_of};

use crate::boxed::BoxedStrategy;
use crate::item::{Item, Out};
use crate::phase::Phase;
use crate::seed::Seed;
use crate::settled::give_tables;
use mfotl_model::TimePoint;
use monitor_state::Monitor;
use monitorable::Core;
use slice_strategy::{Slicer, Strategy};
use std::alloc::{AllocError, Global};
use std::snapshot::Snapshot;
use turn_hub::Work;

/// Takes items one by one, and gives what it finds in them.
#[derive(Drop)]
pub struct Worker {
    pub(crate) core: Core,
    pub(crate) number: u32,
    pub(crate) first: Snapshot<Strategy>,
    pub(crate) phase: Phase,
}

impl Worker {
    /// The worker of this number that took nothing yet: it monitors if the strategy has a worker of this number.
    pub fn start(
        alloc: Global,
        core: &Core,
        strategy: &Strategy,
        number: u32,
    ) -> Result<Self, AllocError>
        requires { IsFor (core_form core.now) strategy.now }
        ensures seed { IfOk result (λ w.
            seed_of w ≡ record { core = core_form core.now; first = strategy.now; number = number }) }
        ensures stands { IfOk result (λ w. StandsFor (seed_of w) [] [] w) }
    {
        let first = Snapshot::of(strategy);
        let (core, phase) = first_parts(alloc, core, strategy, number)?;
        Ok(Worker {
            core,
            number,
            first,
            phase,
        })
    }

    fn take(&mut self, alloc: Global, item: Item, outs: &mut Vec<Out>) -> Result<(), AllocError>
        requires { CanTake self.old item }
        ensures { IfOk result (λ _. Gave self.old item self.new outs.old.items outs.new.items) }
    {
        match item {
            Item::Slice {
                generation,
                number,
                point,
            } => self.take_slice(alloc, generation, number, point, outs),
            Item::Part {
                generation,
                old,
                new,
            } => self.part(alloc, generation, old, new, outs),
            Item::Adopt { piece, now } => self.adopt(alloc, piece.into_inner(), now),
        }
    }

    fn take_slice(
        &mut self,
        alloc: Global,
        generation: u64,
        number: u64,
        point: TimePoint,
        outs: &mut Vec<Out>,
    ) -> Result<(), AllocError>
        requires { CanTake self.old (Item.Slice generation number point) }
        ensures { IfOk result (λ _.
            Gave self.old (Item.Slice generation number point) self.new outs.old.items outs.new.items) }
    {
        let Phase::Active { monitor, strategy } = &mut self.phase else {
            unreachable!()
        };
        let first = monitor.given();
        let tables = monitor.step(alloc, &point)?;
        give_tables(
            monitor,
            strategy.get(),
            self.number,
            generation,
            first,
            tables,
            outs,
        )?;
        Ok(())
    }
}

impl Work for Worker {
    ghost use Rattle.rescale_worker.specs.Works.{MayBy, RefusedBy, StandsBy, ToldBy, begun};
    ghost use Rattle.rescale_worker.specs.Works.{may_less_by, may_none_by, tells_by};

    type Item = Item;

    type Out = Out;

    type Seed = Seed;

    ghost seed = { begun };

    ghost stands = { StandsBy };

    ghost told = { ToldBy };

    ghost may = { MayBy };

    ghost refused = { RefusedBy };

    ghost tells = { tells_by };

    ghost may_none = { may_none_by };

    ghost may_less = { may_less_by };

    /// Takes an item, and appends what it gives. After an error the worker is of no further use.
    fn work(&mut self, alloc: Global, item: Item, outs: &mut Vec<Out>) -> Result<(), AllocError> {
        self.take(alloc, item, outs)?;
        Ok(())
    }
}

// The core of the worker of this number, and what it keeps before it took anything.
fn first_parts(
    alloc: Global,
    core: &Core,
    strategy: &Strategy,
    number: u32,
) -> Result<(Core, Phase), AllocError>
    ensures core { IfOk result (λ parts. core_form parts.0 ≡ core_form core.now) }
    ensures phase { IfOk result (λ parts. IsAt (core_form core.now) number
        (first_phase (record { core = core_form core.now; first = strategy.now; number = number })) parts.1) }
{
    let own = core.copy(alloc)?;
    let phase = first_phase(alloc, core, strategy, number)?;
    Ok((own, phase))
}

// What the worker of this number keeps before it took anything.
fn first_phase(
    alloc: Global,
    core: &Core,
    strategy: &Strategy,
    number: u32,
) -> Result<Phase, AllocError>
    ensures { IfOk result (λ phase. IsAt (core_form core.now) number
        (first_phase (record { core = core_form core.now; first = strategy.now; number = number })) phase) }
{
    if number >= strategy.workers() {
        return Ok(Phase::Vacant);
    }
    let strategy = BoxedStrategy::copied(alloc, strategy)?;
    let monitor = Monitor::new(alloc, core)?;
    Ok(Phase::Active { monitor, strategy })
}
