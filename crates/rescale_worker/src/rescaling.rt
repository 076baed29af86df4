//! What a worker does at a change of strategy: it splits its state among the workers of the next one, and merges the
//! pieces that it gets.
ghost use Rattle.std.specs.Prelude.{◌≡◌, ◌++◌, [], IfOk, map};
ghost use Rattle.monitorable.specs.Cores.{core_form};
ghost use Rattle.rescale_worker.specs.States.{AllCame, IsFull};
ghost use Rattle.rescale_worker.specs.Working.{CanTake, Gave, ResumesMerging, HasNoState, Settles, TakesItem};

use crate::boxed::{BoxedPiece, BoxedStrategy};
use crate::item::{Item, Out};
use crate::phase::Phase;
use crate::worker::Worker;
use monitor_state::Piece;
use monitorable::Core;
use state_merge::Merging;
use state_split::split_state;
use std::alloc::{AllocError, Global};
use std::mem;

impl Worker {
    /// Gives a piece of its state for each worker of the new strategy, and is vacant then.
    pub(crate) fn part(
        &mut self,
        alloc: Global,
        generation: u64,
        old: BoxedStrategy,
        new: BoxedStrategy,
        outs: &mut Vec<Out>,
    ) -> Result<(), AllocError>
        requires { CanTake self.old (Item.Part generation old new) }
        ensures { IfOk result (λ _.
            Gave self.old (Item.Part generation old new) self.new outs.old.items outs.new.items) }
    {
        let Phase::Active { monitor, strategy } = &self.phase else {
            unreachable!()
        };
        let present = strategy.get();
        let next = new.get();
        let pieces = split_state(alloc, monitor, present, self.number, next, generation)?;
        give_pieces(alloc, pieces, outs)?;
        self.enter(Phase::Vacant);
        Ok(())
    }

    /// Merges the piece with those that came before it. With the last one it monitors.
    pub(crate) fn adopt(
        &mut self,
        alloc: Global,
        piece: Piece,
        now: BoxedStrategy,
    ) -> Result<(), AllocError>
        requires { CanTake self.old (Item.Adopt piece now) }
        ensures { IfOk result (λ _. TakesItem self.old (Item.Adopt piece now) self.new []) }
    {
        let phase = mem::replace(&mut self.phase, Phase::Vacant);
        let mut merging = merging_for(alloc, &self.core, phase, piece.count)?;
        merging.adopt(alloc, piece)?;
        let next = settle(alloc, merging, now)?;
        self.enter(next);
        Ok(())
    }

    fn enter(&mut self, phase: Phase)
        ensures { self.new ≡ record self.old { phase = phase } }
    {
        self.phase = phase;
    }
}

// The phase behind a piece.
fn settle(alloc: Global, merging: Merging, now: BoxedStrategy) -> Result<Phase, AllocError>
    requires full { AllCame merging → IsFull merging }
    ensures { IfOk result (λ phase. Settles merging now phase) }
{
    if merging.is_complete() {
        let monitor = merging.finish(alloc)?;
        Ok(Phase::Active {
            monitor,
            strategy: now,
        })
    } else {
        Ok(Phase::Waiting { merging, now })
    }
}

fn give_pieces(alloc: Global, pieces: Vec<Piece>, outs: &mut Vec<Out>) -> Result<(), AllocError>
    ensures { IfOk result (λ _. outs.new.items ≡ outs.old.items ++ map (λ p. Out.Piece p) pieces.items) }
{
    for piece in pieces {
        outs.push(Out::Piece(BoxedPiece::new(alloc, piece)?))?;
    }
    Ok(())
}

// The merge that goes on, or a new one.
fn merging_for(alloc: Global, core: &Core, phase: Phase, count: u32) -> Result<Merging, AllocError>
    requires { HasNoState phase }
    ensures { IfOk result (λ merging. ResumesMerging phase (core_form core.now) count merging) }
{
    match phase {
        Phase::Vacant => {
            let merging = Merging::new(alloc, core, count)?;
            Ok(merging)
        }
        Phase::Waiting { merging, now: _ } => Ok(merging),
        Phase::Active { .. } => unreachable!(),
    }
}
