//! The merge of a worker's new state.
ghost use Rattle.std.specs.Prelude.{◌≡◌, ◌+◌, ◌<◌, ◌∷◌, ◌==◌, List, None, Some, ℕ, IfOk, IfSome, OnOk};
ghost use Rattle.mfotl_model.specs.Regions.{near_of};
ghost use Rattle.mfotl_model.specs.Strategies.{Strategy};
ghost use Rattle.mfotl_model.specs.declared.event.TimePoint.{TimePoint};
ghost use Rattle.monitorable.specs.CoreForms.{CoreForm};
ghost use Rattle.monitorable.specs.Cores.{core_form};
ghost use Rattle.monitor_state.specs.MonitorView.{monitor_of};
ghost use Rattle.monitor_state.specs.Pieces.{Adopts, Merges, PieceStands, view_of};
ghost use Rattle.monitor_state.specs.Resuming.{SuitsWhole};
ghost use Rattle.monitor_state.specs.Stands.{Stands};
ghost use Rattle.state_merge.specs.Finishing.{AllAdopted, IsWhole};
ghost use Rattle.state_merge.specs.Fits.{CanBeUnited};
ghost use Rattle.state_merge.specs.MergingView.{merging_of};

use crate::states::united_states;
use monitor_state::{Monitor, Piece, State};
use monitorable::Core;
use std::alloc::{AllocError, Global};

/// What a worker of a new strategy merged of the pieces of its state. There is one from each of `count`
/// workers, and they come in any order. Contracts see it through `merging_of`.
#[derive(Drop)]
pub struct Merging {
    core: Core,
    count: u32,
    adopted: u32,
    merged: Option<State>,
}

// the first piece as it is, a later one united with what was merged
fn with_piece(alloc: Global, merged: Option<State>, piece: State) -> Result<State, AllocError>
    requires { IfSome merged (λ state. CanBeUnited state piece) }
    ensures { IfOk result (λ state. Adopts merged piece (Some state)) }
{
    match merged {
        None => Ok(piece),
        Some(state) => {
            let united = united_states(alloc, state, piece)?;
            Ok(united)
        }
    }
}

impl Merging {
    /// The merge of so many pieces, of which none was adopted.
    pub fn new(alloc: Global, core: &Core, count: u32) -> Result<Self, AllocError>
        ensures { IfOk result (λ merging. merging_of merging ≡ record {
          core = core_form core.now;
          count = count;
          adopted = 0;
          merged = None;
        }) }
    {
        Ok(Merging {
            core: core.copy(alloc)?,
            count,
            adopted: 0,
            merged: None,
        })
    }

    /// Adopts a piece. After an error the merge is of no further use.
    pub fn adopt(&mut self, alloc: Global, piece: Piece) -> Result<(), AllocError>
        requires fits { IfSome (merging_of self.old).merged (λ state. CanBeUnited state piece.state) }
        requires due { (merging_of self.old).adopted < (merging_of self.old).count }
        ensures core { (merging_of self.new).core ≡ (merging_of self.old).core }
        ensures count { (merging_of self.new).count ≡ (merging_of self.old).count }
        ensures adopted { OnOk result ((merging_of self.new).adopted ≡ (merging_of self.old).adopted + 1) }
        ensures adopts { OnOk result (Adopts (merging_of self.old).merged piece.state (merging_of self.new).merged) }
        ensures merges { OnOk result ((core : CoreForm) (s s2 : Strategy) (k2 : ℕ) (log : List TimePoint)
            (ks : List ℕ) (k : ℕ) → Merges core s s2 k2 log ks (merging_of self.old).merged →
            PieceStands core s k s2 k2 log piece → Merges core s s2 k2 log (k ∷ ks) (merging_of self.new).merged) }
    {
        let merged = self.merged.take();
        let state = with_piece(alloc, merged, piece.state)?;
        self.merged = Some(state);
        self.adopted += 1;
        Ok(())
    }

    /// Whether all pieces were adopted.
    pub fn is_complete(&self) -> bool
        ensures { result ≡ ((merging_of self.now).adopted == (merging_of self.now).count) }
    {
        self.adopted == self.count
    }

    /// The monitor that goes on from the pieces, all of which were adopted: it stands for what they stand for together.
    pub fn finish(self, alloc: Global) -> Result<Monitor, AllocError>
        requires whole { IsWhole (merging_of self) }
        ensures core { IfOk result (λ monitor. (monitor_of monitor).core ≡ (merging_of self).core) }
        ensures stands { IfOk result (λ monitor. (s s2 : Strategy) (k2 : ℕ) (log : List TimePoint) (ks : List ℕ) →
            AllAdopted s ks → Merges (merging_of self).core s s2 k2 log ks (merging_of self).merged →
            SuitsWhole (view_of (merging_of self).core (near_of s2 k2) log) (merging_of self).core →
            Stands (view_of (merging_of self).core (near_of s2 k2) log) (merging_of self).core
            (monitor_of monitor).state) }
    {
        let Merging { core, merged, .. } = self;
        let Some(state) = merged else {
            unreachable!();
        };
        let monitor = Monitor::resume(alloc, core, state)?;
        Ok(monitor)
    }
}
