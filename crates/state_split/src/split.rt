//! A worker's state split among the workers of the next strategy.
ghost use Rattle.std.specs.Prelude.{◌≡◌, ◌<◌, IfOk, List, length};
ghost use Rattle.mfotl_model.specs.FreeVariables.{fv};
ghost use Rattle.mfotl_model.specs.Regions.{in_both};
ghost use Rattle.mfotl_model.specs.declared.event.TimePoint.{TimePoint};
ghost use Rattle.monitorable.specs.CoreForms.{meaning};
ghost use Rattle.monitor_state.specs.MonitorView.{monitor_of};
ghost use Rattle.monitor_state.specs.Pieces.{view_of};
ghost use Rattle.monitor_state.specs.Stands.{Stands};
ghost use Rattle.monitor_state.specs.StateCuts.{StateCut};
ghost use Rattle.slice_strategy.specs.Slicers.{BindsAll};
ghost use Rattle.state_split.specs.Fits.{NodesFit};
ghost use Rattle.state_split.specs.Shares.{OneEach};
ghost use Rattle.state_split.specs.Splits.{AreNumbered, IsNumbered, IsSplit, PiecesStand};

use crate::both::Both;
use crate::nodes::cut_nodes;
use crate::shares::{copies, paired};
use crate::sorter::Sorter;
use monitor_state::{Monitor, Piece, State};
use slice_strategy::Slicer;
use std::alloc::{AllocError, Global};

// The state's cut for each worker.
fn cut_state<S: Sorter>(alloc: Global, sorter: &S, state: State) -> Result<Vec<State>, AllocError>
    requires { S.tells sorter.now }
    ensures { IfOk result (λ cuts. OneEach (S.count sorter.now)
        (λ k cut. NodesFit state.nodes.items → StateCut (S.region sorter.now k) state cut) cuts.items) }
{
    let taken = state.taken;
    let given = state.given;
    let cuts = cut_nodes(alloc, sorter, state.nodes)?;
    let times = copies(alloc, &state.times, sorter.workers())?;
    let pairs = paired(alloc, times, cuts)?;
    pairs
        .into_iter()
        .map(|(times, nodes)| State {
            taken,
            given,
            times,
            nodes,
        })
        .collect(alloc)
}

// A piece with the state's cut for each worker of the next strategy.
fn pieces_of<S: Slicer, S2: Slicer>(
    alloc: Global,
    state: State,
    strategy: &S,
    from: u32,
    next: &S2,
    generation: u64,
) -> Result<Vec<Piece>, AllocError>
    requires { from < S.count strategy.now }
    ensures { IfOk result (λ pieces. OneEach (S2.count next.now)
        (λ to piece. IsNumbered generation from (S.count strategy.now) to piece × (NodesFit state.nodes.items →
        StateCut (in_both (S.region strategy.now from) (S2.region next.now to)) state piece.state)) pieces.items) }
{
    let count = strategy.workers();
    let workers = next.workers();
    let both = Both {
        present: strategy,
        from,
        next,
    };
    let states = cut_state(alloc, &both, state)?;
    (0..workers)
        .zip(states)
        .map(|(to, state)| Piece {
            generation,
            from,
            to,
            count,
            state,
        })
        .collect(alloc)
}

/// A piece of the monitor's state for each worker of the next strategy, which has this generation, in their order.
/// The monitor is that of the worker `from`.
pub fn split_state<S: Slicer, S2: Slicer>(
    alloc: Global,
    monitor: &Monitor,
    strategy: &S,
    from: u32,
    next: &S2,
    generation: u64,
) -> Result<Vec<Piece>, AllocError>
    requires { from < S.count strategy.now }
    ensures pieces { IfOk result (λ pieces. length pieces.items ≡ S2.count next.now) }
    ensures numbers { IfOk result (λ pieces. AreNumbered generation from (S.count strategy.now) pieces.items) }
    ensures cuts { IfOk result (λ pieces.
        IsSplit (monitor_of monitor.now) (S.region strategy.now from) (S2.region next.now) pieces.items) }
    ensures stands { IfOk result (λ pieces. (log : List TimePoint) →
        BindsAll (S.width strategy.now) (fv (meaning (monitor_of monitor.now).core)) →
        BindsAll (S2.width next.now) (fv (meaning (monitor_of monitor.now).core)) →
        Stands (view_of (monitor_of monitor.now).core (S.region strategy.now from) log)
        (monitor_of monitor.now).core (monitor_of monitor.now).state →
        PiecesStand (monitor_of monitor.now).core (S.region strategy.now from) (S2.region next.now) log pieces.items) }
{
    let state = monitor.state(alloc)?;
    let pieces = pieces_of(alloc, state, strategy, from, next, generation)?;
    Ok(pieces)
}
