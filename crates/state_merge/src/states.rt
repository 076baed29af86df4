//! States united.
ghost use Rattle.std.specs.Prelude.{IfOk};
ghost use Rattle.monitor_state.specs.StateUnions.{StateUnion};
ghost use Rattle.state_merge.specs.Fits.{CanBeUnited};

use crate::nodes::united_nodes;
use monitor_state::State;
use std::alloc::{AllocError, Global};

/// What both states keep, row by row. They are of one log and one core.
pub fn united_states(alloc: Global, first: State, second: State) -> Result<State, AllocError>
    requires { CanBeUnited first second }
    ensures { IfOk result (StateUnion first second) }
{
    let State {
        taken,
        given,
        times,
        nodes,
    } = first;
    let nodes = united_nodes(alloc, nodes, second.nodes)?;
    Ok(State {
        taken,
        given,
        times,
        nodes,
    })
}
