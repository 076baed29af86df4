//! What nodes keep, as plain data.
ghost use Rattle.std.specs.Prelude.{IfOk};
ghost use Rattle.mfotl_model.specs.Tables.{TableOf};
ghost use Rattle.monitor_state.specs.Recording.{NodeRecorded, NodesRecorded, SinceRecorded, UntilRecorded};
ghost use Rattle.monitor_state.specs.Recording.{WindowRecorded};

use crate::state::{NodeData, SinceKept, UntilKept, WindowData};
use eval_bool::{JoinState, OrState};
use eval_since::{PrevState, SinceState};
use eval_until::{NextState, UntilState};
use monitor_nodes::{FilterState, Node, Window};
use std::alloc::{AllocError, Global};

/// What each of the nodes keeps.
pub fn nodes_data(alloc: Global, nodes: &[Node]) -> Result<Vec<NodeData>, AllocError>
    ensures { IfOk result (λ kept. NodesRecorded nodes.now kept.items) }
{
    let mut kept = Vec::with_capacity(alloc, nodes.len())?;
    for node in nodes {
        kept.push(node_data(alloc, node)?)?;
    }
    Ok(kept)
}

fn node_data(alloc: Global, node: &Node) -> Result<NodeData, AllocError>
    ensures { IfOk result (NodeRecorded node.now) }
{
    match node {
        Node::Constant(_) => Ok(NodeData::Bare),
        Node::Atom(_) => Ok(NodeData::Bare),
        Node::Exists(_) => Ok(NodeData::Bare),
        Node::Join(state) => join_data(alloc, state),
        Node::Filter(state) => filter_data(alloc, state),
        Node::Or(state) => or_data(alloc, state),
        Node::Previous(state) => previous_data(alloc, state),
        Node::Next(state) => next_data(alloc, state),
        Node::Since(state, _) => since_data(alloc, state),
        Node::Until(state, _) => until_data(alloc, state),
    }
}

fn join_data(alloc: Global, state: &JoinState) -> Result<NodeData, AllocError>
    ensures { IfOk result (NodeRecorded (Node.Join state.now)) }
{
    let kept = state.state(alloc)?;
    Ok(NodeData::Join(kept))
}

fn filter_data(alloc: Global, state: &FilterState) -> Result<NodeData, AllocError>
    ensures { IfOk result (NodeRecorded (Node.Filter state.now)) }
{
    let tables = state.tables.copied(alloc)?;
    let window = window_data(alloc, &state.window)?;
    Ok(NodeData::Filter(tables, window))
}

fn window_data(alloc: Global, window: &Window) -> Result<WindowData, AllocError>
    ensures { IfOk result (WindowRecorded window.now) }
{
    match window {
        Window::Since(state) => {
            let kept = since_kept(alloc, state)?;
            Ok(WindowData::Since(kept))
        }
        Window::Until(state) => {
            let kept = until_kept(alloc, state)?;
            Ok(WindowData::Until(kept))
        }
    }
}

fn or_data(alloc: Global, state: &OrState) -> Result<NodeData, AllocError>
    ensures { IfOk result (NodeRecorded (Node.Or state.now)) }
{
    let kept = state.state(alloc)?;
    Ok(NodeData::Or(kept))
}

fn previous_data(alloc: Global, state: &PrevState) -> Result<NodeData, AllocError>
    ensures { IfOk result (NodeRecorded (Node.Previous state.now)) }
{
    let kept = state.state(alloc)?;
    Ok(NodeData::Previous(kept))
}

fn next_data(alloc: Global, state: &NextState) -> Result<NodeData, AllocError>
    ensures { IfOk result (NodeRecorded (Node.Next state.now)) }
{
    let kept = state.state(alloc)?;
    Ok(NodeData::Next(kept))
}

fn since_data(alloc: Global, state: &SinceState) -> Result<NodeData, AllocError>
    ensures { IfOk result (λ kept. (order : TableOf) → NodeRecorded (Node.Since state.now order) kept) }
{
    let kept = since_kept(alloc, state)?;
    Ok(NodeData::Window(WindowData::Since(kept)))
}

fn until_data(alloc: Global, state: &UntilState) -> Result<NodeData, AllocError>
    ensures { IfOk result (λ kept. (order : TableOf) → NodeRecorded (Node.Until state.now order) kept) }
{
    let kept = until_kept(alloc, state)?;
    Ok(NodeData::Window(WindowData::Until(kept)))
}

fn since_kept(alloc: Global, state: &SinceState) -> Result<SinceKept, AllocError>
    ensures { IfOk result (SinceRecorded state.now) }
{
    let columns = Vec::from_slice(alloc, state.columns())?;
    let kept = state.state(alloc)?;
    Ok(SinceKept {
        interval: *state.interval(),
        columns,
        kept,
    })
}

fn until_kept(alloc: Global, state: &UntilState) -> Result<UntilKept, AllocError>
    ensures { IfOk result (UntilRecorded state.now) }
{
    let left = Vec::from_slice(alloc, state.left_columns())?;
    let right = Vec::from_slice(alloc, state.right_columns())?;
    let kept = state.state(alloc)?;
    Ok(UntilKept { left, right, kept })
}
