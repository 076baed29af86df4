//! Nodes into which the data that others kept is put. What isn't put in is dropped by a call, whose proof needn't tell
//! the kinds of data apart.
ghost use Rattle.std.specs.Prelude.{◌≡◌, ◌++◌, ◌∷◌, [], IfOk, OnOk};
ghost use Rattle.monitor_state.specs.Resuming.{AllMatch, Matches, NodeResumed, NodesResumed};

use crate::adding::add;
use crate::kept_times::KeptTimes;
use crate::resume_windows::{since_resumed, until_resumed, window_resumed};
use crate::state::{NodeData, WindowData};
use eval_bool::{JoinState, OrState};
use eval_since::{PrevState, SinceState};
use eval_until::{NextState, UntilState};
use monitor_nodes::{FilterState, Node, Tables};
use relations::Table;
use std::alloc::{AllocError, Global};

/// The nodes with the data of nodes of the same core.
pub fn nodes_resumed(
    alloc: Global,
    fresh: Vec<Node>,
    times: &KeptTimes,
    kept: Vec<NodeData>,
) -> Result<Vec<Node>, AllocError>
    requires { AllMatch times.now fresh.items kept.items }
    ensures { IfOk result (λ nodes. NodesResumed times.now fresh.items kept.items nodes.items) }
{
    let mut nodes = Vec::with_capacity(alloc, fresh.len())?;
    let mut left = kept.into_iter();
    for node in fresh {
        let Some(data) = left.next() else {
            unreachable!();
        };
        push_resumed(alloc, node, times, data, &mut nodes)?;
    }
    Ok(nodes)
}

fn push_resumed(
    alloc: Global,
    node: Node,
    times: &KeptTimes,
    kept: NodeData,
    nodes: &mut Vec<Node>,
) -> Result<(), AllocError>
    requires { Matches times.now node kept }
    ensures { OnOk result ((resumed : Node) × NodeResumed times.now node kept resumed
        × (nodes.new.items ≡ nodes.old.items ++ resumed ∷ [])) }
{
    add(node_resumed(alloc, node, times, kept)?, nodes)
}

fn node_resumed(
    alloc: Global,
    node: Node,
    times: &KeptTimes,
    kept: NodeData,
) -> Result<Node, AllocError>
    requires { Matches times.now node kept }
    ensures { IfOk result (NodeResumed times.now node kept) }
{
    match node {
        Node::Constant(table) => {
            drop(kept);
            Ok(Node::Constant(table))
        }
        Node::Atom(reader) => {
            drop(kept);
            Ok(Node::Atom(reader))
        }
        Node::Exists(var) => {
            drop(kept);
            Ok(Node::Exists(var))
        }
        Node::Join(state) => resumed_join(alloc, state, times, kept),
        Node::Filter(state) => resumed_filter(alloc, state, times, kept),
        Node::Or(state) => resumed_or(state, times, kept),
        Node::Previous(state) => resumed_previous(alloc, state, times, kept),
        Node::Next(state) => resumed_next(alloc, state, times, kept),
        Node::Since(state, order) => resumed_since(alloc, state, order, times, kept),
        Node::Until(state, order) => resumed_until(alloc, state, order, times, kept),
    }
}

fn resumed_join(
    alloc: Global,
    state: JoinState,
    times: &KeptTimes,
    kept: NodeData,
) -> Result<Node, AllocError>
    requires { Matches times.now (Node.Join state) kept }
    ensures { IfOk result (NodeResumed times.now (Node.Join state) kept) }
{
    let NodeData::Join(data) = kept else {
        unreachable!();
    };
    let resumed = state.resumed(alloc, data)?;
    Ok(Node::Join(resumed))
}

fn resumed_filter(
    alloc: Global,
    state: FilterState,
    times: &KeptTimes,
    kept: NodeData,
) -> Result<Node, AllocError>
    requires { Matches times.now (Node.Filter state) kept }
    ensures { IfOk result (NodeResumed times.now (Node.Filter state) kept) }
{
    let NodeData::Filter(tables, window) = kept else {
        unreachable!();
    };
    filter_resumed(alloc, state, times, tables, window)
}

fn filter_resumed(
    alloc: Global,
    state: FilterState,
    times: &KeptTimes,
    tables: Vec<Table>,
    kept: WindowData,
) -> Result<Node, AllocError>
    requires { Matches times.now (Node.Filter state) (NodeData.Filter tables kept) }
    ensures { IfOk result (NodeResumed times.now (Node.Filter state) (NodeData.Filter tables kept)) }
{
    let FilterState {
        window,
        negated,
        order,
        ..
    } = state;
    let window = window_resumed(alloc, window, times, kept)?;
    Ok(Node::Filter(FilterState {
        tables: Tables::from_vec(tables),
        window,
        negated,
        order,
    }))
}

fn resumed_or(state: OrState, times: &KeptTimes, kept: NodeData) -> Result<Node, AllocError>
    requires { Matches times.now (Node.Or state) kept }
    ensures { IfOk result (NodeResumed times.now (Node.Or state) kept) }
{
    let NodeData::Or(data) = kept else {
        unreachable!();
    };
    Ok(Node::Or(state.resumed(data)))
}

fn resumed_previous(
    alloc: Global,
    state: PrevState,
    times: &KeptTimes,
    kept: NodeData,
) -> Result<Node, AllocError>
    requires { Matches times.now (Node.Previous state) kept }
    ensures { IfOk result (NodeResumed times.now (Node.Previous state) kept) }
{
    let NodeData::Previous(data) = kept else {
        unreachable!();
    };
    let last = times.before_place(data.pulled);
    let next = times.from_place(data.pulled);
    let resumed = state.resumed(alloc, last, next, data)?;
    Ok(Node::Previous(resumed))
}

fn resumed_next(
    alloc: Global,
    state: NextState,
    times: &KeptTimes,
    kept: NodeData,
) -> Result<Node, AllocError>
    requires { Matches times.now (Node.Next state) kept }
    ensures { IfOk result (NodeResumed times.now (Node.Next state) kept) }
{
    let NodeData::Next(data) = kept else {
        unreachable!();
    };
    let next = times.from_place(data.pulled);
    let resumed = state.resumed(alloc, next, data)?;
    Ok(Node::Next(resumed))
}

fn resumed_since(
    alloc: Global,
    state: SinceState,
    order: Table,
    times: &KeptTimes,
    kept: NodeData,
) -> Result<Node, AllocError>
    requires { Matches times.now (Node.Since state order) kept }
    ensures { IfOk result (NodeResumed times.now (Node.Since state order) kept) }
{
    let NodeData::Window(window) = kept else {
        unreachable!();
    };
    let WindowData::Since(data) = window else {
        unreachable!();
    };
    let resumed = since_resumed(alloc, state, times, data)?;
    Ok(Node::Since(resumed, order))
}

fn resumed_until(
    alloc: Global,
    state: UntilState,
    order: Table,
    times: &KeptTimes,
    kept: NodeData,
) -> Result<Node, AllocError>
    requires { Matches times.now (Node.Until state order) kept }
    ensures { IfOk result (NodeResumed times.now (Node.Until state order) kept) }
{
    let NodeData::Window(window) = kept else {
        unreachable!();
    };
    let WindowData::Until(data) = window else {
        unreachable!();
    };
    let resumed = until_resumed(alloc, state, times, data)?;
    Ok(Node::Until(resumed, order))
}
