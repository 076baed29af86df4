//! The timestamps that a monitor's nodes know.
ghost use Rattle.std.specs.Prelude.{◌≡◌, ◌++◌, IfOk, drop, option_to_list};
ghost use Rattle.monitor_state.specs.Recording.{longer_of, longest, node_stamps, window_stamps};

use monitor_nodes::{Node, Window};
use std::alloc::{AllocError, Global};
use std::collections::VecDeque;

/// The longest of the timestamps that nodes know, and of some others.
pub fn longest(alloc: Global, nodes: &[Node], own: Vec<u64>) -> Result<Vec<u64>, AllocError>
    ensures { IfOk result (λ stamps. stamps.items ≡ longest nodes.now own.items) }
{
    let mut best = own;
    for node in nodes {
        best = longer(best, node_stamps(alloc, node)?);
    }
    Ok(best)
}

fn longer(own: Vec<u64>, other: Vec<u64>) -> Vec<u64>
    ensures { result.items ≡ longer_of own.items other.items }
{
    if own.len() < other.len() { other } else { own }
}

#[tactic(auto, using(crate::proofs::StampLemmas::behind_is))]
fn node_stamps(alloc: Global, node: &Node) -> Result<Vec<u64>, AllocError>
    ensures { IfOk result (λ stamps. stamps.items ≡ node_stamps node.now) }
{
    match node {
        Node::Previous(state) => behind(alloc, state.last(), state.times()),
        Node::Next(state) => behind(alloc, None, state.times()),
        Node::Since(state, _) => behind(alloc, state.last(), state.times()),
        Node::Until(state, _) => behind(alloc, None, state.times()),
        Node::Filter(state) => window_stamps(alloc, &state.window),
        _ => Ok(Vec::new(alloc)),
    }
}

#[tactic(auto, using(crate::proofs::StampLemmas::behind_is))]
fn window_stamps(alloc: Global, window: &Window) -> Result<Vec<u64>, AllocError>
    ensures { IfOk result (λ stamps. stamps.items ≡ window_stamps window.now) }
{
    match window {
        Window::Since(state) => behind(alloc, state.last(), state.times()),
        Window::Until(state) => behind(alloc, None, state.times()),
    }
}

// Timestamps behind one before them, if there is one.
fn behind(alloc: Global, last: Option<u64>, times: &VecDeque<u64>) -> Result<Vec<u64>, AllocError>
    ensures { IfOk result (λ stamps. stamps.items ≡ option_to_list last ++ times.now.items) }
{
    let mut stamps = first_of(alloc, last)?;
    for i in 0..times.len() {
        stamps.push(times[i])?;
    }
    Ok(stamps)
}

fn first_of(alloc: Global, last: Option<u64>) -> Result<Vec<u64>, AllocError>
    ensures { IfOk result (λ stamps. stamps.items ≡ option_to_list last) }
{
    let mut stamps = Vec::new(alloc);
    if let Some(last) = last {
        stamps.push(last)?;
    }
    Ok(stamps)
}

/// The timestamps without the first ones.
pub fn times_behind(alloc: Global, times: &VecDeque<u64>, past: u64) -> Result<Vec<u64>, AllocError>
    ensures { IfOk result (λ rest. rest.items ≡ drop past times.now.items) }
{
    let mut all = behind(alloc, None, times)?;
    if all.len() as u64 <= past {
        return Ok(Vec::new(alloc));
    }
    Ok(all.split_off(past as usize)?)
}
