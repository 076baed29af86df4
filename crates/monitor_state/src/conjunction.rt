//! The node of a conjunction.
ghost use Rattle.std.specs.Prelude.{◌≡◌, map, true, IfOk, IsTrue, OnOk};
ghost use Rattle.std.specs.List.{list_any};
ghost use Rattle.eval_bool.specs.JoinView.{children_of, conjunct_of, is_guarded, join_begun, tests_of};
ghost use Rattle.monitorable.specs.CoreForms.{node_form};
ghost use Rattle.monitorable.specs.PartView.{part_form};
ghost use Rattle.monitor_state.specs.Beginnings.{AddsIf, BeginsNode, GuardedIf, IsJoined, WholeIf, is_child};
ghost use Rattle.monitor_nodes.specs.Stands.{conjunct_as};

use crate::adding::add;
use crate::constant::tested;
use eval_bool::{Conjunct, JoinState};
use monitor_nodes::Node;
use monitorable::{Node as Core, Part, conjuncts};
use std::alloc::{AllocError, Global};

/// Adds the node of a conjunction, where it is its own.
#[inline(never)]
pub fn add_join(
    alloc: Global,
    own: bool,
    core: &Core,
    nodes: &mut Vec<Node>,
) -> Result<(), AllocError>
    requires joined { IsJoined (node_form core.now) }
    requires guarded { GuardedIf own (node_form core.now) }
    requires whole { WholeIf own (node_form core.now) }
    ensures { OnOk result (AddsIf own (node_form core.now) nodes.old.items nodes.new.items) }
{
    if !own {
        return Ok(());
    }
    let node = conjunction(alloc, core)?;
    add(node, nodes)
}

// The node of the conjunction that a core is. With tests alone it is the same at each position.
fn conjunction(alloc: Global, core: &Core) -> Result<Node, AllocError>
    requires joined { IsJoined (node_form core.now) }
    requires guarded { GuardedIf true (node_form core.now) }
    requires whole { WholeIf true (node_form core.now) }
    ensures { IfOk result (BeginsNode (node_form core.now)) }
{
    let parts = conjuncts(alloc, core)?;
    let parts = parts.as_slice();
    if has_child(parts) {
        let state = join_state(alloc, parts)?;
        Ok(Node::Join(state))
    } else {
        let table = tested(alloc, parts)?;
        Ok(Node::Constant(table))
    }
}

fn is_child(part: &Part) -> bool
    ensures { result ≡ is_child (part_form part.now) }
{
    match part {
        Part::Child(_, _) => true,
        Part::Test(_, _) => false,
    }
}

fn has_child(parts: &[Part]) -> bool
    ensures { result ≡ list_any (λ part. is_child (part_form part)) parts.now }
{
    parts.iter().any(|part| is_child(part))
}

// The state before the first position.
fn join_state(alloc: Global, parts: &[Part]) -> Result<JoinState, AllocError>
    requires guarded { IsTrue (is_guarded (children_of (map conjunct_as (map part_form parts.now)))
        (tests_of (map conjunct_as (map part_form parts.now)))) }
    ensures { IfOk result (λ state. state ≡ join_begun (map conjunct_as (map part_form parts.now))) }
{
    let own = own_conjuncts(alloc, parts)?;
    JoinState::new(alloc, own)
}

// The conjuncts with memory of their own.
fn own_conjuncts(alloc: Global, parts: &[Part]) -> Result<Vec<Conjunct>, AllocError>
    ensures { IfOk result (λ own. map conjunct_of own.items ≡ map conjunct_as (map part_form parts.now)) }
{
    let mut own = Vec::with_capacity(alloc, parts.len())?;
    for part in parts {
        own.push(own_conjunct(alloc, part)?)?;
    }
    Ok(own)
}

fn own_conjunct(alloc: Global, part: &Part) -> Result<Conjunct, AllocError>
    ensures { IfOk result (λ own. conjunct_of own ≡ conjunct_as (part_form part.now)) }
{
    match part {
        Part::Child(node, negated) => {
            let cols = node.free_vars(alloc)?;
            Ok(Conjunct::Child {
                cols,
                negated: *negated,
            })
        }
        Part::Test(comparison, wanted) => {
            let comparison = comparison.copy(alloc)?;
            Ok(Conjunct::Test {
                comparison,
                wanted: *wanted,
            })
        }
    }
}
