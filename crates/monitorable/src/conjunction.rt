//! The explicit join that a conjunction is.
ghost use Rattle.std.specs.Prelude.{◌≡◌, ◌++◌, map, IfOk, OnOk};
ghost use Rattle.monitorable.specs.Conjuncts.{conjuncts_of, lone_part, negated_part};
ghost use Rattle.monitorable.specs.CoreForms.{node_form};
ghost use Rattle.monitorable.specs.PartView.{part_form};

use crate::node::Node;
use crate::variables::binds;
use mfotl_model::Comparison;
use std::alloc::{AllocError, Global};

/// A conjunct: a node to join, one to take away, or a comparison to test.
#[derive(Clone, Copy)]
pub enum Part<'a> {
    Child(&'a Node, bool),
    Test(&'a Comparison, bool),
}

/// The conjuncts of a node from left to right, nested conjunctions flattened. A node that is no
/// conjunction is one conjunct. With a child stands whether it is negated, with a test whether the
/// comparison has to hold.
#[tactic(auto, unfolding(crate::specs::Conjuncts::conjuncts_of))]
pub fn conjuncts<'a>(alloc: Global, node: &'a Node) -> Result<Vec<Part<'a>>, AllocError>
    ensures { IfOk result (λ parts. map part_form parts.items ≡ conjuncts_of (node_form node.now)) }
{
    let mut parts = Vec::new(alloc);
    add_conjuncts(node, &mut parts)?;
    Ok(parts)
}

#[tactic(auto, unfolding(crate::specs::Conjuncts::conjuncts_of))]
fn add_conjuncts<'a>(node: &'a Node, parts: &mut Vec<Part<'a>>) -> Result<(), AllocError>
    ensures { OnOk result (map part_form parts.new.items
        ≡ map part_form parts.old.items ++ conjuncts_of (node_form node.now)) }
{
    match node {
        Node::And(left, right) => {
            add_conjuncts(left, parts)?;
            add_conjuncts(right, parts)
        }
        Node::True
        | Node::False
        | Node::Atom(_)
        | Node::Compare(_)
        | Node::Not(_)
        | Node::Or(_, _)
        | Node::Exists(_, _)
        | Node::Previous(_, _)
        | Node::Next(_, _)
        | Node::Since(_, _, _)
        | Node::Until(_, _, _) => Ok(parts.push(lone_part(node))?),
    }
}

// The conjunct that a node is by itself.
fn lone_part<'a>(node: &'a Node) -> Part<'a>
    ensures { part_form result ≡ lone_part (node_form node.now) }
{
    match node {
        Node::Not(inner) => negated(inner),
        Node::Compare(comparison) if !binds(comparison) => Part::Test(comparison, true),
        Node::True
        | Node::False
        | Node::Atom(_)
        | Node::Compare(_)
        | Node::And(_, _)
        | Node::Or(_, _)
        | Node::Exists(_, _)
        | Node::Previous(_, _)
        | Node::Next(_, _)
        | Node::Since(_, _, _)
        | Node::Until(_, _, _) => Part::Child(node, false),
    }
}

// The conjunct that the NOT of the node is.
fn negated<'a>(inner: &'a Node) -> Part<'a>
    ensures { part_form result ≡ negated_part (node_form inner.now) }
{
    match inner {
        Node::Compare(comparison) => Part::Test(comparison, false),
        Node::True
        | Node::False
        | Node::Atom(_)
        | Node::Not(_)
        | Node::And(_, _)
        | Node::Or(_, _)
        | Node::Exists(_, _)
        | Node::Previous(_, _)
        | Node::Next(_, _)
        | Node::Since(_, _, _)
        | Node::Until(_, _, _) => Part::Child(inner, true),
    }
}
