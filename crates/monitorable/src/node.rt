//! The tree that the monitor evaluates.
ghost use Rattle.std.specs.Prelude.{◌≡◌, IfOk};
ghost use Rattle.monitorable.specs.CoreForms.{node_form};

use crate::boxes;
use mfotl_model::{Atom, Bound, Comparison, Interval};
use std::alloc::{AllocError, Global};

/// A core, with just the operators that a normal form has. Contracts speak of it through `node_form`,
/// the same tree without its boxes.
pub enum Node {
    True,
    False,
    Atom(Atom),
    Compare(Comparison),
    Not(Box<Node>),
    And(Box<Node>, Box<Node>),
    Or(Box<Node>, Box<Node>),
    Exists(Bound, Box<Node>),
    Previous(Interval, Box<Node>),
    Next(Interval, Box<Node>),
    Since(Interval, Box<Node>, Box<Node>),
    Until(Interval, Box<Node>, Box<Node>),
}

// A chain may be hundreds of nodes deep, and grows on its left side: that side is dropped in a loop.
impl Drop for Node {
    fn drop(mut self) {
        loop {
            match self {
                Node::True | Node::False => return,
                Node::Atom(_atom) => return,
                Node::Compare(_comparison) => return,
                Node::Not(inner) | Node::Previous(_, inner) | Node::Next(_, inner) => {
                    self = Box::into_inner(inner)
                }
                Node::Exists(_bound, inner) => self = Box::into_inner(inner),
                Node::And(left, _right)
                | Node::Or(left, _right)
                | Node::Since(_, left, _right)
                | Node::Until(_, left, _right) => self = Box::into_inner(left),
            }
        }
    }
}

impl Node {
    pub fn copy(&self, alloc: Global) -> Result<Self, AllocError>
        ensures { IfOk result (λ node. node_form node ≡ node_form self.now) }
    {
        Ok(Box::into_inner(self.boxed(alloc)?))
    }

    fn boxed(&self, alloc: Global) -> Result<Box<Self>, AllocError>
        ensures { IfOk result (λ node. node_form node.value ≡ node_form self.now) }
    {
        match self {
            Node::True => boxes::boxed(alloc, Node::True),
            Node::False => boxes::boxed(alloc, Node::False),
            Node::Atom(atom) => boxes::atom(alloc, atom),
            Node::Compare(comparison) => boxes::comparison(alloc, comparison),
            Node::Not(inner)
            | Node::Exists(_, inner)
            | Node::Previous(_, inner)
            | Node::Next(_, inner) => boxes::over_one(alloc, self, inner.boxed(alloc)?),
            Node::And(left, right)
            | Node::Or(left, right)
            | Node::Since(_, left, right)
            | Node::Until(_, left, right) => {
                let left = left.boxed(alloc)?;
                boxes::over_two(alloc, self, left, right.boxed(alloc)?)
            }
        }
    }
}
