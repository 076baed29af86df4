//! The variables that a conjunction binds, and those that it needs bound.
ghost use Rattle.std.specs.Prelude.{◌≡◌, IfOk};
ghost use Rattle.monitorable.specs.CoreForms.{node_form};
ghost use Rattle.monitorable.specs.Fragment.{binds, bound_by, first_outside, needed_by};

use crate::node::Node;
use mfotl_model::{Comparison, Sign, Term, is_among};
use std::alloc::{AllocError, Global};

/// Whether it is an equation of a variable with a constant.
pub fn binds(comparison: &Comparison) -> bool
    ensures { result ≡ binds comparison.now }
{
    match comparison.sign {
        Sign::Equal => match (&comparison.left, &comparison.right) {
            (Term::Var(_), Term::Const(_)) => true,
            (Term::Const(_), Term::Var(_)) => true,
            (Term::Var(_), Term::Var(_)) => false,
            (Term::Const(_), Term::Const(_)) => false,
        },
        Sign::Less | Sign::LessEqual | Sign::Greater | Sign::GreaterEqual => false,
    }
}

/// The free variables of the conjuncts that bind theirs.
#[tactic(auto, unfolding(crate::specs::Fragment::bound_by))]
pub fn bound_by(alloc: Global, node: &Node) -> Result<Vec<u32>, AllocError>
    ensures { IfOk result (λ variables. variables.items ≡ bound_by (node_form node.now)) }
{
    match node {
        Node::Not(_) => Ok(Vec::new(alloc)),
        Node::Compare(comparison) if !binds(comparison) => Ok(Vec::new(alloc)),
        Node::And(left, right) => {
            let mut variables = bound_by(alloc, left)?;
            variables.extend_from_slice(&bound_by(alloc, right)?)?;
            Ok(variables)
        }
        Node::True
        | Node::False
        | Node::Atom(_)
        | Node::Compare(_)
        | Node::Or(_, _)
        | Node::Exists(_, _)
        | Node::Previous(_, _)
        | Node::Next(_, _)
        | Node::Since(_, _, _)
        | Node::Until(_, _, _) => node.free_vars(alloc),
    }
}

/// The free variables of the other conjuncts, in the order of their occurrence.
#[tactic(auto, unfolding(crate::specs::Fragment::needed_by))]
pub fn needed_by(alloc: Global, node: &Node) -> Result<Vec<u32>, AllocError>
    ensures { IfOk result (λ variables. variables.items ≡ needed_by (node_form node.now)) }
{
    match node {
        Node::Not(inner) => inner.free_vars(alloc),
        Node::Compare(comparison) if !binds(comparison) => node.free_vars(alloc),
        Node::And(left, right) => {
            let mut variables = needed_by(alloc, left)?;
            variables.extend_from_slice(&needed_by(alloc, right)?)?;
            Ok(variables)
        }
        Node::True
        | Node::False
        | Node::Atom(_)
        | Node::Compare(_)
        | Node::Or(_, _)
        | Node::Exists(_, _)
        | Node::Previous(_, _)
        | Node::Next(_, _)
        | Node::Since(_, _, _)
        | Node::Until(_, _, _) => Ok(Vec::new(alloc)),
    }
}

/// The first of `variables` that is none of `others`.
pub fn first_outside(others: &[u32], variables: &[u32]) -> Option<u32>
    ensures { result ≡ first_outside others.now variables.now }
{
    for variable in variables {
        if !is_among(*variable, others) {
            return Some(*variable);
        }
    }
    None
}
