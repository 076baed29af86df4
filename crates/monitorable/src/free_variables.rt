//! The free variables of a core. What is done with variables stands in calls that aren't inlined, so that a level of a
//! chain takes little of the stack.
ghost use Rattle.std.specs.Prelude.{◌≡◌, IfOk};
ghost use Rattle.mfotl_model.specs.FreeVariables.{fv, joined, without};
ghost use Rattle.monitorable.specs.CoreForms.{meaning, node_form};

use crate::node::Node;
use mfotl_model::{Atom, Comparison, joined, without};
use std::alloc::{AllocError, Global};

impl Node {
    /// The free variables by number, each once, in the order in which they first occur.
    #[cycle(free_vars)]
    #[tactic(auto, unfolding(mfotl_model::specs::FreeVariables::fv))]
    pub fn free_vars(&self, alloc: Global) -> Result<Vec<u32>, AllocError>
        ensures { IfOk result (λ vars. vars.items ≡ fv (meaning (node_form self.now))) }
    {
        match self {
            Node::True | Node::False => Ok(Vec::new(alloc)),
            Node::Atom(atom) => atom_vars(alloc, atom),
            Node::Compare(comparison) => comparison_vars(alloc, comparison),
            Node::Not(inner) | Node::Previous(_, inner) | Node::Next(_, inner) => {
                inner.free_vars(alloc)
            }
            Node::And(left, right)
            | Node::Or(left, right)
            | Node::Since(_, left, right)
            | Node::Until(_, left, right) => right.vars_after(alloc, left.free_vars(alloc)?),
            Node::Exists(bound, inner) => inner.vars_but(alloc, bound.number),
        }
    }

    // These variables, and then those free ones that are none of them.
    #[cycle(free_vars)]
    #[inline(never)]
    fn vars_after(&self, alloc: Global, vars: Vec<u32>) -> Result<Vec<u32>, AllocError>
        ensures { IfOk result (λ both. both.items ≡ joined vars.items (fv (meaning (node_form self.now)))) }
    {
        both(alloc, vars, &self.free_vars(alloc)?)
    }

    // The free variables but `x`.
    #[cycle(free_vars)]
    #[inline(never)]
    fn vars_but(&self, alloc: Global, x: u32) -> Result<Vec<u32>, AllocError>
        ensures { IfOk result (λ vars. vars.items ≡ without x (fv (meaning (node_form self.now)))) }
    {
        others(alloc, x, &self.free_vars(alloc)?)
    }
}

#[inline(never)]
#[tactic(auto, unfolding(mfotl_model::specs::FreeVariables::fv))]
fn atom_vars(alloc: Global, atom: &Atom) -> Result<Vec<u32>, AllocError>
    ensures { IfOk result (λ vars. vars.items ≡ fv (meaning (node_form (Node.Atom atom.now)))) }
{
    atom.variables(alloc)
}

#[inline(never)]
#[tactic(auto, unfolding(mfotl_model::specs::FreeVariables::fv))]
fn comparison_vars(alloc: Global, comparison: &Comparison) -> Result<Vec<u32>, AllocError>
    ensures { IfOk result (λ vars. vars.items ≡ fv (meaning (node_form (Node.Compare comparison.now)))) }
{
    comparison.variables(alloc)
}

#[inline(never)]
fn both(alloc: Global, vars: Vec<u32>, more: &[u32]) -> Result<Vec<u32>, AllocError>
    ensures { IfOk result (λ both. both.items ≡ joined vars.items more.now) }
{
    joined(alloc, vars, more)
}

#[inline(never)]
fn others(alloc: Global, x: u32, vars: &[u32]) -> Result<Vec<u32>, AllocError>
    ensures { IfOk result (λ others. others.items ≡ without x vars.now) }
{
    without(alloc, x, vars)
}
