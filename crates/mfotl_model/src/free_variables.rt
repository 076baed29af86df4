//! The free variables of a formula.
ghost use Rattle.std.specs.Prelude.{◌≡◌, IfOk};
ghost use Rattle.mfotl_model.specs.Formulas.{form};
ghost use Rattle.mfotl_model.specs.FreeVariables.{fv, joined, without};

use crate::formula::Formula;
use crate::variables::{joined, without};
use std::alloc::{AllocError, Global};

impl Formula {
    /// The free variables by number, each once, in the order in which they first occur.
    #[cycle(free_variables)]
    #[tactic(auto, unfolding(crate::specs::FreeVariables::fv))]
    pub fn free_vars(&self, alloc: Global) -> Result<Vec<u32>, AllocError>
        ensures { IfOk result (λ vars. vars.items ≡ fv (form self.now)) }
    {
        match self {
            Formula::True | Formula::False => Ok(Vec::new(alloc)),
            Formula::Atom(atom) => atom.variables(alloc),
            Formula::Compare(comparison) => comparison.variables(alloc),
            Formula::Not(f)
            | Formula::Previous(_, f)
            | Formula::Next(_, f)
            | Formula::Once(_, f)
            | Formula::Historically(_, f)
            | Formula::Eventually(_, f)
            | Formula::Always(_, f) => f.free_vars(alloc),
            Formula::And(f, g)
            | Formula::Or(f, g)
            | Formula::Implies(f, g)
            | Formula::Equiv(f, g)
            | Formula::Since(_, f, g)
            | Formula::Until(_, f, g) => both_free_vars(alloc, f, g),
            Formula::Exists(x, f) | Formula::Forall(x, f) => unbound_free_vars(alloc, x.number, f),
        }
    }
}

#[cycle(free_variables)]
fn both_free_vars(alloc: Global, left: &Formula, right: &Formula) -> Result<Vec<u32>, AllocError>
    ensures { IfOk result (λ vars. vars.items ≡ joined (fv (form left.now)) (fv (form right.now))) }
{
    let vars = left.free_vars(alloc)?;
    let more = right.free_vars(alloc)?;
    joined(alloc, vars, more.as_slice())
}

#[cycle(free_variables)]
fn unbound_free_vars(alloc: Global, x: u32, formula: &Formula) -> Result<Vec<u32>, AllocError>
    ensures { IfOk result (λ vars. vars.items ≡ without x (fv (form formula.now))) }
{
    let vars = formula.free_vars(alloc)?;
    without(alloc, x, vars.as_slice())
}
