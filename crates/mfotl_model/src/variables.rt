//! Lists of variables, by number: those of terms, and those of two lists.
ghost use Rattle.std.specs.Prelude.{◌≡◌, [], ◌∷◌, IfOk, OnOk};
ghost use Rattle.mfotl_model.specs.FreeVariables.{among, joined, others, variable_in, variables_in, without};

use crate::term::{Atom, Comparison, Term};
use std::alloc::{AllocError, Global};

impl Atom {
    /// The variables of the atom, each once, at its first place.
    pub fn variables(&self, alloc: Global) -> Result<Vec<u32>, AllocError>
        ensures { IfOk result (λ vars. vars.items ≡ variables_in self.now.args) }
    {
        variables_in(alloc, self.args.as_slice())
    }
}

impl Comparison {
    /// The variables of both sides, each once.
    pub fn variables(&self, alloc: Global) -> Result<Vec<u32>, AllocError>
        ensures { IfOk result (λ vars. vars.items
            ≡ variables_in (self.now.left ∷ self.now.right ∷ [])) }
    {
        let mut vars = Vec::new(alloc);
        add_variable(&mut vars, &self.left)?;
        add_variable(&mut vars, &self.right)?;
        Ok(vars)
    }
}

/// Whether the variable is one of these.
pub fn is_among(variable: u32, vars: &[u32]) -> bool
    ensures { result ≡ among variable vars.now }
{
    vars.iter().any(|other| variable == *other)
}

// Those of `more` that are none of `vars`.
fn others(alloc: Global, vars: &[u32], more: &[u32]) -> Result<Vec<u32>, AllocError>
    ensures { IfOk result (λ new. new.items ≡ others vars.now more.now) }
{
    more.iter()
        .copied()
        .filter(|y| !is_among(*y, vars))
        .collect(alloc)
}

/// The variables of both lists: first those of `vars`, then those of `more` that are none of them.
pub fn joined(alloc: Global, mut vars: Vec<u32>, more: &[u32]) -> Result<Vec<u32>, AllocError>
    ensures { IfOk result (λ both. both.items ≡ joined vars.items more.now) }
{
    let others = others(alloc, vars.as_slice(), more)?;
    vars.extend_from_slice(others.as_slice())?;
    Ok(vars)
}

/// The variables but this one.
pub fn without(alloc: Global, variable: u32, vars: &[u32]) -> Result<Vec<u32>, AllocError>
    ensures { IfOk result (λ rest. rest.items ≡ without variable vars.now) }
{
    vars.iter()
        .copied()
        .filter(|y| *y != variable)
        .collect(alloc)
}

fn variables_in(alloc: Global, terms: &[Term]) -> Result<Vec<u32>, AllocError>
    ensures { IfOk result (λ vars. vars.items ≡ variables_in terms.now) }
{
    let mut vars = Vec::new(alloc);
    for term in terms {
        add_variable(&mut vars, term)?;
    }
    Ok(vars)
}

fn add_variable(vars: &mut Vec<u32>, term: &Term) -> Result<(), AllocError>
    ensures { OnOk result (vars.new.items ≡ joined vars.old.items (variable_in term.now)) }
{
    match term {
        Term::Var(x) => add(vars, *x),
        Term::Const(_) => Ok(()),
    }
}

fn add(vars: &mut Vec<u32>, x: u32) -> Result<(), AllocError>
    ensures { OnOk result (vars.new.items ≡ joined vars.old.items (x ∷ [])) }
{
    if is_among(x, vars.as_slice()) {
        return Ok(());
    }
    vars.push(x)?;
    Ok(())
}
