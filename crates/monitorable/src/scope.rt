//! The names of a policy's variables.
ghost use Rattle.std.specs.Prelude.{◌≡◌, IfOk};
ghost use Rattle.monitorable.specs.Fragment.{free_names, named_variable};
ghost use Rattle.monitorable.specs.Scope.{scope_names};

use crate::fault::Variable;
use mfotl_model::{Bound, Name, Var};
use std::alloc::{AllocError, Global};

/// Which variables have a name where a formula stands: the innermost quantifier's first.
#[derive(Clone, Copy)]
pub enum Scope<'a> {
    Free(&'a [Var]),
    Under(&'a Bound, &'a Scope<'a>),
}

impl Scope<'_> {
    /// The variable with its name.
    pub fn variable(&self, alloc: Global, number: u32) -> Result<Variable, AllocError>
        ensures { IfOk result (λ variable. variable ≡ named_variable (scope_names self.now) number) }
    {
        match self {
            Scope::Under(bound, _) if bound.number == number => Ok(Variable {
                number,
                name: bound.name.copy(alloc)?,
            }),
            Scope::Under(_, outer) => outer.variable(alloc, number),
            Scope::Free(vars) => free_variable(alloc, vars, number),
        }
    }
}

fn free_variable(alloc: Global, vars: &[Var], number: u32) -> Result<Variable, AllocError>
    ensures { IfOk result (λ variable. variable ≡ named_variable (free_names vars.now) number) }
{
    let name = match vars.get(number as usize) {
        Some(var) => var.name.copy(alloc)?,
        None => Name::from_slice(alloc, b"")?,
    };
    Ok(Variable { number, name })
}
