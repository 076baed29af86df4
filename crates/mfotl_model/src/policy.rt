//! Policies: a formula with the names and sorts of its free variables.
ghost use Rattle.std.specs.Prelude.{◌≡◌, IfOk};

use crate::formula::Formula;
use crate::text::Name;
use std::alloc::{AllocError, Global};
use std::marker::Model;

/// What a column or a variable holds.
#[derive(Clone, Copy, Debug, PartialEq, Eq)]
pub enum Sort {
    Int,
    Text,
}

/// A free variable.
#[derive(Drop)]
pub struct Var {
    pub name: Name,
    pub sort: Sort,
}

impl Var {
    pub fn copy(&self, alloc: Global) -> Result<Self, AllocError>
        ensures { IfOk result (λ var. var ≡ self.now) }
    {
        Ok(Var {
            name: self.name.copy(alloc)?,
            sort: self.sort,
        })
    }
}

/// Variables, the one numbered k in place k.
#[derive(Drop)]
pub struct Vars {
    items: Vec<Var>,
}

impl Model for Vars {
    ghost use Rattle.std.specs.Prelude.{List};
    ghost use Rattle.mfotl_model.specs.declared.policy.Var.{Var};

    ghost Value = { List Var };

    ghost view = { λ v. v.items.items };
}

impl Vars {
    pub fn new(vars: Vec<Var>) -> Self
        ensures { result ≡ vars.items }
    {
        Vars { items: vars }
    }

    pub fn as_slice(&self) -> &[Var]
        ensures { result.now ≡ self.now }
    {
        self.items.as_slice()
    }

    pub fn copy(&self, alloc: Global) -> Result<Self, AllocError>
        ensures { IfOk result (λ vars. vars ≡ self.now) }
    {
        let mut items = Vec::with_capacity(alloc, self.items.len())?;
        for var in self.as_slice() {
            items.push(var.copy(alloc)?)?;
        }
        Ok(Vars { items })
    }
}

/// A formula, and its free variables in the order in which they first occur in it.
#[derive(Drop)]
pub struct Policy {
    pub formula: Formula,
    pub vars: Vars,
}

impl Policy {
    ghost use Rattle.mfotl_model.specs.Formulas.{form};

    pub fn copy(&self, alloc: Global) -> Result<Self, AllocError>
        ensures formula { IfOk result (λ policy. form policy.formula ≡ form self.now.formula) }
        ensures vars { IfOk result (λ policy. policy.vars ≡ self.now.vars) }
    {
        let vars = self.vars.copy(alloc)?;
        let formula = self.formula.copy(alloc)?;
        Ok(Policy { formula, vars })
    }
}
