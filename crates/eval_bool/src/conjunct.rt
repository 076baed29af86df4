//! The conjuncts of a conjunction.
ghost use Rattle.std.specs.Prelude.{◌≡◌, ◌∷◌, ◌++◌, [], IfOk, OnOk, map};
ghost use Rattle.mfotl_model.specs.FreeVariables.{joined};
ghost use Rattle.eval_bool.specs.JoinView.{children_of, conjunct_columns, conjunct_of, own_columns, tests_of};

use crate::child::Child;
use mfotl_model::{Comparison, joined};
use std::alloc::{AllocError, Global};
use std::marker::Model;

/// A child over these columns, to be joined or, where it is negated, taken away; or a comparison that
/// has to come out as wanted.
#[derive(Drop)]
pub enum Conjunct {
    Child {
        cols: Vec<u32>,
        negated: bool,
    },
    Test {
        comparison: Comparison,
        wanted: bool,
    },
}

/// A comparison, and how it has to come out.
#[derive(Drop)]
pub(crate) struct Test {
    pub(crate) comparison: Comparison,
    pub(crate) wanted: bool,
}

impl Model for Test {
    ghost use Rattle.eval_bool.specs.JoinView.{TestOf};

    ghost Value = { TestOf };

    ghost view = { λ t. record { comparison = t.comparison; wanted = t.wanted } };
}

fn with_own_columns(
    alloc: Global,
    columns: Vec<u32>,
    conjunct: &Conjunct,
) -> Result<Vec<u32>, AllocError>
    ensures { IfOk result (λ both.
        both.items ≡ joined columns.items (own_columns (conjunct_of conjunct.now))) }
{
    match conjunct {
        Conjunct::Child { cols, .. } => joined(alloc, columns, cols.as_slice()),
        Conjunct::Test { comparison, .. } => {
            let own = comparison.variables(alloc)?;
            joined(alloc, columns, own.as_slice())
        }
    }
}

/// The columns of all conjuncts, each at its first occurrence.
pub(crate) fn conjunct_columns(
    alloc: Global,
    conjuncts: &[Conjunct],
) -> Result<Vec<u32>, AllocError>
    ensures { IfOk result (λ columns.
        columns.items ≡ conjunct_columns (map conjunct_of conjuncts.now)) }
{
    let mut columns = Vec::new(alloc);
    for conjunct in conjuncts {
        columns = with_own_columns(alloc, columns, conjunct)?;
    }
    Ok(columns)
}

/// The tests and the children among conjuncts, in their order.
#[derive(Drop)]
pub(crate) struct Parts {
    pub(crate) tests: Vec<Test>,
    pub(crate) children: Vec<Child>,
}

impl Parts {
    fn push(&mut self, alloc: Global, conjunct: Conjunct) -> Result<(), AllocError>
        ensures tests { OnOk result (self.new.tests.items
            ≡ self.old.tests.items ++ tests_of (conjunct_of conjunct ∷ [])) }
        ensures children { OnOk result (self.new.children.items
            ≡ self.old.children.items ++ children_of (conjunct_of conjunct ∷ [])) }
    {
        match conjunct {
            Conjunct::Child { cols, negated } => {
                self.children.push(Child::new(alloc, cols, negated))?;
            }
            Conjunct::Test { comparison, wanted } => {
                self.tests.push(Test { comparison, wanted })?;
            }
        }
        Ok(())
    }
}

pub(crate) fn split(alloc: Global, conjuncts: Vec<Conjunct>) -> Result<Parts, AllocError>
    ensures tests { IfOk result (λ parts.
        parts.tests.items ≡ tests_of (map conjunct_of conjuncts.items)) }
    ensures children { IfOk result (λ parts.
        parts.children.items ≡ children_of (map conjunct_of conjuncts.items)) }
{
    let mut parts = Parts {
        tests: Vec::new(alloc),
        children: Vec::new(alloc),
    };
    for conjunct in conjuncts {
        parts.push(alloc, conjunct)?;
    }
    Ok(parts)
}
