//! Formulas, each operator as it was written.
ghost use Rattle.std.specs.Prelude.{◌<◌, ◌≡◌, IfOk, IfSome};
ghost use Rattle.mfotl_model.specs.declared.formula.Formula.{size-Formula};
ghost use Rattle.mfotl_model.specs.Formulas.{form};
ghost use Rattle.mfotl_model.specs.Operators.{IsTemporal};

use crate::interval::Interval;
use crate::term::{Atom, Comparison};
use crate::text::Name;
use std::alloc::{AllocError, Global};

/// A variable that a quantifier binds.
#[derive(Drop)]
pub struct Bound {
    pub number: u32,
    pub name: Name,
}

impl Bound {
    pub fn copy(&self, alloc: Global) -> Result<Self, AllocError>
        ensures { IfOk result (λ bound. bound ≡ self.now) }
    {
        Ok(Bound {
            number: self.number,
            name: self.name.copy(alloc)?,
        })
    }
}

/// A formula of metric first-order temporal logic. Its contracts speak of it through `form`, the same
/// tree without its boxes.
pub enum Formula {
    True,
    False,
    Atom(Atom),
    Compare(Comparison),
    Not(Box<Formula>),
    And(Box<Formula>, Box<Formula>),
    Or(Box<Formula>, Box<Formula>),
    Implies(Box<Formula>, Box<Formula>),
    Equiv(Box<Formula>, Box<Formula>),
    Exists(Bound, Box<Formula>),
    Forall(Bound, Box<Formula>),
    Previous(Interval, Box<Formula>),
    Next(Interval, Box<Formula>),
    Once(Interval, Box<Formula>),
    Historically(Interval, Box<Formula>),
    Eventually(Interval, Box<Formula>),
    Always(Interval, Box<Formula>),
    Since(Interval, Box<Formula>, Box<Formula>),
    Until(Interval, Box<Formula>, Box<Formula>),
}

// A chain may be thousands of operands deep, and grows on its left side: that side is dropped in a loop.
impl Drop for Formula {
    fn drop(mut self) {
        loop {
            match self {
                Formula::True | Formula::False => return,
                Formula::Atom(_atom) => return,
                Formula::Compare(_comparison) => return,
                Formula::Not(inner) => self = Box::into_inner(inner),
                Formula::Exists(_bound, inner) | Formula::Forall(_bound, inner) => {
                    self = Box::into_inner(inner)
                }
                Formula::And(left, _right)
                | Formula::Or(left, _right)
                | Formula::Implies(left, _right)
                | Formula::Equiv(left, _right) => self = Box::into_inner(left),
                _ => {
                    let (first, _second) = self.into_temporal_operands();
                    self = Box::into_inner(first);
                }
            }
        }
    }
}

impl Formula {
    // The operands of an operator with an interval.
    fn into_temporal_operands(self) -> (Box<Formula>, Option<Box<Formula>>)
        requires { IsTemporal (form self) }
        ensures first_smaller { size-Formula result.0.value < size-Formula self }
        ensures second_smaller { IfSome result.1 (λ second. size-Formula second.value < size-Formula self) }
    {
        match self {
            Formula::Previous(_, inner)
            | Formula::Next(_, inner)
            | Formula::Once(_, inner)
            | Formula::Historically(_, inner)
            | Formula::Eventually(_, inner)
            | Formula::Always(_, inner) => (inner, None),
            Formula::Since(_, left, right) | Formula::Until(_, left, right) => (left, Some(right)),
            _ => unreachable!(),
        }
    }
}
