//! Formulas of their operands, which are held in boxes.
ghost use Rattle.std.specs.Prelude.{◌≡◌, ◌+◌, IfOk};
ghost use Rattle.mfotl_model.specs.Formulas.{form};
ghost use Rattle.mfotl_parse.specs.Limits.{max_free};
ghost use Rattle.mfotl_parse.specs.Reduction.{momentary, operator_form, quantified_over, quantified};

use crate::class::{Operator, Quantifier, Temporal};
use crate::limits::MAX_FREE;
use mfotl_model::{Bound, Formula, Interval, Name};
use std::alloc::{AllocError, Global};

impl Operator {
    /// The formula of its two operands.
    pub fn join(self, interval: Interval, left: Box<Formula>, right: Box<Formula>) -> Formula
        ensures { form result ≡ operator_form self interval (form left.value) (form right.value) }
    {
        match self {
            Operator::And => Formula::And(left, right),
            Operator::Or => Formula::Or(left, right),
            Operator::Implies => Formula::Implies(left, right),
            Operator::Equiv => Formula::Equiv(left, right),
            Operator::Since => Formula::Since(interval, left, right),
            Operator::Until => Formula::Until(interval, left, right),
        }
    }
}

impl Temporal {
    /// The formula of its operand.
    pub fn apply(self, interval: Interval, inner: Box<Formula>) -> Formula
        ensures { form result ≡ momentary self interval (form inner.value) }
    {
        match self {
            Temporal::Previous => Formula::Previous(interval, inner),
            Temporal::Next => Formula::Next(interval, inner),
            Temporal::Once => Formula::Once(interval, inner),
            Temporal::Historically => Formula::Historically(interval, inner),
            Temporal::Eventually => Formula::Eventually(interval, inner),
            Temporal::Always => Formula::Always(interval, inner),
        }
    }
}

impl Quantifier {
    /// The formula of its body, where the variable is bound by its place among all of them.
    pub fn over(
        self,
        alloc: Global,
        variable: u32,
        name: Name,
        inner: Box<Formula>,
    ) -> Result<Box<Formula>, AllocError>
        ensures { IfOk result (λ whole. form whole.value ≡ quantified self variable name (form inner.value)) }
    {
        let number = bound_number(variable)?;
        boxed(alloc, self.apply(Bound { number, name }, inner))
    }

    fn apply(self, bound: Bound, inner: Box<Formula>) -> Formula
        ensures { form result ≡ quantified_over self bound (form inner.value) }
    {
        match self {
            Quantifier::Exists => Formula::Exists(bound, inner),
            Quantifier::Forall => Formula::Forall(bound, inner),
        }
    }
}

/// Formulas are held in boxes, each of which becomes a part of the next one.
pub fn boxed(alloc: Global, formula: Formula) -> Result<Box<Formula>, AllocError>
    ensures { IfOk result (λ boxed. form boxed.value ≡ form formula) }
{
    Ok(Box::new(alloc, formula)?)
}

/// The number of a bound variable, by its place among all of them: behind the free ones.
fn bound_number(place: u32) -> Result<u32, AllocError>
    ensures { IfOk result (λ number. number ≡ max_free + place) }
{
    match place.checked_add(MAX_FREE) {
        Some(number) => Ok(number),
        None => Err(AllocError),
    }
}
