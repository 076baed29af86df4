//! Copies of formulas, operator by operator.
ghost use Rattle.std.specs.Prelude.{◌≡◌, IfOk};
ghost use Rattle.mfotl_model.specs.Formulas.{form};
ghost use Rattle.mfotl_model.specs.Operators.{IsTemporal, binary_form, quantified_form, unary_form};

use crate::formula::{Bound, Formula};
use crate::interval::Interval;
use crate::term::{Atom, Comparison};
use std::alloc::{AllocError, Global};

// An operator of one operand that binds no variable.
#[derive(Clone, Copy)]
enum Unary {
    Not,
    Previous(Interval),
    Next(Interval),
    Once(Interval),
    Historically(Interval),
    Eventually(Interval),
    Always(Interval),
}

impl Unary {
    fn over(self, operand: Box<Formula>) -> Formula
        ensures { form result ≡ unary_form self (form operand.value) }
    {
        match self {
            Unary::Not => Formula::Not(operand),
            Unary::Previous(interval) => Formula::Previous(interval, operand),
            Unary::Next(interval) => Formula::Next(interval, operand),
            Unary::Once(interval) => Formula::Once(interval, operand),
            Unary::Historically(interval) => Formula::Historically(interval, operand),
            Unary::Eventually(interval) => Formula::Eventually(interval, operand),
            Unary::Always(interval) => Formula::Always(interval, operand),
        }
    }
}

#[derive(Clone, Copy)]
enum Quantifier {
    Exists,
    Forall,
}

impl Quantifier {
    fn over(self, bound: Bound, operand: Box<Formula>) -> Formula
        ensures { form result ≡ quantified_form self bound (form operand.value) }
    {
        match self {
            Quantifier::Exists => Formula::Exists(bound, operand),
            Quantifier::Forall => Formula::Forall(bound, operand),
        }
    }
}

// An operator of two operands.
#[derive(Clone, Copy)]
enum Binary {
    And,
    Or,
    Implies,
    Equiv,
    Since(Interval),
    Until(Interval),
}

impl Binary {
    fn over(self, left: Box<Formula>, right: Box<Formula>) -> Formula
        ensures { form result ≡ binary_form self (form left.value) (form right.value) }
    {
        match self {
            Binary::And => Formula::And(left, right),
            Binary::Or => Formula::Or(left, right),
            Binary::Implies => Formula::Implies(left, right),
            Binary::Equiv => Formula::Equiv(left, right),
            Binary::Since(interval) => Formula::Since(interval, left, right),
            Binary::Until(interval) => Formula::Until(interval, left, right),
        }
    }
}

impl Formula {
    #[cycle(copies)]
    pub fn copy(&self, alloc: Global) -> Result<Self, AllocError>
        ensures { IfOk result (λ formula. form formula ≡ form self.now) }
    {
        match self {
            Formula::True => Ok(Formula::True),
            Formula::False => Ok(Formula::False),
            Formula::Atom(atom) => copied_atom(alloc, atom),
            Formula::Compare(comparison) => copied_comparison(alloc, comparison),
            Formula::Not(f) => copied_unary(alloc, Unary::Not, f),
            Formula::And(f, g) => copied_binary(alloc, Binary::And, f, g),
            Formula::Or(f, g) => copied_binary(alloc, Binary::Or, f, g),
            Formula::Implies(f, g) => copied_binary(alloc, Binary::Implies, f, g),
            Formula::Equiv(f, g) => copied_binary(alloc, Binary::Equiv, f, g),
            Formula::Exists(x, f) => copied_quantified(alloc, Quantifier::Exists, x, f),
            Formula::Forall(x, f) => copied_quantified(alloc, Quantifier::Forall, x, f),
            _ => self.copied_over_time(alloc),
        }
    }

    // A copy of a formula whose operator has an interval.
    #[cycle(copies)]
    fn copied_over_time(&self, alloc: Global) -> Result<Self, AllocError>
        requires { IsTemporal (form self.now) }
        ensures { IfOk result (λ formula. form formula ≡ form self.now) }
    {
        match self {
            Formula::Previous(i, f) => copied_unary(alloc, Unary::Previous(*i), f),
            Formula::Next(i, f) => copied_unary(alloc, Unary::Next(*i), f),
            Formula::Once(i, f) => copied_unary(alloc, Unary::Once(*i), f),
            Formula::Historically(i, f) => copied_unary(alloc, Unary::Historically(*i), f),
            Formula::Eventually(i, f) => copied_unary(alloc, Unary::Eventually(*i), f),
            Formula::Always(i, f) => copied_unary(alloc, Unary::Always(*i), f),
            Formula::Since(i, f, g) => copied_binary(alloc, Binary::Since(*i), f, g),
            Formula::Until(i, f, g) => copied_binary(alloc, Binary::Until(*i), f, g),
            _ => unreachable!(),
        }
    }

    #[cycle(copies)]
    fn boxed(&self, alloc: Global) -> Result<Box<Self>, AllocError>
        ensures { IfOk result (λ formula. form formula.value ≡ form self.now) }
    {
        stored(alloc, self.copy(alloc))
    }
}

// A copy of the operand below a copy of the operator.
#[cycle(copies)]
fn copied_unary(alloc: Global, operator: Unary, operand: &Formula) -> Result<Formula, AllocError>
    ensures { IfOk result (λ formula. form formula ≡ unary_form operator (form operand.now)) }
{
    let operand = operand.boxed(alloc)?;
    Ok(operator.over(operand))
}

#[cycle(copies)]
fn copied_quantified(
    alloc: Global,
    quantifier: Quantifier,
    bound: &Bound,
    operand: &Formula,
) -> Result<Formula, AllocError>
    ensures { IfOk result (λ formula.
        form formula ≡ quantified_form quantifier bound.now (form operand.now)) }
{
    let bound = bound.copy(alloc)?;
    let operand = operand.boxed(alloc)?;
    Ok(quantifier.over(bound, operand))
}

#[cycle(copies)]
fn copied_binary(
    alloc: Global,
    operator: Binary,
    left: &Formula,
    right: &Formula,
) -> Result<Formula, AllocError>
    ensures { IfOk result (λ formula.
        form formula ≡ binary_form operator (form left.now) (form right.now)) }
{
    let left = left.boxed(alloc)?;
    let right = right.boxed(alloc)?;
    Ok(operator.over(left, right))
}

fn copied_atom(alloc: Global, atom: &Atom) -> Result<Formula, AllocError>
    ensures { IfOk result (λ formula. formula ≡ Formula.Atom atom.now) }
{
    let atom = atom.copy(alloc)?;
    Ok(Formula::Atom(atom))
}

fn copied_comparison(alloc: Global, comparison: &Comparison) -> Result<Formula, AllocError>
    ensures { IfOk result (λ formula. formula ≡ Formula.Compare comparison.now) }
{
    let comparison = comparison.copy(alloc)?;
    Ok(Formula::Compare(comparison))
}

// A chain may be thousands of operands deep: what this call needs of the stack is free again before
// the recursion goes on.
#[inline(never)]
fn stored(alloc: Global, copy: Result<Formula, AllocError>) -> Result<Box<Formula>, AllocError>
    ensures { IfOk result (λ formula. copy ≡ Ok formula.value) }
{
    match copy {
        Ok(formula) => Ok(Box::new(alloc, formula)?),
        Err(error) => Err(error),
    }
}
