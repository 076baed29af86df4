//! Formulas in prefix notation.
ghost use Rattle.std.specs.Prelude.{◌≡◌, ◌∷◌, IfOk};
ghost use Rattle.mfotl_model.specs.Formulas.{form};
ghost use Rattle.definitions_check.specs.Operators.{word_of};
ghost use Rattle.definitions_check.specs.Spelling.{spelled};

use crate::fault::CaseFault;
use crate::operator::{Operator, operator_of};
use crate::parts::{atom, bound, comparison, interval};
use crate::words::Words;
use mfotl_model::Formula;
use std::alloc::Global;

// How deep operators may be nested: every recursion over a formula then fits a small stack.
const DEEPEST: u32 = 256;

/// The formula that the words begin with.
pub fn formula(alloc: Global, words: &mut Words<'_>) -> Result<Formula, CaseFault>
    ensures { IfOk result (λ f. words.old ≡ spelled (form f) words.new) }
{
    nested(alloc, words, DEEPEST)
}

#[cycle(formulas)]
#[tactic(auto, unfolding(crate::specs::Spelling::spelled))]
fn nested(alloc: Global, words: &mut Words<'_>, depth: u32) -> Result<Formula, CaseFault>
    ensures { IfOk result (λ f. words.old ≡ spelled (form f) words.new) }
{
    match operator_of(words.next()?)? {
        operator @ (Operator::True | Operator::False | Operator::Atom | Operator::Compare) => {
            plain(alloc, operator, words)
        }
        Operator::Not => negated(alloc, words, depth),
        operator @ (Operator::And | Operator::Or | Operator::Implies | Operator::Equiv) => {
            joined(alloc, operator, words, depth)
        }
        operator @ (Operator::Exists | Operator::Forall) => quantified(
            alloc, operator, words, depth,
        ),
        operator @ (Operator::Since | Operator::Until) => {
            joined_in_time(alloc, operator, words, depth)
        }
        operator => in_time(alloc, operator, words, depth),
    }
}

// The formula of an operator without operands, whose words come next.
#[tactic(auto, unfolding(crate::specs::Spelling::spelled))]
fn plain(alloc: Global, operator: Operator, words: &mut Words<'_>) -> Result<Formula, CaseFault>
    ensures { IfOk result (λ f. word_of operator ∷ words.old ≡ spelled (form f) words.new) }
{
    match operator {
        Operator::True => Ok(Formula::True),
        Operator::False => Ok(Formula::False),
        Operator::Atom => Ok(Formula::Atom(atom(alloc, words)?)),
        Operator::Compare => Ok(Formula::Compare(comparison(alloc, words)?)),
        _ => Err(CaseFault::UnknownWord),
    }
}

// The formula of NOT, whose operand comes next.
#[cycle(formulas)]
#[tactic(auto, unfolding(crate::specs::Spelling::spelled))]
fn negated(alloc: Global, words: &mut Words<'_>, depth: u32) -> Result<Formula, CaseFault>
    ensures { IfOk result (λ f. word_of Operator.Not ∷ words.old ≡ spelled (form f) words.new) }
{
    Ok(Formula::Not(operand(alloc, words, depth)?))
}

// The formula of an operator that joins two operands, which come next.
#[cycle(formulas)]
#[tactic(auto, unfolding(crate::specs::Spelling::spelled))]
fn joined(
    alloc: Global,
    operator: Operator,
    words: &mut Words<'_>,
    depth: u32,
) -> Result<Formula, CaseFault>
    ensures { IfOk result (λ f. word_of operator ∷ words.old ≡ spelled (form f) words.new) }
{
    let (f, g) = operands(alloc, words, depth)?;
    match operator {
        Operator::And => Ok(Formula::And(f, g)),
        Operator::Or => Ok(Formula::Or(f, g)),
        Operator::Implies => Ok(Formula::Implies(f, g)),
        Operator::Equiv => Ok(Formula::Equiv(f, g)),
        _ => Err(CaseFault::UnknownWord),
    }
}

// The formula of a quantifier, whose variable and operand come next.
#[cycle(formulas)]
#[tactic(auto, unfolding(crate::specs::Spelling::spelled))]
fn quantified(
    alloc: Global,
    operator: Operator,
    words: &mut Words<'_>,
    depth: u32,
) -> Result<Formula, CaseFault>
    ensures { IfOk result (λ f. word_of operator ∷ words.old ≡ spelled (form f) words.new) }
{
    let x = bound(alloc, words)?;
    let f = operand(alloc, words, depth)?;
    match operator {
        Operator::Exists => Ok(Formula::Exists(x, f)),
        Operator::Forall => Ok(Formula::Forall(x, f)),
        _ => Err(CaseFault::UnknownWord),
    }
}

// The formula of SINCE or UNTIL, whose interval and operands come next.
#[cycle(formulas)]
#[tactic(auto, unfolding(crate::specs::Spelling::spelled))]
fn joined_in_time(
    alloc: Global,
    operator: Operator,
    words: &mut Words<'_>,
    depth: u32,
) -> Result<Formula, CaseFault>
    ensures { IfOk result (λ f. word_of operator ∷ words.old ≡ spelled (form f) words.new) }
{
    let interval = interval(alloc, words)?;
    let (f, g) = operands(alloc, words, depth)?;
    match operator {
        Operator::Since => Ok(Formula::Since(interval, f, g)),
        Operator::Until => Ok(Formula::Until(interval, f, g)),
        _ => Err(CaseFault::UnknownWord),
    }
}

// The formula of a temporal operator of one operand, whose interval and operand come next.
#[cycle(formulas)]
#[tactic(auto, unfolding(crate::specs::Spelling::spelled))]
fn in_time(
    alloc: Global,
    operator: Operator,
    words: &mut Words<'_>,
    depth: u32,
) -> Result<Formula, CaseFault>
    ensures { IfOk result (λ f. word_of operator ∷ words.old ≡ spelled (form f) words.new) }
{
    let interval = interval(alloc, words)?;
    let f = operand(alloc, words, depth)?;
    match operator {
        Operator::Previous => Ok(Formula::Previous(interval, f)),
        Operator::Next => Ok(Formula::Next(interval, f)),
        Operator::Once => Ok(Formula::Once(interval, f)),
        Operator::Historically => Ok(Formula::Historically(interval, f)),
        Operator::Eventually => Ok(Formula::Eventually(interval, f)),
        Operator::Always => Ok(Formula::Always(interval, f)),
        _ => Err(CaseFault::UnknownWord),
    }
}

#[cycle(formulas)]
fn operand(alloc: Global, words: &mut Words<'_>, depth: u32) -> Result<Box<Formula>, CaseFault>
    ensures { IfOk result (λ f. words.old ≡ spelled (form f.value) words.new) }
{
    match depth.checked_sub(1) {
        Some(less) => Ok(Box::new(alloc, nested(alloc, words, less)?)?),
        None => Err(CaseFault::TooDeep),
    }
}

#[cycle(formulas)]
fn operands(
    alloc: Global,
    words: &mut Words<'_>,
    depth: u32,
) -> Result<(Box<Formula>, Box<Formula>), CaseFault>
    ensures { IfOk result (λ both. words.old
        ≡ spelled (form both.0.value) (spelled (form both.1.value) words.new)) }
{
    let left = operand(alloc, words, depth)?;
    let right = operand(alloc, words, depth)?;
    Ok((left, right))
}
