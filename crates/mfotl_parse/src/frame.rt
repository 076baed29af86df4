//! What is open while a policy is read: parentheses, quantifiers and operators that wait for an operand.
ghost use Rattle.std.specs.Prelude.{◌≡◌, IfOk};
ghost use Rattle.mfotl_model.specs.Formulas.{form};
ghost use Rattle.mfotl_parse.specs.States.{opens_level};
ghost use Rattle.mfotl_parse.specs.SymbolTable.{bound_as};
ghost use Rattle.mfotl_parse.specs.Reduction.{hold, closed};
ghost use Rattle.mfotl_parse.specs.Operators.{is_parens};
ghost use Rattle.mfotl_parse.specs.Intervals.{framed};
ghost use Rattle.mfotl_parse.specs.Views.{frame_of};
ghost use Rattle.mfotl_parse.specs.Grammar.{precedence, right_precedence, is_timed, deepens};

use crate::class::{Operator, Quantifier, Temporal};
use crate::formulas::boxed;
use mfotl_model::{Formula, Interval, Name};
use std::alloc::{AllocError, Global};

/// What waits for its operand, the right one where it has two.
#[derive(Drop)]
pub enum Frame {
    /// The `(` of a formula.
    Parens,
    Negation,
    Moment(Temporal, Interval),
    /// A quantified variable, by its place among all of them.
    Binding(Quantifier, u32, Name),
    /// An operator behind its left operand.
    Left(Operator, Interval, Box<Formula>),
}

impl Operator {
    /// Whether the right operand is a level of nesting of its own.
    pub fn deepens(self) -> bool
        ensures { result ≡ deepens self }
    {
        match self {
            Operator::Implies | Operator::Since | Operator::Until => true,
            Operator::And | Operator::Or | Operator::Equiv => false,
        }
    }

    /// Whether an interval may follow.
    pub fn is_timed(self) -> bool
        ensures { result ≡ is_timed self }
    {
        match self {
            Operator::Since | Operator::Until => true,
            Operator::And | Operator::Or | Operator::Implies | Operator::Equiv => false,
        }
    }

    /// The grammar's rule that the operator makes, from 1, EQUIV's, to 5.
    pub fn precedence(self) -> u8
        ensures { result ≡ precedence self }
    {
        match self {
            Operator::Equiv => 1,
            Operator::Implies => 2,
            Operator::Or => 3,
            Operator::And => 4,
            Operator::Since | Operator::Until => 5,
        }
    }

    /// The rule of its right operand.
    pub fn right_precedence(self) -> u8
        ensures { result ≡ right_precedence self }
    {
        match self {
            Operator::Equiv | Operator::Implies => 2,
            Operator::Or => 4,
            Operator::And | Operator::Since | Operator::Until => 5,
        }
    }
}

impl Frame {
    pub fn opens_level(&self) -> bool
        ensures { result ≡ opens_level (frame_of self.now) }
    {
        match self {
            Frame::Left(operator, _, _) => operator.deepens(),
            Frame::Parens => true,
            Frame::Negation => true,
            Frame::Moment(_, _) => true,
            Frame::Binding(_, _, _) => true,
        }
    }

    pub fn is_parens(&self) -> bool
        ensures { result ≡ is_parens (frame_of self.now) }
    {
        match self {
            Frame::Parens => true,
            Frame::Negation => false,
            Frame::Moment(_, _) => false,
            Frame::Binding(_, _, _) => false,
            Frame::Left(_, _, _) => false,
        }
    }

    /// How tightly it holds its operand; a quantifier's body reaches as far as it can.
    pub fn hold(&self) -> u8
        ensures { result ≡ hold (frame_of self.now) }
    {
        match self {
            Frame::Parens => 0,
            Frame::Binding(_, _, _) => 1,
            Frame::Left(operator, _, _) => operator.right_precedence(),
            Frame::Negation => 6,
            Frame::Moment(_, _) => 6,
        }
    }

    /// The variable that it binds to the name.
    pub fn bound_as(&self, name: &[u8]) -> Option<u32>
        ensures { result ≡ bound_as name.now (frame_of self.now) }
    {
        match self {
            Frame::Binding(_, variable, bound) => (name == bound.as_bytes()).then_some(*variable),
            Frame::Parens => None,
            Frame::Negation => None,
            Frame::Moment(_, _) => None,
            Frame::Left(_, _, _) => None,
        }
    }

    /// The frame with this interval, where it has one.
    pub fn framed(self, interval: Interval) -> Frame
        ensures { frame_of result ≡ framed interval (frame_of self) }
    {
        match self {
            Frame::Parens => Frame::Parens,
            Frame::Negation => Frame::Negation,
            Frame::Moment(operator, _) => Frame::Moment(operator, interval),
            Frame::Binding(quantifier, variable, name) => Frame::Binding(
                quantifier, variable, name,
            ),
            Frame::Left(operator, _, left) => Frame::Left(operator, interval, left),
        }
    }

    /// The frame with its operand.
    pub fn close(self, alloc: Global, inner: Box<Formula>) -> Result<Box<Formula>, AllocError>
        ensures { IfOk result (λ whole. form whole.value ≡ closed (frame_of self) (form inner.value)) }
    {
        match self {
            Frame::Parens => Ok(inner),
            Frame::Negation => boxed(alloc, Formula::Not(inner)),
            Frame::Moment(operator, interval) => boxed(alloc, operator.apply(interval, inner)),
            Frame::Binding(quantifier, variable, name) => {
                quantifier.over(alloc, variable, name, inner)
            }
            Frame::Left(operator, interval, left) => {
                boxed(alloc, operator.join(interval, left, inner))
            }
        }
    }
}
