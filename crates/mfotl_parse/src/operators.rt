//! What stands behind an operand.
#![tactic(auto, unfolding(crate::specs::Views::stage_of))]

ghost use Rattle.std.specs.Prelude.{◌≡◌, ◌∷◌, []};
ghost use Rattle.mfotl_lex.specs.Lexemes.{lexeme};
ghost use Rattle.mfotl_model.specs.Formulas.{form};
ghost use Rattle.mfotl_parse.specs.Transitions.{given, within_nodes};
ghost use Rattle.mfotl_parse.specs.Operators as operators;
ghost use Rattle.mfotl_parse.specs.Reduction.{reduce};
ghost use Rattle.mfotl_parse.specs.Views.{context_of, stage_of, GoesOn, Enters};
ghost use Rattle.mfotl_parse.specs.Grammar.{precedence, deepens, is_timed};
ghost use Rattle.mfotl_parse.specs.States as states;

use crate::class::{Class, Operator};
use crate::fault::PolicyFault;
use crate::frame::Frame;
use crate::intervals::any_distance;
use crate::stack;
use crate::state::{Context, Stage};
use mfotl_lex::Token;
use mfotl_model::Formula;
use std::alloc::Global;

impl Context {
    /// Behind an operand.
    pub fn have<'a>(
        &mut self,
        alloc: Global,
        formula: Box<Formula>,
        token: &Token<'a>,
        class: Class,
    ) -> Result<Stage<'a>, PolicyFault>
        ensures { GoesOn result self.new
            (given token.now.at (operators.have_move (context_of self.old) (form formula.value)
            (lexeme token.now) class)) }
    {
        match class {
            Class::Operator(operator) => self.join(alloc, formula, operator, token.at as u64),
            Class::CloseParen => self.enclose(alloc, formula, token.at as u64),
            _ => Err(PolicyFault::Syntax(token.at as u64)),
        }
    }

    /// An operator behind its left operand.
    fn join<'a>(
        &mut self,
        alloc: Global,
        formula: Box<Formula>,
        operator: Operator,
        at: u64,
    ) -> Result<Stage<'a>, PolicyFault>
        ensures { GoesOn result self.new
            (given 0 (operators.joined_move (context_of self.old) operator
            (reduce (precedence operator) (form formula.value) (context_of self.old).stack) at)) }
    {
        let left = stack::reduce(alloc, &mut self.frames, operator.precedence(), formula)?;
        self.enter_right(operator, at)?;
        self.push(Frame::Left(operator, any_distance(), left))?;
        Ok(stage_behind(operator))
    }

    /// One more node, and one more level where the right operand is one.
    fn enter_right(&mut self, operator: Operator, at: u64) -> Result<(), PolicyFault>
        ensures { Enters result self.new (operators.deepening (deepens operator) at
            (context_of self.old).stack (within_nodes at (context_of self.old).nodes ∷ []))
            (states.counted (context_of self.old)) }
    {
        if operator.deepens() {
            self.enter(at)
        } else if self.is_full() {
            Err(PolicyFault::TooManyNodes(at))
        } else {
            self.nodes += 1;
            Ok(())
        }
    }

    /// A `)` behind an operand.
    fn enclose<'a>(
        &mut self,
        alloc: Global,
        formula: Box<Formula>,
        at: u64,
    ) -> Result<Stage<'a>, PolicyFault>
        ensures { GoesOn result self.new (given at (operators.enclosed_move (context_of self.old)
            (reduce 0 (form formula.value) (context_of self.old).stack).form
            (operators.around (reduce 0 (form formula.value) (context_of self.old).stack).stack))) }
    {
        let whole = stack::reduce(alloc, &mut self.frames, 0, formula)?;
        if stack::pop_parens(&mut self.frames) {
            Ok(Stage::AfterOperand(whole))
        } else {
            Err(PolicyFault::Syntax(at))
        }
    }
}

/// What may come behind the operator.
fn stage_behind<'a>(operator: Operator) -> Stage<'a>
    ensures { stage_of result ≡ operators.now_behind (is_timed operator) }
{
    if operator.is_timed() {
        Stage::AfterTemporal
    } else {
        Stage::ExpectOperand
    }
}
