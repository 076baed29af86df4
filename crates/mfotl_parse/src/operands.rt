//! Where an operand begins.
#![tactic(auto, unfolding(crate::specs::Views::stage_of))]

ghost use Rattle.std.specs.Prelude.{◌≡◌, ◌∷◌, [], IfOk};
ghost use Rattle.mfotl_lex.specs.Lexemes.{lexeme};
ghost use Rattle.mfotl_model.specs.Formulas.{form};
ghost use Rattle.mfotl_parse.specs.Transitions.{given, goes, within_nodes, within_depth};
ghost use Rattle.mfotl_parse.specs.Operands as operands;
ghost use Rattle.mfotl_parse.specs.States as states;
ghost use Rattle.mfotl_parse.specs.Intervals.{any_distance};
ghost use Rattle.mfotl_parse.specs.Views.{context_of, stage_of, GoesOn, Enters};

use crate::class::{Class, Temporal};
use crate::fault::PolicyFault;
use crate::formulas::boxed;
use crate::frame::Frame;
use crate::intervals::any_distance;
use crate::state::{BindingStage, Context, IntervalStage, Stage, text_value};
use crate::term::{Operand, Side};
use mfotl_lex::Token;
use mfotl_model::{Formula, Value};
use mfotl_sig::Signature;
use std::alloc::{AllocError, Global};

impl Context {
    /// Where an operand is due.
    pub fn operand<'a>(
        &mut self,
        alloc: Global,
        token: &Token<'a>,
        class: Class,
    ) -> Result<Stage<'a>, PolicyFault>
        ensures { GoesOn result self.new
            (given token.now.at (operands.operand_move (context_of self.old)
            (lexeme token.now) class)) }
    {
        let at = token.at as u64;
        match class {
            Class::Truth(value) => self.truth(alloc, at, value),
            Class::Not => self.negation(at),
            Class::Temporal(operator) => self.moment(at, operator),
            Class::Quantifier(quantifier) => Ok(Stage::InBinding(
                quantifier,
                BindingStage::ExpectVariable,
            )),
            Class::Name => Ok(Stage::AfterWord(at, token.text)),
            Class::Blank => Ok(Stage::AfterBlank(at)),
            Class::Integer(number) => {
                let operand = Operand::Constant(Value::Int(number));
                Ok(Stage::ExpectSign(Side { at, operand }))
            }
            Class::Text => Ok(quoted(alloc, token)?),
            Class::OpenParen => self.parens(at),
            Class::Question => Ok(Stage::AfterMark(at)),
            _ => Err(PolicyFault::Syntax(at)),
        }
    }

    /// Behind a temporal operator.
    pub fn fresh<'a>(
        &mut self,
        alloc: Global,
        token: &Token<'a>,
        class: Class,
    ) -> Result<Stage<'a>, PolicyFault>
        ensures { GoesOn result self.new
            (given token.now.at (operands.fresh_move (context_of self.old)
            (lexeme token.now) class)) }
    {
        match class {
            Class::OpenBracket => Ok(Stage::InInterval(IntervalStage::ExpectLow(token.at as u64))),
            Class::OpenParen => Ok(Stage::InInterval(IntervalStage::AfterParen(token.at as u64))),
            class => self.operand(alloc, token, class),
        }
    }

    /// Behind a Word where an operand begins.
    pub fn word<'a>(
        &mut self,
        alloc: Global,
        signature: &'a Signature,
        name_at: u64,
        name: &[u8],
        token: &Token<'a>,
        class: Class,
    ) -> Result<Stage<'a>, PolicyFault>
        ensures { GoesOn result self.new
            (given token.now.at (operands.word_move signature.now
            (context_of self.old) name_at name.now (lexeme token.now) class)) }
    {
        let at = token.at as u64;
        match class {
            Class::OpenParen => self.call(alloc, signature, name_at, name),
            Class::Sign(sign) => {
                let variable = self.meet(alloc, name, name_at)?;
                self.sign(
                    Side {
                        at: name_at,
                        operand: Operand::Variable(variable),
                    },
                    at,
                    sign,
                )
            }
            _ => Err(PolicyFault::Syntax(at)),
        }
    }

    /// Behind `_` where an operand begins.
    pub fn blank<'a>(
        &mut self,
        alloc: Global,
        signature: &'a Signature,
        name_at: u64,
        token: &Token<'a>,
        class: Class,
    ) -> Result<Stage<'a>, PolicyFault>
        ensures { GoesOn result self.new
            (given token.now.at (operands.blank_move signature.now
            (context_of self.old) name_at class)) }
    {
        match class {
            Class::OpenParen => self.call(alloc, signature, name_at, b"_"),
            _ => Err(PolicyFault::Syntax(token.at as u64)),
        }
    }

    fn truth<'a>(&mut self, alloc: Global, at: u64, value: bool) -> Result<Stage<'a>, PolicyFault>
        ensures { GoesOn result self.new
            (given 0 (goes (within_nodes at (context_of self.old).nodes ∷ []) (states.with_now
            (states.counted (context_of self.old)) (states.AfterOperand (operands.truth value))))) }
    {
        if self.is_full() {
            return Err(PolicyFault::TooManyNodes(at));
        }
        self.nodes += 1;
        Ok(Stage::AfterOperand(boxed(alloc, truth(value))?))
    }

    /// NOT before its operand.
    fn negation<'a>(&mut self, at: u64) -> Result<Stage<'a>, PolicyFault>
        ensures { GoesOn result self.new (given 0 (operands.prefix_operator at (context_of self.old) states.Negation
            states.ExpectOperand)) }
    {
        self.enter(at)?;
        self.push(Frame::Negation)?;
        Ok(Stage::ExpectOperand)
    }

    /// A temporal operator before its operand.
    fn moment<'a>(&mut self, at: u64, operator: Temporal) -> Result<Stage<'a>, PolicyFault>
        ensures { GoesOn result self.new (given 0 (operands.prefix_operator at (context_of self.old)
            (states.Moment operator any_distance) states.AfterTemporal)) }
    {
        self.enter(at)?;
        self.push(Frame::Moment(operator, any_distance()))?;
        Ok(Stage::AfterTemporal)
    }

    /// One more level and one more node, where the offset says.
    pub fn enter(&mut self, at: u64) -> Result<(), PolicyFault>
        ensures { Enters result self.new (within_depth at (context_of self.old).stack
            ∷ within_nodes at (context_of self.old).nodes ∷ []) (states.counted (context_of self.old)) }
    {
        if self.is_deep() {
            return Err(PolicyFault::TooDeep(at));
        }
        if self.is_full() {
            return Err(PolicyFault::TooManyNodes(at));
        }
        self.nodes += 1;
        Ok(())
    }

    /// A `(` of a formula.
    pub fn open(&mut self, at: u64) -> Result<(), PolicyFault>
        ensures { Enters result self.new (within_depth at (context_of self.old).stack ∷ [])
            (states.pushed states.Parens (context_of self.old)) }
    {
        if self.is_deep() {
            return Err(PolicyFault::TooDeep(at));
        }
        self.push(Frame::Parens)?;
        Ok(())
    }

    fn parens<'a>(&mut self, at: u64) -> Result<Stage<'a>, PolicyFault>
        ensures { GoesOn result self.new (given 0 (operands.parens_opened (context_of self.old) at)) }
    {
        self.open(at)?;
        Ok(Stage::ExpectOperand)
    }
}

/// TRUE or FALSE.
fn truth(value: bool) -> Formula
    ensures { form result ≡ operands.truth value }
{
    if value { Formula::True } else { Formula::False }
}

/// A Text as the left side of a comparison.
fn quoted<'a>(alloc: Global, token: &Token<'a>) -> Result<Stage<'a>, AllocError>
    ensures { IfOk result (λ now. stage_of now ≡ states.ExpectSign (operands.quoted (lexeme token.now))) }
{
    let value = text_value(alloc, token)?;
    Ok(Stage::ExpectSign(Side {
        at: token.at as u64,
        operand: Operand::Constant(value),
    }))
}
