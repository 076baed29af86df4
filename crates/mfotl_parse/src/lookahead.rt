//! A `(` behind a temporal operator, which may begin an interval or an operand.
#![tactic(auto, unfolding(crate::specs::Views::stage_of))]

ghost use Rattle.std.specs.Prelude.{◌≡◌};
ghost use Rattle.mfotl_lex.specs.Lexemes.{lexeme};
ghost use Rattle.mfotl_parse.specs.Transitions.{given, within_depth, first_keeps};
ghost use Rattle.mfotl_parse.specs.Lookahead as lookahead;
ghost use Rattle.mfotl_parse.specs.Operands as operands;
ghost use Rattle.mfotl_parse.specs.States as states;
ghost use Rattle.mfotl_parse.specs.Views.{context_of, GoesOn};

use crate::class::{Class, unit_of};
use crate::fault::PolicyFault;
use crate::frame::Frame;
use crate::intervals::bound_of;
use crate::limits::MAX_BOUND;
use crate::state::{Context, IntervalStage, Stage};
use crate::term::{Operand, Side};
use mfotl_lex::Token;
use mfotl_model::Value;
use std::alloc::Global;

impl Context {
    /// Behind a `(` behind a temporal operator.
    pub fn maybe<'a>(
        &mut self,
        alloc: Global,
        start: u64,
        token: &Token<'a>,
        class: Class,
    ) -> Result<Stage<'a>, PolicyFault>
        ensures { GoesOn result self.new
            (given token.now.at (lookahead.maybe_move (context_of self.old) start
            (lexeme token.now) class)) }
    {
        match class {
            Class::Integer(number) => Ok(Stage::InInterval(IntervalStage::AfterParenNumber(
                start,
                token.at as u64,
                number,
            ))),
            class => self.enclosed_operand(alloc, start, token, class),
        }
    }

    fn enclosed_operand<'a>(
        &mut self,
        alloc: Global,
        start: u64,
        token: &Token<'a>,
        class: Class,
    ) -> Result<Stage<'a>, PolicyFault>
        ensures { GoesOn result self.new
            (given token.now.at (first_keeps (within_depth start (context_of self.old).stack)
            (operands.operand_move (states.pushed states.Parens (context_of self.old)) (lexeme token.now) class))) }
    {
        if !begins_operand(class) {
            return Err(PolicyFault::Syntax(token.at as u64));
        }
        if self.is_deep() {
            return Err(PolicyFault::TooDeep(start));
        }
        self.push(Frame::Parens)?;
        self.operand(alloc, token, class)
    }

    /// Behind an Integer behind a `(` behind a temporal operator.
    pub fn maybe_number<'a>(
        &mut self,
        start: u64,
        number_at: u64,
        number: i64,
        token: &Token<'a>,
        class: Class,
    ) -> Result<Stage<'a>, PolicyFault>
        ensures { GoesOn result self.new
            (given token.now.at (lookahead.maybe_number_move
            (context_of self.old) start number_at number (lexeme token.now) class)) }
    {
        let at = token.at as u64;
        match class {
            Class::Comma => self.maybe_low(start, number_at, number, at),
            Class::Name => self.maybe_unit(start, number_at, number, at, token.text),
            Class::Sign(sign) => {
                self.open(start)?;
                let operand = Operand::Constant(Value::Int(number));
                self.sign(
                    Side {
                        at: number_at,
                        operand,
                    },
                    at,
                    sign,
                )
            }
            _ => Err(PolicyFault::Syntax(at)),
        }
    }

    /// A comma behind `(` and an Integer: the lower bound of an interval, which isn't in it.
    fn maybe_low<'a>(
        &mut self,
        start: u64,
        number_at: u64,
        number: i64,
        at: u64,
    ) -> Result<Stage<'a>, PolicyFault>
        ensures { GoesOn result self.new
            (given at (lookahead.maybe_low (context_of self.old) start number_at number)) }
    {
        match u64::try_from(number) {
            Ok(number) => {
                if number > MAX_BOUND {
                    return Err(PolicyFault::BoundRange(number_at));
                }
                Ok(Stage::InInterval(IntervalStage::ExpectHigh(start, number + 1)))
            }
            Err(_) => Err(PolicyFault::Syntax(at)),
        }
    }

    /// A Word there, which has to be a unit.
    fn maybe_unit<'a>(
        &mut self,
        start: u64,
        number_at: u64,
        number: i64,
        at: u64,
        word: &[u8],
    ) -> Result<Stage<'a>, PolicyFault>
        ensures { GoesOn result self.new
            (given at (lookahead.maybe_word (context_of self.old) start number_at number word.now)) }
    {
        match u64::try_from(number) {
            Ok(number) => match unit_of(word) {
                Some(unit) => match bound_of(number, unit) {
                    Some(low) => Ok(Stage::InInterval(IntervalStage::AfterLow(start, low + 1))),
                    None => Err(PolicyFault::BoundRange(number_at)),
                },
                None => Err(PolicyFault::Syntax(at)),
            },
            Err(_) => Err(PolicyFault::Syntax(at)),
        }
    }
}

fn begins_operand(class: Class) -> bool
    ensures { result ≡ lookahead.begins_operand class }
{
    match class {
        Class::Truth(_) => true,
        Class::Not => true,
        Class::Temporal(_) => true,
        Class::Quantifier(_) => true,
        Class::Name => true,
        Class::Blank => true,
        Class::Integer(_) => true,
        Class::Text => true,
        Class::OpenParen => true,
        Class::Question => true,
        _ => false,
    }
}
