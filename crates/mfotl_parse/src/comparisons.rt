//! Comparisons, from their left side on.
#![tactic(auto, unfolding(crate::specs::Views::stage_of))]

ghost use Rattle.std.specs.Prelude.{◌≡◌, ◌∷◌, [], IfOk};
ghost use Rattle.mfotl_lex.specs.Lexemes.{lexeme};
ghost use Rattle.mfotl_model.specs.Formulas.{form};
ghost use Rattle.mfotl_parse.specs.Transitions.{given, goes};
ghost use Rattle.mfotl_parse.specs.Comparisons as comparisons;
ghost use Rattle.mfotl_parse.specs.Views.{context_of, GoesOn};

use crate::class::Class;
use crate::fault::PolicyFault;
use crate::formulas::boxed;
use crate::state::{Context, Stage, text_value};
use crate::term::{Operand, Side, term_of};
use mfotl_lex::Token;
use mfotl_model::{Comparison, Formula, Sign, Value};
use std::alloc::{AllocError, Global};

impl Context {
    /// Behind `?` where an operand begins.
    pub fn marked<'a>(
        &mut self,
        alloc: Global,
        mark: u64,
        token: &Token<'a>,
        class: Class,
    ) -> Result<Stage<'a>, PolicyFault>
        ensures { GoesOn result self.new
            (given token.now.at (comparisons.marked_move (context_of self.old) mark
            (lexeme token.now) class)) }
    {
        match class {
            Class::Name => {
                let variable = self.meet(alloc, token.text, mark)?;
                Ok(Stage::ExpectSign(Side {
                    at: mark,
                    operand: Operand::Variable(variable),
                }))
            }
            _ => Err(PolicyFault::Syntax(token.at as u64)),
        }
    }

    /// Behind a comparison's left side.
    pub fn compared<'a>(
        &mut self,
        left: Side,
        token: &Token<'a>,
        class: Class,
    ) -> Result<Stage<'a>, PolicyFault>
        ensures { GoesOn result self.new
            (given token.now.at (comparisons.compared_move (context_of self.old) left
            (lexeme token.now) class)) }
    {
        match class {
            Class::Sign(sign) => self.sign(left, token.at as u64, sign),
            _ => Err(PolicyFault::Syntax(token.at as u64)),
        }
    }

    /// A comparison's sign behind its left side.
    pub fn sign<'a>(&mut self, left: Side, at: u64, sign: Sign) -> Result<Stage<'a>, PolicyFault>
        ensures { GoesOn result self.new
            (given 0 (comparisons.signed (context_of self.old) left at sign)) }
    {
        if self.is_full() {
            return Err(PolicyFault::TooManyNodes(at));
        }
        self.nodes += 1;
        Ok(Stage::AfterSign(left, at, sign))
    }

    /// Behind a comparison's sign.
    pub fn against<'a>(
        &mut self,
        alloc: Global,
        left: Side,
        sign_at: u64,
        sign: Sign,
        token: &Token<'a>,
        class: Class,
    ) -> Result<Stage<'a>, PolicyFault>
        ensures { GoesOn result self.new
            (given token.now.at (comparisons.against_move (context_of self.old) left sign_at sign
            (lexeme token.now) class)) }
    {
        let at = token.at as u64;
        match class {
            Class::Name => self.compare_variable(alloc, left, sign_at, sign, at, token.text),
            Class::Question => Ok(Stage::AfterSignMark(left, sign_at, sign, at)),
            Class::Integer(number) => {
                let operand = Operand::Constant(Value::Int(number));
                self.compare(alloc, left, sign_at, sign, Side { at, operand })
            }
            Class::Text => {
                let operand = Operand::Constant(text_value(alloc, token)?);
                self.compare(alloc, left, sign_at, sign, Side { at, operand })
            }
            _ => Err(PolicyFault::Syntax(at)),
        }
    }

    /// Behind `?` there.
    pub fn against_marked<'a>(
        &mut self,
        alloc: Global,
        left: Side,
        sign_at: u64,
        sign: Sign,
        mark: u64,
        token: &Token<'a>,
        class: Class,
    ) -> Result<Stage<'a>, PolicyFault>
        ensures { GoesOn result self.new
            (given token.now.at (comparisons.against_marked_move
            (context_of self.old) left sign_at sign mark (lexeme token.now) class)) }
    {
        match class {
            Class::Name => self.compare_variable(alloc, left, sign_at, sign, mark, token.text),
            _ => Err(PolicyFault::Syntax(token.at as u64)),
        }
    }

    /// A comparison with its right side.
    fn compare<'a>(
        &mut self,
        alloc: Global,
        left: Side,
        at: u64,
        sign: Sign,
        right: Side,
    ) -> Result<Stage<'a>, PolicyFault>
        ensures { GoesOn result self.new
            (given 0 (goes [] (comparisons.comparison_done
            (context_of self.old) left at sign right.at right.operand))) }
    {
        self.names.compare(&left, at, &right)?;
        let comparison = comparison(left.operand, sign, right.operand)?;
        Ok(Stage::AfterOperand(boxed(alloc, comparison)?))
    }

    fn compare_variable<'a>(
        &mut self,
        alloc: Global,
        left: Side,
        at: u64,
        sign: Sign,
        right_at: u64,
        name: &[u8],
    ) -> Result<Stage<'a>, PolicyFault>
        ensures { GoesOn result self.new
            (given 0 (goes [] (comparisons.named_done
            (context_of self.old) left at sign right_at name.now))) }
    {
        let variable = self.meet(alloc, name, right_at)?;
        self.compare(
            alloc,
            left,
            at,
            sign,
            Side {
                at: right_at,
                operand: Operand::Variable(variable),
            },
        )
    }
}

fn comparison(left: Operand, sign: Sign, right: Operand) -> Result<Formula, AllocError>
    ensures { IfOk result (λ formula. form formula ≡ comparisons.comparison left sign right) }
{
    let left = term_of(left)?;
    let right = term_of(right)?;
    Ok(Formula::Compare(Comparison { sign, left, right }))
}
