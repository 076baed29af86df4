//! An atom's arguments.
#![tactic(auto, unfolding(crate::specs::Views::stage_of))]

ghost use Rattle.std.specs.Prelude.{◌≡◌, ◌∷◌, [], false};
ghost use Rattle.mfotl_lex.specs.Lexemes.{lexeme};
ghost use Rattle.mfotl_parse.specs.Arguments as calls;
ghost use Rattle.mfotl_parse.specs.Transitions.{given, goes, within_nodes};
ghost use Rattle.mfotl_parse.specs.SortsDue.{is_empty};
ghost use Rattle.mfotl_parse.specs.Views.{context_of, call_view, GoesOn};

use crate::call::Call;
use crate::class::Class;
use crate::fault::PolicyFault;
use crate::limits::MAX_FREE;
use crate::state::{CallStage, Context, Stage, text_value};
use crate::term::{Operand, term_of};
use mfotl_lex::Token;
use mfotl_model::{Term, Value};
use mfotl_sig::Signature;
use std::alloc::Global;

impl Context {
    /// Behind an atom's name and `(`.
    pub fn call<'a>(
        &mut self,
        alloc: Global,
        signature: &'a Signature,
        name_at: u64,
        name: &[u8],
    ) -> Result<Stage<'a>, PolicyFault>
        ensures { GoesOn result self.new
            (given 0 (calls.called signature.now (context_of self.old) name_at name.now)) }
    {
        let Some(pred) = signature.find(name) else {
            return Err(PolicyFault::UnknownPredicate(name_at));
        };
        if self.is_full() {
            return Err(PolicyFault::TooManyNodes(name_at));
        }
        self.nodes += 1;
        let Ok(bound) = u32::try_from(self.names.bound_sorts.len()) else {
            return Err(PolicyFault::Memory);
        };
        let call = Call {
            pred: pred.number,
            rest: pred.sorts.as_slice(),
            args: Vec::new(alloc),
            bound,
        };
        Ok(Stage::InCall(call, CallStage::FirstArgument))
    }

    fn take_term<'a>(
        &mut self,
        call: Call<'a>,
        at: u64,
        operand: Operand,
    ) -> Result<Stage<'a>, PolicyFault>
        ensures { GoesOn result self.new
            (given 0 (goes [] (calls.term_taken (context_of self.old)
            (call_view call.entry) at operand))) }
    {
        self.names.place(&operand, at, call.due());
        let term = term_of(operand)?;
        Ok(Stage::InCall(call.with(term)?, CallStage::AfterArgument))
    }

    fn take_variable<'a>(
        &mut self,
        alloc: Global,
        call: Call<'a>,
        at: u64,
        name: &[u8],
    ) -> Result<Stage<'a>, PolicyFault>
        ensures { GoesOn result self.new
            (given 0 (goes [] (calls.variable_taken (context_of self.old)
            (call_view call.entry) at name.now))) }
    {
        let variable = self.meet(alloc, name, at)?;
        self.take_term(call, at, Operand::Variable(variable))
    }

    fn take_blank<'a>(&mut self, call: Call<'a>, at: u64) -> Result<Stage<'a>, PolicyFault>
        ensures { GoesOn result self.new
            (given 0 (goes (within_nodes at (context_of self.old).nodes ∷ []) (calls.blank_taken
            (context_of self.old) (call_view call.entry)))) }
    {
        if self.is_full() {
            return Err(PolicyFault::TooManyNodes(at));
        }
        self.nodes += 1;
        let place = self.names.bind(Some(call.due()))?;
        let Some(number) = place.checked_add(MAX_FREE) else {
            return Err(PolicyFault::Memory);
        };
        let call = call.with(Term::Var(number))?;
        Ok(Stage::InCall(call, CallStage::AfterArgument))
    }

    fn take_argument<'a>(
        &mut self,
        alloc: Global,
        call: Call<'a>,
        token: &Token<'a>,
        class: Class,
    ) -> Result<Stage<'a>, PolicyFault>
        requires { is_empty (call_view call).rest ≡ false }
        ensures { GoesOn result self.new
            (given token.now.at (calls.argument_move (context_of self.old)
            (call_view call.entry) (lexeme token.now) class)) }
    {
        let at = token.at as u64;
        match class {
            Class::Name => self.take_variable(alloc, call, at, token.text),
            Class::Question => Ok(Stage::InCall(call, CallStage::AfterArgumentMark(at))),
            Class::Integer(number) => self.take_term(
                call,
                at,
                Operand::Constant(Value::Int(number)),
            ),
            Class::Text => {
                let value = text_value(alloc, token)?;
                self.take_term(call, at, Operand::Constant(value))
            }
            Class::Blank => self.take_blank(call, at),
            _ => Err(PolicyFault::Syntax(at)),
        }
    }

    /// Where an argument is due.
    pub fn argument<'a>(
        &mut self,
        alloc: Global,
        call: Call<'a>,
        token: &Token<'a>,
        class: Class,
    ) -> Result<Stage<'a>, PolicyFault>
        ensures { GoesOn result self.new
            (given token.now.at (calls.argument_move (context_of self.old)
            (call_view call.entry) (lexeme token.now) class)) }
    {
        if !call.is_full() {
            return self.take_argument(alloc, call, token, class);
        }
        let at = token.at as u64;
        match class {
            Class::Name => Err(PolicyFault::WrongArity(at)),
            Class::Question => Err(PolicyFault::WrongArity(at)),
            Class::Integer(_) => Err(PolicyFault::WrongArity(at)),
            Class::Text => Err(PolicyFault::WrongArity(at)),
            Class::Blank => Err(PolicyFault::WrongArity(at)),
            _ => Err(PolicyFault::Syntax(at)),
        }
    }

    fn close_call<'a>(
        &mut self,
        alloc: Global,
        call: Call<'a>,
        at: u64,
    ) -> Result<Stage<'a>, PolicyFault>
        ensures { GoesOn result self.new
            (given 0 (calls.call_closed (context_of self.old) (call_view call.entry) at)) }
    {
        if !call.is_full() {
            return Err(PolicyFault::WrongArity(at));
        }
        let Ok(bound) = u32::try_from(self.names.bound_sorts.len()) else {
            return Err(PolicyFault::Memory);
        };
        Ok(Stage::AfterOperand(call.close(alloc, bound)?))
    }

    /// Behind an atom's `(`.
    pub fn first_argument<'a>(
        &mut self,
        alloc: Global,
        call: Call<'a>,
        token: &Token<'a>,
        class: Class,
    ) -> Result<Stage<'a>, PolicyFault>
        ensures { GoesOn result self.new
            (given token.now.at (calls.first_move (context_of self.old) (call_view call.entry)
            (lexeme token.now) class)) }
    {
        match class {
            Class::CloseParen => self.close_call(alloc, call, token.at as u64),
            class => self.argument(alloc, call, token, class),
        }
    }

    /// Behind an argument.
    pub fn after_argument<'a>(
        &mut self,
        alloc: Global,
        call: Call<'a>,
        token: &Token<'a>,
        class: Class,
    ) -> Result<Stage<'a>, PolicyFault>
        ensures { GoesOn result self.new
            (given token.now.at (calls.taken_move (context_of self.old) (call_view call.entry)
            (lexeme token.now) class)) }
    {
        match class {
            Class::Comma => Ok(Stage::InCall(call, CallStage::NextArgument)),
            Class::CloseParen => self.close_call(alloc, call, token.at as u64),
            _ => Err(PolicyFault::Syntax(token.at as u64)),
        }
    }

    /// Behind `?` where an argument begins.
    pub fn marked_argument<'a>(
        &mut self,
        alloc: Global,
        call: Call<'a>,
        mark: u64,
        token: &Token<'a>,
        class: Class,
    ) -> Result<Stage<'a>, PolicyFault>
        ensures { GoesOn result self.new
            (given token.now.at (calls.argument_marked_move (context_of self.old)
            (call_view call.entry) mark (lexeme token.now) class)) }
    {
        match class {
            Class::Name => self.take_variable(alloc, call, mark, token.text),
            _ => Err(PolicyFault::Syntax(token.at as u64)),
        }
    }
}
