//! A quantifier's variables.
#![tactic(auto, unfolding(crate::specs::Views::stage_of))]

ghost use Rattle.std.specs.Prelude.{◌≡◌, ◌∷◌, []};
ghost use Rattle.mfotl_lex.specs.Lexemes.{lexeme};
ghost use Rattle.mfotl_parse.specs.Transitions.{given, goes};
ghost use Rattle.mfotl_parse.specs.Quantifiers as quantifiers;
ghost use Rattle.mfotl_parse.specs.Views.{context_of, GoesOn};

use crate::class::{Class, Quantifier};
use crate::fault::PolicyFault;
use crate::frame::Frame;
use crate::state::{BindingStage, Context, Stage};
use mfotl_lex::Token;
use mfotl_model::Name;
use std::alloc::Global;

impl Context {
    /// Where a quantified variable is due.
    pub fn binder<'a>(
        &mut self,
        alloc: Global,
        quantifier: Quantifier,
        token: &Token<'a>,
        class: Class,
    ) -> Result<Stage<'a>, PolicyFault>
        ensures { GoesOn result self.new
            (given token.now.at (quantifiers.binder_move (context_of self.old) quantifier
            (lexeme token.now) class)) }
    {
        let at = token.at as u64;
        match class {
            Class::Name => {
                self.enter(at)?;
                self.bind(alloc, quantifier, token.text)
            }
            Class::Question => {
                self.enter(at)?;
                Ok(Stage::InBinding(quantifier, BindingStage::AfterVariableMark(at)))
            }
            _ => Err(PolicyFault::Syntax(at)),
        }
    }

    /// Behind its `?`.
    pub fn binder_marked<'a>(
        &mut self,
        alloc: Global,
        quantifier: Quantifier,
        token: &Token<'a>,
        class: Class,
    ) -> Result<Stage<'a>, PolicyFault>
        ensures { GoesOn result self.new
            (given token.now.at (quantifiers.binder_marked_move (context_of self.old) quantifier
            (lexeme token.now) class)) }
    {
        match class {
            Class::Name => self.bind(alloc, quantifier, token.text),
            _ => Err(PolicyFault::Syntax(token.at as u64)),
        }
    }

    /// Behind a quantified variable.
    pub fn bound<'a>(
        &mut self,
        quantifier: Quantifier,
        token: &Token<'a>,
        class: Class,
    ) -> Result<Stage<'a>, PolicyFault>
        ensures { GoesOn result self.new
            (given token.now.at (quantifiers.bound_move (context_of self.old) quantifier class)) }
    {
        match class {
            Class::Comma => Ok(Stage::InBinding(quantifier, BindingStage::ExpectVariable)),
            Class::Dot => Ok(Stage::ExpectOperand),
            _ => Err(PolicyFault::Syntax(token.at as u64)),
        }
    }

    fn bind<'a>(
        &mut self,
        alloc: Global,
        quantifier: Quantifier,
        name: &[u8],
    ) -> Result<Stage<'a>, PolicyFault>
        ensures { GoesOn result self.new
            (given 0 (goes [] (quantifiers.bound_now (context_of self.old) quantifier name.now))) }
    {
        let name = Name::from_slice(alloc, name)?;
        let place = self.names.bind(None)?;
        self.push(Frame::Binding(quantifier, place, name))?;
        Ok(Stage::InBinding(quantifier, BindingStage::AfterVariable))
    }
}
