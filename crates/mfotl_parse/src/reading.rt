//! Reading from the first token to the end.
ghost use Rattle.std.specs.Prelude.{◌≡◌, ◌≢◌, ◌≤◌, false, length, IfOk, IfErr};
ghost use Rattle.mfotl_lex.specs.Lexemes.{lexeme, next_token, after};
ghost use Rattle.mfotl_model.specs.Formulas.{form};
ghost use Rattle.mfotl_parse.specs.GrammarLaws.{IsShown};
ghost use Rattle.mfotl_parse.specs.Limits.{max_free};
ghost use Rattle.mfotl_parse.specs.Meanings.{IsValue};
ghost use Rattle.mfotl_parse.specs.declared.fault.PolicyFault.TheVariants.{Memory};
ghost use Rattle.mfotl_parse.specs.Reading.{step, with_token, ended_at, reading_on, reading};
ghost use Rattle.mfotl_parse.specs.States.{nothing_read};
ghost use Rattle.mfotl_parse.specs.WellSorted.{IsWellSorted};
ghost use Rattle.mfotl_parse.specs.Views.{context_of, stage_of, partial_of, with_next, policy_of};
ghost use Rattle.mfotl_parse.specs.Views.{Gives, LeavesBehind, ReadAll};

use crate::advance::advance;
use crate::class::class_of;
use crate::ending::close;
use crate::fault::PolicyFault;
use crate::state::{Context, Parser, Stage};
use mfotl_lex::{Lexer, Mode, Token};
use mfotl_model::Policy;
use mfotl_sig::Signature;
use std::alloc::Global;
use std::mem;

impl<'a> Parser<'a> {
    #[tactic(auto, unfolding(crate::specs::Views::stage_of))]
    fn new(alloc: Global) -> Self
        ensures { partial_of result ≡ nothing_read }
    {
        Parser {
            context: Context::new(alloc),
            now: Stage::ExpectOperand,
        }
    }

    /// Takes the next token.
    #[tactic(auto, unfolding(crate::specs::Reading::step, crate::specs::Reading::transition))]
    fn step(
        &mut self,
        alloc: Global,
        signature: &'a Signature,
        token: &Token<'a>,
    ) -> Result<(), PolicyFault>
        ensures { LeavesBehind result self.new (step signature.now (partial_of self.old) (lexeme token.now)) }
    {
        let now = mem::replace(&mut self.now, Stage::ExpectOperand);
        let class = class_of(token);
        match advance(alloc, &mut self.context, signature, now, token, class) {
            Ok(next) => {
                self.now = next;
                Ok(())
            }
            Err(fault) => Err(fault),
        }
    }

    /// Takes the next token, and says whether there was one.
    fn take_next(
        &mut self,
        alloc: Global,
        signature: &'a Signature,
        lexer: &mut Lexer<'a>,
    ) -> Result<bool, PolicyFault>
        ensures taken { Gives (λ more. with_next more self.new) result
            (with_token signature.now (partial_of self.old) (next_token lexer.old)) }
        ensures after { IfOk result (λ more. lexer.new ≡ after lexer.old) }
        ensures ended { IfOk result (λ more. more ≡ false → partial_of self.new ≡ partial_of self.old) }
    {
        match lexer.next()? {
            None => Ok(false),
            Some(token) => {
                self.step(alloc, signature, &token)?;
                Ok(true)
            }
        }
    }

    /// Takes all tokens of a text.
    fn take_all(
        &mut self,
        alloc: Global,
        bytes: &'a [u8],
        signature: &'a Signature,
    ) -> Result<(), PolicyFault>
        ensures { ReadAll result self.new (length bytes.now)
            (reading_on signature.now bytes.now (partial_of self.old)) }
    {
        let mut lexer = Lexer::new(bytes, Mode::Plain);
        while self.take_next(alloc, signature, &mut lexer)? {}
        Ok(())
    }

    /// Takes a whole text.
    fn take_text(
        &mut self,
        alloc: Global,
        bytes: &'a [u8],
        signature: &'a Signature,
    ) -> Result<Policy, PolicyFault>
        ensures { Gives policy_of result (reading_on signature.now bytes.now (partial_of self.old)) }
    {
        self.take_all(alloc, bytes, signature)?;
        self.finish(alloc, bytes.len() as u64)
    }

    /// The policy, where the text ends at the offset.
    #[tactic(auto, unfolding(crate::specs::Views::stage_of, crate::specs::Reading::ended_at))]
    fn finish(&mut self, alloc: Global, end: u64) -> Result<Policy, PolicyFault>
        ensures { Gives policy_of result (ended_at (stage_of self.old.now) (context_of self.old.context) end) }
    {
        match mem::replace(&mut self.now, Stage::ExpectOperand) {
            Stage::AfterOperand(formula) => close(alloc, &mut self.context, formula, end),
            _ => Err(PolicyFault::Syntax(end)),
        }
    }
}

/// The policy of a text, token by token.
fn read<'a>(alloc: Global, bytes: &'a [u8], signature: &'a Signature) -> Result<Policy, PolicyFault>
    ensures { Gives policy_of result (reading bytes.now signature.now) }
{
    let mut parser = Parser::new(alloc);
    parser.take_text(alloc, bytes, signature)
}

/// The policy of a text over the predicates of a signature.
///
/// `PolicyFault` is the first fault from left to right: each is shown by one token, or by the end of the
/// text. Behind `(` only the tokens after it tell whether an interval begins, so faults of such a `(` and
/// of its first number are shown by those.
pub fn read_policy<'a>(
    alloc: Global,
    bytes: &'a [u8],
    signature: &'a Signature,
) -> Result<Policy, PolicyFault>
    ensures exact { Gives policy_of result (reading bytes.now signature.now) }
    ensures value { IfOk result (λ policy. IsValue bytes.now signature.now (policy_of policy)) }
    ensures shown { IfErr result (λ fault. fault ≢ Memory → IsShown bytes.now signature.now fault) }
    ensures columns { IfOk result (λ policy. IsWellSorted signature.now policy.vars (form policy.formula)) }
    ensures few { IfOk result (λ policy. length policy.vars ≤ max_free) }
{
    read(alloc, bytes, signature)
}
