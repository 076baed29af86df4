//! A signature, token by token.

ghost use Rattle.std.specs.Prelude.{◌≡◌, ◌≢◌, None, IfErr, IfOk};
ghost use Rattle.mfotl_lex.specs.Lexemes.{lexeme};
ghost use Rattle.mfotl_sig.specs.declared.fault.SigFault.TheVariants.{Memory};
ghost use Rattle.mfotl_sig.specs.Answers.{Gives};
ghost use Rattle.mfotl_sig.specs.Laws.{IsShown};
ghost use Rattle.mfotl_sig.specs.Reading.{step, begins, at_end, tokens_read, reading, nothing_read};
ghost use Rattle.mfotl_sig.specs.Rules.{IsValue};

use crate::arguments::{Arguments, Progress};
use crate::fault::SigFault;
use crate::limits::MAX_PREDICATES;
use crate::signature::Signature;
use mfotl_lex::{Kind, Lexer, Mode, Token};
use std::alloc::Global;
use std::marker::Model;

/// A predicate of which a part was read.
#[derive(Drop)]
pub struct Draft<'a> {
    pub name: &'a [u8],
    pub arguments: Arguments,
}

/// The whole predicates read so far, and a part of the one behind them.
#[derive(Drop)]
struct Reader<'a> {
    done: Signature,
    draft: Option<Draft<'a>>,
}

impl<'a> Model for Reader<'a> {
    ghost use Rattle.std.specs.Prelude.{option_map};
    ghost use Rattle.mfotl_sig.specs.Answers.{draft_of};
    ghost use Rattle.mfotl_sig.specs.Reading.{Partial, HasNewName};

    ghost Value = { Partial };

    ghost view = { λ r. record { done = r.done; draft = option_map draft_of r.draft } };

    ghost invariant = { λ r. HasNewName r.done (option_map draft_of r.draft) };
}

impl<'a> Reader<'a> {
    fn new(alloc: Global) -> Self
        ensures { result ≡ nothing_read }
    {
        Reader {
            done: Signature::new(alloc),
            draft: None,
        }
    }

    /// Takes the next token.
    #[tactic(auto, unfolding(crate::specs::Reading::step))]
    fn step(&mut self, alloc: Global, token: &Token<'a>) -> Result<(), SigFault>
        ensures { Gives (λ _. self.new) result (step self.old (lexeme token.now)) }
    {
        match self.draft.take() {
            None => self.begin(alloc, token),
            Some(Draft { name, arguments }) => {
                match arguments.step(token)? {
                    Progress::Open(arguments) => self.draft = Some(Draft { name, arguments }),
                    Progress::Closed(sorts) => self.done.add(alloc, name, sorts)?,
                }
                Ok(())
            }
        }
    }

    /// Takes a predicate's name.
    fn begin(&mut self, alloc: Global, token: &Token<'a>) -> Result<(), SigFault>
        requires { self.old.draft ≡ None }
        ensures { Gives (λ _. self.new) result
            (begins self.old.done (lexeme token.now) token.now.kind) }
    {
        match token.kind {
            Kind::Word if self.done.find(token.text).is_some() => {
                Err(SigFault::RepeatedName(token.at as u64))
            }
            Kind::Word if self.done.len() >= MAX_PREDICATES => {
                Err(SigFault::TooMany(token.at as u64))
            }
            Kind::Word => {
                self.draft = Some(Draft {
                    name: token.text,
                    arguments: Arguments::new(alloc),
                });
                Ok(())
            }
            _ => Err(SigFault::Syntax(token.at as u64)),
        }
    }

    /// Takes all tokens of a text.
    #[tactic(auto, using(crate::proofs::ReadingLemmas::token_by_token))]
    fn read(&mut self, alloc: Global, bytes: &'a [u8]) -> Result<(), SigFault>
        ensures { Gives (λ _. self.new) result (tokens_read bytes.now self.old) }
    {
        let mut lexer = Lexer::new(bytes, Mode::Plain);
        while let Some(token) = lexer.next()? {
            self.step(alloc, &token)?;
        }
        Ok(())
    }

    /// The signature, where the input's end stands at `end`.
    fn finish(self, end: u64) -> Result<Signature, SigFault>
        ensures { Gives (λ s. s) result (at_end end self.entry.done self.entry.draft) }
    {
        match self.draft {
            None => Ok(self.done),
            Some(_) => Err(SigFault::Syntax(end)),
        }
    }
}

/// The signature of a text.
///
/// `SigFault` is the first fault from left to right, each shown by one token: `UnknownSort` of a Word
/// that might be a label by the token behind it.
#[tactic(auto, using(crate::proofs::SignatureLaws::value_given, crate::proofs::SignatureLaws::fault_shown))]
pub fn read_signature(alloc: Global, bytes: &[u8]) -> Result<Signature, SigFault>
    ensures reads { Gives (λ s. s) result (reading bytes.now) }
    ensures value { IfOk result (λ s. IsValue bytes.now s) }
    ensures shown { IfErr result (λ fault. fault ≢ Memory → IsShown bytes.now fault) }
{
    read_whole(alloc, bytes)
}

#[tactic(auto, using(crate::proofs::ReadingLemmas::end_behind, crate::proofs::ReadingLemmas::ends_fail))]
fn read_whole(alloc: Global, bytes: &[u8]) -> Result<Signature, SigFault>
    ensures { Gives (λ s. s) result (reading bytes.now) }
{
    let mut reader = Reader::new(alloc);
    reader.read(alloc, bytes)?;
    reader.finish(bytes.len() as u64)
}
