//! A change script, token by token.
ghost use Rattle.std.specs.Prelude.{◌≡◌, ◌≢◌, IfErr, IfOk};
ghost use Rattle.std.specs.List.{AllByRecursion};
ghost use Rattle.mfotl_lex.specs.Lexemes.{lexeme};
ghost use Rattle.slice_strategy.specs.declared.change.ChangeFault.TheVariants.{Strategy as Within};
ghost use Rattle.slice_strategy.specs.declared.fault.StrategyFault.TheVariants.{Memory};
ghost use Rattle.slice_strategy.specs.ChangeLaws.{IsShown};
ghost use Rattle.slice_strategy.specs.ChangeRules.{IsValue};
ghost use Rattle.slice_strategy.specs.ChangeAnswers.{Fails, Gives};
ghost use Rattle.slice_strategy.specs.Entries.{HasWorkers};
ghost use Rattle.slice_strategy.specs.ChangeReading.{breaks, ends, nothing_read, reading, step};

use crate::change::{Change, ChangeFault};
use crate::fault::StrategyFault;
use crate::reading::Reader;
use crate::script_step::{decide, go_on, start};
use mfotl_lex::{Lexer, Mode, Token};
use mfotl_model::{Policy, Var};
use std::alloc::Global;
use std::marker::Model;

/// A change of which a part was read.
#[derive(Drop)]
pub struct Current {
    pub number: u64,
    pub reader: Reader,
}

/// The whole changes, a part of the one behind them, and a Word `before` that may begin the next one.
#[derive(Drop)]
pub(crate) struct Script<'a> {
    pub(crate) done: Vec<Change>,
    pub(crate) current: Option<Current>,
    pub(crate) before: Option<Token<'a>>,
}

impl<'a> Model for Script<'a> {
    ghost use Rattle.std.specs.Prelude.{option_map};
    ghost use Rattle.mfotl_lex.specs.Lexemes.{lexeme};
    ghost use Rattle.slice_strategy.specs.ChangeReading.{ScriptOf};

    ghost Value = { ScriptOf };

    ghost view = { λ s. record { done = s.done.items; current = s.current; before = option_map lexeme s.before } };
}

impl<'a> Script<'a> {
    fn new(alloc: Global) -> Self
        ensures { result ≡ nothing_read }
    {
        Script {
            done: Vec::new(alloc),
            current: None,
            before: None,
        }
    }

    /// Takes the next token.
    #[tactic(auto, unfolding(crate::specs::ChangeReading::step))]
    fn step(self, alloc: Global, vars: &[Var], token: &Token<'a>) -> Result<Self, ChangeFault>
        ensures { Gives (λ s. s) result (step vars.now self.entry (lexeme token.now)) }
    {
        let Script {
            done,
            current,
            before,
        } = self;
        match (before, current) {
            (Some(word), current) => decide(alloc, vars, done, current, &word, token),
            (None, None) => start(done, token),
            (None, Some(current)) => go_on(alloc, vars, done, current, token),
        }
    }

    /// The changes, where the input's end stands at `end`.
    fn finish(self, end: u64) -> Result<Vec<Change>, ChangeFault>
        ensures { Gives (λ changes. changes.items) result
            (ends end self.entry.done self.entry.current self.entry.before) }
    {
        let Script {
            mut done,
            current,
            before,
        } = self;
        match (before, current) {
            (Some(_), _) => Err(ChangeFault::Strategy(StrategyFault::Syntax(end))),
            (None, None) => Ok(done),
            (None, Some(Current { number, reader })) => {
                let strategy = reader.finish(end)?;
                done.push(Change {
                    before: number,
                    strategy,
                })?;
                Ok(done)
            }
        }
    }

    /// Where the lexer has a fault at this offset.
    fn broken(self, at: u64) -> ChangeFault
        ensures { Fails result (breaks at self.entry.done self.entry.current self.entry.before) }
    {
        match (self.before, self.current) {
            (None, Some(current)) => ChangeFault::Strategy(current.reader.broken(at)),
            _ => ChangeFault::Strategy(StrategyFault::Syntax(at)),
        }
    }
}

/// The changes of a text over these variables, or its first fault.
fn read_script(alloc: Global, bytes: &[u8], vars: &[Var]) -> Result<Vec<Change>, ChangeFault>
    ensures { Gives (λ changes. changes.items) result (reading vars.now bytes.now) }
{
    let mut script = Script::new(alloc);
    let mut lexer = Lexer::new(bytes, Mode::Plain);
    loop {
        match lexer.next() {
            Ok(Some(token)) => script = script.step(alloc, vars, &token)?,
            Ok(None) => return script.finish(bytes.len() as u64),
            Err(fault) => return Err(script.broken(fault.at)),
        }
    }
}

/// The changes of a script, in its order, over a policy's free variables.
///
/// `ChangeFault` is the first fault from left to right. A strategy's stand where `Strategy::read` tells them.
/// Behind a Word `before` only the next token tells whether it begins a change or is an entry's name: with an
/// integer come `FallingChange`, and `TooManyChanges` at the Word; with a `=` come the faults of the name.
pub fn read_changes(
    alloc: Global,
    bytes: &[u8],
    policy: &Policy,
) -> Result<Vec<Change>, ChangeFault>
    ensures reads { Gives (λ changes. changes.items) result (reading policy.now.vars bytes.now) }
    ensures value { IfOk result (λ changes. IsValue policy.now.vars bytes.now changes.items) }
    ensures workers { IfOk result (λ changes. AllByRecursion (λ c. HasWorkers c.strategy) changes.items) }
    ensures shown { IfErr result (λ fault. fault ≢ Within Memory → IsShown policy.now.vars bytes.now fault) }
{
    read_script(alloc, bytes, policy.vars.as_slice())
}
