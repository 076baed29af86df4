//! A strategy, token by token.
ghost use Rattle.std.specs.Prelude.{◌≡◌, ◌≢◌, IfErr, IfOk, length, replicate};
ghost use Rattle.mfotl_model.specs.Strategies.Entry.{Uncut};
ghost use Rattle.slice_strategy.specs.Entries.{HasWorkers, entries_of};
ghost use Rattle.mfotl_lex.specs.Lexemes.{lexeme};
ghost use Rattle.slice_strategy.specs.Answers.{Fails, Gives};
ghost use Rattle.slice_strategy.specs.declared.fault.StrategyFault.TheVariants.{Memory};
ghost use Rattle.slice_strategy.specs.ChangeReading.{may_begin};
ghost use Rattle.slice_strategy.specs.Laws.{IsShown};
ghost use Rattle.slice_strategy.specs.Rules.{IsValue};
ghost use Rattle.slice_strategy.specs.Reading.{step, entry_settled, ended, at_end, broken_at, nothing_read, reading};

use crate::entry::{Entry, count_workers};
use crate::fault::StrategyFault;
use crate::limits::MAX_WORKERS;
use crate::stage::Stage;
use crate::strategy::Strategy;
use mfotl_lex::{Kind, Lexer, Mode, Token};
use mfotl_model::{Policy, Var};
use std::alloc::{AllocError, Global};
use std::marker::Model;

/// The entries that are settled, by variable, and a part of the next one.
#[derive(Drop)]
pub struct Reader {
    entries: Vec<Entry>,
    stage: Stage,
}

impl Model for Reader {
    ghost use Rattle.slice_strategy.specs.Answers.{stage_of};
    ghost use Rattle.slice_strategy.specs.Entries.{entries_of};
    ghost use Rattle.slice_strategy.specs.Reading.{Partial, PartialFits};

    ghost Value = { Partial };

    ghost view = { λ r. record { entries = entries_of r.entries.items; stage = stage_of r.stage } };

    ghost invariant = { λ r. PartialFits (record { entries = entries_of r.entries.items; stage = stage_of r.stage }) };
}

fn uncut(alloc: Global, count: usize) -> Result<Vec<Entry>, AllocError>
    ensures { IfOk result (λ entries. entries_of entries.items ≡ replicate count Uncut) }
{
    let mut entries = Vec::with_capacity(alloc, count)?;
    for _ in 0..count {
        entries.push(Entry::Uncut)?;
    }
    Ok(entries)
}

impl Reader {
    pub(crate) fn new(alloc: Global, vars: &[Var]) -> Result<Self, AllocError>
        ensures { IfOk result (λ reader. reader ≡ nothing_read vars.now) }
    {
        Ok(Reader {
            entries: uncut(alloc, vars.len())?,
            stage: Stage::Between,
        })
    }

    /// Takes the next token.
    #[tactic(auto, unfolding(crate::specs::Reading::step))]
    pub(crate) fn step(
        self,
        alloc: Global,
        vars: &[Var],
        token: &Token,
    ) -> Result<Self, StrategyFault>
        ensures { Gives (λ reader. reader) result (step vars.now self (lexeme token.now)) }
    {
        let Reader { entries, stage } = self.settled(token.kind)?;
        let stage = stage.step(alloc, vars, entries.as_slice(), token)?;
        Ok(Reader { entries, stage })
    }

    /// Only a comma leaves an entry open that is behind an integer.
    fn settled(self, kind: Kind) -> Result<Self, StrategyFault>
        ensures { Gives (λ reader. reader) result (entry_settled self kind) }
    {
        match kind {
            Kind::Comma => Ok(self),
            _ => self.ended(),
        }
    }

    /// No more of the open entry comes.
    pub(crate) fn ended(self) -> Result<Self, StrategyFault>
        ensures { Gives (λ reader. reader) result (ended self.entries self.stage) }
    {
        let Reader { mut entries, stage } = self;
        match stage {
            Stage::Behind(head, entry) => {
                entries[head.variable] = entry;
                if count_workers(entries.as_slice()) > MAX_WORKERS {
                    return Err(StrategyFault::TooManyWorkers(head.at));
                }
                Ok(Reader {
                    entries,
                    stage: Stage::Between,
                })
            }
            stage => Ok(Reader { entries, stage }),
        }
    }

    pub(crate) fn finish(self, end: u64) -> Result<Strategy, StrategyFault>
        ensures { Gives (λ s. s) result (at_end end self) }
    {
        let Reader { entries, stage } = self.ended()?;
        match stage {
            Stage::Between => Ok(Strategy::new(entries)),
            _ => Err(StrategyFault::Syntax(end)),
        }
    }

    /// Whether an entry may begin with the next token.
    pub(crate) fn may_begin(&self) -> bool
        ensures { result ≡ may_begin self.now.stage }
    {
        matches!(self.stage, Stage::Between | Stage::Behind(..))
    }

    /// The strategy of the entries that are settled.
    pub(crate) fn into_strategy(self) -> Strategy
        ensures { result ≡ self.entries }
    {
        Strategy::new(self.entries)
    }

    /// Where the lexer has a fault at this offset.
    pub(crate) fn broken(self, at: u64) -> StrategyFault
        ensures { Fails result (broken_at self at) }
    {
        match self.ended() {
            Ok(_) => StrategyFault::Syntax(at),
            Err(fault) => fault,
        }
    }
}

/// The strategy of a text over these variables, or its first fault.
fn read_strategy(alloc: Global, bytes: &[u8], vars: &[Var]) -> Result<Strategy, StrategyFault>
    ensures { Gives (λ s. s) result (reading vars.now bytes.now) }
{
    let mut reader = Reader::new(alloc, vars)?;
    let mut lexer = Lexer::new(bytes, Mode::Plain);
    loop {
        match lexer.next() {
            Ok(Some(token)) => reader = reader.step(alloc, vars, &token)?,
            Ok(None) => return reader.finish(bytes.len() as u64),
            Err(fault) => return Err(reader.broken(fault.at)),
        }
    }
}

impl Strategy {
    /// The strategy of a text, over a policy's free variables.
    ///
    /// `StrategyFault` is the first fault from left to right, each at the token that shows it, but
    /// `TooManyWorkers` at the Word of the entry, and waiting for what follows its last integer. Where the
    /// lexer has a fault it is `Syntax`.
    pub fn read(alloc: Global, bytes: &[u8], policy: &Policy) -> Result<Self, StrategyFault>
        ensures reads { Gives (λ s. s) result (reading policy.now.vars bytes.now) }
        ensures value { IfOk result (λ s. IsValue policy.now.vars bytes.now s) }
        ensures shown { IfErr result (λ fault. fault ≢ Memory → IsShown policy.now.vars bytes.now fault) }
        ensures sized { IfOk result (λ s. length s ≡ length policy.now.vars) }
        ensures workers { IfOk result HasWorkers }
    {
        read_strategy(alloc, bytes, policy.vars.as_slice())
    }
}
