//! What the next token does to what has been read.
ghost use Rattle.std.specs.Prelude.{◌≡◌, Ok};
ghost use Rattle.mfotl_lex.specs.Lexemes.{lexeme};
ghost use Rattle.mfotl_sig.specs.Preds.{named};
ghost use Rattle.log_reader.specs.Given.{StateMoves};
ghost use Rattle.log_reader.specs.Partials.{finished};
ghost use Rattle.log_reader.specs.Steps.{point_opened, stamped, naming, grouped, valued, group_closed, step};
ghost use Rattle.log_reader.specs.Symbols.{written};
ghost use Rattle.log_reader.specs.ValuesRead.{timestamp_of};

use crate::fault::LogFault;
use crate::grammar::stage_behind;
use crate::limits::Limits;
use crate::partial::{Partial, push_event};
use crate::stage::Stage;
use crate::values::{timestamp_of, value_at};
use mfotl_lex::Token;
use mfotl_model::Row;
use mfotl_sig::Signature;
use std::alloc::Global;
use std::mem;

impl<'a> Partial<'a> {
    /// Takes a token. A fault that it shows leaves everything as it is.
    #[tactic(auto, unfolding(crate::specs::Steps::step))]
    pub fn step(
        &mut self,
        alloc: Global,
        sig: &'a Signature,
        limits: &Limits,
        token: &Token,
    ) -> Result<(), LogFault>
        ensures { StateMoves self.old self.new result (step sig.now limits.now self.old (lexeme token.now)) }
    {
        let at = token.at as u64;
        let content = token.content();
        match stage_behind(self.stage, token.kind, content) {
            None => Err(LogFault::Syntax(at)),
            Some(Stage::AfterAt) => self.open(limits, at),
            Some(Stage::AfterStamp) => self.stamp(at, content),
            Some(Stage::AfterName) => self.name(sig, at, content),
            Some(Stage::AfterOpen) => self.begin_group(limits, at),
            Some(Stage::AfterValue) => self.take_value(alloc, token),
            Some(Stage::AfterComma) => self.separate(),
            Some(Stage::AfterClose) => self.end_group(at),
            Some(Stage::Between) => self.leave(alloc),
        }
    }

    pub(crate) fn open(&mut self, limits: &Limits, at: u64) -> Result<(), LogFault>
        ensures { StateMoves self.old self.new result (point_opened limits.now at self.old) }
    {
        if self.points >= limits.points {
            return Err(LogFault::TooManyPoints(at));
        }
        self.stage = Stage::AfterAt;
        self.points += 1;
        self.events.clear();
        self.groups = 0;
        Ok(())
    }

    fn stamp(&mut self, at: u64, digits: &[u8]) -> Result<(), LogFault>
        ensures { StateMoves self.old self.new result (stamped at self.old (timestamp_of digits.now)) }
    {
        match timestamp_of(digits) {
            None => Err(LogFault::TimestampRange(at)),
            Some(time) if time < self.time => Err(LogFault::FallingTime {
                before: self.time,
                now: time,
                at,
            }),
            Some(time) => {
                self.stage = Stage::AfterStamp;
                self.time = time;
                Ok(())
            }
        }
    }

    pub(crate) fn name(&mut self, sig: &'a Signature, at: u64, name: &[u8]) -> Result<(), LogFault>
        ensures { StateMoves self.old self.new result (naming at self.old (named name.now sig.now)) }
    {
        match sig.find(name) {
            None => Err(LogFault::UnknownPredicate(at)),
            Some(pred) => {
                self.stage = Stage::AfterName;
                self.pred = pred.number;
                self.sorts = pred.sorts.as_slice();
                Ok(())
            }
        }
    }

    pub(crate) fn begin_group(&mut self, limits: &Limits, at: u64) -> Result<(), LogFault>
        ensures { StateMoves self.old self.new result (grouped limits.now at self.old) }
    {
        if self.groups >= limits.events {
            return Err(LogFault::TooManyEvents(at));
        }
        self.stage = Stage::AfterOpen;
        self.groups += 1;
        self.due = self.sorts;
        Ok(())
    }

    fn take_value(&mut self, alloc: Global, token: &Token) -> Result<(), LogFault>
        ensures { StateMoves self.old self.new result
            (valued token.now.at (written (lexeme token.now)) self.old self.old.due) }
    {
        let at = token.at as u64;
        match self.due {
            [] => Err(LogFault::WrongArity(at)),
            [sort, due @ ..] => {
                let value = value_at(
                    alloc,
                    &mut self.texts,
                    *sort,
                    at,
                    token.kind,
                    token.content(),
                )?;
                self.push(alloc, value)?;
                self.stage = Stage::AfterValue;
                self.due = due;
                Ok(())
            }
        }
    }

    pub(crate) fn separate(&mut self) -> Result<(), LogFault>
        ensures { StateMoves self.old self.new result (Ok (record self.old { stage = Stage.AfterComma })) }
    {
        self.stage = Stage::AfterComma;
        Ok(())
    }

    pub(crate) fn end_group(&mut self, at: u64) -> Result<(), LogFault>
        ensures { StateMoves self.old self.new result (group_closed at self.old self.old.due) }
    {
        if !self.due.is_empty() {
            return Err(LogFault::WrongArity(at));
        }
        let args = mem::replace(&mut self.args, Row::empty());
        push_event(&mut self.events, self.pred, args)?;
        self.stage = Stage::AfterClose;
        Ok(())
    }

    fn leave(&mut self, alloc: Global) -> Result<(), LogFault>
        ensures { StateMoves self.old self.new result (Ok (finished self.old)) }
    {
        let _ = self.finish(alloc);
        Ok(())
    }
}
