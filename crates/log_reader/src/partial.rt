//! The part of a log's time-point that has been read.
ghost use Rattle.std.specs.Prelude.{◌≡◌, ◌++◌, ◌∷◌, [], OnOk};
ghost use Rattle.std.specs.BTreeSet.{insert_key};
ghost use Rattle.mfotl_lex.specs.Lexemes.{lexeme};
ghost use Rattle.mfotl_model.specs.Ascending.{ascending};
ghost use Rattle.mfotl_model.specs.Events.{event_cmp};
ghost use Rattle.log_reader.specs.Stages.{completes};
ghost use Rattle.log_reader.specs.Symbols.{symbol};

use crate::fault::LogFault;
use crate::grammar::{ends_point, is_whole};
use crate::limits::Limits;
use crate::next::Next;
use crate::recent_texts::RecentTexts;
use crate::stage::Stage;
use mfotl_lex::Token;
use mfotl_model::{Db, Event, Row, Sort, TimePoint, Value};
use std::alloc::{AllocError, Global};
use std::marker::Model;
use std::mem;

/// What has been read of a log.
#[derive(Drop)]
pub struct Partial<'a> {
    pub(crate) stage: Stage,
    pub(crate) points: u32,
    pub(crate) time: u64,
    pub(crate) events: Vec<Event>,
    pub(crate) groups: u32,
    pub(crate) pred: u32,
    pub(crate) sorts: &'a [Sort],
    pub(crate) args: Row,
    pub(crate) due: &'a [Sort],
    pub(crate) texts: RecentTexts,
}

impl<'a> Model for Partial<'a> {
    ghost use Rattle.mfotl_model.specs.Ascending.{ascending};
    ghost use Rattle.mfotl_model.specs.Events.{event_cmp};
    ghost use Rattle.log_reader.specs.Partials.{Partial as PartialOf};

    ghost Value = { PartialOf };

    ghost view = { λ p. record {
      stage = p.stage;
      points = p.points;
      time = p.time;
      events = ascending event_cmp p.events.items;
      groups = p.groups;
      pred = p.pred;
      sorts = p.sorts.now;
      args = p.args;
      due = p.due.now;
    } };
}

// Puts an event behind the others, in whatever order they come. A first one takes memory for itself alone: many logs
// have one event at a time-point.
#[tactic(auto, using(mfotl_model::proofs::EventLemmas::event_behind))]
pub(crate) fn push_event(events: &mut Vec<Event>, pred: u32, args: Row) -> Result<(), AllocError>
    ensures { OnOk result (ascending event_cmp events.new.items
        ≡ insert_key event_cmp (ascending event_cmp events.old.items) (record { pred = pred; args = args })) }
{
    if events.is_empty() {
        events.reserve_exact(1)?;
    }
    events.push(Event { pred, args })?;
    Ok(())
}

impl<'a> Partial<'a> {
    ghost use Rattle.log_reader.specs.Partials.{nothing_read, point_of, finished};
    ghost use Rattle.log_reader.specs.Progress.{answer_of};
    ghost use Rattle.log_reader.specs.Readings.{nothing_behind};
    ghost use Rattle.log_reader.specs.Cursors.{behind_answer};

    pub fn new(alloc: Global) -> Self
        ensures { result ≡ nothing_read }
    {
        Partial {
            stage: Stage::Between,
            points: 0,
            time: 0,
            events: Vec::new(alloc),
            groups: 0,
            pred: 0,
            sorts: &[],
            args: Row::empty(),
            due: &[],
            texts: RecentTexts::new(alloc),
        }
    }

    /// Takes room for events, where none stand yet.
    pub fn take_room(&mut self, room: Vec<Event>)
        requires { room.items ≡ [] }
        ensures { self.new ≡ self.old }
    {
        if self.events.is_empty() {
            self.events = room;
        }
    }

    /// Takes the present time-point out.
    pub fn finish(&mut self, alloc: Global) -> TimePoint
        ensures point { result ≡ point_of self.old }
        ensures after { self.new ≡ finished self.old }
    {
        self.stage = Stage::Between;
        self.groups = 0;
        TimePoint {
            ts: self.time,
            db: Db::from_events(mem::replace(&mut self.events, Vec::new(alloc))),
        }
    }

    // Puts a value behind those of the present group.
    pub(crate) fn push(&mut self, alloc: Global, value: Value) -> Result<(), AllocError>
        ensures { OnOk result (self.new ≡ record self.old { args = self.old.args ++ value ∷ [] }) }
    {
        self.args = mem::replace(&mut self.args, Row::empty()).push(alloc, value)?;
        Ok(())
    }

    /// Whether a token completes the present time-point.
    pub fn is_completed_by(&self, token: &Token) -> bool
        ensures { result ≡ completes self.now.stage (symbol (lexeme token.now)) }
    {
        is_whole(self.stage) && ends_point(token.kind, token.content())
    }

    /// What is due where no whole token is left of a log's bytes, `len` of them.
    pub fn end(
        &mut self,
        alloc: Global,
        limits: &Limits,
        len: usize,
        ended: bool,
    ) -> Result<Next, LogFault>
        ensures answer { result ≡ answer_of ended (nothing_behind limits.now len ended self.old) }
        ensures after { self.new ≡ behind_answer self.old result }
    {
        if limits.is_past(len) {
            return Err(LogFault::TooLong(limits.bytes));
        }
        if !ended {
            return Ok(Next::More);
        }
        match self.stage {
            Stage::Between => Ok(Next::End),
            Stage::AfterStamp | Stage::AfterClose => Ok(Next::Point(self.finish(alloc))),
            _ => Err(LogFault::Syntax(len as u64)),
        }
    }
}
