//! The reader that is fed pieces of a log.
ghost use Rattle.std.specs.Prelude.{◌≡◌, ◌≢◌, ◌≤◌, ◌+◌, ◌++◌, [], length, false, true, Ok, OnOk, OnErr, IfErr};
ghost use Rattle.log_reader.specs.declared.fault.LogFault.TheVariants.{Memory};
ghost use Rattle.log_reader.specs.declared.next.Next.TheVariants.{More, End};
ghost use Rattle.log_reader.specs.Given.{Gives};
ghost use Rattle.log_reader.specs.Laws.{IsShown};
ghost use Rattle.log_reader.specs.Readings.{accepted};
ghost use Rattle.log_reader.specs.Rules.{IsValue};
ghost use Rattle.log_reader.specs.Soundness.{is_wanting, is_more};

use crate::cursor::Cursor;
use crate::fault::LogFault;
use crate::limits::Limits;
use crate::next::Next;
use crate::stretch::Stretch;
use mfotl_model::TimePoint;
use mfotl_sig::Signature;
use std::alloc::{AllocError, Global};
use std::marker::Model;

/// Reads the time-points of a log, one at each call.
#[derive(Drop)]
pub struct LogReader<'a> {
    sig: &'a Signature,
    limits: Limits,
    // The bytes that the reader isn't done with.
    kept: Stretch,
    is_fed: bool,
    is_ended: bool,
    is_broken: bool,
    cursor: Cursor<'a>,
}

impl<'a> Model for LogReader<'a> {
    ghost use Rattle.log_reader.specs.Readers.{Reader};
    ghost use Rattle.log_reader.specs.Cursors.{given_of};
    ghost use Rattle.log_reader.specs.Soundness.{IsSoundUnlessBroken};

    ghost Value = { Reader };

    ghost view = { λ r. record {
      sig = r.sig.now;
      limits = r.limits;
      is_fed = r.is_fed;
      is_ended = r.is_ended;
      given = given_of r.cursor.partial;
      is_broken = r.is_broken;
      kept = record { stretch = r.kept; at = r.cursor.at; partial = r.cursor.partial };
    } };

    ghost invariant = { λ r. IsSoundUnlessBroken r.sig.now r.limits
        r.is_fed r.is_ended r.is_broken r.kept r.cursor.at r.cursor.partial };
}

impl<'a> LogReader<'a> {
    ghost use Rattle.std.specs.Prelude.{◌<◌, ◌^◌};
    ghost use Rattle.log_reader.specs.GivenPoints.{GivesPoints};
    ghost use Rattle.log_reader.specs.Limits.{held_limit};
    ghost use Rattle.log_reader.specs.Progress.{nothing_fed, next_answer};
    ghost use Rattle.log_reader.specs.Readers.{Reads, ReadsSameBytes, ForEach, Proceeds, progress, held_bytes};

    /// A reader of a log over these predicates. It takes no memory.
    pub fn new(alloc: Global, sig: &'a Signature, limits: Limits) -> Self
        ensures start { progress result [] ≡ nothing_fed sig.now limits }
        ensures reads { Reads result [] }
    {
        LogReader {
            sig,
            limits,
            kept: Stretch::new(Vec::new(alloc)),
            is_fed: false,
            is_ended: false,
            is_broken: false,
            cursor: Cursor::new(alloc),
        }
    }

    /// Whether bytes were fed.
    pub fn is_fed(&self) -> bool
        ensures { result ≡ self.now.is_fed }
    {
        self.is_fed
    }

    /// Whether the end was told.
    pub fn is_finished(&self) -> bool
        ensures { result ≡ self.now.is_ended }
    {
        self.is_ended
    }

    /// Whether memory was wanting in `next`. Then the reader can only be dropped.
    pub fn is_broken(&self) -> bool
        ensures { result ≡ self.now.is_broken }
    {
        self.is_broken
    }

    /// How many bytes it holds. Where it asks for more these are the front of one token at most.
    pub fn held(&self) -> u64
        ensures { result ≡ held_bytes self.now }
    {
        self.kept.bytes().len() as u64
    }

    /// Says that the bytes fed are all.
    pub fn finish(&mut self)
        ensures ended { self.new ≡ record self.old { is_ended = true; kept = self.new.kept } }
        ensures reads { ForEach self.old (Reads self.new) }
    {
        self.is_ended = true;
    }

    /// Feeds the next bytes of the log, by a copy. However a log is cut into pieces, what is read is the same.
    pub fn feed(&mut self, _alloc: Global, piece: &[u8]) -> Result<(), AllocError>
        requires open { self.old.is_ended ≡ false }
        requires whole { self.old.is_broken ≡ false }
        ensures ok { OnOk result (self.new ≡ record self.old { is_fed = true; kept = self.new.kept }) }
        ensures reads { OnOk result (ForEach self.old (λ bytes. Reads self.new (bytes ++ piece.now))) }
        ensures err { OnErr result (self.new ≡ self.old) }
        ensures held { held_bytes self.new ≤ held_bytes self.old + length piece.now }
    {
        self.kept.append(piece)?;
        self.is_fed = true;
        Ok(())
    }

    /// Feeds the first bytes of the log, and keeps them as they are. It takes no memory.
    pub fn feed_owned(&mut self, alloc: Global, bytes: Vec<u8>)
        requires once { self.old.is_fed ≡ false }
        requires open { self.old.is_ended ≡ false }
        requires whole { self.old.is_broken ≡ false }
        ensures fed { self.new ≡ record self.old { is_fed = true; kept = self.new.kept } }
        ensures reads { ForEach self.old (λ before. Reads self.new (before ++ bytes.items)) }
    {
        self.kept = Stretch::new(bytes);
        self.is_fed = true;
        // Nothing was read before.
        self.cursor = Cursor::new(alloc);
    }

    /// Takes back a time-point that nobody asks for any more: the events of the next one stand in its memory.
    pub fn take_back(&mut self, point: TimePoint)
        ensures { self.new ≡ self.old }
    {
        let TimePoint { ts: _, db } = point;
        self.cursor.partial.take_room(db.into_room());
    }

    /// The next time-point, or the first fault, which is answered again at each later call.
    pub fn next(&mut self, alloc: Global) -> Result<Next, LogFault>
        requires { self.old.is_broken ≡ false }
        ensures answer { ForEach self.old (λ bytes.
            Gives (λ next. next) result (next_answer (progress self.old bytes))) }
        ensures after { Proceeds self.old self.new result }
        ensures reads { ReadsSameBytes self.old self.new result }
        ensures few { OnOk result (self.new.given ≤ self.new.limits.points) }
        ensures narrow { OnOk result (self.new.given < 2 ^ 32) }
        ensures held { result ≡ Ok More → held_bytes self.new ≤ held_limit }
        ensures value { result ≡ Ok End → ForEach self.old (λ bytes. IsValue self.old.sig
            self.old.limits bytes (accepted self.old.sig self.old.limits bytes).points) }
        ensures points { ForEach self.old (λ bytes. GivesPoints (progress self.old bytes) result) }
        ensures shown { IfErr result (λ fault. fault ≢ Memory → ForEach self.old (λ bytes.
            IsShown self.old.sig self.old.limits bytes self.old.is_ended fault)) }
    {
        self.read_point(alloc)
    }

    fn read_point(&mut self, alloc: Global) -> Result<Next, LogFault>
        requires { self.old.is_broken ≡ false }
        ensures answer { ForEach self.old (λ bytes.
            Gives (λ next. next) result (next_answer (progress self.old bytes))) }
        ensures after { Proceeds self.old self.new result }
        ensures reads { ReadsSameBytes self.old self.new result }
        ensures few { OnOk result (self.new.given ≤ self.new.limits.points) }
        ensures narrow { OnOk result (self.new.given < 2 ^ 32) }
        ensures held { result ≡ Ok More → held_bytes self.new ≤ held_limit }
    {
        // Fewer than 2^32, by its type.
        let _most = self.limits.points;
        let answer = self
            .cursor
            .read(alloc, &self.kept, self.is_ended, self.sig, &self.limits);
        self.is_broken = is_wanting(&answer);
        if is_more(&answer) {
            self.kept.forget(self.cursor.at);
            self.cursor.at = 0;
        }
        answer
    }
}

fn is_more(answer: &Result<Next, LogFault>) -> bool
    ensures { result ≡ is_more answer.now }
{
    matches!(answer, Ok(Next::More))
}

fn is_wanting(answer: &Result<Next, LogFault>) -> bool
    ensures { result ≡ is_wanting answer.now }
{
    matches!(answer, Err(LogFault::Memory))
}
