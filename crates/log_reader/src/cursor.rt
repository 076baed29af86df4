//! The walk over a log's tokens, up to a whole time-point or a fault.
ghost use Rattle.std.specs.Prelude.{◌≡◌, ◌+◌, ◌<◌, ◌≤◌, ◌^◌, [], List, false, length, Ok, OnOk};
ghost use Rattle.mfotl_lex.specs.Lexemes.{lexeme};
ghost use Rattle.log_reader.specs.declared.limits.Limits.{Limits as LimitsOf};
ghost use Rattle.mfotl_sig.specs.Preds.{PredOf};
ghost use Rattle.log_reader.specs.declared.next.Next.TheVariants.{More};
ghost use Rattle.log_reader.specs.Partials.{nothing_read};
ghost use Rattle.log_reader.specs.Soundness.{IsInStretch, AnswersDue, StandsOn, is_wanting, CountsOn};
ghost use Rattle.log_reader.specs.Cursors.{StepsOver, TakesToken, AdvancesToPoint, IsCounted, Leads, given_of};
ghost use Rattle.log_reader.specs.Groups.{LeadsOn};
ghost use Rattle.log_reader.specs.Stretches.{Waits};

use crate::fault::LogFault;
use crate::found::token_at;
use crate::grammar::read_on;
use crate::limits::{Limits, Look};
use crate::next::Next;
use crate::partial::Partial;
use crate::plain_tokens::blank_before;
use crate::straight::Straight;
use crate::stretch::Stretch;
use mfotl_lex::Token;
use mfotl_model::TimePoint;
use mfotl_sig::Signature;
use std::alloc::{AllocError, Global};

/// What a token did.
#[derive(Drop)]
pub enum TokenStep {
    /// It was taken.
    Took,
    /// It completed a time-point.
    Completed(TimePoint),
    /// There is no whole token.
    Empty,
}

/// An offset in bytes of a log, and what was read before it.
#[derive(Drop)]
pub struct Cursor<'a> {
    pub at: usize,
    pub partial: Partial<'a>,
}

impl<'a> Cursor<'a> {
    pub fn new(alloc: Global) -> Self
        ensures at { result.at ≡ 0 }
        ensures partial { result.partial ≡ nothing_read }
    {
        Cursor {
            at: 0,
            partial: Partial::new(alloc),
        }
    }

    // Takes a token, behind which this offset is.
    fn take(
        &mut self,
        alloc: Global,
        sig: &'a Signature,
        limits: &Limits,
        token: &Token,
        behind: usize,
    ) -> Result<TokenStep, LogFault>
        ensures { StepsOver sig.now limits.now (lexeme token.now) behind self.old.at
            self.old.partial result self.new.at self.new.partial }
    {
        if self.partial.is_completed_by(token) {
            self.at = read_on(token.kind, self.at, behind);
            return Ok(TokenStep::Completed(self.partial.finish(alloc)));
        }
        self.partial.step(alloc, sig, limits, token)?;
        self.at = behind;
        Ok(TokenStep::Took)
    }

    // Takes a token, straight from the bytes if it can be, behind one blank at most.
    fn take_token(
        &mut self,
        alloc: Global,
        look: Look<'_>,
        sig: &'a Signature,
        limits: &Limits,
    ) -> Result<TokenStep, LogFault>
        requires within { self.old.at ≤ length look.bytes.now }
        requires small { look.from + length look.bytes.now < 2 ^ 63 }
        requires counted { IsCounted self.old.partial }
        ensures { TakesToken sig.now limits.now look.entry.from look.entry.bytes.now look.entry.ended
            self.old.at self.old.partial result self.new.at self.new.partial }
    {
        let (_, front) = look.bytes.split_at(self.at);
        let blanks = blank_before(front);
        let (_, rest) = front.split_at(blanks);
        let place = look.from + self.at + blanks;
        match self.partial.take_straight(alloc, sig, limits, place, rest) {
            Ok(Straight::Took(count)) => {
                self.at += blanks + count;
                Ok(TokenStep::Took)
            }
            Ok(Straight::Completed(point)) => Ok(TokenStep::Completed(point)),
            Ok(Straight::Nothing) => self.lex_token(alloc, look, sig, limits),
            Err(fault) => Err(fault),
        }
    }

    fn lex_token(
        &mut self,
        alloc: Global,
        look: Look<'_>,
        sig: &'a Signature,
        limits: &Limits,
    ) -> Result<TokenStep, LogFault>
        requires within { self.old.at ≤ length look.bytes.now }
        requires small { look.from + length look.bytes.now < 2 ^ 63 }
        requires counted { IsCounted self.old.partial }
        ensures { TakesToken sig.now limits.now look.entry.from look.entry.bytes.now look.entry.ended
            self.old.at self.old.partial result self.new.at self.new.partial }
    {
        let found = match token_at(look, self.at) {
            Ok(found) => found,
            Err(fault) => return Err(LogFault::Lex(fault)),
        };
        match found.token {
            Some(token) => self.take(alloc, sig, limits, &token, found.behind),
            None => {
                // Blanks that nothing stands behind are done with.
                self.at = found.behind;
                Ok(TokenStep::Empty)
            }
        }
    }

    // Takes a timestamp straight from the bytes, if it stands there behind an `@`.
    fn take_stamp(&mut self, look: Look<'_>)
        requires within { self.old.at ≤ length look.bytes.now }
        requires small { look.from + length look.bytes.now < 2 ^ 63 }
        requires counted { IsCounted self.old.partial }
        ensures leads { (sig : List PredOf) (limits : LimitsOf) → Leads sig limits look.entry.from look.entry.bytes.now
            look.entry.ended self.old.at self.old.partial [] self.new.at self.new.partial }
        ensures within { self.new.at ≤ length look.entry.bytes.now }
        ensures counted { IsCounted self.new.partial }
        ensures further { self.old.at ≤ self.new.at }
    {
        let (_, rest) = look.bytes.split_at(self.at);
        match self.partial.take_stamp(look.from + self.at, rest) {
            Some(count) => self.at += count,
            None => {}
        }
    }

    // Takes groups straight from the bytes, as long as they stand there.
    #[tactic(auto, using(crate::proofs::GroupLemmas::lead_stay, crate::proofs::GroupLemmas::lead_further))]
    fn take_groups(
        &mut self,
        alloc: Global,
        look: Look<'_>,
        limits: &Limits,
    ) -> Result<(), AllocError>
        requires within { self.old.at ≤ length look.bytes.now }
        requires small { look.from + length look.bytes.now < 2 ^ 63 }
        requires counted { IsCounted self.old.partial }
        ensures { OnOk result (LeadsOn limits.now look.entry.from look.entry.bytes.now look.entry.ended
            self.old.at self.old.partial self.new.at self.new.partial) }
    {
        while let Some(behind) = self.partial.take_group(alloc, limits, look, self.at)? {
            self.at = behind;
        }
        Ok(())
    }

    /// Takes tokens until one completes a time-point, or no whole one is left. A fault leaves the cursor
    /// before the token that shows it.
    pub fn advance(
        &mut self,
        alloc: Global,
        look: Look<'_>,
        sig: &'a Signature,
        limits: &Limits,
    ) -> Result<Option<TimePoint>, LogFault>
        requires within { self.old.at ≤ length look.bytes.now }
        requires small { look.from + length look.bytes.now < 2 ^ 63 }
        requires counted { IsCounted self.old.partial }
        ensures { AdvancesToPoint sig.now limits.now look.entry.from look.entry.bytes.now look.entry.ended
            self.old.at self.old.partial result self.new.at self.new.partial }
    {
        loop {
            match self.take_token(alloc, look, sig, limits) {
                Ok(TokenStep::Took) => {
                    self.take_stamp(look);
                    self.take_groups(alloc, look, limits)?;
                }
                Ok(TokenStep::Completed(point)) => return Ok(Some(point)),
                Ok(TokenStep::Empty) => return Ok(None),
                Err(fault) => return Err(fault),
            }
        }
    }

    /// The next time-point of what is kept, or what stands behind the last one. Want of memory leaves the
    /// cursor where it is of no more use.
    pub fn read(
        &mut self,
        alloc: Global,
        kept: &Stretch,
        ended: bool,
        sig: &'a Signature,
        limits: &Limits,
    ) -> Result<Next, LogFault>
        requires { IsInStretch limits.now kept.now self.old.at self.old.partial }
        ensures answer { AnswersDue sig.now limits.now ended kept.now self.old.at self.old.partial result }
        ensures stands { is_wanting result ≡ false → StandsOn sig.now limits.now ended kept.now
            self.old.at self.old.partial self.new.at self.new.partial }
        ensures within { is_wanting result ≡ false
            → IsInStretch limits.now kept.now self.new.at self.new.partial }
        ensures counts { CountsOn (given_of self.old.partial) result (given_of self.new.partial) }
        ensures waits { result ≡ Ok More → Waits limits.now kept.now self.new.at }
    {
        let look = limits.look_at(kept, ended);
        match self.advance(alloc, look, sig, limits) {
            Ok(Some(point)) => Ok(Next::Point(point)),
            Ok(None) => self.partial.end(alloc, limits, kept.end(), ended),
            Err(fault) => Err(fault),
        }
    }
}
