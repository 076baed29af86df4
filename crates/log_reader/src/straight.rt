//! What is taken straight from a log's bytes, without a token.
ghost use Rattle.std.specs.Prelude.{◌≡◌, true};
ghost use Rattle.log_reader.specs.Quick.{TakesStraight, TakesInteger, TakesMark, TakesWord};
ghost use Rattle.log_reader.specs.Stages.{is_whole};

use crate::fault::LogFault;
use crate::grammar::is_whole;
use crate::limits::Limits;
use crate::partial::Partial;
use crate::plain_tokens::word_before;
use crate::short_numbers::integer_before;
use crate::stage::Stage;
use mfotl_model::{Sort, TimePoint, Value};
use mfotl_sig::Signature;
use std::alloc::{AllocError, Global};

/// What was taken straight from a log's bytes.
#[derive(Drop)]
pub enum Straight {
    /// Nothing: only a token says what stands there.
    Nothing,
    /// So many bytes.
    Took(usize),
    /// A time-point, which an `@` there completes.
    Completed(TimePoint),
}

impl<'a> Partial<'a> {
    /// Takes what stands at the front of bytes straight from them, if it is a mark, a plain Word or a number of
    /// few digits, and may stand there. It does what the token would do.
    pub fn take_straight(
        &mut self,
        alloc: Global,
        sig: &'a Signature,
        limits: &Limits,
        at: usize,
        bytes: &[u8],
    ) -> Result<Straight, LogFault>
        ensures { TakesStraight sig.now limits.now self.old at bytes.now result self.new }
    {
        match self.stage {
            Stage::AfterAt => Ok(match self.take_stamp(at, bytes) {
                Some(count) => Straight::Took(count),
                None => Straight::Nothing,
            }),
            Stage::AfterOpen | Stage::AfterComma => Ok(self.take_integer(alloc, bytes)?),
            _ => self.take_marked(alloc, sig, limits, at, bytes),
        }
    }

    fn take_integer(&mut self, alloc: Global, bytes: &[u8]) -> Result<Straight, AllocError>
        ensures { TakesInteger self.old bytes.now result self.new }
    {
        match self.due {
            [Sort::Int, due @ ..] => match integer_before(bytes) {
                Some((value, count)) => {
                    self.push(alloc, Value::Int(value))?;
                    self.stage = Stage::AfterValue;
                    self.due = due;
                    Ok(Straight::Took(count))
                }
                None => Ok(Straight::Nothing),
            },
            _ => Ok(Straight::Nothing),
        }
    }

    fn take_marked(
        &mut self,
        alloc: Global,
        sig: &'a Signature,
        limits: &Limits,
        at: usize,
        bytes: &[u8],
    ) -> Result<Straight, LogFault>
        ensures { TakesStraight sig.now limits.now self.old at bytes.now result self.new }
    {
        let [first, ..] = bytes else {
            return Ok(Straight::Nothing);
        };
        match self.take_mark(limits, at as u64, *first) {
            Some(stepped) => match stepped {
                Ok(()) => Ok(Straight::Took(1)),
                Err(fault) => Err(fault),
            },
            None if !is_whole(self.stage) => Ok(Straight::Nothing),
            None if *first == b'@' => Ok(Straight::Completed(self.finish(alloc))),
            None => self.take_name(sig, at, bytes),
        }
    }

    fn take_name(
        &mut self,
        sig: &'a Signature,
        at: usize,
        bytes: &[u8],
    ) -> Result<Straight, LogFault>
        requires { is_whole self.old.stage ≡ true }
        ensures { TakesWord sig.now self.old at bytes.now result self.new }
    {
        match word_before(bytes, at) {
            Some(word) => match self.name(sig, at as u64, word.text) {
                Ok(()) => Ok(Straight::Took(word.text.len())),
                Err(fault) => Err(fault),
            },
            None => Ok(Straight::Nothing),
        }
    }

    // Takes a mark straight by its byte, where its stage awaits it and it completes no time-point. It does what the
    // token would do.
    fn take_mark(&mut self, limits: &Limits, at: u64, b: u8) -> Option<Result<(), LogFault>>
        ensures { TakesMark limits.now self.old at b result self.new }
    {
        match self.stage {
            Stage::AfterValue if b == b',' => Some(self.separate()),
            Stage::AfterValue if b == b')' => Some(self.end_group(at)),
            Stage::AfterName if b == b'(' => Some(self.begin_group(limits, at)),
            Stage::AfterClose if b == b'(' => Some(self.begin_group(limits, at)),
            Stage::Between if b == b'@' => Some(self.open(limits, at)),
            _ => None,
        }
    }
}
