//! A sink that takes everything and keeps nothing, for a run whose output is not wanted.

ghost use Rattle.std.specs.Prelude.{◌≡◌, ℕ, ◌<◌, ◌≤◌, List, [], length, take, is_some, None, IfOk, IsOk, OnErr, OnOk};
ghost use Rattle.std.specs.declared.option.Option.{Option};
ghost use Rattle.mon_outside.specs.Causes.{HasCause};
ghost use Rattle.mon_outside.specs.Sink.{Appends};

use crate::{Failed, Sink};

/// A sink of which no call fails. It takes each piece whole, keeps nothing of it and tells nothing.
#[derive(Clone, Copy, Debug, Default)]
pub struct SureSink;

impl SureSink {
    /// A sink to which nothing was written.
    pub fn new() -> Self {
        SureSink
    }
}

impl Sink for SureSink {
    ghost written = { λ _. None };

    ghost held = { λ _. [] };

    ghost faults = { λ _. 0 };

    fn write(&mut self, piece: &[u8]) -> Result<usize, Failed>
        ensures within { IfOk result (λ count. count ≤ length piece.now) }
        ensures some { IfOk result (λ count. 0 < length piece.now → 0 < count) }
        ensures cause { HasCause 0 0 result }
        ensures whole { IfOk result (λ count. count ≡ length piece.now) }
        ensures ok { IsOk result }
    {
        Ok(piece.len())
    }

    fn flush(&mut self) -> Result<(), Failed>
        ensures cause { HasCause 0 0 result }
        ensures ok { IsOk result }
    {
        Ok(())
    }
}
