//! A sink in memory, for tests: it fails at the writes that it is told to fail at.

ghost use Rattle.std.specs.Prelude.{◌≡◌, ◌<◌, ◌≤◌, [], length, take, is_err, is_some, Some, IfOk, IsErr};
ghost use Rattle.std.specs.Prelude.{IsOk, IsTrue, OnErr, OnOk};
ghost use Rattle.mon_outside.specs.Causes.{HasCause};
ghost use Rattle.mon_outside.specs.Sink.{Appends};
ghost use Rattle.mon_outside.specs.Memory.{fails_next, after_call, none_held};

use crate::failing_calls::Calls;
use crate::{Failed, Sink};
use std::alloc::Global;
use std::marker::Model;

/// A sink in memory.
#[derive(Drop)]
pub struct MemSink<'a> {
    written: Vec<u8>,
    calls: Calls<'a>,
}

impl<'a> Model for MemSink<'a> {
    ghost use Rattle.mon_outside.specs.Memory.{MemoryBytes};

    ghost Value = { MemoryBytes };

    ghost view = { λ m. record { written = m.written.items; plan = m.calls } };
}

impl<'a> MemSink<'a> {
    /// A sink to which nothing was written. It takes each piece whole. The writes whose numbers stand in
    /// `fail`, counted from 0, fail, and so does one whose memory is refused.
    pub fn new(alloc: Global, fail: &'a [u64]) -> Self
        ensures { result ≡ record {
          written = [];
          plan = record { fail = fail.now; calls = 0; faults = 0 };
        } }
    {
        MemSink {
            written: Vec::new(alloc),
            calls: Calls::new(fail),
        }
    }

    /// The bytes written.
    pub fn written(&self) -> &[u8]
        ensures { result.now ≡ self.now.written }
    {
        &self.written
    }
}

impl Sink for MemSink<'_> {
    ghost written = { λ m. Some m.written };

    ghost held = { none_held };

    ghost faults = { λ m. m.plan.faults };

    fn write(&mut self, piece: &[u8]) -> Result<usize, Failed>
        ensures within { IfOk result (λ count. count ≤ length piece.now) }
        ensures some { IfOk result (λ count. 0 < length piece.now → 0 < count) }
        ensures appends { IfOk result (λ count.
            Appends (Some self.old.written) (Some self.new.written) (take count piece.now)) }
        ensures failed { OnErr result (Some self.new.written ≡ Some self.old.written) }
        ensures cause { HasCause self.old.plan.faults self.new.plan.faults result }
        ensures whole { IfOk result (λ count. count ≡ length piece.now) }
        ensures fails { IsTrue (fails_next self.old.plan) → IsErr result }
        ensures plan { self.new.plan ≡ after_call self.old.plan (is_err result) }
    {
        let failed = self.calls.fails_next() || self.written.extend_from_slice(piece).is_err();
        self.calls.count(failed);
        if failed {
            return Err(Failed);
        }
        Ok(piece.len())
    }

    fn flush(&mut self) -> Result<(), Failed>
        ensures kept { Some self.new.written ≡ Some self.old.written }
        ensures handed_on { OnOk result (none_held self.new ≡ []) }
        ensures cause { HasCause self.old.plan.faults self.new.plan.faults result }
        ensures same { self.new ≡ self.old }
        ensures ok { IsOk result }
    {
        Ok(())
    }
}
