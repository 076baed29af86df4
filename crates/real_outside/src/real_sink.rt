//! A real stream to write to, about whose bytes a sink tells nothing.
ghost use Rattle.std.specs.Prelude.{◌≡◌, ◌<◌, ◌≤◌, [], length, take, IfOk, OnErr, OnOk};
ghost use Rattle.std.specs.Io.KnownBytes.{Keeps, WriteAppends};
ghost use Rattle.mon_outside.specs.Causes.{HasCause};
ghost use Rattle.mon_outside.specs.Sink.{Appends};
ghost use Rattle.real_outside.specs.Real.{count_after, none_held, untold};

use crate::retrying::{flush_all, one_more, write_some};
use mon_outside::{Failed, Sink};
use std::io::Write;

/// A stream to write to.
#[derive(Drop)]
pub struct RealSink<W: Write + Drop> {
    stream: W,
    failures: u64,
}

impl<W: Write + Drop> RealSink<W> {
    /// No call has failed, and nothing is written here. The stream is one that keeps nothing back itself, as the
    /// standard streams do.
    pub fn new(stream: W) -> Self
        ensures stream { result.stream ≡ stream }
        ensures unfailed { result.failures ≡ 0 }
    {
        RealSink {
            stream,
            failures: 0,
        }
    }
}

impl<W: Write + Drop> Sink for RealSink<W> {
    ghost written = { untold };

    ghost held = { none_held };

    ghost faults = { λ s. s.failures };

    // Beside what each sink keeps to: what the stream tells has grown by what was taken.
    fn write(&mut self, piece: &[u8]) -> Result<usize, Failed>
        ensures within { IfOk result (λ count. count ≤ length piece.now) }
        ensures some { IfOk result (λ count. 0 < length piece.now → 0 < count) }
        ensures appends { IfOk result (λ count.
            Appends (untold self.old) (untold self.new) (take count piece.now)) }
        ensures failed { OnErr result (untold self.new ≡ untold self.old) }
        ensures cause { HasCause self.old.failures self.new.failures result }
        ensures counted { self.new.failures ≡ count_after self.old.failures result }
        ensures told { WriteAppends (W.contents self.old.stream) (W.contents self.new.stream)
            result piece.now }
    {
        let wrote = write_some(&mut self.stream, piece);
        if wrote.is_err() {
            self.failures = one_more(self.failures);
        }
        wrote
    }

    fn flush(&mut self) -> Result<(), Failed>
        ensures handed_on { OnOk result (none_held self.new ≡ []) }
        ensures cause { HasCause self.old.failures self.new.failures result }
        ensures counted { self.new.failures ≡ count_after self.old.failures result }
        ensures told { Keeps (W.contents self.old.stream) (W.contents self.new.stream) }
    {
        let flushed = flush_all(&mut self.stream);
        if flushed.is_err() {
            self.failures = one_more(self.failures);
        }
        flushed
    }
}
