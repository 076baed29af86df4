//! A place that bytes are written to.

ghost use Rattle.std.specs.Prelude.{◌≡◌, ℕ, ◌<◌, ◌≤◌, List, [], length, take, is_some, IsOk, IfOk, OnOk, OnErr};
ghost use Rattle.std.specs.declared.option.Option.{Option};
ghost use Rattle.mon_outside.specs.Causes.{HasCause, StoodStill};
ghost use Rattle.mon_outside.specs.Sink.{Appends, AppendsFront};

use crate::Failed;

/// Bytes go in, in order.
pub trait Sink {
    /// The bytes written, where they are told.
    ghost written: { Self → Option (List ℕ) };

    /// The last of the bytes written, which the sink holds back until it is flushed.
    ghost held: { Self → List ℕ };

    /// How often a call has failed. It never falls.
    ghost faults: { Self → ℕ };

    /// Writes a front of the piece, and answers its length. A device that takes no byte of a piece that
    /// has some has failed.
    fn write(&mut self, piece: &[u8]) -> Result<usize, Failed>
        ensures within { IfOk result (λ count. count ≤ length piece.now) }
        ensures some { IfOk result (λ count. 0 < length piece.now → 0 < count) }
        ensures appends { IfOk result (λ count.
            Appends (written self.old) (written self.new) (take count piece.now)) }
        ensures failed { OnErr result (written self.new ≡ written self.old) }
        ensures tells { is_some (written self.new) ≡ is_some (written self.old) }
        ensures cause { HasCause (faults self.old) (faults self.new) result };

    /// Hands on all that was written and is held back. What could not be handed on is still held.
    fn flush(&mut self) -> Result<(), Failed>
        ensures kept { written self.new ≡ written self.old }
        ensures handed_on { OnOk result (held self.new ≡ []) }
        ensures cause { HasCause (faults self.old) (faults self.new) result };
}

/// Writes all the bytes, in as many pieces as the sink wants.
pub fn write_whole<K: Sink>(sink: &mut K, bytes: &[u8]) -> Result<(), Failed>
    ensures whole { OnOk result (Appends (K.written sink.old) (K.written sink.new) bytes.now) }
    ensures front { OnErr result (AppendsFront (K.written sink.old) (K.written sink.new) bytes.now) }
    ensures cause { HasCause (K.faults sink.old) (K.faults sink.new) result }
    ensures succeeds { StoodStill (K.faults sink.old) (K.faults sink.new) → IsOk result }
{
    let mut rest = bytes;
    while !rest.is_empty() {
        match sink.write(rest) {
            Ok(count) => rest = &rest[count..],
            Err(failed) => return Err(failed),
        }
    }
    Ok(())
}
