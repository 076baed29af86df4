//! A sink that gathers what is written, and hands it on in large pieces.

ghost use Rattle.std.specs.Prelude.{◌≡◌, ◌≤◌, ◌++◌, [], drop, length, if◌then◌else◌, IfOk, OnOk};
ghost use Rattle.mon_outside.specs.Causes.{HasCause};
ghost use Rattle.mon_outside.specs.Buffered.{written_or_held};

use crate::limits::BUFFER;
use crate::{Failed, Sink};
use std::alloc::{AllocError, Global};
use std::marker::Model;

/// Gathers what is written, and hands it on to another sink where it is flushed or its room is used up.
#[derive(Drop)]
pub struct BufferedSink<K: Sink + Drop> {
    inner: K,
    held: Vec<u8>,
}

impl<K: Sink + Drop> Model for BufferedSink<K> {
    ghost use Rattle.mon_outside.specs.Buffered.{Buffered};

    ghost Value = { Buffered K };

    ghost view = { λ b. record { inner = b.inner; held = b.held.items } };
}

// Drops the first `count` bytes.
fn remove_front(bytes: &mut Vec<u8>, count: usize)
    requires { count ≤ length bytes.old.items }
    ensures { bytes.new.items ≡ drop count bytes.old.items }
{
    let rest = bytes.len() - count;
    bytes.copy_within(count.., 0);
    bytes.truncate(rest);
}

impl<K: Sink + Drop> BufferedSink<K> {
    /// Nothing is held back. The room for what is gathered is taken here, and no more later.
    pub fn new(alloc: Global, inner: K) -> Result<Self, AllocError>
        ensures { IfOk result (λ sink. sink ≡ record { inner = inner; held = [] }) }
    {
        Ok(BufferedSink {
            inner,
            held: Vec::with_capacity(alloc, BUFFER)?,
        })
    }

    // Hands on what is held. Where that fails, what was not handed on is still held.
    fn hand_on(&mut self) -> Result<(), Failed>
        ensures kept { written_or_held K.written self.new ≡ written_or_held K.written self.old }
        ensures handed_on { OnOk result (self.new.held ≡ []) }
        ensures cause { HasCause (K.faults self.old.inner) (K.faults self.new.inner) result }
    {
        while !self.held.is_empty() {
            match self.inner.write(self.held.as_slice()) {
                Ok(count) => remove_front(&mut self.held, count),
                Err(Failed) => return Err(Failed),
            }
        }
        Ok(())
    }

    // Holds the piece back, where there is room for it.
    fn hold(&mut self, piece: &[u8]) -> bool
        ensures inner { self.new.inner ≡ self.old.inner }
        ensures held { self.new.held ≡ (if result then self.old.held ++ piece.now else self.old.held) }
    {
        if self.held.capacity() - self.held.len() < piece.len() {
            return false;
        }
        self.held.extend_from_slice(piece).unwrap();
        true
    }
}

impl<K: Sink + Drop> Sink for BufferedSink<K> {
    ghost written = { written_or_held K.written };

    ghost held = { λ b. K.held b.inner ++ b.held };

    ghost faults = { λ b. K.faults b.inner };

    fn write(&mut self, piece: &[u8]) -> Result<usize, Failed> {
        if self.hold(piece) {
            return Ok(piece.len());
        }
        match self.hand_on() {
            Ok(()) if self.hold(piece) => Ok(piece.len()),
            // It is longer than the room.
            Ok(()) => self.inner.write(piece),
            Err(Failed) => Err(Failed),
        }
    }

    fn flush(&mut self) -> Result<(), Failed> {
        match self.hand_on() {
            Ok(()) => self.inner.flush(),
            Err(Failed) => Err(Failed),
        }
    }
}
