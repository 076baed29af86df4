//! The bytes of a log that are still to be read, and their place in it.
ghost use Rattle.std.specs.Prelude.{◌≡◌, ◌≤◌, [], length, drop, OnOk, OnErr};
ghost use Rattle.log_reader.specs.Stretches.{comment_of};

use std::alloc::{AllocError, Global};
use std::marker::Model;

// One past the greatest offset.
const OFFSET_LIMIT: usize = 1 << 63;

/// Bytes of a log from an offset on.
#[derive(Drop)]
pub struct Stretch {
    from: usize,
    bytes: Vec<u8>,
}

impl Model for Stretch {
    ghost use Rattle.std.specs.Prelude.{◌+◌, ◌<◌, ◌^◌, length};
    ghost use Rattle.log_reader.specs.Stretches.{Stretch as StretchOf};

    ghost Value = { StretchOf };

    ghost view = { λ s. record { from = s.from; bytes = s.bytes.items } };

    ghost invariant = { λ s. s.from + length s.bytes.items < 2 ^ 63 };
}

impl Stretch {
    ghost use Rattle.std.specs.Prelude.{◌<◌, ◌^◌};
    ghost use Rattle.log_reader.specs.Stretches.{stretch_end, with_piece, behind, shortened, forgotten};

    /// The first bytes of a log.
    pub fn new(bytes: Vec<u8>) -> Self
        ensures { result ≡ record { from = 0; bytes = bytes.items } }
    {
        Stretch { from: 0, bytes }
    }

    /// The offset of the first byte.
    pub fn from(&self) -> usize
        ensures { result ≡ self.now.from }
    {
        self.from
    }

    pub fn bytes(&self) -> &[u8]
        ensures { result.now ≡ self.now.bytes }
    {
        self.bytes.as_slice()
    }

    /// The offset behind the last byte.
    pub fn end(&self) -> usize
        ensures is { result ≡ stretch_end self.now }
        ensures small { result < 2 ^ 63 }
    {
        self.from + self.bytes.len()
    }

    /// Puts a piece behind the bytes.
    pub fn append(&mut self, piece: &[u8]) -> Result<(), AllocError>
        ensures ok { OnOk result (self.new ≡ with_piece self.old piece.now) }
        ensures err { OnErr result (self.new ≡ self.old) }
    {
        // No log is so long.
        if self.end() + piece.len() >= OFFSET_LIMIT {
            return Err(AllocError);
        }
        self.bytes.extend_from_slice(piece)
    }

    // Drops the first bytes.
    fn drop_front(&mut self, count: usize)
        requires { count ≤ length self.old.bytes }
        ensures { self.new ≡ behind self.old count }
    {
        if count > 0 {
            remove_front(&mut self.bytes, count);
        }
        self.from += count;
    }

    // Keeps of a comment its `#` alone.
    fn shorten(&mut self)
        ensures { self.new ≡ shortened self.old }
    {
        let count = comment_len(self.bytes.as_slice());
        self.bytes.truncate(self.bytes.len() - count);
        self.from += count;
    }

    /// Drops what a reader is done with that waits for more bytes at this place.
    pub fn forget(&mut self, at: usize)
        requires { at ≤ length self.old.bytes }
        ensures { self.new ≡ forgotten self.old at }
    {
        self.drop_front(at);
        self.shorten();
    }
}

// What is left gets memory of its own, or moves to the front where there is none.
fn remove_front(bytes: &mut Vec<u8>, count: usize)
    requires { count ≤ length bytes.old.items }
    ensures { bytes.new.items ≡ drop count bytes.old.items }
{
    match bytes.split_off(count) {
        Ok(rest) => *bytes = rest,
        Err(_) => move_to_front(bytes, count),
    }
}

fn move_to_front(bytes: &mut Vec<u8>, count: usize)
    requires { count ≤ length bytes.old.items }
    ensures { bytes.new.items ≡ drop count bytes.old.items }
{
    let len = bytes.len();
    bytes.as_mut_slice().copy_within(count..len, 0);
    bytes.truncate(len - count);
}

// How many bytes a comment has behind its `#`.
fn comment_len(bytes: &[u8]) -> usize
    ensures is { result ≡ comment_of bytes.now }
    ensures within { result ≤ length bytes.now }
{
    match bytes {
        [b'#', comment @ ..] => comment.len(),
        _ => 0,
    }
}
