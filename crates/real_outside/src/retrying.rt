//! Reads, writes and flushes of real streams, each made anew where a signal came before it.
ghost use Rattle.std.specs.Prelude.{◌≡◌, ◌<◌, ◌≤◌, length, IfOk};
ghost use Rattle.std.specs.Io.KnownBytes.{Keeps, ReadConsumes, WriteAppends};
ghost use Rattle.mon_outside.specs.Causes.{Rose};
ghost use Rattle.mon_outside.specs.Memory.{one_more};

use mon_outside::Failed;
use std::io::{ErrorKind, Read, Write};

/// Reads, anew behind each signal, until a read gives bytes, tells the end or fails. What the reader tells of its bytes
/// is what it gave.
pub fn read_some<R: Read>(reader: &mut R, buffer: &mut [u8]) -> Result<usize, Failed>
    ensures within { IfOk result (λ count. count ≤ length buffer.new) }
    ensures told { ReadConsumes (R.remaining reader.old) (R.remaining reader.new) result buffer.new }
{
    for _ in 0..u64::MAX {
        match reader.read(buffer) {
            Ok(count) => return Ok(count),
            Err(e) if e.kind() == ErrorKind::Interrupted => {}
            Err(_) => return Err(Failed),
        }
    }
    Err(Failed)
}

/// Writes, anew behind each signal, until a write takes bytes or fails. To take no byte of some is to fail. What the
/// writer tells of its bytes has grown by what it took.
pub fn write_some<W: Write>(writer: &mut W, piece: &[u8]) -> Result<usize, Failed>
    ensures within { IfOk result (λ count. count ≤ length piece.now) }
    ensures some { 0 < length piece.now → IfOk result (λ count. 0 < count) }
    ensures told { WriteAppends (W.contents writer.old) (W.contents writer.new) result piece.now }
{
    for _ in 0..u64::MAX {
        match writer.write(piece) {
            Ok(0) if !piece.is_empty() => return Err(Failed),
            Ok(count) => return Ok(count),
            Err(e) if e.kind() == ErrorKind::Interrupted => {}
            Err(_) => return Err(Failed),
        }
    }
    Err(Failed)
}

/// Flushes, anew behind each signal. That changes nothing of what was written.
pub fn flush_all<W: Write>(writer: &mut W) -> Result<(), Failed>
    ensures { Keeps (W.contents writer.old) (W.contents writer.new) }
{
    for _ in 0..u64::MAX {
        match writer.flush() {
            Ok(()) => return Ok(()),
            Err(e) if e.kind() == ErrorKind::Interrupted => {}
            Err(_) => return Err(Failed),
        }
    }
    Err(Failed)
}

/// One failure more; the greatest count stays as it is.
pub fn one_more(failures: u64) -> u64
    ensures count { result ≡ one_more failures }
    ensures rose { Rose failures result }
{
    failures.saturating_add(1)
}
