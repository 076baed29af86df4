//! The log is read on, one chunk more, once what was written is handed on.
ghost use Rattle.std.specs.Prelude.{◌≡◌, ◌<◌, ◌≤◌, IfOk, IsTrue, OnOk, length, [], false};
ghost use Rattle.lone_worker.specs.Chunks.{ReadsChunk, ReadsOn};
ghost use Rattle.lone_worker.specs.Effects.{effect};

use crate::stop::Stop;
use log_reader::LogReader;
use mon_outside::{Failed, Inputs, Sink};
use std::alloc::{AllocError, Global};

// The most bytes that one read gives.
const CHUNK: usize = 65_536;

/// Room for what a read gives. It errs where memory was refused.
pub fn chunk_room(alloc: Global) -> Result<Vec<u8>, AllocError>
    ensures { IfOk result (λ room. length room.items ≡ 65536) }
{
    let room = Vec::from_elem(alloc, 0, CHUNK)?;
    Ok(room)
}

// Reads once, and feeds what was given; no byte is the end. It waits for the log only where the output
// holds nothing back.
fn read_chunk<I: Inputs, O: Sink>(
    alloc: Global,
    inputs: &mut I,
    buffer: &mut [u8],
    reader: &mut LogReader<'_>,
    _out: &O,
) -> Result<(), Stop>
    requires room { 0 < length buffer.old }
    requires opened { IsTrue (I.is_open inputs.old) }
    requires works { reader.old.is_broken ≡ false }
    requires open { reader.old.is_ended ≡ false }
    requires handed_on { O.held _out.now ≡ [] }
    ensures files { I.files inputs.new ≡ I.files inputs.old }
    ensures stays_open { I.is_open inputs.new ≡ I.is_open inputs.old }
    ensures asks_nothing { I.asked inputs.new ≡ I.asked inputs.old }
    ensures later { I.faults inputs.old ≤ I.faults inputs.new }
    ensures reads { ReadsChunk reader.old reader.new (I.rest inputs.old) (I.rest inputs.new)
        (I.faults inputs.old) (I.faults inputs.new) result }
{
    match inputs.read(buffer) {
        Ok(0) => {
            reader.finish();
            Ok(())
        }
        Ok(count) => {
            reader.feed(alloc, &buffer[..count])?;
            Ok(())
        }
        Err(_) => Err(Stop::Read),
    }
}

/// Hands on what was written, and then reads once: what was given is fed to the reader, or the end told where no byte
/// was. Where the output fails nothing is read; bytes that memory was refused for are read and not fed.
pub fn read_on<I: Inputs, O: Sink>(
    alloc: Global,
    inputs: &mut I,
    buffer: &mut [u8],
    reader: &mut LogReader<'_>,
    out: &mut O,
) -> Result<(), Stop>
    requires room { 0 < length buffer.old }
    requires opened { IsTrue (I.is_open inputs.old) }
    requires works { reader.old.is_broken ≡ false }
    requires open { reader.old.is_ended ≡ false }
    ensures files { I.files inputs.new ≡ I.files inputs.old }
    ensures stays_open { I.is_open inputs.new ≡ I.is_open inputs.old }
    ensures asks_nothing { I.asked inputs.new ≡ I.asked inputs.old }
    ensures later { I.faults inputs.old ≤ I.faults inputs.new }
    ensures kept { O.written out.new ≡ O.written out.old }
    ensures handed_on { OnOk result (O.held out.new ≡ []) }
    ensures later_out { O.faults out.old ≤ O.faults out.new }
    ensures reads { ReadsOn reader.old reader.new
        (effect I.Inputs O.Sink inputs.old inputs.new out.old out.new) result }
{
    match out.flush() {
        Ok(()) => read_chunk(alloc, inputs, buffer, reader, out),
        Err(Failed) => Err(Stop::Sink),
    }
}
