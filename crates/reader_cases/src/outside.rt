//! Cases of files and sinks in memory.
ghost use Rattle.std.specs.Prelude.{◌<◌, is_some, IfOk, IsTrue};

use crate::stop::Stop;
use crate::texts::{bytes_of, number, numbers, parted, put_word, shown};
use mon_outside::{
    BufferedSink, Failed, Inputs, LoadFault, MemInputs, MemSink, NamedFile, Sink, load, read_more,
    read_to_end, write_whole,
};
use std::alloc::Global;

/// The answer to a case of this kind.
pub fn answer(alloc: Global, kind: &str, case: &str) -> Result<String, Stop> {
    match kind {
        "load" => loaded(alloc, case),
        "read" => read(alloc, case),
        "gather" => gathered(alloc, case),
        _ => written(alloc, case),
    }
}

// The one file that there is.
fn file(alloc: Global, text: &str) -> Result<NamedFile, Stop> {
    Ok(NamedFile {
        name: String::from_str(alloc, "log")?,
        bytes: bytes_of(alloc, text)?,
    })
}

// The most bytes that a read gives.
fn piece_of(word: &str) -> Result<usize, Stop>
    ensures { IfOk result (λ piece. 0 < piece) }
{
    match word.parse::<usize>() {
        Ok(piece) if piece > 0 => Ok(piece),
        _ => Err(Stop::Malformed),
    }
}

// The file of a name, with the most bytes of a read, the limit and the calls that fail.
fn loaded(alloc: Global, case: &str) -> Result<String, Stop> {
    let (name, case) = parted(case);
    let (piece, case) = parted(case);
    let (limit, case) = parted(case);
    let (fail, text) = parted(case);
    let fail = numbers(alloc, fail)?;
    let piece = piece_of(piece)?;
    let files = [file(alloc, text)?];
    let mut inputs = MemInputs::new(&files, piece, fail.as_slice());
    load_within(alloc, &mut inputs, name, limit)
}

fn load_within(
    alloc: Global,
    inputs: &mut MemInputs<'_>,
    name: &str,
    limit: &str,
) -> Result<String, Stop> {
    let limit = number(limit)?;
    load_from(alloc, inputs, name, limit)
}

fn load_from(
    alloc: Global,
    inputs: &mut MemInputs<'_>,
    name: &str,
    limit: u64,
) -> Result<String, Stop> {
    match load(alloc, inputs, name, limit) {
        Ok(bytes) => shown(alloc, bytes.as_slice()),
        Err(fault) => Ok(fault.to_string(alloc)?),
    }
}

// How many bytes one read into a buffer of 4 gives, how the reading of the rest ends, and all that was
// given.
fn read(alloc: Global, case: &str) -> Result<String, Stop> {
    let (piece, case) = parted(case);
    let (fail, text) = parted(case);
    let files = [file(alloc, text)?];
    let fail = numbers(alloc, fail)?;
    let mut inputs = MemInputs::new(&files, piece_of(piece)?, fail.as_slice());
    match inputs.open("log") {
        Ok(()) => read_open(alloc, &mut inputs),
        Err(_) => Err(Stop::Malformed),
    }
}

fn read_open(alloc: Global, inputs: &mut MemInputs<'_>) -> Result<String, Stop>
    requires { IsTrue (is_some inputs.old.rest) }
{
    let mut bytes = Vec::new(alloc);
    let mut buffer = [0; 4];
    match read_more(inputs, &mut buffer, &mut bytes) {
        Ok(count) => {
            let end = read_to_end(alloc, inputs, &mut bytes, 1 << 20);
            told_read(alloc, count, end, bytes.as_slice())
        }
        Err(_) => Err(Stop::Malformed),
    }
}

fn told_read(
    alloc: Global,
    count: usize,
    end: Result<(), LoadFault>,
    bytes: &[u8],
) -> Result<String, Stop> {
    let mut told = count.to_string(alloc)?;
    put_read(alloc, &mut told, end, bytes)?;
    Ok(told)
}

fn put_read(
    alloc: Global,
    told: &mut String,
    end: Result<(), LoadFault>,
    bytes: &[u8],
) -> Result<(), Stop> {
    match end {
        Ok(()) => put_word(told, "Ok")?,
        Err(fault) => put_word(told, fault.to_string(alloc)?.as_str())?,
    }
    put_word(told, shown(alloc, bytes)?.as_str())
}

// How each piece is written to a sink whose calls of these numbers fail, and what it then has.
fn written(alloc: Global, case: &str) -> Result<String, Stop> {
    let (fail, pieces) = parted(case);
    let fail = numbers(alloc, fail)?;
    let mut sink = MemSink::new(alloc, fail.as_slice());
    told_written(alloc, &mut sink, pieces)
}

fn told_written(alloc: Global, sink: &mut MemSink<'_>, pieces: &str) -> Result<String, Stop> {
    let mut told = String::new(alloc);
    put_pieces(alloc, &mut told, sink, pieces)?;
    put_word(&mut told, shown(alloc, sink.written())?.as_str())?;
    Ok(told)
}

// The same of a sink that gathers what is written, and then how it is flushed, twice.
fn gathered(alloc: Global, case: &str) -> Result<String, Stop> {
    let (fail, pieces) = parted(case);
    let fail = numbers(alloc, fail)?;
    let mut sink = BufferedSink::new(alloc, MemSink::new(alloc, fail.as_slice()))?;
    told_gathered(alloc, &mut sink, pieces)
}

fn told_gathered<K: Sink>(alloc: Global, sink: &mut K, pieces: &str) -> Result<String, Stop> {
    let mut told = String::new(alloc);
    put_pieces(alloc, &mut told, sink, pieces)?;
    put_word(&mut told, "flushed")?;
    put_ended(alloc, &mut told, sink.flush())?;
    put_ended(alloc, &mut told, sink.flush())?;
    Ok(told)
}

fn put_pieces<K: Sink>(
    alloc: Global,
    told: &mut String,
    sink: &mut K,
    pieces: &str,
) -> Result<(), Stop> {
    for piece in pieces.split(" | ") {
        let piece = bytes_of(alloc, piece)?;
        put_ended(alloc, told, write_whole(sink, piece.as_slice()))?;
    }
    Ok(())
}

fn put_ended(alloc: Global, told: &mut String, ended: Result<(), Failed>) -> Result<(), Stop> {
    match ended {
        Ok(()) => put_word(told, "Ok"),
        Err(fault) => put_word(told, fault.to_string(alloc)?.as_str()),
    }
}
