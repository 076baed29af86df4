//! Cases of logs.
ghost use Rattle.std.specs.Prelude.{◌<◌};

use crate::readers::signature_of;
use crate::stop::Stop;
use crate::texts::{bytes_of, halves, number, parted, put_word};
use log_reader::{Limits, LogFault, LogReader, Next};
use mfotl_model::{Event, TimePoint};
use mfotl_sig::Signature;
use std::alloc::Global;

/// The answer to a case of this kind.
pub fn answer(alloc: Global, kind: &str, case: &str) -> Result<String, Stop> {
    match kind {
        "limited" => limited(alloc, case),
        "unfinished" => unfinished(alloc, case),
        "fed" => fed(alloc, case),
        "pieces" => pieces(alloc, case),
        _ => within(alloc, Limits::standard(), case),
    }
}

// The time-points of a log with smaller limits of bytes, time-points and groups.
fn limited(alloc: Global, case: &str) -> Result<String, Stop> {
    let (bytes, case) = parted(case);
    let (points, case) = parted(case);
    let (events, case) = parted(case);
    let limits = Limits {
        bytes: number(bytes)?,
        points: number(points)?,
        events: number(events)?,
    };
    within(alloc, limits, case)
}

fn within(alloc: Global, limits: Limits, case: &str) -> Result<String, Stop> {
    let (signature, log) = halves(case)?;
    let signature = signature_of(alloc, signature)?;
    told_within(alloc, &signature, limits, log)
}

fn told_within(
    alloc: Global,
    signature: &Signature,
    limits: Limits,
    log: &str,
) -> Result<String, Stop> {
    let bytes = bytes_of(alloc, log)?;
    let mut reader = LogReader::new(alloc, signature, limits);
    reader.feed_owned(alloc, bytes);
    reader.finish();
    told(alloc, &mut reader)
}

fn told(alloc: Global, reader: &mut LogReader<'_>) -> Result<String, Stop> {
    let mut told = String::new(alloc);
    put_points(alloc, &mut told, reader)?;
    Ok(told)
}

// What is told before the log's end is told, and twice what is told then.
fn unfinished(alloc: Global, case: &str) -> Result<String, Stop> {
    let (signature, log) = halves(case)?;
    let signature = signature_of(alloc, signature)?;
    told_unfinished(alloc, &signature, log)
}

fn told_unfinished(alloc: Global, signature: &Signature, log: &str) -> Result<String, Stop> {
    let bytes = bytes_of(alloc, log)?;
    let mut reader = LogReader::new(alloc, signature, Limits::standard());
    reader.feed_owned(alloc, bytes);
    told_thrice(alloc, &mut reader)
}

fn told_thrice(alloc: Global, reader: &mut LogReader<'_>) -> Result<String, Stop> {
    let mut told = String::new(alloc);
    put_part(alloc, &mut told, reader)?;
    put_end(alloc, &mut told, reader)?;
    Ok(told)
}

// What is told behind each piece of a log, and twice what is told behind its end.
fn fed(alloc: Global, case: &str) -> Result<String, Stop> {
    let (signature, pieces) = halves(case)?;
    let signature = signature_of(alloc, signature)?;
    told_fed(alloc, &signature, pieces)
}

fn told_fed(alloc: Global, signature: &Signature, pieces: &str) -> Result<String, Stop> {
    let mut reader = LogReader::new(alloc, signature, Limits::standard());
    let mut told = String::new(alloc);
    for piece in pieces.split(" | ") {
        let bytes = bytes_of(alloc, piece)?;
        put_fed(alloc, &mut told, &mut reader, bytes.as_slice())?;
    }
    put_end(alloc, &mut told, &mut reader)?;
    Ok(told)
}

// Feeds a piece, and puts what is told then.
fn put_fed(
    alloc: Global,
    told: &mut String,
    reader: &mut LogReader<'_>,
    piece: &[u8],
) -> Result<(), Stop> {
    if reader.is_broken() || reader.is_finished() {
        return Ok(());
    }
    reader.feed(alloc, piece)?;
    put_part(alloc, told, reader)
}

// Puts what is told before the log's end is, and a mark behind it.
fn put_part(alloc: Global, told: &mut String, reader: &mut LogReader<'_>) -> Result<(), Stop> {
    put_points(alloc, told, reader)?;
    Ok(told.push(';')?)
}

// Tells the log's end, and puts twice what is told then.
fn put_end(alloc: Global, told: &mut String, reader: &mut LogReader<'_>) -> Result<(), Stop> {
    reader.finish();
    put_part(alloc, told, reader)?;
    put_points(alloc, told, reader)
}

// The time-points of a log that is fed in pieces of so many bytes, and the most that is held between two.
fn pieces(alloc: Global, case: &str) -> Result<String, Stop> {
    let (size, case) = parted(case);
    let (signature, log) = halves(case)?;
    let signature = signature_of(alloc, signature)?;
    told_in_pieces(alloc, &signature, number(size)?, log)
}

fn told_in_pieces(
    alloc: Global,
    signature: &Signature,
    size: usize,
    log: &str,
) -> Result<String, Stop> {
    if size == 0 {
        return Err(Stop::Malformed);
    }
    let bytes = bytes_of(alloc, log)?;
    let mut reader = LogReader::new(alloc, signature, Limits::standard());
    told_by(alloc, &mut reader, bytes.as_slice(), size)
}

// What the reader tells of a log in pieces of so many bytes, and the most bytes that it held behind one.
fn told_by(
    alloc: Global,
    reader: &mut LogReader<'_>,
    log: &[u8],
    size: usize,
) -> Result<String, Stop>
    requires { 0 < size }
{
    let mut told = String::new(alloc);
    let most = put_pieces(alloc, &mut told, reader, log, size)?;
    reader.finish();
    put_points(alloc, &mut told, reader)?;
    put_held(alloc, &mut told, most)?;
    Ok(told)
}

fn put_held(alloc: Global, told: &mut String, most: u64) -> Result<(), Stop> {
    put_word(told, format!(in alloc; "held {most}")?.as_str())?;
    Ok(())
}

// Puts the time-points of each piece, and gives the most bytes that the reader held behind one.
fn put_pieces(
    alloc: Global,
    told: &mut String,
    reader: &mut LogReader<'_>,
    log: &[u8],
    size: usize,
) -> Result<u64, Stop>
    requires { 0 < size }
{
    let mut most = 0u64;
    for piece in log.chunks(size) {
        put_piece(alloc, told, reader, piece)?;
        most = most.max(reader.held());
    }
    Ok(most)
}

// Puts the time-points up to where the reader asks for more, or a fault is shown.
fn put_piece(
    alloc: Global,
    told: &mut String,
    reader: &mut LogReader<'_>,
    piece: &[u8],
) -> Result<(), Stop> {
    if reader.is_broken() || reader.is_finished() {
        return Ok(());
    }
    reader.feed(alloc, piece)?;
    for _ in 0..u64::MAX {
        if reader.is_broken() {
            break;
        }
        match reader.next(alloc) {
            Ok(Next::Point(point)) => put_point(alloc, told, &point)?,
            _ => break,
        }
    }
    Ok(())
}

// Puts what the reader answers, up to the first answer that is no time-point.
fn put_points(alloc: Global, told: &mut String, reader: &mut LogReader<'_>) -> Result<(), Stop> {
    for _ in 0..u64::MAX {
        if reader.is_broken() || !put_given(alloc, told, reader.next(alloc))? {
            break;
        }
    }
    Ok(())
}

// Puts an answer, and whether it is a time-point.
fn put_given(
    alloc: Global,
    told: &mut String,
    given: Result<Next, LogFault>,
) -> Result<bool, Stop> {
    match given {
        Ok(Next::Point(point)) => {
            put_point(alloc, told, &point)?;
            Ok(true)
        }
        Ok(Next::More) => put_last(told, "More"),
        Ok(Next::End) => put_last(told, "End"),
        Err(fault) => put_last(told, fault.to_string(alloc)?.as_str()),
    }
}

// Puts the word of an answer that is no time-point.
fn put_last(told: &mut String, word: &str) -> Result<bool, Stop> {
    put_word(told, word)?;
    Ok(false)
}

// Puts a time-point's timestamp, and how many different events it has.
fn put_point(alloc: Global, told: &mut String, point: &TimePoint) -> Result<(), Stop> {
    let events = different(point.db.inserted());
    put_word(told, format!(in alloc; "{}/{events}", point.ts)?.as_str())
}

fn different(events: &[Event]) -> usize {
    let mut count = 0usize;
    for at in 0..events.len() {
        if !events[..at].contains(&events[at]) {
            count = count.saturating_add(1);
        }
    }
    count
}
