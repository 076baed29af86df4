//! Cases of intervals, and of the plain program.

use crate::readers::{policy_of, signature_of};
use crate::stop::Stop;
use crate::texts::{bytes_of, halves, number, parted, shown};
use log_reader::{Limits, LogReader, Next};
use mfotl_model::{Formula, Interval, TimePoint};
use mfotl_plain::log_text;
use mfotl_sig::Signature;
use std::alloc::Global;

/// The answer to a case of this kind.
pub fn answer(alloc: Global, kind: &str, case: &str) -> Result<String, Stop> {
    match kind {
        "interval" => interval(alloc, case),
        _ => lines(alloc, case),
    }
}

// The interval with these ends, and which of the distances behind them belong to it.
fn interval(alloc: Global, case: &str) -> Result<String, Stop> {
    let (lo, case) = parted(case);
    let (hi, distances) = parted(case);
    let hi = match hi {
        "*" => None,
        digits => Some(number(digits)?),
    };
    match Interval::new(number(lo)?, hi) {
        Some(interval) => insides(alloc, interval, distances),
        None => Ok(String::from_str(alloc, "None")?),
    }
}

fn insides(alloc: Global, interval: Interval, distances: &str) -> Result<String, Stop> {
    let mut told = String::from_str(alloc, "Some")?;
    for distance in distances.split(' ') {
        let inside = interval.contains(number(distance)?);
        told.push_str(if inside { " in" } else { " out" })?;
    }
    Ok(told)
}

// The lines of a policy over a log, as they are defined.
fn lines(alloc: Global, case: &str) -> Result<String, Stop> {
    let (signature, case) = halves(case)?;
    let (policy, log) = halves(case)?;
    let policy = policy_of(alloc, signature, policy)?;
    lines_of(alloc, &policy.formula, signature, log)
}

fn lines_of(alloc: Global, formula: &Formula, signature: &str, log: &str) -> Result<String, Stop> {
    let points = points_of(alloc, signature, log)?;
    text_of(alloc, formula, points.as_slice())
}

fn text_of(alloc: Global, formula: &Formula, points: &[TimePoint]) -> Result<String, Stop> {
    let text = log_text(alloc, formula, points)?;
    shown(alloc, text.as_slice())
}

// The time-points of a log, or its fault.
fn points_of(alloc: Global, signature: &str, log: &str) -> Result<Vec<TimePoint>, Stop> {
    let signature = signature_of(alloc, signature)?;
    points_over(alloc, &signature, log)
}

fn points_over(alloc: Global, signature: &Signature, log: &str) -> Result<Vec<TimePoint>, Stop> {
    let bytes = bytes_of(alloc, log)?;
    let mut reader = LogReader::new(alloc, signature, Limits::standard());
    reader.feed_owned(alloc, bytes);
    reader.finish();
    points_read(alloc, &mut reader)
}

fn points_read(alloc: Global, reader: &mut LogReader<'_>) -> Result<Vec<TimePoint>, Stop> {
    let mut points = Vec::new(alloc);
    put_points(alloc, reader, &mut points)?;
    Ok(points)
}

fn put_points(
    alloc: Global,
    reader: &mut LogReader<'_>,
    points: &mut Vec<TimePoint>,
) -> Result<(), Stop> {
    for _ in 0..u64::MAX {
        if reader.is_broken() {
            break;
        }
        match reader.next(alloc) {
            Ok(Next::Point(point)) => points.push(point)?,
            Ok(_) => break,
            Err(fault) => return Err(Stop::Told(fault.to_string(alloc)?)),
        }
    }
    Ok(())
}
