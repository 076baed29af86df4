//! The temporal operators by kinds.
ghost use Rattle.std.specs.Prelude.{◌≡◌, ◌<◌, not, length, map, IfOk};
ghost use Rattle.mfotl_model.specs.Log.{times};
ghost use Rattle.mfotl_model.specs.Satisfaction.{since, until};
ghost use Rattle.mfotl_plain.specs.Operators.{between, every, in_time};

use crate::operators::{next, previous, since, until};
use mfotl_model::{Interval, TimePoint};
use std::alloc::{AllocError, Global};

/// A temporal operator of one operand.
#[derive(Clone, Copy)]
pub enum Modality {
    Previous,
    Next,
    Once,
    Historically,
    Eventually,
    Always,
}

/// A temporal operator of two operands.
#[derive(Clone, Copy)]
pub enum Span {
    Since,
    Until,
}

pub fn in_time(
    alloc: Global,
    modality: Modality,
    interval: &Interval,
    log: &[TimePoint],
    truths: &[bool],
    at: usize,
) -> Result<bool, AllocError>
    requires { at < length log.now }
    ensures { IfOk result (λ held. held ≡ in_time modality interval.now log.now truths.now at) }
{
    match modality {
        Modality::Previous => Ok(previous(interval, log, truths, at)),
        Modality::Next => Ok(next(interval, log, truths, at)),
        Modality::Once => once(alloc, interval, log, truths, at),
        Modality::Historically => historically(alloc, interval, log, truths, at),
        Modality::Eventually => eventually(alloc, interval, log, truths, at),
        Modality::Always => always(alloc, interval, log, truths, at),
    }
}

pub fn between(
    span: Span,
    interval: &Interval,
    log: &[TimePoint],
    left: &[bool],
    right: &[bool],
    at: usize,
) -> bool
    requires { at < length log.now }
    ensures { result ≡ between span interval.now log.now left.now right.now at }
{
    match span {
        Span::Since => since(interval, log, left, right, at),
        Span::Until => until(interval, log, left, right, at),
    }
}

fn once(
    alloc: Global,
    interval: &Interval,
    log: &[TimePoint],
    truths: &[bool],
    at: usize,
) -> Result<bool, AllocError>
    requires { at < length log.now }
    ensures { IfOk result (λ held. held ≡ since interval.now (times log.now) (every log.now) truths.now at) }
{
    let every = all_true(alloc, log)?;
    Ok(since(interval, log, every.as_slice(), truths, at))
}

fn historically(
    alloc: Global,
    interval: &Interval,
    log: &[TimePoint],
    truths: &[bool],
    at: usize,
) -> Result<bool, AllocError>
    requires { at < length log.now }
    ensures { IfOk result (λ held.
        held ≡ not (since interval.now (times log.now) (every log.now) (map not truths.now) at)) }
{
    let falsities = negated(alloc, truths)?;
    Ok(!once(alloc, interval, log, falsities.as_slice(), at)?)
}

fn eventually(
    alloc: Global,
    interval: &Interval,
    log: &[TimePoint],
    truths: &[bool],
    at: usize,
) -> Result<bool, AllocError>
    requires { at < length log.now }
    ensures { IfOk result (λ held. held ≡ until interval.now (times log.now) (every log.now) truths.now at) }
{
    let every = all_true(alloc, log)?;
    Ok(until(interval, log, every.as_slice(), truths, at))
}

fn always(
    alloc: Global,
    interval: &Interval,
    log: &[TimePoint],
    truths: &[bool],
    at: usize,
) -> Result<bool, AllocError>
    requires { at < length log.now }
    ensures { IfOk result (λ held.
        held ≡ not (until interval.now (times log.now) (every log.now) (map not truths.now) at)) }
{
    let falsities = negated(alloc, truths)?;
    Ok(!eventually(alloc, interval, log, falsities.as_slice(), at)?)
}

fn negated(alloc: Global, truths: &[bool]) -> Result<Vec<bool>, AllocError>
    ensures { IfOk result (λ falsities. falsities.items ≡ map not truths.now) }
{
    truths.iter().map(|truth| !*truth).collect(alloc)
}

fn all_true(alloc: Global, log: &[TimePoint]) -> Result<Vec<bool>, AllocError>
    ensures { IfOk result (λ values. values.items ≡ every log.now) }
{
    (0..log.len()).map(|_| true).collect(alloc)
}
