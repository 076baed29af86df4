//! The temporal operators over lists of truth values, one for each time-point.
ghost use Rattle.std.specs.Prelude.{◌≡◌, ◌+◌, ◌-◌, ◌<◌, ◌^◌, length};
ghost use Rattle.std.specs.List.{list_all, range_with_len};
ghost use Rattle.mfotl_model.specs.Intervals.{in_interval};
ghost use Rattle.mfotl_model.specs.Log.{times};
ghost use Rattle.mfotl_model.specs.Satisfaction.{next, previous, since, time_at, truth_at, until};

use mfotl_model::{Interval, TimePoint};

pub fn time_at(log: &[TimePoint], at: usize) -> u64
    ensures { result ≡ time_at (times log.now) at }
{
    match log.get(at) {
        Some(point) => point.ts,
        None => 0,
    }
}

// How many time-points there are.
#[tactic(auto, using(crate::proofs::PlainLemmas::times_len))]
fn length_of(log: &[TimePoint]) -> usize
    ensures { result ≡ length (times log.now) }
{
    log.len()
}

fn truth_at(truths: &[bool], at: usize) -> bool
    ensures { result ≡ truth_at truths.now at }
{
    truths.get(at).copied().unwrap_or(false)
}

// Whether the time from one position to a later one lies in the interval.
fn is_within(interval: &Interval, log: &[TimePoint], from: usize, to: usize) -> bool
    ensures { result ≡ in_interval interval.now (time_at (times log.now) to - time_at (times log.now) from) }
{
    interval.contains(time_at(log, to).saturating_sub(time_at(log, from)))
}

// Whether all of `count` values from `from` on are true.
fn holds_along(truths: &[bool], from: usize, count: usize) -> bool
    requires { from + count < 2 ^ 64 }
    ensures { result ≡ list_all (truth_at truths.now) (range_with_len from count) }
{
    (from..from + count).all(|k| truth_at(truths, k))
}

#[tactic(auto, unfolding(mfotl_model::specs::Satisfaction::previous))]
pub fn previous(interval: &Interval, log: &[TimePoint], truths: &[bool], at: usize) -> bool
    ensures { result ≡ previous interval.now (times log.now) truths.now at }
{
    at > 0 && is_within(interval, log, at - 1, at) && truth_at(truths, at - 1)
}

#[tactic(auto, unfolding(mfotl_model::specs::Satisfaction::next))]
pub fn next(interval: &Interval, log: &[TimePoint], truths: &[bool], at: usize) -> bool
    requires { at < length log.now }
    ensures { result ≡ next interval.now (times log.now) truths.now at }
{
    at + 1 < log.len() && is_within(interval, log, at, at + 1) && truth_at(truths, at + 1)
}

#[tactic(auto, unfolding(mfotl_model::specs::Satisfaction::since))]
pub fn since(
    interval: &Interval,
    log: &[TimePoint],
    left: &[bool],
    right: &[bool],
    at: usize,
) -> bool
    requires { at < length log.now }
    ensures { result ≡ since interval.now (times log.now) left.now right.now at }
{
    (0..at + 1).any(|j| {
        is_within(interval, log, j, at) && truth_at(right, j) && holds_along(left, j + 1, at - j)
    })
}

#[tactic(auto, unfolding(mfotl_model::specs::Satisfaction::until))]
pub fn until(
    interval: &Interval,
    log: &[TimePoint],
    left: &[bool],
    right: &[bool],
    at: usize,
) -> bool
    requires { at < length log.now }
    ensures { result ≡ until interval.now (times log.now) left.now right.now at }
{
    (at..length_of(log)).any(|j| {
        is_within(interval, log, at, j) && truth_at(right, j) && holds_along(left, at, j - at)
    })
}
