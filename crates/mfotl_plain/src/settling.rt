//! Whether a formula is settled, by its recursion.
ghost use Rattle.std.specs.Prelude.{◌≡◌, ◌+◌, ◌-◌, ◌<◌, ◌&&◌, ◌||◌, length, nat_lt};
ghost use Rattle.std.specs.List.{list_all, list_any, range_with_len};
ghost use Rattle.mfotl_model.specs.Formulas.{form};
ghost use Rattle.mfotl_model.specs.Satisfaction.{time_at};
ghost use Rattle.mfotl_model.specs.Settled.{next_settled, previous_settled, settled, since_settled, until_settled};

use mfotl_model::{Formula, Interval};

/// Whether the truth of a formula at a position of a log with these timestamps can change no more.
#[cycle(settling)]
#[tactic(auto, using(crate::proofs::SettlingLemmas::both_operands), unfolding(mfotl_model::specs::Settled::settled))]
pub fn is_settled(formula: &Formula, times: &[u64], at: usize) -> bool
    requires { at < length times.now }
    ensures { result ≡ settled times.now (form formula.now) at }
{
    match formula {
        Formula::True | Formula::False | Formula::Atom(_) | Formula::Compare(_) => {
            at < times.len()
        }
        Formula::Not(f) | Formula::Exists(_, f) | Formula::Forall(_, f) => {
            is_settled(f, times, at)
        }
        Formula::And(f, g) | Formula::Or(f, g) | Formula::Implies(f, g) | Formula::Equiv(f, g) => {
            are_settled(f, g, times, at)
        }
        Formula::Previous(_, f) => is_previous_settled(f, times, at),
        Formula::Next(_, f) => is_next_settled(f, times, at),
        Formula::Once(_, f) | Formula::Historically(_, f) => is_settled_before(f, times, at),
        Formula::Since(_, f, g) => are_settled_before(f, g, times, at),
        Formula::Eventually(interval, f) | Formula::Always(interval, f) => {
            is_settled_ahead(f, interval, times, at)
        }
        Formula::Until(interval, f, g) => are_settled_ahead(f, g, interval, times, at),
    }
}

// Whether both operands are settled.
#[cycle(settling)]
fn are_settled(left: &Formula, right: &Formula, times: &[u64], at: usize) -> bool
    requires { at < length times.now }
    ensures { result ≡ (settled times.now (form left.now) at && settled times.now (form right.now) at) }
{
    is_settled(left, times, at) && is_settled(right, times, at)
}

// Whether there is no position before `at`, or the formula is settled there.
#[cycle(settling)]
#[tactic(auto, unfolding(mfotl_model::specs::Settled::previous_settled))]
fn is_previous_settled(formula: &Formula, times: &[u64], at: usize) -> bool
    requires { at < length times.now }
    ensures { result ≡ previous_settled times.now (settled times.now (form formula.now)) at }
{
    at < times.len() && (at == 0 || is_settled(formula, times, at - 1))
}

// Whether the position after `at` was reached, and the formula is settled there.
#[cycle(settling)]
#[tactic(auto, unfolding(mfotl_model::specs::Settled::next_settled))]
fn is_next_settled(formula: &Formula, times: &[u64], at: usize) -> bool
    requires { at < length times.now }
    ensures { result ≡ next_settled times.now (settled times.now (form formula.now)) at }
{
    at + 1 < times.len() && is_settled(formula, times, at + 1)
}

// Whether both operands are settled at each position up to `at`.
#[cycle(settling)]
fn are_settled_before(left: &Formula, right: &Formula, times: &[u64], at: usize) -> bool
    requires { at < length times.now }
    ensures { result ≡ (since_settled (settled times.now (form left.now)) at
        && since_settled (settled times.now (form right.now)) at) }
{
    is_settled_before(left, times, at) && is_settled_before(right, times, at)
}

// Whether both operands are settled ahead of `at`.
#[cycle(settling)]
fn are_settled_ahead(
    left: &Formula,
    right: &Formula,
    interval: &Interval,
    times: &[u64],
    at: usize,
) -> bool
    requires { at < length times.now }
    ensures { result ≡ (until_settled interval.now.hi times.now (settled times.now (form left.now)) at
        && until_settled interval.now.hi times.now (settled times.now (form right.now)) at) }
{
    is_settled_ahead(left, interval, times, at) && is_settled_ahead(right, interval, times, at)
}

// Whether the formula is settled at each position up to `at`.
#[cycle(settling)]
#[tactic(auto, unfolding(mfotl_model::specs::Settled::since_settled))]
fn is_settled_before(formula: &Formula, times: &[u64], at: usize) -> bool
    requires { at < length times.now }
    ensures { result ≡ since_settled (settled times.now (form formula.now)) at }
{
    for j in 0..at + 1 {
        if !is_settled(formula, times, j) {
            return false;
        }
    }
    true
}

// Whether the interval lies behind the last time-point, and the formula is settled at each position of
// it from `at` on.
#[cycle(settling)]
#[tactic(auto, unfolding(mfotl_model::specs::Settled::until_settled))]
fn is_settled_ahead(formula: &Formula, interval: &Interval, times: &[u64], at: usize) -> bool
    requires { at < length times.now }
    ensures { result ≡ until_settled interval.now.hi times.now (settled times.now (form formula.now)) at }
{
    match interval.hi {
        None => false,
        Some(hi) => is_past_within(times, at, hi) && is_settled_within(formula, times, at, hi),
    }
}

// Whether the formula is settled at each position from `at` on whose distance is at most `hi`.
#[cycle(settling)]
fn is_settled_within(formula: &Formula, times: &[u64], at: usize, hi: u64) -> bool
    requires { at < length times.now }
    ensures { result ≡ list_all (λ j. nat_lt (time_at times.now at + hi) (time_at times.now j)
        || settled times.now (form formula.now) j) (range_with_len at (length times.now - at)) }
{
    for j in at..times.len() {
        if !is_past(times, at, hi, j) && !is_settled(formula, times, j) {
            return false;
        }
    }
    true
}

// Whether some time-point is past the distance `hi` from `at`.
fn is_past_within(times: &[u64], at: usize, hi: u64) -> bool
    ensures { result ≡ list_any (λ k. nat_lt (time_at times.now at + hi) (time_at times.now k))
        (range_with_len 0 (length times.now)) }
{
    (0..times.len()).any(|k| is_past(times, at, hi, k))
}

fn is_past(times: &[u64], at: usize, hi: u64, k: usize) -> bool
    ensures { result ≡ nat_lt (time_at times.now at + hi) (time_at times.now k) }
{
    u128::from(time_at(times, at)) + u128::from(hi) < u128::from(time_at(times, k))
}

fn time_at(times: &[u64], at: usize) -> u64
    ensures { result ≡ time_at times.now at }
{
    times.get(at).copied().unwrap_or(0)
}
