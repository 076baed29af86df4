//! The first of the workers that a row is near to, digit by digit.
ghost use Rattle.std.specs.Prelude.{◌≡◌, ◌<◌, ◌≤◌, ◌+◌, ◌||◌, IfSome, length, MatchOption, nat_eq, not, true, ℕ};
ghost use Rattle.mfotl_model.specs.FreeVariables.{among};
ghost use Rattle.mfotl_model.specs.Regions.{near_from};
ghost use Rattle.mfotl_model.specs.Strategies.{parts_of, strategy_part, workers_of};
ghost use Rattle.mfotl_model.specs.Tables.{valuation};
ghost use Rattle.slice_strategy.specs.Entries.{entries_of, entry_of};
ghost use Rattle.slice_strategy.specs.Limits.{max_workers};
ghost use Rattle.slice_strategy.specs.Nearest.{IsNearest, may_be, next_number};
ghost use Rattle.slice_strategy.specs.Slicers.{NoneFrom, end_of};

use crate::entry::Entry;
use crate::strategy::value_at;
use mfotl_model::Partial;

/// Of the numbers that some entries have digits for, those that a row is near to.
#[derive(Clone, Copy)]
pub(crate) struct Firsts {
    /// The first of all.
    pub(crate) least: u64,
    /// The first that isn't below the number asked for.
    pub(crate) next: Option<u64>,
}

/// The one digit that the row holds, if it gives a value to the variable.
fn digit_held(part: &Partial, variable: usize, entry: &Entry) -> Option<u64>
    requires sized { length part.now.cols.now ≡ length part.now.row.now }
    requires some { 0 < parts_of (entry_of entry.now) }
    ensures digits { (d : ℕ) → may_be result d ≡ (not (among variable part.now.cols.now)
        || nat_eq (strategy_part (entry_of entry.now) (valuation part.now.cols.now part.now.row.now variable)) d) }
    ensures low { IfSome result (λ a. a < parts_of (entry_of entry.now)) }
{
    match value_at(part, variable) {
        Some(value) => Some(entry.part(value)),
        None => None,
    }
}

/// Whether this digit may stand there.
fn may_be(held: Option<u64>, digit: u64) -> bool
    ensures { result ≡ may_be held digit }
{
    held.is_none_or(|part| part == digit)
}

/// The first digit above this one that may stand there.
fn digit_above(held: Option<u64>, parts: u64, digit: u64) -> Option<u64>
    requires low { IfSome held (λ a. a < parts) }
    requires inside { digit < parts }
    ensures found { IfSome result (λ d. (digit < d) × (d < parts) × (may_be held d ≡ true)) }
    ensures first { NoneFrom (digit + 1) (end_of parts result) (may_be held) }
{
    match held {
        Some(part) if digit < part => Some(part),
        None if digit + 1 < parts => Some(digit + 1),
        _ => None,
    }
}

/// The first number from one with this digit on, where `above` is the first digit above it.
fn next_number(
    stays: bool,
    digit: u64,
    place: u64,
    below: Firsts,
    above: Option<u64>,
) -> Option<u64>
    requires places { place ≤ max_workers }
    requires digits { digit < max_workers }
    requires rest { IfSome below.next (λ n. n < place) }
    requires least { below.least < place }
    requires above { IfSome above (λ d. d < max_workers) }
    ensures { result ≡ next_number stays digit place below.least below.next above }
{
    match below.next {
        Some(rest) if stays => Some(digit * place + rest),
        _ => match above {
            Some(above) => Some(above * place + below.least),
            None => None,
        },
    }
}

/// The numbers of these entries' digits that the row is near to. All of them are below `place`.
pub(crate) fn nearest(
    entries: &[Entry],
    variable: usize,
    part: &Partial,
    place: u64,
    from: u64,
) -> Firsts
    requires sized { length part.now.cols.now ≡ length part.now.row.now }
    requires places { place ≡ workers_of (entries_of entries.now) }
    requires few { place ≤ max_workers }
    requires inside { from < place }
    requires numbered { variable + length entries.now ≤ usize.MAX }
    ensures { IsNearest
        (λ k. near_from variable (entries_of entries.now) k part.now.cols.now
        (valuation part.now.cols.now part.now.row.now))
        from place result.least result.next }
{
    match entries {
        [] => Firsts {
            least: 0,
            next: Some(0),
        },
        [entry, others @ ..] => {
            let parts = entry.parts();
            let place = place / parts;
            let digit = from / place;
            let below = nearest(others, variable + 1, part, place, from % place);
            let held = digit_held(part, variable, entry);
            let above = digit_above(held, parts, digit);
            Firsts {
                least: held.unwrap_or(0) * place + below.least,
                next: next_number(may_be(held, digit), digit, place, below, above),
            }
        }
    }
}
