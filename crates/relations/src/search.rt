//! Binary search among keys in order, each comparison a step.
ghost use Rattle.std.specs.Prelude.{◌≡◌, ◌+◌, ◌<◌, ◌≤◌, ◌^◌, length, true, false, slice_index_or, List, ℕ};
ghost use Rattle.std.specs.List.Sorted.{IsSorted};
ghost use Rattle.mfotl_model.specs.Values.{row_cmp};
ghost use Rattle.mfotl_model.specs.declared.value.Value.{Value};
ghost use Rattle.relations.specs.Searches.{before};

use crate::steps::Steps;
use mfotl_model::Row;
use std::cmp::Ordering;
use std::sync::ledger::Ledger;

fn is_before(order: Ordering, past: bool) -> bool
    ensures { result ≡ before past order }
{
    if past { order.is_le() } else { order.is_lt() }
}

/// How many keys stand before this one; where `past`, those equal to it too.
pub(crate) fn place<L: Ledger>(keys: &[Row], key: &Row, past: bool, steps: &mut Steps<L>) -> usize
    requires rises { IsSorted row_cmp keys.now }
    ensures within { result ≤ length keys.now }
    ensures below { (i : ℕ) (d : List Value) → i < result →
        before past (row_cmp (slice_index_or keys.now i d) key.now) ≡ true }
    ensures above { (i : ℕ) (d : List Value) → result ≤ i → i < length keys.now →
        before past (row_cmp (slice_index_or keys.now i d) key.now) ≡ false }
    ensures cost { (d : ℕ) → length keys.now < 2 ^ d → steps.new ≤ steps.old + d }
{
    let mut low = 0;
    let mut high = keys.len();
    while low < high {
        let middle = low + (high - low) / 2;
        let order = steps.compare(&keys[middle], key);
        if is_before(order, past) {
            low = middle + 1;
        } else {
            high = middle;
        }
    }
    low
}
