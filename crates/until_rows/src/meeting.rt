//! When an entry meets UNTIL, and whether one of a row does.
ghost use Rattle.std.specs.Prelude.{◌≡◌, ◌≤◌, false, length, true};
ghost use Rattle.std.specs.List.Sorted.{IsNonDecreasingBy, IsPartitionPoint};
ghost use Rattle.until_rows.specs.Entries.{is_far, meets, met_by};
ghost use Rattle.until_rows.specs.Levels.{RiseFrom};
ghost use Rattle.until_rows.specs.Rules.{PlacesAscend};

use crate::entries::Entry;
use mfotl_model::Interval;
use short_queue::ShortQueue;

/// Whether an entry meets UNTIL at the position `i`, whose time is `x`.
pub fn meets(interval: &Interval, i: u64, x: u64, entry: Entry) -> bool
    ensures { result ≡ meets interval.now i x entry }
{
    entry.start <= i && i <= entry.place && interval.contains(entry.ts.saturating_sub(x))
}

/// Whether some entry meets UNTIL there. Each is asked in turn.
pub(crate) fn some_meets(list: &ShortQueue<Entry>, interval: &Interval, i: u64, x: u64) -> bool
    ensures { result ≡ met_by interval.now i x list.now }
{
    for k in 0..list.len() {
        if meets(interval, i, x, list.get(k)) {
            return true;
        }
    }
    false
}

fn is_far(interval: &Interval, i: u64, x: u64, entry: Entry) -> bool
    ensures { result ≡ is_far interval.now i x entry }
{
    i <= entry.place && interval.lo <= entry.ts.saturating_sub(x)
}

// the place of the first entry that is far enough, by a binary search
fn first_far(list: &ShortQueue<Entry>, interval: &Interval, i: u64, x: u64) -> usize
    requires places { PlacesAscend list.now }
    requires times { IsNonDecreasingBy (λ e. e.ts) list.now }
    ensures within { result ≤ length list.now }
    ensures parts { IsPartitionPoint (λ e. is_far interval.now i x e ≡ false)
        (λ e. is_far interval.now i x e ≡ true) list.now result }
{
    let mut low = 0;
    let mut high = list.len();
    while low < high {
        let middle = low + (high - low) / 2;
        if is_far(interval, i, x, list.get(middle)) {
            high = middle;
        } else {
            low = middle + 1;
        }
    }
    low
}

/// The same of entries in order. Only the first that is far enough is asked: if it begins behind the position `i`, so
/// do those behind it, and if it is too far, so are they.
pub(crate) fn first_meets(list: &ShortQueue<Entry>, interval: &Interval, i: u64, x: u64) -> bool
    requires places { PlacesAscend list.now }
    requires rise { RiseFrom i list.now }
    ensures { result ≡ met_by interval.now i x list.now }
{
    let place = first_far(list, interval, i, x);
    place < list.len() && meets(interval, i, x, list.get(place))
}
