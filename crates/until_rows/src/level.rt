//! From which position on a row's entries are in order.
ghost use Rattle.std.specs.Prelude.{◌∷◌, ◌++◌, [], List};
ghost use Rattle.until_rows.specs.declared.entries.Entry.{Entry};
ghost use Rattle.until_rows.specs.Levels.{HasLevel, IsLast};

use crate::entries::Entry;

/// The level of entries of which the times fall. It is no position.
pub(crate) const NEVER: u64 = u64::MAX;

/// The level of entries, of which `last` is the last one, with one more behind them. Of a negated left operand a start
/// that isn't behind the next position is forgotten, and counts as the first position later. So an entry may begin
/// before the last one does; but then no position before the last one's start is asked for any more, and seen from there
/// on the two begin alike.
pub(crate) fn next_level(level: u64, last: Option<Entry>, entry: Entry) -> u64
    ensures { (entries : List Entry) → IsLast last entries → HasLevel level entries →
        HasLevel result (entries ++ entry ∷ []) }
{
    let Some(last) = last else {
        return 0;
    };
    if entry.ts < last.ts {
        NEVER
    } else if entry.start < last.start {
        level.max(last.start)
    } else {
        level
    }
}

/// The level of a list of entries.
pub(crate) fn level_of(list: &[Entry]) -> u64
    ensures { HasLevel result list.now }
{
    let mut level = 0;
    let mut last = None;
    for entry in list {
        level = next_level(level, last, *entry);
        last = Some(*entry);
    }
    level
}
