//! Whether a table may be pushed.
ghost use Rattle.std.specs.Prelude.{◌≡◌, ◌+◌, ◌<◌, ◌^◌, IsTrue};

use crate::reorder::are_same;
use relations::Table;

/// Whether the table is over these columns, and the tables that wait for later positions than those
/// pulled are few enough for one more.
pub(crate) fn fits(columns: &[u32], pulled: u64, waiting: usize, table: &Table) -> bool
    ensures columns { IsTrue result → table.now.columns ≡ columns.now }
    ensures few { IsTrue result → pulled + waiting < 2 ^ 63 }
    ensures enough { table.now.columns ≡ columns.now → pulled + waiting < 2 ^ 63 → IsTrue result }
{
    are_same(table.columns(), columns) && (waiting as u64) < (1u64 << 63).saturating_sub(pulled)
}
