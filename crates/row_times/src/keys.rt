//! Parts of rows that a table has.
ghost use Rattle.std.specs.Prelude.{◌≡◌, IfOk};
ghost use Rattle.mfotl_model.specs.Tables.{has_row, part};

use mfotl_model::Row;
use relations::{Table, part_of};
use std::alloc::{AllocError, Global};

/// Whether the part of a row over these columns, at the columns of `keys`, is one of its rows.
pub fn has_part(alloc: Global, columns: &[u32], row: &Row, keys: &Table) -> Result<bool, AllocError>
    ensures { IfOk result (λ yes.
        yes ≡ has_row keys.now.rows (part columns.now keys.now.columns row.now)) }
{
    let key = part_of(alloc, columns, keys.columns(), row.values())?;
    Ok(keys.contains(&key))
}
