//! What rows are found by in a map: themselves, or the integer where they have nothing else.
ghost use Rattle.std.specs.Prelude.{◌≡◌, IfOk, MatchOption, false};
ghost use Rattle.mfotl_model.specs.Tables.{has_row, part};
ghost use Rattle.row_times.specs.RowKeys.{is_int, one_int};

use crate::keys::has_part;
use mfotl_model::{Row, Value as OneValue};
use relations::{Table, part_of};
use std::alloc::{AllocError, Global};
use std::hash::Hash;

/// What stands for a row in a map. Keys are equal exactly where their rows are.
pub(crate) trait RowKey: Eq + Hash + Drop {
    ghost use Rattle.std.specs.Prelude.{List};
    ghost use Rattle.std.specs.BTreeMap.{is_at};
    ghost use Rattle.mfotl_model.specs.Values.{row_cmp};
    ghost use Rattle.mfotl_model.specs.declared.value.Value.{Value};

    // the row that it stands for
    ghost row_of: { Self → List Value };

    fn to_row(&self, alloc: Global) -> Result<Row, AllocError>
        ensures { IfOk result (λ row. row ≡ row_of self.now) };

    /// Whether the part of its row over these columns, at the columns of `keys`, is one of their rows.
    fn has_part(&self, alloc: Global, columns: &[u32], keys: &Table) -> Result<bool, AllocError>
        ensures { IfOk result (λ yes.
            yes ≡ has_row keys.now.rows (part columns.now keys.now.columns (row_of self.now))) };

    ghost same: { (k l : Self) → is_at (row_cmp (row_of k)) (row_of l) ≡ Self.eq k l };
}

impl RowKey for i64 {
    ghost use Rattle.row_times.specs.RowKeys.{one_int, same_ints};

    ghost row_of = { one_int };

    ghost same = { same_ints };

    fn to_row(&self, alloc: Global) -> Result<Row, AllocError> {
        Row::empty().push(alloc, OneValue::Int(*self))
    }

    fn has_part(&self, alloc: Global, columns: &[u32], keys: &Table) -> Result<bool, AllocError> {
        let values = [OneValue::Int(*self)];
        let key = part_of(alloc, columns, keys.columns(), &values)?;
        Ok(keys.contains(&key))
    }
}

impl RowKey for Row {
    ghost use Rattle.std.specs.Prelude.{refl};
    ghost use Rattle.row_times.specs.RowKeys.{itself};

    ghost row_of = { itself };

    ghost same = { λ k l. refl };

    fn to_row(&self, alloc: Global) -> Result<Row, AllocError> {
        self.copy(alloc)
    }

    fn has_part(&self, alloc: Global, columns: &[u32], keys: &Table) -> Result<bool, AllocError> {
        has_part(alloc, columns, self, keys)
    }
}

/// The integer of a row of one integer.
pub(crate) fn int_of(row: &Row) -> Option<i64>
    ensures { MatchOption result (is_int row.now ≡ false) (λ number. row.now ≡ one_int number) }
{
    match row.values() {
        [OneValue::Int(number)] => Some(*number),
        _ => None,
    }
}
