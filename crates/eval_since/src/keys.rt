//! The columns that rows are grouped by, and what the left operand says of a part of a row.
ghost use Rattle.std.specs.Prelude.{◌≡◌};
ghost use Rattle.eval_since.specs.LeftOperand.{grouping, left_has};

use mfotl_model::Row;
use relations::Table;

/// The columns whose values rows are grouped by: the left operand's, or where it has none these.
pub fn grouping<'a>(left: &'a [u32], keys: &'a [u32]) -> &'a [u32]
    ensures { result.now ≡ grouping left.now keys.now }
{
    if left.is_empty() { keys } else { left }
}

/// Whether the left operand with this table holds of a row.
pub fn holds_on(negated: bool, table: &Table, row: &Row) -> bool
    ensures { result ≡ left_has negated table.now.rows row.now }
{
    if negated {
        !table.contains(row)
    } else {
        table.contains(row)
    }
}
