//! Rows found by their hashes.
ghost use Rattle.std.specs.Prelude.{◌≡◌, IfOk, IsTrue, List, length};
ghost use Rattle.std.specs.List.{filter};
ghost use Rattle.mfotl_model.specs.FreeVariables.{joined};
ghost use Rattle.mfotl_model.specs.Tables.{all_sized, has_row};
ghost use Rattle.mfotl_model.specs.declared.value.Value.{Value};
ghost use Rattle.relations.specs.Operations.{common, has_part, pairs};

use crate::index::Index;
use crate::pairs::kept_pairs;
use crate::steps::Steps;
use crate::table::Table;
use mfotl_model::Row;
use std::alloc::{AllocError, Global};
use std::collections::HashSet;
use std::sync::ledger::Ledger;

/// Copies of the rows as a set.
fn hashed(alloc: Global, rows: &[Row]) -> Result<HashSet<Row>, AllocError>
    ensures { IfOk result (λ set. (q : List Value) → has_row set.keys q ≡ has_row rows.now q) }
{
    let mut set = HashSet::new(alloc);
    for row in rows {
        set.insert(row.copy(alloc)?)?;
    }
    Ok(set)
}

/// The pairs of a table's rows with the index's that agree and of which the third has a part, by a set of
/// the third's rows.
pub(crate) fn pairs_kept_by<L: Ledger>(
    alloc: Global,
    first: &Table,
    index: &Index,
    third: &Table,
    steps: &mut Steps<L>,
) -> Result<Vec<Row>, AllocError>
    requires key { index.now.key_columns ≡ common first.now.columns index.now.columns }
    ensures sized { IfOk result (λ rows.
        IsTrue (all_sized (length (joined first.now.columns index.now.columns)) rows.items)) }
    ensures rows { IfOk result (λ rows. rows.items ≡
        filter (has_part third.now (joined first.now.columns index.now.columns))
        (pairs first.now.columns index.now.columns first.now.rows index.now.rows)) }
{
    let columns = first.columns();
    let wanted = third.columns();
    let set = hashed(alloc, third.rows())?;
    let rows = kept_pairs(alloc, columns, first.rows(), index, wanted, &set, steps)?;
    Ok(rows)
}
