//! Tables whose columns are put into another order.
ghost use Rattle.std.specs.Prelude.{◌≡◌, ◌↔◌, IfOk, IsTrue};
ghost use Rattle.mfotl_model.specs.Satisfaction.{Valuation};
ghost use Rattle.mfotl_model.specs.Tables.{all_among, all_apart, has};

use relations::{Columns, Table};
use std::alloc::{AllocError, Global};

pub(crate) fn are_same(first: &[u32], second: &[u32]) -> bool
    ensures { IsTrue result ↔ (first.now ≡ second.now) }
{
    first == second
}

/// The table with its columns in this order. One that has them so already is moved.
pub fn reordered(alloc: Global, table: Table, columns: &[u32]) -> Result<Table, AllocError>
    requires apart { IsTrue (all_apart columns.now) }
    requires inside { IsTrue (all_among columns.now table.columns) }
    requires whole { IsTrue (all_among table.columns columns.now) }
    ensures columns { IfOk result (λ turned. turned.columns ≡ columns.now) }
    ensures has { IfOk result (λ turned. (v : Valuation) → has turned v ≡ has table v) }
{
    if are_same(table.columns(), columns) {
        return Ok(table);
    }
    let columns = Columns::from_slice(alloc, columns)?;
    let turned = table.project(alloc, columns)?;
    Ok(turned)
}
