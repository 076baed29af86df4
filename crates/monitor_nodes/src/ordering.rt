//! Tables with their columns in another order.
ghost use Rattle.std.specs.Prelude.{◌≡◌, IfOk, IsTrue, OnOk};
ghost use Rattle.eval_bool.specs.OrView.{same_columns};
ghost use Rattle.mfotl_model.specs.Satisfaction.{Valuation};
ghost use Rattle.mfotl_model.specs.Tables.{all_among, has};
ghost use Rattle.monitor_nodes.specs.Ordered.{PushedInOrder};

use crate::tables::Tables;
use eval_bool::reordered;
use relations::{Table, all_among};
use std::alloc::{AllocError, Global};

/// The table with its columns in the order that those of another table have. It errs where memory is wanting or these are
/// other columns.
pub fn in_order(alloc: Global, table: Table, order: &Table) -> Result<Table, AllocError>
    ensures columns { IfOk result (λ ordered. ordered.columns ≡ order.now.columns) }
    ensures has { IfOk result (λ ordered. IsTrue (all_among order.now.columns table.columns)
        → IsTrue (all_among table.columns order.now.columns)
        → (v : Valuation) → has ordered v ≡ has table v) }
{
    if !same_columns(order.columns(), table.columns()) {
        return Err(AllocError);
    }
    reordered(alloc, table, order.columns())
}

/// Adds a table with its columns in the order that those of another table have. They are the same columns.
pub fn push_in_order(
    alloc: Global,
    tables: &mut Tables,
    table: Table,
    order: &Table,
) -> Result<(), AllocError>
    ensures { OnOk result (PushedInOrder order.now.columns table tables.old tables.new) }
{
    tables.push(alloc, in_order(alloc, table, order)?)
}

// Whether both lists have the same columns, in whatever order.
fn same_columns(first: &[u32], second: &[u32]) -> bool
    ensures { result ≡ same_columns first.now second.now }
{
    all_among(first, second) && all_among(second, first)
}
