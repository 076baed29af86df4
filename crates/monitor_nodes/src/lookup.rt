//! A window is asked by the values that a table has of some of its columns.
ghost use Rattle.std.specs.Prelude.{◌≡◌, ◌||◌, ◌&&◌, ℕ, IfOk, IsTrue, OnOk};
ghost use Rattle.mfotl_model.specs.FreeVariables.{among};
ghost use Rattle.mfotl_model.specs.Satisfaction.{Valuation};
ghost use Rattle.mfotl_model.specs.Tables.{has};
ghost use Rattle.monitor_nodes.specs.FilterFeeding.{Finds, Joins, WindowGoes};
ghost use Rattle.monitor_nodes.specs.WindowNode.{window_due, window_took_all};

use crate::ordering::in_order;
use crate::window::{Window, columns, go_on, pulled_of};
use relations::{Columns, Table, all_among, common};
use std::alloc::{AllocError, Global};

/// Goes on by one position: a table's rows, each with those of which the window holds that agree with it.
/// The columns are those of `order`.
pub fn joined(
    alloc: Global,
    window: &mut Window,
    order: &Table,
    table: &Table,
) -> Result<Table, AllocError>
    requires due { IsTrue (window_due window.old) }
    requires all { IsTrue (window_took_all window.old) }
    ensures goes { OnOk result (WindowGoes window.old window.new) }
    ensures gives { IfOk result (Joins window.old order.now table.now) }
{
    if table.rows().is_empty() {
        go_on(alloc, window)?;
        let columns = Columns::from_slice(alloc, order.columns())?;
        return Ok(Table::empty(alloc, columns));
    }
    let found = found_for(alloc, window, table)?;
    let both = paired(alloc, table, found)?;
    let kept = in_order(alloc, both, order)?;
    Ok(kept)
}

// The join of both. Where the window has all of the table's columns, it is some of the rows that were found, which
// are moved.
fn paired(alloc: Global, table: &Table, found: Table) -> Result<Table, AllocError>
    ensures columns { IfOk result (λ both. (y : ℕ) →
        among y both.columns ≡ (among y table.now.columns || among y found.columns)) }
    ensures has { IfOk result (λ both. (v : Valuation) → has both v ≡ (has table.now v && has found v)) }
{
    if all_among(table.columns(), found.columns()) {
        let both = found.joined(alloc, table)?;
        return Ok(both);
    }
    let both = table.join(alloc, &found)?;
    Ok(both)
}

// Goes on by one position. Of the rows of which the window holds there it gives at least those that agree with a row
// of the table.
fn found_for(alloc: Global, window: &mut Window, table: &Table) -> Result<Table, AllocError>
    requires due { IsTrue (window_due window.old) }
    requires all { IsTrue (window_took_all window.old) }
    ensures goes { OnOk result (WindowGoes window.old window.new) }
    ensures finds { IfOk result (Finds window.old table.now) }
{
    let shared = common(alloc, columns(window), table.columns())?;
    if shared.as_slice() == table.columns() {
        return pulled_of(alloc, window, table);
    }
    let keys = table.project(alloc, shared)?;
    pulled_of(alloc, window, &keys)
}
