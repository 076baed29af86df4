//! A conjunction whose right side is asked for the left one's rows takes a time and its operands' tables.
ghost use Rattle.std.specs.Prelude.{◌≡◌, ◌++◌, ◌∷◌, [], cond, IfOk, IsTrue, MatchOption, None, OnOk};
ghost use Rattle.relations.specs.Pushed.{turned};
ghost use Rattle.relations.specs.Tables.{IsTable};
ghost use Rattle.monitor_nodes.specs.FilterFeeding.{FilterPulled, FilterStep, FilterStops, FilterTakes, RowSifted};
ghost use Rattle.monitor_nodes.specs.FilterFeeding.{FiltersOrJoins, Sifts, WindowGoes};
ghost use Rattle.monitor_nodes.specs.WindowNode.{window_due, window_took_all};

use crate::lookup::joined;
use crate::tables::Tables;
use crate::window::{Window, feed_window, go_on, holds, is_due, settle};
use mfotl_model::Row;
use relations::Table;
use std::alloc::{AllocError, Global};

/// The state of a conjunction whose right side, a window or the NOT of one, is asked for the rows of the
/// left one alone: the left side's tables that were not used, and the window, which stays behind with
/// them. Where the window has more columns than the left side, a table has the order of those of both.
#[derive(Drop)]
pub struct FilterState {
    pub tables: Tables,
    pub window: Window,
    pub negated: bool,
    pub order: Option<Table>,
}

/// Pushes the operands' tables, and pulls all tables that are due then.
pub fn take_filter(
    alloc: Global,
    state: &mut FilterState,
    ts: u64,
    tables: Tables,
    left: Tables,
    right: Tables,
) -> Result<Tables, AllocError>
    ensures { IfOk result (FilterTakes state.old ts tables left right state.new) }
{
    feed_window(&mut state.window, ts, left, right)?;
    push_tables(alloc, &mut state.tables, tables)?;
    pulled(alloc, state)
}

fn push_tables(alloc: Global, kept: &mut Tables, tables: Tables) -> Result<(), AllocError>
    ensures { OnOk result (kept.new ≡ kept.old ++ tables) }
{
    for table in tables {
        kept.push(alloc, table)?;
    }
    Ok(())
}

fn pulled(alloc: Global, state: &mut FilterState) -> Result<Tables, AllocError>
    ensures { IfOk result (λ tables. (last : FilterState) × FilterPulled state.old last tables
        × FilterStops last state.new) }
{
    let mut tables = Tables::new();
    while let Some(table) = pull(alloc, state)? {
        tables.push(alloc, table)?;
    }
    Ok(tables)
}

// The next table, `None` while it is not due.
fn pull(alloc: Global, state: &mut FilterState) -> Result<Option<Table>, AllocError>
    ensures { IfOk result (λ answer.
        MatchOption answer (FilterStops state.old state.new) (FilterStep state.old state.new)) }
{
    settle(alloc, &mut state.window)?;
    if !is_due(&state.window) {
        return Ok(None);
    }
    let Some(table) = state.tables.take() else {
        return Ok(None);
    };
    let kept = given(alloc, &mut state.window, state.negated, &state.order, table)?;
    Ok(Some(kept))
}

// Goes on by one position: the rows of which the window holds, or doesn't where it is negated.
fn given(
    alloc: Global,
    window: &mut Window,
    negated: bool,
    order: &Option<Table>,
    table: Table,
) -> Result<Table, AllocError>
    requires due { IsTrue (window_due window.old) }
    requires all { IsTrue (window_took_all window.old) }
    ensures goes { OnOk result (WindowGoes window.old window.new) }
    ensures gives { IfOk result (FiltersOrJoins window.old negated order.now table) }
{
    match order {
        None => filtered(alloc, window, negated, table),
        Some(order) => joined(alloc, window, order, &table),
    }
}

fn filtered(
    alloc: Global,
    window: &mut Window,
    negated: bool,
    table: Table,
) -> Result<Table, AllocError>
    requires due { IsTrue (window_due window.old) }
    requires all { IsTrue (window_took_all window.old) }
    ensures goes { OnOk result (WindowGoes window.old window.new) }
    ensures gives { IfOk result (FiltersOrJoins window.old negated None table) }
{
    let kept = sifted(alloc, window, negated, table)?;
    go_on(alloc, window)?;
    Ok(kept)
}

// The rows of which the window holds, or doesn't where it is negated. No row is copied.
fn sifted(alloc: Global, window: &Window, negated: bool, table: Table) -> Result<Table, AllocError>
    requires due { IsTrue (window_due window.now) }
    requires all { IsTrue (window_took_all window.now) }
    ensures over { IfOk result (λ kept. kept.columns ≡ table.columns) }
    ensures sifts { IfOk result (λ kept. Sifts window.now negated table.columns table.rows kept.rows) }
{
    let (columns, rows) = table.into_parts();
    let kept = kept_rows(alloc, window, negated, columns.as_slice(), rows)?;
    Ok(Table::from_ascending(columns, kept))
}

fn kept_rows(
    alloc: Global,
    window: &Window,
    negated: bool,
    columns: &[u32],
    rows: Vec<Row>,
) -> Result<Vec<Row>, AllocError>
    requires due { IsTrue (window_due window.now) }
    requires all { IsTrue (window_took_all window.now) }
    requires is_table { IsTable columns.now rows.items }
    ensures is_table { IfOk result (λ kept. IsTable columns.now kept.items) }
    ensures sifts { IfOk result (λ kept. Sifts window.now negated columns.now rows.items kept.items) }
{
    let mut kept = Vec::new(alloc);
    for row in rows {
        keep_held(alloc, window, negated, columns, row, &mut kept)?;
    }
    Ok(kept)
}

fn keep_held(
    alloc: Global,
    window: &Window,
    negated: bool,
    columns: &[u32],
    row: Row,
    kept: &mut Vec<Row>,
) -> Result<(), AllocError>
    requires due { IsTrue (window_due window.now) }
    requires all { IsTrue (window_took_all window.now) }
    ensures { OnOk result (RowSifted window.now negated columns.now row kept.old.items kept.new.items) }
{
    let answer = holds(alloc, window, columns, &row)?;
    keep(kept, stays(negated, answer), row)
}

fn keep(kept: &mut Vec<Row>, stays: bool, row: Row) -> Result<(), AllocError>
    ensures { OnOk result (kept.new.items ≡ kept.old.items ++ cond stays (row ∷ []) []) }
{
    if stays {
        kept.push(row)?;
    }
    Ok(())
}

fn stays(negated: bool, holds: bool) -> bool
    ensures { result ≡ turned negated holds }
{
    if negated { !holds } else { holds }
}
