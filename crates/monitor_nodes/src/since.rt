//! A SINCE takes a time and its operands' tables.
ghost use Rattle.std.specs.Prelude.{◌≡◌, ◌+◌, ◌++◌, ◌∷◌, [], ℕ, Bool, List, false, length, IfOk, OnOk};
ghost use Rattle.eval_since.specs.SinceView.{Follows, due};
ghost use Rattle.mfotl_model.specs.Satisfaction.{Valuation, time_at};
ghost use Rattle.monitor_nodes.specs.Feeding.{LeftsPushed, RightsPushed, SinceFeeds, SincePulled, SinceTakes};

use crate::ordering::push_in_order;
use crate::tables::Tables;
use eval_since::SinceState;
use relations::Table;
use std::alloc::{AllocError, Global};

/// Pushes a time and the operands' tables, and pulls all tables that are due then, in the given order of
/// the columns.
pub fn take_since(
    alloc: Global,
    state: &mut SinceState,
    order: &Table,
    ts: u64,
    left: Tables,
    right: Tables,
) -> Result<Tables, AllocError>
    ensures { IfOk result (λ tables. SinceTakes order.now.columns state.old ts left right state.new tables) }
{
    feed_since(state, ts, left, right)?;
    pulled(alloc, state, order)
}

/// Pushes a time and the operands' tables.
pub fn feed_since(
    state: &mut SinceState,
    ts: u64,
    left: Tables,
    right: Tables,
) -> Result<(), AllocError>
    ensures { OnOk result (SinceFeeds state.old ts left right state.new) }
{
    push_time(state, ts)?;
    push_lefts(state, left)?;
    push_rights(state, right)
}

fn push_time(state: &mut SinceState, ts: u64) -> Result<(), AllocError>
    ensures pushed { OnOk result
        (state.new ≡ record state.old { newest = ts; times = state.old.times ++ ts ∷ [] }) }
    ensures follows { OnOk result ((t : List ℕ) (a b : List Bool) (v : Valuation) → Follows state.old t a b v
        → ts ≡ time_at t (state.old.pulled + length state.old.times) → Follows state.new t a b v) }
{
    if !state.takes_time(ts) {
        return Err(AllocError);
    }
    state.push_time(ts)
}

fn push_lefts(state: &mut SinceState, tables: Tables) -> Result<(), AllocError>
    ensures { OnOk result (LeftsPushed state.old state.new tables) }
{
    for table in tables {
        push_left(state, table)?;
    }
    Ok(())
}

fn push_left(state: &mut SinceState, table: Table) -> Result<(), AllocError>
    ensures { OnOk result (LeftsPushed state.old state.new (table ∷ [])) }
{
    if !state.takes_left(&table) {
        return Err(AllocError);
    }
    state.push_left(table)?;
    Ok(())
}

fn push_rights(state: &mut SinceState, tables: Tables) -> Result<(), AllocError>
    ensures { OnOk result (RightsPushed state.old state.new tables) }
{
    for table in tables {
        push_right(state, table)?;
    }
    Ok(())
}

fn push_right(state: &mut SinceState, table: Table) -> Result<(), AllocError>
    ensures { OnOk result (RightsPushed state.old state.new (table ∷ [])) }
{
    if !state.takes_right(&table) {
        return Err(AllocError);
    }
    state.push_right(table)?;
    Ok(())
}

fn pulled(alloc: Global, state: &mut SinceState, order: &Table) -> Result<Tables, AllocError>
    ensures pulled { IfOk result (SincePulled order.now.columns state.old state.new) }
    ensures ends { OnOk result (due state.new ≡ false) }
{
    let mut tables = Tables::new();
    while let Some(table) = state.pull(alloc)? {
        push_in_order(alloc, &mut tables, table, order)?;
    }
    Ok(tables)
}
