//! An UNTIL takes a time and its operands' tables.
ghost use Rattle.std.specs.Prelude.{◌≡◌, ◌+◌, ◌<◌, ◌++◌, ◌∷◌, [], ℕ, Bool, List, false, true, length, IfOk, OnOk};
ghost use Rattle.eval_until.specs.UntilView.{Follows, FollowsLeft, due, took_all};
ghost use Rattle.mfotl_model.specs.Satisfaction.{Valuation, time_at};
ghost use Rattle.monitor_nodes.specs.UntilFeeding.{UntilFeeds, UntilLeftsPushed, UntilPulled, UntilRightsPushed};
ghost use Rattle.monitor_nodes.specs.UntilFeeding.{UntilTakes};

use crate::ordering::push_in_order;
use crate::tables::Tables;
use eval_until::UntilState;
use relations::Table;
use std::alloc::{AllocError, Global};

/// Pushes a time and the operands' tables, and pulls all tables that are due then, in the given order of
/// the columns.
pub fn take_until(
    alloc: Global,
    state: &mut UntilState,
    order: &Table,
    ts: u64,
    left: Tables,
    right: Tables,
) -> Result<Tables, AllocError>
    ensures { IfOk result (λ tables. UntilTakes order.now.columns state.old ts left right state.new tables) }
{
    feed_until(state, ts, left, right)?;
    pulled(alloc, state, order)
}

/// Pushes a time and the operands' tables.
pub fn feed_until(
    state: &mut UntilState,
    ts: u64,
    left: Tables,
    right: Tables,
) -> Result<(), AllocError>
    ensures { OnOk result (UntilFeeds state.old ts left right state.new) }
{
    push_time(state, ts)?;
    push_lefts(state, left)?;
    push_rights(state, right)
}

fn push_time(state: &mut UntilState, ts: u64) -> Result<(), AllocError>
    ensures pushed { OnOk result (state.new ≡ record state.old { times = state.old.times ++ ts ∷ [] }) }
    ensures left { OnOk result ((a : List Bool) (v : Valuation) → FollowsLeft state.old a v
        → FollowsLeft state.new a v) }
    ensures follows { OnOk result ((t : List ℕ) (a b : List Bool) (v : Valuation) → Follows state.old t a b v
        → ts ≡ time_at t (state.old.ahead.pulled + length state.old.times)
        → state.old.ahead.pulled + length state.old.times < length t → Follows state.new t a b v) }
{
    if !state.takes_time() {
        return Err(AllocError);
    }
    state.push_time(ts)
}

fn push_lefts(state: &mut UntilState, tables: Tables) -> Result<(), AllocError>
    ensures { OnOk result (UntilLeftsPushed state.old state.new tables) }
{
    for table in tables {
        push_left(state, table)?;
    }
    Ok(())
}

fn push_left(state: &mut UntilState, table: Table) -> Result<(), AllocError>
    ensures { OnOk result (UntilLeftsPushed state.old state.new (table ∷ [])) }
{
    if !state.takes_left(&table) {
        return Err(AllocError);
    }
    state.push_left(table)?;
    Ok(())
}

fn push_rights(state: &mut UntilState, tables: Tables) -> Result<(), AllocError>
    ensures { OnOk result (UntilRightsPushed state.old state.new tables) }
{
    for table in tables {
        push_right(state, table)?;
    }
    Ok(())
}

fn push_right(state: &mut UntilState, table: Table) -> Result<(), AllocError>
    ensures { OnOk result (UntilRightsPushed state.old state.new (table ∷ [])) }
{
    if !state.takes_right(&table) {
        return Err(AllocError);
    }
    state.push_right(table)?;
    Ok(())
}

fn pulled(alloc: Global, state: &mut UntilState, order: &Table) -> Result<Tables, AllocError>
    ensures pulled { IfOk result (UntilPulled order.now.columns state.old state.new) }
    ensures ends { OnOk result (due state.new ≡ false) }
    ensures all { OnOk result (took_all state.new ≡ true) }
{
    let mut tables = Tables::new();
    while let Some(table) = state.pull(alloc)? {
        push_in_order(alloc, &mut tables, table, order)?;
    }
    Ok(tables)
}
