//! A NEXT takes a time and its operand's tables.
ghost use Rattle.std.specs.Prelude.{◌≡◌, ℕ, Bool, List, false, IfOk, OnOk};
ghost use Rattle.eval_until.specs.NextView.{FollowsNext, next_due, tables_pushed, with_table};
ghost use Rattle.mfotl_model.specs.Satisfaction.{Valuation, truth_at};
ghost use Rattle.mfotl_model.specs.Tables.{has};
ghost use Rattle.monitor_nodes.specs.NextFeeding.{NextPulled, NextPushed, NextTakes};

use crate::tables::Tables;
use eval_until::NextState;
use relations::Table;
use std::alloc::{AllocError, Global};

/// Pushes a time and the operand's tables, and pulls all tables that are due then.
pub fn take_next(
    alloc: Global,
    state: &mut NextState,
    ts: u64,
    operand: Tables,
) -> Result<Tables, AllocError>
    ensures { IfOk result (NextTakes state.old ts operand state.new) }
{
    if !state.takes_time() {
        return Err(AllocError);
    }
    state.push_time(ts)?;
    push_tables(state, operand)?;
    pulled(alloc, state)
}

fn push_tables(state: &mut NextState, tables: Tables) -> Result<(), AllocError>
    ensures { OnOk result (NextPushed state.old state.new tables) }
{
    for table in tables {
        push_table(state, table)?;
    }
    Ok(())
}

fn push_table(state: &mut NextState, table: Table) -> Result<(), AllocError>
    ensures pushed { OnOk result (state.new ≡ with_table state.old table) }
    ensures follows { OnOk result ((t : List ℕ) (a : List Bool) (v : Valuation) → FollowsNext state.old t a v
        → has table v ≡ truth_at a (tables_pushed state.old) → FollowsNext state.new t a v) }
{
    if !state.takes_right(&table) {
        return Err(AllocError);
    }
    state.push_right(table)
}

fn pulled(alloc: Global, state: &mut NextState) -> Result<Tables, AllocError>
    ensures pulled { IfOk result (NextPulled state.old state.new) }
    ensures ends { OnOk result (next_due state.new ≡ false) }
{
    let mut tables = Tables::new();
    while let Some(table) = state.pull(alloc)? {
        tables.push(alloc, table)?;
    }
    Ok(tables)
}
