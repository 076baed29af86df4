//! A PREVIOUS takes a time and its operand's tables.
ghost use Rattle.std.specs.Prelude.{◌≡◌, ◌∷◌, [], false, IfOk, OnOk};
ghost use Rattle.eval_since.specs.PreviousView.{previous_due};
ghost use Rattle.monitor_nodes.specs.PreviousFeeding.{PreviousPulled, PreviousPushed, PreviousTakes};

use crate::tables::Tables;
use eval_since::PrevState;
use relations::Table;
use std::alloc::{AllocError, Global};

/// Pushes a time and the operand's tables, and pulls all tables that are due then.
pub fn take_previous(
    alloc: Global,
    state: &mut PrevState,
    ts: u64,
    operand: Tables,
) -> Result<Tables, AllocError>
    ensures { IfOk result (PreviousTakes state.old ts operand state.new) }
{
    if !state.takes_time() {
        return Err(AllocError);
    }
    state.push_time(ts)?;
    push_tables(state, operand)?;
    pulled(alloc, state)
}

fn push_tables(state: &mut PrevState, tables: Tables) -> Result<(), AllocError>
    ensures { OnOk result (PreviousPushed state.old state.new tables) }
{
    for table in tables {
        push_table(state, table)?;
    }
    Ok(())
}

fn push_table(state: &mut PrevState, table: Table) -> Result<(), AllocError>
    ensures { OnOk result (PreviousPushed state.old state.new (table ∷ [])) }
{
    if !state.takes_right(&table) {
        return Err(AllocError);
    }
    state.push_right(table)?;
    Ok(())
}

fn pulled(alloc: Global, state: &mut PrevState) -> Result<Tables, AllocError>
    ensures pulled { IfOk result (PreviousPulled state.old state.new) }
    ensures ends { OnOk result (previous_due state.new ≡ false) }
{
    let mut tables = Tables::new();
    while let Some(table) = state.pull(alloc)? {
        tables.push(alloc, table)?;
    }
    Ok(tables)
}
