//! An OR takes its operands' tables.
ghost use Rattle.std.specs.Prelude.{◌≡◌, false, IfOk, OnOk};
ghost use Rattle.eval_bool.specs.OrView.{or_due, or_pushed};
ghost use Rattle.monitor_nodes.specs.OrFeeding.{OrPulled, OrTakes, operand_fed};

use crate::tables::Tables;
use eval_bool::OrState;
use relations::Table;
use std::alloc::{AllocError, Global};

/// Pushes the operands' tables, and pulls all tables that are due then.
pub fn take_or(
    alloc: Global,
    state: &mut OrState,
    left: Tables,
    right: Tables,
) -> Result<Tables, AllocError>
    ensures { IfOk result (OrTakes state.old left right state.new) }
{
    push_operand(state, 0, left)?;
    push_operand(state, 1, right)?;
    pulled(alloc, state)
}

fn push_operand(state: &mut OrState, child: u32, tables: Tables) -> Result<(), AllocError>
    ensures { OnOk result (state.new ≡ operand_fed state.old child tables) }
{
    for table in tables {
        push_table(state, child, table)?;
    }
    Ok(())
}

fn push_table(state: &mut OrState, child: u32, table: Table) -> Result<(), AllocError>
    ensures { OnOk result (state.new ≡ or_pushed state.old child table) }
{
    if !state.takes(child, &table) {
        return Err(AllocError);
    }
    state.push(child, table)
}

fn pulled(alloc: Global, state: &mut OrState) -> Result<Tables, AllocError>
    ensures pulled { IfOk result (OrPulled state.old state.new) }
    ensures ends { OnOk result (or_due state.new ≡ false) }
{
    let mut tables = Tables::new();
    while let Some(table) = state.pull(alloc)? {
        tables.push(alloc, table)?;
    }
    Ok(tables)
}
