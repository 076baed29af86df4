//! A conjunction takes its children's tables.
ghost use Rattle.std.specs.Prelude.{◌≡◌, ◌+◌, ◌<◌, false, length, IfOk, OnOk};
ghost use Rattle.eval_bool.specs.JoinView.{child_pushed, join_due};
ghost use Rattle.monitor_nodes.specs.JoinFeeding.{JoinPulled, JoinTakes, child_fed, join_fed};

use crate::tables::Tables;
use eval_bool::JoinState;
use relations::Table;
use std::alloc::{AllocError, Global};

/// Pushes the children's tables, one list for each child, and pulls all tables that are due then.
pub fn take_join(
    alloc: Global,
    state: &mut JoinState,
    lists: Vec<Tables>,
) -> Result<Tables, AllocError>
    requires { 0 < length state.old.children }
    ensures { IfOk result (JoinTakes state.old lists.items state.new) }
{
    push_children(state, lists)?;
    pulled(alloc, state)
}

fn push_children(state: &mut JoinState, lists: Vec<Tables>) -> Result<(), AllocError>
    ensures { OnOk result (state.new ≡ join_fed state.old lists.items) }
{
    let mut child = 0u32;
    for tables in lists {
        push_child(state, child, tables)?;
        child = next(child)?;
    }
    Ok(())
}

fn next(child: u32) -> Result<u32, AllocError>
    ensures { IfOk result (λ next. next ≡ child + 1) }
{
    child.checked_add(1).ok_or(AllocError)
}

fn push_child(state: &mut JoinState, child: u32, tables: Tables) -> Result<(), AllocError>
    ensures { OnOk result (state.new ≡ record state.old { children = child_fed state.old.children child tables }) }
{
    for table in tables {
        push_table(state, child, table)?;
    }
    Ok(())
}

fn push_table(state: &mut JoinState, child: u32, table: Table) -> Result<(), AllocError>
    ensures { OnOk result (state.new ≡ record state.old { children = child_pushed state.old.children child table }) }
{
    if !state.takes(child, &table) {
        return Err(AllocError);
    }
    state.push(child, table)
}

fn pulled(alloc: Global, state: &mut JoinState) -> Result<Tables, AllocError>
    requires { 0 < length state.old.children }
    ensures pulled { IfOk result (JoinPulled state.old state.new) }
    ensures ends { OnOk result (join_due state.new ≡ false) }
{
    let mut tables = Tables::new();
    while let Some(table) = state.pull(alloc)? {
        tables.push(alloc, table)?;
    }
    Ok(tables)
}
