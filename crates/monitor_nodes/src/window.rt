//! Windows, which are asked row by row, or by some values of rows.
ghost use Rattle.std.specs.Prelude.{◌≡◌, IfOk, IsTrue, OnOk};
ghost use Rattle.mfotl_model.specs.Tables.{all_among, valuation};
ghost use Rattle.monitor_nodes.specs.FilterFeeding.{Finds, WindowFeeds, WindowGoes, WindowSettles};
ghost use Rattle.monitor_nodes.specs.WindowNode.{WindowHolds, window_columns, window_due, window_took_all};

use crate::since::feed_since;
use crate::tables::Tables;
use crate::until::feed_until;
use eval_since::SinceState;
use eval_until::UntilState;
use mfotl_model::Row;
use relations::Table;
use std::alloc::{AllocError, Global};

/// A SINCE or an UNTIL that is asked for rows: no table of all of its is made.
#[derive(Drop)]
pub enum Window {
    Since(SinceState),
    Until(UntilState),
}

/// Takes a time and the operands' tables.
pub fn feed_window(
    window: &mut Window,
    ts: u64,
    left: Tables,
    right: Tables,
) -> Result<(), AllocError>
    ensures { OnOk result (WindowFeeds window.old ts left right window.new) }
{
    match window {
        Window::Since(state) => feed_since(state, ts, left, right),
        Window::Until(state) => feed_until(state, ts, left, right),
    }
}

/// Takes the positions that can be taken, as an answer asks.
pub fn settle(alloc: Global, window: &mut Window) -> Result<(), AllocError>
    ensures settles { OnOk result (WindowSettles window.old window.new) }
    ensures all { OnOk result (IsTrue (window_took_all window.new)) }
{
    match window {
        Window::Since(_) => Ok(()),
        Window::Until(state) => state.take_all(alloc),
    }
}

/// Whether the next position can be asked for and pulled.
pub fn is_due(window: &Window) -> bool
    ensures { result ≡ window_due window.now }
{
    match window {
        Window::Since(state) => state.is_due(),
        Window::Until(state) => state.is_due(),
    }
}

/// Whether the window holds at the next position, of the valuation that a row gives to these columns.
pub fn holds(alloc: Global, window: &Window, columns: &[u32], row: &Row) -> Result<bool, AllocError>
    requires due { IsTrue (window_due window.now) }
    requires all { IsTrue (window_took_all window.now) }
    ensures { IfOk result (WindowHolds window.now (valuation columns.now row.now)) }
{
    match window {
        Window::Since(state) => state.holds(alloc, columns, row),
        Window::Until(state) => state.holds(alloc, columns, row),
    }
}

/// The columns of the window's rows.
pub fn columns(window: &Window) -> &[u32]
    ensures { result.now ≡ window_columns window.now }
{
    match window {
        Window::Since(state) => state.columns(),
        Window::Until(state) => state.right_columns(),
    }
}

/// Goes on by one position. Of the rows of which the window holds there it gives at least those whose part at
/// the columns of `keys` is one of its rows.
pub fn pulled_of(alloc: Global, window: &mut Window, keys: &Table) -> Result<Table, AllocError>
    requires due { IsTrue (window_due window.old) }
    requires all { IsTrue (window_took_all window.old) }
    requires inside { IsTrue (all_among keys.now.columns (window_columns window.old)) }
    ensures goes { OnOk result (WindowGoes window.old window.new) }
    ensures finds { IfOk result (Finds window.old keys.now) }
{
    match window {
        Window::Since(state) => since_of(alloc, state, keys),
        Window::Until(state) => until_of(alloc, state, keys),
    }
}

fn since_of(alloc: Global, state: &mut SinceState, keys: &Table) -> Result<Table, AllocError>
    requires due { IsTrue (window_due (Window.Since state.old)) }
    requires inside { IsTrue (all_among keys.now.columns state.old.window.right) }
    ensures goes { OnOk result (WindowGoes (Window.Since state.old) (Window.Since state.new)) }
    ensures finds { IfOk result (Finds (Window.Since state.old) keys.now) }
{
    state.advance(alloc)?;
    let found = state.table_of(alloc, keys)?;
    Ok(found)
}

fn until_of(alloc: Global, state: &mut UntilState, keys: &Table) -> Result<Table, AllocError>
    requires due { IsTrue (window_due (Window.Until state.old)) }
    requires all { IsTrue (window_took_all (Window.Until state.old)) }
    requires inside { IsTrue (all_among keys.now.columns state.old.ahead.right) }
    ensures goes { OnOk result (WindowGoes (Window.Until state.old) (Window.Until state.new)) }
    ensures finds { IfOk result (Finds (Window.Until state.old) keys.now) }
{
    let found = state.table_of(alloc, keys)?;
    state.advance(alloc)?;
    Ok(found)
}

/// Goes on by one position.
pub fn go_on(alloc: Global, window: &mut Window) -> Result<(), AllocError>
    requires due { IsTrue (window_due window.old) }
    ensures { OnOk result (WindowGoes window.old window.new) }
{
    match window {
        Window::Since(state) => state.advance(alloc),
        Window::Until(state) => state.advance(alloc),
    }
}
