//! The node of a conjunction whose right side is asked for the left one's rows.
ghost use Rattle.std.specs.Prelude.{◌≡◌, ◌&&◌, ◌∷◌, [], cond, IfOk, IsTrue, OnOk};
ghost use Rattle.relations.specs.Operations.{common};
ghost use Rattle.monitorable.specs.CoreForms.{node_form, meaning, And, Since, Until};
ghost use Rattle.monitorable.specs.Fragment.{bound_by};
ghost use Rattle.mfotl_model.specs.FreeVariables.{among, fv};
ghost use Rattle.mfotl_model.specs.Tables.{all_among};
ghost use Rattle.core_arranging.specs.Windows.{is_window, left_operand};
ghost use Rattle.monitor_state.specs.Beginnings.{Accepted, Adds, WindowBegun};
ghost use Rattle.monitor_nodes.specs.FilterNode.{GivenAs};
ghost use Rattle.monitor_nodes.specs.Operands.{adds_none, filters, is_keyed};

use crate::adding::add;
use crate::begin_until::until_state;
use crate::operators::{is_negated, since_state, without_rows};
use core_arranging::{is_window, some_among, without_not};
use mfotl_model::{Interval, is_among};
use monitor_nodes::{FilterState, Node, Tables, Window};
use monitorable::{Node as Core, Role, bound_by};
use relations::{Columns, Table, all_among, common};
use std::alloc::{AllocError, Global};

/// Whether a conjunction that is its own has a right side that is asked for the left one's rows.
pub fn is_filtered(alloc: Global, own: bool, left: &Core, right: &Core) -> Result<bool, AllocError>
    ensures { IfOk result (λ yes. yes ≡ (own && filters (node_form left.now) (node_form right.now))) }
{
    if !own || !is_window(without_not(right)) {
        return Ok(false);
    }
    Ok(adds_none(alloc, left, right)? || is_keyed(alloc, left, right)?)
}

// Whether the right side has no variables but those that the left one binds.
fn adds_none(alloc: Global, left: &Core, right: &Core) -> Result<bool, AllocError>
    ensures { IfOk result (λ yes. yes ≡ adds_none (node_form left.now) (node_form right.now)) }
{
    let columns = right.free_vars(alloc)?;
    binds_all(alloc, left, columns.as_slice())
}

// Whether the right side can be asked by some values of the left one's rows.
fn is_keyed(alloc: Global, left: &Core, right: &Core) -> Result<bool, AllocError>
    ensures { IfOk result (λ yes. yes ≡ is_keyed (node_form left.now) (node_form right.now)) }
{
    if is_negated(right) {
        return Ok(false);
    }
    let columns = right.free_vars(alloc)?;
    let own = left.free_vars(alloc)?;
    let bound = bound_by(alloc, left)?;
    let bound = bound.as_slice();
    Ok(all_among(own.as_slice(), bound) && some_among(columns.as_slice(), bound))
}

// Whether a core binds all of these variables.
fn binds_all(alloc: Global, core: &Core, wanted: &[u32]) -> Result<bool, AllocError>
    ensures { IfOk result (λ yes. yes ≡ all_among wanted.now (bound_by (node_form core.now))) }
{
    for x in wanted {
        if !binds(alloc, core, *x)? {
            return Ok(false);
        }
    }
    Ok(true)
}

// Whether a core binds a variable. Of a chain the last conjuncts are looked at first: mostly they have it.
fn binds(alloc: Global, core: &Core, x: u32) -> Result<bool, AllocError>
    ensures { IfOk result (λ yes. yes ≡ among x (bound_by (node_form core.now))) }
{
    match core {
        Core::And(left, right) => Ok(binds(alloc, right, x)? || binds(alloc, left, x)?),
        _ => Ok(is_among(x, bound_by(alloc, core)?.as_slice())),
    }
}

// Nothing where the right side only filters; else a table with the columns of both in their order.
fn order_of(
    alloc: Global,
    core: &Core,
    left: &Core,
    right: &Core,
) -> Result<Option<Table>, AllocError>
    requires sides { node_form core.now ≡ And (node_form left.now) (node_form right.now) }
    requires only { IsTrue (filters (node_form left.now) (node_form right.now)) }
    ensures { IfOk result (GivenAs (node_form left.now) (node_form right.now)) }
{
    if is_negated(right) || adds_none(alloc, left, right)? {
        return Ok(None);
    }
    let order = without_rows(alloc, core)?;
    Ok(Some(order))
}

/// Adds the node of the core, a conjunction of these sides.
#[inline(never)]
pub fn add_filter(
    alloc: Global,
    core: &Core,
    left: &Core,
    right: &Core,
    nodes: &mut Vec<Node>,
) -> Result<(), AllocError>
    requires sides { node_form core.now ≡ And (node_form left.now) (node_form right.now) }
    requires only { IsTrue (filters (node_form left.now) (node_form right.now)) }
    requires accepted { Accepted Role.Part (node_form right.now) }
    ensures { OnOk result (Adds (And (node_form left.now) (node_form right.now) ∷ []) nodes.old.items nodes.new.items) }
{
    let order = order_of(alloc, core, left, right)?;
    let window = asked_window(alloc, order.is_some(), left, right)?;
    let state = FilterState {
        tables: Tables::new(),
        window,
        negated: is_negated(right),
        order,
    };
    add(Node::Filter(state), nodes)
}

// The window that the right side asks, found by the columns of both where it doesn't only filter.
fn asked_window(alloc: Global, keyed: bool, left: &Core, right: &Core) -> Result<Window, AllocError>
    requires window { IsTrue (is_window (left_operand (node_form right.now))) }
    requires accepted { Accepted Role.Part (node_form right.now) }
    ensures { IfOk result (WindowBegun (left_operand (node_form right.now))) }
{
    let keys = keys_of(alloc, keyed, left, right)?;
    begun_window(alloc, without_not(right), keys.as_slice())
}

// The columns by which the right side is asked: none where it only filters.
fn keys_of(alloc: Global, keyed: bool, left: &Core, right: &Core) -> Result<Columns, AllocError>
    ensures { IfOk result (λ keys. keys.items
        ≡ cond keyed (common (fv (meaning (node_form right.now))) (fv (meaning (node_form left.now)))) []) }
{
    if !keyed {
        return Ok(Columns::new(alloc));
    }
    let columns = right.free_vars(alloc)?;
    let own = left.free_vars(alloc)?;
    common(alloc, columns.as_slice(), own.as_slice())
}

fn begun_window(alloc: Global, core: &Core, keys: &[u32]) -> Result<Window, AllocError>
    requires window { IsTrue (is_window (node_form core.now)) }
    requires accepted { Accepted Role.Part (node_form core.now) }
    ensures { IfOk result (WindowBegun (node_form core.now)) }
{
    match core {
        Core::Since(interval, left, right) => begun_since(alloc, interval, left, right, keys),
        Core::Until(interval, left, right) => begun_until(alloc, interval, left, right, keys),
        _ => unreachable!(),
    }
}

fn begun_since(
    alloc: Global,
    interval: &Interval,
    left: &Core,
    right: &Core,
    keys: &[u32],
) -> Result<Window, AllocError>
    requires { IsTrue (all_among (fv (meaning (node_form left.now))) (fv (meaning (node_form right.now)))) }
    ensures { IfOk result (WindowBegun (Since interval.now (node_form left.now) (node_form right.now))) }
{
    let state = since_state(alloc, interval, left, right, keys)?;
    Ok(Window::Since(state))
}

fn begun_until(
    alloc: Global,
    interval: &Interval,
    left: &Core,
    right: &Core,
    keys: &[u32],
) -> Result<Window, AllocError>
    requires { IsTrue (all_among (fv (meaning (node_form left.now))) (fv (meaning (node_form right.now)))) }
    ensures { IfOk result (WindowBegun (Until interval.now (node_form left.now) (node_form right.now))) }
{
    let state = until_state(alloc, interval, left, right, keys)?;
    Ok(Window::Until(state))
}
