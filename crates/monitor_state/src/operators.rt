//! The nodes of OR, PREVIOUS, NEXT and SINCE, with their states before the first position.
ghost use Rattle.std.specs.Prelude.{◌≡◌, ◌∷◌, [], IfOk, IsTrue, OnOk};
ghost use Rattle.mfotl_model.specs.FreeVariables.{fv};
ghost use Rattle.mfotl_model.specs.Tables.{all_among};
ghost use Rattle.eval_bool.specs.OrView.{same_columns};
ghost use Rattle.monitorable.specs.CoreForms.{meaning, node_form, Next, Or, Previous, Since};
ghost use Rattle.monitor_state.specs.Beginnings.{Adds, NextBegun, OrBegun, PreviousBegun, SinceBegun};
ghost use Rattle.monitor_nodes.specs.Operands.{is_negated};

use crate::adding::add;
use eval_bool::OrState;
use eval_since::{PrevState, SinceState};
use eval_until::NextState;
use mfotl_model::Interval;
use monitor_nodes::Node;
use monitorable::Node as Core;
use relations::{Columns, Table};
use std::alloc::{AllocError, Global};

/// Whether a core is a NOT. TRUE is NOT FALSE.
pub fn is_negated(core: &Core) -> bool
    ensures { result ≡ is_negated (node_form core.now) }
{
    match core {
        Core::Not(_) => true,
        Core::True => true,
        _ => false,
    }
}

// The node of `whole`, a SINCE of these operands.
#[inline(never)]
pub fn add_since(
    alloc: Global,
    whole: &Core,
    interval: &Interval,
    left: &Core,
    right: &Core,
    nodes: &mut Vec<Node>,
) -> Result<(), AllocError>
    requires { IsTrue (all_among (fv (meaning (node_form left.now))) (fv (meaning (node_form right.now)))) }
    ensures { OnOk result (node_form whole.now ≡ Since interval.now (node_form left.now) (node_form right.now)
        → Adds (node_form whole.now ∷ []) nodes.old.items nodes.new.items) }
{
    let order = without_rows(alloc, whole)?;
    let state = since_state(alloc, interval, left, right, &[])?;
    add(Node::Since(state, order), nodes)
}

/// A table without rows whose columns are the variables of a core.
pub fn without_rows(alloc: Global, core: &Core) -> Result<Table, AllocError>
    ensures { IfOk result (λ table. table.columns ≡ fv (meaning (node_form core.now))) }
{
    let columns = core.free_vars(alloc)?;
    Ok(Table::empty(alloc, Columns::from_vec(columns)))
}

/// The state of a SINCE of these operands, which finds rows by the columns of `keys` at once where the left
/// one is closed.
pub fn since_state(
    alloc: Global,
    interval: &Interval,
    left: &Core,
    right: &Core,
    keys: &[u32],
) -> Result<SinceState, AllocError>
    requires { IsTrue (all_among (fv (meaning (node_form left.now))) (fv (meaning (node_form right.now)))) }
    ensures { IfOk result (SinceBegun interval.now (node_form left.now) (node_form right.now)) }
{
    let left_columns = left.free_vars(alloc)?;
    let right_columns = right.free_vars(alloc)?;
    let state = SinceState::keyed(
        alloc,
        interval,
        left_columns.as_slice(),
        right_columns.as_slice(),
        is_negated(left),
        keys,
    )?;
    Ok(state)
}

#[inline(never)]
pub fn add_or(
    alloc: Global,
    left: &Core,
    right: &Core,
    nodes: &mut Vec<Node>,
) -> Result<(), AllocError>
    requires { IsTrue (same_columns (fv (meaning (node_form left.now))) (fv (meaning (node_form right.now)))) }
    ensures { OnOk result (Adds (Or (node_form left.now) (node_form right.now) ∷ []) nodes.old.items nodes.new.items) }
{
    let state = or_state(alloc, left, right)?;
    add(Node::Or(state), nodes)
}

fn or_state(alloc: Global, left: &Core, right: &Core) -> Result<OrState, AllocError>
    requires { IsTrue (same_columns (fv (meaning (node_form left.now))) (fv (meaning (node_form right.now)))) }
    ensures { IfOk result (OrBegun (node_form left.now) (node_form right.now)) }
{
    let left_columns = left.free_vars(alloc)?;
    let right_columns = right.free_vars(alloc)?;
    OrState::new(alloc, left_columns.as_slice(), right_columns.as_slice())
}

#[inline(never)]
pub fn add_previous(
    alloc: Global,
    interval: &Interval,
    operand: &Core,
    nodes: &mut Vec<Node>,
) -> Result<(), AllocError>
    ensures { OnOk result (Adds (Previous interval.now (node_form operand.now) ∷ []) nodes.old.items nodes.new.items) }
{
    let state = previous_state(alloc, interval, operand)?;
    add(Node::Previous(state), nodes)
}

fn previous_state(
    alloc: Global,
    interval: &Interval,
    operand: &Core,
) -> Result<PrevState, AllocError>
    ensures { IfOk result (PreviousBegun interval.now (node_form operand.now)) }
{
    let columns = operand.free_vars(alloc)?;
    PrevState::new(alloc, interval, columns.as_slice())
}

#[inline(never)]
pub fn add_next(
    alloc: Global,
    interval: &Interval,
    operand: &Core,
    nodes: &mut Vec<Node>,
) -> Result<(), AllocError>
    ensures { OnOk result (Adds (Next interval.now (node_form operand.now) ∷ []) nodes.old.items nodes.new.items) }
{
    let state = next_state(alloc, interval, operand)?;
    add(Node::Next(state), nodes)
}

fn next_state(alloc: Global, interval: &Interval, operand: &Core) -> Result<NextState, AllocError>
    ensures { IfOk result (NextBegun interval.now (node_form operand.now)) }
{
    let columns = operand.free_vars(alloc)?;
    NextState::new(alloc, interval, columns.as_slice())
}
