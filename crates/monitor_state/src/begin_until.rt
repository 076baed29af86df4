//! The node of an UNTIL.
ghost use Rattle.std.specs.Prelude.{◌≡◌, ◌∷◌, [], IfOk, IsTrue, OnOk};
ghost use Rattle.mfotl_model.specs.FreeVariables.{fv};
ghost use Rattle.mfotl_model.specs.Tables.{all_among};
ghost use Rattle.monitorable.specs.CoreForms.{Until, meaning, node_form};
ghost use Rattle.monitor_state.specs.Beginnings.{Adds, UntilBegun};

use crate::adding::add;
use crate::operators::{is_negated, without_rows};
use eval_until::UntilState;
use mfotl_model::Interval;
use monitor_nodes::Node;
use monitorable::Node as Core;
use std::alloc::{AllocError, Global};

/// Adds the node of `whole`, an UNTIL of these operands.
#[inline(never)]
pub fn add_until(
    alloc: Global,
    whole: &Core,
    interval: &Interval,
    left: &Core,
    right: &Core,
    nodes: &mut Vec<Node>,
) -> Result<(), AllocError>
    requires { IsTrue (all_among (fv (meaning (node_form left.now))) (fv (meaning (node_form right.now)))) }
    ensures { OnOk result (node_form whole.now ≡ Until interval.now (node_form left.now) (node_form right.now)
        → Adds (node_form whole.now ∷ []) nodes.old.items nodes.new.items) }
{
    let order = without_rows(alloc, whole)?;
    let state = until_state(alloc, interval, left, right, &[])?;
    add(Node::Until(state, order), nodes)
}

/// The state of an UNTIL of these operands, which finds rows by the columns of `keys` at once.
pub fn until_state(
    alloc: Global,
    interval: &Interval,
    left: &Core,
    right: &Core,
    keys: &[u32],
) -> Result<UntilState, AllocError>
    requires { IsTrue (all_among (fv (meaning (node_form left.now))) (fv (meaning (node_form right.now)))) }
    ensures { IfOk result (UntilBegun interval.now (node_form left.now) (node_form right.now)) }
{
    let left_columns = left.free_vars(alloc)?;
    let right_columns = right.free_vars(alloc)?;
    UntilState::keyed(
        alloc,
        interval,
        left_columns.as_slice(),
        right_columns.as_slice(),
        is_negated(left),
        keys,
    )
}
