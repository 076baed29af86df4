//! The nodes of a core. What makes a node is a function of its own that isn't inlined, so that a chain of hundreds of
//! operands takes little of the stack.
ghost use Rattle.std.specs.Prelude.{◌≡◌, ◌++◌, ◌∷◌, [], IfOk, IsTrue, OnOk};
ghost use Rattle.core_arranging.specs.Windows.{is_window};
ghost use Rattle.monitorable.specs.CoreForms.{node_form, And, Atom, Exists, Next, Not, Or, Previous, Since, Until};
ghost use Rattle.monitor_state.specs.Beginnings.{Accepted, Adds};
ghost use Rattle.monitor_state.specs.Nodes.{nodes_in, nodes_of, without_last};

use crate::adding::add;
use crate::begin_filter::{add_filter, is_filtered};
use crate::begin_until::add_until;
use crate::conjunction::add_join;
use crate::constant::{add_comparison, add_false, add_true};
use crate::operators::{add_next, add_or, add_previous, add_since};
use core_arranging::{posed, without_not};
use eval_bool::AtomReader;
use mfotl_model::{Atom as OneAtom, Bound, Interval};
use monitor_nodes::Node;
use monitorable::{Node as Core, Role};
use std::alloc::{AllocError, Global};

/// The nodes of a core.
pub fn begun_nodes(alloc: Global, core: &Core) -> Result<Vec<Node>, AllocError>
    requires { Accepted Role.Whole (node_form core.now) }
    ensures { IfOk result (λ nodes. Adds (nodes_of (node_form core.now)) [] nodes.items) }
{
    let own = posed(alloc, core)?;
    let mut nodes = Vec::new(alloc);
    add_nodes(alloc, &own, Role::Whole, &mut nodes)?;
    Ok(nodes)
}

// Adds the nodes of a core, each behind its operands.
#[cycle(add_nodes)]
fn add_nodes(
    alloc: Global,
    core: &Core,
    role: Role,
    nodes: &mut Vec<Node>,
) -> Result<(), AllocError>
    requires { Accepted role (node_form core.now) }
    ensures { OnOk result (Adds (nodes_in role (node_form core.now)) nodes.old.items nodes.new.items) }
{
    match core {
        Core::True => add_true(alloc, role, nodes),
        Core::False => add_false(alloc, nodes),
        Core::Atom(atom) => add_atom(alloc, atom, nodes),
        Core::Compare(comparison) => add_comparison(alloc, role, comparison, nodes),
        Core::Exists(bound, inner) => add_whole_exists(alloc, core, bound, inner, nodes),
        Core::Not(inner) => add_not(alloc, core, inner, role, nodes),
        Core::And(left, right) => add_and(alloc, core, left, right, role, nodes),
        Core::Since(interval, left, right) => {
            add_whole_since(alloc, core, interval, left, right, nodes)
        }
        Core::Until(interval, left, right) => {
            add_whole_until(alloc, core, interval, left, right, nodes)
        }
        Core::Or(left, right) => add_whole_or(alloc, core, left, right, nodes),
        Core::Previous(interval, inner) => {
            add_whole_previous(alloc, core, interval, inner, nodes)
        }
        Core::Next(interval, inner) => add_whole_next(alloc, core, interval, inner, nodes),
    }
}

// The nodes of both operands.
#[cycle(add_nodes)]
#[inline(never)]
fn add_both(
    alloc: Global,
    left: &Core,
    left_role: Role,
    right: &Core,
    right_role: Role,
    nodes: &mut Vec<Node>,
) -> Result<(), AllocError>
    requires left { Accepted left_role (node_form left.now) }
    requires right { Accepted right_role (node_form right.now) }
    ensures { OnOk result (Adds (nodes_in left_role (node_form left.now) ++ nodes_in right_role (node_form right.now))
        nodes.old.items nodes.new.items) }
{
    add_nodes(alloc, left, left_role, nodes)?;
    add_nodes(alloc, right, right_role, nodes)
}

// The nodes of an EXISTS, those of its operand first.
#[cycle(add_nodes)]
#[inline(never)]
fn add_whole_exists(
    alloc: Global,
    core: &Core,
    bound: &Bound,
    inner: &Core,
    nodes: &mut Vec<Node>,
) -> Result<(), AllocError>
    requires operand { node_form core.now ≡ Exists bound.now (node_form inner.now) }
    requires accepted { (role : Role) × Accepted role (node_form core.now) }
    ensures { (role : Role) → OnOk result (Adds (nodes_in role (node_form core.now)) nodes.old.items nodes.new.items) }
{
    add_nodes(alloc, inner, Role::Whole, nodes)?;
    add_exists(bound.number, nodes)
}

// The nodes of a NOT in its role, those of its operand first.
#[cycle(add_nodes)]
#[inline(never)]
fn add_not(
    alloc: Global,
    core: &Core,
    inner: &Core,
    role: Role,
    nodes: &mut Vec<Node>,
) -> Result<(), AllocError>
    requires operand { node_form core.now ≡ Not (node_form inner.now) }
    requires accepted { Accepted role (node_form core.now) }
    ensures { OnOk result (Adds (nodes_in role (node_form core.now)) nodes.old.items nodes.new.items) }
{
    add_nodes(alloc, inner, role.under_not(), nodes)?;
    add_join(alloc, role.judges_not(), core, nodes)
}

// The nodes of a PREVIOUS, those of its operand first.
#[cycle(add_nodes)]
#[inline(never)]
fn add_whole_previous(
    alloc: Global,
    core: &Core,
    interval: &Interval,
    inner: &Core,
    nodes: &mut Vec<Node>,
) -> Result<(), AllocError>
    requires operand { node_form core.now ≡ Previous interval.now (node_form inner.now) }
    requires accepted { (role : Role) × Accepted role (node_form core.now) }
    ensures { (role : Role) → OnOk result (Adds (nodes_in role (node_form core.now)) nodes.old.items nodes.new.items) }
{
    add_nodes(alloc, inner, Role::Whole, nodes)?;
    add_previous(alloc, interval, inner, nodes)
}

// The nodes of a NEXT, those of its operand first.
#[cycle(add_nodes)]
#[inline(never)]
fn add_whole_next(
    alloc: Global,
    core: &Core,
    interval: &Interval,
    inner: &Core,
    nodes: &mut Vec<Node>,
) -> Result<(), AllocError>
    requires operand { node_form core.now ≡ Next interval.now (node_form inner.now) }
    requires accepted { (role : Role) × Accepted role (node_form core.now) }
    ensures { (role : Role) → OnOk result (Adds (nodes_in role (node_form core.now)) nodes.old.items nodes.new.items) }
{
    add_nodes(alloc, inner, Role::Whole, nodes)?;
    add_next(alloc, interval, inner, nodes)
}

// The nodes of a SINCE, those of its operands first.
#[cycle(add_nodes)]
#[inline(never)]
fn add_whole_since(
    alloc: Global,
    core: &Core,
    interval: &Interval,
    left: &Core,
    right: &Core,
    nodes: &mut Vec<Node>,
) -> Result<(), AllocError>
    requires operands { node_form core.now ≡ Since interval.now (node_form left.now) (node_form right.now) }
    requires accepted { (role : Role) × Accepted role (node_form core.now) }
    ensures { (role : Role) → OnOk result (Adds (nodes_in role (node_form core.now)) nodes.old.items nodes.new.items) }
{
    add_both(alloc, left, Role::Left, right, Role::Whole, nodes)?;
    add_since(alloc, core, interval, left, right, nodes)
}

// The nodes of an UNTIL, those of its operands first.
#[cycle(add_nodes)]
#[inline(never)]
fn add_whole_until(
    alloc: Global,
    core: &Core,
    interval: &Interval,
    left: &Core,
    right: &Core,
    nodes: &mut Vec<Node>,
) -> Result<(), AllocError>
    requires operands { node_form core.now ≡ Until interval.now (node_form left.now) (node_form right.now) }
    requires accepted { (role : Role) × Accepted role (node_form core.now) }
    ensures { (role : Role) → OnOk result (Adds (nodes_in role (node_form core.now)) nodes.old.items nodes.new.items) }
{
    add_both(alloc, left, Role::Left, right, Role::Whole, nodes)?;
    add_until(alloc, core, interval, left, right, nodes)
}

// The nodes of an OR, those of its operands first.
#[cycle(add_nodes)]
#[inline(never)]
fn add_whole_or(
    alloc: Global,
    core: &Core,
    left: &Core,
    right: &Core,
    nodes: &mut Vec<Node>,
) -> Result<(), AllocError>
    requires operands { node_form core.now ≡ Or (node_form left.now) (node_form right.now) }
    requires accepted { (role : Role) × Accepted role (node_form core.now) }
    ensures { (role : Role) → OnOk result (Adds (nodes_in role (node_form core.now)) nodes.old.items nodes.new.items) }
{
    add_both(alloc, left, Role::Whole, right, Role::Whole, nodes)?;
    add_or(alloc, left, right, nodes)
}

// The nodes of a conjunction of these sides.
#[cycle(add_nodes)]
#[inline(never)]
fn add_and(
    alloc: Global,
    core: &Core,
    left: &Core,
    right: &Core,
    role: Role,
    nodes: &mut Vec<Node>,
) -> Result<(), AllocError>
    requires sides { node_form core.now ≡ And (node_form left.now) (node_form right.now) }
    requires accepted { Accepted role (And (node_form left.now) (node_form right.now)) }
    ensures { OnOk result (Adds (nodes_in role (node_form core.now)) nodes.old.items nodes.new.items) }
{
    let own = role.is_conjunction();
    if is_filtered(alloc, own, left, right)? {
        add_nodes(alloc, left, Role::Whole, nodes)?;
        add_operands(alloc, without_not(right), nodes)?;
        return add_filter(alloc, core, left, right, nodes);
    }
    add_both(alloc, left, Role::Part, right, Role::Part, nodes)?;
    add_join(alloc, own, core, nodes)
}

// The nodes of a window's operands. The window has none.
#[cycle(add_nodes)]
#[inline(never)]
fn add_operands(alloc: Global, window: &Core, nodes: &mut Vec<Node>) -> Result<(), AllocError>
    requires window { IsTrue (is_window (node_form window.now)) }
    requires accepted { Accepted Role.Part (node_form window.now) }
    ensures { OnOk result (Adds (without_last (nodes_in Role.Part (node_form window.now))) nodes.old.items
        nodes.new.items) }
{
    match window {
        Core::Since(_interval, left, right) => {
            add_both(alloc, left, Role::Left, right, Role::Whole, nodes)
        }
        Core::Until(_interval, left, right) => {
            add_both(alloc, left, Role::Left, right, Role::Whole, nodes)
        }
        _ => unreachable!(),
    }
}

#[inline(never)]
fn add_exists(variable: u32, nodes: &mut Vec<Node>) -> Result<(), AllocError>
    ensures { OnOk result (nodes.new.items ≡ nodes.old.items ++ Node.Exists variable ∷ []) }
{
    add(Node::Exists(variable), nodes)
}

#[inline(never)]
fn add_atom(alloc: Global, atom: &OneAtom, nodes: &mut Vec<Node>) -> Result<(), AllocError>
    ensures { OnOk result (Adds (Atom atom.now ∷ []) nodes.old.items nodes.new.items) }
{
    let reader = AtomReader::new(alloc, atom.copy(alloc)?)?;
    add(Node::Atom(reader), nodes)
}
