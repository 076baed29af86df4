//! Whether a normal form can be monitored. Each operator's code is a call that isn't inlined, so that a level of a
//! chain takes little of the stack.
ghost use Rattle.std.specs.Prelude.{◌≡◌};
ghost use Rattle.monitorable.specs.CoreForms.{node_form};
ghost use Rattle.monitorable.specs.Fragment.{asked, covers, evens, fault_in, first, guards, is_conjunction};
ghost use Rattle.monitorable.specs.Fragment.{judges_not, looks_within, under_not, uses, with_name};
ghost use Rattle.monitorable.specs.Judging.{Judges};
ghost use Rattle.monitorable.specs.declared.role.Role.TheVariants.{Left, Part, Whole};
ghost use Rattle.monitorable.specs.Scope.{scope_names};

use crate::fault::{FragmentFault, Variable};
use crate::node::Node;
use crate::role::Role;
use crate::scope::Scope;
use crate::variables::{bound_by, first_outside, needed_by};
use mfotl_model::{Bound, Interval};
use std::alloc::Global;

/// The first fault of a normal form in its role, as an error.
#[cycle(judging)]
#[tactic(auto, unfolding(crate::specs::Fragment::fault_in))]
pub fn judge(alloc: Global, node: &Node, role: Role, scope: &Scope) -> Result<(), FragmentFault>
    ensures { Judges result (fault_in (scope_names scope.now) role (node_form node.now)) }
{
    match node {
        Node::True | Node::False | Node::Atom(_) => Ok(()),
        Node::Compare(_) => guard(alloc, role.judges_comparison(), node, scope),
        Node::Not(inner) => judge_not(alloc, inner, node, role, scope),
        Node::And(left, right) => judge_and(alloc, left, right, node, role, scope),
        Node::Or(left, right) => judge_or(alloc, left, right, scope),
        Node::Exists(bound, inner) => judge_exists(alloc, bound, inner, scope),
        Node::Previous(_, inner) | Node::Next(_, inner) => judge(alloc, inner, Role::Whole, scope),
        Node::Since(_, left, right) => judge_since(alloc, left, right, scope),
        Node::Until(interval, left, right) => judge_until(alloc, interval, left, right, scope),
    }
}

#[cycle(judging)]
#[inline(never)]
fn judge_not(
    alloc: Global,
    inner: &Node,
    whole: &Node,
    role: Role,
    scope: &Scope,
) -> Result<(), FragmentFault>
    ensures { Judges result (first (fault_in (scope_names scope.now) (under_not role) (node_form inner.now))
        (asked (judges_not role) (guards (scope_names scope.now) (node_form whole.now)))) }
{
    judge(alloc, inner, role.under_not(), scope)?;
    guard(alloc, role.judges_not(), whole, scope)
}

#[cycle(judging)]
#[inline(never)]
fn judge_and(
    alloc: Global,
    left: &Node,
    right: &Node,
    whole: &Node,
    role: Role,
    scope: &Scope,
) -> Result<(), FragmentFault>
    ensures { Judges result (first (fault_in (scope_names scope.now) Part (node_form left.now))
        (first (fault_in (scope_names scope.now) Part (node_form right.now))
        (asked (is_conjunction role) (guards (scope_names scope.now) (node_form whole.now))))) }
{
    judge(alloc, left, Role::Part, scope)?;
    judge(alloc, right, Role::Part, scope)?;
    guard(alloc, role.is_conjunction(), whole, scope)
}

#[cycle(judging)]
#[inline(never)]
fn judge_or(alloc: Global, left: &Node, right: &Node, scope: &Scope) -> Result<(), FragmentFault>
    ensures { Judges result (first (fault_in (scope_names scope.now) Whole (node_form left.now))
        (first (fault_in (scope_names scope.now) Whole (node_form right.now))
        (evens (node_form left.now) (node_form right.now)))) }
{
    judge(alloc, left, Role::Whole, scope)?;
    judge(alloc, right, Role::Whole, scope)?;
    even(alloc, left, right)
}

#[cycle(judging)]
#[inline(never)]
fn judge_exists(
    alloc: Global,
    bound: &Bound,
    inner: &Node,
    scope: &Scope,
) -> Result<(), FragmentFault>
    ensures { Judges result (first
        (fault_in (with_name (scope_names scope.now) bound.now) Whole (node_form inner.now))
        (uses bound.now (node_form inner.now))) }
{
    judge(alloc, inner, Role::Whole, &Scope::Under(&*bound, &*scope))?;
    used(alloc, bound, inner)
}

#[cycle(judging)]
#[inline(never)]
fn judge_since(alloc: Global, left: &Node, right: &Node, scope: &Scope) -> Result<(), FragmentFault>
    ensures { Judges result (first (fault_in (scope_names scope.now) Left (node_form left.now))
        (first (fault_in (scope_names scope.now) Whole (node_form right.now))
        (covers (scope_names scope.now) (node_form left.now) (node_form right.now)))) }
{
    judge(alloc, left, Role::Left, scope)?;
    judge(alloc, right, Role::Whole, scope)?;
    covered(alloc, left, right, scope)
}

#[cycle(judging)]
#[inline(never)]
fn judge_until(
    alloc: Global,
    interval: &Interval,
    left: &Node,
    right: &Node,
    scope: &Scope,
) -> Result<(), FragmentFault>
    ensures { Judges result (first (fault_in (scope_names scope.now) Left (node_form left.now))
        (first (fault_in (scope_names scope.now) Whole (node_form right.now))
        (first (looks_within interval.now.hi)
        (covers (scope_names scope.now) (node_form left.now) (node_form right.now))))) }
{
    judge(alloc, left, Role::Left, scope)?;
    judge(alloc, right, Role::Whole, scope)?;
    bounded(interval)?;
    covered(alloc, left, right, scope)
}

// Where it is asked for: each variable of a conjunct that binds none is bound by another conjunct.
#[inline(never)]
fn guard(alloc: Global, wanted: bool, node: &Node, scope: &Scope) -> Result<(), FragmentFault>
    ensures { Judges result (asked wanted (guards (scope_names scope.now) (node_form node.now))) }
{
    if !wanted {
        return Ok(());
    }
    let bound = bound_by(alloc, node)?;
    let needed = needed_by(alloc, node)?;
    match first_outside(&bound, &needed) {
        None => Ok(()),
        Some(number) => Err(FragmentFault::Unguarded(scope.variable(alloc, number)?)),
    }
}

#[inline(never)]
fn even(alloc: Global, left: &Node, right: &Node) -> Result<(), FragmentFault>
    ensures { Judges result (evens (node_form left.now) (node_form right.now)) }
{
    let left = left.free_vars(alloc)?;
    let right = right.free_vars(alloc)?;
    if first_outside(&left, &right).is_some() || first_outside(&right, &left).is_some() {
        return Err(FragmentFault::Uneven);
    }
    Ok(())
}

#[inline(never)]
fn used(alloc: Global, bound: &Bound, inner: &Node) -> Result<(), FragmentFault>
    ensures { Judges result (uses bound.now (node_form inner.now)) }
{
    let free = inner.free_vars(alloc)?;
    match first_outside(&free, &[bound.number]) {
        None => Ok(()),
        Some(number) => Err(FragmentFault::UnusedBound(Variable {
            number,
            name: bound.name.copy(alloc)?,
        })),
    }
}

#[inline(never)]
fn covered(alloc: Global, left: &Node, right: &Node, scope: &Scope) -> Result<(), FragmentFault>
    ensures { Judges result (covers (scope_names scope.now) (node_form left.now) (node_form right.now)) }
{
    let left = left.free_vars(alloc)?;
    let right = right.free_vars(alloc)?;
    match first_outside(&right, &left) {
        None => Ok(()),
        Some(number) => Err(FragmentFault::LooseLeft(scope.variable(alloc, number)?)),
    }
}

fn bounded(interval: &Interval) -> Result<(), FragmentFault>
    ensures { Judges result (looks_within interval.now.hi) }
{
    match interval.hi {
        Some(_) => Ok(()),
        None => Err(FragmentFault::UnboundedFuture),
    }
}
