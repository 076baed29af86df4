//! The normal form of a formula, and that of its negation. A chain may be hundreds of operands deep: no operator's code
//! stands within the function that goes down, and only boxes go up, so that a level takes little of the stack.
ghost use Rattle.std.specs.Prelude.{◌≡◌, IfOk};
ghost use Rattle.mfotl_model.specs.Formulas.{form};
ghost use Rattle.mfotl_model.specs.Operators.{IsTemporal};
ghost use Rattle.monitorable.specs.CoreForms.{And, Exists, Next, Not, Or, Previous, Since, True, Until, node_form};
ghost use Rattle.monitorable.specs.NormalForm.{negative, positive};

use crate::boxes;
use crate::node::Node;
use mfotl_model::{Bound, Formula, Interval};
use std::alloc::{AllocError, Global};

/// The normal form of a formula.
#[cycle(normal_form)]
#[tactic(auto, unfolding(crate::specs::NormalForm::positive))]
pub fn normal_form(alloc: Global, formula: &Formula) -> Result<Box<Node>, AllocError>
    ensures { IfOk result (λ node. node_form node.value ≡ positive (form formula.now)) }
{
    match formula {
        Formula::True => boxes::boxed(alloc, Node::True),
        Formula::False => boxes::boxed(alloc, Node::False),
        Formula::Atom(atom) => boxes::atom(alloc, atom),
        Formula::Compare(comparison) => boxes::comparison(alloc, comparison),
        Formula::Not(inner) => negated_normal_form(alloc, inner),
        Formula::And(left, right) => conjunction(alloc, left, right),
        Formula::Or(left, right) => disjunction(alloc, left, right),
        Formula::Implies(left, right) => implication(alloc, left, right),
        Formula::Equiv(left, right) => equivalence(alloc, left, right),
        Formula::Exists(bound, inner) => exists(alloc, bound, inner),
        Formula::Forall(bound, inner) => forall(alloc, bound, inner),
        Formula::Previous(_, _)
        | Formula::Next(_, _)
        | Formula::Once(_, _)
        | Formula::Historically(_, _)
        | Formula::Eventually(_, _)
        | Formula::Always(_, _)
        | Formula::Since(_, _, _)
        | Formula::Until(_, _, _) => temporal(alloc, formula),
    }
}

/// The normal form of a formula's negation.
#[cycle(normal_form)]
#[tactic(auto, unfolding(crate::specs::NormalForm::positive, crate::specs::NormalForm::negative))]
pub fn negated_normal_form(alloc: Global, formula: &Formula) -> Result<Box<Node>, AllocError>
    ensures { IfOk result (λ node. node_form node.value ≡ negative (form formula.now)) }
{
    match formula {
        Formula::Not(inner) => normal_form(alloc, inner),
        Formula::Or(left, right) => neither(alloc, left, right),
        Formula::Implies(left, right) => left_alone(alloc, left, right),
        Formula::Forall(bound, inner) => exists_negated(alloc, bound, inner),
        Formula::Historically(interval, inner) => once_negated(alloc, interval, inner),
        Formula::Always(interval, inner) => eventually_negated(alloc, interval, inner),
        Formula::True
        | Formula::False
        | Formula::Atom(_)
        | Formula::Compare(_)
        | Formula::And(_, _)
        | Formula::Equiv(_, _)
        | Formula::Exists(_, _)
        | Formula::Previous(_, _)
        | Formula::Next(_, _)
        | Formula::Once(_, _)
        | Formula::Eventually(_, _)
        | Formula::Since(_, _, _)
        | Formula::Until(_, _, _) => boxes::not(alloc, normal_form(alloc, formula)?),
    }
}

/// The normal form of a formula with a temporal operator.
#[cycle(normal_form)]
#[tactic(auto, unfolding(crate::specs::NormalForm::positive))]
#[inline(never)]
fn temporal(alloc: Global, formula: &Formula) -> Result<Box<Node>, AllocError>
    requires { IsTemporal (form formula.now) }
    ensures { IfOk result (λ node. node_form node.value ≡ positive (form formula.now)) }
{
    match formula {
        Formula::Previous(interval, inner) => previous(alloc, interval, inner),
        Formula::Next(interval, inner) => next(alloc, interval, inner),
        Formula::Once(interval, inner) => once(alloc, interval, inner),
        Formula::Historically(interval, inner) => historically(alloc, interval, inner),
        Formula::Eventually(interval, inner) => eventually(alloc, interval, inner),
        Formula::Always(interval, inner) => always(alloc, interval, inner),
        Formula::Since(interval, left, right) => since(alloc, interval, left, right),
        Formula::Until(interval, left, right) => until(alloc, interval, left, right),
        _ => unreachable!(),
    }
}

#[cycle(normal_form)]
#[inline(never)]
fn conjunction(alloc: Global, left: &Formula, right: &Formula) -> Result<Box<Node>, AllocError>
    ensures { IfOk result (λ node. node_form node.value
        ≡ And (positive (form left.now)) (positive (form right.now))) }
{
    let left = normal_form(alloc, left)?;
    boxes::and(alloc, left, normal_form(alloc, right)?)
}

#[cycle(normal_form)]
#[inline(never)]
fn disjunction(alloc: Global, left: &Formula, right: &Formula) -> Result<Box<Node>, AllocError>
    ensures { IfOk result (λ node. node_form node.value
        ≡ Or (positive (form left.now)) (positive (form right.now))) }
{
    let left = normal_form(alloc, left)?;
    boxes::or(alloc, left, normal_form(alloc, right)?)
}

#[cycle(normal_form)]
#[inline(never)]
fn implication(alloc: Global, left: &Formula, right: &Formula) -> Result<Box<Node>, AllocError>
    ensures { IfOk result (λ node. node_form node.value
        ≡ Or (negative (form left.now)) (positive (form right.now))) }
{
    let not_left = negated_normal_form(alloc, left)?;
    boxes::or(alloc, not_left, normal_form(alloc, right)?)
}

#[cycle(normal_form)]
#[inline(never)]
fn equivalence(alloc: Global, left: &Formula, right: &Formula) -> Result<Box<Node>, AllocError>
    ensures { IfOk result (λ node. node_form node.value
        ≡ And (Or (negative (form left.now)) (positive (form right.now)))
        (Or (negative (form right.now)) (positive (form left.now)))) }
{
    let forth = implication(alloc, left, right)?;
    boxes::and(alloc, forth, implication(alloc, right, left)?)
}

#[cycle(normal_form)]
#[inline(never)]
fn neither(alloc: Global, left: &Formula, right: &Formula) -> Result<Box<Node>, AllocError>
    ensures { IfOk result (λ node. node_form node.value
        ≡ And (negative (form left.now)) (negative (form right.now))) }
{
    let left = negated_normal_form(alloc, left)?;
    boxes::and(alloc, left, negated_normal_form(alloc, right)?)
}

#[cycle(normal_form)]
#[inline(never)]
fn left_alone(alloc: Global, left: &Formula, right: &Formula) -> Result<Box<Node>, AllocError>
    ensures { IfOk result (λ node. node_form node.value
        ≡ And (positive (form left.now)) (negative (form right.now))) }
{
    let left = normal_form(alloc, left)?;
    boxes::and(alloc, left, negated_normal_form(alloc, right)?)
}

#[cycle(normal_form)]
#[inline(never)]
fn exists(alloc: Global, bound: &Bound, inner: &Formula) -> Result<Box<Node>, AllocError>
    ensures { IfOk result (λ node. node_form node.value ≡ Exists bound.now (positive (form inner.now))) }
{
    boxes::exists(alloc, bound, normal_form(alloc, inner)?)
}

#[cycle(normal_form)]
#[inline(never)]
fn exists_negated(alloc: Global, bound: &Bound, inner: &Formula) -> Result<Box<Node>, AllocError>
    ensures { IfOk result (λ node. node_form node.value ≡ Exists bound.now (negative (form inner.now))) }
{
    boxes::exists(alloc, bound, negated_normal_form(alloc, inner)?)
}

#[cycle(normal_form)]
#[inline(never)]
fn forall(alloc: Global, bound: &Bound, inner: &Formula) -> Result<Box<Node>, AllocError>
    ensures { IfOk result (λ node. node_form node.value ≡ Not (Exists bound.now (negative (form inner.now)))) }
{
    boxes::not(alloc, exists_negated(alloc, bound, inner)?)
}

#[cycle(normal_form)]
#[inline(never)]
fn previous(alloc: Global, interval: &Interval, inner: &Formula) -> Result<Box<Node>, AllocError>
    ensures { IfOk result (λ node. node_form node.value ≡ Previous interval.now (positive (form inner.now))) }
{
    boxes::previous(alloc, interval, normal_form(alloc, inner)?)
}

#[cycle(normal_form)]
#[inline(never)]
fn next(alloc: Global, interval: &Interval, inner: &Formula) -> Result<Box<Node>, AllocError>
    ensures { IfOk result (λ node. node_form node.value ≡ Next interval.now (positive (form inner.now))) }
{
    boxes::next(alloc, interval, normal_form(alloc, inner)?)
}

#[cycle(normal_form)]
#[inline(never)]
fn once(alloc: Global, interval: &Interval, inner: &Formula) -> Result<Box<Node>, AllocError>
    ensures { IfOk result (λ node. node_form node.value ≡ Since interval.now True (positive (form inner.now))) }
{
    boxes::once(alloc, interval, normal_form(alloc, inner)?)
}

#[cycle(normal_form)]
#[inline(never)]
fn once_negated(
    alloc: Global,
    interval: &Interval,
    inner: &Formula,
) -> Result<Box<Node>, AllocError>
    ensures { IfOk result (λ node. node_form node.value ≡ Since interval.now True (negative (form inner.now))) }
{
    boxes::once(alloc, interval, negated_normal_form(alloc, inner)?)
}

#[cycle(normal_form)]
#[inline(never)]
fn historically(
    alloc: Global,
    interval: &Interval,
    inner: &Formula,
) -> Result<Box<Node>, AllocError>
    ensures { IfOk result (λ node. node_form node.value
        ≡ Not (Since interval.now True (negative (form inner.now)))) }
{
    boxes::not(alloc, once_negated(alloc, interval, inner)?)
}

#[cycle(normal_form)]
#[inline(never)]
fn eventually(alloc: Global, interval: &Interval, inner: &Formula) -> Result<Box<Node>, AllocError>
    ensures { IfOk result (λ node. node_form node.value ≡ Until interval.now True (positive (form inner.now))) }
{
    boxes::eventually(alloc, interval, normal_form(alloc, inner)?)
}

#[cycle(normal_form)]
#[inline(never)]
fn eventually_negated(
    alloc: Global,
    interval: &Interval,
    inner: &Formula,
) -> Result<Box<Node>, AllocError>
    ensures { IfOk result (λ node. node_form node.value ≡ Until interval.now True (negative (form inner.now))) }
{
    boxes::eventually(alloc, interval, negated_normal_form(alloc, inner)?)
}

#[cycle(normal_form)]
#[inline(never)]
fn always(alloc: Global, interval: &Interval, inner: &Formula) -> Result<Box<Node>, AllocError>
    ensures { IfOk result (λ node. node_form node.value
        ≡ Not (Until interval.now True (negative (form inner.now)))) }
{
    boxes::not(alloc, eventually_negated(alloc, interval, inner)?)
}

#[cycle(normal_form)]
#[inline(never)]
fn since(
    alloc: Global,
    interval: &Interval,
    left: &Formula,
    right: &Formula,
) -> Result<Box<Node>, AllocError>
    ensures { IfOk result (λ node. node_form node.value
        ≡ Since interval.now (positive (form left.now)) (positive (form right.now))) }
{
    let left = normal_form(alloc, left)?;
    boxes::since(alloc, interval, left, normal_form(alloc, right)?)
}

#[cycle(normal_form)]
#[inline(never)]
fn until(
    alloc: Global,
    interval: &Interval,
    left: &Formula,
    right: &Formula,
) -> Result<Box<Node>, AllocError>
    ensures { IfOk result (λ node. node_form node.value
        ≡ Until interval.now (positive (form left.now)) (positive (form right.now))) }
{
    let left = normal_form(alloc, left)?;
    boxes::until(alloc, interval, left, normal_form(alloc, right)?)
}
