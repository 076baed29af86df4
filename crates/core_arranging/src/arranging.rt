//! A core with each of its conjunctions as a chain, the windows at its end as far as may be.
ghost use Rattle.std.specs.Prelude.{◌≡◌, IfOk};
ghost use Rattle.monitorable.specs.CoreForms.{node_form, And, Exists, Next, Not, Or, Previous, Since, Until};
ghost use Rattle.core_arranging.specs.Arranging.{arranged};

use crate::boxes::{boxed, exists, next, not, or, previous, since, until};
use crate::chains::with_conjuncts;
use mfotl_model::{Bound, Interval};
use monitorable::Node as Core;
use std::alloc::{AllocError, Global};

/// A core with each of its conjunctions as a chain, the windows at its end as far as may be.
#[cycle(arranged)]
pub fn arranged(alloc: Global, core: &Core) -> Result<Box<Core>, AllocError>
    ensures { IfOk result (λ own. node_form own.value ≡ arranged (node_form core.now)) }
{
    match core {
        Core::Not(inner) => arranged_not(alloc, inner),
        Core::And(left, right) => arranged_and(alloc, left, right),
        Core::Or(left, right) => arranged_or(alloc, left, right),
        Core::Exists(bound, inner) => arranged_exists(alloc, bound, inner),
        Core::Previous(interval, inner) => arranged_previous(alloc, interval, inner),
        Core::Next(interval, inner) => arranged_next(alloc, interval, inner),
        Core::Since(interval, left, right) => arranged_since(alloc, interval, left, right),
        Core::Until(interval, left, right) => arranged_until(alloc, interval, left, right),
        _ => boxed(alloc, core),
    }
}

#[cycle(arranged)]
fn arranged_not(alloc: Global, inner: &Core) -> Result<Box<Core>, AllocError>
    ensures { IfOk result (λ own. node_form own.value ≡ arranged (Not (node_form inner.now))) }
{
    not(alloc, arranged(alloc, inner)?)
}

#[cycle(arranged)]
fn arranged_exists(alloc: Global, bound: &Bound, inner: &Core) -> Result<Box<Core>, AllocError>
    ensures { IfOk result (λ own. node_form own.value ≡ arranged (Exists bound.now (node_form inner.now))) }
{
    exists(alloc, bound, arranged(alloc, inner)?)
}

#[cycle(arranged)]
fn arranged_previous(
    alloc: Global,
    interval: &Interval,
    inner: &Core,
) -> Result<Box<Core>, AllocError>
    ensures { IfOk result (λ own. node_form own.value ≡ arranged (Previous interval.now (node_form inner.now))) }
{
    previous(alloc, interval, arranged(alloc, inner)?)
}

#[cycle(arranged)]
fn arranged_next(alloc: Global, interval: &Interval, inner: &Core) -> Result<Box<Core>, AllocError>
    ensures { IfOk result (λ own. node_form own.value ≡ arranged (Next interval.now (node_form inner.now))) }
{
    next(alloc, interval, arranged(alloc, inner)?)
}

#[cycle(arranged)]
fn arranged_and(alloc: Global, left: &Core, right: &Core) -> Result<Box<Core>, AllocError>
    ensures { IfOk result (λ own. node_form own.value
        ≡ arranged (And (node_form left.now) (node_form right.now))) }
{
    let left = arranged(alloc, left)?;
    let right = arranged(alloc, right)?;
    with_conjuncts(alloc, left, &right)
}

#[cycle(arranged)]
fn arranged_or(alloc: Global, left: &Core, right: &Core) -> Result<Box<Core>, AllocError>
    ensures { IfOk result (λ own. node_form own.value
        ≡ arranged (Or (node_form left.now) (node_form right.now))) }
{
    let left = arranged(alloc, left)?;
    or(alloc, left, arranged(alloc, right)?)
}

#[cycle(arranged)]
fn arranged_since(
    alloc: Global,
    interval: &Interval,
    left: &Core,
    right: &Core,
) -> Result<Box<Core>, AllocError>
    ensures { IfOk result (λ own. node_form own.value
        ≡ arranged (Since interval.now (node_form left.now) (node_form right.now))) }
{
    let left = arranged(alloc, left)?;
    since(alloc, interval, left, arranged(alloc, right)?)
}

#[cycle(arranged)]
fn arranged_until(
    alloc: Global,
    interval: &Interval,
    left: &Core,
    right: &Core,
) -> Result<Box<Core>, AllocError>
    ensures { IfOk result (λ own. node_form own.value
        ≡ arranged (Until interval.now (node_form left.now) (node_form right.now))) }
{
    let left = arranged(alloc, left)?;
    until(alloc, interval, left, arranged(alloc, right)?)
}
