//! Cores in boxes. Each is made by a call that isn't inlined, so that a level of a chain takes little of the stack.
ghost use Rattle.std.specs.Prelude.{◌≡◌, IfOk};
ghost use Rattle.monitorable.specs.CoreForms.{node_form, And, Exists, Next, Not, Or, Previous, Since, Until};

use mfotl_model::{Bound, Interval};
use monitorable::Node as Core;
use std::alloc::{AllocError, Global};

/// A copy of a core.
#[inline(never)]
pub fn boxed(alloc: Global, core: &Core) -> Result<Box<Core>, AllocError>
    ensures { IfOk result (λ own. node_form own.value ≡ node_form core.now) }
{
    Ok(Box::new(alloc, core.copy(alloc)?)?)
}

/// The conjunction of a core and a copy of another one.
#[inline(never)]
pub fn beside(alloc: Global, left: Box<Core>, right: &Core) -> Result<Box<Core>, AllocError>
    ensures { IfOk result (λ own. node_form own.value ≡ And (node_form left.value) (node_form right.now)) }
{
    let right = boxed(alloc, right)?;
    Ok(Box::new(alloc, Core::And(left, right))?)
}

#[inline(never)]
pub fn not(alloc: Global, inner: Box<Core>) -> Result<Box<Core>, AllocError>
    ensures { IfOk result (λ own. node_form own.value ≡ Not (node_form inner.value)) }
{
    Ok(Box::new(alloc, Core::Not(inner))?)
}

#[inline(never)]
pub fn or(alloc: Global, left: Box<Core>, right: Box<Core>) -> Result<Box<Core>, AllocError>
    ensures { IfOk result (λ own. node_form own.value ≡ Or (node_form left.value) (node_form right.value)) }
{
    Ok(Box::new(alloc, Core::Or(left, right))?)
}

#[inline(never)]
pub fn exists(alloc: Global, bound: &Bound, inner: Box<Core>) -> Result<Box<Core>, AllocError>
    ensures { IfOk result (λ own. node_form own.value ≡ Exists bound.now (node_form inner.value)) }
{
    Ok(Box::new(alloc, Core::Exists(bound.copy(alloc)?, inner))?)
}

#[inline(never)]
pub fn previous(
    alloc: Global,
    interval: &Interval,
    inner: Box<Core>,
) -> Result<Box<Core>, AllocError>
    ensures { IfOk result (λ own. node_form own.value ≡ Previous interval.now (node_form inner.value)) }
{
    Ok(Box::new(alloc, Core::Previous(*interval, inner))?)
}

#[inline(never)]
pub fn next(alloc: Global, interval: &Interval, inner: Box<Core>) -> Result<Box<Core>, AllocError>
    ensures { IfOk result (λ own. node_form own.value ≡ Next interval.now (node_form inner.value)) }
{
    Ok(Box::new(alloc, Core::Next(*interval, inner))?)
}

#[inline(never)]
pub fn since(
    alloc: Global,
    interval: &Interval,
    left: Box<Core>,
    right: Box<Core>,
) -> Result<Box<Core>, AllocError>
    ensures { IfOk result (λ own. node_form own.value
        ≡ Since interval.now (node_form left.value) (node_form right.value)) }
{
    Ok(Box::new(alloc, Core::Since(*interval, left, right))?)
}

#[inline(never)]
pub fn until(
    alloc: Global,
    interval: &Interval,
    left: Box<Core>,
    right: Box<Core>,
) -> Result<Box<Core>, AllocError>
    ensures { IfOk result (λ own. node_form own.value
        ≡ Until interval.now (node_form left.value) (node_form right.value)) }
{
    Ok(Box::new(alloc, Core::Until(*interval, left, right))?)
}
