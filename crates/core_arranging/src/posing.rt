//! A core as it is evaluated.
ghost use Rattle.std.specs.Prelude.{◌≡◌, ◌&&◌, cond, IfOk};
ghost use Rattle.monitorable.specs.CoreForms.{node_form, And, Not};
ghost use Rattle.core_arranging.specs.Windows.{is_window};
ghost use Rattle.core_arranging.specs.Arranging.{first_conjunct, is_atom, leads, led, narrowed, posed};

use crate::arranging::arranged;
use crate::boxes::{beside, boxed};
use crate::windows::{is_window, some_among};
use mfotl_model::is_among;
use monitorable::Node as Core;
use std::alloc::{AllocError, Global};

/// A core as it is evaluated.
pub fn posed(alloc: Global, core: &Core) -> Result<Core, AllocError>
    ensures { IfOk result (λ own. node_form own ≡ posed (node_form core.now)) }
{
    let own = narrowed(alloc, core)?;
    Ok(Box::into_inner(arranged(alloc, &own)?))
}

// A core whose denied EXISTS is asked for fewer rows: where a conjunction denies one, its first conjunct may stand
// under that too.
fn narrowed(alloc: Global, core: &Core) -> Result<Core, AllocError>
    ensures { IfOk result (λ own. node_form own ≡ narrowed (node_form core.now)) }
{
    match core {
        Core::And(left, right) => narrowed_and(alloc, left, right),
        _ => core.copy(alloc),
    }
}

// A conjunction of these sides whose denied EXISTS is asked for fewer rows.
fn narrowed_and(alloc: Global, left: &Core, right: &Core) -> Result<Core, AllocError>
    ensures { IfOk result (λ own. node_form own ≡ narrowed (And (node_form left.now) (node_form right.now))) }
{
    match right {
        Core::Not(inner) => narrowed_denial(alloc, left, inner),
        _ => Ok(Core::And(boxed(alloc, left)?, boxed(alloc, right)?)),
    }
}

// A conjunction that denies `inner`, which is asked for fewer rows where it is an EXISTS.
fn narrowed_denial(alloc: Global, left: &Core, inner: &Core) -> Result<Core, AllocError>
    ensures { IfOk result (λ own.
        node_form own ≡ narrowed (And (node_form left.now) (Not (node_form inner.now)))) }
{
    match inner {
        Core::Exists(bound, body) => {
            let body = asked(alloc, first_conjunct(left), bound.number, body)?;
            denied(alloc, left, Core::Exists(bound.copy(alloc)?, body))
        }
        _ => denied(alloc, left, inner.copy(alloc)?),
    }
}

// A conjunction that denies `inner`.
fn denied(alloc: Global, left: &Core, inner: Core) -> Result<Core, AllocError>
    ensures { IfOk result (λ own. node_form own ≡ And (node_form left.now) (Not (node_form inner))) }
{
    let inner = Core::Not(Box::new(alloc, inner)?);
    Ok(Core::And(boxed(alloc, left)?, Box::new(alloc, inner)?))
}

// The body of EXISTS of `x`, with the first conjunct before its own where that leads it.
fn asked(alloc: Global, first: &Core, x: u32, body: &Core) -> Result<Box<Core>, AllocError>
    ensures { IfOk result (λ own. node_form own.value
        ≡ cond (leads (node_form first.now) x (node_form body.now))
        (led (node_form first.now) (node_form body.now)) (node_form body.now)) }
{
    if leads(alloc, first, x, body)? {
        led(alloc, first, body)
    } else {
        boxed(alloc, body)
    }
}

// Whether EXISTS of `x` over the body is better asked for the first conjunct's rows alone.
fn leads(alloc: Global, first: &Core, x: u32, body: &Core) -> Result<bool, AllocError>
    ensures { IfOk result (λ yes. yes ≡ leads (node_form first.now) x (node_form body.now)) }
{
    let own = first.free_vars(alloc)?;
    let own = own.as_slice();
    let asked = first_conjunct(body);
    let columns = asked.free_vars(alloc)?;
    let shares = is_window(asked) && some_among(columns.as_slice(), own);
    Ok(is_atom(first) && !is_among(x, own) && shares)
}

// Whether a core is an atom.
fn is_atom(core: &Core) -> bool
    ensures { result ≡ is_atom (node_form core.now) }
{
    match core {
        Core::Atom(_) => true,
        _ => false,
    }
}

// The first conjunct of a core.
fn first_conjunct(core: &Core) -> &Core
    ensures { node_form result.now ≡ first_conjunct (node_form core.now) }
{
    match core {
        Core::And(left, _) => first_conjunct(left),
        _ => core,
    }
}

// A core with one more conjunct, which stands before its own. What a call keeps on the stack is a box, since a
// chain may have as many conjuncts as a core has nodes.
fn led(alloc: Global, first: &Core, body: &Core) -> Result<Box<Core>, AllocError>
    ensures { IfOk result (λ own. node_form own.value ≡ led (node_form first.now) (node_form body.now)) }
{
    match body {
        Core::And(left, right) => {
            let left = led(alloc, first, left)?;
            beside(alloc, left, right)
        }
        _ => {
            let first = boxed(alloc, first)?;
            beside(alloc, first, body)
        }
    }
}
