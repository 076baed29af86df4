//! Chains of conjuncts, the windows at the end as far as may be.
ghost use Rattle.std.specs.Prelude.{◌≡◌, IfOk, OnOk, nat_eq};
ghost use Rattle.std.specs.Cmp.Lexicographic.{pointwise};
ghost use Rattle.mfotl_model.specs.FreeVariables.{fv, joined};
ghost use Rattle.monitorable.specs.CoreForms.{meaning, node_form, And};
ghost use Rattle.core_arranging.specs.Arranging.{before_windows, connects, goes_before, last_conjunct, windowed};
ghost use Rattle.core_arranging.specs.Arranging.{with_conjunct, with_conjuncts, without_windows};

use crate::boxes::{beside, boxed};
use crate::windows::{is_window, some_among, without_not};
use mfotl_model::joined;
use monitorable::Node as Core;
use relations::all_among;
use std::alloc::{AllocError, Global};
use std::mem;

/// A chain of conjuncts with those of another core.
pub fn with_conjuncts(alloc: Global, chain: Box<Core>, more: &Core) -> Result<Box<Core>, AllocError>
    ensures { IfOk result (λ own. node_form own.value
        ≡ with_conjuncts (node_form chain.value) (node_form more.now)) }
{
    match more {
        Core::And(left, right) => {
            let chain = with_conjuncts(alloc, chain, left)?;
            with_conjuncts(alloc, chain, right)
        }
        _ => with_conjunct(alloc, chain, more),
    }
}

// A chain of conjuncts with one more.
#[inline(never)]
fn with_conjunct(alloc: Global, mut chain: Box<Core>, more: &Core) -> Result<Box<Core>, AllocError>
    ensures { IfOk result (λ own. node_form own.value
        ≡ with_conjunct (node_form chain.value) (node_form more.now)) }
{
    if goes_before(alloc, &chain, more)? {
        put_before_windows(alloc, &mut chain, more)?;
        Ok(chain)
    } else {
        beside(alloc, chain, more)
    }
}

// Whether a further conjunct stands before the windows at the end of a chain.
fn goes_before(alloc: Global, chain: &Core, more: &Core) -> Result<bool, AllocError>
    ensures { IfOk result (λ yes. yes ≡ goes_before (node_form chain.now) (node_form more.now)) }
{
    if !windowed(last_conjunct(chain)) || windowed(more) {
        return Ok(false);
    }
    Ok(connects(alloc, without_windows(chain), more)? && keeps_order(alloc, chain, more)?)
}

// Whether a core has no variables but those of another one, or shares one with it.
fn connects(alloc: Global, core: &Core, more: &Core) -> Result<bool, AllocError>
    ensures { IfOk result (λ yes. yes ≡ connects (node_form core.now) (node_form more.now)) }
{
    let columns = core.free_vars(alloc)?;
    let wanted = more.free_vars(alloc)?;
    let columns = columns.as_slice();
    let wanted = wanted.as_slice();
    Ok(all_among(wanted, columns) || some_among(wanted, columns))
}

// Whether the columns keep their order where a further conjunct stands before the windows at the end of a chain.
#[tactic(auto, unfolding(mfotl_model::specs::FreeVariables::fv))]
fn keeps_order(alloc: Global, chain: &Core, more: &Core) -> Result<bool, AllocError>
    ensures { IfOk result (λ yes. yes ≡ pointwise nat_eq
        (fv (meaning (before_windows (node_form chain.now) (node_form more.now))))
        (fv (meaning (And (node_form chain.now) (node_form more.now))))) }
{
    let moved = columns_before(alloc, chain, more)?;
    let plain = with_columns(alloc, chain.free_vars(alloc)?, more)?;
    Ok(moved.as_slice() == plain.as_slice())
}

// The columns of a chain of conjuncts with one more, which stands before the windows at its end.
#[tactic(auto, unfolding(mfotl_model::specs::FreeVariables::fv))]
fn columns_before(alloc: Global, chain: &Core, more: &Core) -> Result<Vec<u32>, AllocError>
    ensures { IfOk result (λ columns. columns.items
        ≡ fv (meaning (before_windows (node_form chain.now) (node_form more.now)))) }
{
    match chain {
        Core::And(left, right) if windowed(right) => {
            let columns = columns_before(alloc, left, more)?;
            with_columns(alloc, columns, right)
        }
        _ if windowed(chain) => with_columns(alloc, more.free_vars(alloc)?, chain),
        _ => with_columns(alloc, chain.free_vars(alloc)?, more),
    }
}

// These columns, and then those of a core that are none of them.
#[inline(never)]
fn with_columns(alloc: Global, columns: Vec<u32>, core: &Core) -> Result<Vec<u32>, AllocError>
    ensures { IfOk result (λ both. both.items ≡ joined columns.items (fv (meaning (node_form core.now)))) }
{
    joined(alloc, columns, core.free_vars(alloc)?.as_slice())
}

// Puts one more conjunct into a chain, before the windows at its end, which stay where they are. Where memory runs out,
// some of the chain is lost.
fn put_before_windows(alloc: Global, chain: &mut Core, more: &Core) -> Result<(), AllocError>
    ensures { OnOk result (node_form chain.new
        ≡ before_windows (node_form chain.old) (node_form more.now)) }
{
    match chain {
        Core::And(left, right) if windowed(right) => put_before_windows(alloc, left, more),
        _ if windowed(chain) => put_first(alloc, chain, more),
        _ => put_last(alloc, chain, more),
    }
}

// Puts a conjunct before a core.
#[inline(never)]
fn put_first(alloc: Global, core: &mut Core, more: &Core) -> Result<(), AllocError>
    ensures { OnOk result (node_form core.new ≡ And (node_form more.now) (node_form core.old)) }
{
    let own = Box::new(alloc, mem::replace(core, Core::True))?;
    *core = Core::And(boxed(alloc, more)?, own);
    Ok(())
}

// Puts a conjunct behind a core.
#[inline(never)]
fn put_last(alloc: Global, core: &mut Core, more: &Core) -> Result<(), AllocError>
    ensures { OnOk result (node_form core.new ≡ And (node_form core.old) (node_form more.now)) }
{
    let own = Box::new(alloc, mem::replace(core, Core::True))?;
    *core = Core::And(own, boxed(alloc, more)?);
    Ok(())
}

// Whether a conjunct is a window or the NOT of one.
fn windowed(core: &Core) -> bool
    ensures { result ≡ windowed (node_form core.now) }
{
    is_window(without_not(core))
}

// The last conjunct of conjuncts that stand in a chain.
fn last_conjunct(core: &Core) -> &Core
    ensures { node_form result.now ≡ last_conjunct (node_form core.now) }
{
    match core {
        Core::And(_, right) => right,
        _ => core,
    }
}

// A chain of conjuncts without the windows at its end, but for the first conjunct, which stays.
fn without_windows(core: &Core) -> &Core
    ensures { node_form result.now ≡ without_windows (node_form core.now) }
{
    match core {
        Core::And(left, right) => {
            if windowed(right) {
                without_windows(left)
            } else {
                core
            }
        }
        _ => core,
    }
}
