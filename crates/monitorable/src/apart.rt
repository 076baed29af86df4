//! A core whose quantifiers bind different variables.
ghost use Rattle.std.specs.Prelude.{◌≡◌, ◌+◌, IfOk, OnOk};
ghost use Rattle.monitorable.specs.CoreForms.{Exists, node_form};
ghost use Rattle.monitorable.specs.Operators.{IsBinary, over_two};
ghost use Rattle.monitorable.specs.Renaming.{above, apart_form, binder_count, renamed, renamed_atom};
ghost use Rattle.monitorable.specs.Renaming.{renamed_comparison, with_number};
ghost use Rattle.monitorable.specs.RenamingScope.{numbers_of};

use crate::boxes;
use crate::node::Node;
use crate::renaming::Renaming;
use mfotl_model::{Atom, Bound, Comparison};
use std::alloc::{AllocError, Global};

/// The core with its quantifiers numbered one after the other, above its free variables.
pub fn apart(alloc: Global, node: &Node) -> Result<Node, AllocError>
    ensures { IfOk result (λ node'. node_form node' ≡ apart_form (node_form node.now)) }
{
    let mut next = above(&node.free_vars(alloc)?)?;
    Ok(Box::into_inner(renamed(alloc, node, &Renaming::Same, &mut next)?))
}

/// The core in new numbers. `next` is the number of the next quantifier; where there is none left,
/// the answer is the same as for want of memory.
#[cycle(renaming)]
#[tactic(auto, unfolding(crate::specs::Renaming::renamed, crate::specs::Renaming::binder_count))]
fn renamed(
    alloc: Global,
    node: &Node,
    renaming: &Renaming,
    next: &mut u32,
) -> Result<Box<Node>, AllocError>
    ensures renamed { IfOk result (λ node'. node_form node'.value
        ≡ renamed (numbers_of renaming.now) next.old (node_form node.now)) }
    ensures next { OnOk result (next.new ≡ next.old + binder_count (node_form node.now)) }
{
    match node {
        Node::True => boxes::boxed(alloc, Node::True),
        Node::False => boxes::boxed(alloc, Node::False),
        Node::Atom(atom) => renamed_atom(alloc, atom, renaming),
        Node::Compare(comparison) => renamed_comparison(alloc, comparison, renaming),
        Node::Exists(bound, inner) => quantified(alloc, bound, inner, renaming, next),
        Node::Not(inner) | Node::Previous(_, inner) | Node::Next(_, inner) => {
            boxes::over_one(alloc, node, renamed(alloc, inner, renaming, next)?)
        }
        Node::And(left, right)
        | Node::Or(left, right)
        | Node::Since(_, left, right)
        | Node::Until(_, left, right) => renamed_both(alloc, node, left, right, renaming, next),
    }
}

// The node's operator over both sides in new numbers.
#[cycle(renaming)]
#[inline(never)]
fn renamed_both(
    alloc: Global,
    node: &Node,
    left: &Node,
    right: &Node,
    renaming: &Renaming,
    next: &mut u32,
) -> Result<Box<Node>, AllocError>
    requires { IsBinary (node_form node.now) }
    ensures renamed { IfOk result (λ node'. node_form node'.value
        ≡ over_two (node_form node.now) (renamed (numbers_of renaming.now) next.old (node_form left.now))
        (renamed (numbers_of renaming.now) (next.old + binder_count (node_form left.now)) (node_form right.now))) }
    ensures next { OnOk result (next.new
        ≡ next.old + (binder_count (node_form left.now) + binder_count (node_form right.now))) }
{
    let left = renamed(alloc, left, renaming, next)?;
    boxes::over_two(alloc, node, left, renamed(alloc, right, renaming, next)?)
}

// EXISTS, whose variable has the next number.
#[cycle(renaming)]
#[inline(never)]
fn quantified(
    alloc: Global,
    bound: &Bound,
    inner: &Node,
    renaming: &Renaming,
    next: &mut u32,
) -> Result<Box<Node>, AllocError>
    ensures renamed { IfOk result (λ node. node_form node.value
        ≡ Exists (record { number = next.old; name = bound.now.name })
        (renamed (with_number (numbers_of renaming.now) bound.now.number next.old) (next.old + 1)
        (node_form inner.now))) }
    ensures next { OnOk result (next.new ≡ next.old + (1 + binder_count (node_form inner.now))) }
{
    let number = take(next)?;
    let renaming = Renaming::To(bound.number, number, &*renaming);
    let inner = renamed(alloc, inner, &renaming, next)?;
    numbered(alloc, bound, number, inner)
}

#[inline(never)]
fn renamed_atom(alloc: Global, atom: &Atom, renaming: &Renaming) -> Result<Box<Node>, AllocError>
    ensures { IfOk result (λ node. node.value ≡ Node.Atom (renamed_atom (numbers_of renaming.now) atom.now)) }
{
    Ok(Box::new(alloc, Node::Atom(renaming.atom(alloc, atom)?))?)
}

#[inline(never)]
fn renamed_comparison(
    alloc: Global,
    comparison: &Comparison,
    renaming: &Renaming,
) -> Result<Box<Node>, AllocError>
    ensures { IfOk result (λ node. node.value
        ≡ Node.Compare (renamed_comparison (numbers_of renaming.now) comparison.now)) }
{
    Ok(Box::new(
        alloc,
        Node::Compare(renaming.comparison(alloc, comparison)?),
    )?)
}

// The next number.
fn take(next: &mut u32) -> Result<u32, AllocError>
    ensures number { IfOk result (λ number. number ≡ next.old) }
    ensures next { OnOk result (next.new ≡ next.old + 1) }
{
    let number = *next;
    match number.checked_add(1) {
        Some(after) => {
            *next = after;
            Ok(number)
        }
        None => Err(AllocError),
    }
}

// EXISTS under another number.
#[inline(never)]
fn numbered(
    alloc: Global,
    bound: &Bound,
    number: u32,
    inner: Box<Node>,
) -> Result<Box<Node>, AllocError>
    ensures { IfOk result (λ node. node_form node.value
        ≡ Exists (record { number = number; name = bound.now.name }) (node_form inner.value)) }
{
    let name = bound.name.copy(alloc)?;
    Ok(Box::new(alloc, Node::Exists(Bound { number, name }, inner))?)
}

// The least number above all of these.
fn above(variables: &[u32]) -> Result<u32, AllocError>
    ensures { IfOk result (λ number. number ≡ above variables.now) }
{
    let mut least = 0;
    for variable in variables {
        match variable.checked_add(1) {
            Some(after) => least = after.max(least),
            None => return Err(AllocError),
        }
    }
    Ok(least)
}
