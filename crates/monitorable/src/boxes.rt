//! Nodes in boxes, made of their operands' boxes. Each is a call of its own that isn't inlined: so a walk down a tree
//! hands only boxes from level to level, and has no room for nodes in its frames.
ghost use Rattle.std.specs.Prelude.{◌≡◌, IfOk};
ghost use Rattle.monitorable.specs.CoreForms.{And, Exists, Next, Not, Or, Previous, Since, True, Until, node_form};
ghost use Rattle.monitorable.specs.Operators.{IsBinary, IsUnary, over_one, over_two};

use crate::node::Node;
use mfotl_model::{Atom, Bound, Comparison, Interval};
use std::alloc::{AllocError, Global};

/// A node without operands, or one whose operands are in it.
#[inline(never)]
pub fn boxed(alloc: Global, node: Node) -> Result<Box<Node>, AllocError>
    ensures { IfOk result (λ boxed. boxed.value ≡ node) }
{
    Ok(Box::new(alloc, node)?)
}

#[inline(never)]
pub fn atom(alloc: Global, atom: &Atom) -> Result<Box<Node>, AllocError>
    ensures { IfOk result (λ node. node.value ≡ Node.Atom atom.now) }
{
    Ok(Box::new(alloc, Node::Atom(atom.copy(alloc)?))?)
}

#[inline(never)]
pub fn comparison(alloc: Global, comparison: &Comparison) -> Result<Box<Node>, AllocError>
    ensures { IfOk result (λ node. node.value ≡ Node.Compare comparison.now) }
{
    Ok(Box::new(alloc, Node::Compare(comparison.copy(alloc)?))?)
}

#[inline(never)]
pub fn not(alloc: Global, inner: Box<Node>) -> Result<Box<Node>, AllocError>
    ensures { IfOk result (λ node. node_form node.value ≡ Not (node_form inner.value)) }
{
    Ok(Box::new(alloc, Node::Not(inner))?)
}

#[inline(never)]
pub fn and(alloc: Global, left: Box<Node>, right: Box<Node>) -> Result<Box<Node>, AllocError>
    ensures { IfOk result (λ node. node_form node.value ≡ And (node_form left.value) (node_form right.value)) }
{
    Ok(Box::new(alloc, Node::And(left, right))?)
}

#[inline(never)]
pub fn or(alloc: Global, left: Box<Node>, right: Box<Node>) -> Result<Box<Node>, AllocError>
    ensures { IfOk result (λ node. node_form node.value ≡ Or (node_form left.value) (node_form right.value)) }
{
    Ok(Box::new(alloc, Node::Or(left, right))?)
}

#[inline(never)]
pub fn exists(alloc: Global, bound: &Bound, inner: Box<Node>) -> Result<Box<Node>, AllocError>
    ensures { IfOk result (λ node. node_form node.value ≡ Exists bound.now (node_form inner.value)) }
{
    Ok(Box::new(alloc, Node::Exists(bound.copy(alloc)?, inner))?)
}

#[inline(never)]
pub fn previous(
    alloc: Global,
    interval: &Interval,
    inner: Box<Node>,
) -> Result<Box<Node>, AllocError>
    ensures { IfOk result (λ node. node_form node.value ≡ Previous interval.now (node_form inner.value)) }
{
    Ok(Box::new(alloc, Node::Previous(*interval, inner))?)
}

#[inline(never)]
pub fn next(alloc: Global, interval: &Interval, inner: Box<Node>) -> Result<Box<Node>, AllocError>
    ensures { IfOk result (λ node. node_form node.value ≡ Next interval.now (node_form inner.value)) }
{
    Ok(Box::new(alloc, Node::Next(*interval, inner))?)
}

/// The node's operator over another operand.
#[inline(never)]
pub fn over_one(alloc: Global, node: &Node, inner: Box<Node>) -> Result<Box<Node>, AllocError>
    requires { IsUnary (node_form node.now) }
    ensures { IfOk result (λ made. node_form made.value ≡ over_one (node_form node.now) (node_form inner.value)) }
{
    match node {
        Node::Not(_) => not(alloc, inner),
        Node::Exists(bound, _) => exists(alloc, bound, inner),
        Node::Previous(interval, _) => previous(alloc, interval, inner),
        Node::Next(interval, _) => next(alloc, interval, inner),
        _ => unreachable!(),
    }
}

/// The node's operator over two other operands.
#[inline(never)]
pub fn over_two(
    alloc: Global,
    node: &Node,
    left: Box<Node>,
    right: Box<Node>,
) -> Result<Box<Node>, AllocError>
    requires { IsBinary (node_form node.now) }
    ensures { IfOk result (λ made. node_form made.value
        ≡ over_two (node_form node.now) (node_form left.value) (node_form right.value)) }
{
    match node {
        Node::And(_, _) => and(alloc, left, right),
        Node::Or(_, _) => or(alloc, left, right),
        Node::Since(interval, _, _) => since(alloc, interval, left, right),
        Node::Until(interval, _, _) => until(alloc, interval, left, right),
        _ => unreachable!(),
    }
}

#[inline(never)]
pub fn since(
    alloc: Global,
    interval: &Interval,
    left: Box<Node>,
    right: Box<Node>,
) -> Result<Box<Node>, AllocError>
    ensures { IfOk result (λ node. node_form node.value
        ≡ Since interval.now (node_form left.value) (node_form right.value)) }
{
    Ok(Box::new(alloc, Node::Since(*interval, left, right))?)
}

#[inline(never)]
pub fn until(
    alloc: Global,
    interval: &Interval,
    left: Box<Node>,
    right: Box<Node>,
) -> Result<Box<Node>, AllocError>
    ensures { IfOk result (λ node. node_form node.value
        ≡ Until interval.now (node_form left.value) (node_form right.value)) }
{
    Ok(Box::new(alloc, Node::Until(*interval, left, right))?)
}

/// ONCE, as the SINCE that it stands for.
#[inline(never)]
pub fn once(alloc: Global, interval: &Interval, inner: Box<Node>) -> Result<Box<Node>, AllocError>
    ensures { IfOk result (λ node. node_form node.value ≡ Since interval.now True (node_form inner.value)) }
{
    since(alloc, interval, boxed(alloc, Node::True)?, inner)
}

/// EVENTUALLY, as the UNTIL that it stands for.
#[inline(never)]
pub fn eventually(
    alloc: Global,
    interval: &Interval,
    inner: Box<Node>,
) -> Result<Box<Node>, AllocError>
    ensures { IfOk result (λ node. node_form node.value ≡ Until interval.now True (node_form inner.value)) }
{
    until(alloc, interval, boxed(alloc, Node::True)?, inner)
}
