//! The nodes of a monitor.
ghost use Rattle.std.specs.Prelude.{◌≡◌, IfOk};
ghost use Rattle.monitor_nodes.specs.Steps.{TakesPoint};

use crate::exists::quantified;
use crate::filter::{FilterState, take_filter};
use crate::join::take_join;
use crate::next::take_next;
use crate::or::take_or;
use crate::previous::take_previous;
use crate::since::take_since;
use crate::stack::{popped, popped_many};
use crate::tables::Tables;
use crate::until::take_until;
use eval_bool::{AtomReader, JoinState, OrState};
use eval_since::{PrevState, SinceState};
use eval_until::{NextState, UntilState};
use mfotl_model::{Row, TimePoint};
use relations::Table;
use std::alloc::{AllocError, Global};

/// A part of the core that is evaluated by itself.
#[derive(Drop)]
pub enum Node {
    /// What is the same at each position, with its table.
    Constant(Table),
    Atom(AtomReader),
    /// EXISTS with its variable.
    Exists(u32),
    /// A conjunction with a child.
    Join(JoinState),
    /// A conjunction whose right side is asked for the left one's rows.
    Filter(FilterState),
    /// OR of operands with the same variables.
    Or(OrState),
    Previous(PrevState),
    Next(NextState),
    /// SINCE, with a table whose columns stand in the order that its tables have.
    Since(SinceState, Table),
    /// UNTIL, likewise.
    Until(UntilState, Table),
}

impl Node {
    /// Takes a time-point, and off the stack the operands' new tables, the last operand's on top. Gives its own. It
    /// errs where memory is wanting, a SINCE is given a timestamp below its last one, or the node isn't one for a core;
    /// node and stack are then of no use any more.
    pub fn advance(
        &mut self,
        alloc: Global,
        point: &TimePoint,
        stack: &mut Vec<Tables>,
    ) -> Result<Tables, AllocError>
        ensures { IfOk result (λ tables.
            TakesPoint self.old point.now stack.old.items self.new stack.new.items tables) }
    {
        match self {
            Node::Constant(table) => advance_constant(alloc, table, point, stack),
            Node::Atom(reader) => advance_atom(alloc, reader, point, stack),
            Node::Exists(var) => advance_exists(alloc, *var, point, stack),
            Node::Join(state) => advance_join(alloc, state, point, stack),
            Node::Filter(state) => advance_filter(alloc, state, point, stack),
            Node::Or(state) => advance_or(alloc, state, point, stack),
            Node::Previous(state) => advance_previous(alloc, state, point, stack),
            Node::Next(state) => advance_next(alloc, state, point, stack),
            Node::Since(state, order) => advance_since(alloc, state, order, point, stack),
            Node::Until(state, order) => advance_until(alloc, state, order, point, stack),
        }
    }

    /// Takes back rows that the node gave, where it has a use for their memory.
    pub fn take_back(&mut self, rows: Vec<Row>)
        ensures { self.new ≡ self.old }
    {
        if let Node::Atom(reader) = self {
            reader.take_back(rows);
        }
    }
}

fn advance_constant(
    alloc: Global,
    table: &Table,
    _point: &TimePoint,
    _stack: &Vec<Tables>,
) -> Result<Tables, AllocError>
    ensures { IfOk result (λ tables. TakesPoint (Node.Constant table.now) _point.now _stack.now.items
        (Node.Constant table.now) _stack.now.items tables) }
{
    match table.copy(alloc) {
        Ok(copy) => Ok(Tables::one(copy)),
        Err(error) => Err(error),
    }
}

fn advance_atom(
    alloc: Global,
    reader: &mut AtomReader,
    point: &TimePoint,
    _stack: &Vec<Tables>,
) -> Result<Tables, AllocError>
    ensures { IfOk result (λ tables. TakesPoint (Node.Atom reader.old) point.now _stack.now.items
        (Node.Atom reader.new) _stack.now.items tables) }
{
    match reader.table(alloc, point) {
        Ok(table) => Ok(Tables::one(table)),
        Err(error) => Err(error),
    }
}

fn advance_exists(
    alloc: Global,
    var: u32,
    _point: &TimePoint,
    stack: &mut Vec<Tables>,
) -> Result<Tables, AllocError>
    ensures { IfOk result (λ tables. TakesPoint (Node.Exists var) _point.now stack.old.items
        (Node.Exists var) stack.new.items tables) }
{
    let tables = popped(stack);
    quantified(alloc, tables, var)
}

fn advance_join(
    alloc: Global,
    state: &mut JoinState,
    _point: &TimePoint,
    stack: &mut Vec<Tables>,
) -> Result<Tables, AllocError>
    ensures { IfOk result (λ tables. TakesPoint (Node.Join state.old) _point.now stack.old.items
        (Node.Join state.new) stack.new.items tables) }
{
    let children = state.children();
    if children == 0 {
        return Err(AllocError);
    }
    let lists = popped_many(stack, children)?;
    take_join(alloc, state, lists)
}

fn advance_filter(
    alloc: Global,
    state: &mut FilterState,
    point: &TimePoint,
    stack: &mut Vec<Tables>,
) -> Result<Tables, AllocError>
    ensures { IfOk result (λ tables. TakesPoint (Node.Filter state.old) point.now stack.old.items
        (Node.Filter state.new) stack.new.items tables) }
{
    let right = popped(stack);
    let left = popped(stack);
    let tables = popped(stack);
    take_filter(alloc, state, point.ts, tables, left, right)
}

fn advance_or(
    alloc: Global,
    state: &mut OrState,
    _point: &TimePoint,
    stack: &mut Vec<Tables>,
) -> Result<Tables, AllocError>
    ensures { IfOk result (λ tables. TakesPoint (Node.Or state.old) _point.now stack.old.items
        (Node.Or state.new) stack.new.items tables) }
{
    let right = popped(stack);
    let left = popped(stack);
    take_or(alloc, state, left, right)
}

fn advance_previous(
    alloc: Global,
    state: &mut PrevState,
    point: &TimePoint,
    stack: &mut Vec<Tables>,
) -> Result<Tables, AllocError>
    ensures { IfOk result (λ tables. TakesPoint (Node.Previous state.old) point.now stack.old.items
        (Node.Previous state.new) stack.new.items tables) }
{
    let operand = popped(stack);
    take_previous(alloc, state, point.ts, operand)
}

fn advance_next(
    alloc: Global,
    state: &mut NextState,
    point: &TimePoint,
    stack: &mut Vec<Tables>,
) -> Result<Tables, AllocError>
    ensures { IfOk result (λ tables. TakesPoint (Node.Next state.old) point.now stack.old.items
        (Node.Next state.new) stack.new.items tables) }
{
    let operand = popped(stack);
    take_next(alloc, state, point.ts, operand)
}

fn advance_since(
    alloc: Global,
    state: &mut SinceState,
    order: &Table,
    point: &TimePoint,
    stack: &mut Vec<Tables>,
) -> Result<Tables, AllocError>
    ensures { IfOk result (λ tables. TakesPoint (Node.Since state.old order.now) point.now stack.old.items
        (Node.Since state.new order.now) stack.new.items tables) }
{
    let right = popped(stack);
    let left = popped(stack);
    take_since(alloc, state, order, point.ts, left, right)
}

fn advance_until(
    alloc: Global,
    state: &mut UntilState,
    order: &Table,
    point: &TimePoint,
    stack: &mut Vec<Tables>,
) -> Result<Tables, AllocError>
    ensures { IfOk result (λ tables. TakesPoint (Node.Until state.old order.now) point.now stack.old.items
        (Node.Until state.new order.now) stack.new.items tables) }
{
    let right = popped(stack);
    let left = popped(stack);
    take_until(alloc, state, order, point.ts, left, right)
}
