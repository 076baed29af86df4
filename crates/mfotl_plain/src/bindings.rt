//! Values for variables, kept on the stack.
ghost use Rattle.std.specs.Prelude.{◌≡◌, ◌++◌, ◌∷◌, [], IfOk, OnOk, pos};
ghost use Rattle.mfotl_plain.specs.Bindings.{valuation_of};
ghost use Rattle.mfotl_model.specs.Satisfaction.{event_of, term_value};
ghost use Rattle.mfotl_model.specs.Violations.{valuation};

use mfotl_model::{Atom, Event, Row, Term, Value};
use std::alloc::{AllocError, Global};

/// The values of a row, and before them those that quantifiers gave.
#[derive(Clone, Copy)]
pub enum Bindings<'a> {
    Row(&'a [u32], &'a [Value]),
    With(u32, &'a Value, &'a Bindings<'a>),
}

// The value of `x`, or `zero` where nothing gives it one.
fn value_of<'a>(bindings: &'a Bindings<'a>, x: u32, zero: &'a Value) -> &'a Value
    requires { zero.now ≡ Value.Int (pos 0) }
    ensures { result.now ≡ valuation_of bindings.now x }
{
    match bindings {
        Bindings::Row(columns, row) => value_in(columns, row, x, zero),
        Bindings::With(y, value, rest) => {
            if x == *y {
                value
            } else {
                value_of(rest, x, zero)
            }
        }
    }
}

fn value_in<'a>(columns: &[u32], row: &'a [Value], x: u32, zero: &'a Value) -> &'a Value
    requires { zero.now ≡ Value.Int (pos 0) }
    ensures { result.now ≡ valuation columns.now row.now x }
{
    let Some((column, columns)) = columns.split_first() else {
        return zero;
    };
    let Some((value, row)) = row.split_first() else {
        return zero;
    };
    if x == *column {
        value
    } else {
        value_in(columns, row, x, zero)
    }
}

pub fn term_value<'a>(term: &'a Term, bindings: &'a Bindings<'a>, zero: &'a Value) -> &'a Value
    requires { zero.now ≡ Value.Int (pos 0) }
    ensures { result.now ≡ term_value (valuation_of bindings.now) term.now }
{
    match term {
        Term::Var(x) => value_of(bindings, *x, zero),
        Term::Const(value) => value,
    }
}

/// The event that an atom stands for.
pub fn event_of(alloc: Global, atom: &Atom, bindings: &Bindings<'_>) -> Result<Event, AllocError>
    ensures { IfOk result (λ event. event ≡ event_of (valuation_of bindings.now) atom.now) }
{
    let mut args = Vec::new(alloc);
    for term in atom.args.as_slice() {
        push_term_value(alloc, &mut args, term, bindings)?;
    }
    Ok(Event {
        pred: atom.pred,
        args: Row::new(args),
    })
}

fn push_term_value(
    alloc: Global,
    values: &mut Vec<Value>,
    term: &Term,
    bindings: &Bindings<'_>,
) -> Result<(), AllocError>
    ensures { OnOk result (values.new.items
        ≡ values.old.items ++ term_value (valuation_of bindings.now) term.now ∷ []) }
{
    let zero = Value::Int(0);
    values.push(term_value(term, bindings, &zero).copy(alloc)?)?;
    Ok(())
}
