//! Atoms, EXISTS and conjunctions of comparisons alone.
ghost use Rattle.std.specs.Prelude.{◌≡◌};

use crate::tables::{X, Y, first, named, put, put_table};
use eval_bool::{Conjunct, JoinState, eval_atom, eval_exists};
use mfotl_model::{Atom, Comparison, Db, Event, Sign, Term, Terms, TimePoint, Value};
use std::alloc::{AllocError, Global};

/// Puts the lines of all these cases.
pub fn put_cases(alloc: Global, told: &mut Vec<u8>) -> Result<(), AllocError> {
    atom(alloc, told)?;
    exists(alloc, told)?;
    comparisons(alloc, told, true)?;
    comparisons(alloc, told, false)
}

// p(x,y), where p has the number 0.
fn p_of_x_y(alloc: Global) -> Result<Atom, AllocError> {
    let mut args = Vec::new(alloc);
    args.push(Term::Var(X))?;
    args.push(Term::Var(Y))?;
    Ok(Atom {
        pred: 0,
        args: Terms::new(args),
    })
}

fn put_event(alloc: Global, db: &mut Db, name: &str, number: i64) -> Result<(), AllocError> {
    let args = named(alloc, name, number)?;
    db.insert(Event { pred: 0, args })
}

// A time-point with two events, one of them twice.
fn two_events(alloc: Global) -> Result<TimePoint, AllocError> {
    let mut db = Db::new(alloc);
    for (name, number) in [("b", 2), ("a", i64::MIN), ("b", 2)] {
        put_event(alloc, &mut db, name, number)?;
    }
    Ok(TimePoint { ts: 1, db })
}

fn atom(alloc: Global, told: &mut Vec<u8>) -> Result<(), AllocError> {
    let point = two_events(alloc)?;
    put_atom(alloc, told, &point)
}

fn put_atom(alloc: Global, told: &mut Vec<u8>, point: &TimePoint) -> Result<(), AllocError> {
    let atom = p_of_x_y(alloc)?;
    put_table(told, "eval_atom", eval_atom(alloc, point, &atom))
}

fn exists(alloc: Global, told: &mut Vec<u8>) -> Result<(), AllocError> {
    let of_y = eval_exists(alloc, first(alloc)?, X)?;
    put(told, "eval_exists", of_y.rows())?;
    let closed = eval_exists(alloc, of_y, Y)?;
    put(told, "eval_exists of the last column", closed.rows())
}

// A comparison of two numbers.
fn is_less(left: i64, right: i64) -> Comparison
    ensures left { result.left ≡ Term.Const (Value.Int left) }
    ensures right { result.right ≡ Term.Const (Value.Int right) }
{
    Comparison {
        sign: Sign::Less,
        left: Term::Const(Value::Int(left)),
        right: Term::Const(Value::Int(right)),
    }
}

// The first pull gives the row without values, or none.
fn comparisons(alloc: Global, told: &mut Vec<u8>, wanted: bool) -> Result<(), AllocError> {
    let mut conjuncts = Vec::new(alloc);
    conjuncts.push(Conjunct::Test {
        comparison: is_less(1, 2),
        wanted,
    })?;
    let mut state = JoinState::new(alloc, conjuncts)?;
    match state.pull(alloc)? {
        Some(table) => put(told, "comparisons alone", table.rows()),
        None => Ok(()),
    }
}
