//! The operations on tables.
ghost use Rattle.std.specs.Prelude.{◌≡◌, ◌∷◌, [], IfOk, OnOk};

use crate::tables::{X, Y, first, key, named, put, put_table, second, twos};
use mfotl_model::{Comparison, Sign, Term, Value};
use relations::{Columns, Table};
use std::alloc::{AllocError, Global};

/// Puts the lines of all these cases.
pub fn put_cases(alloc: Global, told: &mut Vec<u8>) -> Result<(), AllocError> {
    join(alloc, told)?;
    antijoin(alloc, told)?;
    project(alloc, told)?;
    union_with_itself(alloc, told)?;
    union(alloc, told)?;
    select(alloc, told)?;
    inserts(alloc, told)?;
    retain(alloc, told)
}

fn join(alloc: Global, told: &mut Vec<u8>) -> Result<(), AllocError> {
    let (left, right) = (first(alloc)?, second(alloc)?);
    put_table(told, "join", left.join(alloc, &right))
}

fn antijoin(alloc: Global, told: &mut Vec<u8>) -> Result<(), AllocError> {
    let (left, right) = (first(alloc)?, key(alloc)?);
    put_table(told, "antijoin", left.antijoin(alloc, &right))
}

fn project(alloc: Global, told: &mut Vec<u8>) -> Result<(), AllocError> {
    let table = first(alloc)?.project(alloc, Columns::from_slice(alloc, &[Y])?)?;
    put(told, "project", table.rows())
}

fn union_with_itself(alloc: Global, told: &mut Vec<u8>) -> Result<(), AllocError> {
    let table = first(alloc)?;
    let same = table.union(alloc, &table)?;
    put(told, "union with itself", same.rows())
}

fn union(alloc: Global, told: &mut Vec<u8>) -> Result<(), AllocError> {
    let (left, right) = (first(alloc)?, twos(alloc, &[X, Y], &[(3, 4), (2, 9)])?);
    put_table(told, "union", left.union(alloc, &right))
}

// A comparison of x with a number.
fn x_is(sign: Sign, number: i64) -> Comparison
    ensures left { result.left ≡ Term.Var 0 }
    ensures right { result.right ≡ Term.Const (Value.Int number) }
{
    Comparison {
        sign,
        left: Term::Var(X),
        right: Term::Const(Value::Int(number)),
    }
}

// The rows whose x is above 3.
fn above_3(alloc: Global) -> Result<Table, AllocError>
    ensures { IfOk result (λ table. table.columns ≡ 0 ∷ 1 ∷ []) }
{
    let table = twos(alloc, &[X, Y], &[(2, 0), (3, 0), (4, 0), (7, 0)])?;
    table.select(alloc, &x_is(Sign::Greater, 3), true)
}

// Those of them whose x isn't 7.
fn select(alloc: Global, told: &mut Vec<u8>) -> Result<(), AllocError> {
    let above = above_3(alloc)?;
    put_table(
        told,
        "select",
        above.select(alloc, &x_is(Sign::Equal, 7), false),
    )
}

fn inserts(alloc: Global, told: &mut Vec<u8>) -> Result<(), AllocError> {
    let mut table = Table::empty(alloc, Columns::from_slice(alloc, &[X, Y])?);
    insert(alloc, &mut table, "b", 2, told)?;
    insert(alloc, &mut table, "a", i64::MIN, told)?;
    insert(alloc, &mut table, "b", 2, told)
}

fn insert(
    alloc: Global,
    table: &mut Table,
    name: &str,
    number: i64,
    told: &mut Vec<u8>,
) -> Result<(), AllocError>
    requires { table.old.columns ≡ 0 ∷ 1 ∷ [] }
    ensures { OnOk result (table.new.columns ≡ table.old.columns) }
{
    let is_new = table.insert(named(alloc, name, number)?)?;
    put(
        told,
        if is_new { "insert, new" } else { "insert, old" },
        table.rows(),
    )
}

// The rows that aren't the first one's.
fn retain(alloc: Global, told: &mut Vec<u8>) -> Result<(), AllocError> {
    let mut table = first(alloc)?;
    let other = twos(alloc, &[X, Y], &[(1, 2)])?;
    table.retain(|row| !other.contains(row));
    put(told, "retain", table.rows())
}
