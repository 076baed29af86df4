//! The tables of the cases, over the columns x, y and z.
ghost use Rattle.std.specs.Prelude.{◌≡◌, ◌∷◌, [], IfOk, IsTrue, length};
ghost use Rattle.mfotl_model.specs.Tables.{all_apart};

use mfotl_model::{Row, Text, Value, push_rows};
use relations::{Columns, Table};
use std::alloc::{AllocError, Global};

pub const X: u32 = 0;

pub const Y: u32 = 1;

pub const Z: u32 = 2;

/// The row of one value.
pub fn one(alloc: Global, value: i64) -> Result<Row, AllocError>
    ensures { IfOk result (λ row. length row ≡ 1) }
{
    Row::empty().push(alloc, Value::Int(value))
}

/// The row of two values.
pub fn two(alloc: Global, first: Value, second: Value) -> Result<Row, AllocError>
    ensures { IfOk result (λ row. length row ≡ 2) }
{
    Row::empty().push(alloc, first)?.push(alloc, second)
}

/// The row of a text and an integer.
pub fn named(alloc: Global, name: &str, number: i64) -> Result<Row, AllocError>
    ensures { IfOk result (λ row. length row ≡ 2) }
{
    let name = Text::from_slice(alloc, name.as_bytes())?;
    two(alloc, Value::Text(name), Value::Int(number))
}

/// The table of these rows.
pub fn twos(alloc: Global, columns: &[u32; 2], rows: &[(i64, i64)]) -> Result<Table, AllocError>
    requires apart { IsTrue (all_apart columns.now) }
    ensures { IfOk result (λ table. table.columns ≡ columns.now) }
{
    let mut table = Table::empty(alloc, Columns::from_slice(alloc, columns)?);
    for (first, second) in rows {
        let _ = table.insert(two(alloc, Value::Int(*first), Value::Int(*second))?)?;
    }
    Ok(table)
}

/// (1,2) and (3,4), over x and y.
pub fn first(alloc: Global) -> Result<Table, AllocError>
    ensures { IfOk result (λ table. table.columns ≡ 0 ∷ 1 ∷ []) }
{
    twos(alloc, &[X, Y], &[(1, 2), (3, 4)])
}

/// (2,5), over y and z.
pub fn second(alloc: Global) -> Result<Table, AllocError>
    ensures { IfOk result (λ table. table.columns ≡ 1 ∷ 2 ∷ []) }
{
    twos(alloc, &[Y, Z], &[(2, 5)])
}

/// What the second has in y.
pub fn key(alloc: Global) -> Result<Table, AllocError>
    ensures { IfOk result (λ table. table.columns ≡ 1 ∷ []) }
{
    second(alloc)?.project(alloc, Columns::from_slice(alloc, &[Y])?)
}

/// Puts a line: what was called, and the rows that it gave.
pub fn put(told: &mut Vec<u8>, call: &str, rows: &[Row]) -> Result<(), AllocError> {
    told.extend_from_slice(call.as_bytes())?;
    told.push(b':')?;
    push_rows(told, rows)?;
    Ok(told.push(b'\n')?)
}

/// Puts the line of a table that a call gave.
pub fn put_table(
    told: &mut Vec<u8>,
    call: &str,
    table: Result<Table, AllocError>,
) -> Result<(), AllocError> {
    let table = table?;
    put(told, call, table.rows())
}
