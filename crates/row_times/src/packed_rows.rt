//! Rows that are kept for later, in little memory.
ghost use Rattle.std.specs.Prelude.{◌≡◌, IfOk, IfSome};
ghost use Rattle.row_times.specs.PackedRows.{alone, packed_rows};

use mfotl_model::{Row, Value};
use std::alloc::{AllocError, Global};

/// Rows in their order. Those of one value each stand as these values, in `One` or `Alone`: a row has room for two.
/// Any rows may stand in `Wide`.
#[derive(Drop)]
pub enum PackedRows {
    One(Value),
    Alone(Vec<Value>),
    Wide(Vec<Row>),
}

// the values of rows of one value each
fn values_of(alloc: Global, rows: &[Row]) -> Result<Option<Vec<Value>>, AllocError>
    ensures { IfOk result (λ found. IfSome found (λ values. alone values.items ≡ rows.now)) }
{
    let mut values = Vec::with_capacity(alloc, rows.len())?;
    for row in rows {
        let [value] = row.values() else {
            return Ok(None);
        };
        values.push(value.copy(alloc)?)?;
    }
    Ok(Some(values))
}

// the rows as they are, without room for more
fn wide(mut rows: Vec<Row>) -> PackedRows
    ensures { packed_rows result ≡ rows.items }
{
    rows.shrink_to_fit();
    PackedRows::Wide(rows)
}

// rows of which the first has one value
fn packed_alone(alloc: Global, rows: Vec<Row>) -> Result<PackedRows, AllocError>
    ensures { IfOk result (λ packed. packed_rows packed ≡ rows.items) }
{
    match values_of(alloc, rows.as_slice())? {
        Some(values) => Ok(PackedRows::Alone(values)),
        None => Ok(wide(rows)),
    }
}

/// The rows in the form that takes least memory: values are copied, and where that can't be the rows stay as they are,
/// without room for more.
pub fn packed(alloc: Global, rows: Vec<Row>) -> Result<PackedRows, AllocError>
    ensures { IfOk result (λ packed. packed_rows packed ≡ rows.items) }
{
    let Some(first) = rows.first() else {
        return Ok(wide(rows));
    };
    match first.values() {
        [value] if rows.len() == 1 => Ok(PackedRows::One(value.copy(alloc)?)),
        [_] => packed_alone(alloc, rows),
        _ => Ok(wide(rows)),
    }
}
