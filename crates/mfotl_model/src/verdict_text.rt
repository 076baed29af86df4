//! The text of a verdict.
ghost use Rattle.std.specs.Prelude.{◌≡◌, ◌+◌, ◌<◌, ◌≤◌, ◌++◌, ◌∷◌, [], codes, drop, IfOk, OnOk};
ghost use Rattle.std.specs.Fmt.{decimal, signed_decimal};
ghost use Rattle.std.specs.List.{flat_map};
ghost use Rattle.mfotl_model.specs.VerdictText.{line_of, more_values, written_row, written_value, written_values};
ghost use Rattle.mfotl_model.specs.declared.value.Value.TheVariants.{Int};

use crate::row::Row;
use crate::value::Value;
use itoa::{Buffer, write_digits};
use std::alloc::AllocError;

// As many bytes as a row of two integers has at most.
const ROOM: usize = 44;

/// Puts the line of a verdict behind a text: its timestamp, the number of its time-point and its rows in
/// their order. Where memory runs out, nothing is said of the text.
pub fn push_verdict(out: &mut Vec<u8>, point: u64, ts: u64, rows: &[Row]) -> Result<(), AllocError>
    ensures { OnOk result (out.new.items ≡ out.old.items
        ++ line_of (record { point = point; ts = ts; rows = rows.now })) }
{
    push_time_point(out, point, ts)?;
    push_rows(out, rows)?;
    out.push(b'\n')?;
    Ok(())
}

// The front of a line: the timestamp and the number of its time-point.
fn push_time_point(out: &mut Vec<u8>, point: u64, ts: u64) -> Result<(), AllocError>
    ensures { OnOk result (out.new.items ≡ out.old.items
        ++ codes "@" ++ decimal ts ++ codes " (time point " ++ decimal point ++ codes "):") }
{
    out.push(b'@')?;
    out.extend_from_slice(Buffer::new().format(ts).as_bytes())?;
    out.extend_from_slice(b" (time point ")?;
    out.extend_from_slice(Buffer::new().format(point).as_bytes())?;
    out.extend_from_slice(b"):")?;
    Ok(())
}

/// Puts rows behind a text, each in brackets behind a space.
pub fn push_rows(out: &mut Vec<u8>, rows: &[Row]) -> Result<(), AllocError>
    ensures { OnOk result (out.new.items ≡ out.old.items ++ flat_map written_row rows.now) }
{
    for row in rows {
        push_row(out, row)?;
    }
    Ok(())
}

fn push_row(out: &mut Vec<u8>, row: &Row) -> Result<(), AllocError>
    ensures { OnOk result (out.new.items ≡ out.old.items ++ written_row row.now) }
{
    match row.values() {
        [Value::Int(number)] => push_single(out, *number),
        [Value::Int(first), Value::Int(last)] => push_pair(out, *first, *last),
        values => push_longer(out, values),
    }
}

// A row of one integer.
fn push_single(out: &mut Vec<u8>, number: i64) -> Result<(), AllocError>
    ensures { OnOk result (out.new.items ≡ out.old.items ++ written_row (Int number ∷ [])) }
{
    let mut room = [b')'; ROOM];
    let start = put_marked(&mut room, ROOM - 1, b'(', number);
    push_spaced(out, &mut room, start)
}

// A row of two integers, written from its last byte to its first.
fn push_pair(out: &mut Vec<u8>, first: i64, last: i64) -> Result<(), AllocError>
    ensures { OnOk result (out.new.items ≡ out.old.items ++ written_row (Int first ∷ Int last ∷ [])) }
{
    let mut room = [b')'; ROOM];
    let comma = put_marked(&mut room, ROOM - 1, b',', last);
    let start = put_marked(&mut room, comma, b'(', first);
    push_spaced(out, &mut room, start)
}

// Puts what stands from a place on behind the text, after a space.
fn push_spaced(out: &mut Vec<u8>, room: &mut [u8; ROOM], start: usize) -> Result<(), AllocError>
    requires { (0 < start) × (start ≤ 44) }
    ensures { OnOk result (out.new.items ≡ out.old.items ++ 32 ∷ drop start room.old) }
{
    room[start - 1] = b' ';
    out.extend_from_slice(&room[start - 1..])
}

// Writes a mark and an integer behind it, so that they end where they are to end. It gives where they begin.
fn put_marked(room: &mut [u8; ROOM], end: usize, mark: u8, number: i64) -> usize
    requires { (21 ≤ end) × (end ≤ 44) }
    ensures begins { (end ≤ result + 21) × (result ≤ end) }
    ensures written { drop result room.new ≡ mark ∷ signed_decimal number ++ drop end room.old }
{
    let start = put_integer(room, end, number) - 1;
    room[start] = mark;
    start
}

// The same without a mark.
fn put_integer(room: &mut [u8; ROOM], end: usize, number: i64) -> usize
    requires { (20 ≤ end) × (end ≤ 44) }
    ensures begins { (end ≤ result + 20) × (result ≤ end) }
    ensures written { drop result room.new ≡ signed_decimal number ++ drop end room.old }
{
    let start = write_digits(number.unsigned_abs(), room, end);
    if number >= 0 {
        return start;
    }
    room[start - 1] = b'-';
    start - 1
}

// A row of any values.
fn push_longer(out: &mut Vec<u8>, values: &[Value]) -> Result<(), AllocError>
    ensures { OnOk result (out.new.items ≡ out.old.items ++ written_row values.now) }
{
    out.push(b' ')?;
    out.push(b'(')?;
    push_values(out, values)?;
    out.push(b')')?;
    Ok(())
}

fn push_values(out: &mut Vec<u8>, values: &[Value]) -> Result<(), AllocError>
    ensures { OnOk result (out.new.items ≡ out.old.items ++ written_values values.now) }
{
    let Some((first, others)) = values.split_first() else {
        return Ok(());
    };
    push_value(out, first)?;
    push_more_values(out, others)
}

// Puts a comma and the value, for each.
fn push_more_values(out: &mut Vec<u8>, values: &[Value]) -> Result<(), AllocError>
    ensures { OnOk result (out.new.items ≡ out.old.items ++ more_values values.now) }
{
    for value in values {
        out.push(b',')?;
        push_value(out, value)?;
    }
    Ok(())
}

fn push_value(out: &mut Vec<u8>, value: &Value) -> Result<(), AllocError>
    ensures { OnOk result (out.new.items ≡ out.old.items ++ written_value value.now) }
{
    match value {
        Value::Int(number) => out.extend_from_slice(Buffer::new().format(*number).as_bytes()),
        Value::Text(text) => {
            out.push(b'"')?;
            out.extend_from_slice(text.as_bytes())?;
            out.push(b'"')?;
            Ok(())
        }
    }
}
