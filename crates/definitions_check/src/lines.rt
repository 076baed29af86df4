//! The lines of an answer.
ghost use Rattle.std.specs.Prelude.{◌≡◌, ◌++◌, codes, IfOk, OnOk};
ghost use Rattle.std.specs.Fmt.{decimal};
ghost use Rattle.definitions_check.specs.Answers.{rows_line};

use mfotl_model::{Row, push_rows};
use std::alloc::{AllocError, Global};

/// The lines above those of the violations.
pub fn head(alloc: Global, number: u64, settled: usize) -> Result<Vec<u8>, AllocError>
    ensures { IfOk result (λ text. text.items
        ≡ codes "case " ++ decimal number ++ codes "\nsettled " ++ decimal settled ++ codes "\n") }
{
    let mut text = Vec::new(alloc);
    put_number(alloc, &mut text, b"case ", number)?;
    put_number(alloc, &mut text, b"\nsettled ", settled as u64)?;
    text.extend_from_slice(b"\n")?;
    Ok(text)
}

// Puts words and a number behind a text.
fn put_number(
    alloc: Global,
    text: &mut Vec<u8>,
    words: &[u8],
    number: u64,
) -> Result<(), AllocError>
    ensures { OnOk result (text.new.items ≡ text.old.items ++ (words.now ++ decimal number)) }
{
    text.extend_from_slice(words)?;
    Ok(text.extend_from_slice(number.to_string(alloc)?.as_bytes())?)
}

/// Puts the line of a position with its rows behind a text.
pub fn put_line(
    alloc: Global,
    text: &mut Vec<u8>,
    at: usize,
    rows: &[Row],
) -> Result<(), AllocError>
    ensures { OnOk result (text.new.items ≡ text.old.items ++ rows_line at rows.now) }
{
    put_position(alloc, text, at)?;
    push_rows(text, rows)?;
    text.extend_from_slice(b"\n")?;
    Ok(())
}

fn put_position(alloc: Global, text: &mut Vec<u8>, at: usize) -> Result<(), AllocError>
    ensures { OnOk result (text.new.items
        ≡ text.old.items ++ (codes "violations " ++ decimal at ++ codes ":")) }
{
    put_number(alloc, text, b"violations ", at as u64)?;
    Ok(text.extend_from_slice(b":")?)
}
