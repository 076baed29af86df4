//! The words and texts of a case.

use crate::stop::Stop;
use std::alloc::Global;
use std::str::FromStr;

/// The first word, and what stands behind the space after it.
pub fn parted(case: &str) -> (&str, &str) {
    case.split_once(' ').unwrap_or((case, ""))
}

/// What stands before the first ` | `, and behind it.
pub fn halves(case: &str) -> Result<(&str, &str), Stop> {
    case.split_once(" | ").ok_or(Stop::Malformed)
}

/// The number that a word writes.
pub fn number<N: FromStr>(word: &str) -> Result<N, Stop>
where
    N::Err: Drop,
{
    match word.parse::<N>() {
        Ok(number) => Ok(number),
        Err(_) => Err(Stop::Malformed),
    }
}

/// Numbers, parted by commas; `-` is none.
pub fn numbers(alloc: Global, word: &str) -> Result<Vec<u64>, Stop> {
    let mut numbers = Vec::new(alloc);
    if word == "-" {
        return Ok(numbers);
    }
    for digits in word.split(',') {
        numbers.push(number(digits)?)?;
    }
    Ok(numbers)
}

/// The bytes that a text stands for: `\n` is a line feed, `\xHH` a byte, and `\{N:TEXT}` so many times
/// the text. Every other character is itself.
pub fn bytes_of(alloc: Global, text: &str) -> Result<Vec<u8>, Stop> {
    let mut bytes = Vec::new(alloc);
    let mut pieces = text.split('\\');
    if let Some(plain) = pieces.next() {
        bytes.extend_from_slice(plain.as_bytes())?;
    }
    for piece in pieces {
        put_escaped(&mut bytes, piece)?;
    }
    Ok(bytes)
}

// Puts what stands behind a backslash.
fn put_escaped(bytes: &mut Vec<u8>, piece: &str) -> Result<(), Stop> {
    if let Some(rest) = piece.strip_prefix('n') {
        bytes.push(b'\n')?;
        return put(bytes, rest);
    }
    if let Some(rest) = piece.strip_prefix('x') {
        return put_byte(bytes, rest);
    }
    match piece.strip_prefix('{') {
        Some(rest) => put_repeated(bytes, rest),
        None => Err(Stop::Malformed),
    }
}

fn put(bytes: &mut Vec<u8>, text: &str) -> Result<(), Stop> {
    Ok(bytes.extend_from_slice(text.as_bytes())?)
}

// Puts the byte of two digits, and the text behind them.
fn put_byte(bytes: &mut Vec<u8>, piece: &str) -> Result<(), Stop> {
    let (digits, rest) = piece.split_at_checked(2).ok_or(Stop::Malformed)?;
    match u8::from_str_radix(digits, 16) {
        Ok(byte) => bytes.push(byte)?,
        Err(_) => return Err(Stop::Malformed),
    }
    put(bytes, rest)
}

// Puts what `N:TEXT}` stands for, and the text behind it.
fn put_repeated(bytes: &mut Vec<u8>, piece: &str) -> Result<(), Stop> {
    let (inner, rest) = piece.split_once('}').ok_or(Stop::Malformed)?;
    let (times, text) = inner.split_once(':').ok_or(Stop::Malformed)?;
    for _ in 0..number::<u32>(times)? {
        put(bytes, text)?;
    }
    put(bytes, rest)
}

/// Bytes as they are printed, on one line.
pub fn shown(alloc: Global, bytes: &[u8]) -> Result<String, Stop> {
    Ok(bytes.escape_ascii().to_string(alloc)?)
}

/// Puts a word behind others, with a space between.
pub fn put_word(told: &mut String, word: &str) -> Result<(), Stop> {
    if !told.is_empty() && !word.is_empty() {
        told.push(' ')?;
    }
    Ok(told.push_str(word)?)
}
