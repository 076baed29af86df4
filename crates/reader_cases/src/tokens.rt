//! Cases of tokens.

use crate::stop::Stop;
use crate::texts::{bytes_of, number, parted, put_word, shown};
use mfotl_lex::{Kind, LexFault, Lexer, Mode, Token, read_integer};
use std::alloc::Global;

// The length that a text with an offset stays below.
const LONGEST: usize = 1 << 32;

/// The answer to a case of this kind.
pub fn answer(alloc: Global, kind: &str, case: &str) -> Result<String, Stop> {
    match kind {
        "contents" => contents(alloc, case),
        "integer" => integer(alloc, case),
        _ => in_mode(alloc, kind, case),
    }
}

fn in_mode(alloc: Global, kind: &str, case: &str) -> Result<String, Stop> {
    let (word, case) = parted(case);
    let mode = match word {
        "plain" => Mode::Plain,
        "log" => Mode::Log,
        _ => return Err(Stop::Malformed),
    };
    match kind {
        "front" => front(alloc, mode, case),
        "twice" => twice(alloc, mode, case),
        _ => all(alloc, mode, case),
    }
}

// Each token of a text, up to its first fault.
fn all(alloc: Global, mode: Mode, case: &str) -> Result<String, Stop> {
    let text = bytes_of(alloc, case)?;
    let mut lexer = Lexer::new(text.as_slice(), mode);
    let mut told = String::new(alloc);
    for _ in 0..=text.len() {
        let found = lexer.next();
        if matches!(found, Ok(None)) {
            break;
        }
        let is_fault = found.is_err();
        put_found(alloc, &mut told, found)?;
        if is_fault {
            break;
        }
    }
    Ok(told)
}

// What two calls find.
fn twice(alloc: Global, mode: Mode, case: &str) -> Result<String, Stop> {
    let text = bytes_of(alloc, case)?;
    let mut lexer = Lexer::new(text.as_slice(), mode);
    let mut told = String::new(alloc);
    put_found(alloc, &mut told, lexer.next())?;
    put_found(alloc, &mut told, lexer.next())?;
    Ok(told)
}

// What one call finds of bytes behind which more may come, and the offset where the lexer then stands.
fn front(alloc: Global, mode: Mode, case: &str) -> Result<String, Stop> {
    let (at, text) = parted(case);
    let at = number::<u32>(at)?;
    let text = bytes_of(alloc, text)?;
    front_of(alloc, mode, at, text.as_slice())
}

fn front_of(alloc: Global, mode: Mode, at: u32, text: &[u8]) -> Result<String, Stop> {
    if text.len() >= LONGEST {
        return Err(Stop::Malformed);
    }
    let mut lexer = Lexer::resume(text, mode, at as usize, false);
    let mut told = String::new(alloc);
    put_found(alloc, &mut told, lexer.next())?;
    put_word(&mut told, lexer.offset().to_string(alloc)?.as_str())?;
    Ok(told)
}

// What each token says, and the offset behind them.
fn contents(alloc: Global, case: &str) -> Result<String, Stop> {
    let text = bytes_of(alloc, case)?;
    let mut lexer = Lexer::new(text.as_slice(), Mode::Plain);
    said_of(alloc, &mut lexer, text.len())
}

// What each token says, of at most so many, and the offset behind them.
fn said_of(alloc: Global, lexer: &mut Lexer<'_>, most: usize) -> Result<String, Stop> {
    let mut told = String::new(alloc);
    for _ in 0..most {
        if !put_said(alloc, &mut told, lexer)? {
            break;
        }
    }
    put_word(&mut told, lexer.offset().to_string(alloc)?.as_str())?;
    Ok(told)
}

// Puts what the next token says, and whether there is one.
fn put_said(alloc: Global, told: &mut String, lexer: &mut Lexer<'_>) -> Result<bool, Stop> {
    match lexer.next() {
        Ok(Some(token)) => {
            put_word(told, said(alloc, &token)?.as_str())?;
            Ok(true)
        }
        _ => Ok(false),
    }
}

// An Integer's number, and any other token's content in brackets.
fn said(alloc: Global, token: &Token<'_>) -> Result<String, Stop> {
    if let Kind::Integer = token.kind {
        return Ok(token.integer().to_string(alloc)?);
    }
    let content = shown(alloc, token.content())?;
    Ok(format!(in alloc; "({content})")?)
}

fn integer(alloc: Global, case: &str) -> Result<String, Stop> {
    let text = bytes_of(alloc, case)?;
    match read_integer(text.as_slice()) {
        Some(number) => Ok(number.to_string(alloc)?),
        None => Ok(String::from_str(alloc, "None")?),
    }
}

// A token as its kind, its offset and its length.
fn put_found(
    alloc: Global,
    told: &mut String,
    found: Result<Option<Token<'_>>, LexFault>,
) -> Result<(), Stop> {
    match found {
        Ok(Some(token)) => put_token(alloc, told, &token),
        Ok(None) => put_word(told, "None"),
        Err(fault) => put_word(told, fault.to_string(alloc)?.as_str()),
    }
}

fn put_token(alloc: Global, told: &mut String, token: &Token<'_>) -> Result<(), Stop> {
    let place = format!(in alloc; "{}+{}", token.at, token.text.len())?;
    put_word(told, kind_word(token.kind))?;
    put_word(told, place.as_str())
}

fn kind_word(kind: Kind) -> &'static str {
    match kind {
        Kind::Word => "Word",
        Kind::Integer => "Integer",
        Kind::Text => "Text",
        Kind::OpenParen => "OpenParen",
        Kind::CloseParen => "CloseParen",
        Kind::OpenBracket => "OpenBracket",
        Kind::CloseBracket => "CloseBracket",
        Kind::Comma => "Comma",
        Kind::Colon => "Colon",
        Kind::Dot => "Dot",
        Kind::Question => "Question",
        Kind::Star => "Star",
        Kind::Equal => "Equal",
        Kind::Less => "Less",
        Kind::LessEqual => "LessEqual",
        Kind::Greater => "Greater",
        Kind::GreaterEqual => "GreaterEqual",
        Kind::At => "At",
        Kind::Semicolon => "Semicolon",
    }
}
