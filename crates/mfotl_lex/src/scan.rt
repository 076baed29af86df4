//! What stands at the front of bytes: a token, a fault, or too little to tell.
ghost use Rattle.std.specs.Prelude.{◌≡◌, length, drop, ◌≤◌, slice_index};
ghost use Rattle.std.specs.Char.{is_ascii_digit};
ghost use Rattle.std.specs.List.{prefix_len};
ghost use Rattle.mfotl_lex.specs.Bytes.{minus};
ghost use Rattle.mfotl_lex.specs.Scans.{whole_token, word_scan, number_scan, minus_scan, closed_text, text_end};
ghost use Rattle.mfotl_lex.specs.Scans.{text_scan, order_scan, plain_mark, log_mark, mark_scan, plain_scan};
ghost use Rattle.mfotl_lex.specs.Scans.{log_scan, scan, IsWithin};

use crate::bytes::{
    begins_plain_word, digit_len, in_log_word, log_word_len, plain_word_len, text_len,
};
use crate::fault::LexFaultKind;
use crate::kind::{Kind, Mode};
use crate::limits::{MAX_LOG_WORD, MAX_TEXT, MAX_WORD};
use crate::number::read_integer;

/// What stands at the front of bytes.
#[derive(Clone, Copy)]
pub enum Scan {
    /// Neither a whole token nor a fault is shown.
    Unshown,
    /// A whole token of so many bytes.
    Takes(Kind, usize),
    /// A fault, so many bytes further on.
    Fails(LexFaultKind, usize),
}

fn whole(kind: Kind, count: usize, len: usize, ended: bool) -> Scan
    ensures { result ≡ whole_token ended kind count len }
{
    if ended || count < len {
        Scan::Takes(kind, count)
    } else {
        Scan::Unshown
    }
}

fn word_scan(count: usize, limit: usize, len: usize, ended: bool) -> Scan
    ensures { result ≡ word_scan ended limit count len }
{
    if count > limit {
        Scan::Fails(LexFaultKind::TextLong, 0)
    } else {
        whole(Kind::Word, count, len, ended)
    }
}

fn number_scan(bytes: &[u8], count: usize, ended: bool) -> Scan
    requires { count ≤ length bytes.now }
    ensures { result ≡ number_scan ended count bytes.now }
{
    if !ended && count == bytes.len() {
        return Scan::Unshown;
    }
    match read_integer(&bytes[..count]) {
        Some(_) => Scan::Takes(Kind::Integer, count),
        None => Scan::Fails(LexFaultKind::NumberRange, 0),
    }
}

// What a `-` begins: an Integer only directly before a digit.
#[tactic(auto, unfolding(crate::specs::Scans::minus_scan))]
fn minus_scan(bytes: &[u8], ended: bool) -> Scan
    requires { slice_index bytes.now 0 ≡ minus }
    ensures { result ≡ minus_scan ended (drop 1 bytes.now) }
{
    match bytes {
        [_, b, ..] if b.is_ascii_digit() => {
            number_scan(bytes, 1 + digit_len(&bytes[1..]), ended)
        }
        [_] if !ended => Scan::Unshown,
        _ => Scan::Fails(LexFaultKind::BadByte, 0),
    }
}

#[tactic(auto, using(crate::proofs::Utf8::is_text, crate::proofs::Utf8::is_no_text), unfolding(crate::specs::Scans::closed_text))]
fn closed_text(content: &[u8]) -> Scan
    ensures { result ≡ closed_text content.now }
{
    match str::from_utf8(content) {
        Ok(_) => Scan::Takes(Kind::Text, content.len() + 2),
        Err(_) => Scan::Fails(LexFaultKind::BadUtf8, 0),
    }
}

#[tactic(auto, unfolding(crate::specs::Scans::text_end))]
fn text_end(content: &[u8], bytes: &[u8], ended: bool) -> Scan
    ensures { result ≡ text_end ended content.now bytes.now }
{
    match bytes {
        [] if ended => Scan::Fails(LexFaultKind::OpenText, 0),
        [] => Scan::Unshown,
        [b'"', ..] => closed_text(content),
        [_, ..] => Scan::Fails(LexFaultKind::BadByte, content.len() + 1),
    }
}

// A Text by the bytes behind its opening quote.
#[tactic(auto, unfolding(crate::specs::Scans::text_scan))]
fn text_scan(bytes: &[u8], ended: bool) -> Scan
    ensures { result ≡ text_scan ended bytes.now }
{
    let count = text_len(bytes);
    if count > MAX_TEXT {
        return Scan::Fails(LexFaultKind::TextLong, 0);
    }
    let (content, behind) = bytes.split_at(count);
    text_end(content, behind, ended)
}

// `<` or `>`, by the bytes behind it.
#[tactic(auto, unfolding(crate::specs::Scans::order_scan))]
fn order_scan(bytes: &[u8], alone: Kind, with_equal: Kind, ended: bool) -> Scan
    ensures { result ≡ order_scan ended alone with_equal bytes.now }
{
    match bytes {
        [] if !ended => Scan::Unshown,
        [b'=', ..] => Scan::Takes(with_equal, 2),
        _ => Scan::Takes(alone, 1),
    }
}

fn plain_mark(b: u8) -> Option<Kind>
    ensures { result ≡ plain_mark b }
{
    match b {
        b'(' => Some(Kind::OpenParen),
        b')' => Some(Kind::CloseParen),
        b'[' => Some(Kind::OpenBracket),
        b']' => Some(Kind::CloseBracket),
        b',' => Some(Kind::Comma),
        b':' => Some(Kind::Colon),
        b'.' => Some(Kind::Dot),
        b'?' => Some(Kind::Question),
        b'*' => Some(Kind::Star),
        b'=' => Some(Kind::Equal),
        _ => None,
    }
}

/// The mark of logs that the byte is.
pub fn log_mark(b: u8) -> Option<Kind>
    ensures { result ≡ log_mark b }
{
    match b {
        b'@' => Some(Kind::At),
        b'(' => Some(Kind::OpenParen),
        b')' => Some(Kind::CloseParen),
        b',' => Some(Kind::Comma),
        b';' => Some(Kind::Semicolon),
        _ => None,
    }
}

fn mark_scan(mark: Option<Kind>) -> Scan
    ensures { result ≡ mark_scan mark }
{
    match mark {
        Some(mark) => Scan::Takes(mark, 1),
        None => Scan::Fails(LexFaultKind::BadByte, 0),
    }
}

#[tactic(auto, unfolding(crate::specs::Scans::plain_scan))]
fn plain_scan(bytes: &[u8], ended: bool) -> Scan
    ensures { result ≡ plain_scan ended bytes.now }
{
    let [first, behind @ ..] = bytes else {
        return Scan::Unshown;
    };
    if begins_plain_word(*first) {
        return word_scan(plain_word_len(bytes), MAX_WORD, bytes.len(), ended);
    }
    if first.is_ascii_digit() {
        return number_scan(bytes, digit_len(bytes), ended);
    }
    match first {
        b'-' => minus_scan(bytes, ended),
        b'"' => text_scan(behind, ended),
        b'#' => Scan::Unshown,
        b'<' => order_scan(behind, Kind::Less, Kind::LessEqual, ended),
        b'>' => order_scan(behind, Kind::Greater, Kind::GreaterEqual, ended),
        _ => mark_scan(plain_mark(*first)),
    }
}

#[tactic(auto, unfolding(crate::specs::Scans::log_scan))]
fn log_scan(bytes: &[u8], ended: bool) -> Scan
    ensures { result ≡ log_scan ended bytes.now }
{
    let [first, behind @ ..] = bytes else {
        return Scan::Unshown;
    };
    if in_log_word(*first) {
        return word_scan(log_word_len(bytes), MAX_LOG_WORD, bytes.len(), ended);
    }
    match first {
        b'"' => text_scan(behind, ended),
        b'#' => Scan::Unshown,
        _ => mark_scan(log_mark(*first)),
    }
}

/// What stands at the front of bytes that begin with no blank.
pub fn scan_front(mode: Mode, bytes: &[u8], ended: bool) -> Scan
    ensures front { result ≡ scan mode ended bytes.now }
    ensures within { IsWithin bytes.now result }
{
    match mode {
        Mode::Plain => plain_scan(bytes, ended),
        Mode::Log => log_scan(bytes, ended),
    }
}
