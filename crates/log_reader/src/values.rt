//! What words and texts of a log stand for: values of a sort, and timestamps.
ghost use Rattle.std.specs.Prelude.{◌≡◌, Ok};
ghost use Rattle.log_reader.specs.Given.{Gives};
ghost use Rattle.log_reader.specs.Symbols.{written_of};
ghost use Rattle.log_reader.specs.ValuesRead.{is_number, integer_at, value_at, timestamp_of};

use crate::fault::LogFault;
use crate::grammar::is_digits;
use crate::limits::{LAST_TIMESTAMP, TIMESTAMP_ROOM};
use crate::recent_texts::RecentTexts;
use mfotl_lex::{Kind, read_integer};
use mfotl_model::{Sort, Value};
use std::alloc::Global;

fn is_number(text: &[u8]) -> bool
    ensures { result ≡ is_number text.now }
{
    match text {
        [] => false,
        [b'-', digits @ ..] => is_digits(digits),
        _ => is_digits(text),
    }
}

#[tactic(auto, unfolding(crate::specs::ValuesRead::integer_at))]
fn integer_at(at: u64, word: &[u8]) -> Result<Value, LogFault>
    ensures { result ≡ integer_at at word.now }
{
    if !is_number(word) {
        return Err(LogFault::WrongSort(at));
    }
    match read_integer(word) {
        Some(number) => Ok(Value::Int(number)),
        None => Err(LogFault::IntRange(at)),
    }
}

fn string_of(alloc: Global, texts: &mut RecentTexts, content: &[u8]) -> Result<Value, LogFault>
    ensures { Gives (λ v. v) result (Ok (Value.Text content.now)) }
{
    Ok(Value::Text(texts.text(alloc, content)?))
}

/// What a Word or a Text stands for at a place of this sort.
pub(crate) fn value_at(
    alloc: Global,
    texts: &mut RecentTexts,
    sort: Sort,
    at: u64,
    kind: Kind,
    content: &[u8],
) -> Result<Value, LogFault>
    ensures { Gives (λ v. v) result (value_at sort at (written_of kind content.now)) }
{
    match (sort, kind) {
        (Sort::Int, Kind::Text) => Err(LogFault::WrongSort(at)),
        (Sort::Int, _) => integer_at(at, content),
        (Sort::Text, _) => string_of(alloc, texts, content),
    }
}

/// The number that digits write, if it is no greater than a timestamp may be.
#[tactic(auto, using(mfotl_lex::proofs::Digits::passes_limit), unfolding(mfotl_lex::specs::Numbers::digits_value))]
pub fn timestamp_of(digits: &[u8]) -> Option<u64>
    ensures { result ≡ timestamp_of digits.now }
{
    let mut time: u64 = 0;
    for b in digits {
        if time > TIMESTAMP_ROOM {
            return None;
        }
        time = 10 * time + u64::from(b.saturating_sub(b'0'));
        if time > LAST_TIMESTAMP {
            return None;
        }
    }
    Some(time)
}
