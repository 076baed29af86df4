//! Values of a group that need no tokens: plain Words and numbers of few digits, with no blank before them or behind.
ghost use Rattle.std.specs.Prelude.{◌≡◌, ◌≤◌, ◌<◌, ◌+◌, ◌^◌, length, IfOk, IfSome};
ghost use Rattle.mfotl_model.specs.declared.policy.Sort.TheVariants as sorts;
ghost use Rattle.log_reader.specs.Groups.{TakesPlain, TakesMarked};

use crate::limits::Look;
use crate::plain_tokens::word_before;
use crate::recent_texts::RecentTexts;
use crate::short_numbers::integer_before;
use mfotl_model::{Sort, Value};
use std::alloc::{AllocError, Global};

// A Word at the front of bytes as a text, and how many bytes it has.
fn plain_text(
    alloc: Global,
    texts: &mut RecentTexts,
    at: usize,
    bytes: &[u8],
) -> Result<Option<(Value, usize)>, AllocError>
    ensures { IfOk result (λ found. IfSome found (λ x. TakesPlain sorts.Text at bytes.now x.0 x.1)) }
{
    match word_before(bytes, at) {
        Some(word) => {
            let text = texts.text(alloc, word.text)?;
            Ok(Some((Value::Text(text), word.text.len())))
        }
        None => Ok(None),
    }
}

// A value of a sort at the front of bytes, the first of which has the offset `at`, and how many bytes it has. None
// also where only a token says what stands there.
fn plain_value(
    alloc: Global,
    texts: &mut RecentTexts,
    sort: Sort,
    at: usize,
    bytes: &[u8],
) -> Result<Option<(Value, usize)>, AllocError>
    ensures { IfOk result (λ found. IfSome found (λ x. TakesPlain sort at bytes.now x.0 x.1)) }
{
    match sort {
        Sort::Int => match integer_before(bytes) {
            Some((number, count)) => Ok(Some((Value::Int(number), count))),
            None => Ok(None),
        },
        Sort::Text => plain_text(alloc, texts, at, bytes),
    }
}

/// A value of a sort at an offset, and the offset behind the mark that has to follow it.
pub(crate) fn value_before(
    alloc: Global,
    texts: &mut RecentTexts,
    sort: Sort,
    mark: u8,
    look: Look<'_>,
    at: usize,
) -> Result<Option<(Value, usize)>, AllocError>
    requires within { at ≤ length look.bytes.now }
    requires small { look.from + length look.bytes.now < 2 ^ 63 }
    ensures { IfOk result (λ found. IfSome found (λ x. TakesMarked sort mark look.entry.from look.entry.bytes.now at
        x.0 x.1)) }
{
    let (_, rest) = look.bytes.split_at(at);
    let Some((value, count)) = plain_value(alloc, texts, sort, look.from + at, rest)? else {
        return Ok(None);
    };
    let (_, behind) = rest.split_at(count);
    match behind {
        [found, ..] if *found == mark => Ok(Some((value, at + count + 1))),
        _ => Ok(None),
    }
}
