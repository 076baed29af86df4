//! Values and terms.
ghost use Rattle.std.specs.Prelude.{◌≡◌, IfOk};
ghost use Rattle.std.specs.Fmt.{signed_decimal};
ghost use Rattle.definitions_check.specs.Values.{spelled_term, spelled_value};

use crate::fault::CaseFault;
use crate::words::small_natural;
use mfotl_model::{Term, Text, Value};
use std::alloc::Global;

/// The value of a word: `i` before an integer, or `t` before a text of letters.
pub fn value(alloc: Global, word: &[u8]) -> Result<Value, CaseFault>
    ensures { IfOk result (λ value. spelled_value value ≡ word.now) }
{
    match word.split_first() {
        Some((b'i', digits)) => Ok(Value::Int(integer(alloc, digits)?)),
        Some((b't', letters)) => {
            if letters.iter().all(|byte| byte.is_ascii_alphabetic()) {
                Ok(Value::Text(Text::from_slice(alloc, letters)?))
            } else {
                Err(CaseFault::Value)
            }
        }
        _ => Err(CaseFault::Value),
    }
}

/// The term of a word: `v` before a variable's number, or a value.
pub fn term(alloc: Global, word: &[u8]) -> Result<Term, CaseFault>
    ensures { IfOk result (λ term. spelled_term term ≡ word.now) }
{
    match word.split_first() {
        Some((b'v', digits)) => Ok(Term::Var(small_natural(alloc, digits)?)),
        _ => Ok(Term::Const(value(alloc, word)?)),
    }
}

// The integer that a word writes in decimal digits, behind `-` where it is below 0.
fn integer(alloc: Global, word: &[u8]) -> Result<i64, CaseFault>
    ensures { IfOk result (λ number. signed_decimal number ≡ word.now) }
{
    let Ok(text) = str::from_utf8(word) else {
        return Err(CaseFault::Number);
    };
    let Ok(number) = text.parse::<i64>() else {
        return Err(CaseFault::Number);
    };
    let digits = number.to_string(alloc)?;
    if digits.as_bytes() == word {
        Ok(number)
    } else {
        Err(CaseFault::Number)
    }
}
