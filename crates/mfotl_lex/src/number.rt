//! The 64-bit number that a token's digits write.
ghost use Rattle.std.specs.Prelude.{◌≡◌, ◌≤◌, neg_ℤ, pos};
ghost use Rattle.mfotl_lex.specs.Limits.{max_magnitude};
ghost use Rattle.mfotl_lex.specs.Numbers.{digits_value, integer_value, int64_of, within_limit};

use crate::limits::MAX_MAGNITUDE;

// The number that the digits write, if it is at most 2^63.
#[tactic(auto, unfolding(crate::specs::Numbers::digits_value))]
fn magnitude(digits: &[u8]) -> Option<u64>
    ensures { result ≡ within_limit max_magnitude (digits_value 0 digits.now) }
{
    let mut value: u128 = 0;
    for b in digits {
        value = 10 * value + u128::from(b.saturating_sub(b'0'));
        if value > MAX_MAGNITUDE {
            return None;
        }
    }
    Some(value as u64)
}

fn negated(magnitude: u64) -> i64
    requires { magnitude ≤ max_magnitude }
    ensures { result ≡ neg_ℤ (pos magnitude) }
{
    if magnitude == 0 {
        0
    } else {
        -((magnitude - 1) as i64) - 1
    }
}

/// The number that an optional `-` and digits write, or none where it has more than 64 bits. There may
/// be any number of digits.
#[tactic(auto, unfolding(crate::specs::Numbers::integer_value))]
pub fn read_integer(text: &[u8]) -> Option<i64>
    ensures { result ≡ int64_of (integer_value text.now) }
{
    match text {
        [] => Some(0),
        [b'-', digits @ ..] => magnitude(digits).map(|n| negated(n)),
        _ => match magnitude(text) {
            Some(n) => i64::try_from(n).ok(),
            None => None,
        },
    }
}
