//! Short numbers, read without cutting a token.
ghost use Rattle.std.specs.Prelude.{◌≡◌, ◌≤◌, IfSome, length, take};
ghost use Rattle.log_reader.specs.Quick.{ends_number, digits_before, most_digits, BeginsWithNumber, IsInteger};

// A number and the byte behind it stand in so many bytes.
const MOST_DIGITS: usize = 18;

fn ends_number(b: u8) -> bool
    ensures { result ≡ ends_number b }
{
    matches!(b, b',' | b')' | b' ' | b'\n')
}

// The first bytes, as many as are looked at, or all.
fn first_bytes(bytes: &[u8]) -> &[u8]
    ensures { result.now ≡ take most_digits bytes.now }
{
    if bytes.len() > MOST_DIGITS {
        bytes.split_at(MOST_DIGITS).0
    } else {
        bytes
    }
}

// The number that the digits in front of such a byte write, and how many they are.
#[tactic(auto, unfolding(crate::specs::Quick::digits_before))]
fn digits_before(bytes: &[u8]) -> Option<(u64, usize)>
    requires { length bytes.now ≤ most_digits }
    ensures { result ≡ digits_before 0 0 bytes.now }
{
    let mut number: u64 = 0;
    for (count, b) in bytes.iter().enumerate() {
        if b.is_ascii_digit() {
            number = 10 * number + u64::from(b.saturating_sub(b'0'));
        } else if ends_number(*b) {
            return Some((number, count));
        } else {
            return None;
        }
    }
    None
}

/// The number of few digits at the front of bytes, and how many digits it has. None also where only a
/// token says what stands there.
pub fn number_before(bytes: &[u8]) -> Option<(u64, usize)>
    ensures { IfSome result (λ x. BeginsWithNumber bytes.now x.0 x.1) }
{
    match digits_before(first_bytes(bytes)) {
        Some((number, count)) if count > 0 && count <= MOST_DIGITS => Some((number, count)),
        _ => None,
    }
}

/// The same of an integer.
pub fn integer_before(bytes: &[u8]) -> Option<(i64, usize)>
    ensures { IfSome result (λ x. IsInteger bytes.now x.0 x.1) }
{
    let (number, count) = number_before(bytes)?;
    match i64::try_from(number) {
        Ok(value) => Some((value, count)),
        Err(_) => None,
    }
}
