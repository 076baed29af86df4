//! Classes of bytes, and how far a run of each class reaches.
ghost use Rattle.std.specs.Prelude.{◌≡◌, ◌≤◌, length};
ghost use Rattle.std.specs.Char.{is_ascii_digit};
ghost use Rattle.std.specs.List.{prefix_len};
ghost use Rattle.mfotl_lex.specs.Bytes.{is_space, begins_plain_word, in_plain_word, in_log_word, in_text};
ghost use Rattle.mfotl_lex.specs.Blanks.{blank_len, comment_len};

/// Whether the byte is whitespace.
pub fn is_space(b: u8) -> bool
    ensures { result ≡ is_space b }
{
    matches!(b, b' ' | b'\t' | b'\r' | b'\n')
}

pub fn begins_plain_word(b: u8) -> bool
    ensures { result ≡ begins_plain_word b }
{
    b.is_ascii_alphabetic() || b == b'_'
}

fn in_plain_word(b: u8) -> bool
    ensures { result ≡ in_plain_word b }
{
    b.is_ascii_alphanumeric() || b == b'_'
}

pub fn in_log_word(b: u8) -> bool
    ensures { result ≡ in_log_word b }
{
    b.is_ascii_alphanumeric() || matches!(b, b'_' | b'[' | b']' | b'/' | b':' | b'-' | b'.' | b'!')
}

fn in_text(b: u8) -> bool
    ensures { result ≡ in_text b }
{
    b != b'"' && b >= b' '
}

/// How many digits stand at the front.
pub fn digit_len(bytes: &[u8]) -> usize
    ensures count { result ≡ prefix_len is_ascii_digit bytes.now }
    ensures within { result ≤ length bytes.now }
{
    bytes.iter().take_while(|b| b.is_ascii_digit()).count()
}

pub fn plain_word_len(bytes: &[u8]) -> usize
    ensures { result ≡ prefix_len in_plain_word bytes.now }
{
    bytes.iter().take_while(|b| in_plain_word(**b)).count()
}

/// How many bytes of a log's Word stand at the front.
pub fn log_word_len(bytes: &[u8]) -> usize
    ensures count { result ≡ prefix_len in_log_word bytes.now }
    ensures within { result ≤ length bytes.now }
{
    bytes.iter().take_while(|b| in_log_word(**b)).count()
}

/// How many bytes of a Text's content stand at the front.
pub fn text_len(bytes: &[u8]) -> usize
    ensures count { result ≡ prefix_len in_text bytes.now }
    ensures within { result ≤ length bytes.now }
{
    bytes.iter().take_while(|b| in_text(**b)).count()
}

/// How many bytes of whitespace and comments stand at the front.
#[tactic(auto, using(crate::proofs::BlankLoop::blanks_within), unfolding(crate::specs::Blanks::blank_len))]
pub fn blank_len(bytes: &[u8], ended: bool) -> usize
    ensures count { result ≡ blank_len ended bytes.now }
    ensures within { result ≤ length bytes.now }
{
    // Where the comment that is open began.
    let mut open = None;
    for (i, b) in bytes.iter().enumerate() {
        match open {
            None if is_space(*b) => {}
            None if *b == b'#' => open = Some(i),
            None => return i,
            Some(_) if *b == b'\n' => open = None,
            Some(_) => {}
        }
    }
    match open {
        Some(start) if !ended => start,
        _ => bytes.len(),
    }
}
