//! The tokens that need no lexer: marks and plain Words, with one blank in front at most.
ghost use Rattle.std.specs.Prelude.{◌≡◌, ◌≤◌, ◌<◌, ◌+◌, ◌^◌, length, IfSome};
ghost use Rattle.mfotl_lex.specs.Lexemes.{lexeme};
ghost use Rattle.mfotl_lex.specs.declared.kind.Kind.TheVariants.{Word};
ghost use Rattle.log_reader.specs.Tokens.{blank_before, IsInFront};

use mfotl_lex::limits::MAX_LOG_WORD;
use mfotl_lex::{Kind, Token, is_space, log_mark, log_word_len};

/// 1 where a blank stands in front, else 0.
pub fn blank_before(bytes: &[u8]) -> usize
    ensures is { result ≡ blank_before bytes.now }
    ensures within { result ≤ length bytes.now }
{
    match bytes {
        [first, ..] if is_space(*first) => 1,
        _ => 0,
    }
}

/// A Word at the front of bytes that isn't too long, and behind which more bytes stand.
pub fn word_before(bytes: &[u8], at: usize) -> Option<Token<'_>>
    ensures is { IfSome result (λ t. IsInFront bytes.now at (lexeme t)) }
    ensures kind { IfSome result (λ t. t.kind ≡ Word) }
    ensures at { IfSome result (λ t. t.at ≡ at) }
{
    let count = log_word_len(bytes);
    if count == 0 || count > MAX_LOG_WORD || count == bytes.len() {
        return None;
    }
    let (text, _) = bytes.split_at(count);
    Some(Token {
        kind: Kind::Word,
        at,
        text,
    })
}

fn bare_before(bytes: &[u8], at: usize) -> Option<Token<'_>>
    ensures { IfSome result (λ t. IsInFront bytes.now at (lexeme t)) }
{
    let [first, ..] = bytes else {
        return None;
    };
    match log_mark(*first) {
        Some(kind) => {
            let (text, _) = bytes.split_at(1);
            Some(Token { kind, at, text })
        }
        None => word_before(bytes, at),
    }
}

/// The first token of bytes, the first of which has this offset. None also where only a lexer says what
/// stands there.
#[tactic(auto, using(crate::proofs::TokenFronts::blank_at))]
pub fn token_before(bytes: &[u8], at: usize) -> Option<Token<'_>>
    requires { at + length bytes.now < 2 ^ 63 }
    ensures { IfSome result (λ t. IsInFront bytes.now at (lexeme t)) }
{
    let blanks = blank_before(bytes);
    let (_, behind) = bytes.split_at(blanks);
    bare_before(behind, at + blanks)
}
