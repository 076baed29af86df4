//! The token at an offset of a log's bytes.
ghost use Rattle.std.specs.Prelude.{◌≡◌, ◌+◌, ◌<◌, ◌≤◌, ◌^◌, length};
ghost use Rattle.log_reader.specs.Stretches.{place_in};
ghost use Rattle.log_reader.specs.Tokens.{FindsToken};

use crate::limits::Look;
use crate::plain_tokens::token_before;
use mfotl_lex::{LexFault, Lexer, Mode, Token};

/// The token at an offset, if a whole one stands there, and the offset behind it.
#[derive(Clone, Copy)]
pub struct Found<'b> {
    pub token: Option<Token<'b>>,
    pub behind: usize,
}

fn lexer_at<'b>(look: Look<'b>, at: usize) -> Lexer<'b>
    requires within { at ≤ length look.bytes.now }
    requires small { look.from + length look.bytes.now < 2 ^ 63 }
    ensures { result ≡ place_in look.entry.from look.entry.bytes.now look.entry.ended at }
{
    let (_, rest) = look.bytes.split_at(at);
    Lexer::resume(rest, Mode::Log, look.from + at, look.ended)
}

/// The token at an offset, or the fault there.
pub(crate) fn token_at<'b>(look: Look<'b>, at: usize) -> Result<Found<'b>, LexFault>
    requires within { at ≤ length look.bytes.now }
    requires small { look.from + length look.bytes.now < 2 ^ 63 }
    ensures { FindsToken look.entry.from
        (place_in look.entry.from look.entry.bytes.now look.entry.ended at) result }
{
    let (_, rest) = look.bytes.split_at(at);
    match token_before(rest, look.from + at) {
        Some(token) => Ok(Found {
            token: Some(token),
            behind: token.at + token.text.len() - look.from,
        }),
        None => lexed_at(look, at),
    }
}

fn lexed_at<'b>(look: Look<'b>, at: usize) -> Result<Found<'b>, LexFault>
    requires within { at ≤ length look.bytes.now }
    requires small { look.from + length look.bytes.now < 2 ^ 63 }
    ensures { FindsToken look.entry.from
        (place_in look.entry.from look.entry.bytes.now look.entry.ended at) result }
{
    let mut lexer = lexer_at(look, at);
    match lexer.next() {
        Ok(token) => Ok(Found {
            token,
            behind: lexer.offset() - look.from,
        }),
        Err(fault) => Err(fault),
    }
}
