//! The lexer: one token at each call.
ghost use Rattle.std.specs.Prelude.{◌≡◌, ◌+◌, ◌<◌, ◌^◌, length, true, IsTrue, OnErr, ◌↔◌};

use crate::bytes::blank_len;
use crate::fault::LexFault;
use crate::kind::{Kind, Mode};
use crate::scan::{Scan, scan_front};
use crate::token::Token;
use std::marker::Model;

/// Cuts bytes into tokens, from left to right.
#[derive(Drop)]
pub struct Lexer<'a> {
    mode: Mode,
    at: usize,
    rest: &'a [u8],
    ended: bool,
}

impl<'a> Model for Lexer<'a> {
    ghost use Rattle.std.specs.Prelude.{◌+◌, ◌<◌, ◌^◌, length};
    ghost use Rattle.mfotl_lex.specs.Places.{Place};

    ghost Value = { Place };

    ghost view = { λ l. record { mode = l.mode; at = l.at; rest = l.rest.now; ended = l.ended } };

    ghost invariant = { λ l. l.at + length l.rest.now < 2 ^ 63 };
}

impl<'a> Lexer<'a> {
    ghost use Rattle.mfotl_lex.specs.Places.{MovesOn, beginning};
    ghost use Rattle.mfotl_lex.specs.Lexemes.{seen, next_token, after};
    ghost use Rattle.mfotl_lex.specs.Covering.{AreBlanks};

    /// Over bytes that are all there are.
    pub fn new(bytes: &'a [u8], mode: Mode) -> Lexer<'a>
        ensures { result ≡ beginning mode bytes.now }
    {
        Lexer {
            mode,
            at: 0,
            rest: bytes,
            ended: true,
        }
    }

    /// Over bytes whose first has the offset `at`. Where more bytes may come, `ended` is false: then
    /// only whole tokens are given.
    pub fn resume(bytes: &'a [u8], mode: Mode, at: usize, ended: bool) -> Lexer<'a>
        requires { at + length bytes.now < 2 ^ 63 }
        ensures { result ≡ record { mode = mode; at = at; rest = bytes.now; ended = ended } }
    {
        Lexer {
            mode,
            at,
            rest: bytes,
            ended,
        }
    }

    /// The offset of the first byte that isn't behind the lexer.
    pub fn offset(&self) -> usize
        ensures { result ≡ self.now.at }
    {
        self.at
    }

    /// The next whole token, or the fault that stands in its place. `None` where neither is shown: at
    /// the end, or where more bytes have to come.
    #[tactic(auto, unfolding(crate::specs::Lexemes::next_token, crate::specs::Lexemes::after))]
    pub fn next(&mut self) -> Result<Option<Token<'a>>, LexFault>
        ensures found { seen result ≡ next_token self.old }
        ensures after { self.new ≡ after self.old }
        ensures within { MovesOn self.old self.new }
        ensures again { OnErr result (self.new ≡ self.old) }
        ensures end { IsTrue self.old.ended → (result ≡ Ok None) ↔ AreBlanks true self.old.rest }
    {
        let (blanks, rest) = self.rest.split_at(blank_len(self.rest, self.ended));
        let at = self.at + blanks.len();
        match scan_front(self.mode, rest, self.ended) {
            Scan::Unshown => {
                self.at = at;
                self.rest = rest;
                Ok(None)
            }
            Scan::Takes(kind, count) => {
                let (text, rest) = rest.split_at(count);
                self.mode = self.mode.behind(kind);
                self.at = at + count;
                self.rest = rest;
                Ok(Some(Token { kind, at, text }))
            }
            Scan::Fails(kind, count) => Err(LexFault {
                kind,
                at: (at + count) as u64,
            }),
        }
    }
}
