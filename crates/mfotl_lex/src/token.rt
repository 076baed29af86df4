//! A token, and what it stands for.
ghost use Rattle.std.specs.Prelude.{◌≡◌, IsTrue};
ghost use Rattle.mfotl_lex.specs.declared.kind.Kind.TheVariants.{Integer};
ghost use Rattle.mfotl_lex.specs.Numbers.{integer_value, is_int64};
ghost use Rattle.mfotl_lex.specs.Contents.{content_of};

use crate::kind::Kind;
use crate::number::read_integer;

/// A token: the slice of its source from offset `at` on. A Text's slice has its quotes.
#[derive(Clone, Copy)]
pub struct Token<'a> {
    pub kind: Kind,
    pub at: usize,
    pub text: &'a [u8],
    ghost in_range: { kind ≡ Integer → IsTrue (is_int64 (integer_value text.now)) },
}

impl<'a> Token<'a> {
    /// What the token says: a Text's bytes between its quotes, any other token's own bytes.
    pub fn content(&self) -> &'a [u8]
        ensures { result.now ≡ content_of self.now.kind self.now.text.now }
    {
        match (self.kind, self.text) {
            (Kind::Text, [_, content @ .., _]) => content,
            (Kind::Text, _) => &[],
            _ => self.text,
        }
    }

    /// The number that an Integer writes.
    pub fn integer(&self) -> i64
        requires { self.now.kind ≡ Integer }
        ensures { result ≡ integer_value self.now.text.now }
    {
        match read_integer(self.text) {
            Some(value) => value,
            None => unreachable!(),
        }
    }
}
