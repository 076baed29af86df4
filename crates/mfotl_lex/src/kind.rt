//! Kinds of tokens, and the modes of a lexer.

/// How bytes are cut into tokens.
#[derive(Clone, Copy)]
pub enum Mode {
    /// For signatures, policies, strategies and change scripts.
    Plain,
    /// For logs.
    Log,
}

impl Mode {
    ghost use Rattle.std.specs.Prelude.{◌≡◌};
    ghost use Rattle.mfotl_lex.specs.Places.{mode_behind};

    /// The mode behind a token of this kind: the same.
    #[tactic(auto, unfolding(crate::specs::Places::mode_behind))]
    pub(crate) fn behind(self, _token: Kind) -> Mode
        ensures { result ≡ mode_behind self _token }
    {
        self
    }
}

/// What a token is: a Word, an Integer, a Text, or one of the marks.
#[derive(Clone, Copy)]
pub enum Kind {
    Word,
    /// In Plain mode only: in a log, digits are a Word.
    Integer,
    /// Bytes between double quotes.
    Text,
    /// `(`
    OpenParen,
    /// `)`
    CloseParen,
    /// `[`
    OpenBracket,
    /// `]`
    CloseBracket,
    /// `,`
    Comma,
    /// `:`
    Colon,
    /// `.`
    Dot,
    /// `?`
    Question,
    /// `*`
    Star,
    /// `=`
    Equal,
    /// `<`
    Less,
    /// `<=`
    LessEqual,
    /// `>`
    Greater,
    /// `>=`
    GreaterEqual,
    /// `@`
    At,
    /// `;`
    Semicolon,
}
