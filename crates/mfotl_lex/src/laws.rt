//! What holds of every text. Each law is a function that does nothing: its clause is the law.

ghost use Rattle.mfotl_lex.specs.AllTokens.{TokensAreTaken};
ghost use Rattle.mfotl_lex.specs.Growing.{MoreBytesChangeNothing};
ghost use Rattle.mfotl_lex.specs.Shortening.{OpenCommentsShorten};
ghost use Rattle.mfotl_lex.specs.Lexemes.{ModesStay};
ghost use Rattle.mfotl_lex.specs.WorkedTexts.{WorkedTexts};
ghost use Rattle.mfotl_lex.specs.Covering.{TokensAreTheBytes};

/// More bytes never change a token or a fault that is shown, so bytes may come in any pieces.
pub fn more_bytes_change_nothing()
    ensures { MoreBytesChangeNothing }
{}

/// The tokens and what lies between them are the bytes, in order.
pub fn tokens_are_the_bytes()
    ensures { TokensAreTheBytes }
{}

/// No token changes the lexer's mode.
#[tactic(auto, using(crate::proofs::Sequence::modes_stay))]
pub fn modes_stay()
    ensures { ModesStay }
{}

/// Of a comment that isn't at its end a reader needs the `#` alone, in the place of its last byte.
#[tactic(auto, using(crate::proofs::ShorteningLemmas::shortening))]
pub fn open_comments_shorten()
    ensures { OpenCommentsShorten }
{}

/// The layer of first faults, at the reader that takes every token.
#[tactic(auto, using(crate::proofs::AllTokensLaws::tokens_are_taken))]
pub fn tokens_are_taken()
    ensures { TokensAreTaken }
{}

/// Texts worked out by hand, and the tokens that they are cut into.
#[tactic(auto, using(crate::proofs::WorkedCuts::worked_texts))]
pub fn worked_texts()
    ensures { WorkedTexts }
{}
