//! What a token is to the grammar of policies.
ghost use Rattle.std.specs.Prelude.{◌≡◌};
ghost use Rattle.std.specs.Str.{bytes_eq};
ghost use Rattle.mfotl_lex.specs.Lexemes.{lexeme};
ghost use Rattle.mfotl_parse.specs.Classes.{class_of, word_class, operator_class, temporal_class, unit_of};

use mfotl_lex::{Kind, Token};
use mfotl_model::Sign;

/// The operators between two operands.
#[derive(Clone, Copy)]
pub enum Operator {
    And,
    Or,
    Implies,
    Equiv,
    Since,
    Until,
}

/// The temporal operators of one operand.
#[derive(Clone, Copy)]
pub enum Temporal {
    Previous,
    Next,
    Once,
    Historically,
    Eventually,
    Always,
}

#[derive(Clone, Copy)]
pub enum Quantifier {
    Exists,
    Forall,
}

#[derive(Clone, Copy)]
pub enum Class {
    /// `TRUE` or `FALSE`.
    Truth(bool),
    Not,
    Temporal(Temporal),
    Quantifier(Quantifier),
    Operator(Operator),
    /// A Word that is no keyword and not `_`.
    Name,
    /// The Word `_`.
    Blank,
    Integer(i64),
    Text,
    Sign(Sign),
    OpenParen,
    CloseParen,
    OpenBracket,
    CloseBracket,
    Comma,
    Dot,
    Question,
    Star,
    /// A mark that has no place in a policy.
    Other,
}

fn is_word(word: &[u8], keyword: &str) -> bool
    ensures { result ≡ bytes_eq word.now keyword.now }
{
    word == keyword.as_bytes()
}

#[tactic(auto, unfolding(crate::specs::Classes::temporal_class))]
fn temporal_class(word: &[u8]) -> Class
    ensures { result ≡ temporal_class word.now }
{
    if is_word(word, "PREVIOUS") {
        Class::Temporal(Temporal::Previous)
    } else if is_word(word, "NEXT") {
        Class::Temporal(Temporal::Next)
    } else if is_word(word, "ONCE") {
        Class::Temporal(Temporal::Once)
    } else if is_word(word, "HISTORICALLY") {
        Class::Temporal(Temporal::Historically)
    } else if is_word(word, "EVENTUALLY") {
        Class::Temporal(Temporal::Eventually)
    } else if is_word(word, "ALWAYS") {
        Class::Temporal(Temporal::Always)
    } else {
        Class::Name
    }
}

#[tactic(auto, unfolding(crate::specs::Classes::operator_class))]
fn operator_class(word: &[u8]) -> Class
    ensures { result ≡ operator_class word.now }
{
    if is_word(word, "AND") {
        Class::Operator(Operator::And)
    } else if is_word(word, "OR") {
        Class::Operator(Operator::Or)
    } else if is_word(word, "IMPLIES") {
        Class::Operator(Operator::Implies)
    } else if is_word(word, "EQUIV") {
        Class::Operator(Operator::Equiv)
    } else if is_word(word, "SINCE") {
        Class::Operator(Operator::Since)
    } else if is_word(word, "UNTIL") {
        Class::Operator(Operator::Until)
    } else {
        temporal_class(word)
    }
}

#[tactic(auto, unfolding(crate::specs::Classes::word_class))]
fn word_class(word: &[u8]) -> Class
    ensures { result ≡ word_class word.now }
{
    if is_word(word, "NOT") {
        Class::Not
    } else if is_word(word, "TRUE") {
        Class::Truth(true)
    } else if is_word(word, "FALSE") {
        Class::Truth(false)
    } else if is_word(word, "EXISTS") {
        Class::Quantifier(Quantifier::Exists)
    } else if is_word(word, "FORALL") {
        Class::Quantifier(Quantifier::Forall)
    } else if is_word(word, "_") {
        Class::Blank
    } else {
        operator_class(word)
    }
}

pub fn class_of(token: &Token) -> Class
    ensures { result ≡ class_of (lexeme token.now) }
{
    match token.kind {
        Kind::Word => word_class(token.text),
        Kind::Integer => Class::Integer(token.integer()),
        Kind::Text => Class::Text,
        Kind::OpenParen => Class::OpenParen,
        Kind::CloseParen => Class::CloseParen,
        Kind::OpenBracket => Class::OpenBracket,
        Kind::CloseBracket => Class::CloseBracket,
        Kind::Comma => Class::Comma,
        Kind::Dot => Class::Dot,
        Kind::Question => Class::Question,
        Kind::Star => Class::Star,
        Kind::Equal => Class::Sign(Sign::Equal),
        Kind::Less => Class::Sign(Sign::Less),
        Kind::LessEqual => Class::Sign(Sign::LessEqual),
        Kind::Greater => Class::Sign(Sign::Greater),
        Kind::GreaterEqual => Class::Sign(Sign::GreaterEqual),
        Kind::Colon => Class::Other,
        Kind::At => Class::Other,
        Kind::Semicolon => Class::Other,
    }
}

/// How many seconds a unit's Word stands for.
pub fn unit_of(word: &[u8]) -> Option<u64>
    ensures { result ≡ unit_of word.now }
{
    if is_word(word, "s") {
        Some(1)
    } else if is_word(word, "m") {
        Some(60)
    } else if is_word(word, "h") {
        Some(3600)
    } else if is_word(word, "d") {
        Some(86400)
    } else {
        None
    }
}
