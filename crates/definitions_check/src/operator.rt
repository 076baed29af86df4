//! The words that formulas begin with.
ghost use Rattle.std.specs.Prelude.{◌≡◌, IfOk};
ghost use Rattle.definitions_check.specs.Operators.{sign_word, word_of};

use crate::fault::CaseFault;
use mfotl_model::Sign;

/// What a formula is at its top.
#[derive(Clone, Copy)]
pub enum Operator {
    True,
    False,
    Atom,
    Compare,
    Not,
    And,
    Or,
    Implies,
    Equiv,
    Exists,
    Forall,
    Previous,
    Next,
    Once,
    Historically,
    Eventually,
    Always,
    Since,
    Until,
}

const OPERATORS: [Operator; 19] = [
    Operator::True,
    Operator::False,
    Operator::Atom,
    Operator::Compare,
    Operator::Not,
    Operator::And,
    Operator::Or,
    Operator::Implies,
    Operator::Equiv,
    Operator::Exists,
    Operator::Forall,
    Operator::Previous,
    Operator::Next,
    Operator::Once,
    Operator::Historically,
    Operator::Eventually,
    Operator::Always,
    Operator::Since,
    Operator::Until,
];

impl Operator {
    fn word(self) -> &'static [u8]
        ensures { result.now ≡ word_of self }
    {
        match self {
            Operator::True => b"true",
            Operator::False => b"false",
            Operator::Atom => b"atom",
            Operator::Compare => b"cmp",
            Operator::Not => b"not",
            Operator::And => b"and",
            Operator::Or => b"or",
            Operator::Implies => b"implies",
            Operator::Equiv => b"equiv",
            Operator::Exists => b"exists",
            Operator::Forall => b"forall",
            Operator::Previous => b"previous",
            Operator::Next => b"next",
            Operator::Once => b"once",
            Operator::Historically => b"historically",
            Operator::Eventually => b"eventually",
            Operator::Always => b"always",
            Operator::Since => b"since",
            Operator::Until => b"until",
        }
    }
}

/// The operator of a word.
pub fn operator_of(word: &[u8]) -> Result<Operator, CaseFault>
    ensures { IfOk result (λ operator. word_of operator ≡ word.now) }
{
    for operator in OPERATORS {
        if operator.word() == word {
            return Ok(operator);
        }
    }
    Err(CaseFault::UnknownWord)
}

/// The sign of a word.
pub fn sign_of(word: &[u8]) -> Result<Sign, CaseFault>
    ensures { IfOk result (λ sign. sign_word sign ≡ word.now) }
{
    for sign in [
        Sign::Equal,
        Sign::Less,
        Sign::LessEqual,
        Sign::Greater,
        Sign::GreaterEqual,
    ] {
        if word_of_sign(sign) == word {
            return Ok(sign);
        }
    }
    Err(CaseFault::UnknownWord)
}

fn word_of_sign(sign: Sign) -> &'static [u8]
    ensures { result.now ≡ sign_word sign }
{
    match sign {
        Sign::Equal => b"=",
        Sign::Less => b"<",
        Sign::LessEqual => b"<=",
        Sign::Greater => b">",
        Sign::GreaterEqual => b">=",
    }
}
