//! The faults of bytes that are no token, with their printed texts.
use std::fmt;
use thiserror::Error;

/// What is wrong with the bytes at a place.
#[derive(Clone, Copy, Debug)]
pub enum LexFaultKind {
    /// A byte that begins no token, or a byte below 32 within a Text.
    BadByte,
    /// The bytes end within a Text.
    OpenText,
    /// An Integer is below -2^63 or above 2^63 - 1.
    NumberRange,
    /// A Word or the content of a Text is longer than its limit.
    TextLong,
    /// The content of a closed Text isn't UTF-8.
    BadUtf8,
}

/// The first fault of the bytes, and the offset at which it stands.
#[derive(Clone, Copy, Debug, Error)]
pub struct LexFault {
    pub kind: LexFaultKind,
    pub at: u64,
}

// By hand, since a derived `Display` says nothing of its bytes to a contract.
impl fmt::Display for LexFaultKind {
    ghost use Rattle.std.specs.Prelude.{Some};
    ghost use Rattle.mfotl_lex.specs.FaultTexts.{kind_name};

    ghost output = { λ kind. Some (kind_name kind) };

    fn fmt<W: fmt::Write>(&self, f: &mut fmt::Formatter<W>) -> fmt::Result {
        match self {
            LexFaultKind::BadByte => f.write_str("BadByte"),
            LexFaultKind::OpenText => f.write_str("OpenText"),
            LexFaultKind::NumberRange => f.write_str("NumberRange"),
            LexFaultKind::TextLong => f.write_str("TextLong"),
            LexFaultKind::BadUtf8 => f.write_str("BadUtf8"),
        }
    }
}

impl fmt::Display for LexFault {
    ghost use Rattle.std.specs.Prelude.{Some};
    ghost use Rattle.mfotl_lex.specs.FaultTexts.{fault_text};

    ghost output = { λ fault. Some (fault_text fault) };

    fn fmt<W: fmt::Write>(&self, f: &mut fmt::Formatter<W>) -> fmt::Result {
        write!(f, "{} at {}", self.kind, self.at)
    }
}
