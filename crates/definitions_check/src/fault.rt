//! Why the cases were not all answered.
ghost use Rattle.std.specs.Prelude.{◌≡◌};
ghost use Rattle.definitions_check.specs.declared.fault.CaseFault.TheVariants.{Memory};

use std::alloc::{AllocError, AllocFailed};
use thiserror::Error;

/// What is wrong with a line.
#[derive(Clone, Copy)]
pub enum CaseFault {
    UnknownWord,
    MissingWord,
    ExtraWord,
    /// No number in range.
    Number,
    Value,
    /// An interval that ends before it begins.
    EmptyInterval,
    /// A formula is nested too deep.
    TooDeep,
    FallingTime,
    /// A line out of its place.
    Misplaced,
    /// A case has no `end`.
    NoEnd,
    Memory,
}

impl CaseFault {
    /// What is printed of it.
    pub fn name(self) -> &'static str {
        match self {
            CaseFault::UnknownWord => "an unknown word",
            CaseFault::MissingWord => "a word is missing",
            CaseFault::ExtraWord => "a word too many",
            CaseFault::Number => "no number in range",
            CaseFault::Value => "no value",
            CaseFault::EmptyInterval => "an interval that ends before it begins",
            CaseFault::TooDeep => "a formula nested too deep",
            CaseFault::FallingTime => "a timestamp that falls",
            CaseFault::Misplaced => "a line out of its place",
            CaseFault::NoEnd => "a case without its end",
            CaseFault::Memory => "out of memory",
        }
    }
}

impl From<AllocError> for CaseFault {
    ghost from_gives = { λ _ e. e ≡ Memory };

    fn from(_e: AllocError) -> CaseFault {
        CaseFault::Memory
    }
}

impl<T: Drop> From<AllocFailed<T>> for CaseFault {
    ghost from_gives = { λ _ e. e ≡ Memory };

    fn from(_e: AllocFailed<T>) -> CaseFault {
        CaseFault::Memory
    }
}

/// Why the program stops before its input ends.
#[derive(Clone, Copy, Debug, Error)]
pub enum Stop {
    #[error("out of memory")]
    Memory,
    #[error("the cases could not be read")]
    Read,
    #[error("the answers could not be written")]
    Write,
}

impl Stop {
    /// The exit status of the program.
    pub fn status(self) -> u8 {
        match self {
            Stop::Read => 7,
            Stop::Write => 8,
            Stop::Memory => 9,
        }
    }
}
