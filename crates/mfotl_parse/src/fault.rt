//! Why a policy could not be read.
ghost use Rattle.std.specs.Prelude.{◌≡◌};
ghost use Rattle.mfotl_parse.specs.declared.fault.PolicyFault.TheVariants.{Lex, Memory};

use mfotl_lex::LexFault;
use std::alloc::{AllocError, AllocFailed};
use std::fmt;
use thiserror::Error;

/// The first fault of a policy. Each offset counts bytes from the start of the text.
#[derive(Clone, Copy, Error)]
pub enum PolicyFault {
    /// The bytes form no token.
    Lex(LexFault),
    /// The grammar can't go on with this token, or the text ends too early.
    Syntax(u64),
    /// An interval without a number in it, at its bracket.
    EmptyInterval(u64),
    /// An interval's bound above 2^62, at its number.
    BoundRange(u64),
    /// The signature has no predicate of this name.
    UnknownPredicate(u64),
    /// An argument past the predicate's last, or the `)` of too few.
    WrongArity(u64),
    /// A variable or a constant where another sort stands.
    SortClash(u64),
    /// The ninth free variable.
    TooManyVariables(u64),
    /// The 65th of the operands that are open at once.
    TooDeep(u64),
    /// The 4,097th node.
    TooManyNodes(u64),
    /// Want of memory.
    Memory,
}

impl PolicyFault {
    ghost use Rattle.std.specs.Prelude.{◌++◌, IfSome, IsNone, codes};
    ghost use Rattle.std.specs.Fmt.{decimal};
    ghost use Rattle.mfotl_parse.specs.FaultTexts.{fault_text, unplaced_text};

    // The name and the offset of a fault that is printed with both.
    fn parts(&self) -> Option<(&'static str, u64)>
        ensures some { IfSome result (λ parts.
            fault_text self.now ≡ parts.0.now ++ codes " at " ++ decimal parts.1) }
        ensures none { IsNone result → fault_text self.now ≡ unplaced_text self.now }
    {
        let parts = match self {
            PolicyFault::Syntax(at) => ("Syntax", *at),
            PolicyFault::EmptyInterval(at) => ("EmptyInterval", *at),
            PolicyFault::BoundRange(at) => ("BoundRange", *at),
            PolicyFault::UnknownPredicate(at) => ("UnknownPredicate", *at),
            PolicyFault::WrongArity(at) => ("WrongArity", *at),
            PolicyFault::SortClash(at) => ("SortClash", *at),
            PolicyFault::TooManyVariables(at) => ("TooManyVariables", *at),
            PolicyFault::TooDeep(at) => ("TooDeep", *at),
            PolicyFault::TooManyNodes(at) => ("TooManyNodes", *at),
            PolicyFault::Lex(_) | PolicyFault::Memory => return None,
        };
        Some(parts)
    }
}

// By hand, since a derived `Display` says nothing of its bytes to a contract.
impl fmt::Display for PolicyFault {
    ghost use Rattle.std.specs.Prelude.{Some};
    ghost use Rattle.mfotl_parse.specs.FaultTexts.{fault_text};

    ghost output = { λ fault. Some (fault_text fault) };

    fn fmt<W: fmt::Write>(&self, f: &mut fmt::Formatter<W>) -> fmt::Result {
        match self.parts() {
            Some((name, at)) => write!(f, "{name} at {at}"),
            None => match self {
                PolicyFault::Lex(fault) => write!(f, "Lex {fault}"),
                _ => f.write_str("Memory"),
            },
        }
    }
}

// As it is printed, since a derived `Debug` of so many cases is dear to prove.
impl fmt::Debug for PolicyFault {
    fn fmt<W: fmt::Write>(&self, f: &mut fmt::Formatter<W>) -> fmt::Result {
        fmt::Display::fmt(self, f)
    }
}

impl From<LexFault> for PolicyFault {
    ghost from_gives = { λ fault e. e ≡ Lex fault };

    fn from(fault: LexFault) -> PolicyFault {
        PolicyFault::Lex(fault)
    }
}

impl From<AllocError> for PolicyFault {
    ghost from_gives = { λ _ e. e ≡ Memory };

    fn from(_e: AllocError) -> PolicyFault {
        PolicyFault::Memory
    }
}

impl<T: Drop> From<AllocFailed<T>> for PolicyFault {
    ghost from_gives = { λ _ e. e ≡ Memory };

    fn from(_e: AllocFailed<T>) -> PolicyFault {
        PolicyFault::Memory
    }
}
