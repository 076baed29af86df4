//! Why a signature could not be read.

ghost use Rattle.std.specs.Prelude.{◌≡◌};
ghost use Rattle.mfotl_sig.specs.declared.fault.SigFault.TheVariants.{Lex, Memory};

use mfotl_lex::LexFault;
use std::alloc::{AllocError, AllocFailed};
use std::fmt;
use thiserror::Error;

/// The first fault of a signature. Each offset counts bytes from the start of the text.
#[derive(Clone, Copy, Error)]
pub enum SigFault {
    /// The bytes form no token.
    Lex(LexFault),
    /// The grammar can't go on with this token, or the text ends too early.
    Syntax(u64),
    /// A predicate before has this name.
    RepeatedName(u64),
    /// The sort is neither `int` nor `string`.
    UnknownSort(u64),
    /// The ninth argument of a predicate.
    Arity(u64),
    /// The name of the 257th predicate.
    TooMany(u64),
    /// Want of memory.
    Memory,
}

impl SigFault {
    ghost use Rattle.std.specs.Prelude.{◌++◌, IfSome, IsNone, codes};
    ghost use Rattle.std.specs.Fmt.{decimal};
    ghost use Rattle.mfotl_sig.specs.FaultTexts.{fault_text, unplaced_text};

    // The name and the offset of a fault that is printed with both.
    fn parts(&self) -> Option<(&'static str, u64)>
        ensures some { IfSome result (λ parts.
            fault_text self.now ≡ parts.0.now ++ codes " at " ++ decimal parts.1) }
        ensures none { IsNone result → fault_text self.now ≡ unplaced_text self.now }
    {
        let parts = match self {
            SigFault::Syntax(at) => ("Syntax", *at),
            SigFault::RepeatedName(at) => ("RepeatedName", *at),
            SigFault::UnknownSort(at) => ("UnknownSort", *at),
            SigFault::Arity(at) => ("Arity", *at),
            SigFault::TooMany(at) => ("TooMany", *at),
            SigFault::Lex(_) | SigFault::Memory => return None,
        };
        Some(parts)
    }
}

// By hand, since a derived `Display` says nothing of its bytes to a contract.
impl fmt::Display for SigFault {
    ghost use Rattle.std.specs.Prelude.{Some};
    ghost use Rattle.mfotl_sig.specs.FaultTexts.{fault_text};

    ghost output = { λ fault. Some (fault_text fault) };

    fn fmt<W: fmt::Write>(&self, f: &mut fmt::Formatter<W>) -> fmt::Result {
        match self.parts() {
            Some((name, at)) => write!(f, "{name} at {at}"),
            None => match self {
                SigFault::Lex(fault) => write!(f, "Lex {fault}"),
                _ => f.write_str("Memory"),
            },
        }
    }
}

// As it is printed, since a derived `Debug` of so many cases is dear to prove.
impl fmt::Debug for SigFault {
    fn fmt<W: fmt::Write>(&self, f: &mut fmt::Formatter<W>) -> fmt::Result {
        fmt::Display::fmt(self, f)
    }
}

impl From<LexFault> for SigFault {
    ghost from_gives = { λ fault e. e ≡ Lex fault };

    fn from(fault: LexFault) -> SigFault {
        SigFault::Lex(fault)
    }
}

impl From<AllocError> for SigFault {
    ghost from_gives = { λ _ e. e ≡ Memory };

    fn from(_e: AllocError) -> SigFault {
        SigFault::Memory
    }
}

impl<T: Drop> From<AllocFailed<T>> for SigFault {
    ghost from_gives = { λ _ e. e ≡ Memory };

    fn from(_e: AllocFailed<T>) -> SigFault {
        SigFault::Memory
    }
}
