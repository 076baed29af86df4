//! Why a strategy could not be read.

ghost use Rattle.std.specs.Prelude.{◌≡◌};
ghost use Rattle.slice_strategy.specs.declared.fault.StrategyFault.TheVariants.{Memory};

use std::alloc::{AllocError, AllocFailed};
use std::fmt;
use thiserror::Error;

/// The first fault of a strategy. Each offset counts bytes from the start of the text.
#[derive(Clone, Copy, Error)]
pub enum StrategyFault {
    /// The grammar can't go on with this token, the text ends too early, or its bytes form no token.
    Syntax(u64),
    /// The Word is no free variable of the policy.
    UnknownVariable(u64),
    /// The variable has an entry further up.
    RepeatedVariable(u64),
    /// A count of parts is below 1.
    BadCount(u64),
    /// The variable to be cut is a string; the offset is that of `cut`.
    CutSort(u64),
    /// A cut isn't above the one before it.
    CutOrder(u64),
    /// With this entry, whose Word stands at the offset, there are more than 64 workers.
    TooManyWorkers(u64),
    /// Want of memory.
    Memory,
}

impl StrategyFault {
    ghost use Rattle.std.specs.Prelude.{◌++◌, IfSome, IsNone, codes};
    ghost use Rattle.std.specs.Fmt.{decimal};
    ghost use Rattle.slice_strategy.specs.FaultTexts.{fault_text};

    // The name and the offset of a fault that is printed with both.
    fn parts(&self) -> Option<(&'static str, u64)>
        ensures some { IfSome result (λ parts.
            fault_text self.now ≡ parts.0.now ++ codes " at " ++ decimal parts.1) }
        ensures none { IsNone result → fault_text self.now ≡ codes "Memory" }
    {
        let parts = match self {
            StrategyFault::Syntax(at) => ("Syntax", *at),
            StrategyFault::UnknownVariable(at) => ("UnknownVariable", *at),
            StrategyFault::RepeatedVariable(at) => ("RepeatedVariable", *at),
            StrategyFault::BadCount(at) => ("BadCount", *at),
            StrategyFault::CutSort(at) => ("CutSort", *at),
            StrategyFault::CutOrder(at) => ("CutOrder", *at),
            StrategyFault::TooManyWorkers(at) => ("TooManyWorkers", *at),
            StrategyFault::Memory => return None,
        };
        Some(parts)
    }
}

// By hand, since a derived `Display` says nothing of its bytes to a contract.
impl fmt::Display for StrategyFault {
    ghost use Rattle.std.specs.Prelude.{Some};
    ghost use Rattle.slice_strategy.specs.FaultTexts.{fault_text};

    ghost output = { λ fault. Some (fault_text fault) };

    fn fmt<W: fmt::Write>(&self, f: &mut fmt::Formatter<W>) -> fmt::Result {
        match self.parts() {
            Some((name, at)) => write!(f, "{name} at {at}"),
            None => f.write_str("Memory"),
        }
    }
}

// As it is printed, since a derived `Debug` of so many cases is dear to prove.
impl fmt::Debug for StrategyFault {
    fn fmt<W: fmt::Write>(&self, f: &mut fmt::Formatter<W>) -> fmt::Result {
        fmt::Display::fmt(self, f)
    }
}

impl From<AllocError> for StrategyFault {
    ghost from_gives = { λ _ e. e ≡ Memory };

    fn from(_e: AllocError) -> StrategyFault {
        StrategyFault::Memory
    }
}

impl<T: Drop> From<AllocFailed<T>> for StrategyFault {
    ghost from_gives = { λ _ e. e ≡ Memory };

    fn from(_e: AllocFailed<T>) -> StrategyFault {
        StrategyFault::Memory
    }
}
