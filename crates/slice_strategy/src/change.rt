//! Changes of the strategy, and why a script of them could not be read.

ghost use Rattle.std.specs.Prelude.{◌≡◌};
ghost use Rattle.slice_strategy.specs.declared.change.ChangeFault.TheVariants.{Strategy as Within};
ghost use Rattle.slice_strategy.specs.declared.fault.StrategyFault.TheVariants.{Memory};

use crate::fault::StrategyFault;
use crate::strategy::Strategy;
use std::alloc::{AllocError, AllocFailed};
use std::fmt;
use thiserror::Error;

/// From the time-point of this number on the rows are divided by this strategy.
#[derive(Drop)]
pub struct Change {
    pub before: u64,
    pub strategy: Strategy,
}

/// The first fault of a change script. Each offset counts bytes from the start of the script.
#[derive(Clone, Copy, Error)]
pub enum ChangeFault {
    /// A fault of a strategy, or `Syntax` where the script's own grammar can't go on. Its `Memory` is want of
    /// memory.
    Strategy(StrategyFault),
    /// The number is below that of the change before.
    FallingChange(u64),
    /// The Word `before` of one change more than there may be.
    TooManyChanges(u64),
}

// By hand, since a derived `Display` says nothing of its bytes to a contract.
impl fmt::Display for ChangeFault {
    ghost use Rattle.std.specs.Prelude.{Some};
    ghost use Rattle.slice_strategy.specs.FaultTexts.{change_fault_text};

    ghost output = { λ fault. Some (change_fault_text fault) };

    fn fmt<W: fmt::Write>(&self, f: &mut fmt::Formatter<W>) -> fmt::Result {
        match self {
            ChangeFault::Strategy(fault) => fmt::Display::fmt(fault, f),
            ChangeFault::FallingChange(at) => write!(f, "FallingChange at {at}"),
            ChangeFault::TooManyChanges(at) => write!(f, "TooManyChanges at {at}"),
        }
    }
}

// As it is printed.
impl fmt::Debug for ChangeFault {
    fn fmt<W: fmt::Write>(&self, f: &mut fmt::Formatter<W>) -> fmt::Result {
        fmt::Display::fmt(self, f)
    }
}

impl From<StrategyFault> for ChangeFault {
    ghost from_gives = { λ fault e. e ≡ Within fault };

    fn from(fault: StrategyFault) -> ChangeFault {
        ChangeFault::Strategy(fault)
    }
}

impl From<AllocError> for ChangeFault {
    ghost from_gives = { λ _ e. e ≡ Within Memory };

    fn from(_e: AllocError) -> ChangeFault {
        ChangeFault::Strategy(StrategyFault::Memory)
    }
}

impl<T: Drop> From<AllocFailed<T>> for ChangeFault {
    ghost from_gives = { λ _ e. e ≡ Within Memory };

    fn from(_e: AllocFailed<T>) -> ChangeFault {
        ChangeFault::Strategy(StrategyFault::Memory)
    }
}
