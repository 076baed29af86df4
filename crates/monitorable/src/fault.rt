//! Why a policy can't be monitored.
ghost use Rattle.std.specs.Prelude.{◌≡◌};
ghost use Rattle.monitorable.specs.declared.fault.FragmentFault.TheVariants.{Memory};

use mfotl_model::Name;
use std::alloc::{AllocError, AllocFailed, Global};
use std::fmt;
use thiserror::Error;

/// A variable, by its number and by its name in the policy's text.
#[derive(Debug, Drop)]
pub struct Variable {
    pub number: u32,
    pub name: Name,
}

impl Variable {
    ghost use Rattle.std.specs.Prelude.{◌++◌, IfOk};
    ghost use Rattle.monitorable.specs.FaultTexts.{shown_name};

    // The name where it is UTF-8, and else nothing.
    fn shown(&self) -> &str
        ensures { result.now ≡ shown_name self.now.name }
    {
        match str::from_utf8(self.name.as_bytes()) {
            Ok(name) => name,
            Err(_) => "",
        }
    }

    fn text_after(&self, alloc: Global, kind: &[u8]) -> Result<Vec<u8>, AllocError>
        ensures { IfOk result (λ text. text.items ≡ kind.now ++ self.now.name) }
    {
        let mut text = Vec::from_slice(alloc, kind)?;
        text.extend_from_slice(self.name.as_bytes())?;
        Ok(text)
    }
}

impl fmt::Display for Variable {
    ghost use Rattle.std.specs.Prelude.{Some};
    ghost use Rattle.monitorable.specs.FaultTexts.{shown_name};

    ghost output = { λ variable. Some (shown_name variable.name) };

    fn fmt<W: fmt::Write>(&self, f: &mut fmt::Formatter<W>) -> fmt::Result {
        f.write_str(self.shown())
    }
}

/// The first reason why a policy can't be monitored.
#[derive(Drop, Error)]
pub enum FragmentFault {
    /// The normal form has more than 1,024 nodes.
    TooLarge,
    /// An UNTIL, EVENTUALLY or ALWAYS has no greatest distance.
    UnboundedFuture,
    /// No other part of a conjunction binds the variable of a NOT or a comparison.
    Unguarded(Variable),
    /// The sides of an OR have different free variables.
    Uneven,
    /// A free variable of the left side of SINCE or UNTIL isn't free in the right one.
    LooseLeft(Variable),
    /// A quantified variable isn't free in what follows.
    UnusedBound(Variable),
    /// There was no memory.
    Memory,
}

impl FragmentFault {
    ghost use Rattle.std.specs.Prelude.{◌++◌, IfOk, MatchOption};
    ghost use Rattle.monitorable.specs.FaultTexts.{fault_text, shown_fault, shown_name};

    /// What is printed of the fault, whatever bytes the variable's name has.
    pub fn text(&self, alloc: Global) -> Result<Vec<u8>, AllocError>
        ensures { IfOk result (λ text. text.items ≡ fault_text self.now) }
    {
        match self.parts() {
            (kind, Some(variable)) => variable.text_after(alloc, kind.as_bytes()),
            (kind, None) => Vec::from_slice(alloc, kind.as_bytes()),
        }
    }

    // What is printed before the variable's name, and the variable.
    fn parts(&self) -> (&'static str, Option<&Variable>)
        ensures text { MatchOption result.1 (fault_text self.now ≡ result.0.now) (λ variable.
            fault_text self.now ≡ result.0.now ++ variable.now.name) }
        ensures shown { MatchOption result.1 (shown_fault self.now ≡ result.0.now) (λ variable.
            shown_fault self.now ≡ result.0.now ++ shown_name variable.now.name) }
    {
        match self {
            FragmentFault::TooLarge => ("TooLarge", None),
            FragmentFault::UnboundedFuture => ("UnboundedFuture", None),
            FragmentFault::Unguarded(variable) => ("Unguarded ", Some(variable)),
            FragmentFault::Uneven => ("Uneven", None),
            FragmentFault::LooseLeft(variable) => ("LooseLeft ", Some(variable)),
            FragmentFault::UnusedBound(variable) => ("UnusedBound ", Some(variable)),
            FragmentFault::Memory => ("Memory", None),
        }
    }
}

// By hand, since a derived `Display` says nothing of its bytes to a contract.
impl fmt::Display for FragmentFault {
    ghost use Rattle.std.specs.Prelude.{Some};
    ghost use Rattle.monitorable.specs.FaultTexts.{shown_fault};

    ghost output = { λ fault. Some (shown_fault fault) };

    fn fmt<W: fmt::Write>(&self, f: &mut fmt::Formatter<W>) -> fmt::Result {
        match self.parts() {
            (kind, Some(variable)) => write!(f, "{kind}{variable}"),
            (kind, None) => f.write_str(kind),
        }
    }
}

// As it is printed, since a derived `Debug` of so many cases is dear to prove.
impl fmt::Debug for FragmentFault {
    fn fmt<W: fmt::Write>(&self, f: &mut fmt::Formatter<W>) -> fmt::Result {
        fmt::Display::fmt(self, f)
    }
}

impl From<AllocError> for FragmentFault {
    ghost from_gives = { λ _ e. e ≡ Memory };

    fn from(_error: AllocError) -> FragmentFault {
        FragmentFault::Memory
    }
}

impl<T: Drop> From<AllocFailed<T>> for FragmentFault {
    ghost from_gives = { λ _ e. e ≡ Memory };

    fn from(_error: AllocFailed<T>) -> FragmentFault {
        FragmentFault::Memory
    }
}
