//! The faults of a log, with their printed texts.
ghost use Rattle.std.specs.Prelude.{◌≡◌};
ghost use Rattle.log_reader.specs.declared.fault.LogFault.TheVariants.{Memory};

use mfotl_lex::LexFault;
use std::alloc::{AllocError, AllocFailed};
use std::fmt;
use thiserror::Error;

/// The first fault of a log. Offsets count bytes from the start of the log.
#[derive(Clone, Copy, Error)]
pub enum LogFault {
    /// Bytes that are no token.
    Lex(LexFault),
    /// A token with which no log goes on, or the end of the log within a time-point.
    Syntax(u64),
    /// A name that the signature lacks.
    UnknownPredicate(u64),
    /// A value past the predicate's arity, or a `)` that comes too early.
    WrongArity(u64),
    /// A value that is no integer where one is due.
    WrongSort(u64),
    /// An integer outside 64 bits.
    IntRange(u64),
    /// A timestamp above 2^62.
    TimestampRange(u64),
    /// A timestamp below that of the time-point before it.
    FallingTime { before: u64, now: u64, at: u64 },
    /// The `(` of a group past the limit of a time-point.
    TooManyEvents(u64),
    /// The `@` of a time-point past the limit.
    TooManyPoints(u64),
    /// The byte past the limit.
    TooLong(u64),
    /// Want of memory.
    Memory,
}

impl LogFault {
    ghost use Rattle.std.specs.Prelude.{◌++◌, IfSome, IsNone, codes};
    ghost use Rattle.std.specs.Fmt.{decimal};
    ghost use Rattle.log_reader.specs.FaultTexts.{IsApart, fault_text};

    // The name and the offset of a fault that is printed with these two alone.
    fn parts(&self) -> Option<(&'static str, u64)>
        ensures some { IfSome result (λ parts.
            fault_text self.now ≡ parts.0.now ++ codes " at " ++ decimal parts.1) }
        ensures none { IsNone result → IsApart self.now }
    {
        let parts = match self {
            LogFault::Syntax(at) => ("Syntax", *at),
            LogFault::UnknownPredicate(at) => ("UnknownPredicate", *at),
            LogFault::WrongArity(at) => ("WrongArity", *at),
            LogFault::WrongSort(at) => ("WrongSort", *at),
            LogFault::IntRange(at) => ("IntRange", *at),
            LogFault::TimestampRange(at) => ("TimestampRange", *at),
            LogFault::TooManyEvents(at) => ("TooManyEvents", *at),
            LogFault::TooManyPoints(at) => ("TooManyPoints", *at),
            LogFault::TooLong(at) => ("TooLong", *at),
            LogFault::Lex(_) | LogFault::FallingTime { .. } | LogFault::Memory => return None,
        };
        Some(parts)
    }
}

// By hand, since a derived `Display` says nothing of its bytes to a contract.
impl fmt::Display for LogFault {
    ghost use Rattle.std.specs.Prelude.{Some};
    ghost use Rattle.log_reader.specs.FaultTexts.{fault_text};

    ghost output = { λ fault. Some (fault_text fault) };

    fn fmt<W: fmt::Write>(&self, f: &mut fmt::Formatter<W>) -> fmt::Result {
        match self.parts() {
            Some((name, at)) => write!(f, "{name} at {at}"),
            None => match self {
                LogFault::Lex(fault) => write!(f, "Lex {fault}"),
                LogFault::FallingTime { before, now, at } => {
                    write!(f, "FallingTime {before} {now} at {at}")
                }
                _ => f.write_str("Memory"),
            },
        }
    }
}

// As it is printed, since a derived `Debug` of so many cases is dear to prove.
impl fmt::Debug for LogFault {
    fn fmt<W: fmt::Write>(&self, f: &mut fmt::Formatter<W>) -> fmt::Result {
        fmt::Display::fmt(self, f)
    }
}

impl From<AllocError> for LogFault {
    ghost from_gives = { λ _ e. e ≡ Memory };

    fn from(_e: AllocError) -> LogFault {
        LogFault::Memory
    }
}

impl<T: Drop> From<AllocFailed<T>> for LogFault {
    ghost from_gives = { λ _ e. e ≡ Memory };

    fn from(_e: AllocFailed<T>) -> LogFault {
        LogFault::Memory
    }
}
