//! Where a case ends early.

use std::alloc::{AllocError, AllocFailed};

/// Why a case has no value to answer.
#[derive(Drop)]
pub enum Stop {
    /// What it asks for answers a fault, which is printed so.
    Told(String),
    /// It isn't written as a case.
    Malformed,
    Memory(AllocError),
}

impl From<AllocError> for Stop {
    fn from(e: AllocError) -> Stop {
        Stop::Memory(e)
    }
}

impl<T: Drop> From<AllocFailed<T>> for Stop {
    fn from(e: AllocFailed<T>) -> Stop {
        Stop::Memory(AllocError::from(e))
    }
}
