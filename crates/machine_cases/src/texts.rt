//! The words of a case, and where it ends early.

use std::alloc::{AllocError, AllocFailed};
use std::str::FromStr;

/// Why a case has no answer.
#[derive(Drop)]
pub enum Stop {
    /// What it asks for has a fault, which is printed so.
    Told(String),
    /// It isn't written as a case.
    Malformed,
    Memory(AllocError),
}

impl From<AllocError> for Stop {
    fn from(e: AllocError) -> Stop {
        Stop::Memory(e)
    }
}

impl<T: Drop> From<AllocFailed<T>> for Stop {
    fn from(e: AllocFailed<T>) -> Stop {
        Stop::Memory(AllocError::from(e))
    }
}

/// The texts that each case has, and what stands behind them.
#[derive(Clone, Copy)]
pub struct Case<'a> {
    pub signature: &'a str,
    pub policy: &'a str,
    pub strategy: &'a str,
    pub rest: &'a str,
}

/// The texts of a case.
pub fn case_of(text: &str) -> Result<Case<'_>, Stop> {
    let (signature, text) = halves(text)?;
    let (policy, text) = halves(text)?;
    let (strategy, rest) = halves(text)?;
    Ok(Case {
        signature,
        policy,
        strategy,
        rest,
    })
}

/// The first word, and what stands behind the space after it.
pub fn parted(text: &str) -> (&str, &str) {
    text.split_once(' ').unwrap_or((text, ""))
}

/// What stands before the first ` | `, and behind it.
pub fn halves(text: &str) -> Result<(&str, &str), Stop> {
    text.split_once(" | ").ok_or(Stop::Malformed)
}

/// The number that a word writes.
pub fn number<N: FromStr>(word: &str) -> Result<N, Stop>
where
    N::Err: Drop,
{
    match word.parse::<N>() {
        Ok(number) => Ok(number),
        Err(_) => Err(Stop::Malformed),
    }
}

/// Puts a text behind the answer.
pub fn put(told: &mut Vec<u8>, text: &str) -> Result<(), Stop> {
    Ok(told.extend_from_slice(text.as_bytes())?)
}
