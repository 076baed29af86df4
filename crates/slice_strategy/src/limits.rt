//! How many workers and changes there may be.

/// The workers of a strategy.
pub const MAX_WORKERS: u64 = 64;

/// The changes of a script.
pub const MAX_CHANGES: usize = 4096;
