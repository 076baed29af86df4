//! How much may wait.

/// From so many on that wait for one worker no more is read.
pub(crate) const MOST_WAITING: u64 = 1024;
