//! The words of a cell: whose turn it is.

pub(crate) const MAIN_TURN: u64 = 0;

pub(crate) const HAND_TURN: u64 = 1;

/// It is main's, and a work in the cell had no memory.
pub(crate) const BROKEN: u64 = 2;
