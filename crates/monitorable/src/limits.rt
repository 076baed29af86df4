//! The limits of this crate.

/// The most nodes that a monitored normal form has.
pub const NODE_LIMIT: u32 = 1024;
