//! How large a policy may be.

/// The levels that may be open at once.
pub const MAX_LEVELS: usize = 64;

/// The nodes of a formula.
pub const MAX_NODES: u32 = 4096;

/// The free variables. Bound variables are numbered from here on, behind the free ones.
pub const MAX_FREE: u32 = 8;

/// The longest bound of an interval, in seconds: 2 to the power of 62.
pub const MAX_BOUND: u64 = 4611686018427387904;
