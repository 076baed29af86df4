//! How large a signature may be.

/// The predicates of a signature.
pub const MAX_PREDICATES: usize = 256;

/// The arguments of a predicate.
pub const MAX_ARGUMENTS: usize = 8;
