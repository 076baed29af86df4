//! How much is moved between the outside and the monitor at once.

/// So many bytes of a file are read at once, and of an output gathered.
pub(crate) const BUFFER: usize = 65_536;
