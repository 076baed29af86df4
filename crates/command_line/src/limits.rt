//! How much the words may ask for.

/// The most threads beside the one that reads and writes.
pub const MAX_THREADS: u32 = 64;

/// So many threads serve the workers where no number is given, and those of a demo. The default of `--threads` is this
/// number as a text.
pub const DEFAULT_THREADS: u32 = 4;

/// The greatest seed of a demo.
pub const MAX_SEED: u64 = u64::MAX;
