//! The greatest sizes of tokens.

/// The bytes of a Word outside logs.
pub const MAX_WORD: usize = 64;

/// The bytes of a Word of a log.
pub const MAX_LOG_WORD: usize = 4096;

/// The bytes of a Text between its quotes.
pub const MAX_TEXT: usize = 4096;

/// What an Integer may write behind a `-`. Without one it is below this.
pub const MAX_MAGNITUDE: u128 = 1 << 63;
