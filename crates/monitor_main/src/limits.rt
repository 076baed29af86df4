//! How much the files may ask for. The words' limits are command_line's, and a log's are log_reader's.

/// The most bytes of a signature, of a policy, of a strategy's text, and of a change script.
pub const MAX_FILE: u64 = 1 << 20;
