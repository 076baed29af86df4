//! What a machine does at a time.

/// A step of a machine.
pub enum Step {
    /// The router reads the next entry.
    Read,
    /// The worker of this number is handed the first item that is ready for it.
    Feed(u32),
    /// It takes an item that it was handed.
    Take(u32),
    /// The router collects what it gave for the items that it took.
    Collect(u32),
    /// The router emits the next verdict.
    Emit,
}

/// Whether a step could be done.
#[derive(Drop)]
pub enum Applied {
    /// It was done.
    Did,
    /// Its guard is false, and nothing happened.
    NotEnabled,
}
