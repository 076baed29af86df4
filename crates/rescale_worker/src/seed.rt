//! What a worker begins with.
use monitorable::Core;
use slice_strategy::Strategy;

/// The core, the first strategy and the number of a worker. No value of it is made: clauses speak of it.
pub struct Seed {
    pub core: Core,
    pub first: Strategy,
    pub number: u32,
}
