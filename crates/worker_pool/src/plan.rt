//! What is monitored.
ghost use Rattle.std.specs.Prelude.{◌≡◌, ◌<◌, ◌≤◌, ◌⊎◌, All, Any};
ghost use Rattle.mfotl_model.specs.Strategies.{workers_of};

use main_steps::most_workers;
use monitorable::Core;
use slice_strategy::{Change, Strategy};

/// The core of a policy, the strategy that divides its work among workers at first, and the changes to other ones, in
/// the order in which they are made.
#[derive(Drop)]
pub struct Plan {
    pub core: Core,
    pub first: Strategy,
    pub changes: Vec<Change>,
}

impl Plan {
    /// How many workers the strategy with the most of them has.
    pub(crate) fn most_workers(&self) -> u32
        ensures some { 0 < result }
        ensures first { workers_of self.now.first ≤ result }
        ensures changes { All (λ c. workers_of c.strategy ≤ result) self.now.changes.items }
        ensures attained { (workers_of self.now.first ≡ result)
            ⊎ Any (λ c. workers_of c.strategy ≡ result) self.now.changes.items }
    {
        most_workers(&self.first, self.changes.as_slice())
    }
}
