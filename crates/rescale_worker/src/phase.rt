//! What a worker keeps.
use crate::boxed::BoxedStrategy;
use monitor_state::Monitor;
use state_merge::Merging;

/// Whether a worker monitors.
#[derive(Drop)]
pub(crate) enum Phase {
    /// It monitors its slices under this strategy, which has a worker of its number.
    Active {
        monitor: Monitor,
        strategy: BoxedStrategy,
    },
    /// It has no state: the strategy has no worker of its number, or it gave its pieces away.
    Vacant,
    /// It merges pieces, of which some are missing. It will monitor under the strategy `now`.
    Waiting {
        merging: Merging,
        now: BoxedStrategy,
    },
}
