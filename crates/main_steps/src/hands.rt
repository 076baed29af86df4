//! The hub of workers and its hands.
use rescale_core::Worker;
use turn_hub::{Hand, Hub};

/// A hub whose works are workers.
pub type WorkerHub = Hub<Worker>;

/// A hand of such a hub.
pub type WorkerHand = Hand<Worker>;

/// What main's loop is lent beside threads that serve such hands.
pub type LoopContext<'o, R, G> = hub_threads::LoopContext<'o, R, Worker, G>;
