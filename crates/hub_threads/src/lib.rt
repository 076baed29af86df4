//! Threads that serve the hands of a hub beside a task of main's.
#![tactic(auto)]

mod bell;
mod bells;
mod dealing;
mod loop_context;
mod main_task;
mod serving;
mod threads;

pub use bell::Bell;
pub use bells::Bells;
pub use dealing::deal_with_bells;
pub use loop_context::LoopContext;
pub use main_task::MainTask;
pub use serving::serve_each;
pub use threads::beside;
