//! Worked cases of threads: a run in which two workers have to be at work at the same time, one whose change gives a
//! second worker work, and the turns of a hub.
#![tactic(auto)]

mod counted;
mod counter;
mod echo;
mod meeting;
mod numbers;
mod watched_sink;

pub use counted::Counted;
pub use counter::Counter;
pub use echo::Echo;
pub use meeting::Meeting;
pub use numbers::Numbers;
pub use watched_sink::WatchedSink;

#[cfg(test)]
mod passes;
#[cfg(test)]
mod refusal;
#[cfg(test)]
mod tests;
