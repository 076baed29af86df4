//! Splits time-points among workers: each gets the events that its rows can see.
#![tactic(auto)]

pub mod examples;
mod reading;
mod spread;
mod time_point;

pub use time_point::{only_part, split};
