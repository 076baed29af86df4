//! One worker: what it is handed, what it gives, and what it does at a change of strategy. The layer above says which
//! items a `Worker` is handed, of the entries that are read, and gathers its outs; it calls the worker by itself or lends
//! it to a hub.
#![tactic(auto)]

mod boxed;
mod item;
mod phase;
mod rescaling;
mod seed;
mod settled;
mod worker;

pub use boxed::{BoxedPiece, BoxedStrategy};
pub use item::{Entry, Item, Out};
pub use seed::Seed;
pub use worker::Worker;
