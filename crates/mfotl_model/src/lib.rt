//! Metric first-order temporal logic on logs of events: its types, and what a formula means, which
//! the readers, the evaluators and the monitor above name in their contracts.
#![tactic(auto)]

mod copying;
mod event;
pub mod examples;
mod formula;
mod free_variables;
mod interval;
pub mod laws;
mod matching;
mod partial;
mod policy;
mod row;
mod term;
mod text;
mod text_order;
mod value;
mod variables;
mod verdict_text;

pub use event::{Db, Event, TimePoint};
pub use formula::{Bound, Formula};
pub use interval::Interval;
pub use partial::Partial;
pub use policy::{Policy, Sort, Var, Vars};
pub use row::{Row, RowList};
pub use term::{Atom, Comparison, Sign, Term, Terms};
pub use text::{Name, Text};
pub use value::Value;
pub use variables::{is_among, joined, without};
pub use verdict_text::{push_rows, push_verdict};
