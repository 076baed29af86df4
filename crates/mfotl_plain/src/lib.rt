//! What a formula means, computed as it is defined and as slowly: every formula on every log. A reader
//! or a test checks an evaluator against these calls.
#![tactic(auto)]

mod bindings;
mod domain;
mod lines;
mod operators;
mod satisfaction;
mod settling;
mod temporal;
mod violating_rows;

pub use domain::active_domain;
pub use lines::log_text;
pub use satisfaction::holds;
pub use settling::is_settled;
pub use violating_rows::violations;
