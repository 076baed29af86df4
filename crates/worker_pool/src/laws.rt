//! Laws of the definitions, each the contract of a function.
ghost use Rattle.worker_pool.specs.Laws.{FiveDealtToTwo};

pub use lone_worker::laws::{violations_counted, worked_numbers};
pub use main_steps::laws::{changes_just_before, due_at_its_number, worked_plan};

/// To whom five hands are dealt.
pub fn worked_deal()
    ensures { FiveDealtToTwo }
{}
