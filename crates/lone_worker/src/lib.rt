//! The lines of verdicts, how a log is read on, and the monitoring of a log by one worker alone, without threads.
#![tactic(auto)]

mod alone;
mod alone_points;
mod end;
pub mod laws;
mod line_front;
mod line_writer;
mod lone_worker;
mod reading_on;
mod stop;
mod tally;

pub use alone::follow_alone;
pub use end::End;
pub use line_writer::LineWriter;
pub use reading_on::{chunk_room, read_on};
pub use stop::Stop;
pub use tally::Tally;
