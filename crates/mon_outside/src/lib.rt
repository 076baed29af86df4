//! The outside of the monitor as its layers see it: files to read, a sink to write to and a gate to pass,
//! each of which tells a fault only where its count of faults has risen.
#![tactic(auto)]

mod buffered_sink;
mod failing_calls;
mod fault;
mod gate;
mod inputs;
mod limits;
mod loading;
mod mem_inputs;
mod mem_sink;
mod sink;
mod sure_inputs;
mod sure_sink;

pub use buffered_sink::BufferedSink;
pub use fault::{Failed, LoadFault, ReadFault};
pub use gate::{Gate, OpenGate};
pub use inputs::Inputs;
pub use loading::{load, read_more, read_to_end};
pub use mem_inputs::{MemInputs, NamedFile};
pub use mem_sink::MemSink;
pub use sink::{Sink, write_whole};
pub use sure_inputs::SureInputs;
pub use sure_sink::SureSink;
