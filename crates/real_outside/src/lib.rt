//! The real files and streams, behind the traits `Inputs` and `Sink` of `mon_outside`, by which a run sees its outside.
//! The program above makes them of the system's files, standard input and standard streams, and hands them to the run.
#![tactic(auto)]

mod real_inputs;
mod real_sink;
mod retrying;

pub use real_inputs::RealInputs;
pub use real_sink::RealSink;
