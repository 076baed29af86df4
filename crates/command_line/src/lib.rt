//! The words of a command line, as one `clap` command takes them, and the command that they give. The layer above reads
//! the words by `read_words` and does what the command says; the threads of a demo are `DEFAULT_THREADS`.
#![tactic(auto)]

mod command;
pub mod laws;
mod limits;
mod options;
mod run_options;
mod words;

pub use command::{Command, Sources};
pub use limits::DEFAULT_THREADS;
pub use run_options::RunOptions;
pub use words::{WordsFault, read_words};
