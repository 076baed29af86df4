//! The tokens of policies, signatures, strategies and logs: readers above take them one by one, each a
//! slice of its source with its kind and offset, up to the first lexical fault.
#![tactic(auto)]

mod bytes;
mod fault;
mod kind;
pub mod laws;
mod lexer;
pub mod limits;
mod number;
mod scan;
mod token;

pub use bytes::{is_space, log_word_len};
pub use fault::{LexFault, LexFaultKind};
pub use kind::{Kind, Mode};
pub use lexer::Lexer;
pub use number::read_integer;
pub use scan::log_mark;
pub use token::Token;
