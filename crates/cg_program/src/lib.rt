//! The command line, and the program: a run of the command that words ask for, from a source of bytes to a sink.
#![tactic(auto)]

mod command_line;
mod help;
pub mod program;
pub mod rows;
mod version;
pub mod words;

pub use program::{run_words, words_after_name};
pub use words::{Request, UsageFault, parse_request, parse_words};
