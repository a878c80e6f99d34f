//! A run of a command from a source of bytes to a sink, with an exit status.
#![tactic(auto)]

mod checked;
pub mod command;
mod entries;
mod entry_run;
pub mod explained;
mod file_reader;
mod going_on;
mod kept;
mod left_out;
pub mod options;
mod output;
mod planned;
pub mod running;
mod shown;
mod shown_text;
mod spot;
mod stream_reader;
mod streaming;
mod teller;

pub use cg_outcome::{Outcome, status};
pub use cg_source::{CutSource, Explained, PlainReader, Source};
pub use command::Command;
pub use explained::{explain_file, explain_setting};
pub use options::Options;
pub use running::{run, run_with};
