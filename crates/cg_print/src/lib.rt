//! Canonical texts, and sinks that they are written to.
#![tactic(auto)]

pub(crate) mod canonical;
pub mod cut;
pub mod entry;
pub mod file;
pub(crate) mod lines;
pub mod plain;
pub mod setting;
pub mod sink;
pub mod text;
pub(crate) mod tokens;

pub use cut::CutSink;
pub use entry::{
    EntryWriteFault, append_entry, append_item, print_entry, print_item, print_shown, write_entry,
};
pub use file::print_file;
pub use plain::PlainWriter;
pub use setting::print_setting;
pub use sink::{Failed, Sink};
pub use text::{WriteStopped, write_text};
