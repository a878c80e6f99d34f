//! Entries as JSON (RFC 8259).
#![tactic(auto)]

pub(crate) mod compact;
pub(crate) mod cpuset;
pub(crate) mod devices;
pub mod entry;
pub(crate) mod json;
pub(crate) mod keyed;
pub mod laws;
pub mod left_out;
pub(crate) mod pressure;
pub mod rows;
pub(crate) mod text;
pub(crate) mod tokens;
pub(crate) mod value;

pub use entry::{append_line, line, view};
pub use left_out::append_left_out;
