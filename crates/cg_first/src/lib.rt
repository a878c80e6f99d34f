//! The first entry of the bytes of a snapshot, for callers that keep the bytes themselves.
#![tactic(auto)]

pub mod first;
pub mod laws;

pub use first::{First, first_entry};
