//! What C calls: settings, files, their kinds and numbers, why bytes are none, and streams, as bytes and numbers that
//! the caller lends. No call keeps anything. Where a call answers anything but done, the buffer is as it was.
#![tactic(auto)]

mod answer;
pub mod explain;
pub mod file;
pub mod first;
pub mod json;
pub mod kind;
pub mod number;
pub mod setting;
