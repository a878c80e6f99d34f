//! What a delegated hierarchy of control groups breaks.
#![tactic(auto)]

pub(crate) mod directory;
pub(crate) mod files;
pub mod find;
pub mod finding;
pub mod rows;

pub use find::{findings, is_ruled};
pub use finding::{Finding, Rule};
