//! The text of one whole write of each kind, as a token.
#![tactic(auto)]

pub mod any_write;
pub mod chosen_weight;
pub mod clamp;
pub mod class;
pub mod controllers;
pub mod cpu_max;
pub mod default_weight;
pub mod device_limits;
pub mod device_target;
pub mod device_weight;
mod followed;
pub mod laws;
pub mod limit;
pub mod mode;
pub mod number;
pub mod raw;
pub mod reclaim;
pub mod role;
pub mod set;
pub mod signed;
pub mod size_limit;
pub mod toggle;
pub mod trigger;

pub use any_write::AnyWrite;
