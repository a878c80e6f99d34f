//! The text of a whole file of each kind, as a token.
#![tactic(auto)]

pub mod any_file;
pub mod branch;
pub mod clamp;
pub mod class;
pub mod cpu_max;
pub mod device_limits;
pub mod device_params;
pub mod device_stats;
pub mod device_targets;
pub mod device_weights;
pub mod file_front;
pub mod flat;
pub mod flat_limits;
pub mod laws;
pub mod limit;
pub mod mode;
pub mod nested;
pub mod node_stats;
pub mod number;
pub mod numbers;
pub mod one_or_both;
pub mod pad;
pub mod partition;
pub mod pressure;
pub mod raw;
pub mod set;
pub mod signed;
pub mod words;

pub use any_file::AnyFile;
