//! Snapshots of a hierarchy and plans of writes to it: what they are, how they are read and written, and what can stop
//! a stream of bytes.
#![tactic(auto)]

mod class;
mod course;
pub mod decode;
pub mod decoder;
pub mod encode;
mod entry;
pub mod event;
pub mod fault;
pub mod going_on;
pub mod going_on_decoder;
mod going_on_records;
pub mod laws;
pub mod limits;
mod meter;
mod path;
mod plan;
mod plan_records;
mod present;
mod pull;
pub mod record_place;
mod records;
mod refusal;
mod snapshot;
mod snapshot_records;
pub mod stop;

pub use decode::{
    StreamFault, decode_plan, decode_plan_pieces, decode_snapshot, decode_snapshot_going_on,
    decode_snapshot_pieces,
};
pub use decoder::{Decoder, PlanDecoder, PlanPulled, PlanWhat, Pulled, SnapshotDecoder, What};
pub use encode::{EncodeFault, encode_plan, encode_snapshot};
pub use event::{Event, Progress};
pub use fault::Fault;
pub use going_on::{Cause, Found, LeftOut};
pub use going_on_decoder::GoingOnDecoder;
pub use limits::Limits;
pub use record_place::RecordPlace;
pub use stop::{Stop, Why};
