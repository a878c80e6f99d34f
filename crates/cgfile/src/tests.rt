//! What no table of rows can say: what decoders hold, calls with the heap starved, calls that no command makes, and the
//! texts of faults.
mod calls;
mod entries;
mod held;
mod snapshots;
mod starved;
mod starved_bytes;
mod starved_streams;
mod values;
