//! What gives bytes, over any `Read` and over bytes at hand for tests; and how one text is read from it.
#![tactic(auto)]

pub mod cut;
pub mod explained;
pub mod plain;
pub mod reading;
pub mod source;
pub mod spot;
pub mod text_reader;

pub use cut::CutSource;
pub use explained::{Explained, explain_text};
pub use plain::PlainReader;
pub use reading::{Ending, read_all};
pub use source::Source;
pub use spot::{next_byte, text_spot};
pub use text_reader::{TextReader, front_of};
