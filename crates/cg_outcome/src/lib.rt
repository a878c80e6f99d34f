//! How a run ends: its outcome and exit status, the last line that tells it, the line that explains where it stopped,
//! and the list of the kinds, for which nothing is read.
#![tactic(auto)]

mod byte_list;
mod byte_name;
mod byte_runs;
pub mod explain;
pub mod kinds;
pub mod line;
pub mod lines;
pub mod outcome;
pub mod spot;
pub mod spot_text;
pub mod told;

pub use explain::write_stop;
pub use kinds::told_kinds;
pub use line::{Line, numbered, words_of};
pub use lines::{Lines, lines_behind, lines_of};
pub use outcome::{Outcome, checked, gone_on, status};
pub use spot::{Spot, is_explained, spot_in};
pub use spot_text::append_spot;
