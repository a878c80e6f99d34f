//! The vocabulary: the file table, the kinds of files, their values and settings.
#![tactic(auto)]

pub mod copied;
pub mod entry;
pub mod fits;
pub mod fits_setting;
pub mod flat;
pub mod item;
pub mod kind;
pub mod laws;
pub mod lines;
pub mod look_up;
pub mod path;
pub mod profile;
pub mod raw_lines;
mod row_name;
pub mod rows;
pub mod setting;
pub mod setting_laws;
mod spelled;
pub mod table;
pub mod value;

pub use copied::Copied;
pub use entry::{Entry, EntryFault, EntryRefused};
pub use flat::{Flat, FlatBuilder, FlatPair, FlatRefused, Found};
pub use item::{ItemFault, ItemRefused, PlanItem};
pub use kind::{ReadForm, ReadKind, WriteForm, WriteKind};
pub use path::name_of;
pub use profile::Profile;
pub use raw_lines::{LinesIn, RawLines, are_whole_lines};
pub use setting::{Setting, Toggle};
pub use table::{NotReadable, NotWritable, TableRow, has_row, read_kind, table_row, write_kind};
pub use value::{
    Averages, FlatLimit, GroupMode, LimitLine, NestedLine, NestedPair, ParamLine, ParamPair, Role,
    StatLine, StatPair, TargetLine, Value, WeightLine,
};
