//! Readers of one file and of one write, which take its text a byte at a time; and entries as another profile reads
//! them.
#![tactic(auto)]

pub mod decode;
pub mod decode_write;
pub mod laws;
pub mod open_reader;
pub mod push;
pub mod read_all;
pub mod reader;
pub mod setting_reader;
pub mod text;
pub mod upgrading;
pub mod whole_file;

pub use decode::{FileFault, decode_file};
pub use decode_write::{SettingFault, decode_setting};
pub use push::PushFault;
pub use reader::{PushedRun, ReaderCut, ValueReader};
pub use setting_reader::{SettingCut, SettingReader};
pub use upgrading::{UpgradeFault, upgrade, upgrade_to};
