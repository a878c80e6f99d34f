//! Items that are found by their keys, which are all different.
#![tactic(auto)]

mod cell;
mod fork;
pub mod keyed;
mod position;
mod tree;
mod trie;

pub use cell::Cell;
pub use keyed::{Change, HasKey, KeyedBuilder, KeyedItems, Refused};
