//! Sets of bytes.
ghost use Rattle.std.specs.Prelude.{◌≡◌, ◌↔◌, ◌⊎◌, ℕ, IsTrue};
ghost use Rattle.cg_text.specs.Bytes.{HasByte, no_bytes, count_of};

use std::marker::Model;

/// A set of bytes, which contracts see as a mark for each byte.
#[derive(Drop, Debug)]
pub struct ByteSet {
    marks: [bool; 256],
}

impl Model for ByteSet {
    ghost use Rattle.std.specs.Prelude.{List, Bool};

    ghost Value = { List Bool };

    ghost view = { λ s. s.marks };
}

impl ByteSet {
    /// The empty set.
    pub fn new() -> ByteSet
        ensures marks { result ≡ no_bytes }
        ensures empty { (byte : ℕ) → HasByte result byte → ⊥ }
    {
        ByteSet {
            marks: [false; 256],
        }
    }

    /// Adds a byte.
    pub fn insert(&mut self, byte: u8)
        ensures added { (other : ℕ) → HasByte self.new other ↔ (HasByte self.old other ⊎ (other ≡ byte)) }
    {
        self.marks[usize::from(byte)] = true;
    }

    /// Whether the byte is in the set.
    pub fn contains(&self, byte: u8) -> bool
        ensures { IsTrue result ↔ HasByte self.now byte }
    {
        self.marks[byte as usize]
    }

    /// How many bytes the set has.
    pub fn len(&self) -> u32
        ensures { result ≡ count_of self.now }
    {
        let mut count = 0;
        for mark in self.marks.iter() {
            if *mark {
                count += 1;
            }
        }
        count
    }

    /// Whether the set has no byte.
    pub fn is_empty(&self) -> bool
        ensures { IsTrue result ↔ (count_of self.now ≡ 0) }
    {
        self.len() == 0
    }
}
