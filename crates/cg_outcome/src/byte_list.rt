//! The bytes of a set, as a list.
ghost use Rattle.std.specs.Prelude.{◌≡◌, ◌<◌, ◌≤◌, ◌∷◌, ◌++◌, [], length};
ghost use Rattle.cg_outcome.specs.ByteNames.{bytes_of};

use cg_text::ByteSet;
use std::marker::Model;

/// At most 256 bytes.
#[derive(Drop)]
pub(crate) struct ByteList {
    held: [u8; 256],
    len: usize,
}

impl Model for ByteList {
    ghost use Rattle.std.specs.Prelude.{List, ℕ, take, ◌≤◌};

    ghost Value = { List ℕ };

    ghost view = { λ s. take s.len s.held };

    ghost invariant = { λ s. s.len ≤ 256 };
}

impl ByteList {
    /// The empty list.
    fn new() -> ByteList
        ensures { result ≡ [] }
    {
        ByteList {
            held: [0; 256],
            len: 0,
        }
    }

    /// Adds a byte.
    fn push(&mut self, byte: u8)
        requires { length self.old < 256 }
        ensures { self.new ≡ self.old ++ byte ∷ [] }
    {
        let end = self.len + 1;
        self.held[self.len..end].copy_from_slice(&[byte]);
        self.len = end;
    }

    /// The bytes.
    pub(crate) fn bytes(&self) -> &[u8]
        ensures { result.now ≡ self.now }
    {
        &self.held[..self.len]
    }
}

/// The bytes that are in the set, or those that aren't, in ascending order.
pub(crate) fn bytes_of(set: &ByteSet, within: bool) -> ByteList
    ensures { result ≡ bytes_of set.now within }
{
    let mut list = ByteList::new();
    for number in 0..256u16 {
        let byte = number as u8;
        if set.contains(byte) == within {
            list.push(byte);
        }
    }
    list
}
