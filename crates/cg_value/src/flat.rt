//! The pairs of flat keyed files.
ghost use Rattle.std.specs.Prelude.{◌≡◌, ◌≤◌, ◌++◌, ◌∷◌, [], IsTrue, IfOk, IfErr, OnOk, OnErr, length, map, is_some, is_err};
ghost use Rattle.cg_text.specs.Token.{saturated};
ghost use Rattle.cg_index.specs.Cells.{item_of};
ghost use Rattle.cg_value.specs.Flat.{number_of, place_of, HasDistinctKeys, flat_size, IsWithinDigits, IsHandedBack, is_repeated};

use crate::copied::{Copied, copy_all};
use cg_index::{Cell, HasKey, KeyedBuilder, Refused};
use cg_text::{Key, OutOfMemory};
use std::alloc::Global;
use std::marker::Model;
use thiserror::Error;

/// A pair of a flat keyed file, which is a line `KEY VALUE` (cgroup-v2.rst, "Format").
#[derive(Debug, Drop, PartialEq)]
pub struct FlatPair {
    pub key: Key,
    pub number: u64,
}

impl HasKey for FlatPair {
    ghost key_of = { λ pair. pair.key };

    fn key(&self) -> &Key {
        &self.key
    }
}

impl Copied for FlatPair {
    fn copy(&self, alloc: Global) -> Result<FlatPair, OutOfMemory> {
        Ok(FlatPair {
            key: self.key.copy(alloc)?,
            number: self.number,
        })
    }
}

/// Why a pair isn't added. It hands the key back.
#[derive(Debug, Drop, Error)]
pub enum FlatRefused {
    /// A pair has the key.
    #[error("the key is there")]
    Repeated(Key),
    /// No pair has it, and no memory is left.
    #[error("out of memory")]
    OutOfMemory(Key),
}

/// What a look-up found.
#[derive(Clone, Copy, Debug, PartialEq, Eq)]
pub struct Found {
    /// The place of the pair that has the key, none where no pair has it.
    pub place: Option<usize>,
    /// How many comparisons of two whole keys it took.
    pub compares: u64,
}

/// The pairs of a flat keyed file that is being read. It can make room for a pair before the pair is there.
/// Contracts see the pairs and whether there is room.
#[derive(Debug, Drop)]
pub struct FlatBuilder {
    built: KeyedBuilder<FlatPair>,
}

impl Model for FlatBuilder {
    ghost use Rattle.cg_value.specs.Flat.{Building};

    ghost Value = { Building };

    ghost view = { λ s. record { pairs = s.built.items; has_room = s.built.has_room } };
}

impl FlatBuilder {
    /// No pairs. It takes no memory.
    pub fn new(alloc: Global) -> FlatBuilder
        ensures { result.pairs ≡ [] }
    {
        FlatBuilder {
            built: KeyedBuilder::new(alloc),
        }
    }

    /// Makes room, so that the next push takes no memory.
    pub fn reserve(&mut self) -> Result<(), OutOfMemory>
        ensures pairs { self.new.pairs ≡ self.old.pairs }
        ensures room { OnOk result (IsTrue self.new.has_room) }
    {
        self.built.reserve()
    }

    /// Adds a pair at the end. Where a pair has the key it answers `Repeated`, and where memory is wanting
    /// `OutOfMemory`: both hand the key back, and the pairs stay. Where there is room, it takes no memory.
    pub fn push(&mut self, key: Key, number: u64) -> Result<(), FlatRefused>
        ensures ok { OnOk result (self.new.pairs ≡ self.old.pairs ++ record { key = key; number = number } ∷ []) }
        ensures err { OnErr result (self.new.pairs ≡ self.old.pairs) }
        ensures back { IfErr result (IsHandedBack key) }
        ensures repeated { is_repeated result ≡ is_some (number_of key self.old.pairs) }
        ensures room { IsTrue self.old.has_room → is_err result ≡ is_repeated result }
    {
        match self.built.add(FlatPair { key, number }) {
            Ok(()) => Ok(()),
            Err(Refused::Repeated(pair)) => Err(FlatRefused::Repeated(pair.key)),
            Err(Refused::OutOfMemory(pair)) => Err(FlatRefused::OutOfMemory(pair.key)),
        }
    }

    /// Looks for the pair that has the key, by the hashes of the keys or by their tree: it compares at most one key,
    /// and never more than the number of pairs has binary digits.
    pub fn find(&self, key: &[u8]) -> Found
        ensures place { result.place ≡ place_of key.now self.now.pairs }
        ensures compares { IsWithinDigits result.compares (length self.now.pairs) }
    {
        match self.built.nearest(key) {
            None => Found {
                place: None,
                compares: 0,
            },
            Some(place) => Found {
                place: (self.built.cells()[place].item.key.bytes() == key).then_some(place),
                compares: 1,
            },
        }
    }

    /// The pairs in order, each in its cell.
    pub fn pairs(&self) -> &[Cell<FlatPair>]
        ensures pairs { map item_of result.now ≡ self.now.pairs }
        ensures distinct { HasDistinctKeys self.now.pairs }
    {
        self.built.cells()
    }

    /// The length of its vector with each key's length, or `u64::MAX` where it is more.
    pub fn held(&self) -> u64
        ensures { result ≡ saturated (flat_size self.now.pairs) }
    {
        let mut held = self.built.places() as u64;
        for pair in self.built.cells() {
            held = held.saturating_add(pair.item.key.bytes().len() as u64);
        }
        held
    }

    /// A copy.
    fn copy(&self, alloc: Global) -> Result<FlatBuilder, OutOfMemory>
        ensures { IfOk result (λ copy. copy.pairs ≡ self.now.pairs) }
    {
        Ok(FlatBuilder {
            built: copy_all(alloc, self.built.cells())?,
        })
    }

    /// The pairs as a value. It takes no memory.
    pub fn finish(self) -> Flat
        ensures { result ≡ self.pairs }
    {
        Flat { built: self }
    }
}

/// The pairs of a flat keyed file, which contracts see as their list. No key comes twice.
#[derive(Debug, Drop)]
pub struct Flat {
    built: FlatBuilder,
}

impl Model for Flat {
    ghost use Rattle.std.specs.Prelude.{List};
    ghost use Rattle.cg_value.specs.declared.flat.FlatPair.{FlatPair};

    ghost Value = { List FlatPair };

    ghost view = { λ s. s.built.pairs };
}

impl Flat {
    /// No pairs. It takes no memory.
    pub fn new(alloc: Global) -> Flat
        ensures { result ≡ [] }
    {
        FlatBuilder::new(alloc).finish()
    }

    /// Adds a pair at the end. Where a pair has the key it answers `Repeated`, and where memory is wanting
    /// `OutOfMemory`: both hand the key back, and the pairs stay.
    pub fn push(&mut self, key: Key, number: u64) -> Result<(), FlatRefused>
        ensures ok { OnOk result (self.new ≡ self.old ++ record { key = key; number = number } ∷ []) }
        ensures err { OnErr result (self.new ≡ self.old) }
        ensures back { IfErr result (IsHandedBack key) }
        ensures repeated { is_repeated result ≡ is_some (number_of key self.old) }
    {
        self.built.push(key, number)
    }

    /// Looks for the pair that has the key, by the hashes of the keys or by their tree: it compares at most one key,
    /// and never more than the number of pairs has binary digits.
    pub fn find(&self, key: &[u8]) -> Found
        ensures place { result.place ≡ place_of key.now self.now }
        ensures compares { IsWithinDigits result.compares (length self.now) }
    {
        self.built.find(key)
    }

    /// The number of the pair that has the key, none where no pair has it.
    pub fn get(&self, key: &[u8]) -> Option<u64>
        ensures { result ≡ number_of key.now self.now }
    {
        match self.find(key).place {
            Some(place) => Some(self.pairs()[place].item.number),
            None => None,
        }
    }

    /// The pairs in order, each in its cell.
    pub fn pairs(&self) -> &[Cell<FlatPair>]
        ensures pairs { map item_of result.now ≡ self.now }
        ensures distinct { HasDistinctKeys self.now }
    {
        self.built.pairs()
    }

    /// The length of its vector with each key's length, or `u64::MAX` where it is more: at most the sum of each key's
    /// length plus 2. The bytes of a short key, which lie in the key itself, are counted as those of a long one are.
    pub fn held(&self) -> u64
        ensures exact { result ≡ saturated (flat_size self.now) }
        ensures most { result ≤ flat_size self.now }
    {
        self.built.held()
    }

    /// A copy.
    pub fn copy(&self, alloc: Global) -> Result<Flat, OutOfMemory>
        ensures { IfOk result (λ copy. copy ≡ self.now) }
    {
        Ok(self.built.copy(alloc)?.finish())
    }
}

impl PartialEq for Flat {
    ghost use Rattle.cg_value.specs.Flat.{are_same};
    ghost use Rattle.cg_value.specs.FlatLaws.{are_same_laws};

    ghost eq = { are_same };

    ghost laws = { are_same_laws };

    fn eq(&self, other: &Flat) -> bool {
        self.pairs() == other.pairs()
    }
}
