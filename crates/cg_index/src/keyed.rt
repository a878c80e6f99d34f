//! Items with keys that are all different, in order, found by their keys.
ghost use Rattle.std.specs.Prelude.{◌≡◌, ℕ, List, ◌<◌, ◌++◌, ◌∷◌, [], IsTrue, IfErr, IsOk, OnOk, OnErr, length, map, slice_get, Some, MatchOption, ◌≤◌, IfSome, is_none, is_err};
ghost use Rattle.std.specs.Cmp.Lexicographic.{pointwise};
ghost use Rattle.cg_text.specs.Distinct.{AreDistinct, LacksValue};
ghost use Rattle.cg_index.specs.Cells.{item_of, places_of, fork_of};
ghost use Rattle.cg_index.specs.Found.{IsKeyed, IsOnlyPlace, IsOpening};
ghost use Rattle.cg_index.specs.Keyed.{IsLastChanged, IsHandedBack, is_repeated, is_among, place_among};

use crate::cell::Cell;
use crate::fork::Link;
use crate::tree;
use crate::trie::{self, End, Opening};
use cg_text::{Key, OutOfMemory, hash_of, make_room};
use std::alloc::Global;
use std::marker::Model;
use thiserror::Error;

/// What has a key.
pub trait HasKey: Drop {
    /// Its key.
    ghost key_of: { Self → List ℕ };

    /// Its key.
    fn key(&self) -> &Key
        ensures { result.now ≡ key_of self.now };
}

impl HasKey for Key {
    ghost key_of = { λ key. key };

    fn key(&self) -> &Key {
        self
    }
}

/// How an item gets another part, its key staying.
pub trait Change<T: HasKey> {
    /// What it gets.
    type Part;

    /// The item with that part.
    ghost changed: { T → Self.Part → T };

    /// Gives the item the part. It takes no memory.
    fn change(item: &mut T, part: Self::Part)
        ensures { item.new ≡ changed item.old part };

    /// It has the key that it had.
    ghost same_key: { (item : T) (part : Self.Part) → T.key_of (changed item part) ≡ T.key_of item };
}

/// Why an item isn't added. It hands the item back.
#[derive(Debug, Drop, Error)]
pub enum Refused<T> {
    /// An item has its key.
    #[error("the key is there")]
    Repeated(T),
    /// No item has it, and no memory is left.
    #[error("out of memory")]
    OutOfMemory(T),
}

/// Where an item goes whose key has this hash, none where that takes the tree.
#[inline(always)]
fn opening<T: HasKey>(cells: &[Cell<T>], root: Option<Link>, hash: u32) -> Option<Opening>
    requires { IsKeyed (map T.key_of (map item_of cells.now)) (map places_of cells.now) (map fork_of cells.now) root }
    ensures { IfSome result (IsOpening (map places_of cells.now) (map T.key_of (map item_of cells.now)) root hash) }
{
    if root.is_some() {
        return None;
    }
    match trie::walk(cells, hash) {
        End::Open(at) => Some(at),
        End::Met(_) => None,
    }
}

/// Items with keys that are all different, to which more can be added. It can make room for an item before the item is
/// there. Contracts see the items and whether there is room.
#[derive(Debug, Drop)]
pub struct KeyedBuilder<T: HasKey> {
    /// The only vector: the trie of the hashes, or the tree of the keys, lies in it too.
    cells: Vec<Cell<T>>,
    /// Where a walk over the tree of the keys begins, none where hashes tell the keys apart.
    root: Option<Link>,
}

impl<T: HasKey> Model for KeyedBuilder<T> {
    ghost use Rattle.std.specs.Prelude.{nat_lt, map, vec_len, vec_capacity};
    ghost use Rattle.cg_index.specs.Cells.{item_of, places_of, fork_of};
    ghost use Rattle.cg_index.specs.Keyed.{Collected};
    ghost use Rattle.cg_index.specs.Found.{IsKeyed};

    ghost Value = { Collected T };

    ghost view = { λ s. record {
      items = map item_of s.cells.items;
      has_room = nat_lt (vec_len s.cells) (vec_capacity s.cells);
    } };

    ghost invariant = { λ s. IsKeyed (map T.key_of (map item_of s.cells.items)) (map places_of s.cells.items)
        (map fork_of s.cells.items) s.root };
}

impl<T: HasKey> KeyedBuilder<T> {
    /// No items. It takes no memory.
    pub fn new(alloc: Global) -> KeyedBuilder<T>
        ensures { result.items ≡ [] }
    {
        KeyedBuilder {
            cells: Vec::new(alloc),
            root: None,
        }
    }

    /// No items. It makes room for so many, where memory is left for them.
    pub fn with_room(alloc: Global, count: usize) -> KeyedBuilder<T>
        ensures { result.items ≡ [] }
    {
        let mut cells = Vec::new(alloc);
        let _ = cells.try_reserve_exact(count);
        KeyedBuilder { cells, root: None }
    }

    /// The items in order, each in its cell.
    pub fn cells(&self) -> &[Cell<T>]
        ensures items { map item_of result.now ≡ self.now.items }
        ensures distinct { AreDistinct (map T.key_of self.now.items) }
    {
        self.cells.as_slice()
    }

    /// The sum of the lengths of its vectors, those inside of items left out.
    pub fn places(&self) -> usize
        ensures { result ≡ length self.now.items }
    {
        self.cells.len()
    }

    /// The place of the only item that can have the key, none where it is known that none has it. It compares no keys.
    #[inline(always)]
    pub fn nearest(&self, key: &[u8]) -> Option<usize>
        ensures within { IfSome result (λ k. k < length self.now.items) }
        ensures only { IsOnlyPlace (map T.key_of self.now.items) key.now result }
    {
        match self.root {
            Some(root) => tree::nearest(self.cells.as_slice(), root, key),
            None => match trie::walk(self.cells.as_slice(), hash_of(key)) {
                End::Met(place) => Some(place),
                End::Open(_) => None,
            },
        }
    }

    /// The place of the item that has the key. At most one comparison of whole keys is made.
    pub fn find(&self, key: &[u8]) -> Option<usize>
        ensures { result ≡ place_among key.now (map T.key_of self.now.items) }
    {
        let place = self.nearest(key)?;
        (self.cells[place].item.key().bytes() == key).then_some(place)
    }

    /// Whether an item has the key.
    pub fn has(&self, key: &[u8]) -> bool
        ensures { result ≡ is_among key.now (map T.key_of self.now.items) }
    {
        self.find(key).is_some()
    }

    /// Makes room, so that the next item takes no memory.
    pub fn reserve(&mut self) -> Result<(), OutOfMemory>
        ensures items { self.new.items ≡ self.old.items }
        ensures room { OnOk result (IsTrue self.new.has_room) }
        ensures ready { IsTrue self.old.has_room → IsOk result }
    {
        make_room(&mut self.cells)
    }

    /// Adds an item with a new key at the end, where there is room. It takes no memory.
    #[inline(always)]
    pub fn push(&mut self, item: T)
        requires room { IsTrue self.old.has_room }
        requires new { LacksValue (T.key_of item) (map T.key_of self.old.items) }
        ensures { self.new.items ≡ self.old.items ++ item ∷ [] }
    {
        match opening(self.cells.as_slice(), self.root, item.key().hash()) {
            Some(at) => trie::insert(&mut self.cells, at, item),
            None => self.root = Some(tree::push(&mut self.cells, self.root, item)),
        }
    }

    /// Adds an item at the end. Where an item has its key it answers `Repeated`, and where memory is wanting
    /// `OutOfMemory`: both hand the item back, and the items stay. Where there is room, it takes no memory.
    #[inline(always)]
    pub fn add(&mut self, item: T) -> Result<(), Refused<T>>
        ensures ok { OnOk result (self.new.items ≡ self.old.items ++ item ∷ []) }
        ensures err { OnErr result (self.new.items ≡ self.old.items) }
        ensures back { IfErr result (IsHandedBack item) }
        ensures repeated { is_repeated result ≡ is_among (T.key_of item) (map T.key_of self.old.items) }
        ensures room { IsTrue self.old.has_room → is_err result ≡ is_repeated result }
    {
        let Some(at) = opening(self.cells.as_slice(), self.root, item.key().hash()) else {
            return self.add_by_tree(item);
        };
        if make_room(&mut self.cells).is_err() {
            return Err(Refused::OutOfMemory(item));
        }
        trie::insert(&mut self.cells, at, item);
        Ok(())
    }

    /// Adds an item as `add` does, where hashes alone don't tell that it is new.
    fn add_by_tree(&mut self, item: T) -> Result<(), Refused<T>>
        ensures ok { OnOk result (self.new.items ≡ self.old.items ++ item ∷ []) }
        ensures err { OnErr result (self.new.items ≡ self.old.items) }
        ensures back { IfErr result (IsHandedBack item) }
        ensures repeated { is_repeated result ≡ is_among (T.key_of item) (map T.key_of self.old.items) }
        ensures room { IsTrue self.old.has_room → is_err result ≡ is_repeated result }
    {
        let Some(root) = self.root else {
            return self.build_and_add(item);
        };
        let Some(point) = tree::point_of(self.cells.as_slice(), root, item.key()) else {
            return Err(Refused::Repeated(item));
        };
        match make_room(&mut self.cells) {
            Ok(()) => self.root = Some(tree::insert(&mut self.cells, root, point, item)),
            Err(_) => return Err(Refused::OutOfMemory(item)),
        }
        Ok(())
    }

    /// Adds an item as `add` does, in the tree, where there is none yet.
    fn build_and_add(&mut self, item: T) -> Result<(), Refused<T>>
        ensures ok { OnOk result (self.new.items ≡ self.old.items ++ item ∷ []) }
        ensures err { OnErr result (self.new.items ≡ self.old.items) }
        ensures back { IfErr result (IsHandedBack item) }
        ensures repeated { is_repeated result ≡ is_among (T.key_of item) (map T.key_of self.old.items) }
        ensures room { IsTrue self.old.has_room → is_err result ≡ is_repeated result }
    {
        if self.has(item.key().bytes()) {
            return Err(Refused::Repeated(item));
        }
        if make_room(&mut self.cells).is_err() {
            return Err(Refused::OutOfMemory(item));
        }
        self.root = Some(tree::push(&mut self.cells, self.root, item));
        Ok(())
    }

    /// Gives the last item a part. It takes no memory.
    pub fn change_last<C: Change<T>>(&mut self, part: C::Part)
        requires { 0 < length self.old.items }
        ensures items { IsLastChanged C.changed self.old.items part self.new.items }
        ensures room { self.new.has_room ≡ self.old.has_room }
    {
        let last = self.cells.len() - 1;
        C::change(&mut self.cells[last].item, part);
    }

    /// The items as a value. It takes no memory.
    pub fn finish(self) -> KeyedItems<T>
        ensures { result ≡ self.items }
    {
        KeyedItems { built: self }
    }
}

/// Items with keys that are all different, which contracts see as their list.
#[derive(Debug, Drop)]
pub struct KeyedItems<T: HasKey> {
    built: KeyedBuilder<T>,
}

impl<T: HasKey> Model for KeyedItems<T> {
    ghost use Rattle.std.specs.Prelude.{List};

    ghost Value = { List T };

    ghost view = { λ s. s.built.items };
}

impl<T: HasKey> KeyedItems<T> {
    /// No items. It takes no memory.
    pub fn new(alloc: Global) -> KeyedItems<T>
        ensures { result ≡ [] }
    {
        KeyedBuilder::new(alloc).finish()
    }

    /// No items. It makes room for so many, where memory is left for them.
    pub fn with_room(alloc: Global, count: usize) -> KeyedItems<T>
        ensures { result ≡ [] }
    {
        KeyedBuilder::with_room(alloc, count).finish()
    }

    /// The items in order, each in its cell.
    pub fn cells(&self) -> &[Cell<T>]
        ensures items { map item_of result.now ≡ self.now }
        ensures distinct { AreDistinct (map T.key_of self.now) }
    {
        self.built.cells()
    }

    /// How many items there are.
    pub fn len(&self) -> usize
        ensures { result ≡ length self.now }
    {
        self.cells().len()
    }

    /// The sum of the lengths of its vectors, those inside of items left out.
    pub fn places(&self) -> usize
        ensures { result ≡ length self.now }
    {
        self.built.places()
    }

    /// The item at a place, none from their number on.
    pub fn get(&self, place: usize) -> Option<&T>
        ensures { MatchOption result (length self.now ≤ place) (λ item. slice_get self.now place ≡ Some item.now) }
    {
        match self.cells().get(place) {
            Some(cell) => Some(&cell.item),
            None => None,
        }
    }

    /// The place of the only item that can have the key, none where it is known that none has it. It compares no keys.
    #[inline(always)]
    pub fn nearest(&self, key: &[u8]) -> Option<usize>
        ensures within { IfSome result (λ k. k < length self.now) }
        ensures only { IsOnlyPlace (map T.key_of self.now) key.now result }
    {
        self.built.nearest(key)
    }

    /// The place of the item that has the key. At most one comparison of whole keys is made.
    pub fn find(&self, key: &[u8]) -> Option<usize>
        ensures { result ≡ place_among key.now (map T.key_of self.now) }
    {
        self.built.find(key)
    }

    /// Adds an item at the end. Where an item has its key it answers `Repeated`, and where memory is wanting
    /// `OutOfMemory`: both hand the item back, and the items stay.
    #[inline(always)]
    pub fn push(&mut self, item: T) -> Result<(), Refused<T>>
        ensures ok { OnOk result (self.new ≡ self.old ++ item ∷ []) }
        ensures err { OnErr result (self.new ≡ self.old) }
        ensures back { IfErr result (IsHandedBack item) }
        ensures repeated { is_repeated result ≡ is_among (T.key_of item) (map T.key_of self.old) }
    {
        self.built.add(item)
    }
}

impl<T: HasKey + PartialEq> PartialEq for KeyedItems<T> {
    ghost use Rattle.std.specs.Cmp.Lexicographic.{pointwise, lists_per};

    ghost eq = { pointwise T.eq };

    ghost laws = { lists_per T.laws };

    fn eq(&self, other: &KeyedItems<T>) -> bool {
        self.cells() == other.cells()
    }
}
