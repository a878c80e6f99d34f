//! The tree of the keys of items, a crit-bit tree, whose forks lie in the items' cells.
ghost use Rattle.std.specs.Prelude.{◌≡◌, ℕ, ◌<◌, ◌++◌, ◌∷◌, [], List, IfSome, length, map, is_none, vec_len, vec_capacity, ◌==◌};
ghost use Rattle.cg_text.specs.Distinct.{AreDistinct, LacksValue};
ghost use Rattle.cg_index.specs.Cells.{item_of, fork_of, tree_of};
ghost use Rattle.cg_index.specs.Keyed.{is_among};
ghost use Rattle.cg_index.specs.Position.{HasNoZero};
ghost use Rattle.cg_index.specs.Tree.{Indexes, IsKeyThere, IsNearest, IsNear, IsOnlyFor, IsInsertionPoint, IsTree, led_forks, led_root};

use crate::cell::{Cell, Links};
use crate::fork::{Fork, InsertionPoint, Link, edge_before, key_of_walk, redirect};
use crate::keyed::HasKey;
use crate::position::first_difference;
use cg_text::Key;

/// The place of the only key that can be the same as this one, none where there are no keys. It compares no keys.
#[inline(always)]
pub(crate) fn nearest<T>(cells: &[Cell<T>], root: Link, key: &[u8]) -> Option<usize>
    requires { IsTree (map fork_of cells.now) root }
    ensures none { is_none result ≡ (length cells.now == 0) }
    ensures within { IfSome result (λ k. k < length cells.now) }
    ensures nearest { IfSome result (IsNearest (tree_of cells.now root) key.now) }
    ensures only { IfSome result (IsOnlyFor (tree_of cells.now root) key.now) }
{
    if cells.is_empty() {
        return None;
    }
    Some(key_of_walk(cells, root, key))
}

/// The key of the item at a place, and no bytes of no place.
fn key_there<T: HasKey>(cells: &[Cell<T>], place: Option<usize>) -> &[u8]
    requires { IfSome place (λ i. i < length cells.now) }
    ensures key { IsKeyThere (map T.key_of (map item_of cells.now)) place result.now }
    ensures bytes { HasNoZero result.now }
{
    match place {
        Some(place) => cells[place].item.key().bytes(),
        None => &[],
    }
}

/// Where the key goes in. Its nearest one is given with it; where there are no keys, that counts for nothing.
fn point_near<T>(cells: &[Cell<T>], root: Link, key: &[u8], near: &[u8]) -> InsertionPoint
    requires tree { IsTree (map fork_of cells.now) root }
    requires key { HasNoZero key.now }
    requires near { HasNoZero near.now }
    requires apart { 0 < length cells.now → near.now ≡ key.now → ⊥ }
    ensures { (keys : List (List ℕ)) → Indexes (tree_of cells.now root) keys →
        IsNear (tree_of cells.now root) keys key.now near.now →
        IsInsertionPoint (tree_of cells.now root) keys key.now result }
{
    let place = cells.len();
    if place == 0 {
        return InsertionPoint {
            fork: Fork::none(),
            from: None,
            digit: false,
            link: Link::Key(0),
        };
    }
    let at = first_difference(key, near);
    let edge = edge_before(cells, root, key, at);
    InsertionPoint {
        fork: Fork::new(key, at, Link::Key(place), edge.to),
        from: edge.from,
        digit: edge.digit,
        link: Link::Fork(place),
    }
}

/// Where the key goes into the tree of the items' keys, none where an item has it. It takes one search, and at most one
/// comparison of whole keys.
#[inline(always)]
pub(crate) fn point_of<T: HasKey>(
    cells: &[Cell<T>],
    root: Link,
    key: &Key,
) -> Option<InsertionPoint>
    requires distinct { AreDistinct (map T.key_of (map item_of cells.now)) }
    requires tree { Indexes (tree_of cells.now root) (map T.key_of (map item_of cells.now)) }
    ensures there { is_none result ≡ is_among key.now (map T.key_of (map item_of cells.now)) }
    ensures point { IfSome result (IsInsertionPoint (tree_of cells.now root) (map T.key_of (map item_of cells.now))
        key.now) }
{
    let bytes = key.bytes();
    let there = key_there(cells, nearest(cells, root, bytes));
    if there == bytes {
        return None;
    }
    Some(point_near(cells, root, bytes, there))
}

/// Where a key that no item has goes into the tree of the items' keys.
fn new_point<T: HasKey>(cells: &[Cell<T>], root: Link, key: &Key) -> InsertionPoint
    requires tree { Indexes (tree_of cells.now root) (map T.key_of (map item_of cells.now)) }
    requires new { LacksValue key.now (map T.key_of (map item_of cells.now)) }
    ensures { IsInsertionPoint (tree_of cells.now root) (map T.key_of (map item_of cells.now)) key.now result }
{
    let bytes = key.bytes();
    let there = key_there(cells, nearest(cells, root, bytes));
    point_near(cells, root, bytes, there)
}

/// Adds the item at the insertion point of its key, where there is room. It returns the new root, and takes no memory.
#[inline(always)]
pub(crate) fn insert<T: HasKey>(
    cells: &mut Vec<Cell<T>>,
    root: Link,
    point: InsertionPoint,
    item: T,
) -> Link
    requires room { vec_len cells.old < vec_capacity cells.old }
    requires point { IsInsertionPoint (tree_of cells.old.items root) (map T.key_of (map item_of cells.old.items))
        (T.key_of item) point }
    ensures items { map item_of cells.new.items ≡ map item_of cells.old.items ++ item ∷ [] }
    ensures tree { Indexes (tree_of cells.new.items result) (map T.key_of (map item_of cells.new.items)) }
{
    let root = redirect(cells, root, point);
    cells.push_reserved(Cell {
        item,
        links: Links::Tree(point.fork),
    });
    root
}

/// Makes the tree of the items' keys in their cells, and returns its root. It takes no memory.
#[inline(never)]
pub(crate) fn build<T: HasKey>(cells: &mut Vec<Cell<T>>) -> Link
    requires { AreDistinct (map T.key_of (map item_of cells.old.items)) }
    ensures items { map item_of cells.new.items ≡ map item_of cells.old.items }
    ensures tree { Indexes (tree_of cells.new.items result) (map T.key_of (map item_of cells.new.items)) }
    ensures len { vec_len cells.new ≡ vec_len cells.old }
    ensures capacity { vec_capacity cells.new ≡ vec_capacity cells.old }
{
    let mut root = Link::Key(0);
    for place in 0..cells.len() {
        let point = new_point(&cells[..place], root, cells[place].item.key());
        root = redirect(cells, root, point);
        cells[place].links = Links::Tree(point.fork);
    }
    root
}

/// Adds an item with a new key, and its fork to the tree, which is made where there is none. It returns the tree's
/// root, and takes no memory.
pub(crate) fn push<T: HasKey>(cells: &mut Vec<Cell<T>>, root: Option<Link>, item: T) -> Link
    requires room { vec_len cells.old < vec_capacity cells.old }
    requires distinct { AreDistinct (map T.key_of (map item_of cells.old.items)) }
    requires new { LacksValue (T.key_of item) (map T.key_of (map item_of cells.old.items)) }
    requires tree { IfSome root
        (λ r. Indexes (tree_of cells.old.items r) (map T.key_of (map item_of cells.old.items))) }
    ensures items { map item_of cells.new.items ≡ map item_of cells.old.items ++ item ∷ [] }
    ensures tree { Indexes (tree_of cells.new.items result) (map T.key_of (map item_of cells.new.items)) }
{
    let root = match root {
        Some(root) => root,
        None => build(cells),
    };
    let point = new_point(cells.as_slice(), root, item.key());
    insert(cells, root, point, item)
}
