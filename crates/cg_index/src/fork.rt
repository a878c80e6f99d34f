//! The forks of the tree of keys, and walks over them.
ghost use Rattle.std.specs.Prelude.{◌≡◌, ◌<◌, ◌++◌, ◌∷◌, [], length, map, vec_len, vec_capacity, IfSome};
ghost use Rattle.cg_index.specs.Position.{number, side};
ghost use Rattle.cg_index.specs.Cells.{item_of, fork_of};
ghost use Rattle.cg_index.specs.Tree.{no_fork, IsTree, IsEdge, IsParting, Leads, way, turned, led_forks, led_root};

use crate::cell::{Cell, Links};
use crate::position::{Position, side};

/// Where a walk goes on.
#[derive(Clone, Copy, Debug)]
pub(crate) enum Link {
    Key(usize),
    Fork(usize),
}

/// Where the walks of keys part.
#[derive(Clone, Copy, Debug)]
pub(crate) struct Fork {
    /// By their digits at this position.
    pub(crate) at: Position,
    pub(crate) zero: Link,
    pub(crate) one: Link,
}

impl Fork {
    /// A fork that counts for nothing.
    pub(crate) fn none() -> Fork
        ensures { result ≡ no_fork }
    {
        Fork {
            at: Position { byte: 0, digit: 0 },
            zero: Link::Key(0),
            one: Link::Key(0),
        }
    }

    /// A fork at a position, from which this key goes on to its own link, and keys with the other digit to the other.
    pub(crate) fn new(key: &[u8], at: Position, own: Link, other: Link) -> Fork
        requires { at.digit < 8 }
        ensures { IsParting result key.now at own other }
    {
        if side(key, at) {
            Fork {
                at,
                zero: other,
                one: own,
            }
        } else {
            Fork {
                at,
                zero: own,
                one: other,
            }
        }
    }

    /// Where a key with this digit goes on.
    pub(crate) fn child_at(self, digit: bool) -> Link
        ensures { result ≡ way self digit }
    {
        if digit { self.one } else { self.zero }
    }

    /// The fork from which keys with this digit go on elsewhere.
    pub(crate) fn turned(self, digit: bool, link: Link) -> Fork
        ensures { result ≡ turned self digit link }
    {
        if digit {
            Fork {
                at: self.at,
                zero: self.zero,
                one: link,
            }
        } else {
            Fork {
                at: self.at,
                zero: link,
                one: self.one,
            }
        }
    }
}

/// The last step of a walk before a position.
#[derive(Clone, Copy, Debug)]
pub(crate) struct Edge {
    /// The fork that it comes from, none at the root.
    pub(crate) from: Option<usize>,
    /// The digit by which it leaves that fork.
    pub(crate) digit: bool,
    pub(crate) to: Link,
}

/// Where a key goes into a tree.
#[derive(Clone, Copy, Debug)]
pub(crate) struct InsertionPoint {
    /// The fork that comes with the key.
    pub(crate) fork: Fork,
    /// The fork from which a step then goes on elsewhere, none where it is the one at the root.
    pub(crate) from: Option<usize>,
    /// The digit of the key at that fork.
    pub(crate) digit: bool,
    /// Where the step then goes on.
    pub(crate) link: Link,
}

/// The key to which a walk by the sides of this one leads.
pub(crate) fn key_of_walk<T>(cells: &[Cell<T>], root: Link, key: &[u8]) -> usize
    requires tree { IsTree (map fork_of cells.now) root }
    requires some { 0 < length cells.now }
    ensures within { result < length cells.now }
    ensures leads { Leads (map fork_of cells.now) key.now root result }
{
    let mut link = root;
    loop {
        match link {
            Link::Key(place) => return place,
            Link::Fork(place) => {
                let fork = cells[place].fork();
                link = fork.child_at(side(key, fork.at));
            }
        }
    }
}

/// The last step, before the position, of a walk by the sides of the key.
pub(crate) fn edge_before<T>(cells: &[Cell<T>], root: Link, key: &[u8], at: Position) -> Edge
    requires tree { IsTree (map fork_of cells.now) root }
    requires some { 0 < length cells.now }
    requires digit { at.digit < 8 }
    ensures { IsEdge (map fork_of cells.now) root key.now (number at) result }
{
    let mut edge = Edge {
        from: None,
        digit: false,
        to: root,
    };
    while let Link::Fork(place) = edge.to {
        let fork = cells[place].fork();
        if !fork.at.is_before(at) {
            break;
        }
        let digit = side(key, fork.at);
        edge = Edge {
            from: Some(place),
            digit,
            to: fork.child_at(digit),
        };
    }
    edge
}

/// Lets the step before an insertion point go on at the point's link. It returns the new root.
pub(crate) fn redirect<T: Drop>(cells: &mut Vec<Cell<T>>, root: Link, point: InsertionPoint) -> Link
    requires { IfSome point.from (λ f. f < length cells.old.items) }
    ensures items { map item_of cells.new.items ≡ map item_of cells.old.items }
    ensures forks { map fork_of cells.new.items ≡ led_forks (map fork_of cells.old.items) point }
    ensures root { result ≡ led_root root point }
    ensures len { vec_len cells.new ≡ vec_len cells.old }
    ensures capacity { vec_capacity cells.new ≡ vec_capacity cells.old }
{
    match point.from {
        None => point.link,
        Some(place) => {
            cells[place].links = Links::Tree(cells[place].fork().turned(point.digit, point.link));
            root
        }
    }
}
