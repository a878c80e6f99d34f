//! Items with the links by which their keys are found.
ghost use Rattle.std.specs.Prelude.{◌≡◌, ◌<◌, slice_index, slice_set};
ghost use Rattle.cg_index.specs.Cells.{fork_in, fork_of, places_in, no_links};

use crate::fork::Fork;

/// How walks go on from a cell.
#[derive(Clone, Copy, Debug)]
pub(crate) enum Links {
    /// In the trie of the hashes, by two digits of a hash: to the cell at a place, and nowhere at 0.
    Trie([usize; 4]),
    /// In the tree of the keys, by a digit of a key.
    Tree(Fork),
}

impl Links {
    /// Where a walk over the trie goes on.
    #[inline(always)]
    pub(crate) fn next(self, digit: usize) -> usize
        requires { digit < 4 }
        ensures { result ≡ slice_index (places_in self) digit }
    {
        match self {
            Links::Trie(places) => places[digit],
            Links::Tree(_) => 0,
        }
    }

    /// The links of a trie from which walks with this digit go on at the place.
    pub(crate) fn linked(self, digit: usize, place: usize) -> Links
        requires { digit < 4 }
        ensures { places_in result ≡ slice_set (places_in self) digit place }
    {
        match self {
            Links::Trie(mut places) => {
                places[digit] = place;
                Links::Trie(places)
            }
            Links::Tree(_) => self,
        }
    }

    /// The fork of the tree, and one that counts for nothing where there is none.
    pub(crate) fn fork(self) -> Fork
        ensures { result ≡ fork_in self }
    {
        match self {
            Links::Trie(_) => Fork::none(),
            Links::Tree(fork) => fork,
        }
    }
}

/// An item, and in the same element the links by which its key and others are found.
#[derive(Debug, Drop)]
pub struct Cell<T> {
    pub item: T,
    pub(crate) links: Links,
}

impl<T> Cell<T> {
    /// The item, from which no walk goes on.
    #[inline(always)]
    pub(crate) fn new(item: T) -> Cell<T>
        ensures item { result.item ≡ item }
        ensures links { result.links ≡ no_links }
    {
        Cell {
            item,
            links: Links::Trie([0; 4]),
        }
    }

    /// The fork that came with its key into the tree. That of the first item counts for nothing.
    #[inline(always)]
    pub(crate) fn fork(&self) -> Fork
        ensures { result ≡ fork_of self.now }
    {
        self.links.fork()
    }
}

/// The items are the same, whatever their links.
impl<T: PartialEq> PartialEq for Cell<T> {
    ghost eq = { λ a b. T.eq a.item b.item };

    ghost laws = { record {
      symm = λ a b. T.laws.symm a.item b.item;
      trans = λ a b c. T.laws.trans a.item b.item c.item;
    } };

    fn eq(&self, other: &Cell<T>) -> bool {
        self.item == other.item
    }
}
