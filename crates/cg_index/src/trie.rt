//! The trie of the hashes of items' keys, whose links lie in the items' cells.
ghost use Rattle.std.specs.Prelude.{◌≡◌, ◌<◌, ◌++◌, ◌∷◌, [], map, vec_len, vec_capacity};
ghost use Rattle.cg_text.specs.Hash.{hash_of};
ghost use Rattle.cg_index.specs.Cells.{item_of, places_of};
ghost use Rattle.cg_index.specs.Trie.{IsTrie, IsEnd};
ghost use Rattle.cg_index.specs.declared.trie.End.TheVariants as end;

use crate::cell::Cell;
use crate::keyed::HasKey;

/// A link that leads nowhere yet.
#[derive(Clone, Copy, Debug)]
pub(crate) struct Opening {
    /// The cell in which it lies. Where there are no cells, it counts for nothing.
    pub(crate) place: usize,
    /// The two digits of hashes that go this way.
    pub(crate) digit: usize,
}

/// Where a walk by the digits of a hash ends.
#[derive(Clone, Copy, Debug)]
pub(crate) enum End {
    /// At the item whose key has the hash.
    Met(usize),
    /// Where no item has it.
    Open(Opening),
}

/// Walks from the first item by the digits of the hash, two by two from the lowest.
#[inline(always)]
pub(crate) fn walk<T: HasKey>(cells: &[Cell<T>], hash: u32) -> End
    requires { IsTrie (map places_of cells.now) (map T.key_of (map item_of cells.now)) }
    ensures { IsEnd (map places_of cells.now) (map T.key_of (map item_of cells.now)) hash result }
{
    let mut place = 0;
    let mut rest = hash;
    loop {
        let digit = (rest % 4) as usize;
        let next = match cells.get(place) {
            Some(cell) => {
                if cell.item.key().hash() == hash {
                    return End::Met(place);
                }
                cell.links.next(digit)
            }
            None => 0,
        };
        if next == 0 {
            return End::Open(Opening { place, digit });
        }
        place = next;
        rest /= 4;
    }
}

/// Adds an item where the walk by its key's hash ended, where there is room. It takes no memory.
#[inline(always)]
pub(crate) fn insert<T: HasKey>(cells: &mut Vec<Cell<T>>, at: Opening, item: T)
    requires room { vec_len cells.old < vec_capacity cells.old }
    requires trie { IsTrie (map places_of cells.old.items) (map T.key_of (map item_of cells.old.items)) }
    requires opening { IsEnd (map places_of cells.old.items) (map T.key_of (map item_of cells.old.items))
        (hash_of (T.key_of item)) (end.Open at) }
    ensures items { map item_of cells.new.items ≡ map item_of cells.old.items ++ item ∷ [] }
    ensures trie { IsTrie (map places_of cells.new.items) (map T.key_of (map item_of cells.new.items)) }
{
    let place = cells.len();
    if at.place < place {
        cells[at.place].links = cells[at.place].links.linked(at.digit, place);
    }
    cells.push_reserved(Cell::new(item));
}
