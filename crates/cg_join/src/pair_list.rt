//! Pairs of a key and a value.
ghost use Rattle.std.specs.Prelude.{◌≡◌, ℕ, ◌+◌, List, [], IsTrue, map};
ghost use Rattle.std.specs.List.{sum_by};
ghost use Rattle.cg_text.specs.Token.{saturated};
ghost use Rattle.cg_index.specs.Cells.{item_of};
ghost use Rattle.cg_join.specs.Pairs.{pair_size};
ghost use Rattle.cg_join.specs.Repeat.{items_size};

use crate::collection::Collection;
use crate::words::has;
use cg_index::{Cell, HasKey, KeyedBuilder, KeyedItems};
use cg_text::{Key, OutOfMemory, Token, WordText};
use std::alloc::Global;
use std::marker::PhantomData;

/// How a key and a value are made a pair.
pub trait MakePair<V: Token> {
    /// A pair.
    type Pair: HasKey;

    /// The key of a pair.
    ghost key_of: { Self.Pair → List ℕ };

    /// The value of a pair.
    ghost value_of: { Self.Pair → V.Out };

    /// The pair of the two.
    ghost paired: { List ℕ → V.Out → Self.Pair };

    /// A pair has the key that it is made of.
    ghost has_key: { (key : List ℕ) (value : V.Out) → key_of (paired key value) ≡ key };

    /// A pair has the value that it is made of.
    ghost has_value: { (key : List ℕ) (value : V.Out) → value_of (paired key value) ≡ value };

    /// A pair has nothing else.
    ghost whole: { (pair : Self.Pair) → paired (key_of pair) (value_of pair) ≡ pair };

    /// Makes a pair. It takes no memory.
    fn pair(key: Key, value: V::Out) -> Self::Pair
        ensures { result ≡ paired key value };

    /// The value of a pair.
    fn value(pair: &Self::Pair) -> &V::Out
        ensures { result.now ≡ value_of pair.now };

    /// A pair is found by its key.
    ghost keyed: { Self.Pair.key_of ≡ key_of };
}

/// Pairs in order, found by their keys.
#[derive(Drop)]
pub struct PairList<V: Token, F: MakePair<V>> {
    pairs: KeyedBuilder<F::Pair>,
    value: PhantomData<V>,
    make: PhantomData<F>,
}

impl<V: Token, F: MakePair<V>> PairList<V, F> {
    /// No pairs. It takes no memory.
    pub fn new(alloc: Global) -> PairList<V, F>
        ensures pairs { ⟦<PairList<V, F> as Collection<V>>⟧.pairs_of result ≡ [] }
        ensures size { ⟦<PairList<V, F> as Collection<V>>⟧.size result ≡ 0 }
    {
        PairList {
            pairs: KeyedBuilder::new(alloc),
            value: PhantomData,
            make: PhantomData,
        }
    }
}

/// The places, and the sum of the lengths of the vectors in the pairs.
fn held_in_made<V: Token, F: MakePair<V>>(places: usize, cells: &[Cell<F::Pair>]) -> u64
    ensures { result ≡ saturated (places +
        sum_by (pair_size F.key_of F.value_of ⟦<WordText as Token>⟧.value_size V.value_size) (map item_of cells.now)) }
{
    let mut total = places as u64;
    for cell in cells {
        let key = WordText::held_in(cell.item.key());
        let size = key.saturating_add(V::held_in(F::value(&cell.item)));
        total = total.saturating_add(size);
    }
    total
}

impl<V: Token, F: MakePair<V>> Collection<V> for PairList<V, F> {
    type Pair = F::Pair;

    type Out = KeyedItems<F::Pair>;

    ghost key_of = { F.key_of };

    ghost value_of = { F.value_of };

    ghost paired = { F.paired };

    ghost pairs_of = { λ s. s.pairs.items };

    ghost given = { λ pairs. pairs };

    ghost has_room = { λ s. IsTrue s.pairs.has_room };

    ghost size = { λ s. items_size (pair_size F.key_of F.value_of ⟦<WordText as Token>⟧.value_size V.value_size)
        s.pairs.items };

    ghost value_size = { items_size (pair_size F.key_of F.value_of ⟦<WordText as Token>⟧.value_size V.value_size) };

    fn has(&self, key: &WordText) -> bool {
        has(&self.pairs, key)
    }

    fn reserve(&mut self) -> Result<(), OutOfMemory> {
        self.pairs.reserve()
    }

    fn push(&mut self, key: Key, value: V::Out) {
        self.pairs.push(F::pair(key, value));
    }

    fn add(&mut self, key: Key, value: V::Out) -> bool {
        self.pairs.add(F::pair(key, value)).is_ok()
    }

    fn held(&self) -> u64 {
        held_in_made::<V, F>(self.pairs.places(), self.pairs.cells())
    }

    fn finish(self) -> KeyedItems<F::Pair> {
        self.pairs.finish()
    }

    fn held_in(out: &KeyedItems<F::Pair>) -> u64 {
        held_in_made::<V, F>(out.places(), out.cells())
    }

    ghost has_key = { F.has_key };

    ghost has_value = { F.has_value };

    ghost whole = { F.whole };
}
