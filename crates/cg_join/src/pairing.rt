//! Pairs of a word and a value.
ghost use Rattle.std.specs.Prelude.{◌≡◌, ℕ, ◌+◌, ◌≤◌, ◌<◌, List, [], IsTrue, map, length};
ghost use Rattle.std.specs.List.{sum_by};
ghost use Rattle.cg_text.specs.Token.{Spells, saturated};
ghost use Rattle.cg_index.specs.Cells.{item_of};
ghost use Rattle.cg_text.specs.WordState.{is_taken};
ghost use Rattle.cg_join.specs.Distinct.{any_value};
ghost use Rattle.cg_join.specs.Pairs.{pair_size};
ghost use Rattle.cg_join.specs.PairsState.{IsCompleted};

use crate::make_token::MakeToken;
use crate::words::has;
use cg_index::{Cell, Change, HasKey, KeyedBuilder};
use cg_text::{Key, Token, WordText};
use std::marker::PhantomData;
use std::mem;

/// How a word and a value make a pair.
pub trait Pairing<V: Token> {
    /// A pair, whose key is its word.
    type Pair: HasKey;

    /// The word of a pair.
    ghost word_of: { Self.Pair → List ℕ };

    /// The value of a pair.
    ghost value_of: { Self.Pair → V.Out };

    /// The pair of the two.
    ghost paired: { List ℕ → V.Out → Self.Pair };

    /// A pair has the word that it is made of.
    ghost has_word: { (word : List ℕ) (value : V.Out) → word_of (paired word value) ≡ word };

    /// A pair has the value that it is made of.
    ghost has_value: { (word : List ℕ) (value : V.Out) → value_of (paired word value) ≡ value };

    /// A pair has nothing else.
    ghost whole: { (pair : Self.Pair) → paired (word_of pair) (value_of pair) ≡ pair };

    /// A pair of the word, its value still to come. What stands in the value's place has no element in a vector.
    /// It takes no memory.
    fn begin(word: Key) -> Self::Pair
        ensures word { word_of result ≡ word }
        ensures value_size { V.value_size (value_of result) ≡ 0 };

    /// Gives the pair its value. It takes no memory.
    fn complete(pair: &mut Self::Pair, value: V::Out)
        ensures { pair.new ≡ paired (word_of pair.old) value };

    /// The value of a pair.
    fn value(pair: &Self::Pair) -> &V::Out
        ensures { result.now ≡ value_of pair.now };

    /// A pair is found by its word.
    ghost keyed: { Self.Pair.key_of ≡ word_of };
}

/// Whether a pair has the word that was taken.
pub(crate) fn is_old_word<V: Token, F: Pairing<V>>(
    items: &KeyedBuilder<F::Pair>,
    word: &WordText,
) -> bool
    ensures { result ≡ any_value (is_taken word.now.bytes.items) (map F.word_of items.now.items) }
{
    has(items, word)
}

/// How a pair gets its value.
pub struct Completing<V, F> {
    value: PhantomData<V>,
    pairing: PhantomData<F>,
}

impl<V: Token, F: Pairing<V>> Change<F::Pair> for Completing<V, F> {
    type Part = V::Out;

    ghost use Rattle.cg_join.specs.PairsStateLaws.{completed_key};

    ghost changed = { λ pair value. F.paired (F.word_of pair) value };

    fn change(item: &mut F::Pair, part: V::Out) {
        F::complete(item, part);
    }

    ghost same_key = { completed_key F.Pair.key_of F.word_of F.keyed F.paired F.has_word };
}

/// Gives the last pair its value.
pub(crate) fn complete_last<V: Token, F: Pairing<V>>(
    items: &mut KeyedBuilder<F::Pair>,
    value: V::Out,
)
    requires { 0 < length items.old.items }
    ensures { IsCompleted F.word_of F.value_of items.old.items value items.new.items }
{
    items.change_last::<Completing<V, F>>(value);
}

/// The places, and the sum of the lengths of the vectors in the pairs.
pub(crate) fn held_in_pairs<V: Token, F: Pairing<V>>(places: usize, cells: &[Cell<F::Pair>]) -> u64
    ensures { result ≡ saturated (places +
        sum_by (pair_size F.word_of F.value_of ⟦<WordText as Token>⟧.value_size V.value_size) (map item_of cells.now)) }
{
    let mut total = places as u64;
    for cell in cells {
        let word = WordText::held_in(cell.item.key());
        let size = word.saturating_add(V::held_in(F::value(&cell.item)));
        total = total.saturating_add(size);
    }
    total
}

/// The value of a token that has ended, and a new token in its place.
pub(crate) fn renew<T: Token, S: MakeToken<T>>(token: &mut T, start: &S) -> T::Out
    requires { IsTrue (T.ends token.old) }
    ensures value { T.means token.old [] result }
    ensures value_size { T.value_size result ≤ T.size token.old }
    ensures spells { Spells T.means token.new (S.texts start.now) }
    ensures size { T.size token.new ≡ 0 }
{
    mem::replace(token, start.start()).take()
}
