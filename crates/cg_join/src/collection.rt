//! What keeps the pairs of keyed lines.
ghost use Rattle.std.specs.Prelude.{◌≡◌, ℕ, ◌+◌, ◌≤◌, List, [], ◌++◌, ◌∷◌, map, IsTrue, IsFalse, OnOk};
ghost use Rattle.cg_text.specs.Token.{saturated};
ghost use Rattle.cg_text.specs.WordState.{is_taken};
ghost use Rattle.cg_join.specs.Distinct.{LacksValue, any_value};

use cg_text::{Key, OutOfMemory, Token, WordText};

/// Pairs of a key and a value, in order, the keys all different.
pub trait Collection<V: Token>: Drop {
    /// A pair.
    type Pair;

    /// What the pairs are handed out as.
    type Out: Drop;

    /// The key of a pair.
    ghost key_of: { Self.Pair → List ℕ };

    /// The value of a pair.
    ghost value_of: { Self.Pair → V.Out };

    /// The pair of the two.
    ghost paired: { List ℕ → V.Out → Self.Pair };

    /// The pairs.
    ghost pairs_of: { Self → List Self.Pair };

    /// What pairs are handed out as.
    ghost given: { List Self.Pair → Self.Out };

    /// Whether there is room for one more pair.
    ghost has_room: { Self → Type 0 };

    /// The sum of the lengths of its vectors.
    ghost size: { Self → ℕ };

    /// The sum of the lengths of the vectors in what is handed out.
    ghost value_size: { Self.Out → ℕ };

    /// A pair has the key that it is made of.
    ghost has_key: { (key : List ℕ) (value : V.Out) → key_of (paired key value) ≡ key };

    /// A pair has the value that it is made of.
    ghost has_value: { (key : List ℕ) (value : V.Out) → value_of (paired key value) ≡ value };

    /// A pair has nothing else.
    ghost whole: { (pair : Self.Pair) → paired (key_of pair) (value_of pair) ≡ pair };

    /// Whether a pair has the key that was taken.
    fn has(&self, key: &WordText) -> bool
        ensures { result ≡ any_value (is_taken key.now.bytes.items) (map key_of (pairs_of self.now)) };

    /// Makes room for one more pair.
    fn reserve(&mut self) -> Result<(), OutOfMemory>
        ensures pairs { pairs_of self.new ≡ pairs_of self.old }
        ensures size { size self.new ≡ size self.old }
        ensures room { OnOk result (has_room self.new) };

    /// Adds a pair with a new key, where there is room for it. It takes no memory.
    fn push(&mut self, key: Key, value: V::Out)
        requires room { has_room self.old }
        requires new { LacksValue key (map key_of (pairs_of self.old)) }
        ensures pairs { pairs_of self.new ≡ pairs_of self.old ++ paired key value ∷ [] }
        ensures size { size self.new
            ≤ size self.old + (1 + (⟦<WordText as Token>⟧.value_size key + V.value_size value)) };

    /// Adds a pair, unless a pair has its key or no memory is left for it. Answers whether it did.
    fn add(&mut self, key: Key, value: V::Out) -> bool
        ensures added { IsTrue result → pairs_of self.new ≡ pairs_of self.old ++ paired key value ∷ [] }
        ensures new { IsTrue result → LacksValue key (map key_of (pairs_of self.old)) }
        ensures left { IsFalse result → pairs_of self.new ≡ pairs_of self.old }
        ensures size { size self.new
            ≤ size self.old + (1 + (⟦<WordText as Token>⟧.value_size key + V.value_size value)) }
        ensures same_size { IsFalse result → size self.new ≡ size self.old };

    /// The sum of the lengths of its vectors.
    fn held(&self) -> u64
        ensures { result ≡ saturated (size self.now) };

    /// Hands the pairs out. It takes no memory.
    fn finish(self) -> Self::Out
        ensures value { result ≡ given (pairs_of self) }
        ensures value_size { value_size result ≤ size self };

    /// The sum of the lengths of the vectors in what is handed out.
    fn held_in(out: &Self::Out) -> u64
        ensures { result ≡ saturated (value_size out.now) };
}
