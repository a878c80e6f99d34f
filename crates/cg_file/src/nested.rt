//! A nested keyed file (cgroup-v2.rst, "Interface Files", "Format": memory.numa_stat).
ghost use Rattle.std.specs.Prelude.{◌≡◌, false};
ghost use Rattle.cg_text.specs.Token.{Spells};
ghost use Rattle.cg_value.specs.Files.{KindText};
ghost use Rattle.cg_value.specs.declared.kind.ReadForm.TheVariants.{Nested as NestedForm};

use cg_index::KeyedItems;
use cg_join::{
    DistinctPairs, KeyedLines, MakePair, MapValue, Mapped, NumberStart, PairList, Pairing,
    PairsStart, WordStart,
};
use cg_text::{DecimalText, Key, Pushed, Token};
use cg_value::{NestedLine, NestedPair, Value};
use std::alloc::Global;

/// Makes a pair of a sub-key and its number.
pub struct NestedPairing;

impl Pairing<DecimalText> for NestedPairing {
    type Pair = NestedPair;

    ghost use Rattle.std.specs.Prelude.{refl};

    ghost word_of = { λ p. p.key };

    ghost value_of = { λ p. p.number };

    ghost paired = { λ word number. record { key = word; number = number } };

    fn begin(word: Key) -> NestedPair {
        NestedPair {
            key: word,
            number: 0,
        }
    }

    fn complete(pair: &mut NestedPair, value: u64) {
        pair.number = value;
    }

    fn value(pair: &NestedPair) -> &u64 {
        &pair.number
    }

    ghost has_word = { λ _ _. refl };

    ghost has_value = { λ _ _. refl };

    ghost whole = { λ _. refl };

    ghost keyed = { refl };
}

/// The pairs of a line, with spaces between, no sub-key twice.
pub type NestedPairs = DistinctPairs<DecimalText, NumberStart, NestedPairing>;

/// Makes a line of a key and its pairs.
pub struct NestedLineMaking;

impl MakePair<NestedPairs> for NestedLineMaking {
    type Pair = NestedLine;

    ghost use Rattle.std.specs.Prelude.{refl};

    ghost key_of = { λ l. l.key };

    ghost value_of = { λ l. l.pairs };

    ghost paired = { λ key pairs. record { key = key; pairs = pairs } };

    fn pair(key: Key, value: KeyedItems<NestedPair>) -> NestedLine {
        NestedLine { key, pairs: value }
    }

    fn value(pair: &NestedLine) -> &KeyedItems<NestedPair> {
        &pair.pairs
    }

    ghost has_key = { λ _ _. refl };

    ghost has_value = { λ _ _. refl };

    ghost whole = { λ _. refl };

    ghost keyed = { refl };
}

/// Makes tokens of the pairs of a line.
pub type NestedStart = PairsStart<DecimalText, NumberStart, NestedPairing>;

/// The lines so far.
pub type NestedList = PairList<NestedPairs, NestedLineMaking>;

/// Lines of a key and its pairs, no key twice.
pub type NestedLines = KeyedLines<NestedPairs, NestedStart, NestedList>;

/// Makes the pairs of a line: a sub-key, an equals sign and a number, with spaces between.
fn nested_start(alloc: Global) -> NestedStart
    ensures words { result.words.controller ≡ false }
    ensures low { result.values.lo ≡ 0 }
    ensures high { result.values.hi ≡ 18446744073709551615 }
    ensures separator { result.separator ≡ 32 }
    ensures delimiter { result.delimiter ≡ 61 }
{
    let words = WordStart::new(alloc, false);
    let numbers = NumberStart::new(0, u64::MAX);
    PairsStart::new(alloc, words, numbers, b' ', b'=')
}

/// A line, turned into the file's value.
#[derive(Clone, Copy)]
pub struct ToNested;

impl MapValue<NestedLines> for ToNested {
    type To = Value;

    ghost use Rattle.cg_join.specs.SettledLaws.{zero_least};
    ghost use Rattle.cg_file.specs.NestedFileLaws.{nested_value};

    ghost mapped = { nested_value };

    ghost value_size = { λ _. 0 };

    fn map_value(value: KeyedItems<NestedLine>) -> Value {
        Value::Nested(value)
    }

    fn held_in(_value: &Value) -> u64 {
        0
    }

    ghost adds_no_memory = { λ v. zero_least _ };
}

type Text = Mapped<NestedLines, ToNested>;

/// The text of a file of any number of keys, each with any number of pairs of a sub-key and a number. No key comes
/// twice, and no sub-key twice in a line.
#[derive(Drop)]
pub struct NestedFile {
    text: Text,
}

impl NestedFile {
    /// A token of such files.
    pub fn new(alloc: Global) -> NestedFile
        ensures spells { Spells ⟦<NestedFile as Token>⟧.means result (λ text v. KindText NestedForm v text) }
        ensures size { ⟦<NestedFile as Token>⟧.size result ≡ 0 }
    {
        let keys = WordStart::new(alloc, false);
        let pairs = nested_start(alloc);
        let list = PairList::new(alloc);
        NestedFile {
            text: Mapped::new(KeyedLines::new(alloc, keys, pairs, b' ', b'\n', list)),
        }
    }
}

impl Token for NestedFile {
    type Out = Value;

    ghost means = { λ s. ⟦<Text as Token>⟧.means s.text };

    ghost size = { λ s. ⟦<Text as Token>⟧.size s.text };

    ghost value_size = { λ _. 0 };

    ghost ends = { λ s. ⟦<Text as Token>⟧.ends s.text };

    ghost grows = { ⟦<Text as Token>⟧.grows };

    ghost completes = { λ s. ⟦<Text as Token>⟧.completes s.text };

    ghost no_size = { λ e s. ⟦<Text as Token>⟧.no_size e s.text };

    ghost ends_is = { λ s. ⟦<Text as Token>⟧.ends_is s.text };

    ghost one_value = { λ s. ⟦<Text as Token>⟧.one_value s.text };

    ghost holds_bytes = { λ s. ⟦<Text as Token>⟧.holds_bytes s.text };

    fn push(&mut self, bytes: &[u8]) -> Pushed {
        self.text.push(bytes)
    }

    fn allows(&self, byte: u8) -> bool {
        self.text.allows(byte)
    }

    fn can_end(&self) -> bool {
        self.text.can_end()
    }

    fn held(&self) -> u64 {
        self.text.held()
    }

    fn take(self) -> Value {
        self.text.take()
    }

    fn held_in(_value: &Value) -> u64 {
        0
    }
}
