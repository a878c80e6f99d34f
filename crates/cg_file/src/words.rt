//! A file of controllers' words (cgroup-v2.rst, cgroup.controllers).
ghost use Rattle.std.specs.Prelude.{◌≡◌, true};
ghost use Rattle.cg_text.specs.Token.{Spells};
ghost use Rattle.cg_value.specs.Files.{KindText};
ghost use Rattle.cg_value.specs.declared.kind.ReadForm.TheVariants.{Words as WordsForm};
ghost use Rattle.cg_file.specs.WordsMapped.{AreSpacedWords, IsWordsText};

use cg_index::KeyedItems;
use cg_join::{DistinctWords, MapValue, Mapped, OrReady, Sequence, WordStart};
use cg_text::{ByteText, Key, Pushed, Token};
use cg_value::Value;
use std::alloc::Global;

type Spaced = OrReady<DistinctWords>;

/// Controllers' words with single spaces between, all different, or none.
#[derive(Drop)]
pub struct SpacedWords {
    words: Spaced,
}

impl SpacedWords {
    /// A token of such words.
    fn new(alloc: Global) -> SpacedWords
        ensures spells { Spells ⟦<SpacedWords as Token>⟧.means result AreSpacedWords }
        ensures size { ⟦<SpacedWords as Token>⟧.size result ≡ 0 }
    {
        let words = DistinctWords::new(alloc, WordStart::new(alloc, true), b' ');
        SpacedWords {
            words: OrReady::new(words, KeyedItems::new(alloc)),
        }
    }
}

impl Token for SpacedWords {
    type Out = KeyedItems<Key>;

    ghost means = { λ s. ⟦<Spaced as Token>⟧.means s.words };

    ghost size = { λ s. ⟦<Spaced as Token>⟧.size s.words };

    ghost value_size = { ⟦<Spaced as Token>⟧.value_size };

    ghost ends = { λ s. ⟦<Spaced as Token>⟧.ends s.words };

    ghost grows = { ⟦<Spaced as Token>⟧.grows };

    ghost completes = { λ s. ⟦<Spaced as Token>⟧.completes s.words };

    ghost no_size = { λ e s. ⟦<Spaced as Token>⟧.no_size e s.words };

    ghost ends_is = { λ s. ⟦<Spaced as Token>⟧.ends_is s.words };

    ghost one_value = { λ s. ⟦<Spaced as Token>⟧.one_value s.words };

    ghost holds_bytes = { λ s. ⟦<Spaced as Token>⟧.holds_bytes s.words };

    fn push(&mut self, bytes: &[u8]) -> Pushed {
        self.words.push(bytes)
    }

    fn allows(&self, byte: u8) -> bool {
        self.words.allows(byte)
    }

    fn can_end(&self) -> bool {
        self.words.can_end()
    }

    fn held(&self) -> u64 {
        self.words.held()
    }

    fn take(self) -> KeyedItems<Key> {
        self.words.take()
    }

    fn held_in(value: &KeyedItems<Key>) -> u64 {
        Spaced::held_in(value)
    }
}

/// Such words and a newline, or no byte.
type WordsLine = OrReady<Sequence<SpacedWords, ByteText>>;

/// A line of controllers' words, or no byte.
fn words_line(alloc: Global) -> WordsLine
    ensures spells { Spells ⟦<WordsLine as Token>⟧.means result IsWordsText }
    ensures size { ⟦<WordsLine as Token>⟧.size result ≡ 0 }
{
    let line = Sequence::new(SpacedWords::new(alloc), ByteText::new(b'\n'));
    OrReady::new(line, (KeyedItems::new(alloc), ()))
}

/// A line, turned into the file's value.
#[derive(Clone, Copy)]
pub struct ToWords;

impl MapValue<WordsLine> for ToWords {
    type To = Value;

    ghost use Rattle.cg_join.specs.SettledLaws.{zero_least};
    ghost use Rattle.cg_file.specs.WordsMapped.{words_value};

    ghost mapped = { words_value };

    ghost value_size = { λ _. 0 };

    fn map_value(value: (KeyedItems<Key>, ())) -> Value {
        Value::Words(value.0)
    }

    fn held_in(_value: &Value) -> u64 {
        0
    }

    ghost adds_no_memory = { λ v. zero_least _ };
}

type Text = Mapped<WordsLine, ToWords>;

/// The text of a file of controllers' words. A file of no bytes has none.
#[derive(Drop)]
pub struct WordsFile {
    text: Text,
}

impl WordsFile {
    /// A token of such files.
    pub fn new(alloc: Global) -> WordsFile
        ensures spells { Spells ⟦<WordsFile as Token>⟧.means result (λ text v. KindText WordsForm v text) }
        ensures size { ⟦<WordsFile as Token>⟧.size result ≡ 0 }
    {
        WordsFile {
            text: Mapped::new(words_line(alloc)),
        }
    }
}

impl Token for WordsFile {
    type Out = Value;

    ghost means = { λ s. ⟦<Text as Token>⟧.means s.text };

    ghost size = { λ s. ⟦<Text as Token>⟧.size s.text };

    ghost value_size = { λ _. 0 };

    ghost ends = { λ s. ⟦<Text as Token>⟧.ends s.text };

    ghost grows = { ⟦<Text as Token>⟧.grows };

    ghost completes = { λ s. ⟦<Text as Token>⟧.completes s.text };

    ghost no_size = { λ e s. ⟦<Text as Token>⟧.no_size e s.text };

    ghost ends_is = { λ s. ⟦<Text as Token>⟧.ends_is s.text };

    ghost one_value = { λ s. ⟦<Text as Token>⟧.one_value s.text };

    ghost holds_bytes = { λ s. ⟦<Text as Token>⟧.holds_bytes s.text };

    fn push(&mut self, bytes: &[u8]) -> Pushed {
        self.text.push(bytes)
    }

    fn allows(&self, byte: u8) -> bool {
        self.text.allows(byte)
    }

    fn can_end(&self) -> bool {
        self.text.can_end()
    }

    fn held(&self) -> u64 {
        self.text.held()
    }

    fn take(self) -> Value {
        self.text.take()
    }

    fn held_in(_value: &Value) -> u64 {
        0
    }
}
