//! A flat keyed file (cgroup-v2.rst, "Interface Files", "Format").
ghost use Rattle.std.specs.Prelude.{◌≡◌, IsTrue, []};
ghost use Rattle.cg_text.specs.Token.{Spells};
ghost use Rattle.cg_value.specs.Files.{KindText};
ghost use Rattle.cg_value.specs.declared.kind.ReadForm.TheVariants.{Flat as FlatForm};

use cg_join::{Collection, KeyedLines, MapValue, Mapped, NumberStart, WordStart};
use cg_text::{DecimalText, Key, OutOfMemory, Pushed, Token, WordText};
use cg_value::{Flat, FlatBuilder, FlatPair, Value};
use std::alloc::Global;

/// The pairs so far.
#[derive(Drop)]
pub struct FlatPairs {
    building: FlatBuilder,
}

impl FlatPairs {
    /// No pairs. It takes no memory.
    pub fn new(alloc: Global) -> FlatPairs
        ensures pairs { ⟦<FlatPairs as Collection<DecimalText>>⟧.pairs_of result ≡ [] }
        ensures size { ⟦<FlatPairs as Collection<DecimalText>>⟧.size result ≡ 0 }
    {
        FlatPairs {
            building: FlatBuilder::new(alloc),
        }
    }
}

impl Collection<DecimalText> for FlatPairs {
    type Pair = FlatPair;

    type Out = Flat;

    ghost use Rattle.std.specs.Prelude.{IsTrue, refl};
    ghost use Rattle.cg_value.specs.Flat.{flat_size};

    ghost key_of = { λ p. p.key };

    ghost value_of = { λ p. p.number };

    ghost paired = { λ key number. record { key = key; number = number } };

    ghost pairs_of = { λ s. s.building.pairs };

    ghost given = { λ pairs. pairs };

    ghost has_room = { λ s. IsTrue s.building.has_room };

    ghost size = { λ s. flat_size s.building.pairs };

    ghost value_size = { flat_size };

    fn has(&self, key: &WordText) -> bool {
        let taken = key.bytes();
        !taken.is_empty() && self.building.find(taken).place.is_some()
    }

    fn reserve(&mut self) -> Result<(), OutOfMemory> {
        self.building.reserve()
    }

    fn push(&mut self, key: Key, value: u64) {
        match self.building.push(key, value) {
            Ok(()) => {}
            Err(_) => unreachable!(),
        }
    }

    fn add(&mut self, key: Key, value: u64) -> bool {
        self.building.push(key, value).is_ok()
    }

    fn held(&self) -> u64 {
        self.building.held()
    }

    fn finish(self) -> Flat {
        self.building.finish()
    }

    fn held_in(out: &Flat) -> u64 {
        out.held()
    }

    ghost has_key = { λ _ _. refl };

    ghost has_value = { λ _ _. refl };

    ghost whole = { λ _. refl };
}

/// Lines of a key and a number, no key twice.
type FlatLines = KeyedLines<DecimalText, NumberStart, FlatPairs>;

/// A line, turned into the file's value.
#[derive(Clone, Copy)]
pub struct ToFlat;

impl MapValue<FlatLines> for ToFlat {
    type To = Value;

    ghost use Rattle.cg_join.specs.SettledLaws.{zero_least};
    ghost use Rattle.cg_file.specs.FlatFileLaws.{flat_value};

    ghost mapped = { flat_value };

    ghost value_size = { λ _. 0 };

    fn map_value(value: Flat) -> Value {
        Value::Flat(value)
    }

    fn held_in(_value: &Value) -> u64 {
        0
    }

    ghost adds_no_memory = { λ v. zero_least _ };
}

type Text = Mapped<FlatLines, ToFlat>;

/// The text of a file of any number of keys, each with a number, no key twice.
#[derive(Drop)]
pub struct FlatFile {
    text: Text,
}

impl FlatFile {
    /// A token of such files.
    pub fn new(alloc: Global) -> FlatFile
        ensures spells { Spells ⟦<FlatFile as Token>⟧.means result (λ text v. KindText FlatForm v text) }
        ensures size { ⟦<FlatFile as Token>⟧.size result ≡ 0 }
    {
        let keys = WordStart::new(alloc, false);
        let numbers = NumberStart::new(0, u64::MAX);
        let pairs = FlatPairs::new(alloc);
        FlatFile {
            text: Mapped::new(KeyedLines::new(alloc, keys, numbers, b' ', b'\n', pairs)),
        }
    }
}

impl Token for FlatFile {
    type Out = Value;

    ghost means = { λ s. ⟦<Text as Token>⟧.means s.text };

    ghost size = { λ s. ⟦<Text as Token>⟧.size s.text };

    ghost value_size = { λ _. 0 };

    ghost ends = { λ s. ⟦<Text as Token>⟧.ends s.text };

    ghost grows = { ⟦<Text as Token>⟧.grows };

    ghost completes = { λ s. ⟦<Text as Token>⟧.completes s.text };

    ghost no_size = { λ e s. ⟦<Text as Token>⟧.no_size e s.text };

    ghost ends_is = { λ s. ⟦<Text as Token>⟧.ends_is s.text };

    ghost one_value = { λ s. ⟦<Text as Token>⟧.one_value s.text };

    ghost holds_bytes = { λ s. ⟦<Text as Token>⟧.holds_bytes s.text };

    fn push(&mut self, bytes: &[u8]) -> Pushed {
        self.text.push(bytes)
    }

    fn allows(&self, byte: u8) -> bool {
        self.text.allows(byte)
    }

    fn can_end(&self) -> bool {
        self.text.can_end()
    }

    fn held(&self) -> u64 {
        self.text.held()
    }

    fn take(self) -> Value {
        self.text.take()
    }

    fn held_in(_value: &Value) -> u64 {
        0
    }
}
