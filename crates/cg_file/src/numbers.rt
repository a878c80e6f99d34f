//! A file of numbers, one a line (cgroup-v2.rst, cgroup.procs).
ghost use Rattle.std.specs.Prelude.{◌≡◌, ◌≤◌};
ghost use Rattle.cg_text.specs.Token.{Spells};
ghost use Rattle.cg_value.specs.Files.{KindText};
ghost use Rattle.cg_value.specs.declared.kind.ReadForm.TheVariants.{Numbers as NumbersForm};

use cg_join::{Lines, MapValue, Mapped, NumberStart};
use cg_text::{DecimalText, Items, Pushed, Token};
use cg_value::Value;
use std::alloc::Global;

/// A line, turned into the file's value.
#[derive(Clone, Copy)]
pub struct ToNumbers;

impl MapValue<Lines<DecimalText, NumberStart>> for ToNumbers {
    type To = Value;

    ghost use Rattle.cg_join.specs.SettledLaws.{zero_least};
    ghost use Rattle.cg_file.specs.ManyFileLaws.{numbers_value};

    ghost mapped = { numbers_value };

    ghost value_size = { λ _. 0 };

    fn map_value(value: Items<u64>) -> Value {
        Value::Numbers(value)
    }

    fn held_in(_value: &Value) -> u64 {
        0
    }

    ghost adds_no_memory = { λ v. zero_least _ };
}

type Text = Mapped<Lines<DecimalText, NumberStart>, ToNumbers>;

/// The text of a file of any number of numbers of a range, one a line.
#[derive(Drop)]
pub struct NumbersFile {
    text: Text,
}

impl NumbersFile {
    /// The text of a file of any number of numbers from `lo` to `hi`, one a line.
    pub fn new(alloc: Global, lo: u64, hi: u64) -> NumbersFile
        requires { lo ≤ hi }
        ensures spells { Spells ⟦<NumbersFile as Token>⟧.means result (λ text v. KindText (NumbersForm lo hi) v text) }
        ensures size { ⟦<NumbersFile as Token>⟧.size result ≡ 0 }
    {
        NumbersFile {
            text: Mapped::new(Lines::new(alloc, NumberStart::new(lo, hi), b'\n')),
        }
    }
}

impl Token for NumbersFile {
    type Out = Value;

    ghost means = { λ s. ⟦<Text as Token>⟧.means s.text };

    ghost size = { λ s. ⟦<Text as Token>⟧.size s.text };

    ghost value_size = { λ _. 0 };

    ghost ends = { λ s. ⟦<Text as Token>⟧.ends s.text };

    ghost grows = { ⟦<Text as Token>⟧.grows };

    ghost completes = { λ s. ⟦<Text as Token>⟧.completes s.text };

    ghost no_size = { λ e s. ⟦<Text as Token>⟧.no_size e s.text };

    ghost ends_is = { λ s. ⟦<Text as Token>⟧.ends_is s.text };

    ghost one_value = { λ s. ⟦<Text as Token>⟧.one_value s.text };

    ghost holds_bytes = { λ s. ⟦<Text as Token>⟧.holds_bytes s.text };

    fn push(&mut self, bytes: &[u8]) -> Pushed {
        self.text.push(bytes)
    }

    fn allows(&self, byte: u8) -> bool {
        self.text.allows(byte)
    }

    fn can_end(&self) -> bool {
        self.text.can_end()
    }

    fn held(&self) -> u64 {
        self.text.held()
    }

    fn take(self) -> Value {
        self.text.take()
    }

    fn held_in(_value: &Value) -> u64 {
        0
    }
}
