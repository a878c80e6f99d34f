//! A file of one set of numbers (cpuset(7), "List format").
ghost use Rattle.std.specs.Prelude.{◌≡◌};
ghost use Rattle.cg_text.specs.Token.{Spells};
ghost use Rattle.cg_value.specs.Files.{KindText};
ghost use Rattle.cg_value.specs.declared.kind.ReadForm.TheVariants.{Set as SetForm};

use cg_join::{Line, MapValue, Sequence, one_line};
use cg_text::{ByteText, NumberSet, Pushed, StrictListText, Token};
use cg_value::Value;
use std::alloc::Global;

/// A line, turned into the file's value.
#[derive(Clone, Copy)]
pub struct ToSet;

impl MapValue<Sequence<StrictListText, ByteText>> for ToSet {
    type To = Value;

    ghost use Rattle.cg_join.specs.SettledLaws.{zero_least};
    ghost use Rattle.cg_file.specs.OneLineMapped.{set_value};

    ghost mapped = { set_value };

    ghost value_size = { λ _. 0 };

    fn map_value(value: (NumberSet, ())) -> Value {
        Value::Set(value.0)
    }

    fn held_in(_value: &Value) -> u64 {
        0
    }

    ghost adds_no_memory = { λ v. zero_least _ };
}

type Text = Line<StrictListText, ToSet>;

/// The text of a file of one set of numbers up to a greatest one.
#[derive(Drop)]
pub struct SetFile {
    text: Text,
}

impl SetFile {
    /// The text of a file of one set of numbers up to `most`.
    pub fn new(alloc: Global, most: u32) -> SetFile
        ensures spells { Spells ⟦<SetFile as Token>⟧.means result (λ text v. KindText (SetForm most) v text) }
        ensures size { ⟦<SetFile as Token>⟧.size result ≡ 0 }
    {
        SetFile {
            text: one_line(StrictListText::new(alloc, most)),
        }
    }
}

impl Token for SetFile {
    type Out = Value;

    ghost means = { λ s. ⟦<Text as Token>⟧.means s.text };

    ghost size = { λ s. ⟦<Text as Token>⟧.size s.text };

    ghost value_size = { λ _. 0 };

    ghost ends = { λ s. ⟦<Text as Token>⟧.ends s.text };

    ghost grows = { ⟦<Text as Token>⟧.grows };

    ghost completes = { λ s. ⟦<Text as Token>⟧.completes s.text };

    ghost no_size = { λ e s. ⟦<Text as Token>⟧.no_size e s.text };

    ghost ends_is = { λ s. ⟦<Text as Token>⟧.ends_is s.text };

    ghost one_value = { λ s. ⟦<Text as Token>⟧.one_value s.text };

    ghost holds_bytes = { λ s. ⟦<Text as Token>⟧.holds_bytes s.text };

    fn push(&mut self, bytes: &[u8]) -> Pushed {
        self.text.push(bytes)
    }

    fn allows(&self, byte: u8) -> bool {
        self.text.allows(byte)
    }

    fn can_end(&self) -> bool {
        self.text.can_end()
    }

    fn held(&self) -> u64 {
        self.text.held()
    }

    fn take(self) -> Value {
        self.text.take()
    }

    fn held_in(_value: &Value) -> u64 {
        0
    }
}
