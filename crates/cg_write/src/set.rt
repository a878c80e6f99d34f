//! A write of a set of numbers (cgroup-v2.rst, cpuset.cpus; cpuset(7), "List format").
ghost use Rattle.std.specs.Prelude.{◌≡◌};
ghost use Rattle.cg_text.specs.Token.{Spells};
ghost use Rattle.cg_value.specs.Settings.{WriteText};
ghost use Rattle.cg_value.specs.declared.kind.WriteForm.TheVariants.{Set as SetForm};

use cg_join::{Line, MapValue, Sequence, one_line};
use cg_text::{ByteText, LooseListText, NumberSet, Pushed, Token};
use cg_value::Setting;
use std::alloc::Global;

/// The line, turned into the setting.
#[derive(Clone, Copy)]
struct ToSet;

impl MapValue<Sequence<LooseListText, ByteText>> for ToSet {
    type To = Setting;

    ghost use Rattle.cg_write.specs.Mapped.{set_setting};
    ghost use Rattle.std.proofs.Common.{arith};

    ghost mapped = { set_setting };

    ghost value_size = { λ _. 0 };

    fn map_value(value: (NumberSet, ())) -> Setting {
        Setting::Set(value.0)
    }

    fn held_in(_value: &Setting) -> u64 {
        0
    }

    ghost adds_no_memory = { λ v. Prim.omega arith };
}

type Text = Line<LooseListText, ToSet>;

/// The text of a write of a set of numbers up to `most`, as a list of ranges in any order.
#[derive(Drop)]
pub struct SetWrite {
    text: Text,
}

impl SetWrite {
    /// The text of a write of a set of numbers up to `most`, as a list of ranges in any order (cgroup-v2.rst,
    /// cpuset.cpus; cpuset(7), "List format").
    pub fn new(alloc: Global, most: u32) -> SetWrite
        ensures spells { Spells ⟦<SetWrite as Token>⟧.means result (λ text s. WriteText (SetForm most) s text) }
        ensures size { ⟦<SetWrite as Token>⟧.size result ≡ 0 }
    {
        SetWrite {
            text: one_line(LooseListText::new(alloc, most)),
        }
    }
}

impl Token for SetWrite {
    type Out = Setting;

    ghost means = { λ s. ⟦<Text as Token>⟧.means s.text };

    ghost size = { λ s. ⟦<Text as Token>⟧.size s.text };

    ghost value_size = { λ _. 0 };

    ghost ends = { λ s. ⟦<Text as Token>⟧.ends s.text };

    ghost grows = { ⟦<Text as Token>⟧.grows };

    ghost completes = { λ s. ⟦<Text as Token>⟧.completes s.text };

    ghost no_size = { λ e s. ⟦<Text as Token>⟧.no_size e s.text };

    ghost ends_is = { λ s. ⟦<Text as Token>⟧.ends_is s.text };

    ghost one_value = { λ s. ⟦<Text as Token>⟧.one_value s.text };

    ghost holds_bytes = { λ s. ⟦<Text as Token>⟧.holds_bytes s.text };

    fn push(&mut self, bytes: &[u8]) -> Pushed {
        self.text.push(bytes)
    }

    fn allows(&self, byte: u8) -> bool {
        self.text.allows(byte)
    }

    fn can_end(&self) -> bool {
        self.text.can_end()
    }

    fn held(&self) -> u64 {
        self.text.held()
    }

    fn take(self) -> Setting {
        self.text.take()
    }

    fn held_in(_value: &Setting) -> u64 {
        0
    }
}
