//! A file of a quota and its period (cgroup-v2.rst, cpu.max).
ghost use Rattle.std.specs.Prelude.{◌≡◌};
ghost use Rattle.cg_text.specs.Token.{Spells};
ghost use Rattle.cg_value.specs.Files.{KindText};
ghost use Rattle.cg_value.specs.declared.kind.ReadForm.TheVariants.{CpuMax as CpuMaxForm};

use cg_join::{Line, MapValue, QuotaAndPeriod, Sequence, one_line, quota_and_period};
use cg_text::{ByteText, Limit, Pushed, Token};
use cg_value::Value;

/// A line, turned into the file's value.
#[derive(Clone, Copy)]
pub struct ToCpuMax;

impl MapValue<Sequence<QuotaAndPeriod, ByteText>> for ToCpuMax {
    type To = Value;

    ghost use Rattle.cg_join.specs.SettledLaws.{zero_least};
    ghost use Rattle.cg_file.specs.OneLineMapped.{cpu_max_value};

    ghost mapped = { cpu_max_value };

    ghost value_size = { λ _. 0 };

    fn map_value(value: ((Limit, ((), u64)), ())) -> Value {
        let (quota, (_, period)) = value.0;
        Value::CpuMax { quota, period }
    }

    fn held_in(_value: &Value) -> u64 {
        0
    }

    ghost adds_no_memory = { λ v. zero_least _ };
}

type Text = Line<QuotaAndPeriod, ToCpuMax>;

/// The text of a file of a quota and its period, both in microseconds.
#[derive(Drop)]
pub struct CpuMaxFile {
    text: Text,
}

impl CpuMaxFile {
    /// A token of such files.
    pub fn new() -> CpuMaxFile
        ensures spells { Spells ⟦<CpuMaxFile as Token>⟧.means result (λ text v. KindText CpuMaxForm v text) }
        ensures size { ⟦<CpuMaxFile as Token>⟧.size result ≡ 0 }
    {
        CpuMaxFile {
            text: one_line(quota_and_period()),
        }
    }
}

impl Token for CpuMaxFile {
    type Out = Value;

    ghost means = { λ s. ⟦<Text as Token>⟧.means s.text };

    ghost size = { λ s. ⟦<Text as Token>⟧.size s.text };

    ghost value_size = { λ _. 0 };

    ghost ends = { λ s. ⟦<Text as Token>⟧.ends s.text };

    ghost grows = { ⟦<Text as Token>⟧.grows };

    ghost completes = { λ s. ⟦<Text as Token>⟧.completes s.text };

    ghost no_size = { λ e s. ⟦<Text as Token>⟧.no_size e s.text };

    ghost ends_is = { λ s. ⟦<Text as Token>⟧.ends_is s.text };

    ghost one_value = { λ s. ⟦<Text as Token>⟧.one_value s.text };

    ghost holds_bytes = { λ s. ⟦<Text as Token>⟧.holds_bytes s.text };

    fn push(&mut self, bytes: &[u8]) -> Pushed {
        self.text.push(bytes)
    }

    fn whole(&self, bytes: &[u8]) -> Option<(Value, usize)> {
        self.text.whole(bytes)
    }

    fn allows(&self, byte: u8) -> bool {
        self.text.allows(byte)
    }

    fn can_end(&self) -> bool {
        self.text.can_end()
    }

    fn held(&self) -> u64 {
        self.text.held()
    }

    fn take(self) -> Value {
        self.text.take()
    }

    fn held_in(_value: &Value) -> u64 {
        0
    }
}
