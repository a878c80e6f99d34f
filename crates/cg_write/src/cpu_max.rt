//! A write of a quota, perhaps with a period (cgroup-v2.rst, cpu.max).
ghost use Rattle.std.specs.Prelude.{◌≡◌};
ghost use Rattle.cg_text.specs.Token.{Spells};
ghost use Rattle.cg_value.specs.Settings.{WriteText};
ghost use Rattle.cg_value.specs.declared.kind.WriteForm.TheVariants.{CpuMax as CpuMaxForm};

use crate::followed::second_of;
use cg_join::{Line, MapValue, Sequence, WrittenQuota, one_line, written_quota};
use cg_text::{ByteText, Limit, Pushed, Token};
use cg_value::Setting;

/// The line, turned into the setting.
#[derive(Clone, Copy)]
struct ToCpuMax;

impl MapValue<Sequence<WrittenQuota, ByteText>> for ToCpuMax {
    type To = Setting;

    ghost use Rattle.cg_write.specs.Mapped.{cpu_max_setting};
    ghost use Rattle.std.proofs.Common.{arith};

    ghost mapped = { cpu_max_setting };

    ghost value_size = { λ _. 0 };

    fn map_value(value: ((Limit, Option<((), u64)>), ())) -> Setting {
        let (quota, period) = value.0;
        Setting::CpuMax {
            quota,
            period: second_of(period),
        }
    }

    fn held_in(_value: &Setting) -> u64 {
        0
    }

    ghost adds_no_memory = { λ v. Prim.omega arith };
}

type Text = Line<WrittenQuota, ToCpuMax>;

/// The text of a write of a quota of at least 1000, and perhaps a period of 1000 to 1000000, in microseconds.
#[derive(Drop)]
pub struct CpuMaxWrite {
    text: Text,
}

impl CpuMaxWrite {
    /// The text of a write of a quota of at least 1000, and perhaps a period of 1000 to 1000000, in microseconds
    /// (cgroup-v2.rst, cpu.max).
    pub fn new() -> CpuMaxWrite
        ensures spells { Spells ⟦<CpuMaxWrite as Token>⟧.means result (λ text s. WriteText CpuMaxForm s text) }
        ensures size { ⟦<CpuMaxWrite as Token>⟧.size result ≡ 0 }
    {
        CpuMaxWrite {
            text: one_line(written_quota()),
        }
    }
}

impl Token for CpuMaxWrite {
    type Out = Setting;

    ghost means = { λ s. ⟦<Text as Token>⟧.means s.text };

    ghost size = { λ s. ⟦<Text as Token>⟧.size s.text };

    ghost value_size = { λ _. 0 };

    ghost ends = { λ s. ⟦<Text as Token>⟧.ends s.text };

    ghost grows = { ⟦<Text as Token>⟧.grows };

    ghost completes = { λ s. ⟦<Text as Token>⟧.completes s.text };

    ghost no_size = { λ e s. ⟦<Text as Token>⟧.no_size e s.text };

    ghost ends_is = { λ s. ⟦<Text as Token>⟧.ends_is s.text };

    ghost one_value = { λ s. ⟦<Text as Token>⟧.one_value s.text };

    ghost holds_bytes = { λ s. ⟦<Text as Token>⟧.holds_bytes s.text };

    fn push(&mut self, bytes: &[u8]) -> Pushed {
        self.text.push(bytes)
    }

    fn whole(&self, bytes: &[u8]) -> Option<(Setting, usize)> {
        self.text.whole(bytes)
    }

    fn allows(&self, byte: u8) -> bool {
        self.text.allows(byte)
    }

    fn can_end(&self) -> bool {
        self.text.can_end()
    }

    fn held(&self) -> u64 {
        self.text.held()
    }

    fn take(self) -> Setting {
        self.text.take()
    }

    fn held_in(_value: &Setting) -> u64 {
        0
    }
}
