//! A write of a size to reclaim, perhaps with a swappiness (cgroup-v2.rst, memory.reclaim).
ghost use Rattle.std.specs.Prelude.{◌≡◌};
ghost use Rattle.cg_text.specs.Token.{Spells};
ghost use Rattle.cg_value.specs.Settings.{WriteText};
ghost use Rattle.cg_value.specs.declared.kind.WriteForm.TheVariants.{Reclaim as ReclaimForm};
ghost use Rattle.cg_write.specs.Texts.{IsWrittenReclaim};

use crate::followed::second_of;
use cg_join::{LabelText, LimitText, Line, MapValue, Maybe, Sequence, labelled, one_line};
use cg_text::{ByteText, Keyword, Limit, Pushed, SizeText, Token};
use cg_value::Setting;

/// A size, and perhaps ` swappiness=` and a swappiness.
type ReclaimText = Sequence<SizeText, Maybe<LabelText<LimitText>>>;

/// A size, and perhaps ` swappiness=` and a swappiness.
fn reclaim_text(max: bool) -> ReclaimText
    ensures spells { Spells ⟦<ReclaimText as Token>⟧.means result (IsWrittenReclaim max) }
    ensures size { ⟦<ReclaimText as Token>⟧.size result ≡ 0 }
{
    let size = SizeText::new();
    let swappiness = labelled(Keyword::Swappiness, LimitText::conditional(0, 200, max));
    Sequence::new(size, Maybe::new(swappiness))
}

/// The line, turned into the setting.
#[derive(Clone, Copy)]
struct ToReclaim;

impl MapValue<Sequence<ReclaimText, ByteText>> for ToReclaim {
    type To = Setting;

    ghost use Rattle.cg_write.specs.Mapped.{reclaim_setting};
    ghost use Rattle.std.proofs.Common.{arith};

    ghost mapped = { reclaim_setting };

    ghost value_size = { λ _. 0 };

    fn map_value(value: ((u64, Option<((), Limit)>), ())) -> Setting {
        let (size, swappiness) = value.0;
        Setting::Reclaim {
            size,
            swappiness: second_of(swappiness),
        }
    }

    fn held_in(_value: &Setting) -> u64 {
        0
    }

    ghost adds_no_memory = { λ v. Prim.omega arith };
}

type Text = Line<ReclaimText, ToReclaim>;

/// The text of a write of a size to reclaim, and perhaps a swappiness.
#[derive(Drop)]
pub struct ReclaimWrite {
    text: Text,
}

impl ReclaimWrite {
    /// The text of a write of a size to reclaim, and perhaps a swappiness of at most 200 or, where `max`, `max`
    /// (cgroup-v2.rst, memory.reclaim).
    pub fn new(max: bool) -> ReclaimWrite
        ensures spells { Spells ⟦<ReclaimWrite as Token>⟧.means result (λ text s. WriteText (ReclaimForm max) s text) }
        ensures size { ⟦<ReclaimWrite as Token>⟧.size result ≡ 0 }
    {
        ReclaimWrite {
            text: one_line(reclaim_text(max)),
        }
    }
}

impl Token for ReclaimWrite {
    type Out = Setting;

    ghost means = { λ s. ⟦<Text as Token>⟧.means s.text };

    ghost size = { λ s. ⟦<Text as Token>⟧.size s.text };

    ghost value_size = { λ _. 0 };

    ghost ends = { λ s. ⟦<Text as Token>⟧.ends s.text };

    ghost grows = { ⟦<Text as Token>⟧.grows };

    ghost completes = { λ s. ⟦<Text as Token>⟧.completes s.text };

    ghost no_size = { λ e s. ⟦<Text as Token>⟧.no_size e s.text };

    ghost ends_is = { λ s. ⟦<Text as Token>⟧.ends_is s.text };

    ghost one_value = { λ s. ⟦<Text as Token>⟧.one_value s.text };

    ghost holds_bytes = { λ s. ⟦<Text as Token>⟧.holds_bytes s.text };

    fn push(&mut self, bytes: &[u8]) -> Pushed {
        self.text.push(bytes)
    }

    fn whole(&self, bytes: &[u8]) -> Option<(Setting, usize)> {
        self.text.whole(bytes)
    }

    fn allows(&self, byte: u8) -> bool {
        self.text.allows(byte)
    }

    fn can_end(&self) -> bool {
        self.text.can_end()
    }

    fn held(&self) -> u64 {
        self.text.held()
    }

    fn take(self) -> Setting {
        self.text.take()
    }

    fn held_in(_value: &Setting) -> u64 {
        0
    }
}
