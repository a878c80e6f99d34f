//! A write of one limit that is a size (cgroup-v2.rst, memory.max).
ghost use Rattle.std.specs.Prelude.{◌≡◌};
ghost use Rattle.cg_text.specs.Token.{Spells};
ghost use Rattle.cg_value.specs.Settings.{WriteText};
ghost use Rattle.cg_value.specs.declared.kind.WriteForm.TheVariants.{SizeLimit as SizeLimitForm};
ghost use Rattle.cg_write.specs.Texts.{IsSizeOrMax};

use cg_join::{Choice, Either, Line, MapValue, Sequence, one_line};
use cg_text::{ByteText, Keyword, KeywordText, Limit, Pushed, SizeText, Token};
use cg_value::Setting;

/// A size in bytes, or the word `max`.
type SizeLimitText = Choice<SizeText, KeywordText>;

/// A token of such texts.
fn size_limit_text() -> SizeLimitText
    ensures spells { Spells ⟦<SizeLimitText as Token>⟧.means result IsSizeOrMax }
    ensures size { ⟦<SizeLimitText as Token>⟧.size result ≡ 0 }
{
    Choice::new(SizeText::new(), KeywordText::new(Keyword::Max))
}

/// The line, turned into the setting.
#[derive(Clone, Copy)]
struct ToSizeLimit;

impl MapValue<Sequence<SizeLimitText, ByteText>> for ToSizeLimit {
    type To = Setting;

    ghost use Rattle.cg_write.specs.Mapped.{size_limit_setting};
    ghost use Rattle.std.proofs.Common.{arith};

    ghost mapped = { size_limit_setting };

    ghost value_size = { λ _. 0 };

    fn map_value(value: (Either<u64, ()>, ())) -> Setting {
        Setting::Limit(match value.0 {
            Either::Left(bytes) => Limit::At(bytes),
            Either::Right(_) => Limit::Max,
        })
    }

    fn held_in(_value: &Setting) -> u64 {
        0
    }

    ghost adds_no_memory = { λ v. Prim.omega arith };
}

type Text = Line<SizeLimitText, ToSizeLimit>;

/// The text of a write of `max`, or of one size in bytes.
#[derive(Drop)]
pub struct SizeLimitWrite {
    text: Text,
}

impl SizeLimitWrite {
    /// The text of a write of `max`, or of one size in bytes (cgroup-v2.rst, memory.max).
    pub fn new() -> SizeLimitWrite
        ensures spells { Spells ⟦<SizeLimitWrite as Token>⟧.means result (λ text s. WriteText SizeLimitForm s text) }
        ensures size { ⟦<SizeLimitWrite as Token>⟧.size result ≡ 0 }
    {
        SizeLimitWrite {
            text: one_line(size_limit_text()),
        }
    }
}

impl Token for SizeLimitWrite {
    type Out = Setting;

    ghost means = { λ s. ⟦<Text as Token>⟧.means s.text };

    ghost size = { λ s. ⟦<Text as Token>⟧.size s.text };

    ghost value_size = { λ _. 0 };

    ghost ends = { λ s. ⟦<Text as Token>⟧.ends s.text };

    ghost grows = { ⟦<Text as Token>⟧.grows };

    ghost completes = { λ s. ⟦<Text as Token>⟧.completes s.text };

    ghost no_size = { λ e s. ⟦<Text as Token>⟧.no_size e s.text };

    ghost ends_is = { λ s. ⟦<Text as Token>⟧.ends_is s.text };

    ghost one_value = { λ s. ⟦<Text as Token>⟧.one_value s.text };

    ghost holds_bytes = { λ s. ⟦<Text as Token>⟧.holds_bytes s.text };

    fn push(&mut self, bytes: &[u8]) -> Pushed {
        self.text.push(bytes)
    }

    fn whole(&self, bytes: &[u8]) -> Option<(Setting, usize)> {
        self.text.whole(bytes)
    }

    fn allows(&self, byte: u8) -> bool {
        self.text.allows(byte)
    }

    fn can_end(&self) -> bool {
        self.text.can_end()
    }

    fn held(&self) -> u64 {
        self.text.held()
    }

    fn take(self) -> Setting {
        self.text.take()
    }

    fn held_in(_value: &Setting) -> u64 {
        0
    }
}
