//! A write of a pressure trigger (psi.rst, "Monitoring for pressure thresholds").
ghost use Rattle.std.specs.Prelude.{◌≡◌, true};
ghost use Rattle.cg_text.specs.Token.{Spells};
ghost use Rattle.cg_value.specs.Settings.{WriteText};
ghost use Rattle.cg_value.specs.declared.kind.WriteForm.TheVariants.{Trigger as TriggerForm};
ghost use Rattle.cg_write.specs.Texts.{IsThreshold};

use cg_join::{Choice, Either, Line, MapValue, Sequence, Spaced, one_line, spaced};
use cg_text::{ByteText, Keyword, KeywordText, Pushed, Times, Token, TriggerText};
use cg_value::Setting;

/// `some` or `full`.
type TasksText = Choice<KeywordText, KeywordText>;

/// `some` or `full`, a space, and a stall and a window.
type ThresholdText = Sequence<TasksText, Spaced<TriggerText>>;

/// A token of such texts.
fn threshold_text() -> ThresholdText
    ensures spells { Spells ⟦<ThresholdText as Token>⟧.means result IsThreshold }
    ensures size { ⟦<ThresholdText as Token>⟧.size result ≡ 0 }
{
    let some = KeywordText::new(Keyword::Some);
    let full = KeywordText::new(Keyword::Full);
    let tasks = Choice::new(some, full);
    Sequence::new(tasks, spaced(TriggerText::new()))
}

/// The line, turned into the setting.
#[derive(Clone, Copy)]
struct ToTrigger;

impl MapValue<Sequence<ThresholdText, ByteText>> for ToTrigger {
    type To = Setting;

    ghost use Rattle.cg_write.specs.Mapped.{trigger_setting};
    ghost use Rattle.std.proofs.Common.{arith};

    ghost mapped = { trigger_setting };

    ghost value_size = { λ _. 0 };

    fn map_value(value: ((Either<(), ()>, ((), Times)), ())) -> Setting {
        let (tasks, (_, times)) = value.0;
        Setting::Trigger {
            full: match tasks {
                Either::Left(_) => false,
                Either::Right(_) => true,
            },
            stall: times.stall,
            window: times.window,
        }
    }

    fn held_in(_value: &Setting) -> u64 {
        0
    }

    ghost adds_no_memory = { λ v. Prim.omega arith };
}

type Text = Line<ThresholdText, ToTrigger>;

/// The text of a write of `some` or `full`, and a stall and a window in microseconds.
#[derive(Drop)]
pub struct TriggerWrite {
    text: Text,
}

impl TriggerWrite {
    /// The text of a write of `some` or `full`, and a stall and a window in microseconds (psi.rst, "Monitoring for
    /// pressure thresholds").
    pub fn new() -> TriggerWrite
        ensures spells { Spells ⟦<TriggerWrite as Token>⟧.means result (λ text s. WriteText TriggerForm s text) }
        ensures size { ⟦<TriggerWrite as Token>⟧.size result ≡ 0 }
    {
        TriggerWrite {
            text: one_line(threshold_text()),
        }
    }
}

impl Token for TriggerWrite {
    type Out = Setting;

    ghost means = { λ s. ⟦<Text as Token>⟧.means s.text };

    ghost size = { λ s. ⟦<Text as Token>⟧.size s.text };

    ghost value_size = { λ _. 0 };

    ghost ends = { λ s. ⟦<Text as Token>⟧.ends s.text };

    ghost grows = { ⟦<Text as Token>⟧.grows };

    ghost completes = { λ s. ⟦<Text as Token>⟧.completes s.text };

    ghost no_size = { λ e s. ⟦<Text as Token>⟧.no_size e s.text };

    ghost ends_is = { λ s. ⟦<Text as Token>⟧.ends_is s.text };

    ghost one_value = { λ s. ⟦<Text as Token>⟧.one_value s.text };

    ghost holds_bytes = { λ s. ⟦<Text as Token>⟧.holds_bytes s.text };

    fn push(&mut self, bytes: &[u8]) -> Pushed {
        self.text.push(bytes)
    }

    fn whole(&self, bytes: &[u8]) -> Option<(Setting, usize)> {
        self.text.whole(bytes)
    }

    fn allows(&self, byte: u8) -> bool {
        self.text.allows(byte)
    }

    fn can_end(&self) -> bool {
        self.text.can_end()
    }

    fn held(&self) -> u64 {
        self.text.held()
    }

    fn take(self) -> Setting {
        self.text.take()
    }

    fn held_in(_value: &Setting) -> u64 {
        0
    }
}
