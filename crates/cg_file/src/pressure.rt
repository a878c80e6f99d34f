//! A file of pressure (psi.rst).
ghost use Rattle.std.specs.Prelude.{◌≡◌};
ghost use Rattle.cg_text.specs.Token.{Spells};
ghost use Rattle.cg_value.specs.Files.{KindText};
ghost use Rattle.cg_value.specs.declared.kind.ReadForm.TheVariants.{Pressure as PressureForm};
ghost use Rattle.cg_file.specs.PressureFileLaws.{PressureText};

use crate::one_or_both::OneOrBoth;
use cg_join::{
    Averages as AveragesText, LabelText, Line, MapValue, Mapped, Sequence, averages, labelled,
    one_line,
};
use cg_text::{ByteText, Hundredths, Keyword, Pushed, Token};
use cg_value::{Averages, Value};

/// The values of the averages and of the total, each after its label.
type AveragesValues = (
    ((), Hundredths),
    (((), Hundredths), (((), Hundredths), ((), u64))),
);

/// A line of averages, turned into their value.
#[derive(Clone, Copy)]
pub struct ToAverages;

impl MapValue<Sequence<LabelText<AveragesText>, ByteText>> for ToAverages {
    type To = Averages;

    ghost use Rattle.cg_join.specs.SettledLaws.{zero_least};
    ghost use Rattle.cg_file.specs.PressureFileLaws.{line_averages};

    ghost mapped = { line_averages };

    ghost value_size = { λ _. 0 };

    fn map_value(value: (((), AveragesValues), ())) -> Averages {
        let ((_, ((_, avg10), ((_, avg60), ((_, avg300), (_, total))))), _) = value;
        Averages {
            avg10,
            avg60,
            avg300,
            total,
        }
    }

    fn held_in(_value: &Averages) -> u64 {
        0
    }

    ghost adds_no_memory = { λ v. zero_least _ };
}

type LineParts = Line<LabelText<AveragesText>, ToAverages>;

/// A line of a word and averages, with its newline.
#[derive(Drop)]
pub struct PressureLine {
    parts: LineParts,
}

impl PressureLine {
    /// A token of such lines.
    pub(crate) fn new(word: Keyword) -> PressureLine
        ensures spells { Spells ⟦<PressureLine as Token>⟧.means result (PressureText word) }
        ensures size { ⟦<PressureLine as Token>⟧.size result ≡ 0 }
    {
        PressureLine {
            parts: one_line(labelled(word, averages())),
        }
    }
}

impl Token for PressureLine {
    type Out = Averages;

    ghost means = { λ s. ⟦<LineParts as Token>⟧.means s.parts };

    ghost size = { λ s. ⟦<LineParts as Token>⟧.size s.parts };

    ghost value_size = { λ _. 0 };

    ghost ends = { λ s. ⟦<LineParts as Token>⟧.ends s.parts };

    ghost grows = { ⟦<LineParts as Token>⟧.grows };

    ghost completes = { λ s. ⟦<LineParts as Token>⟧.completes s.parts };

    ghost no_size = { λ e s. ⟦<LineParts as Token>⟧.no_size e s.parts };

    ghost ends_is = { λ s. ⟦<LineParts as Token>⟧.ends_is s.parts };

    ghost one_value = { λ s. ⟦<LineParts as Token>⟧.one_value s.parts };

    ghost holds_bytes = { λ s. ⟦<LineParts as Token>⟧.holds_bytes s.parts };

    fn push(&mut self, bytes: &[u8]) -> Pushed {
        self.parts.push(bytes)
    }

    fn allows(&self, byte: u8) -> bool {
        self.parts.allows(byte)
    }

    fn can_end(&self) -> bool {
        self.parts.can_end()
    }

    fn held(&self) -> u64 {
        self.parts.held()
    }

    fn take(self) -> Averages {
        self.parts.take()
    }

    fn held_in(_value: &Averages) -> u64 {
        0
    }
}

/// A line, turned into the file's value.
#[derive(Clone, Copy)]
pub struct ToPressure;

impl MapValue<OneOrBoth<PressureLine, PressureLine>> for ToPressure {
    type To = Value;

    ghost use Rattle.cg_join.specs.SettledLaws.{zero_least};
    ghost use Rattle.cg_file.specs.PressureFileLaws.{pressure_value};

    ghost mapped = { pressure_value };

    ghost value_size = { λ _. 0 };

    fn map_value(value: (Option<Averages>, Option<Averages>)) -> Value {
        Value::Pressure {
            some: value.0,
            full: value.1,
        }
    }

    fn held_in(_value: &Value) -> u64 {
        0
    }

    ghost adds_no_memory = { λ v. zero_least _ };
}

type Text = Mapped<OneOrBoth<PressureLine, PressureLine>, ToPressure>;

/// The text of a file of pressure: a line of `some`, one of `full`, or both in this order.
#[derive(Drop)]
pub struct PressureFile {
    text: Text,
}

impl PressureFile {
    /// A token of such files.
    pub fn new() -> PressureFile
        ensures spells { Spells ⟦<PressureFile as Token>⟧.means result (λ text v. KindText PressureForm v text) }
        ensures size { ⟦<PressureFile as Token>⟧.size result ≡ 0 }
    {
        let some = PressureLine::new(Keyword::Some);
        let full = PressureLine::new(Keyword::Full);
        PressureFile {
            text: Mapped::new(OneOrBoth::new(some, full)),
        }
    }
}

impl Token for PressureFile {
    type Out = Value;

    ghost means = { λ s. ⟦<Text as Token>⟧.means s.text };

    ghost size = { λ s. ⟦<Text as Token>⟧.size s.text };

    ghost value_size = { λ _. 0 };

    ghost ends = { λ s. ⟦<Text as Token>⟧.ends s.text };

    ghost grows = { ⟦<Text as Token>⟧.grows };

    ghost completes = { λ s. ⟦<Text as Token>⟧.completes s.text };

    ghost no_size = { λ e s. ⟦<Text as Token>⟧.no_size e s.text };

    ghost ends_is = { λ s. ⟦<Text as Token>⟧.ends_is s.text };

    ghost one_value = { λ s. ⟦<Text as Token>⟧.one_value s.text };

    ghost holds_bytes = { λ s. ⟦<Text as Token>⟧.holds_bytes s.text };

    fn push(&mut self, bytes: &[u8]) -> Pushed {
        self.text.push(bytes)
    }

    fn allows(&self, byte: u8) -> bool {
        self.text.allows(byte)
    }

    fn can_end(&self) -> bool {
        self.text.can_end()
    }

    fn held(&self) -> u64 {
        self.text.held()
    }

    fn take(self) -> Value {
        self.text.take()
    }

    fn held_in(_value: &Value) -> u64 {
        0
    }
}
