//! Numbers with two decimals.
ghost use Rattle.std.specs.Prelude.{◌≡◌, ◌+◌, ◌*◌, ◌/◌, ◌-◌, ◌≤◌, ◌<◌, false, [], IsTrue, MatchOption, ⊤, refl};
ghost use Rattle.cg_text.specs.Hundredths.{IsHundredths, IsDigit};
ghost use Rattle.cg_text.specs.DecimalState.{IsDecimalRest};
ghost use Rattle.cg_text.specs.HundredthsState.{HundredthsRest, IsWithin, hundredths_ends, may_leave_out, whole_ends};
ghost use Rattle.cg_text.specs.HundredthsLaws.{IsWithin_prop};
ghost use Rattle.cg_text.specs.Token.{Follows, NoneBegins, Spells};

use crate::decimal::{self, Progress};
use crate::memory::OutOfMemory;
use crate::pushed::Pushed;
use crate::steps::{Steps, push_bytes};
use crate::token::Token;
use crate::values::Hundredths;

/// How hundredths are spelled: with exactly two digits after the dot, or, as they may be written, with fewer.
#[derive(Clone, Copy, Debug, PartialEq, Eq)]
pub enum Spelling {
    Read,
    Written,
}

impl Spelling {
    /// Whether digits after the dot may be left out.
    fn may_leave_out(self) -> bool
        ensures { result ≡ may_leave_out self }
    {
        match self {
            Spelling::Read => false,
            Spelling::Written => true,
        }
    }
}

/// What was taken of hundredths.
#[derive(Clone, Copy, Drop)]
enum Part {
    /// So much of the whole part.
    Whole(Progress),
    /// The whole part, of so many hundredths, and the dot.
    Dot(u64),
    /// One digit after the dot, so many hundredths in all.
    Tenth(u64),
    /// Both digits.
    Hundredth(u64),
}

/// Hundredths of at most `most`, in a form.
#[derive(Clone, Copy, Drop)]
pub struct HundredthsText {
    form: Spelling,
    most: u64,
    part: Part,
    ghost within: { IsWithin most part } by { IsWithin_prop most part },
}

/// The count with a digit of this unit, where it is no more than `most`.
fn with_digit(count: u64, unit: u64, most: u64, byte: u8) -> Option<u64>
    requires within { count ≤ most }
    requires unit { unit ≤ 10 }
    ensures { MatchOption result (IsDigit byte → most < count + unit * (byte - 48))
        (λ new. IsDigit byte × (new ≡ count + unit * (byte - 48)) × (new ≤ most)) }
{
    if !byte.is_ascii_digit() {
        return None;
    }
    let digit = unit * (byte - b'0') as u64;
    if digit <= most - count {
        Some(count + digit)
    } else {
        None
    }
}

/// Whether the whole part may end.
fn whole_ends(most: u64, progress: Progress) -> bool
    ensures { result ≡ whole_ends most progress }
{
    match progress {
        Progress::Start => false,
        Progress::Zero => true,
        Progress::Number(n) => n <= most / 100,
    }
}

/// The whole part that was taken.
fn whole_part(most: u64, progress: Progress) -> u64
    requires { IsTrue (whole_ends most progress) }
    ensures value { IsDecimalRest 0 (most / 100) progress [] result }
    ensures within { 100 * result ≤ most }
{
    match progress {
        Progress::Number(n) => n,
        _ => 0,
    }
}

/// The state after one more byte, where some rest begins with it.
#[inline(always)]
fn after(form: Spelling, most: u64, part: Part, byte: u8) -> Option<Part>
    requires { IsWithin most part }
    ensures follows { MatchOption result (NoneBegins (HundredthsRest form most) part byte)
        (Follows (HundredthsRest form most) part byte) }
    ensures within { MatchOption result ⊤ (λ new. IsWithin most new) }
{
    match part {
        Part::Whole(progress) => {
            if byte == b'.' {
                return if whole_ends(most, progress) {
                    Some(Part::Dot(100 * whole_part(most, progress)))
                } else {
                    None
                };
            }
            match decimal::after(0, most / 100, progress, byte) {
                Some(new) => Some(Part::Whole(new)),
                None => None,
            }
        }
        Part::Dot(count) => match with_digit(count, 10, most, byte) {
            Some(new) => Some(Part::Tenth(new)),
            None => None,
        },
        Part::Tenth(count) => match with_digit(count, 1, most, byte) {
            Some(new) => Some(Part::Hundredth(new)),
            None => None,
        },
        Part::Hundredth(_) => None,
    }
}

impl HundredthsText {
    /// A token of the numbers of at most `most` hundredths, in the form.
    pub fn new(form: Spelling, most: u64) -> HundredthsText
        ensures spells { Spells ⟦<HundredthsText as Token>⟧.means result (λ rest h. IsHundredths form most h rest) }
        ensures size { ⟦<HundredthsText as Token>⟧.size result ≡ 0 }
    {
        HundredthsText {
            form,
            most,
            part: Part::Whole(Progress::Start),
        }
    }
}

impl Token for HundredthsText {
    type Out = Hundredths;

    ghost use Rattle.cg_text.specs.HundredthsLaws.{hundredths_completes, hundredths_ends_is, hundredths_one, hundredths_bytes};

    ghost means = { λ s rest h. HundredthsRest s.form s.most s.part rest h };

    ghost size = { λ _. 0 };

    ghost value_size = { λ _. 0 };

    ghost ends = { λ s. hundredths_ends s.form s.most s.part };

    ghost grows = { false };

    #[inline(always)]
    fn push(&mut self, bytes: &[u8]) -> Pushed {
        push_bytes(self, bytes)
    }

    fn whole(&self, bytes: &[u8]) -> Option<(Hundredths, usize)> {
        let mut token = *self;
        let count = token.push(bytes).used(bytes);
        if token.can_end() {
            Some((token.take(), count))
        } else {
            None
        }
    }

    fn allows(&self, byte: u8) -> bool {
        match after(self.form, self.most, self.part, byte) {
            Some(_) => true,
            None => false,
        }
    }

    fn can_end(&self) -> bool {
        match self.part {
            Part::Whole(progress) => {
                self.form.may_leave_out() && whole_ends(self.most, progress)
            }
            Part::Dot(_) => false,
            Part::Tenth(_) => self.form.may_leave_out(),
            Part::Hundredth(_) => true,
        }
    }

    fn held(&self) -> u64 {
        0
    }

    fn take(self) -> Hundredths {
        let count = match self.part {
            Part::Whole(progress) => 100 * whole_part(self.most, progress),
            Part::Tenth(count) | Part::Hundredth(count) => count,
            Part::Dot(_) => unreachable!(),
        };
        Hundredths { count }
    }

    fn held_in(_value: &Hundredths) -> u64 {
        0
    }

    ghost completes = { λ s. hundredths_completes s.form s.most s.part s.within };

    ghost no_size = { λ _ _. refl };

    ghost ends_is = { λ s. hundredths_ends_is s.form s.most s.part s.within };

    ghost one_value = { λ s. hundredths_one s.form s.most s.part };

    ghost holds_bytes = { λ s. hundredths_bytes s.form s.most s.part };
}

impl Steps for HundredthsText {
    type Value = Hundredths;

    ghost rests = { ⟦<HundredthsText as Token>⟧.means };

    ghost room = { ⟦<HundredthsText as Token>⟧.size };

    ghost grows = { ⟦<HundredthsText as Token>⟧.grows };

    #[inline(always)]
    fn take_byte(&mut self, byte: u8) -> Result<bool, OutOfMemory> {
        match after(self.form, self.most, self.part, byte) {
            Some(part) => {
                self.part = part;
                Ok(true)
            }
            None => Ok(false),
        }
    }
}
