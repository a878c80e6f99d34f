//! The times of a pressure trigger.
ghost use Rattle.std.specs.Prelude.{◌≡◌, ◌<◌, false, refl};
ghost use Rattle.cg_text.specs.Token.{Spells};
ghost use Rattle.cg_text.specs.Trigger.{AreTimes};
ghost use Rattle.cg_text.specs.RangesState.{number_rest};
ghost use Rattle.cg_text.specs.TriggerState.{TimesRest, IsTimesByte, times_end, IsWithin};
ghost use Rattle.cg_text.specs.DecimalState.{decimal_ends};

use crate::byte::behind_space;
use crate::decimal::{DecimalText, number_in_front};
use crate::memory::OutOfMemory;
use crate::pushed::Pushed;
use crate::steps::{Steps, push_bytes};
use crate::token::Token;

/// A stall within a window, in microseconds.
#[derive(Clone, Copy, Debug, PartialEq, Eq)]
pub struct Times {
    pub stall: u64,
    pub window: u64,
}

/// The longest window, in microseconds.
const LONGEST: u64 = 10000000;

/// A stall and a window with a space between: at least 1, at most 10000000, and the stall no longer than the window.
#[derive(Clone, Copy, Drop)]
pub struct TriggerText {
    /// The stall, once the space was taken.
    stall: Option<u64>,
    number: DecimalText,
    ghost within: { IsWithin (number_rest number) },
}

/// What a byte does.
#[derive(Clone, Copy, Drop)]
enum TimesByte {
    Digit(DecimalText),
    Space(u64, DecimalText),
    Refused,
}

impl TriggerText {
    /// A token of a stall and a window.
    pub fn new() -> TriggerText
        ensures spells { Spells ⟦<TriggerText as Token>⟧.means result (λ rest times. AreTimes times rest) }
        ensures size { ⟦<TriggerText as Token>⟧.size result ≡ 0 }
    {
        match DecimalText::new(1, LONGEST) {
            Some(number) => TriggerText {
                stall: None,
                number,
            },
            None => unreachable!(),
        }
    }

    /// What the byte does.
    fn turn(&self, byte: u8) -> TimesByte
        ensures turn { IsTimesByte self.now.stall self.now.number byte result }
    {
        let mut number = self.number;
        match number.step(byte) {
            Ok(true) => return TimesByte::Digit(number),
            Ok(false) => {}
            Err(_) => unreachable!(),
        }
        if byte != b' ' {
            return TimesByte::Refused;
        }
        if !self.number.can_end() {
            return TimesByte::Refused;
        }
        let stall = self.number.take();
        match self.stall {
            Some(_) => TimesByte::Refused,
            None => match DecimalText::new(stall, LONGEST) {
                Some(number) => TimesByte::Space(stall, number),
                None => TimesByte::Refused,
            },
        }
    }
}

impl Token for TriggerText {
    type Out = Times;

    ghost use Rattle.cg_text.specs.DecimalLaws.{IsDecimalRest_completes, IsDecimalRest_one, decimal_ends_is, number_digits};
    ghost use Rattle.cg_text.specs.TriggerLaws.{times_complete, times_end_is, times_one, times_bytes};

    ghost means = { λ s rest times. TimesRest s.stall (number_rest s.number) rest times };

    ghost size = { λ _. 0 };

    ghost value_size = { λ _. 0 };

    ghost ends = { λ s. times_end s.stall (decimal_ends s.number.lo s.number.hi s.number.progress) };

    ghost grows = { false };

    fn push(&mut self, bytes: &[u8]) -> Pushed {
        push_bytes(self, bytes)
    }

    fn whole(&self, bytes: &[u8]) -> Option<(Times, usize)> {
        if self.stall.is_some() {
            return None;
        }
        let (stall, count) = match self.number.whole(bytes) {
            Some(found) => found,
            None => return None,
        };
        let (_, rest) = bytes.split_at(count);
        let behind = match behind_space(rest) {
            Some(behind) => behind,
            None => return None,
        };
        match number_in_front(stall, LONGEST, behind) {
            Some((window, more)) => Some((Times { stall, window }, count + 1 + more)),
            None => None,
        }
    }

    fn allows(&self, byte: u8) -> bool {
        match self.turn(byte) {
            TimesByte::Refused => false,
            _ => true,
        }
    }

    fn can_end(&self) -> bool {
        match self.stall {
            Some(_) => self.number.can_end(),
            None => false,
        }
    }

    fn held(&self) -> u64 {
        0
    }

    fn take(self) -> Times {
        match self.stall {
            Some(stall) => Times {
                stall,
                window: self.number.take(),
            },
            None => unreachable!(),
        }
    }

    fn held_in(_value: &Times) -> u64 {
        0
    }

    ghost completes = { λ s. times_complete s.stall (number_rest s.number) s.within
        (IsDecimalRest_completes s.number.lo s.number.hi s.number.progress s.number.range s.number.live) };

    ghost no_size = { λ _ _. refl };

    ghost ends_is = { λ s. times_end_is s.stall (number_rest s.number)
        (decimal_ends s.number.lo s.number.hi s.number.progress)
        (decimal_ends_is s.number.lo s.number.hi s.number.progress) };

    ghost one_value = { λ s. times_one s.stall (number_rest s.number)
        (number_digits s.number.lo s.number.hi s.number.progress)
        (IsDecimalRest_one s.number.lo s.number.hi s.number.progress) };

    ghost holds_bytes = { λ s. times_bytes s.stall (number_rest s.number)
        (number_digits s.number.lo s.number.hi s.number.progress) };
}

impl Steps for TriggerText {
    type Value = Times;

    ghost rests = { ⟦<TriggerText as Token>⟧.means };

    ghost room = { ⟦<TriggerText as Token>⟧.size };

    ghost grows = { ⟦<TriggerText as Token>⟧.grows };

    fn take_byte(&mut self, byte: u8) -> Result<bool, OutOfMemory> {
        match self.turn(byte) {
            TimesByte::Digit(number) => {
                self.number = number;
                Ok(true)
            }
            TimesByte::Space(stall, number) => {
                self.stall = Some(stall);
                self.number = number;
                Ok(true)
            }
            TimesByte::Refused => Ok(false),
        }
    }
}
