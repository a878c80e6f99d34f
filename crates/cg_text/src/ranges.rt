//! The ranges of a list, be it strict or loose.
ghost use Rattle.std.specs.Prelude.{◌≡◌, ℕ, ◌+◌, ◌≤◌, ◌<◌, ◌||◌, true, List, [], ◌++◌, ◌∷◌, length, nat_eq, OnOk, OnErr, vec_len, vec_capacity};
ghost use Rattle.cg_text.specs.Token.{Spells};
ghost use Rattle.cg_text.specs.ListState.{AreTexts, IsListRest};
ghost use Rattle.cg_text.specs.RangesState.{front, IsListByte, after_comma_from, after_dash_from, number_rest};
ghost use Rattle.cg_text.specs.DecimalState.{decimal_ends};

use crate::decimal::DecimalText;
use crate::items::Items;
use crate::memory::{OutOfMemory, make_room};
use crate::pushed::Pushed;
use crate::steps::{Steps, push_bytes};
use crate::token::Token;
use std::alloc::Global;

/// Ranges as they come: in a strict list maximal and in order, in a loose one any.
#[derive(Drop)]
pub struct RangesText {
    strict: bool,
    most: u64,
    /// The ranges so far, and a place for the present one.
    ranges: Vec<(u32, u32)>,
    /// Where the present range begins, once its dash was taken.
    low: Option<u32>,
    number: DecimalText,
    ghost small: { most ≤ 4294967295 },
    ghost within: { (rest : List ℕ) (n : ℕ) → number_rest number rest n → n ≤ most },
    ghost fresh: { length ranges.items ≡ 0 → (n : ℕ) → number_rest number [] n → ⊥ },
}

/// What a byte does.
#[derive(Clone, Copy, Drop)]
pub enum ListByte {
    Digit(DecimalText),
    Comma(u64, DecimalText),
    Dash(u64, DecimalText),
    Refused,
}

/// The least number after one and a comma.
fn after_comma_from(strict: bool, end: u64) -> u64
    requires { end ≤ 4294967295 }
    ensures { result ≡ after_comma_from strict end }
{
    if strict { end + 2 } else { 0 }
}

/// The least number after one and a dash.
fn after_dash_from(strict: bool, end: u64) -> u64
    requires { end ≤ 4294967295 }
    ensures { result ≡ after_dash_from strict end }
{
    if strict { end + 1 } else { end }
}

/// What the byte does to a list with this number at hand. In a strict list ranges come in order, at least 2 apart, and
/// a pair's ends differ.
fn list_byte(strict: bool, most: u64, low: Option<u32>, number: DecimalText, byte: u8) -> ListByte
    requires small { most ≤ 4294967295 }
    requires within { (rest : List ℕ) (n : ℕ) → number_rest number rest n → n ≤ most }
    ensures turn { IsListByte strict most low number byte result }
{
    if let Some(next) = number.after(byte) {
        return ListByte::Digit(next);
    }
    if !number.can_end() {
        return ListByte::Refused;
    }
    let end = number.take();
    if byte == b',' {
        return match DecimalText::new(after_comma_from(strict, end), most) {
            Some(next) => ListByte::Comma(end, next),
            None => ListByte::Refused,
        };
    }
    if byte != b'-' {
        return ListByte::Refused;
    }
    match low {
        Some(_) => ListByte::Refused,
        None => match DecimalText::new(after_dash_from(strict, end), most) {
            Some(next) => ListByte::Dash(end, next),
            None => ListByte::Refused,
        },
    }
}

/// Sets the last range.
fn set_last(ranges: &mut Vec<(u32, u32)>, begin: u32, end: u32)
    requires { 0 < length ranges.old.items }
    ensures items { ranges.new.items ≡ front ranges.old.items ++ (begin, end) ∷ [] }
    ensures room { vec_len ranges.old < vec_capacity ranges.old → vec_len ranges.new < vec_capacity ranges.new }
{
    let last = ranges.len() - 1;
    ranges[last] = (begin, end);
}

/// Sets the last range, and begins another.
fn close(ranges: &mut Vec<(u32, u32)>, begin: u32, end: u32) -> Result<(), OutOfMemory>
    requires { 0 < length ranges.old.items }
    ensures closed { OnOk result (ranges.new.items ≡ (front ranges.old.items ++ (begin, end) ∷ []) ++ (0, 0) ∷ []) }
    ensures same { OnErr result (ranges.new.items ≡ ranges.old.items) }
{
    make_room(ranges)?;
    set_last(ranges, begin, end);
    ranges.push_reserved((0, 0));
    Ok(())
}

/// Begins the first range, where there is none.
fn open(ranges: &mut Vec<(u32, u32)>) -> Result<(), OutOfMemory>
    ensures opened { OnOk result ((front ranges.new.items ≡ front ranges.old.items) × (0 < length ranges.new.items)
        × (length ranges.new.items ≤ length ranges.old.items + 1)) }
    ensures same { OnErr result (ranges.new.items ≡ ranges.old.items) }
{
    if ranges.is_empty() {
        ranges.push((0, 0))?;
    }
    Ok(())
}

impl RangesText {
    /// A token of the ranges of such lists of numbers up to `most`. It takes no memory yet.
    pub fn new(alloc: Global, strict: bool, most: u32) -> RangesText
        ensures spells { Spells ⟦<RangesText as Token>⟧.means result (λ rest ranges. AreTexts strict most ranges rest) }
        ensures size { ⟦<RangesText as Token>⟧.size result ≡ 0 }
    {
        match DecimalText::new(0, u64::from(most)) {
            Some(number) => RangesText {
                strict,
                most: u64::from(most),
                ranges: Vec::new(alloc),
                low: None,
                number,
            },
            None => unreachable!(),
        }
    }
}

impl Token for RangesText {
    type Out = Items<(u32, u32)>;

    ghost use Rattle.cg_text.specs.RangesLaws.{true_not_false, rest_bytes};
    ghost use Rattle.cg_text.specs.DecimalLaws.{IsDecimalRest_completes, IsDecimalRest_one, decimal_ends_is, number_digits};
    ghost use Rattle.cg_text.specs.ListLaws.{list_completes, list_one, list_ends};

    ghost means = { λ s rest all. IsListRest s.strict s.ranges.items s.most s.low (number_rest s.number) rest all };

    ghost size = { λ s. length s.ranges.items };

    ghost value_size = { length };

    ghost ends = { λ s. nat_eq (length s.ranges.items) 0 || decimal_ends s.number.lo s.number.hi s.number.progress };

    ghost grows = { true };

    fn push(&mut self, bytes: &[u8]) -> Pushed {
        push_bytes(self, bytes)
    }

    fn allows(&self, byte: u8) -> bool {
        match list_byte(self.strict, self.most, self.low, self.number, byte) {
            ListByte::Refused => false,
            _ => true,
        }
    }

    fn can_end(&self) -> bool {
        let empty = self.ranges.is_empty();
        let ended = self.number.can_end();
        empty | ended
    }

    fn held(&self) -> u64 {
        self.ranges.len() as u64
    }

    fn take(self) -> Items<(u32, u32)> {
        let mut ranges = self.ranges;
        if !ranges.is_empty() {
            let end = self.number.take() as u32;
            let begin = match self.low {
                Some(low) => low,
                None => end,
            };
            set_last(&mut ranges, begin, end);
        }
        Items::of(ranges)
    }

    fn held_in(value: &Items<(u32, u32)>) -> u64 {
        value.as_slice().len() as u64
    }

    ghost completes = { λ s. list_completes s.strict s.ranges.items s.most s.low (number_rest s.number)
        (IsDecimalRest_completes s.number.lo s.number.hi s.number.progress s.number.range s.number.live) };

    ghost no_size = { λ e _. absurd (true_not_false e) };

    ghost ends_is = { λ s. list_ends s.strict s.ranges.items s.most s.low (number_rest s.number)
        (decimal_ends s.number.lo s.number.hi s.number.progress)
        (decimal_ends_is s.number.lo s.number.hi s.number.progress) };

    ghost one_value = { λ s. list_one s.strict s.most (number_rest s.number)
        (number_digits s.number.lo s.number.hi s.number.progress)
        (IsDecimalRest_one s.number.lo s.number.hi s.number.progress) s.ranges.items s.low s.fresh };

    ghost holds_bytes = { λ s rest all h. rest_bytes s.strict s.ranges.items s.most s.low (number_rest s.number)
        (number_digits s.number.lo s.number.hi s.number.progress) (λ rs. all ≡ front s.ranges.items ++ rs) rest h };
}

impl Steps for RangesText {
    type Value = Items<(u32, u32)>;

    ghost rests = { ⟦<RangesText as Token>⟧.means };

    ghost room = { ⟦<RangesText as Token>⟧.size };

    ghost grows = { ⟦<RangesText as Token>⟧.grows };

    fn take_byte(&mut self, byte: u8) -> Result<bool, OutOfMemory> {
        match list_byte(self.strict, self.most, self.low, self.number, byte) {
            ListByte::Digit(number) => {
                open(&mut self.ranges)?;
                self.number = number;
                Ok(true)
            }
            ListByte::Comma(end, number) => {
                let begin = match self.low {
                    Some(low) => low,
                    None => end as u32,
                };
                close(&mut self.ranges, begin, end as u32)?;
                self.low = None;
                self.number = number;
                Ok(true)
            }
            ListByte::Dash(end, number) => {
                self.low = Some(end as u32);
                self.number = number;
                Ok(true)
            }
            ListByte::Refused => Ok(false),
        }
    }

    fn take_run(&mut self, bytes: &[u8]) -> usize {
        let mut number = self.number;
        let count = number.push_digits(bytes);
        if count == 0 {
            return 0;
        }
        match open(&mut self.ranges) {
            Ok(()) => {
                self.number = number;
                count
            }
            Err(_) => 0,
        }
    }
}
