//! Decimal numbers of a range.
ghost use Rattle.std.specs.Prelude.{◌+◌, ◌*◌, ◌≤◌, ◌<◌, ◌↔◌, ◌≡◌, false, IsTrue, IfSome, MatchOption, ⊤, refl, ◌^◌, length, take};
ghost use Rattle.cg_text.specs.Decimal.{AreDigits, IsDecimal, read_on};
ghost use Rattle.cg_text.specs.DecimalState.{Reaches, IsDecimalRest, is_open, decimal_ends};
ghost use Rattle.cg_text.specs.Scan.{FollowsRun};
ghost use Rattle.cg_text.specs.declared.decimal.Progress.TheVariants.{Start};
ghost use Rattle.cg_text.specs.Token.{Follows, NoneBegins, Spells};

use crate::pushed::Pushed;
use crate::token::Token;

/// What was taken of a number.
#[derive(Clone, Copy, Drop)]
pub(crate) enum Progress {
    Start,
    Zero,
    /// A number above 0.
    Number(u64),
}

/// A decimal number from `lo` to `hi`, without leading zeros.
#[derive(Clone, Copy, Drop)]
pub struct DecimalText {
    lo: u64,
    hi: u64,
    progress: Progress,
    ghost range: { lo ≤ hi },
    ghost live: { IsTrue (is_open lo hi progress) },
}

/// Whether further digits after those of `n` give a number from `lo` to `hi`.
fn reaches(lo: u64, hi: u64, n: u128) -> bool
    requires above { 0 < n }
    requires small { n < 2 ^ 100 }
    ensures reaches { IsTrue result ↔ Reaches lo hi n }
    ensures fits { IsTrue result → n ≤ hi }
{
    let mut low = n;
    let mut high = n + 1;
    while high <= lo as u128 {
        low *= 10;
        high *= 10;
    }
    low <= hi as u128
}

/// The state after one more byte, where some rest begins with it.
pub(crate) fn after(lo: u64, hi: u64, progress: Progress, byte: u8) -> Option<Progress>
    requires range { lo ≤ hi }
    requires live { IsTrue (is_open lo hi progress) }
    ensures follows { MatchOption result (NoneBegins (IsDecimalRest lo hi) progress byte)
        (Follows (IsDecimalRest lo hi) progress byte) }
    ensures live { MatchOption result ⊤ (λ new. IsTrue (is_open lo hi new)) }
{
    if !byte.is_ascii_digit() {
        return None;
    }
    let digit = byte - b'0';
    let number = match progress {
        Progress::Start => {
            if digit == 0 {
                return if lo == 0 { Some(Progress::Zero) } else { None };
            }
            digit as u128
        }
        Progress::Zero => return None,
        Progress::Number(n) => n as u128 * 10 + digit as u128,
    };
    if reaches(lo, hi, number) {
        Some(Progress::Number(number as u64))
    } else {
        None
    }
}

/// Takes digits in front of `bytes` while any digit after those of `n` gives a number up to `hi`. Returns the number,
/// and how many it took.
#[inline(always)]
fn take_digits(hi: u64, n: u64, bytes: &[u8]) -> (u64, usize)
    requires { n ≤ hi }
    ensures within { result.1 ≤ length bytes.now }
    ensures digits { AreDigits (take result.1 bytes.now) }
    ensures number { result.0 ≡ read_on n (take result.1 bytes.now) }
    ensures low { n ≤ result.0 }
    ensures high { result.0 ≤ hi }
{
    let room = hi / 10;
    let mut number = n;
    for (i, byte) in bytes.iter().enumerate() {
        if !byte.is_ascii_digit() || number >= room {
            return (number, i);
        }
        number = number * 10 + (*byte - b'0') as u64;
    }
    (number, bytes.len())
}

/// The state after more digits, and how many: all that lead to a number of the range, or none.
fn after_digits(lo: u64, hi: u64, progress: Progress, bytes: &[u8]) -> (Progress, usize)
    requires live { IsTrue (is_open lo hi progress) }
    ensures within { result.1 ≤ length bytes.now }
    ensures follows { FollowsRun (IsDecimalRest lo hi) progress (take result.1 bytes.now) result.0 }
    ensures live { IsTrue (is_open lo hi result.0) }
{
    match progress {
        Progress::Number(n) => {
            if hi < n {
                return (progress, 0);
            }
            let (number, count) = take_digits(hi, n, bytes);
            if number < lo {
                return (progress, 0);
            }
            (Progress::Number(number), count)
        }
        _ => (progress, 0),
    }
}

/// The state after the digits of a number, and how many these are: all in front of `bytes`, if they are a number of the
/// range, or none.
#[inline(always)]
fn begun_digits(lo: u64, hi: u64, bytes: &[u8]) -> (Progress, usize)
    requires range { lo ≤ hi }
    ensures within { result.1 ≤ length bytes.now }
    ensures follows { FollowsRun (IsDecimalRest lo hi) Start (take result.1 bytes.now) result.0 }
    ensures live { IsTrue (is_open lo hi result.0) }
{
    let (first, rest) = match bytes.split_first() {
        Some(parts) => parts,
        None => return (Progress::Start, 0),
    };
    if *first < b'1' || *first > b'9' || hi < (*first - b'0') as u64 {
        return (Progress::Start, 0);
    }
    let (number, count) = take_digits(hi, (*first - b'0') as u64, rest);
    if number < lo {
        return (Progress::Start, 0);
    }
    (Progress::Number(number), count + 1)
}

/// The number of the range in front of `bytes`, and how many digits it has. It may find none where there is one.
#[inline(always)]
pub(crate) fn number_in_front(lo: u64, hi: u64, bytes: &[u8]) -> Option<(u64, usize)>
    requires range { lo ≤ hi }
    ensures { IfSome result (λ r. (r.1 ≤ length bytes.now) × IsDecimal lo hi r.0 (take r.1 bytes.now)) }
{
    if lo == 0 && bytes.first() == Some(&b'0') {
        return Some((0, 1));
    }
    let (progress, count) = begun_digits(lo, hi, bytes);
    match progress {
        Progress::Number(number) if lo <= number && number <= hi => Some((number, count)),
        _ => None,
    }
}

impl DecimalText {
    /// A token of the numbers from `lo` to `hi`, unless there are none.
    pub fn new(lo: u64, hi: u64) -> Option<DecimalText>
        ensures { MatchOption result (hi < lo)
            (λ token. (lo ≤ hi) × Spells ⟦<DecimalText as Token>⟧.means token (λ rest n. IsDecimal lo hi n rest)) }
    {
        if lo <= hi {
            Some(DecimalText {
                lo,
                hi,
                progress: Progress::Start,
            })
        } else {
            None
        }
    }

    /// The token behind the byte, where some rest begins with it.
    #[inline(always)]
    pub(crate) fn after(self, byte: u8) -> Option<DecimalText>
        ensures { MatchOption result (NoneBegins ⟦<DecimalText as Token>⟧.means self byte)
            (Follows ⟦<DecimalText as Token>⟧.means self byte) }
    {
        match after(self.lo, self.hi, self.progress, byte) {
            Some(progress) => Some(DecimalText {
                lo: self.lo,
                hi: self.hi,
                progress,
            }),
            None => None,
        }
    }

    /// Takes digits from the front, and answers how many. It may leave some that `push` would take.
    #[inline(always)]
    pub(crate) fn push_digits(&mut self, bytes: &[u8]) -> usize
        ensures within { result ≤ length bytes.now }
        ensures bounds { (self.new.lo ≡ self.old.lo) × (self.new.hi ≡ self.old.hi) }
        ensures follows { FollowsRun ⟦<DecimalText as Token>⟧.means self.old (take result bytes.now) self.new }
    {
        let (begun, count) = match self.progress {
            Progress::Start => begun_digits(self.lo, self.hi, bytes),
            _ => after_digits(self.lo, self.hi, self.progress, bytes),
        };
        self.progress = begun;
        count
    }
}

impl Token for DecimalText {
    ghost use Rattle.cg_text.specs.DecimalLaws.{digits_bytes, number_digits};
    ghost use Rattle.cg_text.specs.DecimalLaws.{IsDecimalRest_completes, IsDecimalRest_one, decimal_ends_is};

    type Out = u64;

    ghost means = { λ s rest n. IsDecimalRest s.lo s.hi s.progress rest n };

    ghost size = { λ _. 0 };

    ghost value_size = { λ _. 0 };

    ghost ends = { λ s. decimal_ends s.lo s.hi s.progress };

    ghost grows = { false };

    fn push(&mut self, bytes: &[u8]) -> Pushed {
        let mut used = self.push_digits(bytes);
        while used < bytes.len() {
            match after(self.lo, self.hi, self.progress, bytes[used]) {
                Some(progress) => self.progress = progress,
                None => return Pushed::Refused(used),
            }
            used += 1;
        }
        Pushed::All
    }

    #[inline(always)]
    fn whole(&self, bytes: &[u8]) -> Option<(u64, usize)> {
        // A `max` stands where a number may, so mostly the first byte tells.
        if bytes.is_empty() || !bytes[0].is_ascii_digit() {
            return None;
        }
        if let Progress::Start = self.progress {
            if let Some(found) = number_in_front(self.lo, self.hi, bytes) {
                return Some(found);
            }
        }
        let mut token = *self;
        let count = token.push(bytes).used(bytes);
        if token.can_end() {
            Some((token.take(), count))
        } else {
            None
        }
    }

    fn allows(&self, byte: u8) -> bool {
        match after(self.lo, self.hi, self.progress, byte) {
            Some(_) => true,
            None => false,
        }
    }

    fn can_end(&self) -> bool {
        match self.progress {
            Progress::Start => false,
            Progress::Zero => true,
            Progress::Number(n) => self.lo <= n && n <= self.hi,
        }
    }

    fn held(&self) -> u64 {
        0
    }

    fn take(self) -> u64 {
        match self.progress {
            Progress::Number(n) => n,
            _ => 0,
        }
    }

    fn held_in(_value: &u64) -> u64 {
        0
    }

    ghost completes = { λ s. IsDecimalRest_completes s.lo s.hi s.progress s.range s.live };

    ghost no_size = { λ _ _. refl };

    ghost ends_is = { λ s. decimal_ends_is s.lo s.hi s.progress };

    ghost one_value = { λ s. IsDecimalRest_one s.lo s.hi s.progress };

    ghost holds_bytes = { λ s rest n h. digits_bytes rest (number_digits s.lo s.hi s.progress rest n h) };
}
