//! The pairs of a write of `io.max`.
ghost use Rattle.std.specs.Prelude.{◌≡◌, ℕ, ◌+◌, ◌<◌, ◌≤◌, ◌↔◌, false, List, [], ◌∷◌, length, take, IsTrue, IfSome, MatchOption, refl};
ghost use Rattle.cg_text.specs.Token.{Follows, NoneBegins, Spells};
ghost use Rattle.cg_text.specs.Limit.{IsLimit};
ghost use Rattle.cg_text.specs.LimitPairs.{AreLimits};
ghost use Rattle.cg_text.specs.LimitPairsState.{key_start, is_none, is_free, with_limit, LimitRest, LimitsRest, limit_ends, limits_end, is_live, GoesOn, IsNextPart, IsNewPair, IsFreeKey};
ghost use Rattle.cg_text.specs.declared.pairs.LimitKey.TheVariants.{Rbps as FirstKey};
ghost use Rattle.cg_text.specs.declared.pairs.PairPart.TheVariants.{InKey as KeyPart};

use crate::byte::behind_space;
use crate::decimal::{DecimalText, number_in_front};
use crate::memory::OutOfMemory;
use crate::pushed::Pushed;
use crate::steps::{Steps, push_bytes};
use crate::token::Token;
use crate::values::Limit;

/// A key of `io.max`: bytes or operations per second, read or written.
#[derive(Clone, Copy, Debug, PartialEq, Eq)]
pub enum LimitKey {
    Rbps,
    Wbps,
    Riops,
    Wiops,
}

/// The limits that a write of `io.max` gives.
#[derive(Clone, Copy, Debug, PartialEq, Eq)]
pub struct LimitPairs {
    pub rbps: Option<Limit>,
    pub wbps: Option<Limit>,
    pub riops: Option<Limit>,
    pub wiops: Option<Limit>,
}

/// What was taken of a limit.
#[derive(Clone, Copy, Drop)]
enum LimitPart {
    Start,
    /// So many bytes of `max`.
    Word(usize),
    Number(DecimalText),
}

/// What was taken of a pair.
#[derive(Clone, Copy, Drop)]
enum PairPart {
    /// So many bytes of this key and its `=`, which may be those of another key too.
    InKey(LimitKey, usize),
    InLimit(LimitKey, LimitPart),
}

/// One to four of `rbps=`, `wbps=`, `riops=` and `wiops=`, each with a limit of at least 1, with single spaces between,
/// no key twice.
#[derive(Clone, Copy, Drop)]
pub struct LimitPairsText {
    given: LimitPairs,
    part: PairPart,
    ghost live: { IsTrue (is_live given part) },
}

/// The key's text with its `=`.
fn key_start(key: LimitKey) -> &'static [u8]
    ensures { result.now ≡ key_start key }
{
    match key {
        LimitKey::Rbps => b"rbps=",
        LimitKey::Wbps => b"wbps=",
        LimitKey::Riops => b"riops=",
        LimitKey::Wiops => b"wiops=",
    }
}

/// Whether the limit isn't given.
fn is_none(limit: Option<Limit>) -> bool
    ensures { result ≡ is_none limit }
{
    match limit {
        Some(_) => false,
        None => true,
    }
}

/// Whether the key's limit isn't given.
fn is_free(key: LimitKey, given: LimitPairs) -> bool
    ensures { result ≡ is_free key given }
{
    match key {
        LimitKey::Rbps => is_none(given.rbps),
        LimitKey::Wbps => is_none(given.wbps),
        LimitKey::Riops => is_none(given.riops),
        LimitKey::Wiops => is_none(given.wiops),
    }
}

/// The limits with one more.
fn with_limit(key: LimitKey, limit: Limit, given: LimitPairs) -> LimitPairs
    ensures { result ≡ with_limit key limit given }
{
    let mut all = given;
    match key {
        LimitKey::Rbps => all.rbps = Some(limit),
        LimitKey::Wbps => all.wbps = Some(limit),
        LimitKey::Riops => all.riops = Some(limit),
        LimitKey::Wiops => all.wiops = Some(limit),
    }
    all
}

/// A key whose limit isn't given.
fn free_key(given: LimitPairs) -> Option<LimitKey>
    ensures { MatchOption result ((key : LimitKey) → is_free key given ≡ false) (λ key. IsTrue (is_free key given)) }
{
    if is_free(LimitKey::Rbps, given) {
        return Some(LimitKey::Rbps);
    }
    if is_free(LimitKey::Wbps, given) {
        return Some(LimitKey::Wbps);
    }
    if is_free(LimitKey::Riops, given) {
        return Some(LimitKey::Riops);
    }
    if is_free(LimitKey::Wiops, given) {
        return Some(LimitKey::Wiops);
    }
    None
}

/// Whether the key isn't given, and has the first `at` bytes of `like` and then the byte.
fn goes_on(given: LimitPairs, like: LimitKey, at: usize, byte: u8, key: LimitKey) -> bool
    requires { at < length (key_start like) }
    ensures { IsTrue result ↔ GoesOn given like at byte key }
{
    let text = key_start(key);
    if !is_free(key, given) {
        return false;
    }
    if at >= text.len() {
        return false;
    }
    if text[at] != byte {
        return false;
    }
    text[..at] == key_start(like)[..at]
}

/// A key that goes on with the byte.
fn next_key(given: LimitPairs, like: LimitKey, at: usize, byte: u8) -> Option<LimitKey>
    requires { at < length (key_start like) }
    ensures { MatchOption result ((key : LimitKey) → GoesOn given like at byte key → ⊥)
        (λ key. GoesOn given like at byte key) }
{
    if goes_on(given, like, at, byte, LimitKey::Rbps) {
        return Some(LimitKey::Rbps);
    }
    if goes_on(given, like, at, byte, LimitKey::Wbps) {
        return Some(LimitKey::Wbps);
    }
    if goes_on(given, like, at, byte, LimitKey::Riops) {
        return Some(LimitKey::Riops);
    }
    if goes_on(given, like, at, byte, LimitKey::Wiops) {
        return Some(LimitKey::Wiops);
    }
    None
}

/// What a digit does to a limit that is a number.
fn number_after(number: DecimalText, byte: u8) -> Option<LimitPart>
    ensures { MatchOption result (NoneBegins LimitRest (LimitPart.Number number) byte)
        (Follows LimitRest (LimitPart.Number number) byte) }
{
    let mut next = number;
    match next.step(byte) {
        Ok(true) => Some(LimitPart::Number(next)),
        Ok(false) => None,
        Err(_) => unreachable!(),
    }
}

/// What the byte does to a limit.
fn limit_after(part: LimitPart, byte: u8) -> Option<LimitPart>
    ensures { MatchOption result (NoneBegins LimitRest part byte) (Follows LimitRest part byte) }
{
    match part {
        LimitPart::Start => {
            if byte == b'm' {
                return Some(LimitPart::Word(1));
            }
            match DecimalText::new(1, u64::MAX) {
                Some(number) => number_after(number, byte),
                None => unreachable!(),
            }
        }
        LimitPart::Word(at) => {
            if at < 3 && b"max"[at] == byte {
                Some(LimitPart::Word(at + 1))
            } else {
                None
            }
        }
        LimitPart::Number(number) => number_after(number, byte),
    }
}

/// Whether the limit is whole.
fn limit_ends(part: LimitPart) -> bool
    ensures { result ≡ limit_ends part }
{
    match part {
        LimitPart::Start => false,
        LimitPart::Word(at) => 3 <= at,
        LimitPart::Number(number) => number.can_end(),
    }
}

/// The limit, which is whole.
fn limit_value(part: LimitPart) -> Limit
    requires { IsTrue (limit_ends part) }
    ensures { LimitRest part [] result }
{
    match part {
        LimitPart::Number(number) => Limit::At(number.take()),
        _ => Limit::Max,
    }
}

/// What the byte does to a key.
fn key_after(
    given: LimitPairs,
    like: LimitKey,
    at: usize,
    byte: u8,
) -> Option<(LimitPairs, PairPart)>
    requires { IsTrue (is_live given (PairPart.InKey like at)) }
    ensures { MatchOption result
        ((rest : List ℕ) (v : LimitPairs) → LimitsRest given (PairPart.InKey like at) (byte ∷ rest) v → ⊥)
        (λ new. IsNextPart given (PairPart.InKey like at) byte new.0 new.1) }
{
    match next_key(given, like, at, byte) {
        Some(key) => {
            if at + 1 == key_start(key).len() {
                Some((given, PairPart::InLimit(key, LimitPart::Start)))
            } else {
                Some((given, PairPart::InKey(key, at + 1)))
            }
        }
        None => None,
    }
}

/// What a space does to a limit: it ends it, where a key is left.
fn close(given: LimitPairs, key: LimitKey, part: LimitPart) -> Option<(LimitPairs, PairPart)>
    requires { IsTrue (is_live given (PairPart.InLimit key part)) }
    ensures { MatchOption result
        ((rest : List ℕ) (v : LimitPairs) → LimitsRest given (PairPart.InLimit key part) (32 ∷ rest) v → ⊥)
        (λ new. IsNextPart given (PairPart.InLimit key part) 32 new.0 new.1) }
{
    if !limit_ends(part) {
        return None;
    }
    let limit = limit_value(part);
    let all = with_limit(key, limit, given);
    match free_key(all) {
        Some(next) => Some((all, PairPart::InKey(next, 0))),
        None => None,
    }
}

/// What the byte does.
fn after(given: LimitPairs, part: PairPart, byte: u8) -> Option<(LimitPairs, PairPart)>
    requires { IsTrue (is_live given part) }
    ensures { MatchOption result ((rest : List ℕ) (v : LimitPairs) → LimitsRest given part (byte ∷ rest) v → ⊥)
        (λ new. IsNextPart given part byte new.0 new.1) }
{
    match part {
        PairPart::InKey(like, at) => key_after(given, like, at, byte),
        PairPart::InLimit(key, limit) => {
            if byte == b' ' {
                return close(given, key, limit);
            }
            match limit_after(limit, byte) {
                Some(next) => Some((given, PairPart::InLimit(key, next))),
                None => None,
            }
        }
    }
}

/// Whether the key's text with its `=` is in front of `bytes`, and its limit isn't given.
fn is_free_key(given: LimitPairs, key: LimitKey, bytes: &[u8]) -> bool
    ensures { IsTrue result → IsFreeKey given key bytes.now }
{
    bytes.starts_with(key_start(key)) && is_free(key, given)
}

/// The key in front of `bytes` whose limit isn't given.
fn key_in_front(given: LimitPairs, bytes: &[u8]) -> Option<LimitKey>
    ensures { IfSome result (λ key. IsFreeKey given key bytes.now) }
{
    if is_free_key(given, LimitKey::Rbps, bytes) {
        return Some(LimitKey::Rbps);
    }
    if is_free_key(given, LimitKey::Wbps, bytes) {
        return Some(LimitKey::Wbps);
    }
    if is_free_key(given, LimitKey::Riops, bytes) {
        return Some(LimitKey::Riops);
    }
    if is_free_key(given, LimitKey::Wiops, bytes) {
        return Some(LimitKey::Wiops);
    }
    None
}

/// The limit in front of `bytes`, and its length. It may find none where there is one.
fn limit_in_front(bytes: &[u8]) -> Option<(Limit, usize)>
    ensures { IfSome result (λ r. (r.1 ≤ length bytes.now) × IsLimit 1 18446744073709551615 r.0 (take r.1 bytes.now)) }
{
    if bytes.starts_with(b"max") {
        return Some((Limit::Max, 3));
    }
    match number_in_front(1, u64::MAX, bytes) {
        Some((number, count)) => Some((Limit::At(number), count)),
        None => None,
    }
}

/// The pair in front of `bytes` whose limit isn't given, and its length. It may find none where there is one.
fn pair_in_front(given: LimitPairs, bytes: &[u8]) -> Option<((LimitKey, Limit), usize)>
    ensures { IfSome result (λ r. (r.1 ≤ length bytes.now) × IsNewPair given r.0 (take r.1 bytes.now)) }
{
    let key = match key_in_front(given, bytes) {
        Some(key) => key,
        None => return None,
    };
    let start = key_start(key).len();
    let (_, rest) = bytes.split_at(start);
    match limit_in_front(rest) {
        Some((limit, count)) => Some(((key, limit), start + count)),
        None => None,
    }
}

/// The limits with those of the pairs in front of `bytes`, and how long these are. It may find none where some are.
fn pairs_in_front(given: LimitPairs, bytes: &[u8]) -> Option<(LimitPairs, usize)>
    ensures { IfSome result
        (λ r. (r.1 ≤ length bytes.now) × LimitsRest given (KeyPart FirstKey 0) (take r.1 bytes.now) r.0) }
{
    let (pair, count) = match pair_in_front(given, bytes) {
        Some(found) => found,
        None => return None,
    };
    let all = with_limit(pair.0, pair.1, given);
    let (_, rest) = bytes.split_at(count);
    match behind_space(rest) {
        Some(behind) => match pairs_in_front(all, behind) {
            Some((limits, more)) => Some((limits, count + 1 + more)),
            None => Some((all, count)),
        },
        None => Some((all, count)),
    }
}

impl LimitPairsText {
    /// A token of one to four limits.
    pub fn new() -> LimitPairsText
        ensures spells { Spells ⟦<LimitPairsText as Token>⟧.means result (λ rest limits. AreLimits limits rest) }
        ensures size { ⟦<LimitPairsText as Token>⟧.size result ≡ 0 }
    {
        LimitPairsText {
            given: LimitPairs {
                rbps: None,
                wbps: None,
                riops: None,
                wiops: None,
            },
            part: PairPart::InKey(LimitKey::Rbps, 0),
        }
    }
}

impl Token for LimitPairsText {
    type Out = LimitPairs;

    ghost use Rattle.cg_text.specs.LimitPairsLaws.{limits_complete, limits_end_is, limits_one, limits_bytes};

    ghost means = { λ s rest limits. LimitsRest s.given s.part rest limits };

    ghost size = { λ _. 0 };

    ghost value_size = { λ _. 0 };

    ghost ends = { λ s. limits_end s.part };

    ghost grows = { false };

    fn push(&mut self, bytes: &[u8]) -> Pushed {
        push_bytes(self, bytes)
    }

    fn whole(&self, bytes: &[u8]) -> Option<(LimitPairs, usize)> {
        match self.part {
            PairPart::InKey(_, 0) => pairs_in_front(self.given, bytes),
            _ => None,
        }
    }

    fn allows(&self, byte: u8) -> bool {
        match after(self.given, self.part, byte) {
            Some(_) => true,
            None => false,
        }
    }

    fn can_end(&self) -> bool {
        match self.part {
            PairPart::InKey(_, _) => false,
            PairPart::InLimit(_, limit) => limit_ends(limit),
        }
    }

    fn held(&self) -> u64 {
        0
    }

    fn take(self) -> LimitPairs {
        match self.part {
            PairPart::InKey(_, _) => unreachable!(),
            PairPart::InLimit(key, limit) => with_limit(key, limit_value(limit), self.given),
        }
    }

    fn held_in(_value: &LimitPairs) -> u64 {
        0
    }

    ghost completes = { λ s. limits_complete s.given s.part s.live };

    ghost no_size = { λ _ _. refl };

    ghost ends_is = { λ s. limits_end_is s.given s.part s.live };

    ghost one_value = { λ s. limits_one s.given s.part };

    ghost holds_bytes = { λ s. limits_bytes s.given s.part };
}

impl Steps for LimitPairsText {
    type Value = LimitPairs;

    ghost rests = { ⟦<LimitPairsText as Token>⟧.means };

    ghost room = { ⟦<LimitPairsText as Token>⟧.size };

    ghost grows = { ⟦<LimitPairsText as Token>⟧.grows };

    fn take_byte(&mut self, byte: u8) -> Result<bool, OutOfMemory> {
        match after(self.given, self.part, byte) {
            Some((given, part)) => {
                self.given = given;
                self.part = part;
                Ok(true)
            }
            None => Ok(false),
        }
    }
}
