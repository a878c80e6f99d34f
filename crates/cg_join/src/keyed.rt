//! Any number of lines of a key and what follows it, the keys all different: the flat keyed and the nested keyed
//! files of cgroup v2 (cgroup-v2.rst, "Interface Files", "Format").
ghost use Rattle.std.specs.Prelude.{◌≡◌, ◌+◌, ◌≤◌, ◌<◌, ◌↔◌, true, false, not, ◌&&◌, Some, [], ◌∷◌, ◌++◌, IsTrue, IsFalse, map, length, take, IfSome, OnErr};
ghost use Rattle.cg_text.specs.Scan.{FollowsRun};
ghost use Rattle.cg_text.specs.Token.{Begins, Follows, IfRefused, IfTaken, NoneBegins, Same, Spells, UnlessTaken};
ghost use Rattle.cg_text.specs.WordState.{is_taken};
ghost use Rattle.cg_join.specs.Distinct.{AreDistinct, any_value};
ghost use Rattle.cg_join.specs.DistinctLaws.{AreDistinct_prop};
ghost use Rattle.cg_join.specs.Keyed.{AreKeyedLines, IsKeyed, IsPairOf};
ghost use Rattle.cg_join.specs.KeyedState.{AreKeyedAfter, KeyedRest, is_begun, is_delimited, kept_keys};
ghost use Rattle.cg_join.specs.Line.{LacksByte};
ghost use Rattle.cg_join.specs.Repeat.{items_size};
ghost use Rattle.cg_join.specs.Spelling.{IsMappedText};
ghost use Rattle.cg_join.specs.WordStartLaws.{SpellsWord};
ghost use Rattle.cg_join.specs.declared.pairs.Stage.TheVariants.{Before, InWord, InValue};

use crate::collection::Collection;
use crate::make_token::MakeToken;
use crate::make_value::MakeValue;
use crate::pairing::renew;
use crate::pairs::Stage;
use crate::store::{held_in_all, put};
use crate::words::WordStart;
use cg_text::{
    Key, OutOfMemory, Pushed, Steps, Token, WordText, make_room, push_bytes, push_count,
};
use std::alloc::Global;

/// Any number of lines, also none, each a key, what follows it and an end: `KEY VAL` or `KEY SUB=VAL SUB=VAL`, and
/// a newline. A delimiter, which no key has, begins what follows; where a key may stand alone, nothing follows it.
/// No key comes twice: one may be followed by the delimiter or the end only where it is new.
#[derive(Drop)]
pub struct KeyedLines<V: Token, B: MakeValue<V>, C: Collection<V>> {
    keys: WordStart,
    values: B,
    delimiter: u8,
    end: u8,
    pairs: C,
    /// The key of the line at hand, once the delimiter has ended it, and nothing else.
    ended: Vec<Key>,
    stage: Stage,
    key: WordText,
    value: V,
    ghost key_delimiter: { LacksByte (⟦<WordText as Token>⟧.means key) delimiter },
    ghost key_end: { LacksByte (⟦<WordText as Token>⟧.means key) end },
    ghost keys_delimiter: { LacksByte (SpellsWord keys.controller) delimiter },
    ghost keys_end: { LacksByte (SpellsWord keys.controller) end },
    ghost value_end: { LacksByte (V.means value) end },
    ghost values_end: { LacksByte (B.texts values) end },
    ghost apart: { delimiter ≡ end → ⊥ },
    ghost small_delimiter: { delimiter < 256 },
    ghost small_end: { end < 256 },
    ghost new_key: { IsFalse (is_begun stage) → ⟦<WordText as Token>⟧.size key ≡ 0 },
    ghost new_value: { IsFalse (is_delimited stage) → V.size value ≡ 0 },
    ghost kept: { length ended.items ≡ kept_keys (is_delimited stage) },
    ghost distinct: { AreDistinct (map C.key_of (C.pairs_of pairs) ++ ended.items) } by { AreDistinct_prop (map C.key_of (C.pairs_of pairs) ++ ended.items) },
}

impl<V: Token, B: MakeValue<V>, C: Collection<V>> KeyedLines<V, B, C> {
    /// Any number of lines of a key and a value, whose tokens are made by `keys` and `values`. The pairs are
    /// put into `pairs`, which has none.
    pub fn new(
        alloc: Global,
        keys: WordStart,
        values: B,
        delimiter: u8,
        end: u8,
        pairs: C,
    ) -> KeyedLines<V, B, C>
        requires keys_delimiter { LacksByte (SpellsWord keys.controller) delimiter }
        requires keys_end { LacksByte (SpellsWord keys.controller) end }
        requires values_end { LacksByte (B.texts values) end }
        requires apart { delimiter ≡ end → ⊥ }
        requires empty { C.pairs_of pairs ≡ [] }
        ensures spells { Spells ⟦<KeyedLines<V, B, C> as Token>⟧.means result
            (IsMappedText (AreKeyedLines C.key_of
            (IsKeyed C.key_of C.value_of (SpellsWord keys.controller) (B.texts values)
            (B.bare_value values) delimiter) end) C.given) }
        ensures size { ⟦<KeyedLines<V, B, C> as Token>⟧.size result ≡ C.size pairs }
    {
        let key = keys.start();
        let value = values.start();
        KeyedLines {
            keys,
            values,
            delimiter,
            end,
            pairs,
            ended: Vec::new(alloc),
            stage: Stage::Before,
            key,
            value,
        }
    }

    /// Whether the key can end, and no line before has it.
    fn is_new_key(&self) -> bool
        ensures { result ≡ ⟦<WordText as Token>⟧.ends self.now.key && not
            (any_value (is_taken self.now.key.bytes.items) (map C.key_of (C.pairs_of self.now.pairs))) }
    {
        self.key.can_end() && !self.pairs.has(&self.key)
    }

    /// Takes the delimiter after a key.
    fn end_key(&mut self) -> Result<bool, OutOfMemory>
        requires { IsFalse (is_delimited self.old.stage) }
        ensures taken { IfTaken result
            (Follows ⟦<KeyedLines<V, B, C> as Token>⟧.means self.old self.old.delimiter self.new) }
        ensures refused { IfRefused result
            (NoneBegins ⟦<KeyedLines<V, B, C> as Token>⟧.means self.old self.old.delimiter) }
        ensures same { UnlessTaken result (Same ⟦<KeyedLines<V, B, C> as Token>⟧.means self.old self.new) }
        ensures same_size { UnlessTaken result (⟦<KeyedLines<V, B, C> as Token>⟧.size self.new ≡
            ⟦<KeyedLines<V, B, C> as Token>⟧.size self.old) }
        ensures size { ⟦<KeyedLines<V, B, C> as Token>⟧.size self.new ≤ ⟦<KeyedLines<V, B, C> as Token>⟧.size self.old +
            1 }
        ensures last { OnErr result (Begins ⟦<KeyedLines<V, B, C> as Token>⟧.means self.old self.old.delimiter) }
    {
        if !self.is_new_key() {
            return Ok(false);
        }
        match make_room(&mut self.ended) {
            Ok(()) => {}
            Err(e) => return Err(e),
        }
        let key = renew(&mut self.key, &self.keys);
        put(&mut self.ended, key);
        self.stage = Stage::InValue;
        Ok(true)
    }

    /// Takes the end after a key, which then stands alone.
    fn end_alone(&mut self) -> Result<bool, OutOfMemory>
        requires { IsFalse (is_delimited self.old.stage) }
        ensures taken { IfTaken result (Follows ⟦<KeyedLines<V, B, C> as Token>⟧.means self.old self.old.end self.new) }
        ensures refused { IfRefused result (NoneBegins ⟦<KeyedLines<V, B, C> as Token>⟧.means self.old self.old.end) }
        ensures same { UnlessTaken result (Same ⟦<KeyedLines<V, B, C> as Token>⟧.means self.old self.new) }
        ensures same_size { UnlessTaken result (⟦<KeyedLines<V, B, C> as Token>⟧.size self.new ≡
            ⟦<KeyedLines<V, B, C> as Token>⟧.size self.old) }
        ensures size { ⟦<KeyedLines<V, B, C> as Token>⟧.size self.new ≤ ⟦<KeyedLines<V, B, C> as Token>⟧.size self.old +
            1 }
        ensures last { OnErr result (Begins ⟦<KeyedLines<V, B, C> as Token>⟧.means self.old self.old.end) }
    {
        let value = match self.values.bare_value() {
            Some(value) => value,
            None => return Ok(false),
        };
        if !self.is_new_key() {
            return Ok(false);
        }
        match self.pairs.reserve() {
            Ok(()) => {}
            Err(e) => return Err(e),
        }
        let key = renew(&mut self.key, &self.keys);
        self.pairs.push(key, value);
        self.value = self.values.start();
        self.stage = Stage::Before;
        Ok(true)
    }

    /// Takes a byte where no key is ended.
    fn step_key(&mut self, byte: u8) -> Result<bool, OutOfMemory>
        requires { IsFalse (is_delimited self.old.stage) }
        ensures taken { IfTaken result (Follows ⟦<KeyedLines<V, B, C> as Token>⟧.means self.old byte self.new) }
        ensures refused { IfRefused result (NoneBegins ⟦<KeyedLines<V, B, C> as Token>⟧.means self.old byte) }
        ensures same { UnlessTaken result (Same ⟦<KeyedLines<V, B, C> as Token>⟧.means self.old self.new) }
        ensures same_size { UnlessTaken result (⟦<KeyedLines<V, B, C> as Token>⟧.size self.new ≡
            ⟦<KeyedLines<V, B, C> as Token>⟧.size self.old) }
        ensures size { ⟦<KeyedLines<V, B, C> as Token>⟧.size self.new ≤ ⟦<KeyedLines<V, B, C> as Token>⟧.size self.old +
            1 }
        ensures last { OnErr result (Begins ⟦<KeyedLines<V, B, C> as Token>⟧.means self.old byte) }
    {
        if byte == self.delimiter {
            return self.end_key();
        }
        if byte == self.end {
            return self.end_alone();
        }
        match self.key.step(byte) {
            Ok(true) => {
                self.stage = Stage::InWord;
                Ok(true)
            }
            Ok(false) => Ok(false),
            Err(e) => Err(e),
        }
    }

    /// Whether the byte may come where no key is ended.
    fn allows_key(&self, byte: u8) -> bool
        requires { IsFalse (is_delimited self.now.stage) }
        ensures { IsTrue result ↔ Begins ⟦<KeyedLines<V, B, C> as Token>⟧.means self.now byte }
    {
        if byte == self.delimiter {
            return self.is_new_key();
        }
        if byte == self.end {
            match self.values.bare_value() {
                Some(_) => return self.is_new_key(),
                None => return false,
            }
        }
        self.key.allows(byte)
    }

    /// Takes a byte of a value, or the end after it.
    fn step_value(&mut self, byte: u8) -> Result<bool, OutOfMemory>
        requires { self.old.stage ≡ InValue }
        ensures taken { IfTaken result (Follows ⟦<KeyedLines<V, B, C> as Token>⟧.means self.old byte self.new) }
        ensures refused { IfRefused result (NoneBegins ⟦<KeyedLines<V, B, C> as Token>⟧.means self.old byte) }
        ensures same { UnlessTaken result (Same ⟦<KeyedLines<V, B, C> as Token>⟧.means self.old self.new) }
        ensures same_size { UnlessTaken result (⟦<KeyedLines<V, B, C> as Token>⟧.size self.new ≡
            ⟦<KeyedLines<V, B, C> as Token>⟧.size self.old) }
        ensures size { ⟦<KeyedLines<V, B, C> as Token>⟧.size self.new ≤ ⟦<KeyedLines<V, B, C> as Token>⟧.size self.old +
            1 }
        ensures last { OnErr result (Begins ⟦<KeyedLines<V, B, C> as Token>⟧.means self.old byte) }
    {
        if byte != self.end {
            return self.value.step(byte);
        }
        if !self.value.can_end() {
            return Ok(false);
        }
        match self.pairs.reserve() {
            Ok(()) => {}
            Err(e) => return Err(e),
        }
        let value = renew(&mut self.value, &self.values);
        match self.ended.pop() {
            Some(key) => self.pairs.push(key, value),
            None => unreachable!(),
        }
        // The token is as new, but what it takes is known only of one that is made here.
        self.key = self.keys.start();
        self.stage = Stage::Before;
        Ok(true)
    }

    /// Takes bytes of a key where none is ended.
    fn run_key(&mut self, bytes: &[u8]) -> usize
        requires { IsFalse (is_delimited self.old.stage) }
        ensures within { result ≤ length bytes.now }
        ensures follows { FollowsRun ⟦<KeyedLines<V, B, C> as Token>⟧.means self.old (take result bytes.now) self.new }
        ensures size { ⟦<KeyedLines<V, B, C> as Token>⟧.size self.new ≤ ⟦<KeyedLines<V, B, C> as Token>⟧.size self.old +
            result }
        ensures same_size { result ≡ 0 → ⟦<KeyedLines<V, B, C> as Token>⟧.size self.new ≡
            ⟦<KeyedLines<V, B, C> as Token>⟧.size self.old }
    {
        let count = push_count(&mut self.key, bytes);
        if count > 0 {
            self.stage = Stage::InWord;
        }
        count
    }

    /// Takes bytes of a value.
    fn run_value(&mut self, bytes: &[u8]) -> usize
        requires { self.old.stage ≡ InValue }
        ensures within { result ≤ length bytes.now }
        ensures follows { FollowsRun ⟦<KeyedLines<V, B, C> as Token>⟧.means self.old (take result bytes.now) self.new }
        ensures size { ⟦<KeyedLines<V, B, C> as Token>⟧.size self.new ≤ ⟦<KeyedLines<V, B, C> as Token>⟧.size self.old +
            result }
        ensures same_size { result ≡ 0 → ⟦<KeyedLines<V, B, C> as Token>⟧.size self.new ≡
            ⟦<KeyedLines<V, B, C> as Token>⟧.size self.old }
    {
        push_count(&mut self.value, bytes)
    }

    /// Whether the delimiter has ended a key.
    fn has_key(&self) -> bool
        ensures { result ≡ is_delimited self.now.stage }
    {
        match self.stage {
            Stage::Before => false,
            Stage::InWord => false,
            Stage::InValue => true,
        }
    }

    /// The key and the value, where they and the delimiter between them are what is left of the line. It may find none
    /// where there is one.
    fn read_line(&self, line: &[u8]) -> Option<(Key, V::Out)>
        ensures pair { IfSome result (IsPairOf (⟦<WordText as Token>⟧.means self.now.key) (V.means self.now.value)
            self.now.delimiter line.now) }
        ensures size { IfSome result (λ r. ⟦<WordText as Token>⟧.value_size r.0 + (1 + V.value_size r.1)
            ≤ ⟦<WordText as Token>⟧.size self.now.key + (V.size self.now.value + length line.now)) }
    {
        let (key, count) = match self.key.whole(line) {
            Some(found) => found,
            None => return None,
        };
        if count == line.len() || line[count] != self.delimiter {
            return None;
        }
        let (_, rest) = line.split_at(count + 1);
        match self.value.whole(rest) {
            Some((value, more)) if more == rest.len() => Some((key, value)),
            _ => None,
        }
    }
}

impl<V: Token, B: MakeValue<V>, C: Collection<V>> Token for KeyedLines<V, B, C> {
    type Out = C::Out;

    ghost use Rattle.cg_join.specs.RepeatLaws.{true_not_false};
    ghost use Rattle.cg_join.specs.KeyedStateLaws.{state_bytes, state_completes, state_ends, state_one};
    ghost use Rattle.cg_join.specs.WordStartLaws.{one_word, word_new, word_text_bytes};

    ghost means = { λ s. IsMappedText (AreKeyedAfter C.key_of (C.pairs_of s.pairs) (is_begun s.stage)
        (KeyedRest C.key_of C.value_of (⟦<WordText as Token>⟧.means s.key) (V.means s.value)
        (B.bare_value s.values) s.delimiter (is_delimited s.stage) s.ended.items)
        (IsKeyed C.key_of C.value_of (SpellsWord s.keys.controller) (B.texts s.values) (B.bare_value s.values)
        s.delimiter)
        s.end) C.given };

    ghost size = { λ s. C.size s.pairs + items_size ⟦<WordText as Token>⟧.value_size s.ended.items +
        (⟦<WordText as Token>⟧.size s.key + V.size s.value) };

    ghost value_size = { C.value_size };

    ghost ends = { λ s. not (is_begun s.stage) };

    ghost grows = { true };

    fn push(&mut self, bytes: &[u8]) -> Pushed {
        push_bytes(self, bytes)
    }

    fn allows(&self, byte: u8) -> bool {
        match self.stage {
            Stage::Before => self.allows_key(byte),
            Stage::InWord => self.allows_key(byte),
            Stage::InValue => {
                if byte == self.end {
                    return self.value.can_end();
                }
                self.value.allows(byte)
            }
        }
    }

    fn can_end(&self) -> bool {
        match self.stage {
            Stage::Before => true,
            Stage::InWord => false,
            Stage::InValue => false,
        }
    }

    fn held(&self) -> u64 {
        let kept = self
            .pairs
            .held()
            .saturating_add(held_in_all::<WordText>(self.ended.as_slice()));
        let at_hand = self.key.held().saturating_add(self.value.held());
        kept.saturating_add(at_hand)
    }

    fn take(self) -> C::Out {
        self.pairs.finish()
    }

    fn held_in(value: &C::Out) -> u64 {
        C::held_in(value)
    }

    ghost completes = { λ s. state_completes C.key_of C.value_of C.paired C.has_key C.has_value C.given
        (C.pairs_of s.pairs) (IsKeyed C.key_of C.value_of (SpellsWord s.keys.controller) (B.texts s.values)
        (B.bare_value s.values) s.delimiter) (⟦<WordText as Token>⟧.means s.key) (V.means s.value)
        (B.bare_value s.values) s.delimiter s.end (is_begun s.stage) s.ended.items s.distinct (is_delimited s.stage)
        s.kept
        (word_new s.key.controller s.key.bytes.items [] (⟦<WordText as Token>⟧.completes s.key)
        (map C.key_of (C.pairs_of s.pairs))) (V.completes s.value) };

    ghost no_size = { λ e s. absurd (true_not_false e) };

    ghost ends_is = { λ s. state_ends C.key_of C.given (C.pairs_of s.pairs)
        (KeyedRest C.key_of C.value_of (⟦<WordText as Token>⟧.means s.key) (V.means s.value)
        (B.bare_value s.values) s.delimiter (is_delimited s.stage) s.ended.items)
        (IsKeyed C.key_of C.value_of (SpellsWord s.keys.controller) (B.texts s.values) (B.bare_value s.values)
        s.delimiter)
        s.end s.ended.items s.distinct (is_begun s.stage) };

    ghost one_value = { λ s. state_one C.key_of C.value_of C.given (C.pairs_of s.pairs)
        (⟦<WordText as Token>⟧.means s.key) (V.means s.value) (SpellsWord s.keys.controller) (B.texts s.values)
        (B.bare_value s.values) s.delimiter s.end (is_begun s.stage) s.ended.items C.paired C.whole s.apart
        s.key_delimiter s.key_end s.keys_delimiter s.keys_end s.value_end s.values_end
        (⟦<WordText as Token>⟧.one_value s.key)
        (V.one_value s.value) (one_word s.keys.controller) (B.one_text s.values) (is_delimited s.stage) };

    ghost holds_bytes = { λ s. state_bytes C.key_of C.value_of C.given (C.pairs_of s.pairs)
        (⟦<WordText as Token>⟧.means s.key) (V.means s.value) (SpellsWord s.keys.controller) (B.texts s.values)
        (B.bare_value s.values) s.delimiter s.end (is_begun s.stage) s.ended.items s.small_delimiter s.small_end
        (⟦<WordText as Token>⟧.holds_bytes s.key) (V.holds_bytes s.value) (word_text_bytes s.keys.controller)
        (B.text_bytes s.values) (is_delimited s.stage) };
}

impl<V: Token, B: MakeValue<V>, C: Collection<V>> Steps for KeyedLines<V, B, C> {
    type Value = C::Out;

    ghost rests = { ⟦<KeyedLines<V, B, C> as Token>⟧.means };

    ghost room = { ⟦<KeyedLines<V, B, C> as Token>⟧.size };

    ghost grows = { ⟦<KeyedLines<V, B, C> as Token>⟧.grows };

    fn take_byte(&mut self, byte: u8) -> Result<bool, OutOfMemory> {
        match self.stage {
            Stage::Before => self.step_key(byte),
            Stage::InWord => self.step_key(byte),
            Stage::InValue => self.step_value(byte),
        }
    }

    fn take_run(&mut self, bytes: &[u8]) -> usize {
        let (end, line) = match bytes.split_last() {
            Some(parts) => parts,
            None => return 0,
        };
        // A line that is all of the bytes is read at once.
        if self.take_line(line, *end) {
            return bytes.len();
        }
        self.take_part(bytes)
    }
}

impl<V: Token, B: MakeValue<V>, C: Collection<V>> KeyedLines<V, B, C> {
    /// Takes the line, and the byte `end` after it, where no line is begun; or leaves all as it is, which it may do
    /// with any line. Answers whether it took them.
    fn take_line(&mut self, line: &[u8], end: u8) -> bool
        ensures taken { IsTrue result →
            FollowsRun ⟦<KeyedLines<V, B, C> as Token>⟧.means self.old (line.now ++ end ∷ []) self.new }
        ensures left { IsFalse result → Same ⟦<KeyedLines<V, B, C> as Token>⟧.means self.old self.new }
        ensures size { ⟦<KeyedLines<V, B, C> as Token>⟧.size self.new ≤
            ⟦<KeyedLines<V, B, C> as Token>⟧.size self.old + (length line.now + 1) }
        ensures same_size { IsFalse result →
            ⟦<KeyedLines<V, B, C> as Token>⟧.size self.new ≡ ⟦<KeyedLines<V, B, C> as Token>⟧.size self.old }
    {
        if self.has_key() || end != self.end {
            return false;
        }
        let (key, value) = match self.read_line(line) {
            Some(pair) => pair,
            None => return false,
        };
        if !self.pairs.add(key, value) {
            return false;
        }
        self.key = self.keys.start();
        self.value = self.values.start();
        self.stage = Stage::Before;
        true
    }

    /// Takes bytes of the key or the value at hand.
    fn take_part(&mut self, bytes: &[u8]) -> usize
        ensures within { result ≤ length bytes.now }
        ensures follows { FollowsRun ⟦<KeyedLines<V, B, C> as Token>⟧.means self.old (take result bytes.now) self.new }
        ensures size { ⟦<KeyedLines<V, B, C> as Token>⟧.size self.new ≤
            ⟦<KeyedLines<V, B, C> as Token>⟧.size self.old + result }
        ensures same_size { result ≡ 0 →
            ⟦<KeyedLines<V, B, C> as Token>⟧.size self.new ≡ ⟦<KeyedLines<V, B, C> as Token>⟧.size self.old }
    {
        match self.stage {
            Stage::Before => self.run_key(bytes),
            Stage::InWord => self.run_key(bytes),
            Stage::InValue => self.run_value(bytes),
        }
    }
}
