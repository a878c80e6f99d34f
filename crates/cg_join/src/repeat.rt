//! One or more of a token, with a byte between.
ghost use Rattle.std.specs.Prelude.{◌≡◌, ◌+◌, ◌≤◌, ◌<◌, true, false, IsTrue, length, take, vec_len, vec_capacity};
ghost use Rattle.cg_text.specs.Scan.{FollowsRun};
ghost use Rattle.cg_text.specs.Token.{Spells};
ghost use Rattle.cg_join.specs.Repeat.{AreJoined, IsListAfter, LacksEmpty, Stops, items_size, out_size};

use crate::make_token::MakeToken;
use crate::store::{held_in_all, held_in_joined, put};
use cg_text::{Items, OutOfMemory, Pushed, Steps, Token, make_room, push_bytes, push_count};
use std::alloc::Global;
use std::mem;

/// One or more of a token, with a byte between that a token never takes where it could end. No text of it is empty.
#[derive(Drop)]
pub struct Repeat<T: Token, S: MakeToken<T>> {
    start: S,
    separator: u8,
    items: Vec<T::Out>,
    current: T,
    ghost stops: { Stops (T.means current) separator },
    ghost starts: { Stops (S.texts start) separator },
    ghost filled: { LacksEmpty (S.texts start) },
    ghost room: { IsTrue (T.ends current) → vec_len items < vec_capacity items },
    ghost small: { separator < 256 },
}

impl<T: Token, S: MakeToken<T>> Repeat<T, S> {
    /// One or more texts of the tokens that `start` makes.
    pub fn new(alloc: Global, start: S, separator: u8) -> Repeat<T, S>
        requires stops { Stops (S.texts start) separator }
        requires filled { LacksEmpty (S.texts start) }
        ensures spells { Spells ⟦<Repeat<T, S> as Token>⟧.means result (AreJoined (S.texts start) separator) }
        ensures size { ⟦<Repeat<T, S> as Token>⟧.size result ≡ 0 }
    {
        let current = start.start();
        Repeat {
            start,
            separator,
            items: Vec::new(alloc),
            current,
        }
    }

    /// Takes the item with which the bytes begin and the separator after it, or nothing, which it may do with any item.
    /// Answers how many bytes it took.
    fn take_item(&mut self, bytes: &[u8]) -> usize
        ensures within { result ≤ length bytes.now }
        ensures follows { FollowsRun ⟦<Repeat<T, S> as Token>⟧.means self.old (take result bytes.now) self.new }
        ensures size { ⟦<Repeat<T, S> as Token>⟧.size self.new ≤ ⟦<Repeat<T, S> as Token>⟧.size self.old + result }
        ensures same_size { result ≡ 0 → ⟦<Repeat<T, S> as Token>⟧.size self.new ≡
            ⟦<Repeat<T, S> as Token>⟧.size self.old }
    {
        let (value, count) = match self.current.whole(bytes) {
            Some(found) => found,
            None => return 0,
        };
        if count == bytes.len() || bytes[count] != self.separator {
            return 0;
        }
        if make_room(&mut self.items).is_err() {
            return 0;
        }
        put(&mut self.items, value);
        self.current = self.start.start();
        count + 1
    }

    /// Takes items with which the bytes begin, each with the separator after it. Answers how many bytes it took.
    fn take_items(&mut self, bytes: &[u8]) -> usize
        ensures within { result ≤ length bytes.now }
        ensures follows { FollowsRun ⟦<Repeat<T, S> as Token>⟧.means self.old (take result bytes.now) self.new }
        ensures size { ⟦<Repeat<T, S> as Token>⟧.size self.new ≤ ⟦<Repeat<T, S> as Token>⟧.size self.old + result }
        ensures same_size { result ≡ 0 → ⟦<Repeat<T, S> as Token>⟧.size self.new ≡
            ⟦<Repeat<T, S> as Token>⟧.size self.old }
    {
        let mut used = 0;
        loop {
            let (_, rest) = bytes.split_at(used);
            let count = self.take_item(rest);
            used += count;
            if count == 0 {
                return used;
            }
        }
    }
}

impl<T: Token, S: MakeToken<T>> Token for Repeat<T, S> {
    type Out = Items<T::Out>;

    ghost use Rattle.cg_join.specs.ByteLaws.{list_bytes};
    ghost use Rattle.cg_join.specs.RepeatLaws.{list_completes, list_ends, list_after_one, true_not_false};

    ghost means = { λ s rest all. IsListAfter s.items.items (T.means s.current) (S.texts s.start)
        s.separator rest all };

    ghost size = { λ s. items_size T.value_size s.items.items + T.size s.current };

    ghost value_size = { out_size T.value_size };

    ghost ends = { λ s. T.ends s.current };

    ghost grows = { true };

    fn push(&mut self, bytes: &[u8]) -> Pushed {
        push_bytes(self, bytes)
    }

    fn allows(&self, byte: u8) -> bool {
        let more = self.current.allows(byte);
        let next = byte == self.separator;
        let ended = self.current.can_end();
        more | (next & ended)
    }

    fn can_end(&self) -> bool {
        self.current.can_end()
    }

    fn held(&self) -> u64 {
        held_in_all::<T>(self.items.as_slice()).saturating_add(self.current.held())
    }

    fn take(self) -> Items<T::Out> {
        let mut items = self.items;
        put(&mut items, self.current.take());
        Items::of(items)
    }

    fn held_in(value: &Items<T::Out>) -> u64 {
        held_in_joined::<T>(value.as_slice())
    }

    ghost completes = { λ s. list_completes s.separator (T.means s.current) (S.texts s.start) s.items.items
        (T.completes s.current) };

    ghost no_size = { λ e s. absurd (true_not_false e) };

    ghost ends_is = { λ s. list_ends s.separator (T.means s.current) (S.texts s.start) s.items.items (T.ends s.current)
        (T.ends_is s.current) };

    ghost one_value = { λ s. list_after_one s.separator (T.means s.current) (S.texts s.start) s.items.items s.stops
        s.starts (T.one_value s.current) (S.one_text s.start) };

    ghost holds_bytes = { λ s rest all h. list_bytes (T.means s.current) (S.texts s.start) s.separator s.small
        (T.holds_bytes s.current) (S.text_bytes s.start) rest h.0 h.2 };
}

impl<T: Token, S: MakeToken<T>> Steps for Repeat<T, S> {
    type Value = Items<T::Out>;

    ghost rests = { ⟦<Repeat<T, S> as Token>⟧.means };

    ghost room = { ⟦<Repeat<T, S> as Token>⟧.size };

    ghost grows = { ⟦<Repeat<T, S> as Token>⟧.grows };

    fn take_byte(&mut self, byte: u8) -> Result<bool, OutOfMemory> {
        // The last value is put into the vector by `take`, which takes no memory.
        match make_room(&mut self.items) {
            Ok(()) => {}
            Err(e) => {
                // A byte that is refused is refused without memory too.
                let allowed = self.allows(byte);
                return if allowed { Err(e) } else { Ok(false) };
            }
        }
        match self.current.step(byte) {
            Ok(true) => return Ok(true),
            Ok(false) => {}
            Err(e) => return Err(e),
        }
        if byte != self.separator {
            return Ok(false);
        }
        if !self.current.can_end() {
            return Ok(false);
        }
        let next = self.start.start();
        let done = mem::replace(&mut self.current, next);
        let value = done.take();
        put(&mut self.items, value);
        Ok(true)
    }

    fn take_run(&mut self, bytes: &[u8]) -> usize {
        let whole = self.take_items(bytes);
        let (_, rest) = bytes.split_at(whole);
        match make_room(&mut self.items) {
            Ok(()) => whole + push_count(&mut self.current, rest),
            Err(_) => whole,
        }
    }
}
