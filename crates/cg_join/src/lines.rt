//! Lines: any number of a token, each with an ending byte.
ghost use Rattle.std.specs.Prelude.{◌≡◌, ◌+◌, ◌≤◌, ◌<◌, ◌↔◌, ℕ, List, [], ◌∷◌, ◌++◌, true, false, not, IsTrue, IsFalse, length, take};
ghost use Rattle.cg_text.specs.Scan.{FollowsRun};
ghost use Rattle.cg_text.specs.Token.{Same, Spells};
ghost use Rattle.cg_join.specs.Repeat.{items_size};
ghost use Rattle.cg_join.specs.Line.{LacksByte};
ghost use Rattle.cg_join.specs.Lines.{AreLines, AreLinesAfter};
ghost use Rattle.cg_join.specs.LinesState.{at_hand};

use crate::make_token::MakeToken;
use crate::store::{held_in_all, put};
use cg_text::{Items, OutOfMemory, Pushed, Steps, Token, make_room, push_bytes, push_count};
use std::alloc::Global;
use std::mem;

/// Any number of a token, also none, each with a byte after it that none of its texts has. The token `current` counts
/// only where a line is begun.
#[derive(Drop)]
pub struct Lines<T: Token, S: MakeToken<T>> {
    start: S,
    end: u8,
    items: Vec<T::Out>,
    current: T,
    begun: bool,
    ghost lacks: { LacksByte (T.means current) end },
    ghost starts: { LacksByte (S.texts start) end },
    ghost small: { end < 256 },
    ghost fresh: { IsFalse begun → T.size current ≡ 0 },
}

/// Makes the token at hand anew where no line is begun.
fn renew<T: Token, S: MakeToken<T>>(current: &mut T, start: &S, begun: bool)
    requires { IsFalse begun → T.size current.old ≡ 0 }
    ensures is { (rest : List ℕ) (v : T.Out) → T.means current.new rest v ↔
        at_hand begun (T.means current.old) (S.texts start.now) rest v }
    ensures size { T.size current.new ≡ T.size current.old }
{
    if !begun {
        *current = start.start();
    }
}

impl<T: Token, S: MakeToken<T>> Lines<T, S> {
    /// Any number of texts of the tokens that `start` makes.
    pub fn new(alloc: Global, start: S, end: u8) -> Lines<T, S>
        requires { LacksByte (S.texts start) end }
        ensures spells { Spells ⟦<Lines<T, S> as Token>⟧.means result (AreLines (S.texts start) end) }
        ensures size { ⟦<Lines<T, S> as Token>⟧.size result ≡ 0 }
    {
        let current = start.start();
        Lines {
            start,
            end,
            items: Vec::new(alloc),
            current,
            begun: false,
        }
    }
}

impl<T: Token, S: MakeToken<T>> Token for Lines<T, S> {
    type Out = Items<T::Out>;

    ghost use Rattle.cg_join.specs.RepeatLaws.{true_not_false};
    ghost use Rattle.cg_join.specs.LinesLaws.{lines_ends};
    ghost use Rattle.cg_join.specs.LinesStateLaws.{hand_completes, hand_after_one, hand_bytes};

    ghost means = { λ s rest all. AreLinesAfter s.items.items s.begun
        (at_hand s.begun (T.means s.current) (S.texts s.start)) (S.texts s.start) s.end rest all };

    ghost size = { λ s. items_size T.value_size s.items.items + T.size s.current };

    ghost value_size = { items_size T.value_size };

    ghost ends = { λ s. not s.begun };

    ghost grows = { true };

    fn push(&mut self, bytes: &[u8]) -> Pushed {
        push_bytes(self, bytes)
    }

    fn allows(&self, byte: u8) -> bool {
        if !self.begun {
            let token = self.start.start();
            if byte == self.end {
                return token.can_end();
            }
            return token.allows(byte);
        }
        if byte == self.end {
            return self.current.can_end();
        }
        self.current.allows(byte)
    }

    fn can_end(&self) -> bool {
        !self.begun
    }

    fn held(&self) -> u64 {
        held_in_all::<T>(self.items.as_slice()).saturating_add(self.current.held())
    }

    fn take(self) -> Items<T::Out> {
        Items::of(self.items)
    }

    fn held_in(value: &Items<T::Out>) -> u64 {
        held_in_all::<T>(value.as_slice())
    }

    ghost completes = { λ s. hand_completes (T.means s.current) (S.texts s.start) s.end s.items.items s.begun
        (T.completes s.current) };

    ghost no_size = { λ e s. absurd (true_not_false e) };

    ghost ends_is = { λ s. lines_ends s.end (at_hand s.begun (T.means s.current) (S.texts s.start)) (S.texts s.start)
        s.items.items s.begun };

    ghost one_value = { λ s. hand_after_one (T.means s.current) (S.texts s.start) s.end s.items.items s.begun s.lacks
        s.starts (T.one_value s.current) (S.one_text s.start) };

    ghost holds_bytes = { λ s rest all h. hand_bytes (T.means s.current) (S.texts s.start) s.end s.small
        (T.holds_bytes s.current) (S.text_bytes s.start) s.begun rest h.0 h.2 };
}

impl<T: Token, S: MakeToken<T>> Steps for Lines<T, S> {
    type Value = Items<T::Out>;

    ghost rests = { ⟦<Lines<T, S> as Token>⟧.means };

    ghost room = { ⟦<Lines<T, S> as Token>⟧.size };

    ghost grows = { ⟦<Lines<T, S> as Token>⟧.grows };

    fn take_byte(&mut self, byte: u8) -> Result<bool, OutOfMemory> {
        renew(&mut self.current, &self.start, self.begun);
        if byte != self.end {
            return match self.current.step(byte) {
                Ok(true) => {
                    self.begun = true;
                    Ok(true)
                }
                Ok(false) => Ok(false),
                Err(e) => Err(e),
            };
        }
        if !self.current.can_end() {
            return Ok(false);
        }
        match make_room(&mut self.items) {
            Ok(()) => {}
            Err(e) => return Err(e),
        }
        let next = self.start.start();
        let done = mem::replace(&mut self.current, next);
        let value = done.take();
        put(&mut self.items, value);
        self.begun = false;
        Ok(true)
    }

    fn take_run(&mut self, bytes: &[u8]) -> usize {
        let (end, line) = match bytes.split_last() {
            Some(parts) => parts,
            None => return 0,
        };
        // A line that is all of the bytes is read at once.
        if self.take_line(line, *end) {
            return bytes.len();
        }
        self.take_part(bytes)
    }
}

impl<T: Token, S: MakeToken<T>> Lines<T, S> {
    /// Takes the line, and the byte `end` after it, where no line is begun; or leaves all as it is, which it may do
    /// with any line. Answers whether it took them.
    fn take_line(&mut self, line: &[u8], end: u8) -> bool
        ensures taken { IsTrue result →
            FollowsRun ⟦<Lines<T, S> as Token>⟧.means self.old (line.now ++ end ∷ []) self.new }
        ensures left { IsFalse result → Same ⟦<Lines<T, S> as Token>⟧.means self.old self.new }
        ensures size { ⟦<Lines<T, S> as Token>⟧.size self.new ≤
            ⟦<Lines<T, S> as Token>⟧.size self.old + (length line.now + 1) }
        ensures same_size { IsFalse result →
            ⟦<Lines<T, S> as Token>⟧.size self.new ≡ ⟦<Lines<T, S> as Token>⟧.size self.old }
    {
        if end != self.end || self.begun {
            return false;
        }
        let token = self.start.start();
        let (value, count) = match token.whole(line) {
            Some(found) => found,
            None => return false,
        };
        if count < line.len() || make_room(&mut self.items).is_err() {
            return false;
        }
        put(&mut self.items, value);
        true
    }

    /// Takes bytes of the line at hand.
    fn take_part(&mut self, bytes: &[u8]) -> usize
        ensures within { result ≤ length bytes.now }
        ensures follows { FollowsRun ⟦<Lines<T, S> as Token>⟧.means self.old (take result bytes.now) self.new }
        ensures size { ⟦<Lines<T, S> as Token>⟧.size self.new ≤ ⟦<Lines<T, S> as Token>⟧.size self.old + result }
        ensures same_size { result ≡ 0 →
            ⟦<Lines<T, S> as Token>⟧.size self.new ≡ ⟦<Lines<T, S> as Token>⟧.size self.old }
    {
        renew(&mut self.current, &self.start, self.begun);
        let count = push_count(&mut self.current, bytes);
        if count > 0 {
            self.begun = true;
        }
        count
    }
}
