//! The empty text with a value, beside a token's texts.
ghost use Rattle.std.specs.Prelude.{◌≡◌, not, ◌||◌, IsFalse};
ghost use Rattle.cg_text.specs.Token.{Spells};
ghost use Rattle.cg_join.specs.Ready.{IsOrReady, OrReadyRest};
ghost use Rattle.cg_join.specs.Repeat.{LacksEmpty};

use cg_text::{OutOfMemory, Pushed, Steps, Token, push_bytes, push_count};

/// A token's text with its value, or the empty text with another one. No text of the token is empty.
#[derive(Drop)]
pub struct OrReady<T: Token> {
    token: T,
    value: T::Out,
    begun: bool,
    ghost filled: { IsFalse begun → LacksEmpty (T.means token) },
    ghost bare: { T.value_size value ≡ 0 },
    ghost fresh: { IsFalse begun → T.size token ≡ 0 },
}

impl<T: Token> OrReady<T> {
    /// The token's text, or the empty one with this value, whose vectors are empty. The token is new.
    pub fn new(token: T, value: T::Out) -> OrReady<T>
        requires filled { LacksEmpty (T.means token) }
        requires bare { T.value_size value ≡ 0 }
        requires fresh { T.size token ≡ 0 }
        ensures spells { Spells ⟦<OrReady<T> as Token>⟧.means result (IsOrReady (T.means token) value) }
        ensures size { ⟦<OrReady<T> as Token>⟧.size result ≡ T.size token }
    {
        OrReady {
            token,
            value,
            begun: false,
        }
    }
}

impl<T: Token> Token for OrReady<T> {
    type Out = T::Out;

    ghost use Rattle.cg_join.specs.ReadyLaws.{or_ready_completes, or_ready_ends, or_ready_one, or_ready_bytes};

    ghost means = { λ s. OrReadyRest s.begun (T.means s.token) s.value };

    ghost size = { λ s. T.size s.token };

    ghost value_size = { T.value_size };

    ghost ends = { λ s. not s.begun || T.ends s.token };

    ghost grows = { T.grows };

    #[inline(always)]
    fn push(&mut self, bytes: &[u8]) -> Pushed {
        push_bytes(self, bytes)
    }

    fn allows(&self, byte: u8) -> bool {
        self.token.allows(byte)
    }

    fn can_end(&self) -> bool {
        !self.begun || self.token.can_end()
    }

    fn held(&self) -> u64 {
        self.token.held()
    }

    fn take(self) -> T::Out {
        if self.begun {
            self.token.take()
        } else {
            self.value
        }
    }

    fn held_in(value: &T::Out) -> u64 {
        T::held_in(value)
    }

    ghost completes = { λ s. or_ready_completes (T.means s.token) s.value s.begun (T.completes s.token) };

    ghost no_size = { λ e s. T.no_size e s.token };

    ghost ends_is = { λ s. or_ready_ends (T.means s.token) s.value (T.ends s.token) s.begun (T.ends_is s.token) };

    ghost one_value = { λ s. or_ready_one (T.means s.token) s.value s.begun s.filled (T.one_value s.token) };

    ghost holds_bytes = { λ s. or_ready_bytes (T.means s.token) s.value s.begun (T.holds_bytes s.token) };
}

impl<T: Token> Steps for OrReady<T> {
    type Value = T::Out;

    ghost rests = { ⟦<OrReady<T> as Token>⟧.means };

    ghost room = { ⟦<OrReady<T> as Token>⟧.size };

    ghost grows = { ⟦<OrReady<T> as Token>⟧.grows };

    #[inline(always)]
    fn take_byte(&mut self, byte: u8) -> Result<bool, OutOfMemory> {
        match self.token.step(byte) {
            Ok(true) => {
                self.begun = true;
                Ok(true)
            }
            Ok(false) => Ok(false),
            Err(e) => Err(e),
        }
    }

    #[inline(always)]
    fn take_run(&mut self, bytes: &[u8]) -> usize {
        let count = push_count(&mut self.token, bytes);
        if count > 0 {
            self.begun = true;
        }
        count
    }
}
