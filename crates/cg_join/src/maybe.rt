//! A token's text, or none.
ghost use Rattle.std.specs.Prelude.{◌≡◌, not, ◌||◌, IsFalse};
ghost use Rattle.cg_text.specs.Token.{Spells};
ghost use Rattle.cg_join.specs.Maybe.{IsMaybe, MaybeRest, maybe_size};
ghost use Rattle.cg_join.specs.Repeat.{LacksEmpty};

use cg_text::{OutOfMemory, Pushed, Steps, Token, push_bytes, push_count};

/// A token's text with its value, or the empty text with none. No text of the token is empty.
#[derive(Drop)]
pub struct Maybe<T: Token> {
    token: T,
    begun: bool,
    ghost filled: { IsFalse begun → LacksEmpty (T.means token) },
    ghost fresh: { IsFalse begun → T.size token ≡ 0 },
}

impl<T: Token> Maybe<T> {
    /// The token's text, or the empty one. The token is new.
    pub fn new(token: T) -> Maybe<T>
        requires filled { LacksEmpty (T.means token) }
        requires fresh { T.size token ≡ 0 }
        ensures spells { Spells ⟦<Maybe<T> as Token>⟧.means result (IsMaybe (T.means token)) }
        ensures size { ⟦<Maybe<T> as Token>⟧.size result ≡ T.size token }
    {
        Maybe {
            token,
            begun: false,
        }
    }
}

impl<T: Token> Token for Maybe<T> {
    type Out = Option<T::Out>;

    ghost use Rattle.cg_join.specs.MaybeLaws.{maybe_completes, maybe_ends, maybe_one, maybe_bytes};

    ghost means = { λ s. MaybeRest s.begun (T.means s.token) };

    ghost size = { λ s. T.size s.token };

    ghost value_size = { maybe_size T.value_size };

    ghost ends = { λ s. not s.begun || T.ends s.token };

    ghost grows = { T.grows };

    #[inline(always)]
    fn push(&mut self, bytes: &[u8]) -> Pushed {
        push_bytes(self, bytes)
    }

    fn allows(&self, byte: u8) -> bool {
        self.token.allows(byte)
    }

    fn can_end(&self) -> bool {
        !self.begun || self.token.can_end()
    }

    fn held(&self) -> u64 {
        self.token.held()
    }

    fn take(self) -> Option<T::Out> {
        if self.begun {
            Some(self.token.take())
        } else {
            None
        }
    }

    fn held_in(value: &Option<T::Out>) -> u64 {
        match value {
            Some(v) => T::held_in(v),
            None => 0,
        }
    }

    ghost completes = { λ s. maybe_completes (T.means s.token) s.begun (T.completes s.token) };

    ghost no_size = { λ e s. T.no_size e s.token };

    ghost ends_is = { λ s. maybe_ends (T.means s.token) (T.ends s.token) s.begun (T.ends_is s.token) };

    ghost one_value = { λ s. maybe_one (T.means s.token) s.begun s.filled (T.one_value s.token) };

    ghost holds_bytes = { λ s. maybe_bytes (T.means s.token) s.begun (T.holds_bytes s.token) };
}

impl<T: Token> Steps for Maybe<T> {
    type Value = Option<T::Out>;

    ghost rests = { ⟦<Maybe<T> as Token>⟧.means };

    ghost room = { ⟦<Maybe<T> as Token>⟧.size };

    ghost grows = { ⟦<Maybe<T> as Token>⟧.grows };

    #[inline(always)]
    fn take_byte(&mut self, byte: u8) -> Result<bool, OutOfMemory> {
        match self.token.step(byte) {
            Ok(true) => {
                self.begun = true;
                Ok(true)
            }
            Ok(false) => Ok(false),
            Err(e) => Err(e),
        }
    }

    #[inline(always)]
    fn take_run(&mut self, bytes: &[u8]) -> usize {
        let count = push_count(&mut self.token, bytes);
        if count > 0 {
            self.begun = true;
        }
        count
    }
}
