//! A token, or another one that begins otherwise.
ghost use Rattle.std.specs.Prelude.{◌≡◌, IsFalse};
ghost use Rattle.cg_text.specs.Token.{Spells, NoneBegins};
ghost use Rattle.cg_join.specs.Choice.{either_size};
ghost use Rattle.cg_join.specs.ForkLaws.{IsFree_prop};
ghost use Rattle.cg_join.specs.Fork.{IsFork, IsForked, AllBegin, AreBehind, IsFree, either_ends};

use crate::choice::Either;
use crate::make_token::MakeToken;
use cg_text::{OutOfMemory, Pushed, Steps, Token, push_bytes, push_count};

/// A token; where such are allowed also another one, which begins with a byte with which no text of the first begins.
/// The other one is made when it begins, and takes no memory.
#[derive(Drop)]
pub struct Fork<A: Token, B: Token, S: MakeToken<B>> {
    token: Either<A, B>,
    start: S,
    byte: u8,
    allowed: bool,
    ghost plain: { IsFalse B.grows },
    ghost begins: { AllBegin (S.texts start) byte },
    ghost free: { IsFree A.means byte allowed token } by { IsFree_prop A.means byte allowed token },
}

impl<A: Token, B: Token, S: MakeToken<B>> Fork<A, B, S> {
    /// The one, and where `allowed` the other too, whose texts begin with the byte.
    pub fn new(token: A, start: S, byte: u8, allowed: bool) -> Fork<A, B, S>
        requires plain { IsFalse B.grows }
        requires begins { AllBegin (S.texts start) byte }
        requires none { NoneBegins A.means token byte }
        ensures spells { Spells ⟦<Fork<A, B, S> as Token>⟧.means result
            (λ rest v. IsForked A.means (S.texts start) allowed token rest v) }
        ensures size { ⟦<Fork<A, B, S> as Token>⟧.size result ≡ A.size token }
    {
        Fork {
            token: Either::Left(token),
            start,
            byte,
            allowed,
        }
    }
}

/// A new token, behind the byte with which all its texts begin.
fn begun<T: Token, S: MakeToken<T>>(start: &S, byte: u8) -> T
    requires plain { IsFalse T.grows }
    requires begins { AllBegin (S.texts start.now) byte }
    ensures { AreBehind T.means (S.texts start.now) byte result }
{
    let mut token = start.start();
    match token.step(byte) {
        Ok(true) => token,
        Ok(false) => unreachable!(),
        Err(_) => unreachable!(),
    }
}

impl<A: Token, B: Token, S: MakeToken<B>> Token for Fork<A, B, S> {
    type Out = Either<A::Out, B::Out>;

    ghost use Rattle.cg_join.specs.ForkLaws.{fork_completes, fork_none, fork_ends, fork_one, fork_bytes};

    ghost means = { λ s. IsFork A.means B.means (S.texts s.start) s.allowed s.token };

    ghost size = { λ s. either_size A.size B.size s.token };

    ghost value_size = { either_size A.value_size B.value_size };

    ghost ends = { λ s. either_ends A.ends B.ends s.token };

    ghost grows = { A.grows };

    #[inline(always)]
    fn push(&mut self, bytes: &[u8]) -> Pushed {
        push_bytes(self, bytes)
    }

    #[inline(always)]
    fn whole(&self, bytes: &[u8]) -> Option<(Either<A::Out, B::Out>, usize)> {
        match &self.token {
            Either::Left(token) => match token.whole(bytes) {
                Some((value, count)) => Some((Either::Left(value), count)),
                None => None,
            },
            Either::Right(_) => None,
        }
    }

    fn allows(&self, byte: u8) -> bool {
        if self.allowed && byte == self.byte {
            return true;
        }
        match &self.token {
            Either::Left(token) => token.allows(byte),
            Either::Right(token) => token.allows(byte),
        }
    }

    fn can_end(&self) -> bool {
        match &self.token {
            Either::Left(token) => token.can_end(),
            Either::Right(token) => token.can_end(),
        }
    }

    fn held(&self) -> u64 {
        match &self.token {
            Either::Left(token) => token.held(),
            Either::Right(token) => token.held(),
        }
    }

    fn take(self) -> Either<A::Out, B::Out> {
        let token = self.token;
        match token {
            Either::Left(token) => Either::Left(token.take()),
            Either::Right(token) => Either::Right(token.take()),
        }
    }

    fn held_in(value: &Either<A::Out, B::Out>) -> u64 {
        match value {
            Either::Left(v) => A::held_in(v),
            Either::Right(w) => B::held_in(w),
        }
    }

    ghost completes = { λ s. fork_completes A.means B.means (S.texts s.start) s.allowed s.token A.completes
        B.completes };

    ghost no_size = { λ e s. fork_none A.size B.size s.token (A.no_size e) (B.no_size s.plain) };

    ghost ends_is = { λ s. fork_ends A.means B.means (S.texts s.start) s.byte s.begins s.allowed s.token A.ends B.ends
        A.ends_is B.ends_is };

    ghost one_value = { λ s. fork_one A.means B.means (S.texts s.start) s.byte s.begins s.allowed s.token s.free
        A.one_value B.one_value (S.one_text s.start) };

    ghost holds_bytes = { λ s. fork_bytes A.means B.means (S.texts s.start) s.allowed s.token A.holds_bytes
        B.holds_bytes (S.text_bytes s.start) };
}

impl<A: Token, B: Token, S: MakeToken<B>> Steps for Fork<A, B, S> {
    type Value = Either<A::Out, B::Out>;

    ghost rests = { ⟦<Fork<A, B, S> as Token>⟧.means };

    ghost room = { ⟦<Fork<A, B, S> as Token>⟧.size };

    ghost grows = { ⟦<Fork<A, B, S> as Token>⟧.grows };

    #[inline(always)]
    fn take_byte(&mut self, byte: u8) -> Result<bool, OutOfMemory> {
        if self.allowed && byte == self.byte {
            self.token = Either::Right(begun(&self.start, byte));
            self.allowed = false;
            return Ok(true);
        }
        match &mut self.token {
            Either::Left(token) => {
                let taken = token.step(byte);
                if let Ok(true) = taken {
                    self.allowed = false;
                }
                taken
            }
            Either::Right(token) => token.step(byte),
        }
    }

    #[inline(always)]
    fn take_run(&mut self, bytes: &[u8]) -> usize {
        match &mut self.token {
            Either::Left(token) => {
                let count = push_count(token, bytes);
                if count > 0 {
                    self.allowed = false;
                }
                count
            }
            Either::Right(token) => push_count(token, bytes),
        }
    }
}
