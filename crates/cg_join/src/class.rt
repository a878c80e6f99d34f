//! Classes of requests.
ghost use Rattle.std.specs.Prelude.{◌≡◌, false, refl};
ghost use Rattle.cg_text.specs.Class.{IsClass};
ghost use Rattle.cg_text.specs.Token.{Spells};
ghost use Rattle.cg_join.specs.ClassState.{IsClassWord};

use crate::choice::{Choice, Either};
use crate::mapped::{MapValue, Mapped};
use cg_text::{IoClass, Keyword, KeywordText, Pushed, Token};

/// One of two words.
type TwoWords = Choice<KeywordText, KeywordText>;

/// The five words: the two that begin alike, or one of the others.
type Words = Choice<TwoWords, Choice<KeywordText, TwoWords>>;

/// A token of these words.
fn words() -> Words
    ensures spells { Spells ⟦<Words as Token>⟧.means result IsClassWord }
    ensures size { ⟦<Words as Token>⟧.size result ≡ 0 }
{
    let no_change = KeywordText::new(Keyword::NoChange);
    let none_to_rt = KeywordText::new(Keyword::NoneToRt);
    let promote = KeywordText::new(Keyword::PromoteToRt);
    let restrict = KeywordText::new(Keyword::RestrictToBe);
    let idle = KeywordText::new(Keyword::Idle);
    let alike = Choice::new(no_change, none_to_rt);
    let low = Choice::new(restrict, idle);
    let others = Choice::new(promote, low);
    Choice::new(alike, others)
}

/// The class of a word.
#[derive(Clone, Copy)]
struct ToClass;

impl MapValue<Words> for ToClass {
    type To = IoClass;

    ghost use Rattle.cg_join.specs.ClassState.{class_of};

    ghost mapped = { class_of };

    ghost value_size = { λ _. 0 };

    fn map_value(value: Either<Either<(), ()>, Either<(), Either<(), ()>>>) -> IoClass {
        match value {
            Either::Left(Either::Left(_)) => IoClass::NoChange,
            Either::Left(Either::Right(_)) => IoClass::NoneToRt,
            Either::Right(Either::Left(_)) => IoClass::PromoteToRt,
            Either::Right(Either::Right(Either::Left(_))) => IoClass::RestrictToBe,
            Either::Right(Either::Right(Either::Right(_))) => IoClass::Idle,
        }
    }

    fn held_in(_value: &IoClass) -> u64 {
        0
    }

    ghost use Rattle.std.proofs.Common.{arith};

    ghost adds_no_memory = { λ v. Prim.omega arith };
}

type Parts = Mapped<Words, ToClass>;

/// The word of a class of requests (cgroup-v2.rst, "IO Priority").
#[derive(Drop)]
pub struct ClassText {
    parts: Parts,
}

impl ClassText {
    /// A token of such words.
    pub fn new() -> ClassText
        ensures spells { Spells ⟦<ClassText as Token>⟧.means result (λ rest v. IsClass v rest) }
        ensures size { ⟦<ClassText as Token>⟧.size result ≡ 0 }
    {
        ClassText {
            parts: Mapped::new(words()),
        }
    }
}

impl Token for ClassText {
    type Out = IoClass;

    ghost means = { λ s rest v. ⟦<Parts as Token>⟧.means s.parts rest v };

    ghost size = { λ _. 0 };

    ghost value_size = { λ _. 0 };

    ghost ends = { λ s. ⟦<Parts as Token>⟧.ends s.parts };

    ghost grows = { false };

    ghost completes = { λ s. ⟦<Parts as Token>⟧.completes s.parts };

    ghost no_size = { λ _ _. refl };

    ghost ends_is = { λ s. ⟦<Parts as Token>⟧.ends_is s.parts };

    ghost one_value = { λ s. ⟦<Parts as Token>⟧.one_value s.parts };

    ghost holds_bytes = { λ s. ⟦<Parts as Token>⟧.holds_bytes s.parts };

    #[inline(always)]
    fn push(&mut self, bytes: &[u8]) -> Pushed {
        self.parts.push(bytes)
    }

    #[inline(always)]
    fn whole(&self, bytes: &[u8]) -> Option<(IoClass, usize)> {
        self.parts.whole(bytes)
    }

    fn allows(&self, byte: u8) -> bool {
        self.parts.allows(byte)
    }

    fn can_end(&self) -> bool {
        self.parts.can_end()
    }

    fn held(&self) -> u64 {
        0
    }

    fn take(self) -> IoClass {
        self.parts.take()
    }

    fn held_in(_value: &IoClass) -> u64 {
        0
    }
}
