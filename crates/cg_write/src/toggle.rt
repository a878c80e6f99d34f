//! A controller that is enabled or disabled (cgroup-v2.rst, cgroup.subtree_control).
ghost use Rattle.std.specs.Prelude.{◌≡◌, ◌+◌, true, length};
ghost use Rattle.cg_text.specs.Token.{Spells};
ghost use Rattle.cg_write.specs.Texts.{IsSign, IsToggle};

use cg_join::{Choice, Either, MakeToken, MapValue, Mapped, Sequence};
use cg_text::{ByteText, Key, Pushed, Token, WordText};
use cg_value::Toggle;
use std::alloc::Global;

/// `+` or `-`.
type SignText = Choice<ByteText, ByteText>;

/// A sign and a controller's word, turned into the toggle.
#[derive(Clone, Copy)]
struct ToToggle;

impl MapValue<Sequence<SignText, WordText>> for ToToggle {
    type To = Toggle;

    ghost use Rattle.cg_write.specs.Mapped.{toggle_of};
    ghost use Rattle.std.proofs.Common.{arith};

    ghost mapped = { toggle_of };

    ghost value_size = { λ t. length t.name };

    fn map_value(value: (Either<(), ()>, Key)) -> Toggle {
        let (sign, name) = value;
        let on = match sign {
            Either::Left(_) => true,
            Either::Right(_) => false,
        };
        Toggle { on, name }
    }

    fn held_in(value: &Toggle) -> u64 {
        value.name.bytes().len() as u64
    }

    ghost adds_no_memory = { λ v. Prim.omega arith };
}

/// What the text of a toggle is made of.
type Parts = Mapped<Sequence<SignText, WordText>, ToToggle>;

/// A controller's word after a sign: `+` enables it for the groups below, and `-` disables it.
#[derive(Drop)]
pub struct ToggleText {
    parts: Parts,
}

/// A token of such texts.
fn sign_text() -> SignText
    ensures spells { Spells ⟦<SignText as Token>⟧.means result IsSign }
    ensures size { ⟦<SignText as Token>⟧.size result ≡ 0 }
{
    Choice::new(ByteText::new(b'+'), ByteText::new(b'-'))
}

impl ToggleText {
    /// A token of a sign and a controller's word.
    pub fn new(alloc: Global) -> ToggleText
        ensures spells { Spells ⟦<ToggleText as Token>⟧.means result IsToggle }
        ensures size { ⟦<ToggleText as Token>⟧.size result ≡ 0 }
    {
        let name = WordText::new(alloc, true);
        ToggleText {
            parts: Mapped::new(Sequence::new(sign_text(), name)),
        }
    }
}

impl Token for ToggleText {
    type Out = Toggle;

    ghost means = { λ s. ⟦<Parts as Token>⟧.means s.parts };

    ghost size = { λ s. ⟦<Parts as Token>⟧.size s.parts };

    ghost value_size = { λ t. length t.name };

    ghost ends = { λ s. ⟦<Parts as Token>⟧.ends s.parts };

    ghost grows = { ⟦<Parts as Token>⟧.grows };

    ghost completes = { λ s. ⟦<Parts as Token>⟧.completes s.parts };

    ghost no_size = { λ e s. ⟦<Parts as Token>⟧.no_size e s.parts };

    ghost ends_is = { λ s. ⟦<Parts as Token>⟧.ends_is s.parts };

    ghost one_value = { λ s. ⟦<Parts as Token>⟧.one_value s.parts };

    ghost holds_bytes = { λ s. ⟦<Parts as Token>⟧.holds_bytes s.parts };

    #[inline(always)]
    fn push(&mut self, bytes: &[u8]) -> Pushed {
        self.parts.push(bytes)
    }

    fn whole(&self, bytes: &[u8]) -> Option<(Toggle, usize)> {
        self.parts.whole(bytes)
    }

    fn allows(&self, byte: u8) -> bool {
        self.parts.allows(byte)
    }

    fn can_end(&self) -> bool {
        self.parts.can_end()
    }

    fn held(&self) -> u64 {
        self.parts.held()
    }

    fn take(self) -> Toggle {
        self.parts.take()
    }

    fn held_in(value: &Toggle) -> u64 {
        value.name.bytes().len() as u64
    }
}

/// Makes tokens of toggles.
#[derive(Clone, Copy)]
pub struct ToggleStart {
    alloc: Global,
}

impl ToggleStart {
    /// Toggles, whose names take their memory from `alloc`.
    pub fn new(alloc: Global) -> ToggleStart {
        ToggleStart { alloc }
    }
}

impl MakeToken<ToggleText> for ToggleStart {
    ghost use Rattle.cg_write.specs.ToggleLaws.{some_toggle, one_toggle, toggle_bytes};

    ghost texts = { λ _ text t. IsToggle text t };

    fn start(&self) -> ToggleText {
        ToggleText::new(self.alloc)
    }

    ghost some_text = { λ _. some_toggle };

    ghost one_text = { λ _. one_toggle };

    ghost text_bytes = { λ _. toggle_bytes };
}
