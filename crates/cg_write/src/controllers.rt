//! A write of controllers that are enabled and disabled for the groups below (cgroup-v2.rst, cgroup.subtree_control).
ghost use Rattle.std.specs.Prelude.{◌≡◌};
ghost use Rattle.cg_text.specs.Token.{Spells};
ghost use Rattle.cg_value.specs.Settings.{WriteText};
ghost use Rattle.cg_value.specs.declared.kind.WriteForm.TheVariants.{Controllers as ControllersForm};
ghost use Rattle.cg_write.specs.Texts.{AreJoinedToggles};

use crate::toggle::{ToggleStart, ToggleText};
use cg_join::{Line, MapValue, Repeat, Sequence, one_line};
use cg_text::{ByteText, Items, Pushed, Token};
use cg_value::{Setting, Toggle};
use std::alloc::Global;

/// One or more toggles with single spaces between.
type TogglesText = Repeat<ToggleText, ToggleStart>;

/// A token of such texts.
fn toggles_text(alloc: Global) -> TogglesText
    ensures spells { Spells ⟦<TogglesText as Token>⟧.means result AreJoinedToggles }
    ensures size { ⟦<TogglesText as Token>⟧.size result ≡ 0 }
{
    Repeat::new(alloc, ToggleStart::new(alloc), b' ')
}

/// The line, turned into the setting.
#[derive(Clone, Copy)]
struct ToControllers;

impl MapValue<Sequence<TogglesText, ByteText>> for ToControllers {
    type To = Setting;

    ghost use Rattle.cg_write.specs.Mapped.{controllers_setting};
    ghost use Rattle.std.proofs.Common.{arith};

    ghost mapped = { controllers_setting };

    ghost value_size = { λ _. 0 };

    fn map_value(value: (Items<Toggle>, ())) -> Setting {
        Setting::Controllers(value.0)
    }

    fn held_in(_value: &Setting) -> u64 {
        0
    }

    ghost adds_no_memory = { λ v. Prim.omega arith };
}

type Text = Line<TogglesText, ToControllers>;

/// The text of a write of controllers, each with `+` or `-` before it.
#[derive(Drop)]
pub struct ControllersWrite {
    text: Text,
}

impl ControllersWrite {
    /// The text of a write of controllers, each with `+` or `-` before it (cgroup-v2.rst, cgroup.subtree_control).
    pub fn new(alloc: Global) -> ControllersWrite
        ensures spells { Spells ⟦<ControllersWrite as Token>⟧.means result
            (λ text s. WriteText ControllersForm s text) }
        ensures size { ⟦<ControllersWrite as Token>⟧.size result ≡ 0 }
    {
        ControllersWrite {
            text: one_line(toggles_text(alloc)),
        }
    }
}

impl Token for ControllersWrite {
    type Out = Setting;

    ghost means = { λ s. ⟦<Text as Token>⟧.means s.text };

    ghost size = { λ s. ⟦<Text as Token>⟧.size s.text };

    ghost value_size = { λ _. 0 };

    ghost ends = { λ s. ⟦<Text as Token>⟧.ends s.text };

    ghost grows = { ⟦<Text as Token>⟧.grows };

    ghost completes = { λ s. ⟦<Text as Token>⟧.completes s.text };

    ghost no_size = { λ e s. ⟦<Text as Token>⟧.no_size e s.text };

    ghost ends_is = { λ s. ⟦<Text as Token>⟧.ends_is s.text };

    ghost one_value = { λ s. ⟦<Text as Token>⟧.one_value s.text };

    ghost holds_bytes = { λ s. ⟦<Text as Token>⟧.holds_bytes s.text };

    fn push(&mut self, bytes: &[u8]) -> Pushed {
        self.text.push(bytes)
    }

    fn allows(&self, byte: u8) -> bool {
        self.text.allows(byte)
    }

    fn can_end(&self) -> bool {
        self.text.can_end()
    }

    fn held(&self) -> u64 {
        self.text.held()
    }

    fn take(self) -> Setting {
        self.text.take()
    }

    fn held_in(_value: &Setting) -> u64 {
        0
    }
}
