//! A write of the role of a partition (cgroup-v2.rst, cpuset.cpus.partition).
ghost use Rattle.std.specs.Prelude.{◌≡◌};
ghost use Rattle.cg_text.specs.Token.{Spells};
ghost use Rattle.cg_value.specs.Settings.{WriteText};
ghost use Rattle.cg_value.specs.declared.kind.WriteForm.TheVariants.{Role as RoleForm};
ghost use Rattle.cg_write.specs.Texts.{IsRoleWord};

use cg_join::{Choice, Either, Line, MapValue, Sequence, one_line};
use cg_text::{ByteText, Keyword, KeywordText, Pushed, Token};
use cg_value::{Role, Setting};

/// The words of roots, with and without load balancing.
type RootText = Choice<KeywordText, KeywordText>;

/// The words of roles.
type RoleText = Choice<KeywordText, RootText>;

/// A token of such words.
fn role_text() -> RoleText
    ensures spells { Spells ⟦<RoleText as Token>⟧.means result IsRoleWord }
    ensures size { ⟦<RoleText as Token>⟧.size result ≡ 0 }
{
    let member = KeywordText::new(Keyword::Member);
    let root = KeywordText::new(Keyword::Root);
    let isolated = KeywordText::new(Keyword::Isolated);
    let roots = Choice::new(root, isolated);
    Choice::new(member, roots)
}

/// The line, turned into the setting.
#[derive(Clone, Copy)]
struct ToRole;

impl MapValue<Sequence<RoleText, ByteText>> for ToRole {
    type To = Setting;

    ghost use Rattle.cg_write.specs.Mapped.{role_setting};
    ghost use Rattle.std.proofs.Common.{arith};

    ghost mapped = { role_setting };

    ghost value_size = { λ _. 0 };

    fn map_value(value: (Either<(), Either<(), ()>>, ())) -> Setting {
        Setting::Role(match value.0 {
            Either::Left(_) => Role::Member,
            Either::Right(Either::Left(_)) => Role::Root,
            Either::Right(Either::Right(_)) => Role::Isolated,
        })
    }

    fn held_in(_value: &Setting) -> u64 {
        0
    }

    ghost adds_no_memory = { λ v. Prim.omega arith };
}

type Text = Line<RoleText, ToRole>;

/// The text of a write of `member`, `root` or `isolated`.
#[derive(Drop)]
pub struct RoleWrite {
    text: Text,
}

impl RoleWrite {
    /// The text of a write of `member`, `root` or `isolated` (cgroup-v2.rst, cpuset.cpus.partition).
    pub fn new() -> RoleWrite
        ensures spells { Spells ⟦<RoleWrite as Token>⟧.means result (λ text s. WriteText RoleForm s text) }
        ensures size { ⟦<RoleWrite as Token>⟧.size result ≡ 0 }
    {
        RoleWrite {
            text: one_line(role_text()),
        }
    }
}

impl Token for RoleWrite {
    type Out = Setting;

    ghost means = { λ s. ⟦<Text as Token>⟧.means s.text };

    ghost size = { λ s. ⟦<Text as Token>⟧.size s.text };

    ghost value_size = { λ _. 0 };

    ghost ends = { λ s. ⟦<Text as Token>⟧.ends s.text };

    ghost grows = { ⟦<Text as Token>⟧.grows };

    ghost completes = { λ s. ⟦<Text as Token>⟧.completes s.text };

    ghost no_size = { λ e s. ⟦<Text as Token>⟧.no_size e s.text };

    ghost ends_is = { λ s. ⟦<Text as Token>⟧.ends_is s.text };

    ghost one_value = { λ s. ⟦<Text as Token>⟧.one_value s.text };

    ghost holds_bytes = { λ s. ⟦<Text as Token>⟧.holds_bytes s.text };

    fn push(&mut self, bytes: &[u8]) -> Pushed {
        self.text.push(bytes)
    }

    fn whole(&self, bytes: &[u8]) -> Option<(Setting, usize)> {
        self.text.whole(bytes)
    }

    fn allows(&self, byte: u8) -> bool {
        self.text.allows(byte)
    }

    fn can_end(&self) -> bool {
        self.text.can_end()
    }

    fn held(&self) -> u64 {
        self.text.held()
    }

    fn take(self) -> Setting {
        self.text.take()
    }

    fn held_in(_value: &Setting) -> u64 {
        0
    }
}
