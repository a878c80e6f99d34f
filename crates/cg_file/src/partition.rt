//! The file of a partition (cgroup-v2.rst, cpuset.cpus.partition).
ghost use Rattle.std.specs.Prelude.{◌≡◌, true};
ghost use Rattle.cg_text.specs.Token.{Spells};
ghost use Rattle.cg_value.specs.Files.{KindText};
ghost use Rattle.cg_value.specs.declared.kind.ReadForm.TheVariants.{Partition as PartitionForm};
ghost use Rattle.cg_join.specs.Maybe.{IsMaybe};
ghost use Rattle.cg_file.specs.PartitionMapped.{IsInvalidText, IsPartitionText, IsReasonText, IsRootText};

use crate::branch::Branch;
use cg_join::{Choice, Either, LabelText, Line, MapValue, Maybe, Sequence, labelled, one_line};
use cg_text::{ByteText, Items, Keyword, KeywordText, Pushed, ReasonText, Token};
use cg_value::{Role, Value};
use std::alloc::Global;

type WhyParts = Maybe<LabelText<ReasonText>>;

/// Why a partition is invalid, in parentheses after a space, or nothing.
#[derive(Drop)]
pub struct WhyText {
    parts: WhyParts,
}

impl WhyText {
    /// A token of such texts.
    pub(crate) fn new(alloc: Global) -> WhyText
        ensures spells { Spells ⟦<WhyText as Token>⟧.means result (IsMaybe IsReasonText) }
        ensures size { ⟦<WhyText as Token>⟧.size result ≡ 0 }
    {
        WhyText {
            parts: Maybe::new(labelled(Keyword::Opening, ReasonText::new(alloc))),
        }
    }
}

impl Token for WhyText {
    type Out = Option<((), Items<u8>)>;

    ghost means = { λ s. ⟦<WhyParts as Token>⟧.means s.parts };

    ghost size = { λ s. ⟦<WhyParts as Token>⟧.size s.parts };

    ghost value_size = { ⟦<WhyParts as Token>⟧.value_size };

    ghost ends = { λ s. ⟦<WhyParts as Token>⟧.ends s.parts };

    ghost grows = { ⟦<WhyParts as Token>⟧.grows };

    ghost completes = { λ s. ⟦<WhyParts as Token>⟧.completes s.parts };

    ghost no_size = { λ e s. ⟦<WhyParts as Token>⟧.no_size e s.parts };

    ghost ends_is = { λ s. ⟦<WhyParts as Token>⟧.ends_is s.parts };

    ghost one_value = { λ s. ⟦<WhyParts as Token>⟧.one_value s.parts };

    ghost holds_bytes = { λ s. ⟦<WhyParts as Token>⟧.holds_bytes s.parts };

    fn push(&mut self, bytes: &[u8]) -> Pushed {
        self.parts.push(bytes)
    }

    fn allows(&self, byte: u8) -> bool {
        self.parts.allows(byte)
    }

    fn can_end(&self) -> bool {
        self.parts.can_end()
    }

    fn held(&self) -> u64 {
        self.parts.held()
    }

    fn take(self) -> Option<((), Items<u8>)> {
        self.parts.take()
    }

    fn held_in(value: &Option<((), Items<u8>)>) -> u64 {
        WhyParts::held_in(value)
    }
}

type InvalidParts = Maybe<LabelText<WhyText>>;

/// That a partition is invalid, perhaps with a reason, or nothing.
#[derive(Drop)]
pub struct InvalidText {
    parts: InvalidParts,
}

impl InvalidText {
    /// A token of such texts.
    pub(crate) fn new(alloc: Global) -> InvalidText
        ensures spells { Spells ⟦<InvalidText as Token>⟧.means result (IsMaybe IsInvalidText) }
        ensures size { ⟦<InvalidText as Token>⟧.size result ≡ 0 }
    {
        InvalidText {
            parts: Maybe::new(labelled(Keyword::Invalid, WhyText::new(alloc))),
        }
    }
}

impl Token for InvalidText {
    type Out = Option<((), Option<((), Items<u8>)>)>;

    ghost means = { λ s. ⟦<InvalidParts as Token>⟧.means s.parts };

    ghost size = { λ s. ⟦<InvalidParts as Token>⟧.size s.parts };

    ghost value_size = { ⟦<InvalidParts as Token>⟧.value_size };

    ghost ends = { λ s. ⟦<InvalidParts as Token>⟧.ends s.parts };

    ghost grows = { ⟦<InvalidParts as Token>⟧.grows };

    ghost completes = { λ s. ⟦<InvalidParts as Token>⟧.completes s.parts };

    ghost no_size = { λ e s. ⟦<InvalidParts as Token>⟧.no_size e s.parts };

    ghost ends_is = { λ s. ⟦<InvalidParts as Token>⟧.ends_is s.parts };

    ghost one_value = { λ s. ⟦<InvalidParts as Token>⟧.one_value s.parts };

    ghost holds_bytes = { λ s. ⟦<InvalidParts as Token>⟧.holds_bytes s.parts };

    fn push(&mut self, bytes: &[u8]) -> Pushed {
        self.parts.push(bytes)
    }

    fn allows(&self, byte: u8) -> bool {
        self.parts.allows(byte)
    }

    fn can_end(&self) -> bool {
        self.parts.can_end()
    }

    fn held(&self) -> u64 {
        self.parts.held()
    }

    fn take(self) -> Option<((), Option<((), Items<u8>)>)> {
        self.parts.take()
    }

    fn held_in(value: &Option<((), Option<((), Items<u8>)>)>) -> u64 {
        InvalidParts::held_in(value)
    }
}

/// What the text of another role gives: which it is, and where it is invalid why, if that is known.
type RootValue = (Either<(), ()>, Option<((), Option<((), Items<u8>)>)>);

type RootParts = Sequence<Choice<KeywordText, KeywordText>, InvalidText>;

/// A root or an isolated partition, perhaps invalid, perhaps with a reason.
#[derive(Drop)]
pub struct RootText {
    parts: RootParts,
}

impl RootText {
    /// A token of such texts.
    pub(crate) fn new(alloc: Global) -> RootText
        ensures spells { Spells ⟦<RootText as Token>⟧.means result IsRootText }
        ensures size { ⟦<RootText as Token>⟧.size result ≡ 0 }
    {
        let root = KeywordText::new(Keyword::Root);
        let isolated = KeywordText::new(Keyword::Isolated);
        let role = Choice::new(root, isolated);
        RootText {
            parts: Sequence::new(role, InvalidText::new(alloc)),
        }
    }
}

impl Token for RootText {
    type Out = RootValue;

    ghost means = { λ s. ⟦<RootParts as Token>⟧.means s.parts };

    ghost size = { λ s. ⟦<RootParts as Token>⟧.size s.parts };

    ghost value_size = { ⟦<RootParts as Token>⟧.value_size };

    ghost ends = { λ s. ⟦<RootParts as Token>⟧.ends s.parts };

    ghost grows = { ⟦<RootParts as Token>⟧.grows };

    ghost completes = { λ s. ⟦<RootParts as Token>⟧.completes s.parts };

    ghost no_size = { λ e s. ⟦<RootParts as Token>⟧.no_size e s.parts };

    ghost ends_is = { λ s. ⟦<RootParts as Token>⟧.ends_is s.parts };

    ghost one_value = { λ s. ⟦<RootParts as Token>⟧.one_value s.parts };

    ghost holds_bytes = { λ s. ⟦<RootParts as Token>⟧.holds_bytes s.parts };

    fn push(&mut self, bytes: &[u8]) -> Pushed {
        self.parts.push(bytes)
    }

    fn allows(&self, byte: u8) -> bool {
        self.parts.allows(byte)
    }

    fn can_end(&self) -> bool {
        self.parts.can_end()
    }

    fn held(&self) -> u64 {
        self.parts.held()
    }

    fn take(self) -> RootValue {
        self.parts.take()
    }

    fn held_in(value: &RootValue) -> u64 {
        RootParts::held_in(value)
    }
}

/// A member, which is always valid, or another role.
type PartitionText = Branch<KeywordText, RootText>;

/// A member or another role.
fn partition_text(alloc: Global) -> PartitionText
    ensures spells { Spells ⟦<PartitionText as Token>⟧.means result IsPartitionText }
    ensures size { ⟦<PartitionText as Token>⟧.size result ≡ 0 }
{
    Branch::new(KeywordText::new(Keyword::Member), RootText::new(alloc))
}

/// A line, turned into the file's value.
#[derive(Clone, Copy)]
pub struct ToPartition;

impl MapValue<Sequence<PartitionText, ByteText>> for ToPartition {
    type To = Value;

    ghost use Rattle.cg_join.specs.SettledLaws.{zero_least};
    ghost use Rattle.cg_file.specs.PartitionMapped.{partition_value};

    ghost mapped = { partition_value };

    ghost value_size = { λ _. 0 };

    fn map_value(value: (Either<(), RootValue>, ())) -> Value {
        match value.0 {
            Either::Left(_) => Value::Partition {
                role: Role::Member,
                valid: true,
                reason: None,
            },
            Either::Right((root, invalid)) => {
                let role = match root {
                    Either::Left(_) => Role::Root,
                    Either::Right(_) => Role::Isolated,
                };
                let (valid, reason) = match invalid {
                    None => (true, None),
                    Some((_, None)) => (false, None),
                    Some((_, Some((_, why)))) => (false, Some(why)),
                };
                Value::Partition {
                    role,
                    valid,
                    reason,
                }
            }
        }
    }

    fn held_in(_value: &Value) -> u64 {
        0
    }

    ghost adds_no_memory = { λ v. zero_least _ };
}

type Text = Line<PartitionText, ToPartition>;

/// The text of the file of a partition: its role, and of one that is invalid, also why.
#[derive(Drop)]
pub struct PartitionFile {
    text: Text,
}

impl PartitionFile {
    /// A token of such files.
    pub fn new(alloc: Global) -> PartitionFile
        ensures spells { Spells ⟦<PartitionFile as Token>⟧.means result (λ text v. KindText PartitionForm v text) }
        ensures size { ⟦<PartitionFile as Token>⟧.size result ≡ 0 }
    {
        PartitionFile {
            text: one_line(partition_text(alloc)),
        }
    }
}

impl Token for PartitionFile {
    type Out = Value;

    ghost means = { λ s. ⟦<Text as Token>⟧.means s.text };

    ghost size = { λ s. ⟦<Text as Token>⟧.size s.text };

    ghost value_size = { λ _. 0 };

    ghost ends = { λ s. ⟦<Text as Token>⟧.ends s.text };

    ghost grows = { ⟦<Text as Token>⟧.grows };

    ghost completes = { λ s. ⟦<Text as Token>⟧.completes s.text };

    ghost no_size = { λ e s. ⟦<Text as Token>⟧.no_size e s.text };

    ghost ends_is = { λ s. ⟦<Text as Token>⟧.ends_is s.text };

    ghost one_value = { λ s. ⟦<Text as Token>⟧.one_value s.text };

    ghost holds_bytes = { λ s. ⟦<Text as Token>⟧.holds_bytes s.text };

    fn push(&mut self, bytes: &[u8]) -> Pushed {
        self.text.push(bytes)
    }

    fn allows(&self, byte: u8) -> bool {
        self.text.allows(byte)
    }

    fn can_end(&self) -> bool {
        self.text.can_end()
    }

    fn held(&self) -> u64 {
        self.text.held()
    }

    fn take(self) -> Value {
        self.text.take()
    }

    fn held_in(_value: &Value) -> u64 {
        0
    }
}
