//! The texts of the grammar that are always the same.
ghost use Rattle.std.specs.Prelude.{◌≡◌, ◌≤◌, false, length, drop, refl, nat_eq};
ghost use Rattle.cg_text.specs.Token.{Spells};
ghost use Rattle.cg_text.specs.Keyword.{text_of};

use crate::memory::OutOfMemory;
use crate::pushed::Pushed;
use crate::steps::{Steps, push_bytes};
use crate::token::Token;

/// A text of the grammar that is always the same: a word, or a label with the space before it and the `=` behind it
/// (cgroup-v2.rst, "Interface Files"; psi.rst).
#[derive(Clone, Copy, Debug, PartialEq, Eq)]
pub enum Keyword {
    /// `max`: no limit.
    Max,
    /// `(unknown)`: a device that is gone.
    Unknown,
    /// `default`: what holds where nothing else is said.
    Default,
    /// `some`: at least one task stalls.
    Some,
    /// `full`: all tasks stall.
    Full,
    /// `domain`: a group of its own resource domain.
    Domain,
    /// `domain threaded`: a domain that serves as the root of a threaded subtree.
    DomainThreaded,
    /// `domain invalid`: a group that is in an invalid state.
    DomainInvalid,
    /// `threaded`: a threaded group.
    Threaded,
    /// `no-change`: requests keep their priority.
    NoChange,
    /// `promote-to-rt`: requests get the class of real time.
    PromoteToRt,
    /// `restrict-to-be`: requests get the class of best effort at most.
    RestrictToBe,
    /// `idle`: requests get the class that is served when no other wants the device.
    Idle,
    /// `none-to-rt`: the old word for `promote-to-rt`.
    NoneToRt,
    /// `member`: a partition's member, which is no root.
    Member,
    /// `root`: a partition root.
    Root,
    /// `isolated`: a partition root without load balancing.
    Isolated,
    /// ` invalid`: what follows the role of an invalid partition root.
    Invalid,
    /// ` (`: what stands before the reason of an invalid partition.
    Opening,
    /// ` rbps=`: before the greatest number of bytes read a second.
    Rbps,
    /// ` wbps=`: before the greatest number of bytes written a second.
    Wbps,
    /// ` riops=`: before the greatest number of reads a second.
    Riops,
    /// ` wiops=`: before the greatest number of writes a second.
    Wiops,
    /// ` target=`: before a device's latency target.
    Target,
    /// ` swappiness=`: before the swappiness of a reclaim.
    Swappiness,
    /// ` avg10=`: before the average over ten seconds.
    Avg10,
    /// ` avg60=`: before the average over a minute.
    Avg60,
    /// ` avg300=`: before the average over five minutes.
    Avg300,
    /// ` total=`: before the total stall time.
    Total,
    /// `total=`: before the total of all nodes.
    NodeTotal,
}

impl Keyword {
    /// Its bytes.
    pub fn text(self) -> &'static [u8]
        ensures { result.now ≡ text_of self }
    {
        match self {
            Keyword::Max => b"max",
            Keyword::Unknown => b"(unknown)",
            Keyword::Default => b"default",
            Keyword::Some => b"some",
            Keyword::Full => b"full",
            Keyword::Domain => b"domain",
            Keyword::DomainThreaded => b"domain threaded",
            Keyword::DomainInvalid => b"domain invalid",
            Keyword::Threaded => b"threaded",
            Keyword::NoChange => b"no-change",
            Keyword::PromoteToRt => b"promote-to-rt",
            Keyword::RestrictToBe => b"restrict-to-be",
            Keyword::Idle => b"idle",
            Keyword::NoneToRt => b"none-to-rt",
            Keyword::Member => b"member",
            Keyword::Root => b"root",
            Keyword::Isolated => b"isolated",
            Keyword::Invalid => b" invalid",
            Keyword::Opening => b" (",
            Keyword::Rbps => b" rbps=",
            Keyword::Wbps => b" wbps=",
            Keyword::Riops => b" riops=",
            Keyword::Wiops => b" wiops=",
            Keyword::Target => b" target=",
            Keyword::Swappiness => b" swappiness=",
            Keyword::Avg10 => b" avg10=",
            Keyword::Avg60 => b" avg60=",
            Keyword::Avg300 => b" avg300=",
            Keyword::Total => b" total=",
            Keyword::NodeTotal => b"total=",
        }
    }
}

/// One of these texts. Unlike a `FixedText` it holds no reference.
#[derive(Clone, Copy, Drop)]
pub struct KeywordText {
    keyword: Keyword,
    at: usize,
    ghost within: { at ≤ length (text_of keyword) },
}

impl KeywordText {
    /// A token of this text.
    pub fn new(keyword: Keyword) -> KeywordText
        ensures spells { Spells ⟦<KeywordText as Token>⟧.means result (λ rest _. rest ≡ text_of keyword) }
        ensures size { ⟦<KeywordText as Token>⟧.size result ≡ 0 }
    {
        KeywordText { keyword, at: 0 }
    }
}

impl Token for KeywordText {
    type Out = ();

    ghost use Rattle.cg_text.specs.TokenLaws.{fixed_bytes};
    ghost use Rattle.cg_text.specs.FixedLaws.{drop_at_end};
    ghost use Rattle.cg_text.specs.KeywordLaws.{keyword_bytes};

    ghost means = { λ s rest _. rest ≡ drop s.at (text_of s.keyword) };

    ghost size = { λ _. 0 };

    ghost value_size = { λ _. 0 };

    ghost ends = { λ s. nat_eq s.at (length (text_of s.keyword)) };

    ghost grows = { false };

    fn push(&mut self, bytes: &[u8]) -> Pushed {
        push_bytes(self, bytes)
    }

    #[inline(always)]
    fn whole(&self, bytes: &[u8]) -> Option<((), usize)> {
        let (_, left) = self.keyword.text().split_at(self.at);
        // Mostly the first byte tells.
        if left.is_empty() || bytes.is_empty() || bytes[0] != left[0] {
            return None;
        }
        if bytes.starts_with(left) {
            Some(((), left.len()))
        } else {
            None
        }
    }

    fn allows(&self, byte: u8) -> bool {
        let text = self.keyword.text();
        self.at < text.len() && text[self.at] == byte
    }

    fn can_end(&self) -> bool {
        self.at == self.keyword.text().len()
    }

    fn held(&self) -> u64 {
        0
    }

    fn take(self) {}

    fn held_in(_value: &()) -> u64 {
        0
    }

    ghost completes = { λ s. (drop s.at (text_of s.keyword), tt, refl) };

    ghost no_size = { λ _ _. refl };

    ghost ends_is = { λ s. drop_at_end s.at (text_of s.keyword) s.within };

    ghost one_value = { λ s rest v w h k. refl };

    ghost holds_bytes = { λ s rest v h. fixed_bytes s.at (text_of s.keyword) rest (keyword_bytes s.keyword) h };
}

impl Steps for KeywordText {
    type Value = ();

    ghost rests = { ⟦<KeywordText as Token>⟧.means };

    ghost room = { ⟦<KeywordText as Token>⟧.size };

    ghost grows = { ⟦<KeywordText as Token>⟧.grows };

    fn take_byte(&mut self, byte: u8) -> Result<bool, OutOfMemory> {
        let text = self.keyword.text();
        if self.at < text.len() && text[self.at] == byte {
            self.at += 1;
            Ok(true)
        } else {
            Ok(false)
        }
    }
}
