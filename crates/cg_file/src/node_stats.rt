//! A file of a total and pairs of a node and a number (cgroup-v2.rst, "HugeTLB": hugetlb.2MB.numa_stat).
ghost use Rattle.std.specs.Prelude.{◌≡◌};
ghost use Rattle.cg_text.specs.Token.{Spells};
ghost use Rattle.cg_value.specs.Files.{KindText};
ghost use Rattle.cg_value.specs.declared.kind.ReadForm.TheVariants.{NodeStats as NodeStatsForm};
ghost use Rattle.cg_file.specs.NestedFileLaws.{PairsText};
ghost use Rattle.cg_file.specs.NodeStatsFileLaws.{IsNodesText};

use crate::nested::NestedPairs;
use cg_index::KeyedItems;
use cg_join::{
    DistinctPairs, LabelText, Line, MapValue, NumberStart, Sequence, WordStart, decimal_in,
    labelled, one_line,
};
use cg_text::{ByteText, DecimalText, Keyword, Pushed, Token};
use cg_value::{NestedPair, Value};
use std::alloc::Global;

/// Any number of pairs of a word, an equals sign and a number, each after a space, no word twice.
#[derive(Drop)]
pub struct NodePairs {
    pairs: NestedPairs,
}

impl NodePairs {
    /// A token of such pairs.
    pub(crate) fn new(alloc: Global) -> NodePairs
        ensures spells { Spells ⟦<NodePairs as Token>⟧.means result PairsText }
        ensures size { ⟦<NodePairs as Token>⟧.size result ≡ 0 }
    {
        let words = WordStart::new(alloc, false);
        let numbers = NumberStart::new(0, u64::MAX);
        NodePairs {
            pairs: DistinctPairs::new(alloc, words, numbers, b' ', b'='),
        }
    }
}

impl Token for NodePairs {
    type Out = KeyedItems<NestedPair>;

    ghost means = { λ s. ⟦<NestedPairs as Token>⟧.means s.pairs };

    ghost size = { λ s. ⟦<NestedPairs as Token>⟧.size s.pairs };

    ghost value_size = { ⟦<NestedPairs as Token>⟧.value_size };

    ghost ends = { λ s. ⟦<NestedPairs as Token>⟧.ends s.pairs };

    ghost grows = { ⟦<NestedPairs as Token>⟧.grows };

    ghost completes = { λ s. ⟦<NestedPairs as Token>⟧.completes s.pairs };

    ghost no_size = { λ e s. ⟦<NestedPairs as Token>⟧.no_size e s.pairs };

    ghost ends_is = { λ s. ⟦<NestedPairs as Token>⟧.ends_is s.pairs };

    ghost one_value = { λ s. ⟦<NestedPairs as Token>⟧.one_value s.pairs };

    ghost holds_bytes = { λ s. ⟦<NestedPairs as Token>⟧.holds_bytes s.pairs };

    fn push(&mut self, bytes: &[u8]) -> Pushed {
        self.pairs.push(bytes)
    }

    fn allows(&self, byte: u8) -> bool {
        self.pairs.allows(byte)
    }

    fn can_end(&self) -> bool {
        self.pairs.can_end()
    }

    fn held(&self) -> u64 {
        self.pairs.held()
    }

    fn take(self) -> KeyedItems<NestedPair> {
        self.pairs.take()
    }

    fn held_in(value: &KeyedItems<NestedPair>) -> u64 {
        NestedPairs::held_in(value)
    }
}

type NodesParts = LabelText<Sequence<DecimalText, NodePairs>>;

/// `total=`, a number, and such pairs.
#[derive(Drop)]
pub struct NodesText {
    parts: NodesParts,
}

impl NodesText {
    /// A token of such texts.
    pub(crate) fn new(alloc: Global) -> NodesText
        ensures spells { Spells ⟦<NodesText as Token>⟧.means result IsNodesText }
        ensures size { ⟦<NodesText as Token>⟧.size result ≡ 0 }
    {
        let total = decimal_in(0, u64::MAX);
        let nodes = NodePairs::new(alloc);
        let both = Sequence::new(total, nodes);
        NodesText {
            parts: labelled(Keyword::NodeTotal, both),
        }
    }
}

impl Token for NodesText {
    type Out = ((), (u64, KeyedItems<NestedPair>));

    ghost means = { λ s. ⟦<NodesParts as Token>⟧.means s.parts };

    ghost size = { λ s. ⟦<NodesParts as Token>⟧.size s.parts };

    ghost value_size = { ⟦<NodesParts as Token>⟧.value_size };

    ghost ends = { λ s. ⟦<NodesParts as Token>⟧.ends s.parts };

    ghost grows = { ⟦<NodesParts as Token>⟧.grows };

    ghost completes = { λ s. ⟦<NodesParts as Token>⟧.completes s.parts };

    ghost no_size = { λ e s. ⟦<NodesParts as Token>⟧.no_size e s.parts };

    ghost ends_is = { λ s. ⟦<NodesParts as Token>⟧.ends_is s.parts };

    ghost one_value = { λ s. ⟦<NodesParts as Token>⟧.one_value s.parts };

    ghost holds_bytes = { λ s. ⟦<NodesParts as Token>⟧.holds_bytes s.parts };

    fn push(&mut self, bytes: &[u8]) -> Pushed {
        self.parts.push(bytes)
    }

    fn allows(&self, byte: u8) -> bool {
        self.parts.allows(byte)
    }

    fn can_end(&self) -> bool {
        self.parts.can_end()
    }

    fn held(&self) -> u64 {
        self.parts.held()
    }

    fn take(self) -> ((), (u64, KeyedItems<NestedPair>)) {
        self.parts.take()
    }

    fn held_in(value: &((), (u64, KeyedItems<NestedPair>))) -> u64 {
        NodesParts::held_in(value)
    }
}

/// A line, turned into the file's value.
#[derive(Clone, Copy)]
pub struct ToNodeStats;

impl MapValue<Sequence<NodesText, ByteText>> for ToNodeStats {
    type To = Value;

    ghost use Rattle.cg_join.specs.SettledLaws.{zero_least};
    ghost use Rattle.cg_file.specs.NodeStatsFileLaws.{node_stats_value};

    ghost mapped = { node_stats_value };

    ghost value_size = { λ _. 0 };

    fn map_value(value: (((), (u64, KeyedItems<NestedPair>)), ())) -> Value {
        let ((_, (total, nodes)), _) = value;
        Value::NodeStats { total, nodes }
    }

    fn held_in(_value: &Value) -> u64 {
        0
    }

    ghost adds_no_memory = { λ v. zero_least _ };
}

type Text = Line<NodesText, ToNodeStats>;

/// The text of a file of a total and any number of pairs of a word and a number, on one line, no word twice.
#[derive(Drop)]
pub struct NodeStatsFile {
    text: Text,
}

impl NodeStatsFile {
    /// A token of such files.
    pub fn new(alloc: Global) -> NodeStatsFile
        ensures spells { Spells ⟦<NodeStatsFile as Token>⟧.means result (λ text v. KindText NodeStatsForm v text) }
        ensures size { ⟦<NodeStatsFile as Token>⟧.size result ≡ 0 }
    {
        NodeStatsFile {
            text: one_line(NodesText::new(alloc)),
        }
    }
}

impl Token for NodeStatsFile {
    type Out = Value;

    ghost means = { λ s. ⟦<Text as Token>⟧.means s.text };

    ghost size = { λ s. ⟦<Text as Token>⟧.size s.text };

    ghost value_size = { λ _. 0 };

    ghost ends = { λ s. ⟦<Text as Token>⟧.ends s.text };

    ghost grows = { ⟦<Text as Token>⟧.grows };

    ghost completes = { λ s. ⟦<Text as Token>⟧.completes s.text };

    ghost no_size = { λ e s. ⟦<Text as Token>⟧.no_size e s.text };

    ghost ends_is = { λ s. ⟦<Text as Token>⟧.ends_is s.text };

    ghost one_value = { λ s. ⟦<Text as Token>⟧.one_value s.text };

    ghost holds_bytes = { λ s. ⟦<Text as Token>⟧.holds_bytes s.text };

    fn push(&mut self, bytes: &[u8]) -> Pushed {
        self.text.push(bytes)
    }

    fn allows(&self, byte: u8) -> bool {
        self.text.allows(byte)
    }

    fn can_end(&self) -> bool {
        self.text.can_end()
    }

    fn held(&self) -> u64 {
        self.text.held()
    }

    fn take(self) -> Value {
        self.text.take()
    }

    fn held_in(_value: &Value) -> u64 {
        0
    }
}
