//! A flat keyed file of limits (cgroup-v2.rst, misc.max; "Interface Files", "Format").
ghost use Rattle.std.specs.Prelude.{◌≡◌};
ghost use Rattle.cg_text.specs.Token.{Spells};
ghost use Rattle.cg_value.specs.Files.{KindText};
ghost use Rattle.cg_value.specs.declared.kind.ReadForm.TheVariants.{FlatLimits as FlatLimitsForm};

use cg_index::KeyedItems;
use cg_join::{
    KeyedLines, LimitText, MakePair, MakeToken, MakeValue, MapValue, Mapped, PairList, WordStart,
    limit_in,
};
use cg_text::{Key, Limit, Pushed, Token};
use cg_value::{FlatLimit, Value};
use std::alloc::Global;

/// Makes tokens of limits.
#[derive(Clone, Copy, Drop)]
pub struct LimitStart;

impl MakeToken<LimitText> for LimitStart {
    ghost use Rattle.cg_text.specs.Limit.{IsLimit};
    ghost use Rattle.cg_file.specs.FlatLimitsFileLaws.{any_limit_startable};

    ghost texts = { λ _ text limit. IsLimit 0 18446744073709551615 limit text };

    fn start(&self) -> LimitText {
        limit_in(0, u64::MAX)
    }

    ghost some_text = { λ _. any_limit_startable.some };

    ghost one_text = { λ _. any_limit_startable.one };

    ghost text_bytes = { λ _. any_limit_startable.bytes };
}

// A key never stands alone.
impl MakeValue<LimitText> for LimitStart {
    ghost use Rattle.std.specs.Prelude.{None};
    ghost use Rattle.cg_join.specs.KeyedLaws.{none_some};

    ghost bare_value = { λ _. None };

    fn bare_value(&self) -> Option<Limit> {
        None
    }

    ghost bare_value_empty = { λ _ value e. absurd (none_some value e) };
}

/// Makes a pair of a key and its limit.
pub struct FlatLimitMaking;

impl MakePair<LimitText> for FlatLimitMaking {
    type Pair = FlatLimit;

    ghost use Rattle.std.specs.Prelude.{refl};

    ghost key_of = { λ p. p.key };

    ghost value_of = { λ p. p.limit };

    ghost paired = { λ key limit. record { key = key; limit = limit } };

    fn pair(key: Key, value: Limit) -> FlatLimit {
        FlatLimit { key, limit: value }
    }

    fn value(pair: &FlatLimit) -> &Limit {
        &pair.limit
    }

    ghost has_key = { λ _ _. refl };

    ghost has_value = { λ _ _. refl };

    ghost whole = { λ _. refl };

    ghost keyed = { refl };
}

/// The pairs so far.
pub type FlatLimitList = PairList<LimitText, FlatLimitMaking>;

/// Lines of a key and a limit, no key twice.
pub type FlatLimitLines = KeyedLines<LimitText, LimitStart, FlatLimitList>;

/// The pairs of the lines, turned into the file's value.
#[derive(Clone, Copy)]
pub struct ToFlatLimits;

impl MapValue<FlatLimitLines> for ToFlatLimits {
    type To = Value;

    ghost use Rattle.cg_join.specs.SettledLaws.{zero_least};
    ghost use Rattle.cg_file.specs.FlatLimitsFileLaws.{flat_limits_value};

    ghost mapped = { flat_limits_value };

    ghost value_size = { λ _. 0 };

    fn map_value(value: KeyedItems<FlatLimit>) -> Value {
        Value::FlatLimits(value)
    }

    fn held_in(_value: &Value) -> u64 {
        0
    }

    ghost adds_no_memory = { λ v. zero_least _ };
}

type Text = Mapped<FlatLimitLines, ToFlatLimits>;

/// The text of a file of any number of keys, each with a limit, no key twice.
#[derive(Drop)]
pub struct FlatLimitsFile {
    text: Text,
}

impl FlatLimitsFile {
    /// A token of such files.
    pub fn new(alloc: Global) -> FlatLimitsFile
        ensures spells { Spells ⟦<FlatLimitsFile as Token>⟧.means result
            (λ text v. KindText FlatLimitsForm v text) }
        ensures size { ⟦<FlatLimitsFile as Token>⟧.size result ≡ 0 }
    {
        let keys = WordStart::new(alloc, false);
        let pairs = PairList::new(alloc);
        FlatLimitsFile {
            text: Mapped::new(KeyedLines::new(alloc, keys, LimitStart, b' ', b'\n', pairs)),
        }
    }
}

impl Token for FlatLimitsFile {
    type Out = Value;

    ghost means = { λ s. ⟦<Text as Token>⟧.means s.text };

    ghost size = { λ s. ⟦<Text as Token>⟧.size s.text };

    ghost value_size = { λ _. 0 };

    ghost ends = { λ s. ⟦<Text as Token>⟧.ends s.text };

    ghost grows = { ⟦<Text as Token>⟧.grows };

    ghost completes = { λ s. ⟦<Text as Token>⟧.completes s.text };

    ghost no_size = { λ e s. ⟦<Text as Token>⟧.no_size e s.text };

    ghost ends_is = { λ s. ⟦<Text as Token>⟧.ends_is s.text };

    ghost one_value = { λ s. ⟦<Text as Token>⟧.one_value s.text };

    ghost holds_bytes = { λ s. ⟦<Text as Token>⟧.holds_bytes s.text };

    fn push(&mut self, bytes: &[u8]) -> Pushed {
        self.text.push(bytes)
    }

    fn allows(&self, byte: u8) -> bool {
        self.text.allows(byte)
    }

    fn can_end(&self) -> bool {
        self.text.can_end()
    }

    fn held(&self) -> u64 {
        self.text.held()
    }

    fn take(self) -> Value {
        self.text.take()
    }

    fn held_in(_value: &Value) -> u64 {
        0
    }
}
