//! Quotas and periods of `cpu.max`.
ghost use Rattle.std.specs.Prelude.{◌≡◌};
ghost use Rattle.cg_text.specs.Token.{Spells};
ghost use Rattle.cg_join.specs.Composites.{IsQuotaAndPeriod, IsWrittenQuota};

use crate::bounded::{decimal_in, limit_in};
use crate::label::{Spaced, spaced};
use crate::limit::LimitText;
use crate::maybe::Maybe;
use crate::sequence::Sequence;
use cg_text::{DecimalText, Token};

/// A quota, a space and a period, both in microseconds.
pub type QuotaAndPeriod = Sequence<LimitText, Spaced<DecimalText>>;

/// A quota, and perhaps a space and a period.
pub type WrittenQuota = Sequence<LimitText, Maybe<Spaced<DecimalText>>>;

/// The line of `cpu.max` that is read (cgroup-v2.rst, `cpu.max`).
pub fn quota_and_period() -> QuotaAndPeriod
    ensures spells { Spells ⟦<QuotaAndPeriod as Token>⟧.means result IsQuotaAndPeriod }
    ensures size { ⟦<QuotaAndPeriod as Token>⟧.size result ≡ 0 }
{
    let quota = limit_in(0, u64::MAX);
    let period = spaced(decimal_in(0, u64::MAX));
    Sequence::new(quota, period)
}

/// The line of `cpu.max` that is written: a quota of at least 1000, and a period of 1000 to 1000000, which may be left
/// out (cgroup-v2.rst, `cpu.max`).
pub fn written_quota() -> WrittenQuota
    ensures spells { Spells ⟦<WrittenQuota as Token>⟧.means result IsWrittenQuota }
    ensures size { ⟦<WrittenQuota as Token>⟧.size result ≡ 0 }
{
    let quota = limit_in(1000, u64::MAX);
    let period = spaced(decimal_in(1000, 1000000));
    Sequence::new(quota, Maybe::new(period))
}
