//! Files and writes by example. Each function takes and answers nothing: its contract is a table of examples.
ghost use Rattle.cg_value.specs.Rows.{FirstRun, LargestNumber, Idle, ProcessNumbers, NoProcess, NoQuota, FullClamp, EmptySet, RangesApart, LastListNumber, MoreListNumbers};
ghost use Rattle.cg_value.specs.Rows.{NoWords, NoWordsLine, TwoWords, OneKey, DeviceStats, RateIs, DevicePads, DeviceLimits, DeviceWeights, OwnWeight, DefaultWeight, InvalidRoot, EmptyReason};
ghost use Rattle.cg_value.specs.Rows.{ReasonOfParentheses, FullPressure, SomePressure, Mode, Nested, RawNested, OtherName, HighByte, QuotedKey, NoWordsPrint, NotReadable};
ghost use Rattle.cg_value.specs.SettingRows.{LowestNice, Kill, ShortClamp, ShortClampPrints, OnlyQuota, Reclaim, ReclaimPrints, LargestSuffix, LargestSuffixPrints, Trigger, LooseSet, LooseSetPrints};
ghost use Rattle.cg_value.specs.SettingRows.{NoMembers, WeightAlone, WeightAlonePrints, DeviceDefault, TwoLimits, TwoLimitsPrint, Toggles, NotWritable};
ghost use Rattle.cg_value.specs.SettingRows.{LowestNicePrints, KillPrints, OnlyQuotaPrints, TriggerPrints, NoMembersPrint, DeviceDefaultPrints, TogglesPrint};

/// Files of numbers, with the least and the greatest one.
pub fn number_rows()
    ensures first_run { FirstRun }
    ensures largest_number { LargestNumber }
    ensures idle { Idle }
    ensures process_numbers { ProcessNumbers }
    ensures no_process { NoProcess }
{}

/// Files of limits and clamps.
pub fn limit_rows()
    ensures no_quota { NoQuota }
    ensures full_clamp { FullClamp }
{}

/// Files of sets.
pub fn set_rows()
    ensures empty_set { EmptySet }
    ensures ranges_apart { RangesApart }
    ensures last_list_number { LastListNumber }
    ensures more_list_numbers { MoreListNumbers }
{}

/// Files of words and of keys with numbers. No words have two texts.
pub fn word_rows()
    ensures no_words { NoWords }
    ensures no_words_line { NoWordsLine }
    ensures no_words_print { NoWordsPrint }
    ensures two_words { TwoWords }
    ensures one_key { OneKey }
    ensures quoted_key { QuotedKey }
{}

/// Files of devices, and what is looked up in them.
pub fn device_rows()
    ensures device_stats_rows { DeviceStats }
    ensures rate_is { RateIs }
    ensures device_pads { DevicePads }
    ensures device_limits { DeviceLimits }
    ensures device_weight_rows { DeviceWeights }
    ensures own_weight { OwnWeight }
    ensures default_weight { DefaultWeight }
{}

/// Files of partitions and of pressure.
pub fn partition_rows()
    ensures invalid_root { InvalidRoot }
    ensures empty_reason { EmptyReason }
    ensures reason_of_parentheses { ReasonOfParentheses }
    ensures full_pressure { FullPressure }
    ensures some_pressure { SomePressure }
{}

/// Files of modes, nested files of the second profile, and raw ones. One file can't be read.
pub fn other_rows()
    ensures domain_mode { Mode }
    ensures nested { Nested }
    ensures raw_nested { RawNested }
    ensures other_name { OtherName }
    ensures high_byte { HighByte }
    ensures not_readable { NotReadable }
{}

/// Writes of numbers and clamps.
pub fn number_write_rows()
    ensures lowest_nice { LowestNice }
    ensures lowest_nice_prints { LowestNicePrints }
    ensures kill { Kill }
    ensures kill_prints { KillPrints }
    ensures short_clamp_row { ShortClamp }
    ensures short_clamp_prints { ShortClampPrints }
{}

/// Writes of quotas, sizes and times.
pub fn size_write_rows()
    ensures only_quota { OnlyQuota }
    ensures only_quota_prints { OnlyQuotaPrints }
    ensures reclaim { Reclaim }
    ensures reclaim_prints { ReclaimPrints }
    ensures largest_suffix { LargestSuffix }
    ensures largest_suffix_prints { LargestSuffixPrints }
    ensures trigger { Trigger }
    ensures trigger_prints { TriggerPrints }
{}

/// Writes of sets.
pub fn set_write_rows()
    ensures loose_set_row { LooseSet }
    ensures loose_set_prints { LooseSetPrints }
    ensures no_members { NoMembers }
    ensures no_members_print { NoMembersPrint }
{}

/// Writes of devices.
pub fn device_write_rows()
    ensures weight_alone { WeightAlone }
    ensures weight_alone_prints { WeightAlonePrints }
    ensures device_default { DeviceDefault }
    ensures device_default_prints { DeviceDefaultPrints }
    ensures two_limits_row { TwoLimits }
    ensures two_limits_print { TwoLimitsPrint }
{}

/// A write of controllers. One file can't be written.
pub fn other_write_rows()
    ensures toggles { Toggles }
    ensures toggles_print { TogglesPrint }
    ensures not_writable { NotWritable }
{}
