//! JSON lines by example. The function takes and answers nothing: its contract is a table of examples.
ghost use Rattle.cg_json.specs.Rows.{NoQuota, SomeAlone, NoText, TwoDevices, QuoteInKey, TwoRanges, PairsOfAKey, LimitsInByteOrder, WhyInvalid, BelowZero};

/// Entries and the lines that are written of them.
pub fn line_rows()
    ensures no_quota { NoQuota }
    ensures some_alone { SomeAlone }
    ensures no_text { NoText }
    ensures two_devices { TwoDevices }
    ensures quote_in_key { QuoteInKey }
    ensures two_ranges { TwoRanges }
    ensures pairs_of_a_key { PairsOfAKey }
    ensures limits_in_byte_order { LimitsInByteOrder }
    ensures why_invalid { WhyInvalid }
    ensures below_zero { BelowZero }
{}
