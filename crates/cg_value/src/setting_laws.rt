//! Laws of settings and their writes, for proofs. Each is a function's contract, and the function does nothing.
ghost use Rattle.cg_value.specs.SettingStatements.{CanonicalInGrammar, PlainWrites};

/// The canonical text of a setting is a write of each kind that can hold the setting.
pub fn canonical_in_grammar()
    ensures { CanonicalInGrammar }
{}

/// A written line is of bytes 1 to 255, none a newline.
pub fn plain_writes()
    ensures { PlainWrites }
{}
