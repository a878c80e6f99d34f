//! The laws of files and their values. Each function takes and answers nothing: its contract is the law.
ghost use Rattle.cg_file.specs.Laws.{OneValue, OneValueOfName, ReadBack, ReadBackOfName};

/// A text has one value, as a file of a kind and as the file of a name. It is so for any bounds, not only those of the
/// file table.
pub fn one_value()
    ensures kind { OneValue }
    ensures name { OneValueOfName }
{}

/// Reading what was printed gives the value back: the canonical text of a value that fits has this value and no other.
pub fn read_back()
    ensures kind { ReadBack }
    ensures name { ReadBackOfName }
{}
