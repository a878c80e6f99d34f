//! The laws of writes and their settings. Each function takes and answers nothing: its contract is the law.
ghost use Rattle.cg_write.specs.Laws.{OneSetting, OneSettingOfName, ReadBack, ReadBackOfName};

/// A text has one setting, as a write of a kind and as a write of a file of a name. It is so for any bounds, not only
/// those of the file table. A setting may have several texts.
pub fn one_setting()
    ensures kind { OneSetting }
    ensures name { OneSettingOfName }
{}

/// Reading what was printed gives the setting back: the canonical text of a setting that fits has this setting and no
/// other.
pub fn read_back()
    ensures kind { ReadBack }
    ensures name { ReadBackOfName }
{}
