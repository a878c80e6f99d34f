//! A law of what is shown. The function takes and answers nothing: its contract is the law.
ghost use Rattle.cg_json.specs.Laws.{WordOfKind};

/// The word that is shown with a value is that of each kind of the file table that it fits. So it is the word of the
/// kind of the entry's name, in the profile with which the entry was made.
pub fn word_of_kind()
    ensures { WordOfKind }
{}
