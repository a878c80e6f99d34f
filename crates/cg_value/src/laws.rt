//! The laws of the files that are read. Each function takes and answers nothing: its contract is the law.
ghost use Rattle.std.specs.Prelude.{[]};
ghost use Rattle.cg_value.specs.Files.{KindText};
ghost use Rattle.cg_value.specs.Laws.{OneText, PrintInGrammar, TextIsPrint, OneReadText, FileLines, WholeLines, FirstLine, NoLine, SizedNames};
ghost use Rattle.cg_value.specs.declared.kind.ReadForm.TheVariants.{Words as WordsForm};
ghost use Rattle.cg_value.specs.declared.value.Value.TheVariants.{Words};

/// The lines that spell a value under a kind of the file table are the lines of its canonical text, whatever the kind.
/// Only no words have other lines as well: none.
pub fn one_text()
    ensures { OneText }
{}

/// The canonical text of a value that fits a kind of the file table is a file of that kind with that value. So a value
/// that is printed can be read back. The canonical text of no words is one empty line.
pub fn print_in_grammar()
    ensures { PrintInGrammar }
{}

/// A file of a kind of the file table is the canonical text of the value that it has. So printing what was read gives
/// the same text again, and a value has one text. Only no words have another text as well, that of no bytes.
pub fn text_is_print()
    ensures printed { TextIsPrint }
    ensures one { OneReadText }
    ensures no_words { KindText WordsForm (Words []) [] }
{}

/// A file of any kind is whole lines, each of bytes with no NUL and a newline at its end. And it can end after each of
/// its lines: where some file of a kind begins with bytes of which the last is a newline, these bytes are a file of the
/// kind.
pub fn whole_lines()
    ensures lines { FileLines }
    ensures ends { WholeLines }
{}

/// Each kind of the file table has a file of one line. The kinds that may have no line are those of many lines and of
/// words, but for weights of devices and for pressure, which have one at least.
pub fn first_line()
    ensures first { FirstLine }
    ensures none { NoLine }
{}

/// The names that have a row with `*` in it are those in which a size stands in its place: a decimal of 1 to 1023, and
/// `KB`, `MB` or `GB`.
pub fn sized_names()
    ensures { SizedNames }
{}
