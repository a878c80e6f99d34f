//! The list of the kinds of files.
ghost use Rattle.std.specs.Prelude.{◌≡◌, ◌≤◌, length};
ghost use Rattle.cg_value.specs.Kind.{read_word, write_word};
ghost use Rattle.cg_value.specs.TableRows.{row_told};
ghost use Rattle.cg_outcome.specs.Kinds.{word_or_dash, kinds_line, kinds_lines};
ghost use Rattle.cg_outcome.specs.Wrote.{Wrote, joined};

use crate::line::Line;
use crate::outcome::Outcome;
use cg_print::{Sink, WriteStopped, write_text};
use cg_value::{Profile, ReadKind, TableRow, WriteKind, table_row};

/// The word of what is read.
fn word_read(kind: Option<ReadKind>) -> &'static [u8]
    ensures word { result.now ≡ word_or_dash read_word kind }
    ensures short { length result.now ≤ 14 }
{
    match kind {
        Some(kind) => kind.name().as_bytes(),
        None => b"-",
    }
}

/// The word of what is written.
fn word_written(kind: Option<WriteKind>) -> &'static [u8]
    ensures word { result.now ≡ word_or_dash write_word kind }
    ensures short { length result.now ≤ 14 }
{
    match kind {
        Some(kind) => kind.name().as_bytes(),
        None => b"-",
    }
}

/// The line of a row.
fn line_of(row: &TableRow) -> Line
    requires { length row.now.name.now ≤ 31 }
    ensures line { result ≡ kinds_line (row_told row.now) }
    ensures short { length result ≤ 80 }
{
    let mut line = Line::new();
    line.add(row.name);
    line.add(b" ");
    line.add(word_read(row.reads));
    line.add(b" ");
    line.add(word_written(row.writes));
    line.add(b"\n");
    line
}

/// Writes the list, by lines. It takes no memory.
pub fn told_kinds<W: Sink>(profile: Profile, writer: &mut W) -> Outcome
    ensures { Wrote (W.taken writer.old) (W.taken writer.new) (W.has_failed writer.new) (joined (kinds_lines profile))
        Outcome.Done result }
{
    let mut written = 0;
    let mut place = 0;
    'lines: while let Some(row) = table_row(profile, place) {
        let line = line_of(&row);
        match write_text(writer, line.bytes()) {
            Ok(()) => written += line.bytes().len() as u64,
            Err(WriteStopped { written: more }) => {
                return Outcome::WriteFault {
                    written: written + more,
                };
            }
        }
        place += 1;
    }
    Outcome::Done
}
