//! Worked rows: runs of the program over bytes in memory, each compared with what the formats say of it. And files that
//! real kernels printed: each is read and written back.
//!
//! It runs in the folder `data`. The names of its tables and of the real files come on standard input, one a line. It
//! prints how many rows of each table agree, and before that a line for each row that doesn't: the row, and the run
//! that differs. Then it prints how many runs the sweeps over texts made, and how many of them differ. Last it prints
//! how many of the real texts are given back byte for byte, and before that a line for each that isn't.
//!
//! `real/NAME.N` holds the whole content of one file of the name NAME, and N only tells several contents apart. It is
//! read and written back in each profile. `real/NAME.snap` is a snapshot, as `grep -rZ '' DIR` made it. It is read in
//! pieces of three lengths; what is written back are its entries' records, and what is shown of them is compared too.
//!
//! A table has a row a line, of fields with `|` between. Spaces around a field don't belong to it, and a line that ends
//! in `\` goes on in the next. Lines that begin with `#`, and lines without a byte, are no rows. Rows of the command
//! line have these forms:
//!
//!     WORDS | INPUT | OUTPUT | STATUS
//!     WORDS | INPUT | OUTPUT | STATUS | READ | WRITE
//!     WORDS | INPUT | BYTES
//!
//! The first says what the program writes, called with these words over this input, and its exit status. It is run with
//! pieces of several lengths, with a source that fails after each count of bytes, and with a sink that does. An output
//! that begins with `~` is only a part of what is written. The second says it for a source that fails after READ bytes,
//! and a sink that fails after WRITE bytes where WRITE is a number. The third says which bytes may follow the input, by
//! which a text may go on: each of the 256 bytes is tried after it, also where the limit of the stream is the input's
//! length. Where the bytes begin with `!`, all others may follow.
//!
//! Rows of calls begin with a word that tells their form, and each table of them says how the fields are read:
//!
//!     sweep WORDS | TEXT | MARK ..            what each front of a text leads to (streams, going_on, samples)
//!     pull WORDS | CALL | ANSWER ..           what calls with pieces are answered, one after another (pulls)
//!     token NAME | TEXT | VALUE               what a text spells of a single token (tokens)
//!     upgrade, upgrade_kernel, encode ..      what a call on values is answered (calls)
//!
//! A sweep ends the text at each byte; it hands it over in all pairs of pieces, and in pieces of one byte; and behind
//! each front it tries each of the 256 bytes, which must be taken exactly where it is among those that are told to be
//! allowed. A row behind the word `not` must not be met (wrong).
//!
//! In a field `$` is a newline, `^` is NUL, and `\xNN` is the byte of two hexadecimal digits. A word without a byte is
//! `""`.
#![tactic(auto)]

mod asked;
mod call;
mod closed;
mod escape;
mod given_back;
mod pull;
mod row;
mod script;
mod shown;
mod sweep;
mod taker;
mod token;
mod trial;
mod verdict;

use given_back::{Tally, give_back};
use std::process::ExitCode;
use std::{fs, io};
use sweep::{Count, Counts};
use verdict::verdict_of;

/// Judges the row of a line. Prints a line where it doesn't agree.
fn is_met(rt: &HostRuntime, table: &str, line: &str, counts: &mut Counts) -> io::Result<bool> {
    match verdict_of(rt.alloc(), line, counts) {
        Ok(None) => return Ok(true),
        Ok(Some(difference)) => println!(rt; "{table}: {line}: {difference}")?,
        Err(fault) => println!(rt; "{table}: {line}: {fault}")?,
    }
    Ok(false)
}

/// Judges the rows of a table, and prints how many agree.
fn judge(rt: &HostRuntime, table: &str, text: &str, counts: &mut Counts) -> io::Result<()> {
    let mut agreeing: u64 = 0;
    let mut all: u64 = 0;
    let mut row = String::new(rt.alloc());
    for line in text.lines() {
        if line.is_empty() || line.starts_with('#') {
            continue;
        }
        match line.strip_suffix('\\') {
            Some(front) => row.push_str(front.trim_start())?,
            None => {
                row.push_str(line.trim_start())?;
                all = all.saturating_add(1);
                if is_met(rt, table, row.as_str(), counts)? {
                    agreeing = agreeing.saturating_add(1);
                }
                row.clear();
            }
        }
    }
    println!(rt; "{table}: {agreeing} of {all} rows agree")
}

/// Prints how many runs a sweep made, and how many of them differ from what is wanted.
fn tell(rt: &HostRuntime, sweep: &str, count: Count) -> io::Result<()> {
    let Count { runs, differing } = count;
    println!(rt; "{sweep}: {runs} runs, {differing} differ")
}

/// Where the files of real kernels lie.
const REAL: &str = "real/";

fn main(rt: HostRuntime) -> io::Result<ExitCode> {
    let mut tally = Tally { same: 0, all: 0 };
    let mut counts = Counts::NONE;
    for line in rt.lines(rt.alloc()) {
        let path = line?;
        match path.as_str().strip_prefix(REAL) {
            Some(copy) => give_back(&rt, path.as_str(), copy, &mut tally)?,
            None => {
                let text = fs::read_to_string(&rt, path.as_str())?;
                judge(&rt, path.as_str(), text.as_str(), &mut counts)?;
            }
        }
    }
    tell(&rt, "texts ended at each byte", counts.cuts)?;
    tell(&rt, "texts in pieces", counts.pieces)?;
    tell(&rt, "each byte after each front", counts.bytes)?;
    let Tally { same, all } = tally;
    println!(rt; "{same} of {all} texts of real kernels are written back byte for byte")?;
    Ok(ExitCode::from(0))
}
