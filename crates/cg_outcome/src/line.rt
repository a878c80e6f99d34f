//! Short lines, which take no memory: the last line of a run.
ghost use Rattle.std.specs.Prelude.{◌≡◌, ◌++◌, [], ◌≤◌, ◌+◌, length, decimal, codes};
ghost use Rattle.cg_outcome.specs.Outcome.{why_words, stop_line, last_line};

use crate::outcome::Outcome;
use cg_snap::{Stop, Why};
use itoa::Buffer;
use std::marker::Model;

/// A short line in an array.
#[derive(Drop)]
pub struct Line {
    held: [u8; 80],
    len: usize,
}

impl Model for Line {
    ghost use Rattle.std.specs.Prelude.{List, ℕ, take, ◌≤◌};

    ghost Value = { List ℕ };

    ghost view = { λ s. take s.len s.held };

    ghost invariant = { λ s. s.len ≤ 80 };
}

impl Line {
    /// The empty line.
    pub fn new() -> Line
        ensures { result ≡ [] }
    {
        Line {
            held: [0; 80],
            len: 0,
        }
    }

    /// Adds bytes.
    pub fn add(&mut self, bytes: &[u8])
        requires { length self.old + length bytes.now ≤ 80 }
        ensures { self.new ≡ self.old ++ bytes.now }
    {
        let end = self.len + bytes.len();
        self.held[self.len..end].copy_from_slice(bytes);
        self.len = end;
    }

    /// Its bytes.
    pub fn bytes(&self) -> &[u8]
        ensures { result.now ≡ self.now }
    {
        &self.held[..self.len]
    }
}

/// A line with a number in it.
pub fn numbered(before: &[u8], number: u128, after: &[u8]) -> Line
    requires before { length before.now ≤ 32 }
    requires after { length after.now ≤ 8 }
    ensures line { result ≡ before.now ++ decimal number ++ after.now }
    ensures short { length result ≤ length before.now + 40 + length after.now }
{
    let mut digits = Buffer::new();
    let mut line = Line::new();
    line.add(before);
    line.add(digits.format(number).as_bytes());
    line.add(after);
    line
}

/// A line of one text.
fn plain(text: &[u8]) -> Line
    requires { length text.now ≤ 80 }
    ensures { result ≡ text.now }
{
    let mut line = Line::new();
    line.add(text);
    line
}

/// What a refusal is called.
pub fn words_of(why: Why) -> &'static str
    ensures words { result.now ≡ why_words why }
    ensures short { length result.now ≤ 13 }
{
    match why {
        Why::PathByte => "path byte",
        Why::NoName => "no name",
        Why::NotReadable => "not readable",
        Why::NotWritable => "not writable",
        Why::NoMoreLines => "no more lines",
        Why::Line => "line",
    }
}

/// The line of a refusal.
fn refused(at: u64, why: Why) -> Line
    ensures { result ≡ codes "cgfile: refused at " ++ decimal at ++ (codes ": " ++ why_words why ++ codes "\n") }
{
    let mut line = numbered(b"cgfile: refused at ", at as u128, b": ");
    line.add(words_of(why).as_bytes());
    line.add(b"\n");
    line
}

/// The line of a stop.
fn line_of_stop(stop: Stop) -> Line
    ensures { result ≡ stop_line stop }
{
    match stop {
        Stop::Refused { at, why } => refused(at, why),
        Stop::TooLong { at } => numbered(b"cgfile: record too long at ", at as u128, b"\n"),
        Stop::TooMany { at } => numbered(b"cgfile: too many lines at ", at as u128, b"\n"),
        Stop::TooMuch { at } => numbered(b"cgfile: stream too long at ", at as u128, b"\n"),
        Stop::Cut { at } => numbered(b"cgfile: cut at ", at as u128, b"\n"),
    }
}

/// The last line of a run, empty where it has none.
pub(crate) fn last_line_of(outcome: Outcome) -> Line
    ensures { result ≡ last_line outcome }
{
    match outcome {
        Outcome::Done | Outcome::Findings(_) | Outcome::LeftOut(_) | Outcome::WriteFault { .. } =>
            Line::new(),
        Outcome::Stopped(stop) => line_of_stop(stop),
        Outcome::NotReadable => plain(b"cgfile: not readable\n"),
        Outcome::NotWritable => plain(b"cgfile: not writable\n"),
        Outcome::ReadFault => plain(b"cgfile: read fault\n"),
        Outcome::OutOfMemory => plain(b"cgfile: out of memory\n"),
    }
}
