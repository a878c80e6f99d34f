//! The program: all that it does with the words after its name.
ghost use Rattle.std.specs.Prelude.{◌≡◌, ◌<◌, drop, false, length, IfErr};
ghost use Rattle.cg_program.specs.Program.{DidWords, IsAsked, IsUnread, WroteText, fault_status, fault_text};

use crate::words::{Request, UsageFault, parse_request};
use cg_print::{Sink, write_text};
use cg_run::{Source, run_with, status};
use std::alloc::Global;
use std::io;

/// The words after the program's name, which is the first argument.
pub fn words_after_name(arguments: &[String]) -> &[String]
    ensures { result.now ≡ drop 1 arguments.now }
{
    match arguments.split_first() {
        Some((_, words)) => words,
        None => arguments,
    }
}

/// Why the words can't be had: no memory is left for them, or one of them isn't text.
fn unread(kind: io::ErrorKind) -> UsageFault
    ensures { IsUnread kind result }
{
    if kind == io::ErrorKind::OutOfMemory {
        UsageFault::OutOfMemory
    } else {
        UsageFault::Bad
    }
}

/// What the words ask for, if they could be had.
fn asked(alloc: Global, words: Result<&[String], io::ErrorKind>) -> Result<Request, UsageFault>
    ensures asked { IsAsked words.entry result }
    ensures says { IfErr result (λ fault. 0 < length (fault_text fault)) }
{
    match words {
        Ok(words) => parse_request(alloc, words),
        Err(kind) => Err(unread(kind)),
    }
}

/// What is written where the words ask for no run.
fn text_of(fault: &UsageFault) -> &[u8]
    ensures { result.now ≡ fault_text fault.now }
{
    match fault {
        UsageFault::Help(text) => text.as_bytes(),
        UsageFault::Bad => b"cgfile: bad command line\n",
        UsageFault::OutOfMemory => b"cgfile: out of memory\n",
    }
}

/// The exit status where the words ask for no run.
fn status_of(fault: &UsageFault) -> u8
    ensures { result ≡ fault_status fault.now }
{
    match fault {
        UsageFault::Help(_) => 0,
        UsageFault::Bad => 2,
        UsageFault::OutOfMemory => 4,
    }
}

/// Writes a text, as much of it as the sink takes.
fn tell<W: Sink>(writer: &mut W, text: &[u8])
    ensures { WroteText (W.taken writer.old) (W.taken writer.new) (W.has_failed writer.new) text.now }
{
    let _ = write_text(writer, text);
}

/// Runs the program with the words after its name, or with why they can't be had. It reads from the source, writes to
/// the sink, and answers the exit status.
pub fn run_words<R: Source, W: Sink>(
    alloc: Global,
    words: Result<&[String], io::ErrorKind>,
    reader: &mut R,
    writer: &mut W,
) -> u8
    ensures { R.has_failed reader.old ≡ false →
        DidWords (R.coming reader.old) (R.coming reader.new) (R.has_failed reader.new)
        (R.asks reader.old) (R.asks reader.new)
        (W.taken writer.old) (W.taken writer.new) (W.has_failed writer.new) words.entry result }
{
    match asked(alloc, words) {
        Ok(request) => {
            let Request {
                profile,
                command,
                limits,
                options,
            } = request;
            let outcome = run_with(alloc, profile, &command, reader, writer, limits, options);
            status(&outcome)
        }
        Err(fault) => {
            tell(writer, text_of(&fault));
            status_of(&fault)
        }
    }
}
