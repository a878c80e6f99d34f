//! The line that explains a stop.
ghost use Rattle.std.specs.Prelude.{◌≡◌, ◌++◌, ◌+◌, ◌≤◌, ℕ, List, Option, MatchResult, IfErr, codes, decimal, length};
ghost use Rattle.cg_outcome.specs.Explain.{path_joint, what_words};
ghost use Rattle.cg_outcome.specs.Outcome.{last_line, stop_line};
ghost use Rattle.cg_outcome.specs.Wrote.{FailsAfter, HasWritten, HasWrittenText, IsRealFault, Wrote, joined};
ghost use Rattle.cg_outcome.specs.Spot.{more_words, spot_words};
ghost use Rattle.cg_outcome.specs.declared.outcome.Outcome.{Outcome};

use crate::byte_name::add_name;
use crate::byte_runs::tell_set;
use crate::line::{Line, last_line_of, numbered};
use crate::outcome::Outcome;
use crate::spot::Spot;
use crate::told::{write_after, write_part};
use cg_print::Sink;
use cg_snap::Stop;

/// What stands before the path.
fn head_of(spot: &Spot<'_>) -> Line
    ensures { result ≡ codes "cgfile: line " ++ decimal (spot.now.ended + 1) ++ path_joint spot.now.in_path }
{
    let line = spot.ended as u128 + 1;
    if spot.in_path {
        numbered(b"cgfile: line ", line, b", path ")
    } else {
        numbered(b"cgfile: line ", line, b", ")
    }
}

/// What stands between the path and the bytes that may come.
fn middle_of(spot: &Spot<'_>) -> Line
    ensures { result ≡ codes ", byte " ++ decimal (spot.now.before + 1) ++
        (codes ": " ++ what_words spot.now.byte ++ codes " where ") }
{
    let mut line = numbered(b", byte ", spot.before as u128 + 1, b": ");
    match spot.byte {
        Some(byte) => add_name(&mut line, byte),
        None => line.add(b"the end"),
    }
    line.add(b" where ");
    line
}

/// Writes the line of a spot.
pub(crate) fn tell_spot<W: Sink>(
    writer: &mut W,
    spot: &Spot<'_>,
    written: &mut u64,
) -> Result<(), Outcome>
    ensures told { (first : Option (List ℕ)) (text : List ℕ) →
        HasWrittenText first (W.taken writer.old) text written.old →
        MatchResult result (λ _. HasWrittenText first (W.taken writer.new) (text ++ spot_words spot.now) written.new)
        (FailsAfter first (W.taken writer.new) (W.has_failed writer.new) (text ++ spot_words spot.now)) }
    ensures real { IfErr result (λ fault. IsRealFault fault (W.has_failed writer.new)) }
{
    write_part(writer, head_of(spot).bytes(), written)?;
    write_part(writer, spot.path, written)?;
    write_part(writer, middle_of(spot).bytes(), written)?;
    tell_set(writer, &spot.wanted, written)?;
    write_part(writer, b" may come\n", written)
}

/// Writes the last line of a stop, and then the line of its spot.
fn tell_both<W: Sink>(
    writer: &mut W,
    written: &mut u64,
    stop: Stop,
    spot: &Spot<'_>,
) -> Result<(), Outcome>
    ensures told { (first : Option (List ℕ)) (text : List ℕ) →
        HasWrittenText first (W.taken writer.old) text written.old →
        MatchResult result
        (λ _. HasWrittenText first (W.taken writer.new) (text ++ (stop_line stop ++ spot_words spot.now)) written.new)
        (FailsAfter first (W.taken writer.new) (W.has_failed writer.new)
        (text ++ (stop_line stop ++ spot_words spot.now))) }
    ensures real { IfErr result (λ fault. IsRealFault fault (W.has_failed writer.new)) }
{
    write_part(
        writer,
        last_line_of(Outcome::Stopped(stop)).bytes(),
        written,
    )?;
    tell_spot(writer, spot, written)
}

/// Writes the last line of a stop, and the line that explains it where there is one. So many bytes were written before.
#[tactic(auto, using(crate::proofs::Written::wrote_real))]
pub fn write_stop<W: Sink>(
    writer: &mut W,
    written: u64,
    stop: Stop,
    spot: Option<Spot<'_>>,
) -> Outcome
    ensures wrote { (first : Option (List ℕ)) (parts : List (List ℕ)) →
        HasWritten first (W.taken writer.old) parts written →
        Wrote first (W.taken writer.new) (W.has_failed writer.new)
        (joined parts ++ (last_line (Outcome.Stopped stop) ++ more_words spot.entry)) (Outcome.Stopped stop) result }
    ensures real { IsRealFault result (W.has_failed writer.new) }
{
    let Some(spot) = spot else {
        return write_after(writer, written, Outcome::Stopped(stop));
    };
    let mut written = written;
    match tell_both(writer, &mut written, stop, &spot) {
        Ok(()) => Outcome::Stopped(stop),
        Err(fault) => fault,
    }
}
