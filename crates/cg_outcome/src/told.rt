//! What a run writes: texts, and its last line.
ghost use Rattle.std.specs.Prelude.{◌≡◌, List, ℕ, false, [], ◌∷◌, ◌++◌, Option, MatchResult, IfErr};
ghost use Rattle.cg_outcome.specs.Outcome.{last_line, is_write_fault};
ghost use Rattle.cg_outcome.specs.Wrote.{FailsAfter, FailsIn, HasWritten, HasWrittenText, IsRealFault, Wrote, joined};
ghost use Rattle.cg_outcome.specs.declared.outcome.Outcome.{Outcome};

use crate::line::last_line_of;
use crate::outcome::Outcome;
use cg_print::{Sink, WriteStopped, write_text};

/// Writes the text of an outcome, and answers the outcome, or how much of the text was taken.
pub fn told<W: Sink>(writer: &mut W, text: &[u8], outcome: Outcome) -> Outcome
    requires { is_write_fault outcome ≡ false }
    ensures { Wrote (W.taken writer.old) (W.taken writer.new) (W.has_failed writer.new) text.now outcome result }
{
    match write_text(writer, text) {
        Ok(()) => outcome,
        Err(WriteStopped { written }) => Outcome::WriteFault { written },
    }
}

/// Writes the last line of an outcome.
pub fn told_line<W: Sink>(writer: &mut W, outcome: Outcome) -> Outcome
    requires { is_write_fault outcome ≡ false }
    ensures { Wrote (W.taken writer.old) (W.taken writer.new) (W.has_failed writer.new) (last_line outcome) outcome
        result }
{
    let line = last_line_of(outcome);
    told(writer, line.bytes(), outcome)
}

/// Writes the last line of an outcome, where so many bytes were written before it.
#[tactic(auto, using(crate::proofs::Written::wrote_real))]
pub fn write_after<W: Sink>(writer: &mut W, written: u64, outcome: Outcome) -> Outcome
    requires { is_write_fault outcome ≡ false }
    ensures wrote { (first : Option (List ℕ)) (parts : List (List ℕ)) →
        HasWritten first (W.taken writer.old) parts written →
        Wrote first (W.taken writer.new) (W.has_failed writer.new) (joined parts ++ last_line outcome) outcome result }
    ensures real { IsRealFault result (W.has_failed writer.new) }
{
    match told_line(writer, outcome) {
        Outcome::WriteFault { written: more } => Outcome::WriteFault {
            written: written.saturating_add(more),
        },
        other => other,
    }
}

/// Writes a part, and counts its bytes. The error is the writer's fault.
pub fn write_part<W: Sink>(writer: &mut W, part: &[u8], written: &mut u64) -> Result<(), Outcome>
    ensures wrote { (first : Option (List ℕ)) (parts : List (List ℕ)) →
        HasWritten first (W.taken writer.old) parts written.old →
        MatchResult result (λ _. HasWritten first (W.taken writer.new) (parts ++ part.now ∷ []) written.new)
        (FailsIn first (W.taken writer.new) (W.has_failed writer.new) (parts ++ part.now ∷ [])) }
    ensures behind { (first : Option (List ℕ)) (text : List ℕ) →
        HasWrittenText first (W.taken writer.old) text written.old →
        MatchResult result (λ _. HasWrittenText first (W.taken writer.new) (text ++ part.now) written.new)
        (FailsAfter first (W.taken writer.new) (W.has_failed writer.new) (text ++ part.now)) }
    ensures real { IfErr result (λ fault. IsRealFault fault (W.has_failed writer.new)) }
{
    match write_text(writer, part) {
        Ok(()) => {
            *written = written.saturating_add(part.len() as u64);
            Ok(())
        }
        Err(WriteStopped { written: more }) => Err(Outcome::WriteFault {
            written: written.saturating_add(more),
        }),
    }
}
