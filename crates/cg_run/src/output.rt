//! The texts of parts on their way to a sink.
ghost use Rattle.std.specs.Prelude.{◌≡◌, ◌<◌, ◌++◌, ℕ, false, List, [], Option, MatchResult, IfErr, OnErr, OnOk, length};
ghost use Rattle.cg_outcome.specs.Outcome.{last_line, is_write_fault};
ghost use Rattle.cg_outcome.specs.Wrote.{Wrote, IsRealFault, joined};
ghost use Rattle.cg_outcome.specs.Spot.{more_words};
ghost use Rattle.cg_outcome.specs.declared.outcome.Outcome.{Outcome};

use crate::running::PIECE;
use cg_outcome::told::{write_after, write_part};
use cg_outcome::{Outcome, Spot, write_stop};
use cg_print::Sink;
use cg_snap::Stop;
use std::alloc::Global;

/// What a run over a stream has for its sink.
#[derive(Drop)]
pub(crate) struct Output {
    /// The texts of parts that aren't written yet, one after another.
    pub(crate) text: Vec<u8>,
    /// How many bytes were written.
    pub(crate) written: u64,
}

impl Output {
    ghost use Rattle.cg_run.specs.Output.{Holds};
    ghost use Rattle.cg_outcome.specs.Wrote.{FailsIn};

    /// Nothing, of which nothing was written.
    pub(crate) fn new(alloc: Global) -> Output
        ensures text { result.text.items ≡ [] }
        ensures written { result.written ≡ 0 }
    {
        Output {
            text: Vec::new(alloc),
            written: 0,
        }
    }

    /// Writes the texts. The error is the writer's fault.
    pub(crate) fn write<W: Sink>(&mut self, writer: &mut W) -> Result<(), Outcome>
        ensures wrote { (first : Option (List ℕ)) (parts : List (List ℕ)) →
            Holds first (W.taken writer.old) parts self.old →
            MatchResult result (λ _. Holds first (W.taken writer.new) parts self.new)
            (FailsIn first (W.taken writer.new) (W.has_failed writer.new) parts) }
        ensures none { OnOk result (self.new.text.items ≡ []) }
        ensures some { OnErr result (0 < length self.old.text.items) }
        ensures real { IfErr result (λ fault. IsRealFault fault (W.has_failed writer.new)) }
    {
        if self.text.is_empty() {
            return Ok(());
        }
        write_part(writer, self.text.as_slice(), &mut self.written)?;
        self.text.clear();
        Ok(())
    }

    /// Writes the texts where they are many.
    pub(crate) fn write_many<W: Sink>(&mut self, writer: &mut W) -> Result<(), Outcome>
        ensures wrote { (first : Option (List ℕ)) (parts : List (List ℕ)) →
            Holds first (W.taken writer.old) parts self.old →
            MatchResult result (λ _. Holds first (W.taken writer.new) parts self.new)
            (FailsIn first (W.taken writer.new) (W.has_failed writer.new) parts) }
        ensures some { OnErr result (0 < length self.old.text.items) }
        ensures real { IfErr result (λ fault. IsRealFault fault (W.has_failed writer.new)) }
    {
        if self.text.len() < PIECE {
            return Ok(());
        }
        self.write(writer)
    }

    /// Writes the texts, and then the last line of an outcome.
    pub(crate) fn finish<W: Sink>(&mut self, writer: &mut W, outcome: Outcome) -> Outcome
        requires { is_write_fault outcome ≡ false }
        ensures wrote { (first : Option (List ℕ)) (parts : List (List ℕ)) →
            Holds first (W.taken writer.old) parts self.old →
            Wrote first (W.taken writer.new) (W.has_failed writer.new) (joined parts ++ last_line outcome) outcome
            result }
        ensures real { IsRealFault result (W.has_failed writer.new) }
    {
        match self.write(writer) {
            Ok(()) => write_after(writer, self.written, outcome),
            Err(fault) => fault,
        }
    }

    /// Writes the texts, and then the last line of a stop, and the line that explains it where there is one.
    pub(crate) fn stop<W: Sink>(
        &mut self,
        writer: &mut W,
        stop: Stop,
        spot: Option<Spot<'_>>,
    ) -> Outcome
        ensures wrote { (first : Option (List ℕ)) (parts : List (List ℕ)) →
            Holds first (W.taken writer.old) parts self.old →
            Wrote first (W.taken writer.new) (W.has_failed writer.new)
            (joined parts ++ (last_line (Outcome.Stopped stop) ++ more_words spot.entry)) (Outcome.Stopped stop)
            result }
        ensures real { IsRealFault result (W.has_failed writer.new) }
    {
        match self.write(writer) {
            Ok(()) => write_stop(writer, self.written, stop, spot),
            Err(fault) => fault,
        }
    }
}
