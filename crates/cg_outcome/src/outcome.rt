//! How a run ends.
ghost use Rattle.std.specs.Prelude.{◌≡◌};
ghost use Rattle.cg_outcome.specs.Outcome.{checked, gone_on, status_of};

use cg_snap::Stop;

/// How a run ended.
#[derive(Clone, Copy, Debug, PartialEq, Eq)]
pub enum Outcome {
    /// All was read and written.
    Done,
    /// All was read and written, and so many findings were told.
    Findings(u64),
    /// All was read and written but what was left out: so many blocks, or `u64::MAX` where they are more.
    LeftOut(u64),
    /// The input stopped here.
    Stopped(Stop),
    /// A file of the name can't be read.
    NotReadable,
    /// A file of the name can't be written.
    NotWritable,
    /// A read failed.
    ReadFault,
    /// A write failed, after so many bytes of the whole run, or `u64::MAX` where they are more.
    WriteFault { written: u64 },
    /// No memory was left.
    OutOfMemory,
}

/// The exit status of an outcome. It takes no memory.
pub fn status(outcome: &Outcome) -> u8
    ensures { result ≡ status_of outcome.now }
{
    match outcome {
        Outcome::Done => 0,
        Outcome::Findings(_) => 1,
        Outcome::LeftOut(_) => 5,
        Outcome::Stopped(_) => 1,
        Outcome::NotReadable => 1,
        Outcome::NotWritable => 1,
        Outcome::ReadFault => 3,
        Outcome::WriteFault { .. } => 3,
        Outcome::OutOfMemory => 4,
    }
}

/// How a run ends at the end of its input that left out so many blocks.
pub fn gone_on(left_out: u64) -> Outcome
    ensures { result ≡ gone_on left_out }
{
    if left_out == 0 {
        Outcome::Done
    } else {
        Outcome::LeftOut(left_out)
    }
}

/// How one ends that checks, and told so many findings.
pub fn checked(findings: u64, left_out: u64) -> Outcome
    ensures { result ≡ checked findings left_out }
{
    if findings == 0 {
        gone_on(left_out)
    } else {
        Outcome::Findings(findings)
    }
}
