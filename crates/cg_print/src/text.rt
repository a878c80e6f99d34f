//! Writing whole texts to a sink.
ghost use Rattle.std.specs.Prelude.{◌≡◌, OnOk, IfErr, take, length, true, ◌≤◌, OnErr};
ghost use Rattle.std.specs.Io.KnownBytes.{Appends};

use crate::sink::{Failed, Sink};
use thiserror::Error;

/// A sink failed before it had the whole text.
#[derive(Clone, Copy, Debug, PartialEq, Eq, Error)]
#[error("stopped after {written} bytes")]
pub struct WriteStopped {
    /// How many bytes of the text the sink took.
    pub written: u64,
}

/// Writes the whole text. It stops only where `put` fails: the sink then has the first `written`
/// bytes of the text.
pub fn write_text<W: Sink>(writer: &mut W, text: &[u8]) -> Result<(), WriteStopped>
    ensures ok { OnOk result (Appends (W.taken writer.old) (W.taken writer.new) text.now) }
    ensures kept { OnOk result (W.has_failed writer.new ≡ W.has_failed writer.old) }
    ensures err { IfErr result (λ e.
        Appends (W.taken writer.old) (W.taken writer.new) (take e.written text.now)) }
    ensures part { IfErr result (λ e. e.written ≤ length text.now) }
    ensures failed { OnErr result (W.has_failed writer.new ≡ true) }
{
    let mut at = 0;
    'pieces: while at < text.len() {
        let (_, rest) = text.split_at(at);
        match writer.put(rest) {
            Ok(count) => at += count,
            Err(Failed) => return Err(WriteStopped { written: at as u64 }),
        }
    }
    Ok(())
}
