//! What takes the records of a stream.
ghost use Rattle.std.specs.Prelude.{◌≡◌, ◌+◌, ◌≤◌, ◌++◌, ℕ, List, [], length, take};
ghost use Rattle.cg_text.specs.Texts.{Viable};
ghost use Rattle.cg_snap.specs.Course.{AreFew, AreOfRecord, FullIs, GoesForward, Leaves, OffersAre, RefusedBy, Stream};

use crate::event::Progress;
use crate::stop::Why;
use cg_text::ByteSet;

/// The records of a stream, as far as they came, and the parts that they make: entries or items.
pub trait Records: Drop {
    type Part: Drop;

    /// What tells which streams the records are of.
    type Setup;

    // Of which streams the records are.
    ghost form_of: { Self → Self.Setup };

    // The streams of this form, and what the state says of one.
    ghost stream: { Self.Setup → Stream Self Self.Part };

    /// What was taken closes what was given.
    ghost closed: { (s : Self) (form : Self.Setup) (p : List ℕ) (es : List Self.Part) → (stream form).at s p es →
        (stream form).closes p es };

    /// What was taken can be gone on from.
    ghost goes_on: { (s : Self) (form : Self.Setup) (p : List ℕ) (es : List Self.Part) → (stream form).at s p es →
        Viable (stream form).language p };

    /// Why the byte can't come next, none where it can.
    fn refusal(&self, byte: u8) -> Option<Why>
        ensures { (form : Self.Setup) (p : List ℕ) (es : List Self.Part) → (stream form).at self.now p es →
            RefusedBy (stream form).language (stream form).breaks p byte result };

    /// The bytes that can come next within a line. Elsewhere they aren't known at once.
    fn line_allowed(&self) -> Option<ByteSet>
        ensures { (form : Self.Setup) (p : List ℕ) (es : List Self.Part) → (stream form).at self.now p es →
            OffersAre (stream form).language p result };

    /// Whether the byte begins a record too many of one path.
    fn is_full(&self, max_lines: u64, byte: u8) -> bool
        ensures { (form : Self.Setup) (p : List ℕ) (es : List Self.Part) → (stream form).at self.now p es →
            FullIs (stream form).language (stream form).many max_lines p byte result };

    /// Takes bytes from the front of `bytes`, of which the first is at the place `at` of the stream: to the end of the
    /// path or of the line that they go on with, or where a whole line follows the path at once, to its end; as far as
    /// the grammar and the limit of an entry's records let it, and memory is left. Answers how many it took, and what
    /// came of them.
    fn take(&mut self, bytes: &[u8], at: u64, max_lines: u64) -> Progress<Self::Part>
        requires place { at + length bytes.now ≤ 18446744073709551615 }
        ensures left { (form : Self.Setup) (p : List ℕ) (es : List Self.Part) → (stream form).at self.old p es →
            at ≡ length p → Leaves (stream form) ((stream form).at self.new) max_lines p es bytes.now result.used
            result.what }
        ensures few { (form : Self.Setup) (p : List ℕ) (es : List Self.Part) → (stream form).at self.old p es →
            AreFew ((stream form).many max_lines) p (take result.used bytes.now) }
        ensures of_record { (form : Self.Setup) (p : List ℕ) (es : List Self.Part) → (stream form).at self.old p es →
            AreOfRecord (take result.used bytes.now) }
        ensures within { result.used ≤ length bytes.now }
        ensures forward { GoesForward (length bytes.now) result.used result.what }
        ensures form { form_of self.new ≡ form_of self.old };
}
