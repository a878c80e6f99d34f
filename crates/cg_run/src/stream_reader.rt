//! What reads a stream, and appends the text of each of its parts.
ghost use Rattle.std.specs.Prelude.{◌≡◌, ◌≤◌, ℕ, Bool, List, [], Option, MatchBool, MatchOption, MatchResult, length};
ghost use Rattle.cg_snap.specs.RecordPlace.{IsRecordPlace};
ghost use Rattle.cg_snap.specs.declared.stop.Stop.{Stop};
ghost use Rattle.cg_run.specs.Checked.{IsKept};
ghost use Rattle.cg_outcome.specs.Explain.{Explains, IsInRecord};
ghost use Rattle.cg_run.specs.Streaming.{EndIs, FoundIs, HasNoWhole, HasWhole, IsEndFault, IsFoundBy, StandsBehind};
ghost use Rattle.cg_outcome.specs.declared.outcome.Outcome.{Outcome};

use crate::kept::Kept;
use cg_snap::{Progress, RecordPlace, StreamFault};
use cg_text::ByteSet;

/// Where a reader of a stream stands, behind the bytes that it consumed.
#[derive(Drop)]
pub(crate) struct Standing<'a> {
    /// The path of the record that comes, and whether its NUL came; none where it isn't held, and nothing is explained.
    pub(crate) place: Option<RecordPlace<'a>>,
    /// The bytes that may come.
    pub(crate) wanted: ByteSet,
    /// Whether what was consumed ends within a record.
    pub(crate) is_cut: bool,
    /// How many bytes were consumed.
    pub(crate) consumed: u64,
}

/// A reader of a stream, which appends the text of each part once it is there.
pub(crate) trait StreamReader: Drop {
    /// What tells which streams are read.
    type Setup;

    // The parts of a whole stream, and how a run over it ends.
    ghost whole: { Self.Setup → List ℕ → List (List ℕ) → Outcome → Type 0 };

    // The parts that the first bytes of a stream close.
    ghost closes: { Self.Setup → List ℕ → List (List ℕ) → Type 0 };

    // No byte stops the stream.
    ghost unstopped: { Self.Setup → List ℕ → Type 0 };

    // The first byte that stops the stream stops it so.
    ghost stops: { Self.Setup → List ℕ → Stop → Type 0 };

    // How many bytes a stream may have.
    ghost limit: { Self.Setup → ℕ };

    // Which set of bytes may come behind some bytes.
    ghost wanted: { Self.Setup → List ℕ → List Bool → Type 0 };

    // Which line explains what came behind some bytes.
    ghost explained: { Self.Setup → List ℕ → Option ℕ → List ℕ → Type 0 };

    // How many bytes were consumed.
    ghost offset: { Self → ℕ };

    // The reader is of this form, consumed these bytes and gave these parts.
    ghost took: { Self → Self.Setup → List ℕ → List (List ℕ) → Type 0 };

    // The reader is of this form and consumed these bytes, also where the next one stopped it.
    ghost stood: { Self → Self.Setup → List ℕ → Type 0 };

    /// Consumes bytes of the piece, and appends the texts of parts that they close to `out`: as far as it likes, but at
    /// least a byte where there is one, or until a byte stops the stream or no memory is left. Of a part that wanted
    /// memory nothing is appended. `NeedMore` and `Given(())` alike say that the stream goes on.
    fn next(&mut self, piece: &[u8], out: &mut Vec<u8>) -> Progress<()>
        ensures found { (form : Self.Setup) (p : List ℕ) (parts : List (List ℕ)) → took self.old form p parts →
            FoundIs (closes form) (unstopped form) (took self.new form) (stops form) p parts piece.now result.used
            out.old.items out.new.items result.what }
        ensures stood { (form : Self.Setup) (p : List ℕ) (parts : List (List ℕ)) → took self.old form p parts →
            StandsBehind (stood self.new form) p piece.now result.used result.what }
        ensures used { result.used ≤ length piece.now }
        ensures progress { IsFoundBy (length piece.now) result.used result.what };

    /// Where it stands, also behind a stop.
    fn standing(&self) -> Standing<'_>
        ensures place { (form : Self.Setup) (p : List ℕ) → stood self.now form p → MatchOption result.place
            ((what : Option ℕ) → explained form p what []) (λ place. IsRecordPlace p place.path.now place.in_line) }
        ensures wanted { (form : Self.Setup) (p : List ℕ) → stood self.now form p → wanted form p result.wanted }
        ensures cut { (form : Self.Setup) (p : List ℕ) (parts : List (List ℕ)) → took self.now form p parts →
            MatchBool result.is_cut (HasNoWhole (whole form) p) (HasWhole (whole form) p) }
        ensures consumed { (form : Self.Setup) (p : List ℕ) → stood self.now form p → result.consumed ≡ length p };

    /// Where the record stands, and the bytes that may come, are told by the line.
    ghost explains: { (form : Self.Setup) (p : List ℕ) (what : Option ℕ) (text : List ℕ) →
        Explains (wanted form) IsInRecord p what text → explained form p what text };

    /// A reader stands behind what it consumed.
    ghost stands: { (s : Self) (form : Self.Setup) (p : List ℕ) (parts : List (List ℕ)) → took s form p parts →
        stood s form p };

    /// It consumed no more than the stream may have.
    ghost within: { (s : Self) (form : Self.Setup) (p : List ℕ) → stood s form p → length p ≤ limit form };

    /// What was consumed closes what was given.
    ghost closed: { (s : Self) (form : Self.Setup) (p : List ℕ) (parts : List (List ℕ)) → took s form p parts →
        closes form p parts };

    /// No byte that was consumed stops the stream.
    ghost passed: { (s : Self) (form : Self.Setup) (p : List ℕ) (parts : List (List ℕ)) → took s form p parts →
        unstopped form p };

    /// The bytes that were consumed are counted, and no more than the stream may have.
    ghost counted: { (s : Self) (form : Self.Setup) (p : List ℕ) (parts : List (List ℕ)) → took s form p parts →
        (offset s ≡ length p) × (length p ≤ limit form) };
}

/// A reader of a stream whose end leaves parts.
pub(crate) trait LastPart: StreamReader {
    /// Appends the texts of the parts that the end of the stream leaves, and answers how many blocks were left out of
    /// the whole. After `Err` nothing was appended.
    fn finish(self, out: &mut Vec<u8>) -> Result<u64, StreamFault>
        ensures { (form : Self.Setup) (p : List ℕ) (parts : List (List ℕ)) → Self.took self form p parts →
            EndIs (Self.whole form) p parts out.old.items out.new.items result };
}

/// A reader of a snapshot that keeps the entries that the rules speak of.
pub(crate) trait KeptEntries: StreamReader {
    /// The entries that it kept, once the input has ended.
    fn finish_kept(self) -> Result<Kept, StreamFault>
        ensures { (form : Self.Setup) (p : List ℕ) (parts : List (List ℕ)) → Self.took self form p parts →
            MatchResult result (IsKept (Self.whole form) p parts) (IsEndFault (Self.whole form) p parts) };
}
