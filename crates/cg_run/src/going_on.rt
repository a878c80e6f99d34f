//! A snapshot of which what is at fault is left out: what is told of its blocks, each as soon as it is known.
ghost use Rattle.std.specs.Prelude.{◌≡◌, ◌<◌, ◌≤◌, ◌∷◌, ◌++◌, [], List, ℕ, Bool, Some, true, MatchOption, MatchResult, OnErr, OnOk, is_some, length, take};
ghost use Rattle.std.specs.List.{flat_map};
ghost use Rattle.cg_value.specs.declared.profile.Profile.{Profile};
ghost use Rattle.cg_snap.specs.Begun.{IsRecordEnd};
ghost use Rattle.cg_snap.specs.GoingOn.{Told, told_entry, told_out};
ghost use Rattle.cg_snap.specs.GoingOnState.{IsBefore};
ghost use Rattle.cg_snap.specs.Snap.{Snap};
ghost use Rattle.cg_snap.specs.declared.limits.Limits.{Limits};
ghost use Rattle.cg_outcome.specs.Explain.{AreNext, Explains, IsInRecord};
ghost use Rattle.cg_run.specs.GoneOn.{left_out_of, told_found};
ghost use Rattle.cg_run.specs.GoneOnReader.{ExplainsOut, IsFaultAt};
ghost use Rattle.cg_outcome.specs.Lines.{AreBehind, AreCounted};
ghost use Rattle.cg_outcome.specs.Wrote.{joined};

use crate::entry_run::pass_run;
use crate::kept::Kept;
use crate::shown_text::append_closed;
use crate::stream_reader::{KeptEntries, LastPart, Standing, StreamReader};
use crate::teller::{KeepsRuled, Teller, TellsAll};
use cg_outcome::{Lines, append_spot, lines_behind, lines_of, spot_in};
use cg_snap::{
    Cause, Event, Fault, Found, GoingOnDecoder, LeftOut, Limits, Progress, RecordPlace, StreamFault,
};
use cg_text::OutOfMemory;
use cg_value::{Entry, Profile};
use std::alloc::Global;

/// A reader of a snapshot of which what is at fault is left out.
#[derive(Drop)]
pub(crate) struct GoingOnReader<T> {
    decoder: GoingOnDecoder,
    teller: T,
    /// Room for the text of what a byte tells.
    text: Vec<u8>,
    /// How many blocks were left out.
    left_out: u64,
    /// The lines of what was consumed, if what is left out is explained.
    lines: Option<Lines>,
}

/// What the end of the input leaves.
#[derive(Drop)]
struct Ended<T> {
    teller: T,
    /// The text of what the end told.
    text: Vec<u8>,
    /// How many blocks were left out.
    left_out: u64,
}

/// Tells an entry, if there is one.
fn tell_entry<T: Teller>(
    teller: &mut T,
    text: &mut Vec<u8>,
    entry: Option<Entry>,
) -> Result<(), OutOfMemory>
    ensures told { (told : List Told) → T.keeps teller.old told → OnOk result
        ((text.new.items ≡ text.old.items ++ joined (flat_map T.parts (told_entry entry)))
        × T.keeps teller.new (told ++ told_entry entry)) }
    ensures wanted { OnErr result (is_some entry ≡ true) }
{
    match entry {
        Some(entry) => teller.tell_entry(text, entry),
        None => Ok(()),
    }
}

/// Tells what is left out, if something is.
fn tell_left_out<T: Teller>(
    teller: &mut T,
    text: &mut Vec<u8>,
    left_out: &Option<LeftOut>,
) -> Result<(), OutOfMemory>
    ensures { (told : List Told) → T.keeps teller.old told → OnOk result
        ((text.new.items ≡ text.old.items ++ joined (flat_map T.parts (told_out left_out.now)))
        × T.keeps teller.new (told ++ told_out left_out.now)) }
{
    match left_out {
        Some(left_out) => teller.tell_left_out(text, left_out),
        None => Ok(()),
    }
}

/// Appends the line that explains the byte at fault, which has this place, behind bytes whose lines are counted.
fn explain_fault(
    text: &mut Vec<u8>,
    fault: &Fault,
    counted: Lines,
    byte: u8,
    at: u64,
) -> Result<(), OutOfMemory>
    ensures { (profile : Profile) (front block : List ℕ) → IsRecordEnd front → IsBefore fault.now profile block →
        AreCounted counted (front ++ block) → at ≡ length (front ++ block) → OnOk result
        ((line : List ℕ) × (text.new.items ≡ text.old.items ++ line)
        × Explains (λ p set. AreNext (Snap profile) block set) IsInRecord (front ++ block) (Some byte) line) }
{
    let spot = spot_in(fault.record_place(), counted, Some(byte), fault.allowed());
    append_spot(text, &spot)
}

/// Appends the line that explains what is left out with the byte, if something is, and the lines before it are counted.
fn explain_left_out(
    text: &mut Vec<u8>,
    left_out: &Option<LeftOut>,
    fault: &Option<Fault>,
    lines: Option<Lines>,
    byte: u8,
) -> Result<(), OutOfMemory>
    ensures { (profile : Profile) (limits : Limits) (q : List ℕ) → AreBehind lines q →
        IsFaultAt profile limits q byte left_out.now fault.now → OnOk result
        ((more : List (List ℕ)) × (text.new.items ≡ text.old.items ++ joined more)
        × ExplainsOut (is_some lines) profile limits (q ++ byte ∷ []) left_out.now more) }
{
    let Some(counted) = lines else {
        return Ok(());
    };
    let Some(left_out) = left_out else {
        return Ok(());
    };
    let Some(fault) = fault else {
        return Ok(());
    };
    let Cause::Refused(_) = left_out.cause else {
        return Ok(());
    };
    explain_fault(text, fault, counted, byte, left_out.at)
}

/// How many blocks were left out, with this one, if there is one.
fn counted(before: u64, left_out: &Option<LeftOut>) -> u64
    ensures { (told : List Told) → before ≡ left_out_of told → result ≡ left_out_of (told ++ told_out left_out.now) }
{
    match left_out {
        Some(_) => before.saturating_add(1),
        None => before,
    }
}

/// Appends a text, of which an empty one takes no memory. After `OutOfMemory` `out` is as before.
fn append(out: &mut Vec<u8>, text: &[u8]) -> Result<(), OutOfMemory>
    ensures added { OnOk result (out.new.items ≡ out.old.items ++ text.now) }
    ensures kept { OnErr result (out.new.items ≡ out.old.items) }
    ensures wanted { OnErr result (0 < length text.now) }
{
    if !text.is_empty() {
        out.extend_from_slice(text)?;
    }
    Ok(())
}

impl<T: Teller> GoingOnReader<T> {
    ghost use Rattle.std.proofs.Common.{inl};
    ghost use Rattle.cg_snap.specs.GoingOnEntry.{BeginsBlock};
    ghost use Rattle.cg_run.specs.GoneOn.{ShowsEntries};
    ghost use Rattle.cg_run.specs.GoneOnReader.{EndsOnBy, FoundOn, GoesOn, HasEndedOn, HasGoneOn, HasStoodOn};
    ghost use Rattle.cg_run.specs.Streaming.{IsFoundBy, StandsBehind};

    /// A reader that consumed nothing. It may explain what is left out.
    pub(crate) fn new(
        alloc: Global,
        profile: Profile,
        limits: Limits,
        explain: bool,
        teller: T,
    ) -> GoingOnReader<T>
        requires { T.keeps teller [] }
        ensures { HasGoneOn T.parts T.keeps result (profile, limits) explain [] [] }
    {
        GoingOnReader {
            decoder: GoingOnDecoder::new(alloc, profile, limits),
            teller,
            text: Vec::new(alloc),
            left_out: 0,
            lines: lines_of(explain),
        }
    }

    /// Tells what was found with the byte, and appends its text to `out`. The lines before the byte are counted, where
    /// what is left out is explained. After `OutOfMemory` `out` is as before.
    fn give(
        &mut self,
        out: &mut Vec<u8>,
        found: Found,
        lines: Option<Lines>,
        byte: u8,
    ) -> Result<(), OutOfMemory>
        ensures given { (profile : Profile) (limits : Limits) (q : List ℕ) (told : List Told) →
            T.keeps self.old.teller told → self.old.left_out ≡ left_out_of told → AreBehind lines q →
            IsFaultAt profile limits q byte found.left_out found.fault → OnOk result
            ((more : List (List ℕ))
            × (out.new.items ≡ out.old.items ++ joined (flat_map T.parts (told_found found) ++ more))
            × ExplainsOut (is_some lines) profile limits (q ++ byte ∷ []) found.left_out more
            × T.keeps self.new.teller (told ++ told_found found)
            × (self.new.left_out ≡ left_out_of (told ++ told_found found))) }
        ensures kept { OnErr result (out.new.items ≡ out.old.items) }
        ensures decoder { self.new.decoder ≡ self.old.decoder }
        ensures lines { self.new.lines ≡ self.old.lines }
    {
        self.text.clear();
        let left_out = counted(self.left_out, &found.left_out);
        tell_entry(&mut self.teller, &mut self.text, found.entry)?;
        tell_left_out(&mut self.teller, &mut self.text, &found.left_out)?;
        explain_left_out(&mut self.text, &found.left_out, &found.fault, lines, byte)?;
        append(out, self.text.as_slice())?;
        self.left_out = left_out;
        Ok(())
    }

    /// Tells an entry, and appends its text to `out`. After `OutOfMemory` `out` is as before.
    fn give_entry(&mut self, out: &mut Vec<u8>, entry: Entry) -> Result<(), OutOfMemory>
        ensures given { (told : List Told) → T.keeps self.old.teller told → OnOk result
            ((out.new.items ≡ out.old.items ++ joined (T.parts (inl entry)))
            × T.keeps self.new.teller (told ++ inl entry ∷ [])) }
        ensures kept { OnErr result (out.new.items ≡ out.old.items) }
        ensures decoder { self.new.decoder ≡ self.old.decoder }
        ensures left_out { self.new.left_out ≡ self.old.left_out }
        ensures lines { self.new.lines ≡ self.old.lines }
    {
        self.text.clear();
        self.teller.tell_entry(&mut self.text, entry)?;
        append(out, self.text.as_slice())?;
        Ok(())
    }

    /// Shows the entries whose lines lie in the piece behind those that so many bytes of it tell, one behind another,
    /// by their bytes.
    fn show_run(&mut self, piece: &[u8], at: usize, out: &mut Vec<u8>) -> Progress<()>
        requires { at ≤ length piece.now }
        ensures shown { (form : Profile × Limits) (explain : Bool) (p : List ℕ) (parts : List (List ℕ)) →
            ShowsEntries T.parts T.keeps self.old.teller →
            BeginsBlock (form.0) self.old.decoder.records (p ++ take at piece.now) →
            HasGoneOn T.parts T.keeps self.old form explain (p ++ take at piece.now) parts →
            FoundOn T.parts T.keeps self.new form explain p parts piece.now result.used
            out.old.items out.new.items result.what }
        ensures used { result.used ≤ length piece.now }
        ensures goes { 0 < at → GoesOn result.used result.what }
    {
        let run = pass_run(&mut self.decoder, piece, at);
        let (front, _) = piece.split_at(run.end);
        let (_, bytes) = front.split_at(run.begin);
        self.text.clear();
        match append_closed(out, &mut self.text, bytes) {
            Ok(()) => {
                let (taken, _) = piece.split_at(run.used);
                let (_, passed) = taken.split_at(at);
                self.lines = lines_behind(self.lines, passed);
                Progress {
                    used: run.used,
                    what: Event::Given(()),
                }
            }
            Err(_) => Progress {
                used: run.used,
                what: Event::OutOfMemory,
            },
        }
    }

    /// Takes bytes of the piece until something is found, and tells it.
    fn find(&mut self, piece: &[u8], out: &mut Vec<u8>) -> Progress<()>
        ensures found { (form : Profile × Limits) (explain : Bool) (p : List ℕ) (parts : List (List ℕ)) →
            HasGoneOn T.parts T.keeps self.old form explain p parts →
            FoundOn T.parts T.keeps self.new form explain p parts piece.now result.used
            out.old.items out.new.items result.what }
        ensures stood { (form : Profile × Limits) (explain : Bool) (p : List ℕ) (parts : List (List ℕ)) →
            HasGoneOn T.parts T.keeps self.old form explain p parts →
            StandsBehind (HasStoodOn self.new.decoder form) p piece.now result.used result.what }
        ensures used { result.used ≤ length piece.now }
        ensures progress { IsFoundBy (length piece.now) result.used result.what }
    {
        let pulled = self.decoder.next(piece);
        let used = pulled.used;
        match pulled.what {
            Event::NeedMore => {
                self.lines = lines_behind(self.lines, piece);
                Progress {
                    used,
                    what: Event::NeedMore,
                }
            }
            Event::Given(found) => {
                let (front, _) = piece.split_at(used - 1);
                let byte = piece[used - 1];
                let lines = lines_behind(self.lines, front);
                match self.give(out, found, lines, byte) {
                    Ok(()) => {
                        self.lines = lines_behind(lines, &[byte]);
                        Progress {
                            used,
                            what: Event::Given(()),
                        }
                    }
                    // The byte that tells it wants the memory.
                    Err(_) => Progress {
                        used: used - 1,
                        what: Event::OutOfMemory,
                    },
                }
            }
            Event::Stopped(stop) => Progress {
                used,
                what: Event::Stopped(stop),
            },
            Event::OutOfMemory => Progress {
                used,
                what: Event::OutOfMemory,
            },
        }
    }

    /// Tells the entry that the end of the input closes, if it closes one.
    fn end(self) -> Result<Ended<T>, StreamFault>
        ensures { (form : Profile × Limits) (explain : Bool) (p : List ℕ) (parts : List (List ℕ)) →
            HasGoneOn T.parts T.keeps self form explain p parts → MatchResult result
            (λ ended. HasEndedOn T.parts T.keeps ended form explain p parts)
            (EndsOnBy T.parts T.keeps form explain p parts) }
    {
        let GoingOnReader {
            decoder,
            mut teller,
            mut text,
            left_out,
            lines: _,
        } = self;
        let last = match decoder.finish() {
            Ok(last) => last,
            Err(stop) => return Err(StreamFault::Stopped(stop)),
        };
        text.clear();
        match tell_entry(&mut teller, &mut text, last) {
            Ok(()) => Ok(Ended {
                teller,
                text,
                left_out,
            }),
            Err(_) => Err(StreamFault::OutOfMemory),
        }
    }
}

impl<T: Teller> StreamReader for GoingOnReader<T> {
    type Setup = ((Profile, Limits), bool);

    ghost use Rattle.std.proofs.Common.{inl};
    ghost use Rattle.cg_snap.specs.GoingOn.{IsWanted};
    ghost use Rattle.cg_run.specs.GoneOn.{AllOf, ExplainsOn, GoingStopOf, IsGoingUnstopped, TellsParts};
    ghost use Rattle.cg_run.specs.GoneOnReader.{HasGoneOn, HasStoodOn, going_closed, going_counted, going_offset, going_passed, going_stands, going_within};

    ghost whole = { λ form. AllOf T.all T.outcome (form.1) (form.0.0) (form.0.1) };

    ghost closes = { λ form. TellsParts T.parts (form.1) (form.0.0) (form.0.1) };

    ghost unstopped = { λ form. IsGoingUnstopped (form.0.1) };

    ghost stops = { λ form. GoingStopOf (form.0.1) };

    ghost limit = { λ form. form.0.1.max_stream };

    ghost wanted = { λ form. IsWanted (form.0.0) (form.0.1) };

    ghost explained = { λ form. ExplainsOn (form.0.0) (form.0.1) };

    ghost explains = { λ form p what text h. inl h };

    ghost offset = { λ s. going_offset s };

    ghost took = { λ s form. HasGoneOn T.parts T.keeps s (form.0) (form.1) };

    ghost stood = { λ s form. HasStoodOn s.decoder (form.0) };

    ghost stands = { λ s form. going_stands T.parts T.keeps s (form.0) (form.1) };

    ghost within = { λ s form p h. going_within s.decoder (form.0) p h };

    ghost closed = { λ s form. going_closed T.parts T.keeps s (form.0) (form.1) };

    ghost passed = { λ s form. going_passed T.parts T.keeps s (form.0) (form.1) };

    ghost counted = { λ s form. going_counted T.parts T.keeps s (form.0) (form.1) };

    fn next(&mut self, piece: &[u8], out: &mut Vec<u8>) -> Progress<()> {
        let pulled = self.decoder.next_entry(piece);
        let used = pulled.used;
        if used == 0 {
            return self.find(piece, out);
        }
        let (front, _) = piece.split_at(used);
        let lines = lines_behind(self.lines, front);
        match pulled.what {
            Event::Given(entry) => match self.give_entry(out, entry) {
                Ok(()) => {
                    self.lines = lines;
                    if self.teller.shows() {
                        return self.show_run(piece, used, out);
                    }
                    Progress {
                        used,
                        what: Event::Given(()),
                    }
                }
                // The byte that closes the entry wants the memory.
                Err(_) => Progress {
                    used: used - 1,
                    what: Event::OutOfMemory,
                },
            },
            _ => {
                self.lines = lines;
                Progress {
                    used,
                    what: Event::NeedMore,
                }
            }
        }
    }

    fn standing(&self) -> Standing<'_> {
        Standing {
            place: self.decoder.record_place(),
            wanted: self.decoder.wanted(),
            is_cut: !self.decoder.can_finish(),
            consumed: self.decoder.offset(),
        }
    }
}

impl<T: TellsAll> LastPart for GoingOnReader<T> {
    fn finish(self, out: &mut Vec<u8>) -> Result<u64, StreamFault> {
        let ended = match self.end() {
            Ok(ended) => ended,
            Err(fault) => return Err(fault),
        };
        match append(out, ended.text.as_slice()) {
            Ok(()) => Ok(ended.left_out),
            Err(_) => Err(StreamFault::OutOfMemory),
        }
    }
}

impl<T: KeepsRuled> KeptEntries for GoingOnReader<T> {
    fn finish_kept(self) -> Result<Kept, StreamFault> {
        match self.end() {
            Ok(ended) => Ok(Kept {
                entries: ended.teller.into_entries(),
                left_out: ended.left_out,
            }),
            Err(fault) => Err(fault),
        }
    }
}
