//! What is done with what is told of a snapshot that is gone on with.
ghost use Rattle.std.proofs.Common.{inl, inr};
ghost use Rattle.std.specs.Prelude.{◌≡◌, ◌≢◌, ◌∷◌, ◌++◌, [], List, ℕ, IsTrue, OnOk};
ghost use Rattle.std.specs.List.{flat_map};
ghost use Rattle.cg_value.specs.Entry.{EntryData};
ghost use Rattle.cg_snap.specs.GoingOn.{Told};
ghost use Rattle.cg_tree.specs.Ruled.{ruled};
ghost use Rattle.cg_run.specs.Check.{finding_lines};
ghost use Rattle.cg_run.specs.GoneOn.{ShowsEntries, Telling, checked_outcome, entries_of, explained_part, told_of, told_outcome};
ghost use Rattle.cg_outcome.specs.Wrote.{joined};
ghost use Rattle.cg_run.specs.Stream.{shown_part};
ghost use Rattle.cg_outcome.specs.declared.outcome.Outcome.{Outcome};

use crate::kept::keep;
use crate::left_out::{append_json_left_out, append_left_out};
use cg_print::print_shown;
use cg_snap::LeftOut;
use cg_text::OutOfMemory;
use cg_value::Entry;
use std::alloc::Global;

/// What makes the text of what is told, or keeps it.
pub(crate) trait Teller: Drop {
    // The parts of what is told.
    ghost parts: { Told → List (List ℕ) };

    // The parts of a whole stream of which this is told, and how a run over it ends.
    ghost all: { List Telling → List (List ℕ) };

    ghost outcome: { List Told → Outcome };

    // This is what it has where this was told.
    ghost keeps: { Self → List Told → Type 0 };

    /// Appends the text of an entry, or keeps the entry.
    fn tell_entry(&mut self, text: &mut Vec<u8>, entry: Entry) -> Result<(), OutOfMemory>
        ensures { (told : List Told) → keeps self.old told → OnOk result
            ((text.new.items ≡ text.old.items ++ joined (parts (inl entry)))
            × keeps self.new (told ++ inl entry ∷ [])) };

    /// Whether entries are shown, and nothing is kept of them, so that their bytes may be shown in place of them.
    fn shows(&self) -> bool
        ensures { IsTrue result → ShowsEntries parts keeps self.now };

    /// Appends the line of a block that is left out.
    fn tell_left_out(&mut self, text: &mut Vec<u8>, left_out: &LeftOut) -> Result<(), OutOfMemory>
        ensures { (told : List Told) → keeps self.old told → OnOk result
            ((text.new.items ≡ text.old.items ++ joined (parts (inr left_out.now)))
            × keeps self.new (told ++ inr left_out.now ∷ [])) };
}

/// What makes the text of all that is told, and keeps nothing for the end.
pub(crate) trait TellsAll: Teller {
    ghost no_more: { (ts : List Telling) → Self.all ts ≡ flat_map (explained_part Self.parts) ts };

    ghost some: { (e : EntryData) → Self.parts (inl e) ≢ [] };

    ghost ends: { (told : List Told) → Self.outcome told ≡ told_outcome told };
}

/// What keeps the entries that the rules speak of, for the end, and makes the text of what is left out.
pub(crate) trait KeepsRuled: Teller {
    /// The entries.
    fn into_entries(self) -> Vec<Entry>
        ensures { (told : List Told) → Self.keeps self told → result.items ≡ ruled (entries_of told) };

    ghost lines: { (ts : List Telling) →
        Self.all ts ≡ flat_map (explained_part Self.parts) ts ++ finding_lines (entries_of (told_of ts)) };

    ghost ends: { (told : List Told) → Self.outcome told ≡ checked_outcome told };

    ghost no_line: { (e : EntryData) → Self.parts (inl e) ≡ [] };
}

/// Appends an entry as it is shown.
fn append_entry(text: &mut Vec<u8>, entry: &Entry) -> Result<(), OutOfMemory>
    ensures { OnOk result (text.new.items ≡ text.old.items ++ shown_part entry.now) }
{
    let shown = print_shown(*text.allocator(), entry)?;
    text.extend_from_slice(shown.as_slice())?;
    Ok(())
}

/// Shows each entry.
#[derive(Drop)]
pub(crate) struct ShownTeller;

impl Teller for ShownTeller {
    ghost use Rattle.cg_run.specs.GoneOn.{keeps_none, shown_told, told_outcome};

    ghost parts = { shown_told };

    ghost all = { λ ts. flat_map (explained_part shown_told) ts };

    ghost outcome = { told_outcome };

    ghost keeps = { keeps_none };

    fn tell_entry(&mut self, text: &mut Vec<u8>, entry: Entry) -> Result<(), OutOfMemory> {
        append_entry(text, &entry)
    }

    fn shows(&self) -> bool {
        true
    }

    fn tell_left_out(&mut self, text: &mut Vec<u8>, left_out: &LeftOut) -> Result<(), OutOfMemory> {
        append_left_out(text, left_out)
    }
}

impl TellsAll for ShownTeller {
    ghost use Rattle.std.proofs.Common.{refl};
    ghost use Rattle.cg_run.specs.GoneOn.{some_entry};

    ghost no_more = { λ told. refl };

    ghost some = { λ e. some_entry _ };

    ghost ends = { λ told. refl };
}

/// Tells each entry as a line of JSON.
#[derive(Drop)]
pub(crate) struct JsonTeller;

impl Teller for JsonTeller {
    ghost use Rattle.cg_run.specs.GoneOn.{json_told, keeps_none, told_outcome};

    ghost parts = { json_told };

    ghost all = { λ ts. flat_map (explained_part json_told) ts };

    ghost outcome = { told_outcome };

    ghost keeps = { keeps_none };

    fn tell_entry(&mut self, text: &mut Vec<u8>, entry: Entry) -> Result<(), OutOfMemory> {
        cg_json::append_line(text, &entry)
    }

    fn shows(&self) -> bool {
        false
    }

    fn tell_left_out(&mut self, text: &mut Vec<u8>, left_out: &LeftOut) -> Result<(), OutOfMemory> {
        append_json_left_out(text, left_out)
    }
}

impl TellsAll for JsonTeller {
    ghost use Rattle.std.proofs.Common.{refl};
    ghost use Rattle.cg_run.specs.GoneOn.{some_entry};

    ghost no_more = { λ told. refl };

    ghost some = { λ e. some_entry _ };

    ghost ends = { λ told. refl };
}

/// Keeps the entries that the rules speak of.
#[derive(Drop)]
pub(crate) struct KeptTeller {
    pub(crate) entries: Vec<Entry>,
}

impl KeptTeller {
    ghost use Rattle.cg_run.specs.GoneOn.{keeps_ruled};

    /// It has no entry.
    pub(crate) fn new(alloc: Global) -> KeptTeller
        ensures { keeps_ruled result [] }
    {
        KeptTeller {
            entries: Vec::new(alloc),
        }
    }
}

impl Teller for KeptTeller {
    ghost use Rattle.cg_run.specs.GoneOn.{checked_lines, checked_outcome, checked_told, keeps_ruled};

    ghost parts = { checked_told };

    ghost all = { checked_lines };

    ghost outcome = { checked_outcome };

    ghost keeps = { keeps_ruled };

    fn tell_entry(&mut self, _text: &mut Vec<u8>, entry: Entry) -> Result<(), OutOfMemory> {
        keep(&mut self.entries, entry)
    }

    fn shows(&self) -> bool {
        false
    }

    fn tell_left_out(&mut self, text: &mut Vec<u8>, left_out: &LeftOut) -> Result<(), OutOfMemory> {
        append_left_out(text, left_out)
    }
}

impl KeepsRuled for KeptTeller {
    ghost use Rattle.std.proofs.Common.{refl};

    ghost lines = { λ told. refl };

    ghost ends = { λ told. refl };

    ghost no_line = { λ e. refl };

    fn into_entries(self) -> Vec<Entry> {
        self.entries
    }
}
