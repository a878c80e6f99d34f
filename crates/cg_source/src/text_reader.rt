//! What reads one text, of a file or of a write.
ghost use Rattle.std.specs.Prelude.{◌≡◌, ◌≤◌, ◌<◌, ◌↔◌, ℕ, List, length, take, IfNone, IsTrue, MatchOption, MatchResult};
ghost use Rattle.cg_text.specs.Bytes.{HasByte};
ghost use Rattle.cg_text.specs.Texts.{TextOf, Viable, Next};
ghost use Rattle.cg_source.specs.TextReader.{IsRunTaken};

use cg_line::{PushedRun, SettingReader};
use cg_print::print_setting;
use cg_text::{ByteSet, OutOfMemory};
use cg_value::{Setting, WriteForm};
use std::alloc::Global;

/// As many bytes from the front as there is room for.
pub fn front_of(bytes: &[u8], room: u64) -> &[u8]
    ensures { result.now ≡ take room bytes.now }
{
    if room < bytes.len() as u64 {
        bytes.split_at(room as usize).0
    } else {
        bytes
    }
}

/// A reader of one text, and how what the text spells is printed.
pub trait TextReader: Drop {
    /// What tells which texts are read.
    type Grammar;

    /// What a text spells.
    type Spelled: Drop;

    // The texts of a form, each with what it spells.
    ghost text: { Self.Grammar → List ℕ → Self.Spelled → Type 0 };

    // The canonical text of what is spelled.
    ghost printed: { Self.Spelled → List ℕ };

    // The reader is of this form and took these bytes.
    ghost took: { Self → Self.Grammar → List ℕ → Type 0 };

    /// Takes bytes from the front of `bytes`, as many as there is room for at most: until a newline was taken, none is
    /// left, or one is refused or memory is.
    fn take_run(&mut self, bytes: &[u8], room: u64) -> PushedRun
        ensures taken { (form : Self.Grammar) (taken : List ℕ) → took self.old form taken →
            IsRunTaken (TextOf (text form)) (took self.new form) taken (take room bytes.now) result }
        ensures within { result.used ≤ length (take room bytes.now) }
        ensures goes_on { IfNone result.fault (0 < length (take room bytes.now) → 0 < result.used) };

    /// The bytes with which some text of the form goes on.
    fn allowed(&self) -> ByteSet
        ensures { (form : Self.Grammar) (taken : List ℕ) → took self.now form taken → (byte : ℕ) → HasByte result byte ↔
            Next (TextOf (text form)) taken byte };

    /// Whether the bytes are a whole text of the form.
    fn can_finish(&self) -> bool
        ensures { (form : Self.Grammar) (taken : List ℕ) → took self.now form taken →
            (IsTrue result ↔ TextOf (text form) taken) };

    /// The canonical text of what the bytes spell, none where they are no whole text. `OutOfMemory` where they are one,
    /// and no memory is left for it.
    fn finish(self, alloc: Global) -> Result<Option<Vec<u8>>, OutOfMemory>
        ensures { (form : Self.Grammar) (taken : List ℕ) → took self form taken → MatchResult result
            (λ found. MatchOption found (TextOf (text form) taken → ⊥) (λ canonical. (v : Self.Spelled) ×
            text form taken v × (canonical.items ≡ printed v)))
            (λ _. TextOf (text form) taken) };

    /// Some text of the form begins with the bytes that were taken.
    ghost viable: { (s : Self) (form : Self.Grammar) (taken : List ℕ) → took s form taken →
        Viable (TextOf (text form)) taken };
}

impl TextReader for SettingReader {
    type Grammar = WriteForm;

    type Spelled = Setting;

    ghost use Rattle.cg_line.specs.SettingReads.{SettingReads, setting_reads_viable};
    ghost use Rattle.cg_value.specs.Settings.{WriteText};
    ghost use Rattle.cg_value.specs.Print.{print_setting_of};

    ghost text = { λ form text s. WriteText form s text };

    ghost printed = { print_setting_of };

    ghost took = { SettingReads };

    ghost viable = { setting_reads_viable };

    fn take_run(&mut self, bytes: &[u8], room: u64) -> PushedRun {
        self.push_run(front_of(bytes, room))
    }

    fn allowed(&self) -> ByteSet {
        SettingReader::allowed(self)
    }

    fn can_finish(&self) -> bool {
        SettingReader::can_finish(self)
    }

    fn finish(self, alloc: Global) -> Result<Option<Vec<u8>>, OutOfMemory> {
        match SettingReader::finish(self) {
            Ok(setting) => Ok(Some(print_setting(alloc, &setting)?)),
            Err(_) => Ok(None),
        }
    }
}
