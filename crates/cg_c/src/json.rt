//! The line of JSON of a file.
ghost use Rattle.std.specs.Prelude.{◌≡◌, ◌≤◌, ℕ, List, [], ◌∷◌, None, IfOk, MatchResult, IsSomeAnd, true};
ghost use Rattle.cg_text.specs.Texts.{FirstBad};
ghost use Rattle.cg_value.specs.Entry.{IsEntry, IsPath};
ghost use Rattle.cg_value.specs.EntryRefusal.{IsEntryFault};
ghost use Rattle.cg_value.specs.Files.{FileText, File};
ghost use Rattle.cg_value.specs.Path.{IsNameOf};
ghost use Rattle.cg_value.specs.Print.{print_lines};
ghost use Rattle.cg_value.specs.Table.{read_form_of};
ghost use Rattle.cg_value.specs.declared.value.Value.{Value};
ghost use Rattle.cg_json.specs.Entry.{line_of};
ghost use Rattle.cg_line.specs.Decode.{IsCut};
ghost use Rattle.cg_c.specs.Answer.{is_one_of, profile_of, HasNoRoom, IsFileTold, IsOutOfMemory, IsPrinted};
ghost use Rattle.cg_c.specs.Json.{json_line, no_line, IsLineOf, OfName};

use crate::answer::{
    BAD_PATH, DONE, NO_LINES, NO_PROFILE, NO_ROOM, profile_of, put, read_or_answer,
};
use cg_json::line;
use cg_line::{FileFault, decode_file};
use cg_text::OutOfMemory;
use cg_value::{Entry, EntryFault, EntryRefused, Profile, Value, name_of};
use std::alloc::Global;

/// The line of an entry; or why a path and a value make none.
#[derive(Drop)]
pub(crate) enum Line {
    Text(Vec<u8>),
    BadPath,
    NoLines,
}

/// The line of an entry, which is let go of.
pub(crate) fn line_text(alloc: Global, entry: Entry) -> Result<Vec<u8>, OutOfMemory>
    ensures { IfOk result (λ text. text.items ≡ line_of entry) }
{
    line(alloc, &entry)
}

/// Why there is no entry. The path and the value are let go of.
fn why_of(refused: EntryRefused) -> EntryFault
    ensures { result ≡ refused.why }
{
    refused.why
}

/// The entry of a path and a value, or why they make none.
fn entry_of(profile: Profile, path: Vec<u8>, value: Value) -> Result<Entry, EntryFault>
    ensures { MatchResult result
        (λ entry. (entry.path ≡ path.items) × (entry.value ≡ value) × IsEntry profile path.items value)
        (λ why. IsEntryFault profile path.items value why) }
{
    match Entry::new(profile, path, value) {
        Ok(entry) => Ok(entry),
        Err(refused) => Err(why_of(refused)),
    }
}

/// What is told where a path and a value make no entry. The value is of the kind of the path's name, so then it has no
/// line.
fn no_line(why: EntryFault) -> Line
    ensures { result ≡ no_line why }
{
    match why {
        EntryFault::BadPath => Line::BadPath,
        EntryFault::NotReadable => Line::NoLines,
        EntryFault::WrongKind => Line::NoLines,
        EntryFault::NoLines => Line::NoLines,
    }
}

/// The line of the value of a file at this path.
fn value_line(
    alloc: Global,
    profile: Profile,
    path: &[u8],
    value: Value,
) -> Result<Line, OutOfMemory>
    ensures { (name text : List ℕ) → IsNameOf path.now name → FileText profile name value text →
        IfOk result (λ line. IsLineOf profile path.now value line) }
{
    let path = Vec::from_slice(alloc, path)?;
    match entry_of(profile, path, value) {
        Ok(entry) => Ok(Line::Text(line_text(alloc, entry)?)),
        Err(why) => Ok(no_line(why)),
    }
}

/// The line of the file at this path whose whole text this is.
fn file_line(alloc: Global, profile: Profile, path: &[u8], text: &[u8]) -> Result<Line, FileFault>
    ensures { OfName path.now (λ name.
        IsFileTold profile name text.now (λ v line. IsLineOf profile path.now v line) result) }
{
    match decode_file(alloc, profile, name_of(path), text) {
        Ok(value) => match value_line(alloc, profile, path, value) {
            Ok(line) => Ok(line),
            Err(_) => Err(FileFault::OutOfMemory),
        },
        Err(fault) => Err(fault),
    }
}

/// The line of JSON of the file at this path whose whole text this is.
#[unsafe(no_mangle)]
pub extern "C" fn cgfile_json(
    alloc: Global,
    profile: u32,
    path: &[u8],
    text: &[u8],
    out: &mut [u8],
    used: &mut usize,
    at: &mut u64,
) -> u32
    ensures done { result ≡ 0 → IsSomeAnd (profile_of profile) (λ p. OfName path.now (λ name.
        IsPrinted (λ v. FileText p name v text.now × IsEntry p path.now v) (json_line path.now)
        out.old out.new used.new)) }
    ensures refused { result ≡ 1 → IsSomeAnd (profile_of profile) (λ p. OfName path.now (λ name.
        FirstBad (File p name) text.now at.new)) }
    ensures cut { result ≡ 2 → IsSomeAnd (profile_of profile) (λ p. OfName path.now (λ name.
        IsCut (File p name) text.now at.new)) }
    ensures no_form { result ≡ 3 → IsSomeAnd (profile_of profile) (λ p. OfName path.now (λ name.
        read_form_of p name ≡ None)) }
    ensures no_room { result ≡ 4 → IsSomeAnd (profile_of profile) (λ p. OfName path.now (λ name.
        HasNoRoom (λ v. FileText p name v text.now × IsEntry p path.now v) (json_line path.now) out.old used.new)) }
    ensures no_memory { result ≡ 5 → IsSomeAnd (profile_of profile) (λ p. OfName path.now (λ name.
        IsOutOfMemory (File p name) text.now)) }
    ensures no_profile { result ≡ 6 → profile_of profile ≡ None }
    ensures bad_path { result ≡ 9 → IsSomeAnd (profile_of profile) (λ p. OfName path.now (λ name.
        (v : Value) × FileText p name v text.now × (IsPath path.now → ⊥))) }
    ensures no_lines { result ≡ 10 → IsSomeAnd (profile_of profile) (λ p. OfName path.now (λ name.
        (v : Value) × FileText p name v text.now × (print_lines v ≡ []))) }
    ensures known { is_one_of result (0 ∷ 1 ∷ 2 ∷ 3 ∷ 4 ∷ 5 ∷ 6 ∷ 9 ∷ 10 ∷ []) ≡ true }
    ensures kept { 1 ≤ result → out.new ≡ out.old }
{
    let profile = match profile_of(profile) {
        Some(profile) => profile,
        None => return NO_PROFILE,
    };
    let line = read_or_answer!(
        file_line(alloc, profile, path, text),
        at,
        FileFault::NotReadable
    );
    let text = match line {
        Line::Text(text) => text,
        Line::BadPath => return BAD_PATH,
        Line::NoLines => return NO_LINES,
    };
    *used = text.len();
    if put(text.as_slice(), out) {
        DONE
    } else {
        NO_ROOM
    }
}
