//! The first entry of a stream of which the caller keeps the bytes.
ghost use Rattle.std.specs.Prelude.{◌≡◌, ◌≤◌, [], ◌∷◌, None, IfOk, IsSomeAnd, length, true};
ghost use Rattle.cg_value.specs.Print.{print_of};
ghost use Rattle.cg_snap.specs.declared.stop.Stop.TheVariants.{Refused, Cut, TooLong, TooMany, TooMuch};
ghost use Rattle.cg_snap.specs.declared.stop.Why.{Why};
ghost use Rattle.cg_c.specs.Answer.{is_one_of, profile_of, HasNoRoom, IsPrinted};
ghost use Rattle.cg_c.specs.First.{printed, IsAnswer, IsAtFront, IsEntryAnswer, IsMore, IsStarvedFirst, IsStopped};

use crate::answer::{
    CUT, DONE, END, MORE, NO_MEMORY, NO_PROFILE, NO_ROOM, REFUSED, TOO_LONG, TOO_MANY, TOO_MUCH,
    profile_of, put,
};
use crate::json::line_text;
use cg_first::{First, first_entry};
use cg_print::print_file;
use cg_snap::{Limits, Stop, StreamFault};
use cg_text::OutOfMemory;
use cg_value::{Entry, Profile};
use std::alloc::Global;

/// What is told of the first entry of some bytes.
#[derive(Drop)]
enum Answer {
    /// A text of the entry, which has so many bytes, and its path so many of these.
    Text {
        text: Vec<u8>,
        taken: usize,
        path_len: usize,
    },
    /// No entry is whole yet.
    More,
    /// The stream has ended.
    End,
}

/// The text of the file of an entry, which is let go of.
fn file_text(alloc: Global, entry: Entry) -> Result<Vec<u8>, OutOfMemory>
    ensures { IfOk result (λ text. text.items ≡ print_of entry.value) }
{
    print_file(alloc, entry.value())
}

/// The line of JSON of an entry, or the text of its file. The entry is let go of.
fn print(alloc: Global, entry: Entry, is_json: bool) -> Result<Vec<u8>, OutOfMemory>
    ensures { IfOk result (λ text. text.items ≡ printed is_json entry) }
{
    if is_json {
        line_text(alloc, entry)
    } else {
        file_text(alloc, entry)
    }
}

/// What is told of an entry of so many bytes.
fn entry_answer(
    alloc: Global,
    entry: Entry,
    taken: usize,
    is_json: bool,
) -> Result<Answer, StreamFault>
    ensures { IsEntryAnswer entry taken is_json result }
{
    let path_len = entry.path().len();
    match print(alloc, entry, is_json) {
        Ok(text) => Ok(Answer::Text {
            text,
            taken,
            path_len,
        }),
        Err(_) => Err(StreamFault::OutOfMemory),
    }
}

/// What is told of the first entry of the bytes.
fn first_answer(
    alloc: Global,
    profile: Profile,
    bytes: &[u8],
    is_end: bool,
    is_json: bool,
) -> Result<Answer, StreamFault>
    ensures { IsAnswer profile bytes.now is_end is_json result }
{
    match first_entry(alloc, profile, Limits::DEFAULT, bytes, is_end) {
        Ok(First::Entry { entry, taken }) => entry_answer(alloc, entry, taken, is_json),
        Ok(First::More) => Ok(Answer::More),
        Ok(First::End) => Ok(Answer::End),
        Err(fault) => Err(fault),
    }
}

/// The line of JSON of the first entry of a stream of which these bytes came, all where it has ended; or the text of
/// its file.
#[unsafe(no_mangle)]
pub extern "C" fn cgfile_first(
    alloc: Global,
    profile: u32,
    bytes: &[u8],
    is_end: bool,
    is_json: bool,
    out: &mut [u8],
    used: &mut usize,
    taken: &mut usize,
    path_len: &mut usize,
    at: &mut u64,
) -> u32
    ensures done { result ≡ 0 → IsSomeAnd (profile_of profile) (λ p.
        IsPrinted (IsAtFront p bytes.now is_end taken.new path_len.new) (printed is_json) out.old out.new used.new) }
    ensures refused { result ≡ 1 → IsSomeAnd (profile_of profile) (λ p.
        (why : Why) × IsStopped p bytes.now is_end (Refused at.new why)) }
    ensures cut { result ≡ 2 → IsSomeAnd (profile_of profile) (λ p. IsStopped p bytes.now is_end (Cut at.new)) }
    ensures no_room { result ≡ 4 → IsSomeAnd (profile_of profile) (λ p.
        HasNoRoom (IsAtFront p bytes.now is_end taken.new path_len.new) (printed is_json) out.old used.new) }
    ensures no_memory { result ≡ 5 → IsSomeAnd (profile_of profile) (λ p. IsStarvedFirst p bytes.now is_end) }
    ensures no_profile { result ≡ 6 → profile_of profile ≡ None }
    ensures more { result ≡ 11 → IsSomeAnd (profile_of profile) (λ p. IsMore p bytes.now is_end) }
    ensures end { result ≡ 12 → (is_end ≡ true) × (bytes.now ≡ []) }
    ensures too_long { result ≡ 13 → IsSomeAnd (profile_of profile) (λ p.
        IsStopped p bytes.now is_end (TooLong at.new)) }
    ensures too_many { result ≡ 14 → IsSomeAnd (profile_of profile) (λ p.
        IsStopped p bytes.now is_end (TooMany at.new)) }
    ensures too_much { result ≡ 15 → IsSomeAnd (profile_of profile) (λ p.
        IsStopped p bytes.now is_end (TooMuch at.new)) }
    ensures known { is_one_of result (0 ∷ 1 ∷ 2 ∷ 4 ∷ 5 ∷ 6 ∷ 11 ∷ 12 ∷ 13 ∷ 14 ∷ 15 ∷ []) ≡ true }
    ensures kept { 1 ≤ result → out.new ≡ out.old }
{
    let profile = match profile_of(profile) {
        Some(profile) => profile,
        None => return NO_PROFILE,
    };
    let text = match first_answer(alloc, profile, bytes, is_end, is_json) {
        Ok(
            Answer::Text {
                text,
                taken: count,
                path_len: path_count,
            },
        ) => {
            *taken = count;
            *path_len = path_count;
            text
        }
        Ok(Answer::More) => return MORE,
        Ok(Answer::End) => return END,
        Err(StreamFault::Stopped(Stop::Refused { at: place, .. })) => {
            *at = place;
            return REFUSED;
        }
        Err(StreamFault::Stopped(Stop::Cut { at: place })) => {
            *at = place;
            return CUT;
        }
        Err(StreamFault::Stopped(Stop::TooLong { at: place })) => {
            *at = place;
            return TOO_LONG;
        }
        Err(StreamFault::Stopped(Stop::TooMany { at: place })) => {
            *at = place;
            return TOO_MANY;
        }
        Err(StreamFault::Stopped(Stop::TooMuch { at: place })) => {
            *at = place;
            return TOO_MUCH;
        }
        Err(StreamFault::OutOfMemory) => return NO_MEMORY,
    };
    *used = text.len();
    if put(text.as_slice(), out) {
        DONE
    } else {
        NO_ROOM
    }
}
