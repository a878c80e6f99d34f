//! What bytes do to the records of a plan.
ghost use Rattle.std.specs.Prelude.{◌≡◌, ◌+◌, ◌<◌, ◌≤◌, ◌++◌, ◌∷◌, ℕ, List, [], Some, None, length, take, get_or, IfSome, IfOk, MatchOption, MatchResult};
ghost use Rattle.cg_text.specs.Texts.{Lacks};
ghost use Rattle.cg_value.specs.Entry.{IsPath, ItemData, WritesAt};
ghost use Rattle.cg_value.specs.declared.kind.WriteForm.{WriteForm};
ghost use Rattle.cg_line.specs.SettingReads.{SettingReads};
ghost use Rattle.cg_snap.specs.Course.{AreOfRecord, GoesForward, Leaves, RefusedBy};
ghost use Rattle.cg_snap.specs.PathBytes.{ArePathBytes, EndsPath};
ghost use Rattle.cg_snap.specs.Plan.{IsItemLine, Plan};
ghost use Rattle.cg_snap.specs.PlanFront.{IsItemBehind, IsSettingFront};
ghost use Rattle.cg_snap.specs.PlanState.{AtItemLine, AtItemPath, HasConsumedItems, IsOfWriteKind, IsWritable};
ghost use Rattle.cg_snap.specs.PlanStop.{IsItemWhy};
ghost use Rattle.cg_snap.specs.Streams.{plan_stream};

use crate::class::writable;
use crate::event::{Event, Progress};
use crate::path::{ends_line, take_path};
use crate::stop::{Stop, Why};
use cg_line::{PushFault, SettingReader};
use cg_value::{PlanItem, Profile, Setting, WriteKind};
use cg_write::AnyWrite;
use memchr::memchr;
use std::alloc::Global;
use std::mem;

/// The item whose line comes.
#[derive(Drop)]
pub(crate) struct CurrentItem {
    pub(crate) path: Vec<u8>,
    pub(crate) reader: SettingReader,
}

/// Why the byte can't come within a line.
pub(crate) fn line_refusal(begun: &Vec<u8>, writing: &CurrentItem, byte: u8) -> Option<Why>
    ensures { (profile : Profile) (p : List ℕ) (items : List ItemData) →
        AtItemLine profile begun.now.items writing.now p items →
        RefusedBy (Plan profile) (IsItemWhy profile) p byte result }
{
    if writing.reader.allowed().contains(byte) {
        None
    } else {
        Some(Why::Line)
    }
}

/// Why the byte can't come within a path, or after it.
pub(crate) fn path_refusal(profile: Profile, begun: &Vec<u8>, byte: u8) -> Option<Why>
    ensures { (p : List ℕ) (items : List ItemData) → AtItemPath profile begun.now.items p items →
        RefusedBy (Plan profile) (IsItemWhy profile) p byte result }
{
    match byte {
        0 => writable(profile, begun.as_slice()).err(),
        b'\n' => Some(Why::PathByte),
        _ => None,
    }
}

/// The item of a whole line. There always is one.
fn written(profile: Profile, writing: CurrentItem) -> Option<PlanItem>
    ensures { (kind : WriteForm) (line : List ℕ) → IsPath writing.path.items →
        WritesAt profile writing.path.items (Some kind) → Lacks 10 line →
        SettingReads writing.reader kind (line ++ 10 ∷ []) →
        MatchOption result ⊥ (λ item. (item.path ≡ writing.path.items) × IsItemLine profile item line) }
{
    let CurrentItem { path, reader } = writing;
    match reader.finish() {
        Ok(setting) => match PlanItem::new(profile, path, setting) {
            Ok(item) => Some(item),
            Err(_) => None,
        },
        Err(_) => None,
    }
}

/// Takes bytes of the line that is begun, to its newline at the most.
pub(crate) fn take_line(
    profile: Profile,
    begun: &Vec<u8>,
    present: &mut Option<CurrentItem>,
    mut writing: CurrentItem,
    bytes: &[u8],
    at: u64,
) -> Progress<PlanItem>
    requires place { at + length bytes.now ≤ 18446744073709551615 }
    ensures left { (p : List ℕ) (items : List ItemData) → present.old ≡ None →
        AtItemLine profile begun.now.items writing p items → at ≡ length p → (max : ℕ) →
        Leaves (plan_stream profile) (HasConsumedItems profile begun.now.items present.new) max p items
        bytes.now result.used
        result.what }
    ensures of_record { (p : List ℕ) (items : List ItemData) → AtItemLine profile begun.now.items writing p items →
        AreOfRecord (take result.used bytes.now) }
    ensures within { result.used ≤ length bytes.now }
    ensures forward { GoesForward (length bytes.now) result.used result.what }
{
    let run = writing.reader.push_run(bytes);
    let used = run.used;
    if ends_line(bytes, used) {
        return match written(profile, writing) {
            Some(item) => Progress {
                used,
                what: Event::Given(item),
            },
            None => Progress {
                used,
                what: Event::OutOfMemory,
            },
        };
    }
    *present = Some(writing);
    match run.fault {
        None => Progress {
            used,
            what: Event::NeedMore,
        },
        Some(PushFault::Refused) => Progress {
            used,
            what: Event::Stopped(Stop::Refused {
                at: at + used as u64,
                why: Why::Line,
            }),
        },
        Some(PushFault::OutOfMemory) => Progress {
            used,
            what: Event::OutOfMemory,
        },
    }
}

/// The kind of a write to the file at the path that is begun, of which a line begins after the byte; or why the byte,
/// which no path has, can't come.
fn kind_after(profile: Profile, begun: &Vec<u8>, byte: u8) -> Result<WriteKind, Why>
    requires { EndsPath byte }
    ensures after { (p : List ℕ) (items : List ItemData) → AtItemPath profile begun.now.items p items →
        MatchResult result (λ kind. (byte ≡ 0) × IsOfWriteKind profile begun.now.items kind)
        (λ why. RefusedBy (Plan profile) (IsItemWhy profile) p byte (Some why)) }
    ensures kind { IfOk result (λ kind. IsOfWriteKind profile begun.now.items kind) }
{
    if byte == b'\n' {
        return Err(Why::PathByte);
    }
    writable(profile, begun.as_slice())
}

/// The setting of a whole line of this kind with which the bytes begin, and how many bytes the line has, with its
/// newline; none where there is none, or memory is refused.
fn setting_in_front(alloc: Global, kind: WriteKind, bytes: &[u8]) -> Option<(Setting, usize)>
    ensures { IfSome result (λ found. IsSettingFront kind bytes.now (found.0) (found.1)) }
{
    let end = memchr(b'\n', bytes)?;
    let (line, _) = bytes.split_at(end + 1);
    let setting = AnyWrite::read(alloc, kind, line)?;
    Some((setting, end + 1))
}

/// Begins the line after the NUL of the path that is begun, whose file is written so, and begins no path. Where the
/// bytes behind the NUL begin with the whole line it gives the item, and answers how many they are.
fn begin_line(
    alloc: Global,
    begun: &mut Vec<u8>,
    present: &mut Option<CurrentItem>,
    kind: WriteKind,
    bytes: &[u8],
) -> Option<(PlanItem, usize)>
    requires { IsWritable begun.old.items kind }
    ensures path { begun.new.items ≡ [] }
    ensures begun { (profile : Profile) (p : List ℕ) (items : List ItemData) → present.old ≡ None →
        AtItemPath profile begun.old.items p items → IsOfWriteKind profile begun.old.items kind →
        MatchOption result (HasConsumedItems profile begun.new.items present.new (p ++ 0 ∷ []) items)
        (λ found. IsItemBehind profile begun.old.items bytes.now (found.0) (found.1) × (present.new ≡ None)) }
    ensures some { IfSome result (λ found. (0 < found.1) × (found.1 ≤ length bytes.now)) }
{
    let path = mem::replace(begun, Vec::new(alloc));
    match setting_in_front(alloc, kind, bytes) {
        Some((setting, used)) => Some((PlanItem::known(path, setting), used)),
        None => {
            *present = Some(CurrentItem {
                path,
                reader: SettingReader::new(alloc, kind),
            });
            None
        }
    }
}

/// Takes what comes of a path, and the NUL after it; and the line behind that, where it comes whole.
pub(crate) fn take_head(
    alloc: Global,
    profile: Profile,
    begun: &mut Vec<u8>,
    present: &mut Option<CurrentItem>,
    bytes: &[u8],
    at: u64,
) -> Progress<PlanItem>
    requires path { ArePathBytes begun.old.items }
    requires place { at + length bytes.now ≤ 18446744073709551615 }
    ensures path { ArePathBytes begun.new.items }
    ensures left { (p : List ℕ) (items : List ItemData) → present.old ≡ None →
        AtItemPath profile begun.old.items p items → at ≡ length p → (max : ℕ) →
        Leaves (plan_stream profile) (HasConsumedItems profile begun.new.items present.new) max p items
        bytes.now result.used
        result.what }
    ensures of_record { (p : List ℕ) (items : List ItemData) → present.old ≡ None →
        AtItemPath profile begun.old.items p items → AreOfRecord (take result.used bytes.now) }
    ensures within { result.used ≤ length bytes.now }
    ensures forward { GoesForward (length bytes.now) result.used result.what }
{
    let used = match take_path(begun, bytes) {
        Ok(used) => used,
        Err(_) => {
            return Progress {
                used: 0,
                what: Event::OutOfMemory,
            };
        }
    };
    if used == bytes.len() {
        return Progress {
            used,
            what: Event::NeedMore,
        };
    }
    let at = at + used as u64;
    let kind = match kind_after(profile, begun, bytes[used]) {
        Ok(kind) => kind,
        Err(why) => {
            return Progress {
                used,
                what: Event::Stopped(Stop::Refused { at, why }),
            };
        }
    };
    let (_, rest) = bytes.split_at(used + 1);
    match begin_line(alloc, begun, present, kind, rest) {
        Some((item, line)) => Progress {
            used: used + 1 + line,
            what: Event::Given(item),
        },
        None => Progress {
            used: used + 1,
            what: Event::NeedMore,
        },
    }
}
