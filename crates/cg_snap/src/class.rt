//! What a whole path names.
ghost use Rattle.std.specs.Prelude.{MatchBool};
ghost use Rattle.cg_snap.specs.DecoderState.{IsClass};
ghost use Rattle.cg_snap.specs.PlanState.{IsWriteClass};
ghost use Rattle.cg_snap.specs.SnapStop.{IsNameless};

use crate::stop::Why;
use cg_value::{Profile, ReadKind, WriteKind, name_of, read_kind, write_kind};

/// Whether the path has no name.
pub(crate) fn is_nameless(path: &[u8]) -> bool
    ensures { MatchBool result (IsNameless path.now) (IsNameless path.now → ⊥) }
{
    path.is_empty() || path[path.len() - 1] == b'/'
}

/// The kind of the file at the path, if it has a name and can be read.
pub(crate) fn readable(profile: Profile, path: &[u8]) -> Result<ReadKind, Why>
    ensures { IsClass profile path.now result }
{
    if is_nameless(path) {
        return Err(Why::NoName);
    }
    match read_kind(profile, name_of(path)) {
        Ok(kind) => Ok(kind),
        Err(_) => Err(Why::NotReadable),
    }
}

/// The kind of a write to the file at the path, if it has a name and can be written.
#[inline(always)]
pub(crate) fn writable(profile: Profile, path: &[u8]) -> Result<WriteKind, Why>
    ensures { IsWriteClass profile path.now result }
{
    if is_nameless(path) {
        return Err(Why::NoName);
    }
    match write_kind(profile, name_of(path)) {
        Ok(kind) => Ok(kind),
        Err(_) => Err(Why::NotWritable),
    }
}
