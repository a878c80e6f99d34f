//! The bytes of a path, and those of a line, which are taken many at once.
ghost use Rattle.std.specs.Prelude.{◌≡◌, ◌<◌, ◌≤◌, ◌-◌, ◌↔◌, ◌++◌, length, take, get_or, IsTrue, MatchResult};
ghost use Rattle.cg_snap.specs.PathBytes.{BeginsPath, IsLineFront, IsPathFront};

use cg_text::OutOfMemory;
use memchr::memchr;

/// How many path bytes come: all before the first NUL or newline.
fn path_length(bytes: &[u8]) -> usize
    ensures { IsPathFront bytes.now result }
{
    let nul = match memchr(0, bytes) {
        Some(nul) => nul,
        None => bytes.len(),
    };
    let (path, _) = bytes.split_at(nul);
    line_length(path)
}

/// How many bytes come before the first newline, all where there is none.
pub(crate) fn line_length(bytes: &[u8]) -> usize
    ensures { IsLineFront bytes.now result }
{
    match memchr(b'\n', bytes) {
        Some(newline) => newline,
        None => bytes.len(),
    }
}

/// Takes the path bytes that come, and answers how many. Where memory is refused it takes none, though there is one.
pub(crate) fn take_path(begun: &mut Vec<u8>, bytes: &[u8]) -> Result<usize, OutOfMemory>
    ensures { MatchResult result (λ used. IsPathFront bytes.now used × (begun.new.items ≡ begun.old.items ++
        take used bytes.now)) (λ _. BeginsPath bytes.now × (begun.new.items ≡ begun.old.items)) }
{
    let used = path_length(bytes);
    if used > 0 {
        let (front, _) = bytes.split_at(used);
        begun.extend_from_slice(front)?;
    }
    Ok(used)
}

/// Whether the last of so many bytes is a newline.
pub(crate) fn ends_line(bytes: &[u8], used: usize) -> bool
    requires { used ≤ length bytes.now }
    ensures { IsTrue result ↔ (0 < used) × (get_or bytes.now (used - 1) 0 ≡ 10) }
{
    used > 0 && bytes[used - 1] == b'\n'
}
