//! Paths.
ghost use Rattle.std.specs.Prelude.{◌↔◌, IsTrue};
ghost use Rattle.cg_text.specs.Texts.{Lacks};
ghost use Rattle.cg_value.specs.Entry.{IsPath};
ghost use Rattle.cg_value.specs.Path.{IsNameOf};

use memchr::{memchr, memrchr};

/// What follows the last `/` of a path, or all of it where there is none. It takes no memory.
pub fn name_of(path: &[u8]) -> &[u8]
    ensures { IsNameOf path.now result.now }
{
    let start = match memrchr(b'/', path) {
        Some(place) => place + 1,
        None => 0,
    };
    let (_, name) = path.split_at(start);
    name
}

/// Whether the bytes are a path: at least one, no NUL or newline, and no `/` at the end.
pub(crate) fn is_path(path: &[u8]) -> bool
    ensures { IsTrue result ↔ IsPath path.now }
{
    if path.is_empty() {
        return false;
    }
    if path[path.len() - 1] == b'/' {
        return false;
    }
    has_no(path, 0) && has_no(path, b'\n')
}

/// Whether no byte of the path is this one.
fn has_no(path: &[u8], byte: u8) -> bool
    ensures { IsTrue result ↔ Lacks byte path.now }
{
    match memchr(byte, path) {
        Some(_) => false,
        None => true,
    }
}
