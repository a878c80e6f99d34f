//! Directories of paths.
ghost use Rattle.std.specs.Prelude.{◌≡◌};
ghost use Rattle.cg_tree.specs.Directory.{directory_of};

use cg_value::name_of;

/// What stands before the name of a path: all up to and with its last `/`, nothing where there is none.
pub(crate) fn directory_of(path: &[u8]) -> &[u8]
    ensures { result.now ≡ directory_of path.now }
{
    let name = name_of(path);
    let (directory, _) = path.split_at(path.len() - name.len());
    directory
}
