//! What is left out of a snapshot, as lines of JSON.
ghost use Rattle.std.specs.Prelude.{◌≡◌, ◌++◌, OnOk};
ghost use Rattle.cg_json.specs.Entry.{left_out_line};

use crate::compact::{append_bytes, append_labelled};
use crate::text::append_string;
use cg_text::{Items, OutOfMemory};

/// Adds the line of what is left out of a snapshot, by why: an object of the place of the byte at fault, the kind
/// `left_out`, the path, which is null where there is none, and the reason; and a newline. `OutOfMemory` where no
/// memory is left.
pub fn append_left_out(
    out: &mut Vec<u8>,
    at: u64,
    path: &Option<Items<u8>>,
    why: &str,
) -> Result<(), OutOfMemory>
    ensures { OnOk result (out.new.items ≡ out.old.items ++ left_out_line at path.now why.now) }
{
    append_labelled(out, b"{\"at\":", &at)?;
    append_labelled(out, b",\"kind\":\"left_out\",\"path\":", path)?;
    append_bytes(out, b",\"why\":")?;
    append_string(out, why)?;
    append_bytes(out, b"}\n")
}
