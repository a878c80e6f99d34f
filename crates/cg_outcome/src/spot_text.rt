//! The line of a spot, appended to a text.
ghost use Rattle.std.specs.Prelude.{◌≡◌, ◌++◌, OnOk};
ghost use Rattle.cg_outcome.specs.Spot.{spot_words};

use crate::explain::tell_spot;
use crate::spot::Spot;
use cg_print::{Failed, Sink};
use cg_text::OutOfMemory;
use std::mem;

/// A sink that keeps what it takes, and fails where no memory is left.
#[derive(Drop)]
struct KeptText {
    text: Vec<u8>,
    failed: bool,
}

impl Sink for KeptText {
    ghost use Rattle.std.specs.Prelude.{Some};

    ghost taken = { λ s. Some s.text.items };

    ghost has_failed = { λ s. s.failed };

    fn put(&mut self, bytes: &[u8]) -> Result<usize, Failed> {
        if bytes.is_empty() {
            return Ok(0);
        }
        match self.text.extend_from_slice(bytes) {
            Ok(()) => Ok(bytes.len()),
            Err(_) => {
                self.failed = true;
                Err(Failed)
            }
        }
    }
}

/// Appends the line of a spot. After `OutOfMemory` nothing is said of the text.
pub fn append_spot(text: &mut Vec<u8>, spot: &Spot<'_>) -> Result<(), OutOfMemory>
    ensures { OnOk result (text.new.items ≡ text.old.items ++ spot_words spot.now) }
{
    let empty = Vec::new(*text.allocator());
    let mut sink = KeptText {
        text: mem::replace(text, empty),
        failed: false,
    };
    let mut written = 0;
    match tell_spot(&mut sink, spot, &mut written) {
        Ok(()) => {
            *text = sink.text;
            Ok(())
        }
        Err(_) => Err(OutOfMemory),
    }
}
