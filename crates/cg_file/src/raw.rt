//! A file of raw lines: any file outside the table.
ghost use Rattle.std.specs.Prelude.{◌≡◌, ◌<◌, ◌+◌, ◌++◌, length, take, OnErr, OnOk};
ghost use Rattle.cg_text.specs.Token.{Spells};
ghost use Rattle.cg_value.specs.Files.{KindText};
ghost use Rattle.cg_value.specs.declared.kind.ReadForm.TheVariants.{Raw as RawForm};

use cg_text::{OutOfMemory, Pushed, Steps, Token, count_before, push_bytes};
use cg_value::{RawLines, Value, are_whole_lines};
use std::alloc::Global;

/// For how many bytes there is room where a file begins.
const ROOM: usize = 1024;

/// Adds bytes to the text. Where it begins there is room for more at once, if memory is left for it.
fn append(text: &mut Vec<u8>, bytes: &[u8]) -> Result<(), OutOfMemory>
    ensures added { OnOk result (text.new.items ≡ text.old.items ++ bytes.now) }
    ensures kept { OnErr result (text.new.items ≡ text.old.items) }
{
    if text.is_empty() {
        let _ = text.try_reserve(ROOM);
    }
    text.extend_from_slice(bytes)?;
    Ok(())
}

/// The text of a file of any number of raw lines. All its bytes lie in one vector, which is the value's.
#[derive(Drop)]
pub struct RawFile {
    text: Vec<u8>,
}

impl RawFile {
    /// The text of a file of any number of raw lines.
    pub fn new(alloc: Global) -> RawFile
        ensures spells { Spells ⟦<RawFile as Token>⟧.means result (λ text v. KindText RawForm v text) }
        ensures size { ⟦<RawFile as Token>⟧.size result ≡ 0 }
    {
        RawFile {
            text: Vec::new(alloc),
        }
    }
}

impl Token for RawFile {
    type Out = Value;

    ghost use Rattle.std.specs.Prelude.{true, length};
    ghost use Rattle.cg_text.specs.WordLaws.{true_not_false};
    ghost use Rattle.cg_value.specs.RawLines.{is_ended};
    ghost use Rattle.cg_file.specs.RawFile.{IsRawFileRest};
    ghost use Rattle.cg_file.specs.RawFileLaws.{raw_file_completes, raw_file_one, raw_file_ends, raw_file_bytes};

    ghost means = { λ s rest v. IsRawFileRest s.text.items rest v };

    ghost size = { λ s. length s.text.items };

    ghost value_size = { λ _. 0 };

    ghost ends = { λ s. is_ended s.text.items };

    ghost grows = { true };

    ghost completes = { λ s. raw_file_completes s.text.items };

    ghost no_size = { λ e _. absurd (true_not_false e) };

    ghost ends_is = { λ s. raw_file_ends s.text.items };

    ghost one_value = { λ s. raw_file_one s.text.items };

    ghost holds_bytes = { λ s. raw_file_bytes s.text.items };

    fn push(&mut self, bytes: &[u8]) -> Pushed {
        push_bytes(self, bytes)
    }

    fn allows(&self, byte: u8) -> bool {
        byte != 0
    }

    fn can_end(&self) -> bool {
        are_whole_lines(self.text.as_slice())
    }

    fn held(&self) -> u64 {
        self.text.len() as u64
    }

    fn take(self) -> Value {
        match RawLines::of(self.text) {
            Ok(lines) => Value::Raw(lines),
            Err(_) => unreachable!(),
        }
    }

    fn held_in(_value: &Value) -> u64 {
        0
    }
}

impl Steps for RawFile {
    type Value = Value;

    ghost rests = { ⟦<RawFile as Token>⟧.means };

    ghost room = { ⟦<RawFile as Token>⟧.size };

    ghost grows = { ⟦<RawFile as Token>⟧.grows };

    fn take_byte(&mut self, byte: u8) -> Result<bool, OutOfMemory> {
        if byte == 0 {
            return Ok(false);
        }
        self.text.push(byte)?;
        Ok(true)
    }

    fn take_run(&mut self, bytes: &[u8]) -> usize {
        let count = count_before(0, bytes);
        let (run, _) = bytes.split_at(count);
        match append(&mut self.text, run) {
            Ok(()) => count,
            Err(_) => 0,
        }
    }
}
