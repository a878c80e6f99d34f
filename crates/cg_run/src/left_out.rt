//! What is told of a block that is left out.
ghost use Rattle.std.specs.Prelude.{◌≡◌, ◌++◌, OnOk};
ghost use Rattle.cg_run.specs.GoneOn.{cause_words, json_left_out, left_out_line, path_words};

use cg_outcome::{numbered, words_of};
use cg_snap::{Cause, LeftOut};
use cg_text::{Items, OutOfMemory};

/// What is wrong with a block that is left out.
fn words_of_cause(cause: Cause) -> &'static str
    ensures { result.now ≡ cause_words cause }
{
    match cause {
        Cause::Refused(why) => words_of(why),
        Cause::TooLong => "record too long",
        Cause::TooMany => "too many lines",
    }
}

/// Appends a path, if there is one.
fn append_path(text: &mut Vec<u8>, path: &Option<Items<u8>>) -> Result<(), OutOfMemory>
    ensures { OnOk result (text.new.items ≡ text.old.items ++ path_words path.now) }
{
    if let Some(path) = path {
        text.extend_from_slice(b": ")?;
        text.extend_from_slice(path.as_slice())?;
    }
    Ok(())
}

/// Appends the line of a block that is left out.
pub(crate) fn append_left_out(text: &mut Vec<u8>, left_out: &LeftOut) -> Result<(), OutOfMemory>
    ensures { OnOk result (text.new.items ≡ text.old.items ++ left_out_line left_out.now) }
{
    let head = numbered(b"cgfile: left out at ", left_out.at as u128, b": ");
    text.extend_from_slice(head.bytes())?;
    text.extend_from_slice(words_of_cause(left_out.cause).as_bytes())?;
    append_path(text, &left_out.path)?;
    text.push(b'\n')?;
    Ok(())
}

/// Appends its line of JSON.
pub(crate) fn append_json_left_out(
    text: &mut Vec<u8>,
    left_out: &LeftOut,
) -> Result<(), OutOfMemory>
    ensures { OnOk result (text.new.items ≡ text.old.items ++ json_left_out left_out.now) }
{
    let why = words_of_cause(left_out.cause);
    cg_json::append_left_out(text, left_out.at, &left_out.path, why)
}
