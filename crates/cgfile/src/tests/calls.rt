//! The source over a reader and the sink over a writer, and the texts of faults.
use cg_line::{FileFault, PushFault, SettingFault};
use cg_print::{EntryWriteFault, Failed, PlainWriter, Sink, WriteStopped, write_text};
use cg_program::UsageFault;
use cg_run::{PlainReader, Source};
use cg_text::{KeyFault, OutOfMemory};
use cg_value::{EntryFault, ItemFault, NotReadable, NotWritable};
use std::alloc::{AllocError, Global};
use std::fmt::Display;
use std::test::Fail;

/// What the source gives through this buffer, in at most 16 pulls, and whether it ended.
fn drained<R: Source>(
    alloc: Global,
    source: &mut R,
    buffer: &mut [u8],
) -> Result<(Vec<u8>, bool), AllocError> {
    let mut taken = Vec::new(alloc);
    for _ in 0..16 {
        match source.pull(buffer) {
            Ok(0) => return Ok((taken, true)),
            Ok(count) => taken.extend_from_slice(&buffer[..count])?,
            Err(Failed) => return Ok((taken, false)),
        }
    }
    Ok((taken, false))
}

#[test]
fn plain_readers(rt: HostRuntime) -> Result<(), Fail> {
    let text: &[u8] = b"abcde";
    let mut source = PlainReader::new(text);
    let mut buffer = [0u8; 2];
    let (taken, ended) = drained(rt.alloc(), &mut source, &mut buffer)?;
    assert!(rt; taken.as_slice() == b"abcde".as_slice() && ended);
    Ok(())
}

#[test]
fn plain_writers(rt: HostRuntime) {
    let mut room = [0u8; 4];
    let mut writer = PlainWriter::new(&mut room[..]);
    assert_eq!(rt; writer.put(b""), Ok(0));
    assert_eq!(rt; write_text(&mut writer, b"ab"), Ok(()));
    assert_eq!(rt;
        write_text(&mut writer, b"cde"),
        Err(WriteStopped { written: 2 })
    );
    assert!(rt; &room == b"abcd");
}

/// Whether a fault is told so.
fn is_told<F: Display + Drop>(alloc: Global, fault: F, wanted: &str) -> bool {
    match format!(in alloc; "{fault}") {
        Ok(text) => text.as_str() == wanted,
        Err(_) => false,
    }
}

#[test]
fn faults_are_told(rt: HostRuntime) {
    let alloc = rt.alloc();
    assert!(rt; is_told(alloc, OutOfMemory, "out of memory"));
    assert!(rt; is_told(alloc, KeyFault::BadKey, "not a word"));
    assert!(rt; is_told(alloc, NotReadable, "not readable"));
    assert!(rt; is_told(alloc, NotWritable, "not writable"));
    assert!(rt; is_told(alloc, EntryFault::NoLines, "no lines"));
    assert!(rt; is_told(alloc, ItemFault::WrongKind, "wrong kind"));
    assert!(rt; is_told(alloc, PushFault::Refused, "the byte was refused"));
    assert!(rt; is_told(alloc, FileFault::Refused { at: 5 }, "refused at 5"));
    assert!(rt; is_told(alloc, SettingFault::Cut { at: 6 }, "cut at 6"));
    assert!(rt; is_told(alloc, WriteStopped { written: 7 }, "stopped after 7 bytes"));
    assert!(rt;
        is_told(
            alloc,
            EntryWriteFault::Device { written: 5 },
            "stopped after 5 bytes"
        )
    );
    assert!(rt; is_told(alloc, EntryWriteFault::OutOfMemory, "out of memory"));
    assert!(rt; is_told(alloc, Failed, "failed"));
    assert!(rt; is_told(alloc, UsageFault::Bad, "bad command line"));
}
