//! What a decoder holds, beside what its bytes allow it to hold.
use crate::tests::snapshots::decoder;
use std::alloc::{AllocError, Global};
use std::test::Fail;

/// How much may be held of a flat keyed file, or of a file that has no whole line: the record that is begun, and where
/// lines are whole the path, and for each line a place and its key's length plus 2. It goes over the bytes of the text
/// alone.
#[derive(Clone, Copy)]
struct Bound {
    begun: u64,
    path: u64,
    key: u64,
    is_key: bool,
    whole: u64,
}

impl Bound {
    fn new() -> Bound {
        Bound {
            begun: 0,
            path: 0,
            key: 0,
            is_key: false,
            whole: 0,
        }
    }

    /// Takes a byte of the text.
    fn take(&mut self, byte: u8) {
        match byte {
            b'\0' => {
                self.path = self.begun;
                self.key = 0;
                self.is_key = true;
            }
            b' ' => self.is_key = false,
            b'\n' => {
                if self.whole == 0 {
                    self.whole = self.path;
                }
                self.whole = self.whole.saturating_add(3).saturating_add(self.key);
                self.is_key = false;
                self.begun = 0;
                return;
            }
            _ => {
                if self.is_key {
                    self.key = self.key.saturating_add(1);
                }
            }
        }
        self.begun = self.begun.saturating_add(1);
    }

    fn most(&self) -> u64 {
        self.whole.saturating_add(self.begun)
    }
}

/// Whether after every byte no more is held than may be.
fn holds_no_more(alloc: Global, text: &[u8]) -> bool {
    let mut snapshot = decoder(alloc);
    let mut bound = Bound::new();
    for byte in text {
        bound.take(*byte);
        let pulled = snapshot.next(&[*byte]);
        if pulled.used != 1 || snapshot.held() > bound.most() {
            return false;
        }
    }
    true
}

/// Adds the word of two letters with this number.
fn add_word(text: &mut Vec<u8>, number: u8) -> Result<(), AllocError> {
    text.push(b'a' + number / 26 % 26)?;
    text.push(b'a' + number % 26)?;
    Ok(())
}

/// So many different words, a space after each, and one byte more.
fn many_words(alloc: Global, count: u8) -> Result<Vec<u8>, AllocError> {
    let mut text = Vec::from_slice(alloc, b"cgroup.controllers\0")?;
    for number in 0..count {
        add_word(&mut text, number)?;
        text.push(b' ')?;
    }
    text.push(b'x')?;
    Ok(text)
}

/// So many lines of different keys.
fn many_keys(alloc: Global, count: u8) -> Result<Vec<u8>, AllocError> {
    let mut text = Vec::new(alloc);
    for number in 0..count {
        text.extend_from_slice(b"memory.stat\0")?;
        add_word(&mut text, number)?;
        text.extend_from_slice(b" 1\n")?;
    }
    Ok(text)
}

#[test]
fn words_and_keys_without_a_table(rt: HostRuntime) -> Result<(), Fail> {
    for count in [1, 64, 65, 128, 129, 200] {
        let words = many_words(rt.alloc(), count)?;
        assert!(rt; holds_no_more(rt.alloc(), words.as_slice()), "{count}");
        let keys = many_keys(rt.alloc(), count)?;
        assert!(rt; holds_no_more(rt.alloc(), keys.as_slice()), "{count}");
    }
    Ok(())
}

#[test]
fn an_entry_that_is_given_is_not_held(rt: HostRuntime) -> Result<(), Fail> {
    let mut snapshot = decoder(rt.alloc());
    let pulled = snapshot.next(b"cpu.max\0max 100000\ncpu.max.burst\0");
    assert_eq!(rt; pulled.used, 33);
    assert!(rt; snapshot.held() <= 14);
    Ok(())
}

#[test]
fn one_key_is_held(rt: HostRuntime) -> Result<(), Fail> {
    let mut snapshot = decoder(rt.alloc());
    let pulled = snapshot.next(b"memory.stat\0anon 1\n");
    assert_eq!(rt; pulled.used, 19);
    assert!(rt; snapshot.held() <= 18);
    Ok(())
}
