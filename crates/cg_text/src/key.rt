//! Keys: the words of a line.
ghost use Rattle.std.specs.Prelude.{◌≡◌, IsTrue, ◌↔◌, ◌<◌, ◌≤◌, IfOk, length, slice_index, take};
ghost use Rattle.cg_text.specs.Word.{IsWord, IsWordByte, AreWordBytes};
ghost use Rattle.cg_text.specs.Key.{IsKeyMade};
ghost use Rattle.cg_text.specs.KeyState.{stored, IsStored};
ghost use Rattle.cg_text.specs.Hash.{hash_of};

use crate::hash::{hash_after, hash_of};
use crate::memory::OutOfMemory;
use std::alloc::Global;
use std::marker::Model;
use thiserror::Error;

/// Where the bytes of a key lie, and their hash.
#[derive(Drop, Debug)]
enum Store {
    /// In the key itself, so many of these.
    Short { len: u8, hash: u32, bytes: [u8; 24] },
    Long { hash: u32, bytes: Vec<u8> },
}

/// How many bytes a key has at most that take no memory of their own.
const SHORT: usize = 24;

/// One or more bytes 33 to 126 without `=`.
#[derive(Drop, Debug)]
pub struct Key {
    store: Store,
}

impl Model for Key {
    ghost use Rattle.std.specs.Prelude.{List, ℕ};
    ghost use Rattle.cg_text.specs.Word.{IsWord};

    ghost Value = { List ℕ };

    ghost use Rattle.cg_text.specs.KeyState.{stored, IsStored};

    ghost view = { λ k. stored k.store };

    ghost invariant = { λ k. IsWord (stored k.store) × IsStored k.store };
}

/// Why bytes make no key.
#[derive(Clone, Copy, Debug, PartialEq, Eq, Error)]
pub enum KeyFault {
    /// They are no word.
    #[error("not a word")]
    BadKey,
    #[error("out of memory")]
    OutOfMemory,
}

/// Whether words have this byte.
pub(crate) fn is_word_byte(byte: u8) -> bool
    ensures { IsTrue result ↔ IsWordByte byte }
{
    33 <= byte && byte <= 126 && byte != b'='
}

/// How many bytes in front are those of words, and their hash.
#[inline(always)]
pub(crate) fn word_front(bytes: &[u8]) -> (usize, u32)
    ensures within { result.0 ≤ length bytes.now }
    ensures words { AreWordBytes (take result.0 bytes.now) }
    ensures stops { result.0 < length bytes.now → IsWordByte (slice_index bytes.now result.0) → ⊥ }
    ensures hash { result.1 ≡ hash_of (take result.0 bytes.now) }
{
    let mut hash = 0;
    for (i, byte) in bytes.iter().enumerate() {
        if !is_word_byte(*byte) {
            return (i, hash);
        }
        hash = hash_after(hash, *byte);
    }
    (bytes.len(), hash)
}

/// Whether the bytes are a word.
fn is_word(bytes: &[u8]) -> bool
    ensures { IsTrue result ↔ IsWord bytes.now }
{
    for byte in bytes {
        if !is_word_byte(*byte) {
            return false;
        }
    }
    !bytes.is_empty()
}

/// Bytes of which the first `len` are those of `bytes`. The others count for nothing.
#[inline(always)]
fn short_bytes(bytes: &[u8], len: usize) -> [u8; SHORT]
    requires within { len ≤ length bytes.now }
    requires short { len ≤ 24 }
    ensures { take len result ≡ take len bytes.now }
{
    let mut short = [0; SHORT];
    // Where enough bytes follow, a fixed number is copied: it takes no call.
    if len <= 8 && bytes.len() >= 8 {
        short[..8].copy_from_slice(&bytes[..8]);
    } else if len <= 16 && bytes.len() >= 16 {
        short[..16].copy_from_slice(&bytes[..16]);
    } else {
        short[..len].copy_from_slice(&bytes[..len]);
    }
    short
}

/// The first `len` of the bytes with their hash, in a vector only where they are too many for the key itself.
#[inline(always)]
fn stored(alloc: Global, bytes: &[u8], len: usize, hash: u32) -> Result<Store, OutOfMemory>
    requires within { len ≤ length bytes.now }
    requires hash { hash ≡ hash_of (take len bytes.now) }
    ensures { IfOk result (λ store. (stored store ≡ take len bytes.now) × IsStored store) }
{
    if len > SHORT {
        return Ok(Store::Long {
            hash,
            bytes: Vec::from_slice(alloc, &bytes[..len])?,
        });
    }
    Ok(Store::Short {
        hash,
        len: len as u8,
        bytes: short_bytes(bytes, len),
    })
}

impl Key {
    /// The key of these bytes, where they are a word.
    pub fn new(alloc: Global, bytes: &[u8]) -> Result<Key, KeyFault>
        ensures { IsKeyMade bytes.now result }
    {
        if !is_word(bytes) {
            return Err(KeyFault::BadKey);
        }
        match stored(alloc, bytes, bytes.len(), hash_of(bytes)) {
            Ok(store) => Ok(Key { store }),
            Err(_) => Err(KeyFault::OutOfMemory),
        }
    }

    /// The key of these bytes, which are a word.
    pub(crate) fn of(bytes: Vec<u8>) -> Key
        requires { IsWord bytes.items }
        ensures { result ≡ bytes.items }
    {
        Key {
            store: Store::Long {
                hash: hash_of(bytes.as_slice()),
                bytes,
            },
        }
    }

    /// The key of the first `len` of the bytes, which are a word and have this hash.
    #[inline(always)]
    pub(crate) fn of_word(
        alloc: Global,
        bytes: &[u8],
        len: usize,
        hash: u32,
    ) -> Result<Key, OutOfMemory>
        requires within { len ≤ length bytes.now }
        requires word { IsWord (take len bytes.now) }
        requires hash { hash ≡ hash_of (take len bytes.now) }
        ensures { IfOk result (λ key. key ≡ take len bytes.now) }
    {
        Ok(Key {
            store: stored(alloc, bytes, len, hash)?,
        })
    }

    /// The bytes of the key, which are a word.
    pub fn bytes(&self) -> &[u8]
        ensures bytes { result.now ≡ self.now }
        ensures word { IsWord self.now }
    {
        match &self.store {
            Store::Short { len, bytes, .. } => &bytes[..*len as usize],
            Store::Long { bytes, .. } => bytes.as_slice(),
        }
    }

    /// The hash of its bytes, which it carries.
    pub fn hash(&self) -> u32
        ensures { result ≡ hash_of self.now }
    {
        match &self.store {
            Store::Short { hash, .. } => *hash,
            Store::Long { hash, .. } => *hash,
        }
    }
}

impl PartialEq for Key {
    ghost use Rattle.std.specs.Prelude.{nat_eq};
    ghost use Rattle.std.specs.Cmp.Lexicographic.{pointwise};
    ghost use Rattle.std.proofs.Common.{◌∙◌};
    ghost use Rattle.std.proofs.lemmas.Cmp.{nat_list_eq_equiv};

    ghost eq = { pointwise nat_eq };

    ghost laws = { record { symm = nat_list_eq_equiv.symm; trans = λ x y z e f. nat_list_eq_equiv.congr x y z e ∙ f } };

    fn eq(&self, other: &Key) -> bool {
        self.bytes() == other.bytes()
    }
}
