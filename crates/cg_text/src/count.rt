//! Bytes in front of a byte.
ghost use Rattle.std.specs.Prelude.{◌≡◌, ◌<◌, ◌≤◌, length, slice_index, take};
ghost use Rattle.cg_text.specs.Texts.{Lacks};

use memchr::memchr;

/// How many bytes stand before the first `byte`: all where there is none.
#[inline]
pub fn count_before(byte: u8, bytes: &[u8]) -> usize
    ensures within { result ≤ length bytes.now }
    ensures lacks { Lacks byte (take result bytes.now) }
    ensures stops { result < length bytes.now → slice_index bytes.now result ≡ byte }
{
    match memchr(byte, bytes) {
        Some(place) => place,
        None => bytes.len(),
    }
}
