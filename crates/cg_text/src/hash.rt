//! Hashes of keys.
ghost use Rattle.std.specs.Prelude.{◌≡◌};
ghost use Rattle.cg_text.specs.Hash.{hash_of, hash_after};

/// What a hash becomes with one more byte.
pub(crate) fn hash_after(hash: u32, byte: u8) -> u32
    ensures { result ≡ hash_after hash byte }
{
    hash.wrapping_mul(31).wrapping_add(byte as u32)
}

/// The hash of these bytes: a small number of them, by which nearly all keys are told apart at once. Bytes with other
/// hashes are other bytes; those with the same hash may be.
pub fn hash_of(bytes: &[u8]) -> u32
    ensures { result ≡ hash_of bytes.now }
{
    let mut hash = 0;
    for byte in bytes {
        hash = hash_after(hash, *byte);
    }
    hash
}
