//! The positions of keys: their binary digits.
ghost use Rattle.std.specs.Prelude.{◌≡◌, ℕ, ◌+◌, ◌<◌, ◌≤◌, ◌^◌, IsTrue, ◌↔◌, length, slice_index, not};
ghost use Rattle.cg_index.specs.Position.{number, side, digit_of, HasNoZero};

/// A binary digit of a byte of a key.
#[derive(Clone, Copy, Debug)]
pub(crate) struct Position {
    /// The place of the byte.
    pub(crate) byte: usize,
    /// Which of its digits, the lowest at 0.
    pub(crate) digit: u8,
}

impl Position {
    /// Whether it comes before the other.
    pub(crate) fn is_before(self, other: Position) -> bool
        requires digit { self.digit < 8 }
        requires other { other.digit < 8 }
        ensures { IsTrue result ↔ number self < number other }
    {
        self.byte < other.byte || self.byte == other.byte && self.digit < other.digit
    }
}

/// The byte of a key at a place. Zeros follow the key.
fn byte_at(key: &[u8], place: usize) -> u8
    ensures { result ≡ slice_index key.now place }
{
    if place < key.len() { key[place] } else { 0 }
}

/// The digit of the key at the position.
pub(crate) fn side(key: &[u8], at: Position) -> bool
    requires { at.digit < 8 }
    ensures { result ≡ side key.now (number at) }
{
    (byte_at(key, at.byte) >> at.digit) & 1 == 1
}

/// The lowest digit in which two bytes differ.
fn first_digit(a: u8, b: u8) -> u8
    requires { a ≡ b → ⊥ }
    ensures digit { result < 8 }
    ensures differs { digit_of b result ≡ not (digit_of a result) }
    ensures below { (k : ℕ) → k < result → digit_of a k ≡ digit_of b k }
{
    (a ^ b).trailing_zeros() as u8
}

/// The first position at which two keys differ.
pub(crate) fn first_difference(a: &[u8], b: &[u8]) -> Position
    requires a { HasNoZero a.now }
    requires b { HasNoZero b.now }
    requires apart { a.now ≡ b.now → ⊥ }
    ensures digit { result.digit < 8 }
    ensures differs { side b.now (number result) ≡ not (side a.now (number result)) }
    ensures below { (p : ℕ) → p < number result → side a.now p ≡ side b.now p }
{
    let mut place = 0;
    while byte_at(a, place) == byte_at(b, place) {
        place += 1;
    }
    Position {
        byte: place,
        digit: first_digit(byte_at(a, place), byte_at(b, place)),
    }
}
