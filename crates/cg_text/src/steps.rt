//! Bytes that are taken one at a time, or several at once.
ghost use Rattle.std.specs.Prelude.{◌≡◌, ℕ, ◌+◌, ◌≤◌, Bool, List, IsTrue, OnErr, length, take};
ghost use Rattle.cg_text.specs.Pushed.{IfStarved, IsWithin, Stops, run_of, used_of};
ghost use Rattle.cg_text.specs.Scan.{FollowsRun};
ghost use Rattle.cg_text.specs.Token.{Begins, Follows, IfRefused, IfTaken, NoneBegins, Same, UnlessTaken};

use crate::memory::OutOfMemory;
use crate::pushed::Pushed;

/// What takes bytes one at a time, or several at once. It stands beside `Token`, not above it, as the `push` of a token
/// calls `push_bytes`.
pub trait Steps {
    type Value;

    /// What a token means, as a token.
    ghost rests: { Self → List ℕ → Self.Value → Type 0 };

    /// The sum of the lengths of the vectors in it.
    ghost room: { Self → ℕ };

    /// False of a type whose states have no vector.
    ghost grows: { Bool };

    /// Takes the byte, or refuses it. What refuses, or is refused memory, is unchanged. Memory is wanted last: only for
    /// a byte with which some rest begins.
    fn take_byte(&mut self, byte: u8) -> Result<bool, OutOfMemory>
        ensures taken { IfTaken result (Follows rests self.old byte self.new) }
        ensures refused { IfRefused result (NoneBegins rests self.old byte) }
        ensures same { UnlessTaken result (Same rests self.old self.new) }
        ensures same_size { UnlessTaken result (room self.new ≡ room self.old) }
        ensures size { room self.new ≤ room self.old + 1 }
        ensures memory { OnErr result (IsTrue grows) }
        ensures last { OnErr result (Begins rests self.old byte) };

    /// Takes bytes from the front at once, as `take_byte` would take them one after another, and answers how many. It
    /// may leave some that `take_byte` would take.
    #[inline(always)]
    fn take_run(&mut self, _bytes: &[u8]) -> usize
        ensures within { result ≤ length _bytes.now }
        ensures follows { FollowsRun rests self.old (take result _bytes.now) self.new }
        ensures size { room self.new ≤ room self.old + result }
        ensures same_size { result ≡ 0 → room self.new ≡ room self.old }
    {
        0
    }
}

/// Takes bytes from the front as long as some text goes on with them, and says why it took no more.
pub fn push_bytes<T: Steps>(token: &mut T, bytes: &[u8]) -> Pushed
    ensures within { IsWithin result bytes.now }
    ensures follows { FollowsRun T.rests token.old (run_of result bytes.now) token.new }
    ensures stops { Stops (T.rests token.new) bytes.now result }
    ensures memory { IfStarved result (IsTrue T.grows) }
    ensures size { T.room token.new ≤ T.room token.old + used_of result bytes.now }
    ensures same_size { used_of result bytes.now ≡ 0 → T.room token.new ≡ T.room token.old }
{
    let mut used = 0;
    while used < bytes.len() {
        let (_, rest) = bytes.split_at(used);
        let count = token.take_run(rest);
        if count > 0 {
            used += count;
            continue;
        }
        match token.take_byte(bytes[used]) {
            Ok(true) => used += 1,
            Ok(false) => return Pushed::Refused(used),
            Err(_) => return Pushed::Starved(used),
        }
    }
    Pushed::All
}
