//! What every token keeps.
ghost use Rattle.std.specs.Prelude.{◌≡◌, ℕ, ◌+◌, ◌≤◌, ◌↔◌, Bool, List, [], IsTrue, IsFalse, IfSome, OnErr, length, take};
ghost use Rattle.cg_text.specs.Pushed.{IfStarved, IsWithin, Stops, run_of, used_of};
ghost use Rattle.cg_text.specs.Scan.{FollowsRun};
ghost use Rattle.cg_text.specs.Token.{Follows, Begins, NoneBegins, Ends, Same, Completes, HasOneValue, HoldsBytes, IfTaken, IfRefused, IsFront, UnlessTaken, saturated};

use crate::memory::OutOfMemory;
use crate::pushed::Pushed;

/// A token: it takes the text of one value, in pieces of any size, and gives what the text spells.
pub trait Token: Drop + Sized {
    type Out: Drop;

    /// The rests that complete a state, each with its value.
    ghost means: { Self → List ℕ → Self.Out → Type 0 };

    /// The sum of the lengths of the vectors in a state.
    ghost size: { Self → ℕ };

    /// The sum of the lengths of the vectors in a value.
    ghost value_size: { Self.Out → ℕ };

    /// Whether nothing need follow a state.
    ghost ends: { Self → Bool };

    /// False of a type whose states have no vector.
    ghost grows: { Bool };

    /// Every state can be completed.
    ghost completes: { (s : Self) → Completes means s };

    /// A type whose states have no vector has none to count.
    ghost no_size: { IsFalse grows → (s : Self) → size s ≡ 0 };

    /// Nothing need follow exactly where the empty rest has a value.
    ghost ends_is: { (s : Self) → IsTrue (ends s) ↔ Ends means s };

    /// A rest has one value.
    ghost one_value: { (s : Self) → HasOneValue means s };

    /// A rest holds bytes.
    ghost holds_bytes: { (s : Self) → HoldsBytes means s };

    /// Takes bytes from the front as long as some text goes on with them, and says why it took no more. Memory is
    /// wanted last: only for a byte with which some rest begins.
    fn push(&mut self, bytes: &[u8]) -> Pushed
        ensures within { IsWithin result bytes.now }
        ensures follows { FollowsRun means self.old (run_of result bytes.now) self.new }
        ensures stops { Stops (means self.new) bytes.now result }
        ensures memory { IfStarved result (IsTrue grows) }
        ensures size { size self.new ≤ size self.old + used_of result bytes.now }
        ensures same_size { used_of result bytes.now ≡ 0 → size self.new ≡ size self.old };

    /// Takes the byte, or refuses it. A token that refuses, or is refused memory, is unchanged. Memory is wanted last:
    /// only for a byte with which some rest begins.
    fn step(&mut self, byte: u8) -> Result<bool, OutOfMemory>
        ensures taken { IfTaken result (Follows means self.old byte self.new) }
        ensures refused { IfRefused result (NoneBegins means self.old byte) }
        ensures same { UnlessTaken result (Same means self.old self.new) }
        ensures same_size { UnlessTaken result (size self.new ≡ size self.old) }
        ensures size { size self.new ≤ size self.old + 1 }
        ensures memory { OnErr result (IsTrue grows) }
        ensures last { OnErr result (Begins means self.old byte) }
    {
        match self.push(&[byte]) {
            Pushed::All => Ok(true),
            Pushed::Refused(_) => Ok(false),
            Pushed::Starved(_) => Err(OutOfMemory),
        }
    }

    /// The value of a rest with which `bytes` begins, and the rest's length. It may find none where there is one, and a
    /// longer one may be there too.
    fn whole(&self, _bytes: &[u8]) -> Option<(Self::Out, usize)>
        ensures front { IfSome result (IsFront means self.now _bytes.now) }
        ensures size { IfSome result (λ r. value_size r.0 ≤ size self.now + r.1) }
    {
        None
    }

    /// Whether some rest begins with the byte.
    fn allows(&self, byte: u8) -> bool
        ensures { IsTrue result ↔ Begins means self.now byte };

    /// Whether nothing need follow.
    fn can_end(&self) -> bool
        ensures { result ≡ ends self.now };

    /// The sum of the lengths of its vectors. The bytes of a short key, which lie in the key itself, count as a
    /// vector's do.
    fn held(&self) -> u64
        ensures { result ≡ saturated (size self.now) };

    /// The value of what was taken.
    fn take(self) -> Self::Out
        requires { IsTrue (ends self) }
        ensures value { means self [] result }
        ensures value_size { value_size result ≤ size self };

    /// The sum of the lengths of the vectors in a value.
    fn held_in(value: &Self::Out) -> u64
        ensures { result ≡ saturated (value_size value.now) };
}

/// Takes bytes from the front as `push` does, and answers only how many.
#[inline(always)]
pub fn push_count<T: Token>(token: &mut T, bytes: &[u8]) -> usize
    ensures within { result ≤ length bytes.now }
    ensures follows { FollowsRun T.means token.old (take result bytes.now) token.new }
    ensures size { T.size token.new ≤ T.size token.old + result }
    ensures same_size { result ≡ 0 → T.size token.new ≡ T.size token.old }
{
    token.push(bytes).used(bytes)
}
