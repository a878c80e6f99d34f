//! Lines of the input, counted.
ghost use Rattle.std.specs.Prelude.{◌≡◌, ◌∷◌, ◌++◌, ℕ, List, [], is_some};
ghost use Rattle.cg_outcome.specs.Lines.{AreBehind, AreCounted};

/// How many lines have ended, and how many bytes came of the next one. A number that is more than `u64::MAX` stays
/// there.
#[derive(Clone, Copy)]
pub struct Lines {
    pub ended: u64,
    pub begun: u64,
}

impl Lines {
    /// No byte came.
    pub fn new() -> Lines
        ensures { AreCounted result [] }
    {
        Lines { ended: 0, begun: 0 }
    }

    /// One more byte came.
    fn behind(self, byte: u8) -> Lines
        ensures { (p : List ℕ) → AreCounted self p → AreCounted result (p ++ byte ∷ []) }
    {
        if byte == b'\n' {
            Lines {
                ended: self.ended.saturating_add(1),
                begun: 0,
            }
        } else {
            Lines {
                ended: self.ended,
                begun: self.begun.saturating_add(1),
            }
        }
    }
}

/// Lines are counted where something is to be explained. No byte came.
pub fn lines_of(explain: bool) -> Option<Lines>
    ensures behind { AreBehind result [] }
    ensures same { is_some result ≡ explain }
{
    if explain { Some(Lines::new()) } else { None }
}

/// The lines behind more bytes, if they are counted.
pub fn lines_behind(lines: Option<Lines>, bytes: &[u8]) -> Option<Lines>
    ensures counted { (p : List ℕ) → AreBehind lines p → AreBehind result (p ++ bytes.now) }
    ensures same { is_some result ≡ is_some lines }
{
    let Some(counted) = lines else {
        return None;
    };
    let mut counted = counted;
    for byte in bytes {
        counted = counted.behind(*byte);
    }
    Some(counted)
}
