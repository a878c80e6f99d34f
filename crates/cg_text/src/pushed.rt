//! What comes of bytes that are pushed into a token.
ghost use Rattle.std.specs.Prelude.{◌≡◌};
ghost use Rattle.cg_text.specs.Pushed.{HasRoom, after_run, took_some, used_of};

/// What came of bytes that were pushed into a token.
#[derive(Clone, Copy, Debug, PartialEq, Eq, Drop)]
pub enum Pushed {
    /// All were taken.
    All,
    /// So many were taken, and no text goes on with the next.
    Refused(usize),
    /// So many were taken, and memory for the next is wanting.
    Starved(usize),
}

impl Pushed {
    /// Whether some bytes were taken, of one or more.
    #[inline(always)]
    pub fn took_some(self) -> bool
        ensures { result ≡ took_some self }
    {
        match self {
            Pushed::All => true,
            Pushed::Refused(count) => count > 0,
            Pushed::Starved(count) => count > 0,
        }
    }

    /// How many of the bytes that were pushed were taken.
    #[inline(always)]
    pub fn used(self, bytes: &[u8]) -> usize
        ensures { result ≡ used_of self bytes.now }
    {
        match self {
            Pushed::All => bytes.len(),
            Pushed::Refused(count) => count,
            Pushed::Starved(count) => count,
        }
    }

    /// What came of these bytes and of so many before them.
    #[inline(always)]
    pub fn after(self, used: usize) -> Pushed
        requires { HasRoom used self }
        ensures { result ≡ after_run used self }
    {
        match self {
            Pushed::All => Pushed::All,
            Pushed::Refused(count) => Pushed::Refused(used + count),
            Pushed::Starved(count) => Pushed::Starved(used + count),
        }
    }
}
