//! What a command line asks for beside its command.

/// What a command line asks for beside its command.
#[derive(Clone, Copy, Debug, PartialEq, Eq)]
pub struct Options {
    /// That the byte at which the input stops is explained.
    pub explain: bool,
    /// That what is at fault is left out of a snapshot, and the rest is gone on with.
    pub keep_going: bool,
}

impl Options {
    /// None is used.
    pub const NONE: Options = Options {
        explain: false,
        keep_going: false,
    };
}
