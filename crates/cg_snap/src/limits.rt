//! Limits of streams.
ghost use Rattle.std.specs.Prelude.{◌≡◌};
ghost use Rattle.cg_snap.specs.GoingOn.{block_limits, stream_limits};

/// How much of a stream is read at most.
#[derive(Clone, Copy, Debug, PartialEq, Eq)]
pub struct Limits {
    /// The bytes of one record, its newline among them.
    pub max_record: u64,
    /// The records of one entry.
    pub max_lines: u64,
    /// The bytes of the whole stream.
    pub max_stream: u64,
}

impl Limits {
    /// The limits of a command line that names none.
    pub const DEFAULT: Limits = Limits {
        max_record: 1048576,
        max_lines: 1000000,
        max_stream: 1073741824,
    };

    /// Those of a block alone, which is as long as it likes.
    pub(crate) fn of_block(self) -> Limits
        ensures { result ≡ block_limits self }
    {
        Limits {
            max_record: self.max_record,
            max_lines: self.max_lines,
            max_stream: u64::MAX,
        }
    }

    /// That of the whole stream alone.
    pub(crate) fn of_stream(self) -> Limits
        ensures { result ≡ stream_limits self }
    {
        Limits {
            max_record: u64::MAX,
            max_lines: u64::MAX,
            max_stream: self.max_stream,
        }
    }
}
