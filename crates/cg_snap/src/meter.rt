//! How much of a stream was consumed, and the limits of that.
ghost use Rattle.std.specs.Prelude.{◌≡◌, ◌+◌, ◌-◌, ◌<◌, ◌≤◌, ◌++◌, ℕ, List, [], length, MatchBool};
ghost use Rattle.cg_snap.specs.Course.{AreOfRecord};
ghost use Rattle.cg_snap.specs.Meter.{IsCounted, LimitIs};

use crate::limits::Limits;
use crate::path::ends_line;
use crate::stop::Stop;

/// Counts the bytes that were consumed, and those of the record that is begun.
#[derive(Drop)]
pub struct Meter {
    pub(crate) limits: Limits,
    pub(crate) offset: u64,
    pub(crate) record_len: u64,
}

impl Meter {
    /// A meter that counted nothing.
    pub(crate) fn new(limits: Limits) -> Meter
        ensures counted { IsCounted result [] }
        ensures limits { result.limits ≡ limits }
    {
        Meter {
            limits,
            offset: 0,
            record_len: 0,
        }
    }

    /// Whether a byte more passes no limit of the record.
    pub(crate) fn has_room(&self) -> bool
        ensures { MatchBool result (self.now.record_len < self.now.limits.max_record)
            (self.now.limits.max_record ≤ self.now.record_len) }
    {
        self.record_len < self.limits.max_record
    }

    /// Counts from the beginning of the record that is begun.
    pub(crate) fn begin_at_record(&mut self)
        ensures offset { self.new.offset ≡ self.old.record_len }
        ensures record { self.new.record_len ≡ self.old.record_len }
        ensures limits { self.new.limits ≡ self.old.limits }
    {
        self.offset = self.record_len;
    }

    /// The first limit that a byte passes, where it makes the records of one path too many if they are full.
    pub(crate) fn limit(&self, is_full: bool) -> Option<Stop>
        ensures { LimitIs self.now is_full result }
    {
        let at = self.offset;
        if self.record_len >= self.limits.max_record {
            return Some(Stop::TooLong { at });
        }
        if is_full {
            return Some(Stop::TooMany { at });
        }
        if at >= self.limits.max_stream {
            return Some(Stop::TooMuch { at });
        }
        None
    }

    /// How many of so many bytes, of which none but the last is a newline, pass no limit of the record or of the whole
    /// stream.
    pub(crate) fn room(&self, bytes: usize) -> usize
        ensures bytes { result ≤ bytes }
        ensures stream { result ≤ self.now.limits.max_stream - self.now.offset }
        ensures record { result ≤ self.now.limits.max_record - self.now.record_len }
        ensures place { self.now.offset + result ≤ 18446744073709551615 }
        ensures some { 0 < bytes → self.now.offset < self.now.limits.max_stream →
            self.now.record_len < self.now.limits.max_record → 0 < result }
    {
        let far = self.limits.max_stream.saturating_sub(self.offset);
        let long = self.limits.max_record.saturating_sub(self.record_len);
        (bytes as u64).min(far).min(long) as usize
    }

    /// Counts bytes, of which none but the last is a newline.
    pub(crate) fn count(&mut self, bytes: &[u8])
        requires stream { length bytes.now ≤ self.old.limits.max_stream - self.old.offset }
        requires record { length bytes.now ≤ self.old.limits.max_record - self.old.record_len }
        ensures counted { (p : List ℕ) → IsCounted self.old p → AreOfRecord bytes.now →
            IsCounted self.new (p ++ bytes.now) }
        ensures limits { self.new.limits ≡ self.old.limits }
    {
        let count = bytes.len() as u64;
        self.offset += count;
        self.record_len = if ends_line(bytes, bytes.len()) {
            0
        } else {
            self.record_len + count
        };
    }

    /// Counts bytes, behind which so much is begun of a record.
    pub(crate) fn count_to(&mut self, bytes: usize, record_len: u64)
        requires { self.old.offset + bytes ≤ 18446744073709551615 }
        ensures offset { self.new.offset ≡ self.old.offset + bytes }
        ensures record { self.new.record_len ≡ record_len }
        ensures limits { self.new.limits ≡ self.old.limits }
    {
        self.offset += bytes as u64;
        self.record_len = record_len;
    }
}
