//! Sets of numbers.
ghost use Rattle.std.specs.Prelude.{◌≡◌, ℕ, ◌+◌, ◌≤◌, ◌<◌, ◌↔◌, ◌⊎◌, List, [], length, IsTrue, IfOk, OnOk, OnErr, vec_len};
ghost use Rattle.std.specs.List.Sorted.{IsNonDecreasingBy, IsPartitionPoint};
ghost use Rattle.cg_text.specs.Numbers.{IsSet, AreRanges, Has, size_of, IsCount};
ghost use Rattle.cg_text.specs.NumbersLaws.{inserted};

use crate::memory::OutOfMemory;
use std::alloc::Global;
use std::marker::Model;

/// A set of numbers.
#[derive(Drop, Debug)]
pub struct NumberSet {
    pub(crate) ranges: Vec<(u32, u32)>,
}

impl Model for NumberSet {
    ghost use Rattle.std.specs.Prelude.{List, ℕ};
    ghost use Rattle.cg_text.specs.Numbers.{IsSet};

    ghost Value = { List (ℕ × ℕ) };

    ghost view = { λ s. s.ranges.items };

    ghost invariant = { λ s. IsSet s.ranges.items };
}

/// Whether a number lies between these two.
fn is_apart(end: u32, begin: u32) -> bool
    ensures { IsTrue result ↔ end + 1 < begin }
{
    u64::from(end) + 1 < u64::from(begin)
}

/// How many ranges lie apart below `first`. It is a step where all do.
fn count_below(ranges: &[(u32, u32)], first: u32) -> usize
    requires { IsSet ranges.now }
    ensures within { result ≤ length ranges.now }
    ensures parted { IsPartitionPoint (λ r. r.1 + 1 < first) (λ r. first ≤ r.1 + 1) ranges.now result }
{
    match ranges.last() {
        Some(range) if !is_apart(range.1, first) => {
            ranges.partition_point(|range| is_apart(range.1, first))
        }
        _ => ranges.len(),
    }
}

/// How many ranges don't lie apart above `last`. It is a step where none does.
fn count_up_to(ranges: &[(u32, u32)], last: u32) -> usize
    requires { IsSet ranges.now }
    ensures within { result ≤ length ranges.now }
    ensures parted { IsPartitionPoint (λ r. r.0 ≤ last + 1) (λ r. last + 1 < r.0) ranges.now result }
{
    match ranges.last() {
        Some(range) if is_apart(last, range.0) => {
            ranges.partition_point(|range| !is_apart(last, range.0))
        }
        _ => ranges.len(),
    }
}

/// Adds a range, in the place of those that it overlaps or touches. It takes memory only where one range more is left.
fn insert_into(ranges: &mut Vec<(u32, u32)>, first: u32, last: u32) -> Result<(), OutOfMemory>
    requires order { first ≤ last }
    requires set { IsSet ranges.old.items }
    ensures items { OnOk result (ranges.new.items ≡ inserted first last ranges.old.items) }
    ensures same { OnErr result (ranges.new.items ≡ ranges.old.items) }
{
    let start = count_below(ranges.as_slice(), first);
    let end = count_up_to(ranges.as_slice(), last);
    if start == end {
        ranges.insert(start, (first, last))?;
        return Ok(());
    }
    let low = first.min(ranges[start].0);
    let high = last.max(ranges[end - 1].1);
    ranges[start] = (low, high);
    ranges.drain(start + 1..end);
    Ok(())
}

/// Joins ranges that overlap or touch, where they are in the order of their first numbers. It takes no memory.
fn join_ordered(ranges: &mut Vec<(u32, u32)>)
    requires ranges { AreRanges ranges.old.items }
    requires ordered { IsNonDecreasingBy (λ r. r.0) ranges.old.items }
    ensures set { IsSet ranges.new.items }
    ensures members { (n : ℕ) → Has ranges.new.items n ↔ Has ranges.old.items n }
    ensures len { vec_len ranges.new ≤ vec_len ranges.old }
{
    if ranges.is_empty() {
        return;
    }
    let (mut low, mut high) = ranges[0];
    let mut done = 0;
    for at in 1..ranges.len() {
        let (begin, end) = ranges[at];
        if is_apart(high, begin) {
            ranges[done] = (low, high);
            done += 1;
            low = begin;
            high = end;
        } else {
            high = high.max(end);
        }
    }
    ranges[done] = (low, high);
    ranges.truncate(done + 1);
}

/// Makes a set of ranges in any order, in their place: it sorts them, and joins those that overlap or touch.
pub(crate) fn join(ranges: &mut Vec<(u32, u32)>)
    requires { AreRanges ranges.old.items }
    ensures set { IsSet ranges.new.items }
    ensures members { (n : ℕ) → Has ranges.new.items n ↔ Has ranges.old.items n }
    ensures len { vec_len ranges.new ≤ vec_len ranges.old }
{
    ranges.sort_unstable_by_key(|range| range.0);
    join_ordered(ranges);
}

impl NumberSet {
    /// The empty set.
    pub fn new(alloc: Global) -> NumberSet
        ensures empty { result ≡ [] }
    {
        NumberSet {
            ranges: Vec::new(alloc),
        }
    }

    /// Adds the numbers from `first` to `last`.
    pub fn insert_range(&mut self, first: u32, last: u32) -> Result<(), OutOfMemory>
        requires order { first ≤ last }
        ensures added { IfOk result (λ _. (n : ℕ) → Has self.new n ↔ (Has self.old n ⊎ ((first ≤ n) × (n ≤ last)))) }
        ensures unchanged { OnErr result (self.new ≡ self.old) }
    {
        insert_into(&mut self.ranges, first, last)
    }

    /// Whether the number is in the set.
    pub fn contains(&self, number: u32) -> bool
        ensures has { IsTrue result ↔ Has self.now number }
    {
        for range in &self.ranges {
            if range.0 <= number && number <= range.1 {
                return true;
            }
        }
        false
    }

    /// Its maximal ranges, in order.
    pub fn ranges(&self) -> &[(u32, u32)]
        ensures ranges { result.now ≡ self.now }
        ensures set { IsSet self.now }
    {
        self.ranges.as_slice()
    }

    /// How many numbers it has.
    pub fn len(&self) -> u64
        ensures size { result ≡ size_of self.now }
        ensures count { (bound : ℕ) → ((n : ℕ) → Has self.now n → n < bound) → IsCount (Has self.now) bound result }
    {
        let mut total: u64 = 0;
        for range in &self.ranges {
            total += u64::from(range.1 - range.0) + 1;
        }
        total
    }

    /// A copy.
    pub fn copy(&self, alloc: Global) -> Result<NumberSet, OutOfMemory>
        ensures { IfOk result (λ copy. copy ≡ self.now) }
    {
        Ok(NumberSet {
            ranges: Vec::from_slice(alloc, self.ranges.as_slice())?,
        })
    }

    /// A law of sets, for proofs: those with the same numbers have the same ranges.
    pub fn same_ranges()
        ensures { (xs ys : List (ℕ × ℕ)) → IsSet xs → IsSet ys → ((n : ℕ) → Has xs n ↔ Has ys n) → xs ≡ ys }
    {}
}

impl PartialEq for NumberSet {
    ghost use Rattle.cg_text.specs.Numbers.{are_same};
    ghost use Rattle.cg_text.specs.NumbersLaws.{same_back, same_through};

    ghost eq = { are_same };

    ghost laws = { record { symm = same_back; trans = same_through } };

    fn eq(&self, other: &NumberSet) -> bool {
        self.ranges == other.ranges
    }
}
