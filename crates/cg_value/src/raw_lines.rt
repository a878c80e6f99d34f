//! Lines of bytes that lie in one text.
ghost use Rattle.std.specs.Prelude.{◌≡◌, ◌↔◌, ◌<◌, ◌^◌, [], ◌∷◌, ◌++◌, IsTrue, IsFalse, IfErr, IfOk, MatchOption, length};
ghost use Rattle.std.specs.List.{AllByRecursion, AllZip};
ghost use Rattle.cg_text.specs.Texts.{Lacks};
ghost use Rattle.cg_value.specs.Lines.{unlines};
ghost use Rattle.cg_value.specs.RawLines.{AreWholeLines, HasNoNul, is_ended, lines_of};
ghost use Rattle.cg_value.specs.ReadLine.{IsRaw};
ghost use Rattle.cg_value.specs.SpelledLaws.{HasLines};

use cg_text::OutOfMemory;
use memchr::memchr;
use std::alloc::Global;
use std::marker::Model;

/// Whether a text is lines, each with its newline: its last byte is one, if there is one.
pub fn are_whole_lines(text: &[u8]) -> bool
    ensures test { result ≡ is_ended text.now }
    ensures whole { IsTrue result ↔ AreWholeLines text.now }
{
    match text.last() {
        Some(byte) => *byte == b'\n',
        None => true,
    }
}

/// Whether a text has a NUL.
fn has_nul(text: &[u8]) -> bool
    ensures { IsFalse result ↔ HasNoNul text.now }
{
    match memchr(0, text) {
        Some(_) => true,
        None => false,
    }
}

/// What stands before the first newline of a text, and what stands behind it.
fn first_line(text: &[u8]) -> Option<(&[u8], &[u8])>
    ensures { MatchOption result (Lacks 10 text.now) (λ cut. (text.now ≡ cut.0.now ++ 10 ∷ cut.1.now) ×
        Lacks 10 cut.0.now) }
{
    match memchr(b'\n', text) {
        Some(place) => {
            let (line, back) = text.split_at(place);
            Some((line, &back[1..]))
        }
        None => None,
    }
}

/// Lines of bytes, in order. They lie in one text, each with its newline, so that many short lines take no more memory
/// than their bytes. Contracts see the list of the lines.
#[derive(Debug, Drop)]
pub struct RawLines {
    text: Vec<u8>,
}

impl Model for RawLines {
    ghost use Rattle.std.specs.Prelude.{ℕ, List};
    ghost use Rattle.cg_value.specs.RawLines.{AreWholeLines, lines_of};

    ghost Value = { List (List ℕ) };

    ghost view = { λ s. lines_of s.text.items };

    ghost invariant = { λ s. AreWholeLines s.text.items };
}

impl RawLines {
    /// No lines. It takes no memory.
    pub fn new(alloc: Global) -> RawLines
        ensures { result ≡ [] }
    {
        RawLines {
            text: Vec::new(alloc),
        }
    }

    /// The lines of a text, where each has its newline; else the text is handed back.
    pub fn of(text: Vec<u8>) -> Result<RawLines, Vec<u8>>
        ensures ok { IfOk result (λ lines. (lines ≡ lines_of text.items) × AreWholeLines text.items) }
        ensures err { IfErr result (λ back. (back.items ≡ text.items) × (AreWholeLines text.items → ⊥)) }
    {
        if are_whole_lines(text.as_slice()) {
            Ok(RawLines { text })
        } else {
            Err(text)
        }
    }

    /// The text: the lines, each with its newline.
    pub fn text(&self) -> &[u8]
        ensures text { result.now ≡ unlines self.now }
        ensures plain { AllByRecursion (Lacks 10) self.now }
    {
        self.text.as_slice()
    }

    /// The lines in order, each without its newline.
    pub fn lines(&self) -> LinesIn<'_>
        ensures lines { result ≡ self.now }
        ensures few { length result < 2 ^ 64 }
    {
        // There are no more lines than bytes.
        let _bytes = self.text.len();
        LinesIn {
            rest: self.text.as_slice(),
        }
    }

    /// How many lines there are. It goes over their bytes.
    pub fn len(&self) -> usize
        ensures { result ≡ length self.now }
    {
        self.lines().count()
    }

    /// Whether no line has a NUL, so that a file can have them.
    pub fn can_stand(&self) -> bool
        ensures { IsTrue result ↔ HasLines (AllZip IsRaw self.now) }
    {
        !has_nul(self.text())
    }

    /// A copy. It shares nothing with the lines.
    pub fn copy(&self, alloc: Global) -> Result<RawLines, OutOfMemory>
        ensures { IfOk result (λ copy. copy ≡ self.now) }
    {
        Ok(RawLines {
            text: Vec::from_slice(alloc, self.text.as_slice())?,
        })
    }
}

impl PartialEq for RawLines {
    ghost use Rattle.std.specs.Prelude.{nat_eq};
    ghost use Rattle.std.specs.Cmp.{partial_equiv_from_equiv};
    ghost use Rattle.std.specs.Ordering.{on};
    ghost use Rattle.std.specs.Cmp.Lexicographic.{on_texts_equal, pointwise};

    ghost eq = { on unlines (pointwise nat_eq) };

    ghost laws = { partial_equiv_from_equiv (on_texts_equal unlines) };

    fn eq(&self, other: &RawLines) -> bool {
        self.text == other.text
    }
}

/// The lines of `RawLines` that are left. Contracts see their list.
#[derive(Drop)]
pub struct LinesIn<'a> {
    rest: &'a [u8],
}

impl<'a> Model for LinesIn<'a> {
    ghost use Rattle.std.specs.Prelude.{ℕ, List};
    ghost use Rattle.cg_value.specs.RawLines.{AreWholeLines, lines_of};

    ghost Value = { List (List ℕ) };

    ghost view = { λ it. lines_of it.rest.now };

    ghost invariant = { λ it. AreWholeLines it.rest.now };
}

impl<'a> Iterator for LinesIn<'a> {
    ghost use Rattle.std.specs.Iterator.{YieldsFirstRef, item_count};

    type Item = &'a [u8];

    ghost next_gives = { YieldsFirstRef (λ lines. lines) };

    ghost remaining = { item_count (λ lines. lines) };

    fn next(&mut self) -> Option<&'a [u8]> {
        match first_line(self.rest) {
            Some((line, behind)) => {
                self.rest = behind;
                Some(line)
            }
            None => None,
        }
    }
}
