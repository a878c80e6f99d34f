//! The laws of readers. Each function takes and answers nothing: its contract is the law.
ghost use Rattle.cg_line.specs.Laws.{FileHeld, FileLinesHeld, FileTaken, WriteHeld, WriteTaken};

/// With the bytes that a reader of a file took some file of its kind begins, and with those that a reader of a write
/// took some write of its kind.
pub fn taken_is_viable()
    ensures file { FileTaken }
    ensures write { WriteTaken }
{}

/// A reader of a file holds no more than its bytes, and no more than the line that is begun and what its whole lines
/// may hold; a reader of a write holds no more than its bytes.
pub fn held_is_bounded()
    ensures file { FileHeld }
    ensures lines { FileLinesHeld }
    ensures write { WriteHeld }
{}
