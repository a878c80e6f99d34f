//! The laws of first entries. Each function takes and answers nothing: its contract is the law.
ghost use Rattle.cg_first.specs.Again.{NoneLeft, ToldAreAll, ToldAreFirst};

/// The first entry of what is left of a stream, taken again and again, gives what decoding the whole stream gives.
/// Where nothing is left, the stream is the snapshot of the entries that were told. The entries of a snapshot begin
/// with those that were told, and go on with those of what is left. Where what is left is no snapshot, the stream is
/// none.
pub fn again()
    ensures all { ToldAreAll }
    ensures first { ToldAreFirst }
    ensures none { NoneLeft }
{}
