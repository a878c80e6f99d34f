//! What the words of a command line ask for.
use cg_program::{Request, UsageFault, parse_request};
use std::alloc::Global;

/// A run of the program, but for its input.
pub(crate) type Asked = Request;

/// What the words ask for.
pub(crate) fn asked_by(alloc: Global, words: &[String]) -> Result<Asked, UsageFault> {
    parse_request(alloc, words)
}
