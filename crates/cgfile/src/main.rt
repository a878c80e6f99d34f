//! A reader and writer of cgroup interface files. All that it does is `run_words` of `cg_program`: this hands over the
//! words, standard input and standard output.
#![tactic(auto)]

#[cfg(test)]
mod tests;

use cg_print::PlainWriter;
use cg_program::{run_words, words_after_name};
use cg_run::PlainReader;
use std::io;
use std::process::ExitCode;

/// The process's arguments, the program's name first.
fn arguments_of(rt: &HostRuntime) -> io::Result<Vec<String>> {
    Ok(std::env::args(rt)?.collect(rt.alloc())?)
}

fn main(rt: HostRuntime) -> ExitCode {
    let arguments = arguments_of(&rt);
    let words = match &arguments {
        Ok(arguments) => Ok(words_after_name(arguments.as_slice())),
        Err(error) => Err(error.kind()),
    };
    let mut reader = PlainReader::new(rt.stdin());
    let mut writer = PlainWriter::new(rt.stdout());
    ExitCode::from(run_words(rt.alloc(), words, &mut reader, &mut writer))
}
