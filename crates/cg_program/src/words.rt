//! What the words of a command line ask for.
ghost use Rattle.std.specs.Prelude.{◌≡◌, ◌<◌, ◌⊎◌, length, IfOk, IfErr, IfSome, Some, codes, false, is_some, string_bytes, true, map, []};
ghost use Rattle.clap.specs.Words.{one_of, rows_of, found_of, first_of, takes, fault_of, kind_of, matches_of, subcommand_of, subcommand_rows_of};
ghost use Rattle.cg_program.specs.CommandLine.{cgfile_app};
ghost use Rattle.cg_program.specs.Words.{Answers, AnswersPlain, IsCommand, IsMade, IsRefusal, IsTold, IsToldOf, IsUnchosen, goes_on, is_fit, is_met, is_plain_word, is_used, is_welcome, is_word, limits_of, name_in, number_or, number_of, options_of, profile_named, uses_any};

use crate::command_line::command_line;
use crate::help;
use cg_run::{Command, Options};
use cg_snap::Limits;
use cg_value::{Profile, has_row};
use clap::ArgMatches;
use clap::error::ErrorKind;
use std::alloc::{AllocError, Global};
use thiserror::Error;

/// What the words of a command line ask for.
#[derive(Debug, Drop)]
pub struct Request {
    pub profile: Profile,
    pub command: Command,
    pub limits: Limits,
    pub options: Options,
}

/// Why the words of a command line give no command.
#[derive(Debug, Drop, Error)]
pub enum UsageFault {
    /// They ask for help, or for the version: the text, which isn't empty.
    #[error("{0}")]
    Help(String),
    /// They are no command line of this program.
    #[error("bad command line")]
    Bad,
    #[error("out of memory")]
    OutOfMemory,
}

impl From<AllocError> for UsageFault {
    ghost use Rattle.std.specs.Prelude.{◌≡◌};
    ghost use Rattle.cg_program.specs.declared.words.UsageFault.TheVariants.{OutOfMemory};

    ghost from_gives = { λ _ e. e ≡ OutOfMemory };

    fn from(_e: AllocError) -> UsageFault {
        UsageFault::OutOfMemory
    }
}

/// The bytes of NAME, which `clap` requires.
fn name_given<'a>(matches: &ArgMatches<'a>) -> &'a [u8]
    ensures { result.now ≡ name_in (rows_of (found_of matches.now)) }
{
    match matches.get_str("NAME") {
        Some(name) => name.as_bytes(),
        None => &[],
    }
}

/// Whether an option without a value is used.
fn is_used(matches: &ArgMatches, id: &str) -> bool
    ensures { result ≡ is_used id.now (rows_of (found_of matches.now)) }
{
    match matches.get_one::<bool>(id) {
        Some(used) => used,
        None => false,
    }
}

/// The bytes of NAME, if it may stand there: with `--known` only a name of the profile's file table may.
fn welcome_name(
    alloc: Global,
    profile: Profile,
    matches: &ArgMatches,
) -> Result<Vec<u8>, UsageFault>
    ensures name { IfOk result (λ v. (v.items ≡ name_in (rows_of (found_of matches.now)))
        × (is_welcome profile (rows_of (found_of matches.now)) ≡ true)) }
    ensures fault { IfErr result (IsUnchosen profile (rows_of (found_of matches.now))) }
{
    let name = name_given(matches);
    if is_used(matches, "known") && !has_row(profile, name) {
        return Err(UsageFault::Bad);
    }
    Ok(Vec::from_slice(alloc, name)?)
}

/// The command of a subcommand and its matches.
fn chosen(
    alloc: Global,
    profile: Profile,
    name: &str,
    inner: &ArgMatches,
) -> Result<Command, UsageFault>
    ensures made { IfOk result (IsCommand profile name.now (rows_of (found_of inner.now))) }
    ensures known { is_word name.now ≡ true → IfErr result (IsUnchosen profile (rows_of (found_of inner.now))) }
{
    if name == "file" {
        return Ok(Command::File {
            name: welcome_name(alloc, profile, inner)?,
        });
    }
    if name == "setting" {
        return Ok(Command::Setting {
            name: welcome_name(alloc, profile, inner)?,
        });
    }
    plain_command(name).ok_or(UsageFault::Bad)
}

/// The command of a subcommand that names no file.
fn plain_command(name: &str) -> Option<Command>
    ensures made { IfSome result (IsCommand Profile.One name.now []) }
    ensures known { is_plain_word name.now ≡ is_some result }
{
    if name == "show" {
        Some(Command::Show)
    } else if name == "json" {
        Some(Command::Json)
    } else if name == "check" {
        Some(Command::Check)
    } else if name == "plan" {
        Some(Command::Plan)
    } else if name == "kinds" {
        Some(Command::Kinds)
    } else {
        None
    }
}

/// The number of an option, and `given` where it isn't used.
fn number_at(matches: &ArgMatches, id: &str, given: u64) -> u64
    ensures { result ≡ number_or given (one_of id.now (rows_of (found_of matches.now))) }
{
    match matches.get_one::<u64>(id) {
        Some(number) => number,
        None => given,
    }
}

/// The number of an option that stands after the command's word, or before it; else `given`.
fn number_among(before: &ArgMatches, after: &ArgMatches, id: &str, given: u64) -> u64
    ensures { result ≡ number_of given id.now
        (rows_of (found_of before.now)) (rows_of (found_of after.now)) }
{
    number_at(after, id, number_at(before, id, given))
}

/// The limits of the options before the command's word and after it.
fn limits_among(before: &ArgMatches, after: &ArgMatches) -> Limits
    ensures { result ≡ limits_of (rows_of (found_of before.now)) (rows_of (found_of after.now)) }
{
    let default = Limits::DEFAULT;
    Limits {
        max_record: number_among(before, after, "max-record", default.max_record),
        max_lines: number_among(before, after, "max-lines", default.max_lines),
        max_stream: number_among(before, after, "max-stream", default.max_stream),
    }
}

/// The profile of the option `--profile`, and `given` where it isn't used.
fn profile_at(matches: &ArgMatches, given: Profile) -> Profile
    ensures { result ≡ profile_named given (first_of (codes "profile") (rows_of (found_of matches.now))) }
{
    match matches.get_str("profile") {
        Some(name) => {
            if name == "2" {
                Profile::Two
            } else if name == "kernel" {
                Profile::Kernel
            } else {
                Profile::One
            }
        }
        None => given,
    }
}

/// The options before the command's word and after it.
fn options_among(before: &ArgMatches, after: &ArgMatches) -> Options
    ensures { result ≡ options_of (rows_of (found_of before.now)) (rows_of (found_of after.now)) }
{
    Options {
        explain: is_used(before, "explain") || is_used(after, "explain"),
        keep_going: is_used(before, "keep-going") || is_used(after, "keep-going"),
    }
}

/// Whether what is at fault may be left out of what the command of this word reads: of a snapshot.
fn goes_on(name: &str) -> bool
    ensures { result ≡ goes_on name.now }
{
    name == "show" || name == "json" || name == "check"
}

/// Whether the options go with the command of this word.
fn is_fit(name: &str, options: Options) -> bool
    ensures { result ≡ is_fit name.now options }
{
    !options.keep_going || goes_on(name)
}

/// The text that `clap` has for the user. `clap` doesn't promise that it isn't empty: where it is, what the program is
/// stands for it.
fn text_for_user(alloc: Global, error: &clap::Error) -> Result<String, AllocError>
    ensures { IfOk result (λ text. 0 < length (string_bytes text)) }
{
    let text = error.to_string(alloc)?;
    if text.is_empty() {
        return String::from_str(alloc, help::ABOUT);
    }
    Ok(text)
}

/// What `clap` refused, as a fault of usage.
fn refused(alloc: Global, error: clap::Error) -> UsageFault
    ensures memory { kind_of error ≡ ErrorKind.OutOfMemory → result ≡ UsageFault.OutOfMemory }
    ensures told { IsToldOf (kind_of error) result }
{
    match error.kind() {
        ErrorKind::OutOfMemory => UsageFault::OutOfMemory,
        ErrorKind::DisplayHelp | ErrorKind::DisplayVersion => match text_for_user(alloc, &error) {
            Ok(text) => UsageFault::Help(text),
            Err(_) => UsageFault::OutOfMemory,
        },
        _ => UsageFault::Bad,
    }
}

/// What the matches of a command line ask for.
fn made(alloc: Global, matches: &ArgMatches) -> Result<Request, UsageFault>
    ensures made { IfOk result
        (IsMade (rows_of (found_of matches.now)) (subcommand_rows_of matches.now)) }
    ensures known { is_met (subcommand_rows_of matches.now) ≡ true
        → IfErr result (IsRefusal (rows_of (found_of matches.now)) (subcommand_rows_of matches.now)) }
{
    let Some((name, inner)) = matches.subcommand() else {
        return Err(UsageFault::Bad);
    };
    let options = options_among(matches, inner);
    if !is_fit(name, options) {
        return Err(UsageFault::Bad);
    }
    let profile = profile_at(inner, profile_at(matches, Profile::One));
    Ok(Request {
        profile,
        command: chosen(alloc, profile, name, inner)?,
        limits: limits_among(matches, inner),
        options,
    })
}

/// What the words ask for, with these names of the profiles.
fn parse_named<'a>(
    alloc: Global,
    profiles: &'a [&'a str],
    words: &'a [String],
) -> Result<Request, UsageFault>
    ensures made { IfOk result
        (IsMade (matches_of (cgfile_app profiles.entry) (map (λ w. string_bytes w) words.entry.now))
        (subcommand_of (cgfile_app profiles.entry) (map (λ w. string_bytes w) words.entry.now))) }
    ensures right { IfOk result (λ _.
        fault_of (cgfile_app profiles.entry) (map (λ w. string_bytes w) words.entry.now) ≡ []) }
    ensures told { IfErr result
        (IsTold (fault_of (cgfile_app profiles.entry) (map (λ w. string_bytes w) words.entry.now))
        (matches_of (cgfile_app profiles.entry) (map (λ w. string_bytes w) words.entry.now))
        (subcommand_of (cgfile_app profiles.entry) (map (λ w. string_bytes w) words.entry.now))) }
    ensures taken { takes (cgfile_app profiles.entry) (map (λ w. string_bytes w) words.entry.now) ≡ true
        → IfErr result (IsRefusal
        (matches_of (cgfile_app profiles.entry) (map (λ w. string_bytes w) words.entry.now))
        (subcommand_of (cgfile_app profiles.entry) (map (λ w. string_bytes w) words.entry.now))) }
{
    let command = command_line(alloc, profiles)?;
    match command.try_get_matches_from(words) {
        Ok(matches) => made(alloc, &matches),
        Err(error) => Err(refused(alloc, error)),
    }
}

/// Reads the words that follow the program's name.
///
/// `Help` has the text that is to be printed, where they ask for help or for the version; `Bad` is
/// answered where they are no command line of this program, or `--known` goes with a name that the
/// profile's file table doesn't have, or `--keep-going` with `--explain` or with a command that reads no snapshot.
pub fn parse_request(alloc: Global, words: &[String]) -> Result<Request, UsageFault>
    ensures { Answers (map (λ w. string_bytes w) words.now) result }
{
    let profiles: [&str; 3] = ["1", "2", "kernel"];
    parse_named(alloc, profiles.as_slice(), words)
}

/// Whether one of these is used.
fn uses_any(options: Options) -> bool
    ensures { result ≡ uses_any options }
{
    options.explain || options.keep_going
}

/// Reads the words that follow the program's name, where they use no option that this answer has no place for: such
/// words are a bad command line here.
pub fn parse_words(
    alloc: Global,
    words: &[String],
) -> Result<(Profile, Command, Limits), UsageFault>
    ensures { AnswersPlain (map (λ w. string_bytes w) words.now) result }
{
    let request = parse_request(alloc, words)?;
    if uses_any(request.options) {
        return Err(UsageFault::Bad);
    }
    Ok((request.profile, request.command, request.limits))
}
