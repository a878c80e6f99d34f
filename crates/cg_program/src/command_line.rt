//! The program's command line, as a `clap` command.
ghost use Rattle.std.specs.Prelude.{◌≡◌, IfOk, false};
ghost use Rattle.clap.specs.Words.{rule_of, app_of};
ghost use Rattle.clap.specs.declared.builder.command.Command.TheViews.{out-Command as fields_of};
ghost use Rattle.cg_program.specs.CommandLine.{cgfile_app, commands_of, count_rule, flag_rule, name_rule, profile_rule, start_app, sub_app, with_commands, with_name, with_options};

use crate::help::{self, Row};
use crate::version::VERSION;
use clap::builder::ValueParser;
use clap::{Arg, ArgAction, Command, value_parser};
use std::alloc::{AllocError, Global};

/// An option whose value is a `u64`.
fn count_option<'a>(alloc: Global, name: &'a str, text: &'a str) -> Arg<'a>
    ensures rule { rule_of result ≡ count_rule name.entry.now }
    ensures local { result.global ≡ false }
{
    Arg::new(alloc, name)
        .long(name)
        .action(ArgAction::Set)
        .value_parser(value_parser!(u64))
        .value_name("N")
        .help(text)
}

/// The option whose value is one of the profiles' names.
fn profile_option<'a>(alloc: Global, profiles: &'a [&'a str]) -> Arg<'a>
    ensures rule { rule_of result ≡ profile_rule profiles.entry }
    ensures local { result.global ≡ false }
{
    Arg::new(alloc, "profile")
        .long("profile")
        .action(ArgAction::Set)
        .value_parser(ValueParser::Names(profiles))
        .value_name("P")
        .help(help::PROFILE)
}

/// An option without a value.
fn flag_option<'a>(alloc: Global, name: &'a str, text: &'a str) -> Arg<'a>
    ensures rule { rule_of result ≡ flag_rule name.entry.now }
    ensures local { result.global ≡ false }
{
    Arg::new(alloc, name)
        .long(name)
        .action(ArgAction::SetTrue)
        .help(text)
}

/// A file's name.
fn name_argument<'a>(alloc: Global) -> Arg<'a>
    ensures rule { rule_of result ≡ name_rule }
    ensures local { result.global ≡ false }
{
    Arg::new(alloc, "NAME")
        .required(true)
        .action(ArgAction::Set)
        .help(help::NAME)
}

/// A command with the options that stand before a command's word and after it.
fn optioned<'a>(
    alloc: Global,
    profiles: &'a [&'a str],
    command: Command<'a>,
) -> Result<Command<'a>, AllocError>
    ensures app { IfOk result (λ c. app_of c ≡ with_options profiles.entry (app_of command.entry)) }
    ensures local { (fields_of command.entry).has_globals ≡ false
        → IfOk result (λ c. (fields_of c).has_globals ≡ false) }
{
    command
        .arg(profile_option(alloc, profiles))?
        .arg(count_option(alloc, "max-record", help::MAX_RECORD))?
        .arg(count_option(alloc, "max-lines", help::MAX_LINES))?
        .arg(count_option(alloc, "max-stream", help::MAX_STREAM))?
        .arg(flag_option(alloc, "explain", help::EXPLAIN))?
        .arg(flag_option(alloc, "keep-going", help::KEEP_GOING))
}

/// A command with NAME and the option that goes with it, where it takes a name.
fn named<'a>(
    alloc: Global,
    takes_name: bool,
    command: Command<'a>,
) -> Result<Command<'a>, AllocError>
    ensures app { IfOk result (λ c. app_of c ≡ with_name takes_name (app_of command.entry)) }
    ensures local { (fields_of command.entry).has_globals ≡ false
        → IfOk result (λ c. (fields_of c).has_globals ≡ false) }
{
    if takes_name {
        command
            .arg(name_argument(alloc))?
            .arg(flag_option(alloc, "known", help::KNOWN))
    } else {
        Ok(command)
    }
}

/// The subcommand of a row.
fn subcommand<'a>(
    alloc: Global,
    profiles: &'a [&'a str],
    row: &'static Row,
) -> Result<Command<'a>, AllocError>
    ensures app { IfOk result (λ c. app_of c ≡ sub_app profiles.entry (row.now.word.now, row.now.takes_name)) }
    ensures local { IfOk result (λ c. (fields_of c).has_globals ≡ false) }
{
    let command = Command::new(alloc, row.word)
        .about(row.about)
        .after_help(row.more);
    optioned(alloc, profiles, named(alloc, row.takes_name, command)?)
}

/// The names of the profiles, which `clap` holds by reference: a struct, so that the invariant of a loop can speak of
/// where they lie.
#[derive(Clone, Copy)]
struct ProfileNames<'a> {
    names: &'a [&'a str],
}

/// A command with a subcommand for each of the rows.
fn commanded<'a>(
    alloc: Global,
    profiles: ProfileNames<'a>,
    rows: &'static [Row],
    command: Command<'a>,
) -> Result<Command<'a>, AllocError>
    ensures app { IfOk result (λ c. app_of c
        ≡ with_commands profiles.entry.names (commands_of rows.now) (app_of command.entry)) }
    ensures local { (fields_of command.entry).has_globals ≡ false
        → IfOk result (λ c. (fields_of c).has_globals ≡ false) }
{
    let mut command = command;
    for row in rows {
        command = command.subcommand(subcommand(alloc, profiles.names, row)?)?;
    }
    Ok(command)
}

/// The command with no option and no subcommand.
fn start<'a>(alloc: Global) -> Result<Command<'a>, AllocError>
    ensures app { IfOk result (λ c. app_of c ≡ start_app) }
    ensures local { IfOk result (λ c. (fields_of c).has_globals ≡ false) }
{
    Command::new(alloc, "cgfile")
        .no_binary_name(true)
        .subcommand_required(true)
        .disable_help_subcommand(true)
        .about(help::ABOUT)
        .after_help(help::MORE)
        .version(VERSION)
        .bin_name("cgfile")
}

/// The program's command, with these names of the profiles.
#[tactic(auto, unfolding(crate::specs::CommandLine::cgfile_app))]
pub(crate) fn command_line<'a>(
    alloc: Global,
    profiles: &'a [&'a str],
) -> Result<Command<'a>, AllocError>
    ensures app { IfOk result (λ c. app_of c ≡ cgfile_app profiles.entry) }
    ensures local { IfOk result (λ c. (fields_of c).has_globals ≡ false) }
{
    let top = optioned(alloc, profiles, start(alloc)?)?;
    commanded(alloc, ProfileNames { names: profiles }, &help::ROWS, top)
}
