//! What a command line asks for.
ghost use Rattle.std.specs.Prelude.{◌≡◌, ◌<◌, false, IfErr, IfOk, IfSome, is_some};
ghost use Rattle.std.specs.Prelude.{option_and_then, option_map, string_bytes, string_len, true};
ghost use Rattle.std.specs.List.{list_any};
ghost use Rattle.std.specs.Option.{option_map_or};
ghost use Rattle.clap.specs.Words.{FailsBy, HasMatchesOf, kind_of, subcommand_rows_of, takes};
ghost use Rattle.clap.specs.declared.error.kind.ErrorKind.TheVariants.{OutOfMemory};
ghost use Rattle.aig_command.specs.Aiger.{aiger};
ghost use Rattle.aig_command.specs.Answer.{asks_for, asks_for_help, begins_with_help, CanDo};
ghost use Rattle.aig_command.specs.Answer.{is_option, texts, version_text};
ghost use Rattle.aig_command.specs.Answer.{IsAnswer, IsCommand, IsErrorAnswer, IsUsage, no_names};
ghost use Rattle.aig_command.specs.Asked.{asked_by, asks_force, asks_sync, AsksWithinLimits, faults, is_set};
ghost use Rattle.aig_command.specs.Asked.{unless_packed};

use crate::builder::{VERSION, aiger};
use crate::hints::with_hint;
use crate::info::aiginfo;
use crate::miter::aigmiter;
use crate::options::is_set;
use crate::packed::check_sources;
use crate::request::{Command, CommandLine, Names};
use crate::select::aigselect;
use crate::sim::aigsim;
use crate::to_aig::to_aig;
use crate::to_dot::aigtodot;
use crate::unroll::aigunroll;
use crate::usage::Usage;
use clap::error::ErrorKind;
use clap::{ArgMatches, Error};
use std::alloc::{AllocError, Global};

fn parse<'a>(alloc: Global, words: &'a [String]) -> Result<ArgMatches<'a>, Error>
    ensures matches { IfOk result (HasMatchesOf aiger (texts words.now)) }
    ensures passes { IfErr result (λ e. takes aiger (texts words.now) ≡ true
        → kind_of e ≡ OutOfMemory) }
    ensures kinds { FailsBy (faults (texts words.now)) result }
{
    aiger(alloc)?.try_get_matches_from(words)
}

fn read_matches(alloc: Global, matches: &ArgMatches<'_>) -> Result<(Names, Command), Usage>
    requires known { is_some (option_and_then asked_by (subcommand_rows_of matches.now)) ≡ true }
    requires within { IfSome (option_and_then asked_by (subcommand_rows_of matches.now))
        AsksWithinLimits }
    ensures answer { IfSome (option_and_then asked_by (subcommand_rows_of matches.now)) (λ asked.
        IsAnswer asked result) }
    ensures can_do { IfOk result (λ answer. CanDo answer.0 answer.1) }
{
    let Some((name, words)) = matches.subcommand() else {
        unreachable!();
    };
    match name {
        "aigtoaig" => to_aig(alloc, words),
        "aigsim" => aigsim(alloc, words),
        "aigunroll" => aigunroll(alloc, words),
        "aigmiter" => aigmiter(alloc, words),
        "aiginfo" => aiginfo(alloc, words),
        "aigselect" => aigselect(alloc, words),
        "aigtodot" => aigtodot(alloc, words),
        _ => unreachable!(),
    }
}

/// What the options and the files of a command ask for, of which none that is read is packed.
fn read_command(alloc: Global, matches: &ArgMatches<'_>) -> Result<(Names, Command), Usage>
    requires known { is_some (option_and_then asked_by (subcommand_rows_of matches.now)) ≡ true }
    requires within { IfSome (option_and_then asked_by (subcommand_rows_of matches.now))
        AsksWithinLimits }
    ensures answer { IfSome (option_map unless_packed
        (option_and_then asked_by (subcommand_rows_of matches.now))) (λ asked.
        IsAnswer asked result) }
    ensures can_do { IfOk result (λ answer. CanDo answer.0 answer.1) }
{
    let (names, command) = read_matches(alloc, matches)?;
    check_sources(&names)?;
    Ok((names, command))
}

/// Whether this is one of the options of the command.
fn asks_option(matches: &ArgMatches<'_>, name: &str) -> bool
    ensures { result ≡ option_map_or (λ met. is_set name.now met.1)
        (subcommand_rows_of matches.now) false }
{
    match matches.subcommand() {
        Some((_, words)) => is_set(words, name),
        None => false,
    }
}

/// Whether the argument is the option's long name, or begins with its short one.
fn is_option(word: &str, long: &str, short: &str) -> bool
    ensures { result ≡ is_option long.now short.now word.now }
{
    word == long || word.starts_with(short)
}

fn any_option(words: &[String], long: &str, short: &str) -> bool
    ensures { result ≡ list_any
        (λ word. is_option long.now short.now (string_bytes word)) words.now }
{
    for word in words {
        if is_option(word.as_str(), long, short) {
            return true;
        }
    }
    false
}

fn asks_for(words: &[String], long: &str, short: &str) -> bool
    ensures { result ≡ asks_for long.now short.now (texts words.now) }
{
    match words {
        [_, rest @ ..] => any_option(rest, long, short),
        [] => false,
    }
}

/// Whether the first argument after the program's name asks for help, of a command that may follow.
fn begins_with_help(words: &[String]) -> bool
    ensures { result ≡ begins_with_help (texts words.now) }
{
    match words {
        [_, word, ..] => word.as_str() == "help",
        _ => false,
    }
}

fn asks_for_help(words: &[String]) -> bool
    ensures { result ≡ asks_for_help (texts words.now) }
{
    asks_for(words, "--help", "-h") || begins_with_help(words)
}

/// The text that `clap` has for the user, with a hint where there is one. That `clap` has a text is
/// not in its contracts, so an empty one has other words.
fn clap_text(alloc: Global, words: &[String], error: &Error) -> Result<String, AllocError>
    ensures { IfOk result (λ text. 0 < string_len text) }
{
    let text = format!(in alloc; "{error}")?;
    let text = with_hint(alloc, words, text.as_str())?;
    if text.is_empty() {
        return String::from_str(alloc, "error: no such command\n");
    }
    Ok(text)
}

/// The program and its version, also after a command.
fn version_text(alloc: Global) -> Result<String, AllocError>
    ensures some { IfOk result (λ text. 0 < string_len text) }
    ensures is { IfOk result (λ text. string_bytes text ≡ version_text) }
{
    format!(in alloc; "aiger {VERSION}\n")
}

/// The answer to arguments that `clap` does not take.
fn error_answer(alloc: Global, words: &[String], error: &Error) -> Result<Command, Usage>
    ensures answer { IsErrorAnswer (kind_of error.now) (texts words.now) result }
    ensures can_do { IfOk result (CanDo no_names) }
{
    match error.kind() {
        ErrorKind::OutOfMemory => Err(Usage::OutOfMemory),
        // No contract of `clap` says that only such an argument makes it answer with help.
        ErrorKind::DisplayHelp if asks_for_help(words) => {
            Ok(Command::Help(clap_text(alloc, words, error)?))
        }
        ErrorKind::DisplayVersion if asks_for(words, "--version", "-V") => {
            Ok(Command::Version(version_text(alloc)?))
        }
        _ => Err(Usage::Words(clap_text(alloc, words, error)?)),
    }
}

/// What a command line asks for, given as its arguments, the program's name first. It is refused
/// where it has not the form of a command, and where what it asks for cannot be done. No file is
/// looked at.
pub fn command(alloc: Global, words: &[String]) -> Result<CommandLine, Usage>
    ensures ok { IfOk result (λ line. IsCommand (texts words.now) line.names line.command) }
    ensures can_do { IfOk result (λ line. CanDo line.names line.command) }
    ensures sync { IfOk result (λ line. line.sync ≡ asks_sync (texts words.now)) }
    ensures force { IfOk result (λ line. line.force ≡ asks_force (texts words.now)) }
    ensures err { IfErr result (IsUsage (texts words.now)) }
{
    match parse(alloc, words) {
        Ok(matches) => {
            let (names, command) = read_command(alloc, &matches)?;
            Ok(CommandLine {
                command,
                names,
                sync: asks_option(&matches, "sync"),
                force: asks_option(&matches, "force"),
            })
        }
        Err(error) => Ok(CommandLine {
            command: error_answer(alloc, words, &error)?,
            names: Names {
                model: None,
                file: None,
                refutation: None,
                destination: None,
            },
            sync: false,
            force: false,
        }),
    }
}
