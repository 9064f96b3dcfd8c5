//! The words of the command line, as `clap` is told of them.
ghost use Rattle.std.specs.Prelude.{◌≡◌, false, map, IfOk};
ghost use Rattle.clap.specs.Words.{app_of, found_of, rows_of, rule_of, FailsBy};
ghost use Rattle.wasm_check_command.specs.Words.{features_rule, file_rule, flag_rule, list_rule, option_rule, matches_on, refusals_of, wasm_check};
ghost use Rattle.wasm_check_command.specs.Words.{with_forms, with_list, with_needs, with_stops, with_values};

use crate::built::VERSION;
use clap::{Arg, ArgAction, ArgMatches, Command};
use std::alloc::{AllocError, Global};
use std::convert::AsStr;

/// The files.
fn files_argument<'a>(alloc: Global) -> Arg<'a>
    ensures { (rule_of result ≡ file_rule) × (result.global ≡ false) }
{
    Arg::new(alloc, "FILE")
        .help("A file to judge")
        .num_args(1..)
        .action(ArgAction::Append)
}

/// An option of this name, with a value that is called so in the help.
fn option_argument<'a>(alloc: Global, name: &'a str, value: &'a str, help: &'a str) -> Arg<'a>
    ensures { (rule_of result ≡ option_rule name.entry.now) × (result.global ≡ false) }
{
    Arg::new(alloc, name)
        .long(name)
        .help(help)
        .value_name(value)
        .action(ArgAction::Set)
}

/// An option of this name with a list, which may be there several times.
fn list_argument<'a>(alloc: Global, name: &'a str, help: &'a str) -> Arg<'a>
    ensures { (rule_of result ≡ list_rule name.entry.now) × (result.global ≡ false) }
{
    Arg::new(alloc, name)
        .long(name)
        .help(help)
        .value_name("LIST")
        .action(ArgAction::Append)
}

/// The lists of features, as `--features` or `-f`.
fn features_argument<'a>(alloc: Global) -> Arg<'a>
    ensures { (rule_of result ≡ features_rule) × (result.global ≡ false) }
{
    list_argument(
        alloc,
        "features",
        "The features that are allowed: words between commas, from left to right, as mvp,gc or no-simd; --features help lists them",
    )
    .short('f')
}

/// A flag of this name.
fn flag_argument<'a>(alloc: Global, name: &'a str, help: &'a str) -> Arg<'a>
    ensures { (rule_of result ≡ flag_rule name.entry.now) × (result.global ≡ false) }
{
    Arg::new(alloc, name)
        .long(name)
        .help(help)
        .action(ArgAction::SetTrue)
}

/// The command with its options that have a value.
fn with_values<'a>(alloc: Global, command: Command<'a>) -> Result<Command<'a>, AllocError>
    ensures { IfOk result (λ c. app_of c ≡ with_values (app_of command.entry)) }
{
    let features = features_argument(alloc);
    let limits = list_argument(
        alloc,
        "limits",
        "The limits that hold: words name=N between commas, as locals=10,tables=3; --limits help lists them",
    );
    let pieces = option_argument(
        alloc,
        "pieces",
        "N",
        "Judge files as they come, in pieces of at most N bytes, from 1 to 1048576; without it they are read whole",
    );
    let command = command.arg(features)?.arg(limits)?.arg(pieces)?;
    Ok(command)
}

/// The command with the option that names a list of files.
fn with_list<'a>(alloc: Global, command: Command<'a>) -> Result<Command<'a>, AllocError>
    ensures { IfOk result (λ c. app_of c ≡ with_list (app_of command.entry)) }
{
    let list = option_argument(
        alloc,
        "files0-from",
        "FILE",
        "Judge the files that this one names, each name ended by the byte 0, as find -print0 writes them; - is standard input",
    );
    let command = command.arg(list)?;
    Ok(command)
}

/// The command with the flags that say what is judged, and what is written of it.
fn with_forms<'a>(alloc: Global, command: Command<'a>) -> Result<Command<'a>, AllocError>
    ensures { IfOk result (λ c. app_of c ≡ with_forms (app_of command.entry)) }
{
    let vectors = flag_argument(
        alloc,
        "vectors",
        "Judge operators on vectors, which are refused without it",
    );
    let json = flag_argument(
        alloc,
        "json",
        "Write an object of JSON on a line for each file",
    );
    let explain = flag_argument(
        alloc,
        "explain",
        "Say below each refusal where the fault is; with --pieces, only what helps",
    );
    let command = command.arg(vectors)?.arg(json)?.arg(explain)?;
    Ok(command)
}

/// The command with the flag that asks which features a file needs.
fn with_needs<'a>(alloc: Global, command: Command<'a>) -> Result<Command<'a>, AllocError>
    ensures { IfOk result (λ c. app_of c ≡ with_needs (app_of command.entry)) }
{
    let needs = flag_argument(
        alloc,
        "needs",
        "Tell of each valid file a list of features that makes it valid, none of which can be left out; judges a file some 40 times",
    );
    let command = command.arg(needs)?;
    Ok(command)
}

/// The command with the flags that say when to stop.
fn with_stops<'a>(alloc: Global, command: Command<'a>) -> Result<Command<'a>, AllocError>
    ensures { IfOk result (λ c. app_of c ≡ with_stops (app_of command.entry)) }
{
    let quiet = flag_argument(
        alloc,
        "quiet",
        "Write no verdict, and stop at the first file that is invalid: the status tells",
    );
    let going = flag_argument(
        alloc,
        "keep-going",
        "Judge the other files if one cannot be opened or read, is too long, or memory runs out for it",
    );
    let command = command.arg(quiet)?.arg(going)?;
    Ok(command)
}

/// The command, with its arguments.
fn command<'a>(alloc: Global) -> Result<Command<'a>, AllocError>
    ensures { IfOk result (λ c. app_of c ≡ wasm_check) }
{
    let command = Command::new(alloc, "wasm-check").version(VERSION).about(
        "Says of each file whether it is a valid WebAssembly module",
    );
    let command = with_values(alloc, command)?;
    let command = with_list(alloc, command)?;
    let command = with_forms(alloc, command)?;
    let command = with_needs(alloc, command)?;
    let command = with_stops(alloc, command)?.arg(files_argument(alloc))?;
    Ok(command)
}

/// The words, read as a command line.
pub(crate) fn parse<'a, S: AsStr>(
    alloc: Global,
    words: &'a [S],
) -> Result<ArgMatches<'a>, clap::Error>
    ensures ok { IfOk result (λ m. rows_of (found_of m) ≡ matches_on (map S.text words.now)) }
    ensures kinds { FailsBy (refusals_of (map S.text words.now)) result }
{
    command(alloc)?.try_get_matches_from(words)
}
