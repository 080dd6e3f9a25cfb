//! Parses the words of a command line into a request.
ghost use Rattle.std.specs.Prelude.{◌≡◌, ◌||◌, codes, map, MatchResult, string_bytes, true, false, []};
ghost use Rattle.clap.specs.Words.{found_of, rows_of, subcommand_rows_of};
ghost use Rattle.yf_command_line.specs.Requests.{AsksFor, AsksTwice, IsCommand, IsFmt, IsFmtTask, IsNoFmt, IsNoFmtTask};
ghost use Rattle.yf_command_line.specs.Requests.{IsRequest, IsSettings, MakesNoCommand, MakesNoRequest};
ghost use Rattle.yf_command_line.specs.Requests.{RefusedBy, RefusesWords, is_flag, lines_given, writes};

use crate::check::check_met;
use crate::command::{Command, Fmt, Output, Request, Settings};
use crate::explained::explained;
use crate::fmt_formats::{fmt_output_met, with_output};
use crate::inputs::{files_of, first_input, has_standard_input, inputs_of};
use crate::options::{
    ANY_TEXT, CHECK, CONFIG, DIFF, EVENTS, EXPLAIN, FILE, FMT, LINES, NAMES, NO_CONFIG, SERVER,
    SHOW_SETTINGS, STDIN_NAME, WRITE, yamlfmt_command,
};
use crate::part::part_met;
use crate::refused_words::{
    NO_COMMAND, NO_FILE, NO_STANDARD_INPUT, NOT_SHOWN, NOTHING_WRITTEN, SEVERAL_FILES, TWO_SETTINGS,
};
use crate::usage::{Usage, refusal, usage_of};
use crate::words::{is_given, text_given, words_given};
use clap::ArgMatches;
use std::alloc::Global;
use yf_rule_pages::page::Page;

/// Parses the words after the program's name into a request. `rules` are the names of all rules, and `pages` what
/// `explain` prints. `--explain` may also come before the command. The commands are:
///
/// - `events [SETTINGS] [READING] [FILE]`
/// - `check [SETTINGS] [READING] [--names] [--without RULES] [--lines LINES] [--baseline FILE] [PRINTING] [FILE..]`.
///   RULES are names of rules, separated by commas. The option may be given more than once.
/// - `fmt [SETTINGS] [READING] [--names] [--write] [--check] [--diff] [--lines LINES] [--format FORMAT] [FILE..]`.
///   `--write` needs a FILE, and no FILE may be `-`. It excludes `--check` and `--diff`. Several FILEs need one of
///   these three options. `--format` needs `--check`, and excludes `--diff` and `--lines`.
/// - `server [SETTINGS] [--stdio]`. It always reads standard input, and `--stdio` changes nothing: editors pass it.
/// - `explain [NAME]`. It makes no request: what it prints is returned as `Usage::Help`.
///
/// SETTINGS is `--config FILE` or `--no-config`, and `--show-settings`. READING is `--explain`, `--any-text` and
/// `--stdin-name NAME`. PRINTING is `--format FORMAT` or `--statistics`, and `--max-findings N` and `--color WHEN`:
/// FORMAT is `line`, `full`, `json`, `sarif`, `github`, `gitlab`, `junit`, `checkstyle` or, for `check`, `baseline`.
/// N is a decimal number, and WHEN is `auto`, `always` or `never`.
///
/// `--lines` takes at most one FILE. LINES are numbers of lines and ranges, as in `3-7,12`. The option may be given
/// more than once.
///
/// A FILE `-` is standard input. Without a FILE a command reads standard input.
///
/// # Errors
///
/// - `Usage::Help` for `--help`, `help` and `--version`; and for `explain`, with the page on NAME, or without NAME the
///   list of all pages.
/// - `Usage::Wrong` for all other words, with a text that says why.
/// - `Usage::Memory` if memory is refused, for any words.
pub fn parse_line(
    alloc: Global,
    words: &[String],
    rules: &[&str],
    pages: &[Page],
) -> Result<Request, Usage>
    ensures { MatchResult result
        (AsksFor (map (λ r. r.now) rules.now) (map string_bytes words.now))
        (RefusesWords (map (λ r. r.now) rules.now) pages.now (map string_bytes words.now)) }
{
    let command = yamlfmt_command(alloc)?;
    match command.try_get_matches_from(words) {
        Ok(matches) => request_met(alloc, &matches, rules, pages),
        Err(error) => Err(usage_of(alloc, words, &error)),
    }
}

// Returns the request that the accepted words make, or what `explain` prints.
fn request_met(
    alloc: Global,
    matches: &ArgMatches<'_>,
    rules: &[&str],
    pages: &[Page],
) -> Result<Request, Usage>
    ensures { MatchResult result
        (IsRequest (map (λ r. r.now) rules.now) (rows_of (found_of matches.now))
        (subcommand_rows_of matches.now))
        (MakesNoRequest (map (λ r. r.now) rules.now) pages.now (subcommand_rows_of matches.now)) }
{
    let (name, given) = match matches.subcommand() {
        Some(met) => met,
        None => return Err(refusal(alloc, NO_COMMAND)),
    };
    let command = match command_met(alloc, name, given, rules, pages) {
        Ok(command) => command,
        Err(usage) => return Err(usage),
    };
    let settings = match settings_met(alloc, given) {
        Ok(settings) => settings,
        Err(usage) => return Err(usage),
    };
    let stdin_name = text_given(alloc, given, STDIN_NAME)?;
    Ok(Request {
        settings,
        shows_settings: is_given(given, SHOW_SETTINGS),
        explain: is_explained(matches, given),
        any_text: is_given(given, ANY_TEXT),
        names: is_given(given, NAMES),
        stdin_name,
        command,
    })
}

// Returns whether `--explain` is given, before the command or after it.
fn is_explained(matches: &ArgMatches<'_>, given: &ArgMatches<'_>) -> bool
    ensures { result ≡ (is_flag (codes "explain") (rows_of (found_of matches.now))
        || is_flag (codes "explain") (rows_of (found_of given.now))) }
{
    is_given(matches, EXPLAIN) || is_given(given, EXPLAIN)
}

// Returns the settings that these matches ask for.
fn settings_met(alloc: Global, given: &ArgMatches<'_>) -> Result<Settings, Usage>
    ensures { MatchResult result (IsSettings (rows_of (found_of given.now)))
        (RefusedBy (AsksTwice (rows_of (found_of given.now)))) }
{
    let config = text_given(alloc, given, CONFIG)?;
    if is_given(given, NO_CONFIG) {
        return match config {
            Some(_) => Err(refusal(alloc, TWO_SETTINGS)),
            None => Ok(Settings::Defaults),
        };
    }
    match config {
        Some(name) => Ok(Settings::File(name)),
        None => Ok(Settings::Nearest),
    }
}

// Returns the command with this name and these matches, or what `explain` prints.
fn command_met(
    alloc: Global,
    name: &str,
    given: &ArgMatches<'_>,
    rules: &[&str],
    pages: &[Page],
) -> Result<Command, Usage>
    ensures { MatchResult result
        (IsCommand (map (λ r. r.now) rules.now) name.now (rows_of (found_of given.now)))
        (MakesNoCommand (map (λ r. r.now) rules.now) pages.now name.now (rows_of (found_of given.now))) }
{
    if name == EVENTS {
        return Ok(Command::Events(first_input(alloc, words_given(given, FILE))?));
    }
    if name == CHECK {
        return match check_met(alloc, given, rules) {
            Ok(check) => Ok(Command::Check(check)),
            Err(usage) => Err(usage),
        };
    }
    if name == FMT {
        return match fmt_task_met(alloc, given) {
            Ok(fmt) => Ok(Command::Fmt(fmt)),
            Err(usage) => Err(usage),
        };
    }
    if name == SERVER {
        return Ok(Command::Server);
    }
    if name == EXPLAIN {
        return Err(explained(alloc, given, pages));
    }
    Err(refusal(alloc, NO_COMMAND))
}

// Returns `fmt` with these matches.
fn fmt_task_met(alloc: Global, given: &ArgMatches<'_>) -> Result<Fmt, Usage>
    ensures { MatchResult result (IsFmtTask (rows_of (found_of given.now)))
        (RefusedBy (IsNoFmtTask (rows_of (found_of given.now)))) }
{
    let output = match fmt_output_met(alloc, given) {
        Ok(output) => output,
        Err(usage) => return Err(usage),
    };
    match fmt_met(alloc, given) {
        Ok(fmt) => Ok(with_output(output, fmt)),
        Err(usage) => Err(usage),
    }
}

// Returns `fmt` with these matches, besides its `--format`.
fn fmt_met(alloc: Global, given: &ArgMatches<'_>) -> Result<Fmt, Usage>
    ensures { MatchResult result (IsFmt (rows_of (found_of given.now)))
        (RefusedBy (IsNoFmt (rows_of (found_of given.now)))) }
{
    match words_given(given, LINES) {
        [] => whole_met(alloc, given),
        [_, ..] => part_met(alloc, given),
    }
}

// Returns `fmt` without `--lines`, with these matches.
fn whole_met(alloc: Global, given: &ArgMatches<'_>) -> Result<Fmt, Usage>
    requires { lines_given (rows_of (found_of given.now)) ≡ [] }
    ensures { MatchResult result (IsFmt (rows_of (found_of given.now)))
        (RefusedBy (IsNoFmt (rows_of (found_of given.now)))) }
{
    if is_given(given, WRITE) {
        return write_met(alloc, given);
    }
    let files = words_given(given, FILE);
    if is_given(given, DIFF) {
        return Ok(Fmt::Diff(inputs_of(alloc, files)?));
    }
    if is_given(given, CHECK) {
        return Ok(Fmt::Check {
            inputs: inputs_of(alloc, files)?,
            output: Output::Lines,
        });
    }
    if files.len() > 1 {
        return Err(refusal(alloc, SEVERAL_FILES));
    }
    Ok(Fmt::Print(first_input(alloc, files)?))
}

// Returns `fmt --write` without `--lines`, with these matches.
fn write_met(alloc: Global, given: &ArgMatches<'_>) -> Result<Fmt, Usage>
    requires whole { lines_given (rows_of (found_of given.now)) ≡ [] }
    requires writes { writes (rows_of (found_of given.now)) ≡ true }
    ensures { MatchResult result (IsFmt (rows_of (found_of given.now)))
        (RefusedBy (IsNoFmt (rows_of (found_of given.now)))) }
{
    let files = words_given(given, FILE);
    match files {
        [] => Err(refusal(alloc, NO_FILE)),
        [first, rest @ ..] => {
            if has_standard_input(files) {
                return Err(refusal(alloc, NO_STANDARD_INPUT));
            }
            if is_given(given, CHECK) {
                return Err(refusal(alloc, NOTHING_WRITTEN));
            }
            if is_given(given, DIFF) {
                return Err(refusal(alloc, NOT_SHOWN));
            }
            Ok(Fmt::Write(files_of(alloc, first, rest)?))
        }
    }
}
