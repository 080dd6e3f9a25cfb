//! The `--format` of `fmt`, which only `--check` takes.
ghost use Rattle.std.specs.Prelude.{◌≡◌, ◌≢◌, MatchBool, MatchResult, None};
ghost use Rattle.clap.specs.Words.{found_of, rows_of};
ghost use Rattle.yf_command_line.specs.FmtFormats.{GivesOutput, RefusesFormat, TakesFormat, with_output};
ghost use Rattle.yf_command_line.specs.Requests.{RefusedBy};
ghost use Rattle.yf_command_line.specs.Rows.{format_given};

use crate::command::{Fmt, Output};
use crate::formats::problems_named;
use crate::options::{CHECK, DIFF, FORMAT, LINES, WRITE};
use crate::refused_words::FORMAT_UNCHECKED;
use crate::usage::{Usage, refusal, refusal_of_value};
use crate::words::{is_given, value_given, words_given};
use clap::ArgMatches;
use std::alloc::Global;

/// Why `fmt` refuses a name of a format.
const NO_FORMAT: &str =
    "\n  [possible values: line, full, json, sarif, github, gitlab, junit, checkstyle]";

// Returns the task with this output, if it reports.
pub(crate) fn with_output(output: Output, fmt: Fmt) -> Fmt
    ensures { result ≡ with_output output fmt }
{
    match fmt {
        Fmt::Check { inputs, .. } => Fmt::Check { inputs, output },
        Fmt::Print(input) => Fmt::Print(input),
        Fmt::Diff(inputs) => Fmt::Diff(inputs),
        Fmt::Write(files) => Fmt::Write(files),
        Fmt::Part { lines, what } => Fmt::Part { lines, what },
    }
}

// Returns how `fmt --check` reports with these matches.
pub(crate) fn fmt_output_met(alloc: Global, given: &ArgMatches<'_>) -> Result<Output, Usage>
    ensures { MatchResult result (GivesOutput (rows_of (found_of given.now)))
        (RefusedBy (RefusesFormat (rows_of (found_of given.now)))) }
{
    match value_given(given, FORMAT) {
        None => Ok(Output::Lines),
        Some(name) => match problems_named(name) {
            Some(output) => {
                if takes_format(given) {
                    return Ok(output);
                }
                Err(refusal(alloc, FORMAT_UNCHECKED))
            }
            None => Err(refusal_of_value(alloc, name, "--format <FORMAT>", NO_FORMAT)),
        },
    }
}

// Returns whether the matches say `--check`, and nothing that excludes `--format`.
fn takes_format(given: &ArgMatches<'_>) -> bool
    ensures { MatchBool result (TakesFormat (rows_of (found_of given.now)))
        (format_given (rows_of (found_of given.now)) ≢ None → RefusesFormat (rows_of (found_of given.now))) }
{
    if is_given(given, WRITE) {
        return false;
    }
    if is_given(given, DIFF) {
        return false;
    }
    if !is_given(given, CHECK) {
        return false;
    }
    words_given(given, LINES).is_empty()
}
