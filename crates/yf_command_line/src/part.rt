//! `fmt --lines`: formatting only some lines of a text.
ghost use Rattle.std.specs.Prelude.{◌≢◌, ◌≡◌, [], MatchResult, true};
ghost use Rattle.clap.specs.Words.{found_of, rows_of};
ghost use Rattle.yf_command_line.specs.Requests.{DoesPart, IsFmt, IsNoFmt, RefusedBy, lines_given, writes};

use crate::command::{Fmt, Part};
use crate::inputs::{first_input, has_standard_input, text_of};
use crate::lines::lines_met;
use crate::options::{CHECK, DIFF, FILE, LINES, WRITE};
use crate::refused_words::{NO_FILE, NO_STANDARD_INPUT, NOT_SHOWN, NOTHING_WRITTEN, SEVERAL_PARTS};
use crate::usage::{Usage, refusal};
use crate::words::{is_given, words_given};
use clap::ArgMatches;
use std::alloc::Global;

// Returns `fmt --lines` with these matches.
pub(crate) fn part_met(alloc: Global, given: &ArgMatches<'_>) -> Result<Fmt, Usage>
    requires { lines_given (rows_of (found_of given.now)) ≢ [] }
    ensures { MatchResult result (IsFmt (rows_of (found_of given.now)))
        (RefusedBy (IsNoFmt (rows_of (found_of given.now)))) }
{
    let lines = match lines_met(alloc, words_given(given, LINES)) {
        Ok(lines) => lines,
        Err(usage) => return Err(usage),
    };
    match what_met(alloc, given) {
        Ok(what) => Ok(Fmt::Part { lines, what }),
        Err(usage) => Err(usage),
    }
}

// Returns the task of `fmt --lines`.
fn what_met(alloc: Global, given: &ArgMatches<'_>) -> Result<Part, Usage>
    requires { lines_given (rows_of (found_of given.now)) ≢ [] }
    ensures { MatchResult result (DoesPart (rows_of (found_of given.now)))
        (RefusedBy (IsNoFmt (rows_of (found_of given.now)))) }
{
    if is_given(given, WRITE) {
        return written_part(alloc, given);
    }
    let files = words_given(given, FILE);
    if files.len() > 1 {
        return Err(refusal(alloc, SEVERAL_PARTS));
    }
    if is_given(given, DIFF) {
        return Ok(Part::Diff(first_input(alloc, files)?));
    }
    if is_given(given, CHECK) {
        return Ok(Part::Check(first_input(alloc, files)?));
    }
    Ok(Part::Print(first_input(alloc, files)?))
}

// Returns the task of `fmt --lines --write`.
fn written_part(alloc: Global, given: &ArgMatches<'_>) -> Result<Part, Usage>
    requires lines { lines_given (rows_of (found_of given.now)) ≢ [] }
    requires writes { writes (rows_of (found_of given.now)) ≡ true }
    ensures { MatchResult result (DoesPart (rows_of (found_of given.now)))
        (RefusedBy (IsNoFmt (rows_of (found_of given.now)))) }
{
    let files = words_given(given, FILE);
    match files {
        [] => Err(refusal(alloc, NO_FILE)),
        [_, _, ..] => Err(refusal(alloc, SEVERAL_PARTS)),
        [file] => {
            if has_standard_input(files) {
                return Err(refusal(alloc, NO_STANDARD_INPUT));
            }
            if is_given(given, CHECK) {
                return Err(refusal(alloc, NOTHING_WRITTEN));
            }
            if is_given(given, DIFF) {
                return Err(refusal(alloc, NOT_SHOWN));
            }
            Ok(Part::Write(text_of(alloc, file)?))
        }
    }
}
