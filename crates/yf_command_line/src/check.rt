//! `check`: its rules to leave out, its lines, its baseline and its inputs.
ghost use Rattle.std.specs.Prelude.{◌≢◌, ◌<◌, ◌≤◌, [], length, map, MatchBool, MatchResult};
ghost use Rattle.clap.specs.Words.{found_of, rows_of};
ghost use Rattle.yf_command_line.specs.Requests.{IsCheck, IsNoCheck, RefusedBy, files_given, lines_given};

use crate::command::Check;
use crate::inputs::inputs_of;
use crate::lines::lines_met;
use crate::options::{BASELINE, FILE, LINES, WITHOUT};
use crate::printing::printing_met;
use crate::refused_words::SEVERAL_CHECKED;
use crate::usage::{Usage, refusal};
use crate::without::{names_in, refusal_of_name, unknown_name};
use crate::words::{text_given, words_given};
use clap::ArgMatches;
use std::alloc::Global;

// Returns `check` with these matches.
pub(crate) fn check_met(
    alloc: Global,
    given: &ArgMatches<'_>,
    rules: &[&str],
) -> Result<Check, Usage>
    ensures { MatchResult result (IsCheck (map (λ r. r.now) rules.now) (rows_of (found_of given.now)))
        (RefusedBy (IsNoCheck (map (λ r. r.now) rules.now) (rows_of (found_of given.now)))) }
{
    let without = names_in(alloc, words_given(given, WITHOUT))?;
    if let Some(name) = unknown_name(without.as_slice(), rules) {
        return Err(refusal_of_name(alloc, name, rules));
    }
    let lines = match lines_met(alloc, words_given(given, LINES)) {
        Ok(lines) => lines,
        Err(usage) => return Err(usage),
    };
    if has_lines_of_several(given) {
        return Err(refusal(alloc, SEVERAL_CHECKED));
    }
    let printing = match printing_met(alloc, given) {
        Ok(printing) => printing,
        Err(usage) => return Err(usage),
    };
    let baseline = text_given(alloc, given, BASELINE)?;
    let inputs = inputs_of(alloc, words_given(given, FILE))?;
    Ok(Check {
        inputs,
        without,
        lines,
        baseline,
        printing,
    })
}

// Returns whether several FILEs are given with `--lines`.
fn has_lines_of_several(given: &ArgMatches<'_>) -> bool
    ensures { MatchBool result
        ((lines_given (rows_of (found_of given.now)) ≢ []) × (1 < length (files_given (rows_of (found_of given.now)))))
        (lines_given (rows_of (found_of given.now)) ≢ [] → length (files_given (rows_of (found_of given.now))) ≤ 1) }
{
    match words_given(given, LINES) {
        [] => false,
        [_, ..] => {
            if words_given(given, FILE).len() > 1 {
                return true;
            }
            false
        }
    }
}
