//! How `check` prints its findings: `--format`, `--statistics`, `--color` and `--max-findings`.
ghost use Rattle.std.specs.Prelude.{◌≡◌, None, Some, MatchResult, option_map};
ghost use Rattle.clap.specs.Words.{found_of, rows_of};
ghost use Rattle.yf_command_line.specs.Printing.{IsLimit, IsNoLimit, IsNoOutput, IsOutput, colors_named, colors_of};
ghost use Rattle.yf_command_line.specs.Requests.{IsNoPrinting, IsPrinting, RefusedBy};

use crate::command::{Colors, Output, Printing};
use crate::formats::output_named;
use crate::options::{COLOR, FORMAT, MAX_FINDINGS, STATISTICS};
use crate::refused_words::TWO_OUTPUTS;
use crate::usage::{Usage, refusal, refusal_of_value};
use crate::words::{is_given, value_given};
use clap::ArgMatches;
use std::alloc::Global;
use yf_line_ranges::number::read_number;

/// Why `check` refuses a name of a format.
const NO_FORMAT: &str =
    "\n  [possible values: line, full, json, sarif, github, gitlab, junit, checkstyle, baseline]";

/// Why a word of `--color` is refused.
const NO_COLORS: &str = "\n  [possible values: auto, always, never]";

/// Why a word of `--max-findings` is refused.
const NO_LIMIT: &str = ": N is a decimal number of at most 64 bits";

// Returns how `check` prints its findings with these matches.
pub(crate) fn printing_met(alloc: Global, given: &ArgMatches<'_>) -> Result<Printing, Usage>
    ensures { MatchResult result (IsPrinting (rows_of (found_of given.now)))
        (RefusedBy (IsNoPrinting (rows_of (found_of given.now)))) }
{
    let output = match output_met(
        alloc,
        is_given(given, STATISTICS),
        value_given(given, FORMAT),
    ) {
        Ok(output) => output,
        Err(usage) => return Err(usage),
    };
    let colors = match colors_met(alloc, value_given(given, COLOR)) {
        Ok(colors) => colors,
        Err(usage) => return Err(usage),
    };
    let limit = match limit_met(alloc, value_given(given, MAX_FINDINGS)) {
        Ok(limit) => limit,
        Err(usage) => return Err(usage),
    };
    Ok(Printing {
        output,
        colors,
        limit,
    })
}

// Returns the form of the output. `counts` says whether `--statistics` is given, and `format` is the value of
// `--format`.
fn output_met(alloc: Global, counts: bool, format: Option<&str>) -> Result<Option<Output>, Usage>
    ensures { MatchResult result (IsOutput counts (option_map (λ v. v.now) format.entry))
        (RefusedBy (IsNoOutput counts (option_map (λ v. v.now) format.entry))) }
{
    match format {
        Some(name) => {
            if counts {
                return Err(refusal(alloc, TWO_OUTPUTS));
            }
            match output_named(name) {
                Some(output) => Ok(Some(output)),
                None => Err(refusal_of_value(alloc, name, "--format <FORMAT>", NO_FORMAT)),
            }
        }
        None => {
            if counts {
                return Ok(Some(Output::Statistics));
            }
            Ok(None)
        }
    }
}

// Returns when the output has colors, by the value of `--color`.
fn colors_met(alloc: Global, value: Option<&str>) -> Result<Colors, Usage>
    ensures { MatchResult result (λ colors. colors_of (option_map (λ v. v.now) value.entry) ≡ Some colors)
        (RefusedBy (colors_of (option_map (λ v. v.now) value.entry) ≡ None)) }
{
    match value {
        Some(name) => match colors_named(name) {
            Some(colors) => Ok(colors),
            None => Err(refusal_of_value(alloc, name, "--color <WHEN>", NO_COLORS)),
        },
        None => Ok(Colors::Auto),
    }
}

// Returns when the output has colors for this word of `--color`.
fn colors_named(name: &str) -> Option<Colors>
    ensures { result ≡ colors_named name.now }
{
    if name == "auto" {
        return Some(Colors::Auto);
    }
    if name == "always" {
        return Some(Colors::Always);
    }
    if name == "never" {
        return Some(Colors::Never);
    }
    None
}

// Returns the greatest number of findings to print, by the value of `--max-findings`.
fn limit_met(alloc: Global, value: Option<&str>) -> Result<Option<usize>, Usage>
    ensures { MatchResult result (IsLimit (option_map (λ v. v.now) value.entry))
        (RefusedBy (IsNoLimit (option_map (λ v. v.now) value.entry))) }
{
    match value {
        Some(word) => match read_number(word) {
            Some(number) => Ok(Some(number)),
            None => Err(refusal_of_value(alloc, word, "--max-findings <N>", NO_LIMIT)),
        },
        None => Ok(None),
    }
}
