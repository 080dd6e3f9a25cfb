//! Command lines with the options of `check`, and with `fmt --format`.

use crate::tests::answers::words_of;
use crate::tests::lines_option::are_lines;
use std::alloc::Global;
use yf_command_line::command::{Check, Colors, Command, Fmt, Output};
use yf_command_line::command_line::parse_line;
use yf_command_line::usage::Usage;
use yf_rule_pages::pages::PAGES;
use yf_rules::asked::RULE_NAMES;

/// The expected result of a command line.
#[derive(Clone, Copy)]
enum Wanted {
    /// The lines to check, the form of the output, when it has colors, and the limit.
    Check(&'static [[usize; 2]], &'static str, &'static str, Option<usize>),
    /// `fmt --check`: the form of the output, and the number of inputs after the first.
    Compare(&'static str, usize),
    /// Wrong words.
    Wrong,
    /// Wrong words, and the reason.
    Refused(&'static str),
}

/// The refusal of `--statistics` with `--format`.
const TWO_OUTPUTS: &str = "error: the argument '--statistics' cannot be used with '--format'

Usage: yamlfmt check [OPTIONS] [FILE]...

For more information, try '--help'.
";

/// The refusal of several files with `--lines`.
const SEVERAL: &str = "error: the argument '--lines' takes one FILE

Usage: yamlfmt check [OPTIONS] [FILE]...

For more information, try '--help'.
";

/// The refusal of `fmt --format` without `--check`, or with `--write`, `--diff` or `--lines`.
const UNCHECKED: &str =
    "error: the argument '--format' needs '--check', without '--write', '--diff' and '--lines'

Usage: yamlfmt fmt [OPTIONS] [FILE]...

For more information, try '--help'.
";

static ROWS: [(&str, Wanted); 74] = [
    ("check", Wanted::Check(&[], "", "auto", None)),
    ("check a b", Wanted::Check(&[], "", "auto", None)),
    (
        "check --format line a",
        Wanted::Check(&[], "line", "auto", None),
    ),
    (
        "check --format full a b",
        Wanted::Check(&[], "full", "auto", None),
    ),
    (
        "check --format=junit --color never -",
        Wanted::Check(&[], "report", "never", None),
    ),
    (
        "check --statistics a b",
        Wanted::Check(&[], "statistics", "auto", None),
    ),
    (
        "check --statistics --color always --max-findings 3 --lines 4 a",
        Wanted::Check(&[[4, 4]], "statistics", "always", Some(3)),
    ),
    (
        "check --color always --max-findings 0",
        Wanted::Check(&[], "", "always", Some(0)),
    ),
    (
        "check a --color=auto --max-findings=007",
        Wanted::Check(&[], "", "auto", Some(7)),
    ),
    (
        "check --max-findings 18446744073709551615 --format json",
        Wanted::Check(&[], "report", "auto", Some(usize::MAX)),
    ),
    (
        "check --lines 3-7 --without quoting --lines=12 a",
        Wanted::Check(&[[3, 7], [12, 12]], "", "auto", None),
    ),
    (
        "check --lines 2,1",
        Wanted::Check(&[[2, 2], [1, 1]], "", "auto", None),
    ),
    (
        "check --lines 2 --format sarif -",
        Wanted::Check(&[[2, 2]], "report", "auto", None),
    ),
    (
        "check --baseline=b.json --format baseline a",
        Wanted::Check(&[], "baseline", "auto", None),
    ),
    ("check --baseline", Wanted::Wrong),
    ("check --baseline a --baseline a a", Wanted::Wrong),
    ("fmt --baseline a b", Wanted::Wrong),
    ("check --max-findings 18446744073709551616 a", Wanted::Wrong),
    ("check --max-findings", Wanted::Wrong),
    ("check --max-findings= a", Wanted::Wrong),
    ("check --max-findings -1 a", Wanted::Wrong),
    ("check --max-findings=-1 a", Wanted::Wrong),
    ("check --max-findings +1 a", Wanted::Wrong),
    ("check --max-findings 1.5 a", Wanted::Wrong),
    ("check --max-findings 0x10 a", Wanted::Wrong),
    ("check --max-findings \u{661} a", Wanted::Wrong),
    ("check --max-findings 1 --max-findings 1 a", Wanted::Wrong),
    ("check --statistics --statistics a", Wanted::Wrong),
    ("check --statistics=true a", Wanted::Wrong),
    ("check --statistics --format bogus a", Wanted::Wrong),
    ("check --color", Wanted::Wrong),
    ("check --color= a", Wanted::Wrong),
    ("check --color Always a", Wanted::Wrong),
    ("check --color auto --color auto a", Wanted::Wrong),
    ("check --format statistics a", Wanted::Wrong),
    ("check --lines", Wanted::Wrong),
    ("check --lines= a", Wanted::Wrong),
    ("check --lines 1,-3 a", Wanted::Wrong),
    ("check --lines 1 --lines 0 a", Wanted::Wrong),
    ("fmt --check", Wanted::Compare("line", 0)),
    ("fmt --check --format line a", Wanted::Compare("line", 0)),
    ("fmt --format=full --check a b", Wanted::Compare("full", 1)),
    (
        "fmt --check a --format json -",
        Wanted::Compare("report", 1),
    ),
    ("fmt --check --format", Wanted::Wrong),
    ("fmt --check --format= a", Wanted::Wrong),
    ("fmt --check --format JSON a", Wanted::Wrong),
    ("fmt --check --format json --format json a", Wanted::Wrong),
    ("fmt --check --statistics a", Wanted::Wrong),
    ("fmt --check --max-findings 1 a", Wanted::Wrong),
    ("fmt --check --color never a", Wanted::Wrong),
    ("fmt --format json a", Wanted::Refused(UNCHECKED)),
    ("fmt --format line", Wanted::Refused(UNCHECKED)),
    ("fmt --write --format json a", Wanted::Refused(UNCHECKED)),
    (
        "fmt --write --check --format json a",
        Wanted::Refused(UNCHECKED),
    ),
    ("fmt --diff --format json a", Wanted::Refused(UNCHECKED)),
    (
        "fmt --diff --check --format json a",
        Wanted::Refused(UNCHECKED),
    ),
    (
        "fmt --check --format json --lines 3 a",
        Wanted::Refused(UNCHECKED),
    ),
    ("fmt --format json a b", Wanted::Refused(UNCHECKED)),
    ("fmt --statistics a", Wanted::Wrong),
    ("fmt --color never a", Wanted::Wrong),
    ("events --max-findings 3 a", Wanted::Wrong),
    ("events --color never a", Wanted::Wrong),
    ("server --color never", Wanted::Wrong),
    ("--color never check a", Wanted::Wrong),
    (
        "check --statistics --format json a",
        Wanted::Refused(TWO_OUTPUTS),
    ),
    (
        "check --format line --statistics",
        Wanted::Refused(TWO_OUTPUTS),
    ),
    ("check --lines 3 a b", Wanted::Refused(SEVERAL)),
    ("check - --lines 3 -", Wanted::Refused(SEVERAL)),
    (
        "check --lines 7-3 a",
        Wanted::Refused(
            "error: invalid value '7-3' for '--lines <LINES>': LINES are numbers of lines and ranges, as in 3-7,12

For more information, try '--help'.
",
        ),
    ),
    (
        "check --format text a",
        Wanted::Refused(
            "error: invalid value 'text' for '--format <FORMAT>'
  [possible values: line, full, json, sarif, github, gitlab, junit, checkstyle, baseline]

For more information, try '--help'.
",
        ),
    ),
    (
        "fmt --check --format baseline a",
        Wanted::Refused(
            "error: invalid value 'baseline' for '--format <FORMAT>'
  [possible values: line, full, json, sarif, github, gitlab, junit, checkstyle]

For more information, try '--help'.
",
        ),
    ),
    (
        "fmt --format text",
        Wanted::Refused(
            "error: invalid value 'text' for '--format <FORMAT>'
  [possible values: line, full, json, sarif, github, gitlab, junit, checkstyle]

For more information, try '--help'.
",
        ),
    ),
    (
        "check --color yes\u{1b} a",
        Wanted::Refused(
            "error: invalid value 'yes\\x1B' for '--color <WHEN>'
  [possible values: auto, always, never]

For more information, try '--help'.
",
        ),
    ),
    (
        "check --max-findings ten a",
        Wanted::Refused(
            "error: invalid value 'ten' for '--max-findings <N>': N is a decimal number of at most 64 bits

For more information, try '--help'.
",
        ),
    ),
];

/// Returns the name of a form.
fn form(output: Option<Output>) -> &'static str {
    match output {
        None => "",
        Some(Output::Lines) => "line",
        Some(Output::Full) => "full",
        Some(Output::Statistics) => "statistics",
        Some(Output::Baseline) => "baseline",
        Some(Output::Report(_)) => "report",
    }
}

/// Returns the word for this choice of colors.
fn word(colors: Colors) -> &'static str {
    match colors {
        Colors::Auto => "auto",
        Colors::Always => "always",
        Colors::Never => "never",
    }
}

/// Returns whether `check` has these lines, form, colors and limit.
fn is_check(
    check: &Check,
    lines: &[[usize; 2]],
    output: &str,
    colors: &str,
    limit: Option<usize>,
) -> bool {
    are_lines(check.lines.as_slice(), lines)
        && form(check.printing.output) == output
        && word(check.printing.colors) == colors
        && check.printing.limit == limit
}

/// Returns whether the result for a command line is as expected.
fn is_found(alloc: Global, line: &str, wanted: Wanted) -> bool {
    let Ok(words) = words_of(alloc, line) else {
        return false;
    };
    match (
        &parse_line(alloc, words.as_slice(), &RULE_NAMES, &PAGES),
        wanted,
    ) {
        (Ok(request), Wanted::Check(lines, output, colors, limit)) => match &request.command {
            Command::Check(check) => is_check(check, lines, output, colors, limit),
            _ => false,
        },
        (Ok(request), Wanted::Compare(wanted, more)) => match &request.command {
            Command::Fmt(Fmt::Check { inputs, output }) => {
                form(Some(*output)) == wanted && inputs.rest.len() == more
            }
            _ => false,
        },
        (Err(Usage::Wrong(_)), Wanted::Wrong) => true,
        (Err(Usage::Wrong(text)), Wanted::Refused(wanted)) => text.as_str() == wanted,
        _ => false,
    }
}

#[test]
fn options_of_checks_are_taken_or_refused(rt: HostRuntime) {
    for (line, wanted) in &ROWS {
        assert!(rt; is_found(rt.alloc(), line, *wanted), "{line}");
    }
}
