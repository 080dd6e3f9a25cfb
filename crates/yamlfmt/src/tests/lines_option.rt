//! Command lines of `fmt` with `--lines`.

use crate::tests::answers::words_of;
use std::alloc::Global;
use yf_command_line::command::{Command, Fmt, Input, Part, Request};
use yf_command_line::command_line::parse_line;
use yf_command_line::usage::Usage;
use yf_line_ranges::range::LineRange;
use yf_rule_pages::pages::PAGES;
use yf_rules::asked::RULE_NAMES;

/// The task for the text.
#[derive(Clone, Copy, PartialEq, Eq)]
enum Task {
    Print,
    Check,
    Diff,
    Write,
}

/// The expected result of a command line.
#[derive(Clone, Copy)]
enum Wanted {
    /// The first and the last line of each range, the task, and the name of the file.
    Part(&'static [[usize; 2]], Task, &'static str),
    /// Wrong words.
    Wrong,
    /// Wrong words, and the reason.
    Refused(&'static str),
}

static ROWS: [(&str, Wanted); 21] = [
    (
        "fmt --lines 3-7,12 a",
        Wanted::Part(&[[3, 7], [12, 12]], Task::Print, "a"),
    ),
    (
        "fmt --lines 4 --check --lines=1-2,4",
        Wanted::Part(&[[4, 4], [1, 2], [4, 4]], Task::Check, ""),
    ),
    (
        "fmt --check --diff --lines 2 -",
        Wanted::Part(&[[2, 2]], Task::Diff, ""),
    ),
    (
        "fmt a --write --lines 2",
        Wanted::Part(&[[2, 2]], Task::Write, "a"),
    ),
    (
        "fmt --lines 18446744073709551615",
        Wanted::Part(&[[usize::MAX, usize::MAX]], Task::Print, ""),
    ),
    ("fmt --lines 18446744073709551616", Wanted::Wrong),
    ("fmt --lines", Wanted::Wrong),
    ("fmt --lines= a", Wanted::Wrong),
    ("fmt --lines 1 --lines 0 a", Wanted::Wrong),
    ("fmt --lines 1,,2 a", Wanted::Wrong),
    ("fmt --lines 1- a", Wanted::Wrong),
    ("fmt --lines +1 a", Wanted::Wrong),
    ("fmt --lines 1 --write", Wanted::Wrong),
    ("fmt --lines 1 --write -", Wanted::Wrong),
    ("fmt --lines 1 --write --check a", Wanted::Wrong),
    ("fmt --lines 1 --write --diff a", Wanted::Wrong),
    ("fmt --lines 1 --write a b", Wanted::Wrong),
    ("fmt --lines 1 --diff a b", Wanted::Wrong),
    ("events --lines 1 a", Wanted::Wrong),
    (
        "fmt --lines 7-3 a",
        Wanted::Refused(
            "error: invalid value '7-3' for '--lines <LINES>': LINES are numbers of lines and ranges, as in 3-7,12

For more information, try '--help'.
",
        ),
    ),
    (
        "fmt --lines 1 a b",
        Wanted::Refused(
            "error: the argument '--lines' takes one FILE

Usage: yamlfmt fmt [OPTIONS] [FILE]...

For more information, try '--help'.
",
        ),
    ),
];

/// Returns whether these are the ranges.
pub fn are_lines(found: &[LineRange], wanted: &[[usize; 2]]) -> bool {
    found.len() == wanted.len()
        && found.iter().zip(wanted).all(|(range, ends)| range.first == ends[0]
            && range.last == ends[1])
}

/// Returns the name of an input.
fn name_of(input: &Input) -> &str {
    match input {
        Input::Standard => "",
        Input::File(name) => name.as_str(),
    }
}

/// Returns the task, and the name of the file.
fn task_of(what: &Part) -> (Task, &str) {
    match what {
        Part::Print(input) => (Task::Print, name_of(input)),
        Part::Check(input) => (Task::Check, name_of(input)),
        Part::Diff(input) => (Task::Diff, name_of(input)),
        Part::Write(file) => (Task::Write, file.as_str()),
    }
}

/// Returns whether the request formats these lines of this file.
fn is_part(request: &Request, lines: &[[usize; 2]], task: Task, file: &str) -> bool {
    match &request.command {
        Command::Fmt(Fmt::Part { lines: found, what }) => {
            let (is_task, name) = task_of(what);
            are_lines(found.as_slice(), lines) && is_task == task && name == file
        }
        _ => false,
    }
}

/// Returns whether the result for a command line is as expected.
fn is_found(alloc: Global, line: &str, wanted: Wanted) -> bool {
    let Ok(words) = words_of(alloc, line) else {
        return false;
    };
    match (
        &parse_line(alloc, words.as_slice(), &RULE_NAMES, &PAGES),
        wanted,
    ) {
        (Ok(request), Wanted::Part(lines, task, file)) => is_part(request, lines, task, file),
        (Err(Usage::Wrong(_)), Wanted::Wrong) => true,
        (Err(Usage::Wrong(text)), Wanted::Refused(wanted)) => text.as_str() == wanted,
        _ => false,
    }
}

#[test]
fn lines_are_asked_for_or_refused(rt: HostRuntime) {
    for (line, wanted) in &ROWS {
        assert!(rt; is_found(rt.alloc(), line, *wanted), "{line}");
    }
}
