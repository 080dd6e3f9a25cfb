//! What `fmt --lines` shows of a text, and what it writes to a file.

use crate::tests::answer::answers_line;
use crate::tests::answer_rows::{BEFORE, Row as AnswerRow};
use crate::tests::answers::answer_to_task;
use std::alloc::{AllocError, Global};
use yf_files::{FileSystem, MemoryFiles};
use yf_forms::style::Style;
use yf_host::files::{NewText, rewrite_in};
use yf_host::guarded_text::GuardedText;
use yf_line_ranges::range::LineRange;
use yf_parts::run::PartTask;
use yf_parts::show::Show;
use yf_program::task::{Task, Work};

/// The first and the last line of a range.
type Range = (usize, usize);

/// Lines, how the result is shown, a text, the status, and the output or the report.
type Row = (&'static [Range], Show, &'static str, u8, &'static str);

/// Lines 2, 4 and 6 differ from the formatting.
const THREE: &str = "---\na:  1\nb: 2\nc:  3\nd: 4\ne:  5\n";

static ROWS: [Row; 28] = [
    // one line, and lines that need no change
    (
        &[(4, 4)],
        Show::Text,
        THREE,
        0,
        "---\na:  1\nb: 2\nc: 3\nd: 4\ne:  5\n",
    ),
    (&[(3, 3), (5, 5)], Show::Text, THREE, 0, THREE),
    // all lines
    (
        &[(1, 6)],
        Show::Text,
        THREE,
        0,
        "---\na: 1\nb: 2\nc: 3\nd: 4\ne: 5\n",
    ),
    // several ranges, also if they aren't in order
    (
        &[(6, 6), (2, 3)],
        Show::Text,
        THREE,
        0,
        "---\na: 1\nb: 2\nc:  3\nd: 4\ne: 5\n",
    ),
    // ranges without a line, no range, and one past the end
    (&[(5, 4), (2, 1)], Show::Text, THREE, 0, THREE),
    (&[], Show::Text, THREE, 0, THREE),
    (&[(7, 99)], Show::Text, THREE, 0, THREE),
    (
        &[(6, 99)],
        Show::Text,
        THREE,
        0,
        "---\na:  1\nb: 2\nc:  3\nd: 4\ne: 5\n",
    ),
    // the line `---` is only added: line 1 is after it
    (
        &[(1, 1)],
        Show::Text,
        "a: 1\nb:  2\n",
        0,
        "---\na: 1\nb:  2\n",
    ),
    (&[(2, 2)], Show::Text, "a: 1\nb:  2\n", 0, "a: 1\nb: 2\n"),
    // a blank line is only removed
    (
        &[(3, 3)],
        Show::Text,
        "---\na:\n\n  b: 1\n",
        0,
        "---\na:\n  b: 1\n",
    ),
    (
        &[(2, 2), (4, 4)],
        Show::Text,
        "---\na:\n\n  b: 1\n",
        0,
        "---\na:\n\n  b: 1\n",
    ),
    // with CR LF each line differs
    (
        &[(2, 2)],
        Show::Text,
        "---\r\na: 1\r\nb: 2\r\n",
        0,
        "---\na: 1\nb: 2\n",
    ),
    // a line of a block scalar: the lines beside it differ, too
    (
        &[(3, 3)],
        Show::Text,
        "---\na: |\n   x\n   y\nc: 1\nb:  1\n",
        0,
        "---\na: |\n  x\n  y\nc: 1\nb:  1\n",
    ),
    // one of two hunks in a block scalar gives other content, or no YAML: both are applied
    (
        &[(3, 3)],
        Show::Text,
        "---\na: |\n   x\n\n   y\nc: 1\n",
        0,
        "---\na: |\n  x\n\n  y\nc: 1\n",
    ),
    (
        &[(5, 5)],
        Show::Text,
        "---\na: |\n   x\n\n   y\nc: 1\n",
        0,
        "---\na: |\n  x\n\n  y\nc: 1\n",
    ),
    // the hunk after them is left out again
    (
        &[(5, 5)],
        Show::Text,
        "---\na: |\n   x\n\n   y\nc: 1\nb:  1\n",
        0,
        "---\na: |\n  x\n\n  y\nc: 1\nb:  1\n",
    ),
    // a line of a scalar over two lines
    (
        &[(3, 3)],
        Show::Text,
        "---\na: x\n  y\nb: 1\nc:  2\n",
        0,
        "---\na: x y\nb: 1\nc:  2\n",
    ),
    // the last line has no line feed
    (
        &[(3, 3)],
        Show::Text,
        "---\na: 1\nb: 2",
        0,
        "---\na: 1\nb: 2\n",
    ),
    (
        &[(2, 2)],
        Show::Text,
        "---\na: 1\nb: 2",
        0,
        "---\na: 1\nb: 2",
    ),
    // an empty text is its own formatting
    (&[(1, 1)], Show::Text, "", 0, ""),
    // the first position at which the text differs from the result
    (&[(4, 6)], Show::Place, THREE, 1, "4:4 not formatted\n"),
    (&[(1, 1), (3, 3)], Show::Place, THREE, 0, ""),
    // how it differs
    (
        &[(4, 4)],
        Show::Diff,
        THREE,
        1,
        "--- -\n+++ -\n@@ -1,6 +1,6 @@\n ---\n a:  1\n b: 2\n-c:  3\n+c: 3\n d: 4\n e:  5\n",
    ),
    (&[(5, 5)], Show::Diff, THREE, 0, ""),
    // a text that is refused
    (
        &[(1, 1)],
        Show::Text,
        "a: b: c\n",
        2,
        "1:5 refused: syntax\n",
    ),
    (
        &[(9, 9)],
        Show::Place,
        "a: b: c\n",
        2,
        "1:5 refused: syntax\n",
    ),
    (&[], Show::Diff, "a: b: c\n", 2, "1:5 refused: syntax\n"),
];

/// Returns the ranges.
fn ranges(alloc: Global, pairs: &[Range]) -> Result<Vec<LineRange>, AllocError> {
    let mut lines = Vec::new(alloc);
    for (first, last) in pairs {
        lines.push(LineRange {
            first: *first,
            last: *last,
        })?;
    }
    Ok(lines)
}

/// Returns whether the row holds.
fn is_shown(alloc: Global, row: &Row) -> bool {
    let (pairs, show, text, status, shown) = *row;
    let Ok(lines) = ranges(alloc, pairs) else {
        return false;
    };
    let task = Task {
        work: Work::Part(PartTask { lines, show }),
        style: Style::house(),
        explain: false,
    };
    answer_to_task(alloc, &task, text.as_bytes()).is(status, shown)
}

#[test]
fn shows_lines_formatted(rt: HostRuntime) {
    for row in &ROWS {
        assert!(rt; is_shown(rt.alloc(), row), "{}", row.4);
    }
}

const FILE: &str = "a.yaml";

/// Returns whether the file has the new text after some of its lines were formatted, and nothing is at the name of the
/// new file.
fn is_written(alloc: Global, range: LineRange, new_text: &str) -> bool {
    let mut files = MemoryFiles::new(alloc, usize::MAX);
    if files.make(FILE).is_err() || files.write(THREE.as_bytes()).is_err() {
        return false;
    }
    let style = Style::house();
    let lines = [range];
    let asked = GuardedText {
        any_text: false,
        new_text: NewText::Part(&style, &lines),
    };
    let rewritten = rewrite_in(alloc, &mut files, FILE, &asked);
    let now = files.at_moment(files.moment());
    rewritten.is_ok()
        && files.found(FILE, now.changes, now.contents) == Some(new_text.as_bytes())
        && files.found("a.yaml.yamlfmt-new", now.changes, now.contents) == None
}

#[test]
fn writes_lines_formatted(rt: HostRuntime) {
    let fourth = LineRange { first: 4, last: 4 };
    let fifth = LineRange { first: 5, last: 5 };
    assert!(rt; is_written(rt.alloc(), fourth, "---\na:  1\nb: 2\nc: 3\nd: 4\ne:  5\n"));
    assert!(rt; is_written(rt.alloc(), fifth, THREE));
}

/// Command lines, and the results of the whole program.
static ANSWERS: [AnswerRow; 11] = [
    ("fmt --lines 1", 0, "---\n- \"a\"\n", "", "- ", BEFORE),
    ("fmt --lines 2", 0, "- 'a'\n", "", "- ", BEFORE),
    (
        "fmt --lines 1 --write b.yaml",
        0,
        "",
        "",
        "",
        "---\n- \"a\"\n",
    ),
    ("fmt --lines 2 --write b.yaml", 0, "", "", "", BEFORE),
    (
        "fmt --lines 1 --write none.yaml",
        3,
        "",
        "read failed\n",
        "",
        BEFORE,
    ),
    (
        "fmt --lines 2 --check a.yaml",
        1,
        "2:8 not formatted\n",
        "",
        "a.yaml ",
        BEFORE,
    ),
    ("fmt --lines 1 --check a.yaml", 0, "", "", "a.yaml ", BEFORE),
    (
        "fmt --lines 2 --diff a.yaml",
        1,
        "--- a.yaml\n+++ a.yaml\n@@ -1,2 +1,2 @@\n ---\n-a: \"x\" # c\n+a: \"x\"  # c\n",
        "",
        "a.yaml ",
        BEFORE,
    ),
    (
        "fmt --lines 1 refused.yaml",
        2,
        "",
        "2:6 refused: unknown-alias\n",
        "refused.yaml ",
        BEFORE,
    ),
    (
        "fmt --lines 1 none.yaml",
        3,
        "",
        "read failed\n",
        "none.yaml ",
        BEFORE,
    ),
    (
        "fmt --lines 1 --config none.toml a.yaml",
        3,
        "",
        "read failed\n",
        "none.toml ",
        BEFORE,
    ),
];

#[test]
fn answers_command_lines_with_lines(rt: HostRuntime) {
    for row in &ANSWERS {
        assert!(rt; answers_line(rt.alloc(), row), "{}", row.0);
    }
}
