//! Lines and positions of texts, worked out by hand.

use std::alloc::{AllocError, Global};
use yf_lines::source_text::Src;
use yf_lines::table::LineTable;

/// A line: its start and end, the start of the next line, the number of spaces at its start, and whether it is
/// forbidden in scalars.
type Line = (usize, usize, usize, usize, bool);

/// A text, its lines, and byte offsets in it with their lines and columns.
type Row = (&'static str, &'static [Line], &'static [[usize; 3]]);

static ROWS: [Row; 12] = [
    ("", &[], &[[0, 1, 1]]),
    (
        "\n\n",
        &[(0, 0, 1, 0, false), (1, 1, 2, 0, false)],
        &[[1, 2, 1]],
    ),
    (
        "a\r\nb",
        &[(0, 1, 3, 0, false), (3, 4, 4, 0, false)],
        &[[0, 1, 1], [2, 1, 3], [3, 2, 1], [4, 2, 2]],
    ),
    ("a\n", &[(0, 1, 2, 0, false)], &[[1, 1, 2], [2, 2, 1]]),
    ("a\r  b\r", &[(0, 1, 2, 0, false), (2, 5, 6, 2, false)], &[]),
    (
        "a\rb\r",
        &[(0, 1, 2, 0, false), (2, 3, 4, 0, false)],
        &[[1, 1, 2], [2, 2, 1], [4, 3, 1]],
    ),
    (" \ta\n  ", &[(0, 3, 4, 1, false), (4, 6, 6, 2, false)], &[]),
    (
        "\u{feff}c\n\u{e9}",
        &[(0, 4, 5, 0, false), (5, 7, 7, 0, false)],
        &[],
    ),
    ("\u{feff}", &[(0, 3, 3, 0, false)], &[[3, 1, 1]]),
    (
        "\u{e9}\u{20ac}x\n  \u{fc}",
        &[(0, 6, 7, 0, false), (7, 11, 11, 2, false)],
        &[[2, 1, 2], [5, 1, 3], [7, 2, 1], [9, 2, 3], [11, 2, 4]],
    ),
    (
        "\u{feff}\u{feff}ab\n\u{feff}c",
        &[(0, 8, 9, 0, false), (9, 13, 13, 0, false)],
        &[
            [0, 1, 1],
            [3, 1, 1],
            [6, 1, 1],
            [8, 1, 3],
            [9, 2, 1],
            [12, 2, 1],
            [13, 2, 2],
        ],
    ),
    (
        "--- a\n---a\n...\n\u{feff}---\n----\n ---\n...\u{a0}\n..",
        &[
            (0, 5, 6, 0, true),
            (6, 10, 11, 0, false),
            (11, 14, 15, 0, true),
            (15, 21, 22, 0, true),
            (22, 26, 27, 0, false),
            (27, 31, 32, 1, false),
            (32, 37, 38, 0, false),
            (38, 40, 40, 0, false),
        ],
        &[],
    ),
];

/// Returns whether a table has these lines.
fn has_lines(table: &LineTable, lines: &[Line]) -> bool {
    if table.len() != lines.len() {
        return false;
    }
    for i in 0..lines.len() {
        let line = table.line(i);
        let found = (
            line.start,
            line.end,
            line.next,
            line.indent,
            table.is_forbidden(i),
        );
        if found != lines[i] {
            return false;
        }
    }
    true
}

/// Returns whether a table has these positions.
fn has_places(table: &LineTable, places: &[[usize; 3]]) -> bool {
    for [offset, line, column] in places {
        if !table.text().is_char_boundary(*offset) {
            return false;
        }
        let place = table.place(*offset);
        if place.line != *line || place.column != *column {
            return false;
        }
    }
    true
}

/// Returns whether the table is the one of the row's text.
fn is_table(table: &LineTable, row: &Row) -> bool {
    let (text, lines, places) = *row;
    table.text() == text && has_lines(table, lines) && has_places(table, places)
}

/// Returns whether a source has the row's text and its table.
fn holds(alloc: Global, row: &Row) -> bool {
    match (&Src::new(alloc, row.0), &LineTable::build(alloc, row.0)) {
        (Ok(src), Ok(table)) => is_table(src.lines(), row) && is_table(table, row),
        _ => false,
    }
}

#[test]
fn finds_lines_and_places(rt: HostRuntime) {
    for row in &ROWS {
        assert!(rt; holds(rt.alloc(), row), "{}", row.0);
    }
}
