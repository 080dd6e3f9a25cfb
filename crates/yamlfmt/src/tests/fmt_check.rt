//! The output of `fmt --check` and `fmt --diff`.

use crate::tests::answers::{Asked, is_run};
use std::alloc::Global;

/// A command, a text, its formatting, and the output for the text.
type Row = (Asked, &'static str, &'static str, &'static str);

static ROWS: [Row; 21] = [
    // texts in which `check` finds nothing (see the table in `check`) and which `fmt` changes
    (
        Asked::FmtCheck,
        "---\na:  b\n",
        "---\na: b\n",
        "2:4 not formatted\n",
    ),
    (
        Asked::FmtCheck,
        "---\na : b\n",
        "---\na: b\n",
        "2:2 not formatted\n",
    ),
    (
        Asked::FmtCheck,
        "---\n-\n  - x\n",
        "---\n- - x\n",
        "2:2 not formatted\n",
    ),
    // a comment line with another indentation
    (
        Asked::FmtCheck,
        "---\na:\n    # c\n  b: 1\n",
        "---\na:\n  # c\n  b: 1\n",
        "3:3 not formatted\n",
    ),
    // a blank line after a key
    (
        Asked::FmtCheck,
        "---\na:\n\n  b: 1\n",
        "---\na:\n  b: 1\n",
        "3:1 not formatted\n",
    ),
    // the formatting is a prefix of the text
    (
        Asked::FmtCheck,
        "---\na\n...\n",
        "---\na\n",
        "3:1 not formatted\n",
    ),
    (
        Asked::FmtCheck,
        "---\n!t &a b\n",
        "---\n&a !t b\n",
        "2:1 not formatted\n",
    ),
    (
        Asked::FmtCheck,
        "---\n&a\n!t b\n",
        "---\n&a !t b\n",
        "2:3 not formatted\n",
    ),
    (
        Asked::FmtCheck,
        "---\na: |2\n  b\n",
        "---\na: |\n  b\n",
        "2:5 not formatted\n",
    ),
    (
        Asked::FmtCheck,
        "---\n\"\\x41\"\n",
        "---\n\"A\"\n",
        "2:2 not formatted\n",
    ),
    // a scalar over two lines
    (
        Asked::FmtCheck,
        "---\na\nb\n",
        "---\na b\n",
        "2:2 not formatted\n",
    ),
    (
        Asked::FmtCheck,
        "%YAML  1.2\n---\na\n",
        "%YAML 1.2\n---\na\n",
        "1:7 not formatted\n",
    ),
    // columns count characters
    (
        Asked::FmtCheck,
        "---\n\u{E4}:  b\n",
        "---\n\u{E4}: b\n",
        "2:4 not formatted\n",
    ),
    // texts in which `check` also finds something
    // the text is a prefix of its formatting
    (Asked::FmtCheck, "---\na", "---\na\n", "2:2 not formatted\n"),
    (Asked::FmtCheck, "a\n", "---\na\n", "1:1 not formatted\n"),
    // a byte order mark has the column of the character after it
    (
        Asked::FmtCheck,
        "\u{FEFF}---\na\n",
        "---\na\n",
        "1:1 not formatted\n",
    ),
    (
        Asked::FmtCheck,
        "---\r\na\r\n",
        "---\na\n",
        "1:4 not formatted\n",
    ),
    // diffs
    // two hunks
    (
        Asked::FmtDiff,
        "---\na:  1\nb: 2\nc: 3\nd: 4\ne: 5\nf: 6\ng: 7\nh: 8\ni:  9\n",
        "---\na: 1\nb: 2\nc: 3\nd: 4\ne: 5\nf: 6\ng: 7\nh: 8\ni: 9\n",
        "--- -
+++ -
@@ -1,5 +1,5 @@
 ---
-a:  1
+a: 1
 b: 2
 c: 3
 d: 4
@@ -7,4 +7,4 @@
 f: 6
 g: 7
 h: 8
-i:  9
+i: 9
",
    ),
    // fewer lines
    (
        Asked::FmtDiff,
        "---\na\nb\n",
        "---\na b\n",
        "--- -\n+++ -\n@@ -1,3 +1,2 @@\n ---\n-a\n-b\n+a b\n",
    ),
    // another line break, and none
    (
        Asked::FmtDiff,
        "- a\r\n- b",
        "---\n- a\n- b\n",
        "--- -\n+++ -\n@@ -1,2 +1,3 @@\n-- a\r\n-- b\n\\ No newline at end of file\n+---\n+- a\n+- b\n",
    ),
    (
        Asked::FmtDiff,
        "---\na",
        "---\na\n",
        "--- -\n+++ -\n@@ -1,2 +1,2 @@\n ---\n-a\n\\ No newline at end of file\n+a\n",
    ),
];

/// Returns whether the text has this formatting and this output, and the formatting itself has no output.
fn is_told(alloc: Global, row: &Row) -> bool {
    let (asked, text, formatted, told) = *row;
    is_run(alloc, &(Asked::Fmt, "", text, 0, formatted))
        && is_run(alloc, &(asked, "", text, 1, told))
        && is_run(alloc, &(asked, "", formatted, 0, ""))
}

/// Settings, a text with a hidden character that these settings escape, and the output for the text.
const HIDDEN: (&str, &str, &str) = (
    "invisible = \"escaped\"",
    "---\na: \"\u{200B}\"\n",
    "2:5 not formatted\n",
);

/// A text that is refused, and the message.
const REFUSED: (&str, &str) = ("---\n- a\n- b: *x\n", "3:6 refused: unknown-alias\n");

#[test]
fn tells_what_fmt_changes(rt: HostRuntime) {
    for row in &ROWS {
        assert!(rt; is_told(rt.alloc(), row), "{}", row.1);
    }
    assert!(rt;
        is_run(
            rt.alloc(),
            &(Asked::FmtCheck, HIDDEN.0, HIDDEN.1, 1, HIDDEN.2)
        )
    );
    for asked in [Asked::FmtCheck, Asked::FmtDiff] {
        assert!(rt; is_run(rt.alloc(), &(asked, "", REFUSED.0, 2, REFUSED.1)));
    }
}
