//! Files in memory, and the results of `fmt`, which judges a text and formats it. Standard input has the text of the
//! first file.

use crate::tests::left_alone_rows::Row;
use yf_host::memory_inputs::Stored;

/// A text with two spaces after its last colon.
const SPACED: Stored = Stored {
    name: "a.yaml",
    bytes: b"---\na: 1\nb:  2\n",
};

/// A text that is its own formatting, but not with the settings after it.
const NESTED: Stored = Stored {
    name: "a.yaml",
    bytes: b"---\na:\n  b: 1\n",
};

const WIDE: Stored = Stored {
    name: ".yamlfmt.toml",
    bytes: b"indent = 4\n",
};

/// The rows, as in `left_alone_rows`.
pub static ROWS: [Row; 9] = [
    (
        &[SPACED],
        "fmt --check a.yaml",
        1,
        "3:4 not formatted\n",
        "",
        "---\na: 1\nb:  2\n",
    ),
    (
        &[SPACED],
        "fmt --diff a.yaml",
        1,
        "--- a.yaml\n+++ a.yaml\n@@ -1,3 +1,3 @@\n ---\n a: 1\n-b:  2\n+b: 2\n",
        "",
        "---\na: 1\nb:  2\n",
    ),
    (
        &[SPACED],
        "fmt --write a.yaml",
        0,
        "",
        "",
        "---\na: 1\nb: 2\n",
    ),
    (
        &[SPACED],
        "fmt --stdin-name b.yaml",
        0,
        "---\na: 1\nb: 2\n",
        "",
        "---\na: 1\nb:  2\n",
    ),
    (
        &[NESTED],
        "fmt --check a.yaml",
        0,
        "",
        "",
        "---\na:\n  b: 1\n",
    ),
    (
        &[NESTED, WIDE],
        "fmt --check a.yaml",
        1,
        "3:3 not formatted\n",
        "",
        "---\na:\n  b: 1\n",
    ),
    (
        &[NESTED, WIDE],
        "fmt --diff a.yaml",
        1,
        "--- a.yaml\n+++ a.yaml\n@@ -1,3 +1,3 @@\n ---\n a:\n-  b: 1\n+    b: 1\n",
        "",
        "---\na:\n  b: 1\n",
    ),
    (
        &[NESTED, WIDE],
        "fmt --write a.yaml",
        0,
        "",
        "",
        "---\na:\n    b: 1\n",
    ),
    (
        &[NESTED, WIDE],
        "fmt --stdin-name b.yaml",
        0,
        "---\na:\n    b: 1\n",
        "",
        "---\na:\n  b: 1\n",
    ),
];
