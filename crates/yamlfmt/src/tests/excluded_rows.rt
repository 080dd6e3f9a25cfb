//! Files in memory that a settings file excludes, and the results of runs with them.

use crate::tests::in_force_rows::{A, AS_DOUBLE, OTHER, Row};
use yf_host::memory_inputs::Stored;

const NO_PATTERN: Stored = Stored {
    name: ".yamlfmt.toml",
    bytes: b"exclude = []\n",
};

const ALL: Stored = Stored {
    name: ".yamlfmt.toml",
    bytes: b"exclude = [\"*\"]\n",
};

/// Leaves out the files of a folder `d` except one.
const IN_FOLDER: Stored = Stored {
    name: "../.yamlfmt.toml",
    bytes: b"exclude = [\"/d/*.yaml\", \"!keep.yaml\"]\n",
};

const KEPT: Stored = Stored {
    name: "keep.yaml",
    bytes: b"---\na: \"x\" # c\n",
};

/// The line of a file that is left out.
const LEFT_OUT: &str = "left out: the settings exclude it\n";

/// The rows, as in `in_force_rows`.
pub static ROWS: [Row; 16] = [
    // files that are left out
    (&[A, ALL], "/w/d", "fmt a.yaml", 0, "", "", ".yamlfmt.toml "),
    (
        &[A, ALL],
        "/w/d",
        "check --explain a.yaml",
        0,
        "",
        LEFT_OUT,
        ".yamlfmt.toml ",
    ),
    (
        &[A, ALL],
        "/w/d",
        "check --format full a.yaml",
        0,
        "",
        "",
        ".yamlfmt.toml ",
    ),
    (
        &[ALL],
        "/w/d",
        "check --explain none.yaml a.yaml",
        0,
        "",
        "none.yaml: left out: the settings exclude it\na.yaml: left out: the settings exclude it\n",
        ".yamlfmt.toml ",
    ),
    (
        &[ALL],
        "/w/d",
        "fmt --write b.yaml",
        0,
        "",
        "",
        ".yamlfmt.toml ",
    ),
    (
        &[ALL],
        "/w/d",
        "fmt --explain --write b.yaml none.yaml",
        0,
        "",
        "b.yaml: left out: the settings exclude it\nnone.yaml: left out: the settings exclude it\n",
        ".yamlfmt.toml ",
    ),
    (
        &[ALL],
        "/w/d",
        "fmt -",
        0,
        "---\n- \"a\"\n",
        "",
        ".yamlfmt.toml - ",
    ),
    (
        &[A, OTHER],
        "/w/d",
        "fmt --explain --config other.toml a.yaml",
        0,
        "",
        LEFT_OUT,
        "other.toml ",
    ),
    (
        &[A, NO_PATTERN],
        "/w/d",
        "fmt a.yaml",
        0,
        AS_DOUBLE,
        "",
        ".yamlfmt.toml a.yaml ",
    ),
    // paths from the folder of the settings file
    (
        &[A, KEPT, IN_FOLDER],
        "/w/d",
        "check a.yaml keep.yaml",
        1,
        "keep.yaml:2:8 comment-space (fixable)\n",
        "",
        "../.yamlfmt.toml keep.yaml ",
    ),
    (
        &[A, IN_FOLDER],
        "/w/d",
        "check ./a.yaml ../d/../d/a.yaml /w/d/a.yaml",
        0,
        "",
        "",
        "../.yamlfmt.toml ",
    ),
    (
        &[A, IN_FOLDER],
        "/w/e",
        "check a.yaml",
        1,
        "2:8 comment-space (fixable)\n",
        "",
        "../.yamlfmt.toml a.yaml ",
    ),
    (
        &[IN_FOLDER],
        "/w/e",
        "fmt ../d/a.yaml",
        0,
        "",
        "",
        "../.yamlfmt.toml ",
    ),
    // an excluded file is in no report
    (
        &[A, KEPT, IN_FOLDER],
        "/w/d",
        "check --explain --format json a.yaml keep.yaml",
        1,
        "[{\"file\":\"keep.yaml\",\"line\":2,\"column\":8,\"end_line\":2,\"end_column\":9,\"rule\":\"comment-space\",\"severity\":\"warning\",\"message\":\"one space before the comment, expected 2\",\"fixable\":true}]",
        "a.yaml: left out: the settings exclude it\n",
        "../.yamlfmt.toml keep.yaml ",
    ),
    (
        &[A, IN_FOLDER],
        "/w/d",
        "check --explain --format gitlab a.yaml",
        0,
        "[]",
        LEFT_OUT,
        "../.yamlfmt.toml ",
    ),
    (
        &[A, KEPT, IN_FOLDER],
        "/w/d",
        "fmt --check --explain --format json a.yaml keep.yaml",
        1,
        "[{\"file\":\"keep.yaml\",\"line\":2,\"column\":8,\"end_line\":2,\"end_column\":8,\"rule\":\"not-formatted\",\"severity\":\"warning\",\"message\":\"not formatted\",\"fixable\":true}]",
        "a.yaml: left out: the settings exclude it\n",
        "../.yamlfmt.toml keep.yaml ",
    ),
];
