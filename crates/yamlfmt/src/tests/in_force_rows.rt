//! Settings files and files in memory, and the results of runs with them.

use crate::tests::explanations::UNKNOWN_ALIAS;
use yf_host::memory_inputs::Stored;

/// A file to format and to check.
pub const A: Stored = Stored {
    name: "a.yaml",
    bytes: b"---\na: \"x\" # c\n",
};

/// Settings with another style, beside the file, in the folder above it, and two folders above it.
const SINGLE: Stored = Stored {
    name: ".yamlfmt.toml",
    bytes: b"quotes = \"single\"\n",
};

const SINGLE_ABOVE: Stored = Stored {
    name: "../.yamlfmt.toml",
    bytes: b"quotes = \"single\"\n",
};

const SINGLE_HIGH: Stored = Stored {
    name: "../../.yamlfmt.toml",
    bytes: b"quotes = \"single\"\n",
};

const DOUBLE_ABOVE: Stored = Stored {
    name: "../.yamlfmt.toml",
    bytes: b"quotes = \"double\"\n",
};

/// The mark of a work tree, beside the file and in the folder above it.
const GIT: Stored = Stored {
    name: ".git",
    bytes: b"gitdir: ../.git/worktrees/w\n",
};

const GIT_ABOVE: Stored = Stored {
    name: "../.git",
    bytes: b"",
};

pub const OTHER: Stored = Stored {
    name: "other.toml",
    bytes: b"quotes = \"single\"\nexclude = [\"*.yaml\"]\n",
};

const FAULTY: Stored = Stored {
    name: ".yamlfmt.toml",
    bytes: b"indent = 9\n",
};

const FAULTY_ABOVE: Stored = Stored {
    name: "../.yamlfmt.toml",
    bytes: b"\xFF",
};

const BAD_PATTERN: Stored = Stored {
    name: ".yamlfmt.toml",
    bytes: b"exclude = [\"a\", \"[\"]\n",
};

const LATER: Stored = Stored {
    name: ".yamlfmt.toml",
    bytes: b"required_version = \">=0.3, <0.4\"\n",
};

const THIS: Stored = Stored {
    name: ".yamlfmt.toml",
    bytes: b"required_version = \">=0.2, <0.3\"\n",
};

/// The files, the path of the current folder, a command line, the exit status, the texts of the two streams, and the
/// inputs that were opened.
pub type Row = (
    &'static [Stored],
    &'static str,
    &'static str,
    u8,
    &'static str,
    &'static str,
    &'static str,
);

/// The file `a.yaml` in both styles.
pub const AS_DOUBLE: &str = "---\na: \"x\"  # c\n";

const AS_SINGLE: &str = "---\na: 'x'  # c\n";

pub static ROWS: [Row; 25] = [
    // which settings file is in force
    (&[A], "/w/d", "fmt a.yaml", 0, AS_DOUBLE, "", "a.yaml "),
    (
        &[A, SINGLE],
        "/w/d",
        "fmt a.yaml",
        0,
        AS_SINGLE,
        "",
        ".yamlfmt.toml a.yaml ",
    ),
    (
        &[A, SINGLE_ABOVE],
        "/w/d",
        "fmt a.yaml",
        0,
        AS_SINGLE,
        "",
        "../.yamlfmt.toml a.yaml ",
    ),
    (
        &[A, SINGLE_HIGH, DOUBLE_ABOVE],
        "/w/d",
        "fmt a.yaml",
        0,
        AS_DOUBLE,
        "",
        "../.yamlfmt.toml a.yaml ",
    ),
    (
        &[A, SINGLE_HIGH, GIT_ABOVE],
        "/w/d",
        "fmt a.yaml",
        0,
        AS_DOUBLE,
        "",
        "a.yaml ",
    ),
    (
        &[A, SINGLE_ABOVE, GIT],
        "/w/d",
        "fmt a.yaml",
        0,
        AS_DOUBLE,
        "",
        "a.yaml ",
    ),
    // no folder is above the root
    (
        &[A, SINGLE_ABOVE],
        "/",
        "fmt a.yaml",
        0,
        AS_DOUBLE,
        "",
        "a.yaml ",
    ),
    (
        &[A],
        "/..",
        "fmt a.yaml",
        3,
        "",
        "can't look for a settings file: the path of the current folder is unknown\n",
        "",
    ),
    (
        &[A],
        "/..",
        "fmt --no-config a.yaml",
        0,
        AS_DOUBLE,
        "",
        "a.yaml ",
    ),
    // standard input, and the command line
    (
        &[SINGLE],
        "/w/d",
        "fmt",
        0,
        "---\n- 'a'\n",
        "",
        ".yamlfmt.toml - ",
    ),
    (
        &[A, SINGLE],
        "/w/d",
        "fmt a.yaml --no-config",
        0,
        AS_DOUBLE,
        "",
        "a.yaml ",
    ),
    (
        &[A, SINGLE, DOUBLE_ABOVE],
        "/w/d",
        "fmt --config ../.yamlfmt.toml a.yaml",
        0,
        AS_DOUBLE,
        "",
        "../.yamlfmt.toml a.yaml ",
    ),
    // faults, which are reported before anything else is opened
    (
        &[A, FAULTY],
        "/w/d",
        "fmt a.yaml",
        3,
        "",
        ".yamlfmt.toml: config: indent\n",
        ".yamlfmt.toml ",
    ),
    (
        &[A, FAULTY],
        "/w/d",
        "check --explain a.yaml",
        3,
        "",
        ".yamlfmt.toml: config: indent\n  1:1: `indent` is a whole number from 2 to 8\n  | indent = 9\n  | ^\n",
        ".yamlfmt.toml ",
    ),
    (
        &[FAULTY],
        "/w/d",
        "server",
        3,
        "",
        ".yamlfmt.toml: config: indent\n",
        ".yamlfmt.toml ",
    ),
    (
        &[A, FAULTY_ABOVE],
        "/w/d",
        "fmt --write b.yaml",
        3,
        "",
        "../.yamlfmt.toml: config: \n",
        "../.yamlfmt.toml ",
    ),
    (
        &[A, FAULTY],
        "/w/d",
        "fmt --config .yamlfmt.toml a.yaml",
        3,
        "",
        "config: indent\n",
        ".yamlfmt.toml ",
    ),
    (
        &[A, BAD_PATTERN],
        "/w/d",
        "fmt a.yaml",
        3,
        "",
        ".yamlfmt.toml: config: exclude\n",
        ".yamlfmt.toml ",
    ),
    // versions
    (
        &[A, LATER],
        "/w/d",
        "fmt a.yaml",
        3,
        "",
        "required_version: the settings require yamlfmt >=0.3, <0.4, and this is 0.2.0\n",
        ".yamlfmt.toml ",
    ),
    (
        &[A, THIS],
        "/w/d",
        "fmt a.yaml",
        0,
        AS_DOUBLE,
        "",
        ".yamlfmt.toml a.yaml ",
    ),
    // the settings are shown
    (
        &[OTHER],
        "/w/d",
        "check --show-settings --config other.toml a.yaml",
        0,
        "# other.toml\ncomments = \"next\"\ndocument_start = \"always\"\nexclude = [\"*.yaml\"]\nindent = 2\ninvisible = \"plain\"\nmax_line = 100\nquotes = \"single\"\nseq_indent = true\n",
        "",
        "other.toml ",
    ),
    (
        &[THIS],
        "/w/d",
        "fmt --show-settings",
        0,
        "# .yamlfmt.toml\ncomments = \"next\"\ndocument_start = \"always\"\nindent = 2\ninvisible = \"plain\"\nmax_line = 100\nquotes = \"double\"\nrequired_version = \">=0.2, <0.3\"\nseq_indent = true\n",
        "",
        ".yamlfmt.toml ",
    ),
    (
        &[SINGLE],
        "/w/d",
        "events --no-config --show-settings a.yaml",
        0,
        "# no settings file\ncomments = \"next\"\ndocument_start = \"always\"\nindent = 2\ninvisible = \"plain\"\nmax_line = 100\nquotes = \"double\"\nseq_indent = true\n",
        "",
        "",
    ),
    (
        &[FAULTY],
        "/w/d",
        "server --show-settings",
        3,
        "",
        ".yamlfmt.toml: config: indent\n",
        ".yamlfmt.toml ",
    ),
    // `explain` reads no settings
    (
        &[FAULTY],
        "/w/d",
        "explain unknown-alias",
        0,
        UNKNOWN_ALIAS,
        "",
        "",
    ),
];
