//! Command lines and their expected results.

use crate::tests::explanations::{FINAL_BREAK, HELP, LIST, NO_PAGE, UNKNOWN_ALIAS};
use crate::tests::overview::OVERVIEW;

/// The name of a command.
#[derive(Clone, Copy, PartialEq, Eq)]
pub enum Verb {
    Events,
    Check,
    Fmt,
    /// `fmt --lines`: the tests `lines_option` have its rows.
    Part,
    Server,
}

/// The expected result of a command line.
#[derive(Clone, Copy)]
pub enum Wanted {
    /// A command: the settings file, the file, whether the file is rewritten, whether it is only checked, whether a
    /// diff is printed, and the number of further files.
    Command(Verb, &'static str, &'static str, bool, bool, bool, usize),
    /// Wrong words.
    Wrong,
    /// Wrong words, and the reason.
    Refused(&'static str),
    /// Help, or what `explain` prints: this text.
    Help(&'static str),
    /// The version and the lines about the build.
    Version,
}

/// The command lines and their expected results.
pub static LINES: [(&str, Wanted); 95] = [
    (
        "events",
        Wanted::Command(Verb::Events, "", "", false, false, false, 0),
    ),
    (
        "events a.yaml",
        Wanted::Command(Verb::Events, "", "a.yaml", false, false, false, 0),
    ),
    (
        "check a.yaml",
        Wanted::Command(Verb::Check, "", "a.yaml", false, false, false, 0),
    ),
    (
        "fmt",
        Wanted::Command(Verb::Fmt, "", "", false, false, false, 0),
    ),
    (
        "fmt --check",
        Wanted::Command(Verb::Fmt, "", "", false, true, false, 0),
    ),
    (
        "fmt a.yaml --check",
        Wanted::Command(Verb::Fmt, "", "a.yaml", false, true, false, 0),
    ),
    (
        "fmt --diff",
        Wanted::Command(Verb::Fmt, "", "", false, false, true, 0),
    ),
    (
        "fmt a --check --diff",
        Wanted::Command(Verb::Fmt, "", "a", false, false, true, 0),
    ),
    (
        "fmt --diff a b c",
        Wanted::Command(Verb::Fmt, "", "a", false, false, true, 2),
    ),
    (
        "fmt --diff --check a b",
        Wanted::Command(Verb::Fmt, "", "a", false, false, true, 1),
    ),
    (
        "check a b",
        Wanted::Command(Verb::Check, "", "a", false, false, false, 1),
    ),
    (
        "fmt --check a b c",
        Wanted::Command(Verb::Fmt, "", "a", false, true, false, 2),
    ),
    (
        "fmt a --write b",
        Wanted::Command(Verb::Fmt, "", "a", true, false, false, 1),
    ),
    (
        "fmt --write a.yaml",
        Wanted::Command(Verb::Fmt, "", "a.yaml", true, false, false, 0),
    ),
    (
        "fmt a.yaml --write --config=s.toml",
        Wanted::Command(Verb::Fmt, "s.toml", "a.yaml", true, false, false, 0),
    ),
    (
        "events --config s.toml -- --write",
        Wanted::Command(Verb::Events, "s.toml", "--write", false, false, false, 0),
    ),
    (
        "check --explain - a",
        Wanted::Command(Verb::Check, "", "", false, false, false, 1),
    ),
    (
        "--explain check a",
        Wanted::Command(Verb::Check, "", "a", false, false, false, 0),
    ),
    (
        "--explain fmt --explain --write a",
        Wanted::Command(Verb::Fmt, "", "a", true, false, false, 0),
    ),
    (
        "fmt --write --any-text a",
        Wanted::Command(Verb::Fmt, "", "a", true, false, false, 0),
    ),
    (
        "server",
        Wanted::Command(Verb::Server, "", "", false, false, false, 0),
    ),
    (
        "--explain server --stdio --config s.toml",
        Wanted::Command(Verb::Server, "s.toml", "", false, false, false, 0),
    ),
    (
        "check a --no-config",
        Wanted::Command(Verb::Check, "--no-config", "a", false, false, false, 0),
    ),
    (
        "server --no-config",
        Wanted::Command(Verb::Server, "--no-config", "", false, false, false, 0),
    ),
    (
        "fmt --config s --no-config",
        Wanted::Refused(
            "error: the argument '--config' cannot be used with '--no-config'

Usage: yamlfmt [OPTIONS] <COMMAND>

For more information, try '--help'.
",
        ),
    ),
    ("", Wanted::Wrong),
    ("--no-config events", Wanted::Wrong),
    ("events --no-config --no-config", Wanted::Wrong),
    ("fmt --no-config=s", Wanted::Wrong),
    ("server a.yaml", Wanted::Wrong),
    ("server --explain", Wanted::Wrong),
    ("server --stdio --stdio", Wanted::Wrong),
    ("--explain", Wanted::Wrong),
    ("--explain --explain check a", Wanted::Wrong),
    ("check --explain --explain a", Wanted::Wrong),
    ("--explain a.yaml", Wanted::Wrong),
    ("--any-text check a", Wanted::Wrong),
    ("check --any-text --any-text a", Wanted::Wrong),
    ("server --any-text", Wanted::Wrong),
    ("a.yaml", Wanted::Wrong),
    ("print", Wanted::Wrong),
    ("--config s.toml events", Wanted::Wrong),
    ("events --config", Wanted::Wrong),
    ("events --write a", Wanted::Wrong),
    ("events --version", Wanted::Wrong),
    ("check --write a", Wanted::Wrong),
    ("check --check a", Wanted::Wrong),
    ("events --check a", Wanted::Wrong),
    ("check --diff a", Wanted::Wrong),
    ("events --config s --config t", Wanted::Wrong),
    ("fmt --write -", Wanted::Wrong),
    ("fmt a --write -", Wanted::Wrong),
    ("fmt --write=a a", Wanted::Wrong),
    ("fmt --write --write a", Wanted::Wrong),
    ("fmt -w a", Wanted::Wrong),
    ("fmt --without quoting a", Wanted::Wrong),
    ("events --without quoting a", Wanted::Wrong),
    ("check --without", Wanted::Wrong),
    ("check --without= a", Wanted::Wrong),
    ("check --without quoting, a", Wanted::Wrong),
    ("check --without Quoting a", Wanted::Wrong),
    ("check --without quoting --without quotin a", Wanted::Wrong),
    (
        "check --format json a b",
        Wanted::Command(Verb::Check, "", "a", false, false, false, 1),
    ),
    ("check --format", Wanted::Wrong),
    ("check --format= a", Wanted::Wrong),
    ("check --format JSON a", Wanted::Wrong),
    ("check --format json --format json a", Wanted::Wrong),
    ("fmt --format json a", Wanted::Wrong),
    ("events --format json a", Wanted::Wrong),
    ("--help", Wanted::Help(OVERVIEW)),
    ("help", Wanted::Help(OVERVIEW)),
    (
        "events -h",
        Wanted::Help(
            "Print the events of a YAML stream

Usage: yamlfmt events [OPTIONS] [FILE]

Arguments:
  [FILE]  The file to read; without FILE, or with '-', standard input

Options:
      --config <FILE>      Read the settings from this TOML file
      --no-config          Use the default settings; don't look for a settings file
      --show-settings      Print the settings in force as TOML, and do nothing else
      --explain            Explain errors and findings on standard error
      --any-text           Don't skip encrypted files, templates and plain text over several lines
      --stdin-name <NAME>  Give standard input this name, for messages, excludes and templates
  -h, --help               Print help
",
        ),
    ),
    (
        "check --help",
        Wanted::Help(
            "Report where a file breaks a style rule

Usage: yamlfmt check [OPTIONS] [FILE]...

Arguments:
  [FILE]...  The files to read; without FILE, or for '-', standard input

Options:
      --config <FILE>      Read the settings from this TOML file
      --no-config          Use the default settings; don't look for a settings file
      --show-settings      Print the settings in force as TOML, and do nothing else
      --explain            Explain errors and findings on standard error
      --any-text           Don't skip encrypted files, templates and plain text over several lines
      --stdin-name <NAME>  Give standard input this name, for messages, excludes and templates
      --names              Print the name of the input before each line, also for a single input
      --without <RULES>    Skip the rules with these ids (comma-separated)
      --lines <LINES>      Print only the findings on these lines, for example 3-7,12
      --baseline <FILE>    Leave out the findings that this baseline lists
      --format <FORMAT>    Print the findings as line, full, json, sarif, github, gitlab, junit, checkstyle or baseline
      --statistics         Print the number of findings of each rule
      --max-findings <N>   Print at most N findings
      --color <WHEN>       When --format full has colors: auto, always or never
  -h, --help               Print help
",
        ),
    ),
    (
        "server --help",
        Wanted::Help(
            "Run a language server for an editor

Usage: yamlfmt server [OPTIONS]

Options:
      --config <FILE>  Read the settings from this TOML file
      --no-config      Use the default settings; don't look for a settings file
      --show-settings  Print the settings in force as TOML, and do nothing else
      --stdio          Accepted for editors; changes nothing
  -h, --help           Print help
",
        ),
    ),
    (
        "fmt --write",
        Wanted::Refused(
            "error: the argument '--write' needs a FILE

Usage: yamlfmt fmt [OPTIONS] [FILE]...

For more information, try '--help'.
",
        ),
    ),
    (
        "fmt --write --check a",
        Wanted::Refused(
            "error: the argument '--write' cannot be used with '--check'

Usage: yamlfmt fmt [OPTIONS] [FILE]...

For more information, try '--help'.
",
        ),
    ),
    (
        "fmt --write --diff a",
        Wanted::Refused(
            "error: the argument '--write' cannot be used with '--diff'

Usage: yamlfmt fmt [OPTIONS] [FILE]...

For more information, try '--help'.
",
        ),
    ),
    (
        "fmt a b",
        Wanted::Refused(
            "error: several FILEs are possible only with '--write', '--check' or '--diff'

Usage: yamlfmt fmt [OPTIONS] [FILE]...

For more information, try '--help'.
",
        ),
    ),
    (
        "events a b",
        Wanted::Refused(
            "error: unexpected argument 'b' found

Usage: yamlfmt events [OPTIONS] [FILE]

For more information, try '--help'.
",
        ),
    ),
    (
        "evnts",
        Wanted::Refused(
            "error: unrecognized subcommand 'evnts'

  tip: a similar subcommand exists: 'events'

Usage: yamlfmt [OPTIONS] <COMMAND>

For more information, try '--help'.
",
        ),
    ),
    (
        "events a b\u{1b}[2J\n",
        Wanted::Refused(
            "error: unexpected argument 'b\\x1B[2J\\x0A' found

Usage: yamlfmt events [OPTIONS] [FILE]

For more information, try '--help'.
",
        ),
    ),
    (
        "x\u{9B}y",
        Wanted::Refused(
            "error: unrecognized subcommand 'x\\x9By'

Usage: yamlfmt [OPTIONS] <COMMAND>

For more information, try '--help'.
",
        ),
    ),
    ("explain", Wanted::Help(LIST)),
    ("explain final-break", Wanted::Help(FINAL_BREAK)),
    ("explain -- unknown-alias", Wanted::Help(UNKNOWN_ALIAS)),
    (
        "--explain explain unknown-alias",
        Wanted::Help(UNKNOWN_ALIAS),
    ),
    ("explain Syntax", Wanted::Refused(NO_PAGE)),
    ("explain syntax quoting", Wanted::Wrong),
    ("explain --explain syntax", Wanted::Wrong),
    ("explain --config s.toml syntax", Wanted::Wrong),
    ("explain --no-config", Wanted::Wrong),
    ("explain --show-settings", Wanted::Wrong),
    ("explain --help", Wanted::Help(HELP)),
    ("--version", Wanted::Version),
    ("-V", Wanted::Version),
];
