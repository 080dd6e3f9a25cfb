//! What `yamlfmt --help` prints.

pub const OVERVIEW: &str =
    "Formats YAML in one house style, checks its style, prints its events and serves editors

Usage: yamlfmt [OPTIONS] <COMMAND>

Commands:
  events   Print the events of a YAML stream
  check    Report where a file breaks a style rule
  fmt      Format YAML in the house style
  server   Run a language server for an editor
  explain  Explain a rule or a refusal; without NAME, list all
  help     Print this message or the help of the given subcommand(s)

Options:
      --explain  Explain errors and findings on standard error
  -h, --help     Print help
  -V, --version  Print version
";
