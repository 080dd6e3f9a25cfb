//! What `yamlfmt explain` prints.

/// Two pages.
pub const FINAL_BREAK: &str = "# final-break

A text without a line break at its end.

Tools that join or read files by lines expect one.

Wrong:

    ---
    name: web<end of the file>

Right:

    ---
    name: web

`yamlfmt fmt` fixes it.
";

pub const UNKNOWN_ALIAS: &str = "# unknown-alias

An alias `*x` has no anchor `&x` before it in its document.

Write the anchor before the alias, correct the name, or quote a text that begins with `*`.
";

/// The list of all pages.
pub const LIST: &str = "trailing-blanks: White space at the end of a line.
indentation: A block collection, or the content of a block scalar, that is not at its column.
quoting: A scalar in another style than the house style's.
document-start: A document without `---` on a line of its own.
final-break: A text without a line break at its end.
line-breaks: The first line break that is not a line feed.
byte-order-mark: A byte order mark (U+FEFF) outside scalars.
blank-lines: A blank line too many.
flow-layout: A collection in brackets that is not written as the house style writes it.
comment-space: A comment after other text without exactly two spaces before it.
line-length: A line with more columns than `max_line`.
repeated-keys: A key that its mapping already has.
key-mark: A `?` before a key that doesn't need one.
hidden-character: A character that people don't see, or take for another one.
not-utf8: The input is not UTF-8 from this byte on.
syntax: The text is not YAML 1.2.2 from this position on.
too-deep: More than 1,024 collections are open at once.
unknown-handle: A tag such as `!e!x` has a handle that its document doesn't declare.
unknown-alias: An alias `*x` has no anchor `&x` before it in its document.
repeated-directive: A document has a second `%YAML` line, or a second `%TAG` line for one handle.
bad-version: A `%YAML` line has another major version than 1.
escape-value: An escape in double quotes has a number that is not that of a character, for example `\\uD800`.
read-failed: A file can't be opened or read, or it has more than 1 GiB.
write-failed: The output or a file can't be written.
no-memory: Memory was refused, or the formatting would have more than 1 GiB.
config: A settings file is not TOML, or one of its keys is unknown or has a wrong value.
not-formatted: A text that `fmt` would change.
no-data: A document is only plain text over several lines.
template: The text contains a template such as `{{ x }}`.
encrypted: The text begins with `$ANSIBLE_VAULT;`, so Ansible Vault has encrypted it.
";

/// The refusal of the name `Syntax`.
pub const NO_PAGE: &str = concat!(
    "error: invalid value 'Syntax' for '[NAME]'\n",
    "  [possible values: trailing-blanks, indentation, quoting, document-start, final-break, line-breaks, ",
    "byte-order-mark, blank-lines, flow-layout, comment-space, line-length, repeated-keys, key-mark, ",
    "hidden-character, not-utf8, syntax, too-deep, unknown-handle, unknown-alias, repeated-directive, ",
    "bad-version, escape-value, read-failed, write-failed, no-memory, config, not-formatted, no-data, template, ",
    "encrypted]\n\n",
    "For more information, try '--help'.\n",
);

/// The help of `explain`.
pub const HELP: &str = "Explain a rule or a refusal; without NAME, list all

Usage: yamlfmt explain [NAME]

Arguments:
  [NAME]  The name of a rule or of a refusal, such as quoting or read-failed

Options:
  -h, --help  Print help
";
