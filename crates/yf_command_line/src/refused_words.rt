//! The messages for command lines that the library accepts and this crate refuses.

/// The message for words that name no command.
pub(crate) const NO_COMMAND: &str = "error: a command is missing

Usage: yamlfmt [OPTIONS] <COMMAND>

For more information, try '--help'.
";

/// The message for `--config` with `--no-config`.
pub(crate) const TWO_SETTINGS: &str =
    "error: the argument '--config' cannot be used with '--no-config'

Usage: yamlfmt [OPTIONS] <COMMAND>

For more information, try '--help'.
";

/// The message for `--write` without a file.
pub(crate) const NO_FILE: &str = "error: the argument '--write' needs a FILE

Usage: yamlfmt fmt [OPTIONS] [FILE]...

For more information, try '--help'.
";

/// The message for `--write` with `-` as a file.
pub(crate) const NO_STANDARD_INPUT: &str =
    "error: the argument '--write' cannot be used with '-', which is standard input

Usage: yamlfmt fmt [OPTIONS] [FILE]...

For more information, try '--help'.
";

/// The message for `--write` with `--check`.
pub(crate) const NOTHING_WRITTEN: &str =
    "error: the argument '--write' cannot be used with '--check'

Usage: yamlfmt fmt [OPTIONS] [FILE]...

For more information, try '--help'.
";

/// The message for `--write` with `--diff`.
pub(crate) const NOT_SHOWN: &str = "error: the argument '--write' cannot be used with '--diff'

Usage: yamlfmt fmt [OPTIONS] [FILE]...

For more information, try '--help'.
";

/// The message for several files without `--write`, `--check` and `--diff`.
pub(crate) const SEVERAL_FILES: &str =
    "error: several FILEs are possible only with '--write', '--check' or '--diff'

Usage: yamlfmt fmt [OPTIONS] [FILE]...

For more information, try '--help'.
";

/// The message for `fmt --format` without `--check`, or with `--write`, `--diff` or `--lines`.
pub(crate) const FORMAT_UNCHECKED: &str =
    "error: the argument '--format' needs '--check', without '--write', '--diff' and '--lines'

Usage: yamlfmt fmt [OPTIONS] [FILE]...

For more information, try '--help'.
";

/// The message for several files with `fmt --lines`.
pub(crate) const SEVERAL_PARTS: &str = "error: the argument '--lines' takes one FILE

Usage: yamlfmt fmt [OPTIONS] [FILE]...

For more information, try '--help'.
";

/// The message for several files with `check --lines`.
pub(crate) const SEVERAL_CHECKED: &str = "error: the argument '--lines' takes one FILE

Usage: yamlfmt check [OPTIONS] [FILE]...

For more information, try '--help'.
";

/// The message for `--statistics` with `--format`.
pub(crate) const TWO_OUTPUTS: &str =
    "error: the argument '--statistics' cannot be used with '--format'

Usage: yamlfmt check [OPTIONS] [FILE]...

For more information, try '--help'.
";
