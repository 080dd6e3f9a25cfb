//! The pages on the refusals, on texts that are not formatted, and on the texts that the program skips.

use crate::page::Page;

pub(crate) const NOT_UTF8: Page = Page {
    name: "not-utf8",
    summary: "The input is not UTF-8 from this byte on.",
    text: "Convert the file, for example with `iconv -f latin1 -t utf-8`.\n",
};

pub(crate) const SYNTAX: Page = Page {
    name: "syntax",
    summary: "The text is not YAML 1.2.2 from this position on.",
    text: "`--explain` shows the line and the reason. `docs/TROUBLESHOOTING.md` lists frequent causes.\n",
};

pub(crate) const TOO_DEEP: Page = Page {
    name: "too-deep",
    summary: "More than 1,024 collections are open at once.",
    text: "Files that people write stay far below the limit. Look for a generator that doesn't close its brackets.\n",
};

pub(crate) const UNKNOWN_HANDLE: Page = Page {
    name: "unknown-handle",
    summary: "A tag such as `!e!x` has a handle that its document doesn't declare.",
    text: concat!(
        "Declare it with a line `%TAG !e! PREFIX` and `---` before the document, or write the tag as\n",
        "`!<PREFIXx>`.\n",
    ),
};

pub(crate) const UNKNOWN_ALIAS: Page = Page {
    name: "unknown-alias",
    summary: "An alias `*x` has no anchor `&x` before it in its document.",
    text: "Write the anchor before the alias, correct the name, or quote a text that begins with `*`.\n",
};

pub(crate) const REPEATED_DIRECTIVE: Page = Page {
    name: "repeated-directive",
    summary: "A document has a second `%YAML` line, or a second `%TAG` line for one handle.",
    text: "Remove one of them.\n",
};

pub(crate) const BAD_VERSION: Page = Page {
    name: "bad-version",
    summary: "A `%YAML` line has another major version than 1.",
    text: "Write `%YAML 1.2`, or remove the line.\n",
};

pub(crate) const ESCAPE_VALUE: Page = Page {
    name: "escape-value",
    summary: "An escape in double quotes has a number that is not that of a character, for example `\\uD800`.",
    text: "Write the character that is meant, or two backslashes for one backslash.\n",
};

pub(crate) const READ_FAILED: Page = Page {
    name: "read-failed",
    summary: "A file can't be opened or read, or it has more than 1 GiB.",
    text: "The line is `read failed`. For a file, `--explain` gives the system's reason.\n",
};

pub(crate) const WRITE_FAILED: Page = Page {
    name: "write-failed",
    summary: "The output or a file can't be written.",
    text: "The line is `write failed`. With `--write` the file is as it was, unless the line says otherwise.\n",
};

pub(crate) const NO_MEMORY: Page = Page {
    name: "no-memory",
    summary: "Memory was refused, or the formatting would have more than 1 GiB.",
    text: "The line is `no memory`. For a single input, nothing was written.\n",
};

pub(crate) const CONFIG: Page = Page {
    name: "config",
    summary: "A settings file is not TOML, or one of its keys is unknown or has a wrong value.",
    text: concat!(
        "The line names the key, if the file is TOML. `--explain` shows its line in the file, and the values that\n",
        "it may have.\n",
    ),
};

pub(crate) const NOT_FORMATTED: Page = Page {
    name: "not-formatted",
    summary: "A text that `fmt` would change.",
    text: concat!(
        "`yamlfmt fmt --check` reports it, at the first position that would change.\n\n",
        "`yamlfmt fmt --diff` prints the changes, and `yamlfmt fmt --write` makes them.\n",
    ),
};

pub(crate) const NO_DATA: Page = Page {
    name: "no-data",
    summary: "A document is only plain text over several lines.",
    text: concat!(
        "In YAML it is one text, and `fmt` would join its lines. Programs that read lines can't use the result.\n",
        "So `fmt --write` skips the file and prints `left alone: no data`.\n\n",
        "Write a long text as a block scalar, exclude the file in the settings, or pass `--any-text`.\n",
        "Settings: `any_text`, `exclude`.\n",
    ),
};

pub(crate) const TEMPLATE: Page = Page {
    name: "template",
    summary: "The text contains a template such as `{{ x }}`.",
    text: concat!(
        "In YAML it is a mapping with a mapping as its key, and `fmt` would write that mapping. So `fmt --write`\n",
        "skips the file and prints `left alone: template`.\n\n",
        "Put quotes around the value (`a: \"{{ x }}\"`), exclude the file in the settings, or pass `--any-text`.\n",
        "Settings: `any_text`, `exclude`.\n",
    ),
};

pub(crate) const ENCRYPTED: Page = Page {
    name: "encrypted",
    summary: "The text begins with `$ANSIBLE_VAULT;`, so Ansible Vault has encrypted it.",
    text: concat!(
        "In YAML it is one text, and `fmt` would join its lines. Ansible could not decrypt the result. So every\n",
        "command skips the file, prints `left alone: encrypted`, and returns 0.\n\n",
        "`--any-text` turns this off.\n",
        "Settings: `any_text`, `exclude`.\n",
    ),
};
