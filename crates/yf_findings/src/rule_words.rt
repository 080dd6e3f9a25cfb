//! The rules as a report describes them.

use yf_report::sarif::Rule;

/// All rules of style, in the order of their numbers.
pub const RULES: [Rule<'static>; 14] = [
    Rule {
        id: "trailing-blanks",
        summary: "A line ends with white space.",
        help: "Remove the white space at the end of the line. `yamlfmt fmt` does.",
    },
    Rule {
        id: "indentation",
        summary: "The entries of a collection, or the lines of a block scalar, are not indented as in the house style.",
        help: "Indent them by the columns that the setting `indent` gives, or let `yamlfmt fmt` do it.",
    },
    Rule {
        id: "quoting",
        summary: "A scalar is not quoted as in the house style.",
        help: "Write the scalar in the style that the setting `quotes` gives, or let `yamlfmt fmt` do it.",
    },
    Rule {
        id: "document-start",
        summary: "A document has no `---` on its own line before it.",
        help: "Begin each document with a line `---`, or let `yamlfmt fmt` do it.",
    },
    Rule {
        id: "final-break",
        summary: "The text doesn't end with a line break.",
        help: "End the last line with a line feed, or let `yamlfmt fmt` do it.",
    },
    Rule {
        id: "line-breaks",
        summary: "A line ends with a carriage return.",
        help: "End each line with a line feed only, or let `yamlfmt fmt` do it.",
    },
    Rule {
        id: "byte-order-mark",
        summary: "A byte order mark is outside of scalars.",
        help: "Remove the byte order mark, or let `yamlfmt fmt` do it.",
    },
    Rule {
        id: "blank-lines",
        summary: "A blank line is in a wrong place.",
        help: "Remove the blank line, or let `yamlfmt fmt` do it.",
    },
    Rule {
        id: "flow-layout",
        summary: "A flow collection is not written as in the house style.",
        help: "Write it on one line with one space after each comma and `:`, or as a block collection if it doesn't fit, or let `yamlfmt fmt` do it.",
    },
    Rule {
        id: "comment-space",
        summary: "A comment after other text doesn't have exactly two spaces before it.",
        help: "Write two spaces before the comment, or let `yamlfmt fmt` do it.",
    },
    Rule {
        id: "line-length",
        summary: "A line is longer than the limit.",
        help: "Use a block scalar, or raise the limit. `yamlfmt fmt` doesn't fix it.",
    },
    Rule {
        id: "repeated-keys",
        summary: "A mapping has a key twice.",
        help: "Remove one of the two entries. `yamlfmt fmt` doesn't fix it.",
    },
    Rule {
        id: "key-mark",
        summary: "A key has a `?` before it that it doesn't need.",
        help: "Write the key without the `?`, or let `yamlfmt fmt` do it.",
    },
    Rule {
        id: "hidden-character",
        summary: "A character is invisible, or easily taken for another one.",
        help: "Remove the character, or write it as an escape between double quotes. `yamlfmt fmt` doesn't fix it.",
    },
];
