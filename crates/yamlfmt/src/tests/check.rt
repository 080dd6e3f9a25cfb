//! The findings of the checker.

use crate::tests::answers::{Asked, is_run};
use std::alloc::Global;

/// Settings, a text to check, the exit status, and the findings or the reason for the refusal.
type Row = (&'static str, &'static str, u8, &'static str);

static ROWS: [Row; 52] = [
    ("", "- a\n- b\n", 1, "1:1 document-start (fixable)\n"),
    (
        "",
        "foo: &a x\nbar: {*a : y, &b: z}\n",
        1,
        "1:1 document-start (fixable)\n2:6 flow-layout (fixable)\n",
    ),
    (
        "",
        "{\"a\":1,b: [x, # c\n y]}\n",
        1,
        "1:1 document-start (fixable)\n1:1 flow-layout (fixable)\n1:15 comment-space (fixable)\n",
    ),
    (
        "",
        "- |\n x",
        1,
        "1:1 document-start (fixable)\n1:3 indentation (fixable)\n2:3 final-break (fixable)\n",
    ),
    (
        "",
        " ...\n",
        1,
        "1:2 quoting (fixable)\n1:2 document-start (fixable)\n",
    ),
    (
        "",
        "? k\n: v\n",
        1,
        "1:1 document-start (fixable)\n1:1 key-mark (fixable)\n",
    ),
    (
        "",
        "? [a]\n: v\n",
        1,
        "1:1 document-start (fixable)\n1:1 key-mark (fixable)\n",
    ),
    ("", "---\n?\n: v\n", 1, "2:1 key-mark (fixable)\n"),
    (
        "",
        "---\n? k\n: [{? l : 1}]\na:\n  - ? &x z\n    : ? \"o\"\n      : |\n        ? p\n",
        1,
        "2:1 key-mark (fixable)\n3:3 flow-layout (fixable)\n5:5 key-mark (fixable)\n6:7 key-mark (fixable)\n",
    ),
    (
        "",
        "---\n? k\n: 1\n? [a]\n: 2\n? - b\n: 3\n? &x c\n: 4\n? *x\n: 5\n",
        1,
        "2:1 key-mark (fixable)\n4:1 key-mark (fixable)\n8:1 key-mark (fixable)\n10:1 key-mark (fixable)\n",
    ),
    (
        "",
        "# c\n\n\n# d",
        1,
        "3:1 blank-lines (fixable)\n4:4 final-break (fixable)\n",
    ),
    (
        "",
        "a: 1 \na: 2 # c",
        1,
        "1:1 document-start (fixable)\n1:5 trailing-blanks (fixable)\n2:1 repeated-keys\n2:6 comment-space (fixable)\n2:9 final-break (fixable)\n",
    ),
    (
        "",
        "\u{FEFF}a: 'x'  # c \r\nb: |\r\n  y \r\na: 1\r\n",
        1,
        "1:1 document-start (fixable)\n1:1 byte-order-mark (fixable)\n1:4 quoting (fixable)\n1:12 trailing-blanks (fixable)\n1:13 line-breaks (fixable)\n4:1 repeated-keys\n",
    ),
    (
        "",
        "a:\n\n  b: 1\n\n\n  # c\n\n  d: 2\n\n---\n\ne\n",
        1,
        "1:1 document-start (fixable)\n5:1 blank-lines (fixable)\n9:1 blank-lines (fixable)\n11:1 blank-lines (fixable)\n",
    ),
    (
        "",
        "---\na: \"x\"  # c\nb: |\n  y \na: 1\n",
        1,
        "5:1 repeated-keys\n",
    ),
    (
        "",
        "a: 'x' # c",
        1,
        "1:1 document-start (fixable)\n1:4 quoting (fixable)\n1:8 comment-space (fixable)\n1:11 final-break (fixable)\n",
    ),
    ("", "", 0, ""),
    ("", "---\n# c\n", 0, ""),
    ("", "---\n|+\n  a\n\n", 0, ""),
    ("", "---\n- |\n  ---\n\n- b\n", 0, ""),
    ("", "---\na:\n  b: 1\n\n  # c\n\n  d: 2\n---\ne\n", 0, ""),
    ("", "---\n? |\n  x\n: y\n", 0, ""),
    ("", "---\na:\n  - x\n", 0, ""),
    ("", "- *a \n", 2, "1:3 refused: unknown-alias\n"),
    // sequences are at the column of their keys
    (
        "seq_indent = false\n",
        "---\na:\n  - x\n",
        1,
        "3:3 indentation (fixable)\n",
    ),
    ("seq_indent = false\n", "---\na:\n- x\n", 0, ""),
    // a first document without `---` stays as it is
    ("document_start = \"keep\"\n", "# c\na: 1\n", 0, ""),
    ("document_start = \"keep\"\n", "---\na: 1\n", 0, ""),
    ("document_start = \"keep\"\n", "-\n# c\n  b\n", 0, ""),
    (
        "document_start = \"keep\"\n",
        "a\n...\nb\n",
        1,
        "3:1 document-start (fixable)\n",
    ),
    (
        "document_start = \"keep\"\n",
        "--- a\n",
        1,
        "1:1 document-start (fixable)\n",
    ),
    // hidden characters: none is reported, unless the settings escape them
    ("", "---\na: x\u{200B}y  # \u{202E}\n", 0, ""),
    (
        "invisible = \"escaped\"\n",
        "---\na: x\u{200B}y\u{AD}  # \u{202E}\n\"\u{200B}\": 'z'\n",
        1,
        "2:5 hidden-character\n2:7 hidden-character\n2:12 hidden-character\n3:6 quoting (fixable)\n",
    ),
    (
        "invisible = \"escaped\"\nquotes = \"single\"\n",
        "---\na: '\u{2060}'\nb: \"\u{2060}\"\nc: 'd'\n",
        1,
        "2:4 quoting (fixable)\n",
    ),
    // hidden characters in names, block scalars and directives are reported, but not in quoted scalars; a byte order
    // mark is not one of them
    (
        "invisible = \"escaped\"\n",
        "\u{FEFF}%A \u{A0}\n---\n- &\u{E000}a \"\u{200B}\"\n- *\u{E000}a\n- |\n  \u{3164}\n",
        1,
        "1:1 byte-order-mark (fixable)\n1:4 hidden-character\n3:4 hidden-character\n4:4 hidden-character\n6:3 hidden-character\n",
    ),
    // a collection that is too wide because of the escapes of hidden characters
    (
        "invisible = \"escaped\"\nmax_line = 40\n",
        "---\n\"\u{200B}\u{200B}\u{200B}\": [\"\u{200B}\", abcdefg]\n",
        1,
        "2:8 flow-layout (fixable)\n",
    ),
    ("invisible = \"plain\"\n", "---\na: \u{AD}\n", 0, ""),
    // the column of a comment doesn't matter to the rules
    (
        "comments = \"block\"\n",
        "---\na:\n  b: 1\n  # c\nd: 2\n",
        0,
        "",
    ),
    (
        "comments = \"block\"\n",
        "---\na:\n  b: 1\n# c\nd: 2\n",
        0,
        "",
    ),
    // changes of `fmt` that no rule reports
    ("", "---\na:  b\n", 0, ""),
    ("", "---\na : b\n", 0, ""),
    ("", "---\n-\n  - x\n", 0, ""),
    ("", "---\na:\n    # c\n  b: 1\n", 0, ""),
    ("", "---\na:\n\n  b: 1\n", 0, ""),
    ("", "---\na\n...\n", 0, ""),
    ("", "---\n!t &a b\n", 0, ""),
    ("", "---\n&a\n!t b\n", 0, ""),
    ("", "---\na: |2\n  b\n", 0, ""),
    ("", "---\n\"\\x41\"\n", 0, ""),
    ("", "---\na\nb\n", 0, ""),
    ("", "%YAML  1.2\n---\na\n", 0, ""),
    ("", "---\n\u{E4}:  b\n", 0, ""),
];

#[test]
fn finds_faults_of_style(rt: HostRuntime) {
    for row in &ROWS {
        let (settings, input, status, text) = *row;
        assert!(rt;
            is_run(rt.alloc(), &(Asked::Check, settings, input, status, text)),
            "{input}"
        );
    }
}
