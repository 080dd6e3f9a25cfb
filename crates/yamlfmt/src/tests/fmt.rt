//! The output of the formatter.

use crate::tests::answers::{Asked, is_run};

/// Settings, a text, and its formatting. `laws` tests that a second run changes nothing.
pub static FORMATTED: [(&str, &str, &str); 76] = [
    // sequences, documents, directives and markers:
    // a sequence
    ("", "- a\n- b\n", "---\n- a\n- b\n"),
    // an empty stream
    ("", "", ""),
    // an empty document
    ("", "---\n# c\n", "---\n# c\n"),
    // a root that looks like a marker
    ("", " ...\n", "---\n\"...\"\n"),
    // a tag and its directive
    (
        "",
        "%TAG !e! tag:e.com,2000:\n---\n!e!t%21 v\n",
        "%TAG !e! tag:e.com,2000:\n---\n!e!t%21 v\n",
    ),
    // a byte order mark and carriage returns
    (
        "",
        "\u{FEFF}a: 'x'  # c \r\nb: |\r\n  y \r\na: 1\r\n",
        "---\na: \"x\"  # c\nb: |\n  y \na: 1\n",
    ),
    // a later document with directives
    (
        "",
        "a\n...\n# c\n%YAML 1.1\n--- b\n",
        "---\na\n# c\n...\n%YAML 1.1\n---\nb\n",
    ),
    // a marker in a literal
    ("", "---\n- |\n  ---\n\n- b\n", "---\n- |\n  ---\n\n- b\n"),
    // sequences right of their key
    (
        "",
        "a:\n  - x\n  - b:\n      - y\n",
        "---\na:\n  - x\n  - b:\n      - y\n",
    ),
    // keys, flow collections and scalars:
    // an explicit key
    ("", "? k\n: v\n", "---\nk: v\n"),
    // aliases and properties as keys
    (
        "",
        "foo: &a x\nbar: {*a : y, &b: z}\n",
        "---\nfoo: &a x\nbar:\n  *a : y\n  &b: z:\n",
    ),
    // a flow collection over several lines
    ("", "key: [\n  1\n ]\n", "---\nkey: [1]\n"),
    // a kept tail
    ("", "--- |+\n a\n\n", "---\n|+\n  a\n\n"),
    // no final line feed
    ("", "- |\n x", "---\n- |-\n  x\n"),
    // keys that are not steady
    (
        "",
        "-: a\na:: b\nc: 12\n",
        "---\n\"-\": a\n\"a:\": b\nc: 12\n",
    ),
    // escapes
    ("", "\"\\ud83d\\ude00 \\x41\"\n", "---\n\"\u{1F600} A\"\n"),
    // keys written with `?`
    (
        "",
        "? [a, {b: }]\n: - c\n  - d\n? |\n  x\n: y\n",
        "---\n? - a\n  - b:\n: - c\n  - d\n? |\n  x\n: y\n",
    ),
    // quotes
    ("", "- 'it''s'\n- \"\\r\"\n", "---\n- \"it's\"\n- \"\\r\"\n"),
    // block scalars
    (
        "",
        "- |2\n    x\n\n- >\n a\n b\n\n   c\n- |\n\n",
        "---\n- |2\n    x\n\n- >\n  a\n  b\n\n    c\n- \"\"\n",
    ),
    // a single pair
    ("", "[a: b, c]\n", "---\n[{a: b}, c]\n"),
    // a byte order mark in quotes
    ("", "\"a\\uFEFFb\"\n", "---\n\"a\\uFEFFb\"\n"),
    // a byte order mark itself in quotes
    ("", "\"a\u{FEFF}b\"\n", "---\n\"a\\uFEFFb\"\n"),
    // a flow collection as an explicit key
    ("", "? [a]\n: v\n", "---\n[a]: v\n"),
    // an empty explicit key
    ("", "---\n?\n: v\n", "---\n: v\n"),
    // characters that are escaped
    (
        "",
        "\"\\0\\t\\r\\a\\_\\L\\uFEFF\\\"\\\\\u{E9}\"\n",
        "---\n\"\\0\\t\\r\\x07\\xA0\\u2028\\uFEFF\\\"\\\\\u{E9}\"\n",
    ),
    // comments and blank lines:
    // only comments
    ("", "# c\n\n\n# d", "# c\n\n# d\n"),
    // a comment between brackets
    (
        "",
        "{\"a\":1,b: [x, # c\n y]}\n",
        "---\n\"a\": 1\nb:\n  - x  # c\n  - y\n",
    ),
    // a comment after properties
    (
        "",
        "- &x # c\n\n  # d\n  |+\n  a\n\n",
        "---\n- &x |+  # c\n  a\n\n# d\n",
    ),
    // a comment after an explicit key
    ("", "? a # c\nb: 1\n", "---\na:  # c\nb: 1\n"),
    // a comment after an implicit key
    (
        "",
        "- &x\n  # c\n  k: # d\n    v\n",
        "---\n- &x\n  # c\n  k:  # d\n    v\n",
    ),
    // comments of a root in brackets
    (
        "",
        "[a, # c\n # d\n b, {k: # e\n v}] # f\n",
        "---\n- a  # c\n# d\n- b\n- k:  # e\n    v  # f\n",
    ),
    // blank lines
    (
        "",
        "a:\n\n  b: 1\n\n\n  # c\n\n  d: 2\n\n---\n\ne\n",
        "---\na:\n  b: 1\n\n  # c\n\n  d: 2\n---\ne\n",
    ),
    // a comment after a directive
    ("", "%FOO a # c\n---\nx\n", "# c\n%FOO a\n---\nx\n"),
    // a comment in an empty collection
    ("", "[ # c\n]\n", "---\n[]  # c\n"),
    // a comment after an empty key
    ("", "{a: x, : # c\n v}\n", "---\na: x\n:  # c\n  v\n"),
    // a collection that is broken because of its comment
    (
        "",
        "a: ['x', # c\n y]\n",
        "---\na:\n  - \"x\"  # c\n  - y\n",
    ),
    // a comment in a header
    ("", "- |  # c\n a\n", "---\n- |  # c\n  a\n"),
    // a comment after the tail of a scalar
    ("", "- |-\n x\n\n# c\n- y\n", "---\n- |-\n  x\n\n# c\n- y\n"),
    // other settings:
    // a root that looks like a marker, in single quotes
    ("quotes = \"single\"", " ...\n", "---\n'...'\n"),
    // steps of four
    (
        "indent = 4",
        "a: [1, {b: }]\nc:\n- - x\n  - y\n",
        "---\na:\n    -   1\n    -   b:\nc:\n    -   -   x\n        -   y\n",
    ),
    // single quotes
    (
        "quotes = \"single\"",
        "- 'it''s'\n- \"\\r\"\n",
        "---\n- 'it''s'\n- \"\\r\"\n",
    ),
    // a bracket at the last column
    (
        "max_line = 40",
        "k: [aaaaaaaaaaaaaaaaaaaaaaaaaaaaaaaaaaa]\n",
        "---\nk: [aaaaaaaaaaaaaaaaaaaaaaaaaaaaaaaaaaa]\n",
    ),
    // a bracket after the last column
    (
        "max_line = 40",
        "k: [aaaaaaaaaaaaaaaaaaaaaaaaaaaaaaaaaaaa]\n",
        "---\nk:\n  - aaaaaaaaaaaaaaaaaaaaaaaaaaaaaaaaaaaa\n",
    ),
    // brackets below their key
    (
        "max_line = 40",
        "k:\n [aaaaaaaaaaaaaaaaaaaaaaaaaaaaaaaaaaaa]\n",
        "---\nk:\n  - aaaaaaaaaaaaaaaaaaaaaaaaaaaaaaaaaaaa\n",
    ),
    // sequences at their key
    (
        "seq_indent = false",
        "a:\n  - x\n  - b:\n      - y\n",
        "---\na:\n- x\n- b:\n  - y\n",
    ),
    // a tagged sequence at its key
    (
        "seq_indent = false",
        "a: !!seq\n  - x\n",
        "---\na: !!seq\n- x\n",
    ),
    // a broken sequence at its key
    (
        "seq_indent = false",
        "a: [x, # c\n y]\n",
        "---\na:\n- x  # c\n- y\n",
    ),
    // a sequence in a sequence
    ("seq_indent = false", "- - x\n", "---\n- - x\n"),
    // a break in quotes
    (
        "quotes = \"single\"",
        "- \"it's\\n\"\n",
        "---\n- \"it's\\n\"\n",
    ),
    // a first document stays without `---`
    ("document_start = \"keep\"", "a: 1\n", "a: 1\n"),
    // with a comment before it, and properties
    (
        "document_start = \"keep\"",
        "\n# c\n\n\n&x\na: 1\n\n# d\n\nb: 2\n",
        "# c\n&x\na: 1\n\n# d\n\nb: 2\n",
    ),
    // a blank line between a comment and its first entry
    (
        "document_start = \"keep\"",
        "# c\n\n\na: 1\n",
        "# c\n\na: 1\n",
    ),
    // a byte order mark and white space before a document without a marker
    (
        "document_start = \"keep\"",
        "...\n\u{FEFF} ...\n",
        "\"...\"\n",
    ),
    // only a block scalar with a kept tail, and a second document
    (
        "document_start = \"keep\"",
        "|+\n  a\n\n...\n# c\nb\n",
        "|+\n  a\n\n# c\n---\nb\n",
    ),
    // a document with `---` keeps it
    ("document_start = \"keep\"", "# c\n--- a\n", "# c\n---\na\n"),
    // a document with directives keeps it
    (
        "document_start = \"keep\"",
        "%YAML 1.2\n---\na\n...\nb\n",
        "%YAML 1.2\n---\na\n---\nb\n",
    ),
    // a comment that would leave the document
    (
        "document_start = \"keep\"",
        "- # c\n  b\n",
        "---\n# c\n- b\n",
    ),
    // a comment that would leave the document, after properties, in brackets, and with no leaf
    (
        "document_start = \"keep\"",
        "&x\n# c\na: 1\n",
        "---\n&x\n# c\na: 1\n",
    ),
    (
        "document_start = \"keep\"",
        "- [ # c\n  a, b]\n",
        "---\n# c\n- - a\n  - b\n",
    ),
    (
        "document_start = \"keep\"",
        "-\n# c\n---\nb\n",
        "---\n-\n# c\n---\nb\n",
    ),
    // a comment of the second document
    (
        "document_start = \"keep\"",
        "-\n--- # c\nb\n",
        "-\n---\n# c\nb\n",
    ),
    // a stream of comments, and an empty one
    ("document_start = \"keep\"", "# c\n", "# c\n"),
    ("document_start = \"keep\"", "", ""),
    // with steps of four, and with sequences at their keys
    (
        "document_start = \"keep\"\nindent = 4",
        "# c\na:\n- b: |\n    c\n",
        "# c\na:\n    -   b: |\n            c\n",
    ),
    (
        "document_start = \"keep\"\nindent = 4\nseq_indent = false",
        "# c\na:\n- b: |\n    c\n",
        "# c\na:\n-   b: |\n        c\n",
    ),
    (
        "document_start = \"keep\"\nseq_indent = false",
        "a: [b, # c\n  d]\n...\n# e\n- f\n",
        "a:\n- b  # c\n- d\n# e\n---\n- f\n",
    ),
    // hidden characters in quotes are escaped
    (
        "invisible = \"escaped\"",
        "a: \"x\u{200B}y\"\nb: 'x\u{202E}y'\nc: \"\u{E9}\"\n",
        "---\na: \"x\\u200By\"\nb: \"x\\u202Ey\"\nc: \"\u{E9}\"\n",
    ),
    // in double quotes, whichever are preferred
    (
        "invisible = \"escaped\"\nquotes = \"single\"",
        "a: \"x\u{202E}y\"\nb: \"z\"\nc: '\u{AD}'\n",
        "---\na: \"x\\u202Ey\"\nb: 'z'\nc: \"\\u00AD\"\n",
    ),
    // the hidden characters, and how each is written
    (
        "invisible = \"escaped\"",
        "a: \"\u{AD}\u{2003}\u{E000}\u{E0041}\u{A0}\u{85}\u{2028}\u{2007}\u{FEFF}\u{FE0F}\u{FFFE}\"\n",
        "---\na: \"\\u00AD\u{2003}\\uE000\\U000E0041\\xA0\\x85\\u2028\\u2007\\uFEFF\\uFE0F\\uFFFE\"\n",
    ),
    // the ends of the set, and the characters next to it
    (
        "invisible = \"escaped\"",
        "\"\u{84}\u{85}\u{86}\u{9F}\u{A0}\u{A1}\u{AC}\u{AD}\u{AE}\u{34E}\u{34F}\u{350}\u{61B}\u{61C}\u{61D}\u{115E}\u{115F}\u{1160}\u{1161}\u{17B3}\u{17B4}\u{17B5}\u{17B6}\u{180A}\u{180B}\u{180F}\u{1810}\u{2006}\u{2007}\u{2008}\u{200A}\u{200B}\u{200F}\u{2010}\u{2027}\u{2028}\u{2029}\u{202A}\u{202E}\u{202F}\u{2030}\u{205F}\u{2060}\u{206F}\u{2070}\u{3163}\u{3164}\u{3165}\u{E000}\u{F8FF}\u{F900}\u{FDFF}\u{FE00}\u{FE0F}\u{FE10}\u{FEFE}\u{FEFF}\u{FF00}\u{FF9F}\u{FFA0}\u{FFA1}\u{FFEF}\u{FFF0}\u{FFF8}\u{FFF9}\"\n",
        "---\n\"\\x84\\x85\\x86\\x9F\\xA0\u{A1}\u{AC}\\u00AD\u{AE}\u{34E}\\u034F\u{350}\u{61B}\\u061C\u{61D}\u{115E}\\u115F\\u1160\u{1161}\u{17B3}\\u17B4\\u17B5\u{17B6}\u{180A}\\u180B\\u180F\u{1810}\u{2006}\\u2007\u{2008}\u{200A}\\u200B\\u200F\u{2010}\u{2027}\\u2028\\u2029\\u202A\\u202E\\u202F\u{2030}\u{205F}\\u2060\\u206F\u{2070}\u{3163}\\u3164\u{3165}\\uE000\\uF8FF\u{F900}\u{FDFF}\\uFE00\\uFE0F\u{FE10}\u{FEFE}\\uFEFF\u{FF00}\u{FF9F}\\uFFA0\u{FFA1}\u{FFEF}\\uFFF0\\uFFF8\u{FFF9}\"\n",
    ),
    (
        "invisible = \"escaped\"",
        "\"\u{1BC9F}\u{1BCA0}\u{1BCA3}\u{1BCA4}\u{1D172}\u{1D173}\u{1D17A}\u{1D17B}\u{DFFFF}\u{E0000}\u{E0FFF}\u{E1000}\u{EFFFF}\u{F0000}\u{FFFFD}\u{FFFFE}\u{FFFFF}\u{100000}\u{10FFFD}\u{10FFFE}\"\n",
        "---\n\"\u{1BC9F}\\U0001BCA0\\U0001BCA3\u{1BCA4}\u{1D172}\\U0001D173\\U0001D17A\u{1D17B}\u{DFFFF}\\U000E0000\\U000E0FFF\u{E1000}\u{EFFFF}\\U000F0000\\U000FFFFD\u{FFFFE}\u{FFFFF}\\U00100000\\U0010FFFD\u{10FFFE}\"\n",
    ),
    // all others stay: in plain and block scalars, names and comments
    (
        "invisible = \"escaped\"",
        "a: x\u{200B}y\nb: [\u{200B}, \"\u{200B}\"]\nc: |\n  z\u{2066}\nd: &\u{200B}x z  # \u{202E}\n",
        "---\na: x\u{200B}y\nb: [\u{200B}, \"\\u200B\"]\nc: |\n  z\u{2066}\nd: &\u{200B}x z  # \u{202E}\n",
    ),
    // a plain scalar that becomes quoted, and a block scalar without content
    (
        "invisible = \"escaped\"",
        "- x\u{200B}\n\n  y\n- >\n\n- \"\u{3164}\"\n",
        "---\n- \"x\\u200B\\ny\"\n- \"\"\n\n- \"\\u3164\"\n",
    ),
    // widths count the escapes
    (
        "invisible = \"escaped\"\nmax_line = 40",
        "\"\u{200B}\u{200B}\": [\"\u{200B}\u{200B}\", abcdef]\n\"\u{200B}\u{200B}\u{200B}\": [\"\u{200B}\", abcdefg]\n",
        "---\n\"\\u200B\\u200B\": [\"\\u200B\\u200B\", abcdef]\n\"\\u200B\\u200B\\u200B\":\n  - \"\\u200B\"\n  - abcdefg\n",
    ),
    // with the other settings
    (
        "invisible = \"escaped\"\nseq_indent = false\ndocument_start = \"keep\"",
        "\"\u{200B}\":\n  - '\u{2060}'\n",
        "\"\\u200B\":\n- \"\\u2060\"\n",
    ),
    // they stay if the setting is not given
    (
        "invisible = \"plain\"",
        "a: \"\\u200B\\U000E0041\\u00AD\"\nb: '\u{202E}'\n",
        "---\na: \"\u{200B}\u{E0041}\u{AD}\"\nb: \"\u{202E}\"\n",
    ),
];

/// Texts that are refused, and the message.
static REFUSED: [(&str, &str); 5] = [
    ("a: b: c\n", "1:5 refused: syntax\n"),
    (
        "{a: [1, 2], *a : # c\n &b x}\n",
        "1:13 refused: unknown-alias\n",
    ),
    ("\"\\ud83d\"\n", "1:2 refused: escape-value\n"),
    ("%YAML 2.0\n---\n", "1:1 refused: bad-version\n"),
    ("- a\n- b: *x\n", "2:6 refused: unknown-alias\n"),
];

#[test]
fn formats_or_refuses(rt: HostRuntime) {
    for (settings, input, text) in &FORMATTED {
        assert!(rt;
            is_run(rt.alloc(), &(Asked::Fmt, settings, input, 0, text)),
            "{input}"
        );
    }
    for (input, line) in &REFUSED {
        assert!(rt;
            is_run(rt.alloc(), &(Asked::Fmt, "", input, 2, line)),
            "{input}"
        );
    }
}
