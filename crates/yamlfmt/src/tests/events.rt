//! The events of streams, and why streams are refused.

use crate::tests::answers::{Asked, is_run};

/// Streams, and their events.
pub static ACCEPTED: [(&str, &str); 51] = [
    // block collections, anchors and aliases
    (
        "- a\n- b\n",
        "+STR\n+DOC\n+SEQ\n=VAL :a\n=VAL :b\n-SEQ\n-DOC\n-STR\n",
    ),
    (
        "-\ta \n- b-c#d\n- x:y",
        "+STR\n+DOC\n+SEQ\n=VAL :a\n=VAL :b-c#d\n=VAL :x:y\n-SEQ\n-DOC\n-STR\n",
    ),
    (
        "? k\n: v\n",
        "+STR\n+DOC\n+MAP\n=VAL :k\n=VAL :v\n-MAP\n-DOC\n-STR\n",
    ),
    (
        "a:\n- x\n- - y\n  - z\n",
        "+STR\n+DOC\n+MAP\n=VAL :a\n+SEQ\n=VAL :x\n+SEQ\n=VAL :y\n=VAL :z\n-SEQ\n-SEQ\n-MAP\n-DOC\n-STR\n",
    ),
    (
        "- &a x # c\n- *a\n- !!str y\n- # d\n",
        "+STR\n+DOC\n+SEQ\n=VAL &a :x\n=ALI *a\n=VAL <tag:yaml.org,2002:str> :y\n=VAL :\n-SEQ\n-DOC\n-STR\n",
    ),
    ("-", "+STR\n+DOC\n+SEQ\n=VAL :\n-SEQ\n-DOC\n-STR\n"),
    (
        "-: a\na:: b\nc: 12\n",
        "+STR\n+DOC\n+MAP\n=VAL :-\n=VAL :a\n=VAL :a:\n=VAL :b\n=VAL :c\n=VAL :12\n-MAP\n-DOC\n-STR\n",
    ),
    (
        "foo: &a x\nbar: {*a : y, &b: z}\n",
        "+STR\n+DOC\n+MAP\n=VAL :foo\n=VAL &a :x\n=VAL :bar\n+MAP {}\n=ALI *a\n=VAL :y\n=VAL &b: :z\n=VAL :\n-MAP\n-MAP\n-DOC\n-STR\n",
    ),
    (
        "? a # c\nb: 1\n",
        "+STR\n+DOC\n+MAP\n=VAL :a\n=VAL :\n=VAL :b\n=VAL :1\n-MAP\n-DOC\n-STR\n",
    ),
    (
        "- &x\n  # c\n  k: # d\n    v\n",
        "+STR\n+DOC\n+SEQ\n+MAP &x\n=VAL :k\n=VAL :v\n-MAP\n-SEQ\n-DOC\n-STR\n",
    ),
    (
        "a: [1, {b: }]\nc:\n- - x\n  - y\n",
        "+STR\n+DOC\n+MAP\n=VAL :a\n+SEQ []\n=VAL :1\n+MAP {}\n=VAL :b\n=VAL :\n-MAP\n-SEQ\n=VAL :c\n+SEQ\n+SEQ\n=VAL :x\n=VAL :y\n-SEQ\n-SEQ\n-MAP\n-DOC\n-STR\n",
    ),
    (
        "? [a, {b: }]\n: - c\n  - d\n? |\n  x\n: y\n",
        "+STR\n+DOC\n+MAP\n+SEQ []\n=VAL :a\n+MAP {}\n=VAL :b\n=VAL :\n-MAP\n-SEQ\n+SEQ\n=VAL :c\n=VAL :d\n-SEQ\n=VAL |x\\n\n=VAL :y\n-MAP\n-DOC\n-STR\n",
    ),
    (
        "- &a x\n- &c y\n- *a : !!map\n    &b k : *c\n",
        "+STR\n+DOC\n+SEQ\n=VAL &a :x\n=VAL &c :y\n+MAP\n=ALI *a\n+MAP <tag:yaml.org,2002:map>\n=VAL &b :k\n=ALI *c\n-MAP\n-MAP\n-SEQ\n-DOC\n-STR\n",
    ),
    (
        "&a\n&b k: v\n",
        "+STR\n+DOC\n+MAP &a\n=VAL &b :k\n=VAL :v\n-MAP\n-DOC\n-STR\n",
    ),
    (
        "- &\u{E9} x\n- *\u{E9} \n",
        "+STR\n+DOC\n+SEQ\n=VAL &\u{E9} :x\n=ALI *\u{E9}\n-SEQ\n-DOC\n-STR\n",
    ),
    // scalars
    (" ...\n", "+STR\n+DOC\n=VAL :...\n-DOC\n-STR\n"),
    (
        "a\n%YAML 1.1\n",
        "+STR\n+DOC\n=VAL :a %YAML 1.1\n-DOC\n-STR\n",
    ),
    (
        "\"\\ud83d\\ude00 \\x41\"",
        "+STR\n+DOC\n=VAL \"\u{1F600} A\n-DOC\n-STR\n",
    ),
    ("\"\\0\"", "+STR\n+DOC\n=VAL \"\\x00\n-DOC\n-STR\n"),
    (
        "\"a\u{FEFF}b\"",
        "+STR\n+DOC\n=VAL \"a\u{FEFF}b\n-DOC\n-STR\n",
    ),
    ("- |\n x", "+STR\n+DOC\n+SEQ\n=VAL |x\n-SEQ\n-DOC\n-STR\n"),
    (
        "- a\n  b\n\n  c\n",
        "+STR\n+DOC\n+SEQ\n=VAL :a b\\nc\n-SEQ\n-DOC\n-STR\n",
    ),
    (
        "- a\r\n  b\r\n",
        "+STR\n+DOC\n+SEQ\n=VAL :a b\n-SEQ\n-DOC\n-STR\n",
    ),
    (
        "- 'it''s'\n- \"\\r\"\n",
        "+STR\n+DOC\n+SEQ\n=VAL 'it's\n=VAL \"\\r\n-SEQ\n-DOC\n-STR\n",
    ),
    (
        "- |2\n    x\n\n- >\n a\n b\n\n   c\n- |\n\n",
        "+STR\n+DOC\n+SEQ\n=VAL |  x\\n\n=VAL >a b\\n\\n  c\\n\n=VAL |\n-SEQ\n-DOC\n-STR\n",
    ),
    (
        "- >2-\n   a\n  b\n\n- |-\n x\n\n# c\n- y\n",
        "+STR\n+DOC\n+SEQ\n=VAL > a\\nb\n=VAL |x\n=VAL :y\n-SEQ\n-DOC\n-STR\n",
    ),
    (
        "- &x # c\n\n  # d\n  |+\n  a\n\n",
        "+STR\n+DOC\n+SEQ\n=VAL &x |a\\n\\n\n-SEQ\n-DOC\n-STR\n",
    ),
    (
        "a: 'x'  # c \r\nb: |\r\n  y \r\na: 1\r\n",
        "+STR\n+DOC\n+MAP\n=VAL :a\n=VAL 'x\n=VAL :b\n=VAL |y \\n\n=VAL :a\n=VAL :1\n-MAP\n-DOC\n-STR\n",
    ),
    (
        "- 'it''s'\n- \"\\r \\\\ \\n \\t \\b \\0 \\x1f \u{E9}\"\n-\n",
        "+STR\n+DOC\n+SEQ\n=VAL 'it's\n=VAL \"\\r \\\\ \\n \\t \\b \\x00 \\x1F \u{E9}\n=VAL :\n-SEQ\n-DOC\n-STR\n",
    ),
    (
        "\"\\0\\a\\b\\t\\\t\\n\\v\\f\\r\\e\\ \\\"\\/\\\\\\N\\_\\L\\P\\x41\\u0042\\U00000043\"",
        "+STR\n+DOC\n=VAL \"\\x00\\x07\\b\\t\\t\\n\\x0B\\x0C\\r\\x1B \"/\\\\\u{85}\u{A0}\u{2028}\u{2029}ABC\n-DOC\n-STR\n",
    ),
    (
        "- \u{A0}a\u{85}\n- b\r- c\n",
        "+STR\n+DOC\n+SEQ\n=VAL :\u{A0}a\u{85}\n=VAL :b\n=VAL :c\n-SEQ\n-DOC\n-STR\n",
    ),
    // flow collections
    (
        "[a: b, c]\n",
        "+STR\n+DOC\n+SEQ []\n+MAP {}\n=VAL :a\n=VAL :b\n-MAP\n=VAL :c\n-SEQ\n-DOC\n-STR\n",
    ),
    (
        "- {a: 1, \"b\":2, ? c}\n- []\n",
        "+STR\n+DOC\n+SEQ\n+MAP {}\n=VAL :a\n=VAL :1\n=VAL \"b\n=VAL :2\n=VAL :c\n=VAL :\n-MAP\n+SEQ []\n-SEQ\n-SEQ\n-DOC\n-STR\n",
    ),
    ("[ # c\n]\n", "+STR\n+DOC\n+SEQ []\n-SEQ\n-DOC\n-STR\n"),
    (
        "{a: x, : # c\n v}\n",
        "+STR\n+DOC\n+MAP {}\n=VAL :a\n=VAL :x\n=VAL :\n=VAL :v\n-MAP\n-DOC\n-STR\n",
    ),
    (
        "key: [\n  1\n ]\n",
        "+STR\n+DOC\n+MAP\n=VAL :key\n+SEQ []\n=VAL :1\n-SEQ\n-MAP\n-DOC\n-STR\n",
    ),
    (
        "{\"a\":1,b: [x, # c\n y]}\n",
        "+STR\n+DOC\n+MAP {}\n=VAL \"a\n=VAL :1\n=VAL :b\n+SEQ []\n=VAL :x\n=VAL :y\n-SEQ\n-MAP\n-DOC\n-STR\n",
    ),
    (
        "[a, # c\n # d\n b, {k: # e\n v}] # f\n",
        "+STR\n+DOC\n+SEQ []\n=VAL :a\n=VAL :b\n+MAP {}\n=VAL :k\n=VAL :v\n-MAP\n-SEQ\n-DOC\n-STR\n",
    ),
    (
        "[? a\n: b, ? , : c]",
        "+STR\n+DOC\n+SEQ []\n+MAP {}\n=VAL :a\n=VAL :b\n-MAP\n+MAP {}\n=VAL :\n=VAL :\n-MAP\n+MAP {}\n=VAL :\n=VAL :c\n-MAP\n-SEQ\n-DOC\n-STR\n",
    ),
    (
        "{a b\n c: d, \"e\":f}",
        "+STR\n+DOC\n+MAP {}\n=VAL :a b c\n=VAL :d\n=VAL \"e\n=VAL :f\n-MAP\n-DOC\n-STR\n",
    ),
    (
        "[[a]: b, 'c d' : &e !!str f]",
        "+STR\n+DOC\n+SEQ []\n+MAP {}\n+SEQ []\n=VAL :a\n-SEQ\n=VAL :b\n-MAP\n+MAP {}\n=VAL 'c d\n=VAL &e <tag:yaml.org,2002:str> :f\n-MAP\n-SEQ\n-DOC\n-STR\n",
    ),
    // streams and documents
    ("", "+STR\n-STR\n"),
    ("# c\n\n\n# d", "+STR\n-STR\n"),
    ("---\n# c\n", "+STR\n+DOC ---\n=VAL :\n-DOC\n-STR\n"),
    (
        "--- |+\n a\n\n",
        "+STR\n+DOC ---\n=VAL |a\\n\\n\n-DOC\n-STR\n",
    ),
    (
        "%TAG !e! tag:e.com,2000:\n---\n!e!t%21 v\n",
        "+STR\n+DOC ---\n=VAL <tag:e.com,2000:t!> :v\n-DOC\n-STR\n",
    ),
    (
        "a\n...\n# c\n%YAML 1.1\n--- b\n",
        "+STR\n+DOC\n=VAL :a\n-DOC ...\n+DOC ---\n=VAL :b\n-DOC\n-STR\n",
    ),
    (
        "%FOO a # c\n---\nx\n",
        "+STR\n+DOC ---\n=VAL :x\n-DOC\n-STR\n",
    ),
    (
        "--- [&a x, {*a : y}]\n...\n",
        "+STR\n+DOC ---\n+SEQ []\n=VAL &a :x\n+MAP {}\n=ALI *a\n=VAL :y\n-MAP\n-SEQ\n-DOC ...\n-STR\n",
    ),
    (
        "%FOO a\n---\n- &x !!str > # c\n  b\n",
        "+STR\n+DOC ---\n+SEQ\n=VAL &x <tag:yaml.org,2002:str> >b\\n\n-SEQ\n-DOC\n-STR\n",
    ),
    (
        "a:\n\n  b: 1\n\n\n  # c\n\n  d: 2\n\n---\n\ne\n",
        "+STR\n+DOC\n+MAP\n=VAL :a\n+MAP\n=VAL :b\n=VAL :1\n=VAL :d\n=VAL :2\n-MAP\n-MAP\n-DOC\n+DOC ---\n=VAL :e\n-DOC\n-STR\n",
    ),
];

/// Texts that are refused, and the line of the fault.
pub static REFUSED: [(&str, &str); 28] = [
    // texts that are not streams: the first character with which no stream begins
    ("a: b: c\n", "1:5 refused: syntax\n"),
    ("a\nb: c\n", "2:2 refused: syntax\n"),
    ("key: [\n  1\n]\n", "3:1 refused: syntax\n"),
    ("a:\n\tb: 1\n", "2:1 refused: syntax\n"),
    ("- \"\\ud83d\"\n]", "2:1 refused: syntax\n"),
    ("%YAML 1.2\nx\n", "2:1 refused: syntax\n"),
    ("a: \"x", "1:4 refused: syntax\n"),
    ("\"a", "1:1 refused: syntax\n"),
    ("[a", "1:3 refused: syntax\n"),
    ("{a: b", "1:6 refused: syntax\n"),
    ("a\0b", "1:2 refused: syntax\n"),
    ("\"a\0b\"", "1:3 refused: syntax\n"),
    ("a\u{FEFF}b", "1:2 refused: syntax\n"),
    ("&a x\n...\n- *a: b\n", "3:7 refused: syntax\n"),
    ("? k\n:- a\n", "2:5 refused: syntax\n"),
    // texts that are not well-formed: the first violation
    ("\"\\ud83d\"", "1:2 refused: escape-value\n"),
    ("- \"\\ud83d\"\n", "1:4 refused: escape-value\n"),
    ("- \"\\ude00\\ud83d\"", "1:4 refused: escape-value\n"),
    (
        "- \"\\U0000d83d\\U0000de00\"",
        "1:4 refused: escape-value\n",
    ),
    ("- \"\\U00110000\"", "1:4 refused: escape-value\n"),
    ("\"\\ud83d\\x41\"", "1:2 refused: escape-value\n"),
    ("!x!t v\n", "1:1 refused: unknown-handle\n"),
    ("- !x!t v\n", "1:3 refused: unknown-handle\n"),
    ("%YAML 2.0\n---\n", "1:1 refused: bad-version\n"),
    (
        "%YAML 1.2\n%YAML 1.2\n---\n",
        "2:1 refused: repeated-directive\n",
    ),
    ("- *a\n- &a x\n", "1:3 refused: unknown-alias\n"),
    ("&a x\n---\n*a\n", "3:1 refused: unknown-alias\n"),
    ("- *x\n- \"\\ud83d\"\n", "1:3 refused: unknown-alias\n"),
];

#[test]
fn prints_events_or_refuses(rt: HostRuntime) {
    for (input, events) in &ACCEPTED {
        assert!(rt;
            is_run(rt.alloc(), &(Asked::Events, "", input, 0, events)),
            "{input}"
        );
    }
    for (input, line) in &REFUSED {
        assert!(rt;
            is_run(rt.alloc(), &(Asked::Events, "", input, 2, line)),
            "{input}"
        );
    }
}
