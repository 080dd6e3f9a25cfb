//! The explanation after the line of a fault. The lines were worked out by hand. Their columns were counted, and the
//! numbers of characters are those of the Unicode standard.

use std::alloc::{AllocError, Global};
use yf_explain::{Page, explain};
use yf_lines::fault::Fault;
use yf_lines::place::Position;

/// The first line of the explanation in each row.
const WORDS: &str = "  more than 1,024 collections would be open here\n";

/// A text, a line and a column in it, and the explanation after the first line.
type Row = (&'static str, usize, usize, &'static str);

static ROWS: [Row; 11] = [
    ("a: b\n", 1, 4, "  | a: b\n  |    ^\n"),
    // at the end of a text, after its last line break
    ("a\n", 2, 1, "  | \n  | ^\n"),
    // characters of two columns, and characters that are shown by their numbers, in 4, 6 and 10 columns
    (
        "\u{5024}: \u{202E}x",
        1,
        5,
        "  | \u{5024}: \\u202Ex\n  |           ^\n",
    ),
    (
        "\t\u{1F600}a",
        1,
        3,
        "  | \\x09\\U0001F600a\n  |               ^\n",
    ),
    (
        "\u{FEFF}\u{E9}a",
        1,
        2,
        "  | \\uFEFF\u{E9}a\n  |        ^\n",
    ),
    // a line is cut on both sides
    (
        "aaaaaaaaaabbbbbbbbbbccccccccccddddddddddeeeeeeeeeeffffffffffgggggggggghhhhhhhhhhiiiiiiiiiijjjjjjjjjjkkkkkkkkkk\nx\n",
        1,
        61,
        "  | ...ccccddddddddddeeeeeeeeeeffffffffffgggggggggghhhhhhhhhhiiiiiiiiiijjjj...\n  |                                      ^\n",
    ),
    // the explanation names the position at which something was opened: a bracket on another line or on this line, a
    // quote
    (
        "x: 1\na: [1, {b: 2}\nb: c\n",
        3,
        1,
        "  | b: c\n  | ^\n  opened at 2:4\n  | a: [1, {b: 2}\n  |    ^\n",
    ),
    ("{a: b", 1, 6, "  | {a: b\n  |      ^\n  opened at 1:1\n"),
    (
        "a: \"x\n y\nz",
        3,
        1,
        "  | z\n  | ^\n  opened at 1:4\n  | a: \"x\n  |    ^\n",
    ),
    // no bracket begins in a block scalar, in a comment, or in text without quotes
    (
        "a: |\n  [x\nb: [1\n",
        3,
        6,
        "  | b: [1\n  |      ^\n  opened at 3:4\n",
    ),
    ("# [\na: b [\nc: d\n", 3, 4, "  | c: d\n  |    ^\n"),
];

/// Returns the explanation of a fault at a position of a text.
fn told(alloc: Global, text: &str, line: usize, column: usize) -> Result<Page, AllocError> {
    let fault = Fault::TooDeep {
        place: Position { line, column },
    };
    explain(alloc, text.as_bytes(), &fault)
}

/// Returns whether the explanation after the first line is this text.
fn is_told(told: &Result<Page, AllocError>, wanted: &str) -> bool {
    match told {
        Ok(page) => page.as_str().strip_prefix(WORDS) == Some(wanted),
        Err(_) => false,
    }
}

/// Returns whether a row holds.
fn holds(alloc: Global, row: &Row) -> bool {
    is_told(&told(alloc, row.0, row.1, row.2), row.3)
}

#[test]
fn shows_places(rt: HostRuntime) {
    for row in &ROWS {
        assert!(rt; holds(rt.alloc(), row), "{}", row.0);
    }
}

/// Control characters, and characters that turn the direction of a line, join characters, or are invisible. Each pair
/// is the first and the last character of a range.
static HIDDEN: [(char, char); 9] = [
    ('\u{0}', '\u{9}'),
    ('\u{B}', '\u{C}'),
    ('\u{E}', '\u{1F}'),
    ('\u{7F}', '\u{A0}'),
    ('\u{AD}', '\u{AD}'),
    ('\u{61C}', '\u{61C}'),
    ('\u{200B}', '\u{200F}'),
    ('\u{2028}', '\u{202E}'),
    ('\u{2060}', '\u{206F}'),
];

/// Returns whether there is a page without this character.
fn is_without(told: &Result<Page, AllocError>, c: char) -> bool {
    match told {
        Ok(page) => !page.as_str().contains(c),
        Err(_) => false,
    }
}

/// Returns whether a page shows a character of the text in another form.
fn hides(alloc: Global, c: char) -> bool {
    match format!(in alloc; "a{c}b") {
        Ok(text) => is_without(&told(alloc, text.as_str(), 1, 1), c),
        Err(_) => false,
    }
}

#[test]
fn hides_what_moves_or_turns(rt: HostRuntime) {
    for (first, last) in &HIDDEN {
        for c in (*first..=*last).into_iter() {
            assert!(rt; hides(rt.alloc(), c), "{:X}", u32::from(c));
        }
    }
}

/// Returns whether the explanation of bytes that are not UTF-8 is this text.
fn tells_byte(alloc: Global, bytes: &[u8], offset: usize, wanted: &str) -> bool {
    match &explain(alloc, bytes, &Fault::NotUtf8 { offset }) {
        Ok(page) => page.as_str() == wanted,
        Err(_) => false,
    }
}

#[test]
fn tells_bytes(rt: HostRuntime) {
    assert!(rt;
        tells_byte(
            rt.alloc(),
            b"a\ncaf\xE9\n",
            5,
            "  2:4: the byte xE9 is not UTF-8 here\n  | caf\n  |    ^\n"
        )
    );
    assert!(rt; !tells_byte(rt.alloc(), b"a", 1, ""));
}

/// The explanations of an alias that may name an anchor, and of one that is more likely a text.
const NO_ANCHOR: &str = "  no anchor with this name comes before it in this document\n";

const NO_ALIAS: &str = "  no anchor has this name: quote a text that begins with `*`\n";

/// A text, the line and the column of an alias in it, and the first line of the explanation.
type AliasRow = (&'static str, usize, usize, &'static str);

static ALIASES: [AliasRow; 6] = [
    ("a: *x\n", 1, 4, NO_ANCHOR),
    ("[*a-1_\u{E9}, b.c]\n", 1, 2, NO_ANCHOR),
    ("[main, *.x]\n", 1, 8, NO_ALIAS),
    ("- *.yml\n", 1, 3, NO_ALIAS),
    ("a: b\nc: **/*.py # d\n", 2, 4, NO_ALIAS),
    ("- *_test.go", 1, 3, NO_ALIAS),
];

/// Returns whether the first line of an alias's explanation is that of the row.
fn tells_alias(alloc: Global, row: &AliasRow) -> bool {
    let fault = Fault::UnknownAlias {
        place: Position {
            line: row.1,
            column: row.2,
        },
    };
    match &explain(alloc, row.0.as_bytes(), &fault) {
        Ok(page) => page.as_str().strip_prefix(row.3).is_some(),
        Err(_) => false,
    }
}

#[test]
fn tells_aliases(rt: HostRuntime) {
    for row in &ALIASES {
        assert!(rt; tells_alias(rt.alloc(), row), "{}", row.0);
    }
}
