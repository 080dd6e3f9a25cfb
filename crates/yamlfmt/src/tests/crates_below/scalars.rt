//! Plain and quoted scalars that begin at an offset of a text, and texts written in quotes. The values follow from the
//! productions.

use std::alloc::{AllocError, Global};
use yf_chars::context::Ctx;
use yf_chars::escapes::push_escaped;
use yf_lines::fault::Fault;
use yf_lines::place::Position;
use yf_lines::quotes::Quotes;
use yf_lines::source_text::Src;
use yf_lines::text::{FoundText, Text};
use yf_plain::plain::read_plain;
use yf_quoted::double::{read_double, scan_double};
use yf_quoted::single::read_single;
use yf_quoted::write::{choose, write_double, write_single};

/// The reader.
#[derive(Clone, Copy)]
enum Reader {
    Plain,
    Single,
    Double,
    /// A double-quoted scalar. The scan goes past escapes that are not characters.
    Scan,
}

/// The expected result.
#[derive(Clone, Copy)]
enum Wanted {
    /// The value of the scalar, and the offset at which it ends.
    Value(&'static str, usize),
    /// The value and the end of a scalar that is a slice of its line.
    Slice(&'static str, usize),
    /// The value and the end of a scalar that has its own text.
    Own(&'static str, usize),
    /// There is no scalar.
    Nothing,
    /// The column of the first line at which an escape is not a character.
    BadEscape(usize),
    /// That column, and the value and the end of the scalar with such escapes.
    Past(&'static str, usize, usize),
}

/// A reader, a text, an offset, the indentation, the context, and the expected result.
type Row = (Reader, &'static str, usize, i32, Ctx, Wanted);

/// Two scalars that are slices of their line, and one that is not.
const SLICES: &str = "'b' \"e\" 'c''d'";

static SCALARS: [Row; 27] = [
    // before a comment
    (
        Reader::Plain,
        "a b # c",
        0,
        0,
        Ctx::FlowOut,
        Wanted::Value("a b", 3),
    ),
    (
        Reader::Plain,
        "- a\n  b\n\n  c\n",
        2,
        1,
        Ctx::FlowOut,
        Wanted::Value("a b\nc", 12),
    ),
    (
        Reader::Plain,
        "- a\r\n  b\r\n",
        2,
        1,
        Ctx::FlowOut,
        Wanted::Value("a b", 8),
    ),
    (
        Reader::Plain,
        "- f\n  g",
        2,
        1,
        Ctx::FlowOut,
        Wanted::Own("f g", 7),
    ),
    (
        Reader::Plain,
        "- a",
        2,
        1,
        Ctx::FlowOut,
        Wanted::Slice("a", 3),
    ),
    // a key ends on its line
    (
        Reader::Plain,
        "x:y: z",
        0,
        0,
        Ctx::BlockKey,
        Wanted::Slice("x:y", 3),
    ),
    (
        Reader::Plain,
        "a, b",
        0,
        0,
        Ctx::FlowKey,
        Wanted::Slice("a", 1),
    ),
    (Reader::Plain, "--- a", 0, 0, Ctx::FlowOut, Wanted::Nothing),
    (
        Reader::Single,
        "'it''s'",
        0,
        0,
        Ctx::FlowOut,
        Wanted::Value("it's", 7),
    ),
    // if no closing quote follows, the last pair closes the scalar
    (
        Reader::Single,
        "'a''b",
        0,
        0,
        Ctx::FlowOut,
        Wanted::Value("a", 3),
    ),
    (
        Reader::Single,
        "'''",
        0,
        0,
        Ctx::FlowOut,
        Wanted::Value("", 2),
    ),
    // before a document marker
    (
        Reader::Single,
        "'a ''b\n---\n'",
        0,
        0,
        Ctx::FlowOut,
        Wanted::Value("a ", 4),
    ),
    (
        Reader::Single,
        "'a\r\n  b\r\n\r\n  c'",
        0,
        1,
        Ctx::FlowOut,
        Wanted::Value("a b\nc", 15),
    ),
    (
        Reader::Single,
        "'a\r\n  b\r\n\r\n  c'",
        0,
        1,
        Ctx::BlockKey,
        Wanted::Nothing,
    ),
    (
        Reader::Single,
        SLICES,
        0,
        1,
        Ctx::FlowOut,
        Wanted::Slice("b", 3),
    ),
    (
        Reader::Single,
        SLICES,
        8,
        1,
        Ctx::FlowOut,
        Wanted::Own("c'd", 14),
    ),
    (
        Reader::Double,
        "\"a\\\n  b\"",
        0,
        0,
        Ctx::FlowOut,
        Wanted::Value("ab", 8),
    ),
    (
        Reader::Double,
        "\"a\r\n  b\"",
        0,
        1,
        Ctx::FlowOut,
        Wanted::Value("a b", 8),
    ),
    // two halves of a surrogate pair
    (
        Reader::Double,
        "\"\\ud83d\\ude00 \\x41\"",
        0,
        1,
        Ctx::FlowOut,
        Wanted::Value("\u{1F600} A", 19),
    ),
    // an escaped break does not begin a line
    (
        Reader::Double,
        "\"\n\\\n\"",
        0,
        0,
        Ctx::FlowOut,
        Wanted::Nothing,
    ),
    (
        Reader::Double,
        SLICES,
        4,
        1,
        Ctx::FlowOut,
        Wanted::Slice("e", 7),
    ),
    (
        Reader::Double,
        "\"\\x41\"",
        0,
        1,
        Ctx::FlowOut,
        Wanted::Own("A", 6),
    ),
    // too few digits
    (
        Reader::Double,
        "\"\\x4\"",
        0,
        0,
        Ctx::FlowOut,
        Wanted::Nothing,
    ),
    // two halves of a surrogate pair in the wrong order
    (
        Reader::Double,
        "\"\\ude00\\ud83d\"",
        0,
        1,
        Ctx::FlowOut,
        Wanted::BadEscape(2),
    ),
    (
        Reader::Double,
        "- \"\\U00110000\"",
        2,
        1,
        Ctx::FlowOut,
        Wanted::BadEscape(4),
    ),
    // two halves of a surrogate pair with eight digits each
    (
        Reader::Double,
        "- \"\\U0000d83d\\U0000de00\"",
        2,
        1,
        Ctx::FlowOut,
        Wanted::BadEscape(4),
    ),
    (
        Reader::Scan,
        "\"\\ud83dA\"",
        0,
        0,
        Ctx::FlowOut,
        Wanted::Past("\u{FFFD}A", 9, 2),
    ),
];

/// Returns whether the scalar is as expected.
fn is_wanted(read: &FoundText, wanted: Wanted) -> bool {
    match read {
        Ok(Some((text, end))) => match wanted {
            Wanted::Value(value, at) => text.as_str() == value && *end == at,
            Wanted::Slice(value, at) => {
                matches!(text, Text::Part(_)) && text.as_str() == value && *end == at
            }
            Wanted::Own(value, at) => {
                matches!(text, Text::Owned(_)) && text.as_str() == value && *end == at
            }
            _ => false,
        },
        Ok(None) => matches!(wanted, Wanted::Nothing),
        Err(Fault::EscapeValue { place }) => {
            place.line == 1 && matches!(wanted, Wanted::BadEscape(column) if place.column == column)
        }
        Err(_) => false,
    }
}

/// The result of `scan_double`.
type Scanned<'a> = Result<Option<(Text<'a>, Option<Position>, usize)>, Fault>;

/// Returns whether a scalar is found whole, with its first bad escape.
fn is_whole(found: &Scanned, wanted: Wanted) -> bool {
    match (found, wanted) {
        (Ok(Some((text, Some(place), end))), Wanted::Past(value, at, column)) => {
            text.as_str() == value && *end == at && place.line == 1 && place.column == column
        }
        _ => false,
    }
}

/// Returns whether the result at the offset of a source is as expected.
fn is_read(alloc: Global, src: &Src, row: &Row) -> bool {
    let (reader, _, at, n, ctx, wanted) = *row;
    if !src.text().is_char_boundary(at) {
        return false;
    }
    match reader {
        Reader::Plain => is_wanted(&read_plain(alloc, src, at, n, ctx), wanted),
        Reader::Single => is_wanted(&read_single(alloc, src, at, n, ctx), wanted),
        Reader::Double => is_wanted(&read_double(alloc, src, at, n, ctx), wanted),
        Reader::Scan => is_whole(&scan_double(alloc, src, at, n, ctx), wanted),
    }
}

/// Returns whether the result for the row's text is as expected.
fn reads(alloc: Global, row: &Row) -> bool {
    match &Src::new(alloc, row.1) {
        Ok(src) => is_read(alloc, src, row),
        Err(AllocError) => false,
    }
}

/// Returns whether characters and texts are written in quotes as expected.
fn writes(alloc: Global) -> bool {
    let mut escaped = String::new(alloc);
    let mut double = String::new(alloc);
    let mut single = String::new(alloc);
    let is_single = match choose("it's", Quotes::Single) {
        Quotes::Single => write_single(&mut single, "it's").is_ok(),
        Quotes::Double => false,
    };
    push_escaped(&mut escaped, '\u{7}').is_ok()
        && push_escaped(&mut escaped, '\u{2028}').is_ok()
        && push_escaped(&mut escaped, '"').is_ok()
        && write_double(&mut double, "it's\n").is_ok()
        && is_single
        && escaped.as_str() == "\\x07\\u2028\\\""
        && double.as_str() == "\"it's\\n\""
        && single.as_str() == "'it''s'"
}

#[test]
fn reads_and_writes_scalars(rt: HostRuntime) {
    for row in &SCALARS {
        assert!(rt; reads(rt.alloc(), row), "{}", row.1);
    }
    assert!(rt; writes(rt.alloc()));
}
