//! Readings: the positions of their nodes and comments, their content, and how the house style writes one of their
//! events.
ghost use Rattle.std.specs.Prelude.{IfOk};
ghost use Rattle.yf_events.specs.Reading.{ListsFit};

use crate::tests::answers::reading_of;
use crate::tests::laws::has_same_content;
use std::alloc::{AllocError, Global};
use yf_events::event::{NewEvent, PlacedEvent, ScalarStyle};
use yf_events::lists::Lists;
use yf_events::reading::Reading;
use yf_events::slices::Slices;
use yf_forms::form::decide::implicit_key;
use yf_forms::form::kept::kept_text;
use yf_forms::style::Style;
use yf_forms::text::wanted::wanted_style;
use yf_lines::fault::Fault;
use yf_lines::source_text::Src;
use yf_props::props::Props;
use yf_rules::format::format;

/// A property of a reading, with its expected value.
#[derive(Clone, Copy)]
enum Asked {
    /// For each event that has a place: its start and end, the offsets of its entry and of the `:` of that entry (0 for
    /// none), and whether a blank line is before the entry.
    Places(&'static [(usize, usize, usize, usize, bool)]),
    /// For each comment: its offset, the number of documents and of leaves with characters that begin before it, and
    /// whether it is on the line on which the last of these leaves ends.
    Comments(&'static [(usize, usize, usize, bool)]),
    /// Whether the reading has the same content as another text.
    Same(&'static str, bool),
    /// The style in which the house style writes a scalar.
    Style(usize, ScalarStyle),
    /// The text on one line of the flow collection that an event begins. It is empty if the collection is not kept on
    /// one line.
    Kept(usize, &'static str),
    /// Whether the key that an event begins is written without `?`.
    Implicit(usize, bool),
    /// The formatting of its text.
    Formatted(&'static str),
}

/// A text with a byte order mark and carriage returns that are dropped, and with a style that is corrected.
const MARKED: &str = "\u{FEFF}a: 'x'  # c \r\nb: |\r\n  y \r\na: 1\r\n";

/// A key with a comment, and its formatting.
const COMMENTED: &str = "- &x\n  # c\n  k: # d\n    v\n";

const FORMATTED: &str = "---\n- &x\n  # c\n  k:  # d\n    v\n";

/// A stream with a directive.
const FOLDED: &str = "%FOO a\n---\n- &x !!str > # c\n  b\n";

static ROWS: [(&str, Asked); 20] = [
    (
        "[a,\n\n &a k : # c\n v]",
        Asked::Places(&[
            (0, 20, 0, 0, false),
            (1, 2, 1, 0, false),
            (6, 19, 6, 0, true),
            (6, 10, 6, 11, true),
            (18, 19, 0, 0, false),
        ]),
    ),
    (
        "&a\n\nk: |+\n x\n\nl:\n\n - b # c\n - ? d\n   : e\n",
        Asked::Places(&[
            (0, 40, 0, 0, false),
            (4, 5, 4, 5, true),
            (7, 14, 0, 0, false),
            (14, 15, 14, 15, false),
            (19, 40, 0, 0, false),
            (21, 22, 19, 0, true),
            (30, 40, 28, 0, false),
            (32, 33, 30, 37, false),
            (39, 40, 0, 0, false),
        ]),
    ),
    (
        FOLDED,
        Asked::Places(&[(11, 32, 0, 0, false), (13, 32, 11, 0, false)]),
    ),
    (FOLDED, Asked::Comments(&[(24, 1, 1, false)])),
    (
        "# c\n---\na: b # d\n# e\n",
        Asked::Comments(&[(0, 0, 0, false), (13, 1, 2, true), (17, 1, 2, false)]),
    ),
    // the content does not depend on styles and markers
    (
        "---\n'a': >\n b\n...\n",
        Asked::Same("{\"a\": \"b\\n\"}", true),
    ),
    ("'a'", Asked::Same("'b'", false)),
    // a plain text that is steady differs from the quoted one
    ("12", Asked::Same("\"12\"", false)),
    ("a:: b", Asked::Same("\"a:\": b", true)),
    ("&a {}", Asked::Same("&b {}", false)),
    ("!a b", Asked::Same("!c b", false)),
    (COMMENTED, Asked::Same(FORMATTED, true)),
    (" ...\n", Asked::Style(2, ScalarStyle::Double)),
    ("[a: b, c]\n", Asked::Kept(2, "[{a: b}, c]")),
    ("[ # c\n]\n", Asked::Kept(2, "")),
    ("? [a]\n: v\n", Asked::Implicit(3, true)),
    ("---\n? |\n  x\n: y\n", Asked::Implicit(3, false)),
    ("- a\n- b\n", Asked::Formatted("---\n- a\n- b\n")),
    (
        MARKED,
        Asked::Formatted("---\na: \"x\"  # c\nb: |\n  y \na: 1\n"),
    ),
    (
        "a: ['x', # c\n y]\n",
        Asked::Formatted("---\na:\n  - \"x\"  # c\n  - y\n"),
    ),
];

/// Returns whether a reading has exactly these places.
fn has_places(reading: &Reading, wanted: &[(usize, usize, usize, usize, bool)]) -> bool {
    let mut rest = wanted;
    for i in 0..reading.len() {
        if let Some(span) = reading.span(i) {
            let place = match reading.entry(i) {
                Some(entry) => (
                    span.start,
                    span.end,
                    entry.start,
                    entry.colon.unwrap_or(0),
                    entry.blank_before,
                ),
                None => (span.start, span.end, 0, 0, false),
            };
            match rest.split_first() {
                Some((row, after)) if place == *row => rest = after,
                _ => return false,
            }
        }
    }
    rest.is_empty()
}

/// Returns whether a reading has comments at exactly these places.
fn has_comments(reading: &Reading, wanted: &[(usize, usize, usize, bool)]) -> bool {
    let count = reading.comments().len();
    if count != wanted.len() {
        return false;
    }
    for k in 0..count {
        let (documents, leaves) = reading.place_of(k);
        let found = (
            reading.comments()[k].offset,
            documents,
            leaves,
            reading.on_leaf_line(k),
        );
        if found != wanted[k] {
            return false;
        }
    }
    true
}

/// The result of reading a text.
type Read<'a> = Result<Reading<'a>, Fault>;

/// Returns whether the other text has a reading, and whether its content is the same, as expected.
fn is_same(alloc: Global, reading: &Reading, other: &Read, wanted: bool) -> bool {
    match other {
        Ok(other) => has_same_content(alloc, reading, other) == Some(wanted),
        Err(_) => false,
    }
}

/// Returns whether this is the text of a flow collection on one line.
fn is_kept(kept: &Result<Option<String>, Fault>, wanted: &str) -> bool {
    match kept {
        Ok(Some(text)) => text.as_str() == wanted,
        Ok(None) => wanted.is_empty(),
        Err(_) => false,
    }
}

/// Returns whether this is the formatting of a text.
fn is_formatting(formatted: &Result<String, Fault>, wanted: &str) -> bool {
    match formatted {
        Ok(text) => text.as_str() == wanted,
        Err(_) => false,
    }
}

/// Returns whether a reading has the expected property.
fn is_told_of(alloc: Global, src: &Src, reading: &Reading, asked: Asked) -> bool {
    let style = Style::house();
    match asked {
        Asked::Places(places) => has_places(reading, places),
        Asked::Comments(places) => has_comments(reading, places),
        Asked::Same(other, wanted) => is_same(alloc, reading, &reading_of(alloc, other), wanted),
        Asked::Style(i, wanted) => i < reading.len() && wanted_style(reading, i, &style) == wanted,
        Asked::Kept(i, wanted) => is_kept(&kept_text(alloc, src, reading, i, &style), wanted),
        Asked::Implicit(i, wanted) => {
            matches!(implicit_key(alloc, src, reading, i, &style), Ok(told) if told == wanted)
        }
        Asked::Formatted(wanted) => is_formatting(&format(alloc, src.text(), &style), wanted),
    }
}

/// Returns whether there is a reading, and it has the expected property.
fn is_told_in(alloc: Global, src: &Src, read: &Read, asked: Asked) -> bool {
    match read {
        Ok(reading) => is_told_of(alloc, src, reading, asked),
        Err(_) => false,
    }
}

/// Returns whether the reading of a text has the expected property.
fn is_told(alloc: Global, text: &str, asked: Asked) -> bool {
    match &Src::new(alloc, text) {
        Ok(src) => is_told_in(alloc, src, &reading_of(alloc, src.text()), asked),
        Err(AllocError) => false,
    }
}

#[test]
fn readings_tell_what_they_hold(rt: HostRuntime) {
    for (text, asked) in &ROWS {
        assert!(rt; is_told(rt.alloc(), text, *asked), "{text}");
    }
}

/// Adds an event with no tag and no place.
fn add<'a>(alloc: Global, lists: &mut Lists<'a>, event: NewEvent<'a>) -> Result<(), AllocError>
    requires { ListsFit lists.old }
    ensures { IfOk result (λ _. ListsFit lists.new) }
{
    let placed = PlacedEvent {
        event,
        span: None,
        tag_offset: None,
        entry: None,
        folded: Slices::new(alloc),
    };
    lists.push_event(placed, None)
}

/// Adds the events of a stream with one document. The sequence in the document has no end.
fn fill(alloc: Global, lists: &mut Lists<'_>) -> Result<(), AllocError>
    requires { ListsFit lists.old }
    ensures { IfOk result (λ _. ListsFit lists.new) }
{
    let props = Props {
        anchor: None,
        tag: None,
    };
    add(alloc, lists, NewEvent::StreamStart)?;
    add(alloc, lists, NewEvent::DocStart { explicit: false })?;
    add(alloc, lists, NewEvent::SeqStart { flow: true, props })?;
    add(alloc, lists, NewEvent::DocEnd { explicit: false })?;
    add(alloc, lists, NewEvent::StreamEnd)
}

/// Returns whether no reading was built.
fn is_nothing(built: &Result<Option<Reading>, Fault>) -> bool {
    matches!(built, Ok(None))
}

/// Returns whether no reading of that stream is built.
fn refuses_open_sequences(alloc: Global) -> bool {
    let mut lists = Lists::new(alloc);
    match fill(alloc, &mut lists) {
        Ok(()) => is_nothing(&Reading::build(alloc, lists)),
        Err(AllocError) => false,
    }
}

#[test]
fn an_open_sequence_is_no_reading(rt: HostRuntime) {
    assert!(rt; refuses_open_sequences(rt.alloc()));
}
