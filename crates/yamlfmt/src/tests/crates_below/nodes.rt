//! Flow nodes, implicit keys and block nodes at the start of a text, read and scanned. The rows say which part of the
//! text they take. The events were worked out from the productions. `events` has the events of whole streams.

use crate::tests::answers::{Repeated, repeated};
use std::alloc::{AllocError, Global};
use yf_block::block::{read_block_node, scan_block_node};
use yf_chars::context::Ctx;
use yf_events::event::{Event, ScalarStyle};
use yf_events::part::Part;
use yf_flow::flow::{
    NodePart, ScanResult, read_flow_node, read_implicit_key, scan_flow_node, scan_implicit_key,
};
use yf_lines::fault::Fault;
use yf_lines::source_text::Src;
use yf_lines::text::ReadResult;

/// The kind of node to read.
#[derive(Clone, Copy)]
enum Reader {
    /// A flow node at this indentation, in flow-out.
    Flow(i32),
    /// An implicit key, in block-key.
    Key,
    /// A block node at indentation -1, in block-in.
    Block,
}

/// Events, each by its sign in the notation, without properties, and its text.
type Events = &'static [(&'static str, &'static str)];

/// The expected result.
#[derive(Clone, Copy)]
enum Wanted {
    /// A node with these events that ends at this offset.
    Node(Events, usize),
    /// A node that ends at this offset.
    End(usize),
    Nothing,
    /// The node is nested too deeply.
    TooDeep,
    /// The reader refuses the node because of the escape in this column of the first line. The scan returns the escape
    /// with the node.
    Escape(Events, usize, usize),
}

static NODES: [(&str, Reader, Wanted); 37] = [
    // flow nodes
    (
        "[a: b, c]",
        Reader::Flow(0),
        Wanted::Node(
            &[
                ("+SEQ []", ""),
                ("+MAP {}", ""),
                ("=VAL :", "a"),
                ("=VAL :", "b"),
                ("-MAP", ""),
                ("=VAL :", "c"),
                ("-SEQ", ""),
            ],
            9,
        ),
    ),
    (
        "[\n  1\n ]",
        Reader::Flow(1),
        Wanted::Node(&[("+SEQ []", ""), ("=VAL :", "1"), ("-SEQ", "")], 8),
    ),
    (
        "[a, # c\n # d\n b, {k: # e\n v}] # f",
        Reader::Flow(0),
        Wanted::Node(
            &[
                ("+SEQ []", ""),
                ("=VAL :", "a"),
                ("=VAL :", "b"),
                ("+MAP {}", ""),
                ("=VAL :", "k"),
                ("=VAL :", "v"),
                ("-MAP", ""),
                ("-SEQ", ""),
            ],
            29,
        ),
    ),
    ("&x [a", Reader::Flow(0), Wanted::Node(&[("=VAL :", "")], 2)),
    ("&a *b", Reader::Flow(0), Wanted::Node(&[("=VAL :", "")], 2)),
    ("'''", Reader::Flow(0), Wanted::Node(&[("=VAL '", "")], 2)),
    ("[\n  1\n]", Reader::Flow(1), Wanted::Nothing),
    ("[a", Reader::Flow(0), Wanted::Nothing),
    ("[a\n: b]", Reader::Flow(0), Wanted::Nothing),
    ("[,]", Reader::Flow(0), Wanted::Nothing),
    ("[?]", Reader::Flow(0), Wanted::Nothing),
    ("---", Reader::Flow(0), Wanted::Nothing),
    ("[a,\n--- b]", Reader::Flow(0), Wanted::Nothing),
    // the first escape that is not a character
    (
        "\"\\ud83dA\"",
        Reader::Flow(0),
        Wanted::Escape(&[("=VAL \"", "\u{FFFD}A")], 9, 2),
    ),
    (
        "- \"\\ud83d\"\n- [",
        Reader::Block,
        Wanted::Escape(
            &[("+SEQ", ""), ("=VAL \"", "\u{FFFD}"), ("-SEQ", "")],
            11,
            4,
        ),
    ),
    // implicit keys
    (
        "[a]: b",
        Reader::Key,
        Wanted::Node(&[("+SEQ []", ""), ("=VAL :", "a"), ("-SEQ", "")], 3),
    ),
    ("[a,\nb]: c", Reader::Key, Wanted::Nothing),
    // block nodes
    (
        "? k\n: v\n",
        Reader::Block,
        Wanted::Node(
            &[("+MAP", ""), ("=VAL :", "k"), ("=VAL :", "v"), ("-MAP", "")],
            8,
        ),
    ),
    // the longest part, if another document begins after it or the text is wrong further on
    (
        "a:\n\n  b: 1\n\n\n  # c\n\n  d: 2\n\n---\n\ne\n",
        Reader::Block,
        Wanted::Node(
            &[
                ("+MAP", ""),
                ("=VAL :", "a"),
                ("+MAP", ""),
                ("=VAL :", "b"),
                ("=VAL :", "1"),
                ("=VAL :", "d"),
                ("=VAL :", "2"),
                ("-MAP", ""),
                ("-MAP", ""),
            ],
            28,
        ),
    ),
    (
        "a:\n\tb: 1\n",
        Reader::Block,
        Wanted::Node(
            &[("+MAP", ""), ("=VAL :", "a"), ("=VAL :", ""), ("-MAP", "")],
            3,
        ),
    ),
    (
        "- a\n- [",
        Reader::Block,
        Wanted::Node(&[("+SEQ", ""), ("=VAL :", "a"), ("-SEQ", "")], 4),
    ),
    (
        "a\nb: c\n",
        Reader::Block,
        Wanted::Node(&[("=VAL :", "a")], 2),
    ),
    ("&a\n---", Reader::Block, Wanted::Node(&[("=VAL :", "")], 3)),
    (
        "?\n\n: \"",
        Reader::Block,
        Wanted::Node(
            &[("+MAP", ""), ("=VAL :", ""), ("=VAL :", ""), ("-MAP", "")],
            2,
        ),
    ),
    (
        "? a\n b\n: [",
        Reader::Block,
        Wanted::Node(
            &[("+MAP", ""), ("=VAL :", "a"), ("=VAL :", ""), ("-MAP", "")],
            4,
        ),
    ),
    (
        "- a\n # c\n- b\n  # d\n - \"",
        Reader::Block,
        Wanted::Node(
            &[("+SEQ", ""), ("=VAL :", "a"), ("=VAL :", "b"), ("-SEQ", "")],
            19,
        ),
    ),
    (
        "- &a !b\n  [",
        Reader::Block,
        Wanted::Node(&[("+SEQ", ""), ("=VAL :", ""), ("-SEQ", "")], 8),
    ),
    (
        "? a\n# c\n: [",
        Reader::Block,
        Wanted::Node(
            &[("+MAP", ""), ("=VAL :", "a"), ("=VAL :", ""), ("-MAP", "")],
            4,
        ),
    ),
    ("a: b: c\n", Reader::Block, Wanted::Nothing),
    ("key: [\n  1\n]\n", Reader::Block, Wanted::Nothing),
    ("# c\n", Reader::Block, Wanted::Nothing),
    ("--- a\n", Reader::Block, Wanted::Nothing),
    ("? : \"", Reader::Block, Wanted::Nothing),
    ("\"a", Reader::Block, Wanted::Nothing),
    ("[a", Reader::Block, Wanted::Nothing),
    ("{a: b", Reader::Block, Wanted::Nothing),
    ("- a: b: c", Reader::Block, Wanted::Nothing),
];

/// Texts with many brackets, dashes or characters in a key. If one collection is too many, the correct part before it
/// is a node.
static LIMITS: [(Repeated, Reader, Wanted); 12] = [
    (
        ("", "[", 1024, "]", 1024),
        Reader::Flow(0),
        Wanted::End(2048),
    ),
    (("", "[", 1025, "]", 1025), Reader::Flow(0), Wanted::TooDeep),
    (
        ("&a ", "[", 1025, "]", 1025),
        Reader::Flow(0),
        Wanted::End(2),
    ),
    (
        ("[", "k", 1024, ": v]", 1),
        Reader::Flow(0),
        Wanted::End(1029),
    ),
    (
        ("[", "k", 1025, ": v]", 1),
        Reader::Flow(0),
        Wanted::Nothing,
    ),
    (
        ("{", "k", 1025, ": v}", 1),
        Reader::Flow(0),
        Wanted::End(1030),
    ),
    (("", "- ", 1024, "a", 1), Reader::Block, Wanted::End(2049)),
    (("", "- ", 1025, "a", 1), Reader::Block, Wanted::TooDeep),
    (("", "k", 1024, ": v", 1), Reader::Block, Wanted::End(1027)),
    (("", "k", 1025, ": v", 1), Reader::Block, Wanted::Nothing),
    (
        ("- a\n- ", "[", 1024, "]", 1),
        Reader::Block,
        Wanted::End(4),
    ),
    (
        ("a: b\nc: ", "[", 1024, "]", 1),
        Reader::Block,
        Wanted::End(5),
    ),
];

fn style_sign(style: ScalarStyle) -> &'static str {
    match style {
        ScalarStyle::Plain => "=VAL :",
        ScalarStyle::Single => "=VAL '",
        ScalarStyle::Double => "=VAL \"",
        ScalarStyle::Literal => "=VAL |",
        ScalarStyle::Folded => "=VAL >",
    }
}

/// Returns the sign and the text of an event.
fn shown<'e>(event: &Event<'e>) -> (&'static str, &'e str) {
    match event {
        Event::SeqStart { flow, .. } => (if *flow { "+SEQ []" } else { "+SEQ" }, ""),
        Event::SeqEnd => ("-SEQ", ""),
        Event::MapStart { flow, .. } => (if *flow { "+MAP {}" } else { "+MAP" }, ""),
        Event::MapEnd => ("-MAP", ""),
        Event::Alias { name } => ("=ALI *", *name),
        Event::Scalar { style, text, .. } => (style_sign(*style), *text),
        _ => ("no node", ""),
    }
}

/// Returns whether a part has these events.
fn has_events(part: &Part, wanted: Events) -> bool {
    if part.events.len() != wanted.len() {
        return false;
    }
    for i in 0..wanted.len() {
        if shown(&part.events.event(i)) != wanted[i] {
            return false;
        }
    }
    true
}

/// Returns whether a node is as expected.
fn is_node(part: &Part, end: usize, escape: usize, wanted: Wanted) -> bool {
    match wanted {
        Wanted::Node(events, at) => end == at && escape == 0 && has_events(part, events),
        Wanted::End(at) => end == at && escape == 0,
        Wanted::Escape(events, at, column) => {
            end == at && escape == column && has_events(part, events)
        }
        Wanted::Nothing | Wanted::TooDeep => false,
    }
}

/// Returns whether the result of the reader is as expected.
fn is_read(found: &ReadResult<NodePart>, wanted: Wanted) -> bool {
    match found {
        Ok(Some(node)) => is_node(&node.part, node.end, 0, wanted),
        Ok(None) => matches!(wanted, Wanted::Nothing),
        Err(Fault::TooDeep { .. }) => matches!(wanted, Wanted::TooDeep),
        Err(Fault::EscapeValue { place }) => {
            place.line == 1
                && matches!(wanted, Wanted::Escape(_, _, column) if place.column == column)
        }
        Err(_) => false,
    }
}

/// Returns whether the result of the scan is as expected.
fn is_scanned(found: &ScanResult, wanted: Wanted) -> bool {
    match found {
        Ok(Some(node)) => {
            let column = match node.escape {
                Some(place) => place.column,
                None => 0,
            };
            is_node(&node.part, node.end, column, wanted)
        }
        Ok(None) => matches!(wanted, Wanted::Nothing),
        Err(Fault::TooDeep { .. }) => matches!(wanted, Wanted::TooDeep),
        Err(_) => false,
    }
}

/// Returns whether the start of a source is read and scanned as expected.
fn reads(alloc: Global, src: &Src, reader: Reader, wanted: Wanted) -> bool {
    if !src.text().is_char_boundary(0) {
        return false;
    }
    match reader {
        Reader::Flow(n) => {
            is_read(&read_flow_node(alloc, src, 0, n, Ctx::FlowOut), wanted)
                && is_scanned(&scan_flow_node(alloc, src, 0, n, Ctx::FlowOut), wanted)
        }
        Reader::Key => {
            is_read(&read_implicit_key(alloc, src, 0, Ctx::BlockKey), wanted)
                && is_scanned(&scan_implicit_key(alloc, src, 0, Ctx::BlockKey), wanted)
        }
        Reader::Block => {
            is_read(&read_block_node(alloc, src, 0, -1, Ctx::BlockIn), wanted)
                && is_scanned(&scan_block_node(alloc, src, 0, -1, Ctx::BlockIn), wanted)
        }
    }
}

/// Returns whether the start of a text is read and scanned as expected.
fn begins(alloc: Global, text: &str, reader: Reader, wanted: Wanted) -> bool {
    match &Src::new(alloc, text) {
        Ok(src) => reads(alloc, src, reader, wanted),
        Err(AllocError) => false,
    }
}

/// Returns whether a text of repeated parts is read and scanned as expected.
fn is_limit(alloc: Global, row: &(Repeated, Reader, Wanted)) -> bool {
    match &repeated(alloc, &row.0) {
        Ok(text) => begins(alloc, text.as_str(), row.1, row.2),
        Err(AllocError) => false,
    }
}

#[test]
fn reads_and_scans_nodes(rt: HostRuntime) {
    for (text, reader, wanted) in &NODES {
        assert!(rt; begins(rt.alloc(), text, *reader, *wanted), "{text}");
    }
    for row in &LIMITS {
        assert!(rt; is_limit(rt.alloc(), row), "{}{} {}", row.0.0, row.0.1, row.0.2);
    }
}
