//! Properties and tag handles. The names and ends were worked out by hand from the productions.

use std::alloc::{AllocError, Global};
use yf_chars::context::Ctx;
use yf_lines::fault::Fault;
use yf_lines::place::Position;
use yf_lines::source_text::Src;
use yf_lines::text::Text;
use yf_props::handles::Handles;
use yf_props::properties::Properties;
use yf_props::props::Tag;
use yf_props::read::read_props;
use yf_props::resolved::ResolvedTag;

/// A text, the offset at which properties begin, the indentation, the offset at which the properties end, their anchor,
/// the offset at which their tag begins, the tag's handle and suffix (for a verbatim tag `<>` and its text), and the
/// number of comments.
type Row = (
    &'static str,
    usize,
    i32,
    usize,
    Option<&'static str>,
    Option<usize>,
    (&'static str, &'static str),
    usize,
);

static PROPERTIES: [Row; 7] = [
    ("&a !!str x", 0, 0, 8, Some("a"), Some(3), ("!!", "str"), 0),
    ("&a", 0, -1, 2, Some("a"), None, ("", ""), 0),
    (
        "!<a%21> # c\n  &b: x",
        0,
        2,
        17,
        Some("b:"),
        Some(0),
        ("<>", "a%21"),
        1,
    ),
    // a suffix is not empty
    ("!! x", 0, 0, 1, None, Some(0), ("!", ""), 0),
    ("!e! x", 0, 0, 2, None, Some(0), ("!", "e"), 0),
    // names extend as far as their characters
    ("&a: !-!b,", 0, 0, 8, Some("a:"), Some(4), ("!-!", "b"), 0),
    // before a comment
    ("- &a x # c\n- *a\n", 2, 0, 4, Some("a"), None, ("", ""), 0),
];

/// Returns whether these are the properties of the row.
fn are_wanted(found: &Result<Option<Properties>, Fault>, row: &Row) -> bool {
    match found {
        Ok(Some(found)) => {
            let tag = match found.props.tag {
                Some(Tag::Short { handle, suffix }) => (handle, suffix),
                Some(Tag::Verbatim(text)) => ("<>", text),
                Some(Tag::NonSpecific) => ("!", ""),
                None => ("", ""),
            };
            found.end == row.3
                && found.props.anchor == row.4
                && found.tag_offset == row.5
                && tag == row.6
                && found.comments.len() == row.7
        }
        _ => false,
    }
}

/// Returns whether the properties of the row are read.
fn reads(alloc: Global, row: &Row) -> bool {
    match &Src::new(alloc, row.0) {
        Ok(src) => are_wanted(&read_props(alloc, src, row.1, row.2, Ctx::FlowIn), row),
        Err(AllocError) => false,
    }
}

/// Handles and prefixes in the order of their declarations, and whether the handle was free. A default is not a
/// declaration, and a declared prefix is kept.
static DECLARED: [(&str, &str, bool); 3] = [
    ("!e!", "tag:e.com,2000:", true),
    ("!e!", "tag:other,2000:", false),
    ("!!", "tag:f.com,2000:", true),
];

/// Tags, and the texts that they stand for after these declarations. The text is empty if the handle is unknown.
static TAGS: [(Tag, &str); 6] = [
    (
        Tag::Short {
            handle: "!e!",
            suffix: "t%21",
        },
        "tag:e.com,2000:t!",
    ),
    (
        Tag::Short {
            handle: "!e!",
            suffix: "t%FF",
        },
        "tag:e.com,2000:t%FF",
    ),
    (
        Tag::Short {
            handle: "!!",
            suffix: "int",
        },
        "tag:f.com,2000:int",
    ),
    (Tag::Verbatim("a%21"), "a%21"),
    (Tag::NonSpecific, "!"),
    (
        Tag::Short {
            handle: "!x!",
            suffix: "t",
        },
        "",
    ),
];

const PLACE: Position = Position { line: 1, column: 3 };

/// Returns whether a tag stands for this text, or its handle is unknown.
fn is_resolved(resolved: &Result<ResolvedTag, Fault>, wanted: &str) -> bool {
    match resolved {
        Ok(resolved) => *resolved == ResolvedTag::new(wanted, Text::Part("")),
        Err(Fault::UnknownHandle { place }) => wanted.is_empty() && *place == PLACE,
        Err(_) => false,
    }
}

/// Returns whether handles are declared as `DECLARED` says.
fn are_declared(handles: &mut Handles<'static>) -> bool {
    for (handle, prefix, free) in &DECLARED {
        if !matches!(handles.declare(handle, prefix), Ok(was_free) if was_free == *free) {
            return false;
        }
    }
    true
}

/// Returns whether the tag stands for this text with these handles.
fn resolves(alloc: Global, handles: &Handles, tag: &Tag, wanted: &str) -> bool {
    is_resolved(&handles.resolve(alloc, tag, PLACE), wanted)
}

/// Returns whether the tag stands for this text after these declarations.
fn is_at_for(alloc: Global, tag: &Tag, wanted: &str) -> bool {
    let mut handles = Handles::new(alloc);
    are_declared(&mut handles) && resolves(alloc, &handles, tag, wanted)
}

#[test]
fn reads_properties_and_resolves_tags(rt: HostRuntime) {
    for row in &PROPERTIES {
        assert!(rt; reads(rt.alloc(), row), "{}", row.0);
    }
    for (tag, wanted) in &TAGS {
        assert!(rt; is_at_for(rt.alloc(), tag, wanted), "{wanted}");
    }
}
