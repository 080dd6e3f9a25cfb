//! The events of a stream (YAML 1.2.2, section 3.1.1 "Dump", the serialization events), each with its offsets.

use crate::slices::Slices;
use yf_lines::text::Text;
use yf_props::props::Props;

/// The style of a scalar (YAML 1.2.2, sections 7.3 and 8.1).
#[derive(Clone, Copy, PartialEq, Eq)]
pub enum ScalarStyle {
    Plain,
    Single,
    Double,
    Literal,
    Folded,
}

/// One event, as a list of events returns it. `explicit` is whether `---` or `...` is written, `flow` whether the
/// collection is a flow collection (a single pair is one).
#[derive(Clone, Copy)]
pub enum Event<'r> {
    StreamStart,
    StreamEnd,
    DocStart {
        explicit: bool,
    },
    DocEnd {
        explicit: bool,
    },
    SeqStart {
        flow: bool,
        props: Props<'r>,
    },
    SeqEnd,
    MapStart {
        flow: bool,
        props: Props<'r>,
    },
    MapEnd,
    Scalar {
        props: Props<'r>,
        style: ScalarStyle,
        text: &'r str,
    },
    Alias {
        name: &'r str,
    },
}

/// One event to be added to a list, with its text.
#[derive(Drop)]
pub enum NewEvent<'a> {
    StreamStart,
    StreamEnd,
    DocStart {
        explicit: bool,
    },
    DocEnd {
        explicit: bool,
    },
    SeqStart {
        flow: bool,
        props: Props<'a>,
    },
    SeqEnd,
    MapStart {
        flow: bool,
        props: Props<'a>,
    },
    MapEnd,
    Scalar {
        props: Props<'a>,
        style: ScalarStyle,
        text: Text<'a>,
    },
    Alias {
        name: &'a str,
    },
}

/// The part of the text from one byte offset to another.
#[derive(Clone, Copy)]
pub struct Span {
    pub start: usize,
    pub end: usize,
}

/// An entry of a collection.
#[derive(Clone, Copy)]
pub struct Entry {
    /// The byte offset of its `-` or `?`, or else of its item or key, or else of the `:` of an empty key.
    pub start: usize,
    /// The byte offset of its `:`, if it has one.
    pub colon: Option<usize>,
    /// Whether a blank line is before it, with only white space and line breaks between.
    pub blank_before: bool,
}

/// An event to be added to a list, with its offsets in the text.
#[derive(Drop)]
pub struct PlacedEvent<'a> {
    pub event: NewEvent<'a>,
    /// The text of the node with its properties, for the event that begins it. Empty nodes and other events have
    /// none.
    pub span: Option<Span>,
    /// The byte offset of the `!` of the node's tag.
    pub tag_offset: Option<usize>,
    /// The entry that the event begins, as its item or key.
    pub entry: Option<Entry>,
    /// The lines of a scalar that was read as a folded one.
    pub folded: Slices<'a>,
}

/// An event in a list with its offsets, by value.
#[derive(Clone, Copy)]
pub struct View<'r> {
    pub event: Event<'r>,
    pub span: Option<Span>,
    pub tag_offset: Option<usize>,
    pub entry: Option<Entry>,
    pub folded: &'r [&'r str],
}
