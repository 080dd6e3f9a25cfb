//! The entries of a text, each one before those in it.
ghost use Rattle.std.specs.Prelude.{◌≡◌, ◌++◌, ◌∷◌, List, IfOk, length, nat_lt, reverse};
ghost use Rattle.yf_events.specs.Event.{event_value};
ghost use Rattle.yf_events.specs.Tree.{DocumentTree, TreesOf};
ghost use Rattle.yf_outline.specs.Outline as spec;
ghost use Rattle.yf_outline.specs.OutlinePass as steps;

use crate::white_space::{byte_at, is_break, last_content};
use std::alloc::{AllocError, Global};
use yf_events::event::{Entry, Event, Span};
use yf_events::reading::Reading;
use yf_server::analysis::{Part, PartKind, TextSpan};

/// The greatest depth of an entry with a part, plus 1.
pub const DEEPEST: usize = 50;

/// An entry, by its key or its item.
#[derive(Clone, Copy)]
pub struct Key {
    /// The start of the entry.
    pub start: usize,
    /// Its name.
    pub name: TextSpan,
    /// The offset at which its value is if the value is empty.
    pub after: usize,
}

/// An open collection, with the depth of its entries.
#[derive(Clone, Copy)]
pub enum Frame {
    /// A sequence.
    Items { depth: usize },
    /// A mapping. The next node is a key.
    Keys { depth: usize },
    /// A mapping. The next node is the value of the key.
    Value { depth: usize, key: Key },
}

// Returns the offset after a byte, or the end of the text.
fn past(text: &str, offset: usize) -> usize
    ensures { result ≡ spec.past text.now offset }
{
    if offset < text.len() {
        offset + 1
    } else {
        text.len()
    }
}

// Returns the end of a node without the white space and the line breaks at its end.
fn content_end(text: &str, end: usize) -> usize
    ensures { result ≡ spec.content_end text.now end }
{
    past(text, last_content(text, end))
}

// Returns the end of the first line from one offset to another.
fn line_end(text: &str, start: usize, end: usize) -> usize
    ensures { result ≡ spec.line_end text.now start end }
{
    let mut at = start;
    while at < end {
        if is_break(byte_at(text, at)) {
            return at;
        }
        at += 1;
    }
    at
}

// Returns the span of a node. An empty node is at the other offset.
fn node_span(text: &str, span: Option<Span>, other: usize) -> TextSpan
    ensures { result ≡ spec.node_span text.now span other }
{
    match span {
        None => TextSpan {
            start: other,
            end: other,
        },
        Some(span) => TextSpan {
            start: span.start,
            end: content_end(text, span.end),
        },
    }
}

// Returns the first line of a key or an item; of an empty one, the sign at the start of its entry.
fn name_span(text: &str, span: Option<Span>, start: usize) -> TextSpan
    ensures { result ≡ spec.name_span text.now span start }
{
    match span {
        None => TextSpan {
            start,
            end: past(text, start),
        },
        Some(span) => TextSpan {
            start: span.start,
            end: line_end(text, span.start, content_end(text, span.end)),
        },
    }
}

// Returns the start of an entry, by the node that begins it.
fn entry_start(span: Option<Span>, entry: Option<Entry>) -> usize
    ensures { result ≡ spec.entry_start span entry }
{
    match entry {
        Some(entry) => entry.start,
        None => match span {
            Some(span) => span.start,
            None => 0,
        },
    }
}

// Returns the end of a key or an item.
fn key_end(text: &str, span: Option<Span>, start: usize) -> usize
    ensures { result ≡ spec.key_end text.now span start }
{
    match span {
        None => past(text, start),
        Some(span) => content_end(text, span.end),
    }
}

// Returns the offset after the `:` of an entry, or another one if it has none.
fn after_entry(text: &str, entry: Option<Entry>, end: usize) -> usize
    ensures { result ≡ spec.after_entry text.now entry end }
{
    match entry {
        None => end,
        Some(entry) => match entry.colon {
            None => end,
            Some(colon) => past(text, colon),
        },
    }
}

// Returns an entry by the node that begins it.
fn key_of(text: &str, span: Option<Span>, entry: Option<Entry>) -> Key
    ensures { result ≡ spec.key_of text.now span entry }
{
    let start = entry_start(span, entry);
    let end = key_end(text, span, start);
    Key {
        start,
        name: name_span(text, span, start),
        after: after_entry(text, entry, end),
    }
}

fn scalar_kind(span: Option<Span>) -> PartKind
    ensures { result ≡ spec.scalar_kind span }
{
    match span {
        None => PartKind::Empty,
        Some(_) => PartKind::Scalar,
    }
}

// Returns the depth of the parts in a part.
fn deeper(depth: usize) -> usize
    ensures { result ≡ spec.deeper depth }
{
    if depth < DEEPEST { depth + 1 } else { depth }
}

// Adds the part of an entry, unless it is too deep.
fn push_entry(
    parts: &mut Vec<Part>,
    text: &str,
    depth: usize,
    kind: PartKind,
    span: Option<Span>,
    key: Key,
) -> Result<(), AllocError>
    ensures { IfOk result (λ _. parts.new.items
        ≡ parts.old.items ++ spec.shown (spec.entry_part text.now depth kind span key)) }
{
    if depth < DEEPEST {
        let node = node_span(text, span, key.after);
        parts.push(Part {
            depth,
            kind,
            whole: TextSpan {
                start: key.start,
                end: node.end,
            },
            name: key.name,
            node,
        })?;
    }
    Ok(())
}

// Adds the part of the root of a document, if it is not empty.
fn push_document(parts: &mut Vec<Part>, text: &str, span: Option<Span>) -> Result<(), AllocError>
    ensures { IfOk result (λ _. parts.new.items ≡ parts.old.items ++ spec.document_part text.now span) }
{
    if let Some(found) = span {
        let node = node_span(text, Some(found), 0);
        parts.push(Part {
            depth: 0,
            kind: PartKind::Document,
            whole: node,
            name: name_span(text, Some(found), 0),
            node,
        })?;
    }
    Ok(())
}

// Adds the part of the root of a document, if there are several documents.
fn push_root(
    parts: &mut Vec<Part>,
    text: &str,
    several: bool,
    span: Option<Span>,
) -> Result<(), AllocError>
    ensures { IfOk result (λ _. parts.new.items ≡ parts.old.items ++ spec.root_part text.now several span) }
{
    if several {
        return push_document(parts, text, span);
    }
    Ok(())
}

// Returns the depth of the entries in the root of a document.
fn root_depth(several: bool) -> usize
    ensures { result ≡ spec.root_depth several }
{
    if several { 1 } else { 0 }
}

// Adds the part of a node in an open collection, and returns the collection after it.
fn pass_in(
    frame: Frame,
    parts: &mut Vec<Part>,
    text: &str,
    kind: PartKind,
    span: Option<Span>,
    entry: Option<Entry>,
) -> Result<Frame, AllocError>
    ensures frame { IfOk result (λ after. after ≡ steps.turned text.now frame span entry) }
    ensures parts { IfOk result (λ _. parts.new.items
        ≡ parts.old.items ++ steps.found_in text.now frame kind span entry) }
{
    match frame {
        Frame::Items { depth } => {
            push_entry(parts, text, depth, kind, span, key_of(text, span, entry))?;
            Ok(Frame::Items { depth })
        }
        Frame::Keys { depth } => Ok(Frame::Value {
            depth,
            key: key_of(text, span, entry),
        }),
        Frame::Value { depth, key } => {
            push_entry(parts, text, depth, kind, span, key)?;
            Ok(Frame::Keys { depth })
        }
    }
}

// Returns the depth of the entries of a node in an open collection.
fn inner(frame: Frame) -> usize
    ensures { result ≡ steps.inner frame }
{
    match frame {
        Frame::Items { depth } => deeper(depth),
        Frame::Keys { depth: _ } => DEEPEST,
        Frame::Value { depth, key: _ } => deeper(depth),
    }
}

// Adds the part of a node in the innermost open collection, and returns the depth of the node's entries.
fn pass_node(
    stack: &mut Vec<Frame>,
    parts: &mut Vec<Part>,
    text: &str,
    several: bool,
    kind: PartKind,
    span: Option<Span>,
    entry: Option<Entry>,
) -> Result<usize, AllocError>
    ensures stack { IfOk result (λ _.
        reverse stack.new.items ≡ steps.after text.now span entry (reverse stack.old.items)) }
    ensures parts { IfOk result (λ _. parts.new.items
        ≡ parts.old.items ++ steps.found text.now several kind span entry (reverse stack.old.items)) }
    ensures depth { IfOk result (λ depth. depth ≡ steps.depth_in several (reverse stack.old.items)) }
{
    match stack.pop() {
        Some(frame) => {
            let after = pass_in(frame, parts, text, kind, span, entry)?;
            stack.push(after)?;
            Ok(inner(frame))
        }
        None => {
            push_root(parts, text, several, span)?;
            Ok(root_depth(several))
        }
    }
}

// Passes the end of the innermost open collection.
fn pass_end(stack: &mut Vec<Frame>)
    ensures { reverse stack.new.items ≡ steps.without_first (reverse stack.old.items) }
{
    match stack.pop() {
        Some(_) => {}
        None => {}
    }
}

// Passes one event with its offsets.
fn pass(
    event: Event,
    stack: &mut Vec<Frame>,
    parts: &mut Vec<Part>,
    text: &str,
    several: bool,
    span: Option<Span>,
    entry: Option<Entry>,
) -> Result<(), AllocError>
    ensures stack { IfOk result (λ _. reverse stack.new.items
        ≡ steps.next text.now several (event_value event.entry) span entry (reverse stack.old.items)) }
    ensures parts { IfOk result (λ _. parts.new.items ≡ parts.old.items
        ++ steps.found_by text.now several (event_value event.entry) span entry (reverse stack.old.items)) }
{
    match event {
        Event::Scalar { .. } => {
            let _ = pass_node(stack, parts, text, several, scalar_kind(span), span, entry)?;
            Ok(())
        }
        Event::Alias { .. } => {
            let _ = pass_node(stack, parts, text, several, PartKind::Alias, span, entry)?;
            Ok(())
        }
        Event::SeqStart { .. } => {
            let depth = pass_node(stack, parts, text, several, PartKind::Sequence, span, entry)?;
            stack.push(Frame::Items { depth })?;
            Ok(())
        }
        Event::MapStart { .. } => {
            let depth = pass_node(stack, parts, text, several, PartKind::Mapping, span, entry)?;
            stack.push(Frame::Keys { depth })?;
            Ok(())
        }
        Event::SeqEnd => {
            pass_end(stack);
            Ok(())
        }
        Event::MapEnd => {
            pass_end(stack);
            Ok(())
        }
        Event::StreamStart => Ok(()),
        Event::StreamEnd => Ok(()),
        Event::DocStart { .. } => Ok(()),
        Event::DocEnd { .. } => Ok(()),
    }
}

// Returns whether a reading has several documents.
fn has_several(reading: &Reading) -> bool
    ensures { result ≡ nat_lt 1 (length reading.now.documents) }
{
    reading.documents().len() > 1
}

/// Returns the outline of a text with this reading: a part for each entry of a collection, except those in a key, and
/// for the root of each document if there are several documents.
///
/// # Errors
///
/// `AllocError` if memory is refused.
pub fn outline(alloc: Global, text: &str, reading: &Reading) -> Result<Vec<Part>, AllocError>
    ensures { IfOk result (λ parts. (trees : List DocumentTree) → TreesOf reading.now trees
        → parts.items ≡ spec.outline_of text.now trees) }
{
    let several = has_several(reading);
    let mut stack = Vec::new(alloc);
    let mut parts = Vec::new(alloc);
    for i in 0..reading.len() {
        let span = reading.span(i);
        let entry = reading.entry(i);
        pass(
            reading.event(i),
            &mut stack,
            &mut parts,
            text,
            several,
            span,
            entry,
        )?;
    }
    Ok(parts)
}
