//! The parts of a text that an editor may fold.
ghost use Rattle.std.specs.Prelude.{◌≡◌, ◌++◌, ◌∷◌, List, None, IfOk, flat_map, option_map, reverse};
ghost use Rattle.yf_events.specs.Event.{event_value};
ghost use Rattle.yf_events.specs.Tree.{DocumentTree, TreesOf};
ghost use Rattle.yf_problems.specs.FoldPass as FoldPass;
ghost use Rattle.yf_problems.specs.Folds as Folds;
ghost use Rattle.yf_problems.specs.Folds.{FindsParts, IsRefusedText};
ghost use Rattle.yf_stream.specs.StreamReader.{StreamFault, TheReading};

use crate::comment_rows::push_comments;
use std::alloc::{AllocError, Global};
use yf_events::event::{Entry, Event, ScalarStyle, Span};
use yf_events::reading::Reading;
use yf_lines::fault::Fault;
use yf_outline::white_space::last_content;
use yf_rules::run::INPUT_LIMIT;
use yf_server::analysis::Foldable;
use yf_stream::stream::read_stream;

// Returns the start of the entry that a node is in.
fn entry_start(before: Option<usize>, entry: Option<Entry>) -> Option<usize>
    ensures { result ≡ Folds.entry_start before entry }
{
    match entry {
        None => before,
        Some(entry) => Some(entry.start),
    }
}

// Returns the start of a node's entry, or of the node if it is in none.
fn start_or(entry: Option<usize>, start: usize) -> usize
    ensures { result ≡ Folds.start_or entry start }
{
    match entry {
        None => start,
        Some(entry) => entry,
    }
}

// Adds the part of a node.
fn push_part(
    parts: &mut Vec<Foldable>,
    text: &str,
    start: Option<usize>,
    span: Option<Span>,
) -> Result<(), AllocError>
    ensures { IfOk result (λ _. parts.new.items ≡ parts.old.items ++ Folds.part_of text.now start span) }
{
    if let Some(span) = span {
        parts.push(Foldable {
            start: start_or(start, span.start),
            last: last_content(text, span.end),
            is_comment: false,
        })?;
    }
    Ok(())
}

fn is_plain(style: ScalarStyle) -> bool
    ensures { result ≡ Folds.is_plain style }
{
    match style {
        ScalarStyle::Plain => true,
        ScalarStyle::Single => false,
        ScalarStyle::Double => false,
        ScalarStyle::Literal => false,
        ScalarStyle::Folded => false,
    }
}

// Adds the part of a scalar, unless it is plain.
fn push_scalar(
    parts: &mut Vec<Foldable>,
    text: &str,
    style: ScalarStyle,
    start: Option<usize>,
    span: Option<Span>,
) -> Result<(), AllocError>
    ensures { IfOk result (λ _. parts.new.items ≡ parts.old.items ++ Folds.scalar_part text.now style start span) }
{
    if is_plain(style) {
        return Ok(());
    }
    push_part(parts, text, start, span)
}

// Passes a node in the innermost open collection, and returns the start of its entry.
fn pass_node(
    stack: &mut Vec<Option<usize>>,
    entry: Option<Entry>,
) -> Result<Option<usize>, AllocError>
    ensures stack { IfOk result (λ _. reverse stack.new.items ≡ FoldPass.after entry (reverse stack.old.items)) }
    ensures start { IfOk result (λ start.
        start ≡ Folds.entry_start (FoldPass.last_entry (reverse stack.old.items)) entry) }
{
    match stack.pop() {
        Some(before) => {
            let start = entry_start(before, entry);
            stack.push(start)?;
            Ok(start)
        }
        None => Ok(entry_start(None, entry)),
    }
}

// Passes the end of the innermost open collection.
fn pass_end(stack: &mut Vec<Option<usize>>)
    ensures { reverse stack.new.items ≡ FoldPass.without_first (reverse stack.old.items) }
{
    match stack.pop() {
        Some(_) => {}
        None => {}
    }
}

// Adds the part of a collection that is the root of a document.
fn push_root(
    parts: &mut Vec<Foldable>,
    text: &str,
    flow: bool,
    start: Option<usize>,
    span: Option<Span>,
) -> Result<(), AllocError>
    ensures { IfOk result (λ _. parts.new.items ≡ parts.old.items ++ Folds.root_part text.now flow start span) }
{
    if flow {
        return push_part(parts, text, start, span);
    }
    Ok(())
}

// Passes the start of a collection.
fn pass_start(
    stack: &mut Vec<Option<usize>>,
    parts: &mut Vec<Foldable>,
    text: &str,
    flow: bool,
    span: Option<Span>,
    entry: Option<Entry>,
) -> Result<(), AllocError>
    ensures stack { IfOk result (λ _. reverse stack.new.items ≡ None ∷ FoldPass.after entry (reverse stack.old.items)) }
    ensures parts { IfOk result (λ _. parts.new.items ≡ parts.old.items
        ++ FoldPass.collection_part text.now flow span entry (reverse stack.old.items)) }
{
    match stack.pop() {
        Some(before) => {
            let start = entry_start(before, entry);
            push_part(parts, text, start, span)?;
            stack.push(start)?;
        }
        None => push_root(parts, text, flow, entry_start(None, entry), span)?,
    }
    stack.push(None)?;
    Ok(())
}

// Passes one event with its offsets.
fn pass(
    event: Event,
    stack: &mut Vec<Option<usize>>,
    parts: &mut Vec<Foldable>,
    text: &str,
    span: Option<Span>,
    entry: Option<Entry>,
) -> Result<(), AllocError>
    ensures stack { IfOk result (λ _.
        reverse stack.new.items ≡ FoldPass.next (event_value event.entry) entry (reverse stack.old.items)) }
    ensures parts { IfOk result (λ _. parts.new.items ≡ parts.old.items
        ++ FoldPass.found_by text.now (event_value event.entry) span entry (reverse stack.old.items)) }
{
    match event {
        Event::Scalar { style, .. } => {
            let start = pass_node(stack, entry)?;
            push_scalar(parts, text, style, start, span)
        }
        Event::Alias { .. } => {
            let _ = pass_node(stack, entry)?;
            Ok(())
        }
        Event::SeqStart { flow, .. } => pass_start(stack, parts, text, flow, span, entry),
        Event::MapStart { flow, .. } => pass_start(stack, parts, text, flow, span, entry),
        Event::SeqEnd => {
            pass_end(stack);
            Ok(())
        }
        Event::MapEnd => {
            pass_end(stack);
            Ok(())
        }
        Event::StreamStart => Ok(()),
        Event::StreamEnd => Ok(()),
        Event::DocStart { .. } => Ok(()),
        Event::DocEnd { .. } => Ok(()),
    }
}

// Returns the parts of the nodes of a reading.
fn node_parts(alloc: Global, text: &str, reading: &Reading) -> Result<Vec<Foldable>, AllocError>
    ensures { IfOk result (λ parts. (trees : List DocumentTree) → TreesOf reading.now trees
        → parts.items ≡ flat_map (Folds.document_parts text.now) trees) }
{
    let mut stack = Vec::new(alloc);
    let mut parts = Vec::new(alloc);
    for i in 0..reading.len() {
        let span = reading.span(i);
        let entry = reading.entry(i);
        pass(reading.event(i), &mut stack, &mut parts, text, span, entry)?;
    }
    Ok(parts)
}

// Returns whether a fault is that memory was refused.
fn is_memory(fault: &Fault) -> bool
    ensures { result ≡ Folds.is_memory fault.now }
{
    matches!(fault, Fault::Memory)
}

/// Returns an error if memory was refused. Otherwise the text is refused.
pub(crate) fn unless_memory(text: &str, fault: &Fault) -> Result<(), AllocError>
    requires { StreamFault text.now fault.now }
    ensures { IfOk result (λ _. IsRefusedText text.now) }
{
    if is_memory(fault) {
        return Err(AllocError);
    }
    Ok(())
}

// Returns the parts of a text with a reading.
fn parts_in(
    alloc: Global,
    text: &str,
    reading: &Reading,
) -> Result<Option<Vec<Foldable>>, AllocError>
    requires { TheReading text.now reading.now }
    ensures { IfOk result (λ parts. FindsParts text.now (option_map (λ v. v.items) parts)) }
{
    let mut parts = node_parts(alloc, text, reading)?;
    push_comments(&mut parts, text, reading.comments())?;
    Ok(Some(parts))
}

/// Returns the parts of a text that may be folded: its collections, except block collections that are the root of a
/// document; its scalars that are not plain; and its comment lines. `None` if the text is refused.
///
/// # Errors
///
/// `AllocError` if memory is refused.
pub fn foldable_parts(alloc: Global, text: &str) -> Result<Option<Vec<Foldable>>, AllocError>
    ensures { IfOk result (λ parts. FindsParts text.now (option_map (λ v. v.items) parts)) }
{
    if text.len() > INPUT_LIMIT {
        return Ok(None);
    }
    match read_stream(alloc, text) {
        Ok(reading) => parts_in(alloc, text, &reading),
        Err(fault) => {
            unless_memory(text, &fault)?;
            Ok(None)
        }
    }
}
