//! Keys and items without a value: an empty node without properties, for which the text has nothing (YAML 1.2.2,
//! section 7.2).
ghost use Rattle.std.specs.Prelude.{◌≡◌, ◌++◌, List, flat_map, reverse, IfOk};
ghost use Rattle.yf_events.specs.Event.{event_value};
ghost use Rattle.yf_events.specs.Tree.{DocumentTree, TreesOf};
ghost use Rattle.yf_lint.specs.EmptyPass as EmptyPass;
ghost use Rattle.yf_lint.specs.EmptyValues as EmptyValues;
ghost use Rattle.yf_lint.specs.EmptyValues.{empty_values_of};

use std::alloc::{AllocError, Global};
use yf_events::event::{Entry, Event, Span};
use yf_events::reading::Reading;
use yf_guard::scalars::is_empty_scalar;

/// A collection that has not ended yet.
#[derive(Clone, Copy)]
pub struct OpenEntries {
    pub is_map: bool,
    /// Whether a value comes next, in a mapping.
    pub at_value: bool,
    /// The byte offset of the last key, in a mapping.
    pub key_start: usize,
}

/// Returns the byte offset of a node, or for an empty node that of its entry's `:`, `-` or `?`.
fn node_start(span: Option<Span>, entry: Option<Entry>) -> usize
    ensures { result ≡ EmptyValues.start_of span entry }
{
    if let Some(span) = span {
        return span.start;
    }
    match entry {
        Some(entry) => match entry.colon {
            Some(colon) => colon,
            None => entry.start,
        },
        None => 0,
    }
}

/// Returns the offset at fault if an empty node comes next in the collection.
fn fault_in(entries: OpenEntries, start: usize) -> Option<usize>
    ensures { result ≡ EmptyPass.fault_in entries start }
{
    if entries.is_map {
        if entries.at_value {
            return Some(entries.key_start);
        }
        return None;
    }
    Some(start)
}

/// Returns the collection after one more node, which begins at `start`.
fn turned(entries: OpenEntries, start: usize) -> OpenEntries
    ensures { result ≡ EmptyPass.turned start entries }
{
    OpenEntries {
        is_map: entries.is_map,
        at_value: !entries.at_value,
        key_start: last_key(entries, start),
    }
}

fn last_key(entries: OpenEntries, start: usize) -> usize
    ensures { result ≡ EmptyPass.last_key entries start }
{
    if entries.at_value {
        return entries.key_start;
    }
    start
}

fn opened(is_map: bool) -> OpenEntries
    ensures { result ≡ EmptyPass.opened is_map }
{
    OpenEntries {
        is_map,
        at_value: false,
        key_start: 0,
    }
}

/// Adds the offset, if there is one and the node is empty.
fn push_fault(
    offsets: &mut Vec<usize>,
    is_empty: bool,
    fault: Option<usize>,
) -> Result<(), AllocError>
    ensures { IfOk result (λ _. offsets.new.items ≡ offsets.old.items ++ EmptyPass.faults is_empty fault) }
{
    if let Some(offset) = fault {
        if is_empty {
            offsets.push(offset)?;
        }
    }
    Ok(())
}

/// Passes a node in the innermost open collection.
fn pass_node(
    stack: &mut Vec<OpenEntries>,
    offsets: &mut Vec<usize>,
    is_empty: bool,
    start: usize,
) -> Result<(), AllocError>
    ensures stack { IfOk result (λ _. reverse stack.new.items ≡ EmptyPass.after start (reverse stack.old.items)) }
    ensures offsets { IfOk result (λ _. offsets.new.items ≡ offsets.old.items ++ EmptyPass.found_at is_empty start (reverse stack.old.items)) }
{
    match stack.pop() {
        Some(entries) => {
            stack.push(turned(entries, start))?;
            push_fault(offsets, is_empty, fault_in(entries, start))
        }
        None => Ok(()),
    }
}

/// Passes the end of the innermost open collection.
fn pass_end(stack: &mut Vec<OpenEntries>)
    ensures { reverse stack.new.items ≡ EmptyPass.without_first (reverse stack.old.items) }
{
    match stack.pop() {
        Some(_) => {}
        None => {}
    }
}

/// Passes one event with its start.
fn pass(
    event: Event,
    start: usize,
    stack: &mut Vec<OpenEntries>,
    offsets: &mut Vec<usize>,
) -> Result<(), AllocError>
    ensures stack { IfOk result (λ _. reverse stack.new.items ≡ EmptyPass.next (event_value event.entry) start (reverse stack.old.items)) }
    ensures offsets { IfOk result (λ _. offsets.new.items ≡ offsets.old.items
        ++ EmptyPass.found_by (event_value event.entry) start (reverse stack.old.items)) }
{
    match event {
        Event::Scalar { props, style, text } => {
            pass_node(stack, offsets, is_empty_scalar(&props, style, text), start)
        }
        Event::Alias { .. } => pass_node(stack, offsets, false, start),
        Event::SeqStart { .. } => {
            pass_node(stack, offsets, false, start)?;
            stack.push(opened(false))?;
            Ok(())
        }
        Event::MapStart { .. } => {
            pass_node(stack, offsets, false, start)?;
            stack.push(opened(true))?;
            Ok(())
        }
        Event::SeqEnd => {
            pass_end(stack);
            Ok(())
        }
        Event::MapEnd => {
            pass_end(stack);
            Ok(())
        }
        Event::StreamStart => Ok(()),
        Event::StreamEnd => Ok(()),
        Event::DocStart { .. } => Ok(()),
        Event::DocEnd { .. } => Ok(()),
    }
}

/// Returns the byte offsets of the keys without a value, and of the `-` of empty items, in the order of the values. A
/// value or an item with an anchor or a tag is not empty.
///
/// The time is linear in the number of events.
pub fn empty_values(alloc: Global, reading: &Reading) -> Result<Vec<usize>, AllocError>
    ensures { IfOk result (λ offsets. (trees : List DocumentTree) → TreesOf reading.now trees → offsets.items ≡ flat_map empty_values_of trees) }
{
    let mut stack = Vec::new(alloc);
    let mut offsets = Vec::new(alloc);
    for i in 0..reading.len() {
        let start = node_start(reading.span(i), reading.entry(i));
        pass(reading.event(i), start, &mut stack, &mut offsets)?;
    }
    Ok(offsets)
}
