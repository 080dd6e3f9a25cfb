//! The pass over the events that finds texts that are not data.
ghost use Rattle.std.specs.Prelude.{◌≡◌, List, reverse, IfOk};
ghost use Rattle.yf_events.specs.Event.{event_value};
ghost use Rattle.yf_events.specs.Tree.{DocumentTree, TreesOf};
ghost use Rattle.yf_guard.specs.Collections.{after, closed};
ghost use Rattle.yf_guard.specs.Guards as Guards;
ghost use Rattle.yf_guard.specs.Guards.{first_guarded};
ghost use Rattle.yf_guard.specs.Pass as Pass;
ghost use Rattle.yf_props.specs.Props.{props_value};

use crate::guarded::Guarded;
use crate::open_collection::{NodeKind, OpenCollection, end_kind, is_template, opened, with_node};
use crate::scalars::{is_empty_scalar, lines_start};
use std::alloc::{AllocError, Global};
use yf_events::event::{Event, ScalarStyle, Span};
use yf_events::reading::Reading;
use yf_props::props::Props;

fn offset_of(found: Guarded) -> usize
    ensures { result ≡ Guards.offset_of found }
{
    match found {
        Guarded::Vault => 0,
        Guarded::NoData { offset } => offset,
        Guarded::Template { offset } => offset,
    }
}

/// Returns the fault with the least offset after one more.
fn lower(found: Option<Guarded>, more: Guarded) -> Option<Guarded>
    ensures { result ≡ Guards.lower found more }
{
    match found {
        Some(least) => {
            if offset_of(more) < offset_of(least) {
                return Some(more);
            }
            found
        }
        None => Some(more),
    }
}

fn start_of(span: Option<Span>) -> usize
    ensures { result ≡ Guards.start_of span }
{
    match span {
        Some(span) => span.start,
        None => 0,
    }
}

fn scalar_kind(props: &Props, style: ScalarStyle, text: &str) -> NodeKind
    ensures { result ≡ Pass.scalar_kind (props_value props.now) style text.now }
{
    if is_empty_scalar(props, style, text) {
        return NodeKind::Empty;
    }
    NodeKind::Other
}

/// Passes a node directly in the innermost open collection.
fn pass_node(stack: &mut Vec<OpenCollection>, kind: NodeKind) -> Result<(), AllocError>
    ensures { IfOk result (λ _. reverse stack.new.items ≡ after kind (reverse stack.old.items)) }
{
    match stack.pop() {
        Some(collection) => {
            stack.push(with_node(kind, collection))?;
            Ok(())
        }
        None => Ok(()),
    }
}

/// Passes a scalar, and returns the fault found so far.
fn pass_scalar(
    text: &str,
    props: &Props,
    style: ScalarStyle,
    span: Option<Span>,
    is_root: bool,
    found: Option<Guarded>,
) -> Option<Guarded>
    ensures { result ≡ Guards.least_from found (Pass.found_if is_root (Guards.no_data text.now (props_value props.now) style span)) }
{
    if is_root {
        return match lines_start(text, props, style, span) {
            Some(offset) => lower(found, Guarded::NoData { offset }),
            None => found,
        };
    }
    found
}

/// Passes the end of the innermost open collection, and returns the fault found so far.
fn pass_end(
    stack: &mut Vec<OpenCollection>,
    is_map: bool,
    found: Option<Guarded>,
) -> Result<Option<Guarded>, AllocError>
    ensures stack { IfOk result (λ _. reverse stack.new.items ≡ closed is_map (reverse stack.old.items)) }
    ensures found { IfOk result (λ new. new ≡ Guards.least_from found (Pass.templates_closed is_map (reverse stack.old.items))) }
{
    match stack.pop() {
        Some(collection) => {
            pass_node(stack, end_kind(is_map, collection))?;
            Ok(with_template(is_map, collection, found))
        }
        None => Ok(found),
    }
}

fn with_template(
    is_map: bool,
    collection: OpenCollection,
    found: Option<Guarded>,
) -> Option<Guarded>
    ensures { result ≡ Guards.least_from found (Pass.template_of is_map collection) }
{
    if is_map {
        if is_template(collection) {
            return lower(
                found,
                Guarded::Template {
                    offset: collection.offset,
                },
            );
        }
        return found;
    }
    found
}

/// Passes one event with its span, and returns the fault found so far.
fn pass(
    text: &str,
    event: Event,
    span: Option<Span>,
    stack: &mut Vec<OpenCollection>,
    found: Option<Guarded>,
) -> Result<Option<Guarded>, AllocError>
    ensures stack { IfOk result (λ _. reverse stack.new.items ≡ Pass.next (event_value event.entry) span (reverse stack.old.items)) }
    ensures found { IfOk result (λ new. new ≡ Guards.least_from found (Pass.found_by text.now (event_value event.entry) span (reverse stack.old.items))) }
{
    match event {
        Event::Scalar {
            props,
            style,
            text: value,
        } => {
            let is_root = stack.is_empty();
            pass_node(stack, scalar_kind(&props, style, value))?;
            Ok(pass_scalar(text, &props, style, span, is_root, found))
        }
        Event::Alias { .. } => {
            pass_node(stack, NodeKind::Other)?;
            Ok(found)
        }
        Event::SeqStart { flow, .. } => {
            stack.push(opened(flow, start_of(span)))?;
            Ok(found)
        }
        Event::MapStart { flow, .. } => {
            stack.push(opened(flow, start_of(span)))?;
            Ok(found)
        }
        Event::SeqEnd => pass_end(stack, false, found),
        Event::MapEnd => pass_end(stack, true, found),
        Event::StreamStart => Ok(found),
        Event::StreamEnd => Ok(found),
        Event::DocStart { .. } => Ok(found),
        Event::DocEnd { .. } => Ok(found),
    }
}

/// Returns the document or mapping with the least offset that is not data.
pub fn first_in(alloc: Global, text: &str, reading: &Reading) -> Result<Option<Guarded>, AllocError>
    ensures { IfOk result (λ found. (trees : List DocumentTree) → TreesOf reading.now trees → found ≡ first_guarded text.now trees) }
{
    let mut stack = Vec::new(alloc);
    let mut found = None;
    for i in 0..reading.len() {
        found = pass(text, reading.event(i), reading.span(i), &mut stack, found)?;
    }
    Ok(found)
}
