//! The width of each node on one line: one pass over the events, inner nodes before outer ones.
ghost use Rattle.std.specs.Prelude.{◌<◌, ◌≡◌, [], ◌∷◌, ◌++◌, length, map, reverse, slice_get, true, IfOk, Option, Some};
ghost use Rattle.std.specs.List.Sorted.{IsNonDecreasingBy};
ghost use Rattle.yf_comments.specs.Comment.{comment_value};
ghost use Rattle.yf_events.specs.Event.{EventValue, event_value};
ghost use Rattle.yf_events.specs.Reading.{events_of, spans_of};
ghost use Rattle.yf_forms.specs.Passes.DecidePass.{is_leaf_at};
ghost use Rattle.yf_forms.specs.Passes.FoundInPass.{FoundInPass};
ghost use Rattle.yf_forms.specs.NormalForms.Measures.{no_measure, AreMeasures};
ghost use Rattle.yf_forms.specs.Passes.MeasurePass as Measuring;
ghost use Rattle.yf_forms.specs.Passes.MeasurePass.{found, has_text, setting};
ghost use Rattle.yf_forms.specs.NormalForms.Normal.{setting_of};

use crate::form::collection::{Open, add_node, closed, opened};
use crate::form::ended::{Ended, alias, scalar};
use crate::form::measures::Measures;
use crate::style::Style;
use std::alloc::{AllocError, Global};
use yf_comments::comment::Comment;
use yf_events::event::{Event, Span};
use yf_events::reading::Reading;
use yf_lines::source_text::Src;

/// The results of one pass for the node that an event begins.
#[derive(Clone, Copy)]
pub struct Measure {
    /// The index of the node's last event: its own, or that of the collection's end.
    pub last: usize,
    /// The number of characters of the node's text on one line, with its properties. `None` if it is not written on
    /// one line: a block scalar, a block collection, or a flow collection that can't be kept.
    pub width: Option<usize>,
    /// Whether the node is a flow collection with entries that can be kept, at any column.
    pub can_be_kept: bool,
    /// The index of the event that begins the node's first leaf with characters. A leaf is its own first leaf.
    pub first_leaf: Option<usize>,
    /// The index of the event that begins its last leaf with characters.
    pub last_leaf: Option<usize>,
}

impl Measure {
    /// The measure of an event that begins no node.
    pub const NONE: Measure = Measure {
        last: 0,
        width: None,
        can_be_kept: false,
        first_leaf: None,
        last_leaf: None,
    };

    /// Returns whether the node that the event at that index begins is a leaf with characters.
    pub fn is_leaf(&self, i: usize) -> bool
        ensures { result ≡ is_leaf_at i self.now.first_leaf }
    {
        match self.first_leaf {
            Some(leaf) => leaf == i,
            None => false,
        }
    }
}

/// Hands an ended node to the collection around it.
#[inline(always)]
fn hand(stack: &mut Vec<Open>, node: &Ended)
    ensures { reverse stack.new.items ≡ Measuring.handed node.now (reverse stack.old.items) }
{
    let count = stack.len();
    if count > 0 {
        add_node(&mut stack[count - 1], node);
    }
}

/// Adds the measure of a leaf, and notes the leaf in the collection around it.
#[inline(always)]
fn add_leaf(
    list: &mut Measures,
    stack: &mut Vec<Open>,
    i: usize,
    node: &Ended,
) -> Result<(), AllocError>
    ensures { IfOk result (λ _. length list.old ≡ i → found list.new (reverse stack.new.items) ≡ Measuring.noted i node.now
        (found (list.old ++ no_measure ∷ []) (reverse stack.old.items))) }
{
    list.push(&node.measure)?;
    hand(stack, node);
    Ok(())
}

/// Ends the innermost collection.
#[inline(always)]
fn close(list: &mut Measures, stack: &mut Vec<Open>, i: usize) -> Result<(), AllocError>
    ensures { IfOk result (λ _. found list.new (reverse stack.new.items) ≡ Measuring.popped i (list.old ++ no_measure ∷ [])
        (reverse stack.old.items)) }
{
    list.push_none()?;
    match stack.pop() {
        Some(collection) => {
            let node = closed(&collection, i);
            list.set(collection.start, &node.measure)?;
            hand(stack, &node);
            Ok(())
        }
        None => Ok(()),
    }
}

/// Adds a collection to those that have not ended yet.
#[inline(always)]
fn begin(list: &mut Measures, stack: &mut Vec<Open>, collection: Open) -> Result<(), AllocError>
    ensures { IfOk result (λ _. found list.new (reverse stack.new.items) ≡ Measuring.begun collection
        (found (list.old ++ no_measure ∷ []) (reverse stack.old.items))) }
{
    list.push_none()?;
    stack.push(collection)?;
    Ok(())
}

/// Passes one event.
#[inline(always)]
pub(crate) fn pass(
    list: &mut Measures,
    stack: &mut Vec<Open>,
    text: &str,
    comments: &[Comment],
    event: &Event,
    span: Option<Span>,
    style: &Style,
    i: usize,
) -> Result<(), AllocError>
    ensures passed { IfOk result (λ _. IsNonDecreasingBy (λ c. c.offset) comments.now → length list.old ≡ i
        → found list.new (reverse stack.new.items) ≡ Measuring.passed text.now
        (setting style.now (map comment_value comments.now)) i span (event_value event.now)
        (found (list.old ++ no_measure ∷ []) (reverse stack.old.items))) }
    ensures utf8 { IfOk result (λ _. has_text (event_value event.now) ≡ true) }
{
    match event {
        Event::Scalar {
            props,
            style: written,
            text: content,
        } => {
            let node = scalar(i, span, props, *written, content, style);
            add_leaf(list, stack, i, &node)
        }
        Event::Alias { name } => {
            let node = alias(i, name);
            add_leaf(list, stack, i, &node)
        }
        Event::SeqStart { flow, props } => {
            let collection = opened(text, comments, i, span, props, *flow, false);
            begin(list, stack, collection)
        }
        Event::MapStart { flow, props } => {
            let collection = opened(text, comments, i, span, props, *flow, true);
            begin(list, stack, collection)
        }
        Event::SeqEnd => close(list, stack, i),
        Event::MapEnd => close(list, stack, i),
        Event::StreamStart => list.push_none(),
        Event::StreamEnd => list.push_none(),
        Event::DocStart { .. } => list.push_none(),
        Event::DocEnd { .. } => list.push_none(),
    }
}

/// Passes the event at an index. Tries `bare_event` first, since most nodes have no properties.
#[inline(always)]
fn pass_at(
    list: &mut Measures,
    stack: &mut Vec<Open>,
    text: &str,
    comments: &[Comment],
    reading: &Reading,
    style: &Style,
    i: usize,
) -> Result<(), AllocError>
    requires { i < length reading.now.events }
    ensures passed { IfOk result (λ _. (e : EventValue) (s : Option Span) → slice_get (events_of reading.now) i ≡ Some e
        → slice_get (spans_of reading.now) i ≡ Some s → IsNonDecreasingBy (λ c. c.offset) comments.now → length list.old ≡ i
        → found list.new (reverse stack.new.items) ≡ Measuring.passed text.now
        (setting style.now (map comment_value comments.now)) i s e (found (list.old ++ no_measure ∷ []) (reverse stack.old.items))) }
    ensures utf8 { IfOk result (λ _. (e : EventValue) → slice_get (events_of reading.now) i ≡ Some e → has_text e ≡ true) }
{
    let span = reading.span(i);
    match reading.bare_event(i) {
        Some(event) => pass(list, stack, text, comments, &event, span, style, i),
        None => pass(
            list,
            stack,
            text,
            comments,
            &reading.event(i),
            span,
            style,
            i,
        ),
    }
}

/// Measures all nodes of a reading of the text with these comments.
fn measured(
    alloc: Global,
    text: &str,
    comments: &[Comment],
    reading: &Reading,
    style: &Style,
) -> Result<Measures, AllocError>
    ensures { IfOk result (λ m. IsNonDecreasingBy (λ c. c.offset) comments.now
        → FoundInPass text.now (setting style.now (map comment_value comments.now)) reading.now.events m) }
{
    let mut list = Measures::new(alloc);
    let mut stack: Vec<Open> = Vec::new(alloc);
    for i in 0..reading.len() {
        pass_at(&mut list, &mut stack, text, comments, reading, style, i)?;
    }
    Ok(list)
}

/// Measures all nodes of a reading of the text, in one pass.
pub fn measure_text(
    alloc: Global,
    text: &str,
    reading: &Reading,
    style: &Style,
) -> Result<Measures, AllocError>
    ensures { IfOk result (λ m. IsNonDecreasingBy (λ c. c.offset) reading.now.comments
        → FoundInPass text.now (setting_of reading.now style.now) reading.now.events m) }
{
    let measures = measured(alloc, text, reading.comments(), reading, style)?;
    Ok(measures)
}

/// Like `measure_text`, for a text with its table of lines.
pub fn measure_all(
    alloc: Global,
    src: &Src,
    reading: &Reading,
    style: &Style,
) -> Result<Measures, AllocError>
    ensures { IfOk result (λ m. IsNonDecreasingBy (λ c. c.offset) reading.now.comments
        → AreMeasures src.now.text (setting_of reading.now style.now) reading.now.events m) }
{
    measure_text(alloc, src.text(), reading, style)
}

/// Measures all nodes of a normal reading, in one pass. No comment is between the brackets of its flow collections,
/// so the pass needs neither the text nor the comments.
pub fn measure_normal(
    alloc: Global,
    reading: &Reading,
    style: &Style,
) -> Result<Measures, AllocError>
    ensures { IfOk result (λ m. AreMeasures [] (setting style.now []) reading.now.events m) }
{
    measured(alloc, "", &[], reading, style)
}
