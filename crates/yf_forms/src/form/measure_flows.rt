//! The measures of flow collections only. Of the events outside of them, only the kind matters.
ghost use Rattle.std.specs.Prelude.{◌<◌, ◌≡◌, [], ◌∷◌, ◌++◌, ◌+◌, ◌^◌, length, map, reverse, true, IfOk};
ghost use Rattle.std.specs.List.Sorted.{IsNonDecreasingBy};
ghost use Rattle.yf_comments.specs.Comment.{comment_value};
ghost use Rattle.yf_events.specs.Event.{event_value};
ghost use Rattle.yf_forms.specs.Nodes.FlowsAlone as FlowsAlone;
ghost use Rattle.yf_forms.specs.Nodes.FlowsAlone.{next_depth, event_seen, flows_alone, span_seen};
ghost use Rattle.yf_forms.specs.Passes.FoundInPass.{FoundInPass};
ghost use Rattle.yf_forms.specs.NormalForms.Measures.{no_measure, AreMeasures};
ghost use Rattle.yf_forms.specs.Passes.MeasurePass as Measuring;
ghost use Rattle.yf_forms.specs.Passes.MeasurePass.{found, has_text, setting};
ghost use Rattle.yf_forms.specs.NormalForms.Normal.{setting_of};

use crate::form::collection::Open;
use crate::form::measure::pass;
use crate::form::measures::Measures;
use crate::style::Style;
use std::alloc::{AllocError, Global};
use yf_comments::comment::Comment;
use yf_events::event::{Event, Span};
use yf_events::reading::Reading;
use yf_lines::source_text::Src;

/// Returns whether an event is outside of all flow collections and begins none. `depth` is the number of collections
/// open in one.
#[inline(always)]
fn is_outside(depth: usize, event: &Event) -> bool
    ensures { result ≡ FlowsAlone.is_outside depth (event_value event.now) }
{
    if depth > 0 {
        return false;
    }
    match event {
        Event::SeqStart { flow, .. } => !*flow,
        Event::MapStart { flow, .. } => !*flow,
        _ => true,
    }
}

/// Returns how many collections are open after an event of a flow collection.
#[inline(always)]
fn depth_after(depth: usize, event: &Event) -> usize
    requires { depth + 1 < 2 ^ 64 }
    ensures { result ≡ FlowsAlone.depth_after depth (event_value event.now) }
{
    match event {
        Event::SeqStart { .. } => depth + 1,
        Event::MapStart { .. } => depth + 1,
        Event::SeqEnd => depth.saturating_sub(1),
        Event::MapEnd => depth.saturating_sub(1),
        _ => depth,
    }
}

/// Passes one event with `depth` collections open in a flow collection. Returns how many are open after it.
#[inline(always)]
fn pass_seen(
    list: &mut Measures,
    stack: &mut Vec<Open>,
    text: &str,
    comments: &[Comment],
    event: &Event,
    span: Option<Span>,
    style: &Style,
    depth: usize,
    i: usize,
) -> Result<usize, AllocError>
    requires { depth + 1 < 2 ^ 64 }
    ensures depth { IfOk result (λ d. d ≡ next_depth depth (event_value event.now)) }
    ensures passed { IfOk result (λ _. IsNonDecreasingBy (λ c. c.offset) comments.now → length list.old ≡ i
        → found list.new (reverse stack.new.items) ≡ Measuring.passed text.now
        (setting style.now (map comment_value comments.now)) i (span_seen depth (event_value event.now) span)
        (event_seen depth (event_value event.now)) (found (list.old ++ no_measure ∷ []) (reverse stack.old.items))) }
    ensures utf8 { IfOk result (λ _. has_text (event_seen depth (event_value event.now)) ≡ true) }
{
    if is_outside(depth, event) {
        list.push_none()?;
        return Ok(0);
    }
    pass(list, stack, text, comments, event, span, style, i)?;
    Ok(depth_after(depth, event))
}

/// Measures the flow collections of a reading of the text with these comments, and the nodes in them.
fn measured_flows(
    alloc: Global,
    text: &str,
    comments: &[Comment],
    reading: &Reading,
    style: &Style,
) -> Result<Measures, AllocError>
    ensures { IfOk result (λ m. IsNonDecreasingBy (λ c. c.offset) comments.now
        → FoundInPass text.now (setting style.now (map comment_value comments.now)) (flows_alone 0 reading.now.events) m) }
{
    let mut list = Measures::new(alloc);
    let mut stack: Vec<Open> = Vec::new(alloc);
    let mut depth = 0;
    for i in 0..reading.len() {
        let span = reading.span(i);
        depth = pass_seen(
            &mut list,
            &mut stack,
            text,
            comments,
            &reading.event(i),
            span,
            style,
            depth,
            i,
        )?;
    }
    Ok(list)
}

/// Measures the flow collections of a reading of the text, and the nodes in them, in one pass. The measure of any
/// other node is `Measure::NONE`.
pub fn measure_flows(
    alloc: Global,
    src: &Src,
    reading: &Reading,
    style: &Style,
) -> Result<Measures, AllocError>
    ensures found { IfOk result (λ m. IsNonDecreasingBy (λ c. c.offset) reading.now.comments
        → FoundInPass src.now.text (setting_of reading.now style.now) (flows_alone 0 reading.now.events) m) }
    ensures measured { IfOk result (λ m. IsNonDecreasingBy (λ c. c.offset) reading.now.comments
        → AreMeasures src.now.text (setting_of reading.now style.now) (flows_alone 0 reading.now.events) m) }
{
    let measures = measured_flows(alloc, src.text(), reading.comments(), reading, style)?;
    Ok(measures)
}
