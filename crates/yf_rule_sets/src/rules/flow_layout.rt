//! Rule 9, flow-layout.
ghost use Rattle.std.specs.Prelude.{◌≡◌, ◌≢◌, ◌<◌, ℕ, true, false, List, Option, Some, length, slice_get, slice_range, IfOk, MatchBool};
ghost use Rattle.yf_forms.specs.Nodes.FlowsAlone.{flows_alone};
ghost use Rattle.yf_forms.specs.Nodes.SingleNodes.{NodeAt};
ghost use Rattle.yf_forms.specs.NormalForms.Measures.{AreMeasures};
ghost use Rattle.yf_forms.specs.NormalForms.Normal.{LayoutSetting, setting_of};
ghost use Rattle.yf_forms.specs.declared.style.Style.{Style};
ghost use Rattle.yf_events.specs.Event.{EventValue, EventInText};
ghost use Rattle.yf_events.specs.Reading.{events_of, spans_of};
ghost use Rattle.yf_events.specs.Tree.{DocumentTree, Node, TreesOf, is_filled_flow};
ghost use Rattle.yf_events.specs.declared.event.Span.{Span};
ghost use Rattle.yf_rule_sets.specs.RuleSets.Exact.{IsTheOne};
ghost use Rattle.yf_rule_sets.specs.RuleSets.Layouts.{LayoutFault, EndsPastLimit, IsDisplaced};
ghost use Rattle.yf_rule_sets.specs.Passes.OuterFlow as OuterFlow;
ghost use Rattle.yf_rule_sets.specs.Passes.OuterFlow.{FlowsDone, is_flow};
ghost use Rattle.yf_rule_sets.specs.Sets.{flow_layout_at};

use crate::facts::found::{AllocError, FoundOffsets, Global, Reading, Src, Style, push_found};
use crate::facts::outer_flow::{past_flow, starts_flow};
pub use crate::rules::StyleRule::FlowLayout;
use yf_events::event::{Event, Span};
use yf_forms::form::kept::kept_text_of;
use yf_forms::form::measure_flows::measure_flows;
use yf_forms::form::measures::Measures;
use yf_forms::text::content_start::content_start;

/// Returns the opening bracket of each outermost flow collection that is not written as the house style writes it, or
/// may not be kept there.
pub fn offsets(alloc: Global, src: &Src, reading: &Reading, style: &Style) -> FoundOffsets
    ensures { IfOk result (λ offsets. flow_layout_at src.now reading.now style.now offsets.items) }
{
    if !has_brackets(src, reading) {
        return Ok(Vec::new(alloc));
    }
    let measures = measure_flows(alloc, src, reading, style)?;
    let mut offsets = Vec::new(alloc);
    let mut done = 0;
    for i in 0..reading.len() {
        push_found(
            &mut offsets,
            displaced(alloc, src, reading, &measures, i, done, style)?,
        )?;
        done = past_flow(reading, &measures, i, done);
    }
    Ok(offsets)
}

/// Returns whether that text is in this span of the text, which does not end after the text.
fn is_text(text: &str, part: Span, other: &str) -> bool
    ensures { MatchBool result (slice_range text.now part.start part.end ≡ other.now)
        (slice_range text.now part.start part.end ≢ other.now) }
{
    let bytes = text.as_bytes();
    let end = part.end.min(bytes.len());
    if end < part.start {
        return other.is_empty();
    }
    let written = &bytes[part.start..end];
    if written == other.as_bytes() {
        return true;
    }
    false
}

/// Returns whether the character that ends at the byte offset is past the longest line that the style allows.
fn ends_past_limit(src: &Src, end: usize, style: &Style) -> bool
    ensures { MatchBool result (EndsPastLimit src.now style.now.max_line end) (EndsPastLimit src.now style.now.max_line end → ⊥) }
{
    let at = end.saturating_sub(1);
    if src.text().is_char_boundary(at) {
        if src.place(at).column > style.max_line {
            return true;
        }
    }
    false
}

/// Returns the text of the empty collection that the event begins, from bracket to bracket.
pub fn empty_text(reading: &Reading, i: usize) -> &'static str
    requires { i < length reading.now.events }
    ensures { (e : EventValue) → slice_get (events_of reading.now) i ≡ Some e → result.now ≡ OuterFlow.empty_text e }
{
    match reading.event(i) {
        Event::MapStart { .. } => "{}",
        _ => "[]",
    }
}

/// Returns whether the collection that the event begins is empty: the next event ends it.
pub fn is_empty(measures: &Measures, i: usize) -> bool
    ensures { (t : List ℕ) (c : LayoutSetting) (es : List EventInText) (x : Node) → AreMeasures t c (flows_alone 0 es) measures.now → NodeAt es i x
        → is_flow x ≡ true → MatchBool result (is_filled_flow x ≡ false) (is_filled_flow x ≡ true) }
{
    if measures.at(i).last.saturating_sub(i) <= 1 {
        return true;
    }
    false
}

/// Returns whether the flow collection with that span, from bracket to bracket, is at fault.
#[inline(never)]
pub fn is_displaced(
    alloc: Global,
    src: &Src,
    reading: &Reading,
    measures: &Measures,
    i: usize,
    inside: Span,
    style: &Style,
) -> Result<bool, AllocError>
    requires { i < length reading.now.events }
    ensures { IfOk result (λ wrong. (x : Node) → AreMeasures src.now.text
        (setting_of reading.now style.now) (flows_alone 0 reading.now.events) measures.now → NodeAt reading.now.events i x → is_flow x ≡ true
        → MatchBool wrong (IsDisplaced src.now (setting_of reading.now style.now) x inside)
        (IsDisplaced src.now (setting_of reading.now style.now) x inside → ⊥)) }
{
    if is_empty(measures, i) {
        if is_text(src.text(), inside, empty_text(reading, i)) {
            return Ok(false);
        }
        return Ok(true);
    }
    match kept_text_of(alloc, measures, reading, i, style)? {
        Some(text) => {
            if is_text(src.text(), inside, text.as_str()) {
                return Ok(ends_past_limit(src, inside.end, style));
            }
            Ok(true)
        }
        None => Ok(true),
    }
}

/// Returns the span of the flow collection that the event begins, from bracket to bracket.
#[inline(never)]
fn brackets(src: &Src, reading: &Reading, i: usize) -> Option<Span>
    requires { i < length reading.now.events }
    ensures { (e : EventValue) (span : Option Span) → slice_get (events_of reading.now) i ≡ Some e
        → slice_get (spans_of reading.now) i ≡ Some span → result ≡ OuterFlow.brackets src.now.text e span }
{
    match reading.event(i) {
        Event::SeqStart { flow: true, props } | Event::MapStart { flow: true, props } => {
            match reading.span(i) {
                Some(span) => Some(Span {
                    start: content_start(src.text(), span, &props),
                    end: span.end,
                }),
                None => None,
            }
        }
        _ => None,
    }
}

/// Like `brackets`, but returns at once for events that begin no flow collection, which are most.
#[inline(always)]
pub fn brackets_at(src: &Src, reading: &Reading, i: usize) -> Option<Span>
    requires { i < length reading.now.events }
    ensures { (e : EventValue) (span : Option Span) → slice_get (events_of reading.now) i ≡ Some e
        → slice_get (spans_of reading.now) i ≡ Some span → result ≡ OuterFlow.brackets src.now.text e span }
{
    if !starts_flow(reading, i) {
        return None;
    }
    brackets(src, reading, i)
}

/// Returns whether the text has any flow collection.
pub fn has_brackets(src: &Src, reading: &Reading) -> bool
    ensures { result ≡ false → (house : Style) (i o : ℕ) → LayoutFault src.now reading.now house i o → ⊥ }
{
    for i in 0..reading.len() {
        match brackets_at(src, reading, i) {
            Some(_) => return true,
            None => {}
        }
    }
    false
}

/// Returns the opening bracket of the flow collection that the event begins, if it is at fault. Those that begin up to
/// the index `done` are within another one.
#[inline(always)]
fn displaced(
    alloc: Global,
    src: &Src,
    reading: &Reading,
    measures: &Measures,
    i: usize,
    done: usize,
    style: &Style,
) -> Result<Option<usize>, AllocError>
    requires { i < length reading.now.events }
    ensures { IfOk result (λ answer. (trees : List DocumentTree) → TreesOf reading.now trees
        → AreMeasures src.now.text (setting_of reading.now style.now) (flows_alone 0 reading.now.events) measures.now
        → FlowsDone reading.now.events i done → IsTheOne (LayoutFault src.now reading.now style.now i) answer) }
{
    if i <= done {
        return Ok(None);
    }
    match brackets_at(src, reading, i) {
        Some(inside) => {
            if is_displaced(alloc, src, reading, measures, i, inside, style)? {
                return Ok(Some(inside.start));
            }
            Ok(None)
        }
        None => Ok(None),
    }
}
