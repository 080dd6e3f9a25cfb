//! The details of the findings of the rule flow-layout: the collection from its bracket to the bracket that ends it,
//! and the message, which says how the house style writes it.
ghost use Rattle.std.specs.Prelude.{◌≡◌, ◌+◌, ◌<◌, ◌≤◌, true, List, length, slice_get, slice_range, IfOk, MatchBool, MatchOption};
ghost use Rattle.std.specs.Str.{IsCharBoundary};
ghost use Rattle.yf_events.specs.Tree.{DocumentTree, Node, TreesOf};
ghost use Rattle.yf_forms.specs.Nodes.FlowsAlone.{flows_alone};
ghost use Rattle.yf_forms.specs.Nodes.OneLine.{width};
ghost use Rattle.yf_forms.specs.Nodes.SingleNodes.{NodeAt};
ghost use Rattle.yf_forms.specs.NormalForms.Measures.{AreMeasures};
ghost use Rattle.yf_forms.specs.NormalForms.Normal.{setting_of};
ghost use Rattle.yf_ranges.specs.FlowDetails as spec;
ghost use Rattle.yf_ranges.specs.FlowDetails.{DifferAt, FlowDetail, FlowMessage, HasBreak, KeptMessage, LayoutDetail, LayoutDetails, TextMessage};
ghost use Rattle.yf_ranges.specs.NodeDetails.{IsDetailAt};
ghost use Rattle.yf_rule_sets.specs.Passes.OuterFlow.{FlowsDone, is_flow};
ghost use Rattle.yf_rule_sets.specs.RuleSets.Layouts.{LayoutFault};

use crate::detail::{Detail, Message, Span};
use crate::node::node_detail;
use std::alloc::{AllocError, Global};
use yf_forms::form::kept::kept_text_of;
use yf_forms::form::measure_flows::measure_flows;
use yf_forms::form::measures::Measures;
use yf_forms::text::width::char_count;
use yf_lines::basic::next_break;
use yf_rule_sets::facts::found::{Reading, Src, Style, push_found};
use yf_rule_sets::facts::outer_flow::past_flow;
use yf_rule_sets::rules::flow_layout::{
    brackets_at, empty_text, has_brackets, is_displaced, is_empty,
};

/// Returns the details of the findings of the rule flow-layout, in the order of the collections.
///
/// # Errors
///
/// `AllocError` if memory is refused.
pub fn details(
    alloc: Global,
    src: &Src,
    reading: &Reading,
    style: &Style,
) -> Result<Vec<Detail>, AllocError>
    ensures { IfOk result (λ details. LayoutDetails src.now reading.now style.now details.items) }
{
    let mut details = Vec::new(alloc);
    if !has_brackets(src, reading) {
        return Ok(details);
    }
    let measures = measure_flows(alloc, src, reading, style)?;
    let mut done = 0;
    for i in 0..reading.len() {
        push_found(
            &mut details,
            displaced(alloc, src, reading, &measures, i, done, style)?,
        )?;
        done = past_flow(reading, &measures, i, done);
    }
    Ok(details)
}

// Returns the detail of the flow collection that the event begins, if it is at fault. Those that begin up to the index
// `done` are within another one.
fn displaced(
    alloc: Global,
    src: &Src,
    reading: &Reading,
    measures: &Measures,
    i: usize,
    done: usize,
    style: &Style,
) -> Result<Option<Detail>, AllocError>
    requires { i < length reading.now.events }
    ensures { IfOk result (λ answer. (trees : List DocumentTree) → TreesOf reading.now trees
        → AreMeasures src.now.text (setting_of reading.now style.now) (flows_alone 0 reading.now.events) measures.now
        → FlowsDone reading.now.events i done → IsDetailAt (LayoutFault src.now reading.now style.now i)
        (LayoutDetail src.now reading.now style.now i) src.now.text answer) }
{
    if i <= done {
        return Ok(None);
    }
    match brackets_at(src, reading, i) {
        Some(inside) => {
            if is_displaced(alloc, src, reading, measures, i, inside, style)? {
                return flow_detail(alloc, src, reading, measures, i, inside, style);
            }
            Ok(None)
        }
        None => Ok(None),
    }
}

// Returns the detail of the flow collection with that span, from bracket to bracket, if a character begins at its start
// or the text ends there.
fn flow_detail(
    alloc: Global,
    src: &Src,
    reading: &Reading,
    measures: &Measures,
    i: usize,
    inside: Span,
    style: &Style,
) -> Result<Option<Detail>, AllocError>
    requires { i < length reading.now.events }
    ensures { IfOk result (λ answer. (x : Node) → AreMeasures src.now.text
        (setting_of reading.now style.now) (flows_alone 0 reading.now.events) measures.now → NodeAt reading.now.events i x → is_flow x ≡ true
        → MatchOption answer (IsCharBoundary src.now.text inside.start → ⊥)
        (λ d. FlowDetail src.now (setting_of reading.now style.now) x inside d)) }
{
    let text = src.text();
    if !text.is_char_boundary(inside.start) {
        return Ok(None);
    }
    let message = message_of(alloc, src, reading, measures, i, inside, style)?;
    Ok(node_detail(text, inside.start, inside.end, message))
}

// Returns the message of the flow collection with that span, from bracket to bracket.
fn message_of(
    alloc: Global,
    src: &Src,
    reading: &Reading,
    measures: &Measures,
    i: usize,
    inside: Span,
    style: &Style,
) -> Result<Message, AllocError>
    requires index { i < length reading.now.events }
    requires start { IsCharBoundary src.now.text inside.start }
    ensures { IfOk result (λ message. (x : Node) → AreMeasures src.now.text
        (setting_of reading.now style.now) (flows_alone 0 reading.now.events) measures.now → NodeAt reading.now.events i x → is_flow x ≡ true
        → FlowMessage src.now (setting_of reading.now style.now) x inside message) }
{
    if is_empty(measures, i) {
        return Ok(text_message(src.text(), inside, empty_text(reading, i)));
    }
    match kept_text_of(alloc, measures, reading, i, style)? {
        Some(wanted) => Ok(kept_message(src, inside, wanted.as_str(), style)),
        None => Ok(Message::FlowStyle),
    }
}

// Returns the message of a part of the text that may have the wanted text on one line.
fn kept_message(src: &Src, inside: Span, wanted: &str, style: &Style) -> Message
    requires { IsCharBoundary src.now.text inside.start }
    ensures { KeptMessage src.now style.now.max_line inside wanted.now result }
{
    if fits(src.place(inside.start).column, wanted, style) {
        return text_message(src.text(), inside, wanted);
    }
    Message::LongFlow {
        limit: style.max_line,
    }
}

// Returns whether a text that begins at a column, from 1, ends at or before the last column of a line.
fn fits(column: usize, text: &str, style: &Style) -> bool
    ensures { MatchBool result (column + width text.now ≤ style.now.max_line + 1) (style.now.max_line + 1 < column + width text.now) }
{
    let limit = style.max_line;
    column.saturating_add(char_count(text)) <= limit + 1
}

// Returns the message of a part of the text that has the wanted text on one line.
fn text_message(text: &str, inside: Span, wanted: &str) -> Message
    requires { IsCharBoundary text.now inside.start }
    ensures { TextMessage text.now inside wanted.now result }
{
    if has_break(text, inside.start, inside.end) {
        return Message::BrokenFlow;
    }
    differing(part_of(text, inside), wanted.as_bytes())
}

// Returns the message of two texts where they first differ.
fn differing(written: &[u8], wanted: &[u8]) -> Message
    ensures { spec.IsDifference written.now wanted.now result }
{
    let k = first_difference(written, wanted);
    Message::FlowText {
        after: byte_before(wanted, k),
        found: byte_at(written, k),
        expected: byte_at(wanted, k),
    }
}

// Returns whether a line break is from one offset of a text to another.
fn has_break(text: &str, start: usize, end: usize) -> bool
    requires { IsCharBoundary text.now start }
    ensures { MatchBool result (HasBreak text.now start end) (HasBreak text.now start end → ⊥) }
{
    let at = next_break(text, start);
    if at < end {
        return at < text.len();
    }
    false
}

// Returns the bytes of a part of a text, up to the text's end.
fn part_of(text: &str, part: Span) -> &[u8]
    ensures { result.now ≡ slice_range text.now part.start part.end }
{
    let bytes = text.as_bytes();
    let end = part.end.min(bytes.len());
    let start = part.start.min(end);
    &bytes[start..end]
}

// Returns the first index at which two texts differ or one of them ends.
fn first_difference(a: &[u8], b: &[u8]) -> usize
    ensures { DifferAt a.now b.now result }
{
    let end = a.len().min(b.len());
    for k in 0..end {
        if a[k] != b[k] {
            return k;
        }
    }
    end
}

// Returns the byte before an index, if there is one.
fn byte_before(bytes: &[u8], k: usize) -> Option<u8>
    ensures { result ≡ spec.byte_before bytes.now k }
{
    if k == 0 {
        return None;
    }
    byte_at(bytes, k - 1)
}

// Returns the byte at an index, if there is one.
fn byte_at(bytes: &[u8], k: usize) -> Option<u8>
    ensures { result ≡ slice_get bytes.now k }
{
    if k < bytes.len() {
        return Some(bytes[k]);
    }
    None
}
