//! The form that the house style gives each node: one pass over the events, outer nodes before inner ones. Columns
//! count from 0 here.
ghost use Rattle.std.specs.Prelude.{◌<◌, ◌≡◌, get_or, length, reverse, IfOk, MatchResult};
ghost use Rattle.std.specs.List.Sorted.{IsNonDecreasingBy};
ghost use Rattle.yf_events.specs.Event.{event_value};
ghost use Rattle.yf_forms.specs.Passes.DecidePass as Deciding;
ghost use Rattle.yf_forms.specs.Passes.DecidePass.{given, state};
ghost use Rattle.yf_forms.specs.Passes.EventsGiven.{given_in};
ghost use Rattle.yf_forms.specs.NormalForms.Forms.{no_form, AreForms};
ghost use Rattle.yf_forms.specs.Passes.Halving.{MayBegin, StaysUnknown};
ghost use Rattle.yf_forms.specs.Nodes.ImplicitKeys.{TellsImplicit};

use crate::form::comments_before::first_search;
use crate::form::forms::Forms;
use crate::form::layout_context::{EventFacts, LayoutFrame, fits, place_node};
use crate::form::measure::{Measure, measure_all};
use crate::form::measures::Measures;
use crate::style::Style;
use std::alloc::{AllocError, Global};
use yf_events::event::Event;
use yf_events::reading::Reading;
use yf_lines::fault::Fault;
use yf_lines::source_text::Src;

/// The form of the node that an event begins.
#[derive(Clone, Copy)]
pub struct Form {
    /// Whether it is a flow collection with entries that is written on one line.
    pub is_kept: bool,
    /// Whether it is a key of a block mapping that is written without `?`.
    pub is_implicit: bool,
    /// For the value of such a key, the index of the comment that ends the key's line, so that the value begins on
    /// the next line. `None` if the value begins on the key's line.
    pub key_comment: Option<usize>,
    /// For a block collection, the column of its entries.
    pub column: usize,
}

impl Form {
    /// The form of an event that begins no node, or a node within a collection on one line.
    pub const NONE: Form = Form {
        is_kept: false,
        is_implicit: false,
        key_comment: None,
        column: 0,
    };
}

/// The input of a decision: a reading, its measures, and the style.
#[derive(Clone, Copy)]
struct MeasuredReading<'r, 'a> {
    reading: &'r Reading<'a>,
    measures: &'r Measures,
    style: &'r Style,
}

/// Returns whether the node that the event at an index begins holds no node to look at.
#[inline(always)]
fn is_whole(measure: &Measure, i: usize, is_kept: bool) -> bool
    ensures { result ≡ Deciding.is_whole i measure.now is_kept }
{
    if is_kept {
        return true;
    }
    if measure.is_leaf(i) {
        return true;
    }
    measure.last == i
}

/// Gives a node its form. Returns the index of the last event that needs no look: the node's last event, or the first
/// event of a block collection.
#[inline(always)]
fn node(
    list: &mut Forms,
    stack: &mut Vec<LayoutFrame>,
    near: &mut usize,
    facts: &EventFacts,
    is_map: bool,
) -> Result<usize, AllocError>
    requires within { facts.now.i < length facts.now.reading.now.events }
    requires begins { MayBegin (λ c. c.offset) facts.now.reading.now.comments near.old }
    ensures forms { IfOk result (λ done. IsNonDecreasingBy (λ c. c.offset) facts.now.reading.now.comments
        → state list.new (reverse stack.new.items) done ≡ Deciding.node (given_in facts.now) (event_value facts.now.event.now) facts.now.i
        facts.now.measure.now is_map list.old (reverse stack.old.items)) }
    ensures near { StaysUnknown near.old near.new }
{
    let measure = facts.measure;
    let place = place_node(stack, near, facts);
    let is_kept = measure.can_be_kept && fits(place.column, measure.width, facts.style);
    list.push(Form {
        is_kept,
        is_implicit: place.is_implicit,
        key_comment: place.key_comment,
        column: place.entries,
    })?;
    if is_whole(measure, facts.i, is_kept) {
        return Ok(measure.last);
    }
    stack.push(LayoutFrame {
        is_map,
        column: place.entries,
        key: None,
    })?;
    Ok(facts.i)
}

/// Passes one event. Returns the index of the last event that needs no look.
#[inline(always)]
fn pass(
    list: &mut Forms,
    stack: &mut Vec<LayoutFrame>,
    near: &mut usize,
    facts: &EventFacts,
) -> Result<usize, AllocError>
    requires within { facts.now.i < length facts.now.reading.now.events }
    requires begins { MayBegin (λ c. c.offset) facts.now.reading.now.comments near.old }
    ensures forms { IfOk result (λ done. IsNonDecreasingBy (λ c. c.offset) facts.now.reading.now.comments
        → state list.new (reverse stack.new.items) done ≡ Deciding.past (given_in facts.now) (event_value facts.now.event.now) facts.now.i
        facts.now.measure.now list.old (reverse stack.old.items)) }
    ensures near { StaysUnknown near.old near.new }
{
    match facts.event {
        Event::Scalar { .. } => node(list, stack, near, facts, false),
        Event::Alias { .. } => node(list, stack, near, facts, false),
        Event::SeqStart { .. } => node(list, stack, near, facts, false),
        Event::MapStart { .. } => node(list, stack, near, facts, true),
        Event::SeqEnd => {
            list.push(Form::NONE)?;
            let _ = stack.pop();
            Ok(facts.i)
        }
        Event::MapEnd => {
            list.push(Form::NONE)?;
            let _ = stack.pop();
            Ok(facts.i)
        }
        _ => {
            list.push(Form::NONE)?;
            Ok(facts.i)
        }
    }
}

/// Passes one event, with a look only if it is after the index `done`. Returns the new `done`.
#[inline(always)]
fn advance(
    list: &mut Forms,
    stack: &mut Vec<LayoutFrame>,
    near: &mut usize,
    measured: &MeasuredReading,
    event: &Event,
    i: usize,
    done: usize,
) -> Result<usize, AllocError>
    requires within { i < length measured.now.reading.now.events }
    requires begins { MayBegin (λ c. c.offset) measured.now.reading.now.comments near.old }
    ensures forms { IfOk result (λ r. IsNonDecreasingBy (λ c. c.offset) measured.now.reading.now.comments → length list.old ≡ i
        → state list.new (reverse stack.new.items) r ≡ Deciding.next
        (given measured.now.style.now measured.now.reading.now.comments measured.now.reading.now.events) measured.now.measures.now
        (event_value event.now) (state list.old (reverse stack.old.items) done)) }
    ensures near { StaysUnknown near.old near.new }
{
    if done < i {
        let measure = measured.measures.at(i);
        let facts = EventFacts {
            reading: measured.reading,
            event,
            i,
            measure: &measure,
            style: measured.style,
        };
        return pass(list, stack, near, &facts);
    }
    list.push(Form::NONE)?;
    Ok(done)
}

/// Decides the forms of all nodes of a measured reading, in one pass.
pub fn decide(
    alloc: Global,
    measures: &Measures,
    reading: &Reading,
    style: &Style,
) -> Result<Forms, AllocError>
    ensures { IfOk result (λ forms. AreForms reading.now style.now measures.now forms) }
{
    let mut list = Forms::new(alloc);
    let mut stack: Vec<LayoutFrame> = Vec::new(alloc);
    let mut done = 0;
    let mut near = first_search(reading.comments(), reading.len());
    let measured = MeasuredReading {
        reading,
        measures,
        style,
    };
    for i in 0..reading.len() {
        let event = reading.event(i);
        done = advance(&mut list, &mut stack, &mut near, &measured, &event, i, done)?;
    }
    Ok(list)
}

fn implicit_within(
    alloc: Global,
    src: &Src,
    reading: &Reading,
    i: usize,
    style: &Style,
) -> Result<bool, AllocError>
    ensures { IfOk result (λ answer. TellsImplicit src.now.text reading.now style.now i answer) }
{
    let measures = measure_all(alloc, src, reading, style)?;
    let forms = decide(alloc, &measures, reading, style)?;
    Ok(forms.at(i).is_implicit)
}

/// Returns whether the event at an index begins a key of a block mapping that the house style writes without `?`, in
/// the layout of a reading of the text. Returns `false` for an event that begins no key.
///
/// # Errors
///
/// Fails with `Fault::Memory` if the allocator refuses memory.
pub fn implicit_key(
    alloc: Global,
    src: &Src,
    reading: &Reading,
    i: usize,
    style: &Style,
) -> Result<bool, Fault>
    ensures { MatchResult result (λ answer. TellsImplicit src.now.text reading.now style.now i answer) (λ fault. fault ≡ Fault.Memory) }
{
    match implicit_within(alloc, src, reading, i, style) {
        Ok(is_implicit) => Ok(is_implicit),
        Err(AllocError) => Err(Fault::Memory),
    }
}
