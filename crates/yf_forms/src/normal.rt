//! The normal form of a reading, made in place: each scalar in the style, and each collection in the form, of the
//! house style.
ghost use Rattle.std.specs.Prelude.{◌≡◌, get_or, IfOk};
ghost use Rattle.yf_events.specs.Content.{content_of};
ghost use Rattle.yf_events.specs.Event.{event_value};
ghost use Rattle.yf_events.specs.Nested.{IsStream};
ghost use Rattle.yf_events.specs.Reading.{events_of};
ghost use Rattle.yf_events.specs.declared.reading.TheConstants.{DEPTH};
ghost use Rattle.yf_forms.specs.Passes.NormalEvents.{is_flow_at, normal_from};
ghost use Rattle.yf_forms.specs.NormalForms.Measures.{no_measure};
ghost use Rattle.yf_forms.specs.NormalForms.Restyled.{IsRestyled, restyled_event};
ghost use Rattle.yf_forms.specs.declared.style.Style.{Style};
ghost use Rattle.yf_forms.specs.Nodes.ScalarStyles.{wanted_of_event};

use crate::form::forms::Forms;
use crate::form::measures::Measures;
use crate::style::Style;
use crate::text::wanted::wanted_of;
use std::alloc::{AllocError, Global};
use yf_events::event::{Event, ScalarStyle};
use yf_events::events::Events;
use yf_events::reading::Reading;

/// Returns the style that the house style gives the scalar of the event, or `Plain` for any other event.
#[inline(always)]
fn style_of(event: Event, house: &Style) -> ScalarStyle
    ensures { result ≡ wanted_of_event (event_value event.entry) house.now }
{
    match event {
        Event::Scalar { style, text, .. } => wanted_of(style, text, house),
        _ => ScalarStyle::Plain,
    }
}

/// Returns whether the collection that the event begins is between brackets: it is empty, or before the end of a
/// collection on one line. The result means nothing for any other event.
#[inline(always)]
fn flow_of(event: Event, measures: &Measures, i: usize, kept_until: usize) -> bool
    ensures { (house : Style) → restyled_event house result (event_value event.entry)
        ≡ restyled_event house (is_flow_at i kept_until (get_or measures.now i no_measure)) (event_value event.entry) }
{
    match event {
        Event::Scalar { .. } => false,
        _ => measures.at(i).is_leaf(i) || i < kept_until,
    }
}

/// Puts the events into their normal form. A collection is written between brackets if it is empty, kept, or in a
/// kept one. If memory is refused, the events are of no use.
fn normalize<'a>(
    alloc: Global,
    events: &mut Events<'a>,
    measures: &Measures,
    forms: &Forms,
    style: &Style,
) -> Result<(), AllocError>
    ensures { IfOk result (λ _. events.new ≡ normal_from style.now measures.now 0 0 forms.now events.old) }
{
    let mut kept_until = 0;
    for i in 0..events.len() {
        if forms.at(i).is_kept {
            let measure = measures.at(i);
            kept_until = measure.last;
        }
        let flow = flow_of(events.event(i), measures, i, kept_until);
        let wanted = style_of(events.event(i), style);
        events.set_form(alloc, i, flow, wanted)?;
    }
    Ok(())
}

/// Turns a measured reading into its normal form in place, by the forms of its nodes.
pub fn normalized<'a>(
    alloc: Global,
    reading: Reading<'a>,
    measures: &Measures,
    forms: &Forms,
    style: &Style,
) -> Result<Reading<'a>, AllocError>
    ensures restyled { IfOk result (λ normal. IsRestyled style.now reading.entry normal) }
    ensures events { IfOk result (λ normal. normal.events
        ≡ normal_from style.now measures.now 0 0 forms.now reading.entry.events) }
    ensures content { IfOk result (λ normal. content_of normal ≡ content_of reading.entry) }
    ensures nested { IfOk result (λ normal. IsStream DEPTH (events_of normal)) }
{
    let mut lists = reading.into_lists();
    normalize(alloc, &mut lists.events, measures, forms, style)?;
    Ok(Reading::of_stream(lists))
}
