//! The leaves of a reading: scalars, aliases and empty collections.
ghost use Rattle.std.specs.Prelude.{◌≡◌, ◌+◌, ◌<◌, cond, count_by, drop, length, nat_lt};
ghost use Rattle.yf_events.specs.Event.{event_value};
ghost use Rattle.yf_events.specs.Reading as Reading;

use crate::event::Event;
use crate::events::Events;

fn is_end(event: &Event) -> bool
    ensures { result ≡ Reading.is_end (event_value event.now) }
{
    matches!(event, Event::SeqEnd | Event::MapEnd)
}

fn ends_after(events: &Events, i: usize) -> bool
    requires { i < length events.now }
    ensures { result ≡ Reading.ends_next (drop (i + 1) events.now) }
{
    if i < events.len() - 1 {
        return is_end(&events.event(i + 1));
    }
    false
}

/// Returns whether the event begins a leaf. `ends_next` is whether the next event ends a collection.
fn begins(event: &Event, ends_next: bool) -> bool
    ensures { result ≡ Reading.leaf_if (event_value event.now) ends_next }
{
    match event {
        Event::Scalar { .. } | Event::Alias { .. } => true,
        Event::SeqStart { .. } | Event::MapStart { .. } => ends_next,
        _ => false,
    }
}

/// Returns whether the event at an index begins a leaf.
pub fn begins_leaf(events: &Events, i: usize) -> bool
    requires { i < length events.now }
    ensures { result ≡ Reading.first_begins_leaf (drop i events.now) }
{
    begins(&events.event(i), ends_after(events, i))
}

/// Returns whether the event at an index begins a leaf with characters before the offset.
fn begins_before(events: &Events, i: usize, offset: usize) -> bool
    requires { i < length events.now }
    ensures { result ≡ Reading.first_begins_before offset (drop i events.now) }
{
    if begins_leaf(events, i) {
        if let Some(span) = events.span(i) {
            return span.start < offset;
        }
        return false;
    }
    false
}

fn one_if(test: bool) -> usize
    ensures { result ≡ cond test 1 0 }
{
    if test { 1 } else { 0 }
}

/// Returns how many leaves with characters begin before the offset.
pub fn leaves_before(events: &Events, offset: usize) -> usize
    ensures { result ≡ count_by (λ start. nat_lt start offset) (Reading.leaf_starts events.now) }
{
    let mut count = 0;
    for i in 0..events.len() {
        count += one_if(begins_before(events, i, offset));
    }
    count
}
