//! The position of the first of repeated keys, for `--explain`.
ghost use Rattle.std.specs.Prelude.{◌<◌, length, IfSome};

use yf_events::event::Event;
use yf_events::reading::Reading;
use yf_lines::place::Position;

/// Returns the position of the first key that equals the key at a position, if the remaining steps suffice to find it.
/// The events at the position begin at an index. A step is one event, and the search takes a step for each event up to
/// the key.
pub(crate) fn first_place(
    reading: &Reading,
    places: &[Position],
    place: Position,
    from: usize,
    steps: &mut usize,
) -> Option<Position> {
    let Some(index) = scalar_at(reading, places, place, from) else {
        let _ = take_steps(steps, reading.len());
        return None;
    };
    if !take_steps(steps, index.saturating_add(1)) {
        return None;
    }
    let Some(first) = first_key(reading, index, steps) else {
        return None;
    };
    if reading.span(first).is_none() {
        return None;
    }
    places.get(first).copied()
}

// Takes steps from the remaining ones, and returns whether there were enough.
fn take_steps(steps: &mut usize, count: usize) -> bool {
    if *steps < count {
        *steps = 0;
        return false;
    }
    *steps -= count;
    true
}

// Returns the index of the scalar that begins at a position. The events at the position begin at an index.
fn scalar_at(reading: &Reading, places: &[Position], place: Position, from: usize) -> Option<usize>
    ensures { IfSome result (λ index. index < length reading.now.events) }
{
    for index in from..places.len() {
        if places[index] != place {
            return None;
        }
        if index >= reading.len() {
            return None;
        }
        if is_scalar(reading, index) {
            return Some(index);
        }
    }
    None
}

// Returns whether an event is a scalar that is a part of the text.
fn is_scalar(reading: &Reading, index: usize) -> bool
    requires { index < length reading.now.events }
{
    if reading.span(index).is_none() {
        return false;
    }
    matches!(reading.event(index), Event::Scalar { .. })
}

// Returns the index of the first key of a mapping that equals the key at an index.
fn first_key(reading: &Reading, index: usize, steps: &mut usize) -> Option<usize>
    requires { index < length reading.now.events }
    ensures { IfSome result (λ first. first < length reading.now.events) }
{
    let mut first = None;
    let mut depth: usize = 0;
    let mut is_key = true;
    let mut at = index;
    while at > 0 {
        if *steps == 0 {
            return None;
        }
        *steps -= 1;
        at -= 1;
        let step = step_back(reading, at, depth);
        if step.ends {
            return first;
        }
        depth = step.depth;
        if depth == 0 {
            is_key = !is_key;
            if is_key {
                if are_same(reading, at, index) {
                    first = Some(at);
                }
            }
        }
    }
    first
}

// The state of the backward search at an event.
#[derive(Clone, Copy)]
struct Step {
    // The number of open collections that end after the event.
    depth: usize,
    // Whether the event begins the collection that was open at the start.
    ends: bool,
}

// Passes an event backwards, and returns the new state.
fn step_back(reading: &Reading, at: usize, depth: usize) -> Step
    requires { at < length reading.now.events }
{
    match reading.event(at) {
        Event::SeqEnd | Event::MapEnd => Step {
            depth: depth.saturating_add(1),
            ends: false,
        },
        Event::SeqStart { .. } | Event::MapStart { .. } => Step {
            depth: depth.saturating_sub(1),
            ends: depth == 0,
        },
        Event::Scalar { .. } | Event::Alias { .. } => Step { depth, ends: false },
        _ => Step { depth, ends: true },
    }
}

// Returns whether two events are scalars with equal text and equal tags.
fn are_same(reading: &Reading, one: usize, other: usize) -> bool
    requires first { one < length reading.now.events }
    requires second { other < length reading.now.events }
{
    match reading.event(one) {
        Event::Scalar { text, .. } => match reading.event(other) {
            Event::Scalar { text: second, .. } => {
                text == second && reading.resolved(one) == reading.resolved(other)
            }
            _ => false,
        },
        _ => false,
    }
}
