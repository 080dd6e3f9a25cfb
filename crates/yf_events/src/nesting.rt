//! Tests in one pass whether events are a well nested stream.
ghost use Rattle.std.specs.Prelude.{◌≡◌, ◌+◌, ◌≤◌, [], map, IfOk, MatchOption, vec_len};
ghost use Rattle.yf_events.specs.Event.{event_value};
ghost use Rattle.yf_events.specs.Nesting as Nesting;

use crate::event::Event;
use crate::events::Events;
use std::alloc::{AllocError, Global};

/// The events that may come next.
#[derive(Clone, Copy)]
pub enum NestingState {
    /// The start of the stream.
    Stream,
    /// A document, or the end of the stream.
    Documents,
    /// The root node of a document.
    Root,
    /// The end of a document.
    Closing,
    /// An item of a sequence, or its end.
    Items,
    /// A key of a mapping, or its end.
    Keys,
    /// The value of a key.
    Values,
    /// Nothing more.
    Nothing,
}

/// The effect of an event on the awaited events.
#[derive(Clone, Copy)]
pub enum Move {
    /// The event may not come here.
    Refuse,
    /// This state is awaited next.
    Stay(NestingState),
    /// The event opens a collection, with `within` awaited in it and `follows` after its end.
    Open {
        follows: NestingState,
        within: NestingState,
    },
    /// The event ends the innermost collection.
    Close,
}

/// Returns the state awaited after a node, if a node may come here.
fn after_node(top: NestingState) -> Option<NestingState>
    ensures { result ≡ Nesting.after_node top }
{
    match top {
        NestingState::Root => Some(NestingState::Closing),
        NestingState::Items => Some(NestingState::Items),
        NestingState::Keys => Some(NestingState::Values),
        NestingState::Values => Some(NestingState::Keys),
        NestingState::Stream
        | NestingState::Documents
        | NestingState::Closing
        | NestingState::Nothing => None,
    }
}

fn open(top: NestingState, within: NestingState) -> Move
    ensures { result ≡ Nesting.open_if (Nesting.after_node top) within }
{
    match after_node(top) {
        Some(follows) => Move::Open { follows, within },
        None => Move::Refuse,
    }
}

fn move_at(top: NestingState, event: &Event) -> Move
    ensures { result ≡ Nesting.move_at top (event_value event.now) }
{
    match event {
        Event::StreamStart => match top {
            NestingState::Stream => Move::Stay(NestingState::Documents),
            _ => Move::Refuse,
        },
        Event::StreamEnd => match top {
            NestingState::Documents => Move::Stay(NestingState::Nothing),
            _ => Move::Refuse,
        },
        Event::DocStart { .. } => match top {
            NestingState::Documents => Move::Stay(NestingState::Root),
            _ => Move::Refuse,
        },
        Event::DocEnd { .. } => match top {
            NestingState::Closing => Move::Stay(NestingState::Documents),
            _ => Move::Refuse,
        },
        Event::SeqStart { .. } => open(top, NestingState::Items),
        Event::MapStart { .. } => open(top, NestingState::Keys),
        Event::SeqEnd => match top {
            NestingState::Items => Move::Close,
            _ => Move::Refuse,
        },
        Event::MapEnd => match top {
            NestingState::Keys => Move::Close,
            _ => Move::Refuse,
        },
        Event::Scalar { .. } | Event::Alias { .. } => match after_node(top) {
            Some(next) => Move::Stay(next),
            None => Move::Refuse,
        },
    }
}

/// Passes one event. Returns the state awaited after it, or `None` if it may not come. `below` has the state awaited
/// after each open collection, the innermost last.
fn advance(
    top: NestingState,
    below: &mut Vec<NestingState>,
    event: &Event,
    limit: usize,
) -> Result<Option<NestingState>, AllocError>
    requires { vec_len below.old ≤ limit }
    ensures room { IfOk result (λ o. vec_len below.new ≤ limit) }
    ensures runs { IfOk result (λ o. Nesting.NestingStep limit top below.old.items (event_value event.now) o below.new.items) }
{
    match move_at(top, event) {
        Move::Refuse => Ok(None),
        Move::Stay(next) => Ok(Some(next)),
        Move::Open { follows, within } => {
            if below.len() == limit {
                return Ok(None);
            }
            below.push(follows)?;
            Ok(Some(within))
        }
        Move::Close => match below.pop() {
            Some(follows) => Ok(Some(follows)),
            None => Ok(None),
        },
    }
}

/// Returns whether the events are a well nested stream, with at most `limit` collections open at once.
pub fn is_stream(alloc: Global, events: &Events, limit: usize) -> Result<bool, AllocError>
    ensures { IfOk result (λ b. b ≡ Nesting.run limit NestingState.Stream [] (map (λ e. e.event) events.now)) }
{
    let mut below: Vec<NestingState> = Vec::new(alloc);
    let mut top = NestingState::Stream;
    for i in 0..events.len() {
        match advance(top, &mut below, &events.event(i), limit)? {
            Some(next) => {
                top = next;
            }
            None => return Ok(false),
        }
    }
    match top {
        NestingState::Nothing => Ok(below.is_empty()),
        _ => Ok(false),
    }
}
