//! Which documents have a `---`.
ghost use Rattle.std.specs.Prelude.{◌≡◌, ◌<◌, ◌∷◌, ◌++◌, List, length, slice_get, IfOk, IfSome};
ghost use Rattle.std.specs.Option.{option_to_list};
ghost use Rattle.yf_events.specs.Event.{EventValue};
ghost use Rattle.yf_events.specs.Reading.{events_of};
ghost use Rattle.yf_rule_sets.specs.RuleSets.Documents.{markers_in};

use crate::facts::found::push_found;
use std::alloc::{AllocError, Global};
use yf_events::event::Event;
use yf_events::reading::Reading;

/// Returns for each document whether it has a `---`.
pub fn markers(alloc: Global, reading: &Reading) -> Result<Vec<bool>, AllocError>
    ensures { IfOk result (λ markers. markers.items ≡ markers_in (events_of reading.now)) }
{
    let mut markers = Vec::new(alloc);
    for i in 0..reading.len() {
        push_found(&mut markers, marker_at(reading, i))?;
    }
    Ok(markers)
}

/// Returns whether the document that the event begins has a `---`, or `None` if the event begins no document.
fn marker_at(reading: &Reading, i: usize) -> Option<bool>
    requires { i < length reading.now.events }
    ensures { (es : List EventValue) → IfSome (slice_get (events_of reading.now) i)
        (λ e. markers_in (e ∷ es) ≡ option_to_list result ++ markers_in es) }
{
    match reading.event(i) {
        Event::DocStart { explicit } => Some(explicit),
        _ => None,
    }
}
