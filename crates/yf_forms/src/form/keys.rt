//! Keys of block mappings: those written without `?`, their widths and their starts. Columns count from 0 here.
ghost use Rattle.std.specs.Prelude.{◌<◌, ◌≡◌, length};
ghost use Rattle.yf_events.specs.Event.{event_value};
ghost use Rattle.yf_forms.specs.Nodes.ImplicitKeys as Keys;
ghost use Rattle.yf_forms.specs.Passes.DecidePass as Deciding;

use crate::form::ended::{alias, scalar};
use crate::form::layout_context::{EventFacts, fits};
use crate::form::measure::Measure;
use crate::style::Style;
use yf_events::event::{Event, ScalarStyle};
use yf_events::reading::Reading;

/// The most characters of a key that is written without `?`, not counting its `:`.
pub const KEY_WIDTH: usize = 1023;

/// A key that waits for its value.
#[derive(Clone, Copy)]
pub(crate) struct PendingKey {
    pub(crate) is_implicit: bool,
    /// The number of its characters with the `:`, and with the space before that if it needs one.
    pub(crate) width: usize,
    /// The byte offset of its last leaf, or of its entry if it has no leaf.
    pub(crate) start: usize,
}

/// Returns whether a key is written without `?`: a leaf on one line, an empty node, or a flow collection kept at the
/// entry's column, with at most `KEY_WIDTH` characters.
pub(crate) fn is_implicit_key(measure: &Measure, column: usize, style: &Style) -> bool
    ensures { result ≡ Deciding.may_be_implicit style.now column measure.now.can_be_kept measure.now.width }
{
    match measure.width {
        Some(width) => {
            if width > KEY_WIDTH {
                return false;
            }
            if measure.can_be_kept {
                return fits(column, measure.width, style);
            }
            true
        }
        None => false,
    }
}

/// Returns whether the house style writes a scalar or an alias without `?` as a key of a block mapping, whatever is
/// around it. Returns `false` for other events.
pub fn is_implicit_atom(event: &Event, style: &Style) -> bool
    ensures { result ≡ Keys.is_implicit_atom style.now (event_value event.now) }
{
    match event {
        Event::Scalar {
            props,
            style: written,
            text,
        } => {
            let node = scalar(0, None, props, *written, text, style);
            is_implicit_key(&node.measure, 0, style)
        }
        Event::Alias { name } => is_implicit_key(&alias(0, name).measure, 0, style),
        _ => false,
    }
}

/// Returns whether a space comes before the `:` of this key: after an alias, and after properties without a text.
pub fn has_space(event: &Event, is_leaf: bool) -> bool
    ensures { result ≡ Deciding.has_space (event_value event.now) is_leaf }
{
    match event {
        Event::Alias { .. } => true,
        Event::Scalar {
            style: ScalarStyle::Plain,
            text,
            ..
        } => {
            if text.is_empty() {
                return is_leaf;
            }
            false
        }
        _ => false,
    }
}

/// Returns the byte offset at which a leaf begins.
pub(crate) fn leaf_start(reading: &Reading, leaf: Option<usize>) -> Option<usize>
    ensures { result ≡ Deciding.leaf_start reading.now.events leaf }
{
    match leaf {
        Some(i) => {
            if i < reading.len() {
                return match reading.span(i) {
                    Some(span) => Some(span.start),
                    None => None,
                };
            }
            None
        }
        None => None,
    }
}

/// Returns the byte offset after which a comment trails a key: the start of its last leaf, or of its entry if it has
/// no leaf.
fn key_start(reading: &Reading, i: usize, last_leaf: Option<usize>) -> usize
    requires { i < length reading.now.events }
    ensures { result ≡ Deciding.key_start reading.now.events i last_leaf }
{
    match leaf_start(reading, last_leaf) {
        Some(start) => start,
        None => match reading.entry(i) {
            Some(entry) => entry.start,
            None => 0,
        },
    }
}

/// Returns the number of characters of a key with its `:`.
fn key_width(event: &Event, is_leaf: bool, width: Option<usize>) -> usize
    ensures { result ≡ Deciding.key_width width (Deciding.colon_width (event_value event.now) is_leaf) }
{
    let colon = if has_space(event, is_leaf) { 2 } else { 1 };
    match width {
        Some(width) => width.saturating_add(colon),
        None => colon,
    }
}

/// Returns the key that an event begins.
pub(crate) fn key_of(facts: &EventFacts, is_implicit: bool) -> PendingKey
    requires { facts.now.i < length facts.now.reading.now.events }
    ensures { result ≡ record {
      is_implicit = is_implicit;
      width = Deciding.key_width facts.now.measure.now.width (Deciding.colon_width (event_value facts.now.event.now)
          (Deciding.is_leaf_at facts.now.i facts.now.measure.now.first_leaf));
      start = Deciding.key_start facts.now.reading.now.events facts.now.i facts.now.measure.now.last_leaf;
    } }
{
    let measure = facts.measure;
    PendingKey {
        is_implicit,
        width: key_width(facts.event, measure.is_leaf(facts.i), measure.width),
        start: key_start(facts.reading, facts.i, measure.last_leaf),
    }
}
