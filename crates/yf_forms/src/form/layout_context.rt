//! The margins of each node in the open block collections around it. Columns count from 0 here.
ghost use Rattle.std.specs.Prelude.{◌<◌, ◌≡◌, ◌∷◌, ◌||◌, length, map, reverse, List, Some};
ghost use Rattle.std.specs.List.Sorted.{IsNonDecreasingBy};
ghost use Rattle.yf_comments.specs.Comment.{comment_value};
ghost use Rattle.yf_events.specs.Event.{event_value};
ghost use Rattle.yf_forms.specs.Passes.DecidePass as Deciding;
ghost use Rattle.yf_forms.specs.Passes.EventsGiven.{given_in};
ghost use Rattle.yf_forms.specs.Passes.Halving.{MayBegin, StaysUnknown};
ghost use Rattle.yf_forms.specs.Passes.Searches.{trail_limit, HalvesAfter};

use crate::form::comments_before::first_near;
use crate::form::keys::{PendingKey, is_implicit_key, key_of, leaf_start};
use crate::form::measure::Measure;
use crate::style::Style;
use yf_comments::comment::Comment;
use yf_events::event::Event;
use yf_events::reading::Reading;

/// An event of a reading with its index, the measure of the node that it begins, and the style.
#[derive(Clone, Copy)]
pub(crate) struct EventFacts<'r, 'a, 'e> {
    pub(crate) reading: &'r Reading<'a>,
    pub(crate) event: &'r Event<'e>,
    pub(crate) i: usize,
    pub(crate) measure: &'r Measure,
    pub(crate) style: &'r Style,
}

/// A block collection that has not ended yet.
#[derive(Clone, Copy)]
pub(crate) struct LayoutFrame {
    pub(crate) is_map: bool,
    pub(crate) column: usize,
    pub(crate) key: Option<PendingKey>,
}

/// The margins of a node, and its role.
#[derive(Clone, Copy)]
pub(crate) struct LayoutContext {
    /// The column at which it begins, with its properties.
    pub(crate) column: usize,
    /// The column of its entries, if it is a block collection.
    pub(crate) entries: usize,
    pub(crate) is_implicit: bool,
    pub(crate) key_comment: Option<usize>,
}

impl LayoutContext {
    fn at(column: usize) -> LayoutContext
        ensures { result ≡ Deciding.place_at column }
    {
        LayoutContext {
            column,
            entries: column,
            is_implicit: false,
            key_comment: None,
        }
    }
}

/// Returns whether a node of that width fits at the column.
#[inline(always)]
pub(crate) fn fits(column: usize, width: Option<usize>, style: &Style) -> bool
    ensures { result ≡ Deciding.has_room style.now column width }
{
    match width {
        Some(width) => column.saturating_add(width) <= style.max_line,
        None => false,
    }
}

/// Returns the first comment after one byte offset and before the other. `near` is the end of the last search.
#[inline(always)]
fn comment_between(comments: &[Comment], near: &mut usize, from: usize, to: usize) -> Option<usize>
    requires { MayBegin (λ c. c.offset) comments.now near.old }
    ensures between { IsNonDecreasingBy (λ c. c.offset) (map comment_value comments.now)
        → result ≡ Deciding.comment_between (map comment_value comments.now) from (Some to) }
    ensures ends { HalvesAfter (map (λ c. c.offset) comments.now) from (Some to) result }
    ensures near { StaysUnknown near.old near.new }
{
    first_near(comments, near, from.saturating_add(1), to)
}

/// Like `comment_between`, with an optional second offset; returns `None` without it.
#[inline(always)]
fn comment_before(
    comments: &[Comment],
    near: &mut usize,
    from: usize,
    to: Option<usize>,
) -> Option<usize>
    requires { MayBegin (λ c. c.offset) comments.now near.old }
    ensures between { IsNonDecreasingBy (λ c. c.offset) (map comment_value comments.now)
        → result ≡ Deciding.comment_between (map comment_value comments.now) from to }
    ensures ends { HalvesAfter (map (λ c. c.offset) comments.now) from to result }
    ensures near { StaysUnknown near.old near.new }
{
    match to {
        Some(to) => comment_between(comments, near, from, to),
        None => None,
    }
}

/// Returns the comment that trails an implicit key with its last leaf at that offset, before a value that begins on
/// the next line if there is such a comment.
#[inline(always)]
fn trailing_comment(
    reading: &Reading,
    near: &mut usize,
    start: usize,
    i: usize,
    measure: &Measure,
) -> Option<usize>
    requires { MayBegin (λ c. c.offset) reading.now.comments near.old }
    ensures trailing { IsNonDecreasingBy (λ c. c.offset) reading.now.comments
        → result ≡ Deciding.trailing_comment reading.now.comments reading.now.events start i measure.now }
    ensures ends { HalvesAfter (map (λ c. c.offset) reading.now.comments) start (trail_limit reading.now.events i measure.now) result }
    ensures near { StaysUnknown near.old near.new }
{
    let to = leaf_start(reading, measure.first_leaf);
    if measure.is_leaf(i) {
        return comment_before(reading.comments(), near, start, to);
    }
    if measure.can_be_kept {
        return comment_before(reading.comments(), near, start, to);
    }
    None
}

/// Returns the column of the entries of an implicit key's value, if it is a block collection.
#[inline(always)]
fn value_entries(event: &Event, column: usize, style: &Style) -> usize
    ensures { result ≡ Deciding.value_entries style.now (event_value event.now) column }
{
    if let Event::SeqStart { .. } = event {
        if !style.seq_indent {
            return column;
        }
    }
    column.saturating_add(style.indent)
}

/// Returns the comment if it trails the key: the value is a leaf, or fits on the next line.
fn comment_if(
    comment: usize,
    i: usize,
    measure: &Measure,
    column: usize,
    style: &Style,
) -> Option<usize>
    ensures { result ≡ Deciding.comment_if (Deciding.is_leaf_at i measure.now.first_leaf || Deciding.has_room style.now column measure.now.width) comment }
{
    if measure.is_leaf(i) {
        return Some(comment);
    }
    if fits(column, measure.width, style) {
        return Some(comment);
    }
    None
}

/// Returns the margins and the role of an implicit key's value.
#[inline(always)]
fn value_place(
    facts: &EventFacts,
    near: &mut usize,
    key: &PendingKey,
    column: usize,
) -> LayoutContext
    requires { MayBegin (λ c. c.offset) facts.now.reading.now.comments near.old }
    ensures place { IsNonDecreasingBy (λ c. c.offset) facts.now.reading.now.comments
        → result ≡ Deciding.value_place (given_in facts.now) (event_value facts.now.event.now) facts.now.i facts.now.measure.now key.now column }
    ensures near { StaysUnknown near.old near.new }
{
    let entries = value_entries(facts.event, column, facts.style);
    match trailing_comment(facts.reading, near, key.start, facts.i, facts.measure) {
        Some(comment) => {
            let next = column.saturating_add(facts.style.indent);
            LayoutContext {
                column: next,
                entries,
                is_implicit: false,
                key_comment: comment_if(comment, facts.i, facts.measure, next, facts.style),
            }
        }
        None => LayoutContext {
            column: column.saturating_add(key.width).saturating_add(1),
            entries,
            is_implicit: false,
            key_comment: None,
        },
    }
}

/// Returns the margins and the role of a key.
#[inline(always)]
fn key_place(column: usize, is_implicit: bool, style: &Style) -> LayoutContext
    ensures { result ≡ Deciding.key_place style.now column is_implicit }
{
    let inner = column.saturating_add(style.indent);
    LayoutContext {
        column: if is_implicit { column } else { inner },
        entries: inner,
        is_implicit,
        key_comment: None,
    }
}

/// Returns the margins and the role of the next key or value of a mapping. A key waits there for its value from now
/// on.
#[inline(always)]
fn place_in_map(level: &mut LayoutFrame, near: &mut usize, facts: &EventFacts) -> LayoutContext
    requires within { facts.now.i < length facts.now.reading.now.events }
    requires begins { MayBegin (λ c. c.offset) facts.now.reading.now.comments near.old }
    ensures place { IsNonDecreasingBy (λ c. c.offset) facts.now.reading.now.comments
        → result ≡ Deciding.place_in_map (given_in facts.now) (event_value facts.now.event.now) facts.now.i facts.now.measure.now
        level.old.column level.old.key }
    ensures level { level.new ≡ record {
      is_map = level.old.is_map;
      column = level.old.column;
      key = Deciding.key_after (given_in facts.now) (event_value facts.now.event.now) facts.now.i facts.now.measure.now
          level.old.column level.old.key;
    } }
    ensures near { StaysUnknown near.old near.new }
{
    match level.key {
        Some(key) => {
            level.key = None;
            if key.is_implicit {
                return value_place(facts, near, &key, level.column);
            }
            LayoutContext::at(level.column.saturating_add(facts.style.indent))
        }
        None => {
            let is_implicit = is_implicit_key(facts.measure, level.column, facts.style);
            level.key = Some(key_of(facts, is_implicit));
            key_place(level.column, is_implicit, facts.style)
        }
    }
}

/// Returns the margins and the role of the next node of a collection, and notes the node there.
#[inline(always)]
fn place_within(level: &mut LayoutFrame, near: &mut usize, facts: &EventFacts) -> LayoutContext
    requires within { facts.now.i < length facts.now.reading.now.events }
    requires begins { MayBegin (λ c. c.offset) facts.now.reading.now.comments near.old }
    ensures place { (others : List LayoutFrame) → IsNonDecreasingBy (λ c. c.offset) facts.now.reading.now.comments
        → result ≡ Deciding.next_place (given_in facts.now) (event_value facts.now.event.now) facts.now.i facts.now.measure.now
        (level.old ∷ others) }
    ensures level { (others : List LayoutFrame) → level.new ∷ others
        ≡ Deciding.next_stack (given_in facts.now) (event_value facts.now.event.now) facts.now.i facts.now.measure.now
        (level.old ∷ others) }
    ensures near { StaysUnknown near.old near.new }
{
    if level.is_map {
        return place_in_map(level, near, facts);
    }
    LayoutContext::at(level.column.saturating_add(facts.style.indent))
}

/// Returns the margins and the role of the next node, and notes in the innermost open collection whether it is a key
/// or a value. `near` is the end of the last search among the comments.
#[inline(always)]
pub(crate) fn place_node(
    stack: &mut Vec<LayoutFrame>,
    near: &mut usize,
    facts: &EventFacts,
) -> LayoutContext
    requires within { facts.now.i < length facts.now.reading.now.events }
    requires begins { MayBegin (λ c. c.offset) facts.now.reading.now.comments near.old }
    ensures place { IsNonDecreasingBy (λ c. c.offset) facts.now.reading.now.comments
        → result ≡ Deciding.next_place (given_in facts.now) (event_value facts.now.event.now) facts.now.i facts.now.measure.now
        (reverse stack.old.items) }
    ensures stack { reverse stack.new.items ≡ Deciding.next_stack (given_in facts.now) (event_value facts.now.event.now) facts.now.i
        facts.now.measure.now (reverse stack.old.items) }
    ensures near { StaysUnknown near.old near.new }
{
    let count = stack.len();
    if count > 0 {
        return place_within(&mut stack[count - 1], near, facts);
    }
    LayoutContext::at(0)
}
