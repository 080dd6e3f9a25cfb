//! The state of a collection while its nodes are measured.
ghost use Rattle.std.specs.Prelude.{◌≡◌, ◌&&◌, false, map, not, MatchOption};
ghost use Rattle.std.specs.List.Sorted.{IsNonDecreasingBy};
ghost use Rattle.std.specs.Str.{IsUtf8};
ghost use Rattle.yf_comments.specs.Comment.{comment_value};
ghost use Rattle.yf_forms.specs.Nodes.ContentStart as ContentStart;
ghost use Rattle.yf_forms.specs.Nodes.OneLineFlows as Kept;
ghost use Rattle.yf_forms.specs.Passes.MeasurePass as Measuring;
ghost use Rattle.yf_forms.specs.Nodes.OneLine.{props_text};
ghost use Rattle.yf_forms.specs.Passes.Searches.{TellsHalving};
ghost use Rattle.yf_props.specs.Props.{props_value};

use crate::form::comments_before::first_between;
use crate::form::ended::Ended;
use crate::form::measure::Measure;
use crate::text::content_start::content_start;
use crate::text::width::{joined_width, props_width};
use yf_comments::comment::Comment;
use yf_events::event::Span;
use yf_props::props::Props;

/// A collection that has not ended yet.
#[derive(Clone, Copy)]
pub struct Open {
    pub start: usize,
    pub is_map: bool,
    pub props_width: usize,
    /// The width of its text so far without the brackets, or `None` if it can't be kept.
    pub sum: Option<usize>,
    pub is_empty: bool,
    /// Whether its next node is a key.
    pub is_key: bool,
    pub first_leaf: Option<usize>,
    pub last_leaf: Option<usize>,
}

/// Returns whether a comment is between the brackets of a collection with these properties.
fn has_comment(text: &str, comments: &[Comment], span: Option<Span>, props: &Props) -> bool
    ensures has { IsNonDecreasingBy (λ c. c.offset) comments.now
        → result ≡ Kept.has_comment text.now (map comment_value comments.now) span (props_value props.now) }
    ensures ends { MatchOption span (result ≡ false) (λ span. TellsHalving (map (λ c. c.offset) comments.now)
        (ContentStart.content_start text.now span (props_value props.now)) span.end result) }
{
    match span {
        Some(span) => {
            let written = Props {
                anchor: props.anchor,
                tag: props.tag,
            };
            let start = content_start(text, span, &written);
            first_between(comments, start, span.end).is_some()
        }
        None => false,
    }
}

/// Returns the width of an empty text, 0, or `None` if the collection can't be kept.
fn first_sum(
    text: &str,
    comments: &[Comment],
    span: Option<Span>,
    props: &Props,
    flow: bool,
) -> Option<usize>
    ensures { IsNonDecreasingBy (λ c. c.offset) comments.now
        → result ≡ Measuring.zero_if (flow && not (Kept.has_comment text.now (map comment_value comments.now) span
        (props_value props.now))) }
{
    if flow {
        if has_comment(text, comments, span, props) {
            return None;
        }
        return Some(0);
    }
    None
}

/// Returns the collection that the event at an index begins, before its first node.
#[inline(always)]
pub(crate) fn opened(
    text: &str,
    comments: &[Comment],
    i: usize,
    span: Option<Span>,
    props: &Props,
    flow: bool,
    is_map: bool,
) -> Open
    ensures opened { IsNonDecreasingBy (λ c. c.offset) comments.now
        → result ≡ Measuring.opened text.now (map comment_value comments.now) i span (props_value props.now) flow is_map }
    ensures utf8 { IsUtf8 (props_text (props_value props.now)) }
{
    Open {
        start: i,
        is_map,
        props_width: props_width(props),
        sum: first_sum(text, comments, span, props, flow),
        is_empty: true,
        is_key: is_map,
        first_leaf: None,
        last_leaf: None,
    }
}

/// Returns an empty collection, which is a leaf.
fn empty_collection(collection: &Open, end: usize) -> Ended
    ensures { result ≡ Measuring.closed_empty collection.now end }
{
    let width = Some(joined_width(collection.props_width, 2));
    let measure = Measure {
        last: end,
        width,
        can_be_kept: false,
        first_leaf: Some(collection.start),
        last_leaf: Some(collection.start),
    };
    Ended {
        measure,
        inside: width,
        is_alias: false,
    }
}

/// Returns the width from bracket to bracket, with the properties.
fn joined_sum(collection: &Open) -> Option<usize>
    ensures { result ≡ Measuring.joined_sum collection.now.props_width collection.now.sum }
{
    match collection.sum {
        Some(sum) => Some(joined_width(collection.props_width, sum.saturating_add(2))),
        None => None,
    }
}

/// Returns a collection as an ended node. Its last event is at the index `end`.
#[inline(always)]
pub(crate) fn closed(collection: &Open, end: usize) -> Ended
    ensures { result ≡ Measuring.closed collection.now end }
{
    if collection.is_empty {
        return empty_collection(collection, end);
    }
    let width = joined_sum(collection);
    let measure = Measure {
        last: end,
        width,
        can_be_kept: collection.sum.is_some(),
        first_leaf: collection.first_leaf,
        last_leaf: collection.last_leaf,
    };
    Ended {
        measure,
        inside: width,
        is_alias: false,
    }
}

/// Returns the width before the next node: none before the first one, and otherwise a comma and a space, or a `:` and
/// a space.
fn separator_width(collection: &Open) -> usize
    ensures { result ≡ Measuring.separator_width collection.now }
{
    if collection.is_empty { 0 } else { 2 }
}

/// Returns the width of the additional space after an alias that is a key.
fn space_width(collection: &Open, node: &Ended) -> usize
    ensures { result ≡ Measuring.space_width collection.now node.now }
{
    if collection.is_key {
        if node.is_alias {
            return 1;
        }
    }
    0
}

/// Returns the width of the text so far with one more node.
#[inline(always)]
fn sum_with(collection: &Open, node: &Ended) -> Option<usize>
    ensures { result ≡ (Measuring.with_node collection.now node.now).sum }
{
    let sum = collection.sum?;
    let width = node.inside?;
    Some(sum.saturating_add(separator_width(collection).saturating_add(width.saturating_add(
        space_width(collection, node),
    ))))
}

/// Adds one more node to the collection.
#[inline(always)]
pub(crate) fn add_node(collection: &mut Open, node: &Ended)
    ensures { collection.new ≡ Measuring.with_node collection.old node.now }
{
    if collection.sum.is_some() {
        collection.sum = sum_with(collection, node);
    }
    collection.is_empty = false;
    collection.is_key = collection.is_map && !collection.is_key;
    if collection.first_leaf.is_none() {
        collection.first_leaf = node.measure.first_leaf;
    }
    if node.measure.last_leaf.is_some() {
        collection.last_leaf = node.measure.last_leaf;
    }
}
