//! The properties of nodes, line by line.
ghost use Rattle.std.specs.Prelude.{◌≡◌, pos, ◌+◌, IfOk, IfSome, MatchOption};
ghost use Rattle.std.specs.Str.{IsCharBoundary};
ghost use Rattle.yf_chars.specs.Chain.{Stuck};
ghost use Rattle.yf_chars.specs.Text.{code};
ghost use Rattle.yf_chars.specs.Boundary.{BoundaryFrom};
ghost use Rattle.yf_grammar.specs.BlockReader.BlockParser.{Ahead, PropertiesHeld as HeldValue};
ghost use Rattle.yf_grammar.specs.FlowReader.Parser.{begins_properties};
ghost use Rattle.yf_props.specs.Names as Names;
ghost use Rattle.yf_block.specs.BlockStepTied.{PropertiesTied};
ghost use Rattle.yf_block.specs.PropertiesAnswers.{PropertiesAhead, JoinedAfter, JoinedTo, LineProperties, NoPlaceAfter, PlaceAfter, held_lead, lead_at, line_held};

use crate::look::is_sign_at;
use std::alloc::{AllocError, Global};
use yf_chars::context::Ctx;
use yf_chars::text::is_char_at;
use yf_events::event::Entry;
use yf_flow::node::Lead;
use yf_lines::basic::skip_whites;
use yf_props::properties::{Properties, node_properties};
use yf_props::props::Props;

/// Properties between two byte offsets.
#[derive(Clone, Copy)]
pub(crate) struct PlacedProperties<'a> {
    pub(crate) start: usize,
    pub(crate) props: Props<'a>,
    pub(crate) tag_offset: Option<usize>,
    pub(crate) end: usize,
}

impl<'a> PlacedProperties<'a> {
    /// Returns the lead of a node with these properties.
    pub(crate) fn lead(self, entry: Option<Entry>) -> Lead<'a>
        ensures { result ≡ held_lead self.entry entry }
    {
        Lead {
            start: self.start,
            props: self.props,
            tag_offset: self.tag_offset,
            entry,
        }
    }
}

/// Returns the lead of a node at an offset, with or without properties.
pub(crate) fn lead_of<'a>(
    at: usize,
    properties: Option<PlacedProperties<'a>>,
    entry: Option<Entry>,
) -> Lead<'a>
    ensures { result ≡ lead_at at properties.entry entry }
{
    match properties {
        Some(properties) => properties.lead(entry),
        None => Lead::bare(at, entry),
    }
}

/// Reads the properties that begin at an offset, on one line.
pub(crate) fn line_properties<'a>(
    alloc: Global,
    text: &'a str,
    at: usize,
) -> Result<Option<PlacedProperties<'a>>, AllocError>
    ensures place { IfOk result (λ o. IfSome o (λ h. BoundaryFrom text.now (at + 1) h.end)) }
    ensures reads { IfOk result
        (λ o. MatchOption o (Stuck (Names.Properties text.now (pos 0) Ctx.FlowKey at)) (LineProperties text.now at)) }
{
    if is_property_at(text, at) {
        match node_properties(alloc, text, at, 0, Ctx::FlowKey)? {
            Some(
                Properties {
                    props,
                    tag_offset,
                    comments: _,
                    end,
                },
            ) => {
                return Ok(Some(PlacedProperties {
                    start: at,
                    props,
                    tag_offset,
                    end,
                }));
            }
            None => return Ok(None),
        }
    }
    Ok(None)
}

/// Returns whether an anchor or a tag begins at the offset.
pub(crate) fn is_property_at(text: &str, at: usize) -> bool
    ensures { result ≡ begins_properties (code text.now at) }
{
    if is_char_at(text, at, b'&') {
        return true;
    }
    is_char_at(text, at, b'!')
}

/// Returns the offset of the text after properties on their line: after white space, or at the `:` of an empty key.
/// Returns `None` if something else follows, or another property.
pub(crate) fn place_after(text: &str, properties: PlacedProperties) -> Option<usize>
    requires { IsCharBoundary text.now properties.end }
    ensures place { IfSome result (λ p. BoundaryFrom text.now properties.entry.end p) }
    ensures reads { MatchOption result (NoPlaceAfter text.now properties.entry.end) (PlaceAfter text.now properties.entry.end) }
{
    let place = skip_whites(text, properties.end);
    if place == properties.end {
        if !is_sign_at(text, place, b':') {
            return None;
        }
    }
    if is_property_at(text, place) {
        return None;
    }
    Some(place)
}

/// Returns the properties of one node on several lines, or `None` if two are of one kind.
pub(crate) fn joined<'a>(
    outer: PlacedProperties<'a>,
    inner: PlacedProperties<'a>,
) -> Option<PlacedProperties<'a>>
    ensures end { IfSome result (λ h. h.end ≡ inner.entry.end) }
    ensures reads { (h : HeldValue) → (q : Names.PropertiesValue) → PropertiesTied h outer.entry
        → PropertiesTied (line_held q inner.entry.start inner.entry.end) inner.entry
        → JoinedTo h q inner.entry.end result }
{
    if outer.props.anchor.and(inner.props.anchor).is_some() {
        return None;
    }
    if outer.props.tag.and(inner.props.tag).is_some() {
        return None;
    }
    Some(PlacedProperties {
        start: outer.start,
        props: Props {
            anchor: outer.props.anchor.or(inner.props.anchor),
            tag: outer.props.tag.or(inner.props.tag),
        },
        tag_offset: outer.tag_offset.or(inner.tag_offset),
        end: inner.end,
    })
}

/// Like `joined`, but earlier lines may have no properties.
pub(crate) fn joined_after<'a>(
    outer: Option<PlacedProperties<'a>>,
    inner: PlacedProperties<'a>,
) -> Option<PlacedProperties<'a>>
    ensures end { IfSome result (λ h. h.end ≡ inner.entry.end) }
    ensures reads { (a : Ahead) → (q : Names.PropertiesValue) → PropertiesAhead a outer.entry
        → PropertiesTied (line_held q inner.entry.start inner.entry.end) inner.entry
        → JoinedAfter a q inner.entry.start inner.entry.end result }
{
    match outer {
        Some(outer) => joined(outer, inner),
        None => Some(inner),
    }
}
