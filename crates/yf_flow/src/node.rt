//! Nodes that may be an item, a key or a value, and their events.
ghost use Rattle.std.specs.Prelude.{◌≡◌, ◌+◌, length, false, [], ◌∷◌, ◌++◌, IfOk};
ghost use Rattle.std.specs.Bool.{OnTrue};
ghost use Rattle.yf_lines.specs.Text.{text_bytes};
ghost use Rattle.yf_props.specs.Props.{no_props};
ghost use Rattle.yf_events.specs.Event.{new_event_value, placed_value, scalar_node};
ghost use Rattle.yf_grammar.specs.FlowReader.Parser.{begins_content};
ghost use Rattle.yf_chars.specs.Text.{code};
ghost use Rattle.yf_flow.specs.NodeOffsets.{NodeIsAwaited, Begins, LeafPushed, PropertiesAt, CursorBegun, CursorContent, is_quoted};
ghost use Rattle.yf_flow.specs.NodeStarts.{bare_lead, entry_event, leaf_event, lead_event};

use crate::frame::{FlowCursor, Frame, Node};
use crate::json::json_content;
use crate::leaf::{Scalar, read_plain, read_properties};
use crate::look::content_begins;
use std::alloc::{AllocError, Global};
use yf_comments::comments::Separation;
use yf_comments::separation::separate;
use yf_events::event::{Entry, NewEvent, PlacedEvent, ScalarStyle, Span};
use yf_events::part::Part;
use yf_events::slices::Slices;
use yf_lines::text::Text;
use yf_props::alias::alias_node;
use yf_props::properties::Properties;
use yf_props::props::Props;

/// The reader's knowledge of a node before its content: its start, its properties, and the entry that it begins.
#[derive(Clone, Copy)]
pub struct Lead<'a> {
    pub start: usize,
    pub props: Props<'a>,
    pub tag_offset: Option<usize>,
    pub entry: Option<Entry>,
}

/// The beginning of an awaited node.
pub(crate) enum Begun {
    /// A node without nodes in it.
    Leaf(Node),
    /// The opening bracket of a collection; its first entry is awaited at `Frame::entry`.
    Opened(Frame),
    Nothing,
    /// An opening bracket of a collection that would exceed the limit.
    TooDeep(usize),
}

impl<'a> Lead<'a> {
    /// Returns a lead without properties.
    #[inline(always)]
    pub fn bare(start: usize, entry: Option<Entry>) -> Lead<'a>
        ensures { result ≡ bare_lead start entry }
    {
        Lead {
            start,
            props: Props {
                anchor: None,
                tag: None,
            },
            tag_offset: None,
            entry,
        }
    }

    /// Returns the event that begins the node, with the node's end.
    #[inline(always)]
    pub fn placed(self, alloc: Global, event: NewEvent<'a>, end: usize) -> PlacedEvent<'a>
        ensures { placed_value result ≡ lead_event self.entry (new_event_value event.entry) end }
    {
        PlacedEvent {
            event,
            span: Some(Span {
                start: self.start,
                end,
            }),
            tag_offset: self.tag_offset,
            entry: self.entry,
            folded: Slices::new(alloc),
        }
    }
}

/// Returns the event of an empty node without properties, or of the end of a collection.
pub fn unplaced<'a>(alloc: Global, event: NewEvent<'a>, entry: Option<Entry>) -> PlacedEvent<'a>
    ensures { placed_value result ≡ entry_event (new_event_value event.entry) entry }
{
    PlacedEvent {
        event,
        span: None,
        tag_offset: None,
        entry,
        folded: Slices::new(alloc),
    }
}

/// Returns an empty node without properties.
pub fn empty_node<'a>(alloc: Global, entry: Option<Entry>) -> PlacedEvent<'a>
    ensures { placed_value result ≡ entry_event (scalar_node no_props ScalarStyle.Plain []) entry }
{
    let event = NewEvent::Scalar {
        props: Props {
            anchor: None,
            tag: None,
        },
        style: ScalarStyle::Plain,
        text: Text::Part(""),
    };
    unplaced(alloc, event, entry)
}

/// Begins a node (ns-flow-node, production 161) at a cursor.
pub(crate) fn begin_node<'a>(
    cursor: FlowCursor<'a>,
    entry: Option<Entry>,
    part: &mut Part<'a>,
) -> Result<Begun, AllocError>
    requires { NodeIsAwaited cursor part.old }
    ensures { IfOk result (Begins (CursorBegun cursor.entry entry) cursor.entry part.old part.new) }
{
    match alias_node(cursor.scene.text, cursor.at) {
        Some((name, end)) => {
            let event = NewEvent::Alias { name };
            let lead = Lead::bare(cursor.at, entry);
            part.events.push(lead.placed(cursor.alloc, event, end))?;
            return Ok(Begun::Leaf(Node {
                end,
                json: false,
                deepest: cursor.depth,
            }));
        }
        None => {}
    }
    match read_properties(cursor.alloc, cursor.scene, cursor.at)? {
        Some(properties) => propertied_node(cursor, properties, entry, part),
        None => begin_content(&cursor, &Lead::bare(cursor.at, entry), part),
    }
}

/// Begins the content of a node: a plain scalar, a quoted one or a flow collection.
#[inline(always)]
pub(crate) fn begin_content<'a>(
    cursor: &FlowCursor<'a>,
    lead: &Lead<'a>,
    part: &mut Part<'a>,
) -> Result<Begun, AllocError>
    requires { NodeIsAwaited cursor.now part.old }
    ensures { IfOk result (Begins (CursorContent cursor.now lead.now) cursor.now part.old part.new) }
{
    if content_begins(cursor.scene.text, cursor.at) {
        return json_content(cursor, lead, part);
    }
    plain_node(cursor, lead, part)
}

// Begins a node with properties. Its content is a plain scalar, a quoted scalar or a flow collection, or else it is
// empty.
#[inline(never)]
fn propertied_node<'a>(
    cursor: FlowCursor<'a>,
    properties: Properties<'a>,
    entry: Option<Entry>,
    part: &mut Part<'a>,
) -> Result<Begun, AllocError>
    requires awaited { NodeIsAwaited cursor part.old }
    requires properties { PropertiesAt cursor properties }
    ensures { IfOk result (Begins (CursorBegun cursor.entry entry) cursor.entry part.old part.new) }
{
    let Properties {
        props,
        tag_offset,
        comments,
        end,
    } = properties;
    let lead = Lead {
        start: cursor.at,
        props,
        tag_offset,
        entry,
    };
    let scene = cursor.scene;
    part.comments.append(comments)?;
    match separate(
        cursor.alloc,
        scene.text,
        end,
        scene.indentation,
        scene.context,
    )? {
        Some(
            Separation {
                comments,
                end: place,
            },
        ) => {
            if content_begins(scene.text, place) {
                part.comments.append(comments)?;
                return json_content(
                    &FlowCursor {
                        at: place,
                        ..cursor
                    },
                    &lead,
                    part,
                );
            }
            match read_plain(&FlowCursor {
                at: place,
                ..cursor
            })? {
                Some(plain) => {
                    part.comments.append(comments)?;
                    return push_leaf(&cursor, &lead, ScalarStyle::Plain, plain, part);
                }
                None => {}
            }
        }
        None => {}
    }
    let text = Text::Part("");
    push_leaf(
        &cursor,
        &lead,
        ScalarStyle::Plain,
        Scalar { text, end },
        part,
    )
}

/// Adds a scalar as a node.
#[inline(always)]
pub(crate) fn push_leaf<'a>(
    cursor: &FlowCursor<'a>,
    lead: &Lead<'a>,
    style: ScalarStyle,
    scalar: Scalar<'a>,
    part: &mut Part<'a>,
) -> Result<Begun, AllocError>
    ensures { IfOk result (LeafPushed cursor.now lead.now style scalar.entry part.old part.new) }
{
    let Scalar { text, end } = scalar;
    let json = is_quoted(style);
    push_scalar(cursor.alloc, lead, style, text, end, part)?;
    Ok(Begun::Leaf(Node {
        end,
        json,
        deepest: cursor.depth,
    }))
}

// Returns whether a scalar of that style is one like those of JSON.
fn is_quoted(style: ScalarStyle) -> bool
    ensures { result ≡ is_quoted style }
{
    match style {
        ScalarStyle::Single | ScalarStyle::Double => true,
        ScalarStyle::Plain | ScalarStyle::Literal | ScalarStyle::Folded => false,
    }
}

/// Adds a scalar that ends at an offset, with its lead.
#[inline(always)]
pub fn push_scalar<'a>(
    alloc: Global,
    lead: &Lead<'a>,
    style: ScalarStyle,
    text: Text<'a>,
    end: usize,
    part: &mut Part<'a>,
) -> Result<(), AllocError>
    ensures pushed { IfOk result (λ _. part.new.events ≡ part.old.events ++
        (leaf_event lead.now style (text_bytes text.entry) end ∷ [])) }
    ensures found { IfOk result (λ _. length part.new.events ≡ length part.old.events + 1) }
    ensures comments { IfOk result (λ _. part.new.comments ≡ part.old.comments) }
    ensures escapes { IfOk result (λ _. part.new.escapes ≡ part.old.escapes) }
{
    match text {
        Text::Part(words) => {
            if is_bare(lead) {
                let (start, entry) = (lead.start, lead.entry);
                return part.events.push_scalar(style, words, start, end, entry);
            }
            push_marked(alloc, lead, style, Text::Part(words), end, part)
        }
        Text::Owned(words) => push_marked(alloc, lead, style, Text::Owned(words), end, part),
    }
}

// Returns whether the lead has no properties.
#[inline(always)]
fn is_bare(lead: &Lead) -> bool
    ensures { OnTrue result (lead.now ≡ bare_lead lead.now.start lead.now.entry) }
{
    if lead.props.anchor.is_some() {
        return false;
    }
    if lead.props.tag.is_some() {
        return false;
    }
    lead.tag_offset.is_none()
}

// Like `push_scalar`, for a scalar with properties, or with a text of its own.
#[inline(never)]
fn push_marked<'a>(
    alloc: Global,
    lead: &Lead<'a>,
    style: ScalarStyle,
    text: Text<'a>,
    end: usize,
    part: &mut Part<'a>,
) -> Result<(), AllocError>
    ensures pushed { IfOk result (λ _. part.new.events ≡ part.old.events ++
        (leaf_event lead.now style (text_bytes text.entry) end ∷ [])) }
    ensures found { IfOk result (λ _. length part.new.events ≡ length part.old.events + 1) }
    ensures comments { IfOk result (λ _. part.new.comments ≡ part.old.comments) }
    ensures escapes { IfOk result (λ _. part.new.escapes ≡ part.old.escapes) }
{
    let event = NewEvent::Scalar {
        props: lead.props,
        style,
        text,
    };
    part.events.push(lead.placed(alloc, event, end))
}

// Reads a plain scalar as a node (ns-plain, production 131).
#[inline(always)]
fn plain_node<'a>(
    cursor: &FlowCursor<'a>,
    lead: &Lead<'a>,
    part: &mut Part<'a>,
) -> Result<Begun, AllocError>
    requires awaited { NodeIsAwaited cursor.now part.old }
    requires other { begins_content (code cursor.now.scene.text.now cursor.now.at) ≡ false }
    ensures { IfOk result (Begins (CursorContent cursor.now lead.now) cursor.now part.old part.new) }
{
    match read_plain(cursor)? {
        Some(plain) => push_leaf(cursor, lead, ScalarStyle::Plain, plain, part),
        None => Ok(Begun::Nothing),
    }
}
