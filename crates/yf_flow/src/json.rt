//! Content between quotes or brackets, as JSON has it: quoted scalars, and the beginning of flow collections.
ghost use Rattle.std.specs.Prelude.{◌≡◌, ◌+◌, true, IfOk};
ghost use Rattle.std.specs.Str.{IsCharBoundary};
ghost use Rattle.yf_grammar.specs.Productions.Meaning.{event_with, start_of};
ghost use Rattle.yf_props.specs.Props.{props_value};
ghost use Rattle.yf_events.specs.Event.{new_event_value};
ghost use Rattle.yf_grammar.specs.FlowReader.Parser.{begins_content};
ghost use Rattle.yf_flow.specs.NodeStarts.{IsOpening, is_sequence};
ghost use Rattle.yf_chars.specs.Text.{code};
ghost use Rattle.yf_flow.specs.NodeOffsets.{NodeIsAwaited, Begins, CursorContent};

use crate::frame::{CollectionKind, FlowCursor, Frame, Role};
use crate::leaf::{Scalar, keep_escapes};
use crate::node::{Begun, Lead, push_leaf};
use std::alloc::AllocError;
use yf_chars::text::is_char_at;
use yf_events::event::{NewEvent, ScalarStyle};
use yf_events::part::Part;
use yf_props::props::Props;
use yf_quoted::double::{Double, double_in};
use yf_quoted::single::{Single, single_in};

/// Begins a quoted scalar, or a flow collection at its opening bracket (c-flow-json-content, production 157).
#[inline(always)]
pub(crate) fn json_content<'a>(
    cursor: &FlowCursor<'a>,
    lead: &Lead<'a>,
    part: &mut Part<'a>,
) -> Result<Begun, AllocError>
    requires awaited { NodeIsAwaited cursor.now part.old }
    requires content { begins_content (code cursor.now.scene.text.now cursor.now.at) ≡ true }
    ensures { IfOk result (Begins (CursorContent cursor.now lead.now) cursor.now part.old part.new) }
{
    let alloc = cursor.alloc;
    let scene = &cursor.scene;
    if is_char_at(scene.text, cursor.at, b'\'') {
        match single_in(
            alloc,
            scene.text,
            cursor.at,
            scene.indentation,
            scene.context,
        )? {
            Some(Single { text, end }) => {
                return push_leaf(
                    cursor,
                    lead,
                    ScalarStyle::Single,
                    Scalar { text, end },
                    part,
                );
            }
            None => return Ok(Begun::Nothing),
        }
    }
    if is_char_at(scene.text, cursor.at, b'"') {
        return double_node(cursor, lead, part);
    }
    if is_char_at(scene.text, cursor.at, b'[') {
        return open(cursor, CollectionKind::Sequence, lead, part);
    }
    if is_char_at(scene.text, cursor.at, b'{') {
        return open(cursor, CollectionKind::Mapping, lead, part);
    }
    Ok(Begun::Nothing)
}

// Reads a double-quoted scalar (c-double-quoted(n,c), production 109), and keeps its escapes that are not characters.
#[inline(always)]
fn double_node<'a>(
    cursor: &FlowCursor<'a>,
    lead: &Lead<'a>,
    part: &mut Part<'a>,
) -> Result<Begun, AllocError>
    requires awaited { NodeIsAwaited cursor.now part.old }
    requires quote { code cursor.now.scene.text.now cursor.now.at ≡ 34 }
    ensures { IfOk result (Begins (CursorContent cursor.now lead.now) cursor.now part.old part.new) }
{
    let alloc = cursor.alloc;
    let scene = &cursor.scene;
    match double_in(
        alloc,
        scene.text,
        cursor.at,
        scene.indentation,
        scene.context,
    )? {
        Some(Double { text, bad, end }) => {
            keep_escapes(&bad, &mut part.escapes)?;
            push_leaf(
                cursor,
                lead,
                ScalarStyle::Double,
                Scalar { text, end },
                part,
            )
        }
        None => Ok(Begun::Nothing),
    }
}

// Returns the event that begins a flow collection.
fn collection_start<'a>(kind: CollectionKind, props: Props<'a>) -> NewEvent<'a>
    ensures { new_event_value result ≡ event_with (props_value props.entry) (start_of (is_sequence kind) true) }
{
    match kind {
        CollectionKind::Sequence => NewEvent::SeqStart { flow: true, props },
        CollectionKind::Mapping => NewEvent::MapStart { flow: true, props },
        CollectionKind::Pair => NewEvent::MapStart { flow: true, props },
    }
}

// Opens the collection with its bracket at the offset, if the limit allows it. Its end is set when it is closed.
#[inline(always)]
fn open<'a>(
    cursor: &FlowCursor<'a>,
    kind: CollectionKind,
    lead: &Lead<'a>,
    part: &mut Part<'a>,
) -> Result<Begun, AllocError>
    requires awaited { NodeIsAwaited cursor.now part.old }
    requires follows { IsCharBoundary cursor.now.scene.text.now (cursor.now.at + 1) }
    requires bracket { IsOpening kind (code cursor.now.scene.text.now cursor.now.at) }
    ensures { IfOk result (Begins (CursorContent cursor.now lead.now) cursor.now part.old part.new) }
{
    if cursor.depth >= cursor.scene.limit {
        return Ok(Begun::TooDeep(cursor.at));
    }
    let event = part.events.len();
    let start = collection_start(kind, lead.props);
    part.events
        .push(lead.placed(cursor.alloc, start, cursor.at + 1))?;
    Ok(Begun::Opened(Frame {
        kind,
        depth: cursor.depth + 1,
        deepest: cursor.depth + 1,
        event,
        entry: cursor.at + 1,
        entry_event: event,
        role: Role::Item,
    }))
}
