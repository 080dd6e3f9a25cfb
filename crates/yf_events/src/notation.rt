//! The notation of events: one line for each, as the YAML test suite writes them.
ghost use Rattle.std.specs.Prelude.{◌≡◌, ◌<◌, length, map, slice_get, None, Some, [], ◌∷◌, codes};
ghost use Rattle.std.specs.List.{concat, flat_map};
ghost use Rattle.yf_events.specs.Event.{EventValue, event_value};
ghost use Rattle.yf_events.specs.Notation as Notation;
ghost use Rattle.yf_events.specs.Packed.{shape_value};
ghost use Rattle.yf_events.specs.Pieces.{bare_head, bare_line, piece_bytes, scalar_line, start_line};
ghost use Rattle.yf_events.specs.PlainWrites.{PlainWritten};
ghost use Rattle.yf_lines.specs.Output.{TextWritten};
ghost use Rattle.yf_props.specs.Props.{name_value, no_props};

use crate::escapes::write_escaped;
use crate::event::{Event, ScalarStyle};
use crate::events::Events;
use crate::packed::Shape;
use crate::puts::{put_escaped, put_text, put_texts};
use crate::reading::Reading;
use yf_lines::fault::Fault;
use yf_lines::output::{write_text, write_texts};
use yf_lines::watched::Sink;
use yf_props::resolved::ResolvedTag;

/// A piece of a line.
#[derive(Clone, Copy)]
pub enum Piece<'a> {
    /// A text as it is.
    Plain(&'a str),
    /// A text with its escapes.
    Escaped(&'a str),
    /// An anchor, with the space and the `&` before it.
    Anchor(Option<&'a str>),
    /// A resolved tag, with the space before it and `<` and `>` around it.
    Tag(Option<&'a ResolvedTag<'a>>),
}

fn write_anchor<W: Sink>(writer: &mut W, anchor: Option<&str>) -> Result<(), Fault>
    ensures { TextWritten (W.contents writer.old) (W.contents writer.new) (W.has_failed writer.old) (W.has_failed writer.new)
        (Notation.anchor_part (name_value anchor.entry)) result }
{
    match anchor {
        Some(name) => write_texts(writer, &[" &", name]),
        None => write_text(writer, b""),
    }
}

// Writes a resolved tag with its escapes.
fn write_resolved<W: Sink>(writer: &mut W, tag: &ResolvedTag) -> Result<(), Fault>
    ensures { TextWritten (W.contents writer.old) (W.contents writer.new) (W.has_failed writer.old) (W.has_failed writer.new)
        (Notation.escaped tag.now) result }
{
    let (prefix, suffix) = tag.parts();
    write_escaped(writer, prefix)?;
    write_escaped(writer, suffix)
}

fn write_tag<W: Sink>(writer: &mut W, tag: Option<&ResolvedTag>) -> Result<(), Fault>
    ensures { TextWritten (W.contents writer.old) (W.contents writer.new) (W.has_failed writer.old) (W.has_failed writer.new)
        (Notation.tag_part (name_value tag.entry)) result }
{
    match tag {
        Some(tag) => {
            write_text(writer, b" <")?;
            write_resolved(writer, tag)?;
            write_text(writer, b">")
        }
        None => write_text(writer, b""),
    }
}

fn write_piece<W: Sink>(writer: &mut W, piece: &Piece) -> Result<(), Fault>
    ensures { TextWritten (W.contents writer.old) (W.contents writer.new) (W.has_failed writer.old) (W.has_failed writer.new)
        (piece_bytes piece.now) result }
{
    match piece {
        Piece::Plain(text) => write_text(writer, text.as_bytes()),
        Piece::Escaped(text) => write_escaped(writer, text),
        Piece::Anchor(anchor) => write_anchor(writer, *anchor),
        Piece::Tag(tag) => write_tag(writer, *tag),
    }
}

fn write_pieces<W: Sink>(writer: &mut W, pieces: &[Piece]) -> Result<(), Fault>
    ensures { TextWritten (W.contents writer.old) (W.contents writer.new) (W.has_failed writer.old) (W.has_failed writer.new)
        (flat_map piece_bytes pieces.now) result }
{
    for piece in pieces {
        write_piece(writer, piece)?;
    }
    Ok(())
}

fn put_pieces<W: Sink>(writer: &mut W, pieces: &[Piece]) -> bool
    ensures { PlainWritten (W.contents writer.old) (W.contents writer.new) (W.has_failed writer.old) (W.has_failed writer.new)
        (flat_map piece_bytes pieces.now) result }
{
    match write_pieces(writer, pieces) {
        Ok(()) => true,
        Err(_) => false,
    }
}

/// Returns the sign of a scalar's style.
fn style_sign(style: ScalarStyle) -> &'static str
    ensures { result.now ≡ Notation.style_sign style }
{
    match style {
        ScalarStyle::Plain => ":",
        ScalarStyle::Single => "'",
        ScalarStyle::Double => "\"",
        ScalarStyle::Literal => "|",
        ScalarStyle::Folded => ">",
    }
}

/// Returns the part if `is_there`, and an empty text otherwise.
fn part_if<'s>(is_there: bool, part: &'s str) -> &'s str
    ensures { result.now ≡ Notation.part_if is_there part.now }
{
    if is_there { part } else { "" }
}

// Returns the start of the line of a scalar without properties.
fn bare_head(style: ScalarStyle) -> &'static str
    ensures { result.now ≡ bare_head style }
{
    match style {
        ScalarStyle::Plain => "=VAL :",
        ScalarStyle::Single => "=VAL '",
        ScalarStyle::Double => "=VAL \"",
        ScalarStyle::Literal => "=VAL |",
        ScalarStyle::Folded => "=VAL >",
    }
}

// Writes the line of a scalar without properties, as most are, by three writes.
#[inline(always)]
fn put_bare_scalar<W: Sink>(writer: &mut W, style: ScalarStyle, text: &str) -> bool
    ensures { PlainWritten (W.contents writer.old) (W.contents writer.new) (W.has_failed writer.old) (W.has_failed writer.new)
        (bare_line style text.now) result }
{
    if !put_text(writer, bare_head(style).as_bytes()) {
        return false;
    }
    if !put_escaped(writer, text) {
        return false;
    }
    put_text(writer, b"\n")
}

// Writes the line of a scalar with an anchor or a tag.
#[inline(never)]
fn put_scalar<'x, W: Sink>(
    writer: &mut W,
    anchor: Option<&'x str>,
    tag: Option<&'x ResolvedTag<'x>>,
    style: ScalarStyle,
    text: &'x str,
) -> bool
    ensures { PlainWritten (W.contents writer.old) (W.contents writer.new) (W.has_failed writer.old) (W.has_failed writer.new)
        (scalar_line (name_value anchor.entry) (name_value tag.entry) style text.now) result }
{
    let sign = style_sign(style);
    put_pieces(
        writer,
        &[
            Piece::Plain("=VAL"),
            Piece::Anchor(anchor),
            Piece::Tag(tag),
            Piece::Plain(" "),
            Piece::Plain(sign),
            Piece::Escaped(text),
            Piece::Plain("\n"),
        ],
    )
}

// Writes the line of the start of a collection.
fn put_start<'x, W: Sink>(
    writer: &mut W,
    name: &'x str,
    anchor: Option<&'x str>,
    tag: Option<&'x ResolvedTag<'x>>,
) -> bool
    ensures { PlainWritten (W.contents writer.old) (W.contents writer.new) (W.has_failed writer.old) (W.has_failed writer.new)
        (start_line name.now (name_value anchor.entry) (name_value tag.entry)) result }
{
    put_pieces(
        writer,
        &[
            Piece::Plain(name),
            Piece::Anchor(anchor),
            Piece::Tag(tag),
            Piece::Plain("\n"),
        ],
    )
}

// Writes a line of one part.
#[inline(never)]
fn put_line<'x, W: Sink>(writer: &mut W, part: &'x str) -> bool
    ensures { PlainWritten (W.contents writer.old) (W.contents writer.new) (W.has_failed writer.old) (W.has_failed writer.new)
        (concat (part.now ∷ codes "\n" ∷ [])) result }
{
    put_texts(writer, &[part, "\n"])
}

// Writes a line of two parts.
#[inline(never)]
fn put_parts<'x, W: Sink>(writer: &mut W, first: &'x str, second: &'x str) -> bool
    ensures { PlainWritten (W.contents writer.old) (W.contents writer.new) (W.has_failed writer.old) (W.has_failed writer.new)
        (concat (first.now ∷ second.now ∷ codes "\n" ∷ [])) result }
{
    put_texts(writer, &[first, second, "\n"])
}

/// Writes the line of an event, with the resolved tag of the node that it begins. Returns whether the write
/// succeeded.
#[inline(never)]
#[tactic(auto, unfolding(crate::specs::Notation::event_line))]
fn put_event<'x, W: Sink>(
    writer: &mut W,
    event: Event<'x>,
    tag: Option<&'x ResolvedTag<'x>>,
) -> bool
    ensures { PlainWritten (W.contents writer.old) (W.contents writer.new) (W.has_failed writer.old) (W.has_failed writer.new)
        (Notation.event_line (event_value event.entry) (name_value tag.entry)) result }
{
    match event {
        Event::StreamStart => put_text(writer, b"+STR\n"),
        Event::StreamEnd => put_text(writer, b"-STR\n"),
        Event::DocStart { explicit } => put_texts(
            writer,
            &["+DOC", part_if(explicit, " ---"), "\n"],
        ),
        Event::DocEnd { explicit } => put_texts(writer, &["-DOC", part_if(explicit, " ..."), "\n"]),
        Event::SeqStart { flow, props } => {
            let name = if flow { "+SEQ []" } else { "+SEQ" };
            put_start(writer, name, props.anchor, tag)
        }
        Event::SeqEnd => put_text(writer, b"-SEQ\n"),
        Event::MapStart { flow, props } => {
            let name = if flow { "+MAP {}" } else { "+MAP" };
            put_start(writer, name, props.anchor, tag)
        }
        Event::MapEnd => put_text(writer, b"-MAP\n"),
        Event::Scalar { props, style, text } => match (props.anchor, tag) {
            (None, None) => put_bare_scalar(writer, style, text),
            (anchor, tag) => put_scalar(writer, anchor, tag, style, text),
        },
        Event::Alias { name } => put_parts(writer, "=ALI *", name),
    }
}

// Writes the line of an event of this kind with this text and without properties, as most are, with the writes of
// `put_event`.
#[inline(always)]
#[tactic(auto, unfolding(crate::specs::Notation::event_line))]
fn put_alone<W: Sink>(writer: &mut W, shape: Shape, text: &str) -> bool
    ensures { PlainWritten (W.contents writer.old) (W.contents writer.new) (W.has_failed writer.old) (W.has_failed writer.new)
        (Notation.event_line (shape_value shape no_props text.now) None) result }
{
    match shape {
        Shape::Scalar { style } => put_bare_scalar(writer, style, text),
        Shape::MapStart { flow: false } => put_line(writer, "+MAP"),
        Shape::MapStart { flow: true } => put_line(writer, "+MAP {}"),
        Shape::MapEnd => put_text(writer, b"-MAP\n"),
        Shape::SeqStart { flow: false } => put_line(writer, "+SEQ"),
        Shape::SeqStart { flow: true } => put_line(writer, "+SEQ []"),
        Shape::SeqEnd => put_text(writer, b"-SEQ\n"),
        Shape::StreamStart => put_text(writer, b"+STR\n"),
        Shape::StreamEnd => put_text(writer, b"-STR\n"),
        Shape::DocStart { explicit: false } => put_line(writer, "+DOC"),
        Shape::DocStart { explicit: true } => put_parts(writer, "+DOC", " ---"),
        Shape::DocEnd { explicit: false } => put_line(writer, "-DOC"),
        Shape::DocEnd { explicit: true } => put_parts(writer, "-DOC", " ..."),
        Shape::Alias => put_parts(writer, "=ALI *", text),
    }
}

// Writes the line of the event at an index.
#[inline(always)]
fn put_at<W: Sink>(writer: &mut W, events: &Events, i: usize, tag: Option<&ResolvedTag>) -> bool
    requires { i < length events.now }
    ensures { (e : EventValue) → slice_get (map (λ e. e.event) events.now) i ≡ Some e
        → PlainWritten (W.contents writer.old) (W.contents writer.new) (W.has_failed writer.old) (W.has_failed writer.new)
        (Notation.event_line e (name_value tag.entry)) result }
{
    if tag.is_none() {
        if let Some((shape, text)) = events.alone(i) {
            return put_alone(writer, shape, text);
        }
    }
    put_event(writer, events.event(i), tag)
}

/// Writes the notation of all events of a reading. Allocates no memory.
///
/// Fails with `Fault::WriteFailed` if a write fails or takes no bytes; a prefix of the notation has then been
/// written.
pub fn write_events<W: Sink>(reading: &Reading, writer: &mut W) -> Result<(), Fault>
    ensures { TextWritten (W.contents writer.old) (W.contents writer.new) (W.has_failed writer.old) (W.has_failed writer.new)
        (Notation.notation_of reading.now) result }
{
    let events = &reading.lists().events;
    let mut cursor = 0;
    for i in 0..reading.len() {
        if !put_at(
            writer,
            events,
            i,
            reading.resolved_at_cursor(i, &mut cursor),
        ) {
            return Err(Fault::WriteFailed);
        }
    }
    Ok(())
}
