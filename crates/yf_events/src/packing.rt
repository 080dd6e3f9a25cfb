//! Events put into rows and their table.
ghost use Rattle.std.specs.Prelude.{◌≡◌, [], IfOk, MatchBool};
ghost use Rattle.yf_events.specs.BareScalar.{RowAlone, bare_scalar};
ghost use Rattle.yf_events.specs.Event.{new_event_value, placed_value, scalar_node};
ghost use Rattle.yf_lines.specs.Text.{text_bytes};
ghost use Rattle.yf_events.specs.Packed.{TableGrown, InTable, Lacks, RowOf, entry_at, shape_value, span_at, text_or};
ghost use Rattle.yf_props.specs.Props.{no_props, props_value};

use crate::event::{Entry, NewEvent, PlacedEvent, ScalarStyle, Span};
use crate::packed::{Begins, More, NO_PROPS, PackedEvent, Shape};
use std::alloc::AllocError;
use yf_lines::packed_lines::narrow;
use yf_lines::text::{OwnedText, Text};
use yf_props::props::Props;

/// An event without its offsets, taken apart.
#[derive(Drop)]
struct Taken<'a> {
    shape: Shape,
    props: Props<'a>,
    part: &'a str,
    owned: Option<OwnedText>,
}

#[derive(Clone, Copy)]
struct Stretch {
    placed: bool,
    start: u32,
    end: u32,
}

/// The parts of an entry that a row keeps.
#[derive(Clone, Copy)]
pub struct Beginning {
    pub begins: Begins,
    pub start: u32,
    pub colon: u32,
}

#[inline(always)]
fn narrow_span(span: Option<Span>) -> Result<Stretch, AllocError>
    ensures { IfOk result (λ s. span_at s.placed s.start s.end ≡ span) }
{
    match span {
        Some(span) => {
            let start = narrow(span.start)?;
            let end = narrow(span.end)?;
            Ok(Stretch {
                placed: true,
                start,
                end,
            })
        }
        None => Ok(Stretch {
            placed: false,
            start: 0,
            end: 0,
        }),
    }
}

/// Returns the parts that a row keeps of the entry that an event begins.
#[inline(always)]
pub fn narrow_entry(entry: Option<Entry>) -> Result<Beginning, AllocError>
    ensures { IfOk result (λ b. entry_at b.begins b.start b.colon ≡ entry) }
{
    match entry {
        Some(entry) => {
            let start = narrow(entry.start)?;
            match entry.colon {
                Some(colon) => {
                    let begins = if entry.blank_before {
                        Begins::KeyedAfterBlank
                    } else {
                        Begins::Keyed
                    };
                    let colon = narrow(colon)?;
                    Ok(Beginning {
                        begins,
                        start,
                        colon,
                    })
                }
                None => {
                    let begins = if entry.blank_before {
                        Begins::ItemAfterBlank
                    } else {
                        Begins::Item
                    };
                    Ok(Beginning {
                        begins,
                        start,
                        colon: 0,
                    })
                }
            }
        }
        None => Ok(Beginning {
            begins: Begins::Nothing,
            start: 0,
            colon: 0,
        }),
    }
}

#[inline(always)]
fn bare<'a>(shape: Shape) -> Taken<'a>
    ensures { shape_value result.shape (props_value result.props) (text_or result.part.now result.owned) ≡ shape_value shape no_props [] }
{
    Taken {
        shape,
        props: NO_PROPS,
        part: "",
        owned: None,
    }
}

#[inline(always)]
fn begun<'a>(shape: Shape, props: Props<'a>) -> Taken<'a>
    ensures { shape_value result.shape (props_value result.props) (text_or result.part.now result.owned) ≡ shape_value shape
        (props_value props.entry) [] }
{
    Taken {
        shape,
        props,
        part: "",
        owned: None,
    }
}

#[inline(always)]
fn scalar_taken<'a>(props: Props<'a>, style: ScalarStyle, text: Text<'a>) -> Taken<'a>
    ensures { shape_value result.shape (props_value result.props) (text_or result.part.now result.owned) ≡ scalar_node
        (props_value props.entry) style (text_bytes text.entry) }
{
    let shape = Shape::Scalar { style };
    match text {
        Text::Part(part) => Taken {
            shape,
            props,
            part,
            owned: None,
        },
        Text::Owned(text) => Taken {
            shape,
            props,
            part: "",
            owned: Some(text),
        },
    }
}

#[inline(always)]
fn taken_apart<'a>(event: NewEvent<'a>) -> Taken<'a>
    ensures { shape_value result.shape (props_value result.props) (text_or result.part.now result.owned) ≡ new_event_value event.entry }
{
    match event {
        NewEvent::StreamStart => bare(Shape::StreamStart),
        NewEvent::StreamEnd => bare(Shape::StreamEnd),
        NewEvent::DocStart { explicit } => bare(Shape::DocStart { explicit }),
        NewEvent::DocEnd { explicit } => bare(Shape::DocEnd { explicit }),
        NewEvent::SeqStart { flow, props } => begun(Shape::SeqStart { flow }, props),
        NewEvent::SeqEnd => bare(Shape::SeqEnd),
        NewEvent::MapStart { flow, props } => begun(Shape::MapStart { flow }, props),
        NewEvent::MapEnd => bare(Shape::MapEnd),
        NewEvent::Scalar { props, style, text } => scalar_taken(props, style, text),
        NewEvent::Alias { name } => Taken {
            shape: Shape::Alias,
            props: NO_PROPS,
            part: name,
            owned: None,
        },
    }
}

/// Returns whether a row can do without these parts.
#[inline(always)]
fn lacks(more: &More) -> bool
    ensures { MatchBool result (Lacks more.now) (Unit {0}) }
{
    if more.props.anchor.is_some() {
        return false;
    }
    if more.props.tag.is_some() {
        return false;
    }
    if more.tag_offset.is_some() {
        return false;
    }
    if more.text.is_some() {
        return false;
    }
    more.folded.as_slice().is_empty()
}

/// Puts the parts into the table if a row needs them. Returns their number.
#[inline(always)]
fn kept<'a>(list: &mut Vec<More<'a>>, more: More<'a>) -> Result<u32, AllocError>
    ensures grown { TableGrown list.old.items list.new.items }
    ensures kept { IfOk result (λ number. InTable list.new.items number more.entry) }
{
    if lacks(&more) {
        return Ok(0);
    }
    list.push(more)?;
    narrow(list.len())
}

/// Returns the row of an event. Its properties and other rare parts go into the table.
#[inline(always)]
pub fn row_of<'a>(
    list: &mut Vec<More<'a>>,
    event: PlacedEvent<'a>,
) -> Result<PackedEvent<'a>, AllocError>
    ensures grown { TableGrown list.old.items list.new.items }
    ensures row { IfOk result (λ r. RowOf list.new.items r (placed_value event.entry)) }
{
    let PlacedEvent {
        event,
        span,
        tag_offset,
        entry,
        folded,
    } = event;
    let taken = taken_apart(event);
    let stretch = narrow_span(span)?;
    let beginning = narrow_entry(entry)?;
    let Taken {
        shape,
        props,
        part,
        owned,
    } = taken;
    let more = kept(
        list,
        More {
            props,
            tag_offset,
            text: owned,
            folded,
        },
    )?;
    Ok(PackedEvent {
        shape,
        placed: stretch.placed,
        begins: beginning.begins,
        start: stretch.start,
        end: stretch.end,
        entry: beginning.start,
        colon: beginning.colon,
        more,
        text: part,
    })
}

/// Returns the row of a scalar without properties. Its text is a slice of the source, so it needs no table.
#[inline(always)]
pub fn scalar_row<'a>(
    style: ScalarStyle,
    text: &'a str,
    start: usize,
    end: usize,
    entry: Option<Entry>,
) -> Result<PackedEvent<'a>, AllocError>
    ensures { IfOk result (λ r. RowAlone r (bare_scalar style text.now start end entry)) }
{
    let start = narrow(start)?;
    let end = narrow(end)?;
    let beginning = narrow_entry(entry)?;
    Ok(PackedEvent {
        shape: Shape::Scalar { style },
        placed: true,
        begins: beginning.begins,
        start,
        end,
        entry: beginning.start,
        colon: beginning.colon,
        more: 0,
        text,
    })
}
