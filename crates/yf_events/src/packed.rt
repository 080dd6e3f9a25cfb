//! Events in rows of forty bytes, with a table of the parts that most nodes lack: properties, texts of their own,
//! folded lines.
ghost use Rattle.std.specs.Prelude.{◌≡◌, ℕ, ◌≤◌, ◌<◌, length, map, IfOk, MatchBool};
ghost use Rattle.yf_events.specs.Event.{event_value, view_value};
ghost use Rattle.yf_events.specs.Packed.{entry_at, folded_in, more_at, more_value, props_in, row_with, shape_value, shifted, span_at, text_in};
ghost use Rattle.yf_events.specs.Packed as Packed;
ghost use Rattle.yf_events.specs.NamelessEvents.{NamesNothing, SilentAt, SilentRow};
ghost use Rattle.yf_events.specs.NamelessEvents as Silent;
ghost use Rattle.yf_events.specs.Tags.{written_tag};
ghost use Rattle.yf_props.specs.Props.{no_props, optional_tag_value, props_value};

use crate::event::{Entry, Event, ScalarStyle, Span, View};
use crate::slices::Slices;
use std::alloc::AllocError;
use yf_lines::text::OwnedText;
use yf_props::props::{Props, Tag};

pub const NO_PROPS: Props<'static> = Props {
    anchor: None,
    tag: None,
};

/// The kind of an event.
#[derive(Clone, Copy)]
pub enum Shape {
    StreamStart,
    StreamEnd,
    DocStart { explicit: bool },
    DocEnd { explicit: bool },
    SeqStart { flow: bool },
    SeqEnd,
    MapStart { flow: bool },
    MapEnd,
    Scalar { style: ScalarStyle },
    Alias,
}

/// Whether the event begins an entry, with a `:` or without, after a blank line or not.
#[derive(Clone, Copy)]
pub enum Begins {
    Nothing,
    Item,
    ItemAfterBlank,
    Keyed,
    KeyedAfterBlank,
}

/// An event: its kind, its offsets, and its text or name if that is a slice of the source.
#[derive(Clone, Copy)]
pub struct PackedEvent<'a> {
    pub shape: Shape,
    /// Whether it has a span, from `start` to `end`.
    pub placed: bool,
    pub begins: Begins,
    pub start: u32,
    pub end: u32,
    /// The offsets of its entry and of the entry's `:`.
    pub entry: u32,
    pub colon: u32,
    /// The number in the table of the parts without room in the row, counted from 1; 0 if there are none.
    pub more: u32,
    pub text: &'a str,
}

/// The parts that most nodes lack.
#[derive(Drop)]
pub struct More<'a> {
    pub props: Props<'a>,
    pub tag_offset: Option<usize>,
    pub text: Option<OwnedText>,
    pub folded: Slices<'a>,
}

/// Returns the entry with a `:`.
pub fn keyed(begins: Begins) -> Begins
    ensures { result ≡ Packed.keyed begins }
{
    match begins {
        Begins::Nothing => Begins::Nothing,
        Begins::Item => Begins::Keyed,
        Begins::ItemAfterBlank => Begins::KeyedAfterBlank,
        Begins::Keyed => Begins::Keyed,
        Begins::KeyedAfterBlank => Begins::KeyedAfterBlank,
    }
}

/// Returns the parts in the table at a number.
#[inline(always)]
pub fn more_in<'r, 'a>(list: &'r [More<'a>], number: u32) -> Option<&'r More<'a>>
    ensures { more_value result ≡ more_at list.now number }
{
    if number == 0 {
        return None;
    }
    list.get(number as usize - 1)
}

/// Returns the event of a row.
#[inline(always)]
pub fn event_of<'r>(row: &'r PackedEvent<'r>, more: Option<&'r More<'r>>) -> Event<'r>
    ensures { event_value result ≡ shape_value row.now.shape (props_in (more_value more.entry))
        (text_in (more_value more.entry) row.now.text.now) }
{
    let props = match more {
        Some(more) => more.props,
        None => NO_PROPS,
    };
    match row.shape {
        Shape::StreamStart => Event::StreamStart,
        Shape::StreamEnd => Event::StreamEnd,
        Shape::DocStart { explicit } => Event::DocStart { explicit },
        Shape::DocEnd { explicit } => Event::DocEnd { explicit },
        Shape::SeqStart { flow } => Event::SeqStart { flow, props },
        Shape::SeqEnd => Event::SeqEnd,
        Shape::MapStart { flow } => Event::MapStart { flow, props },
        Shape::MapEnd => Event::MapEnd,
        Shape::Scalar { style } => Event::Scalar {
            props,
            style,
            text: text_of(row, more),
        },
        Shape::Alias => Event::Alias {
            name: text_of(row, more),
        },
    }
}

#[inline(always)]
fn text_of<'r>(row: &'r PackedEvent<'r>, more: Option<&'r More<'r>>) -> &'r str
    ensures { result.now ≡ text_in (more_value more.entry) row.now.text.now }
{
    match more {
        Some(more) => match &more.text {
            Some(text) => text.as_str(),
            None => row.text,
        },
        None => row.text,
    }
}

/// Returns the span of a row.
#[inline(always)]
pub fn span_of(row: &PackedEvent) -> Option<Span>
    ensures { result ≡ span_at row.now.placed row.now.start row.now.end }
{
    if row.placed {
        return Some(Span {
            start: row.start as usize,
            end: row.end as usize,
        });
    }
    None
}

/// Returns the entry that a row begins.
#[inline(always)]
pub fn entry_of(row: &PackedEvent) -> Option<Entry>
    ensures { result ≡ entry_at row.now.begins row.now.entry row.now.colon }
{
    let start = row.entry as usize;
    let (colon, blank_before) = match row.begins {
        Begins::Nothing => return None,
        Begins::Item => (None, false),
        Begins::ItemAfterBlank => (None, true),
        Begins::Keyed => (Some(row.colon as usize), false),
        Begins::KeyedAfterBlank => (Some(row.colon as usize), true),
    };
    Some(Entry {
        start,
        colon,
        blank_before,
    })
}

/// Returns the tag of the node that a row begins, as it is written.
#[inline(always)]
pub fn tag_of<'a>(row: &PackedEvent<'a>, more: Option<&More<'a>>) -> Option<Tag<'a>>
    ensures { optional_tag_value result ≡ written_tag (shape_value row.now.shape (props_in (more_value more.entry))
        (text_in (more_value more.entry) row.now.text.now)) }
{
    match row.shape {
        Shape::SeqStart { .. } | Shape::MapStart { .. } | Shape::Scalar { .. } => match more {
            Some(more) => more.props.tag,
            None => None,
        },
        Shape::StreamStart
        | Shape::StreamEnd
        | Shape::DocStart { .. }
        | Shape::DocEnd { .. }
        | Shape::SeqEnd
        | Shape::MapEnd
        | Shape::Alias => None,
    }
}

/// Returns the start of the tag.
#[inline(always)]
pub fn tag_offset_of(more: Option<&More>) -> Option<usize>
    ensures { result ≡ Packed.tag_offset_in (more_value more.entry) }
{
    match more {
        Some(more) => more.tag_offset,
        None => None,
    }
}

/// Returns the lines of a folded scalar.
#[inline(always)]
pub fn folded_of<'r>(more: Option<&'r More<'r>>) -> &'r [&'r str]
    ensures { map (λ line. line.now) result.now ≡ folded_in (more_value more.entry) }
{
    match more {
        Some(more) => more.folded.as_slice(),
        None => &[],
    }
}

/// Returns the event of a row, with its offsets.
#[inline(always)]
pub fn view_of<'r>(row: &'r PackedEvent<'r>, more: Option<&'r More<'r>>) -> View<'r>
    ensures { view_value result ≡ row_with row.now (more_value more.entry) }
{
    View {
        event: event_of(row, more),
        span: span_of(row),
        tag_offset: tag_offset_of(more),
        entry: entry_of(row),
        folded: folded_of(more),
    }
}

/// Adds `by` to the numbers of the rows. If memory is refused, the rows are of no use.
pub fn shift(rows: &mut Vec<PackedEvent>, by: u32) -> Result<(), AllocError>
    ensures { IfOk result (λ _. rows.new.items ≡ map (shifted by) rows.old.items) }
{
    for i in 0..rows.len() {
        rows[i].more = moved_on(rows[i].more, by)?;
    }
    Ok(())
}

/// Returns the number of a row after `by` more entries before it in the table; 0 stays 0.
fn moved_on(number: u32, by: u32) -> Result<u32, AllocError>
    ensures { IfOk result (λ n. n ≡ Packed.moved_on by number) }
{
    if number == 0 {
        return Ok(0);
    }
    match number.checked_add(by) {
        Some(moved) => Ok(moved),
        None => Err(AllocError),
    }
}

// Returns whether an event of this shape names nothing, if its node has no properties.
#[inline(always)]
fn names_nothing(shape: Shape) -> bool
    ensures { result ≡ Silent.names_nothing shape }
{
    match shape {
        Shape::DocStart { .. } | Shape::Alias => false,
        Shape::StreamStart
        | Shape::StreamEnd
        | Shape::DocEnd { .. }
        | Shape::SeqStart { .. }
        | Shape::SeqEnd
        | Shape::MapStart { .. }
        | Shape::MapEnd
        | Shape::Scalar { .. } => true,
    }
}

// Returns whether neither an anchor nor a tag is written.
fn are_none(props: &Props) -> bool
    ensures { MatchBool result (props_value props.now ≡ no_props) (props_value props.now ≡ no_props → ⊥) }
{
    if props.anchor.is_some() {
        return false;
    }
    props.tag.is_none()
}

// Returns whether an event names nothing.
fn is_bare(event: &Event) -> bool
    ensures { MatchBool result (NamesNothing (event_value event.now)) (NamesNothing (event_value event.now) → ⊥) }
{
    match event {
        Event::DocStart { .. } | Event::Alias { .. } => false,
        Event::SeqStart { props, .. }
        | Event::MapStart { props, .. }
        | Event::Scalar { props, .. } => are_none(props),
        Event::StreamStart
        | Event::StreamEnd
        | Event::DocEnd { .. }
        | Event::SeqEnd
        | Event::MapEnd => true,
    }
}

// Returns whether the event of a row names nothing, for a row that may have parts in the table.
#[inline(never)]
fn is_silent_with(row: &PackedEvent, table: &[More]) -> bool
    ensures { MatchBool result (SilentRow table.now row.now) (SilentRow table.now row.now → ⊥) }
{
    is_bare(&event_of(row, more_in(table, row.more)))
}

// Returns whether the event of a row names nothing. Most rows have nothing in the table.
#[inline(always)]
fn is_silent(row: &PackedEvent, table: &[More]) -> bool
    ensures { MatchBool result (SilentRow table.now row.now) (SilentRow table.now row.now → ⊥) }
{
    if row.more == 0 {
        return names_nothing(row.shape);
    }
    is_silent_with(row, table)
}

/// Returns the first index from `start` on with a row that names something, or the number of rows.
pub fn naming_from(rows: &[PackedEvent], table: &[More], start: usize) -> usize
    requires { start ≤ length rows.now }
    ensures within { (start ≤ result) × (result ≤ length rows.now) }
    ensures silent { (k : ℕ) → start ≤ k → k < result → SilentAt table.now rows.now k }
    ensures ends { SilentAt table.now rows.now result → ⊥ }
{
    let mut at = start;
    'rows: while at < rows.len() {
        if !is_silent(&rows[at], table) {
            return at;
        }
        at += 1;
    }
    at
}
