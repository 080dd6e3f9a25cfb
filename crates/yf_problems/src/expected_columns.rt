//! The columns at which the house style expects the entries of block collections and the lines of block scalars.
ghost use Rattle.std.specs.Prelude.{◌<◌, length};

use std::alloc::{AllocError, Global};
use yf_events::event::Event;
use yf_events::reading::Reading;
use yf_forms::style::Style;
use yf_lines::place::Position;
use yf_lines::source_text::Src;
use yf_rule_sets::facts::node_context::{Around, NodeContext, Pass};
use yf_rule_sets::facts::places::known_positions;
use yf_rule_sets::facts::scalars::{ScalarLines, block_lines_at};

/// An expected column.
#[derive(Clone, Copy)]
pub struct Expected {
    /// The byte offset of the first entry of a collection, or of the header of a block scalar.
    pub offset: usize,
    /// The expected column of the entries or of the lines, from 1.
    pub column: usize,
    /// Whether the node is a block scalar.
    pub is_scalar: bool,
}

/// Returns the expected columns of a text, in the order of its nodes. The column of a node depends on the column of the
/// entries around it, as they are in the text.
///
/// # Errors
///
/// `AllocError` if memory is refused.
pub fn expected_columns(
    alloc: Global,
    src: &Src,
    reading: &Reading,
    style: &Style,
) -> Result<Vec<Expected>, AllocError> {
    let mut pass = Pass::new(alloc, src, reading)?;
    let mut all = Vec::new(alloc);
    let mut line = 0;
    for i in 0..reading.len() {
        let context = pass.next(src, reading, i)?;
        let lines = block_lines_at(src, reading, i, line);
        if let Some(expected) = expected_at(reading, i, context, lines, style) {
            all.push(expected)?;
        }
        if let Some(lines) = lines {
            line = lines.first;
        }
    }
    Ok(all)
}

/// Returns the position of each expected column. The list is empty if one of them has no position.
///
/// # Errors
///
/// `AllocError` if memory is refused.
pub fn expected_places(
    alloc: Global,
    src: &Src,
    expected: &[Expected],
) -> Result<Vec<Position>, AllocError> {
    let mut offsets = Vec::new(alloc);
    for one in expected {
        offsets.push(one.offset)?;
    }
    let places = known_positions(alloc, src, offsets.as_slice())?;
    if places.len() == expected.len() {
        return Ok(places);
    }
    Ok(Vec::new(alloc))
}

// Returns the expected column of the node that begins with this event.
fn expected_at(
    reading: &Reading,
    i: usize,
    context: NodeContext,
    lines: Option<ScalarLines>,
    style: &Style,
) -> Option<Expected>
    requires { i < length reading.now.events }
{
    match reading.event(i) {
        Event::SeqStart { .. } => of_entries(context, true, style),
        Event::MapStart { .. } => of_entries(context, false, style),
        Event::Scalar { .. } => match lines {
            Some(lines) => of_lines(context, lines, style),
            None => None,
        },
        _ => None,
    }
}

// Returns the expected column of the entries of a block collection.
fn of_entries(context: NodeContext, is_sequence: bool, style: &Style) -> Option<Expected> {
    if context.column.is_none() {
        return None;
    }
    let is_beside_key = is_sequence && context.is_implicit_value && !style.seq_indent;
    match context.outer {
        Around::Nothing => Some(entries_at(context, 0)),
        Around::Entries(outer) => {
            if is_beside_key {
                return Some(entries_at(context, outer));
            }
            Some(entries_at(context, outer.saturating_add(style.indent)))
        }
        Around::Unknown => None,
    }
}

// Returns the expectation that the entries of a collection are at this column, from 0.
fn entries_at(context: NodeContext, column: usize) -> Expected {
    Expected {
        offset: context.first,
        column: column.saturating_add(1),
        is_scalar: false,
    }
}

// Returns the expected column of the lines of a block scalar.
fn of_lines(context: NodeContext, lines: ScalarLines, style: &Style) -> Option<Expected> {
    match context.outer {
        Around::Nothing => Some(lines_at(lines, style.indent)),
        Around::Entries(outer) => Some(lines_at(lines, outer.saturating_add(style.indent))),
        Around::Unknown => None,
    }
}

// Returns the expectation that the lines of a block scalar are at this column, from 0.
fn lines_at(lines: ScalarLines, column: usize) -> Expected {
    Expected {
        offset: lines.start,
        column: column.saturating_add(1),
        is_scalar: true,
    }
}
