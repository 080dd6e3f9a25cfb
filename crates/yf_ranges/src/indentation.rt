//! The details of the findings of the rule indentation: the columns of entries, and of the content of block scalars,
//! that are found and expected. Columns count from 0.
ghost use Rattle.std.specs.Prelude.{◌≡◌, ◌+◌, ◌<◌, ◌&&◌, Some, length, reverse, slice_get, IfOk};
ghost use Rattle.yf_events.specs.Event.{EventValue};
ghost use Rattle.yf_events.specs.Reading.{events_of};
ghost use Rattle.yf_ranges.specs.IndentPass.{IndentedAt, ToldTo};
ghost use Rattle.yf_ranges.specs.Indents.{IndentDetails, content_misindent, in_word, misindent_at, misindent_of};
ghost use Rattle.yf_rule_sets.specs.Passes.IndentFaults.{content_in};
ghost use Rattle.yf_rule_sets.specs.Passes.NodeColumns.{wanted_column, wanted_indent};

use crate::detail::{Detail, Message, Span};
use crate::ends::character_end;
use std::alloc::{AllocError, Global};
use yf_events::event::Event;
use yf_rule_sets::facts::found::{Reading, Src, Style, push_found};
use yf_rule_sets::facts::node_context::{Around, NodeContext, Pass};
use yf_rule_sets::facts::scalars::{ScalarLines, block_lines_at};

/// A fault of indentation.
#[derive(Clone, Copy)]
pub struct Misindent {
    /// The byte offset of the first entry of a block collection, or of the header of a block scalar.
    pub offset: usize,
    /// The column of the entries, or the indentation of the content.
    pub found: usize,
    /// The column or the indentation in the house style, for the entries around the node as they are in the text.
    pub expected: usize,
}

/// Returns the details of the findings of the rule indentation, in the order of the nodes.
///
/// # Errors
///
/// `AllocError` if memory is refused.
pub fn details(
    alloc: Global,
    src: &Src,
    reading: &Reading,
    style: &Style,
) -> Result<Vec<Detail>, AllocError>
    ensures { IfOk result (λ details. IndentDetails src.now reading.now style.now details.items) }
{
    let mut pass = Pass::new(alloc, src, reading)?;
    let mut details = Vec::new(alloc);
    let mut line = 0;
    for i in 0..reading.len() {
        line = step(&mut pass, &mut details, src, reading, i, line, style)?;
    }
    Ok(details)
}

// Passes the event at an index and adds the detail of its node. Returns the line from which the search for the next
// block scalar starts.
fn step(
    pass: &mut Pass,
    details: &mut Vec<Detail>,
    src: &Src,
    reading: &Reading,
    i: usize,
    line: usize,
    style: &Style,
) -> Result<usize, AllocError>
    requires { i < length reading.now.events }
    ensures { IfOk result (λ _. ToldTo src.now reading.now style.now pass.old.columns.items pass.old.begun i (reverse pass.old.stack.items) details.old.items
        → ToldTo src.now reading.now style.now pass.new.columns.items pass.new.begun (i + 1) (reverse pass.new.stack.items) details.new.items) }
{
    let context = pass.next(src, reading, i)?;
    let lines = block_lines_at(src, reading, i, line);
    let fault = fault_at(reading, context, lines, i, style);
    push_found(details, detail_of(src.text(), fault))?;
    match lines {
        Some(lines) => Ok(lines.first),
        None => Ok(line),
    }
}

// Returns the detail of a fault, if a character begins at its offset or the text ends there.
fn detail_of(text: &str, fault: Option<Misindent>) -> Option<Detail>
    ensures { IndentedAt text.now fault result }
{
    match fault {
        Some(fault) => detail_if_placed(text, fault),
        None => None,
    }
}

// Returns the detail of a fault, if a character begins at its offset or the text ends there.
fn detail_if_placed(text: &str, fault: Misindent) -> Option<Detail>
    ensures { IndentedAt text.now (Some fault) result }
{
    if text.is_char_boundary(fault.offset) {
        return Some(Detail {
            span: Span {
                start: fault.offset,
                end: character_end(text, fault.offset),
            },
            message: Message::Indented {
                found: fault.found,
                expected: fault.expected,
            },
        });
    }
    None
}

// Returns the fault of the node that the event at an index begins. `lines` are those of a block scalar.
fn fault_at(
    reading: &Reading,
    context: NodeContext,
    lines: Option<ScalarLines>,
    i: usize,
    style: &Style,
) -> Option<Misindent>
    requires { i < length reading.now.events }
    ensures { (e : EventValue) → slice_get (events_of reading.now) i ≡ Some e
        → result ≡ misindent_of style.now e context (content_in lines) }
{
    match reading.event(i) {
        Event::SeqStart { .. } => of_entries(context, true, style),
        Event::MapStart { .. } => of_entries(context, false, style),
        Event::Scalar { .. } => match lines {
            Some(lines) => of_content(context, lines, style),
            None => None,
        },
        _ => None,
    }
}

// Returns the fault of the entries of a block collection.
fn of_entries(context: NodeContext, is_sequence: bool, style: &Style) -> Option<Misindent>
    ensures { result ≡ misindent_at context.first context.column
        (in_word (wanted_column style.now (is_sequence && context.is_implicit_value) context.outer)) }
{
    match context.column {
        Some(found) => differing(
            context.first,
            found,
            expected_column(context, is_sequence, style),
        ),
        None => None,
    }
}

// Returns the fault of the content of a block scalar.
fn of_content(context: NodeContext, lines: ScalarLines, style: &Style) -> Option<Misindent>
    ensures { result ≡ content_misindent (content_in (Some lines))
        (in_word (wanted_indent style.now context.outer)) }
{
    match lines.content {
        Some(content) => differing(lines.start, content.indent, expected_indent(context, style)),
        None => None,
    }
}

// Returns the expected column of the entries of a block collection, or `None` if it is not known.
fn expected_column(context: NodeContext, is_sequence: bool, style: &Style) -> Option<usize>
    ensures { result ≡ in_word (wanted_column style.now (is_sequence && context.is_implicit_value) context.outer) }
{
    match context.outer {
        Around::Nothing => Some(0),
        Around::Entries(outer) => {
            if is_sequence && context.is_implicit_value && !style.seq_indent {
                return Some(outer);
            }
            outer.checked_add(style.indent)
        }
        Around::Unknown => None,
    }
}

// Returns the expected indentation of the content of a block scalar, or `None` if it is not known.
fn expected_indent(context: NodeContext, style: &Style) -> Option<usize>
    ensures { result ≡ in_word (wanted_indent style.now context.outer) }
{
    match context.outer {
        Around::Nothing => Some(style.indent),
        Around::Entries(outer) => outer.checked_add(style.indent),
        Around::Unknown => None,
    }
}

// Returns the fault at an offset, if the column that is found is not the expected one.
fn differing(offset: usize, found: usize, expected: Option<usize>) -> Option<Misindent>
    ensures { result ≡ misindent_at offset (Some found) expected }
{
    match expected {
        Some(expected) => {
            if found == expected {
                return None;
            }
            Some(Misindent {
                offset,
                found,
                expected,
            })
        }
        None => None,
    }
}
