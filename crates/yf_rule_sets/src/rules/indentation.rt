//! Rule 2, indentation.
ghost use Rattle.std.specs.Prelude.{◌≡◌, ◌+◌, ◌<◌, ◌&&◌, true, Some, length, reverse, slice_get, IfOk};
ghost use Rattle.yf_events.specs.Event.{EventValue};
ghost use Rattle.yf_events.specs.Reading.{events_of};
ghost use Rattle.yf_rule_sets.specs.Passes.IndentFaults.{IndentPassAt, content_fault, content_in, entry_fault, fault_of};
ghost use Rattle.yf_rule_sets.specs.Passes.QuietEvents.{IsQuiet};
ghost use Rattle.yf_rule_sets.specs.Sets.{indentation_at};
ghost use Rattle.yf_rule_sets.specs.Passes.NodeColumns.{is_other, wanted_column, wanted_indent};

use crate::facts::found::{AllocError, FoundOffsets, Global, Reading, Src, Style, push_found};
use crate::facts::node_context::{Around, NodeContext, Pass};
use crate::facts::scalars::{ScalarLines, block_lines_at, is_block_style};
pub use crate::rules::StyleRule::Indentation;
use yf_events::event::Event;

/// Returns the first entry of each block collection that is not at its column in the house style, and the header of
/// each block scalar with content that is not.
pub fn offsets(alloc: Global, src: &Src, reading: &Reading, style: &Style) -> FoundOffsets
    ensures { IfOk result (λ offsets. indentation_at src.now reading.now style.now offsets.items) }
{
    let mut pass = Pass::new(alloc, src, reading)?;
    let mut offsets = Vec::new(alloc);
    let mut line = 0;
    for i in 0..reading.len() {
        line = step(&mut pass, &mut offsets, src, reading, i, line, style)?;
    }
    Ok(offsets)
}

/// Returns whether the event is a scalar that is not a block scalar. Such an event can't be at fault.
#[inline(always)]
fn is_quiet(reading: &Reading, i: usize) -> bool
    requires { i < length reading.now.events }
    ensures { result ≡ true → IsQuiet reading.now i }
{
    match reading.event(i) {
        Event::Scalar { style, .. } => !is_block_style(style),
        _ => false,
    }
}

/// Passes the event at an index and adds its fault. Returns the line from which the search for the next block scalar
/// starts.
#[inline(always)]
fn step(
    pass: &mut Pass,
    offsets: &mut Vec<usize>,
    src: &Src,
    reading: &Reading,
    i: usize,
    line: usize,
    style: &Style,
) -> Result<usize, AllocError>
    requires { i < length reading.now.events }
    ensures { IfOk result (λ _. IndentPassAt src.now reading.now style.now pass.old.columns.items pass.old.begun i (reverse pass.old.stack.items) offsets.old.items
        → IndentPassAt src.now reading.now style.now pass.new.columns.items pass.new.begun (i + 1) (reverse pass.new.stack.items) offsets.new.items) }
{
    if is_quiet(reading, i) {
        pass.go_by(src, reading, i);
        return Ok(line);
    }
    let stand = pass.next(src, reading, i)?;
    let scalar = block_lines_at(src, reading, i, line);
    push_found(offsets, misplaced(reading, stand, scalar, i, style))?;
    match scalar {
        Some(lines) => Ok(lines.first),
        None => Ok(line),
    }
}

/// Returns whether the one column is not that number of columns to the right of the other.
fn is_off(column: usize, outer: usize, indent: usize) -> bool
    ensures { result ≡ is_other column (Some (outer + indent)) }
{
    if column < outer {
        return true;
    }
    if column - outer == indent {
        return false;
    }
    true
}

/// Returns whether entries of a block collection at that column, from 0, are misplaced. Those of a root belong at
/// column 0. Others belong as far to the right of the entries around them as the style says, or at their column for a
/// sequence after a key without `?`.
fn is_misplaced(stand: NodeContext, column: usize, is_sequence: bool, style: &Style) -> bool
    ensures { result ≡ is_other column (wanted_column style.now (is_sequence && stand.is_implicit_value) stand.outer) }
{
    match stand.outer {
        Around::Nothing => column != 0,
        Around::Entries(outer) => {
            if is_sequence && stand.is_implicit_value && !style.seq_indent {
                return column != outer;
            }
            is_off(column, outer, style.indent)
        }
        Around::Unknown => false,
    }
}

/// Returns the first entry of the block collection, if it is misplaced.
fn misplaced_entry(stand: NodeContext, is_sequence: bool, style: &Style) -> Option<usize>
    ensures { result ≡ entry_fault stand.first stand.column (wanted_column style.now (is_sequence && stand.is_implicit_value) stand.outer) }
{
    match stand.column {
        Some(column) => {
            if is_misplaced(stand, column, is_sequence, style) {
                return Some(stand.first);
            }
            None
        }
        None => None,
    }
}

/// Returns whether the content of a block scalar with that indentation is misplaced.
fn is_misindented(stand: NodeContext, indent: usize, style: &Style) -> bool
    ensures { result ≡ is_other indent (wanted_indent style.now stand.outer) }
{
    match stand.outer {
        Around::Nothing => indent != style.indent,
        Around::Entries(outer) => is_off(indent, outer, style.indent),
        Around::Unknown => false,
    }
}

/// Returns the header of the block scalar, if its content is misplaced.
fn misplaced_content(stand: NodeContext, lines: ScalarLines, style: &Style) -> Option<usize>
    ensures { result ≡ content_fault (content_in (Some lines)) (wanted_indent style.now stand.outer) }
{
    match lines.content {
        Some(content) => {
            if is_misindented(stand, content.indent, style) {
                return Some(lines.start);
            }
            None
        }
        None => None,
    }
}

/// Returns the fault of the node that the event at an index begins, if it is at fault. `lines` are those of a scalar.
fn misplaced(
    reading: &Reading,
    stand: NodeContext,
    lines: Option<ScalarLines>,
    i: usize,
    style: &Style,
) -> Option<usize>
    requires { i < length reading.now.events }
    ensures { (e : EventValue) → slice_get (events_of reading.now) i ≡ Some e → result ≡ fault_of style.now e stand (content_in lines) }
{
    match reading.event(i) {
        Event::SeqStart { .. } => misplaced_entry(stand, true, style),
        Event::MapStart { .. } => misplaced_entry(stand, false, style),
        Event::Scalar { .. } => match lines {
            Some(lines) => misplaced_content(stand, lines, style),
            None => None,
        },
        _ => None,
    }
}
