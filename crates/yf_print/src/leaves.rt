//! Prints the nodes that go on one line: scalars, aliases, and kept or empty flow collections. Columns count from 0.
ghost use Rattle.std.specs.Prelude.{◌<◌, ◌≡◌, ◌+◌, drop, length, map, slice_get, OnOk, IfOk, Some};
ghost use Rattle.yf_forms.specs.Passes.DecidePass as Deciding;
ghost use Rattle.yf_print.specs.Passes.Drafts.{draft, with_text};
ghost use Rattle.yf_print.specs.Passes.Pages.{form_at, measure_at, placed_at, work_on};
ghost use Rattle.yf_print.specs.Passes.PrintPass as Printing;
ghost use Rattle.yf_print.specs.Passes.PrintPass.{colon_text, event_noted, events_noted, leaf_noted_if, lines_column, node_noted, with_kept, with_node_event};
ghost use Rattle.yf_events.specs.Event.{props_of};

use crate::looks::{entry_at, event_at, folded_at, push_props_at, push_props_before_at, span_at};
use crate::output::Output;
use crate::printer::{Plan, PrintContext, Role};
use std::alloc::AllocError;
use yf_events::event::{Event, ScalarStyle, Span};
use yf_forms::form::kept::push_kept;
use yf_forms::form::keys::has_space;
use yf_forms::text::block::{is_kept_whole, push_folded, push_header, push_literal, push_spaces};
use yf_forms::text::written::push_scalar;

/// Prints the separation before the value of a key without `?`, in an entry at that column.
fn before_value(
    output: &mut Output,
    page: &PrintContext,
    comment: Option<usize>,
    column: usize,
) -> Result<(), AllocError>
    ensures { OnOk result (draft output.new ≡ Printing.before_value (work_on page.now) comment column (draft output.old)) }
{
    if comment.is_none() {
        return output.line.push(' ');
    }
    output.add_key_trail(page.reading, comment)?;
    output.forbid_blank();
    output.open_line(page, column.saturating_add(page.plan.style.indent))
}

/// Prints the separation between the line so far and a node with characters, which the event at an index begins.
#[inline(always)]
fn before_text(
    output: &mut Output,
    page: &PrintContext,
    i: usize,
    role: Role,
) -> Result<(), AllocError>
    ensures { OnOk result (draft output.new ≡ Printing.before_text (work_on page.now) (form_at page.now i) role (draft output.old)) }
{
    match role {
        Role::Root => output.open_line(page, 0),
        Role::After(_) => push_spaces(&mut output.line, page.plan.style.indent.saturating_sub(1)),
        Role::Key => Ok(()),
        Role::Value(column) => {
            before_value(output, page, page.plan.forms.at(i).key_comment, column)
        }
    }
}

/// Returns the column of the lines of a block scalar.
fn column_of_lines(indent: usize, role: Role) -> usize
    ensures { result ≡ lines_column indent role }
{
    match role {
        Role::Root | Role::Key => indent,
        Role::After(column) | Role::Value(column) => column.saturating_add(indent),
    }
}

/// Prints a block scalar: its header on the line, and its lines after that.
fn push_block_scalar(
    output: &mut Output,
    plan: &Plan,
    role: Role,
    style: ScalarStyle,
    text: &str,
    lines: &[&str],
) -> Result<(), AllocError>
    ensures { OnOk result (draft output.new ≡ Printing.with_block plan.now.style role style text.now
        (map (λ line. line.now) lines.now) (draft output.old)) }
{
    let indent = plan.style.indent;
    let column = column_of_lines(indent, role);
    push_header(&mut output.line, style, text, indent)?;
    if is_kept_whole(text) {
        output.forbid_blank();
    }
    match style {
        ScalarStyle::Folded => push_folded(&mut output.body, lines, text, column),
        _ => push_literal(&mut output.body, text, column),
    }
}

/// Prints the scalar at an event. Its source lines are looked up only for a block style.
#[inline(always)]
fn push_scalar_node(
    output: &mut Output,
    page: &PrintContext,
    i: usize,
    role: Role,
    style: ScalarStyle,
    text: &str,
) -> Result<(), AllocError>
    requires { i < length page.now.reading.now.events }
    ensures { OnOk result (draft output.new ≡ Printing.with_scalar page.now.plan.now.style role (props_of (placed_at page.now i).event) style text.now
        (placed_at page.now i).folded (draft output.old)) }
{
    match style {
        ScalarStyle::Plain => {
            if text.is_empty() {
                return push_props_at(&mut output.line, page, i);
            }
            push_props_before_at(&mut output.line, page, i)?;
            output.line.push_str(text)
        }
        ScalarStyle::Single | ScalarStyle::Double => {
            push_props_before_at(&mut output.line, page, i)?;
            push_scalar(&mut output.line, style, text, &page.plan.style)
        }
        ScalarStyle::Literal | ScalarStyle::Folded => {
            push_props_before_at(&mut output.line, page, i)?;
            push_block_scalar(output, page.plan, role, style, text, folded_at(page, i))
        }
    }
}

/// Prints a kept or empty flow collection.
fn push_collection(
    output: &mut Output,
    page: &PrintContext,
    i: usize,
    last: usize,
) -> Result<(), AllocError>
    requires { i < length page.now.reading.now.events }
    ensures { OnOk result (draft output.new ≡ with_kept (work_on page.now) i last (props_of (placed_at page.now i).event) (draft output.old)) }
{
    push_props_before_at(&mut output.line, page, i)?;
    push_kept(
        page.alloc,
        &mut output.line,
        page.reading,
        i,
        last,
        &page.plan.style,
    )
}

/// Prints a node that goes on the line: the events from an index to the node's last one.
#[inline(always)]
fn push_node(
    output: &mut Output,
    page: &PrintContext,
    i: usize,
    last: usize,
    role: Role,
) -> Result<(), AllocError>
    requires { i < length page.now.reading.now.events }
    ensures { OnOk result (draft output.new ≡ with_node_event (work_on page.now) i last (placed_at page.now i).event
        (placed_at page.now i).folded role (draft output.old)) }
{
    match event_at(page, i) {
        Event::Scalar { style, text, .. } => push_scalar_node(output, page, i, role, style, text),
        Event::Alias { name } => {
            output.line.push('*')?;
            output.line.push_str(name)
        }
        Event::SeqStart { .. } | Event::MapStart { .. } => push_collection(output, page, i, last),
        _ => Ok(()),
    }
}

/// Passes the leaf that the event at an index begins, if any, and adds the comment that trails it.
#[inline(always)]
fn note_leaf(
    output: &mut Output,
    page: &PrintContext,
    i: usize,
    is_leaf: bool,
    span: Option<Span>,
) -> Result<(), AllocError>
    ensures { OnOk result (draft output.new ≡ leaf_noted_if is_leaf (work_on page.now) i span (draft output.old)) }
{
    if is_leaf {
        if let Some(span) = span {
            output.meet(page.reading, span.start);
            output.add_trail(page.reading, page.plan.trails.of_leaf(i))?;
        }
    }
    Ok(())
}

/// Passes an entry and a leaf that the event at an index begins.
#[inline(always)]
fn note_event(output: &mut Output, page: &PrintContext, i: usize) -> Result<(), AllocError>
    requires { i < length page.now.reading.now.events }
    ensures { OnOk result (draft output.new ≡ event_noted (work_on page.now) i (placed_at page.now i) (draft output.old)) }
{
    if let Some(entry) = entry_at(page, i) {
        output.meet(page.reading, entry.start);
    }
    let is_leaf = page.plan.measures.at(i).is_leaf(i);
    note_leaf(output, page, i, is_leaf, span_at(page, i))
}

/// Passes the entries and leaves within a printed node, with the events between two indices.
fn note_within(
    output: &mut Output,
    page: &PrintContext,
    first: usize,
    last: usize,
) -> Result<(), AllocError>
    requires { first < length page.now.reading.now.events }
    ensures { OnOk result (draft output.new ≡ events_noted (work_on page.now) last (first + 1)
        (drop (first + 1) page.now.reading.now.events) (draft output.old)) }
{
    let end = page.reading.len();
    for k in first + 1..end {
        if last < k {
            return Ok(());
        }
        note_event(output, page, k)?;
    }
    Ok(())
}

/// Prints the `:` of a key, after a space if `with_space`.
fn push_mark(output: &mut Output, with_space: bool) -> Result<(), AllocError>
    ensures { OnOk result (draft output.new ≡ with_text (colon_text with_space) (draft output.old)) }
{
    if with_space {
        return output.line.push_str(" :");
    }
    output.line.push(':')
}

/// Prints the `:` after the node that the event at an index begins, if the node is a key without `?`.
#[inline(always)]
fn push_colon(
    output: &mut Output,
    page: &PrintContext,
    i: usize,
    is_leaf: bool,
    role: Role,
) -> Result<(), AllocError>
    requires { i < length page.now.reading.now.events }
    ensures { OnOk result (draft output.new ≡ Printing.colon_if role (Deciding.has_space (placed_at page.now i).event is_leaf)
        (draft output.old)) }
{
    match role {
        Role::Key => push_mark(output, has_space(&event_at(page, i), is_leaf)),
        _ => Ok(()),
    }
}

/// Prints a leaf, an empty node or a kept flow collection, and the `:` after a key. Returns the index of its last
/// event.
pub(crate) fn push_leaf(
    output: &mut Output,
    page: &PrintContext,
    i: usize,
    role: Role,
) -> Result<usize, AllocError>
    requires { i < length page.now.reading.now.events }
    ensures printed { OnOk result (draft output.new ≡ Printing.leaf (work_on page.now) i (measure_at page.now i) (form_at page.now i)
        (placed_at page.now i) role (draft output.old)) }
    ensures last { IfOk result (λ last. last ≡ (measure_at page.now i).last) }
{
    let measure = page.plan.measures.at(i);
    let is_leaf = measure.is_leaf(i);
    let last = measure.last;
    if measure.first_leaf.is_some() {
        before_text(output, page, i, role)?;
        push_node(output, page, i, last, role)?;
        note_leaf(output, page, i, is_leaf, span_at(page, i))?;
        note_within(output, page, i, last)?;
    }
    push_colon(output, page, i, is_leaf, role)?;
    Ok(last)
}
