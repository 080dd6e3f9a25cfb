//! Looks up single parts of the event at an index, so that the printer builds no part that it doesn't print.
ghost use Rattle.std.specs.Prelude.{◌<◌, ◌≡◌, ◌++◌, length, map, not, OnOk};
ghost use Rattle.std.specs.String.{string_bytes};
ghost use Rattle.yf_events.specs.Event.{event_value, props_of};
ghost use Rattle.yf_forms.specs.Nodes.OneLine.{props_text, space_after};
ghost use Rattle.yf_print.specs.Passes.Pages.{placed_at};
ghost use Rattle.yf_forms.specs.Nodes.Lines.{is_empty_text};

use crate::printer::PrintContext;
use std::alloc::AllocError;
use yf_events::event::{Entry, Event, Span};
use yf_forms::text::written::{has_props, push_props};

/// Returns the event at an index.
#[inline(always)]
pub(crate) fn event_at<'r>(page: &PrintContext<'r, '_>, i: usize) -> Event<'r>
    requires { i < length page.now.reading.now.events }
    ensures { event_value result ≡ (placed_at page.now i).event }
{
    page.reading.event(i)
}

/// Returns the span of the event at an index.
#[inline(always)]
pub(crate) fn span_at(page: &PrintContext, i: usize) -> Option<Span>
    requires { i < length page.now.reading.now.events }
    ensures { result ≡ (placed_at page.now i).span }
{
    page.reading.span(i)
}

/// Returns the entry that the event at an index begins.
#[inline(always)]
pub(crate) fn entry_at(page: &PrintContext, i: usize) -> Option<Entry>
    requires { i < length page.now.reading.now.events }
    ensures { result ≡ (placed_at page.now i).entry }
{
    page.reading.entry(i)
}

/// Returns the lines of the scalar at an index if it was read as a folded scalar, otherwise none.
pub(crate) fn folded_at<'r>(page: &PrintContext<'r, '_>, i: usize) -> &'r [&'r str]
    requires { i < length page.now.reading.now.events }
    ensures { map (λ line. line.now) result.now ≡ (placed_at page.now i).folded }
{
    page.reading.folded_lines(i)
}

/// Returns whether the node that the event at an index begins has properties.
#[inline(always)]
pub(crate) fn has_props_at(page: &PrintContext, i: usize) -> bool
    requires { i < length page.now.reading.now.events }
    ensures { result ≡ not (is_empty_text (props_text (props_of (placed_at page.now i).event))) }
{
    match event_at(page, i) {
        Event::Scalar { props, .. } => has_props(&props),
        Event::SeqStart { props, .. } => has_props(&props),
        Event::MapStart { props, .. } => has_props(&props),
        _ => false,
    }
}

/// Appends the properties of that node. It is a separate function because most nodes have none.
#[inline(never)]
pub(crate) fn push_props_at(
    out: &mut String,
    page: &PrintContext,
    i: usize,
) -> Result<(), AllocError>
    requires { i < length page.now.reading.now.events }
    ensures { OnOk result (string_bytes out.new ≡ string_bytes out.old ++ props_text (props_of (placed_at page.now i).event)) }
{
    match event_at(page, i) {
        Event::Scalar { props, .. } => push_props(out, &props),
        Event::SeqStart { props, .. } => push_props(out, &props),
        Event::MapStart { props, .. } => push_props(out, &props),
        _ => Ok(()),
    }
}

/// Appends the properties of that node and a space, or nothing if it has none.
#[inline(always)]
pub(crate) fn push_props_before_at(
    out: &mut String,
    page: &PrintContext,
    i: usize,
) -> Result<(), AllocError>
    requires { i < length page.now.reading.now.events }
    ensures { OnOk result (string_bytes out.new ≡ string_bytes out.old ++ space_after (props_text (props_of (placed_at page.now i).event))) }
{
    if !has_props_at(page, i) {
        return Ok(());
    }
    push_props_at(out, page, i)?;
    out.push(' ')
}

/// Appends the properties of that node, if it has any.
#[inline(always)]
pub(crate) fn push_props_if(
    out: &mut String,
    page: &PrintContext,
    i: usize,
    with_props: bool,
) -> Result<(), AllocError>
    requires within { i < length page.now.reading.now.events }
    requires props { with_props ≡ not (is_empty_text (props_text (props_of (placed_at page.now i).event))) }
    ensures { OnOk result (string_bytes out.new ≡ string_bytes out.old ++ props_text (props_of (placed_at page.now i).event)) }
{
    if !with_props {
        return Ok(());
    }
    push_props_at(out, page, i)
}
