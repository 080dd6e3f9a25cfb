//! Offsets of positions, and their lines on a page. Offsets count bytes.
ghost use Rattle.std.specs.Prelude.{◌≡◌, ◌≤◌, IfOk};
ghost use Rattle.std.specs.Str.{IsCharBoundary};
ghost use Rattle.yf_lines.specs.Lines.{NoBreakIn};
ghost use Rattle.yf_explain.specs.Explained.{AddsWords, ShowsPlace};

use crate::page::Page;
use crate::source::push_source;
use std::alloc::AllocError;
use yf_chars::text::peek;
use yf_lines::place::Position;
use yf_lines::source_text::Src;
use yf_lines::table::skip_marks;

/// The start of a line of a text, and the end of its characters, before its break.
#[derive(Clone, Copy)]
pub(crate) struct Span {
    pub(crate) from: usize,
    pub(crate) to: usize,
}

/// Adds a line with the words, cut to the given number of columns.
pub(crate) fn push_words(page: &mut Page, words: &str, most: usize) -> Result<(), AllocError>
    ensures { IfOk result (λ _. AddsWords words.now page.old page.new) }
{
    page.push_signs("  ")?;
    let _ = page.push_part(words, 0, words.len(), most)?;
    page.push_break()
}

/// Adds the line of a position with a caret under it, and returns the offset of the position. It also fails if the text
/// has no such position.
pub(crate) fn push_place(page: &mut Page, src: &Src, place: Position) -> Result<usize, AllocError>
    ensures { IfOk result (λ at. ShowsPlace src.now.text place page.old page.new) }
{
    let text = src.text();
    let span = line_span(src, place.line);
    let at = column_offset(text, span, place.column);
    let found = src.place(at);
    if found.line != place.line {
        return Err(AllocError);
    }
    if found.column != place.column {
        return Err(AllocError);
    }
    push_source(page, text, span.from, span.to, at)?;
    Ok(at)
}

/// Returns the offset of a position in a text. If the text has no such position, it is the offset of another position
/// on the line, or the end of the text.
pub(crate) fn place_offset(src: &Src, place: Position) -> usize
    ensures { IsCharBoundary src.now.text result }
{
    column_offset(src.text(), line_span(src, place.line), place.column)
}

/// Returns the line with the number, from 1, or the end of the text if it has fewer lines.
pub(crate) fn line_span(src: &Src, number: usize) -> Span
    ensures start { IsCharBoundary src.now.text result.from }
    ensures line { NoBreakIn src.now.text result.from result.to }
{
    let lines = src.lines();
    let text = src.text();
    if number > 0 {
        if number <= lines.len() {
            let line = lines.line(number - 1);
            return Span {
                from: line.start,
                to: line.end,
            };
        }
    }
    Span {
        from: text.len(),
        to: text.len(),
    }
}

// Returns the offset of a column, from 1, on a line of the text, or the end of the line if it has fewer columns.
fn column_offset(text: &str, span: Span, column: usize) -> usize
    requires start { IsCharBoundary text.now span.from }
    requires order { span.from ≤ span.to }
    ensures boundary { IsCharBoundary text.now result }
    ensures from { span.from ≤ result }
    ensures to { result ≤ span.to }
{
    let base = skip_marks(text, span.from);
    if base > span.to {
        return span.from;
    }
    let mut at = base;
    let mut reached: usize = 1;
    while at < span.to {
        if reached >= column {
            return at;
        }
        match peek(text, at) {
            Some((_, next)) => {
                if next > span.to {
                    return at;
                }
                at = next;
                reached = reached.saturating_add(1);
            }
            None => return at,
        }
    }
    at
}
