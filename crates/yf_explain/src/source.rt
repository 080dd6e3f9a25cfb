//! A line of a text, cut around an offset, with a caret under it. Offsets count bytes.
ghost use Rattle.std.specs.Prelude.{◌≡◌, ◌≤◌, ◌++◌, IfOk, length};
ghost use Rattle.std.specs.Str.{IsCharBoundary};
ghost use Rattle.yf_lines.specs.Lines.{NoBreakIn};
ghost use Rattle.yf_explain.specs.Source.{AddsLine, AddsSource, caret, dots, spaces};

use crate::classes::columns_of;
use crate::page::Page;
use std::alloc::AllocError;
use yf_chars::text::peek;

/// The most columns of the line that are shown before the offset.
const BEFORE: usize = 34;

/// The most columns of the line that are shown in all.
const ALL: usize = 68;

/// Adds a line of a text, from its start to its end, cut around an offset on it, and a caret under the character there.
pub(crate) fn push_source(
    page: &mut Page,
    text: &str,
    from: usize,
    to: usize,
    at: usize,
) -> Result<(), AllocError>
    requires start { IsCharBoundary text.now from }
    requires boundary { IsCharBoundary text.now at }
    requires line { NoBreakIn text.now from to }
    requires order { from ≤ at }
    requires within { at ≤ to }
    ensures { IfOk result (λ _. AddsSource text.now at page.old page.new) }
{
    let start = window_start(text, from, at);
    let columns = push_line(page, text, start, from < start, to, at)?;
    push_caret(page, columns)
}

// Adds the part of a line from `start`, and returns the number of columns before the offset.
fn push_line(
    page: &mut Page,
    text: &str,
    start: usize,
    cut: bool,
    to: usize,
    at: usize,
) -> Result<usize, AllocError>
    requires start { IsCharBoundary text.now start }
    requires boundary { IsCharBoundary text.now at }
    requires line { NoBreakIn text.now start to }
    requires order { start ≤ at }
    requires within { at ≤ to }
    ensures { IfOk result (λ columns. AddsLine text.now at page.old page.new columns) }
{
    page.push_signs("  | ")?;
    let indent = push_dots(page, cut)?;
    let before = page.push_part(text, start, at, BEFORE)?;
    if before.end != at {
        return Err(AllocError);
    }
    let after = page.push_part(text, at, to, ALL - before.columns)?;
    let _ = push_dots(page, after.end < to)?;
    page.push_break()?;
    Ok(indent + before.columns)
}

// Adds the line with the caret after the given number of columns.
fn push_caret(page: &mut Page, columns: usize) -> Result<(), AllocError>
    ensures { IfOk result (λ _. page.new ≡ page.old ++ caret columns) }
{
    page.push_signs("  | ")?;
    push_spaces(page, columns)?;
    page.push_signs("^\n")
}

// Adds spaces.
fn push_spaces(page: &mut Page, count: usize) -> Result<(), AllocError>
    ensures { IfOk result (λ _. page.new ≡ page.old ++ spaces count) }
{
    for _ in 0..count {
        page.push_signs(" ")?;
    }
    Ok(())
}

// Adds three dots if the line is cut, and returns the number of dots.
fn push_dots(page: &mut Page, cut: bool) -> Result<usize, AllocError>
    ensures added { IfOk result (λ _. page.new ≡ page.old ++ dots cut) }
    ensures count { IfOk result (λ count. count ≡ length (dots cut)) }
    ensures few { IfOk result (λ count. count ≤ 3) }
{
    if cut {
        page.push_signs("...")?;
        return Ok(3);
    }
    Ok(0)
}

// Returns the start of the part of a line that is shown before an offset.
fn window_start(text: &str, from: usize, at: usize) -> usize
    requires start { IsCharBoundary text.now from }
    requires boundary { IsCharBoundary text.now at }
    requires order { from ≤ at }
    ensures boundary { IsCharBoundary text.now result }
    ensures from { from ≤ result }
    ensures to { result ≤ at }
{
    let mut start = at;
    let mut columns = 0;
    while from < start {
        let before = char_start(text, from, start - 1);
        columns += match peek(text, before) {
            Some((c, _)) => columns_of(c),
            None => return start,
        };
        if columns > BEFORE {
            return start;
        }
        start = before;
    }
    start
}

// Returns the start of the character that holds the offset, but at least `from`.
fn char_start(text: &str, from: usize, at: usize) -> usize
    requires start { IsCharBoundary text.now from }
    requires order { from ≤ at }
    ensures boundary { IsCharBoundary text.now result }
    ensures from { from ≤ result }
    ensures to { result ≤ at }
{
    let mut start = at;
    while from < start {
        if text.is_char_boundary(start) {
            return start;
        }
        start -= 1;
    }
    from
}
