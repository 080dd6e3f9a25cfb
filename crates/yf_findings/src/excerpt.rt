//! A line of a text, cut around a character.
ghost use Rattle.std.specs.List.{prefix_len};
ghost use Rattle.std.specs.Prelude.{◌≡◌, ◌++◌, ◌-◌, ◌≤◌, IfOk, OnOk, drop, length, reverse, take};
ghost use Rattle.yf_explain.specs.Shown.{all_shown, columns};
ghost use Rattle.yf_findings.specs.Excerpt.{back_of, dots, end_of, excerpt, fitting, indent_of, index_of};
ghost use Rattle.yf_findings.specs.Excerpt.{is_byte_order_mark, is_cut, is_past, marks_of, start_of, stop_of, width_in, window_at, window_of};

use crate::pieces::{push_chars, push_shown};
use std::alloc::{AllocError, Global};
use yf_explain::{Page, columns_of};
use yf_report::problem::Range;

/// The most columns that are shown before the character.
pub const BEFORE: usize = 34;

/// The most columns of a line that are shown.
pub const ALL: usize = 68;

/// A front of a line: the number of its characters, and its width in columns.
#[derive(Clone, Copy)]
pub struct Fitted {
    pub count: usize,
    pub columns: usize,
}

/// The shown part of a line: the indexes of its first character and after its last one, whether the line goes on after
/// it, the number of columns before the marks, and the number of marks.
#[derive(Clone, Copy)]
pub struct Window {
    pub start: usize,
    pub stop: usize,
    pub cut: bool,
    pub indent: usize,
    pub marks: usize,
}

// Returns the index of a column of a line, or the length of the line.
fn index_of(line: &[char], column: usize) -> usize
    ensures index { result ≡ index_of line.now column }
    ensures within { result ≤ length line.now }
{
    let skipped = skipped_in(line);
    let offset = column.saturating_sub(1);
    if offset < line.len() - skipped {
        return skipped + offset;
    }
    line.len()
}

// Returns whether a column is past the end of the characters. Then they are only a front of the line.
fn is_past(line: &[char], column: usize) -> bool
    ensures { result ≡ is_past line.now column }
{
    let skipped = skipped_in(line);
    if line.len() - skipped < column.saturating_sub(1) {
        return true;
    }
    false
}

// Returns the number of byte order marks at the start of a line.
fn skipped_in(line: &[char]) -> usize
    ensures count { result ≡ prefix_len is_byte_order_mark line.now }
    ensures within { result ≤ length line.now }
{
    let mut count = 0;
    for c in line {
        if *c != '\u{FEFF}' {
            return count;
        }
        count += 1;
    }
    count
}

// Returns the index after a range, or the length of the line if the range ends on another line.
fn end_of(line: &[char], range: Range) -> usize
    ensures { result ≡ end_of line.now range }
{
    if range.end_line == range.line {
        return index_of(line, range.end_column);
    }
    line.len()
}

/// Returns the longest front of these characters that takes at most the given number of columns.
pub(crate) fn fitting(line: &[char], most: usize) -> Fitted
    ensures count { result.count ≡ fitting most line.now }
    ensures columns { result.columns ≡ columns (take result.count line.now) }
    ensures within { result.count ≤ length line.now }
    ensures room { result.columns ≤ most }
{
    let mut count = 0;
    let mut columns = 0;
    for c in line {
        let width = columns_of(*c);
        if most - columns < width {
            return Fitted { count, columns };
        }
        columns += width;
        count += 1;
    }
    Fitted { count, columns }
}

// Returns the longest part before an index that takes at most `BEFORE` columns.
fn fitting_before(alloc: Global, line: &[char], at: usize) -> Result<Fitted, AllocError>
    requires { at ≤ length line.now }
    ensures count { IfOk result (λ f. f.count ≡ fitting BEFORE (back_of line.now at)) }
    ensures columns { IfOk result (λ f. f.columns ≡ width_in BEFORE (back_of line.now at)) }
    ensures within { IfOk result (λ f. f.count ≤ at) }
    ensures room { IfOk result (λ f. f.columns ≤ BEFORE) }
{
    let mut front = Vec::from_slice(alloc, &line[..at])?;
    front.reverse();
    Ok(fitting(front.as_slice(), BEFORE))
}

/// Returns the shown part of a line for a range that begins on it.
pub(crate) fn window_of(alloc: Global, line: &[char], range: Range) -> Result<Window, AllocError>
    ensures window { IfOk result (λ w. w ≡ window_of line.now range) }
    ensures order { IfOk result (λ w. w.start ≤ w.stop) }
    ensures within { IfOk result (λ w. w.stop ≤ length line.now) }
{
    let at = index_of(line, range.column);
    let end = end_of(line, range);
    window_at(alloc, line, at, end, is_past(line, range.column))
}

// Returns the shown part of a line for the characters from one index to another.
fn window_at(
    alloc: Global,
    line: &[char],
    at: usize,
    end: usize,
    past: bool,
) -> Result<Window, AllocError>
    requires { at ≤ length line.now }
    ensures window { IfOk result (λ w. w ≡ window_at line.now at end past) }
    ensures order { IfOk result (λ w. w.start ≤ w.stop) }
    ensures within { IfOk result (λ w. w.stop ≤ length line.now) }
{
    let before = fitting_before(alloc, line, at)?;
    let start = at - before.count;
    let stop = stop_of(line, at, before.columns);
    let indent = dots(start > 0).len() + before.columns;
    Ok(Window {
        start,
        stop,
        cut: is_cut(stop, line.len(), past),
        indent,
        marks: marks_of(line, at, stop, end),
    })
}

// Returns whether a line goes on after the shown part.
fn is_cut(stop: usize, count: usize, past: bool) -> bool
    ensures { result ≡ is_cut stop count past }
{
    if stop < count {
        return true;
    }
    past
}

// Returns the index after the last character that is shown.
fn stop_of(line: &[char], at: usize, before: usize) -> usize
    requires within { at ≤ length line.now }
    requires before { before ≤ BEFORE }
    ensures stop { before ≡ width_in BEFORE (back_of line.now at) → result ≡ stop_of line.now at }
    ensures order { at ≤ result }
    ensures within { result ≤ length line.now }
{
    at + fitting(&line[at..], ALL - before).count
}

// Returns the number of marks under a part of a line.
fn marks_of(line: &[char], at: usize, stop: usize, end: usize) -> usize
    requires order { at ≤ stop }
    requires within { stop ≤ length line.now }
    ensures { stop ≡ stop_of line.now at → result ≡ marks_of line.now at end }
{
    let last = at.max(end.min(stop));
    fitting(&line[at..last], ALL).columns.max(1)
}

/// Returns three dots if a part is cut off.
pub(crate) fn dots(cut: bool) -> &'static str
    ensures { result.now ≡ dots cut }
{
    if cut { "..." } else { "" }
}

/// Adds a line to a page.
pub(crate) fn push_excerpt(page: &mut Page, line: &[char], window: Window) -> Result<(), AllocError>
    requires order { window.start ≤ window.stop }
    requires within { window.stop ≤ length line.now }
    ensures { OnOk result (page.new ≡ page.old ++ excerpt line.now window) }
{
    push_shown(page, "  | ")?;
    push_shown(page, dots(window.start > 0))?;
    push_chars(page, &line[window.start..window.stop])?;
    push_shown(page, dots(window.cut))?;
    page.push_break()
}
