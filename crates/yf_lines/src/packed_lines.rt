//! Lines in eight bytes each. The end of a line is found in the text again.
ghost use Rattle.std.specs.Prelude.{◌≡◌, ◌<◌, ◌≤◌, Some, length, slice_get, IfOk};
ghost use Rattle.std.specs.List.Sorted.{IsNonDecreasingBy};
ghost use Rattle.yf_lines.specs.Rows.{RowsBegun, end_before, lines_of, next_start};

use crate::line::Line;
use std::alloc::AllocError;
use yf_chars::text::is_char_at;

/// A packed line: its byte offset, and the number of spaces that begin it.
#[derive(Clone, Copy)]
pub struct PackedLine {
    pub start: u32,
    pub indent: u32,
}

/// Returns the number in 32 bits. Fails like a refusal of memory if it is too large: a stream has at most 2^30 bytes.
#[inline(always)]
pub fn narrow(offset: usize) -> Result<u32, AllocError>
    ensures { IfOk result (λ n. n ≡ offset) }
{
    if offset <= 0xFFFF_FFFF {
        return Ok(offset as u32);
    }
    Err(AllocError)
}

/// Packs a line.
pub fn row_of(line: Line) -> Result<PackedLine, AllocError>
    ensures start { IfOk result (λ r. r.start ≡ line.start) }
    ensures indent { IfOk result (λ r. r.indent ≡ line.indent) }
{
    let start = narrow(line.start)?;
    let indent = narrow(line.indent)?;
    Ok(PackedLine { start, indent })
}

/// Returns the end of a line's text, before its break. The next line begins at `next`.
#[inline(always)]
pub fn text_end(text: &str, next: usize) -> usize
    ensures { result ≡ end_before text.now next }
{
    let last = next.saturating_sub(1);
    if is_char_at(text, last, b'\n') {
        let before = next.saturating_sub(2);
        if is_char_at(text, before, b'\r') {
            return before;
        }
        return last;
    }
    if is_char_at(text, last, b'\r') {
        return last;
    }
    next
}

/// Returns the start of the line after that of an index, or the end of the text after the last line.
#[inline(always)]
fn start_after(rows: &[PackedLine], i: usize, end: usize) -> usize
    requires { i < length rows.now }
    ensures { result ≡ next_start rows.now i end }
{
    let next = i + 1;
    if next < rows.len() {
        return rows[next].start as usize;
    }
    end
}

/// Returns the line of an index, from 0.
#[inline(always)]
pub fn line_at(text: &str, rows: &[PackedLine], i: usize) -> Line
    requires { i < length rows.now }
    ensures { slice_get (lines_of text.now (length text.now) rows.now) i ≡ Some result }
{
    let next = start_after(rows, i, text.len());
    let row = rows[i];
    Line {
        start: row.start as usize,
        end: text_end(text, next),
        next,
        indent: row.indent as usize,
    }
}

/// Returns how many lines begin at the offset or before it.
pub fn lines_begun(rows: &[PackedLine], offset: usize) -> usize
    requires { IsNonDecreasingBy (λ r. r.start) rows.now }
    ensures bound { result ≤ length rows.now }
    ensures begun { RowsBegun rows.now offset result }
{
    rows.partition_point(|row| row.start as usize <= offset)
}
