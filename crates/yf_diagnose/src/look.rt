//! The text before an offset, and on a line. Offsets count bytes.
ghost use Rattle.std.specs.Prelude.{◌≤◌, ◌<◌, ◌+◌, IfSome, MatchBool, ⊤, length};
ghost use Rattle.std.specs.Str.{IsCharBoundary};
ghost use Rattle.yf_diagnose.specs.SecondReadings.{NotBefore};

use crate::lines::{is_break, line_ends};
use yf_chars::text::is_char_at;
use yf_lines::basic::{is_marker_at, is_white_at, is_white_or_end_at, skip_spaces, skip_whites};
use yf_lines::table::skip_marks;

/// Returns the start of the line that holds the offset, before its byte order marks.
pub(crate) fn line_start(text: &str, at: usize) -> usize
    ensures boundary { IsCharBoundary text.now result }
    ensures order { result ≤ at }
{
    let mut start = at;
    'bytes: while start > 0 {
        let last = start - 1;
        if is_break(text, last) {
            return last + 1;
        }
        start = last;
    }
    0
}

/// Returns the start of the line before the one that begins at the offset.
pub(crate) fn line_before(text: &str, start: usize) -> usize
    requires { 0 < start }
    ensures boundary { IsCharBoundary text.now result }
    ensures order { result < start }
{
    let last = start - 1;
    if last > 0 {
        if is_char_at(text, last, b'\n') {
            if is_char_at(text, last - 1, b'\r') {
                return line_start(text, last - 1);
            }
        }
    }
    line_start(text, last)
}

/// Returns the start of the white space that ends at the offset.
pub(crate) fn whites_before(text: &str, at: usize) -> usize
    ensures { result ≤ at }
{
    let mut start = at;
    'bytes: while start > 0 {
        if !is_white_at(text, start - 1) {
            return start;
        }
        start -= 1;
    }
    0
}

/// Returns the start of the run without white space that ends at the offset.
pub(crate) fn word_before(text: &str, at: usize) -> usize
    ensures boundary { IsCharBoundary text.now result }
    ensures order { result ≤ at }
{
    let mut start = at;
    'bytes: while start > 0 {
        let last = start - 1;
        if is_break(text, last) {
            return last + 1;
        }
        if is_white_at(text, last) {
            return last + 1;
        }
        start = last;
    }
    0
}

/// Returns whether a `-`, `?` or `:` is at the offset, before white space, a break or the end of the text.
pub(crate) fn is_indicator_at(text: &str, at: usize) -> bool
    ensures { MatchBool result (IsCharBoundary text.now (at + 1)) ⊤ }
{
    if is_char_at(text, at, b'-') {
        return is_white_or_end_at(text, at + 1);
    }
    if is_char_at(text, at, b'?') {
        return is_white_or_end_at(text, at + 1);
    }
    if is_char_at(text, at, b':') {
        return is_white_or_end_at(text, at + 1);
    }
    false
}

/// Returns the first tab in white space between the offsets.
pub(crate) fn first_tab(text: &str, from: usize, to: usize) -> Option<usize>
    requires { IsCharBoundary text.now from }
    ensures boundary { IfSome result (λ tab. IsCharBoundary text.now tab) }
    ensures order { IfSome result (λ tab. tab < to) }
{
    let mut at = from;
    'whites: while at < to {
        if is_char_at(text, at, b'\t') {
            return Some(at);
        }
        if !is_char_at(text, at, b' ') {
            return None;
        }
        at += 1;
    }
    None
}

/// Returns whether a line has a `:` between the offsets that white space, a break or the end of the text follows.
pub(crate) fn has_colon(text: &str, from: usize, to: usize) -> bool {
    let mut at = from;
    'bytes: while at < to {
        if is_break(text, at) {
            return false;
        }
        if is_char_at(text, at, b':') {
            if is_indicator_at(text, at) {
                return true;
            }
        }
        at += 1;
    }
    false
}

/// Returns whether the first `:` between the offsets looks like that of a key without its space: neither white space
/// nor the end of the line follows it, and no `/` or `:`, as in an address.
pub(crate) fn has_unspaced_colon(text: &str, from: usize, to: usize) -> bool {
    let mut at = from;
    'bytes: while at < to {
        if line_ends(text, at) {
            return false;
        }
        if is_char_at(text, at, b':') {
            return is_key_colon(text, from, at);
        }
        at += 1;
    }
    false
}

// Returns whether a `:` looks like that of a key that begins at `from`.
fn is_key_colon(text: &str, from: usize, at: usize) -> bool {
    if at == from {
        return false;
    }
    match text.as_bytes().get(at.saturating_add(1)) {
        Some(byte) => !matches!(byte, b'/' | b':' | b' ' | b'\t' | b'\n' | b'\r'),
        None => false,
    }
}

/// Returns the end of the text on the line from an offset on, before white space and a comment.
pub(crate) fn text_end(text: &str, from: usize) -> usize {
    let mut end = from;
    let mut at = from;
    'bytes: while !line_ends(text, at) {
        if is_char_at(text, at, b'#') {
            if at > end {
                return end;
            }
        }
        let white = is_white_at(text, at);
        at += 1;
        if !white {
            end = at;
        }
    }
    end
}

// Returns the offset after the document marker at the offset, or the offset itself.
fn after_marker(text: &str, at: usize) -> usize
    requires { IsCharBoundary text.now at }
    ensures { NotBefore text.now at result }
{
    if is_marker_at(text, at) {
        if is_char_at(text, at + 2, b'-') {
            return at + 3;
        }
        if is_char_at(text, at + 2, b'.') {
            return at + 3;
        }
    }
    at
}

/// The beginning of a line.
#[derive(Clone, Copy)]
pub(crate) struct Beginning {
    /// The offset after its byte order marks.
    pub(crate) base: usize,
    /// The first sign that is not an indicator, or that is not before the limit.
    pub(crate) at: usize,
    /// The bytes from `base` to `at`: the column of the sign, from 0, if no tab precedes it.
    pub(crate) column: usize,
    /// The column, from 1, of the last indicator; 0 if there is none.
    pub(crate) least: usize,
    /// The first tab after the last indicator, or at the start of the line.
    pub(crate) tab: Option<usize>,
    /// Whether no sign is before it.
    pub(crate) first: bool,
    /// Whether the line begins with a document marker.
    pub(crate) marker: bool,
}

/// Returns the beginning of the line that starts at `start`, up to the limit `to`.
pub(crate) fn begun_line(text: &str, start: usize, to: usize) -> Beginning
    requires { IsCharBoundary text.now start }
    ensures tab { IfSome result.tab (λ tab. IsCharBoundary text.now tab) }
    ensures order { IfSome result.tab (λ tab. tab < result.at) }
    ensures base { result.base ≤ result.at }
    ensures boundary { IsCharBoundary text.now result.at }
{
    let base = skip_marks(text, start);
    let mut from = after_marker(text, base);
    let marker = from > base;
    let mut at = skip_whites(text, from);
    let mut least = 0;
    let mut first = !marker;
    'indicators: while at < to {
        if !is_indicator_at(text, at) {
            break;
        }
        least = at - base + 1;
        first = false;
        from = at + 1;
        at = skip_whites(text, from);
    }
    Beginning {
        base,
        at,
        column: at - base,
        least,
        tab: first_tab(text, from, at),
        first,
        marker,
    }
}

/// What a line has in a column of its beginning.
#[derive(Clone, Copy)]
pub(crate) enum Entry {
    Key,
    Item,
    Nothing,
}

/// Returns which entry of a block collection is in that column of the line that begins at `start`.
pub(crate) fn entry_in(text: &str, start: usize, column: usize) -> Entry
    requires { IsCharBoundary text.now start }
{
    let base = skip_marks(text, start);
    let mut at = skip_spaces(text, base);
    'indicators: loop {
        if at - base > column {
            return Entry::Nothing;
        }
        let reached = at - base == column;
        if !is_indicator_at(text, at) {
            if reached {
                if has_colon(text, at, text.len()) {
                    return Entry::Key;
                }
            }
            return Entry::Nothing;
        }
        if reached {
            if is_char_at(text, at, b'-') {
                return Entry::Item;
            }
            return Entry::Key;
        }
        at = skip_spaces(text, at + 1);
    }
}

/// Returns whether the line that begins at the offset is blank or a comment.
pub(crate) fn is_passed(text: &str, start: usize) -> bool
    requires { IsCharBoundary text.now start }
{
    let sign = skip_whites(text, skip_marks(text, start));
    if line_ends(text, sign) {
        return true;
    }
    is_char_at(text, sign, b'#')
}
