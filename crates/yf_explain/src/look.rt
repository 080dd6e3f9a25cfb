//! Estimates of the ends of parts of a text, without a full reading. Offsets count bytes.
ghost use Rattle.std.specs.Prelude.{◌<◌, ◌≤◌};

use yf_lines::basic::is_marker_at;

/// Returns whether white space, a line break or the end of the text is at the offset.
pub(crate) fn is_blank(text: &str, at: usize) -> bool {
    match text.as_bytes().get(at) {
        Some(byte) => matches!(byte, b' ' | b'\t' | b'\n' | b'\r'),
        None => true,
    }
}

/// Returns whether the alias at an offset looks like a text: its name holds a character other than letters, digits, `-`
/// and `_`.
pub(crate) fn is_text_like(text: &str, alias: usize) -> bool {
    let bytes = text.as_bytes();
    let mut at = alias.saturating_add(1);
    while at < bytes.len() {
        match bytes[at] {
            b'a'..=b'z' | b'A'..=b'Z' | b'0'..=b'9' | b'-' | b'_' | 128..=255 => {}
            b' ' | b'\t' | b'\n' | b'\r' | b',' | b'[' | b']' | b'{' | b'}' => return false,
            _ => return true,
        }
        at += 1;
    }
    false
}

/// Returns the end of the line that holds the offset.
pub(crate) fn line_end(text: &str, from: usize) -> usize
    ensures { from ≤ result }
{
    let bytes = text.as_bytes();
    let mut at = from;
    while at < bytes.len() {
        if matches!(bytes[at], b'\n' | b'\r') {
            return at;
        }
        at += 1;
    }
    at
}

/// Returns the offset of the next white space or of the end of the line.
pub(crate) fn word_end(text: &str, from: usize) -> usize
    ensures { from ≤ result }
{
    let mut at = from;
    while at < text.len() {
        if is_blank(text, at) {
            return at;
        }
        at += 1;
    }
    at
}

/// Returns the offset after the closing quote of the text that is opened at the offset, or an offset past `to` if it
/// isn't closed before `to`.
pub(crate) fn quote_end(text: &str, from: usize, to: usize) -> usize
    requires { from < to }
    ensures { from < result }
{
    let bytes = text.as_bytes();
    let mut at = from + 1;
    while at < bytes.len() {
        if at >= to {
            return to;
        }
        let byte = bytes[at];
        if byte == bytes[from] {
            return at + 1;
        }
        at += 1;
        if byte == b'\\' && bytes[from] == b'"' && at < bytes.len() {
            at += 1;
        }
    }
    to
}

/// Returns the end of the block scalar whose header is at the offset: the start of the first line with text that is
/// indented by less than `indent` columns.
pub(crate) fn block_scalar_end(text: &str, from: usize, indent: usize) -> usize
    ensures { from ≤ result }
{
    let mut end = line_end(text, from);
    while end < text.len() {
        let start = end + 1;
        let sign = spaces_end(text, start);
        if !is_blank(text, sign) {
            if sign - start < indent {
                return end;
            }
        }
        end = line_end(text, start);
    }
    end
}

// Returns the offset after the spaces.
fn spaces_end(text: &str, from: usize) -> usize
    ensures { from ≤ result }
{
    let bytes = text.as_bytes();
    let mut at = from;
    while at < bytes.len() {
        if bytes[at] != b' ' {
            return at;
        }
        at += 1;
    }
    at
}

/// Returns the start of the document that holds the offset: after the last line before it that is a document marker, or
/// the start of the text.
pub(crate) fn document_start(text: &str, at: usize) -> usize {
    let mut start = at;
    while start > 0 {
        if is_marker(text, start) {
            return start.saturating_add(3);
        }
        start -= 1;
    }
    if is_marker(text, 0) {
        return 3;
    }
    0
}

// Returns whether a line begins there with a document marker.
fn is_marker(text: &str, start: usize) -> bool {
    if start > 0 {
        match text.as_bytes().get(start - 1) {
            Some(b'\n' | b'\r') => {}
            _ => return false,
        }
    }
    if !text.is_char_boundary(start) {
        return false;
    }
    is_marker_at(text, start)
}
