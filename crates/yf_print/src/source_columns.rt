//! Columns in the source. They count from 0.
ghost use Rattle.std.specs.Prelude.{◌≡◌};
ghost use Rattle.yf_chars.specs.Class.{is_break_char};
ghost use Rattle.yf_chars.specs.Text.{code};
ghost use Rattle.yf_print.specs.Layouts.SourceColumns as SourceColumns;
ghost use Rattle.yf_print.specs.Passes.KnownLines as KnownLines;
ghost use Rattle.yf_events.specs.Tree.{starts_of_entry};

use yf_chars::text::is_char_at;
use yf_events::event::Entry;
use yf_lines::basic::{is_mark_at, is_white_at};

/// An offset in a text, and the start of its line if only white space and the signs of entries precede it on the line.
#[derive(Clone, Copy)]
pub struct KnownLine {
    pub offset: usize,
    pub start: Option<usize>,
}

impl KnownLine {
    /// The start of a text.
    pub const TEXT: KnownLine = KnownLine {
        offset: 0,
        start: Some(0),
    };
}

/// Returns whether a line break is at the offset.
fn is_break_at(text: &str, at: usize) -> bool
    ensures { result ≡ is_break_char (code text.now at) }
{
    if is_char_at(text, at, b'\n') {
        return true;
    }
    is_char_at(text, at, b'\r')
}

/// Returns whether white space is at the offset, or, if `with_signs`, the sign of an entry.
fn counts(text: &str, at: usize, with_signs: bool) -> bool
    ensures { result ≡ SourceColumns.counts with_signs (code text.now at) }
{
    if is_white_at(text, at) {
        return true;
    }
    if with_signs {
        return is_sign_at(text, at);
    }
    false
}

/// Returns whether the sign of an entry is at the offset.
fn is_sign_at(text: &str, at: usize) -> bool
    ensures { result ≡ SourceColumns.is_sign (code text.now at) }
{
    if is_char_at(text, at, b'-') {
        return true;
    }
    if is_char_at(text, at, b'?') {
        return true;
    }
    is_char_at(text, at, b':')
}

/// Returns the start of an offset's line, searched back as far as the known offset, or `None` if the line has other
/// characters before the offset than those that count.
fn line_start(text: &str, known: KnownLine, offset: usize, with_signs: bool) -> Option<usize>
    ensures { result ≡ KnownLines.start_since (SourceColumns.counts with_signs) text.now known offset }
{
    let mut end = offset;
    'back: while known.offset < end {
        let at = end - 1;
        if is_break_at(text, at) {
            return Some(end);
        }
        if !counts(text, at, with_signs) {
            if is_mark_at(text, at.saturating_sub(2)) {
                return Some(end);
            }
            return None;
        }
        end = at;
    }
    known.start
}

/// Returns the column of an offset from the start of its line.
fn column_of(line: KnownLine) -> Option<usize>
    ensures { result ≡ KnownLines.column_of line }
{
    match line.start {
        Some(start) => Some(line.offset.saturating_sub(start)),
        None => None,
    }
}

/// Returns how many bytes of white space are between the start of the line and the offset, or `None` if other
/// characters are there.
pub(crate) fn own_column(text: &str, offset: usize) -> Option<usize>
    ensures { result ≡ SourceColumns.own_column text.now offset }
{
    let start = line_start(text, KnownLine::TEXT, offset, false);
    column_of(KnownLine { offset, start })
}

/// Returns the start of an entry's line, searched back to the entry before it.
fn known_at(text: &str, known: KnownLine, offset: usize) -> KnownLine
    ensures { result ≡ KnownLines.known_at text.now known offset }
{
    if offset < known.offset {
        let start = line_start(text, KnownLine::TEXT, offset, true);
        return KnownLine { offset, start };
    }
    let start = line_start(text, known, offset, true);
    KnownLine { offset, start }
}

/// Returns the known line after the first entry of a collection, if the entry has an offset.
pub(crate) fn known_after(text: &str, known: KnownLine, entry: Option<Entry>) -> KnownLine
    ensures { result ≡ KnownLines.known_after text.now known (starts_of_entry entry) }
{
    match entry {
        Some(entry) => known_at(text, known, entry.start),
        None => known,
    }
}

/// Returns the column of that entry, from the known line after it.
pub(crate) fn source_column(line: KnownLine, entry: Option<Entry>) -> Option<usize>
    ensures { result ≡ KnownLines.column_if line (starts_of_entry entry) }
{
    match entry {
        Some(_) => column_of(line),
        None => None,
    }
}
