//! The lines of quoted text and of brackets. Offsets count bytes.
ghost use Rattle.std.specs.Prelude.{◌+◌, ◌<◌, MatchBool, ⊤, length};
ghost use Rattle.std.specs.Str.{IsCharBoundary};
ghost use Rattle.yf_diagnose.specs.SecondReadings.{IsReadFrom};
ghost use Rattle.yf_diagnose.specs.Lines.{NextLineAt};

use crate::diagnosis::{Mistake, refused};
use crate::why::Why;
use yf_chars::classes::is_printable;
use yf_chars::nb_runs::skip_nb_chars;
use yf_chars::text::{is_char_at, peek};
use yf_lines::basic::{is_marker_at, line_break, skip_spaces, skip_whites};
use yf_lines::table::skip_marks;

/// The limits of a node's lines: the least number of spaces that they begin with, and whether the node must be on one
/// line, as a key.
#[derive(Clone, Copy)]
pub(crate) struct Margin {
    pub(crate) least: usize,
    pub(crate) key: bool,
}

/// The next line that is not blank.
#[derive(Clone, Copy)]
pub(crate) enum NextLine {
    /// The line is indented far enough; the offset of its first sign.
    Goes(usize),
    /// The text or the document ends.
    Ends,
    /// A tab is in the indentation.
    Tab(usize),
    /// The first sign is too far left.
    Left(usize),
}

/// Returns the next line that is not blank, from the start of a line on.
pub(crate) fn next_line(text: &str, at: usize, least: usize) -> NextLine
    requires { IsCharBoundary text.now at }
    ensures { NextLineAt text.now at result }
{
    let mut start = at;
    'lines: loop {
        let indented = skip_spaces(text, start);
        let sign = skip_whites(text, indented);
        match line_break(text, sign) {
            Some(next) => start = next,
            None => {
                if sign == text.len() {
                    return NextLine::Ends;
                }
                if is_marker_at(text, skip_marks(text, start)) {
                    return NextLine::Ends;
                }
                if indented - start >= least {
                    return NextLine::Goes(sign);
                }
                if sign > indented {
                    return NextLine::Tab(indented);
                }
                return NextLine::Left(sign);
            }
        }
    }
}

/// Returns the end of the comment that begins at the offset.
pub(crate) fn comment_end(text: &str, at: usize) -> Result<usize, Mistake>
    requires { IsCharBoundary text.now at }
    ensures { IsReadFrom text.now at result }
{
    let end = skip_nb_chars(text, at);
    if line_ends(text, end) {
        return Ok(end);
    }
    refused(end, sign_why(text, end, Why::Control))
}

/// Returns why a sign is refused: its own reason if it is allowed nowhere, otherwise `why`.
pub(crate) fn sign_why(text: &str, at: usize, why: Why) -> Why
    requires { IsCharBoundary text.now at }
{
    match peek(text, at) {
        None => why,
        Some((c, _)) => {
            if c == '\u{FEFF}' {
                return Why::Mark;
            }
            if is_printable(c) {
                return why;
            }
            Why::Control
        }
    }
}

/// Returns whether the text or the line ends at the offset.
pub(crate) fn line_ends(text: &str, at: usize) -> bool
    ensures { MatchBool result ⊤ (at < length text.now) }
{
    if at >= text.len() {
        return true;
    }
    is_break(text, at)
}

/// Returns whether a character of a line break is between the offsets.
pub(crate) fn breaks_between(text: &str, from: usize, to: usize) -> bool {
    let mut at = from;
    'bytes: while at < to {
        if is_break(text, at) {
            return true;
        }
        at += 1;
    }
    false
}

/// Returns whether more than 1,024 characters are between the offsets.
pub(crate) fn is_long(text: &str, from: usize, to: usize) -> bool {
    let bytes = text.as_bytes();
    let mut count: usize = 0;
    let mut at = from;
    'bytes: while at < to {
        if at < bytes.len() {
            if bytes[at] & 0xC0 != 0x80 {
                count = count.saturating_add(1);
            }
        }
        at += 1;
    }
    count > 1024
}

/// Returns whether a character of a line break is at the offset.
pub(crate) fn is_break(text: &str, at: usize) -> bool
    ensures { MatchBool result (IsCharBoundary text.now (at + 1)) ⊤ }
{
    if is_char_at(text, at, b'\n') {
        return true;
    }
    is_char_at(text, at, b'\r')
}
