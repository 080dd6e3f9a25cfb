//! The ends of parts of a text that begin at a byte offset.
ghost use Rattle.std.specs.Prelude.{◌≤◌, length};
ghost use Rattle.std.specs.Str.{IsCharBoundary};
ghost use Rattle.yf_ranges.specs.Spans.{BlankSpan, BreakSpan, CharacterSpan, LineRest, WhiteSpan};

use yf_chars::text::peek;
use yf_lines::basic::{line_break, next_break, skip_whites};
use yf_lines::table::column_from;

/// Returns the offset after the white space at an offset.
pub fn white_end(text: &str, start: usize) -> usize
    requires { IsCharBoundary text.now start }
    ensures span { WhiteSpan text.now start result }
    ensures order { start ≤ result }
    ensures within { result ≤ length text.now }
{
    skip_whites(text, start)
}

/// Returns the offset after the character at an offset. At the end of the text it returns the offset.
pub fn character_end(text: &str, start: usize) -> usize
    requires { IsCharBoundary text.now start }
    ensures span { CharacterSpan text.now start result }
    ensures order { start ≤ result }
    ensures within { result ≤ length text.now }
{
    match peek(text, start) {
        Some((_, next)) => next,
        None => start,
    }
}

/// Returns the offset after the line break at an offset. If no break begins there, it returns the offset.
pub fn break_end(text: &str, start: usize) -> usize
    requires { start ≤ length text.now }
    ensures span { BreakSpan text.now start result }
    ensures order { start ≤ result }
    ensures within { result ≤ length text.now }
{
    match line_break(text, start) {
        Some(next) => next,
        None => start,
    }
}

/// Returns the offset after the white space at an offset and the line break after it, if a break follows.
pub fn blank_end(text: &str, start: usize) -> usize
    requires { IsCharBoundary text.now start }
    ensures span { BlankSpan text.now start result }
    ensures order { start ≤ result }
    ensures within { result ≤ length text.now }
{
    break_end(text, white_end(text, start))
}

/// The rest of a line.
#[derive(Clone, Copy)]
pub struct Rest {
    /// The byte offset at which the line ends, before its break.
    pub end: usize,
    /// The number of characters up to there.
    pub count: usize,
}

/// Returns the rest of the line from an offset on.
pub fn line_rest(text: &str, start: usize) -> Rest
    requires { IsCharBoundary text.now start }
    ensures rest { LineRest text.now start result.end result.count }
    ensures order { start ≤ result.end }
    ensures within { result.end ≤ length text.now }
{
    let end = next_break(text, start);
    Rest {
        end,
        count: column_from(text, start, 0, end),
    }
}
