//! The lines of scalars after their first line, and the content lines of block scalars (YAML 1.2.2, section 8.1).
ghost use Rattle.std.specs.Prelude.{◌≡◌, ◌<◌, ◌≤◌, ℕ, drop, length, MatchOption};
ghost use Rattle.yf_rule_sets.specs.Passes.BlockLines.{LinesOfBlock};
ghost use Rattle.yf_rule_sets.specs.Passes.ScalarLines.{IsContent, LinesOfScalar};
ghost use Rattle.yf_rule_sets.specs.RuleSets.Scalars as Scalars;
ghost use Rattle.yf_rule_sets.specs.RuleSets.Scalars.{BlockContent};

use crate::facts::line_starts::lines_begun;
use yf_events::event::{Event, ScalarStyle};
use yf_events::reading::Reading;
use yf_forms::text::content_start::content_start;
use yf_lines::source_text::Src;

/// The start of the content of a block scalar.
#[derive(Clone, Copy)]
pub struct ContentStart {
    /// The index of its first content line.
    pub first: usize,
    /// The number of spaces before its content.
    pub indent: usize,
}

/// The lines of a scalar after the one on which its content begins; for a block scalar, after its header.
#[derive(Clone, Copy)]
pub struct ScalarLines {
    /// The byte offset of the content, after the properties; for a block scalar, of the header.
    pub start: usize,
    /// The index of the first of the lines, and the byte offset before which all of them begin.
    pub first: usize,
    pub end: usize,
    /// The start of the content, of a block scalar with a content line.
    pub content: Option<ContentStart>,
}

/// Returns how many times the byte occurs in a row from that index on.
fn count_from(bytes: &[u8], from: usize, byte: u8) -> usize
    ensures { result ≡ Scalars.head_count byte (drop from bytes.now) }
{
    let mut at = from;
    while at < bytes.len() {
        if bytes[at] != byte {
            return at - from;
        }
        at += 1;
    }
    at - from
}

/// Returns the start of the content of a block scalar with this text, or `None` if it has no content line. `after` is
/// the index of the line after the header.
#[inline(always)]
fn content_of(src: &Src, text: &str, after: usize) -> Option<ContentStart>
    requires { after ≤ length src.now.lines }
    ensures { MatchOption result ((first indent : ℕ) → BlockContent src.now.lines text.now after first indent → ⊥)
        (λ c. BlockContent src.now.lines text.now after c.first c.indent) }
{
    let bytes = text.as_bytes();
    let feeds = count_from(bytes, 0, b'\n');
    if feeds >= bytes.len() {
        return None;
    }
    if feeds >= src.lines().len() - after {
        return None;
    }
    let first = after + feeds;
    let spaces = count_from(bytes, feeds, b' ');
    Some(ContentStart {
        first,
        indent: src.lines().line(first).indent.saturating_sub(spaces),
    })
}

/// Returns whether a scalar of this style is a block scalar.
#[inline(always)]
pub fn is_block_style(style: ScalarStyle) -> bool
    ensures { result ≡ Scalars.is_block_style style }
{
    match style {
        ScalarStyle::Literal | ScalarStyle::Folded => true,
        ScalarStyle::Plain | ScalarStyle::Single | ScalarStyle::Double => false,
    }
}

/// Returns the start of the content of a scalar of this style with this text, if it is a block scalar with a content
/// line.
#[inline(always)]
fn block_content(src: &Src, style: ScalarStyle, text: &str, after: usize) -> Option<ContentStart>
    requires { after ≤ length src.now.lines }
    ensures { IsContent src.now.lines style text.now after result }
{
    if !is_block_style(style) {
        return None;
    }
    content_of(src, text, after)
}

/// Returns the lines of the scalar at an event, or `None` for another event or an empty scalar. The search starts at
/// `line`. If `first` of one scalar is the `line` for the next one, a pass over the events visits each line once.
#[inline(never)]
pub fn scalar_lines_at(src: &Src, reading: &Reading, i: usize, line: usize) -> Option<ScalarLines>
    requires { i < length reading.now.events }
    ensures { LinesOfScalar src.now reading.now i result }
{
    match reading.event(i) {
        Event::Scalar { props, style, text } => match reading.span(i) {
            Some(span) => {
                let start = content_start(src.text(), span, &props);
                let first = lines_begun(src, line, start);
                Some(ScalarLines {
                    start,
                    first,
                    end: span.end,
                    content: block_content(src, style, text, first),
                })
            }
            None => None,
        },
        _ => None,
    }
}

/// Like `scalar_lines_at`, but returns `None` at once for a scalar that is not a block scalar.
#[inline(always)]
pub fn block_lines_at(src: &Src, reading: &Reading, i: usize, line: usize) -> Option<ScalarLines>
    requires { i < length reading.now.events }
    ensures { LinesOfBlock src.now reading.now i result }
{
    match reading.event(i) {
        Event::Scalar { style, .. } => {
            if is_block_style(style) {
                return scalar_lines_at(src, reading, i, line);
            }
            None
        }
        _ => None,
    }
}
