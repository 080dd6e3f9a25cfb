//! Flags the lines of scalars, and the content lines of block scalars.
ghost use Rattle.std.specs.Prelude.{◌≡◌, ◌<◌, ◌≤◌, ℕ, Some, true, length, slice_get, IfOk, MatchBool};
ghost use Rattle.yf_lines.specs.declared.line.Line.{Line};
ghost use Rattle.yf_rule_sets.specs.RuleSets.BlankLines.{ScalarLine};
ghost use Rattle.yf_rule_sets.specs.Passes.LineFlags.{FlagsAdded, FlagsOf};
ghost use Rattle.yf_rule_sets.specs.Passes.ScalarLines.{InRange, InSome, IsLonger, WantedLine, wanted_range};
ghost use Rattle.yf_rule_sets.specs.RuleSets.Scalars.{ContentLine};

use crate::facts::line_starts::lines_begun;
use crate::facts::scalars::{ScalarLines, block_lines_at, scalar_lines_at};
use crate::facts::spans::scalar_span;
use std::alloc::{AllocError, Global};
use yf_events::reading::Reading;
use yf_lines::line::Line;
use yf_lines::source_text::Src;

/// Which lines of a scalar to flag, of the lines after the one on which it begins.
#[derive(Clone, Copy)]
enum WantedLines {
    All,
    /// The content lines of a block scalar.
    Content,
}

/// The lines from an index on that begin before a byte offset; with an indentation, only lines with more characters
/// than it.
#[derive(Clone, Copy)]
struct LineRange {
    first: usize,
    end: usize,
    indent: Option<usize>,
}

/// Returns the range of the wanted lines of a scalar.
#[inline(always)]
fn range_of(scalar: Option<ScalarLines>, wanted: WantedLines) -> Option<LineRange>
    ensures { result ≡ wanted_range wanted scalar }
{
    match scalar {
        Some(lines) => match wanted {
            WantedLines::All => Some(LineRange {
                first: lines.first,
                end: lines.end,
                indent: None,
            }),
            WantedLines::Content => match lines.content {
                Some(content) => Some(LineRange {
                    first: content.first,
                    end: lines.end,
                    indent: Some(content.indent),
                }),
                None => None,
            },
        },
        None => None,
    }
}

/// Returns whether a line has more characters than the indentation, if there is one.
#[inline(always)]
fn is_longer(line: Line, indent: Option<usize>) -> bool
    requires { line.start ≤ line.end }
    ensures { MatchBool result (IsLonger line indent) (IsLonger line indent → ⊥) }
{
    match indent {
        Some(indent) => {
            if line.end - line.start > indent {
                return true;
            }
            false
        }
        None => true,
    }
}

/// Flags the lines of a range.
#[inline(always)]
fn note_range(list: &mut Vec<bool>, src: &Src, range: LineRange)
    requires { length list.old.items ≡ length src.now.lines }
    ensures { FlagsAdded list.old.items list.new.items (InRange src.now.lines range) }
{
    let lines = src.lines();
    let mut k = range.first;
    while k < list.len() {
        let line = lines.line(k);
        if line.start >= range.end {
            return;
        }
        if is_longer(line, range.indent) {
            list[k] = true;
        }
        k += 1;
    }
}

/// Flags the lines of a range, if there is one.
#[inline(always)]
fn note(list: &mut Vec<bool>, src: &Src, range: Option<LineRange>)
    requires { length list.old.items ≡ length src.now.lines }
    ensures { FlagsAdded list.old.items list.new.items (InSome src.now.lines range) }
{
    match range {
        Some(range) => note_range(list, src, range),
        None => {}
    }
}

/// Flags the content lines if the event is a block scalar. Returns the line from which the search for the next scalar
/// starts.
#[inline(always)]
fn note_content(list: &mut Vec<bool>, src: &Src, reading: &Reading, i: usize, line: usize) -> usize
    requires event { i < length reading.now.events }
    requires count { length list.old.items ≡ length src.now.lines }
    ensures { FlagsAdded list.old.items list.new.items (λ k. ContentLine src.now reading.now k i) }
{
    let block = block_lines_at(src, reading, i, line);
    note(list, src, range_of(block, WantedLines::Content));
    match block {
        Some(lines) => lines.first,
        None => line,
    }
}

/// Returns whether the lines from that index on begin at the byte offset or after it.
#[inline(always)]
fn begin_from(src: &Src, line: usize, end: usize) -> bool
    ensures { result ≡ true → (m : ℕ) (l : Line) → slice_get src.now.lines m ≡ Some l → line ≤ m → end ≤ l.start }
{
    let lines = src.lines();
    if line >= lines.len() {
        return true;
    }
    if end <= lines.line(line).start {
        return true;
    }
    false
}

/// Flags the lines of a scalar after the one on which it begins, if the event is a scalar. Returns the line from which
/// the search for the next scalar starts. Most scalars are on one line.
#[inline(always)]
fn note_scalar(list: &mut Vec<bool>, src: &Src, reading: &Reading, i: usize, line: usize) -> usize
    requires event { i < length reading.now.events }
    requires count { length list.old.items ≡ length src.now.lines }
    ensures { FlagsAdded list.old.items list.new.items (λ k. ScalarLine src.now reading.now k i) }
{
    match scalar_span(reading, i) {
        Some(span) => {
            let begun = lines_begun(src, line, span.start);
            if begin_from(src, begun, span.end) {
                return begun;
            }
            let lines = scalar_lines_at(src, reading, i, begun);
            note(list, src, range_of(lines, WantedLines::All));
            begun
        }
        None => line,
    }
}

/// Flags the wanted lines of a scalar, if the event is one. Returns the line from which the search for the next scalar
/// starts.
#[inline(always)]
fn note_wanted(
    list: &mut Vec<bool>,
    src: &Src,
    reading: &Reading,
    i: usize,
    line: usize,
    wanted: WantedLines,
) -> usize
    requires event { i < length reading.now.events }
    requires count { length list.old.items ≡ length src.now.lines }
    ensures { FlagsAdded list.old.items list.new.items (λ k. WantedLine wanted src.now reading.now k i) }
{
    match wanted {
        WantedLines::All => note_scalar(list, src, reading, i, line),
        WantedLines::Content => note_content(list, src, reading, i, line),
    }
}

/// Returns for each line whether it is a wanted line of a scalar.
#[inline(always)]
fn wanted_lines(
    alloc: Global,
    src: &Src,
    reading: &Reading,
    wanted: WantedLines,
) -> Result<Vec<bool>, AllocError>
    ensures { IfOk result (λ list. (length list.items ≡ length src.now.lines)
        × FlagsOf list.items (length reading.now.events) (λ i k. WantedLine wanted src.now reading.now k i)) }
{
    let mut list = vec![in alloc; false; src.lines().len()]?;
    let mut line = 0;
    for i in 0..reading.len() {
        line = note_wanted(&mut list, src, reading, i, line, wanted);
    }
    Ok(list)
}

/// Returns for each line whether it belongs to a scalar that begins on an earlier line.
pub fn scalar_lines(alloc: Global, src: &Src, reading: &Reading) -> Result<Vec<bool>, AllocError>
    ensures { IfOk result (λ list. (length list.items ≡ length src.now.lines)
        × FlagsOf list.items (length reading.now.events) (λ i k. ScalarLine src.now reading.now k i)) }
{
    wanted_lines(alloc, src, reading, WantedLines::All)
}

/// Returns for each line whether it is a content line of a block scalar.
pub fn content_lines(alloc: Global, src: &Src, reading: &Reading) -> Result<Vec<bool>, AllocError>
    ensures { IfOk result (λ list. (length list.items ≡ length src.now.lines)
        × FlagsOf list.items (length reading.now.events) (λ i k. ContentLine src.now reading.now k i)) }
{
    wanted_lines(alloc, src, reading, WantedLines::Content)
}
