//! What people see of the changes of lines that fix findings.
ghost use Rattle.std.specs.List.{prefix_len};
ghost use Rattle.std.specs.Prelude.{◌≡◌, ◌∷◌, ◌++◌, ◌≤◌, [], IfOk, OnOk, decimal, length};
ghost use Rattle.std.specs.Str.{chars};
ghost use Rattle.yf_findings.specs.FullChanges as spec;
ghost use Rattle.yf_findings.specs.Pieces.{as_shown};

use crate::changes::Change;
use crate::excerpt::{dots, fitting};
use crate::owned::OwnedProblem;
use crate::pieces::{Look, Piece, characters, push_break, push_chars, push_piece, push_shown};
use crate::selection::last_line;
use itoa::Buffer;
use std::alloc::{AllocError, Global};
use yf_explain::Page;
use yf_report::problem::Range;

/// The most lines of a change that are shown.
pub const LINES: usize = 10;

/// The most columns of such a line that are shown.
pub const WIDTH: usize = 100;

/// Returns the changes that are left at a line: without those at the start that end before the line.
pub(crate) fn left_at<'a>(line: usize, changes: &'a [Change]) -> &'a [Change]
    ensures { result.now ≡ spec.left_at line changes.now }
{
    &changes[over_count(line, changes)..]
}

// Returns the number of changes at the start that end before a line.
fn over_count(line: usize, changes: &[Change]) -> usize
    ensures count { result ≡ prefix_len (spec.ends_before line) changes.now }
    ensures within { result ≤ length changes.now }
{
    let mut count = 0;
    for change in changes {
        if last_line(change.range) >= line {
            return count;
        }
        count += 1;
    }
    count
}

// Returns whether the first change ends before a line.
fn first_is_over(line: usize, changes: &[Change]) -> bool
    ensures { result ≡ spec.first_is_over line changes.now }
{
    match changes {
        [first, ..] => last_line(first.range) < line,
        [] => false,
    }
}

// Returns whether the first change begins on a line or before it.
fn first_has_begun(line: usize, changes: &[Change]) -> bool
    ensures { result ≡ spec.first_has_begun line changes.now }
{
    match changes {
        [first, ..] => first.range.line <= line,
        [] => false,
    }
}

/// Returns whether the first change is due and ends before a problem, so that it is shown before the problem.
pub(crate) fn is_due_before(due: bool, problem: &OwnedProblem, changes: &[Change]) -> bool
    ensures { result ≡ spec.due_before due problem.now changes.now }
{
    due && first_is_over(problem.range.line, changes)
}

/// Returns whether the first change that is left at a problem is to be shown: `fmt` fixes the problem, and the change
/// has begun; or it was due already.
pub(crate) fn due_after(due: bool, problem: &OwnedProblem, changes: &[Change]) -> bool
    ensures { result ≡ spec.due_after due problem.now changes.now }
{
    let line = problem.range.line;
    let was = due && !first_is_over(line, changes);
    let is = problem.fixable && first_has_begun(line, left_at(line, changes));
    was || is
}

/// Adds the pieces of the first change if it is due.
pub(crate) fn push_due(
    alloc: Global,
    pieces: &mut Vec<Piece>,
    due: bool,
    changes: &[Change],
) -> Result<(), AllocError>
    ensures { OnOk result (pieces.new.items ≡ pieces.old.items ++ spec.due_pieces due changes.now) }
{
    match changes {
        [first, ..] => push_if(alloc, pieces, due, first),
        [] => Ok(()),
    }
}

// Adds the pieces of a change if it is due.
fn push_if(
    alloc: Global,
    pieces: &mut Vec<Piece>,
    due: bool,
    change: &Change,
) -> Result<(), AllocError>
    ensures { OnOk result (pieces.new.items
        ≡ pieces.old.items ++ spec.due_pieces due (change.now ∷ [])) }
{
    if due {
        return push_change(alloc, pieces, change);
    }
    Ok(())
}

// Adds the pieces of a change: which lines `fmt` rewrites, removes or adds, and what it writes there.
fn push_change(alloc: Global, pieces: &mut Vec<Piece>, change: &Change) -> Result<(), AllocError>
    ensures { OnOk result (pieces.new.items ≡ pieces.old.items ++ spec.change_pieces change.now) }
{
    let label = label_of(alloc, change)?;
    push_piece(pieces, Look::Plain, label)?;
    push_text(alloc, pieces, change.text.as_str())
}

// Returns the line that says what `fmt` does.
fn label_of(alloc: Global, change: &Change) -> Result<Page, AllocError>
    ensures { IfOk result (λ page. page ≡ spec.label change.now) }
{
    let text = change.text.as_str();
    let mut page = Page::new(alloc);
    push_shown(&mut page, verb(change.range, text))?;
    push_lines(&mut page, change.range.line, last_line(change.range))?;
    push_shown(&mut page, colon(text))?;
    page.push_break()?;
    Ok(page)
}

// Returns what `fmt` does with the lines of a range.
fn verb(range: Range, text: &str) -> &'static str
    ensures { result.now ≡ spec.verb range text.now }
{
    if text.is_empty() {
        return "  = fmt removes ";
    }
    if is_empty(range) {
        return "  = fmt adds before ";
    }
    "  = fmt rewrites "
}

// Returns whether a range is empty.
fn is_empty(range: Range) -> bool
    ensures { result ≡ spec.is_empty range }
{
    range.line == range.end_line && range.column == range.end_column
}

// Returns a colon if lines follow.
fn colon(text: &str) -> &'static str
    ensures { result.now ≡ spec.colon text.now }
{
    if text.is_empty() {
        return "";
    }
    ":"
}

// Adds the numbers of lines.
fn push_lines(page: &mut Page, first: usize, last: usize) -> Result<(), AllocError>
    ensures { OnOk result (page.new ≡ page.old ++ spec.lines_words first last) }
{
    if first == last {
        push_shown(page, "line ")?;
        return push_number(page, first);
    }
    push_shown(page, "lines ")?;
    push_number(page, first)?;
    push_shown(page, " to ")?;
    push_number(page, last)
}

// Adds a number.
fn push_number(page: &mut Page, number: usize) -> Result<(), AllocError>
    ensures { OnOk result (page.new ≡ page.old ++ as_shown (decimal number)) }
{
    let mut buffer = Buffer::new();
    push_shown(page, buffer.format(number))
}

// Adds the first lines of a text.
fn push_text(alloc: Global, pieces: &mut Vec<Piece>, text: &str) -> Result<(), AllocError>
    ensures { OnOk result (pieces.new.items ≡ pieces.old.items ++ spec.rows LINES (chars text.now)) }
{
    let text = characters(alloc, text)?;
    push_rows(alloc, pieces, text.as_slice())
}

// Adds the first lines of these characters, and three dots if there are more.
fn push_rows(alloc: Global, pieces: &mut Vec<Piece>, text: &[char]) -> Result<(), AllocError>
    ensures { OnOk result (pieces.new.items ≡ pieces.old.items ++ spec.rows LINES text.now) }
{
    let mut rest = text;
    let mut count = LINES;
    while count > 0 {
        if rest.is_empty() {
            return Ok(());
        }
        let end = line_end(rest);
        push_row(alloc, pieces, &rest[..end])?;
        rest = after_line(rest, end);
        count -= 1;
    }
    push_more(alloc, pieces, rest)
}

// Returns the number of characters before the first line feed, or of all characters.
fn line_end(text: &[char]) -> usize
    ensures count { result ≡ prefix_len spec.is_no_feed text.now }
    ensures within { result ≤ length text.now }
{
    let mut count = 0;
    for c in text {
        if *c == '\n' {
            return count;
        }
        count += 1;
    }
    count
}

// Returns the characters after a line and its line feed.
fn after_line(text: &[char], end: usize) -> &[char]
    requires { end ≤ length text.now }
    ensures { end ≡ prefix_len spec.is_no_feed text.now → result.now ≡ spec.after_line text.now }
{
    if end < text.len() {
        return &text[end + 1..];
    }
    &text[end..]
}

// Adds a row for a line, or its front.
fn push_row(alloc: Global, pieces: &mut Vec<Piece>, line: &[char]) -> Result<(), AllocError>
    ensures { OnOk result (pieces.new.items ≡ pieces.old.items ++ spec.row (spec.row_text line.now)) }
{
    let page = row_of(alloc, line)?;
    push_piece(pieces, Look::Green, page)?;
    push_break(alloc, pieces)
}

// Returns the text of a row for a line.
fn row_of(alloc: Global, line: &[char]) -> Result<Page, AllocError>
    ensures { IfOk result (λ page. page ≡ spec.row_text line.now) }
{
    let mut page = Page::new(alloc);
    let front = fitting(line, WIDTH);
    push_shown(&mut page, "  + ")?;
    push_chars(&mut page, &line[..front.count])?;
    push_shown(&mut page, dots(front.count < line.len()))?;
    Ok(page)
}

// Adds a row with three dots, if there are more characters.
fn push_more(alloc: Global, pieces: &mut Vec<Piece>, rest: &[char]) -> Result<(), AllocError>
    ensures { OnOk result (pieces.new.items ≡ pieces.old.items ++ spec.more_row rest.now) }
{
    if rest.is_empty() {
        return Ok(());
    }
    let mut page = Page::new(alloc);
    push_shown(&mut page, "  + ...")?;
    push_piece(pieces, Look::Green, page)?;
    push_break(alloc, pieces)
}
