//! The start of the fault of a finding, by the finding's position, in one pass over the text.
ghost use Rattle.std.specs.Prelude.{◌≡◌, ◌+◌, ◌<◌, ◌≤◌, length, Some, slice_get};
ghost use Rattle.std.specs.Str.{IsCharBoundary};
ghost use Rattle.yf_findings.specs.Ranges.{StartOf, is_mark_rule};
ghost use Rattle.yf_lines.specs.FaultPlaces.{InText};
ghost use Rattle.yf_rule_sets.specs.RuleSets.Places.{IsCursor};

use crate::columns::walk;
use yf_lines::place::Position;
use yf_lines::source_text::Src;
use yf_lines::table::skip_marks;
use yf_rule_sets::facts::cursor::Cursor;
use yf_rule_sets::rules::StyleRule;

/// The start of a fault, and the cursor of the pass after it.
#[derive(Clone, Copy)]
pub(crate) struct Start {
    pub(crate) offset: usize,
    pub(crate) cursor: Cursor,
}

/// Returns the start of the fault of a finding of a rule, by a pass from a cursor on. For ascending positions it takes
/// one pass over the text.
pub(crate) fn start_of(src: &Src, rule: StyleRule, cursor: Cursor, place: Position) -> Start
    requires cursor { IsCursor src.now.text src.now.lines cursor }
    requires place { InText src.now.text place }
    ensures offset { StartOf src.now rule place result.offset }
    ensures boundary { IsCharBoundary src.now.text result.offset }
    ensures cursor { IsCursor src.now.text src.now.lines result.cursor }
{
    let line = place.line.saturating_sub(1);
    if line < src.lines().len() {
        let reached = cursor_at(src, cursor, line, place);
        return start_in_line(src, rule, reached, place);
    }
    Start {
        offset: src.text().len(),
        cursor,
    }
}

// Returns the start of the fault in the line of a cursor, which is at the position.
fn start_in_line(src: &Src, rule: StyleRule, cursor: Cursor, place: Position) -> Start
    requires cursor { IsCursor src.now.text src.now.lines cursor }
    requires line { cursor.line < length src.now.lines }
    requires number { place.line ≡ cursor.line + 1 }
    requires column { place.column ≡ cursor.column }
    ensures offset { StartOf src.now rule place result.offset }
    ensures boundary { IsCharBoundary src.now.text result.offset }
    ensures cursor { IsCursor src.now.text src.now.lines result.cursor }
{
    let line = src.lines().line(cursor.line);
    if place.column == 1 {
        if is_mark_rule(rule) {
            return Start {
                offset: line.start,
                cursor,
            };
        }
    }
    Start {
        offset: cursor.at,
        cursor,
    }
}

// Returns whether a rule is about byte order marks.
fn is_mark_rule(rule: StyleRule) -> bool
    ensures { result ≡ is_mark_rule rule }
{
    match rule {
        StyleRule::ByteOrderMark => true,
        _ => false,
    }
}

// Returns the cursor at a position in the line with that index.
fn cursor_at(src: &Src, cursor: Cursor, line: usize, place: Position) -> Cursor
    requires cursor { IsCursor src.now.text src.now.lines cursor }
    requires line { line < length src.now.lines }
    requires number { place.line ≡ line + 1 }
    requires place { InText src.now.text place }
    ensures cursor { IsCursor src.now.text src.now.lines result }
    ensures line { result.line ≡ line }
    ensures column { result.column ≡ place.column }
{
    let _line = src.lines().line(line);
    let from = nearest(src, cursor, line, place.column);
    let walked = walk(src.text(), from.at, from.column, place.column);
    Cursor {
        line,
        at: walked.at,
        column: walked.column,
    }
}

// Returns the cursor if it is in the line with that index and not after the column, and otherwise the start of the
// line.
fn nearest(src: &Src, cursor: Cursor, line: usize, column: usize) -> Cursor
    requires cursor { IsCursor src.now.text src.now.lines cursor }
    requires line { line < length src.now.lines }
    requires column { 1 ≤ column }
    ensures cursor { IsCursor src.now.text src.now.lines result }
    ensures line { result.line ≡ line }
    ensures column { result.column ≤ column }
{
    if cursor.line == line {
        if cursor.column <= column {
            return cursor;
        }
    }
    line_start(src, line)
}

/// Returns the cursor after the marks that begin the line with that index.
pub(crate) fn line_start(src: &Src, line: usize) -> Cursor
    ensures cursor { IsCursor src.now.text src.now.lines result }
    ensures line { result.line ≡ line }
    ensures column { result.column ≡ 1 }
{
    if line < src.lines().len() {
        return Cursor {
            line,
            at: skip_marks(src.text(), src.lines().line(line).start),
            column: 1,
        };
    }
    Cursor {
        line,
        at: 0,
        column: 1,
    }
}
