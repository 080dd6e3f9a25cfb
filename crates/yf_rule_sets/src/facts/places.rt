//! Finds the positions of byte offsets in one pass over the text.
ghost use Rattle.std.specs.Prelude.{◌≡◌, ◌<◌, ◌≤◌, ◌+◌, true, length, IfOk, IfSome, slice_get};
ghost use Rattle.std.specs.Str.{IsCharBoundary};
ghost use Rattle.yf_lines.specs.Lines.{LineHolds, PlaceOf};
ghost use Rattle.yf_rule_sets.specs.RuleSets.Columns.{ColumnsTo, IsColumn};
ghost use Rattle.yf_rule_sets.specs.RuleSets.Places.{IsCursor, PlacesOf};

use crate::facts::cursor::{Cursor, Located};
use crate::facts::line_starts::lines_begun;
use std::alloc::{AllocError, Global};
use yf_lines::line::Line;
use yf_lines::place::Position;
use yf_lines::source_text::Src;
use yf_lines::table::{column_from, skip_marks};

/// Returns the cursor after the byte order marks of the line of that index.
fn line_cursor(src: &Src, line: usize) -> Cursor
    ensures { IsCursor src.now.text src.now.lines result }
{
    if line < src.lines().len() {
        return Cursor {
            line,
            at: skip_marks(src.text(), src.lines().line(line).start),
            column: 1,
        };
    }
    Cursor {
        line,
        at: 0,
        column: 1,
    }
}

/// Returns a cursor in the line of that index, for a byte offset in it: after the spaces at the start of the line,
/// unless the offset is one of them or the end of the text.
#[inline(always)]
fn indent_cursor(src: &Src, line: usize, offset: usize) -> Cursor
    ensures { IsCursor src.now.text src.now.lines result }
{
    if line < src.lines().len() {
        let _text = src.text();
        let found = src.lines().line(line);
        if 0 < found.indent && offset < found.next && found.start <= offset {
            if found.indent <= offset - found.start {
                return Cursor {
                    line,
                    at: found.start + found.indent,
                    column: found.indent + 1,
                };
            }
        }
    }
    line_cursor(src, line)
}

/// Returns a cursor in the line that holds the byte offset. The search starts at the line of the first cursor.
fn forward(src: &Src, cursor: Cursor, offset: usize) -> Cursor
    requires { IsCursor src.now.text src.now.lines cursor }
    ensures { IsCursor src.now.text src.now.lines result }
{
    let line = lines_begun(src, cursor.line.saturating_add(1), offset).saturating_sub(1);
    if line == cursor.line {
        return cursor;
    }
    indent_cursor(src, line, offset)
}

/// Returns whether the line holds the byte offset. A last line without a break also holds the end of the text.
#[inline(always)]
fn holds(line: Line, offset: usize) -> bool
    ensures { result ≡ true → LineHolds line offset }
{
    if offset < line.start {
        return false;
    }
    if offset < line.next {
        return true;
    }
    if line.end == line.next {
        return offset == line.next;
    }
    false
}

/// Returns the position of a byte offset, searched from the first cursor on. An offset before that cursor in its line,
/// and the end of the text, is searched from the second cursor, which stays at the last of these offsets. So descending
/// offsets in a line take one pass.
fn place_from(src: &Src, from: Cursor, back: &mut Cursor, offset: usize) -> Located
    requires boundary { IsCharBoundary src.now.text offset }
    requires cursor { IsCursor src.now.text src.now.lines from }
    requires back { IsCursor src.now.text src.now.lines back.old }
    ensures place { PlaceOf src.now.text offset result.place.line result.place.column }
    ensures cursor { IsCursor src.now.text src.now.lines result.cursor }
    ensures back { IsCursor src.now.text src.now.lines back.new }
{
    let cursor = forward(src, from, offset);
    if cursor.line < src.lines().len() {
        let line = src.lines().line(cursor.line);
        if holds(line, offset) {
            if cursor.at <= offset && offset < line.next {
                return place_in_line(src, cursor, cursor.line + 1, offset);
            }
            let located = place_back(src, cursor, *back, cursor.line + 1, offset);
            *back = located.cursor;
            return Located {
                place: located.place,
                cursor,
            };
        }
    }
    Located {
        place: src.place(offset),
        cursor,
    }
}

/// Returns the position of a byte offset in the line of the first cursor, which has that number. The search starts from
/// the second cursor if it is in that line, otherwise from the first.
fn place_back(src: &Src, cursor: Cursor, back: Cursor, number: usize, offset: usize) -> Located
    requires boundary { IsCharBoundary src.now.text offset }
    requires cursor { IsCursor src.now.text src.now.lines cursor }
    requires back { IsCursor src.now.text src.now.lines back }
    requires line { cursor.line < length src.now.lines }
    requires number { number ≡ cursor.line + 1 }
    requires within { IfSome (slice_get src.now.lines cursor.line) (λ l. LineHolds l offset) }
    ensures place { PlaceOf src.now.text offset result.place.line result.place.column }
    ensures cursor { IsCursor src.now.text src.now.lines result.cursor }
{
    if back.line == cursor.line {
        return place_near(src, back, number, offset);
    }
    place_near(src, cursor, number, offset)
}

/// Returns the position of a byte offset before or after a cursor in its line, which has that number.
fn place_near(src: &Src, cursor: Cursor, number: usize, offset: usize) -> Located
    requires boundary { IsCharBoundary src.now.text offset }
    requires cursor { IsCursor src.now.text src.now.lines cursor }
    requires line { cursor.line < length src.now.lines }
    requires number { number ≡ cursor.line + 1 }
    requires within { IfSome (slice_get src.now.lines cursor.line) (λ l. LineHolds l offset) }
    ensures place { PlaceOf src.now.text offset result.place.line result.place.column }
    ensures cursor { IsCursor src.now.text src.now.lines result.cursor }
{
    if cursor.at <= offset {
        return place_in_line(src, cursor, number, offset);
    }
    if cursor.column == 1 {
        return place_at_mark(src, cursor, number, offset);
    }
    place_before(src, cursor, number, offset)
}

/// Returns the position of a byte offset after a cursor in its line, which has that number.
fn place_in_line(src: &Src, cursor: Cursor, number: usize, offset: usize) -> Located
    requires boundary { IsCharBoundary src.now.text offset }
    requires cursor { IsCursor src.now.text src.now.lines cursor }
    requires line { cursor.line < length src.now.lines }
    requires number { number ≡ cursor.line + 1 }
    requires within { IfSome (slice_get src.now.lines cursor.line) (λ l. LineHolds l offset) }
    requires order { cursor.at ≤ offset }
    ensures place { PlaceOf src.now.text offset result.place.line result.place.column }
    ensures cursor { IsCursor src.now.text src.now.lines result.cursor }
{
    let line = src.lines().line(cursor.line);
    let column = column_from(src.text(), cursor.at, cursor.column, offset);
    Located {
        place: Position {
            line: number,
            column,
        },
        cursor: Cursor {
            line: cursor.line,
            at: offset,
            column,
        },
    }
}

/// Returns the position of a byte offset among the marks of a line with that number. The cursor is after them.
fn place_at_mark(src: &Src, cursor: Cursor, number: usize, offset: usize) -> Located
    requires cursor { IsCursor src.now.text src.now.lines cursor }
    requires line { cursor.line < length src.now.lines }
    requires number { number ≡ cursor.line + 1 }
    requires within { IfSome (slice_get src.now.lines cursor.line) (λ l. LineHolds l offset) }
    requires order { offset < cursor.at }
    requires first { cursor.column ≡ 1 }
    ensures place { PlaceOf src.now.text offset result.place.line result.place.column }
    ensures cursor { result.cursor ≡ cursor }
{
    let _line = src.lines().line(cursor.line);
    Located {
        place: Position {
            line: number,
            column: 1,
        },
        cursor,
    }
}

/// Returns the position of a byte offset before a cursor in its line, which has that number. It counts the characters
/// between them: if they are fewer than the cursor's column, the offset is after the marks of the line, otherwise among
/// them.
fn place_before(src: &Src, cursor: Cursor, number: usize, offset: usize) -> Located
    requires boundary { IsCharBoundary src.now.text offset }
    requires cursor { IsCursor src.now.text src.now.lines cursor }
    requires line { cursor.line < length src.now.lines }
    requires number { number ≡ cursor.line + 1 }
    requires within { IfSome (slice_get src.now.lines cursor.line) (λ l. LineHolds l offset) }
    requires order { offset < cursor.at }
    ensures place { PlaceOf src.now.text offset result.place.line result.place.column }
    ensures cursor { IsCursor src.now.text src.now.lines result.cursor }
{
    let _line = src.lines().line(cursor.line);
    let count = column_from(src.text(), offset, 0, cursor.at);
    if count < cursor.column {
        let column = cursor.column - count;
        return Located {
            place: Position {
                line: number,
                column,
            },
            cursor: Cursor {
                line: cursor.line,
                at: offset,
                column,
            },
        };
    }
    Located {
        place: Position {
            line: number,
            column: 1,
        },
        cursor: line_cursor(src, cursor.line),
    }
}

/// Returns the column, from 0, of a byte offset, and the first cursor for the next call. The search starts from these
/// cursors. An offset within a character has column 0.
fn column_after(src: &Src, from: Cursor, back: &mut Cursor, offset: usize) -> (usize, Cursor)
    requires cursor { IsCursor src.now.text src.now.lines from }
    requires back { IsCursor src.now.text src.now.lines back.old }
    ensures column { IsCharBoundary src.now.text offset → IsColumn src.now.text offset result.0 }
    ensures cursor { IsCursor src.now.text src.now.lines result.1 }
    ensures back { IsCursor src.now.text src.now.lines back.new }
{
    if src.text().is_char_boundary(offset) {
        let located = place_from(src, from, back, offset);
        return (located.place.column.saturating_sub(1), located.cursor);
    }
    (0, from)
}

/// Returns the column, from 0, of each byte offset, in the order given. It takes one pass if the offsets ascend or
/// descend. An offset within a character has column 0.
pub fn columns_of(src: &Src, mut offsets: Vec<usize>) -> Vec<usize>
    ensures { ColumnsTo src.now.text offsets.items result.items (length offsets.items) }
{
    let mut cursor = line_cursor(src, 0);
    let mut back = cursor;
    for k in 0..offsets.len() {
        let (column, next) = column_after(src, cursor, &mut back, offsets[k]);
        offsets[k] = column;
        cursor = next;
    }
    offsets
}

/// Returns the positions of the byte offsets that have one, in the order given. It takes one pass if the offsets ascend
/// or descend.
pub fn known_positions(
    alloc: Global,
    src: &Src,
    offsets: &[usize],
) -> Result<Vec<Position>, AllocError>
    ensures { IfOk result (λ places. PlacesOf src.now.text offsets.now places.items) }
{
    let mut places = Vec::new(alloc);
    let mut cursor = line_cursor(src, 0);
    let mut back = cursor;
    for offset in offsets {
        if src.text().is_char_boundary(*offset) {
            let located = place_from(src, cursor, &mut back, *offset);
            cursor = located.cursor;
            places.push(located.place)?;
        }
    }
    Ok(places)
}
