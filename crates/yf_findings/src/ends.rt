//! The position at which the fault of a finding ends.
ghost use Rattle.std.specs.Prelude.{◌≡◌, ◌+◌, ◌<◌, ◌≤◌, length, slice_get, IfSome};
ghost use Rattle.std.specs.Str.{IsCharBoundary};
ghost use Rattle.yf_lines.specs.Lines.{PlaceOf};
ghost use Rattle.yf_rule_sets.specs.RuleSets.Places.{IsCursor};

use yf_lines::place::Position;
use yf_lines::source_text::Src;
use yf_lines::table::column_from;
use yf_rule_sets::facts::cursor::Cursor;

/// Returns the position of an offset. If the offset is in the line of the cursor and not before it, only the
/// characters after the cursor are counted.
pub(crate) fn end_place(src: &Src, cursor: Cursor, end: usize) -> Position
    requires cursor { IsCursor src.now.text src.now.lines cursor }
    requires boundary { IsCharBoundary src.now.text end }
    ensures { PlaceOf src.now.text end result.line result.column }
{
    if cursor.line < src.lines().len() {
        if cursor.at <= end {
            if end < src.lines().line(cursor.line).next {
                return place_in_line(src, cursor, cursor.line + 1, end);
            }
        }
    }
    src.place(end)
}

// Returns the position of an offset in the line of a cursor, which has that number. The offset is not before the
// cursor.
fn place_in_line(src: &Src, cursor: Cursor, number: usize, end: usize) -> Position
    requires cursor { IsCursor src.now.text src.now.lines cursor }
    requires boundary { IsCharBoundary src.now.text end }
    requires line { cursor.line < length src.now.lines }
    requires number { number ≡ cursor.line + 1 }
    requires order { cursor.at ≤ end }
    requires within { IfSome (slice_get src.now.lines cursor.line) (λ l. end < l.next) }
    ensures { PlaceOf src.now.text end result.line result.column }
{
    let _line = src.lines().line(cursor.line);
    Position {
        line: number,
        column: column_from(src.text(), cursor.at, cursor.column, end),
    }
}
