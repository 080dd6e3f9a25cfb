//! White space at the ends of lines and before comments.
ghost use Rattle.std.specs.Prelude.{◌≡◌, ◌-◌, ◌<◌, ◌≤◌, Some, true, false, length, slice_get, MatchBool};
ghost use Rattle.yf_chars.specs.Class.{is_white};
ghost use Rattle.yf_chars.specs.Text.{code};
ghost use Rattle.yf_lines.specs.declared.line.Line.{Line};
ghost use Rattle.yf_rule_sets.specs.RuleSets.QuestionMarks.{HasQuestionMark};
ghost use Rattle.yf_rule_sets.specs.RuleSets.Whites.{WhitesEnd};

use yf_chars::text::is_char_at;
use yf_events::event::Entry;
use yf_lines::basic::{is_white_at, is_white_or_end_at};
use yf_lines::line::Line;
use yf_lines::source_text::Src;

/// Returns the byte offset of the first of the white space directly before `end`, but not before `start`.
pub fn whites_before(text: &str, start: usize, end: usize) -> usize
    requires { start ≤ end }
    ensures whites { WhitesEnd text.now start end result }
    ensures order { result ≤ end }
{
    if end > text.len() {
        return end;
    }
    let mut at = end;
    while at > start {
        if !is_white_at(text, at - 1) {
            return at;
        }
        at -= 1;
    }
    at
}

/// Returns whether the line holds only white space, or nothing.
pub fn is_white_line(text: &str, line: Line) -> bool
    requires { line.start ≤ line.end }
    ensures { MatchBool result (WhitesEnd text.now line.start line.end line.start) (WhitesEnd text.now line.start line.end line.start → ⊥) }
{
    whites_before(text, line.start, line.end) == line.start
}

/// Returns `true` only if the line has text and does not end with white space. It looks at the byte before the line
/// feed, which suffices for most such lines.
#[inline(always)]
pub fn ends_in_text(src: &Src, k: usize) -> bool
    requires { k < length src.now.lines }
    ensures { result ≡ true → (l : Line) → slice_get src.now.lines k ≡ Some l
        → (l.start < l.end) × (is_white (code src.now.text (l.end - 1)) ≡ false) }
{
    let bytes = src.text().as_bytes();
    let line = src.lines().line(k);
    if line.next - line.start < 2 {
        return false;
    }
    if bytes[line.next - 1] != b'\n' {
        return false;
    }
    bytes[line.next - 2] > b' '
}

/// Returns whether an entry of a mapping is written with a `?`.
#[inline(always)]
pub fn has_question_mark(text: &str, entry: Entry) -> bool
    ensures { MatchBool result (HasQuestionMark text.now entry.start) (HasQuestionMark text.now entry.start → ⊥) }
{
    if is_char_at(text, entry.start, b'?') {
        return is_white_or_end_at(text, entry.start + 1);
    }
    false
}
