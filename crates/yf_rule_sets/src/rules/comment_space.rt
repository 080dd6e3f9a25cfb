//! Rule 10, comment-space.
ghost use Rattle.std.specs.Prelude.{◌<◌, length, IfOk, MatchBool};
ghost use Rattle.yf_rule_sets.specs.RuleSets.Exact.{IsTheOne, Exactly};
ghost use Rattle.yf_rule_sets.specs.RuleSets.Whites.{CloseComment, IsClose, TwoSpaces};

use crate::facts::found::{FoundOffsets, Global, Reading, Src, push_found};
use crate::facts::whites::whites_before;
pub use crate::rules::StyleRule::CommentSpace;
use yf_chars::text::is_char_at;
use yf_lines::basic::is_line_start;

/// Returns the `#` of each comment that follows other text on its line, unless exactly two spaces are between them.
pub fn offsets(alloc: Global, src: &Src, reading: &Reading) -> FoundOffsets
    ensures { IfOk result (λ offsets. Exactly (CloseComment src.now.text reading.now) offsets.items) }
{
    let mut offsets = Vec::new(alloc);
    for k in 0..reading.comments().len() {
        push_found(&mut offsets, close(src, reading, k))?;
    }
    Ok(offsets)
}

/// Returns whether exactly two spaces are between the byte offsets.
fn are_two_spaces(text: &str, from: usize, to: usize) -> bool
    ensures { MatchBool result (TwoSpaces text.now from to) (TwoSpaces text.now from to → ⊥) }
{
    if to < 2 {
        return false;
    }
    if to - 2 != from {
        return false;
    }
    if is_char_at(text, from, b' ') {
        return is_char_at(text, from + 1, b' ');
    }
    false
}

/// Returns whether a comment follows other text on its line without exactly two spaces between them.
fn is_close(text: &str, offset: usize) -> bool
    ensures { MatchBool result (IsClose text.now offset) (IsClose text.now offset → ⊥) }
{
    let from = whites_before(text, 0, offset);
    if is_line_start(text, from) {
        return false;
    }
    if are_two_spaces(text, from, offset) {
        return false;
    }
    true
}

/// Returns the `#` of the comment of that index, if it is at fault.
fn close(src: &Src, reading: &Reading, k: usize) -> Option<usize>
    requires { k < length reading.now.comments }
    ensures { IsTheOne (CloseComment src.now.text reading.now k) result }
{
    let offset = reading.comments()[k].offset;
    if is_close(src.text(), offset) {
        return Some(offset);
    }
    None
}
