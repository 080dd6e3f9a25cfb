//! Tabs in a part of a text.
ghost use Rattle.std.specs.Prelude.{MatchBool};
ghost use Rattle.yf_ranges.specs.Details.{HasTab};

use yf_chars::text::is_char_at;

/// Returns whether a tab is from one byte offset to another.
pub fn has_tab(text: &str, start: usize, end: usize) -> bool
    ensures { MatchBool result (HasTab text.now start end) (HasTab text.now start end → ⊥) }
{
    for at in start..end {
        if is_char_at(text, at, b'\t') {
            return true;
        }
    }
    false
}
