//! Rule 11, line-length.
ghost use Rattle.std.specs.Prelude.{◌<◌, ◌≤◌, length, IfOk};
ghost use Rattle.std.specs.Str.{IsCharBoundary};
ghost use Rattle.yf_rule_sets.specs.RuleSets.ByLine.{BeyondLimit, IsAfterChars};
ghost use Rattle.yf_rule_sets.specs.RuleSets.Exact.{IsTheOne, Exactly};

use crate::facts::found::{FoundOffsets, Global, Src, Style, push_found};
pub use crate::rules::StyleRule::LineLength;
use yf_chars::text::peek;
use yf_lines::table::skip_marks;

/// Returns the first character past the longest line that the style allows, of each longer line.
pub fn offsets(alloc: Global, src: &Src, style: &Style) -> FoundOffsets
    ensures { IfOk result (λ offsets. Exactly (BeyondLimit src.now style.now.max_line) offsets.items) }
{
    let mut offsets = Vec::new(alloc);
    for k in 0..src.lines().len() {
        push_found(&mut offsets, beyond(src, k, style.max_line))?;
    }
    Ok(offsets)
}

/// Returns the byte offset after `count` characters of a line, if the line has more. A line with at most `count` bytes
/// has no more characters, so only longer lines are counted.
fn after_chars(text: &str, start: usize, end: usize, count: usize) -> Option<usize>
    requires start { IsCharBoundary text.now start }
    requires end { end ≤ length text.now }
    ensures { IsTheOne (IsAfterChars text.now start end count) result }
{
    if end.saturating_sub(start) <= count {
        return None;
    }
    let mut at = start;
    let mut passed = 0;
    while passed < count {
        if at >= end {
            return None;
        }
        match peek(text, at) {
            Some((_, next)) => at = next,
            None => return None,
        }
        passed += 1;
    }
    if at < end {
        return Some(at);
    }
    None
}

/// Returns the first character past the longest line that is allowed, if the line of that index is longer. Few lines
/// need this.
#[inline(never)]
fn beyond_far(src: &Src, k: usize, max_line: usize) -> Option<usize>
    requires { k < length src.now.lines }
    ensures { IsTheOne (BeyondLimit src.now max_line k) result }
{
    let line = src.lines().line(k);
    let start = skip_marks(src.text(), line.start);
    after_chars(src.text(), start, line.end, max_line)
}

/// Like `beyond_far`, but returns at once for most lines: those with at most `max_line` bytes, their break included.
#[inline(always)]
fn beyond(src: &Src, k: usize, max_line: usize) -> Option<usize>
    requires { k < length src.now.lines }
    ensures { IsTheOne (BeyondLimit src.now max_line k) result }
{
    let line = src.lines().line(k);
    if line.next.saturating_sub(line.start) <= max_line {
        return None;
    }
    beyond_far(src, k, max_line)
}
