//! Rule 1, trailing-blanks.
ghost use Rattle.std.specs.Prelude.{◌≡◌, ◌<◌, ℕ, false, length, IfOk};
ghost use Rattle.yf_rule_sets.specs.RuleSets.ByLine.{BlankEnd, TrailingBlank};
ghost use Rattle.yf_rule_sets.specs.RuleSets.Exact.{IsTheOne, Exactly};

use crate::facts::flagged_lines::content_lines;
use crate::facts::found::{FoundOffsets, Global, Reading, Src, push_found};
use crate::facts::whites::{ends_in_text, whites_before};
pub use crate::rules::StyleRule::TrailingBlanks;
use yf_lines::basic::is_white_at;

/// Returns the first character of the white space that ends a line, except on content lines of block scalars.
pub fn offsets(alloc: Global, src: &Src, reading: &Reading) -> FoundOffsets
    ensures { IfOk result (λ offsets. Exactly (TrailingBlank src.now reading.now) offsets.items) }
{
    if !has_blank_ends(src) {
        return Ok(Vec::new(alloc));
    }
    let content = content_lines(alloc, src, reading)?;
    let mut offsets = Vec::new(alloc);
    for k in 0..content.len() {
        push_found(&mut offsets, blank_end(src, k, content[k]))?;
    }
    Ok(offsets)
}

/// Returns whether white space ends any line, content lines of block scalars included. Few texts have such a line.
fn has_blank_ends(src: &Src) -> bool
    ensures { result ≡ false → (k o : ℕ) → BlankEnd src.now k false o → ⊥ }
{
    for k in 0..src.lines().len() {
        if ends_in_white(src, k) {
            return true;
        }
    }
    false
}

/// Returns whether white space ends the line of that index, which its last byte decides.
#[inline(always)]
fn ends_in_white(src: &Src, k: usize) -> bool
    requires { k < length src.now.lines }
    ensures { result ≡ false → (o : ℕ) → BlankEnd src.now k false o → ⊥ }
{
    if ends_in_text(src, k) {
        return false;
    }
    let line = src.lines().line(k);
    if line.end <= line.start {
        return false;
    }
    is_white_at(src.text(), line.end - 1)
}

/// Returns the start of the white space that ends the line of that index, unless it is a content line of a block
/// scalar.
#[inline(always)]
fn blank_end(src: &Src, k: usize, is_content: bool) -> Option<usize>
    requires { k < length src.now.lines }
    ensures { IsTheOne (BlankEnd src.now k is_content) result }
{
    if is_content {
        return None;
    }
    if ends_in_text(src, k) {
        return None;
    }
    let line = src.lines().line(k);
    let at = whites_before(src.text(), line.start, line.end);
    if at < line.end {
        return Some(at);
    }
    None
}
