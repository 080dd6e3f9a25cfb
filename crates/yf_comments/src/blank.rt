//! Looks for a blank line before an offset.
ghost use Rattle.std.specs.Prelude.{◌≡◌, ◌≢◌, ◌-◌, ◌<◌, ◌≤◌, ℕ, MatchBool, MatchOption, length, ⊤};
ghost use Rattle.yf_chars.specs.Signs.{CARRIAGE_RETURN, LINE_FEED};
ghost use Rattle.yf_chars.specs.Text.{code};
ghost use Rattle.yf_lines.specs.Basic.{Break};
ghost use Rattle.yf_comments.specs.Comments.{Blank, BlankBefore};

use yf_chars::text::is_char_at;
use yf_lines::basic::{is_white_at, mark_ends};

// Returns the offset of the break that ends at the offset.
fn break_before(s: &str, at: usize) -> Option<usize>
    ensures { MatchOption result ((i : ℕ) → Break s.now i at → ⊥) (λ i. Break s.now i at) }
{
    if at == 0 {
        return None;
    }
    if is_char_at(s, at - 1, b'\n') {
        if is_char_at(s, at.saturating_sub(2), b'\r') {
            return Some(at - 2);
        }
        return Some(at - 1);
    }
    if is_char_at(s, at - 1, b'\r') {
        if is_char_at(s, at, b'\n') {
            return None;
        }
        return Some(at - 1);
    }
    None
}

/// Returns whether a line with only white space is before the offset, with nothing but white space, line breaks and
/// byte order marks between.
///
/// The walk back ends at the first other character, so walks from different comments don't overlap.
#[inline]
pub fn is_blank_before(s: &str, at: usize) -> bool
    requires { code s.now at ≡ LINE_FEED → code s.now (at - 1) ≢ CARRIAGE_RETURN }
    ensures { MatchBool result (BlankBefore s.now at) (BlankBefore s.now at → ⊥) }
{
    if visible_ends(s, at) {
        return false;
    }
    if at == 0 {
        return false;
    }
    if visible_ends(s, at - 1) {
        if is_char_at(s, at - 1, b' ') {
            return false;
        }
        if is_char_at(s, at - 1, b'\n') {
            return false;
        }
    }
    walk_back(s, at)
}

// Returns whether a visible ASCII character ends at the offset.
#[inline(always)]
fn visible_ends(s: &str, at: usize) -> bool
    ensures before { MatchBool result (BlankBefore s.now at → ⊥) ⊤ }
    ensures blank { MatchBool result (Blank s.now at → ⊥) ⊤ }
    ensures sign { MatchBool result (code s.now (at - 1) ≢ CARRIAGE_RETURN) ⊤ }
{
    let bytes = s.as_bytes();
    if at == 0 {
        return false;
    }
    if at > bytes.len() {
        return false;
    }
    if bytes[at - 1] <= b' ' {
        return false;
    }
    if bytes[at - 1] > b'~' {
        return false;
    }
    true
}

// Returns `is_blank_before` by a walk back from the offset.
#[inline(never)]
fn walk_back(s: &str, at: usize) -> bool
    requires { code s.now at ≡ LINE_FEED → code s.now (at - 1) ≢ CARRIAGE_RETURN }
    ensures { MatchBool result (BlankBefore s.now at) (BlankBefore s.now at → ⊥) }
{
    let mut place = at;
    // whether only white space is between `place` and a line break
    let mut blank = false;
    'back: while place > 0 {
        if is_white_at(s, place - 1) {
            place -= 1;
            continue;
        }
        if mark_ends(s, place) {
            place -= 3;
            blank = false;
            continue;
        }
        match break_before(s, place) {
            Some(start) => {
                if blank {
                    return true;
                }
                place = start;
                blank = true;
            }
            None => return false,
        }
    }
    blank
}
