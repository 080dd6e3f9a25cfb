//! Runs of characters that double quotes hold unescaped. Offsets count bytes.
ghost use Rattle.std.specs.Prelude.{◌≡◌, ◌∷◌, [], ◌+◌, ◌<◌, ◌≤◌, true, length, IfSome, IsCharBoundary};
ghost use Rattle.yf_chars.specs.Escape.{spelled};
ghost use Rattle.yf_quoted.specs.Own.{OwnAt, OwnRun};

use yf_chars::escapes::{is_by_four, is_common};
use yf_chars::text::peek;

// Returns whether an ASCII character that needs no escape begins at the offset.
#[inline(always)]
fn is_common_at(text: &str, at: usize) -> bool
    ensures { result ≡ true → OwnAt text.now at (at + 1) }
{
    let bytes = text.as_bytes();
    if at < bytes.len() {
        return is_common(bytes[at]);
    }
    false
}

// Returns whether the character needs no escape and isn't ASCII.
#[inline(always)]
fn is_wide(c: char) -> bool
    ensures { result ≡ true → spelled c ≡ c ∷ [] }
{
    if c <= '\u{A0}' {
        return false;
    }
    if is_by_four(c) {
        return false;
    }
    true
}

// Returns the offset after such a character.
#[inline(always)]
fn wide_end(text: &str, at: usize) -> Option<usize>
    requires { IsCharBoundary text.now at }
    ensures { IfSome result (λ j. OwnAt text.now at j) }
{
    match peek(text, at) {
        None => None,
        Some((c, end)) => {
            if is_wide(c) {
                return Some(end);
            }
            None
        }
    }
}

// Returns the offset after all characters there that need no escape.
#[inline(always)]
pub(crate) fn own_run(text: &str, at: usize) -> usize
    requires { IsCharBoundary text.now at }
    ensures reads { OwnRun text.now at result }
    ensures boundary { IsCharBoundary text.now result }
    ensures order { at ≤ result }
{
    let mut end = at;
    'chars: loop {
        if is_common_at(text, end) {
            end += 1;
        } else {
            match wide_end(text, end) {
                None => return end,
                Some(next) => end = next,
            }
        }
    }
}

/// Returns whether an ASCII character that is written as an escape begins there.
#[inline(always)]
pub(crate) fn is_escape_at(text: &str, at: usize) -> bool
    ensures { result ≡ true → at < length text.now }
{
    let bytes = text.as_bytes();
    if at < bytes.len() {
        if bytes[at] < 128 {
            return !is_common(bytes[at]);
        }
    }
    false
}
