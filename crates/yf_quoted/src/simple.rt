//! Characters that represent themselves in double quotes, one by one and in runs. Offsets count bytes.
ghost use Rattle.std.specs.Prelude.{◌≡◌, ◌+◌, ◌<◌, ◌≤◌, ℕ, Bool, true, List, IfSome, IsCharBoundary, MatchOption, length};
ghost use Rattle.yf_chars.specs.Chain.{Chain};
ghost use Rattle.yf_chars.specs.Class.{is_between};
ghost use Rattle.yf_chars.specs.Common.{is_common};
ghost use Rattle.yf_chars.specs.Lanes.{LaneRun};
ghost use Rattle.yf_lines.specs.Basic.{ForbiddenLine};
ghost use Rattle.yf_quoted.specs.Body.{Simple, NoSimple, SimpleChar};
ghost use Rattle.yf_quoted.specs.Ordinary.{is_ordinary, Words};

use std::simd::prelude::*;
use yf_chars::classes::is_nb_json;
use yf_chars::lanes::lanes_before;
use yf_chars::text::{is_char_at, peek};
use yf_lines::basic::{is_forbidden_at, is_white_at};

// Returns whether the ASCII character represents itself wherever it is. Most are lower-case letters, which take two
// tests.
#[tactic(auto, unfolding(crate::specs::Ordinary::is_ordinary, yf_chars::specs::Class::is_between))]
#[inline(always)]
fn is_ordinary(byte: u8) -> bool
    ensures { result ≡ is_ordinary byte }
{
    if byte < b']' {
        return matches!(byte, b' ' | b'!' | b'#'..=b',' | b'/'..=b'[');
    }
    byte <= b'~'
}

// Returns whether such a character begins at the offset.
#[inline(always)]
fn is_simple_at(s: &str, at: usize) -> bool
    ensures { result ≡ true → Simple s.now at (at + 1) }
{
    let bytes = s.as_bytes();
    if at < bytes.len() {
        return is_ordinary(bytes[at]);
    }
    false
}

// Returns the number of ASCII characters other than `"` and `\` at the offset, within 16 bytes.
#[inline(always)]
fn common_lanes(bytes: &[u8], at: usize) -> usize
    requires { at + 16 ≤ length bytes.now }
    ensures { LaneRun is_common bytes.now at result }
{
    let lanes = u8x16::from_slice(&bytes[at..]);
    let from_space = lanes - u8x16::splat(b' ');
    let others = from_space.simd_ge(u8x16::splat(95))
        | lanes.simd_eq(u8x16::splat(b'"'))
        | lanes.simd_eq(u8x16::splat(b'\\'));
    lanes_before(others.to_bitmask())
}

// Returns whether the byte is a printable ASCII character.
#[tactic(auto, unfolding(yf_chars::specs::Class::is_between))]
#[inline(always)]
fn is_visible(byte: u8) -> bool
    ensures { result ≡ is_between 0x20 0x7E byte }
{
    matches!(byte, b' '..=b'~')
}

// Returns whether such a character ends at the offset: then no line starts there.
#[inline(always)]
fn text_ends(s: &str, at: usize) -> bool
    requires { at ≤ length s.now }
    ensures { result ≡ true → ForbiddenLine s.now at → ⊥ }
{
    if at == 0 {
        return false;
    }
    let bytes = s.as_bytes();
    is_visible(bytes[at - 1])
}

// Returns the offset after such characters. If fewer than 16 bytes follow, it passes all of them. Otherwise it passes
// those of the next 16 bytes, including - and ., if a printable ASCII character is before the offset; if not, it passes
// none, and the caller looks at one character.
#[inline(always)]
pub(crate) fn ordinary_run(s: &str, at: usize) -> usize
    requires { IsCharBoundary s.now at }
    ensures reads { (x : List ℕ) × Chain (SimpleChar s.now) at result x }
    ensures boundary { IsCharBoundary s.now result }
    ensures order { at ≤ result }
{
    let bytes = s.as_bytes();
    if bytes.len() - at >= 16 {
        if text_ends(s, at) {
            return at + common_lanes(bytes, at);
        }
        return at;
    }
    let mut end = at;
    while is_simple_at(s, end) {
        end += 1;
    }
    end
}

// Returns whether a character that isn't ASCII begins there. The readers don't look for a run before it.
#[inline(always)]
pub(crate) fn is_wide_at(s: &str, at: usize) -> bool
    ensures { result ≡ true → at < length s.now }
{
    let bytes = s.as_bytes();
    if at < bytes.len() {
        return bytes[at] >= 128;
    }
    false
}

// Returns the offset after a character that represents itself.
#[inline(always)]
pub(crate) fn simple_char(s: &str, at: usize) -> Option<usize>
    requires { IsCharBoundary s.now at }
    ensures reads { MatchOption result (NoSimple s.now at) (λ j. Simple s.now at j) }
    ensures boundary { IfSome result (λ j. IsCharBoundary s.now j) }
    ensures order { IfSome result (λ j. at < j) }
{
    match peek(s, at) {
        None => None,
        Some((c, end)) => {
            if !is_nb_json(c) {
                return None;
            }
            if c == '"' {
                return None;
            }
            if c == '\\' {
                return None;
            }
            if is_forbidden_at(s, at) {
                return None;
            }
            Some(end)
        }
    }
}

// Returns the offset after all characters that represent themselves there, with white space between them. It passes
// none if an escape begins there. The clause also allows fewer characters, even none: reading is then slower, but
// returns the same text.
pub(crate) fn words_end(s: &str, at: usize) -> usize
    requires { IsCharBoundary s.now at }
    ensures reads { Words s.now at result }
    ensures boundary { IsCharBoundary s.now result }
    ensures order { at ≤ result }
{
    if is_char_at(s, at, b'\\') {
        return at;
    }
    let mut end = at;
    let mut next = at;
    'chars: loop {
        if is_white_at(s, next) {
            next += 1;
        } else if is_simple_at(s, next) {
            next += 1;
            end = next;
        } else {
            match simple_char(s, next) {
                None => return end,
                Some(after) => {
                    next = after;
                    end = after;
                }
            }
        }
    }
}
