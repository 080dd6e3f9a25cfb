//! Characters that one test classifies for plain scalars. Offsets count bytes.
ghost use Rattle.std.specs.Prelude.{◌≡◌, ◌+◌, ◌≤◌, length, false, true};
ghost use Rattle.yf_chars.specs.Class.{is_between, is_white};
ghost use Rattle.yf_chars.specs.Lanes.{LaneRun};
ghost use Rattle.yf_chars.specs.Text.{code};
ghost use Rattle.yf_chars.specs.declared.context.Ctx.{Ctx};
ghost use Rattle.yf_lines.specs.Basic.{is_block};
ghost use Rattle.yf_plain.specs.Ordinary.{is_letter, is_ordinary, is_outer, EndAt, LetterAt, OrdinaryAt};

use std::simd::prelude::*;
use yf_chars::lanes::lanes_before;
use yf_chars::text::is_char_at;

// Returns whether a plain scalar may contain the ASCII character beside any character, in each context of scalars.
#[tactic(auto, unfolding(crate::specs::Ordinary::is_ordinary, yf_chars::specs::Class::is_between))]
#[inline(always)]
fn is_ordinary(byte: u8) -> bool
    ensures { result ≡ is_ordinary byte }
{
    if byte < b'[' {
        return matches!(byte, b'$'..=b'+' | b'-'..=b'9' | b';'..=b'Z');
    }
    matches!(byte, b'\\' | b'^'..=b'z' | b'|' | b'~')
}

/// Returns whether such a character begins at the offset.
#[inline(always)]
pub(crate) fn is_ordinary_at(s: &str, at: usize) -> bool
    ensures { result ≡ true → (c : Ctx) → is_block c ≡ false → OrdinaryAt s.now c at }
{
    let bytes = s.as_bytes();
    if at < bytes.len() {
        return is_ordinary(bytes[at]);
    }
    false
}

/// Returns the number of such characters at the offset, within 16 bytes.
#[inline(always)]
pub(crate) fn ordinary_lanes(bytes: &[u8], at: usize) -> usize
    requires { at + 16 ≤ length bytes.now }
    ensures { LaneRun is_ordinary bytes.now at result }
{
    let lanes = u8x16::from_slice(&bytes[at..]);
    let lower = lanes | u8x16::splat(0x20);
    let from_dollar = lanes - u8x16::splat(b'$');
    let others = from_dollar.simd_ge(u8x16::splat(91))
        | lanes.simd_eq(u8x16::splat(b':'))
        | lanes.simd_eq(u8x16::splat(b','))
        | lower.simd_eq(u8x16::splat(b'{'))
        | lower.simd_eq(u8x16::splat(b'}'));
    lanes_before(others.to_bitmask())
}

/// Returns that number outside flow collections, where commas and brackets count too.
#[inline(always)]
pub(crate) fn outer_lanes(bytes: &[u8], at: usize) -> usize
    requires { at + 16 ≤ length bytes.now }
    ensures { LaneRun is_outer bytes.now at result }
{
    let lanes = u8x16::from_slice(&bytes[at..]);
    let from_dollar = lanes - u8x16::splat(b'$');
    let others = from_dollar.simd_ge(u8x16::splat(91)) | lanes.simd_eq(u8x16::splat(b':'));
    lanes_before(others.to_bitmask())
}

/// Returns whether the byte may be such a character. Before white space, breaks and wider characters, the 16 bytes
/// aren't tested.
#[tactic(auto, unfolding(yf_chars::specs::Class::is_between))]
#[inline(always)]
pub(crate) fn is_worth_a_look(byte: u8) -> bool
    ensures { result ≡ is_between 0x24 0x7E byte }
{
    matches!(byte, b'$'..=b'~')
}

// Returns whether the byte is a letter, a digit or `_`. Most are lower-case letters, which take two tests.
#[tactic(auto, unfolding(crate::specs::Ordinary::is_letter, yf_chars::specs::Class::is_between))]
#[inline(always)]
fn is_letter(byte: u8) -> bool
    ensures { result ≡ is_letter byte }
{
    if byte < b'a' {
        return matches!(byte, b'0'..=b'9' | b'A'..=b'Z' | b'_');
    }
    byte <= b'z'
}

/// Returns whether a letter, a digit or `_` is at the offset. It may begin a plain scalar.
#[inline(always)]
pub(crate) fn is_letter_at(s: &str, at: usize) -> bool
    ensures { result ≡ true → LetterAt s.now at }
{
    let bytes = s.as_bytes();
    if at < bytes.len() {
        return is_letter(bytes[at]);
    }
    false
}

/// Returns whether a character above `:` is at the offset. It is neither white space nor the end of a line, which are
/// all ASCII, so the tests for these are not needed. The first byte of a character beyond ASCII is above `:` too.
#[inline(always)]
pub(crate) fn is_text_at(s: &str, at: usize) -> bool
    ensures { result ≡ true → is_white (code s.now at) ≡ false }
{
    let bytes = s.as_bytes();
    if at < bytes.len() {
        if bytes[at] > b':' {
            return true;
        }
    }
    false
}

/// Returns whether a line feed, or a `:` before a space or a line feed, is at the offset. Both end the line of a plain
/// scalar.
#[inline(always)]
pub(crate) fn is_end_at(s: &str, at: usize) -> bool
    ensures { result ≡ true → EndAt s.now at }
{
    let bytes = s.as_bytes();
    if at < bytes.len() {
        if bytes[at] > b':' {
            return false;
        }
    }
    if is_char_at(s, at, b'\n') {
        return true;
    }
    if is_char_at(s, at, b':') {
        if is_char_at(s, at + 1, b' ') {
            return true;
        }
        if is_char_at(s, at + 1, b'\n') {
            return true;
        }
    }
    false
}
