//! Finds a line feed in a text. Two loads that overlap cover a short text.
ghost use Rattle.std.specs.Prelude.{◌≡◌, ◌+◌, ◌≤◌, length};
ghost use Rattle.yf_lines.specs.Feeds.{TellsClear};
ghost use Rattle.yf_lines.specs.Steady.{has_line_feed};

use std::simd::prelude::*;

#[inline(always)]
fn clear_4(text: &[u8], at: usize) -> bool
    requires { at + 4 ≤ length text.now }
    ensures { TellsClear result text.now at (at + 4) }
{
    let lanes = u8x4::from_slice(&text[at..]);
    lanes.simd_eq(u8x4::splat(b'\n')).to_bitmask() == 0
}

#[inline(always)]
fn clear_8(text: &[u8], at: usize) -> bool
    requires { at + 8 ≤ length text.now }
    ensures { TellsClear result text.now at (at + 8) }
{
    let lanes = u8x8::from_slice(&text[at..]);
    lanes.simd_eq(u8x8::splat(b'\n')).to_bitmask() == 0
}

#[inline(always)]
fn clear_16(text: &[u8], at: usize) -> bool
    requires { at + 16 ≤ length text.now }
    ensures { TellsClear result text.now at (at + 16) }
{
    let lanes = u8x16::from_slice(&text[at..]);
    lanes.simd_eq(u8x16::splat(b'\n')).to_bitmask() == 0
}

#[inline(always)]
fn few_are_clear(text: &[u8]) -> bool
    ensures { TellsClear result text.now 0 (length text.now) }
{
    for i in 0..text.len() {
        if text[i] == b'\n' {
            return false;
        }
    }
    true
}

fn many_are_clear(text: &[u8]) -> bool
    requires { 16 ≤ length text.now }
    ensures { TellsClear result text.now 0 (length text.now) }
{
    let mut at = 0;
    while text.len() - at > 16 {
        if !clear_16(text, at) {
            return false;
        }
        at += 16;
    }
    clear_16(text, text.len() - 16)
}

#[inline(always)]
fn all_clear(text: &[u8]) -> bool
    ensures { TellsClear result text.now 0 (length text.now) }
{
    let len = text.len();
    if len >= 16 {
        return many_are_clear(text);
    }
    if len >= 8 {
        if !clear_8(text, 0) {
            return false;
        }
        return clear_8(text, len - 8);
    }
    if len < 4 {
        return few_are_clear(text);
    }
    if !clear_4(text, 0) {
        return false;
    }
    clear_4(text, len - 4)
}

/// Returns whether a text has a line feed.
#[inline(always)]
pub(crate) fn has_feed(text: &[u8]) -> bool
    ensures { result ≡ has_line_feed text.now }
{
    !all_clear(text)
}
