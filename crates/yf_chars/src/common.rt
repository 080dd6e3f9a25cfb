//! Texts of ASCII characters that double quotes hold unescaped. Two overlapping loads cover a short text.
ghost use Rattle.std.specs.Prelude.{◌+◌, ◌≤◌, length};
ghost use Rattle.yf_chars.specs.CommonParts.{TellsCommon};

use crate::escapes::is_common;
use std::simd::prelude::*;

#[inline(always)]
fn common_8(text: &[u8], at: usize) -> bool
    requires { at + 8 ≤ length text.now }
    ensures { TellsCommon result text.now at (at + 8) }
{
    let lanes = u8x8::from_slice(&text[at..]);
    if lanes.simd_eq(u8x8::splat(b'"')).to_bitmask() != 0 {
        return false;
    }
    if lanes.simd_eq(u8x8::splat(b'\\')).to_bitmask() != 0 {
        return false;
    }
    if lanes.simd_gt(u8x8::splat(b'~')).to_bitmask() != 0 {
        return false;
    }
    lanes.simd_lt(u8x8::splat(b' ')).to_bitmask() == 0
}

#[inline(always)]
fn common_16(text: &[u8], at: usize) -> bool
    requires { at + 16 ≤ length text.now }
    ensures { TellsCommon result text.now at (at + 16) }
{
    let lanes = u8x16::from_slice(&text[at..]);
    if lanes.simd_eq(u8x16::splat(b'"')).to_bitmask() != 0 {
        return false;
    }
    if lanes.simd_eq(u8x16::splat(b'\\')).to_bitmask() != 0 {
        return false;
    }
    if lanes.simd_gt(u8x16::splat(b'~')).to_bitmask() != 0 {
        return false;
    }
    lanes.simd_lt(u8x16::splat(b' ')).to_bitmask() == 0
}

#[inline(always)]
fn few_are_common(text: &[u8]) -> bool
    ensures { TellsCommon result text.now 0 (length text.now) }
{
    for i in 0..text.len() {
        if !is_common(text[i]) {
            return false;
        }
    }
    true
}

fn many_are_common(text: &[u8]) -> bool
    requires { 16 ≤ length text.now }
    ensures { TellsCommon result text.now 0 (length text.now) }
{
    let mut at = 0;
    while text.len() - at > 16 {
        if !common_16(text, at) {
            return false;
        }
        at += 16;
    }
    common_16(text, text.len() - 16)
}

/// Returns whether each byte is an ASCII character that needs no escape.
#[inline(always)]
pub(crate) fn all_common(text: &[u8]) -> bool
    ensures { TellsCommon result text.now 0 (length text.now) }
{
    let len = text.len();
    if len >= 16 {
        return many_are_common(text);
    }
    if len < 8 {
        return few_are_common(text);
    }
    if !common_8(text, 0) {
        return false;
    }
    common_8(text, len - 8)
}
