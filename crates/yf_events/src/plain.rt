//! Whether the notation has a text unchanged. Two loads that overlap cover a short text.
ghost use Rattle.std.specs.Prelude.{◌+◌, ◌≤◌, length};
ghost use Rattle.std.specs.Bool.{OnTrue};
ghost use Rattle.yf_events.specs.Plain.{PlainBetween};

use crate::escapes::is_escaped;
use std::simd::prelude::*;

#[inline(always)]
fn plain_4(text: &[u8], at: usize) -> bool
    requires { at + 4 ≤ length text.now }
    ensures { OnTrue result (PlainBetween text.now at (at + 4)) }
{
    let lanes = u8x4::from_slice(&text[at..]);
    if lanes.simd_eq(u8x4::splat(b'\\')).to_bitmask() != 0 {
        return false;
    }
    lanes.simd_lt(u8x4::splat(0x20)).to_bitmask() == 0
}

#[inline(always)]
fn plain_8(text: &[u8], at: usize) -> bool
    requires { at + 8 ≤ length text.now }
    ensures { OnTrue result (PlainBetween text.now at (at + 8)) }
{
    let lanes = u8x8::from_slice(&text[at..]);
    if lanes.simd_eq(u8x8::splat(b'\\')).to_bitmask() != 0 {
        return false;
    }
    lanes.simd_lt(u8x8::splat(0x20)).to_bitmask() == 0
}

#[inline(always)]
fn plain_16(text: &[u8], at: usize) -> bool
    requires { at + 16 ≤ length text.now }
    ensures { OnTrue result (PlainBetween text.now at (at + 16)) }
{
    let lanes = u8x16::from_slice(&text[at..]);
    if lanes.simd_eq(u8x16::splat(b'\\')).to_bitmask() != 0 {
        return false;
    }
    lanes.simd_lt(u8x16::splat(0x20)).to_bitmask() == 0
}

#[inline(always)]
fn plain_few(text: &[u8]) -> bool
    ensures { OnTrue result (PlainBetween text.now 0 (length text.now)) }
{
    for i in 0..text.len() {
        if is_escaped(text[i]) {
            return false;
        }
    }
    true
}

fn plain_long(text: &[u8]) -> bool
    requires { 16 ≤ length text.now }
    ensures { OnTrue result (PlainBetween text.now 0 (length text.now)) }
{
    let mut at = 0;
    while text.len() - at > 16 {
        if !plain_16(text, at) {
            return false;
        }
        at += 16;
    }
    plain_16(text, text.len() - 16)
}

/// Returns how many bytes from the start on are surely not escaped: whole runs of sixteen.
pub fn plain_runs(text: &[u8]) -> usize
    ensures within { result ≤ length text.now }
    ensures plain { PlainBetween text.now 0 result }
{
    let mut at = 0;
    while text.len() - at >= 16 {
        if !plain_16(text, at) {
            return at;
        }
        at += 16;
    }
    at
}

/// Returns whether no byte of the text is escaped.
#[inline(always)]
pub fn is_plain(text: &[u8]) -> bool
    ensures { OnTrue result (PlainBetween text.now 0 (length text.now)) }
{
    let len = text.len();
    if len >= 16 {
        plain_long(text)
    } else if len >= 8 {
        plain_8(text, 0) && plain_8(text, len - 8)
    } else if len >= 4 {
        plain_4(text, 0) && plain_4(text, len - 4)
    } else {
        plain_few(text)
    }
}
