//! Reads classes: the part of a segment between `[` and `]`.
ghost use Rattle.std.specs.Prelude.{◌≡◌, ◌↔◌, ◌<◌, ◌≤◌, ℕ, IfOk, IfSome, IsTrue, MatchOption, length};
ghost use Rattle.yf_excludes.specs.Classes.{ClassAt, ClassByte, Closes, IsNamedClass, IsRangeSign, MemberAt, MembersAt, NoMembers, negates};

use crate::atom::{ByteRange, Class};
use std::alloc::{AllocError, Global};

// Returns the byte at an offset and its end: one byte, or the byte after a backslash.
fn read_byte(text: &[u8], at: usize) -> Option<(u8, usize)>
    ensures read { MatchOption result ((b j : ℕ) → ¬ (ClassByte text.now at b j)) (λ p. ClassByte text.now at p.0 p.1) }
    ensures forward { IfSome result (λ p. (at < p.1) × (p.1 ≤ length text.now)) }
{
    if at >= text.len() {
        return None;
    }
    let byte = text[at];
    if byte == b'\\' {
        if at + 1 == text.len() {
            return None;
        }
        return Some((text[at + 1], at + 2));
    }
    if is_named_class(text, at) {
        return None;
    }
    Some((byte, at + 1))
}

// Returns whether `[:` is at the offset.
fn is_named_class(text: &[u8], at: usize) -> bool
    ensures { IsTrue result ↔ IsNamedClass text.now at }
{
    at < text.len() && text[at] == b'[' && at + 1 < text.len() && text[at + 1] == b':'
}

// Returns whether a `-` between the ends of a range is at the offset.
fn is_range_sign(text: &[u8], at: usize) -> bool
    ensures { IsTrue result ↔ IsRangeSign text.now at }
{
    at < text.len() && text[at] == b'-' && at + 1 < text.len() && text[at + 1] != b']'
}

// Returns the member of a class at an offset, and its end.
fn read_member(text: &[u8], at: usize) -> Option<(ByteRange, usize)>
    ensures read { MatchOption result ((r : ByteRange) (j : ℕ) → ¬ (MemberAt text.now at r j))
        (λ p. MemberAt text.now at p.0 p.1) }
    ensures forward { IfSome result (λ p. (at < p.1) × (p.1 ≤ length text.now)) }
{
    match read_byte(text, at) {
        None => None,
        Some((first, end)) => {
            if is_range_sign(text, end) {
                read_range(text, at, first, end)
            } else {
                Some((ByteRange { first, last: first }, end))
            }
        }
    }
}

// Returns the range after its first byte and sign, and its end.
fn read_range(text: &[u8], at: usize, first: u8, sign: usize) -> Option<(ByteRange, usize)>
    requires first_read { ClassByte text.now at first sign }
    requires signed { IsRangeSign text.now sign }
    requires after { at < sign }
    ensures read { MatchOption result ((r : ByteRange) (j : ℕ) → ¬ (MemberAt text.now at r j))
        (λ p. MemberAt text.now at p.0 p.1) }
    ensures forward { IfSome result (λ p. (at < p.1) × (p.1 ≤ length text.now)) }
{
    match read_byte(text, sign + 1) {
        None => None,
        Some((last, end)) => Some((ByteRange { first, last }, end)),
    }
}

// Returns whether a `]` that ends the class is at the offset.
fn closes(text: &[u8], start: usize, at: usize) -> bool
    ensures { IsTrue result ↔ Closes text.now start at }
{
    at != start && at < text.len() && text[at] == b']'
}

// Returns the members of a class from its start on, and its end.
fn read_members(
    alloc: Global,
    text: &[u8],
    start: usize,
) -> Result<Option<(Vec<ByteRange>, usize)>, AllocError>
    ensures { IfOk result (λ o. MatchOption o (NoMembers text.now start)
        (λ p. MembersAt text.now start start p.0.items p.1 × (start < p.1) × (p.1 ≤ length text.now))) }
{
    let mut ranges = Vec::new(alloc);
    let mut at = start;
    'members: while !closes(text, start, at) {
        match read_member(text, at) {
            None => return Ok(None),
            Some((range, end)) => {
                ranges.push(range)?;
                at = end;
            }
        }
    }
    Ok(Some((ranges, at + 1)))
}

// Returns whether the class with its first byte at the offset is negated.
fn is_negated(text: &[u8], at: usize) -> bool
    ensures read { result ≡ negates text.now at }
    ensures within { IsTrue result → at < length text.now }
{
    at < text.len() && (text[at] == b'!' || text[at] == b'^')
}

/// Returns the class whose first byte, after its `[`, is at the offset, and the offset after its `]`. Returns `None` if
/// no `]` ends the class, or if `[:` is in it.
pub fn read_class(
    alloc: Global,
    text: &[u8],
    at: usize,
) -> Result<Option<(Class, usize)>, AllocError>
    requires { at ≤ length text.now }
    ensures { IfOk result (λ o. MatchOption o ((k : Class) (j : ℕ) → ¬ (ClassAt text.now at k j))
        (λ p. ClassAt text.now at p.0 p.1 × (at < p.1) × (p.1 ≤ length text.now))) }
{
    let negated = is_negated(text, at);
    let start = if negated { at + 1 } else { at };
    match read_members(alloc, text, start)? {
        None => Ok(None),
        Some((ranges, end)) => Ok(Some((Class { negated, ranges }, end))),
    }
}
