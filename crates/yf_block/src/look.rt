//! Tests at an offset in a block node, and walks that read nothing.
ghost use Rattle.std.specs.List.{prefix_len};
ghost use Rattle.std.specs.Prelude.{◌≡◌, ◌≢◌, ◌+◌, ◌-◌, ◌<◌, ◌≤◌, true, false, not, nat_lt, ℕ, IfSome, MatchBool, MatchOption, length, ⊤};
ghost use Rattle.std.specs.Simd.Lanes.{chunk};
ghost use Rattle.std.specs.Str.{IsCharBoundary};
ghost use Rattle.yf_chars.specs.Text.{code};
ghost use Rattle.yf_chars.specs.Boundary.{BoundaryFrom};
ghost use Rattle.yf_lines.specs.Basic.{Break, Spaces};
ghost use Rattle.yf_comments.specs.Comments.{Blank};
ghost use Rattle.yf_grammar.specs.BlockReader.BlockParser.{DashAt, LineText, LinesEnd, SignAt};
ghost use Rattle.yf_grammar.specs.Productions.BlockScalar.{LinesBetween};
ghost use Rattle.yf_grammar.specs.Productions.ReadParts.{NotedSince};
ghost use Rattle.yf_flow.specs.Leaves.{KeyLine};
ghost use Rattle.yf_block.specs.InlineAnswers.{KeyEnds};
ghost use Rattle.yf_block.specs.InlineTied.{EntrySignAt};
ghost use Rattle.yf_block.specs.LastStarts.{LastStartIs};
ghost use Rattle.yf_block.specs.LookTests.{EntryPlace, LineEndsAt, NotWithinBreak};
ghost use Rattle.yf_block.specs.WalksBack.{WalksBack};

use std::simd::prelude::*;
use yf_chars::classes::is_ns_char;
use yf_chars::text::{is_char_at, peek};
use yf_flow::look::is_key_line;
use yf_lines::basic::{
    break_ends, is_forbidden_at, is_mark_at, is_white_at, is_white_or_end_at, line_break,
    mark_ends, next_break, skip_spaces, skip_whites,
};

/// Returns whether the `-` of an entry is at the offset (c-l-block-seq-entry, production 184).
pub(crate) fn is_dash_at(text: &str, at: usize) -> bool
    ensures boundary { result ≡ true → IsCharBoundary text.now (at + 1) }
    ensures cases { MatchBool result (DashAt text.now at) (DashAt text.now at → ⊥) }
{
    if is_char_at(text, at, b'-') {
        return match peek(text, at + 1) {
            Some((c, _)) => !is_ns_char(c),
            None => true,
        };
    }
    false
}

/// Returns whether the sign of an entry, `?` or `:`, is at the offset, before white space, a break or the end of the
/// text.
#[inline(always)]
pub(crate) fn is_sign_at(text: &str, at: usize, sign: u8) -> bool
    requires { sign < 128 }
    ensures boundary { result ≡ true → IsCharBoundary text.now (at + 1) }
    ensures cases { MatchBool result (SignAt text.now sign at) (SignAt text.now sign at → ⊥) }
{
    if is_char_at(text, at, sign) {
        return is_white_or_end_at(text, at + 1);
    }
    false
}

/// Returns whether an entry begins there with its `?` or its `:`.
#[inline(always)]
pub(crate) fn is_entry_sign_at(text: &str, at: usize) -> bool
    ensures { MatchBool result (EntrySignAt text.now at) (EntrySignAt text.now at → ⊥) }
{
    if is_sign_at(text, at, b'?') {
        return true;
    }
    is_sign_at(text, at, b':')
}

/// Returns whether the `:` after an implicit key is at the offset, on the line on which the key starts.
#[inline(always)]
pub(crate) fn key_ends(text: &str, start: usize, at: usize) -> bool
    requires { IsCharBoundary text.now start }
    ensures boundary { result ≡ true → IsCharBoundary text.now (at + 1) }
    ensures cases { MatchBool result (KeyEnds text.now start at) (KeyEnds text.now start at → ⊥) }
{
    if is_sign_at(text, at, b':') {
        if is_short_line(text, start, at) {
            return true;
        }
        return is_key_line(text, start, at);
    }
    false
}

// The most characters of an implicit key. A key with at most as many bytes is always short enough.
const SHORT: usize = 1024;

// Returns whether the bytes between the offsets are all on one line, and at most as many as a short key has. May
// return `false` for such bytes too if the text ends soon after them, or a byte below 14 such as a tab is among them.
fn is_short_line(text: &str, start: usize, end: usize) -> bool
    requires { IsCharBoundary text.now start }
    ensures { result ≡ true → IsCharBoundary text.now end → KeyLine text.now start end }
{
    if start > end {
        return false;
    }
    if end - start > SHORT {
        return false;
    }
    let bytes = text.as_bytes();
    let mut at = start;
    'lanes: while at < end {
        if bytes.len() - at < 16 {
            return false;
        }
        let clear = clear_bytes(bytes, at);
        if clear < 16 {
            return at + clear >= end;
        }
        at += 16;
    }
    true
}

// Returns how many of the 16 bytes at the offset come before the first byte below 14. Breaks are below 14.
#[inline(always)]
fn clear_bytes(bytes: &[u8], at: usize) -> usize
    requires { at + 16 ≤ length bytes.now }
    ensures { result ≡ prefix_len (λ x. not (nat_lt x 14)) (chunk at 16 bytes.now) }
{
    let lanes = u8x16::from_slice(&bytes[at..]);
    let low = lanes.simd_lt(u8x16::splat(14)).to_bitmask();
    if low == 0 {
        return 16;
    }
    low.trailing_zeros() as usize
}

/// Returns whether nothing more is on the line from the offset on. A comment needs white space before it.
pub(crate) fn line_ends(text: &str, at: usize, after_white: bool) -> bool
    ensures { MatchBool result (LineEndsAt text.now after_white at) (LineEndsAt text.now after_white at → ⊥) }
{
    if at == text.len() {
        return true;
    }
    if is_char_at(text, at, b'\n') {
        return true;
    }
    if is_char_at(text, at, b'\r') {
        return true;
    }
    if after_white {
        return is_char_at(text, at, b'#');
    }
    false
}

/// Returns whether no line of a node begins there: at the end of the text, a byte order mark or a document marker.
#[inline(always)]
pub fn node_ends(text: &str, at: usize) -> bool
    ensures { MatchBool result (LinesEnd text.now at) (LinesEnd text.now at → ⊥) }
{
    if at == text.len() {
        return true;
    }
    if is_mark_at(text, at) {
        return true;
    }
    is_forbidden_at(text, at)
}

/// Returns the offset of the first character other than a space on the line, if an entry may begin with it.
#[inline(always)]
pub(crate) fn entry_place(text: &str, at: usize) -> Option<usize>
    requires { IsCharBoundary text.now at }
    ensures place { IfSome result (λ p. BoundaryFrom text.now at p) }
    ensures entry { MatchOption result (NotWithinBreak text.now at → (m : ℕ) → (p : ℕ) → LineText text.now at m p → ⊥)
        (λ p. EntryPlace text.now at p) }
{
    if node_ends(text, at) {
        return None;
    }
    let place = skip_spaces(text, at);
    if line_ends(text, skip_whites(text, place), true) {
        return None;
    }
    Some(place)
}

/// Returns whether a walk back from the offset, over white space, line breaks and byte order marks, meets a line of
/// only white space that begins at or after the floor.
///
/// The walk ends at the first other character, so walks from different entries do not overlap.
pub fn is_blank_after(text: &str, floor: usize, at: usize) -> bool
    ensures noted { (code text.now at ≡ 10 → code text.now (at - 1) ≢ 13) → (floor < at → Blank text.now floor)
        → NotedSince text.now floor at result }
    ensures walks { WalksBack text.now floor at false result }
{
    if follows_text(text, floor, at) {
        return false;
    }
    walk_back(text, floor, at)
}

// Returns whether a visible ASCII character is before the offset and after the floor, with only spaces between, or a
// line feed and then only spaces.
fn follows_text(text: &str, floor: usize, at: usize) -> bool
    ensures { MatchBool result (WalksBack text.now floor at false false) ⊤ }
{
    let bytes = text.as_bytes();
    if at > bytes.len() {
        return false;
    }
    let line = spaces_start(text, floor, at);
    if line.saturating_sub(floor) < 2 {
        return false;
    }
    if bytes[line - 1] == b'\n' {
        return is_visible(bytes[line - 2]);
    }
    is_visible(bytes[line - 1])
}

// Returns the start of the spaces that end at the offset, at or after the floor.
#[inline(always)]
fn spaces_start(text: &str, floor: usize, at: usize) -> usize
    requires { at ≤ length text.now }
    ensures order { result ≤ at }
    ensures spaces { Spaces text.now result (at - result) }
{
    let bytes = text.as_bytes();
    let mut place = at;
    'spaces: while place > floor {
        if bytes[place - 1] != b' ' {
            return place;
        }
        place -= 1;
    }
    place
}

// Returns whether the byte is an ASCII character other than a space or a control.
#[inline(always)]
fn is_visible(byte: u8) -> bool
    ensures { MatchBool result ((32 < byte) × (byte ≤ 126)) ⊤ }
{
    if byte <= b' ' {
        return false;
    }
    if byte > b'~' {
        return false;
    }
    true
}

// Returns whether a walk back from the offset meets a line of only white space.
#[inline(never)]
fn walk_back(text: &str, floor: usize, at: usize) -> bool
    ensures { WalksBack text.now floor at false result }
{
    let mut place = at;
    // whether only white space is between the place and a line break
    let mut blank = false;
    'back: while place > floor {
        if is_white_at(text, place - 1) {
            place -= 1;
            continue;
        }
        if break_ends(text, place) {
            if blank {
                return true;
            }
            blank = true;
            place = break_start(text, place);
            continue;
        }
        if mark_ends(text, place) {
            place -= 3;
            blank = false;
            continue;
        }
        return false;
    }
    blank
}

// Returns the start of the break that ends at the offset.
fn break_start(text: &str, at: usize) -> usize
    requires { 0 < at }
    ensures earlier { result < at }
    ensures begins { (i : ℕ) → Break text.now i at → result ≡ i }
{
    if is_char_at(text, at.saturating_sub(1), b'\n') {
        if is_char_at(text, at.saturating_sub(2), b'\r') {
            return at.saturating_sub(2);
        }
    }
    at.saturating_sub(1)
}

/// Returns the last offset before `end` that is after a line break at or after `from`.
pub(crate) fn last_line_start(text: &str, from: usize, end: usize) -> Option<usize>
    requires { IsCharBoundary text.now from }
    ensures boundary { IfSome result (λ p. IsCharBoundary text.now p) }
    ensures last { LastStartIs text.now from end result }
{
    let mut at = from;
    let mut found = None;
    'characters: while at < end {
        match line_break(text, at) {
            Some(next) => {
                if next < end {
                    found = Some(next);
                }
                at = next;
            }
            None => match peek(text, at) {
                Some((_, next)) => at = next,
                None => return found,
            },
        }
    }
    found
}

/// Returns the offset after `count` lines from the start of a line, or the end of the text.
pub(crate) fn skip_lines(text: &str, at: usize, count: usize) -> usize
    requires { IsCharBoundary text.now at }
    ensures boundary { IsCharBoundary text.now result }
    ensures lines { (e : ℕ) → LinesBetween text.now count at e → result ≡ e }
{
    let mut place = at;
    let mut left = count;
    'characters: while left > 0 {
        let end = next_break(text, place);
        match line_break(text, end) {
            Some(next) => {
                place = next;
                left -= 1;
            }
            None => match peek(text, end) {
                Some((_, next)) => place = next,
                None => return end,
            },
        }
    }
    place
}
