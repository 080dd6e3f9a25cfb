//! Reads anchors, aliases and tags (productions 97 to 104) to their ends. Offsets count bytes.
ghost use Rattle.std.specs.Prelude.{◌+◌, IfSome, MatchBool, ⊤};
ghost use Rattle.std.specs.Str.{IsCharBoundary};
ghost use Rattle.yf_diagnose.specs.SecondReadings.{IsAfter, IsReadFrom, IsReadAfter};

use crate::diagnosis::{Mistake, refused};
use crate::why::Why;
use yf_chars::classes::{is_hex_digit, is_tag_char, is_uri_char};
use yf_chars::runs::{AnchorChars, WordChars, skip_while};
use yf_chars::text::{is_char_at, peek};

/// Returns whether an anchor or a tag begins at the offset.
pub(crate) fn is_property_at(text: &str, at: usize) -> bool
    ensures { MatchBool result (IsCharBoundary text.now (at + 1)) ⊤ }
{
    if is_char_at(text, at, b'&') {
        return true;
    }
    is_char_at(text, at, b'!')
}

/// Returns the end of the anchor or the tag that begins at the offset.
pub(crate) fn property_end(text: &str, at: usize) -> Result<usize, Mistake>
    requires boundary { IsCharBoundary text.now at }
    requires follows { IsCharBoundary text.now (at + 1) }
    ensures { IsReadAfter text.now at result }
{
    if is_char_at(text, at, b'&') {
        return name_end(text, at);
    }
    tag_end(text, at)
}

/// Returns the end of the anchor or the alias with its sign at the offset.
pub(crate) fn name_end(text: &str, at: usize) -> Result<usize, Mistake>
    requires { IsCharBoundary text.now (at + 1) }
    ensures { IsReadAfter text.now at result }
{
    let end = skip_while::<AnchorChars>(text, at + 1);
    if end == at + 1 {
        return refused(end, Why::NoName);
    }
    Ok(end)
}

/// Returns whether an alias ends at the offset.
pub(crate) fn is_alias_before(text: &str, at: usize) -> bool {
    let mut start = at;
    'bytes: while start > 0 {
        if !is_name_byte(text, start - 1) {
            return is_name_of_alias(text, start, at);
        }
        start -= 1;
    }
    is_name_of_alias(text, 0, at)
}

// Returns whether a `*` and more signs are between the offsets.
fn is_name_of_alias(text: &str, from: usize, to: usize) -> bool {
    if is_char_at(text, from, b'*') {
        return to > from.saturating_add(1);
    }
    false
}

// Returns whether a byte of a character that a name may hold is at the offset.
fn is_name_byte(text: &str, at: usize) -> bool {
    match text.as_bytes().get(at) {
        Some(byte) => !matches!(
            byte,
            b' ' | b'\t' | b'\n' | b'\r' | b',' | b'[' | b']' | b'{' | b'}'
        ),
        None => false,
    }
}

/// Returns whether the name of an alias, between the offsets, looks like a text: it holds a sign other than letters,
/// digits, `-` and `_`.
pub(crate) fn is_text_like(text: &str, from: usize, to: usize) -> bool {
    let mut at = from;
    'bytes: while at < to {
        match text.as_bytes().get(at) {
            Some(byte) => {
                if !is_letter_like(*byte) {
                    return true;
                }
            }
            None => return false,
        }
        at += 1;
    }
    false
}

// Returns whether the byte is a letter, a digit, `-` or `_`, or part of a character outside of ASCII.
fn is_letter_like(byte: u8) -> bool {
    matches!(byte, b'a'..=b'z' | b'A'..=b'Z' | b'0'..=b'9' | b'-' | b'_' | 128..=255)
}

// Returns the end of the tag with its `!` at the offset.
fn tag_end(text: &str, at: usize) -> Result<usize, Mistake>
    requires { IsCharBoundary text.now (at + 1) }
    ensures { IsReadAfter text.now at result }
{
    if is_char_at(text, at + 1, b'<') {
        return verbatim_end(text, at + 2);
    }
    let word = skip_while::<WordChars>(text, at + 1);
    if is_char_at(text, word, b'!') {
        match uri_end(text, word + 1, false) {
            Ok(end) => {
                if end == word + 1 {
                    return refused(end, Why::NoSuffix);
                }
                return Ok(end);
            }
            Err(told) => return Err(told),
        }
    }
    match uri_end(text, at + 1, false) {
        Ok(end) => Ok(end),
        Err(told) => Err(told),
    }
}

// Returns the end of a verbatim tag with its address at the offset.
fn verbatim_end(text: &str, at: usize) -> Result<usize, Mistake>
    requires { IsCharBoundary text.now at }
    ensures { IsReadAfter text.now at result }
{
    match uri_end(text, at, true) {
        Ok(end) => {
            if end == at {
                return refused(end, Why::VerbatimTag);
            }
            if is_char_at(text, end, b'>') {
                return Ok(end + 1);
            }
            refused(end, Why::VerbatimTag)
        }
        Err(told) => Err(told),
    }
}

/// Returns the end of the characters of an address, or of a tag's name, with their escapes.
pub(crate) fn uri_end(text: &str, at: usize, address: bool) -> Result<usize, Mistake>
    requires { IsCharBoundary text.now at }
    ensures { IsReadFrom text.now at result }
{
    let mut end = at;
    'chars: loop {
        match peek(text, end) {
            None => return Ok(end),
            Some((c, next)) => {
                if c == '%' {
                    match digits_end(text, next) {
                        Some(follows) => end = follows,
                        None => return refused(end, Why::TagEscape),
                    }
                } else {
                    if !is_member(c, address) {
                        return Ok(end);
                    }
                    end = next;
                }
            }
        }
    }
}

// Returns whether the character may be in an address, or in a tag's name.
fn is_member(c: char, address: bool) -> bool {
    if address {
        return is_uri_char(c);
    }
    is_tag_char(c)
}

// Returns the offset after two hexadecimal digits.
fn digits_end(text: &str, at: usize) -> Option<usize>
    requires { IsCharBoundary text.now at }
    ensures { IfSome result (λ end. IsAfter text.now at end) }
{
    match peek(text, at) {
        None => None,
        Some((first, next)) => {
            if !is_hex_digit(first) {
                return None;
            }
            match peek(text, next) {
                None => None,
                Some((second, end)) => {
                    if is_hex_digit(second) {
                        return Some(end);
                    }
                    None
                }
            }
        }
    }
}
