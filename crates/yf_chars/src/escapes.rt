//! Escapes of double-quoted scalars (YAML 1.2.2, section 5.7), read and written.
ghost use Rattle.std.specs.Prelude.{◌≡◌, ◌+◌, ◌<◌, ◌≤◌, ◌++◌, ◌∷◌, [], ℕ, IfSome, OnSome, MatchOption, is_ok, true, if◌then◌else◌, length, encode_utf8_all};
ghost use Rattle.std.specs.String.{string_bytes, string_len, string_capacity};
ghost use Rattle.std.specs.Str.{IsCharBoundary};
ghost use Rattle.yf_chars.specs.Chain.{Stuck, Chosen};
ghost use Rattle.yf_chars.specs.Common.{AreCommon, is_common};
ghost use Rattle.yf_chars.specs.Escape as Escapes;
ghost use Rattle.yf_chars.specs.Spelled.{ReadsBack};

use crate::common::all_common;
use crate::error::NoMemory;
use crate::text::{is_char_at, peek};

/// An escape in a text: its number, and the byte offset after it.
///
/// The number need not be a character: halves of a pair and numbers above U+10FFFF are kept as they are.
#[derive(Clone, Copy)]
pub struct Escape {
    pub value: u32,
    pub end: usize,
}

/// Reads the escape (c-ns-esc-char, production 62) whose backslash is at the byte offset, or returns `None` if no
/// escape is there.
///
/// `\u` with a high surrogate and `\u` with a low one directly after it are one escape, which means the character that
/// the pair encodes in UTF-16.
pub fn read_escape(s: &str, at: usize) -> Option<Escape>
    ensures reads { MatchOption result (Stuck (Escapes.Escape s.now at)) (λ e. Chosen (Escapes.Escape s.now at) e.end e.value) }
    ensures boundary { IfSome result (λ e. IsCharBoundary s.now e.end) }
{
    match numbered(s, at, b'u', 4) {
        Some(value) => return Some(paired(s, at, value)),
        None => {}
    }
    match numbered(s, at, b'x', 2) {
        Some(value) => return Some(Escape { value, end: at + 4 }),
        None => {}
    }
    match numbered(s, at, b'U', 8) {
        Some(value) => return Some(Escape {
            value,
            end: at + 10,
        }),
        None => {}
    }
    if !is_char_at(s, at, b'\\') {
        return None;
    }
    match peek(s, at + 1) {
        None => None,
        Some((letter, end)) => match named(letter) {
            None => None,
            Some(value) => Some(Escape { value, end }),
        },
    }
}

// Returns the escape that begins with `\u` and the number, together with the low half of a pair that may follow.
fn paired(s: &str, at: usize, value: u32) -> Escape
    requires number { Escapes.NumericEscape s.now at 117 4 value }
    requires follows { IsCharBoundary s.now (at + 6) }
    ensures reads { Chosen (Escapes.Escape s.now at) result.end result.value }
    ensures boundary { IsCharBoundary s.now result.end }
{
    let alone = Escape { value, end: at + 6 };
    if !is_high(value) {
        return alone;
    }
    match numbered(s, at + 6, b'u', 4) {
        None => alone,
        Some(low) => {
            if is_low(low) {
                return Escape {
                    value: 0x10000 + (value - 0xD800) * 0x400 + (low - 0xDC00),
                    end: at + 12,
                };
            }
            alone
        }
    }
}

// Returns whether the number is the first half of a pair.
#[tactic(auto, unfolding(crate::specs::Escape::is_high, crate::specs::Class::is_between))]
fn is_high(value: u32) -> bool
    ensures { result ≡ Escapes.is_high value }
{
    matches!(value, 0xD800..=0xDBFF)
}

// Returns whether the number is the second half of a pair.
#[tactic(auto, unfolding(crate::specs::Escape::is_low, crate::specs::Class::is_between))]
fn is_low(value: u32) -> bool
    ensures { result ≡ Escapes.is_low value }
{
    matches!(value, 0xDC00..=0xDFFF)
}

// Returns the meaning of a single letter after the backslash.
#[tactic(auto, unfolding(crate::specs::Escape::named))]
fn named(letter: char) -> Option<u32>
    ensures { result ≡ Escapes.named letter }
{
    match letter {
        '0' => Some(0x00),
        'a' => Some(0x07),
        'b' => Some(0x08),
        't' | '\t' => Some(0x09),
        'n' => Some(0x0A),
        'v' => Some(0x0B),
        'f' => Some(0x0C),
        'r' => Some(0x0D),
        'e' => Some(0x1B),
        ' ' => Some(0x20),
        '"' => Some(0x22),
        '/' => Some(0x2F),
        '\\' => Some(0x5C),
        'N' => Some(0x85),
        '_' => Some(0xA0),
        'L' => Some(0x2028),
        'P' => Some(0x2029),
        _ => None,
    }
}

// Returns the number of an escape with the letter, which `count` hexadecimal digits follow.
fn numbered(s: &str, at: usize, letter: u8, count: usize) -> Option<u32>
    requires ascii { letter < 128 }
    requires few { count ≤ 8 }
    ensures reads { MatchOption result ((v : ℕ) → Escapes.NumericEscape s.now at letter count v → ⊥)
        (λ v. Escapes.NumericEscape s.now at letter count v) }
    ensures end { OnSome result (IsCharBoundary s.now (at + 2 + count)) }
{
    if !is_char_at(s, at, b'\\') {
        return None;
    }
    if !is_char_at(s, at + 1, letter) {
        return None;
    }
    digits(s, at + 2, count)
}

// Returns the number that `count` hexadecimal digits at the offset write.
fn digits(s: &str, at: usize, count: usize) -> Option<u32>
    requires boundary { IsCharBoundary s.now at }
    requires few { count ≤ 8 }
    ensures reads { MatchOption result ((v : ℕ) → Escapes.Digits s.now at count v → ⊥) (λ v. Escapes.Digits s.now at count v) }
    ensures end { OnSome result (IsCharBoundary s.now (at + count)) }
{
    let mut value = 0;
    for index in 0..count {
        match peek(s, at + index) {
            None => return None,
            Some((c, _)) => match c.to_digit(16) {
                None => return None,
                Some(digit) => value = value * 16 + digit,
            },
        }
    }
    Some(value)
}

/// Appends a character as this project writes it in double quotes: `"`, `\`, line feed, tab, carriage return and NUL by
/// a backslash and a letter; other characters below a space and those from U+007F to U+00A0 as `\xHH`; separators of
/// lines and paragraphs, the byte order mark, U+FFFE and U+FFFF as `\uHHHH`, with digits in upper case; all others as
/// themselves. In any text, the appended bytes are read as that character in double quotes.
///
/// # Errors
///
/// `NoMemory` if memory is refused; the string is then unchanged.
pub fn push_escaped(out: &mut String, c: char) -> Result<(), NoMemory>
    ensures spelled { string_bytes out.new ≡ (if is_ok result then string_bytes out.old ++ encode_utf8_all (Escapes.spelled c)
        else string_bytes out.old) }
    ensures read { ReadsBack (encode_utf8_all (Escapes.spelled c)) c }
{
    match out.reserve(6) {
        Ok(()) => {
            put_spelled(out, c);
            Ok(())
        }
        Err(_) => Err(NoMemory),
    }
}

// Appends the character as `push_escaped` does, to a string with enough capacity.
fn put_spelled(out: &mut String, c: char)
    requires { string_len out.old + 6 ≤ string_capacity out.old }
    ensures { string_bytes out.new ≡ string_bytes out.old ++ encode_utf8_all (Escapes.spelled c) }
{
    match short_name(c) {
        Some(letter) => {
            put(out, '\\');
            put(out, letter);
        }
        None => put_long(out, c),
    }
}

// Appends an ASCII character to a string with enough capacity.
fn put(out: &mut String, c: char)
    requires ascii { c < 128 }
    requires room { string_len out.old + 1 ≤ string_capacity out.old }
    ensures bytes { string_bytes out.new ≡ string_bytes out.old ++ c ∷ [] }
    ensures len { string_len out.new ≡ string_len out.old + 1 }
    ensures capacity { string_capacity out.old ≤ string_capacity out.new }
{
    match out.push(c) {
        Ok(()) => {}
        Err(_) => unreachable!(),
    }
}

// Returns the letter of the shortest escape, if the character has one.
#[tactic(auto, unfolding(crate::specs::Escape::short_name))]
fn short_name(c: char) -> Option<char>
    ensures value { result ≡ Escapes.short_name c }
    ensures ascii { IfSome result (λ letter. letter < 128) }
{
    match c {
        '"' => Some('"'),
        '\\' => Some('\\'),
        '\n' => Some('n'),
        '\t' => Some('t'),
        '\r' => Some('r'),
        '\0' => Some('0'),
        _ => None,
    }
}

// Appends a character that has no letter, to a string with enough capacity.
fn put_long(out: &mut String, c: char)
    requires { string_len out.old + 6 ≤ string_capacity out.old }
    ensures { string_bytes out.new ≡ string_bytes out.old ++ encode_utf8_all (Escapes.spelled_long c) }
{
    let code = c as u32;
    if is_by_two(c) {
        put(out, '\\');
        put(out, 'x');
        put_digits(out, code);
        return;
    }
    if is_by_four(c) {
        put(out, '\\');
        put(out, 'u');
        put_digits(out, code / 256);
        put_digits(out, code % 256);
        return;
    }
    match out.push(c) {
        Ok(()) => {}
        Err(_) => unreachable!(),
    }
}

// Appends two hexadecimal digits in upper case, to a string with enough capacity.
fn put_digits(out: &mut String, value: u32)
    requires small { value < 256 }
    requires room { string_len out.old + 2 ≤ string_capacity out.old }
    ensures bytes { string_bytes out.new ≡ string_bytes out.old ++ Escapes.two_digits value }
    ensures len { string_len out.new ≡ string_len out.old + 2 }
    ensures capacity { string_capacity out.old ≤ string_capacity out.new }
{
    put(out, upper_digit(value / 16));
    put(out, upper_digit(value % 16));
}

// Returns a hexadecimal digit in upper case.
#[tactic(auto, unfolding(crate::specs::Escape::upper_digit))]
fn upper_digit(digit: u32) -> char
    requires { digit < 16 }
    ensures value { result ≡ Escapes.upper_digit digit }
    ensures ascii { result < 128 }
{
    if digit < 10 {
        return char::from(b'0' + digit as u8);
    }
    char::from(b'A' + (digit - 10) as u8)
}

/// Appends a character as an escape of its number in double quotes: as `\uHHHH`, or above U+FFFF as `\UHHHHHHHH`, with
/// digits in upper case. In any text, the appended bytes are read as that character in double quotes.
///
/// # Errors
///
/// `NoMemory` if memory is refused; the string is then unchanged.
pub fn push_number(out: &mut String, c: char) -> Result<(), NoMemory>
    ensures spelled { string_bytes out.new ≡ (if is_ok result then string_bytes out.old ++ encode_utf8_all (Escapes.by_number c)
        else string_bytes out.old) }
    ensures read { ReadsBack (encode_utf8_all (Escapes.by_number c)) c }
{
    match out.reserve(10) {
        Ok(()) => {
            put_number(out, c);
            Ok(())
        }
        Err(_) => Err(NoMemory),
    }
}

// Appends the character as `push_number` does, to a string with enough capacity.
fn put_number(out: &mut String, c: char)
    requires { string_len out.old + 10 ≤ string_capacity out.old }
    ensures { string_bytes out.new ≡ string_bytes out.old ++ encode_utf8_all (Escapes.by_number c) }
{
    let code = c as u32;
    put(out, '\\');
    if code < 0x10000 {
        put(out, 'u');
        put_digits(out, code / 256);
        put_digits(out, code % 256);
        return;
    }
    put(out, 'U');
    put_digits(out, 0);
    put_digits(out, code / 0x10000);
    put_digits(out, code / 256 % 256);
    put_digits(out, code % 256);
}

/// Returns whether the byte is an ASCII character that needs no escape, as most are. Lower-case letters take two tests.
#[inline(always)]
#[tactic(auto, unfolding(crate::specs::Common::is_common, crate::specs::Class::is_between))]
pub fn is_common(byte: u8) -> bool
    ensures { result ≡ is_common byte }
{
    if byte < b']' {
        return matches!(byte, b' ' | b'!' | b'#'..=b'[');
    }
    byte <= b'~'
}

/// Returns whether each character is an ASCII character that needs no escape, so that double quotes hold the text
/// unchanged.
#[inline]
pub fn are_common(text: &str) -> bool
    ensures common { result ≡ true → AreCommon text.now }
    ensures all { AreCommon text.now → result ≡ true }
{
    all_common(text.as_bytes())
}

/// Returns whether a character that has no letter is written with two digits.
#[inline]
#[tactic(auto, unfolding(crate::specs::Escape::is_by_two, crate::specs::Class::is_between))]
pub fn is_by_two(c: char) -> bool
    ensures { result ≡ Escapes.is_by_two c }
{
    matches!(c, '\0'..='\u{1F}' | '\u{7F}'..='\u{A0}')
}

/// Returns whether a character that has no letter and isn't written with two digits is written with four.
#[inline]
#[tactic(auto, unfolding(crate::specs::Escape::is_by_four))]
pub fn is_by_four(c: char) -> bool
    ensures { result ≡ Escapes.is_by_four c }
{
    matches!(
        c,
        '\u{2028}' | '\u{2029}' | '\u{FEFF}' | '\u{FFFE}' | '\u{FFFF}'
    )
}
