//! What a schema reads a plain scalar as, for messages.
ghost use Rattle.std.specs.Prelude.{◌≡◌, ◌≤◌, ◌<◌, ◌+◌, ◌*◌, ◌^◌, drop, false, MatchOption, SomeIff};
ghost use Rattle.yf_types.specs.Meanings as Meanings;
ghost use Rattle.yf_types.specs.Values as Values;

use crate::agreement::agree;
use crate::form::Form;
use crate::newer::newer_form;
use crate::older::older_form;

/// A type, and for a boolean or an integer its value.
#[derive(Clone, Copy)]
pub enum Meaning {
    Null,
    Boolean(bool),
    Integer {
        is_negative: bool,
        /// The size, if it is below 2^64.
        size: Option<u64>,
    },
    /// A floating point number.
    Number,
    /// The infinite floating point number, or its negation.
    Infinity,
    NotANumber,
    /// A date or a time.
    Timestamp,
    /// A merge key.
    Merge,
    /// The default value of a mapping.
    Default,
    /// A string.
    Text,
}

/// The two readings of an ambiguous plain scalar.
#[derive(Clone, Copy)]
pub struct BothReadings {
    /// The reading of YAML 1.1.
    pub older: Meaning,
    /// The reading of YAML 1.2.
    pub newer: Meaning,
}

fn is_negative(text: &[u8]) -> bool
    ensures { result ≡ Values.is_negative text.now }
{
    match text {
        [] => false,
        [first, ..] => *first == b'-',
    }
}

fn unsigned(text: &[u8]) -> &[u8]
    ensures { result.now ≡ Values.unsigned text.now }
{
    match text {
        [] => text,
        [first, rest @ ..] => {
            if *first == b'+' || *first == b'-' {
                return rest;
            }
            text
        }
    }
}

/// Returns the text after a prefix of two letters.
fn unprefixed(text: &[u8]) -> &[u8]
    ensures { result.now ≡ drop 2 text.now }
{
    match text {
        [_, _, rest @ ..] => rest,
        [_] => &text[1..],
        [] => text,
    }
}

fn digit_value(byte: u8) -> u64
    ensures { result ≡ Values.digit_value byte }
{
    if byte <= b'9' {
        return byte.saturating_sub(48) as u64;
    }
    if byte <= b'F' {
        return byte.saturating_sub(55) as u64;
    }
    byte.saturating_sub(87) as u64
}

/// Returns a number times the base, with one more digit, if it is below 2^64.
fn continued(n: u64, base: u64, byte: u8) -> Option<u64>
    ensures { SomeIff result (n * base + Values.digit_value byte < 2 ^ 64) (n * base + Values.digit_value byte) }
{
    match n.checked_mul(base) {
        Some(more) => more.checked_add(digit_value(byte)),
        None => None,
    }
}

/// Returns the number after one more digit, if it is below 2^64.
fn after_digit(n: u64, base: u64, byte: u8) -> Option<u64>
    ensures { SomeIff result (Meanings.digit_step base n byte < 2 ^ 64) (Meanings.digit_step base n byte) }
{
    if byte == b'_' {
        return Some(n);
    }
    continued(n, base, byte)
}

/// Returns the number that digits of a base mean, if it is below 2^64.
fn digits(base: u64, text: &[u8]) -> Option<u64>
    requires { 1 ≤ base }
    ensures { SomeIff result (Values.digits_from base 0 text.now < 2 ^ 64) (Values.digits_from base 0 text.now) }
{
    let mut n: u64 = 0;
    let mut rest = text;
    'bytes: loop {
        match rest {
            [] => return Some(n),
            [first, others @ ..] => match after_digit(n, base, *first) {
                Some(more) => {
                    n = more;
                    rest = others;
                }
                None => return None,
            },
        }
    }
}

fn sum_after(sum: u64, part: u64, byte: u8) -> Option<u64>
    ensures { SomeIff result (Meanings.next_sum sum part byte < 2 ^ 64) (Meanings.next_sum sum part byte) }
{
    if byte == b':' {
        return match sum.checked_add(part) {
            Some(all) => all.checked_mul(60),
            None => None,
        };
    }
    Some(sum)
}

fn part_after(part: u64, byte: u8) -> Option<u64>
    ensures { SomeIff result (Meanings.next_part part byte < 2 ^ 64) (Meanings.next_part part byte) }
{
    if byte == b':' {
        return Some(0);
    }
    after_digit(part, 10, byte)
}

/// Returns the number that parts in base 60 mean, if it is below 2^64.
fn sixties(text: &[u8]) -> Option<u64>
    ensures { SomeIff result (Values.sixties_from 0 0 text.now < 2 ^ 64) (Values.sixties_from 0 0 text.now) }
{
    let mut sum: u64 = 0;
    let mut part: u64 = 0;
    let mut rest = text;
    'bytes: loop {
        match rest {
            [] => return sum.checked_add(part),
            [first, others @ ..] => match sum_after(sum, part, *first) {
                Some(more) => match part_after(part, *first) {
                    Some(next) => {
                        sum = more;
                        part = next;
                        rest = others;
                    }
                    None => return None,
                },
                None => return None,
            },
        }
    }
}

/// Returns the size of an integer, if it is below 2^64.
fn size(form: Form, text: &[u8]) -> Option<u64>
    ensures { SomeIff result (Values.size form text.now < 2 ^ 64) (Values.size form text.now) }
{
    let digits_text = unsigned(text);
    match form {
        Form::Binary => digits(2, unprefixed(digits_text)),
        Form::Octal => digits(8, digits_text),
        Form::PrefixedOctal => digits(8, unprefixed(digits_text)),
        Form::Decimal => digits(10, digits_text),
        Form::Hexadecimal => digits(16, unprefixed(digits_text)),
        Form::Sixties => sixties(digits_text),
        _ => Some(0),
    }
}

/// Returns what the text means if it has the form.
fn meaning_of(form: Form, text: &[u8]) -> Meaning
    ensures { Meanings.Means result (Values.value form text.now) }
{
    match form {
        Form::Null => Meaning::Null,
        Form::True => Meaning::Boolean(true),
        Form::False => Meaning::Boolean(false),
        Form::Number => Meaning::Number,
        Form::SixtiesNumber => Meaning::Number,
        Form::Infinity => Meaning::Infinity,
        Form::NotANumber => Meaning::NotANumber,
        Form::Timestamp => Meaning::Timestamp,
        Form::Merge => Meaning::Merge,
        Form::Default => Meaning::Default,
        Form::Text => Meaning::Text,
        integer => Meaning::Integer {
            is_negative: is_negative(text),
            size: size(integer, text),
        },
    }
}

/// Returns both readings of a plain scalar if it is ambiguous.
pub fn ambiguity(text: &str) -> Option<BothReadings>
    ensures { MatchOption result (Values.is_ambiguous text.now ≡ false) (λ a. Meanings.Tells a text.now) }
{
    let bytes = text.as_bytes();
    let older = older_form(bytes);
    let newer = newer_form(bytes);
    if agree(older, newer, bytes) {
        return None;
    }
    Some(BothReadings {
        older: meaning_of(older, bytes),
        newer: meaning_of(newer, bytes),
    })
}
