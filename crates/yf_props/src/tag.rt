//! Tags (YAML 1.2.2, section 6.9.1).
ghost use Rattle.std.specs.Prelude.{◌≡◌, ◌+◌, ◌<◌, ◌≤◌, ℕ, List, true, false, IfSome, MatchOption, slice_range};
ghost use Rattle.std.specs.Str.{IsCharBoundary};
ghost use Rattle.yf_chars.specs.Signs.{EXCLAMATION};
ghost use Rattle.yf_chars.specs.Chain.{Chain, Chosen, Stuck};
ghost use Rattle.yf_chars.specs.Class.{is_hex_digit};
ghost use Rattle.yf_chars.specs.Text.{code, CharAt};
ghost use Rattle.yf_props.specs.Chars.{class_of};
ghost use Rattle.yf_props.specs.Names.{SpelledChar, TagChar, Run, Handle, VerbatimTag, ShorthandTag, TagProperty, TagPrefix};
ghost use Rattle.yf_props.specs.Props.{tag_value};
ghost use Rattle.yf_props.specs.Props.TagValue.{IsShort, IsVerbatim};

use crate::props::Tag;
use yf_chars::classes::{is_hex_digit, is_tag_char, is_uri_char};
use yf_chars::runs::{WordChars, skip_while};
use yf_chars::text::{is_char_at, peek};

// A tag that was read, and the offset after it.
#[derive(Clone, Copy)]
pub(crate) struct TagPart<'a> {
    pub(crate) tag: Tag<'a>,
    pub(crate) end: usize,
}

// The characters that represent themselves in a part of a tag: those of a URI, or those of a suffix.
#[derive(Clone, Copy)]
enum Chars {
    Uri,
    Suffix,
}

// Returns whether the class contains the character.
fn is_of(class: Chars, c: char) -> bool
    ensures { result ≡ class_of class c }
{
    match class {
        Chars::Uri => is_uri_char(c),
        Chars::Suffix => is_tag_char(c),
    }
}

// Returns whether a hexadecimal digit begins at the offset.
fn is_hex_at(s: &str, at: usize) -> bool
    requires { IsCharBoundary s.now at }
    ensures value { result ≡ is_hex_digit (code s.now at) }
    ensures boundary { result ≡ true → IsCharBoundary s.now (at + 1) }
{
    match peek(s, at) {
        Some((c, _)) => is_hex_digit(c),
        None => false,
    }
}

// Reads a character of the class, or `%` with two hexadecimal digits, and returns the offset after it.
fn read_char(s: &str, at: usize, class: Chars) -> Option<usize>
    requires { IsCharBoundary s.now at }
    ensures reads { MatchOption result (Stuck (SpelledChar s.now (class_of class) at))
        (λ j. (x : List ℕ) × SpelledChar s.now (class_of class) at j x) }
    ensures boundary { IfSome result (λ j. IsCharBoundary s.now j) }
    ensures order { IfSome result (λ j. at < j) }
{
    if is_char_at(s, at, b'%') {
        if is_hex_at(s, at + 1) {
            if is_hex_at(s, at + 2) {
                return Some(at + 3);
            }
            return None;
        }
        return None;
    }
    match peek(s, at) {
        Some((c, next)) => {
            if is_of(class, c) {
                return Some(next);
            }
            None
        }
        None => None,
    }
}

// Returns the offset after all characters of the class, including escapes, at the offset.
fn skip_chars(s: &str, at: usize, class: Chars) -> usize
    requires { IsCharBoundary s.now at }
    ensures chars { (x : List ℕ) × Chain (SpelledChar s.now (class_of class)) at result x }
    ensures all { Stuck (SpelledChar s.now (class_of class) result) }
    ensures boundary { IsCharBoundary s.now result }
    ensures order { at ≤ result }
{
    let mut end = at;
    'chars: loop {
        match read_char(s, end, class) {
            Some(next) => end = next,
            None => return end,
        }
    }
}

/// Reads the handle of a TAG directive (c-tag-handle, production 89), with all characters that may be in it, and
/// returns the byte offset after it.
pub fn tag_handle(s: &str, at: usize) -> Option<usize>
    ensures reads { MatchOption result ((j : ℕ) → Handle s.now at j → ⊥) (λ j. Handle s.now at j) }
    ensures longest { IfSome result (λ j. (k : ℕ) → Handle s.now at k → k ≤ j) }
    ensures boundary { IfSome result (λ j. IsCharBoundary s.now j) }
    ensures order { IfSome result (λ j. at < j) }
{
    if is_char_at(s, at, b'!') {
        let name_end = skip_while::<WordChars>(s, at + 1);
        if is_char_at(s, name_end, b'!') {
            return Some(name_end + 1);
        }
        return Some(at + 1);
    }
    None
}

/// Reads the prefix of a TAG directive (ns-tag-prefix, production 93), with all characters that may be in it, and
/// returns the byte offset after it.
pub fn tag_prefix(s: &str, at: usize) -> Option<usize>
    requires { IsCharBoundary s.now at }
    ensures reads { MatchOption result (Stuck (TagPrefix s.now at)) (λ j. (x : List ℕ) × Chosen (TagPrefix s.now at) j x) }
    ensures boundary { IfSome result (λ j. IsCharBoundary s.now j) }
    ensures order { IfSome result (λ j. at < j) }
{
    if is_char_at(s, at, b'!') {
        return Some(skip_chars(s, at + 1, Chars::Uri));
    }
    match read_char(s, at, Chars::Suffix) {
        Some(next) => Some(skip_chars(s, next, Chars::Uri)),
        None => None,
    }
}

// Reads a verbatim tag (c-verbatim-tag, production 98).
fn verbatim<'a>(s: &'a str, at: usize) -> Option<TagPart<'a>>
    ensures reads { MatchOption result (Stuck (VerbatimTag s.now at))
        (λ p. (text : List ℕ) × Chosen (VerbatimTag s.now at) p.end text × (tag_value p.tag ≡ IsVerbatim text)) }
    ensures boundary { IfSome result (λ p. IsCharBoundary s.now p.end) }
{
    if is_char_at(s, at, b'!') {
        if is_char_at(s, at + 1, b'<') {
            let end = skip_chars(s, at + 2, Chars::Uri);
            if end > at + 2 {
                if is_char_at(s, end, b'>') {
                    return Some(TagPart {
                        tag: Tag::Verbatim(&s[at + 2..end]),
                        end: end + 1,
                    });
                }
                return None;
            }
            return None;
        }
        return None;
    }
    None
}

// Reads the suffix of a shorthand tag with the handle from `at` to `start`.
fn suffix_after<'a>(s: &'a str, at: usize, start: usize) -> Option<TagPart<'a>>
    requires first { IsCharBoundary s.now at }
    requires second { IsCharBoundary s.now start }
    requires order { at ≤ start }
    ensures reads { MatchOption result (Stuck (TagChar s.now start)) (λ p. Run (TagChar s.now) start p.end) }
    ensures value { IfSome result (λ p. tag_value p.tag ≡ IsShort (slice_range s.now at start) (slice_range s.now start p.end)) }
    ensures boundary { IfSome result (λ p. IsCharBoundary s.now p.end) }
{
    let end = skip_chars(s, start, Chars::Suffix);
    if end > start {
        let tag = Tag::Short {
            handle: &s[at..start],
            suffix: &s[start..end],
        };
        return Some(TagPart { tag, end });
    }
    None
}

// Reads a shorthand tag with a longer handle than `!`.
fn long_shorthand<'a>(s: &'a str, at: usize) -> Option<TagPart<'a>>
    requires { CharAt s.now at EXCLAMATION (at + 1) }
    ensures reads { MatchOption result ((h j : ℕ) → Handle s.now at h → at + 1 < h → Run (TagChar s.now) h j → ⊥)
        (λ p. Chosen (ShorthandTag s.now at) p.end (tag_value p.tag)) }
    ensures boundary { IfSome result (λ p. IsCharBoundary s.now p.end) }
{
    let name_end = skip_while::<WordChars>(s, at + 1);
    if is_char_at(s, name_end, b'!') {
        return match suffix_after(s, at, name_end + 1) {
            Some(part) => Some(part),
            None => None,
        };
    }
    None
}

// Reads a shorthand tag (c-ns-shorthand-tag, production 99), with the longest handle that a suffix follows.
fn shorthand<'a>(s: &'a str, at: usize) -> Option<TagPart<'a>>
    requires { CharAt s.now at EXCLAMATION (at + 1) }
    ensures reads { MatchOption result (Stuck (ShorthandTag s.now at) × Stuck (TagChar s.now (at + 1)))
        (λ p. Chosen (ShorthandTag s.now at) p.end (tag_value p.tag)) }
    ensures boundary { IfSome result (λ p. IsCharBoundary s.now p.end) }
{
    match long_shorthand(s, at) {
        Some(part) => Some(part),
        None => match suffix_after(s, at, at + 1) {
            Some(part) => Some(part),
            None => None,
        },
    }
}

// Reads a tag (c-ns-tag-property, production 97), with all characters that may be in it.
pub(crate) fn tag_property<'a>(s: &'a str, at: usize) -> Option<TagPart<'a>>
    ensures reads { MatchOption result (Stuck (TagProperty s.now at)) (λ p. Chosen (TagProperty s.now at) p.end (tag_value p.tag)) }
    ensures boundary { IfSome result (λ p. IsCharBoundary s.now p.end) }
{
    if is_char_at(s, at, b'!') {
        return match verbatim(s, at) {
            Some(part) => Some(part),
            None => match shorthand(s, at) {
                Some(part) => Some(part),
                None => Some(TagPart {
                    tag: Tag::NonSpecific,
                    end: at + 1,
                }),
            },
        };
    }
    None
}
