//! The reader of single-quoted scalars. Offsets count bytes.
ghost use Rattle.std.specs.Prelude.{◌≡◌, ◌≢◌, ◌<◌, ◌≤◌, ◌++◌, ◌+◌, ◌∷◌, [], ℕ, Bool, true, false, List, IfSome, IsSomeAnd, IfOk, IfErr, MatchOption, MatchBool, length, take, if◌then◌else◌, slice_range, encode_utf8_all};
ghost use Rattle.std.specs.String.{string_bytes};
ghost use Rattle.std.specs.String.Boundary.{IsSplitPoint};
ghost use Rattle.std.specs.Str.{IsCharBoundary};
ghost use Rattle.yf_chars.specs.Signs.{SINGLE_QUOTE};
ghost use Rattle.yf_chars.specs.Chain.{Chain, Stuck, Chosen};
ghost use Rattle.yf_chars.specs.Text.{CharAt, code};
ghost use Rattle.yf_lines.specs.Basic.{Clear};
ghost use Rattle.yf_lines.specs.Text.{text_bytes};
ghost use Rattle.yf_quoted.specs.Body.{NoSingleChar, NoSingleBody, SingleRead};
ghost use Rattle.yf_quoted.specs.Ordinary.{is_unquoted, CharOfItself};
ghost use Rattle.yf_quoted.specs.Quoted as Q;

use crate::gap::{lines_width, push_gap, single_gap};
use std::alloc::{AllocError, Global};
use yf_chars::classes::is_nb_json;
use yf_chars::context::Ctx;
use yf_chars::text::{is_char_at, peek};
use yf_lines::basic::is_forbidden_at;
use yf_lines::contexts::is_block;
use yf_lines::fault::Fault;
use yf_lines::source_text::Src;
use yf_lines::text::{FoundText, OwnedText, Text};

/// Reads a single-quoted scalar (c-single-quoted(n,c), production 120) that begins at the byte offset. Returns its
/// folded text and the offset after it, or `None` if no such scalar begins there. `n` is the indentation, from -1.
///
/// If a closing quote is missing, the first half of the last `''` closes the scalar. The text is a slice of the source
/// if the scalar is on one line without `''`.
///
/// # Errors
///
/// Only `Fault::Memory`.
pub fn read_single<'a>(alloc: Global, src: &Src<'a>, at: usize, n: i32, ctx: Ctx) -> FoundText<'a>
    requires { IsCharBoundary src.now.text at }
    ensures reads { IfOk result (λ o. MatchOption o (Stuck (Q.SingleQuoted src.now.text n ctx at))
        (λ p. (x : List ℕ) × (text_bytes p.0 ≡ encode_utf8_all x) × Chosen (Q.SingleQuoted src.now.text n ctx at) p.1 x)) }
    ensures boundary { IfOk result (λ o. IfSome o (λ p. IsCharBoundary src.now.text p.1)) }
    ensures refused { IfErr result (λ e. e ≡ Fault.Memory) }
{
    match single_in(alloc, src.text(), at, n, ctx) {
        Ok(None) => Ok(None),
        Ok(Some(read)) => Ok(Some((read.text, read.end))),
        Err(_) => Err(Fault::Memory),
    }
}

/// A single-quoted scalar: its text, and the offset after it.
#[derive(Drop)]
pub struct Single<'a> {
    pub text: Text<'a>,
    pub end: usize,
}

/// Reads a single-quoted scalar as `read_single` does, in a text without its lines.
pub fn single_in<'a>(
    alloc: Global,
    s: &'a str,
    at: usize,
    n: i32,
    ctx: Ctx,
) -> Result<Option<Single<'a>>, AllocError>
    requires { IsCharBoundary s.now at }
    ensures reads { IfOk result (λ o. MatchOption o (Stuck (Q.SingleQuoted s.now n ctx at))
        (λ p. (x : List ℕ) × (text_bytes p.text ≡ encode_utf8_all x) × Chosen (Q.SingleQuoted s.now n ctx at) p.end x)) }
    ensures boundary { IfOk result (λ o. IfSome o (λ p. IsCharBoundary s.now p.end)) }
    ensures order { IfOk result (λ o. IfSome o (λ p. at < p.end)) }
{
    if is_block(ctx) {
        return Ok(None);
    }
    if !is_char_at(s, at, b'\'') {
        return Ok(None);
    }
    let width = lines_width(n, ctx);
    match simple_end(s, at + 1) {
        Some(close) => Ok(Some(Single {
            text: Text::Part(&s[at + 1..close]),
            end: close + 1,
        })),
        None => match single_body(alloc, s, at + 1, width)? {
            None => Ok(None),
            Some(read) => Ok(Some(read)),
        },
    }
}

// Returns the offset of the closing quote if only characters that represent themselves are before it, and no quote
// follows it.
fn simple_end(s: &str, at: usize) -> Option<usize>
    requires { IsCharBoundary s.now at }
    ensures reads { IfSome result (λ j. (x : List ℕ) × Chain (Q.SingleChar s.now) at j x × Clear s.now at j
        × (slice_range s.now at j ≡ encode_utf8_all x)) }
    ensures alone { IfSome result (λ j. code s.now (j + 1) ≢ SINGLE_QUOTE) }
    ensures boundary { IfSome result (λ j. IsCharBoundary s.now j) }
    ensures order { IfSome result (λ j. at ≤ j) }
    ensures close { IfSome result (λ j. CharAt s.now j SINGLE_QUOTE (j + 1)) }
{
    let mut end = at;
    'chars: loop {
        if is_single_simple_at(s, end) {
            end += 1;
        } else if is_char_at(s, end, b'\'') {
            if is_char_at(s, end + 1, b'\'') {
                return None;
            }
            return Some(end);
        } else {
            match single_char(s, end) {
                None => return None,
                Some(next) => end = next.end,
            }
        }
    }
}

// Returns whether the ASCII character represents itself wherever it is. Most are lower-case letters, which take one
// test.
#[tactic(auto, unfolding(crate::specs::Ordinary::is_unquoted, yf_chars::specs::Class::is_between))]
#[inline(always)]
fn is_unquoted(byte: u8) -> bool
    ensures { result ≡ is_unquoted byte }
{
    if byte < b'/' {
        return matches!(byte, b' '..=b'&' | b'('..=b',');
    }
    byte <= b'~'
}

// Returns whether such a character begins at the offset.
#[inline(always)]
fn is_single_simple_at(s: &str, at: usize) -> bool
    ensures { result ≡ true → CharOfItself s.now at (at + 1) }
{
    let bytes = s.as_bytes();
    if at < bytes.len() {
        return is_unquoted(bytes[at]);
    }
    false
}

// A character, the offset after it, and whether it is written as two quotes.
#[derive(Clone, Copy)]
struct SingleChar {
    value: char,
    doubled: bool,
    end: usize,
}

// Reads a character of a single-quoted scalar (nb-single-char, production 118).
#[inline(always)]
fn single_char(s: &str, at: usize) -> Option<SingleChar>
    requires { IsCharBoundary s.now at }
    ensures reads { MatchOption result (NoSingleChar s.now at) (λ c. Q.SingleChar s.now at c.end (c.value ∷ []) × Clear s.now at c.end) }
    ensures doubled { IfSome result (λ c. MatchBool c.doubled (code s.now at ≡ SINGLE_QUOTE) (code s.now at ≢ SINGLE_QUOTE)) }
    ensures boundary { IfSome result (λ c. IsCharBoundary s.now c.end) }
    ensures order { IfSome result (λ c. at < c.end) }
    ensures quote { IfSome result (λ c. c.doubled ≡ true → IsCharBoundary s.now (at + 1)) }
{
    match peek(s, at) {
        None => None,
        Some((c, end)) => {
            if c == '\'' {
                if is_char_at(s, end, b'\'') {
                    return Some(SingleChar {
                        value: c,
                        doubled: true,
                        end: end + 1,
                    });
                }
                return None;
            }
            if !is_nb_json(c) {
                return None;
            }
            if is_forbidden_at(s, at) {
                return None;
            }
            Some(SingleChar {
                value: c,
                doubled: false,
                end,
            })
        }
    }
}

// A mark: the first half of a `''` that may close the scalar. It holds the number of bytes of text before it, and the
// offset after it.
#[derive(Clone, Copy)]
struct Mark {
    len: usize,
    end: usize,
}

// Reads the rest of a single-quoted scalar after its opening quote.
fn single_body<'a>(
    alloc: Global,
    s: &'a str,
    at: usize,
    width: Option<usize>,
) -> Result<Option<Single<'a>>, AllocError>
    requires { IsCharBoundary s.now at }
    ensures reads { IfOk result (λ o. MatchOption o (NoSingleBody s.now width at)
        (λ p. SingleRead s.now width at (text_bytes p.text) p.end)) }
    ensures boundary { IfOk result (λ o. IfSome o (λ p. IsCharBoundary s.now p.end)) }
    ensures order { IfOk result (λ o. IfSome o (λ p. at < p.end)) }
{
    let mut text = String::new(alloc);
    let mut mark = None;
    let mut end = at;
    'chars: loop {
        let gap = match single_gap(s, end, width) {
            None => return Ok(cut(text, mark)),
            Some(gap) => gap,
        };
        push_gap(&mut text, s, end, gap)?;
        match single_char(s, gap.end) {
            None => {
                if is_char_at(s, gap.end, b'\'') {
                    return Ok(Some(Single {
                        text: Text::Owned(OwnedText::new(text)),
                        end: gap.end + 1,
                    }));
                }
                return Ok(cut(text, mark));
            }
            Some(c) => {
                mark = next_mark(mark, c.doubled, text.as_str().len(), gap.end + 1);
                text.push(c.value)?;
                end = c.end;
            }
        }
    }
}

// Returns the mark after a character.
fn next_mark(mark: Option<Mark>, doubled: bool, len: usize, end: usize) -> Option<Mark>
    ensures { result ≡ (if doubled then Some (record { len = len; end = end }) else mark) }
{
    if doubled {
        return Some(Mark { len, end });
    }
    mark
}

// Returns the scalar up to the mark.
fn cut<'a>(mut text: String, mark: Option<Mark>) -> Option<Single<'a>>
    requires { IfSome mark (λ m. IsSplitPoint (string_bytes text) m.len) }
    ensures { MatchOption mark (result ≡ None) (λ m. IsSomeAnd result
        (λ r. (r.end ≡ m.end) × (text_bytes r.text ≡ take m.len (string_bytes text)))) }
{
    match mark {
        None => None,
        Some(mark) => {
            text.truncate(mark.len);
            Some(Single {
                text: Text::Owned(OwnedText::new(text)),
                end: mark.end,
            })
        }
    }
}
