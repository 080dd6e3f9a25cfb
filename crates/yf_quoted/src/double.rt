//! The reader of double-quoted scalars. Offsets count bytes.
ghost use Rattle.std.specs.Prelude.{◌≡◌, ◌<◌, ◌≤◌, ◌++◌, ◌+◌, ◌∷◌, [], ℕ, Bool, true, false, List, All, IfSome, IfOk, IfErr, IsCharBoundary, MatchOption, length, encode_utf8_all};
ghost use Rattle.yf_chars.specs.Signs.{DOUBLE_QUOTE};
ghost use Rattle.yf_lines.specs.Basic.{Clear};
ghost use Rattle.yf_lines.specs.FaultPlaces.{IsFirstPlace};
ghost use Rattle.yf_lines.specs.Text.{text_bytes};
ghost use Rattle.yf_quoted.specs.Body.{NoDoubleChar, SimpleChar, DoubleRead, NoDoubleBody, piece, shown};
ghost use Rattle.yf_chars.specs.Chain.{Chain, Stuck, Chosen};
ghost use Rattle.yf_quoted.specs.Quoted as Q;
ghost use Rattle.yf_quoted.specs.Fault.{DoubleFault};
ghost use Rattle.yf_chars.specs.Text.{CharAt};

use crate::filled::push_if_filled;
use crate::gap::{double_gap, lines_width, push_gap};
use crate::simple::{is_wide_at, ordinary_run, simple_char, words_end};
use std::alloc::{AllocError, Global};
use yf_chars::context::Ctx;
use yf_chars::escapes::read_escape;
use yf_chars::text::{is_char_at, peek};
use yf_lines::contexts::is_block;
use yf_lines::fault::Fault;
use yf_lines::place::Position;
use yf_lines::source_text::Src;
use yf_lines::text::{FoundText, OwnedText, Text};
use yf_lines::values::Values;

/// Reads a double-quoted scalar (c-double-quoted(n,c), production 109) that begins at the byte offset. Returns its text
/// and the offset after it, or `None` if no such scalar begins there. `n` is the indentation, from -1.
///
/// The text is a slice of the source if the scalar is on one line without an escape.
///
/// # Errors
///
/// `Fault::EscapeValue` for the first escape whose number is not a character; `Fault::Memory`.
pub fn read_double<'a>(alloc: Global, src: &Src<'a>, at: usize, n: i32, ctx: Ctx) -> FoundText<'a>
    requires { IsCharBoundary src.now.text at }
    ensures reads { IfOk result (λ o. MatchOption o (Stuck (Q.DoubleQuoted src.now.text n ctx at))
        (λ p. (x : List Q.Piece) × (text_bytes p.0 ≡ encode_utf8_all (Q.text_of x)) × (Q.bad_escapes x ≡ [])
        × Chosen (Q.DoubleQuoted src.now.text n ctx at) p.1 x)) }
    ensures refused { IfErr result (λ e. DoubleFault src.now.text n ctx at e) }
    ensures boundary { IfOk result (λ o. IfSome o (λ p. IsCharBoundary src.now.text p.1)) }
{
    match double_in(alloc, src.text(), at, n, ctx) {
        Ok(None) => Ok(None),
        Ok(Some(read)) => match read.bad.first() {
            None => Ok(Some((read.text, read.end))),
            Some(bad) => Err(Fault::EscapeValue {
                place: src.place(*bad),
            }),
        },
        Err(_) => Err(Fault::Memory),
    }
}

/// Reads a double-quoted scalar as `read_double` does, but reads an escape of a number that is no character as U+FFFD.
/// Returns the text, the position of the first such escape, and the offset after the scalar.
///
/// # Errors
///
/// Only `Fault::Memory`.
pub fn scan_double<'a>(
    alloc: Global,
    src: &Src<'a>,
    at: usize,
    n: i32,
    ctx: Ctx,
) -> Result<Option<(Text<'a>, Option<Position>, usize)>, Fault>
    requires { IsCharBoundary src.now.text at }
    ensures reads { IfOk result (λ o. MatchOption o (Stuck (Q.DoubleQuoted src.now.text n ctx at))
        (λ p. (x : List Q.Piece) × (text_bytes p.0 ≡ encode_utf8_all (Q.text_of x))
        × IsFirstPlace src.now.text (Q.bad_escapes x) p.1 × Chosen (Q.DoubleQuoted src.now.text n ctx at) p.2 x)) }
    ensures boundary { IfOk result (λ o. IfSome o (λ p. IsCharBoundary src.now.text p.2)) }
    ensures refused { IfErr result (λ e. e ≡ Fault.Memory) }
{
    match double_in(alloc, src.text(), at, n, ctx) {
        Ok(None) => Ok(None),
        Ok(Some(read)) => {
            let place = match read.bad.first() {
                None => None,
                Some(bad) => Some(src.place(*bad)),
            };
            Ok(Some((read.text, place, read.end)))
        }
        Err(_) => Err(Fault::Memory),
    }
}

/// A double-quoted scalar: its text with U+FFFD for each bad escape, the offsets of the bad escapes, and the offset
/// after the scalar.
#[derive(Drop)]
pub struct Double<'a> {
    pub text: Text<'a>,
    pub bad: Values<usize>,
    pub end: usize,
}

/// Reads a double-quoted scalar as `scan_double` does, in a text without its lines.
#[inline(always)]
pub fn double_in<'a>(
    alloc: Global,
    s: &'a str,
    at: usize,
    n: i32,
    ctx: Ctx,
) -> Result<Option<Double<'a>>, AllocError>
    requires { IsCharBoundary s.now at }
    ensures reads { IfOk result (λ o. MatchOption o (Stuck (Q.DoubleQuoted s.now n ctx at))
        (λ p. (x : List Q.Piece) × (text_bytes p.text ≡ encode_utf8_all (Q.text_of x)) × (p.bad ≡ Q.bad_escapes x)
        × Chosen (Q.DoubleQuoted s.now n ctx at) p.end x)) }
    ensures boundary { IfOk result (λ o. IfSome o (λ p. IsCharBoundary s.now p.end)) }
    ensures order { IfOk result (λ o. IfSome o (λ p. at < p.end)) }
    ensures place { IfOk result (λ o. IfSome o (λ p. All (IsCharBoundary s.now) p.bad)) }
{
    if is_block(ctx) {
        return Ok(None);
    }
    if !is_char_at(s, at, b'"') {
        return Ok(None);
    }
    let width = lines_width(n, ctx);
    match simple_end(s, at + 1) {
        Some(close) => Ok(Some(Double {
            text: Text::Part(&s[at + 1..close]),
            bad: Values::new(alloc),
            end: close + 1,
        })),
        None => match double_body(alloc, s, at + 1, width)? {
            None => Ok(None),
            Some(read) => Ok(Some(read)),
        },
    }
}

// Returns the offset of the closing quote if only characters that represent themselves are before it.
fn simple_end(s: &str, at: usize) -> Option<usize>
    requires { IsCharBoundary s.now at }
    ensures reads { IfSome result (λ j. (x : List ℕ) × Chain (SimpleChar s.now) at j x) }
    ensures boundary { IfSome result (λ j. IsCharBoundary s.now j) }
    ensures order { IfSome result (λ j. at ≤ j) }
    ensures close { IfSome result (λ j. CharAt s.now j DOUBLE_QUOTE (j + 1)) }
{
    let mut end = at;
    'chars: loop {
        if is_wide_at(s, end) {
            match simple_char(s, end) {
                None => return None,
                Some(next) => end = next,
            }
        } else {
            let run_end = ordinary_run(s, end);
            if is_char_at(s, run_end, b'"') {
                return Some(run_end);
            }
            match simple_char(s, run_end) {
                None => return None,
                Some(next) => end = next,
            }
        }
    }
}

// A character and the offset after it; the value is `None` for an escape of a number that is no character.
#[derive(Clone, Copy)]
struct DoubleChar {
    value: Option<char>,
    end: usize,
}

// Reads a character of a double-quoted scalar (nb-double-char, production 107).
fn double_char(s: &str, at: usize) -> Option<DoubleChar>
    requires { IsCharBoundary s.now at }
    ensures reads { MatchOption result (NoDoubleChar s.now at)
        (λ c. Q.DoubleChar s.now at c.end (piece c.value at ∷ []) × Clear s.now at c.end) }
    ensures boundary { IfSome result (λ c. IsCharBoundary s.now c.end) }
    ensures order { IfSome result (λ c. at < c.end) }
{
    match peek(s, at) {
        None => None,
        Some((c, _)) => match simple_char(s, at) {
            Some(end) => Some(DoubleChar {
                value: Some(c),
                end,
            }),
            None => match read_escape(s, at) {
                None => None,
                Some(escape) => Some(DoubleChar {
                    value: char::from_u32(escape.value),
                    end: escape.end,
                }),
            },
        },
    }
}

// Reads the rest of a double-quoted scalar after its opening quote.
fn double_body<'a>(
    alloc: Global,
    s: &'a str,
    at: usize,
    width: Option<usize>,
) -> Result<Option<Double<'a>>, AllocError>
    requires { IsCharBoundary s.now at }
    ensures reads { IfOk result (λ o. MatchOption o (NoDoubleBody s.now width at)
        (λ p. DoubleRead s.now width at (text_bytes p.text) p.bad p.end)) }
    ensures boundary { IfOk result (λ o. IfSome o (λ p. IsCharBoundary s.now p.end)) }
    ensures order { IfOk result (λ o. IfSome o (λ p. at < p.end)) }
    ensures place { IfOk result (λ o. IfSome o (λ p. All (IsCharBoundary s.now) p.bad)) }
{
    let mut text = String::new(alloc);
    let mut bad = Values::new(alloc);
    let mut end = at;
    'chars: loop {
        let word_end = words_end(s, end);
        push_if_filled(&mut text, &s[end..word_end])?;
        let gap = match double_gap(s, word_end, width) {
            None => return Ok(None),
            Some(gap) => gap,
        };
        push_gap(&mut text, s, word_end, gap)?;
        if is_char_at(s, gap.end, b'"') {
            return Ok(Some(Double {
                text: Text::Owned(OwnedText::new(text)),
                bad,
                end: gap.end + 1,
            }));
        }
        match double_char(s, gap.end) {
            None => return Ok(None),
            Some(c) => {
                text.push(shown(c.value))?;
                note_bad(&mut bad, c.value, gap.end)?;
                end = c.end;
            }
        }
    }
}

// Returns the character that is shown for a value: U+FFFD for a bad escape.
fn shown(value: Option<char>) -> char
    ensures { result ≡ shown value }
{
    match value {
        Some(c) => c,
        None => '\u{FFFD}',
    }
}

// Adds the offset to the bad escapes if the value is `None`.
fn note_bad(bad: &mut Values<usize>, value: Option<char>, place: usize) -> Result<(), AllocError>
    ensures { IfOk result (λ _. bad.new ≡ bad.old ++ Q.bad_escapes (piece value place ∷ [])) }
{
    match value {
        Some(_) => Ok(()),
        None => bad.push(place),
    }
}
