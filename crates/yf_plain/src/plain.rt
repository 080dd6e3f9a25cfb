//! The reader of plain scalars. Offsets count bytes.
ghost use Rattle.std.specs.Prelude.{◌≡◌, ◌+◌, ◌<◌, ◌≤◌, ◌++◌, ℕ, pos, Bool, true, false, List, IfSome, IfOk, IfErr, OnOk, MatchOption, encode_utf8_all};
ghost use Rattle.std.specs.String.{string_bytes};
ghost use Rattle.std.specs.Str.{IsCharBoundary};
ghost use Rattle.yf_chars.specs.Chain.{Chain, Stuck, Chosen};
ghost use Rattle.yf_chars.specs.Class as Class;
ghost use Rattle.yf_chars.specs.Text.{code, before, CharAt};
ghost use Rattle.yf_lines.specs.Basic.{ForbiddenLine, is_block, is_flow, is_key};
ghost use Rattle.yf_lines.specs.Fold.{fold_text};
ghost use Rattle.yf_lines.specs.Text.{text_bytes};
ghost use Rattle.yf_plain.specs.Kept.{is_inside};
ghost use Rattle.yf_plain.specs.Ordinary.{OrdinaryAt};
ghost use Rattle.yf_plain.specs.Plain as P;
ghost use Rattle.yf_plain.specs.Plain.{is_plain_first, is_plain_char, is_sign, Plain, PlainItem, PlainLine, PlainFront, NoNextLine};

use crate::ordinary::{
    is_end_at, is_letter_at, is_ordinary_at, is_text_at, is_worth_a_look, ordinary_lanes,
    outer_lanes,
};
use std::alloc::{AllocError, Global};
use yf_chars::classes::{is_indicator, is_ns_char, is_plain_safe};
use yf_chars::context::Ctx;
use yf_chars::text::{is_char_at, peek};
use yf_lines::basic::{is_forbidden_at, skip_whites};
use yf_lines::contexts::{is_block, is_key};
use yf_lines::fault::Fault;
use yf_lines::fold::{flow_folded, indent_width};
use yf_lines::source_text::Src;
use yf_lines::text::{FoundText, OwnedText, Text};

/// Reads a plain scalar (ns-plain(n,c), production 131) that begins at the byte offset. Returns its folded text and the
/// offset after it, or `None` if no plain scalar begins there. `n` is the indentation, from -1.
///
/// In keys it is on one line. No plain scalar covers a document marker at the start of a line. The text is a slice of
/// the source if the scalar is on one line.
///
/// # Errors
///
/// Only `Fault::Memory`.
pub fn read_plain<'a>(alloc: Global, src: &Src<'a>, at: usize, n: i32, ctx: Ctx) -> FoundText<'a>
    requires { IsCharBoundary src.now.text at }
    ensures reads { IfOk result (λ o. MatchOption o (Stuck (Plain src.now.text n ctx at))
        (λ p. (x : List ℕ) × (text_bytes p.0 ≡ encode_utf8_all x) × Chosen (Plain src.now.text n ctx at) p.1 x)) }
    ensures boundary { IfOk result (λ o. IfSome o (λ p. IsCharBoundary src.now.text p.1)) }
    ensures refused { IfErr result (λ e. e ≡ Fault.Memory) }
{
    read_plain_in(alloc, src.text(), at, n, ctx)
}

/// Reads a plain scalar as `read_plain` does, in a text without its lines.
pub fn read_plain_in<'a>(alloc: Global, s: &'a str, at: usize, n: i32, ctx: Ctx) -> FoundText<'a>
    requires { IsCharBoundary s.now at }
    ensures reads { IfOk result (λ o. MatchOption o (Stuck (Plain s.now n ctx at))
        (λ p. (x : List ℕ) × (text_bytes p.0 ≡ encode_utf8_all x) × Chosen (Plain s.now n ctx at) p.1 x)) }
    ensures boundary { IfOk result (λ o. IfSome o (λ p. IsCharBoundary s.now p.1)) }
    ensures order { IfOk result (λ o. IfSome o (λ p. at < p.1)) }
    ensures refused { IfErr result (λ e. e ≡ Fault.Memory) }
{
    if is_block(ctx) {
        return Ok(None);
    }
    match read_plain_line(s, at, ctx) {
        None => Ok(None),
        Some(end) => {
            let one_line = Text::Part(&s[at..end]);
            if is_key(ctx) {
                return Ok(Some((one_line, end)));
            }
            match indent_width(n) {
                None => Ok(Some((one_line, end))),
                Some(width) => match next_line(s, end, width, ctx) {
                    None => Ok(Some((one_line, end))),
                    Some(_) => match plain_lines(alloc, s, at, end, width, ctx) {
                        Ok(lines) => Ok(Some((Text::Owned(OwnedText::new(lines.text)), lines.end))),
                        Err(_) => Err(Fault::Memory),
                    },
                },
            }
        }
    }
}

// Returns whether the context is within a flow collection.
fn is_inside(ctx: Ctx) -> bool
    ensures { result ≡ is_inside ctx }
{
    matches!(ctx, Ctx::FlowIn | Ctx::FlowKey)
}

// The text of a plain scalar over several lines, and the offset after it.
#[derive(Drop)]
struct Lines {
    text: String,
    end: usize,
}

// Reads the plain scalar at the offset, with a first line that ends at `first_end`.
fn plain_lines(
    alloc: Global,
    s: &str,
    at: usize,
    first_end: usize,
    width: usize,
    ctx: Ctx,
) -> Result<Lines, AllocError>
    requires start { IsCharBoundary s.now at }
    requires boundary { IsCharBoundary s.now first_end }
    requires flow { is_flow ctx ≡ true }
    requires first { (x : List ℕ) × PlainFront s.now ctx at first_end x }
    requires all { Stuck (PlainItem s.now ctx first_end) }
    ensures reads { IfOk result (λ l. (x : List ℕ) × (string_bytes l.text ≡ encode_utf8_all x)
        × Chosen (Plain s.now (pos width) ctx at) l.end x) }
    ensures boundary { IfOk result (λ l. IsCharBoundary s.now l.end) }
{
    let mut text = String::from_str(alloc, &s[at..first_end])?;
    let mut end = first_end;
    'lines: loop {
        match next_line(s, end, width, ctx) {
            None => return Ok(Lines { text, end }),
            Some(line) => {
                push_fold(&mut text, line.feeds)?;
                text.push_str(&s[line.start..line.end])?;
                end = line.end;
            }
        }
    }
}

// Appends the meaning of a fold with `feeds` empty lines.
fn push_fold(text: &mut String, feeds: usize) -> Result<(), AllocError>
    ensures { OnOk result (string_bytes text.new ≡ string_bytes text.old ++ fold_text feeds) }
{
    if feeds == 0 {
        return text.push(' ');
    }
    'feeds: for _ in 0..feeds {
        text.push('\n')?;
    }
    Ok(())
}

// The next line of a plain scalar: the number of empty lines before it, its first character, and its end.
#[derive(Clone, Copy)]
struct NextLine {
    feeds: usize,
    start: usize,
    end: usize,
}

// Reads the next line of a plain scalar after the end of one of its lines (s-ns-plain-next-line(n,c), production 134).
#[inline(always)]
fn next_line(s: &str, at: usize, width: usize, ctx: Ctx) -> Option<NextLine>
    requires { IsCharBoundary s.now at }
    ensures reads { MatchOption result (NoNextLine s.now (pos width) ctx at)
        (λ l. P.NextLine s.now (pos width) ctx at l.feeds l.start l.end) }
    ensures boundary { IfSome result (λ l. IsCharBoundary s.now l.start × IsCharBoundary s.now l.end) }
    ensures order { IfSome result (λ l. (at < l.start) × (l.start ≤ l.end)) }
{
    match flow_folded(s, at, width) {
        None => None,
        Some(fold) => {
            if is_forbidden_at(s, fold.end) {
                return None;
            }
            match plain_char(s, fold.end, ctx, false) {
                None => None,
                Some(end) => Some(NextLine {
                    feeds: fold.feeds,
                    start: fold.end,
                    end: plain_in_line(s, end, ctx),
                }),
            }
        }
    }
}

/// Reads the first line of a plain scalar (ns-plain-one-line(c), production 133). Returns the byte offset after it, or
/// `None` if no plain scalar begins there.
///
/// In a key this is the whole scalar.
#[inline(always)]
pub fn read_plain_line(s: &str, at: usize, ctx: Ctx) -> Option<usize>
    requires { IsCharBoundary s.now at }
    ensures reads { MatchOption result (Stuck (PlainFront s.now ctx at)) (λ j. (x : List ℕ) × Chosen (PlainFront s.now ctx at) j x) }
    ensures boundary { IfSome result (λ j. IsCharBoundary s.now j) }
    ensures order { IfSome result (λ j. at < j) }
    ensures all { IfSome result (λ j. Stuck (PlainItem s.now ctx j)) }
{
    match front_char(s, at, ctx) {
        None => None,
        Some(end) => Some(plain_in_line(s, end, ctx)),
    }
}

// Returns the offset after the first character of a plain scalar, at which no forbidden line begins. Most are letters,
// which need one test.
#[inline(always)]
fn front_char(s: &str, at: usize, ctx: Ctx) -> Option<usize>
    requires { IsCharBoundary s.now at }
    ensures { MatchOption result (Stuck (PlainFront s.now ctx at))
        (λ j. (ForbiddenLine s.now at → ⊥) × (is_plain_first s.now ctx at ≡ true) × CharAt s.now at (code s.now at) j) }
{
    if is_letter_at(s, at) {
        return Some(at + 1);
    }
    if is_forbidden_at(s, at) {
        return None;
    }
    match plain_first(s, at, ctx) {
        None => None,
        Some(end) => Some(end),
    }
}

// Returns the offset after all further characters of a plain scalar on its line (nb-ns-plain-in-line(c), production
// 132).
#[inline(always)]
fn plain_in_line(s: &str, at: usize, ctx: Ctx) -> usize
    requires boundary { IsCharBoundary s.now at }
    requires follows { Class.is_ns_char (before s.now at) ≡ true }
    ensures reads { (x : List ℕ) × Chain (PlainItem s.now ctx) at result x }
    ensures all { Stuck (PlainItem s.now ctx result) }
    ensures boundary { IsCharBoundary s.now result }
    ensures order { at ≤ result }
{
    let mut end = at;
    'items: loop {
        let word_end = ordinary_run(s, end, ctx);
        match plain_item(s, word_end, ctx) {
            None => return word_end,
            Some(next) => end = next,
        }
    }
}

// Returns the offset after ordinary characters that follow a character of content: after all of them, or after those
// among the next 16 bytes. Outside flow collections, commas and brackets count too. Block contexts have no scalars, so
// it passes none there.
#[inline(always)]
fn ordinary_run(s: &str, at: usize, ctx: Ctx) -> usize
    requires boundary { IsCharBoundary s.now at }
    requires follows { Class.is_ns_char (before s.now at) ≡ true }
    ensures reads { (x : List ℕ) × Chain (PlainItem s.now ctx) at result x }
    ensures follows { Class.is_ns_char (before s.now result) ≡ true }
    ensures boundary { IsCharBoundary s.now result }
    ensures order { at ≤ result }
{
    if is_block(ctx) {
        return at;
    }
    let bytes = s.as_bytes();
    if bytes.len() - at >= 16 {
        if !is_worth_a_look(bytes[at]) {
            return at;
        }
        if is_inside(ctx) {
            return at + ordinary_lanes(bytes, at);
        }
        return at + outer_lanes(bytes, at);
    }
    let mut end = at;
    while is_ordinary_at(s, end) {
        end += 1;
    }
    end
}

// Returns the offset after white space and one more character. Usually that is one space and an ordinary character.
#[inline(always)]
fn plain_item(s: &str, at: usize, ctx: Ctx) -> Option<usize>
    requires boundary { IsCharBoundary s.now at }
    requires follows { Class.is_ns_char (before s.now at) ≡ true }
    ensures reads { MatchOption result (Stuck (PlainItem s.now ctx at)) (λ j. (x : List ℕ) × PlainItem s.now ctx at j x) }
    ensures follows { IfSome result (λ j. Class.is_ns_char (before s.now j) ≡ true) }
    ensures boundary { IfSome result (λ j. IsCharBoundary s.now j) }
    ensures order { IfSome result (λ j. at < j) }
{
    if is_text_at(s, at) {
        return match plain_char(s, at, ctx, true) {
            None => None,
            Some(end) => Some(end),
        };
    }
    if is_char_at(s, at, b' ') {
        if is_plain_char_at(s, at + 1, ctx) {
            return Some(at + 2);
        }
    }
    if is_end_at(s, at) {
        return None;
    }
    let start = skip_whites(s, at);
    match plain_char(s, start, ctx, start == at) {
        None => None,
        Some(end) => Some(end),
    }
}

// Returns whether an ordinary character begins there, in a context of scalars.
#[inline(always)]
fn is_plain_char_at(s: &str, at: usize, ctx: Ctx) -> bool
    ensures { result ≡ true → OrdinaryAt s.now ctx at }
{
    if is_block(ctx) {
        return false;
    }
    is_ordinary_at(s, at)
}

// Returns the offset after the character there, if a plain scalar may contain it (ns-plain-char(c), production 130).
// `after_char` says whether a character of content is before it.
#[inline(always)]
fn plain_char(s: &str, at: usize, ctx: Ctx, after_char: bool) -> Option<usize>
    requires boundary { IsCharBoundary s.now at }
    requires lookbehind { Class.is_ns_char (before s.now at) ≡ after_char }
    ensures { MatchOption result (is_plain_char s.now ctx at ≡ false)
        (λ j. (is_plain_char s.now ctx at ≡ true) × CharAt s.now at (code s.now at) j) }
{
    match peek(s, at) {
        None => None,
        Some((c, end)) => {
            if c == ':' {
                if is_safe_at(s, end, ctx) {
                    return Some(end);
                }
                return None;
            }
            if c == '#' {
                if after_char {
                    return Some(end);
                }
                return None;
            }
            if is_plain_safe(c, ctx) {
                return Some(end);
            }
            None
        }
    }
}

// Returns the offset after the character there, if it may begin a plain scalar (ns-plain-first(c), production 126).
fn plain_first(s: &str, at: usize, ctx: Ctx) -> Option<usize>
    requires { IsCharBoundary s.now at }
    ensures { MatchOption result (is_plain_first s.now ctx at ≡ false)
        (λ j. (is_plain_first s.now ctx at ≡ true) × CharAt s.now at (code s.now at) j) }
{
    match peek(s, at) {
        None => None,
        Some((c, end)) => {
            if is_sign(c) {
                if is_safe_at(s, end, ctx) {
                    return Some(end);
                }
                return None;
            }
            if is_indicator(c) {
                return None;
            }
            if is_ns_char(c) {
                return Some(end);
            }
            None
        }
    }
}

// Returns whether the character is one of the indicators `?`, `:` and `-`.
#[tactic(auto, unfolding(crate::specs::Plain::is_sign))]
fn is_sign(c: char) -> bool
    ensures { result ≡ is_sign c }
{
    matches!(c, '?' | ':' | '-')
}

// Returns whether a character that is safe in plain scalars (ns-plain-safe(c), production 127) begins there.
fn is_safe_at(s: &str, at: usize, ctx: Ctx) -> bool
    requires { IsCharBoundary s.now at }
    ensures { result ≡ Class.is_plain_safe (code s.now at) ctx }
{
    match peek(s, at) {
        Some((c, _)) => is_plain_safe(c, ctx),
        None => false,
    }
}
