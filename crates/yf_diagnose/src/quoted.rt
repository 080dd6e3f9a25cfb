//! Reads quoted text (double quotes, productions 107 to 116; single quotes, productions 117 to 125) to its end. Offsets
//! count bytes.
ghost use Rattle.std.specs.Prelude.{◌+◌, ◌<◌, IfOk, IfErr};
ghost use Rattle.std.specs.Str.{IsCharBoundary};
ghost use Rattle.yf_chars.specs.Text.{CharAt};
ghost use Rattle.yf_diagnose.specs.Quoted.{SignAt};
ghost use Rattle.yf_diagnose.specs.SecondReadings.{NotBefore, IsReadAfter};

use crate::diagnosis::{Mistake, refused};
use crate::lines::{Margin, NextLine, next_line};
use crate::why::Why;
use yf_chars::classes::{is_nb_json, is_white};
use yf_chars::escapes::read_escape;
use yf_chars::text::{is_char_at, peek};
use yf_lines::basic::line_break;

/// A sign in quoted text, and the offset after it.
#[derive(Clone, Copy)]
pub(crate) enum Sign {
    Text(usize),
    White(usize),
    /// The closing quote.
    Quote(usize),
    Break(usize),
    /// A `\` and a line break.
    EscapedBreak(usize),
    /// The end of the text.
    Nothing,
    Wrong(Why),
}

/// Returns the end of the quoted text with its opening quote at the offset. A quote that isn't closed is refused at the
/// opening one.
pub(crate) fn quoted_end(text: &str, at: usize, margin: Margin) -> Result<usize, Mistake>
    requires inside { IsCharBoundary text.now (at + 1) }
    requires boundary { IsCharBoundary text.now at }
    ensures { IsReadAfter text.now at result }
{
    let double = is_char_at(text, at, b'"');
    let mut here = at + 1;
    let mut further = false;
    let mut fresh = false;
    'signs: loop {
        let broken = match sign_at(text, here, double) {
            Sign::Text(next) => {
                here = next;
                fresh = false;
                continue;
            }
            Sign::White(next) => {
                here = next;
                continue;
            }
            Sign::Quote(next) => return Ok(next),
            Sign::Nothing => return refused(at, Why::QuoteOpen),
            Sign::Wrong(why) => return refused(here, why),
            Sign::Break(next) => next,
            Sign::EscapedBreak(next) => {
                if fresh {
                    return refused(here, Why::EscapedBreakFirst);
                }
                next
            }
        };
        if margin.key {
            return refused(at, Why::QuotedKeyOpen);
        }
        match turned(text, at, broken, margin.least, further) {
            Ok(sign) => here = sign,
            Err(told) => return Err(told),
        }
        further = true;
        fresh = true;
    }
}

// Returns the first sign of the next line of the text with its opening quote at `quote`.
fn turned(
    text: &str,
    quote: usize,
    at: usize,
    least: usize,
    further: bool,
) -> Result<usize, Mistake>
    requires quote { IsCharBoundary text.now quote }
    requires line { IsCharBoundary text.now at }
    requires order { quote < at }
    ensures goes { IfOk result (λ sign. NotBefore text.now at sign) }
    ensures told { IfErr result (λ d. NotBefore text.now quote d.at) }
{
    match next_line(text, at, least) {
        NextLine::Goes(sign) => Ok(sign),
        NextLine::Ends => refused(quote, Why::QuoteOpen),
        NextLine::Tab(tab) => {
            if further {
                return refused(tab, Why::TabIndents);
            }
            refused(quote, Why::QuoteLeft)
        }
        NextLine::Left(sign) => {
            if further {
                return refused(sign, Why::LeftInQuotes);
            }
            refused(quote, Why::QuoteLeft)
        }
    }
}

// Returns the sign at the offset, in double or single quotes.
fn sign_at(text: &str, at: usize, double: bool) -> Sign
    requires { IsCharBoundary text.now at }
    ensures { SignAt text.now at result }
{
    if let Some(next) = line_break(text, at) {
        return Sign::Break(next);
    }
    match peek(text, at) {
        None => Sign::Nothing,
        Some((c, next)) => {
            if is_white(c) {
                return Sign::White(next);
            }
            if !is_nb_json(c) {
                return Sign::Wrong(Why::Control);
            }
            if double {
                return double_sign(text, at, c, next);
            }
            if c != '\'' {
                return Sign::Text(next);
            }
            if is_char_at(text, next, b'\'') {
                return Sign::Text(next + 1);
            }
            Sign::Quote(next)
        }
    }
}

// Returns the sign of a character in double quotes.
fn double_sign(text: &str, at: usize, c: char, next: usize) -> Sign
    requires boundary { IsCharBoundary text.now at }
    requires reads { CharAt text.now at c next }
    ensures { SignAt text.now at result }
{
    if c == '"' {
        return Sign::Quote(next);
    }
    if c != '\\' {
        return Sign::Text(next);
    }
    if let Some(after) = line_break(text, next) {
        return Sign::EscapedBreak(after);
    }
    match read_escape(text, at) {
        Some(escape) => Sign::Text(escape.end),
        None => Sign::Wrong(escape_why(text, next)),
    }
}

// Returns why the escape with that letter is invalid.
fn escape_why(text: &str, at: usize) -> Why {
    if is_char_at(text, at, b'x') {
        return Why::EscapeDigits;
    }
    if is_char_at(text, at, b'u') {
        return Why::EscapeDigits;
    }
    if is_char_at(text, at, b'U') {
        return Why::EscapeDigits;
    }
    Why::NoEscape
}
