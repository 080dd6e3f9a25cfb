//! Reads plain scalars (productions 126 to 135) to their ends. Offsets count bytes.
ghost use Rattle.std.specs.Prelude.{◌≤◌, IfSome};
ghost use Rattle.std.specs.Str.{IsCharBoundary};
ghost use Rattle.yf_diagnose.specs.SecondReadings.{IsAfter, NotBefore};

use crate::lines::{Margin, NextLine, next_line};
use yf_chars::classes::{is_indicator, is_ns_char, is_plain_safe, is_white};
use yf_chars::context::Ctx;
use yf_chars::text::{is_char_at, peek};
use yf_lines::basic::{line_break, skip_whites};

/// Returns whether the character at the offset may be in a plain scalar in that context.
pub(crate) fn is_safe_at(text: &str, at: usize, context: Ctx) -> bool
    requires { IsCharBoundary text.now at }
{
    match peek(text, at) {
        None => false,
        Some((c, _)) => is_plain_safe(c, context),
    }
}

/// Returns the offset after the first character of a plain scalar, if one begins at the offset.
pub(crate) fn plain_begun(text: &str, at: usize, context: Ctx) -> Option<usize>
    requires { IsCharBoundary text.now at }
    ensures { IfSome result (λ next. IsAfter text.now at next) }
{
    match peek(text, at) {
        None => None,
        Some((c, next)) => {
            if matches!(c, '-' | '?' | ':') {
                if is_safe_at(text, next, context) {
                    return Some(next);
                }
                return None;
            }
            if is_indicator(c) {
                return None;
            }
            if is_ns_char(c) {
                return Some(next);
            }
            None
        }
    }
}

/// Returns the end of the text of a plain scalar on its line, from an offset in it on.
pub(crate) fn plain_end(text: &str, at: usize, context: Ctx) -> usize
    requires { IsCharBoundary text.now at }
    ensures { NotBefore text.now at result }
{
    let mut end = at;
    let mut here = at;
    'chars: loop {
        match peek(text, here) {
            None => return end,
            Some((c, next)) => {
                if is_white(c) {
                    here = next;
                    continue;
                }
                if !is_plain_safe(c, context) {
                    return end;
                }
                if c == ':' {
                    if !is_safe_at(text, next, context) {
                        return end;
                    }
                }
                if c == '#' {
                    if here > end {
                        return end;
                    }
                }
                here = next;
                end = next;
            }
        }
    }
}

/// Returns the end of a plain scalar in brackets, on all its lines, from an offset on its first line on.
pub(crate) fn plain_lines_end(text: &str, at: usize, margin: Margin) -> usize
    requires { IsCharBoundary text.now at }
    ensures { NotBefore text.now at result }
{
    let mut end = plain_end(text, at, Ctx::FlowIn);
    'lines: loop {
        if margin.key {
            return end;
        }
        match further_end(text, end, margin.least) {
            None => return end,
            Some(further) => end = further,
        }
    }
}

// Returns the end of the text of a plain scalar on its next line, if it continues there.
fn further_end(text: &str, at: usize, least: usize) -> Option<usize>
    requires { IsCharBoundary text.now at }
    ensures { IfSome result (λ end. IsAfter text.now at end) }
{
    match line_break(text, skip_whites(text, at)) {
        None => None,
        Some(next) => match next_line(text, next, least) {
            NextLine::Goes(sign) => {
                if is_char_at(text, sign, b'#') {
                    return None;
                }
                let end = plain_end(text, sign, Ctx::FlowIn);
                if end == sign {
                    return None;
                }
                Some(end)
            }
            NextLine::Ends | NextLine::Tab(_) | NextLine::Left(_) => None,
        },
    }
}
