//! White space, line breaks and comments in brackets (s-separate, production 80). Offsets count bytes.
ghost use Rattle.std.specs.Prelude.{◌≤◌, IfSome};
ghost use Rattle.std.specs.Str.{IsCharBoundary};
ghost use Rattle.yf_diagnose.specs.Lines.{NextLineAt};
ghost use Rattle.yf_diagnose.specs.SecondReadings.{NotBefore, IsReadFrom};

use crate::diagnosis::{Mistake, refused};
use crate::lines::{Margin, NextLine, comment_end, next_line};
use crate::why::Why;
use yf_chars::text::is_char_at;
use yf_lines::basic::{line_break, skip_whites};

/// Returns the next sign in brackets. If there is none, the refusal is at the offset after the last sign.
pub(crate) fn gap_end(text: &str, at: usize, margin: Margin) -> Result<usize, Mistake>
    requires { IsCharBoundary text.now at }
    ensures { IsReadFrom text.now at result }
{
    let sign = skip_whites(text, at);
    if is_char_at(text, sign, b'#') {
        if sign > at {
            return comment_passed(text, at, sign, margin);
        }
    }
    if sign == text.len() {
        return refused(at, Why::BracketsOpen);
    }
    match line_break(text, sign) {
        None => Ok(sign),
        Some(next) => {
            if margin.key {
                return refused(sign, Why::KeyOverLines);
            }
            lines_passed(text, at, next, margin.least)
        }
    }
}

// Continues after a comment. The last sign ends at `last`.
fn comment_passed(text: &str, last: usize, at: usize, margin: Margin) -> Result<usize, Mistake>
    requires last { IsCharBoundary text.now last }
    requires boundary { IsCharBoundary text.now at }
    requires order { last ≤ at }
    ensures { IsReadFrom text.now last result }
{
    match comment_end(text, at) {
        Err(told) => Err(told),
        Ok(end) => {
            if margin.key {
                return refused(at, Why::KeyOverLines);
            }
            match line_break(text, end) {
                None => refused(last, Why::BracketsOpen),
                Some(next) => lines_passed(text, last, next, margin.least),
            }
        }
    }
}

// Continues from the start of a line. The last sign ends at `last`.
fn lines_passed(text: &str, last: usize, at: usize, least: usize) -> Result<usize, Mistake>
    requires last { IsCharBoundary text.now last }
    requires boundary { IsCharBoundary text.now at }
    requires order { last ≤ at }
    ensures { IsReadFrom text.now last result }
{
    let mut start = at;
    'lines: loop {
        let line = next_line(text, start, least);
        match comment_of(text, start, line) {
            None => return sign_of(text, last, start, line),
            Some(sign) => match comment_end(text, sign) {
                Err(told) => return Err(told),
                Ok(end) => match line_break(text, end) {
                    None => return refused(last, Why::BracketsOpen),
                    Some(next) => start = next,
                },
            },
        }
    }
}

// Returns the `#` of a line that is a comment.
fn comment_of(text: &str, at: usize, line: NextLine) -> Option<usize>
    requires { NextLineAt text.now at line }
    ensures { IfSome result (λ sign. NotBefore text.now at sign) }
{
    let sign = match line {
        NextLine::Ends => return None,
        NextLine::Goes(sign) | NextLine::Left(sign) => sign,
        NextLine::Tab(tab) => skip_whites(text, tab),
    };
    if is_char_at(text, sign, b'#') {
        return Some(sign);
    }
    None
}

// Returns the first sign of a line that is not a comment.
fn sign_of(text: &str, last: usize, at: usize, line: NextLine) -> Result<usize, Mistake>
    requires last { IsCharBoundary text.now last }
    requires order { last ≤ at }
    requires line { NextLineAt text.now at line }
    ensures { IsReadFrom text.now last result }
{
    match line {
        NextLine::Goes(sign) => Ok(sign),
        NextLine::Ends => refused(last, Why::BracketsOpen),
        NextLine::Tab(tab) => refused(tab, Why::TabIndents),
        NextLine::Left(sign) => refused(sign, left_why(text, sign)),
    }
}

// Returns why a line in brackets can't begin with that sign that far left.
fn left_why(text: &str, at: usize) -> Why {
    if is_char_at(text, at, b']') {
        return Why::BracketLeft;
    }
    if is_char_at(text, at, b'}') {
        return Why::BracketLeft;
    }
    Why::LeftInBrackets
}
