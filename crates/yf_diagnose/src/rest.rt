//! Reads headers of block scalars (production 162), directives (production 82), and the rest of a line. Offsets count
//! bytes.
ghost use Rattle.std.specs.Prelude.{◌+◌};
ghost use Rattle.std.specs.Str.{IsCharBoundary};
ghost use Rattle.yf_diagnose.specs.SecondReadings.{NotBefore, IsReadFrom, IsReadAfter};

use crate::diagnosis::{Mistake, refused};
use crate::lines::{comment_end, line_ends};
use crate::property::uri_end;
use crate::why::Why;
use yf_chars::classes::is_tag_char;
use yf_chars::runs::{Digits, NsChars, WordChars, skip_while};
use yf_chars::text::{is_char_at, peek};
use yf_lines::basic::{line_break, skip_spaces, skip_whites};

/// Returns the end of a line that holds at most white space and a comment.
pub(crate) fn rest_end(text: &str, at: usize, why: Why) -> Result<usize, Mistake>
    requires { IsCharBoundary text.now at }
    ensures { IsReadFrom text.now at result }
{
    let sign = skip_whites(text, at);
    if is_char_at(text, sign, b'#') {
        if sign == at {
            return refused(sign, Why::CommentUnspaced);
        }
        return match comment_end(text, sign) {
            Ok(end) => Ok(end),
            Err(told) => Err(told),
        };
    }
    if line_ends(text, sign) {
        return Ok(sign);
    }
    refused(sign, why)
}

/// Returns the end of the line of a block scalar's header, with its `|` or `>` at the offset.
pub(crate) fn header_end(text: &str, at: usize) -> Result<usize, Mistake>
    requires { IsCharBoundary text.now (at + 1) }
    ensures { IsReadAfter text.now at result }
{
    match rest_end(text, header_signs_end(text, at + 1), Why::HeaderSign) {
        Ok(end) => Ok(end),
        Err(told) => Err(told),
    }
}

// Returns the end of an optional digit and an optional `+` or `-`, in either order.
fn header_signs_end(text: &str, at: usize) -> usize
    requires { IsCharBoundary text.now at }
    ensures { NotBefore text.now at result }
{
    let digit = digit_passed(text, at);
    let chomp = chomp_passed(text, digit);
    if digit > at {
        return chomp;
    }
    digit_passed(text, chomp)
}

fn digit_passed(text: &str, at: usize) -> usize
    requires { IsCharBoundary text.now at }
    ensures { NotBefore text.now at result }
{
    match peek(text, at) {
        Some(('1'..='9', next)) => next,
        _ => at,
    }
}

fn chomp_passed(text: &str, at: usize) -> usize
    requires { IsCharBoundary text.now at }
    ensures { NotBefore text.now at result }
{
    match peek(text, at) {
        Some(('+' | '-', next)) => next,
        _ => at,
    }
}

/// Returns the end of the blank lines from a line's start on. Refuses the first one that has more spaces than the first
/// line that is not blank.
pub(crate) fn blank_lines_end(text: &str, at: usize) -> Result<usize, Mistake>
    requires { IsCharBoundary text.now at }
    ensures { IsReadFrom text.now at result }
{
    let width = first_width(text, at);
    let mut start = at;
    'lines: loop {
        let sign = skip_spaces(text, start);
        match line_break(text, sign) {
            None => return Ok(sign),
            Some(next) => {
                if sign - start > width {
                    return refused(space_at(text, start, width), Why::LongBlankLine);
                }
                start = next;
            }
        }
    }
}

// Returns the number of spaces before the first line that is not blank.
fn first_width(text: &str, at: usize) -> usize
    requires { IsCharBoundary text.now at }
{
    let mut start = at;
    'lines: loop {
        let sign = skip_spaces(text, start);
        match line_break(text, sign) {
            None => return sign - start,
            Some(next) => start = next,
        }
    }
}

// Returns the offset after `count` spaces, or after all of them if there are fewer.
fn space_at(text: &str, at: usize, count: usize) -> usize
    requires { IsCharBoundary text.now at }
    ensures { NotBefore text.now at result }
{
    let mut end = at;
    'spaces: while is_char_at(text, end, b' ') {
        if end - at >= count {
            return end;
        }
        end += 1;
    }
    end
}

/// Returns the end of the line of the directive with its `%` at the offset.
pub(crate) fn directive_end(text: &str, at: usize) -> Result<usize, Mistake>
    requires { IsCharBoundary text.now (at + 1) }
    ensures { IsReadAfter text.now at result }
{
    let end = skip_while::<NsChars>(text, at + 1);
    let name = &text[at + 1..end];
    let parameters = match name {
        "YAML" => version_end(text, end),
        "TAG" => handle_end(text, end),
        _ => Ok(end),
    };
    match parameters {
        Err(told) => Err(told),
        Ok(follows) => match rest_end(text, follows, Why::AfterDirective) {
            Ok(last) => Ok(last),
            Err(told) => Err(told),
        },
    }
}

// Returns the end of the version after `%YAML`.
fn version_end(text: &str, at: usize) -> Result<usize, Mistake>
    requires { IsCharBoundary text.now at }
    ensures { IsReadFrom text.now at result }
{
    let start = skip_whites(text, at);
    let major = skip_while::<Digits>(text, start);
    if start == at {
        return refused(start, Why::Version);
    }
    if major == start {
        return refused(start, Why::Version);
    }
    if !is_char_at(text, major, b'.') {
        return refused(major, Why::Version);
    }
    let minor = skip_while::<Digits>(text, major + 1);
    if minor == major + 1 {
        return refused(minor, Why::Version);
    }
    Ok(minor)
}

// Returns the end of the handle and the prefix after `%TAG`.
fn handle_end(text: &str, at: usize) -> Result<usize, Mistake>
    requires { IsCharBoundary text.now at }
    ensures { IsReadFrom text.now at result }
{
    let start = skip_whites(text, at);
    if start == at {
        return refused(start, Why::Handle);
    }
    if !is_char_at(text, start, b'!') {
        return refused(start, Why::Handle);
    }
    let word = skip_while::<WordChars>(text, start + 1);
    if is_char_at(text, word, b'!') {
        return match prefix_end(text, word + 1) {
            Ok(end) => Ok(end),
            Err(told) => Err(told),
        };
    }
    if word > start + 1 {
        return refused(word, Why::Handle);
    }
    match prefix_end(text, word) {
        Ok(end) => Ok(end),
        Err(told) => Err(told),
    }
}

// Returns the end of the prefix after a handle.
fn prefix_end(text: &str, at: usize) -> Result<usize, Mistake>
    requires { IsCharBoundary text.now at }
    ensures { IsReadFrom text.now at result }
{
    let start = skip_whites(text, at);
    if start == at {
        return refused(start, Why::Handle);
    }
    if !begins_prefix(text, start) {
        return refused(start, Why::Handle);
    }
    match uri_end(text, start, true) {
        Ok(end) => Ok(end),
        Err(told) => Err(told),
    }
}

fn begins_prefix(text: &str, at: usize) -> bool
    requires { IsCharBoundary text.now at }
{
    match peek(text, at) {
        None => false,
        Some((c, _)) => {
            if matches!(c, '!' | '%') {
                return true;
            }
            is_tag_char(c)
        }
    }
}
