//! Keys on their lines, and nodes that are not block scalars. Offsets count bytes.
ghost use Rattle.std.specs.Str.{IsCharBoundary};
ghost use Rattle.yf_diagnose.specs.SecondReadings.{IsDiagnosed, IsReadFrom};

use crate::brackets::brackets_end;
use crate::diagnosis::{Diagnosis, Mistake, after, here, refused};
use crate::joined::{is_below_header, joined_why};
use crate::leaves::is_second;
use crate::lines::{Margin, line_ends};
use crate::look::{has_unspaced_colon, is_indicator_at, line_start, whites_before};
use crate::plain::{plain_begun, plain_end};
use crate::property::{is_property_at, name_end, property_end};
use crate::quoted::quoted_end;
use crate::standing::key_line;
use crate::why::Why;
use yf_chars::context::Ctx;
use yf_chars::text::is_char_at;
use yf_lines::basic::skip_whites;
use yf_lines::table::skip_marks;

/// Diagnoses a key at the end of its line, without `:`. The key may begin on an earlier line.
pub(crate) fn without_colon(text: &str, start: usize, stop: usize) -> Diagnosis
    requires start { IsCharBoundary text.now start }
    requires stop { IsCharBoundary text.now stop }
    ensures { IsDiagnosed text.now stop result }
{
    match key_line(text, start) {
        None => here(stop, Why::KeyWithoutColon),
        Some(line) => {
            let at = skip_whites(text, skip_marks(text, line));
            if at > stop {
                return here(stop, Why::KeyWithoutColon);
            }
            key_diagnosis(text, at)
        }
    }
}

/// Diagnoses a `:` after a text of several lines, which may be meant to make a key of only its first line.
pub(crate) fn joined(text: &str, at: usize) -> Diagnosis
    requires { IsCharBoundary text.now at }
    ensures { IsDiagnosed text.now at result }
{
    let start = line_start(text, at);
    match key_line(text, start) {
        None => here(at, joined_why(text, start)),
        Some(line) => {
            if line == start {
                return here(at, joined_why(text, start));
            }
            let first = skip_whites(text, skip_marks(text, line));
            if is_indicator_at(text, first) {
                return here(at, joined_why(text, start));
            }
            if first > at {
                return here(at, joined_why(text, start));
            }
            key_diagnosis(text, first)
        }
    }
}

/// Diagnoses the key that begins at the offset.
pub(crate) fn key_diagnosis(text: &str, at: usize) -> Diagnosis
    requires { IsCharBoundary text.now at }
    ensures { IsDiagnosed text.now at result }
{
    match key_end(text, at) {
        Err(wrong) => after(at, wrong),
        Ok(end) => Diagnosis {
            from: at,
            at: skip_whites(text, end),
            why: colon_why(text, at, end),
        },
    }
}

// Returns why no `:` follows a key between the two offsets.
fn colon_why(text: &str, from: usize, to: usize) -> Why
    requires { IsCharBoundary text.now from }
{
    if is_below_header(text, line_start(text, from)) {
        return Why::LeftOfScalar;
    }
    if plain_begun(text, from, Ctx::FlowOut).is_some() {
        if has_unspaced_colon(text, from, to) {
            return Why::KeyUnspaced;
        }
    }
    Why::KeyWithoutColon
}

// Returns the end of a key on its line.
fn key_end(text: &str, at: usize) -> Result<usize, Mistake>
    requires { IsCharBoundary text.now at }
    ensures { IsReadFrom text.now at result }
{
    let margin = Margin {
        least: 0,
        key: true,
    };
    let mut here = at;
    let mut anchor = false;
    let mut tag = false;
    'properties: while is_property_at(text, here) {
        let is_anchor = is_char_at(text, here, b'&');
        if is_second(is_anchor, anchor, tag) {
            return refused(here, Why::PropertyTwice);
        }
        if is_anchor {
            anchor = true;
        } else {
            tag = true;
        }
        match property_end(text, here) {
            Err(wrong) => return Err(wrong),
            Ok(end) => {
                let next = skip_whites(text, end);
                if line_ends(text, next) {
                    return Ok(end);
                }
                if is_comment_at(text, next) {
                    return Ok(end);
                }
                if next == end {
                    return refused(end, Why::PropertyUnspaced);
                }
                here = next;
            }
        }
    }
    match content_end(text, here, margin) {
        Ok(end) => Ok(end),
        Err(wrong) => Err(wrong),
    }
}

/// Returns the end of a node without properties that is not a block scalar.
pub(crate) fn content_end(text: &str, at: usize, margin: Margin) -> Result<usize, Mistake>
    requires { IsCharBoundary text.now at }
    ensures { IsReadFrom text.now at result }
{
    let read = if is_char_at(text, at, b'"') {
        quoted_end(text, at, margin)
    } else if is_char_at(text, at, b'\'') {
        quoted_end(text, at, margin)
    } else if is_char_at(text, at, b'[') {
        brackets_end(text, at, margin)
    } else if is_char_at(text, at, b'{') {
        brackets_end(text, at, margin)
    } else if is_char_at(text, at, b'*') {
        name_end(text, at)
    } else {
        return Ok(plain_end(text, at, Ctx::FlowOut));
    };
    match read {
        Ok(end) => Ok(end),
        Err(wrong) => Err(wrong),
    }
}

/// Returns whether a comment begins at the offset, after white space.
pub(crate) fn is_comment_at(text: &str, at: usize) -> bool {
    if is_char_at(text, at, b'#') {
        return whites_before(text, at) < at;
    }
    false
}
