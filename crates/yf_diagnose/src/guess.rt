//! Recognizes texts that look like something other than YAML.
ghost use Rattle.std.specs.Prelude.{◌<◌, IfSome, MatchBool, ⊤, length};

use crate::leaves::is_quote_at;
use crate::lines::{is_break, line_ends};
use crate::look::{line_before, line_start, whites_before, word_before};
use crate::property::is_property_at;
use crate::why::Why;
use yf_chars::text::is_char_at;
use yf_lines::basic::is_white_at;

/// Returns why the text is refused at the offset: another reason if it looks like a template or a merge conflict there.
pub(crate) fn guessed(text: &str, at: usize, why: Why) -> Why {
    if is_certain(why) {
        return why;
    }
    let start = line_start(text, at);
    if is_template(text, start, at) {
        return Why::Template;
    }
    if is_conflict(text, start) {
        return Why::Conflict;
    }
    if start > 0 {
        if is_conflict(text, line_before(text, start)) {
            return Why::Conflict;
        }
    }
    why
}

// Returns whether the reason holds regardless of what the text looks like.
fn is_certain(why: Why) -> bool {
    matches!(
        why,
        Why::QuoteOpen
            | Why::QuoteLeft
            | Why::LeftInQuotes
            | Why::QuotedKeyOpen
            | Why::NoEscape
            | Why::EscapeDigits
            | Why::EscapedBreakFirst
            | Why::TabIndents
            | Why::TabBeforeEntry
            | Why::Control
            | Why::Mark
    )
}

// Returns whether the offset is in the braces of a template, or at the first sign after a node that begins with them.
// Only braces on the same line count, outside of quotes and comments.
fn is_template(text: &str, start: usize, at: usize) -> bool {
    let sign = whites_before(text, at);
    let mut here = start;
    'signs: while here <= at {
        if line_ends(text, here) {
            return false;
        }
        let fresh = is_fresh(text, start, here);
        if begins_comment(text, start, here) {
            return false;
        }
        here = if fresh && is_quote_at(text, here) {
            quote_passed(text, here)
        } else if begins_template(text, here) {
            match template_end(text, here) {
                None => return false,
                Some(end) => {
                    if at < end {
                        return true;
                    }
                    if sign <= end && begins_node(text, here) {
                        return true;
                    }
                    end
                }
            }
        } else {
            here + 1
        };
    }
    false
}

// Returns whether white space, the start of the line or a sign that separates nodes precedes the offset.
fn is_fresh(text: &str, start: usize, at: usize) -> bool {
    if at <= start {
        return true;
    }
    if is_white_at(text, at - 1) {
        return true;
    }
    separates(text, at - 1)
}

// Returns whether a sign that separates nodes is at the offset.
fn separates(text: &str, at: usize) -> bool {
    match text.as_bytes().get(at) {
        Some(byte) => matches!(byte, b':' | b',' | b'[' | b'{'),
        None => false,
    }
}

// Returns whether a comment begins at `at`, on the line that begins at `start`.
fn begins_comment(text: &str, start: usize, at: usize) -> bool {
    if !is_char_at(text, at, b'#') {
        return false;
    }
    if at <= start {
        return true;
    }
    is_white_at(text, at - 1)
}

// Returns the offset after the closing quote of the text with its opening quote at `at`, or the end of the line.
fn quote_passed(text: &str, at: usize) -> usize
    requires { at < length text.now }
    ensures { at < result }
{
    let double = is_char_at(text, at, b'"');
    let mut here = at + 1;
    'bytes: while !line_ends(text, here) {
        if double {
            if is_char_at(text, here, b'"') {
                return here + 1;
            }
            if is_char_at(text, here, b'\\') {
                here += 1;
            }
        } else if is_char_at(text, here, b'\'') {
            return here + 1;
        }
        here += 1;
    }
    here
}

// Returns whether `{{` or `{%` is at the offset, without `$` before it.
fn begins_template(text: &str, at: usize) -> bool
    ensures { MatchBool result (at < length text.now) ⊤ }
{
    if !is_char_at(text, at, b'{') {
        return false;
    }
    if at > 0 {
        if is_char_at(text, at - 1, b'$') {
            return false;
        }
    }
    if is_char_at(text, at + 1, b'{') {
        return true;
    }
    is_char_at(text, at + 1, b'%')
}

// Returns the offset after the `}}` or `%}` that closes the `{{` or `{%` at the offset, on its line.
fn template_end(text: &str, at: usize) -> Option<usize>
    requires { at < length text.now }
    ensures { IfSome result (λ end. at < end) }
{
    let closing = if is_char_at(text, at + 1, b'%') {
        b'%'
    } else {
        b'}'
    };
    let mut here = at + 2;
    'bytes: while here < text.len() {
        if is_break(text, here) {
            return None;
        }
        if is_char_at(text, here, closing) {
            if is_char_at(text, here + 1, b'}') {
                return Some(here + 2);
            }
        }
        here += 1;
    }
    None
}

// Returns whether a node begins at the offset, judged by the signs before it.
fn begins_node(text: &str, at: usize) -> bool {
    let before = whites_before(text, at);
    if before == 0 {
        return true;
    }
    if is_break(text, before - 1) {
        return true;
    }
    if separates(text, before - 1) {
        return true;
    }
    if is_char_at(text, before - 1, b'-') {
        return true;
    }
    if is_char_at(text, before - 1, b'?') {
        return true;
    }
    is_property_at(text, word_before(text, before))
}

// Returns whether the line is a mark of a merge conflict. A line of `<` signs always is; the other marks count only
// below one.
fn is_conflict(text: &str, start: usize) -> bool {
    if begins_conflict(text, start) {
        return true;
    }
    if !goes_on_with_conflict(text, start) {
        return false;
    }
    let mut line = start;
    'lines: while line > 0 {
        line = line_before(text, line);
        if begins_conflict(text, line) {
            return true;
        }
    }
    false
}

// Returns whether the line is seven `<` signs, a space and a name.
fn begins_conflict(text: &str, start: usize) -> bool {
    if !seven_stand(text, start, b'<') {
        return false;
    }
    is_char_at(text, start.saturating_add(7), b' ')
}

// Returns whether the line is seven `=` signs, or begins with seven `|` or `>` signs and a space.
fn goes_on_with_conflict(text: &str, start: usize) -> bool {
    let end = start.saturating_add(7);
    if seven_stand(text, start, b'=') {
        return line_ends(text, end);
    }
    if seven_stand(text, start, b'>') {
        return is_char_at(text, end, b' ');
    }
    if seven_stand(text, start, b'|') {
        return is_char_at(text, end, b' ');
    }
    false
}

fn seven_stand(text: &str, start: usize, sign: u8) -> bool
    requires { sign < 128 }
{
    for index in 0..7 {
        if !is_char_at(text, start.saturating_add(index), sign) {
            return false;
        }
    }
    true
}
