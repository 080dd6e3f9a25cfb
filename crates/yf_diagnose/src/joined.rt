//! Lines that continue the text of lines above them. Offsets count bytes.
ghost use Rattle.std.specs.Prelude.{◌≤◌, IfSome};
ghost use Rattle.std.specs.Str.{IsCharBoundary};

use crate::brackets::is_bracket_at;
use crate::leaves::is_quote_at;
use crate::look::{
    begun_line, has_colon, has_unspaced_colon, is_indicator_at, is_passed, line_before, text_end,
    word_before,
};
use crate::standing::awaits;
use crate::why::Why;
use yf_chars::text::is_char_at;
use yf_lines::basic::skip_whites;
use yf_lines::table::skip_marks;

/// Returns why a line that continues the text of lines above can't be a key. It depends on the start of that text.
pub(crate) fn joined_why(text: &str, start: usize) -> Why
    requires { IsCharBoundary text.now start }
{
    let mut first = start;
    let mut count: usize = 0;
    let mut line = start;
    'lines: while line > 0 {
        line = line_before(text, line);
        if is_passed(text, line) {
            continue;
        }
        match beginning_on(text, line) {
            Beginning::Above => {
                first = line;
                count = count.saturating_add(1);
            }
            Beginning::Below => break,
            Beginning::Here(why) => return why,
        }
    }
    if count == 0 {
        return Why::LineJoined;
    }
    let sign = skip_whites(text, skip_marks(text, start));
    if is_char_at(text, sign, b'-') && !is_indicator_at(text, sign) {
        return Why::DashUnspaced;
    }
    lines_why(text, first, count)
}

/// Returns why an item with a key can't begin on a line that continues the text of lines above.
pub(crate) fn item_why(text: &str, start: usize) -> Why
    requires { IsCharBoundary text.now start }
{
    match joined_why(text, start) {
        Why::KeyWithoutColonAbove => Why::KeyWithoutColonAbove,
        Why::KeyUnspacedAbove => Why::KeyUnspacedAbove,
        _ => Why::ItemBelowText,
    }
}

// The start of a text that continues below a line.
#[derive(Clone, Copy)]
enum Beginning {
    Above,
    Below,
    // On the line, after a key or an indicator.
    Here(Why),
}

fn beginning_on(text: &str, line: usize) -> Beginning
    requires { IsCharBoundary text.now line }
{
    let begun = begun_line(text, line, text.len());
    if awaits(text, begun) {
        return Beginning::Below;
    }
    if has_colon(text, begun.at, text.len()) {
        return Beginning::Here(Why::DeeperThanKey);
    }
    if begun.first {
        return Beginning::Above;
    }
    if has_unspaced_colon(text, begun.at, text_end(text, begun.at)) {
        return Beginning::Here(Why::KeyUnspacedAbove);
    }
    if begun.marker {
        return Beginning::Here(Why::LineJoined);
    }
    Beginning::Here(Why::DeeperThanItem)
}

// Returns why a text that begins with a whole line can't be a key. `count` is the number of its lines before the last
// one.
fn lines_why(text: &str, first: usize, count: usize) -> Why
    requires { IsCharBoundary text.now first }
{
    let sign = skip_whites(text, skip_marks(text, first));
    if is_quote_at(text, sign) {
        return Why::QuotedKeyOpen;
    }
    if is_bracket_at(text, sign) {
        return Why::KeyOverLines;
    }
    if has_unspaced_colon(text, sign, text_end(text, sign)) {
        return Why::KeyUnspacedAbove;
    }
    if count > 1 {
        return Why::LineJoined;
    }
    Why::KeyWithoutColonAbove
}

/// Returns whether the last line above that has text ends with the header of a block scalar.
pub(crate) fn is_below_header(text: &str, start: usize) -> bool {
    let mut line = start;
    'lines: while line > 0 {
        line = line_before(text, line);
        if !is_passed(text, line) {
            let word = word_before(text, text_end(text, line));
            if is_char_at(text, word, b'|') {
                return true;
            }
            return is_char_at(text, word, b'>');
        }
    }
    false
}
