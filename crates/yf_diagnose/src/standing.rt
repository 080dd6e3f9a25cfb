//! The standing of a part of a text in the block collections around it, as far as the lines before it show. Offsets
//! count bytes.
ghost use Rattle.std.specs.Prelude.{◌≤◌, IfSome};
ghost use Rattle.std.specs.Str.{IsCharBoundary};

use crate::lines::is_long;
use crate::look::{
    Beginning, Entry, begun_line, entry_in, has_colon, is_indicator_at, is_passed, line_before,
    line_start, text_end, whites_before, word_before,
};
use crate::property::{is_alias_before, is_property_at, is_text_like};
use crate::why::Why;
use yf_chars::text::is_char_at;
use yf_lines::basic::{is_marker_at, skip_spaces, skip_whites};
use yf_lines::table::skip_marks;

/// The standing of a part of a text.
#[derive(Clone, Copy)]
pub(crate) enum Standing {
    /// A node; its lines begin with at least that number of spaces.
    Node(usize),
    /// A key of a mapping; its lines begin with at least that number of spaces.
    Key(usize),
    /// Nothing may be there.
    Beyond(Why),
}

/// Returns the standing of the part that begins at the offset.
pub(crate) fn standing_at(text: &str, at: usize) -> Standing
    requires { IsCharBoundary text.now at }
{
    let start = line_start(text, at);
    let mut from = at;
    'properties: loop {
        let line = begun_line(text, start, from);
        if line.at >= from {
            if line.first {
                return below(text, start, from.saturating_sub(line.base));
            }
            return Standing::Node(line.least);
        }
        let before = whites_before(text, from);
        if before == from {
            return Standing::Beyond(unspaced_why(text, line, at));
        }
        let word = word_before(text, before);
        if !is_property_at(text, word) {
            return after_word(text, line, word, before, at);
        }
        from = word;
    }
}

// Returns the standing of the part at `at`, after a word on its line from `word` to `end` that is not a property.
fn after_word(text: &str, line: Beginning, word: usize, end: usize, at: usize) -> Standing {
    if end == 0 {
        return Standing::Beyond(Why::AfterNode);
    }
    if is_char_at(text, end - 1, b':') {
        if is_named(text, word, end) {
            return Standing::Beyond(alias_why(text, word, end - 1));
        }
        return Standing::Node(line.column.saturating_add(1));
    }
    if is_char_at(text, at, b':') {
        return Standing::Beyond(colon_why(text, line, at));
    }
    if closes(text, end - 1) {
        return Standing::Beyond(Why::AfterBrackets);
    }
    Standing::Beyond(Why::AfterNode)
}

// Returns why a `:` at the end of an alias is not that of a key. The alias is between the offsets.
fn alias_why(text: &str, from: usize, to: usize) -> Why {
    if is_text_like(text, from.saturating_add(1), to) {
        return Why::TextAsAlias;
    }
    Why::ColonOfAlias
}

// Returns whether an alias is between the offsets.
fn is_named(text: &str, word: usize, end: usize) -> bool {
    if is_char_at(text, word, b'*') {
        return end > word.saturating_add(1);
    }
    false
}

/// Returns whether a closing bracket is at the offset.
pub(crate) fn closes(text: &str, at: usize) -> bool {
    if is_char_at(text, at, b']') {
        return true;
    }
    is_char_at(text, at, b'}')
}

// Returns why nothing may be at the offset without white space before it.
fn unspaced_why(text: &str, line: Beginning, at: usize) -> Why {
    if is_char_at(text, at, b'#') {
        return Why::CommentUnspaced;
    }
    if is_char_at(text, at, b':') {
        return colon_why(text, line, at);
    }
    if at == 0 {
        return Why::AfterNode;
    }
    if is_char_at(text, at - 1, b'\'') {
        return Why::AfterSingle;
    }
    if closes(text, at - 1) {
        return Why::AfterBrackets;
    }
    if is_alias_before(text, at) {
        return Why::TextAsAlias;
    }
    Why::AfterNode
}

// Returns why no `:` may be at the offset.
fn colon_why(text: &str, line: Beginning, at: usize) -> Why {
    if line.marker {
        return Why::OnDocumentLine;
    }
    if is_long(text, line.at, at) {
        return Why::LongKey;
    }
    let word = word_before(text, at);
    if is_char_at(text, word, b'*') {
        if is_char_at(text, at.saturating_sub(1), b':') {
            return Why::ColonOfAlias;
        }
    }
    if has_colon(text, line.at, at) {
        return Why::MappingInLine;
    }
    if !is_indicator_at(text, at) {
        return Why::ColonUnspaced;
    }
    if line.first {
        return Why::LineJoined;
    }
    let first = skip_whites(text, skip_marks(text, line_start(text, at)));
    if is_char_at(text, first, b'-') {
        return Why::ItemBelowText;
    }
    Why::MappingInLine
}

// The lines between a line and the last one looked at.
#[derive(Clone, Copy)]
struct Above {
    // Whether none of them has text.
    adjacent: bool,
    // Whether a line has an item in the column.
    dashed: bool,
    // Whether all lines with text begin right of the column.
    left: bool,
}

// Returns the standing of the first sign of a line, in a column.
fn below(text: &str, start: usize, column: usize) -> Standing
    requires { IsCharBoundary text.now start }
{
    let mut above = Above {
        adjacent: true,
        dashed: false,
        left: true,
    };
    let mut wanted = column;
    let mut line = start;
    'lines: while line > 0 {
        line = line_before(text, line);
        if is_passed(text, line) {
            continue;
        }
        match below_line(text, line, wanted, above) {
            Step::Found(standing) => return standing,
            Step::Column(indent) => wanted = indent,
            Step::Above(further) => above = further,
        }
    }
    at_top(above)
}

// The result of a line for a part below it in a column.
#[derive(Clone, Copy)]
enum Step {
    Found(Standing),
    // The line has only properties: its column replaces the column wanted.
    Column(usize),
    Above(Above),
}

fn below_line(text: &str, line: usize, column: usize, above: Above) -> Step
    requires { IsCharBoundary text.now line }
{
    let begun = begun_line(text, line, text.len());
    if begun.marker {
        return Step::Found(below_marker(text, begun, above));
    }
    let indent = indent_of(text, line);
    if indent > column {
        return Step::Above(Above {
            adjacent: false,
            ..above
        });
    }
    match entry_in(text, line, column) {
        Entry::Key => return Step::Found(Standing::Key(column.saturating_add(1))),
        Entry::Item => {
            if indent < column {
                return Step::Found(Standing::Beyond(Why::KeyInSequence));
            }
            return Step::Above(Above {
                adjacent: false,
                dashed: true,
                left: false,
            });
        }
        Entry::Nothing => {}
    }
    if above.adjacent {
        if is_char_at(text, begun.base, b'%') {
            return Step::Found(Standing::Beyond(Why::NoDocumentStart));
        }
        if awaits(text, begun) {
            return awaited(text, begun, indent);
        }
    }
    if indent < column {
        return Step::Found(Standing::Beyond(right_why(text, begun, column, above)));
    }
    Step::Above(Above {
        adjacent: false,
        left: false,
        ..above
    })
}

// Returns the number of spaces that begin a line.
fn indent_of(text: &str, line: usize) -> usize
    requires { IsCharBoundary text.now line }
{
    let base = skip_marks(text, line);
    skip_spaces(text, base) - base
}

// Returns the standing of a part below a document marker.
fn below_marker(text: &str, line: Beginning, above: Above) -> Standing {
    if above.adjacent {
        if is_char_at(text, line.base, b'.') {
            return Standing::Node(0);
        }
        if awaits(text, line) {
            return Standing::Node(0);
        }
    }
    at_top(Above {
        adjacent: false,
        left: false,
        ..above
    })
}

// Returns the standing of a part if no line above decides it.
fn at_top(above: Above) -> Standing {
    if above.dashed {
        return Standing::Beyond(Why::KeyInSequence);
    }
    if above.adjacent {
        return Standing::Node(0);
    }
    if above.left {
        return Standing::Beyond(Why::LeftOfRoot);
    }
    Standing::Beyond(Why::NodeEnded)
}

/// Returns whether a line ends with an indicator or a property, so that a node may follow below.
pub(crate) fn awaits(text: &str, line: Beginning) -> bool {
    let end = text_end(text, line.base);
    if line.at >= end {
        return true;
    }
    if is_char_at(text, end.saturating_sub(1), b':') {
        return true;
    }
    is_property_at(text, word_before(text, end))
}

// Returns the node that a line awaits. The line begins with `indent` spaces.
fn awaited(text: &str, line: Beginning, indent: usize) -> Step {
    if line.at >= text_end(text, line.base) {
        return Step::Found(Standing::Node(line.least));
    }
    if line.first {
        if is_property_at(text, line.at) {
            if !has_colon(text, line.at, text.len()) {
                return Step::Column(indent);
            }
        }
    }
    Step::Found(Standing::Node(line.column.saturating_add(1)))
}

// Returns why nothing may be in a column below a line that begins left of it.
fn right_why(text: &str, line: Beginning, column: usize, above: Above) -> Why {
    let end = text_end(text, line.base);
    let word = word_before(text, end);
    if is_char_at(text, word, b'|') {
        return Why::LeftInScalar;
    }
    if is_char_at(text, word, b'>') {
        return Why::LeftInScalar;
    }
    if !above.left {
        if awaits(text, line) {
            return column_why(above);
        }
    }
    if above.adjacent {
        if line.column <= column {
            return Why::RightOfEntries;
        }
    }
    Why::NoSuchColumn
}

// Returns why nothing may be in the column of a node that a line above awaits: the node is a list, or it has ended.
fn column_why(above: Above) -> Why {
    if above.dashed {
        return Why::KeyInSequence;
    }
    Why::NodeEnded
}

/// Returns the start of the line with the start of the key that continues over all lines to the one that begins at
/// `start`.
pub(crate) fn key_line(text: &str, start: usize) -> Option<usize>
    requires { IsCharBoundary text.now start }
    ensures { IfSome result (λ line. IsCharBoundary text.now line × (line ≤ start)) }
{
    let mut key = start;
    let mut column = indent_of(text, start);
    let mut line = start;
    'lines: while line > 0 {
        line = line_before(text, line);
        if is_passed(text, line) {
            continue;
        }
        if is_marker_at(text, skip_marks(text, line)) {
            return None;
        }
        let indent = indent_of(text, line);
        if indent > column {
            continue;
        }
        match entry_in(text, line, column) {
            Entry::Key => return Some(key),
            Entry::Item => {
                if indent == column {
                    continue;
                }
            }
            Entry::Nothing => {}
        }
        if has_colon(text, line, text.len()) {
            return None;
        }
        key = line;
        column = indent;
    }
    None
}
