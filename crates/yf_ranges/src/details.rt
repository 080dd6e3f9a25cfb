//! The details of a finding at a byte offset, by its rule.
ghost use Rattle.std.specs.Prelude.{◌≡◌};
ghost use Rattle.std.specs.Str.{IsCharBoundary};
ghost use Rattle.yf_ranges.specs.Details.{BreakDetail, CommentDetail, DetailAt, DetailOf, EndsBy, HiddenDetail, IsEmpty, LengthDetail, MarkerDetail};
ghost use Rattle.yf_ranges.specs.Spans.{BlankSpan, CharacterSpan, WhiteSpan};

use crate::detail::{Detail, Message, Span};
use crate::ends::{blank_end, break_end, character_end, line_rest, white_end};
use crate::tabs::has_tab;
use yf_chars::text::{is_char_at, peek};
use yf_forms::style::Style;
use yf_lines::basic::is_forbidden_at;
use yf_rule_sets::facts::whites::whites_before;
use yf_rule_sets::rules::StyleRule;

/// Returns the details of a finding of a rule at a byte offset.
pub fn detail_at(rule: StyleRule, text: &str, style: &Style, offset: usize) -> Detail
    requires { IsCharBoundary text.now offset }
    ensures { DetailAt (DetailOf rule text.now style.now) text.now offset result }
{
    match rule {
        StyleRule::TrailingBlanks => trailing_blanks(text, offset),
        StyleRule::Indentation => character(text, offset, Message::Indentation),
        StyleRule::Quoting => character(text, offset, Message::Quoting),
        StyleRule::DocumentStart => document_start(text, offset),
        StyleRule::FinalBreak => final_break(text, offset),
        StyleRule::LineBreaks => line_breaks(text, offset),
        StyleRule::ByteOrderMark => character(text, offset, Message::ByteOrderMark),
        StyleRule::BlankLines => blank_lines(text, offset),
        StyleRule::FlowLayout => character(text, offset, Message::FlowLayout),
        StyleRule::CommentSpace => comment_space(text, offset),
        StyleRule::LineLength => line_length(text, offset, style.max_line),
        StyleRule::RepeatedKeys => character(text, offset, Message::RepeatedKey),
        StyleRule::KeyMark => character(text, offset, Message::KeyMark),
        StyleRule::HiddenCharacter => hidden_character(text, offset),
    }
}

// Returns the white space from the offset on.
fn trailing_blanks(text: &str, offset: usize) -> Detail
    requires { IsCharBoundary text.now offset }
    ensures { DetailAt (EndsBy (WhiteSpan text.now) Message.TrailingBlanks) text.now offset result }
{
    Detail {
        span: Span {
            start: offset,
            end: white_end(text, offset),
        },
        message: Message::TrailingBlanks,
    }
}

// Returns the character at the offset, with a message.
fn character(text: &str, offset: usize, message: Message) -> Detail
    requires { IsCharBoundary text.now offset }
    ensures { DetailAt (EndsBy (CharacterSpan text.now) message) text.now offset result }
{
    Detail {
        span: Span {
            start: offset,
            end: character_end(text, offset),
        },
        message,
    }
}

// Returns the marker at the offset, or an empty span.
fn document_start(text: &str, offset: usize) -> Detail
    requires { IsCharBoundary text.now offset }
    ensures { DetailAt (MarkerDetail text.now) text.now offset result }
{
    if is_forbidden_at(text, offset) {
        return Detail {
            span: Span {
                start: offset,
                end: offset + 3,
            },
            message: Message::TextAfterMarker,
        };
    }
    Detail {
        span: Span {
            start: offset,
            end: offset,
        },
        message: Message::NoMarker,
    }
}

// Returns an empty span at the offset.
fn final_break(text: &str, offset: usize) -> Detail
    requires { IsCharBoundary text.now offset }
    ensures { DetailAt (EndsBy IsEmpty Message.NoFinalBreak) text.now offset result }
{
    Detail {
        span: Span {
            start: offset,
            end: offset,
        },
        message: Message::NoFinalBreak,
    }
}

// Returns the line break at the offset.
fn line_breaks(text: &str, offset: usize) -> Detail
    requires { IsCharBoundary text.now offset }
    ensures { DetailAt (BreakDetail text.now) text.now offset result }
{
    let end = break_end(text, offset);
    let has_feed = is_char_at(text, offset + 1, b'\n');
    Detail {
        span: Span { start: offset, end },
        message: Message::CarriageReturn { has_feed },
    }
}

// Returns the blank line that begins at the offset.
fn blank_lines(text: &str, offset: usize) -> Detail
    requires { IsCharBoundary text.now offset }
    ensures { DetailAt (EndsBy (BlankSpan text.now) Message.BlankLine) text.now offset result }
{
    Detail {
        span: Span {
            start: offset,
            end: blank_end(text, offset),
        },
        message: Message::BlankLine,
    }
}

// Returns the character at the offset, and the amount of white space before it.
fn comment_space(text: &str, offset: usize) -> Detail
    requires { IsCharBoundary text.now offset }
    ensures { DetailAt (CommentDetail text.now) text.now offset result }
{
    let white = whites_before(text, 0, offset);
    let has_tab = has_tab(text, white, offset);
    Detail {
        span: Span {
            start: offset,
            end: character_end(text, offset),
        },
        message: Message::CommentSpace {
            found: offset - white,
            has_tab,
        },
    }
}

// Returns the rest of the line from the offset on.
fn line_length(text: &str, offset: usize, limit: usize) -> Detail
    requires { IsCharBoundary text.now offset }
    ensures { DetailAt (LengthDetail text.now limit) text.now offset result }
{
    let rest = line_rest(text, offset);
    Detail {
        span: Span {
            start: offset,
            end: rest.end,
        },
        message: Message::LineLength {
            limit,
            over: rest.count,
        },
    }
}

// Returns the character at the offset, by its number.
fn hidden_character(text: &str, offset: usize) -> Detail
    requires { IsCharBoundary text.now offset }
    ensures { DetailAt (HiddenDetail text.now) text.now offset result }
{
    match peek(text, offset) {
        Some((character, next)) => Detail {
            span: Span {
                start: offset,
                end: next,
            },
            message: Message::HiddenCharacter { character },
        },
        None => Detail {
            span: Span {
                start: offset,
                end: offset,
            },
            message: Message::HiddenCharacter { character: '\0' },
        },
    }
}
