//! The words of messages.
ghost use Rattle.std.specs.Prelude.{◌≡◌, ◌++◌, ◌<◌, decimal, string_bytes, OnOk};
ghost use Rattle.yf_ranges.specs.Words as spec;

use crate::detail::{Message, ScalarStyle};
use itoa::Buffer;
use std::alloc::AllocError;

/// Appends the words of a message: what is wrong, and what the house style expects.
///
/// # Errors
///
/// `AllocError` if memory is refused.
pub fn write_message(out: &mut String, message: &Message) -> Result<(), AllocError>
    ensures { OnOk result (string_bytes out.new ≡ string_bytes out.old ++ spec.message_words message.now) }
{
    match *message {
        Message::CommentSpace { found, has_tab } => write_comment(out, found, has_tab),
        Message::LineLength { limit, over } => write_length(out, limit, over),
        Message::Quotes { found, expected } => write_quotes(out, found, expected),
        Message::Indented { found, expected } => write_indented(out, found, expected),
        Message::CarriageReturn { has_feed } => out.push_str(break_words(has_feed)),
        Message::HiddenCharacter { character } => write_hidden(out, character),
        Message::LongFlow { limit } => write_long(out, limit),
        Message::FlowText {
            after,
            found,
            expected,
        } => write_flow(out, after, found, expected),
        _ => out.push_str(fixed_words(message)),
    }
}

// Returns the words of a message without values.
fn fixed_words(message: &Message) -> &'static str
    ensures { result.now ≡ spec.fixed_words message.now }
{
    match message {
        Message::TrailingBlanks => "white space at the end of the line",
        Message::Indentation => "indentation differs from the house style",
        Message::Quoting => "scalar style differs from the house style",
        Message::NoMarker => "no `---` before the document",
        Message::TextAfterMarker => "text after `---`, expected on the next line",
        Message::NoFinalBreak => "no line break at the end of the text",
        Message::ByteOrderMark => "byte order mark outside scalars",
        Message::BlankLine => "needless blank line",
        Message::FlowLayout => "brackets are not laid out as in the house style",
        Message::FlowStyle => "flow style, expected block style",
        Message::BrokenFlow => "over several lines, expected one line",
        Message::RepeatedKey => "the mapping already has this key",
        Message::KeyMark => "`?` before a key that needs none",
        _ => "",
    }
}

fn break_words(has_feed: bool) -> &'static str
    ensures { result.now ≡ spec.break_words has_feed }
{
    if has_feed {
        "line ends with CR LF, expected LF"
    } else {
        "line ends with CR, expected LF"
    }
}

fn write_comment(out: &mut String, found: usize, has_tab: bool) -> Result<(), AllocError>
    ensures { OnOk result (string_bytes out.new ≡ string_bytes out.old ++ spec.comment_words found has_tab) }
{
    if has_tab {
        return out.push_str("a tab before the comment, expected 2 spaces");
    }
    write_spaces(out, found)?;
    out.push_str(" before the comment, expected 2")
}

fn write_spaces(out: &mut String, found: usize) -> Result<(), AllocError>
    ensures { OnOk result (string_bytes out.new ≡ string_bytes out.old ++ spec.space_words found) }
{
    if found == 0 {
        return out.push_str("no space");
    }
    if found == 1 {
        return out.push_str("one space");
    }
    write_number(out, found)?;
    out.push_str(" spaces")
}

fn write_length(out: &mut String, limit: usize, over: usize) -> Result<(), AllocError>
    ensures { OnOk result (string_bytes out.new ≡ string_bytes out.old ++ spec.length_words limit over) }
{
    out.push_str("longer than ")?;
    write_number(out, limit)?;
    out.push_str(" columns (by ")?;
    write_number(out, over)?;
    out.push_str(")")
}

fn write_quotes(
    out: &mut String,
    found: ScalarStyle,
    expected: ScalarStyle,
) -> Result<(), AllocError>
    ensures { OnOk result (string_bytes out.new ≡ string_bytes out.old ++ spec.quote_words found expected) }
{
    out.push_str(style_words(found))?;
    out.push_str(", expected ")?;
    out.push_str(style_words(expected))
}

fn write_indented(out: &mut String, found: usize, expected: usize) -> Result<(), AllocError>
    ensures { OnOk result (string_bytes out.new ≡ string_bytes out.old ++ spec.indent_words found expected) }
{
    out.push_str("indented by ")?;
    write_number(out, found)?;
    write_expected(out, expected)
}

fn write_expected(out: &mut String, expected: usize) -> Result<(), AllocError>
    ensures { OnOk result (string_bytes out.new ≡ string_bytes out.old ++ spec.expected_words expected) }
{
    out.push_str(", expected ")?;
    write_number(out, expected)
}

fn write_long(out: &mut String, limit: usize) -> Result<(), AllocError>
    ensures { OnOk result (string_bytes out.new ≡ string_bytes out.old ++ spec.long_words limit) }
{
    out.push_str("too long for one line of ")?;
    write_number(out, limit)?;
    out.push_str(" columns, expected block style")
}

fn write_flow(
    out: &mut String,
    after: Option<u8>,
    found: Option<u8>,
    expected: Option<u8>,
) -> Result<(), AllocError>
    ensures { OnOk result (string_bytes out.new ≡ string_bytes out.old ++ spec.flow_words after found expected) }
{
    write_place(out, after, found, expected)?;
    out.push_str(", expected ")?;
    write_wanted(out, found, expected)
}

fn write_place(
    out: &mut String,
    after: Option<u8>,
    found: Option<u8>,
    expected: Option<u8>,
) -> Result<(), AllocError>
    ensures { OnOk result (string_bytes out.new ≡ string_bytes out.old ++ spec.place_words after found expected) }
{
    write_found(out, found, expected)?;
    out.push_str(" after ")?;
    write_byte(out, after)
}

fn write_found(out: &mut String, found: Option<u8>, expected: Option<u8>) -> Result<(), AllocError>
    ensures { OnOk result (string_bytes out.new ≡ string_bytes out.old ++ spec.found_words found expected) }
{
    if is_gap(found) {
        return write_byte(out, found);
    }
    if is_gap(expected) {
        return out.push_str("no space");
    }
    write_byte(out, found)
}

fn write_wanted(out: &mut String, found: Option<u8>, expected: Option<u8>) -> Result<(), AllocError>
    ensures { OnOk result (string_bytes out.new ≡ string_bytes out.old ++ spec.wanted_words found expected) }
{
    if is_gap(found) {
        if is_gap(expected) {
            return write_byte(out, expected);
        }
        return out.push_str("none");
    }
    if is_gap(expected) {
        return out.push_str("one");
    }
    write_byte(out, expected)
}

// Returns whether the byte is a space or a tab.
fn is_gap(byte: Option<u8>) -> bool
    ensures { result ≡ spec.is_gap byte }
{
    match byte {
        Some(byte) => byte == b' ' || byte == b'\t',
        None => false,
    }
}

fn write_byte(out: &mut String, byte: Option<u8>) -> Result<(), AllocError>
    ensures { OnOk result (string_bytes out.new ≡ string_bytes out.old ++ spec.byte_words byte) }
{
    match byte {
        Some(byte) => write_sign(out, byte),
        None => out.push_str("nothing"),
    }
}

fn write_sign(out: &mut String, byte: u8) -> Result<(), AllocError>
    ensures { OnOk result (string_bytes out.new ≡ string_bytes out.old ++ spec.sign_words byte) }
{
    if byte == b' ' {
        return out.push_str("a space");
    }
    if byte == b'\t' {
        return out.push_str("a tab");
    }
    if byte < b'!' {
        return out.push_str("a character");
    }
    if byte > b'~' {
        return out.push_str("a character");
    }
    write_marked(out, byte)
}

fn write_marked(out: &mut String, byte: u8) -> Result<(), AllocError>
    ensures { OnOk result (string_bytes out.new ≡ string_bytes out.old ++ spec.marked_words byte) }
{
    out.push_str("`")?;
    out.push(char::from(byte))?;
    out.push_str("`")
}

fn style_words(style: ScalarStyle) -> &'static str
    ensures { result.now ≡ spec.style_words style }
{
    match style {
        ScalarStyle::Plain => "plain style",
        ScalarStyle::Single => "single quotes",
        ScalarStyle::Double => "double quotes",
        ScalarStyle::Literal => "literal style",
        ScalarStyle::Folded => "folded style",
    }
}

fn write_number(out: &mut String, number: usize) -> Result<(), AllocError>
    ensures { OnOk result (string_bytes out.new ≡ string_bytes out.old ++ decimal number) }
{
    out.push_str(Buffer::new().format(number))
}

fn write_hidden(out: &mut String, character: char) -> Result<(), AllocError>
    ensures { OnOk result (string_bytes out.new ≡ string_bytes out.old ++ spec.hidden_words character) }
{
    out.push_str(hidden_lead())?;
    write_code(out, u32::from(character))
}

#[tactic(auto, unfolding(crate::specs::Words::hidden_lead))]
fn hidden_lead() -> &'static str
    ensures { result.now ≡ spec.hidden_lead }
{
    "hidden character U+"
}

// Appends a number in hexadecimal digits, at least four.
fn write_code(out: &mut String, code: u32) -> Result<(), AllocError>
    requires { code < 0x110000 }
    ensures { OnOk result (string_bytes out.new ≡ string_bytes out.old ++ spec.code_digits code) }
{
    write_leading(out, code, 0x100000)?;
    write_leading(out, code, 0x10000)?;
    write_four(out, code)
}

// Appends the digit at a place of a number that is as large as the place.
#[tactic(auto, unfolding(crate::specs::Words::leading_digit))]
fn write_leading(out: &mut String, code: u32, place: u32) -> Result<(), AllocError>
    requires { 0 < place }
    ensures { OnOk result (string_bytes out.new ≡ string_bytes out.old ++ spec.leading_digit place code) }
{
    if place <= code {
        return write_digit(out, code / place % 16);
    }
    Ok(())
}

// Appends the last four digits of a number.
#[tactic(auto, unfolding(crate::specs::Words::four_digits))]
fn write_four(out: &mut String, code: u32) -> Result<(), AllocError>
    ensures { OnOk result (string_bytes out.new ≡ string_bytes out.old ++ spec.four_digits code) }
{
    write_digit(out, code / 0x1000 % 16)?;
    write_digit(out, code / 0x100 % 16)?;
    write_digit(out, code / 16 % 16)?;
    write_digit(out, code % 16)
}

fn write_digit(out: &mut String, digit: u32) -> Result<(), AllocError>
    requires { digit < 16 }
    ensures { OnOk result (string_bytes out.new ≡ string_bytes out.old ++ spec.digit digit) }
{
    out.push_str(digit_words(digit))
}

fn digit_words(digit: u32) -> &'static str
    requires { digit < 16 }
    ensures { result.now ≡ spec.digit digit }
{
    match digit {
        0 => "0",
        1 => "1",
        2 => "2",
        3 => "3",
        4 => "4",
        5 => "5",
        6 => "6",
        7 => "7",
        8 => "8",
        9 => "9",
        10 => "A",
        11 => "B",
        12 => "C",
        13 => "D",
        14 => "E",
        _ => "F",
    }
}
