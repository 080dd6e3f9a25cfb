//! The number of characters of a node's text on one line, at most the greatest `usize`.
ghost use Rattle.std.specs.Prelude.{◌≡◌, chars, is_some, length, Some};
ghost use Rattle.std.specs.Str.{IsUtf8};
ghost use Rattle.yf_chars.specs.Common.{is_common};
ghost use Rattle.yf_chars.specs.Escape as Escape;
ghost use Rattle.yf_chars.specs.Escape.{spelled};
ghost use Rattle.yf_chars.specs.Hidden.{spelled_out};
ghost use Rattle.yf_forms.specs.NormalForms.Measures as Measures;
ghost use Rattle.yf_forms.specs.NormalForms.Measures.{up_to_greatest};
ghost use Rattle.yf_forms.specs.Nodes.OneLine.{anchor_text, props_text, tag_text, width};
ghost use Rattle.yf_props.specs.Props.{name_value, optional_tag_value, props_value, tag_value};
ghost use Rattle.yf_quoted.specs.Written.{double_bytes, double_bytes_in, single_bytes, twice};

use crate::style::Style;
use yf_chars::escapes::{are_common, is_by_four, is_by_two, is_common};
use yf_chars::hidden::is_spelled_out;
use yf_events::event::ScalarStyle;
use yf_lines::invisible::Invisible;
use yf_props::props::{Props, Tag};

/// Returns the number of bytes of a text.
fn byte_count(text: &str) -> usize
    ensures { result ≡ length text.now }
{
    text.len()
}

/// Returns the number of characters of a text.
#[inline(always)]
fn counted(text: &str) -> usize
    ensures count { result ≡ up_to_greatest (width text.now) }
    ensures utf8 { IsUtf8 text.now }
{
    if text.is_ascii() {
        return byte_count(text);
    }
    text.chars().count()
}

/// Returns the number of characters of a text.
pub fn char_count(text: &str) -> usize
    ensures count { result ≡ up_to_greatest (width text.now) }
    ensures utf8 { IsUtf8 text.now }
{
    counted(text)
}

/// Returns whether the spelling of a character is a backslash and a letter.
#[tactic(auto, unfolding(yf_chars::specs::Escape::short_name))]
fn is_by_letter(c: char) -> bool
    ensures { result ≡ is_some (Escape.short_name c) }
{
    matches!(c, '"' | '\\' | '\n' | '\t' | '\r' | '\0')
}

/// Returns whether it is an ASCII character that needs no escape, as most are.
#[inline(always)]
#[tactic(auto, unfolding(yf_chars::specs::Common::is_common, yf_chars::specs::Class::is_between))]
fn is_common_char(c: char) -> bool
    ensures { result ≡ is_common c }
{
    if c > '~' {
        return false;
    }
    is_common(c as u8)
}

/// Returns the number of characters of one's spelling in double quotes.
fn spelled_width(c: char) -> usize
    ensures { result ≡ length (spelled c) }
{
    if is_common_char(c) {
        return 1;
    }
    if is_by_letter(c) {
        return 2;
    }
    if is_by_two(c) {
        return 4;
    }
    if is_by_four(c) {
        return 6;
    }
    1
}

/// Returns the number of characters of one's spelling in single quotes: a quote is written twice.
fn twice_width(c: char) -> usize
    ensures { result ≡ length (twice c) }
{
    if c == '\'' {
        return 2;
    }
    1
}

fn double_width(text: &str) -> usize
    ensures { result ≡ up_to_greatest (width (double_bytes (chars text.now))) }
{
    if are_common(text) {
        return byte_count(text).saturating_add(2);
    }
    let mut width = 2usize;
    for c in text.chars() {
        width = width.saturating_add(spelled_width(c));
    }
    width
}

/// Returns the number of characters of one's spelling in double quotes, if hidden characters are escaped.
fn spelled_out_width(c: char) -> usize
    ensures { result ≡ length (spelled_out c) }
{
    if is_spelled_out(c) {
        if c < '\u{10000}' {
            return 6;
        }
        return 10;
    }
    spelled_width(c)
}

fn escaped_width(text: &str) -> usize
    ensures { result ≡ up_to_greatest (width (double_bytes_in Invisible.Escaped (chars text.now))) }
{
    if are_common(text) {
        return byte_count(text).saturating_add(2);
    }
    let mut width = 2usize;
    for c in text.chars() {
        width = width.saturating_add(spelled_out_width(c));
    }
    width
}

fn double_width_in(text: &str, invisible: Invisible) -> usize
    ensures { result ≡ up_to_greatest (width (double_bytes_in invisible (chars text.now))) }
{
    match invisible {
        Invisible::Plain => double_width(text),
        Invisible::Escaped => escaped_width(text),
    }
}

fn single_width(text: &str) -> usize
    ensures { result ≡ up_to_greatest (width (single_bytes (chars text.now))) }
{
    let mut width = 2usize;
    for c in text.chars() {
        width = width.saturating_add(twice_width(c));
    }
    width
}

/// Returns the number of characters of a scalar in a style on one line, or `None` for a block style.
pub fn scalar_width(style: ScalarStyle, text: &str, house: &Style) -> Option<usize>
    ensures width { result ≡ Measures.scalar_width house.now style text.now }
    ensures utf8 { IsUtf8 text.now }
{
    match style {
        ScalarStyle::Plain => Some(counted(text)),
        ScalarStyle::Single => Some(single_width(text)),
        ScalarStyle::Double => Some(double_width_in(text, house.invisible)),
        ScalarStyle::Literal | ScalarStyle::Folded => None,
    }
}

fn tag_width(tag: Tag) -> usize
    ensures width { result ≡ up_to_greatest (width (tag_text (Some (tag_value tag.entry)))) }
    ensures utf8 { IsUtf8 (tag_text (Some (tag_value tag.entry))) }
{
    match tag {
        Tag::Verbatim(name) => char_count(name).saturating_add(3),
        Tag::Short { handle, suffix } => char_count(handle).saturating_add(char_count(suffix)),
        Tag::NonSpecific => 1,
    }
}

/// Returns the width of two parts with a space between them, if both have characters.
pub fn joined_width(one: usize, other: usize) -> usize
    ensures { result ≡ Measures.joined_width one other }
{
    if one == 0 {
        return other;
    }
    if other == 0 {
        return one;
    }
    one.saturating_add(other).saturating_add(1)
}

fn anchor_width(anchor: Option<&str>) -> usize
    ensures width { result ≡ up_to_greatest (width (anchor_text (name_value anchor.entry))) }
    ensures utf8 { IsUtf8 (anchor_text (name_value anchor.entry)) }
{
    match anchor {
        Some(name) => char_count(name).saturating_add(1),
        None => 0,
    }
}

fn optional_tag_width(tag: &Option<Tag>) -> usize
    ensures width { result ≡ up_to_greatest (width (tag_text (optional_tag_value tag.now))) }
    ensures utf8 { IsUtf8 (tag_text (optional_tag_value tag.now)) }
{
    match tag {
        Some(tag) => tag_width(*tag),
        None => 0,
    }
}

/// Returns the number of characters of properties: the anchor, a space and the tag.
pub fn props_width(props: &Props) -> usize
    ensures width { result ≡ up_to_greatest (width (props_text (props_value props.now))) }
    ensures utf8 { IsUtf8 (props_text (props_value props.now)) }
{
    joined_width(anchor_width(props.anchor), optional_tag_width(&props.tag))
}
