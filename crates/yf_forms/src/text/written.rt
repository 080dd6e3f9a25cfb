//! The text of a node on one line.
ghost use Rattle.std.specs.Prelude.{◌≡◌, ◌++◌, not, OnOk, Some};
ghost use Rattle.std.specs.String.{string_bytes};
ghost use Rattle.yf_props.specs.Props.{optional_tag_value, props_value, tag_value};
ghost use Rattle.yf_forms.specs.Nodes.OneLine.{props_text, scalar_text, space_before, space_after, tag_text};
ghost use Rattle.yf_forms.specs.Nodes.Lines.{is_empty_text};

use crate::style::Style;
use std::alloc::AllocError;
use yf_chars::error::NoMemory;
use yf_events::event::ScalarStyle;
use yf_props::props::{Props, Tag};
use yf_quoted::write::{push_double_in, push_single};

/// Appends the text of a scalar in a style on one line; appends nothing for a block style.
pub fn push_scalar(
    out: &mut String,
    style: ScalarStyle,
    text: &str,
    house: &Style,
) -> Result<(), AllocError>
    ensures { OnOk result (string_bytes out.new ≡ string_bytes out.old ++ scalar_text house.now style text.now) }
{
    match style {
        ScalarStyle::Plain => out.push_str(text),
        ScalarStyle::Single => push_single(out, text),
        ScalarStyle::Double => match push_double_in(out, text, house.invisible) {
            Ok(()) => Ok(()),
            Err(NoMemory) => Err(AllocError),
        },
        ScalarStyle::Literal | ScalarStyle::Folded => Ok(()),
    }
}

fn push_tag(out: &mut String, tag: Tag) -> Result<(), AllocError>
    ensures { OnOk result (string_bytes out.new ≡ string_bytes out.old ++ tag_text (Some (tag_value tag.entry))) }
{
    match tag {
        Tag::Verbatim(name) => {
            out.push_str("!<")?;
            out.push_str(name)?;
            out.push('>')
        }
        Tag::Short { handle, suffix } => {
            out.push_str(handle)?;
            out.push_str(suffix)
        }
        Tag::NonSpecific => out.push('!'),
    }
}

/// Returns whether one of two texts has a character.
#[inline(always)]
fn is_one_filled(one: &str, other: &str) -> bool
    ensures { result ≡ not (is_empty_text (one.now ++ other.now)) }
{
    if one.is_empty() {
        return !other.is_empty();
    }
    true
}

/// Returns whether a tag is written.
#[inline(always)]
fn has_tag(tag: &Option<Tag>) -> bool
    ensures { result ≡ not (is_empty_text (tag_text (optional_tag_value tag.now))) }
{
    match tag {
        Some(Tag::Short { handle, suffix }) => is_one_filled(handle, suffix),
        Some(Tag::Verbatim(_)) => true,
        Some(Tag::NonSpecific) => true,
        None => false,
    }
}

/// Returns whether a node has properties.
#[inline(always)]
pub fn has_props(props: &Props) -> bool
    ensures { result ≡ not (is_empty_text (props_text (props_value props.now))) }
{
    match props.anchor {
        Some(_) => true,
        None => has_tag(&props.tag),
    }
}

/// Appends a tag, if there is one.
fn push_optional_tag(out: &mut String, tag: &Option<Tag>) -> Result<(), AllocError>
    ensures { OnOk result (string_bytes out.new ≡ string_bytes out.old ++ tag_text (optional_tag_value tag.now)) }
{
    match tag {
        Some(tag) => push_tag(out, *tag),
        None => Ok(()),
    }
}

/// Appends a space and the tag after an anchor, if there is a tag.
fn push_tag_after(out: &mut String, tag: &Option<Tag>) -> Result<(), AllocError>
    ensures { OnOk result (string_bytes out.new ≡ string_bytes out.old ++ space_before (tag_text (optional_tag_value tag.now))) }
{
    if !has_tag(tag) {
        return Ok(());
    }
    out.push(' ')?;
    push_optional_tag(out, tag)
}

/// Appends properties, the anchor before the tag, with a space between them.
pub fn push_props(out: &mut String, props: &Props) -> Result<(), AllocError>
    ensures { OnOk result (string_bytes out.new ≡ string_bytes out.old ++ props_text (props_value props.now)) }
{
    match props.anchor {
        Some(name) => {
            out.push('&')?;
            out.push_str(name)?;
            push_tag_after(out, &props.tag)
        }
        None => push_optional_tag(out, &props.tag),
    }
}

/// Like `push_props`, with the properties by value: a value passed by address is in memory even if it is never
/// written.
#[inline(never)]
pub(crate) fn push_props_alone(out: &mut String, props: Props) -> Result<(), AllocError>
    ensures { OnOk result (string_bytes out.new ≡ string_bytes out.old ++ props_text (props_value props.entry)) }
{
    push_props(out, &props)
}

/// Appends properties with a space after them, or nothing if there are none.
#[inline(always)]
pub fn push_props_before(out: &mut String, props: &Props) -> Result<(), AllocError>
    ensures { OnOk result (string_bytes out.new ≡ string_bytes out.old ++ space_after (props_text (props_value props.now))) }
{
    if !has_props(props) {
        return Ok(());
    }
    push_props_alone(out, *props)?;
    out.push(' ')
}
