//! Tags of XML documents (XML 1.0).
ghost use Rattle.std.specs.Prelude.{◌≡◌, ◌∷◌, ◌++◌, [], codes, decimal, flat_map, map, OnOk};
ghost use Rattle.yf_report.specs.Xml.{open_tag, close_tag, empty_tag, declaration};
ghost use Rattle.yf_report.specs.XmlText as spec;

use itoa::Buffer;
use std::alloc::AllocError;

/// The value of an attribute.
#[derive(Clone, Copy)]
pub(crate) enum Value<'a> {
    Text(&'a str),
    Number(usize),
}

/// An attribute with its name.
#[derive(Clone, Copy)]
pub(crate) struct Named<'a> {
    pub(crate) name: &'a str,
    pub(crate) value: Value<'a>,
}

/// Adds a start tag on a line of its own.
#[tactic(auto, unfolding(crate::specs::XmlText::tag_text))]
pub(crate) fn push_open(
    out: &mut Vec<u8>,
    name: &str,
    attributes: &[Named<'_>],
) -> Result<(), AllocError>
    ensures { OnOk result (out.new.items
        ≡ out.old.items ++ spec.tag_text (open_tag name.now (map spec.attribute_of attributes.now))) }
{
    out.extend_from_slice(b"\n<")?;
    out.extend_from_slice(name.as_bytes())?;
    push_attributes(out, attributes)?;
    out.extend_from_slice(b">")?;
    Ok(())
}

/// Adds the tag of an empty element on a line of its own.
#[tactic(auto, unfolding(crate::specs::XmlText::tag_text))]
pub(crate) fn push_empty(
    out: &mut Vec<u8>,
    name: &str,
    attributes: &[Named<'_>],
) -> Result<(), AllocError>
    ensures { OnOk result (out.new.items
        ≡ out.old.items ++ spec.tag_text (empty_tag name.now (map spec.attribute_of attributes.now))) }
{
    out.extend_from_slice(b"\n<")?;
    out.extend_from_slice(name.as_bytes())?;
    push_attributes(out, attributes)?;
    out.extend_from_slice(b"/>")?;
    Ok(())
}

/// Adds an end tag on a line of its own.
#[tactic(auto, unfolding(crate::specs::XmlText::tag_text))]
pub(crate) fn push_close(out: &mut Vec<u8>, name: &str) -> Result<(), AllocError>
    ensures { OnOk result (out.new.items ≡ out.old.items ++ spec.tag_text (close_tag name.now)) }
{
    out.extend_from_slice(b"\n</")?;
    out.extend_from_slice(name.as_bytes())?;
    out.extend_from_slice(b">")?;
    Ok(())
}

/// Adds the XML declaration.
pub(crate) fn push_declaration(out: &mut Vec<u8>) -> Result<(), AllocError>
    ensures { OnOk result (out.new.items ≡ out.old.items ++ (declaration ++ 62 ∷ [])) }
{
    out.extend_from_slice(b"<?xml version=\"1.0\" encoding=\"UTF-8\"?>")?;
    Ok(())
}

fn push_attributes(out: &mut Vec<u8>, attributes: &[Named<'_>]) -> Result<(), AllocError>
    ensures { OnOk result (out.new.items
        ≡ out.old.items ++ flat_map spec.attribute_text (map spec.attribute_of attributes.now)) }
{
    for attribute in attributes {
        push_attribute(out, attribute)?;
    }
    Ok(())
}

fn push_attribute(out: &mut Vec<u8>, attribute: &Named<'_>) -> Result<(), AllocError>
    ensures { OnOk result (out.new.items
        ≡ out.old.items ++ spec.attribute_text (spec.attribute_of attribute.now)) }
{
    out.extend_from_slice(b" ")?;
    out.extend_from_slice(attribute.name.as_bytes())?;
    out.extend_from_slice(b"=\"")?;
    push_value(out, attribute.value)?;
    out.extend_from_slice(b"\"")?;
    Ok(())
}

fn push_value(out: &mut Vec<u8>, value: Value<'_>) -> Result<(), AllocError>
    ensures { OnOk result (out.new.items ≡ out.old.items ++ spec.xml_text (spec.value_of value.entry)) }
{
    match value {
        Value::Text(text) => push_text(out, text),
        Value::Number(number) => push_number(out, number),
    }
}

fn push_number(out: &mut Vec<u8>, number: usize) -> Result<(), AllocError>
    ensures { OnOk result (out.new.items ≡ out.old.items ++ spec.xml_text (decimal number)) }
{
    let mut buffer = Buffer::new();
    let bytes = buffer.format(number).as_bytes();
    for byte in bytes {
        push_byte(out, *byte)?;
    }
    Ok(())
}

// Adds a text, escaped, with U+FFFD for each character that XML 1.0 does not allow.
#[tactic(auto, unfolding(crate::specs::XmlText::allowed))]
fn push_text(out: &mut Vec<u8>, text: &str) -> Result<(), AllocError>
    ensures { OnOk result (out.new.items ≡ out.old.items ++ spec.xml_text (spec.allowed text.now)) }
{
    let bytes = text.as_bytes();
    let mut before = 0;
    let mut last = 0;
    for byte in bytes {
        push_allowed(out, before, last, *byte)?;
        before = last;
        last = *byte;
    }
    Ok(())
}

// Adds the bytes for a byte of a text; `before` and `last` are the two bytes before it.
fn push_allowed(out: &mut Vec<u8>, before: u8, last: u8, byte: u8) -> Result<(), AllocError>
    ensures { OnOk result (out.new.items ≡ out.old.items ++ spec.xml_text (spec.allowed_byte before last byte)) }
{
    if is_refused(byte) {
        return out.extend_from_slice(b"\xEF\xBF\xBD");
    }
    if is_no_character(before, last, byte) {
        return out.extend_from_slice(b"\xBD");
    }
    push_byte(out, byte)
}

// Returns whether XML 1.0 does not allow the character below U+0080.
fn is_refused(byte: u8) -> bool
    ensures { result ≡ spec.is_refused byte }
{
    byte < 32 && !(byte == b'\t' || byte == b'\n' || byte == b'\r')
}

// Returns whether the bytes are those of U+FFFE or U+FFFF.
fn is_no_character(before: u8, last: u8, byte: u8) -> bool
    ensures { result ≡ spec.ends_refused before last byte }
{
    before == 0xEF && last == 0xBF && (byte == 0xBE || byte == 0xBF)
}

fn push_byte(out: &mut Vec<u8>, byte: u8) -> Result<(), AllocError>
    ensures { OnOk result (out.new.items ≡ out.old.items ++ spec.xml_byte byte) }
{
    if byte == b'&' {
        return out.extend_from_slice(b"&amp;");
    }
    if byte == b'<' {
        return out.extend_from_slice(b"&lt;");
    }
    if byte == b'>' {
        return out.extend_from_slice(b"&gt;");
    }
    if byte == b'"' {
        return out.extend_from_slice(b"&quot;");
    }
    if byte == b'\t' {
        return out.extend_from_slice(b"&#9;");
    }
    if byte == b'\n' {
        return out.extend_from_slice(b"&#10;");
    }
    if byte == b'\r' {
        return out.extend_from_slice(b"&#13;");
    }
    out.push(byte)?;
    Ok(())
}
