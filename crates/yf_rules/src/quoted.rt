//! The name of a file as Git writes it in the head of a diff.
ghost use Rattle.std.specs.Prelude.{◌≡◌, ◌++◌, [], IfOk};
ghost use Rattle.yf_rules.specs.Quoted.{all_escaped, by_number, escaped, has_special, is_special, letter, octal, quoted};

use std::alloc::{AllocError, Global};

/// The first byte of a control character of two bytes.
const LEAD: u8 = 0xC2;

/// Returns a name as Git writes it in a diff. A name with a control character, a quote or a backslash is in double
/// quotes, with escapes as in C. Any other name is unchanged. `git apply` and GNU `patch` read both.
pub fn quoted(alloc: Global, name: &str) -> Result<Vec<u8>, AllocError>
    ensures { IfOk result (λ text. text.items ≡ quoted name.now) }
{
    let mut text = Vec::new(alloc);
    if has_special(name.as_bytes()) {
        text.push(b'"')?;
        push_escaped(&mut text, name.as_bytes())?;
        text.push(b'"')?;
        return Ok(text);
    }
    text.extend_from_slice(name.as_bytes())?;
    Ok(text)
}

// Returns whether a name has a control character, a quote or a backslash.
fn has_special(name: &[u8]) -> bool
    ensures { result ≡ has_special 0 name.now }
{
    let mut before = 0;
    for byte in name {
        if is_special(before, *byte) {
            return true;
        }
        before = *byte;
    }
    false
}

// Returns whether a byte after another one is a control character, a quote or a backslash.
fn is_special(before: u8, byte: u8) -> bool
    ensures { result ≡ is_special before byte }
{
    if byte < 32 {
        return true;
    }
    if byte == b'"' {
        return true;
    }
    if byte == b'\\' {
        return true;
    }
    if byte == 127 {
        return true;
    }
    if before == LEAD {
        return byte < 160;
    }
    false
}

// Adds the bytes of a name with escapes.
fn push_escaped(text: &mut Vec<u8>, name: &[u8]) -> Result<(), AllocError>
    ensures { IfOk result (λ _. text.new.items ≡ text.old.items ++ all_escaped name.now) }
{
    for byte in name {
        push_byte(text, *byte)?;
    }
    Ok(())
}

// Adds a byte, or its escape.
fn push_byte(text: &mut Vec<u8>, byte: u8) -> Result<(), AllocError>
    ensures { IfOk result (λ _. text.new.items ≡ text.old.items ++ escaped byte) }
{
    if byte < 7 {
        return push_number(text, byte);
    }
    if byte < 14 {
        return text.extend_from_slice(&[b'\\', letter(byte)]);
    }
    if byte < 32 {
        return push_number(text, byte);
    }
    if byte > 126 {
        return push_number(text, byte);
    }
    if byte == b'"' {
        return text.extend_from_slice(&[b'\\', byte]);
    }
    if byte == b'\\' {
        return text.extend_from_slice(&[b'\\', byte]);
    }
    text.extend_from_slice(&[byte])
}

// Adds a byte as a backslash and three octal digits.
fn push_number(text: &mut Vec<u8>, byte: u8) -> Result<(), AllocError>
    ensures { IfOk result (λ _. text.new.items ≡ text.old.items ++ by_number byte) }
{
    text.extend_from_slice(&[b'\\', octal(byte / 64), octal(byte / 8), octal(byte)])
}

// Returns the last octal digit of a number.
fn octal(number: u8) -> u8
    ensures { result ≡ octal number }
{
    48 + number % 8
}

// Returns the letter of a control character from 7 to 13.
fn letter(byte: u8) -> u8
    ensures { result ≡ letter byte }
{
    if byte == 7 {
        return b'a';
    }
    if byte == 8 {
        return b'b';
    }
    if byte == 9 {
        return b't';
    }
    if byte == 10 {
        return b'n';
    }
    if byte == 11 {
        return b'v';
    }
    if byte == 12 {
        return b'f';
    }
    b'r'
}
