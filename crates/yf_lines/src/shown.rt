//! How a message shows a text from elsewhere: each control character by its number, so that no control character
//! reaches a terminal.
ghost use Rattle.std.specs.Prelude.{◌≡◌, ◌<◌};
ghost use Rattle.yf_lines.specs.Output.{TextWritten};
ghost use Rattle.yf_lines.specs.Shown.{shown, shown_byte, shown_digit, shown_number};

use crate::fault::Fault;
use crate::output::write_text;
use crate::watched::Sink;
use std::alloc::{AllocError, Global};

/// The first byte of a control character of two bytes. The second one is its number.
const LEAD: u8 = 0xC2;

/// Writes a text, with `\x` and two hexadecimal digits for each control character. It takes no memory.
///
/// # Errors
///
/// `Fault::WriteFailed` if the writer fails. A prefix of the text has been written then.
pub fn write_shown<W: Sink>(writer: &mut W, text: &str) -> Result<(), Fault>
    ensures { TextWritten (W.contents writer.old) (W.contents writer.new)
        (W.has_failed writer.old) (W.has_failed writer.new) (shown text.now) result }
{
    let mut before = 0;
    for byte in text.as_bytes() {
        write_byte(writer, before, *byte)?;
        before = *byte;
    }
    Ok(())
}

/// Returns the text that [`write_shown`] writes.
///
/// # Errors
///
/// `AllocError` if memory is refused.
pub fn shown_text(alloc: Global, text: &str) -> Result<String, AllocError> {
    let mut shown = String::new(alloc);
    for c in text.chars() {
        if matches!(c, '\0'..='\u{1F}' | '\u{7F}'..='\u{9F}') {
            write!(shown, "\\x{:02X}", u32::from(c))?;
        } else {
            shown.push(c)?;
        }
    }
    Ok(shown)
}

// Writes the bytes that show a byte, given the byte before it.
fn write_byte<W: Sink>(writer: &mut W, before: u8, byte: u8) -> Result<(), Fault>
    ensures { TextWritten (W.contents writer.old) (W.contents writer.new)
        (W.has_failed writer.old) (W.has_failed writer.new) (shown_byte before byte) result }
{
    if byte < 32 {
        return write_number(writer, byte);
    }
    if byte == 127 {
        return write_number(writer, byte);
    }
    if byte == LEAD {
        return Ok(());
    }
    if before == LEAD {
        if byte < 160 {
            return write_number(writer, byte);
        }
        return write_text(writer, &[before, byte]);
    }
    write_text(writer, &[byte])
}

// Writes a character by its number.
fn write_number<W: Sink>(writer: &mut W, number: u8) -> Result<(), Fault>
    ensures { TextWritten (W.contents writer.old) (W.contents writer.new)
        (W.has_failed writer.old) (W.has_failed writer.new) (shown_number number) result }
{
    write_text(
        writer,
        &[
            b'\\',
            b'x',
            shown_digit(number / 16),
            shown_digit(number % 16),
        ],
    )
}

// Returns a hexadecimal digit in upper case.
fn shown_digit(digit: u8) -> u8
    requires { digit < 16 }
    ensures { result ≡ shown_digit digit }
{
    if digit < 10 {
        return 48 + digit;
    }
    55 + digit
}
