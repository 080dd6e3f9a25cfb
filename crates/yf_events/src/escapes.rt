//! Texts with the escapes of the notation of events.
ghost use Rattle.std.specs.Prelude.{◌≡◌, ◌/◌, ◌%◌, ◌<◌, ◌≤◌, ℕ, true, false, [], ◌∷◌, length, slice_index};
ghost use Rattle.yf_chars.specs.Signs.{BACKSLASH};
ghost use Rattle.yf_events.specs.Notation as Notation;
ghost use Rattle.yf_lines.specs.Output.{TextWritten};

use crate::plain::plain_runs;
use yf_lines::fault::Fault;
use yf_lines::output::write_text;
use yf_lines::watched::Sink;

/// Returns whether a byte is escaped.
#[inline(always)]
#[tactic(auto, unfolding(crate::specs::Notation::is_escaped))]
pub fn is_escaped(byte: u8) -> bool
    ensures { result ≡ Notation.is_escaped byte }
{
    byte == b'\\' || byte < 0x20
}

/// Returns a hexadecimal digit, with upper-case letters.
#[tactic(auto, unfolding(crate::specs::Notation::hex_digit))]
fn hex_digit(value: u8) -> u8
    requires { value < 16 }
    ensures { result ≡ Notation.hex_digit value }
{
    if value < 10 {
        b'0' + value
    } else {
        b'A' + (value - 10)
    }
}

/// Returns how many bytes from the start on are not escaped.
fn plain_len(bytes: &[u8]) -> usize
    ensures within { result ≤ length bytes.now }
    ensures plain { (k : ℕ) → k < result → Notation.is_escaped (slice_index bytes.now k) ≡ false }
    ensures stop { result < length bytes.now → Notation.is_escaped (slice_index bytes.now result) ≡ true }
{
    for i in plain_runs(bytes)..bytes.len() {
        if is_escaped(bytes[i]) {
            return i;
        }
    }
    bytes.len()
}

/// Writes one escape.
#[tactic(auto, unfolding(crate::specs::Notation::is_escaped, crate::specs::Notation::escaped_byte))]
fn write_escape<W: Sink>(writer: &mut W, byte: u8) -> Result<(), Fault>
    requires { Notation.is_escaped byte ≡ true }
    ensures { TextWritten (W.contents writer.old) (W.contents writer.new) (W.has_failed writer.old) (W.has_failed writer.new)
        (Notation.escaped_byte byte) result }
{
    match byte {
        b'\\' => write_text(writer, b"\\\\"),
        b'\n' => write_text(writer, b"\\n"),
        b'\t' => write_text(writer, b"\\t"),
        b'\r' => write_text(writer, b"\\r"),
        8 => write_text(writer, b"\\b"),
        _ => write_hex(writer, byte),
    }
}

fn write_hex<W: Sink>(writer: &mut W, byte: u8) -> Result<(), Fault>
    ensures { TextWritten (W.contents writer.old) (W.contents writer.new) (W.has_failed writer.old) (W.has_failed writer.new)
        (BACKSLASH ∷ 120 ∷ Notation.hex_digit (byte / 16) ∷ Notation.hex_digit (byte % 16) ∷ []) result }
{
    let spelled = [b'\\', b'x', hex_digit(byte / 16), hex_digit(byte % 16)];
    write_text(writer, &spelled)
}

/// Writes a text with its escapes.
pub fn write_escaped<W: Sink>(writer: &mut W, text: &str) -> Result<(), Fault>
    ensures { TextWritten (W.contents writer.old) (W.contents writer.new) (W.has_failed writer.old) (W.has_failed writer.new)
        (Notation.escaped text.now) result }
{
    let mut rest = text.as_bytes();
    loop {
        let (run, left) = rest.split_at(plain_len(rest));
        write_text(writer, run)?;
        if left.is_empty() {
            return Ok(());
        }
        write_escape(writer, left[0])?;
        rest = &left[1..];
    }
}
