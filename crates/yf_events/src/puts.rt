//! Writes of texts that return a plain `bool`: a fault is larger than most texts.
ghost use Rattle.yf_events.specs.Notation as Notation;
ghost use Rattle.yf_events.specs.PlainWrites.{PlainWritten};
ghost use Rattle.yf_lines.specs.Output.{texts};

use crate::escapes::write_escaped;
use crate::plain::is_plain;
use yf_lines::output::{write_text, write_texts};
use yf_lines::watched::Sink;

/// Writes all the bytes. Returns whether the write succeeded.
#[inline(always)]
pub fn put_text<W: Sink>(writer: &mut W, bytes: &[u8]) -> bool
    ensures { PlainWritten (W.contents writer.old) (W.contents writer.new) (W.has_failed writer.old) (W.has_failed writer.new) bytes.now result }
{
    match write_text(writer, bytes) {
        Ok(()) => true,
        Err(_) => false,
    }
}

/// Writes the texts one after another. Returns whether the write succeeded.
pub fn put_texts<W: Sink>(writer: &mut W, parts: &[&str]) -> bool
    ensures { PlainWritten (W.contents writer.old) (W.contents writer.new) (W.has_failed writer.old) (W.has_failed writer.new) (texts parts.now) result }
{
    match write_texts(writer, parts) {
        Ok(()) => true,
        Err(_) => false,
    }
}

/// Writes a text with its escapes. Returns whether the write succeeded. Most texts have no escapes, and are written
/// unchanged.
#[inline(always)]
pub fn put_escaped<W: Sink>(writer: &mut W, text: &str) -> bool
    ensures { PlainWritten (W.contents writer.old) (W.contents writer.new) (W.has_failed writer.old) (W.has_failed writer.new)
        (Notation.escaped text.now) result }
{
    if is_plain(text.as_bytes()) {
        return put_text(writer, text.as_bytes());
    }
    put_runs(writer, text)
}

// Like `put_escaped`, for a text with escapes.
#[inline(never)]
fn put_runs<W: Sink>(writer: &mut W, text: &str) -> bool
    ensures { PlainWritten (W.contents writer.old) (W.contents writer.new) (W.has_failed writer.old) (W.has_failed writer.new)
        (Notation.escaped text.now) result }
{
    match write_escaped(writer, text) {
        Ok(()) => true,
        Err(_) => false,
    }
}
