//! Writes whole texts.
ghost use Rattle.yf_lines.specs.Output.{TextWritten, texts};

use crate::fault::Fault;
use crate::watched::Sink;

/// Writes all bytes, with as many writes as needed.
///
/// Fails with `WriteFailed` if a write fails or takes no bytes; a prefix of the bytes has then been written. It doesn't
/// flush: the owner of the writer does.
pub fn write_text<W: Sink>(writer: &mut W, bytes: &[u8]) -> Result<(), Fault>
    ensures { TextWritten (W.contents writer.old) (W.contents writer.new)
        (W.has_failed writer.old) (W.has_failed writer.new) bytes.now result }
{
    let mut rest = bytes;
    while !rest.is_empty() {
        let count = match writer.write_watched(rest) {
            Ok(count) => count,
            Err(_) => return Err(Fault::WriteFailed),
        };
        if count == 0 {
            return Err(Fault::WriteFailed);
        }
        rest = &rest[count..];
    }
    Ok(())
}

/// Writes the texts one after another, up to the first that can't be written whole.
pub fn write_texts<W: Sink>(writer: &mut W, parts: &[&str]) -> Result<(), Fault>
    ensures { TextWritten (W.contents writer.old) (W.contents writer.new)
        (W.has_failed writer.old) (W.has_failed writer.new) (texts parts.now) result }
{
    for part in parts {
        write_text(writer, part.as_bytes())?;
    }
    Ok(())
}
