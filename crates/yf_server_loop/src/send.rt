//! Writing responses.
ghost use Rattle.yf_lines.specs.Output.{TextWritten};

use yf_lines::fault::Fault;
use yf_lines::output::write_text;
use yf_lines::watched::Sink;

/// Writes a response and flushes the writer, so that the client gets it.
pub fn send<W: Sink>(writer: &mut W, answer: &[u8]) -> Result<(), Fault>
    ensures { TextWritten (W.contents writer.old) (W.contents writer.new)
        (W.has_failed writer.old) (W.has_failed writer.new) answer.now result }
{
    write_text(writer, answer)?;
    match writer.flush_watched() {
        Ok(()) => Ok(()),
        Err(_) => Err(Fault::WriteFailed),
    }
}
