//! The line that the program prints for a fault, and the exit status for the fault.
ghost use Rattle.std.specs.Prelude.{◌≡◌};
ghost use Rattle.yf_rules.specs.Runs.ByteStream.{WriteEnds, WrittenOrFailed, stream_of};
ghost use Rattle.yf_host.specs.Report.{fault_line, fault_status, named_fault, refusal_line};

use itoa::Buffer;
use yf_lines::fault::Fault;
use yf_lines::output::{write_text, write_texts};
use yf_lines::place::Position;
use yf_lines::shown::write_shown;
use yf_lines::watched::Sink;

/// The status of a run that ended well.
pub const GOOD: u8 = 0;

/// The status of a check that found something, and of a text that is not in the house style.
pub const FINDINGS: u8 = 1;

/// Writes the fault's line to the error stream, and returns the fault's status: 2 if the text is refused, and 3 for
/// memory, files and settings.
///
/// If the error stream fails, the status does not change, and only a prefix of the line has been written. The function
/// takes no memory.
pub fn report<E: Sink>(fault: &Fault, error_stream: &mut E) -> u8
    ensures status { result ≡ fault_status fault.now }
    ensures line { WrittenOrFailed (stream_of E.contents E.has_failed error_stream.old)
        (stream_of E.contents E.has_failed error_stream.new) (fault_line fault.now) }
{
    let _ = write_line(fault, error_stream);
    status_of(fault)
}

/// Writes the name of a file, a colon and the fault's line to the error stream, and returns the fault's status.
pub fn report_named<E: Sink>(fault: &Fault, name: &str, error_stream: &mut E) -> u8
    ensures status { result ≡ fault_status fault.now }
    ensures line { WrittenOrFailed (stream_of E.contents E.has_failed error_stream.old)
        (stream_of E.contents E.has_failed error_stream.new) (named_fault name.now fault.now) }
{
    let _ = write_named(fault, name, error_stream);
    status_of(fault)
}

fn status_of(fault: &Fault) -> u8
    ensures { result ≡ fault_status fault.now }
{
    match fault {
        Fault::Memory | Fault::ReadFailed | Fault::WriteFailed | Fault::Config { .. } => 3,
        Fault::NotUtf8 { .. }
        | Fault::Syntax { .. }
        | Fault::TooDeep { .. }
        | Fault::UnknownHandle { .. }
        | Fault::UnknownAlias { .. }
        | Fault::RepeatedDirective { .. }
        | Fault::BadVersion { .. }
        | Fault::EscapeValue { .. } => 2,
    }
}

fn write_line<E: Sink>(fault: &Fault, stream: &mut E) -> Result<(), Fault>
    ensures { WriteEnds (stream_of E.contents E.has_failed stream.old) (stream_of E.contents E.has_failed stream.new)
        (fault_line fault.now) result }
{
    match fault {
        Fault::NotUtf8 { offset } => write_bad_byte(*offset, stream),
        Fault::Syntax { place, .. } => write_refusal(place, "syntax", stream),
        Fault::TooDeep { place } => write_refusal(place, "too-deep", stream),
        Fault::UnknownHandle { place } => write_refusal(place, "unknown-handle", stream),
        Fault::UnknownAlias { place } => write_refusal(place, "unknown-alias", stream),
        Fault::RepeatedDirective { place } => write_refusal(place, "repeated-directive", stream),
        Fault::BadVersion { place } => write_refusal(place, "bad-version", stream),
        Fault::EscapeValue { place } => write_refusal(place, "escape-value", stream),
        Fault::Memory => write_text(stream, b"no memory\n"),
        Fault::ReadFailed => write_text(stream, b"read failed\n"),
        Fault::WriteFailed => write_text(stream, b"write failed\n"),
        Fault::Config { key } => write_config(key.as_str(), stream),
    }
}

// Writes the name of a file, a colon and the fault's line.
fn write_named<E: Sink>(fault: &Fault, name: &str, stream: &mut E) -> Result<(), Fault>
    ensures { WriteEnds (stream_of E.contents E.has_failed stream.old) (stream_of E.contents E.has_failed stream.new)
        (named_fault name.now fault.now) result }
{
    write_shown(stream, name)?;
    write_text(stream, b": ")?;
    write_line(fault, stream)
}

// Writes the line of a wrong key of the settings.
fn write_config<E: Sink>(key: &str, stream: &mut E) -> Result<(), Fault>
    ensures { WriteEnds (stream_of E.contents E.has_failed stream.old) (stream_of E.contents E.has_failed stream.new)
        (fault_line (Fault.Config key.now)) result }
{
    write_text(stream, b"config: ")?;
    write_shown(stream, key)?;
    write_text(stream, b"\n")
}

fn write_refusal<E: Sink>(place: &Position, reason: &str, stream: &mut E) -> Result<(), Fault>
    ensures { WriteEnds (stream_of E.contents E.has_failed stream.old) (stream_of E.contents E.has_failed stream.new)
        (refusal_line place.now reason.now) result }
{
    let mut line_buffer = Buffer::new();
    let mut column_buffer = Buffer::new();
    let line = line_buffer.format(place.line);
    let column = column_buffer.format(place.column);
    write_texts(stream, &[line, ":", column, " refused: ", reason, "\n"])
}

fn write_bad_byte<E: Sink>(offset: usize, stream: &mut E) -> Result<(), Fault>
    ensures { WriteEnds (stream_of E.contents E.has_failed stream.old) (stream_of E.contents E.has_failed stream.new)
        (fault_line (Fault.NotUtf8 offset)) result }
{
    let mut buffer = Buffer::new();
    let digits = buffer.format(offset);
    write_texts(stream, &["byte ", digits, " refused: not-utf8\n"])
}
