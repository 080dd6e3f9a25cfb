//! The runs over any reader and any writer. `specs/Runs/Run` has the definitions. Each run keeps the bytes that it has
//! read for its caller, who may explain a fault with them.
ghost use Rattle.std.specs.Prelude.{◌≡◌, string_bytes, IfErr, IfOk, MatchResult, OnOk};
ghost use Rattle.yf_rules.specs.AllRules.{FoundWithout};
ghost use Rattle.yf_rules.specs.Findings.{FoundIn};
ghost use Rattle.yf_rules.specs.Runs.ByteStream.{BreaksOff, WriteEnds, Writes, stream_of};
ghost use Rattle.yf_rules.specs.Runs.Run.{Gave, Keeps, NotationWritten, RefusedEvents, RefusedCheck, RefusedFmt};
ghost use Rattle.yf_rules.specs.Runs.Run.{RefusedText, FormattingGiven, FormattingWritten, FindingsWritten};
ghost use Rattle.yf_rules.specs.Runs.Run.{finding_line, findings_text, has_any};
ghost use Rattle.yf_stream.specs.StreamReader.{StreamFault};

use crate::check_all::check_all;
use crate::finding::Finding;
use crate::format::format;
use crate::input::{read_all, text_of};
use itoa::Buffer;
use std::alloc::{AllocError, Global};
use yf_events::notation::write_events;
use yf_forms::style::Style;
use yf_lines::fault::Fault;
use yf_lines::output::{write_text, write_texts};
use yf_lines::source_text::Src;
use yf_lines::text::OwnedText;
use yf_lines::watched::{Sink, Source};
use yf_stream::stream::read_stream;

/// The limit of bytes that a run reads: 1 GiB.
pub const INPUT_LIMIT: usize = 1_073_741_824;

/// Reads all bytes, and writes the events of the stream, one line for each. Nothing is written before the whole stream
/// is accepted.
///
/// # Errors
///
/// - `ReadFailed` if a read fails, or if the reader has more than `INPUT_LIMIT` bytes.
/// - `NotUtf8` if the bytes are not UTF-8.
/// - The faults of `read_stream` if it refuses the text.
/// - `WriteFailed` if a write fails or writes no byte. A prefix of the lines has then been written; after any other
/// fault, nothing.
/// - `Memory` if memory is refused.
pub fn run_events<R: Source, W: Sink>(
    alloc: Global,
    reader: &mut R,
    kept: &mut Vec<u8>,
    writer: &mut W,
) -> Result<(), Fault>
    ensures events { OnOk result (NotationWritten (stream_of R.remaining R.has_failed reader.old)
        (stream_of W.contents W.has_failed writer.old) (stream_of W.contents W.has_failed writer.new)) }
    ensures reader { OnOk result (R.has_failed reader.new ≡ R.has_failed reader.old) }
    ensures bytes { MatchResult result (λ _. Gave (R.remaining reader.old) kept.new.items)
        (Keeps (R.remaining reader.old) kept.new.items) }
    ensures refusals { IfErr result (λ fault. RefusedEvents
        (stream_of R.remaining R.has_failed reader.old) (stream_of R.remaining R.has_failed reader.new)
        (stream_of W.contents W.has_failed writer.old) (stream_of W.contents W.has_failed writer.new) fault) }
{
    *kept = read_all(alloc, reader, INPUT_LIMIT)?;
    let text = text_of(kept.as_slice())?;
    let reading = read_stream(alloc, text)?;
    write_events(&reading, writer)
}

/// Reads all bytes, and writes a line for each finding of all rules of style, except those whose names are in
/// `without`, sorted by position: line and column, the rule's name, and ` (fixable)` if the house style fixes it.
/// Returns whether there is a finding, and keeps the findings. In a text that is a formatting with the same settings,
/// no finding is fixable. Memory for the rules is taken only after the text is read.
///
/// # Errors
///
/// Fails like `run_events`, and writes nothing, except a prefix of the lines after `WriteFailed`.
pub fn run_check_all<R: Source, W: Sink>(
    alloc: Global,
    without: &[OwnedText],
    reader: &mut R,
    kept: &mut Vec<u8>,
    found: &mut Vec<Finding>,
    writer: &mut W,
    style: &Style,
) -> Result<bool, Fault>
    ensures findings { IfOk result (λ any. FindingsWritten (FoundWithout without.now style.now)
        style.now (stream_of R.remaining R.has_failed reader.old)
        (stream_of W.contents W.has_failed writer.old) (stream_of W.contents W.has_failed writer.new) any) }
    ensures reader { OnOk result (R.has_failed reader.new ≡ R.has_failed reader.old) }
    ensures bytes { MatchResult result (λ _. Gave (R.remaining reader.old) kept.new.items)
        (Keeps (R.remaining reader.old) kept.new.items) }
    ensures refusals { IfErr result (λ fault. RefusedCheck (FoundWithout without.now style.now)
        style.now (stream_of R.remaining R.has_failed reader.old) (stream_of R.remaining R.has_failed reader.new)
        (stream_of W.contents W.has_failed writer.old) (stream_of W.contents W.has_failed writer.new) fault) }
{
    *kept = read_all(alloc, reader, INPUT_LIMIT)?;
    let text = text_of(kept.as_slice())?;
    let findings = all_findings_in(alloc, without, text, style)?;
    print_findings(findings, found, writer)
}

// Returns the findings of all rules of style in a text, except those whose names are in `without`.
fn all_findings_in(
    alloc: Global,
    without: &[OwnedText],
    text: &str,
    style: &Style,
) -> Result<Vec<Finding>, Fault>
    ensures found { IfOk result (λ findings. FoundIn (FoundWithout without.now style.now)
        style.now text.now findings.items) }
    ensures refuses { IfErr result (StreamFault text.now) }
{
    let src = match Src::new(alloc, text) {
        Ok(src) => src,
        Err(AllocError) => return Err(Fault::Memory),
    };
    let stream = read_stream(alloc, text)?;
    check_all(alloc, without, &src, &stream, style)
}

fn has_any(findings: &[Finding]) -> bool
    ensures { result ≡ has_any findings.now }
{
    !findings.is_empty()
}

// Writes a line for each finding, keeps the findings, and returns whether there is one.
fn print_findings<W: Sink>(
    findings: Vec<Finding>,
    found: &mut Vec<Finding>,
    writer: &mut W,
) -> Result<bool, Fault>
    ensures written { IfOk result (λ any. Writes (stream_of W.contents W.has_failed writer.old)
        (stream_of W.contents W.has_failed writer.new) (findings_text findings.items)) }
    ensures any { IfOk result (λ any. any ≡ has_any findings.items) }
    ensures refused { IfErr result (λ fault. (fault ≡ Fault.WriteFailed)
        × BreaksOff (stream_of W.contents W.has_failed writer.old) (stream_of W.contents W.has_failed writer.new)
        (findings_text findings.items)) }
{
    write_findings(findings.as_slice(), writer)?;
    let any = has_any(findings.as_slice());
    *found = findings;
    Ok(any)
}

// Writes a line for each finding.
fn write_findings<W: Sink>(findings: &[Finding], writer: &mut W) -> Result<(), Fault>
    ensures { WriteEnds (stream_of W.contents W.has_failed writer.old) (stream_of W.contents W.has_failed writer.new)
        (findings_text findings.now) result }
{
    for finding in findings {
        write_finding(finding, writer)?;
    }
    Ok(())
}

fn write_finding<W: Sink>(finding: &Finding, writer: &mut W) -> Result<(), Fault>
    ensures { WriteEnds (stream_of W.contents W.has_failed writer.old) (stream_of W.contents W.has_failed writer.new)
        (finding_line finding.now) result }
{
    let mut line_buffer = Buffer::new();
    let mut column_buffer = Buffer::new();
    let line = line_buffer.format(finding.place.line);
    let column = column_buffer.format(finding.place.column);
    let fixable = if finding.fixable { " (fixable)" } else { "" };
    write_texts(writer, &[line, ":", column, " ", finding.id, fixable, "\n"])
}

/// Reads all bytes, and writes the text in the house style: the result of `format`.
///
/// # Errors
///
/// Fails like `run_events`, and writes nothing, except a prefix of the formatting after `WriteFailed`.
pub fn run_fmt<R: Source, W: Sink>(
    alloc: Global,
    reader: &mut R,
    kept: &mut Vec<u8>,
    writer: &mut W,
    style: &Style,
) -> Result<(), Fault>
    ensures formatted { OnOk result (FormattingWritten style.now (stream_of R.remaining R.has_failed reader.old)
        (stream_of W.contents W.has_failed writer.old) (stream_of W.contents W.has_failed writer.new)) }
    ensures reader { OnOk result (R.has_failed reader.new ≡ R.has_failed reader.old) }
    ensures bytes { MatchResult result (λ _. Gave (R.remaining reader.old) kept.new.items)
        (Keeps (R.remaining reader.old) kept.new.items) }
    ensures refusals { IfErr result (λ fault. RefusedFmt style.now
        (stream_of R.remaining R.has_failed reader.old) (stream_of R.remaining R.has_failed reader.new)
        (stream_of W.contents W.has_failed writer.old) (stream_of W.contents W.has_failed writer.new) fault) }
{
    let formatted = read_formatted(alloc, reader, kept, style)?;
    write_text(writer, formatted.as_str().as_bytes())
}

/// Reads all bytes, and returns the text in the house style.
///
/// # Errors
///
/// Fails like `run_events`, except with the faults of a writer.
pub fn read_formatted<R: Source>(
    alloc: Global,
    reader: &mut R,
    kept: &mut Vec<u8>,
    style: &Style,
) -> Result<String, Fault>
    ensures formatted { IfOk result (λ formatted. FormattingGiven style.now (R.remaining reader.old)
        (string_bytes formatted)) }
    ensures reader { OnOk result (R.has_failed reader.new ≡ R.has_failed reader.old) }
    ensures bytes { MatchResult result (λ _. Gave (R.remaining reader.old) kept.new.items)
        (Keeps (R.remaining reader.old) kept.new.items) }
    ensures refusals { IfErr result (λ fault. RefusedText (stream_of R.remaining R.has_failed reader.old)
        (stream_of R.remaining R.has_failed reader.new) fault) }
{
    *kept = read_all(alloc, reader, INPUT_LIMIT)?;
    let text = text_of(kept.as_slice())?;
    format(alloc, text, style)
}
