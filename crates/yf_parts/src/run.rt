//! The run over some lines of a text, over any reader and any writer. `specs/PartRun` has the definitions.
ghost use Rattle.std.specs.Prelude.{◌≡◌, string_bytes, IfErr, IfOk, MatchResult, OnOk};
ghost use Rattle.yf_parts.specs.PartRun.{IsPart, PartBroke, PartRun};
ghost use Rattle.yf_rules.specs.Runs.ByteStream.{stream_of};
ghost use Rattle.yf_rules.specs.Runs.Run.{Gave, Keeps, RefusedRun};
ghost use Rattle.yf_stream.specs.StreamReader.{StreamFault};

use crate::part::format_lines;
use crate::show::{Show, show_part};
use std::alloc::Global;
use yf_forms::style::Style;
use yf_line_ranges::range::LineRange;
use yf_lines::fault::Fault;
use yf_lines::watched::{Sink, Source};
use yf_rules::input::{read_all, text_of};
use yf_rules::run::INPUT_LIMIT;

/// The requested lines, and how the text with these lines formatted is shown.
#[derive(Drop)]
pub struct PartTask {
    pub lines: Vec<LineRange>,
    pub show: Show,
}

/// Returns a text with some lines formatted, as `format_lines` does, without the hunks.
///
/// # Errors
///
/// Fails like `format`.
pub fn with_lines_formatted(
    alloc: Global,
    text: &str,
    style: &Style,
    lines: &[LineRange],
) -> Result<String, Fault>
    ensures part { IfOk result (λ part. IsPart style.now lines.now text.now (string_bytes part)) }
    ensures refuses { IfErr result (StreamFault text.now) }
{
    match format_lines(alloc, text, style, lines) {
        Ok(part) => Ok(part.text),
        Err(fault) => Err(fault),
    }
}

/// Reads all bytes, formats the requested lines, and shows the result. Returns true if it shows the result itself. For
/// a position or a diff, returns whether the text equals the result. The bytes are kept for the caller.
///
/// Lines end after a line feed, as in Git, so a lone carriage return ends no line.
///
/// # Errors
///
/// Fails like `run_fmt` of yf_rules. Only `Fault::WriteFailed` comes after output, which is a prefix of the whole
/// output.
pub fn run_part<R: Source, W: Sink>(
    alloc: Global,
    task: &PartTask,
    name: &str,
    style: &Style,
    reader: &mut R,
    kept: &mut Vec<u8>,
    writer: &mut W,
) -> Result<bool, Fault>
    ensures done { IfOk result (PartRun task.now name.now style.now (stream_of R.remaining R.has_failed reader.old)
        (stream_of W.contents W.has_failed writer.old) (stream_of W.contents W.has_failed writer.new)) }
    ensures reader { OnOk result (R.has_failed reader.new ≡ R.has_failed reader.old) }
    ensures bytes { MatchResult result (λ _. Gave (R.remaining reader.old) kept.new.items)
        (Keeps (R.remaining reader.old) kept.new.items) }
    ensures refusals { IfErr result (λ fault. RefusedRun
        (PartBroke task.now name.now style.now (stream_of R.remaining R.has_failed reader.old)
        (stream_of W.contents W.has_failed writer.old) (stream_of W.contents W.has_failed writer.new))
        (stream_of R.remaining R.has_failed reader.old) (stream_of R.remaining R.has_failed reader.new)
        (stream_of W.contents W.has_failed writer.old) (stream_of W.contents W.has_failed writer.new) fault) }
{
    *kept = read_all(alloc, reader, INPUT_LIMIT)?;
    let text = text_of(kept.as_slice())?;
    let part = with_lines_formatted(alloc, text, style, task.lines.as_slice())?;
    show_part(alloc, task.show, name, text, part.as_str(), writer)
}
