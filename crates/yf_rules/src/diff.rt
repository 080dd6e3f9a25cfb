//! The difference of a text and its formatting, as a unified diff. `specs/Runs/Diffed` has the definitions.
ghost use Rattle.std.specs.Prelude.{◌≡◌, true, IfErr, IfOk, IfSome, MatchResult, OnOk};
ghost use Rattle.yf_rules.specs.Runs.ByteStream.{stream_of};
ghost use Rattle.yf_rules.specs.Runs.Compare.{IsClean};
ghost use Rattle.yf_rules.specs.Runs.Diffed.{DiffOf, DiffRun, RefusedDiff};
ghost use Rattle.yf_rules.specs.Runs.Run.{Gave, Keeps, RefusedText};

use crate::format::format;
use crate::input::{read_all, text_of};
use crate::run::INPUT_LIMIT;
use std::alloc::{AllocError, Global};
use yf_diff::diff::push_diff;
use yf_forms::style::Style;
use yf_lines::fault::Fault;
use yf_lines::output::write_text;
use yf_lines::watched::{Sink, Source};

/// Reads all bytes, and returns whether the text is its own formatting, like `run_fmt_check`. If it is, nothing is
/// written. If it isn't, the unified diff of the text and its formatting is written, with three lines of context and
/// both under the name.
///
/// # Errors
///
/// Fails like `run_events`, and writes nothing, except a prefix of the diff after `Fault::WriteFailed`.
pub fn run_fmt_diff<R: Source, W: Sink>(
    alloc: Global,
    name: &str,
    reader: &mut R,
    kept: &mut Vec<u8>,
    writer: &mut W,
    style: &Style,
) -> Result<bool, Fault>
    ensures diffed { IfOk result (λ same. DiffRun style.now name.now (stream_of R.remaining R.has_failed reader.old)
        (stream_of W.contents W.has_failed writer.old) (stream_of W.contents W.has_failed writer.new) same) }
    ensures clean { IfOk result (λ same. same ≡ true → IfSome (R.remaining reader.old) (IsClean style.now)) }
    ensures reader { OnOk result (R.has_failed reader.new ≡ R.has_failed reader.old) }
    ensures bytes { MatchResult result (λ _. Gave (R.remaining reader.old) kept.new.items)
        (Keeps (R.remaining reader.old) kept.new.items) }
    ensures refusals { IfErr result (λ fault. RefusedDiff style.now name.now
        (stream_of R.remaining R.has_failed reader.old) (stream_of R.remaining R.has_failed reader.new)
        (stream_of W.contents W.has_failed writer.old) (stream_of W.contents W.has_failed writer.new) fault) }
{
    let diff = read_diff(alloc, name, reader, kept, style)?;
    if diff.is_empty() {
        return Ok(true);
    }
    write_text(writer, diff.as_slice())?;
    Ok(false)
}

// Reads all bytes, and returns the diff of the text and its formatting.
//
// Fails like `run_events`, except with the faults of a writer.
fn read_diff<R: Source>(
    alloc: Global,
    name: &str,
    reader: &mut R,
    kept: &mut Vec<u8>,
    style: &Style,
) -> Result<Vec<u8>, Fault>
    ensures diff { IfOk result (λ diff. DiffOf style.now name.now (R.remaining reader.old) diff.items) }
    ensures reader { OnOk result (R.has_failed reader.new ≡ R.has_failed reader.old) }
    ensures bytes { MatchResult result (λ _. Gave (R.remaining reader.old) kept.new.items)
        (Keeps (R.remaining reader.old) kept.new.items) }
    ensures refusals { IfErr result (λ fault. RefusedText (stream_of R.remaining R.has_failed reader.old)
        (stream_of R.remaining R.has_failed reader.new) fault) }
{
    *kept = read_all(alloc, reader, INPUT_LIMIT)?;
    let text = text_of(kept.as_slice())?;
    let formatted = format(alloc, text, style)?;
    let new_text = formatted.as_str().as_bytes();
    let mut diff = Vec::new(alloc);
    match push_diff(alloc, &mut diff, name, name, text.as_bytes(), new_text) {
        Ok(()) => Ok(diff),
        Err(AllocError) => Err(Fault::Memory),
    }
}
