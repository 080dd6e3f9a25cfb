//! The formatting of a text that is data. The text is read once, for the verdict and for the formatting.
ghost use Rattle.std.specs.Prelude.{◌≡◌, ◌≤◌, length, IfErr, IfOk, MatchResult, OnOk};
ghost use Rattle.yf_guard.specs.Guards.{IsVault};
ghost use Rattle.yf_guarded.specs.Formatted.{GivesFormatting, IsDataFormatting, IsJudgedFormatting, verdict_of};
ghost use Rattle.yf_guarded.specs.Judged.{IsShownAs};
ghost use Rattle.yf_rules.specs.Runs.ByteStream.{stream_of};
ghost use Rattle.yf_rules.specs.Runs.Run.{Gave, Keeps, RefusedText};
ghost use Rattle.yf_rules.specs.declared.run.TheConstants.{INPUT_LIMIT};
ghost use Rattle.yf_stream.specs.StreamReader.{StreamFault, TheReading};

use crate::findings::finding_of;
use crate::judge::judge_reading;
use std::alloc::{AllocError, Global};
use yf_events::reading::Reading;
use yf_forms::style::Style;
use yf_guard::guarded::{Guarded, is_vault};
use yf_lines::fault::Fault;
use yf_lines::source_text::Src;
use yf_lines::watched::Source;
use yf_rules::finding::Finding;
use yf_rules::format::format_reading;
use yf_rules::input::{read_all, text_of};
use yf_rules::run::INPUT_LIMIT;
use yf_stream::stream::read_stream;

/// The formatting of a text that is data, or why a text is no data.
#[derive(Drop)]
pub enum DataFormatting {
    /// The text is data, and this is its formatting.
    Formatted(String),
    /// The text is no data.
    NoData(Guarded),
}

/// The verdict on a text, with its formatting if it passes.
#[derive(Drop)]
pub enum JudgedFormatting {
    /// The text passes, and this is its formatting.
    Passed(String),
    /// The text is encrypted.
    Encrypted,
    /// The text is no data, as this finding says.
    NoData(Finding),
}

/// Returns the formatting of a text, or why the text is no data. The formatting is that of `format` of yf_rules, and
/// the reason is that of `judge` with `reads`.
///
/// # Errors
///
/// Fails like `format`. A text that is no data needs no formatting, so it is not refused if its formatting would be too
/// long.
pub fn format_data(alloc: Global, text: &str, style: &Style) -> Result<DataFormatting, Fault>
    ensures formatted { IfOk result (IsDataFormatting style.now text.now) }
    ensures refuses { IfErr result (StreamFault text.now) }
{
    if is_vault(text) {
        return Ok(DataFormatting::NoData(Guarded::Vault));
    }
    match read_stream(alloc, text) {
        Ok(reading) => format_judged(alloc, text, reading, style),
        Err(fault) => Err(fault),
    }
}

// Returns the formatting of a text with this reading, or why the text is no data.
fn format_judged(
    alloc: Global,
    text: &str,
    reading: Reading,
    style: &Style,
) -> Result<DataFormatting, Fault>
    requires not_vault { IsVault text.now → ⊥ }
    requires fits { length text.now ≤ INPUT_LIMIT }
    requires reads { TheReading text.now reading }
    ensures formatted { IfOk result (IsDataFormatting style.now text.now) }
    ensures refused { IfErr result (λ fault. fault ≡ Fault.Memory) }
{
    match judge_reading(alloc, text, &reading) {
        Ok(None) => match format_reading(alloc, text, reading, style) {
            Ok(formatted) => Ok(DataFormatting::Formatted(formatted)),
            Err(fault) => Err(fault),
        },
        Ok(Some(why)) => Ok(DataFormatting::NoData(why)),
        Err(fault) => Err(fault),
    }
}

/// Reads all bytes, and returns the verdict on the text, and its formatting if it passes. The verdict is that of
/// `read_judged` with `reads`. The bytes are kept for the caller.
///
/// # Errors
///
/// Fails like `run_events` of yf_rules, except with the faults of a writer.
pub fn read_judged_formatting<R: Source>(
    alloc: Global,
    style: &Style,
    reader: &mut R,
    kept: &mut Vec<u8>,
) -> Result<JudgedFormatting, Fault>
    ensures formatted { IfOk result (GivesFormatting style.now (R.remaining reader.old) kept.new.items) }
    ensures reader { OnOk result (R.has_failed reader.new ≡ R.has_failed reader.old) }
    ensures bytes { MatchResult result (λ _. Gave (R.remaining reader.old) kept.new.items)
        (Keeps (R.remaining reader.old) kept.new.items) }
    ensures refusals { IfErr result (λ fault. RefusedText (stream_of R.remaining R.has_failed reader.old)
        (stream_of R.remaining R.has_failed reader.new) fault) }
{
    *kept = read_all(alloc, reader, INPUT_LIMIT)?;
    let text = text_of(kept.as_slice())?;
    judged_formatting(alloc, text, style)
}

// Returns the verdict on a text, and the formatting of a text that passes.
fn judged_formatting(alloc: Global, text: &str, style: &Style) -> Result<JudgedFormatting, Fault>
    ensures formatted { IfOk result (IsJudgedFormatting style.now text.now) }
    ensures refuses { IfErr result (StreamFault text.now) }
{
    match format_data(alloc, text, style) {
        Ok(DataFormatting::Formatted(formatted)) => Ok(JudgedFormatting::Passed(formatted)),
        Ok(DataFormatting::NoData(why)) => match shown_fault(alloc, text, why) {
            Ok(judged) => Ok(judged),
            Err(AllocError) => Err(Fault::Memory),
        },
        Err(fault) => Err(fault),
    }
}

// Returns the verdict on a text with a fault.
fn shown_fault(alloc: Global, text: &str, fault: Guarded) -> Result<JudgedFormatting, AllocError>
    ensures { IfOk result (λ judged. IsShownAs text.now fault (verdict_of judged)) }
{
    let src = Src::new(alloc, text)?;
    match finding_of(&src, fault) {
        Some(finding) => Ok(JudgedFormatting::NoData(finding)),
        None => Ok(JudgedFormatting::Encrypted),
    }
}
