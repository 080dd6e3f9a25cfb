//! A check that also reports why a text is no data.
ghost use Rattle.std.specs.Prelude.{◌≡◌, IfErr, IfOk, MatchResult, OnOk};
ghost use Rattle.yf_guard.specs.Guards.{IsVault};
ghost use Rattle.yf_guarded.specs.Checked.{CheckedBroke, CheckedRun, FaultsFound, FoundIn};
ghost use Rattle.yf_rules.specs.AllRules.{FoundWithout};
ghost use Rattle.yf_rules.specs.Runs.ByteStream.{stream_of};
ghost use Rattle.yf_rules.specs.Runs.Run.{Gave, Keeps, RefusedRun};
ghost use Rattle.yf_stream.specs.StreamReader.{StreamFault, TheReading};

use crate::findings::with_fault;
use crate::judge::judge_reading;
use crate::lines::print_findings;
use std::alloc::{AllocError, Global};
use yf_events::reading::Reading;
use yf_forms::style::Style;
use yf_guard::guarded::is_vault;
use yf_lines::fault::Fault;
use yf_lines::source_text::Src;
use yf_lines::text::OwnedText;
use yf_lines::watched::{Sink, Source};
use yf_rules::check_all::check_all;
use yf_rules::finding::Finding;
use yf_rules::input::{read_all, text_of};
use yf_rules::run::INPUT_LIMIT;
use yf_stream::stream::read_stream;

/// Reads all bytes, and writes a line for each finding, as `run_check_all` of yf_rules does. If the text is no data, a
/// finding that says so is among them. Returns whether there is a finding, and keeps the findings. Returns `None`, and
/// writes nothing, if the text is encrypted.
///
/// # Errors
///
/// Fails like `run_check_all`.
pub fn run_check_judged<R: Source, W: Sink>(
    alloc: Global,
    without: &[OwnedText],
    reader: &mut R,
    kept: &mut Vec<u8>,
    found: &mut Vec<Finding>,
    writer: &mut W,
    style: &Style,
) -> Result<Option<bool>, Fault>
    ensures checked { IfOk result (CheckedRun (FoundWithout without.now style.now) style.now
        (stream_of R.remaining R.has_failed reader.old)
        (stream_of W.contents W.has_failed writer.old) (stream_of W.contents W.has_failed writer.new)) }
    ensures reader { OnOk result (R.has_failed reader.new ≡ R.has_failed reader.old) }
    ensures bytes { MatchResult result (λ _. Gave (R.remaining reader.old) kept.new.items)
        (Keeps (R.remaining reader.old) kept.new.items) }
    ensures refusals { IfErr result (λ fault. RefusedRun
        (CheckedBroke (FoundWithout without.now style.now) style.now (R.remaining reader.old)
        (stream_of W.contents W.has_failed writer.old) (stream_of W.contents W.has_failed writer.new))
        (stream_of R.remaining R.has_failed reader.old) (stream_of R.remaining R.has_failed reader.new)
        (stream_of W.contents W.has_failed writer.old) (stream_of W.contents W.has_failed writer.new) fault) }
{
    *kept = read_all(alloc, reader, INPUT_LIMIT)?;
    let text = text_of(kept.as_slice())?;
    if is_vault(text) {
        return Ok(None);
    }
    let findings = findings_in(alloc, without, text, style)?;
    print_findings(findings, found, writer)
}

// Returns the findings in a text.
fn findings_in(
    alloc: Global,
    without: &[OwnedText],
    text: &str,
    style: &Style,
) -> Result<Vec<Finding>, Fault>
    requires { IsVault text.now → ⊥ }
    ensures found { IfOk result (λ all. FoundIn (FoundWithout without.now style.now) style.now text.now all.items) }
    ensures refuses { IfErr result (StreamFault text.now) }
{
    let src = match Src::new(alloc, text) {
        Ok(src) => src,
        Err(AllocError) => return Err(Fault::Memory),
    };
    let stream = read_stream(alloc, text)?;
    findings_by(alloc, without, &src, &stream, style)
}

// Returns the findings in a text with this reading.
fn findings_by(
    alloc: Global,
    without: &[OwnedText],
    src: &Src,
    reading: &Reading,
    style: &Style,
) -> Result<Vec<Finding>, Fault>
    requires not_vault { IsVault src.now.text → ⊥ }
    requires reads { TheReading src.now.text reading.now }
    ensures found { IfOk result (λ all. FaultsFound (FoundWithout without.now style.now) style.now src.now reading.now
        all.items) }
    ensures refused { IfErr result (λ fault. fault ≡ Fault.Memory) }
{
    let fault = judge_reading(alloc, src.text(), reading)?;
    let findings = check_all(alloc, without, src, reading, style)?;
    match with_fault(src, findings, fault) {
        Ok(all) => Ok(all),
        Err(AllocError) => Err(Fault::Memory),
    }
}
