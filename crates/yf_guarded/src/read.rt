//! The verdict on the text of a reader.
ghost use Rattle.std.specs.Prelude.{◌≡◌, false, IfErr, IfOk, MatchResult, OnOk};
ghost use Rattle.yf_guarded.specs.Judged.{GivesJudged, GivesText, IsByteFault, IsJudged, IsShownAs};
ghost use Rattle.yf_rules.specs.Runs.ByteStream.{stream_of};
ghost use Rattle.yf_rules.specs.Runs.Run.{Gave, Keeps, RefusedText};
ghost use Rattle.yf_stream.specs.StreamReader.{StreamFault};

use crate::findings::finding_of;
use crate::judge::judge;
use std::alloc::{AllocError, Global};
use yf_guard::guarded::Guarded;
use yf_lines::fault::Fault;
use yf_lines::source_text::Src;
use yf_lines::watched::Source;
use yf_rules::finding::Finding;
use yf_rules::input::{read_all, text_of};
use yf_rules::run::INPUT_LIMIT;

/// The verdict on a text.
#[derive(Clone, Copy)]
pub enum Verdict {
    /// The text passes.
    Passed,
    /// The text is encrypted.
    Encrypted,
    /// The text is no data, as this finding says.
    NoData(Finding),
}

/// Reads all bytes, and returns the verdict on the text. Without `reads` only an encrypted text doesn't pass. The bytes
/// are kept for the caller.
///
/// # Errors
///
/// Fails like `run_events` of yf_rules, except with the faults of a writer. Without `reads` it fails like `read_text`.
pub fn read_judged<R: Source>(
    alloc: Global,
    reads: bool,
    reader: &mut R,
    kept: &mut Vec<u8>,
) -> Result<Verdict, Fault>
    ensures judged { IfOk result (GivesJudged reads (R.remaining reader.old) kept.new.items) }
    ensures reader { OnOk result (R.has_failed reader.new ≡ R.has_failed reader.old) }
    ensures bytes { MatchResult result (λ _. Gave (R.remaining reader.old) kept.new.items)
        (Keeps (R.remaining reader.old) kept.new.items) }
    ensures refusals { IfErr result (λ fault. RefusedText (stream_of R.remaining R.has_failed reader.old)
        (stream_of R.remaining R.has_failed reader.new) fault) }
    ensures unread { IfErr result (λ fault. reads ≡ false → IsByteFault fault) }
{
    *kept = read_all(alloc, reader, INPUT_LIMIT)?;
    let text = text_of(kept.as_slice())?;
    verdict_on(alloc, reads, text)
}

/// Reads all bytes, which must be a text. The bytes are kept for the caller.
///
/// # Errors
///
/// `Fault::ReadFailed` if a read fails, `Fault::NotUtf8` if the bytes are not UTF-8, and `Fault::Memory` if memory is
/// refused.
pub fn read_text<R: Source>(alloc: Global, reader: &mut R, kept: &mut Vec<u8>) -> Result<(), Fault>
    ensures text { IfOk result (λ _. GivesText (R.remaining reader.old) kept.new.items) }
    ensures reader { OnOk result (R.has_failed reader.new ≡ R.has_failed reader.old) }
    ensures bytes { MatchResult result (λ _. Gave (R.remaining reader.old) kept.new.items)
        (Keeps (R.remaining reader.old) kept.new.items) }
    ensures refusals { IfErr result (λ fault. RefusedText (stream_of R.remaining R.has_failed reader.old)
        (stream_of R.remaining R.has_failed reader.new) fault) }
    ensures unread { IfErr result IsByteFault }
{
    *kept = read_all(alloc, reader, INPUT_LIMIT)?;
    text_of(kept.as_slice())?;
    Ok(())
}

// Returns the verdict on a text.
fn verdict_on(alloc: Global, reads: bool, text: &str) -> Result<Verdict, Fault>
    ensures judged { IfOk result (IsJudged reads text.now) }
    ensures refuses { IfErr result (StreamFault text.now) }
    ensures unread { IfErr result (λ fault. reads ≡ false → fault ≡ Fault.Memory) }
{
    match judge(alloc, text, reads) {
        Ok(Some(fault)) => match shown(alloc, text, fault) {
            Ok(verdict) => Ok(verdict),
            Err(AllocError) => Err(Fault::Memory),
        },
        Ok(None) => Ok(Verdict::Passed),
        Err(fault) => Err(fault),
    }
}

// Returns the verdict on a text with a fault.
fn shown(alloc: Global, text: &str, fault: Guarded) -> Result<Verdict, AllocError>
    ensures { IfOk result (IsShownAs text.now fault) }
{
    let src = Src::new(alloc, text)?;
    match finding_of(&src, fault) {
        Some(finding) => Ok(Verdict::NoData(finding)),
        None => Ok(Verdict::Encrypted),
    }
}
