//! The problems of the text from a reader, and the changes between it and its formatting.
ghost use Rattle.std.specs.Prelude.{◌≡◌, IfErr, IfOk, MatchResult, OnOk};
ghost use Rattle.yf_findings.specs.Reading.{ReadProblems};
ghost use Rattle.yf_rules.specs.Runs.ByteStream.{stream_of};
ghost use Rattle.yf_rules.specs.Runs.Run.{Gave, Keeps, RefusedText};

use crate::texts::{CheckedText, problems_in};
use std::alloc::Global;
use yf_forms::style::Style;
use yf_lines::fault::Fault;
use yf_lines::text::OwnedText;
use yf_lines::watched::Source;
use yf_rules::input::{read_all, text_of};
use yf_rules::run::INPUT_LIMIT;

/// Reads all bytes, and returns a problem for each finding of a check of the text by all rules except those with names
/// in `without`. If `asked` and `fmt` fixes one of these, it also returns the changes between the text and its
/// formatting. The bytes are kept for the caller.
///
/// # Errors
///
/// Fails like `yf_rules::run::run_events`, except with the faults of a writer.
pub fn read_problems<R: Source>(
    alloc: Global,
    asked: bool,
    without: &[OwnedText],
    style: &Style,
    reader: &mut R,
    kept: &mut Vec<u8>,
) -> Result<CheckedText, Fault>
    ensures problems { IfOk result (ReadProblems asked without.now style.now (R.remaining reader.old)) }
    ensures reader { OnOk result (R.has_failed reader.new ≡ R.has_failed reader.old) }
    ensures bytes { MatchResult result (λ _. Gave (R.remaining reader.old) kept.new.items)
        (Keeps (R.remaining reader.old) kept.new.items) }
    ensures refusals { IfErr result (λ fault. RefusedText (stream_of R.remaining R.has_failed reader.old)
        (stream_of R.remaining R.has_failed reader.new) fault) }
{
    *kept = read_all(alloc, reader, INPUT_LIMIT)?;
    let text = text_of(kept.as_slice())?;
    problems_in(alloc, asked, without, text, style)
}
