//! The problem of a text that is not its own formatting, and the changes between both.
ghost use Rattle.std.specs.Prelude.{◌≡◌, IfErr, IfOk, MatchResult, OnOk};
ghost use Rattle.yf_findings.specs.Differences.{AskedChanges, DifferenceFrom, DifferenceProblem, ReadDifference};
ghost use Rattle.yf_findings.specs.Guards.{IsLineOf};
ghost use Rattle.yf_rules.specs.Runs.ByteStream.{stream_of};
ghost use Rattle.yf_rules.specs.Runs.Run.{Gave, Keeps, RefusedText};

use crate::changes::{Change, changes_between};
use crate::owned::{OwnedProblem, line_text};
use crate::refusals::empty_at;
use crate::texts::CheckedText;
use std::alloc::{AllocError, Global};
use yf_forms::style::Style;
use yf_lines::fault::Fault;
use yf_lines::place::Position;
use yf_lines::source_text::Src;
use yf_lines::text::OwnedText;
use yf_lines::watched::Source;
use yf_report::problem::Severity;
use yf_rules::compare::difference;
use yf_rules::format::format;
use yf_rules::input::{read_all, text_of};
use yf_rules::run::INPUT_LIMIT;

/// Reads all bytes, and returns a problem at the position at which the text first differs from its formatting. Returns
/// no problem if the text is its own formatting. If `asked`, it also returns the changes between the text and its
/// formatting. The bytes are kept for the caller.
///
/// # Errors
///
/// Fails like `yf_rules::run::run_events`, except with the faults of a writer.
pub fn read_difference<R: Source>(
    alloc: Global,
    asked: bool,
    style: &Style,
    reader: &mut R,
    kept: &mut Vec<u8>,
) -> Result<CheckedText, Fault>
    ensures problems { IfOk result (ReadDifference asked style.now (R.remaining reader.old)) }
    ensures reader { OnOk result (R.has_failed reader.new ≡ R.has_failed reader.old) }
    ensures bytes { MatchResult result (λ _. Gave (R.remaining reader.old) kept.new.items)
        (Keeps (R.remaining reader.old) kept.new.items) }
    ensures refusals { IfErr result (λ fault. RefusedText (stream_of R.remaining R.has_failed reader.old)
        (stream_of R.remaining R.has_failed reader.new) fault) }
{
    *kept = read_all(alloc, reader, INPUT_LIMIT)?;
    let text = text_of(kept.as_slice())?;
    let formatted = format(alloc, text, style)?;
    match compared(alloc, asked, text, formatted.as_str()) {
        Ok(found) => Ok(found),
        Err(AllocError) => Err(Fault::Memory),
    }
}

// Returns a problem at the position at which a text first differs from another one, or none if they are equal; and the
// changes between them if they are asked for.
fn compared(alloc: Global, asked: bool, text: &str, other: &str) -> Result<CheckedText, AllocError>
    ensures problems { IfOk result (λ c. DifferenceFrom text.now other.now c.problems.items) }
    ensures changes { IfOk result (λ c. AskedChanges asked text.now other.now c.changes.items) }
{
    let problems = problems_of_difference(alloc, text, other)?;
    let changes = changes_if(alloc, asked, text, other)?;
    Ok(CheckedText { problems, changes })
}

// Returns the changes between two texts if they are asked for, and otherwise none.
fn changes_if(
    alloc: Global,
    asked: bool,
    text: &str,
    other: &str,
) -> Result<Vec<Change>, AllocError>
    ensures { IfOk result (λ cs. AskedChanges asked text.now other.now cs.items) }
{
    if asked {
        let src = Src::new(alloc, text)?;
        return changes_between(alloc, &src, other);
    }
    Ok(Vec::new(alloc))
}

// Returns a problem at the position at which a text first differs from another one, or none if they are equal.
fn problems_of_difference(
    alloc: Global,
    text: &str,
    other: &str,
) -> Result<Vec<OwnedProblem>, AllocError>
    ensures { IfOk result (λ ps. DifferenceFrom text.now other.now ps.items) }
{
    let mut problems = Vec::new(alloc);
    match difference(alloc, text, other) {
        Ok(None) => Ok(problems),
        Ok(Some(place)) => {
            let problem = difference_problem(alloc, text, place)?;
            problems.push(problem)?;
            Ok(problems)
        }
        Err(AllocError) => Err(AllocError),
    }
}

// Returns the problem of a text at a position.
fn difference_problem(
    alloc: Global,
    text: &str,
    place: Position,
) -> Result<OwnedProblem, AllocError>
    ensures { IfOk result (λ p. DifferenceProblem text.now place p) }
{
    let message = OwnedText::new(String::from_str(alloc, "not formatted")?);
    let line_text = line_of(alloc, text, place.line)?;
    Ok(OwnedProblem {
        range: empty_at(place),
        rule: "not-formatted",
        severity: Severity::Warning,
        message,
        fixable: true,
        line_text,
    })
}

// Returns the line of a text with this number, or a front of it.
fn line_of(alloc: Global, text: &str, number: usize) -> Result<OwnedText, AllocError>
    ensures { IfOk result (λ s. IsLineOf text.now number s) }
{
    let src = Src::new(alloc, text)?;
    line_text(alloc, &src, number)
}
