//! The problem of a text that is no data.
ghost use Rattle.std.specs.Prelude.{◌≡◌, IfOk};
ghost use Rattle.yf_findings.specs.Guards.{GuardProblem, IsLineOf, PlacedFrom, WithGuard, guard_words};

use crate::owned::{OwnedProblem, line_text, nothing};
use crate::refusals::empty_at;
use std::alloc::{AllocError, Global};
use yf_chars::utf8::check_utf8;
use yf_lines::source_text::Src;
use yf_lines::text::OwnedText;
use yf_report::problem::Severity;
use yf_rules::finding::Finding;

/// Returns the problems that the rules find in these bytes, and among them that of a finding that says why the text is
/// no data. The problems are sorted by the positions at which their ranges begin. At its position the added problem is
/// the first.
///
/// # Errors
///
/// `AllocError` if memory is refused.
pub fn with_guard(
    alloc: Global,
    bytes: &[u8],
    finding: &Finding,
    mut problems: Vec<OwnedProblem>,
) -> Result<Vec<OwnedProblem>, AllocError>
    ensures { IfOk result (λ all. WithGuard bytes.now finding.now problems.items all.items) }
{
    let problem = guard_problem(alloc, bytes, finding)?;
    problems.insert(0, problem)?;
    sort(&mut problems)?;
    Ok(problems)
}

// Sorts problems by the positions at which their ranges begin.
fn sort(problems: &mut Vec<OwnedProblem>) -> Result<(), AllocError>
    ensures { IfOk result (λ _. PlacedFrom problems.old.items problems.new.items) }
{
    match problems.sort_by_key(|p| (p.range.line, p.range.column)) {
        Ok(()) => Ok(()),
        Err(AllocError) => Err(AllocError),
    }
}

// Returns the problem of a finding that says why these bytes are no data.
fn guard_problem(alloc: Global, bytes: &[u8], finding: &Finding) -> Result<OwnedProblem, AllocError>
    ensures { IfOk result (λ p. GuardProblem bytes.now finding.now p) }
{
    let message = OwnedText::new(String::from_str(alloc, guard_words(finding))?);
    let line_text = line_of(alloc, bytes, finding.place.line)?;
    Ok(OwnedProblem {
        range: empty_at(finding.place),
        rule: finding.id,
        severity: Severity::Warning,
        message,
        fixable: false,
        line_text,
    })
}

// Returns why a text is no data.
fn guard_words(finding: &Finding) -> &'static str
    ensures { result.now ≡ guard_words finding.now }
{
    if finding.id == "template" {
        return "looks like a template, which is YAML only after it is rendered";
    }
    "plain text over several lines, which fmt would join into one"
}

// Returns the text of the line of these bytes with this number, or a front of it. If the bytes are not UTF-8, it is
// empty.
fn line_of(alloc: Global, bytes: &[u8], number: usize) -> Result<OwnedText, AllocError>
    ensures { IfOk result (λ s. IsLineOf bytes.now number s) }
{
    match check_utf8(bytes) {
        Ok(text) => {
            let src = Src::new(alloc, text)?;
            line_text(alloc, &src, number)
        }
        Err(_) => Ok(nothing(alloc)),
    }
}
