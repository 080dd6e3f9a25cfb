//! The problems of the findings of a text.
ghost use Rattle.std.specs.List.{Contains};
ghost use Rattle.std.specs.Prelude.{IfOk};
ghost use Rattle.yf_events.specs.declared.lists.Lists.{Lists};
ghost use Rattle.yf_findings.specs.Problems.{EachProblem, FindingProblem};
ghost use Rattle.yf_lines.specs.FaultPlaces.{InText};
ghost use Rattle.yf_ranges.specs.Known.{AreKnown};
ghost use Rattle.yf_rule_sets.specs.RuleSets.Places.{IsCursor};
ghost use Rattle.yf_rules.specs.declared.finding.Finding.{Finding as AFinding};

use crate::located::locate;
use crate::owned::{OwnedProblem, owned};
use crate::starts::line_start;
use std::alloc::{AllocError, Global};
use yf_events::reading::Reading;
use yf_forms::style::Style;
use yf_lines::source_text::Src;
use yf_ranges::known::KnownDetails;
use yf_rule_sets::facts::cursor::Cursor;
use yf_rules::finding::Finding;

/// Returns a problem for each finding of a text, in the order of the findings. It takes one pass over the text if the
/// positions of the findings ascend.
///
/// # Errors
///
/// `AllocError` if memory is refused.
pub fn problems_of(
    alloc: Global,
    src: &Src,
    reading: &Reading,
    style: &Style,
    findings: &[Finding],
) -> Result<Vec<OwnedProblem>, AllocError>
    requires { (f : AFinding) → Contains findings.now f → InText src.now.text f.place }
    ensures { IfOk result (λ ps. EachProblem (FindingProblem src.now reading.now style.now) findings.now ps.items) }
{
    let known = KnownDetails::new(alloc, src, reading, style)?;
    listed(alloc, src, style, &known, findings)
}

// Returns a problem for each finding of a text with these details.
fn listed(
    alloc: Global,
    src: &Src,
    style: &Style,
    known: &KnownDetails,
    findings: &[Finding],
) -> Result<Vec<OwnedProblem>, AllocError>
    requires { (f : AFinding) → Contains findings.now f → InText src.now.text f.place }
    ensures { (reading : Lists) → AreKnown src.now reading style.now known.now
        → IfOk result (λ ps. EachProblem (FindingProblem src.now reading style.now) findings.now ps.items) }
{
    let mut problems = Vec::new(alloc);
    let mut cursor = line_start(src, 0);
    for finding in findings {
        match next_problem(alloc, src, style, known, finding, &mut cursor) {
            Ok(problem) => problems.push(problem)?,
            Err(AllocError) => return Err(AllocError),
        }
    }
    Ok(problems)
}

// Returns the problem of a finding, and moves the cursor to the finding.
fn next_problem(
    alloc: Global,
    src: &Src,
    style: &Style,
    known: &KnownDetails,
    finding: &Finding,
    cursor: &mut Cursor,
) -> Result<OwnedProblem, AllocError>
    requires cursor { IsCursor src.now.text src.now.lines cursor.old }
    requires place { InText src.now.text finding.now.place }
    ensures problem { IfOk result (λ p. (reading : Lists) → AreKnown src.now reading style.now known.now
        → FindingProblem src.now reading style.now finding.now p) }
    ensures cursor { IsCursor src.now.text src.now.lines cursor.new }
{
    let located = locate(src, style, known, *cursor, finding);
    *cursor = located.cursor;
    let problem = owned(alloc, src, finding, &located)?;
    Ok(problem)
}
