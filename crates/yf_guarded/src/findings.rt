//! The finding that says why a text is no data.
ghost use Rattle.std.specs.Prelude.{◌≡◌, ◌++◌, ◌∷◌, [], IfOk, Some};
ghost use Rattle.std.specs.Str.{IsCharBoundary};
ghost use Rattle.yf_guarded.specs.Judged.{FindingOf, WithFault};
ghost use Rattle.yf_lines.specs.FaultPlaces.{IsPlaceOf};
ghost use Rattle.yf_rules.specs.Check.{SortedFrom};

use std::alloc::AllocError;
use yf_guard::guarded::Guarded;
use yf_lines::place::Position;
use yf_lines::source_text::Src;
use yf_rules::finding::Finding;

/// Returns the finding of a fault, or `None` if the text is encrypted. No style fixes the finding, and it is sorted
/// before the findings of rules at its position.
pub fn finding_of(src: &Src, fault: Guarded) -> Option<Finding>
    ensures { FindingOf src.now.text (Some fault) result }
{
    match fault {
        Guarded::Vault => None,
        Guarded::NoData { offset } => Some(Finding {
            place: place_of(src, offset),
            number: 0,
            id: "no-data",
            fixable: false,
        }),
        Guarded::Template { offset } => Some(Finding {
            place: place_of(src, offset),
            number: 0,
            id: "template",
            fixable: false,
        }),
    }
}

// Returns the position of an offset. An offset within a character, which no reading has, has the position 1:1.
fn place_of(src: &Src, offset: usize) -> Position
    ensures { IsCharBoundary src.now.text offset → IsPlaceOf src.now.text offset result }
{
    if src.text().is_char_boundary(offset) {
        return src.place(offset);
    }
    Position { line: 1, column: 1 }
}

/// Returns the findings of rules with the finding of a fault among them, sorted by position.
///
/// # Errors
///
/// `AllocError` if memory is refused.
pub fn with_fault(
    src: &Src,
    findings: Vec<Finding>,
    fault: Option<Guarded>,
) -> Result<Vec<Finding>, AllocError>
    ensures { IfOk result (λ all. WithFault src.now.text findings.items fault all.items) }
{
    match fault {
        Some(fault) => match finding_of(src, fault) {
            Some(finding) => with_finding(findings, finding),
            None => Ok(findings),
        },
        None => Ok(findings),
    }
}

// Returns findings with one more among them, sorted by line, column and number.
fn with_finding(mut findings: Vec<Finding>, finding: Finding) -> Result<Vec<Finding>, AllocError>
    ensures { IfOk result (λ all. SortedFrom (findings.items ++ finding ∷ []) all.items) }
{
    findings.push(finding)?;
    sort(&mut findings)?;
    Ok(findings)
}

// Sorts findings by line, column and number.
fn sort(findings: &mut Vec<Finding>) -> Result<(), AllocError>
    ensures { IfOk result (λ _. SortedFrom findings.old.items findings.new.items) }
{
    match findings.sort_by_key(|f| (f.place.line, f.place.column, f.number)) {
        Ok(()) => Ok(()),
        Err(AllocError) => Err(AllocError),
    }
}
