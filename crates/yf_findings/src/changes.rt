//! The changes between a text and its formatting.
ghost use Rattle.std.specs.Prelude.{◌≡◌, IfOk};
ghost use Rattle.std.specs.List.{list_any};
ghost use Rattle.std.specs.Str.{IsCharBoundary};
ghost use Rattle.yf_findings.specs.Changes.{AreChanges, AreCut, ChangeOf, ChangesOf, IsCut, is_fixable};
ghost use Rattle.yf_lines.specs.Lines.{PlaceOf};

use crate::owned::OwnedProblem;
use std::alloc::{AllocError, Global};
use yf_lines::source_text::Src;
use yf_lines::text::OwnedText;
use yf_parts::hunks::{Hunk, hunks_between};
use yf_report::problem::Range;

/// A range of whole lines of a text, and the text that replaces it in the formatting. The range begins where a line
/// begins, and ends where a line begins or at the end of the text. Lines end after a line feed.
#[derive(Drop)]
pub struct Change {
    pub range: Range,
    /// It is empty if formatting only removes the lines.
    pub text: OwnedText,
}

/// Returns the changes between a text and its formatting, in order.
///
/// # Errors
///
/// `AllocError` if memory is refused.
pub(crate) fn changes_between(
    alloc: Global,
    src: &Src,
    formatted: &str,
) -> Result<Vec<Change>, AllocError>
    ensures { IfOk result (λ cs. AreChanges src.now.text formatted.now cs.items) }
{
    let text = src.text();
    if text == formatted {
        return Ok(Vec::new(alloc));
    }
    let hunks = hunks_between(alloc, text.as_bytes(), formatted.as_bytes())?;
    changes_of(alloc, src, formatted, hunks.as_slice())
}

// Returns the changes that hunks make.
fn changes_of(
    alloc: Global,
    src: &Src,
    formatted: &str,
    hunks: &[Hunk],
) -> Result<Vec<Change>, AllocError>
    requires { AreCut src.now.text formatted.now hunks.now }
    ensures { IfOk result (λ cs. ChangesOf src.now.text formatted.now hunks.now cs.items) }
{
    let mut changes = Vec::new(alloc);
    let mut k = 0;
    while k < hunks.len() {
        let change = change_of(alloc, src, formatted, hunks[k])?;
        changes.push(change)?;
        k += 1;
    }
    Ok(changes)
}

// Returns the change that a hunk makes.
fn change_of(alloc: Global, src: &Src, formatted: &str, hunk: Hunk) -> Result<Change, AllocError>
    requires { IsCut src.now.text formatted.now hunk }
    ensures { IfOk result (λ c. ChangeOf src.now.text formatted.now hunk c) }
{
    let range = range_between(src, hunk.start.offset, hunk.end.offset);
    let text = String::from_str(alloc, &formatted[hunk.start.formatted..hunk.end.formatted])?;
    Ok(Change {
        range,
        text: OwnedText::new(text),
    })
}

// Returns the range from one offset to another.
fn range_between(src: &Src, start: usize, end: usize) -> Range
    requires start { IsCharBoundary src.now.text start }
    requires end { IsCharBoundary src.now.text end }
    ensures start { PlaceOf src.now.text start result.line result.column }
    ensures end { PlaceOf src.now.text end result.end_line result.end_column }
{
    let first = src.place(start);
    let last = src.place(end);
    Range {
        line: first.line,
        column: first.column,
        end_line: last.line,
        end_column: last.column,
    }
}

/// Returns whether `fmt` fixes one of these problems.
pub(crate) fn has_fixable(problems: &[OwnedProblem]) -> bool
    ensures { result ≡ list_any is_fixable problems.now }
{
    for problem in problems {
        if problem.fixable {
            return true;
        }
    }
    false
}
