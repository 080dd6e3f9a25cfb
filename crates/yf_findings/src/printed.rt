//! The report of the problems of several inputs, in a form.
ghost use Rattle.std.specs.Prelude.{◌≡◌, IfOk};
ghost use Rattle.yf_findings.specs.Printed.{Printed, has_fixes, shows_changes};

use crate::baselines::baseline_of;
use crate::files::{FileProblems, report_of};
use crate::full::full_of;
use crate::lines::lines_of;
use crate::statistics::statistics_of;
use std::alloc::{AllocError, Global};
use yf_report::reports::Format;

/// The form of a report.
#[derive(Clone, Copy)]
pub enum Form {
    /// A line for each finding: `LINE:COLUMN RULE`, and ` (fixable)` if `fmt` fixes it. If `named`, it begins with
    /// `NAME:`.
    Lines { named: bool },
    /// For people: the message, the line of the text, marks under the range, and what `fmt` writes. If `colored`, it
    /// has colors.
    Full { colored: bool },
    /// The number of findings of each rule.
    Statistics,
    /// A baseline, as `yf_baseline` writes it.
    Baseline,
    /// For programs.
    Report(Format),
}

/// Returns whether a report in this form shows changes between a text and its formatting.
pub fn shows_changes(form: Form) -> bool
    ensures { result ≡ shows_changes form }
{
    match form {
        Form::Lines { named: _ } => false,
        Form::Full { colored: _ } => true,
        Form::Statistics => false,
        Form::Baseline => false,
        Form::Report(format) => has_fixes(format),
    }
}

// Returns whether a format of reports has fixes.
fn has_fixes(format: Format) -> bool
    ensures { result ≡ has_fixes format }
{
    match format {
        Format::Sarif => true,
        Format::Json => false,
        Format::Github => false,
        Format::Gitlab => false,
        Format::Junit => false,
        Format::Checkstyle => false,
    }
}

/// Returns the report of the problems of several inputs in a form.
///
/// # Errors
///
/// `AllocError` if memory is refused.
pub fn printed(alloc: Global, form: Form, files: &[FileProblems]) -> Result<Vec<u8>, AllocError>
    ensures { IfOk result (λ b. Printed form files.now b.items) }
{
    match form {
        Form::Lines { named } => lines_of(alloc, named, files),
        Form::Full { colored } => full_of(alloc, colored, files),
        Form::Statistics => statistics_of(alloc, files),
        Form::Baseline => baseline_of(alloc, files),
        Form::Report(format) => report_of(alloc, format, files),
    }
}
