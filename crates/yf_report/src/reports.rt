//! A report in a format that is given by a value.
ghost use Rattle.std.specs.Prelude.{map, IfOk};
ghost use Rattle.yf_report.specs.Reports.{IsReport};
ghost use Rattle.yf_report.specs.Sarif.{described};

use crate::checkstyle::checkstyle_report;
use crate::code_quality::gitlab_report;
use crate::junit::junit_report;
use crate::problem::Problem;
use crate::problems_json::json_report;
use crate::sarif::{Rule, sarif_report};
use crate::workflow_commands::github_report;
use std::alloc::{AllocError, Global};

/// A format of reports for programs.
#[derive(Clone, Copy)]
pub enum Format {
    /// One JSON array of objects.
    Json,
    /// Workflow commands of GitHub Actions.
    Github,
    /// A SARIF 2.1.0 log.
    Sarif,
    /// A Code Quality report of GitLab.
    Gitlab,
    /// A JUnit document.
    Junit,
    /// A Checkstyle document.
    Checkstyle,
}

/// Returns the report of the problems of one run, in their order.
///
/// Only a SARIF log has the rules.
///
/// # Errors
///
/// `AllocError` if memory runs out.
pub fn report(
    alloc: Global,
    format: Format,
    rules: &[Rule<'_>],
    problems: &[Problem<'_>],
) -> Result<Vec<u8>, AllocError>
    ensures { IfOk result (λ b. IsReport format (map described rules.now) problems.now b.items) }
{
    match format {
        Format::Json => json_report(alloc, problems),
        Format::Github => github_report(alloc, problems),
        Format::Sarif => sarif_report(alloc, rules, problems),
        Format::Gitlab => gitlab_report(alloc, problems),
        Format::Junit => junit_report(alloc, problems),
        Format::Checkstyle => checkstyle_report(alloc, problems),
    }
}
