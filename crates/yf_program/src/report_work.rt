//! The work on the text of an input, for a report.
ghost use Rattle.std.specs.Prelude.{◌≡◌, IfErr, IfOk, MatchResult, OnOk, option_map};
ghost use Rattle.yf_program.specs.BaselineFile.{not_listed};
ghost use Rattle.yf_program.specs.Reports.{Finds, FindsBeside, asked_problems};
ghost use Rattle.yf_rules.specs.Runs.ByteStream.{stream_of};
ghost use Rattle.yf_rules.specs.Runs.Run.{Gave, Keeps, RefusedText};

use std::alloc::{AllocError, Global};
use yf_baseline::listed::Texts;
use yf_findings::baselines::unlisted;
use yf_findings::differences::read_difference;
use yf_findings::owned::OwnedProblem;
use yf_findings::printed::{Form, shows_changes};
use yf_findings::reading::read_problems;
use yf_findings::selection::on_lines;
use yf_findings::texts::CheckedText;
use yf_forms::style::Style;
use yf_line_ranges::range::LineRange;
use yf_lines::fault::Fault;
use yf_lines::text::OwnedText;
use yf_lines::watched::Source;

/// The work on the text of an input, for a report.
#[derive(Drop)]
pub enum ReportWork {
    /// The findings of the rules in it are listed.
    Check {
        /// The names of the rules that are left out.
        without: Vec<OwnedText>,
        /// The lines to check, or no lines if all are checked.
        lines: Vec<LineRange>,
        /// The lines of the entries of the baseline whose findings are left out, if there is one.
        baseline: Option<Texts>,
    },
    /// The first position at which it differs from its formatting is listed.
    Compare,
}

/// Reads all bytes, and returns the problems that the work finds in the text, and the changes between the text and its
/// formatting if a report in this form shows them and `fmt` fixes a problem. The bytes are kept for the caller.
///
/// # Errors
///
/// Fails like `read_problems`.
pub fn read_found<R: Source>(
    alloc: Global,
    work: &ReportWork,
    form: Form,
    style: &Style,
    reader: &mut R,
    kept: &mut Vec<u8>,
) -> Result<CheckedText, Fault>
    ensures problems { IfOk result (Finds work.now form style.now (R.remaining reader.old)) }
    ensures reader { OnOk result (R.has_failed reader.new ≡ R.has_failed reader.old) }
    ensures bytes { MatchResult result (λ _. Gave (R.remaining reader.old) kept.new.items)
        (Keeps (R.remaining reader.old) kept.new.items) }
    ensures refusals { IfErr result (λ fault. RefusedText (stream_of R.remaining R.has_failed reader.old)
        (stream_of R.remaining R.has_failed reader.new) fault) }
{
    let changes = shows_changes(form);
    match work {
        ReportWork::Check { without, .. } => {
            read_problems(alloc, changes, without.as_slice(), style, reader, kept)
        }
        ReportWork::Compare => read_difference(alloc, changes, style, reader, kept),
    }
}

/// Returns the problems that the work finds in a text that is no data, besides the problem that says so. A comparison
/// finds none, and doesn't read the text. The bytes that are read are kept for the caller.
///
/// # Errors
///
/// Fails like `read_problems`.
pub fn read_beside<R: Source>(
    alloc: Global,
    work: &ReportWork,
    style: &Style,
    reader: &mut R,
    kept: &mut Vec<u8>,
) -> Result<CheckedText, Fault>
    ensures problems { IfOk result (FindsBeside work.now style.now (R.remaining reader.old)) }
    ensures bytes { IfErr result (Keeps (R.remaining reader.old) kept.new.items) }
    ensures refusals { IfErr result (λ fault. RefusedText (stream_of R.remaining R.has_failed reader.old)
        (stream_of R.remaining R.has_failed reader.new) fault) }
{
    match work {
        ReportWork::Check { without, .. } => {
            read_problems(alloc, false, without.as_slice(), style, reader, kept)
        }
        ReportWork::Compare => Ok(CheckedText {
            problems: Vec::new(alloc),
            changes: Vec::new(alloc),
        }),
    }
}

/// Returns those of the problems of an input that the work asks for: on the lines to check, and without the findings that
/// the baseline lists. A comparison asks for all problems.
///
/// # Errors
///
/// `AllocError` if memory is refused.
pub fn asked_problems(
    alloc: Global,
    work: &ReportWork,
    name: Option<&str>,
    problems: Vec<OwnedProblem>,
) -> Result<Vec<OwnedProblem>, AllocError>
    ensures { IfOk result (λ asked. asked.items
        ≡ asked_problems work.now (option_map (λ n. n.now) name.entry) problems.items) }
{
    match work {
        ReportWork::Check {
            lines,
            baseline,
            ..
        } => {
            let new = not_listed(alloc, baseline, name, problems)?;
            Ok(on_lines(lines.as_slice(), new))
        }
        ReportWork::Compare => Ok(problems),
    }
}

// Returns the problems of an input without the findings that the baseline lists.
fn not_listed(
    alloc: Global,
    baseline: &Option<Texts>,
    name: Option<&str>,
    problems: Vec<OwnedProblem>,
) -> Result<Vec<OwnedProblem>, AllocError>
    ensures { IfOk result (λ left. left.items
        ≡ not_listed baseline.now (option_map (λ n. n.now) name.entry) problems.items) }
{
    match baseline {
        Some(listed) => unlisted(alloc, listed, name, problems),
        None => Ok(problems),
    }
}
