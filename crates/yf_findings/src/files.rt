//! One report of the problems of several inputs.
ghost use Rattle.std.specs.List.{flat_map};
ghost use Rattle.std.specs.Prelude.{◌≡◌, ◌++◌, map, option_map, IfOk, OnOk};
ghost use Rattle.yf_findings.specs.Files.{ReportOf, entries_of, entry_with, fix_for, fix_in, fix_of};
ghost use Rattle.yf_findings.specs.Files.{fixes_from, fixes_of, replaced_all, replaced_by};
ghost use Rattle.yf_report.specs.CodeQuality.{entry_of};
ghost use Rattle.yf_report.specs.Fixes.{replaced};

use crate::changes::Change;
use crate::owned::OwnedProblem;
use crate::rule_words::RULES;
use std::alloc::{AllocError, Global};
use yf_lines::text::OwnedText;
use yf_report::problem::{Problem, Replacement};
use yf_report::reports::{Format, report};

/// The problems of one input.
#[derive(Drop)]
pub struct FileProblems {
    /// The file's name, or `None` for standard input without a name.
    pub file: Option<OwnedText>,
    pub problems: Vec<OwnedProblem>,
    /// The changes between its text and the formatting, in order, or nothing if they are not asked for.
    pub changes: Vec<Change>,
}

/// Returns one report of the problems of several inputs, in their order. The changes of an input are the fix of its
/// first problem that `fmt` fixes.
///
/// # Errors
///
/// `AllocError` if memory is refused.
pub fn report_of(
    alloc: Global,
    format: Format,
    files: &[FileProblems],
) -> Result<Vec<u8>, AllocError>
    ensures { IfOk result (λ b. ReportOf format files.now b.items) }
{
    let fixes = fixes(alloc, files)?;
    let problems = listed(alloc, files, fixes.as_slice())?;
    report(alloc, format, &RULES, problems.as_slice())
}

// Returns the changes of several inputs in the form for reports.
fn fixes<'a>(
    alloc: Global,
    files: &'a [FileProblems],
) -> Result<Vec<Vec<Replacement<'a>>>, AllocError>
    ensures { IfOk result (λ all. map replaced_all all.items ≡ map fix_in files.now) }
{
    let mut all = Vec::new(alloc);
    for file in files {
        let fix = replacements(alloc, file.changes.as_slice())?;
        all.push(fix)?;
    }
    Ok(all)
}

// Returns the changes of an input in the form for reports.
fn replacements(alloc: Global, changes: &[Change]) -> Result<Vec<Replacement<'_>>, AllocError>
    ensures { IfOk result (λ all. map replaced all.items ≡ map replaced_by changes.now) }
{
    let mut all = Vec::new(alloc);
    for change in changes {
        all.push(Replacement {
            range: change.range,
            text: change.text.as_str(),
        })?;
    }
    Ok(all)
}

// Returns the problems of several inputs in the form for reports. The fixes are those of the inputs.
fn listed<'a>(
    alloc: Global,
    files: &'a [FileProblems],
    fixes: &'a [Vec<Replacement<'a>>],
) -> Result<Vec<Problem<'a>>, AllocError>
    requires { map replaced_all fixes.now ≡ map fix_in files.now }
    ensures entries { IfOk result (λ ps. map entry_of ps.items ≡ flat_map entries_of files.now) }
    ensures fixes { IfOk result (λ ps. map fix_of ps.items ≡ flat_map fixes_of files.now) }
{
    let mut all = Vec::new(alloc);
    let mut k = 0;
    while k < files.len() {
        let file = &files[k];
        let problems = file.problems.as_slice();
        add(&mut all, name_in(&file.file), problems, fixes[k].as_slice())?;
        k += 1;
    }
    Ok(all)
}

/// Returns the name of a file, if it has one.
pub(crate) fn name_in(file: &Option<OwnedText>) -> Option<&str>
    ensures { option_map (λ s. s.now) result ≡ file.now }
{
    match file {
        Some(name) => Some(name.as_str()),
        None => None,
    }
}

// Adds the problems of one input. The first one that `fmt` fixes has the fix.
fn add<'a>(
    all: &mut Vec<Problem<'a>>,
    file: Option<&'a str>,
    problems: &'a [OwnedProblem],
    fix: &'a [Replacement<'a>],
) -> Result<(), AllocError>
    ensures entries { OnOk result (map entry_of all.new.items
        ≡ map entry_of all.old.items ++ map (entry_with (option_map (λ s. s.now) file.entry)) problems.now) }
    ensures fixes { OnOk result (map fix_of all.new.items
        ≡ map fix_of all.old.items ++ fixes_from (map replaced fix.now) problems.now) }
{
    let mut left = fix;
    for problem in problems {
        let fixable = problem.fixable;
        all.push(with_file(file, problem, fix_if(fixable, left)))?;
        left = fix_if(!fixable, left);
    }
    Ok(())
}

// Returns the fix if it is wanted, and otherwise none.
fn fix_if<'a>(wanted: bool, fix: &'a [Replacement<'a>]) -> &'a [Replacement<'a>]
    ensures { map replaced result.now ≡ fix_for wanted (map replaced fix.now) }
{
    if wanted {
        return fix;
    }
    &fix[..0]
}

// Returns a problem of a file in the form for reports.
fn with_file<'a>(
    file: Option<&'a str>,
    problem: &'a OwnedProblem,
    fix: &'a [Replacement<'a>],
) -> Problem<'a>
    ensures entry { entry_of result ≡ entry_with (option_map (λ s. s.now) file.entry) problem.now }
    ensures fix { fix_of result ≡ map replaced fix.now }
{
    Problem {
        file,
        range: problem.range,
        rule: problem.rule,
        severity: problem.severity,
        message: problem.message.as_str(),
        fixable: problem.fixable,
        related: None,
        fix,
        line_text: problem.line_text.as_str(),
    }
}
