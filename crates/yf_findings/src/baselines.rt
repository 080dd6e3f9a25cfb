//! The findings of several inputs as a baseline, and the findings that a baseline doesn't list.
ghost use Rattle.std.specs.BTreeSet.{contains_text};
ghost use Rattle.std.specs.Prelude.{◌≡◌, ◌++◌, map, option_map, IfOk, OnOk};
ghost use Rattle.yf_baseline.specs.Baselines.{baseline_text};
ghost use Rattle.yf_baseline.specs.Entries.{kept_of};
ghost use Rattle.yf_findings.specs.Baselines.{all_entries, file_entries, flat_zip, if_finding, is_listed, kept_in};
ghost use Rattle.yf_findings.specs.Baselines.{problem_entries, unless_listed, unlisted};
ghost use Rattle.yf_report.specs.Checkstyle.{name_or_stdin};

use crate::files::{FileProblems, name_in};
use crate::lines::is_finding;
use crate::owned::OwnedProblem;
use std::alloc::{AllocError, Global};
use yf_baseline::baseline::write_baseline;
use yf_baseline::entries::entries_of;
use yf_baseline::entry::{Entry, Found};
use yf_baseline::line::entry_line;
use yf_baseline::listed::Texts;

/// Returns a baseline of the findings of several inputs, in their order.
pub(crate) fn baseline_of(alloc: Global, files: &[FileProblems]) -> Result<Vec<u8>, AllocError>
    ensures { IfOk result (λ b. b.items ≡ baseline_text (all_entries files.now)) }
{
    let mut entries = Vec::new(alloc);
    for file in files {
        add_file(alloc, &mut entries, file)?;
    }
    write_baseline(alloc, entries.as_slice())
}

// Adds the entries of the findings of an input.
fn add_file(alloc: Global, all: &mut Vec<Entry>, file: &FileProblems) -> Result<(), AllocError>
    ensures { OnOk result (all.new.items ≡ all.old.items ++ file_entries file.now) }
{
    let problems = file.problems.as_slice();
    let entries = entries_in(alloc, name_in(&file.file), problems)?;
    add_found(all, problems, entries)
}

// Adds those of the entries that are entries of findings. The first entry is that of the first problem, and so on.
fn add_found(
    all: &mut Vec<Entry>,
    problems: &[OwnedProblem],
    entries: Vec<Entry>,
) -> Result<(), AllocError>
    ensures { OnOk result (all.new.items ≡ all.old.items ++ flat_zip if_finding problems.now entries.items) }
{
    let mut rest = entries.into_iter();
    for problem in problems {
        match rest.next() {
            Some(entry) => add_if_finding(all, problem, entry)?,
            None => return Ok(()),
        }
    }
    Ok(())
}

// Adds the entry of a problem if that is a finding.
fn add_if_finding(
    all: &mut Vec<Entry>,
    problem: &OwnedProblem,
    entry: Entry,
) -> Result<(), AllocError>
    ensures { OnOk result (all.new.items ≡ all.old.items ++ if_finding problem.now entry) }
{
    if is_finding(problem) {
        all.push(entry)?;
        return Ok(());
    }
    Ok(())
}

/// Returns the problems of an input without the findings that are listed. `listed` has the lines of the entries of a
/// baseline.
///
/// # Errors
///
/// `AllocError` if memory is refused.
pub fn unlisted(
    alloc: Global,
    listed: &Texts,
    name: Option<&str>,
    problems: Vec<OwnedProblem>,
) -> Result<Vec<OwnedProblem>, AllocError>
    ensures { IfOk result (λ left. left.items
        ≡ unlisted (contains_text listed.now) (option_map (λ n. n.now) name.entry) problems.items) }
{
    let entries = entries_in(alloc, name, problems.as_slice())?;
    without_listed(alloc, listed, entries.as_slice(), problems)
}

// Returns the problems without the findings that are listed. The first entry is that of the first problem, and so on.
fn without_listed(
    alloc: Global,
    listed: &Texts,
    entries: &[Entry],
    problems: Vec<OwnedProblem>,
) -> Result<Vec<OwnedProblem>, AllocError>
    ensures { IfOk result (λ left. left.items
        ≡ flat_zip (unless_listed (contains_text listed.now)) entries.now problems.items) }
{
    let mut left = Vec::new(alloc);
    let mut rest = problems.into_iter();
    for entry in entries {
        match rest.next() {
            Some(problem) => add_unless_listed(alloc, &mut left, listed, entry, problem)?,
            None => return Ok(left),
        }
    }
    Ok(left)
}

// Adds a problem, unless it is a finding that is listed.
fn add_unless_listed(
    alloc: Global,
    left: &mut Vec<OwnedProblem>,
    listed: &Texts,
    entry: &Entry,
    problem: OwnedProblem,
) -> Result<(), AllocError>
    ensures { OnOk result (left.new.items
        ≡ left.old.items ++ unless_listed (contains_text listed.now) entry.now problem) }
{
    if is_listed(alloc, listed, entry, &problem)? {
        return Ok(());
    }
    left.push(problem)?;
    Ok(())
}

// Returns whether a problem is a finding, and its entry is listed.
fn is_listed(
    alloc: Global,
    listed: &Texts,
    entry: &Entry,
    problem: &OwnedProblem,
) -> Result<bool, AllocError>
    ensures { IfOk result (λ known. known ≡ is_listed (contains_text listed.now) entry.now problem.now) }
{
    if is_finding(problem) {
        let line = entry_line(alloc, entry)?;
        return Ok(listed.contains(line.as_str()));
    }
    Ok(false)
}

// Returns an entry for each problem of an input, in order.
fn entries_in(
    alloc: Global,
    name: Option<&str>,
    problems: &[OwnedProblem],
) -> Result<Vec<Entry>, AllocError>
    ensures { IfOk result (λ es. es.items ≡ problem_entries (option_map (λ n. n.now) name.entry) problems.now) }
{
    let found = found_in(alloc, problems)?;
    entries_of(alloc, name_or_stdin(name), found.as_slice())
}

// Returns the name of an input, or `stdin` for standard input without a name.
fn name_or_stdin(name: Option<&str>) -> &str
    ensures { result.now ≡ name_or_stdin (option_map (λ n. n.now) name.entry) }
{
    match name {
        Some(name) => name,
        None => "stdin",
    }
}

// Returns the parts of problems on which their entries depend.
fn found_in<'a>(alloc: Global, problems: &'a [OwnedProblem]) -> Result<Vec<Found<'a>>, AllocError>
    ensures { IfOk result (λ found. map kept_of found.items ≡ map kept_in problems.now) }
{
    let mut found = Vec::new(alloc);
    for problem in problems {
        found.push(parts_of(problem))?;
    }
    Ok(found)
}

// Returns the parts of a problem on which its entry depends.
fn parts_of(problem: &OwnedProblem) -> Found<'_>
    ensures { kept_of result ≡ kept_in problem.now }
{
    Found {
        rule: problem.rule,
        text: problem.line_text.as_str(),
    }
}
