//! The findings that a limit leaves out of a report.
ghost use Rattle.std.specs.Prelude.{◌≡◌, IfOk, Some};
ghost use Rattle.yf_findings.specs.Selection.{count_findings};
ghost use Rattle.yf_program.specs.Reports.{AreShown, TellsLeftOver, left_over, more_findings};
ghost use Rattle.yf_rules.specs.Runs.ByteStream.{stream_of};

use itoa::Buffer;
use std::alloc::AllocError;
use yf_findings::files::FileProblems;
use yf_findings::selection;
use yf_lines::output::write_texts;
use yf_lines::watched::Sink;

/// Keeps only the problems that the limit doesn't leave out, and returns how many findings it leaves out.
///
/// # Errors
///
/// `AllocError` if there are too many findings to count.
pub fn cut_to_limit(
    limit: Option<usize>,
    files: &mut Vec<FileProblems>,
) -> Result<usize, AllocError>
    ensures count { IfOk result (λ count. count ≡ left_over limit files.old.items) }
    ensures shown { IfOk result (λ _. AreShown limit files.old.items files.new.items) }
{
    match limit {
        Some(limit) => cut(limit, files),
        None => Ok(0),
    }
}

// Keeps only the first findings of all files, and returns how many others there are.
fn cut(limit: usize, files: &mut Vec<FileProblems>) -> Result<usize, AllocError>
    ensures count { IfOk result (λ count. count ≡ left_over (Some limit) files.old.items) }
    ensures shown { IfOk result (λ _. AreShown (Some limit) files.old.items files.new.items) }
{
    let count = count_all(files.as_slice())?;
    selection::limit(files, limit);
    Ok(count.saturating_sub(limit))
}

// Returns the number of the findings of all files.
fn count_all(files: &[FileProblems]) -> Result<usize, AllocError>
    ensures { IfOk result (λ count. count ≡ count_findings files.now) }
{
    let mut count: usize = 0;
    for file in files {
        match count.checked_add(selection::count_findings(file.problems.as_slice())) {
            Some(sum) => count = sum,
            None => return Err(AllocError),
        }
    }
    Ok(count)
}

/// Writes how many findings are left out, if any are.
pub fn tell_left_over<E: Sink>(count: usize, error_stream: &mut E)
    ensures { TellsLeftOver count (stream_of E.contents E.has_failed error_stream.old)
        (stream_of E.contents E.has_failed error_stream.new) }
{
    if count != 0 {
        let mut buffer = Buffer::new();
        let digits = buffer.format(count);
        let _ = write_texts(error_stream, &[digits, more_findings(count)]);
    }
}

// Returns the words after the number of findings that are left out.
fn more_findings(count: usize) -> &'static str
    ensures { result.now ≡ more_findings count }
{
    if count == 1 {
        return " more finding is not printed\n";
    }
    " more findings are not printed\n"
}
