//! The problems on some lines, and the first problems of several inputs.
ghost use Rattle.std.specs.List.{flat_map, list_all};
ghost use Rattle.std.specs.Prelude.{◌≡◌, ◌≤◌, ◌-◌, true, false, length, map, not, take};
ghost use Rattle.yf_findings.specs.LineForm.{is_finding};
ghost use Rattle.yf_findings.specs.Selection.{SomeLine, at_most, counted, counted_entries, first_problems, is_on};
ghost use Rattle.yf_findings.specs.Selection.{last_line, listed_in, meets, on_lines};

use crate::files::FileProblems;
use crate::lines::is_finding;
use crate::owned::OwnedProblem;
use yf_line_ranges::range::LineRange;
use yf_report::problem::Range;

/// Returns the problems whose ranges have a part of one of these lines, in their order. If `asked` is empty, it returns
/// all problems.
pub fn on_lines(asked: &[LineRange], mut problems: Vec<OwnedProblem>) -> Vec<OwnedProblem>
    ensures { result.items ≡ on_lines asked.now problems.items }
{
    if asked.is_empty() {
        return problems;
    }
    problems.retain(|problem| is_on(asked, problem));
    problems
}

// Returns whether a problem is on one of these lines.
fn is_on(asked: &[LineRange], problem: &OwnedProblem) -> bool
    ensures { result ≡ is_on asked.now problem.now }
{
    for lines in asked {
        if meets(problem.range, *lines) {
            return true;
        }
    }
    false
}

/// Returns whether a range has a part of one of these lines.
pub fn meets(range: Range, lines: LineRange) -> bool
    ensures exact { result ≡ meets range lines }
    ensures some { result ≡ true → SomeLine range lines }
    ensures none { result ≡ false → ¬ SomeLine range lines }
{
    let last = last_line(range);
    if lines.last < lines.first {
        return false;
    }
    if last < lines.first {
        return false;
    }
    if lines.last < range.line {
        return false;
    }
    true
}

/// Returns the number of the last line that a range has a part of.
pub(crate) fn last_line(range: Range) -> usize
    ensures exact { result ≡ last_line range }
    ensures order { range.line ≤ result }
{
    if range.line < range.end_line {
        if range.end_column <= 1 {
            return range.end_line - 1;
        }
        return range.end_line;
    }
    range.line
}

/// Keeps only the first `limit` findings, all inputs counted together. Refusals stay.
pub fn limit(files: &mut Vec<FileProblems>, limit: usize)
    ensures kept { map listed_in files.new.items ≡ first_problems limit (map listed_in files.old.items) }
    ensures first { flat_map counted_entries (map listed_in files.new.items)
        ≡ take limit (flat_map counted_entries (map listed_in files.old.items)) }
{
    cut_all(files, limit);
}

// Keeps only the first findings of several inputs.
fn cut_all(files: &mut Vec<FileProblems>, limit: usize)
    ensures { map listed_in files.new.items ≡ first_problems limit (map listed_in files.old.items) }
{
    let mut left = limit;
    for file in files.iter_mut() {
        left = cut(file, left);
    }
}

// Keeps only the first `limit` findings of an input, and returns how many more findings the limit allows.
fn cut(file: &mut FileProblems, limit: usize) -> usize
    ensures name { file.new.file ≡ file.old.file }
    ensures changes { file.new.changes.items ≡ file.old.changes.items }
    ensures kept { file.new.problems.items ≡ at_most limit file.old.problems.items }
    ensures left { result ≡ limit - length (counted file.old.problems.items) }
{
    if has_refusal(file.problems.as_slice()) {
        return limit;
    }
    let count = file.problems.len();
    file.problems.truncate(limit);
    limit.saturating_sub(count)
}

/// Returns the number of findings that a limit counts: that of all problems, or 0 if one of them is a refusal.
pub fn count_findings(problems: &[OwnedProblem]) -> usize
    ensures { result ≡ length (counted problems.now) }
{
    if has_refusal(problems) {
        return 0;
    }
    problems.len()
}

// Returns whether one of these problems is a refusal.
fn has_refusal(problems: &[OwnedProblem]) -> bool
    ensures { not result ≡ list_all is_finding problems.now }
{
    for problem in problems {
        if !is_finding(problem) {
            return true;
        }
    }
    false
}
