//! The number of findings of each rule.
ghost use Rattle.std.specs.List.{All, list_any};
ghost use Rattle.std.specs.List.Sorted.{IsPermutation, IsSortedBy};
ghost use Rattle.std.specs.Prelude.{◌≡◌, ◌∷◌, ◌++◌, ℕ, List, [], decimal, length, map, IfOk, OnOk};
ghost use Rattle.yf_findings.specs.Statistics.{AddsRow, AreCounted, IsRow, StatisticsText, blanks, comes_before, count_of};
ghost use Rattle.yf_findings.specs.Statistics.{fixes, fixes_all, found_value, is_row, kinds_in, kinds_of, occurs, row_cmp};
ghost use Rattle.yf_findings.specs.Statistics.{row_text, rows_of, rows_text, width_of};

use crate::files::FileProblems;
use crate::lines::{fixable_word, is_finding, push_texts};
use crate::owned::OwnedProblem;
use itoa::Buffer;
use std::alloc::{AllocError, Global};
use std::cmp::Ordering;

/// The rule of a finding, and whether `fmt` fixes the finding.
#[derive(Clone, Copy)]
pub struct FoundRule {
    pub rule: &'static str,
    pub fixable: bool,
}

/// The findings of a rule.
#[derive(Clone, Copy)]
pub struct RuleCount {
    pub rule: &'static str,
    pub count: usize,
    /// Whether `fmt` fixes all of them.
    pub fixable: bool,
}

/// Returns a line for each rule that has findings, with their number. The highest number is first.
pub(crate) fn statistics_of(alloc: Global, files: &[FileProblems]) -> Result<Vec<u8>, AllocError>
    ensures { IfOk result (λ b. StatisticsText files.now b.items) }
{
    let found = found_in(alloc, files)?;
    let rows = sorted_rows(alloc, found.as_slice())?;
    text_of(alloc, rows.as_slice())
}

/// Returns the rules of all findings.
pub(crate) fn found_in(alloc: Global, files: &[FileProblems]) -> Result<Vec<FoundRule>, AllocError>
    ensures { IfOk result (λ found. map found_value found.items ≡ kinds_in files.now) }
{
    let mut found = Vec::new(alloc);
    for file in files {
        add_file(&mut found, file.problems.as_slice())?;
    }
    Ok(found)
}

// Adds the rules of the findings of one input.
fn add_file(found: &mut Vec<FoundRule>, problems: &[OwnedProblem]) -> Result<(), AllocError>
    ensures { OnOk result (map found_value found.new.items
        ≡ map found_value found.old.items ++ kinds_of problems.now) }
{
    for problem in problems {
        add_problem(found, problem)?;
    }
    Ok(())
}

// Adds the rule of a finding.
fn add_problem(found: &mut Vec<FoundRule>, problem: &OwnedProblem) -> Result<(), AllocError>
    ensures { OnOk result (map found_value found.new.items
        ≡ map found_value found.old.items ++ kinds_of (problem.now ∷ [])) }
{
    if is_finding(problem) {
        found.push(FoundRule {
            rule: problem.rule,
            fixable: problem.fixable,
        })?;
        return Ok(());
    }
    Ok(())
}

// Returns the rows of all rules that have findings, in order.
fn sorted_rows(alloc: Global, found: &[FoundRule]) -> Result<Vec<RuleCount>, AllocError>
    ensures { IfOk result (λ rows. AreCounted found.now rows.items) }
{
    let mut rows = rows_in(alloc, found)?;
    sort(&mut rows)?;
    Ok(rows)
}

// Returns the rows of all rules that have findings.
fn rows_in(alloc: Global, found: &[FoundRule]) -> Result<Vec<RuleCount>, AllocError>
    ensures each { IfOk result (λ rows. All (IsRow found.now) rows.items) }
    ensures once { IfOk result (λ rows. (id : List ℕ) → rows_of id rows.items ≡ occurs id found.now) }
{
    let mut rows = Vec::new(alloc);
    for one in found {
        add_row(&mut rows, found, one.rule)?;
    }
    Ok(rows)
}

// Adds the row of a rule that has none yet.
fn add_row(
    rows: &mut Vec<RuleCount>,
    found: &[FoundRule],
    rule: &'static str,
) -> Result<(), AllocError>
    ensures { OnOk result (AddsRow found.now rule.now rows.old.items rows.new.items) }
{
    if has_row(rows.as_slice(), rule) {
        return Ok(());
    }
    rows.push(row_of(found, rule))?;
    Ok(())
}

// Returns whether a rule has a row.
fn has_row(rows: &[RuleCount], rule: &str) -> bool
    ensures { result ≡ list_any (is_row rule.now) rows.now }
{
    for row in rows {
        if row.rule == rule {
            return true;
        }
    }
    false
}

// Returns the row of a rule.
fn row_of(found: &[FoundRule], rule: &'static str) -> RuleCount
    ensures row { IsRow found.now result }
    ensures rule { result.rule.now ≡ rule.now }
{
    RuleCount {
        rule,
        count: count_of(found, rule),
        fixable: fixes_all(found, rule),
    }
}

// Returns the number of findings of a rule.
fn count_of(found: &[FoundRule], rule: &str) -> usize
    ensures { result ≡ count_of rule.now found.now }
{
    let mut count = 0;
    for one in found {
        if one.rule == rule {
            count += 1;
        }
    }
    count
}

// Returns whether `fmt` fixes all findings of a rule.
fn fixes_all(found: &[FoundRule], rule: &str) -> bool
    ensures { result ≡ fixes_all rule.now found.now }
{
    for one in found {
        if !fixes(one, rule) {
            return false;
        }
    }
    true
}

// Returns whether `fmt` fixes a finding, if it is of a rule.
fn fixes(one: &FoundRule, rule: &str) -> bool
    ensures { result ≡ fixes rule.now one.now }
{
    if one.rule == rule {
        return one.fixable;
    }
    true
}

// Sorts rows: the highest number first, and then by the ids.
fn sort(rows: &mut Vec<RuleCount>) -> Result<(), AllocError>
    ensures same { IsPermutation rows.old.items rows.new.items }
    ensures sorted { OnOk result (IsSortedBy comes_before rows.new.items) }
{
    match rows.sort_by(|a, b| order(a, b)) {
        Ok(()) => Ok(()),
        Err(AllocError) => Err(AllocError),
    }
}

// Compares two rows.
fn order(a: &RuleCount, b: &RuleCount) -> Ordering
    ensures { result ≡ row_cmp a.now b.now }
{
    b.count.cmp(&a.count).then(a.rule.cmp(b.rule))
}

// Returns the text of rows.
fn text_of(alloc: Global, rows: &[RuleCount]) -> Result<Vec<u8>, AllocError>
    ensures { IfOk result (λ b. b.items ≡ rows_text rows.now) }
{
    let mut out = Vec::new(alloc);
    let width = width_of(rows);
    for row in rows {
        push_row(&mut out, width, row)?;
    }
    Ok(out)
}

// Returns the width of the number in the first row.
fn width_of(rows: &[RuleCount]) -> usize
    ensures { result ≡ width_of rows.now }
{
    match rows {
        [first, ..] => digits(first.count),
        [] => 0,
    }
}

// Returns the number of digits of a number.
fn digits(number: usize) -> usize
    ensures { result ≡ length (decimal number) }
{
    let mut buffer = Buffer::new();
    buffer.format(number).len()
}

// Adds a row, with its number in a width.
fn push_row(out: &mut Vec<u8>, width: usize, row: &RuleCount) -> Result<(), AllocError>
    ensures { OnOk result (out.new.items ≡ out.old.items ++ row_text width row.now) }
{
    let mut buffer = Buffer::new();
    let number = buffer.format(row.count);
    let word = fixable_word(row.fixable);
    push_blanks(out, width.saturating_sub(number.len()))?;
    push_texts(out, &[number, "  ", row.rule, word, "\n"])
}

// Adds blanks.
fn push_blanks(out: &mut Vec<u8>, count: usize) -> Result<(), AllocError>
    ensures { OnOk result (out.new.items ≡ out.old.items ++ blanks count) }
{
    for _ in 0..count {
        out.push(b' ')?;
    }
    Ok(())
}
