//! The findings of several inputs as lines.
ghost use Rattle.std.specs.Prelude.{◌≡◌, ◌++◌, ◌∷◌, [], IfOk, OnOk};
ghost use Rattle.std.specs.List.{flat_map};
ghost use Rattle.yf_lines.specs.Shown.{shown};
ghost use Rattle.yf_findings.specs.LineForm.{file_lines, is_finding, line_after, lines_text, name_before, name_of, problem_line};
ghost use Rattle.yf_lines.specs.Output.{texts};
ghost use Rattle.yf_rules.specs.Runs.Run.{fixable_word};

use crate::files::FileProblems;
use crate::owned::OwnedProblem;
use itoa::Buffer;
use std::alloc::{AllocError, Global};
use yf_lines::shown::write_shown;
use yf_lines::text::OwnedText;
use yf_lines::watched::Watched;
use yf_report::problem::Severity;

/// Returns a line for each finding, with the name of its input if `named`.
pub(crate) fn lines_of(
    alloc: Global,
    named: bool,
    files: &[FileProblems],
) -> Result<Vec<u8>, AllocError>
    ensures { IfOk result (λ b. b.items ≡ lines_text named files.now) }
{
    let mut out = Vec::new(alloc);
    for file in files {
        push_file(alloc, &mut out, named, file)?;
    }
    Ok(out)
}

// Adds the lines of one input.
fn push_file(
    alloc: Global,
    out: &mut Vec<u8>,
    named: bool,
    file: &FileProblems,
) -> Result<(), AllocError>
    ensures { OnOk result (out.new.items ≡ out.old.items ++ file_lines named file.now) }
{
    let before = name_before(alloc, named, &file.file)?;
    push_lines(out, before.as_slice(), file.problems.as_slice())
}

// Returns the text before each line of an input.
fn name_before(alloc: Global, named: bool, file: &Option<OwnedText>) -> Result<Vec<u8>, AllocError>
    ensures { IfOk result (λ b. b.items ≡ name_before named file.now) }
{
    if named {
        return shown_before(alloc, name_of(file));
    }
    Ok(Vec::new(alloc))
}

/// Returns the name of an input, or `-` for standard input without a name.
pub(crate) fn name_of(file: &Option<OwnedText>) -> &str
    ensures { result.now ≡ name_of file.now }
{
    match file {
        Some(name) => name.as_str(),
        None => "-",
    }
}

// Returns a name with its control characters shown by their numbers, and a colon.
fn shown_before(alloc: Global, name: &str) -> Result<Vec<u8>, AllocError>
    ensures { IfOk result (λ b. b.items ≡ shown name.now ++ 58 ∷ []) }
{
    let mut bytes = Watched::new(Vec::new(alloc));
    match write_shown(&mut bytes, name) {
        Ok(()) => with_colon(bytes.into_inner()),
        Err(_) => Err(AllocError),
    }
}

// Returns a text with a colon after it.
fn with_colon(mut bytes: Vec<u8>) -> Result<Vec<u8>, AllocError>
    ensures { IfOk result (λ b. b.items ≡ bytes.items ++ 58 ∷ []) }
{
    bytes.push(b':')?;
    Ok(bytes)
}

// Adds the lines of these problems, each after a text.
fn push_lines(out: &mut Vec<u8>, before: &[u8], problems: &[OwnedProblem]) -> Result<(), AllocError>
    ensures { OnOk result (out.new.items ≡ out.old.items ++ flat_map (line_after before.now) problems.now) }
{
    for problem in problems {
        push_line(out, before, problem)?;
    }
    Ok(())
}

// Adds the line of a finding after a text, or nothing for a refusal.
fn push_line(out: &mut Vec<u8>, before: &[u8], problem: &OwnedProblem) -> Result<(), AllocError>
    ensures { OnOk result (out.new.items ≡ out.old.items ++ line_after before.now problem.now) }
{
    if is_finding(problem) {
        out.extend_from_slice(before)?;
        return push_finding(out, problem);
    }
    Ok(())
}

/// Returns whether a problem is a finding and not a refusal.
pub(crate) fn is_finding(problem: &OwnedProblem) -> bool
    ensures { result ≡ is_finding problem.now }
{
    match problem.severity {
        Severity::Error => false,
        Severity::Warning => true,
    }
}

// Adds the line of a finding.
fn push_finding(out: &mut Vec<u8>, problem: &OwnedProblem) -> Result<(), AllocError>
    ensures { OnOk result (out.new.items ≡ out.old.items ++ problem_line problem.now) }
{
    let mut line_buffer = Buffer::new();
    let mut column_buffer = Buffer::new();
    let line = line_buffer.format(problem.range.line);
    let column = column_buffer.format(problem.range.column);
    let word = fixable_word(problem.fixable);
    push_texts(out, &[line, ":", column, " ", problem.rule, word, "\n"])
}

/// Adds texts, one after another.
pub(crate) fn push_texts(out: &mut Vec<u8>, parts: &[&str]) -> Result<(), AllocError>
    ensures { OnOk result (out.new.items ≡ out.old.items ++ texts parts.now) }
{
    for part in parts {
        push_text(out, part)?;
    }
    Ok(())
}

// Adds a text.
fn push_text(out: &mut Vec<u8>, text: &str) -> Result<(), AllocError>
    ensures { OnOk result (out.new.items ≡ out.old.items ++ text.now) }
{
    out.extend_from_slice(text.as_bytes())
}

/// Returns the word of a finding that `fmt` fixes.
pub(crate) fn fixable_word(fixable: bool) -> &'static str
    ensures { result.now ≡ fixable_word fixable }
{
    if fixable { " (fixable)" } else { "" }
}
