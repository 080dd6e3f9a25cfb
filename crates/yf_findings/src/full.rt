//! The findings of several inputs for people.
ghost use Rattle.std.specs.List.{count_by, flat_map};
ghost use Rattle.std.specs.Prelude.{◌≡◌, ◌∷◌, ◌++◌, ◌≤◌, [], false, IfOk, OnOk, codes, decimal, length, map, replicate};
ghost use Rattle.std.specs.Str.{chars};
ghost use Rattle.yf_explain.specs.Shown.{all_shown};
ghost use Rattle.yf_findings.specs.Excerpt.{window_of};
ghost use Rattle.yf_findings.specs.Full.{FullText, body_of, file_pieces, full_pieces, head_pieces, is_fixable, line_pieces, message_text};
ghost use Rattle.yf_findings.specs.Full.{marked_pieces, plural, problem_pieces, summary, summary_of, summary_text};
ghost use Rattle.yf_findings.specs.Full.{walk};
ghost use Rattle.yf_findings.specs.Pieces.{all_as_shown, piece, as_shown};
ghost use Rattle.yf_findings.specs.Statistics.{found_value, kinds_in};
ghost use Rattle.yf_findings.specs.declared.pieces.Look.TheVariants.{Bold, Plain, Yellow};
ghost use Rattle.yf_rules.specs.Runs.Run.{fixable_word};

use crate::changes::Change;
use crate::excerpt::{Window, push_excerpt, window_of};
use crate::files::FileProblems;
use crate::full_changes::{due_after, is_due_before, left_at, push_due};
use crate::lines::{fixable_word, is_finding, name_of};
use crate::owned::OwnedProblem;
use crate::pieces::{
    Look, Piece, characters, push_all_shown, push_break, push_piece, push_repeated, push_shown,
    text_of,
};
use crate::statistics::{FoundRule, found_in};
use itoa::Buffer;
use std::alloc::{AllocError, Global};
use yf_explain::Page;
use yf_report::problem::Range;

/// Returns the findings for people, with colors or without.
pub(crate) fn full_of(
    alloc: Global,
    colored: bool,
    files: &[FileProblems],
) -> Result<Vec<u8>, AllocError>
    ensures { IfOk result (λ b. FullText colored files.now b.items) }
{
    let pieces = pieces_of(alloc, files)?;
    text_of(alloc, colored, pieces.as_slice())
}

// Returns the pieces of all findings, and of the last line.
fn pieces_of(alloc: Global, files: &[FileProblems]) -> Result<Vec<Piece>, AllocError>
    ensures { IfOk result (λ ps. ps.items ≡ full_pieces files.now) }
{
    let mut pieces = Vec::new(alloc);
    push_files(alloc, &mut pieces, files)?;
    push_summary(alloc, &mut pieces, files)?;
    Ok(pieces)
}

// Adds the pieces of all findings, and of the changes that fix them.
fn push_files(
    alloc: Global,
    pieces: &mut Vec<Piece>,
    files: &[FileProblems],
) -> Result<(), AllocError>
    ensures { OnOk result (pieces.new.items ≡ pieces.old.items ++ flat_map file_pieces files.now) }
{
    for file in files {
        let name = name_of(&file.file);
        push_file(
            alloc,
            pieces,
            name,
            file.problems.as_slice(),
            file.changes.as_slice(),
        )?;
    }
    Ok(())
}

// Adds the pieces of the findings of one input. A change is added after the last problem that begins on its lines.
fn push_file(
    alloc: Global,
    pieces: &mut Vec<Piece>,
    name: &str,
    problems: &[OwnedProblem],
    changes: &[Change],
) -> Result<(), AllocError>
    ensures { OnOk result (pieces.new.items ≡ pieces.old.items ++ walk name.now false problems.now changes.now) }
{
    let mut left = changes;
    let mut due = false;
    for problem in problems {
        push_due(alloc, pieces, is_due_before(due, problem, left), left)?;
        push_problem(alloc, pieces, name, problem)?;
        due = due_after(due, problem, left);
        left = left_at(problem.range.line, left);
    }
    push_due(alloc, pieces, due, left)
}

// Adds the pieces of a finding, or none for a refusal.
fn push_problem(
    alloc: Global,
    pieces: &mut Vec<Piece>,
    name: &str,
    problem: &OwnedProblem,
) -> Result<(), AllocError>
    ensures { OnOk result (pieces.new.items ≡ pieces.old.items ++ problem_pieces name.now problem.now) }
{
    if is_finding(problem) {
        push_head(alloc, pieces, name, problem)?;
        return push_line(alloc, pieces, problem);
    }
    Ok(())
}

// Adds the name of the input, the position and the rule.
fn push_head(
    alloc: Global,
    pieces: &mut Vec<Piece>,
    name: &str,
    problem: &OwnedProblem,
) -> Result<(), AllocError>
    ensures { OnOk result (pieces.new.items ≡ pieces.old.items ++ head_pieces name.now problem.now) }
{
    push_parts(alloc, pieces, Look::Plain, &[name, ":"])?;
    push_position(alloc, pieces, problem.range)?;
    push_parts(alloc, pieces, Look::Plain, &[" "])?;
    push_parts(alloc, pieces, Look::Yellow, &[problem.rule])
}

// Adds a position.
fn push_position(alloc: Global, pieces: &mut Vec<Piece>, range: Range) -> Result<(), AllocError>
    ensures { OnOk result (pieces.new.items ≡ pieces.old.items
        ++ piece Bold (all_as_shown (decimal range.line ∷ codes ":" ∷ decimal range.column ∷ [])) ∷ []) }
{
    let mut line = Buffer::new();
    let mut column = Buffer::new();
    let line = line.format(range.line);
    let column = column.format(range.column);
    push_parts(alloc, pieces, Look::Bold, &[line, ":", column])
}

// Adds a piece with these texts.
fn push_parts(
    alloc: Global,
    pieces: &mut Vec<Piece>,
    look: Look,
    parts: &[&str],
) -> Result<(), AllocError>
    ensures { OnOk result (pieces.new.items
        ≡ pieces.old.items ++ piece look (all_as_shown (map (λ part. part.now) parts.now)) ∷ []) }
{
    let mut page = Page::new(alloc);
    push_all_shown(&mut page, parts)?;
    push_piece(pieces, look, page)
}

// Adds the message, the line, and the marks.
fn push_line(
    alloc: Global,
    pieces: &mut Vec<Piece>,
    problem: &OwnedProblem,
) -> Result<(), AllocError>
    ensures { OnOk result (pieces.new.items ≡ pieces.old.items ++ line_pieces problem.now (chars problem.now.line_text)) }
{
    let line = characters(alloc, problem.line_text.as_str())?;
    let window = window_of(alloc, line.as_slice(), problem.range)?;
    push_marked(alloc, pieces, problem, line.as_slice(), window)
}

// Adds the message, the shown part of the line, and the marks.
fn push_marked(
    alloc: Global,
    pieces: &mut Vec<Piece>,
    problem: &OwnedProblem,
    line: &[char],
    window: Window,
) -> Result<(), AllocError>
    requires order { window.start ≤ window.stop }
    requires within { window.stop ≤ length line.now }
    ensures { OnOk result (pieces.new.items ≡ pieces.old.items ++ marked_pieces problem.now line.now window) }
{
    let body = body_of(alloc, problem, line, window)?;
    push_piece(pieces, Look::Plain, body)?;
    push_marks(alloc, pieces, window.marks)?;
    push_break(alloc, pieces)
}

// Adds the marks.
fn push_marks(alloc: Global, pieces: &mut Vec<Piece>, count: usize) -> Result<(), AllocError>
    ensures { OnOk result (pieces.new.items
        ≡ pieces.old.items ++ piece Yellow (all_shown (replicate count 94)) ∷ []) }
{
    let mut page = Page::new(alloc);
    push_repeated(&mut page, '^', count)?;
    push_piece(pieces, Look::Yellow, page)
}

// Returns the message, the shown part of the line, and the blanks before the marks.
fn body_of(
    alloc: Global,
    problem: &OwnedProblem,
    line: &[char],
    window: Window,
) -> Result<Page, AllocError>
    requires order { window.start ≤ window.stop }
    requires within { window.stop ≤ length line.now }
    ensures { IfOk result (λ page. page ≡ body_of problem.now line.now window) }
{
    let mut page = Page::new(alloc);
    push_message(&mut page, problem)?;
    push_excerpt(&mut page, line, window)?;
    push_blanks(&mut page, window.indent)?;
    Ok(page)
}

// Adds the message of a finding, and whether `fmt` fixes it.
fn push_message(page: &mut Page, problem: &OwnedProblem) -> Result<(), AllocError>
    ensures { OnOk result (page.new ≡ page.old ++ message_text problem.now) }
{
    push_shown(page, ": ")?;
    push_shown(page, problem.message.as_str())?;
    push_shown(page, fixable_word(problem.fixable))?;
    page.push_break()
}

// Adds the blanks before the marks.
fn push_blanks(page: &mut Page, count: usize) -> Result<(), AllocError>
    ensures { OnOk result (page.new ≡ page.old ++ (as_shown (codes "  | ") ++ all_shown (replicate count 32))) }
{
    push_shown(page, "  | ")?;
    push_repeated(page, ' ', count)
}

// Adds the last line.
fn push_summary(
    alloc: Global,
    pieces: &mut Vec<Piece>,
    files: &[FileProblems],
) -> Result<(), AllocError>
    ensures { OnOk result (pieces.new.items ≡ pieces.old.items ++ summary (kinds_in files.now)) }
{
    let found = found_in(alloc, files)?;
    push_counts(alloc, pieces, found.len(), fixable_in(found.as_slice()))
}

// Returns the number of findings that `fmt` fixes.
fn fixable_in(found: &[FoundRule]) -> usize
    ensures { result ≡ count_by is_fixable (map found_value found.now) }
{
    let mut count = 0;
    for one in found {
        if one.fixable {
            count += 1;
        }
    }
    count
}

// Adds a line with these numbers, or nothing if there are no findings.
fn push_counts(
    alloc: Global,
    pieces: &mut Vec<Piece>,
    all: usize,
    fixable: usize,
) -> Result<(), AllocError>
    ensures { OnOk result (pieces.new.items ≡ pieces.old.items ++ summary_of all fixable) }
{
    if all == 0 {
        return Ok(());
    }
    let page = summary_page(alloc, all, fixable)?;
    push_piece(pieces, Look::Plain, page)
}

// Returns the last line.
fn summary_page(alloc: Global, all: usize, fixable: usize) -> Result<Page, AllocError>
    ensures { IfOk result (λ page. page ≡ summary_text all fixable) }
{
    let mut page = Page::new(alloc);
    push_numbers(&mut page, all, fixable)?;
    page.push_break()?;
    Ok(page)
}

// Adds the numbers of the last line.
fn push_numbers(page: &mut Page, all: usize, fixable: usize) -> Result<(), AllocError>
    ensures { OnOk result (page.new ≡ page.old
        ++ all_as_shown (decimal all ∷ plural all ∷ decimal fixable ∷ codes " fixable by yamlfmt fmt" ∷ [])) }
{
    let mut all_buffer = Buffer::new();
    let mut fixable_buffer = Buffer::new();
    let total = all_buffer.format(all);
    let fixed = fixable_buffer.format(fixable);
    let words = plural(all);
    push_all_shown(page, &[total, words, fixed, " fixable by yamlfmt fmt"])
}

// Returns the words after the number of findings.
fn plural(count: usize) -> &'static str
    ensures { result.now ≡ plural count }
{
    if count == 1 {
        " finding, "
    } else {
        " findings, "
    }
}
