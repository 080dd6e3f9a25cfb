//! The hunks of a unified diff.
ghost use Rattle.std.specs.Prelude.{◌≡◌, ◌+◌, ◌<◌, ◌≤◌, ◌++◌, [], length, drop, slice_index_or, IfOk, decimal, codes};
ghost use Rattle.yf_diff.specs.Script.{has_change, news, olds};
ghost use Rattle.yf_diff.specs.Unified.{begins, edit_text, head_text, hunk, hunk_line, hunks, is_shown, line_end, no_feed_note, range, text_at};

use crate::step::Step;
use itoa::Buffer;
use std::alloc::AllocError;

/// Returns whether the steps contain a change.
pub fn any_change(steps: &[Step<'_>]) -> bool
    ensures { result ≡ has_change steps.now }
{
    for step in steps {
        if step.is_change() {
            return true;
        }
    }
    false
}

/// Returns whether a step is written: if a change is at most three steps from it.
fn is_written(steps: &[Step<'_>], at: usize) -> bool
    requires { at < length steps.now }
    ensures { result ≡ is_shown steps.now at }
{
    let from = at.saturating_sub(3);
    if steps.len() - at < 4 {
        return any_change(&steps[from..]);
    }
    any_change(&steps[from..at + 4])
}

/// Returns whether a hunk begins at a written step.
fn begins_hunk(steps: &[Step<'_>], at: usize) -> bool
    requires { at < length steps.now }
    ensures { result ≡ begins steps.now at }
{
    if at == 0 {
        return true;
    }
    !is_written(steps, at - 1)
}

/// The numbers of lines of both texts in a hunk.
#[derive(Clone, Copy)]
struct LineCounts {
    old: usize,
    new: usize,
}

/// Returns the numbers of lines of both texts in the hunk that begins at a step.
#[tactic(auto, using(crate::proofs::HunkLemmas::hunk_ended))]
fn counts_from(steps: &[Step<'_>], first: usize) -> LineCounts
    requires { first < length steps.now }
    ensures old { result.old ≡ length (olds (hunk steps.now first (drop first steps.now))) }
    ensures new { result.new ≡ length (news (hunk steps.now first (drop first steps.now))) }
{
    let mut old = 0;
    let mut new = 0;
    let mut at = first;
    while at < steps.len() {
        if !is_written(steps, at) {
            return LineCounts { old, new };
        }
        old += steps[at].old_count();
        new += steps[at].new_count();
        at += 1;
    }
    LineCounts { old, new }
}

/// Adds a number in decimal digits.
fn push_number(out: &mut Vec<u8>, number: usize) -> Result<(), AllocError>
    ensures { IfOk result (λ _. out.new.items ≡ out.old.items ++ decimal number) }
{
    let mut buffer = Buffer::new();
    out.extend_from_slice(buffer.format(number).as_bytes())
}

/// Adds a range of `count` lines, with `before` lines before it.
fn push_range(out: &mut Vec<u8>, before: usize, count: usize) -> Result<(), AllocError>
    requires { before < usize.MAX }
    ensures { IfOk result (λ _. out.new.items ≡ out.old.items ++ range before count) }
{
    if count == 1 {
        return push_number(out, before + 1);
    }
    let first = if count == 0 { before } else { before + 1 };
    push_number(out, first)?;
    out.extend_from_slice(b",")?;
    push_number(out, count)
}

/// Adds the line before a hunk.
fn push_hunk_line(
    out: &mut Vec<u8>,
    steps: &[Step<'_>],
    first: usize,
    old_before: usize,
    new_before: usize,
) -> Result<(), AllocError>
    requires inside { first < length steps.now }
    requires old { old_before < usize.MAX }
    requires new { new_before < usize.MAX }
    ensures { IfOk result (λ _. out.new.items ≡ out.old.items ++ hunk_line old_before new_before (hunk steps.now first (drop first steps.now))) }
{
    let counts = counts_from(steps, first);
    out.extend_from_slice(b"@@ -")?;
    push_range(out, old_before, counts.old)?;
    out.extend_from_slice(b" +")?;
    push_range(out, new_before, counts.new)?;
    out.extend_from_slice(b" @@\n")
}

/// Adds the note that the last line has no line feed.
#[tactic(auto, unfolding(crate::specs::Unified::no_feed_note))]
fn push_note(out: &mut Vec<u8>) -> Result<(), AllocError>
    ensures { IfOk result (λ _. out.new.items ≡ out.old.items ++ no_feed_note) }
{
    out.extend_from_slice(b"\n\\ No newline at end of file\n")
}

/// Adds the text that follows a line.
fn push_line_end(out: &mut Vec<u8>, line: &[u8]) -> Result<(), AllocError>
    ensures { IfOk result (λ _. out.new.items ≡ out.old.items ++ line_end line.now) }
{
    if line.is_empty() {
        return push_note(out);
    }
    if line[line.len() - 1] == b'\n' {
        return Ok(());
    }
    push_note(out)
}

/// Adds a step: its sign, its line and the text that follows it.
fn push_step(out: &mut Vec<u8>, step: &Step<'_>) -> Result<(), AllocError>
    ensures { IfOk result (λ _. out.new.items ≡ out.old.items ++ edit_text step.now) }
{
    out.push(step.sign())?;
    out.extend_from_slice(step.line())?;
    push_line_end(out, step.line())
}

/// Adds the line before a hunk, if one begins at the step.
fn push_head(
    out: &mut Vec<u8>,
    steps: &[Step<'_>],
    at: usize,
    old_before: usize,
    new_before: usize,
) -> Result<(), AllocError>
    requires inside { at < length steps.now }
    requires old { old_before < usize.MAX }
    requires new { new_before < usize.MAX }
    ensures { IfOk result (λ _. out.new.items ≡ out.old.items ++ head_text steps.now at old_before new_before (drop at steps.now)) }
{
    if !begins_hunk(steps, at) {
        return Ok(());
    }
    push_hunk_line(out, steps, at, old_before, new_before)
}

/// Adds the text of a step; `old_before` and `new_before` are the numbers of lines before it.
#[tactic(auto, using(crate::proofs::HunkLemmas::shown_at, crate::proofs::HunkLemmas::hidden_at))]
fn push_at(
    out: &mut Vec<u8>,
    steps: &[Step<'_>],
    at: usize,
    old_before: usize,
    new_before: usize,
) -> Result<(), AllocError>
    requires inside { at < length steps.now }
    requires old { old_before < usize.MAX }
    requires new { new_before < usize.MAX }
    ensures { IfOk result (λ _. out.new.items ≡ out.old.items ++ text_at steps.now at old_before new_before (drop at steps.now)) }
{
    if !is_written(steps, at) {
        return Ok(());
    }
    push_head(out, steps, at, old_before, new_before)?;
    push_step(out, &steps[at])
}

/// Adds all hunks of a script.
pub fn push_hunks(out: &mut Vec<u8>, steps: &[Step<'_>]) -> Result<(), AllocError>
    ensures { IfOk result (λ _. out.new.items ≡ out.old.items ++ hunks steps.now 0 0 0 steps.now) }
{
    let mut old_before = 0;
    let mut new_before = 0;
    let mut at = 0;
    while at < steps.len() {
        push_at(out, steps, at, old_before, new_before)?;
        old_before += steps[at].old_count();
        new_before += steps[at].new_count();
        at += 1;
    }
    Ok(())
}
