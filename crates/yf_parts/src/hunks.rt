//! Hunks: the differences between a text and its formatting.
ghost use Rattle.std.specs.Prelude.{◌≡◌, ◌≤◌, ◌++◌, IfOk, None};
ghost use Rattle.std.specs.List.{concat};
ghost use Rattle.yf_diff.specs.Script.{news, olds};
ghost use Rattle.yf_diff.specs.Texts.{lines_of};
ghost use Rattle.yf_parts.specs.Hunks.{Differ, after, closed, ended, hunks_of, opened, origin};

use std::alloc::{AllocError, Global};
use yf_diff::hashed_line::hashed_lines;
use yf_diff::script::script;
use yf_diff::step::Step;

/// The start or the end of a hunk, in the text and in its formatting.
#[derive(Clone, Copy)]
pub struct Edge {
    /// The number of lines of the text before it.
    pub lines: usize,
    /// Its offset in the text.
    pub offset: usize,
    /// Its offset in the formatting.
    pub formatted: usize,
}

/// Lines of a text that other lines of its formatting replace.
#[derive(Clone, Copy)]
pub struct Hunk {
    pub start: Edge,
    pub end: Edge,
}

/// Returns the edge after a step.
fn after(edge: Edge, step: &Step<'_>) -> Edge
    requires lines { (after edge step.now).lines ≤ usize.MAX }
    requires old { (after edge step.now).offset ≤ usize.MAX }
    requires new { (after edge step.now).formatted ≤ usize.MAX }
    ensures { result ≡ after edge step.now }
{
    let size = step.line().len();
    Edge {
        lines: edge.lines + step.old_count(),
        offset: edge.offset + if step.old_count() == 1 { size } else { 0 },
        formatted: edge.formatted + if step.new_count() == 1 { size } else { 0 },
    }
}

/// Returns the start of the hunk that contains a step, if the step is a change.
fn opened(begun: Option<Edge>, now: Edge, step: &Step<'_>) -> Option<Edge>
    ensures { result ≡ opened begun now step.now }
{
    if !step.is_change() {
        return None;
    }
    match begun {
        Some(start) => Some(start),
        None => Some(now),
    }
}

/// Adds the hunk that ends here, if one has begun.
fn push_closed(hunks: &mut Vec<Hunk>, begun: Option<Edge>, now: Edge) -> Result<(), AllocError>
    ensures { IfOk result (λ _. hunks.new.items ≡ hunks.old.items ++ closed begun now) }
{
    match begun {
        Some(start) => {
            hunks.push(Hunk { start, end: now })?;
            Ok(())
        }
        None => Ok(()),
    }
}

/// Adds the hunk that ends before a step, if one does.
fn push_ended(
    hunks: &mut Vec<Hunk>,
    begun: Option<Edge>,
    now: Edge,
    step: &Step<'_>,
) -> Result<(), AllocError>
    ensures { IfOk result (λ _. hunks.new.items ≡ hunks.old.items ++ ended begun now step.now) }
{
    if step.is_change() {
        return Ok(());
    }
    push_closed(hunks, begun, now)
}

/// Returns the hunks of a script: its runs of changes.
fn hunks_of(
    alloc: Global,
    steps: &[Step<'_>],
    text: &[u8],
    formatted: &[u8],
) -> Result<Vec<Hunk>, AllocError>
    requires olds { concat (olds steps.now) ≡ text.now }
    requires news { concat (news steps.now) ≡ formatted.now }
    ensures { IfOk result (λ hunks. hunks.items ≡ hunks_of None origin steps.now) }
{
    let mut hunks = Vec::new(alloc);
    let mut begun = None;
    let mut now = Edge {
        lines: 0,
        offset: 0,
        formatted: 0,
    };
    let mut at = 0;
    while at < steps.len() {
        push_ended(&mut hunks, begun, now, &steps[at])?;
        begun = opened(begun, now, &steps[at]);
        now = after(now, &steps[at]);
        at += 1;
    }
    push_closed(&mut hunks, begun, now)?;
    Ok(hunks)
}

/// Returns the hunks between a text and its formatting, in order. They are the runs of changes of an edit
/// script between the two; the contract says only that the lines between them are equal.
///
/// # Errors
///
/// `AllocError` if memory is refused.
pub fn hunks_between(alloc: Global, text: &[u8], formatted: &[u8]) -> Result<Vec<Hunk>, AllocError>
    ensures { IfOk result (λ hunks. Differ hunks.items origin (lines_of text.now) (lines_of formatted.now)) }
{
    let old_lines = hashed_lines(alloc, text)?;
    let new_lines = hashed_lines(alloc, formatted)?;
    let steps = script(alloc, &old_lines, &new_lines)?;
    hunks_of(alloc, &steps, text, formatted)
}
