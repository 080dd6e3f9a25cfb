//! Hunks that touch requested lines.
ghost use Rattle.std.specs.Prelude.{◌≡◌, ◌≤◌, IfOk, drop, length, map, take, true};
ghost use Rattle.yf_line_ranges.specs.Ranges.{all_before, ascend_after};
ghost use Rattle.yf_parts.specs.Asked.{touched_by};

use crate::asked::{meets, touched_by_each};
use crate::hunks::Hunk;
use std::alloc::{AllocError, Global};
use yf_line_ranges::range::LineRange;

/// Returns whether no range begins before the one before it.
fn ascend(asked: &[LineRange]) -> bool
    ensures { result ≡ ascend_after 0 asked.now }
{
    let mut first = 0;
    for range in asked {
        if range.first < first {
            return false;
        }
        first = range.first;
    }
    true
}

/// Returns the index after those ranges from an index on that end before a line.
fn passed(asked: &[LineRange], from: usize, line: usize) -> usize
    requires within { from ≤ length asked.now }
    requires before { all_before (take from asked.now) line ≡ true }
    ensures within { result ≤ length asked.now }
    ensures before { all_before (take result asked.now) line ≡ true }
{
    let mut at = from;
    while at < asked.len() {
        if asked[at].last >= line {
            return at;
        }
        at += 1;
    }
    at
}

/// Returns whether a hunk touches a line of one of the ranges from an index on, if these are in order.
fn is_touched_from(asked: &[LineRange], from: usize, hunk: Hunk) -> bool
    requires within { from ≤ length asked.now }
    requires order { ascend_after 0 (drop from asked.now) ≡ true }
    ensures { result ≡ touched_by (drop from asked.now) hunk }
{
    let mut at = from;
    while at < asked.len() {
        if hunk.end.lines < asked[at].first.saturating_sub(1) {
            return false;
        }
        if meets(asked[at], hunk) {
            return true;
        }
        at += 1;
    }
    false
}

/// Returns the index after those ranges from an index on that end before the line `next`, if the ranges before the
/// index end before `line`. If `next` is before `line`, the search begins at the first range.
fn passed_to(asked: &[LineRange], from: usize, line: usize, next: usize) -> usize
    requires within { from ≤ length asked.now }
    requires before { all_before (take from asked.now) line ≡ true }
    ensures within { result ≤ length asked.now }
    ensures before { all_before (take result asked.now) next ≡ true }
{
    if next < line {
        return passed(asked, 0, next);
    }
    passed(asked, from, next)
}

/// Returns for each hunk whether it touches a line of one of the ranges, which are in order. For hunks in order it
/// takes one pass over both.
fn touched_in_order(
    alloc: Global,
    hunks: &[Hunk],
    asked: &[LineRange],
) -> Result<Vec<bool>, AllocError>
    requires { ascend_after 0 asked.now ≡ true }
    ensures { IfOk result (λ flags. flags.items ≡ map (touched_by asked.now) hunks.now) }
{
    let mut flags = Vec::new(alloc);
    let mut from = 0;
    let mut line = 0;
    for hunk in hunks {
        from = passed_to(asked, from, line, hunk.start.lines);
        line = hunk.start.lines;
        flags.push(is_touched_from(asked, from, *hunk))?;
    }
    Ok(flags)
}

/// Returns for each hunk whether it touches a line of one of the ranges. It passes over both once if both are in order,
/// and otherwise over the ranges once for each hunk.
///
/// # Errors
///
/// `AllocError` if memory is refused.
pub fn touched(alloc: Global, hunks: &[Hunk], asked: &[LineRange]) -> Result<Vec<bool>, AllocError>
    ensures { IfOk result (λ flags. flags.items ≡ map (touched_by asked.now) hunks.now) }
{
    if ascend(asked) {
        return touched_in_order(alloc, hunks, asked);
    }
    touched_by_each(alloc, hunks, asked)
}
