//! The requested lines, and the hunks that touch them.
ghost use Rattle.std.specs.Prelude.{◌≡◌, IfOk, map};
ghost use Rattle.yf_parts.specs.Asked.{has_true, meets, touched_by};

use crate::hunks::Hunk;
use std::alloc::{AllocError, Global};
use yf_line_ranges::range::LineRange;

/// Returns whether a hunk touches a line of a range.
pub fn meets(range: LineRange, hunk: Hunk) -> bool
    ensures { result ≡ meets range hunk }
{
    if range.last < range.first {
        return false;
    }
    let start = hunk.start.lines;
    let end = hunk.end.lines;
    if start == end {
        return range.first.saturating_sub(1) <= start && start <= range.last;
    }
    start < end && range.first <= end && start < range.last
}

/// Returns whether a hunk touches a line of one of the ranges.
fn is_touched(hunk: Hunk, asked: &[LineRange]) -> bool
    ensures { result ≡ touched_by asked.now hunk }
{
    for range in asked {
        if meets(*range, hunk) {
            return true;
        }
    }
    false
}

/// Returns for each hunk whether it touches a line of one of the ranges. It passes over the ranges once for each hunk.
pub fn touched_by_each(
    alloc: Global,
    hunks: &[Hunk],
    asked: &[LineRange],
) -> Result<Vec<bool>, AllocError>
    ensures { IfOk result (λ flags. flags.items ≡ map (touched_by asked.now) hunks.now) }
{
    let mut flags = Vec::new(alloc);
    for hunk in hunks {
        flags.push(is_touched(*hunk, asked))?;
    }
    Ok(flags)
}

/// Returns whether one of the flags is set.
pub fn has_true(flags: &[bool]) -> bool
    ensures { result ≡ has_true flags.now }
{
    for flag in flags {
        if *flag {
            return true;
        }
    }
    false
}
