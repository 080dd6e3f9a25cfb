//! The hunks that a try applies.
ghost use Rattle.std.specs.Prelude.{◌≡◌, ◌<◌, IfOk, length};
ghost use Rattle.yf_parts.specs.Tries.{counts_from, is_near, near_all, on_side, with_side};

use std::alloc::{AllocError, Global};

/// How many hunks are applied before and after each hunk that touches a requested line.
#[derive(Clone, Copy)]
pub struct Reach {
    pub before: usize,
    pub after: usize,
}

/// A side of a hunk.
#[derive(Clone, Copy)]
pub enum Side {
    Before,
    After,
}

/// Returns how many hunks a reach has on a side.
pub fn on_side(side: Side, reach: Reach) -> usize
    ensures { result ≡ on_side side reach }
{
    match side {
        Side::Before => reach.before,
        Side::After => reach.after,
    }
}

/// Returns the reach with this many hunks on a side.
pub fn with_side(side: Side, count: usize, reach: Reach) -> Reach
    ensures { result ≡ with_side side count reach }
{
    match side {
        Side::Before => Reach {
            before: count,
            after: reach.after,
        },
        Side::After => Reach {
            before: reach.before,
            after: count,
        },
    }
}

/// Returns for each prefix of the flags the number of flags that are set in it.
pub fn counts(alloc: Global, flags: &[bool]) -> Result<Vec<usize>, AllocError>
    ensures { IfOk result (λ counts. counts.items ≡ counts_from 0 flags.now) }
{
    let mut counts = Vec::new(alloc);
    let mut count = 0;
    for flag in flags {
        counts.push(count)?;
        if *flag {
            count += 1;
        }
    }
    counts.push(count)?;
    Ok(counts)
}

/// Returns whether a hunk is within the reach of one with its flag set.
#[tactic(auto, using(crate::proofs::TryLemmas::counts_length))]
fn is_near(flags: &[bool], counts: &[usize], index: usize, reach: Reach) -> bool
    requires inside { index < length flags.now }
    requires counts { counts.now ≡ counts_from 0 flags.now }
    ensures { result ≡ is_near reach flags.now index }
{
    let from = index.saturating_sub(reach.after);
    if reach.before >= flags.len() - index {
        return counts[from] < counts[flags.len()];
    }
    counts[from] < counts[index + reach.before + 1]
}

/// Returns for each hunk whether it is within the reach of one with its flag set.
pub fn chosen(
    alloc: Global,
    flags: &[bool],
    counts: &[usize],
    reach: Reach,
) -> Result<Vec<bool>, AllocError>
    requires { counts.now ≡ counts_from 0 flags.now }
    ensures { IfOk result (λ chosen. chosen.items ≡ near_all reach flags.now 0 flags.now) }
{
    let mut chosen = Vec::new(alloc);
    let mut index = 0;
    while index < flags.len() {
        chosen.push(is_near(flags, counts, index, reach))?;
        index += 1;
    }
    Ok(chosen)
}
