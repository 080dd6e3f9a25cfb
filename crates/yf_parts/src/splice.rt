//! A text with some of its hunks applied.
ghost use Rattle.std.specs.Prelude.{◌≡◌, ◌≤◌, ◌++◌, IfOk, length, slice_range};
ghost use Rattle.yf_parts.specs.Hunks.{Fits, HunkFits, choice, spliced};

use crate::hunks::Hunk;
use std::alloc::{AllocError, Global};

/// Adds the text up to a hunk, and then the lines of the hunk: those of the formatting if it is applied.
fn push_hunk(
    out: &mut Vec<u8>,
    text: &[u8],
    formatted: &[u8],
    at: usize,
    hunk: Hunk,
    is_applied: bool,
) -> Result<(), AllocError>
    requires { HunkFits (length text.now) (length formatted.now) at hunk }
    ensures { IfOk result (λ _. out.new.items ≡ out.old.items
        ++ (slice_range text.now at hunk.start.offset ++ choice text.now formatted.now hunk is_applied)) }
{
    out.extend_from_slice(&text[at..hunk.start.offset])?;
    if is_applied {
        return out.extend_from_slice(&formatted[hunk.start.formatted..hunk.end.formatted]);
    }
    out.extend_from_slice(&text[hunk.start.offset..hunk.end.offset])
}

/// Returns the text with the hunks applied that have their flags set.
///
/// # Errors
///
/// `AllocError` if memory is refused.
pub fn spliced(
    alloc: Global,
    text: &[u8],
    formatted: &[u8],
    hunks: &[Hunk],
    applied: &[bool],
) -> Result<Vec<u8>, AllocError>
    requires fits { Fits (length text.now) (length formatted.now) 0 hunks.now }
    requires count { length applied.now ≡ length hunks.now }
    ensures { IfOk result (λ bytes. bytes.items ≡ spliced text.now formatted.now hunks.now applied.now 0) }
{
    let mut out = Vec::new(alloc);
    let mut at = 0;
    let mut k = 0;
    while k < hunks.len() {
        push_hunk(&mut out, text, formatted, at, hunks[k], applied[k])?;
        at = hunks[k].end.offset;
        k += 1;
    }
    out.extend_from_slice(&text[at..])?;
    Ok(out)
}
