//! The search for few hunks that are enough for the requested lines.
ghost use Rattle.std.specs.Prelude.{◌≡◌, ◌≤◌, IfNone, IfOk, IfSome, false, length, true, if◌then◌else◌};
ghost use Rattle.std.specs.String.{string_bytes};
ghost use Rattle.yf_parts.specs.Asked.{has_true};
ghost use Rattle.yf_parts.specs.Attempts.{FailsAt, IsContext, IsSearched, IsWhole, Works};
ghost use Rattle.yf_parts.specs.Tries.{IsLeast, IsOther, Tried, around, near_all};
ghost use Rattle.yf_rules.specs.Headline.{Headline};

use crate::candidates::{Reach, Side, chosen, on_side, with_side};
use crate::hunks::Hunk;
use crate::splice::spliced;
use std::alloc::{AllocError, Global};
use yf_forms::style::Style;
use yf_laws::every_text::texts_are_read_and_formatted;
use yf_lines::fault::Fault;
use yf_rules::format::format;

/// A text, its formatting and the hunks between them. Those that touch a requested line have their flags set.
#[derive(Clone, Copy)]
pub struct PartContext<'a> {
    pub text: &'a str,
    pub formatted: &'a str,
    pub style: &'a Style,
    pub hunks: &'a [Hunk],
    pub flags: &'a [bool],
    /// For each prefix of the flags the number of flags that are set in it.
    pub counts: &'a [usize],
}

/// A text with some hunks applied: those within the reach of one with its flag set.
#[derive(Drop)]
pub struct Attempt {
    pub text: String,
    pub applied: Vec<bool>,
    pub reach: Reach,
}

/// An attempt, and whether the reach that was tried last is enough. If so, the attempt has this reach.
#[derive(Drop)]
struct Halving {
    attempt: Attempt,
    is_enough: bool,
}

/// Returns the bytes as a text if the formatting of this text is `formatted`.
fn verified(
    alloc: Global,
    bytes: Vec<u8>,
    formatted: &str,
    style: &Style,
) -> Result<Option<String>, AllocError>
    ensures text { IfOk result (λ found. IfSome found (λ text. string_bytes text ≡ bytes.items)) }
    ensures formats { IfOk result (λ found. IfSome found (λ text.
        Headline (string_bytes text) style.now formatted.now)) }
    ensures none { IfOk result (λ found. IfNone found (IsOther style.now formatted.now bytes.items)) }
{
    texts_are_read_and_formatted();
    let Ok(text) = String::from_utf8(bytes) else {
        return Ok(None);
    };
    match format(alloc, text.as_str(), style) {
        Ok(other) => {
            if other.as_str() == formatted {
                return Ok(Some(text));
            }
            Ok(None)
        }
        Err(Fault::Memory) => Err(AllocError),
        Err(_) => Ok(None),
    }
}

/// Applies these hunks, which are those within the reach. Returns the attempt if the formatting of the result is that
/// of the text.
fn attempted(
    alloc: Global,
    context: PartContext<'_>,
    reach: Reach,
    applied: Vec<bool>,
) -> Result<Option<Attempt>, AllocError>
    requires context { IsContext context }
    requires applied { applied.items ≡ near_all reach context.flags.now 0 context.flags.now }
    ensures works { IfOk result (λ found. IfSome found (Works context.entry)) }
    ensures reach { IfOk result (λ found. IfSome found (λ attempt. attempt.reach ≡ reach)) }
    ensures fails { IfOk result (λ found. IfNone found (FailsAt context.entry reach)) }
{
    let bytes = spliced(
        alloc,
        context.text.as_bytes(),
        context.formatted.as_bytes(),
        context.hunks,
        &applied,
    )?;
    let found = verified(alloc, bytes, context.formatted, context.style)?;
    match found {
        Some(text) => Ok(Some(Attempt {
            text,
            applied,
            reach,
        })),
        None => Ok(None),
    }
}

/// Returns the attempt with this reach, if all hunks are within it: the formatting.
fn whole(alloc: Global, context: PartContext<'_>, reach: Reach) -> Result<Attempt, AllocError>
    requires context { IsContext context }
    requires whole { IsWhole context }
    requires some { has_true context.flags.now ≡ true }
    requires before { length context.flags.now ≤ reach.before }
    requires after { length context.flags.now ≤ reach.after }
    ensures works { IfOk result (Works context.entry) }
    ensures reach { IfOk result (λ attempt. attempt.reach ≡ reach) }
{
    let applied = chosen(alloc, context.flags, context.counts, reach)?;
    let text = String::from_str(alloc, context.formatted)?;
    Ok(Attempt {
        text,
        applied,
        reach,
    })
}

/// Applies the hunks with set flags, and those at most 0, 1, 3, 7 and so on hunks from one of them, until the
/// formatting of the result is that of the text.
fn doubled(alloc: Global, context: PartContext<'_>) -> Result<Attempt, AllocError>
    requires context { IsContext context }
    requires whole { IsWhole context }
    requires some { has_true context.flags.now ≡ true }
    ensures works { IfOk result (Works context.entry) }
    ensures tried { IfOk result (λ attempt. Tried (FailsAt context.entry) attempt.reach.before) }
    ensures reach { IfOk result (λ attempt. attempt.reach ≡ around attempt.reach.before attempt.reach.before) }
{
    let mut radius = 0;
    while radius < context.hunks.len() {
        let reach = Reach {
            before: radius,
            after: radius,
        };
        let applied = chosen(alloc, context.flags, context.counts, reach)?;
        let found = attempted(alloc, context, reach, applied)?;
        if let Some(attempt) = found {
            return Ok(attempt);
        }
        radius = radius + radius + 1;
    }
    let all = whole(
        alloc,
        context,
        Reach {
            before: radius,
            after: radius,
        },
    )?;
    Ok(all)
}

/// Tries a reach. If it is enough, returns the attempt with it, and otherwise the best one so far.
fn halved(
    alloc: Global,
    context: PartContext<'_>,
    best: Attempt,
    reach: Reach,
) -> Result<Halving, AllocError>
    requires context { IsContext context }
    requires best { Works context best }
    ensures works { IfOk result (λ halving. Works context.entry halving.attempt) }
    ensures reach { IfOk result (λ halving. halving.attempt.reach ≡ (if halving.is_enough then reach else best.reach)) }
    ensures fails { IfOk result (λ halving. halving.is_enough ≡ false → FailsAt context.entry reach) }
{
    let applied = chosen(alloc, context.flags, context.counts, reach)?;
    if applied.as_slice() == best.applied.as_slice() {
        return Ok(Halving {
            attempt: Attempt {
                text: best.text,
                applied,
                reach,
            },
            is_enough: true,
        });
    }
    let found = attempted(alloc, context, reach, applied)?;
    match found {
        Some(attempt) => Ok(Halving {
            attempt,
            is_enough: true,
        }),
        None => Ok(Halving {
            attempt: best,
            is_enough: false,
        }),
    }
}

/// Returns an attempt with fewer hunks on a side: with one less, the formatting of the result would be another one.
fn narrowed(
    alloc: Global,
    context: PartContext<'_>,
    side: Side,
    attempt: Attempt,
) -> Result<Attempt, AllocError>
    requires context { IsContext context }
    requires works { Works context attempt }
    ensures works { IfOk result (Works context.entry) }
    ensures least { IfOk result (λ found. IsLeast (FailsAt context.entry) side attempt.reach found.reach) }
{
    let mut low = 0;
    let mut high = on_side(side, attempt.reach);
    let mut best = attempt;
    while low < high {
        let middle = low + (high - low) / 2;
        let reach = with_side(side, middle, best.reach);
        let halving = halved(alloc, context, best, reach)?;
        best = halving.attempt;
        if halving.is_enough {
            high = middle;
        } else {
            low = middle + 1;
        }
    }
    Ok(best)
}

/// Searches for few hunks that are enough. First it doubles the number of hunks on both sides of each touched one,
/// until they are enough. Then it halves that number before the touched ones, and after that the number after them.
///
/// # Errors
///
/// `AllocError` if memory is refused.
pub fn searched(alloc: Global, context: PartContext<'_>) -> Result<Attempt, AllocError>
    requires context { IsContext context }
    requires whole { IsWhole context }
    requires some { has_true context.flags.now ≡ true }
    ensures { IfOk result (IsSearched context.entry) }
{
    let attempt = doubled(alloc, context)?;
    let first = narrowed(alloc, context, Side::Before, attempt)?;
    let second = narrowed(alloc, context, Side::After, first)?;
    Ok(second)
}
