//! Searches for comments by byte offset.
ghost use Rattle.std.specs.Prelude.{◌≡◌, ◌+◌, ◌<◌, ◌≤◌, ◌⊎◌, drop, false, length, map, nat_lt, true, ℕ, IfSome, MatchOption};
ghost use Rattle.std.specs.List.{AllWithin, HoldsAt};
ghost use Rattle.std.specs.List.Sorted.{IsNonDecreasingBy, IsPartitionPoint};
ghost use Rattle.yf_comments.specs.Comment.{comment_value};
ghost use Rattle.yf_forms.specs.Passes.Searches.{count_to};
ghost use Rattle.yf_forms.specs.Passes.Halving.{Halves, HalvesBetween, MayBegin, StaysUnknown};
ghost use Rattle.yf_forms.specs.Nodes.OneLineFlows.{is_within};

use yf_comments::comment::Comment;

/// The start of a search that only halves. No list has as many comments.
const UNKNOWN: usize = usize::MAX;

/// Returns the start of the first search for an offset in a pass over `events` events.
///
/// It is the first comment if the comments are in the order of the text and there are at most as many as events, and
/// `UNKNOWN` otherwise. No reading of a text has its comments out of order; the results of a search in them would
/// depend on its start. If there are more comments than events, their order is not checked.
pub(crate) fn first_search(comments: &[Comment], events: usize) -> usize
    ensures rising { result ≡ 0 → IsNonDecreasingBy (λ c. c.offset) comments.now }
    ensures either { (result ≡ 0) ⊎ (result ≡ UNKNOWN) }
{
    if comments.len() > events {
        return UNKNOWN;
    }
    let mut k = 1;
    while k < comments.len() {
        if comments[k].offset < comments[k - 1].offset {
            return UNKNOWN;
        }
        k += 1;
    }
    0
}

/// Returns an index before which each comment begins before the byte offset, by the comment before `near`.
#[inline(always)]
fn low_by(comments: &[Comment], near: usize, offset: usize) -> usize
    ensures near { result ≤ near }
    ensures within { result ≤ length comments.now }
    ensures before { IsNonDecreasingBy (λ c. c.offset) comments.now → AllWithin (λ c. nat_lt c.offset offset ≡ true) comments.now 0 result }
    ensures unknown { length comments.now < near → result ≡ 0 }
{
    if near > 0 {
        if near <= comments.len() {
            if comments[near - 1].offset < offset {
                return near;
            }
        }
    }
    0
}

/// Returns an index from which on no comment begins before the byte offset, by the comment at `near`.
#[inline(always)]
fn high_by(comments: &[Comment], near: usize, offset: usize) -> usize
    ensures near { (k : ℕ) → k ≤ near → k ≤ length comments.now → k ≤ result }
    ensures within { result ≤ length comments.now }
    ensures follows { IsNonDecreasingBy (λ c. c.offset) comments.now
        → AllWithin (λ c. nat_lt c.offset offset ≡ false) comments.now result (length comments.now) }
    ensures unknown { length comments.now < near → result ≡ length comments.now }
{
    if near < comments.len() {
        if offset <= comments[near].offset {
            return near;
        }
    }
    comments.len()
}

/// Returns how many comments begin before the byte offset: at once if the count is `near`, and by halving otherwise.
/// The comments are in the order of the text.
#[inline(always)]
pub(crate) fn count_near(comments: &[Comment], near: usize, offset: usize) -> usize
    requires { MayBegin (λ c. c.offset) comments.now near }
    ensures within { result ≤ length comments.now }
    ensures halves { IsNonDecreasingBy (λ c. c.offset) comments.now
        → IsPartitionPoint (λ c. nat_lt c.offset offset ≡ true) (λ c. nat_lt c.offset offset ≡ false) comments.now result }
    ensures ends { Halves (map (λ c. c.offset) comments.now) offset 0 (length comments.now) result }
{
    let mut low = low_by(comments, near, offset);
    let mut high = high_by(comments, near, offset);
    while low < high {
        let middle = low + (high - low) / 2;
        if comments[middle].offset < offset {
            low = middle + 1;
        } else {
            high = middle;
        }
    }
    low
}

/// Returns how many comments begin before the byte offset, by halving. The comments are in the order of the text.
pub fn count_before(comments: &[Comment], offset: usize) -> usize
    ensures within { result ≤ length comments.now }
    ensures halves { IsNonDecreasingBy (λ c. c.offset) comments.now
        → IsPartitionPoint (λ c. nat_lt c.offset offset ≡ true) (λ c. nat_lt c.offset offset ≡ false) comments.now result }
    ensures ends { Halves (map (λ c. c.offset) comments.now) offset 0 (length comments.now) result }
{
    count_near(comments, UNKNOWN, offset)
}

/// Returns the index of the first comment that begins at or after the byte offset `from` and before `to`. The search
/// begins at `near` and sets it to its end, unless `near` is `UNKNOWN`.
#[inline(always)]
pub(crate) fn first_near(
    comments: &[Comment],
    near: &mut usize,
    from: usize,
    to: usize,
) -> Option<usize>
    requires { MayBegin (λ c. c.offset) comments.now near.old }
    ensures within { IfSome result (λ k. k < length comments.now) }
    ensures first { IsNonDecreasingBy (λ c. c.offset) comments.now
        → MatchOption result (AllWithin (λ c. is_within from to (comment_value c) ≡ false) comments.now 0 (length comments.now))
        (λ k. AllWithin (λ c. is_within from to (comment_value c) ≡ false) comments.now 0 k
        × HoldsAt (λ c. is_within from to (comment_value c) ≡ true) comments.now k) }
    ensures ends { HalvesBetween (map (λ c. c.offset) comments.now) from to result }
    ensures near { StaysUnknown near.old near.new }
{
    let k = count_near(comments, *near, from);
    if *near != UNKNOWN {
        *near = k;
    }
    if k < comments.len() {
        if comments[k].offset < to {
            return Some(k);
        }
    }
    None
}

/// Returns the index of the first comment that begins at or after the byte offset `from` and before `to`.
pub fn first_between(comments: &[Comment], from: usize, to: usize) -> Option<usize>
    ensures within { IfSome result (λ k. k < length comments.now) }
    ensures first { IsNonDecreasingBy (λ c. c.offset) comments.now
        → MatchOption result (AllWithin (λ c. is_within from to (comment_value c) ≡ false) comments.now 0 (length comments.now))
        (λ k. AllWithin (λ c. is_within from to (comment_value c) ≡ false) comments.now 0 k
        × HoldsAt (λ c. is_within from to (comment_value c) ≡ true) comments.now k) }
    ensures ends { HalvesBetween (map (λ c. c.offset) comments.now) from to result }
{
    let mut near = UNKNOWN;
    first_near(comments, &mut near, from, to)
}

/// Returns the index of the first comment, from an index on, that does not begin before the byte offset.
pub fn first_after(comments: &[Comment], from: usize, offset: usize) -> usize
    ensures { result ≡ from + count_to offset (drop from (map comment_value comments.now)) }
{
    let mut k = from;
    while k < comments.len() {
        if offset <= comments[k].offset {
            return k;
        }
        k += 1;
    }
    k
}
