//! Separation (YAML 1.2.2, section 6.7).
ghost use Rattle.std.specs.Prelude.{◌≡◌, ◌+◌, ◌-◌, ◌<◌, ◌≤◌, ℕ, ℤ, pos, ◌<ℤ◌, List, [], ◌++◌, take, Bool, true, false, Option, Some, None, length, IfOk, IfSome, IfNone, MatchOption, MatchBool, ◌⊎◌};
ghost use Rattle.std.specs.Str.{IsCharBoundary};
ghost use Rattle.yf_chars.specs.Chain.{Chain, Chosen, Many, Stuck, Nowhere, Farthest};
ghost use Rattle.yf_chars.specs.Class.{is_white};
ghost use Rattle.yf_chars.specs.Text.{code};
ghost use Rattle.yf_lines.specs.Basic.{is_key, LineStart, SeparateInLine, FlowPrefix, Spaces};
ghost use Rattle.yf_comments.specs.Comment.{CommentValue};
ghost use Rattle.yf_comments.specs.Comments.{Row, Separate, SeparateLines, Upto};

use crate::comments::{Comments, Separation};
use crate::lines::{is_solid_at, next_row};
use std::alloc::{AllocError, Global};
use yf_chars::context::Ctx;
use yf_lines::basic::{is_line_start, skip_spaces, skip_whites};

// The end of a separation, and the number of comments in it among those read so far.
#[derive(Clone, Copy)]
struct Reach {
    end: usize,
    count: usize,
}

/// Reads all white space at the offset (s-separate-in-line, production 66). At the start of a line, it may be empty.
#[inline(always)]
pub fn separate_in_line(s: &str, at: usize) -> Option<usize>
    requires { IsCharBoundary s.now at }
    ensures reads { MatchOption result (Nowhere (SeparateInLine s.now at)) (λ e. Farthest (SeparateInLine s.now at) e) }
    ensures all { MatchOption result (is_white (code s.now at) ≡ false) (λ e. is_white (code s.now e) ≡ false) }
    ensures boundary { IfSome result (λ e. IsCharBoundary s.now e) }
{
    let end = skip_whites(s, at);
    in_line_from(s, at, end)
}

// Reads such a separation with white space that ends at `place`.
#[inline(always)]
fn in_line_from(s: &str, at: usize, place: usize) -> Option<usize>
    requires boundary { IsCharBoundary s.now place }
    requires whites { (x : List ℕ) × Many s.now is_white at place x }
    requires all { is_white (code s.now place) ≡ false }
    ensures reads { MatchOption result (Nowhere (SeparateInLine s.now at)) (λ e. Farthest (SeparateInLine s.now at) e) }
    ensures all { MatchOption result (is_white (code s.now at) ≡ false) (λ e. is_white (code s.now e) ≡ false) }
    ensures boundary { IfSome result (λ e. IsCharBoundary s.now e) }
    ensures place { MatchOption result (at ≡ place) (λ e. e ≡ place) }
{
    if place > at {
        return Some(place);
    }
    if is_line_start(s, at) {
        return Some(place);
    }
    None
}

// Returns whether `width` spaces are at the offset.
fn is_indented(s: &str, at: usize, width: usize) -> bool
    requires { IsCharBoundary s.now at }
    ensures { MatchBool result (Spaces s.now at width) (Nowhere (FlowPrefix s.now (pos width) at)) }
{
    let spaces = skip_spaces(s, at);
    if spaces - at < width {
        return false;
    }
    true
}

/// Reads the prefix of a line in flow (s-flow-line-prefix(n), production 69), with all white space after the
/// indentation.
pub fn flow_line_prefix(s: &str, at: usize, width: usize) -> Option<usize>
    requires { IsCharBoundary s.now at }
    ensures reads { MatchOption result (Nowhere (FlowPrefix s.now (pos width) at)) (λ e. Farthest (FlowPrefix s.now (pos width) at) e) }
    ensures all { IfSome result (λ e. is_white (code s.now e) ≡ false) }
    ensures boundary { IfSome result (λ e. IsCharBoundary s.now e) }
{
    if is_indented(s, at, width) {
        return Some(skip_whites(s, at));
    }
    None
}

// Returns the indentation of a separation over lines, or `None` in keys and if `n` is negative: then it passes no line.
fn line_width(n: i32, ctx: Ctx) -> Option<usize>
    ensures { MatchOption result ((is_key ctx ≡ true) ⊎ (n <ℤ pos 0)) (λ w. (is_key ctx ≡ false) × (n ≡ pos w)) }
{
    match ctx {
        Ctx::BlockKey | Ctx::FlowKey => return None,
        Ctx::BlockOut | Ctx::BlockIn | Ctx::FlowOut | Ctx::FlowIn => {}
    }
    if n < 0 {
        return None;
    }
    Some(n as usize)
}

// Returns the longest separation that passes no line; white space ends at `place`.
fn first_reach(s: &str, at: usize, place: usize, width: usize) -> Option<Reach>
    requires boundary { IsCharBoundary s.now at }
    requires place { IsCharBoundary s.now place }
    requires whites { (x : List ℕ) × Many s.now is_white at place x }
    requires all { is_white (code s.now place) ≡ false }
    ensures reads { MatchOption result (Stuck (Upto s.now (pos width) at at)) (λ r. Chosen (Upto s.now (pos width) at at) r.end []) }
    ensures none { IfSome result (λ r. r.count ≡ 0) }
    ensures boundary { IfSome result (λ r. IsCharBoundary s.now r.end) }
{
    match in_line_from(s, at, place) {
        Some(end) => return Some(Reach { end, count: 0 }),
        None => {}
    }
    if at == s.len() {
        if width == 0 {
            return Some(Reach { end: at, count: 0 });
        }
    }
    None
}

// Returns the longest separation after rows of comments, all of which it keeps; white space ends at `first`. In each
// row, `place` is its start, and `end` is the end of the white space there.
fn last_reach<'a>(
    s: &'a str,
    at: usize,
    first: usize,
    width: usize,
    comments: &mut Comments<'a>,
) -> Result<Option<Reach>, AllocError>
    requires fresh { comments.old ≡ [] }
    requires boundary { IsCharBoundary s.now at }
    requires first { IsCharBoundary s.now first }
    requires whites { (x : List ℕ) × Many s.now is_white at first x }
    requires all { is_white (code s.now first) ≡ false }
    ensures reads { IfOk result (λ o. (p : ℕ) × Chain (Row s.now) at p comments.new × Stuck (Row s.now p)
        × MatchOption o (Stuck (Upto s.now (pos width) at p))
        (λ r. Chosen (Upto s.now (pos width) at p) r.end (take r.count comments.new))) }
    ensures boundary { IfOk result (λ o. IfSome o (λ r. IsCharBoundary s.now r.end)) }
{
    let mut reach = first_reach(s, at, first, width);
    let mut place = at;
    let mut end = first;
    let mut starts = is_line_start(s, at);
    'rows: while place < s.len() {
        match next_row(s, place, end, starts, comments)? {
            Some(next) => {
                place = next;
                end = skip_whites(s, next);
                starts = true;
                if is_indented(s, next, width) {
                    reach = Some(Reach {
                        end,
                        count: comments.len(),
                    });
                }
            }
            None => return Ok(reach),
        }
    }
    Ok(reach)
}

/// Reads the longest separation that may go over lines (s-separate-lines(n), production 81).
///
/// It ends in the last line that is indented by `width`, so it leaves out a comment line that is indented less.
pub fn separate_lines<'a>(
    alloc: Global,
    s: &'a str,
    at: usize,
    width: usize,
) -> Result<Option<Separation<'a>>, AllocError>
    requires { IsCharBoundary s.now at }
    ensures reads { IfOk result (λ o. MatchOption o (Stuck (SeparateLines s.now (pos width) at))
        (λ p. Chosen (SeparateLines s.now (pos width) at) p.end p.comments)) }
    ensures boundary { IfOk result (λ o. IfSome o (λ p. IsCharBoundary s.now p.end)) }
{
    let place = skip_whites(s, at);
    lines_from(alloc, s, at, place, width)
}

// Reads such a separation with first white space that ends at `place`.
fn lines_from<'a>(
    alloc: Global,
    s: &'a str,
    at: usize,
    place: usize,
    width: usize,
) -> Result<Option<Separation<'a>>, AllocError>
    requires boundary { IsCharBoundary s.now at }
    requires place { IsCharBoundary s.now place }
    requires whites { (x : List ℕ) × Many s.now is_white at place x }
    requires all { is_white (code s.now place) ≡ false }
    ensures reads { IfOk result (λ o. MatchOption o (Stuck (SeparateLines s.now (pos width) at))
        (λ p. Chosen (SeparateLines s.now (pos width) at) p.end p.comments)) }
    ensures boundary { IfOk result (λ o. IfSome o (λ p. IsCharBoundary s.now p.end)) }
{
    let mut comments = Comments::new(alloc);
    match last_reach(s, at, place, width, &mut comments)? {
        Some(reach) => {
            comments.truncate(reach.count);
            Ok(Some(Separation {
                comments,
                end: reach.end,
            }))
        }
        None => Ok(None),
    }
}

/// Reads the longest separation (s-separate(n,c), production 80), with its comments.
///
/// In the two key contexts, and if `n` is negative, it is only white space, or nothing at the start of a line.
#[inline(always)]
pub fn separate<'a>(
    alloc: Global,
    s: &'a str,
    at: usize,
    n: i32,
    ctx: Ctx,
) -> Result<Option<Separation<'a>>, AllocError>
    requires { IsCharBoundary s.now at }
    ensures reads { IfOk result (λ o. MatchOption o (Stuck (Separate s.now n ctx at))
        (λ p. Chosen (Separate s.now n ctx at) p.end p.comments)) }
    ensures boundary { IfOk result (λ o. IfSome o (λ p. IsCharBoundary s.now p.end)) }
    ensures order { IfOk result (λ o. IfSome o (λ p. at ≤ p.end)) }
{
    let place = skip_whites(s, at);
    if !is_solid_at(s, place) {
        return separate_far(alloc, s, at, place, n, ctx);
    }
    match in_line_from(s, at, place) {
        Some(end) => Ok(Some(Separation {
            comments: Comments::new(alloc),
            end,
        })),
        None => Ok(None),
    }
}

// Reads a separation as `separate` does, in general: the line may end or a comment may begin; white space ends at
// `place`.
#[inline(never)]
fn separate_far<'a>(
    alloc: Global,
    s: &'a str,
    at: usize,
    place: usize,
    n: i32,
    ctx: Ctx,
) -> Result<Option<Separation<'a>>, AllocError>
    requires boundary { IsCharBoundary s.now at }
    requires place { IsCharBoundary s.now place }
    requires whites { (x : List ℕ) × Many s.now is_white at place x }
    requires all { is_white (code s.now place) ≡ false }
    ensures reads { IfOk result (λ o. MatchOption o (Stuck (Separate s.now n ctx at))
        (λ p. Chosen (Separate s.now n ctx at) p.end p.comments)) }
    ensures boundary { IfOk result (λ o. IfSome o (λ p. IsCharBoundary s.now p.end)) }
    ensures order { IfOk result (λ o. IfSome o (λ p. at ≤ p.end)) }
{
    match line_width(n, ctx) {
        Some(width) => match lines_from(alloc, s, at, place, width)? {
            Some(separation) => Ok(Some(separation)),
            None => Ok(None),
        },
        None => match in_line_from(s, at, place) {
            Some(end) => Ok(Some(Separation {
                comments: Comments::new(alloc),
                end,
            })),
            None => Ok(None),
        },
    }
}
