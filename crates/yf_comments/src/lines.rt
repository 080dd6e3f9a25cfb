//! Comments and the lines that hold only a comment (YAML 1.2.2, section 6.6).
ghost use Rattle.std.specs.Prelude.{◌≡◌, ◌≢◌, ◌+◌, ◌-◌, ◌<◌, ◌≤◌, ℕ, List, [], ◌∷◌, ◌++◌, Bool, true, false, Option, Some, None, length, IfOk, IfSome, IfNone, MatchOption, MatchBool};
ghost use Rattle.std.specs.Str.{IsCharBoundary};
ghost use Rattle.yf_chars.specs.Signs.{NUMBER_SIGN};
ghost use Rattle.yf_chars.specs.Chain.{Chosen, Many, Stuck, Nowhere, Farthest};
ghost use Rattle.yf_chars.specs.Class.{is_nb_char, is_white};
ghost use Rattle.yf_chars.specs.Text.{code};
ghost use Rattle.yf_lines.specs.Basic.{LineStart, SeparateInLine};
ghost use Rattle.yf_comments.specs.Comment.{CommentValue, comment_value, row_comments};
ghost use Rattle.yf_comments.specs.Comments.{CommentText, BreakOrEnd, LineRest, LineEnd, RowsKept, Row as IsRow};

use crate::blank::is_blank_before;
use crate::comment::Comment;
use crate::comments::{Comments, Separation};
use std::alloc::{AllocError, Global};
use yf_chars::nb_runs::skip_nb_chars;
use yf_chars::text::is_char_at;
use yf_lines::basic::{is_line_start, is_white_at, line_break, skip_whites};

// A comment that was read, and the offset after it.
#[derive(Clone, Copy)]
struct CommentPart<'a> {
    comment: Comment<'a>,
    end: usize,
}

/// The rest of a line that was read: its comment, if it has one, and the offset after its break.
#[derive(Clone, Copy)]
pub struct RestOfLine<'a> {
    pub comment: Option<Comment<'a>>,
    pub end: usize,
}

// Reads all of a comment's text (c-nb-comment-text, production 75).
fn comment_text<'a>(s: &'a str, at: usize) -> Option<CommentPart<'a>>
    ensures reads { MatchOption result (code s.now at ≢ NUMBER_SIGN) (λ p. CommentText s.now at p.end (comment_value p.comment ∷ [])) }
    ensures all { IfSome result (λ p. is_nb_char (code s.now p.end) ≡ false) }
    ensures boundary { IfSome result (λ p. IsCharBoundary s.now p.end) }
{
    if is_char_at(s, at, b'#') {
        let end = skip_nb_chars(s, at + 1);
        let comment = Comment {
            text: &s[at..end],
            offset: at,
            blank_before: is_blank_before(s, at),
        };
        return Some(CommentPart { comment, end });
    }
    None
}

// Reads a line break or the end of the text (b-comment, production 76).
fn break_or_end(s: &str, at: usize) -> Option<usize>
    requires { at ≤ length s.now }
    ensures reads { MatchOption result (Nowhere (BreakOrEnd s.now at)) (λ j. BreakOrEnd s.now at j) }
    ensures boundary { IfSome result (λ j. IsCharBoundary s.now j) }
{
    if at == s.len() {
        return Some(at);
    }
    match line_break(s, at) {
        Some(end) => Some(end),
        None => None,
    }
}

// Returns whether a character at the offset begins neither white space nor a comment nor the end of a line.
#[inline(always)]
pub(crate) fn is_solid_at(s: &str, at: usize) -> bool
    ensures white { result ≡ true → is_white (code s.now at) ≡ false }
    ensures sign { result ≡ true → code s.now at ≢ NUMBER_SIGN }
    ensures rest { result ≡ true → Nowhere (BreakOrEnd s.now at) }
{
    if at >= s.len() {
        return false;
    }
    if is_white_at(s, at) {
        return false;
    }
    if is_char_at(s, at, b'#') {
        return false;
    }
    if is_char_at(s, at, b'\n') {
        return false;
    }
    if is_char_at(s, at, b'\r') {
        return false;
    }
    true
}

// Reads the rest of a line after its white space: an optional comment, and a break or the end of the text.
#[inline(always)]
fn past_whites<'a>(s: &'a str, at: usize, place: usize) -> Option<RestOfLine<'a>>
    requires boundary { IsCharBoundary s.now place }
    requires separate { SeparateInLine s.now at place }
    requires all { is_white (code s.now place) ≡ false }
    ensures reads { MatchOption result (Stuck (LineRest s.now at)) (λ r. LineRest s.now at r.end (row_comments r.comment)) }
    ensures boundary { IfSome result (λ r. IsCharBoundary s.now r.end) }
{
    match comment_text(s, place) {
        Some(CommentPart { comment, end }) => match break_or_end(s, end) {
            Some(next) => Some(RestOfLine {
                comment: Some(comment),
                end: next,
            }),
            None => None,
        },
        None => match break_or_end(s, place) {
            Some(next) => Some(RestOfLine {
                comment: None,
                end: next,
            }),
            None => None,
        },
    }
}

// Reads the rest of a line whose white space ends at `place`: an optional comment, if it begins the line or follows
// white space, and a break or the end of the text.
#[inline(always)]
fn rest_from<'a>(s: &'a str, at: usize, place: usize, starts: bool) -> Option<RestOfLine<'a>>
    requires boundary { IsCharBoundary s.now place }
    requires whites { (x : List ℕ) × Many s.now is_white at place x }
    requires all { is_white (code s.now place) ≡ false }
    requires starts { MatchBool starts (LineStart s.now at) (LineStart s.now at → ⊥) }
    ensures reads { MatchOption result (Stuck (LineRest s.now at)) (λ r. LineRest s.now at r.end (row_comments r.comment)) }
    ensures boundary { IfSome result (λ r. IsCharBoundary s.now r.end) }
{
    if starts || place > at {
        return past_whites(s, at, place);
    }
    match break_or_end(s, place) {
        Some(next) => Some(RestOfLine {
            comment: None,
            end: next,
        }),
        None => None,
    }
}

/// Reads the rest of a line (s-b-comment, production 77): white space, an optional comment, if it begins the line or
/// follows white space, and a break or the end of the text.
#[inline(always)]
pub fn line_rest<'a>(s: &'a str, at: usize, starts: bool) -> Option<RestOfLine<'a>>
    requires boundary { IsCharBoundary s.now at }
    requires starts { MatchBool starts (LineStart s.now at) (LineStart s.now at → ⊥) }
    ensures reads { MatchOption result (Stuck (LineRest s.now at)) (λ r. LineRest s.now at r.end (row_comments r.comment)) }
    ensures boundary { IfSome result (λ r. IsCharBoundary s.now r.end) }
{
    let place = skip_whites(s, at);
    rest_from(s, at, place, starts)
}

// Reads the rest of a line whose white space ends at `place`, and keeps its comment. Returns the offset after it, or
// `None`, and then keeps no comment.
//
// Most lines have no comment, so this looks only for a break or the end of the text.
#[inline(always)]
pub(crate) fn next_row<'a>(
    s: &'a str,
    at: usize,
    place: usize,
    starts: bool,
    comments: &mut Comments<'a>,
) -> Result<Option<usize>, AllocError>
    requires boundary { IsCharBoundary s.now place }
    requires whites { (x : List ℕ) × Many s.now is_white at place x }
    requires all { is_white (code s.now place) ≡ false }
    requires starts { MatchBool starts (LineStart s.now at) (LineStart s.now at → ⊥) }
    ensures reads { IfOk result (λ o. MatchOption o (Stuck (LineRest s.now at))
        (λ e. (x : List CommentValue) × LineRest s.now at e x × (comments.new ≡ comments.old ++ x))) }
    ensures unchanged { IfOk result (λ o. IfNone o (comments.new ≡ comments.old)) }
    ensures boundary { IfOk result (λ o. IfSome o (λ e. IsCharBoundary s.now e)) }
{
    if is_char_at(s, place, b'#') {
        return comment_row(s, at, place, starts, comments);
    }
    match break_or_end(s, place) {
        Some(end) => Ok(Some(end)),
        None => Ok(None),
    }
}

// Reads a row as `next_row` does, in general: it may hold a comment.
#[inline(never)]
fn comment_row<'a>(
    s: &'a str,
    at: usize,
    place: usize,
    starts: bool,
    comments: &mut Comments<'a>,
) -> Result<Option<usize>, AllocError>
    requires boundary { IsCharBoundary s.now place }
    requires whites { (x : List ℕ) × Many s.now is_white at place x }
    requires all { is_white (code s.now place) ≡ false }
    requires starts { MatchBool starts (LineStart s.now at) (LineStart s.now at → ⊥) }
    ensures reads { IfOk result (λ o. MatchOption o (Stuck (LineRest s.now at))
        (λ e. (x : List CommentValue) × LineRest s.now at e x × (comments.new ≡ comments.old ++ x))) }
    ensures unchanged { IfOk result (λ o. IfNone o (comments.new ≡ comments.old)) }
    ensures boundary { IfOk result (λ o. IfSome o (λ e. IsCharBoundary s.now e)) }
{
    match rest_from(s, at, place, starts) {
        Some(RestOfLine { comment, end }) => {
            match comment {
                Some(text) => {
                    comments.push(text)?;
                    Ok(Some(end))
                }
                None => Ok(Some(end)),
            }
        }
        None => Ok(None),
    }
}

// Reads all comment lines (l-comment, production 78) from the start of a line or the end of the text; white space ends
// at `first`.
fn comment_lines<'a>(
    s: &'a str,
    at: usize,
    first: usize,
    comments: &mut Comments<'a>,
) -> Result<usize, AllocError>
    requires boundary { IsCharBoundary s.now at }
    requires starts { at < length s.now → LineStart s.now at }
    requires first { IsCharBoundary s.now first }
    requires whites { (x : List ℕ) × Many s.now is_white at first x }
    requires all { is_white (code s.now first) ≡ false }
    ensures reads { IfOk result (λ e. RowsKept s.now at e comments.old comments.new) }
    ensures all { IfOk result (λ e. Stuck (IsRow s.now e)) }
    ensures boundary { IfOk result (λ e. IsCharBoundary s.now e) }
{
    let mut end = at;
    let mut place = first;
    'lines: while end < s.len() {
        match next_row(s, end, place, true, comments)? {
            Some(next) => {
                end = next;
                place = skip_whites(s, next);
            }
            None => return Ok(end),
        }
    }
    Ok(end)
}

// Returns the offset after all white space at the offset. Usually there is none.
#[inline(always)]
fn past_white(s: &str, at: usize) -> usize
    requires { IsCharBoundary s.now at }
    ensures whites { (x : List ℕ) × Many s.now is_white at result x }
    ensures all { is_white (code s.now result) ≡ false }
    ensures boundary { IsCharBoundary s.now result }
    ensures order { at ≤ result }
{
    if is_white_at(s, at) {
        return white_end(s, at);
    }
    at
}

// Returns the offset after all white space. It is a call of its own, so that `line_end` stays small when it is inlined.
#[inline(never)]
fn white_end(s: &str, at: usize) -> usize
    requires { IsCharBoundary s.now at }
    ensures whites { (x : List ℕ) × Many s.now is_white at result x }
    ensures all { is_white (code s.now result) ≡ false }
    ensures boundary { IsCharBoundary s.now result }
    ensures order { at ≤ result }
{
    skip_whites(s, at)
}

/// Reads the end of a line and all comment lines after it (s-l-comments, production 79).
///
/// The rest of the line may hold a comment; at the start of a line, it may be empty. Returns `None` if neither the rest
/// of a line nor the start of one is there, as between the CR and the LF of one break.
#[inline(always)]
pub fn line_end<'a>(
    alloc: Global,
    s: &'a str,
    at: usize,
) -> Result<Option<Separation<'a>>, AllocError>
    requires { IsCharBoundary s.now at }
    ensures reads { IfOk result (λ o. MatchOption o (Stuck (LineEnd s.now at)) (λ p. Chosen (LineEnd s.now at) p.end p.comments)) }
    ensures boundary { IfOk result (λ o. IfSome o (λ p. IsCharBoundary s.now p.end)) }
    ensures order { IfOk result (λ o. IfSome o (λ p. at ≤ p.end)) }
{
    let place = past_white(s, at);
    let mut from = at;
    let mut first = place;
    match line_break(s, place) {
        Some(next) => {
            from = next;
            first = skip_whites(s, next);
            if is_solid_at(s, first) {
                return Ok(Some(Separation {
                    comments: Comments::new(alloc),
                    end: next,
                }));
            }
        }
        None => {}
    }
    line_end_far(alloc, s, at, from, first)
}

// Reads a line's end as `line_end` does, in general: a comment may be before the break, and comment lines may follow.
// It continues after the first break, if that was read; white space ends at `place`.
#[inline(never)]
fn line_end_far<'a>(
    alloc: Global,
    s: &'a str,
    at: usize,
    from: usize,
    place: usize,
) -> Result<Option<Separation<'a>>, AllocError>
    requires boundary { IsCharBoundary s.now at }
    requires order { at ≤ from }
    requires from { IsCharBoundary s.now from }
    requires rest { at < from → LineRest s.now at from [] }
    requires place { IsCharBoundary s.now place }
    requires whites { (x : List ℕ) × Many s.now is_white from place x }
    requires all { is_white (code s.now place) ≡ false }
    ensures reads { IfOk result (λ o. MatchOption o (Stuck (LineEnd s.now at)) (λ p. Chosen (LineEnd s.now at) p.end p.comments)) }
    ensures boundary { IfOk result (λ o. IfSome o (λ p. IsCharBoundary s.now p.end)) }
    ensures order { IfOk result (λ o. IfSome o (λ p. at ≤ p.end)) }
{
    let mut comments = Comments::new(alloc);
    if from > at {
        let end = comment_lines(s, from, place, &mut comments)?;
        return Ok(Some(Separation { comments, end }));
    }
    let starts = is_line_start(s, at);
    match next_row(s, at, place, starts, &mut comments)? {
        Some(next) => {
            let end = comment_lines(s, next, skip_whites(s, next), &mut comments)?;
            Ok(Some(Separation { comments, end }))
        }
        None => {
            if starts {
                return Ok(Some(Separation { comments, end: at }));
            }
            Ok(None)
        }
    }
}
