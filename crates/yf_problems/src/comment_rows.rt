//! Comment lines in a row.
ghost use Rattle.std.specs.Prelude.{◌≡◌, ◌++◌, None, Some, IfOk, map, option_map};
ghost use Rattle.yf_comments.specs.Comment.{comment_value};
ghost use Rattle.yf_problems.specs.Folds as Folds;

use std::alloc::AllocError;
use yf_comments::comment::Comment;
use yf_outline::white_space::{byte_at, is_break, white_start};
use yf_server::analysis::Foldable;

// Returns whether a line begins at an offset.
fn begins_line(text: &str, offset: usize) -> bool
    ensures { result ≡ Folds.begins_line text.now offset }
{
    offset == 0 || is_break(byte_at(text, offset.saturating_sub(1)))
}

// Returns whether a comment is on a line of its own.
fn is_own(text: &str, comment: &Comment) -> bool
    ensures { result ≡ Folds.is_own text.now (comment_value comment.now) }
{
    begins_line(text, white_start(text, comment.offset))
}

// Returns the end of the line before the one that begins at an offset.
fn line_end_before(text: &str, offset: usize) -> usize
    ensures { result ≡ Folds.line_end_before text.now offset }
{
    let one = offset.saturating_sub(1);
    let two = offset.saturating_sub(2);
    if byte_at(text, one) == b'\n' && byte_at(text, two) == b'\r' {
        return two;
    }
    one
}

// Returns whether a comment is on the line after that of another one.
fn follows(text: &str, before: &Comment, comment: &Comment) -> bool
    ensures { result ≡ Folds.follows text.now (comment_value before.now) (comment_value comment.now) }
{
    let end = line_end_before(text, white_start(text, comment.offset));
    end.saturating_sub(before.text.len()) == before.offset
}

// Returns whether a comment is a line after another comment line.
fn continues(text: &str, before: &Option<Comment>, comment: &Comment) -> bool
    ensures { result ≡ Folds.continues text.now (option_map comment_value before.now) (comment_value comment.now) }
{
    match before {
        None => false,
        Some(before) => is_own(text, before) && follows(text, before, comment),
    }
}

// Returns the start of the last comment of those that follow one another, from a comment on.
fn row_last<'a>(text: &str, first: Comment<'a>, rest: &[Comment<'a>]) -> usize
    ensures { result ≡ Folds.row_last text.now (comment_value first.entry) (map comment_value rest.now) }
{
    let mut last = first;
    for comment in rest {
        if !follows(text, &last, comment) {
            return last.offset;
        }
        last = *comment;
    }
    last.offset
}

// Adds the comment lines from a comment on, if it is the first of them.
fn push_row<'a>(
    parts: &mut Vec<Foldable>,
    text: &str,
    before: &Option<Comment<'a>>,
    comment: &Comment<'a>,
    rest: &[Comment<'a>],
) -> Result<(), AllocError>
    ensures { IfOk result (λ _. parts.new.items ≡ parts.old.items ++ Folds.row_at text.now
        (option_map comment_value before.now) (comment_value comment.now) (map comment_value rest.now)) }
{
    if is_own(text, comment) && !continues(text, before, comment) {
        parts.push(Foldable {
            start: comment.offset,
            last: row_last(text, *comment, rest),
            is_comment: true,
        })?;
    }
    Ok(())
}

// Adds the comment lines of a text.
pub(crate) fn push_comments<'a>(
    parts: &mut Vec<Foldable>,
    text: &str,
    comments: &[Comment<'a>],
) -> Result<(), AllocError>
    ensures { IfOk result (λ _. parts.new.items
        ≡ parts.old.items ++ Folds.comment_parts text.now None (map comment_value comments.now)) }
{
    let mut before: Option<Comment<'a>> = None;
    for i in 0..comments.len() {
        push_row(parts, text, &before, &comments[i], &comments[i + 1..])?;
        before = Some(comments[i]);
    }
    Ok(())
}
