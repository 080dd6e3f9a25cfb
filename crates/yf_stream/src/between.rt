//! The text between the documents of a stream (YAML 1.2.2, section 9.1): byte order marks, comment lines, and `...`.
ghost use Rattle.std.specs.Prelude.{◌≡◌, ◌+◌, ◌≤◌, IfOk};
ghost use Rattle.std.specs.Str.{IsCharBoundary};
ghost use Rattle.yf_chars.specs.Boundary.{BoundaryFrom};
ghost use Rattle.yf_stream.specs.DocumentReaders.{CommentsAdded, PrefixRead, SuffixRead};
ghost use Rattle.yf_stream.specs.PartsPlaces.{PartsAt};
ghost use Rattle.yf_stream.specs.ReaderSteps.{NextAt};

use crate::documents::{Parts, StreamContext, StreamCursor, StreamStep};
use std::alloc::{AllocError, Global};
use yf_block::look::is_blank_after;
use yf_comments::comment::Comment;
use yf_comments::comments::{Comments, Separation};
use yf_comments::lines::line_end;
use yf_lines::basic::is_mark_at;

#[tactic(auto, using(crate::proofs::Uniqueness::Forward::line_end_forward))]
/// Passes the byte order marks and comment lines at the offset (l-document-prefix, production 202), and keeps the
/// comments.
pub(crate) fn skip_prefix<'a>(
    alloc: Global,
    text: &'a str,
    cursor: StreamCursor,
    parts: &mut Parts<'a>,
) -> Result<StreamCursor, AllocError>
    requires { IsCharBoundary text.now cursor.at }
    ensures reads { IfOk result (λ s. PrefixRead text.now cursor.floor cursor.at s.at parts.old.part.comments parts.new.part.comments) }
    ensures cursor { IfOk result (λ s. s ≡ record cursor { at = s.at }) }
    ensures place { IfOk result (λ s. BoundaryFrom text.now cursor.at s.at) }
    ensures events { IfOk result (λ _. parts.new.part.events ≡ parts.old.part.events) }
    ensures escapes { IfOk result (λ _. parts.new.part.escapes ≡ parts.old.part.escapes) }
    ensures documents { IfOk result (λ _. parts.new.documents ≡ parts.old.documents) }
{
    let mut at = cursor.at;
    'lines: loop {
        if is_mark_at(text, at) {
            at += 3;
            continue;
        }
        match line_end(alloc, text, at)? {
            Some(Separation { comments, end }) => {
                keep_comments(text, cursor.floor, &comments, parts)?;
                if end == at {
                    return Ok(StreamCursor { at, ..cursor });
                }
                at = end;
            }
            None => return Ok(StreamCursor { at, ..cursor }),
        }
    }
}

// Adds comments, and notes for each whether a blank line that is no line of a block scalar is before it.
fn keep_comments<'a>(
    text: &'a str,
    floor: usize,
    comments: &Comments<'a>,
    parts: &mut Parts<'a>,
) -> Result<(), AllocError>
    ensures kept { IfOk result (λ _. CommentsAdded text.now floor comments.now parts.old.part.comments parts.new.part.comments) }
    ensures events { IfOk result (λ _. parts.new.part.events ≡ parts.old.part.events) }
    ensures escapes { IfOk result (λ _. parts.new.part.escapes ≡ parts.old.part.escapes) }
    ensures documents { IfOk result (λ _. parts.new.documents ≡ parts.old.documents) }
{
    for comment in comments.as_slice() {
        parts.part.comments.push(Comment {
            blank_before: is_blank_after(text, floor, comment.offset),
            ..*comment
        })?;
    }
    Ok(())
}

#[tactic(auto, using(crate::proofs::Uniqueness::Forward::line_end_forward))]
/// Reads `...` (l-document-suffix, production 205).
pub(crate) fn read_suffix<'a>(
    source: StreamContext<'a>,
    cursor: StreamCursor,
    parts: &mut Parts<'a>,
) -> Result<StreamStep, AllocError>
    requires boundary { IsCharBoundary source.text.now (cursor.at + 3) }
    requires parts { PartsAt source.text.now parts.old }
    ensures reads { IfOk result (λ next. SuffixRead source.entry.text.now cursor parts.old parts.new next) }
    ensures next { IfOk result (λ next. NextAt source.entry.text.now (cursor.at + 1) next) }
    ensures parts { IfOk result (λ _. PartsAt source.entry.text.now parts.new) }
{
    parts.close(source.alloc, cursor, true)?;
    match line_end(source.alloc, source.text, cursor.at + 3)? {
        Some(Separation { comments, end }) => {
            parts.part.comments.append(comments)?;
            Ok(StreamStep::Go(StreamCursor {
                at: end,
                floor: 0,
                reached: end,
                may_be_bare: true,
            }))
        }
        None => Ok(StreamStep::Syntax(cursor.at + 3)),
    }
}
