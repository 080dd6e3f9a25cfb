//! Notes which comments are on the line on which a leaf ends. A leaf is a scalar, an alias or an empty collection.
ghost use Rattle.std.specs.Prelude.{◌≡◌, ℕ, ◌<◌, ◌≤◌, [], List, None, drop, length, map, IfOk, MatchBool};
ghost use Rattle.yf_comments.specs.Comment.{comment_value};
ghost use Rattle.yf_lines.specs.Lines.{AreLines};
ghost use Rattle.yf_lines.specs.declared.line.Line.{Line};
ghost use Rattle.yf_stream.specs.LeafSearch.{BegunAt, LastLeaf};
ghost use Rattle.yf_stream.specs.LeafPass.{BeginsLine, NextLine, AreInOrder, IsInLine, StopsAt, end_on_line, last_end, leaf_spans};

use std::alloc::AllocError;
use yf_comments::comment::Comment;
use yf_comments::comments::Comments;
use yf_events::events::Events;
use yf_events::leaves::begins_leaf;
use yf_events::values::Values;
use yf_lines::basic::{break_ends, line_break};

// The number of events that have been passed, and the end of the last leaf with characters among them.
#[derive(Clone, Copy)]
struct Seen {
    events: usize,
    leaf_end: Option<usize>,
}

/// Notes for each comment whether it is on the line on which the last leaf with characters that begins before it ends.
pub(crate) fn on_leaf_lines(
    text: &str,
    events: &Events,
    comments: &Comments,
    notes: &mut Values<bool>,
) -> Result<(), AllocError>
    requires { notes.old ≡ [] }
    ensures count { IfOk result (λ _. length notes.new ≡ length comments.now) }
    ensures notes { IfOk result (λ _. (ls : List Line) → AreLines text.now ls → AreInOrder text.now events.now comments.now
        → notes.new ≡ map (λ c. end_on_line ls (last_end None c.offset (leaf_spans events.now)) c.offset) comments.now) }
{
    let mut seen = Seen {
        events: 0,
        leaf_end: None,
    };
    'comments: while notes.len() < comments.len() {
        let comment = comments.at(notes.len());
        seen = leaves_before(events, comment.offset, seen);
        notes.push(ends_on_line(text, seen.leaf_end, comment))?;
    }
    Ok(())
}

// Advances to the last leaf that begins before the offset.
fn leaves_before(events: &Events, offset: usize, seen: Seen) -> Seen
    ensures passed { (o : ℕ) → offset ≤ o → last_end seen.leaf_end o (leaf_spans (drop seen.events events.now))
        ≡ last_end result.leaf_end o (leaf_spans (drop result.events events.now)) }
    ensures stops { StopsAt offset (drop result.events events.now) }
{
    let end = begun_before(events, offset, seen.events);
    let leaf_end = last_leaf(events, seen.events, end, seen.leaf_end);
    Seen {
        events: end,
        leaf_end,
    }
}

// Passes the events that begin before the offset, and those without a span.
#[inline(always)]
fn begun_before(events: &Events, offset: usize, start: usize) -> usize
    ensures later { start ≤ result }
    ensures begun { (k : ℕ) → start ≤ k → k < result → BegunAt offset events.now k }
    ensures stops { StopsAt offset (drop result events.now) }
{
    let mut at = start;
    'events: while at < events.len() {
        if !has_begun(events, at, offset) {
            return at;
        }
        at += 1;
    }
    at
}

#[inline(always)]
fn has_begun(events: &Events, at: usize, offset: usize) -> bool
    requires { at < length events.now }
    ensures { MatchBool result (BegunAt offset events.now at) (StopsAt offset (drop at events.now)) }
{
    match events.span(at) {
        Some(span) => span.start < offset,
        None => true,
    }
}

// Returns the end of the last leaf with characters among these events, or `found` if none is among them. The search
// goes backwards.
#[inline(always)]
fn last_leaf(events: &Events, start: usize, end: usize, found: Option<usize>) -> Option<usize>
    requires order { start ≤ end }
    requires within { (k : ℕ) → start ≤ k → k < end → k < length events.now }
    ensures { LastLeaf events.now start end found result }
{
    let mut at = end;
    'events: while start < at {
        at -= 1;
        if let Some(span) = events.span(at) {
            if begins_leaf(events, at) {
                return Some(span.end);
            }
            continue 'events;
        }
    }
    found
}

// Returns whether the last character before the leaf's end is on the comment's line.
fn ends_on_line(text: &str, leaf_end: Option<usize>, comment: &Comment) -> bool
    ensures { (ls : List Line) → AreLines text.now ls → IsInLine text.now (comment_value comment.now)
        → result ≡ end_on_line ls leaf_end comment.now.offset }
{
    match leaf_end {
        Some(end) => {
            let start = line_start(text, comment.offset);
            let next = next_line(text, comment.offset.saturating_add(comment.text.len()));
            if start < end {
                return end <= next;
            }
            false
        }
        None => false,
    }
}

// Returns the start of the line that holds the offset.
fn line_start(text: &str, at: usize) -> usize
    ensures { BeginsLine text.now at result }
{
    let mut start = at;
    'chars: while start > 0 {
        if break_ends(text, start) {
            return start;
        }
        start -= 1;
    }
    0
}

// Returns the start of the line after the offset, or the end of the text.
fn next_line(text: &str, at: usize) -> usize
    ensures { NextLine text.now at result }
{
    let mut end = at;
    'chars: while end < text.len() {
        if let Some(next) = line_break(text, end) {
            return next;
        }
        end += 1;
    }
    text.len()
}
