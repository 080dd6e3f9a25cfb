//! Reads single lines of a block scalar with known indentation.
ghost use Rattle.std.specs.Prelude.{◌+◌, ◌-◌, ◌<◌, ◌≤◌, ℕ, Bool, false, List, [], length, slice_range, IfOk, IfSome, MatchOption};
ghost use Rattle.std.specs.Str.{IsCharBoundary};
ghost use Rattle.yf_lines.specs.Basic.{LineStart};
ghost use Rattle.yf_block_scalar.specs.Body.{SpaceLine, LineContent, LinesTaken};

use crate::lines::Lines;
use std::alloc::{AllocError, Global};
use yf_chars::nb_runs::skip_nb_chars;
use yf_lines::basic::{is_marker_at, line_break, skip_spaces};

// A line of only spaces: their number, and the offset after the line's break.
#[derive(Drop)]
pub(crate) struct SpacePart {
    pub(crate) width: usize,
    pub(crate) next: usize,
}

// A content line: the end of its text, the offset after its break, and whether the text ends there.
#[derive(Drop)]
pub(crate) struct ContentPart {
    pub(crate) end: usize,
    pub(crate) next: usize,
    pub(crate) open_end: bool,
}

// The lines up to the last content line, whether that one is open, the number of empty lines after it, and the offset
// after them.
#[derive(Drop)]
pub(crate) struct BodyLines<'a> {
    pub(crate) lines: Lines<'a>,
    pub(crate) open_end: bool,
    pub(crate) tail: usize,
    pub(crate) next: usize,
}

// Reads a line of only spaces, with its break.
pub(crate) fn space_line(s: &str, at: usize) -> Option<SpacePart>
    requires { IsCharBoundary s.now at }
    ensures reads { MatchOption result ((m j : ℕ) → SpaceLine s.now at m j → ⊥) (λ p. SpaceLine s.now at p.width p.next) }
    ensures boundary { IfSome result (λ p. IsCharBoundary s.now p.next) }
    ensures order { IfSome result (λ p. at < p.next) }
{
    let end = skip_spaces(s, at);
    match line_break(s, end) {
        Some(next) => Some(SpacePart {
            width: end - at,
            next,
        }),
        None => None,
    }
}

// Reads an empty line, with at most `indent` spaces and a break. Returns the offset after it.
pub(crate) fn empty_line(s: &str, at: usize, indent: usize) -> Option<usize>
    requires { IsCharBoundary s.now at }
    ensures reads { MatchOption result ((m j : ℕ) → SpaceLine s.now at m j → m ≤ indent → ⊥)
        (λ j. (m : ℕ) × (m ≤ indent) × SpaceLine s.now at m j) }
    ensures boundary { IfSome result (λ j. IsCharBoundary s.now j) }
    ensures order { IfSome result (λ j. at < j) }
{
    match space_line(s, at) {
        Some(part) => {
            if part.width <= indent {
                return Some(part.next);
            }
            None
        }
        None => None,
    }
}

// Reads a content line with `indent` spaces of indentation (s-indent(n) nb-char+, productions 170 and 174).
pub(crate) fn content_line(s: &str, at: usize, indent: usize) -> Option<ContentPart>
    requires { IsCharBoundary s.now at }
    ensures reads { MatchOption result ((j : ℕ) (x : List ℕ) (o : Bool) → LineContent s.now indent at j x o → ⊥)
        (λ p. LineContent s.now indent at p.next (slice_range s.now (at + indent) p.end) p.open_end) }
    ensures boundary { IfSome result (λ p. IsCharBoundary s.now (at + indent) × IsCharBoundary s.now p.end × IsCharBoundary s.now p.next) }
    ensures order { IfSome result (λ p. (at + indent < p.end) × (p.end ≤ p.next)) }
{
    let first = skip_spaces(s, at);
    if first - at < indent {
        return None;
    }
    if is_marker_at(s, at) {
        return None;
    }
    let from = at + indent;
    let end = skip_nb_chars(s, from);
    if end == from {
        return None;
    }
    if end == s.len() {
        return Some(ContentPart {
            end,
            next: end,
            open_end: true,
        });
    }
    match line_break(s, end) {
        Some(next) => Some(ContentPart {
            end,
            next,
            open_end: false,
        }),
        None => None,
    }
}

// Reads all lines of the scalar from the offset on, with that indentation.
pub(crate) fn read_rows<'a>(
    alloc: Global,
    s: &'a str,
    at: usize,
    indent: usize,
) -> Result<BodyLines<'a>, AllocError>
    requires { IsCharBoundary s.now at }
    ensures reads { IfOk result (λ r. LinesTaken s.now indent at r.lines r.open_end r.tail r.next) }
    ensures boundary { IfOk result (λ r. IsCharBoundary s.now r.next) }
    ensures starts { IfOk result (λ r. (at < length s.now → LineStart s.now at) → r.next < length s.now → LineStart s.now r.next) }
{
    let mut lines = Lines::new(alloc);
    let mut open_end = false;
    let mut tail = 0;
    let mut place = at;
    'rows: loop {
        match empty_line(s, place, indent) {
            Some(next) => {
                lines.push("")?;
                tail += 1;
                place = next;
                continue;
            }
            None => {}
        }
        match content_line(s, place, indent) {
            Some(part) => {
                lines.push(&s[place + indent..part.end])?;
                tail = 0;
                open_end = part.open_end;
                place = part.next;
            }
            None => {
                lines.truncate(lines.len() - tail);
                return Ok(BodyLines {
                    lines,
                    open_end,
                    tail,
                    next: place,
                });
            }
        }
    }
}
