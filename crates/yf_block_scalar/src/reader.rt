//! Reads the lines of a block scalar (YAML 1.2.2, sections 8.1.1.1, 8.1.2 and 8.1.3).
ghost use Rattle.std.specs.Prelude.{◌≡◌, ◌≢◌, ◌+◌, ◌<◌, ◌≤◌, ◌^◌, ◌≤ℤ◌, pos, ℕ, List, [], None, length, IfOk, IfSome, MatchOption};
ghost use Rattle.std.specs.Str.{IsCharBoundary};
ghost use Rattle.yf_chars.specs.Chain.{Chosen, Stuck};
ghost use Rattle.yf_lines.specs.Basic.{LineStart};
ghost use Rattle.yf_comments.specs.Comment.{CommentValue};
ghost use Rattle.yf_block_scalar.specs.Body.{Body, LinesTaken, Trail, is_gap_tail, first_noted, body_value};
ghost use Rattle.yf_block_scalar.specs.Written.{IsScalar};

use crate::body::BlockText;
use crate::body_lines::{BodyLines, read_rows};
use crate::header::{Chomp, Header};
use crate::indent::{Indentation, base_of, find_indentation, least_of};
use crate::lines::Lines;
use crate::trail::read_trail;
use std::alloc::{AllocError, Global};
use yf_comments::comments::Separation;

// Returns whether a comment directly after `count` empty lines of a scalar's tail has a blank line before it. The empty
// lines of a kept tail are content.
fn is_gap(chomp: Chomp, count: usize) -> bool
    ensures { result ≡ is_gap_tail chomp count }
{
    match chomp {
        Chomp::Strip | Chomp::Clip => count > 0,
        Chomp::Keep => false,
    }
}

// Reads the comment lines after the lines of a scalar with that indentation, and puts the parts together.
fn with_trail<'a>(
    alloc: Global,
    s: &'a str,
    indent: usize,
    header: Header,
    rows: BodyLines<'a>,
) -> Result<BlockText<'a>, AllocError>
    requires boundary { IsCharBoundary s.now rows.next }
    requires starts { rows.next < length s.now → LineStart s.now rows.next }
    ensures reads { IfOk result (λ b. (x : List CommentValue) × (Trail s.now indent rows.entry.next b.next x
        × (b.comments ≡ first_noted (is_gap_tail header.chomp rows.entry.tail) x))) }
    ensures lines { IfOk result (λ b. b.lines ≡ rows.entry.lines) }
    ensures open_end { IfOk result (λ b. b.open_end ≡ rows.entry.open_end) }
    ensures tail { IfOk result (λ b. b.tail ≡ rows.entry.tail) }
    ensures boundary { IfOk result (λ b. IsCharBoundary s.now b.next) }
    ensures header { IfOk result (λ b. b.header ≡ header) }
    ensures comment { IfOk result (λ b. b.comment ≡ None) }
{
    let BodyLines {
        lines,
        open_end,
        tail,
        next,
    } = rows;
    let blank = is_gap(header.chomp, tail);
    let Separation { comments, end } = read_trail(alloc, s, next, indent, blank)?;
    Ok(BlockText {
        header,
        comment: None,
        lines,
        tail,
        open_end,
        comments,
        next: end,
    })
}

// Reads a scalar with that indentation of its content.
fn read_indented<'a>(
    alloc: Global,
    s: &'a str,
    at: usize,
    indent: usize,
    header: Header,
) -> Result<BlockText<'a>, AllocError>
    requires boundary { IsCharBoundary s.now at }
    requires starts { at < length s.now → LineStart s.now at }
    ensures reads { IfOk result (λ b. (p : ℕ) × (x : List CommentValue)
        × (LinesTaken s.now indent at b.lines b.open_end b.tail p × Trail s.now indent p b.next x
        × (b.comments ≡ first_noted (is_gap_tail header.chomp b.tail) x))) }
    ensures boundary { IfOk result (λ b. IsCharBoundary s.now b.next) }
    ensures header { IfOk result (λ b. b.header ≡ header) }
    ensures comment { IfOk result (λ b. b.comment ≡ None) }
{
    let rows = read_rows(alloc, s, at, indent)?;
    let block = with_trail(alloc, s, indent, header, rows)?;
    Ok(block)
}

/// Reads the lines of a block scalar after its header: its content lines and the empty lines among them, its tail, and
/// the comment lines after it.
///
/// `at` is the byte offset of the line after the header, and `n` the indentation of the collection around the scalar,
/// from -1. Returns `None` if a line of only spaces before the content has more spaces than the content.
///
/// # Errors
///
/// Fails with `AllocError` if memory is refused.
pub fn block_body<'a>(
    alloc: Global,
    s: &'a str,
    at: usize,
    n: i32,
    header: Header,
) -> Result<Option<BlockText<'a>>, AllocError>
    requires starts { at < length s.now → LineStart s.now at }
    requires boundary { IsCharBoundary s.now at }
    requires small { n ≤ℤ pos (2 ^ 30) }
    ensures reads { IfOk result (λ o. MatchOption o (Stuck (Body s.now n header at))
        (λ b. (b.header ≡ header) × (b.comment ≡ None) × Chosen (Body s.now n header at) b.next (body_value b))) }
    ensures scalar { IfOk result (λ o. IfSome o (λ b. b.lines ≢ [] → IsScalar b)) }
    ensures boundary { IfOk result (λ o. IfSome o (λ b. IsCharBoundary s.now b.next)) }
    ensures order { IfOk result (λ o. IfSome o (λ b. at ≤ b.next)) }
{
    match header.digit {
        Some(digit) => {
            let block = read_indented(alloc, s, at, base_of(n) + digit as usize, header)?;
            Ok(Some(block))
        }
        None => match find_indentation(s, at, n) {
            Indentation::Found(indent) => {
                let block = read_indented(alloc, s, at, indent, header)?;
                Ok(Some(block))
            }
            Indentation::Missing(count, next) => {
                let lines = Lines::new(alloc);
                let rows = BodyLines {
                    lines,
                    open_end: false,
                    tail: count,
                    next,
                };
                let block = with_trail(alloc, s, least_of(n), header, rows)?;
                Ok(Some(block))
            }
            Indentation::TooLong => Ok(None),
        },
    }
}
