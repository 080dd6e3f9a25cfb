//! Readers of comments and separation in a text with its lines.
ghost use Rattle.std.specs.Prelude.{◌≡◌, IfSome, MatchOption, MatchResult};
ghost use Rattle.std.specs.Str.{IsCharBoundary};
ghost use Rattle.yf_chars.specs.Chain.{Chosen, Stuck};
ghost use Rattle.yf_comments.specs.Comments.{LineEnd, Separate};

use crate::comments::Separation;
use crate::lines::line_end;
use crate::separation::separate;
use std::alloc::{AllocError, Global};
use yf_chars::context::Ctx;
use yf_lines::fault::Fault;
use yf_lines::source_text::Src;
use yf_lines::text::ReadResult;

/// Reads the end of a line and all comment lines after it (s-l-comments, production 79), from a byte offset, with all
/// comments in order.
///
/// Returns `None` if the production derives nothing, as between the CR and the LF of one break.
///
/// # Errors
///
/// `Fault::Memory` if memory is refused.
pub fn read_line_end<'a>(alloc: Global, src: &Src<'a>, at: usize) -> ReadResult<Separation<'a>>
    requires { IsCharBoundary src.now.text at }
    ensures { MatchResult result (λ o. MatchOption o (Stuck (LineEnd src.now.text at))
        (λ p. Chosen (LineEnd src.now.text at) p.end p.comments × IsCharBoundary src.now.text p.end)) (λ fault. fault ≡ Fault.Memory) }
{
    match line_end(alloc, src.text(), at) {
        Ok(found) => Ok(found),
        Err(AllocError) => Err(Fault::Memory),
    }
}

/// Reads the longest separation (s-separate(n,c), production 80) that begins at a byte offset, with all its comments in
/// order. `n` is an indentation, from -1.
///
/// It may end before a comment, since its last line needs the indentation. Returns `None` if the production derives
/// nothing.
///
/// # Errors
///
/// `Fault::Memory` if memory is refused.
pub fn read_separation<'a>(
    alloc: Global,
    src: &Src<'a>,
    at: usize,
    n: i32,
    ctx: Ctx,
) -> ReadResult<Separation<'a>>
    requires { IsCharBoundary src.now.text at }
    ensures { MatchResult result (λ o. MatchOption o (Stuck (Separate src.now.text n ctx at))
        (λ p. Chosen (Separate src.now.text n ctx at) p.end p.comments × IsCharBoundary src.now.text p.end))
        (λ fault. fault ≡ Fault.Memory) }
{
    match separate(alloc, src.text(), at, n, ctx) {
        Ok(found) => Ok(found),
        Err(AllocError) => Err(Fault::Memory),
    }
}
