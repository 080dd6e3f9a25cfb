//! Readers of block scalars, for a text with its lines.
ghost use Rattle.std.specs.Prelude.{◌≡◌, ◌≢◌, [], ◌<◌, ◌≤◌, ◌≤ℤ◌, ◌^◌, pos, None, length, MatchOption, MatchResult};
ghost use Rattle.std.specs.Str.{IsCharBoundary};
ghost use Rattle.yf_chars.specs.Chain.{Chosen, Stuck};
ghost use Rattle.yf_block_scalar.specs.Body.{Body, body_value};
ghost use Rattle.yf_block_scalar.specs.Header.{BlockHeader, header_value};
ghost use Rattle.yf_lines.specs.Basic.{LineStart};
ghost use Rattle.yf_block_scalar.specs.LineOffset.{line_offset};
ghost use Rattle.yf_block_scalar.specs.Written.{IsCommentText, IsScalar};

use crate::body::BlockText;
use crate::header::Header;
use crate::header_reader::{HeaderLine, block_header};
use crate::reader::block_body;
use std::alloc::{AllocError, Global};
use yf_lines::fault::Fault;
use yf_lines::source_text::Src;
use yf_lines::text::ReadResult;

/// Reads the header of a block scalar from a byte offset on (YAML 1.2.2, section 8.1.1): `|` or `>`, an optional digit
/// from 1 to 9 and an optional sign in either order, then an optional comment, and the end of the line.
///
/// Returns `None` if no header begins there. Allocates no memory.
pub fn read_header<'a>(src: &Src<'a>, at: usize) -> Option<HeaderLine<'a>>
    ensures { MatchOption result (Stuck (BlockHeader src.now.text at))
        (λ r. Chosen (BlockHeader src.now.text at) r.end (header_value r.header r.comment) × IsCharBoundary src.now.text r.end
        × IsCommentText r.comment) }
{
    match block_header(src.text(), at) {
        Some(found) => Some(found),
        None => None,
    }
}

/// Reads a block scalar after its header (YAML 1.2.2, sections 8.1.1.1, 8.1.2 and 8.1.3): the content lines and the
/// empty lines among them, the tail, and the comment lines after it.
///
/// `line` is the index of the line after the header, and `n` the indentation of the collection around the scalar, from
/// -1. Returns `None` if a line of only spaces before the content has more spaces than the content. `write_block` can
/// write a scalar with a content line.
///
/// # Errors
///
/// Fails with `Fault::Memory` if memory is refused.
pub fn read_body<'a>(
    alloc: Global,
    src: &Src<'a>,
    line: usize,
    n: i32,
    header: Header,
) -> ReadResult<BlockText<'a>>
    requires within { line ≤ length src.now.lines }
    requires small { n ≤ℤ pos (2 ^ 30) }
    ensures { MatchResult result (λ o. MatchOption o (Stuck (Body src.now.text n header (line_offset src.now line)))
        (λ b. (b.header ≡ header) × (b.comment ≡ None) × Chosen (Body src.now.text n header (line_offset src.now line)) b.next
        (body_value b) × IsCharBoundary src.now.text b.next × (b.lines ≢ [] → IsScalar b))) (λ fault. fault ≡ Fault.Memory) }
{
    match block_body(alloc, src.text(), offset_of_line(src, line), n, header) {
        Ok(found) => Ok(found),
        Err(AllocError) => Err(Fault::Memory),
    }
}

// Returns the byte offset of the line, or the text's length after the last line.
fn offset_of_line(src: &Src, line: usize) -> usize
    requires { line ≤ length src.now.lines }
    ensures value { result ≡ line_offset src.now line }
    ensures boundary { IsCharBoundary src.now.text result }
    ensures starts { result < length src.now.text → LineStart src.now.text result }
{
    let lines = src.lines();
    if line < lines.len() {
        return lines.line(line).start;
    }
    src.text().len()
}
