//! Block scalars. Their lines and contents were worked out from the productions.

use std::alloc::{AllocError, Global};
use yf_block_scalar::body::BlockText;
use yf_block_scalar::content::content;
use yf_block_scalar::read::{read_body, read_header};
use yf_block_scalar::write::write_block;
use yf_lines::fault::Fault;
use yf_lines::source_text::Src;
use yf_lines::text::ReadResult;

/// The expected result for a text.
#[derive(Clone, Copy)]
enum Wanted {
    /// No header begins the text.
    NoHeader,
    /// A header with the comment `# c` ends at this offset.
    Header(usize),
    /// A header begins the text, but no scalar.
    Nothing,
    /// The content of the scalar.
    Content(&'static str),
    /// The content, and the text of the scalar when it is written at column 2.
    Both(&'static str, &'static str),
    /// The line after a scalar of one line, a tail of one line, a blank line and the comment `# c`.
    Tail(usize),
}

/// A text, the indentation, and the expected result.
type Row = (&'static str, i32, Wanted);

static SCALARS: [Row; 20] = [
    ("|2\n    x\n\n- >", 0, Wanted::Both("  x\n", "|2\n    x\n")),
    (
        ">\n a\n b\n\n   c\n",
        0,
        Wanted::Both("a b\n\n  c\n", ">\n  a\n  b\n\n    c\n"),
    ),
    ("|\n\n", 0, Wanted::Content("")),
    ("|+\n\n\n", 0, Wanted::Content("\n\n")),
    ("|+\n a\n\n", -1, Wanted::Both("a\n\n", "|+\n  a\n\n")),
    ("|\n x", 0, Wanted::Both("x", "|\n  x")),
    ("|-\n x", 0, Wanted::Both("x", "|-\n  x\n")),
    (">2-\n   a\n  b\n\n", 0, Wanted::Content(" a\nb")),
    ("|+1\n a", 0, Wanted::Content("a")),
    (
        ">\n\n folded\n line\n\n next\n line\n   * bullet\n\n   * list\n   * lines\n\n last\n line\n\n# Comment\n",
        0,
        Wanted::Content(
            "\nfolded line\nnext line\n  * bullet\n\n  * list\n  * lines\n\nlast line\n",
        ),
    ),
    (
        "|\n \n  \n  literal\n   \n  \n  text\n\n # Comment\n",
        0,
        Wanted::Content("\n\nliteral\n \n\ntext\n"),
    ),
    (">\n\ta\n", -1, Wanted::Content("\ta\n")),
    ("|-\n x\n\n# c\n- y\n", 0, Wanted::Tail(11)),
    // a longer empty line before the content
    ("|\n   \n  a\n", 0, Wanted::Nothing),
    ("|#c\n a\n", 0, Wanted::NoHeader),
    ("|10\n a\n", 0, Wanted::NoHeader),
    ("|-1+\n", 0, Wanted::NoHeader),
    ("x", 0, Wanted::NoHeader),
    ("", 0, Wanted::NoHeader),
    ("|  # c\n a\n", 0, Wanted::Header(7)),
];

/// Returns whether a scalar has this content.
fn has_content(alloc: Global, block: &BlockText, wanted: &str) -> bool {
    match &content(alloc, block) {
        Ok(text) => text.as_str() == wanted,
        Err(_) => false,
    }
}

/// Returns whether a scalar is written as this text.
fn writes(alloc: Global, block: &BlockText, wanted: &str) -> bool {
    let mut out = String::new(alloc);
    write_block(alloc, &mut out, block, 2, 0).is_ok() && out.as_str() == wanted
}

/// Returns whether a scalar has one line, and after its tail only the comment `# c`, with a blank line before it.
fn has_tail(block: &BlockText, next: usize) -> bool {
    match block.comments.as_slice() {
        [comment] => {
            let text = comment.text;
            block.next == next
                && block.tail == 1
                && block.lines.len() == 1
                && text == "# c"
                && comment.blank_before
        }
        _ => false,
    }
}

/// Returns whether the result after a header is as expected.
fn is_wanted(alloc: Global, found: &ReadResult<BlockText>, wanted: Wanted) -> bool {
    match (found, wanted) {
        (Ok(Some(block)), Wanted::Content(text)) => has_content(alloc, block, text),
        (Ok(Some(block)), Wanted::Both(text, written)) => {
            has_content(alloc, block, text) && writes(alloc, block, written)
        }
        (Ok(Some(block)), Wanted::Tail(next)) => has_tail(block, next),
        (Ok(None), wanted) => matches!(wanted, Wanted::Nothing),
        _ => false,
    }
}

/// Returns whether the header and the scalar at the start of a source are as expected.
fn is_read(alloc: Global, src: &Src, n: i32, wanted: Wanted) -> bool {
    match (&read_header(src, 0), wanted) {
        (Some(head), Wanted::Header(end)) => match &head.comment {
            Some(comment) => {
                let text = comment.text;
                head.end == end && text == "# c"
            }
            None => false,
        },
        (Some(head), wanted) => {
            let first = src.lines().len().min(1);
            is_wanted(
                alloc,
                &read_body(alloc, src, first, n.min(9), head.header),
                wanted,
            )
        }
        (None, wanted) => matches!(wanted, Wanted::NoHeader),
    }
}

/// Returns whether the row's text is read as expected.
fn reads(alloc: Global, row: &Row) -> bool {
    match &Src::new(alloc, row.0) {
        Ok(src) => is_read(alloc, src, row.1, row.2),
        Err(AllocError) => false,
    }
}

#[test]
fn reads_and_writes_block_scalars(rt: HostRuntime) {
    for row in &SCALARS {
        assert!(rt; reads(rt.alloc(), row), "{}", row.0);
    }
}
