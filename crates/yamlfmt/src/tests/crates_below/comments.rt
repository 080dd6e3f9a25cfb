//! Separation and ends of lines. The ends and comments were worked out by hand from the productions.

use std::alloc::{AllocError, Global};
use yf_chars::context::Ctx;
use yf_comments::comments::Separation;
use yf_comments::read::{read_line_end, read_separation};
use yf_lines::fault::Fault;
use yf_lines::source_text::Src;

/// The expected result of a reader.
#[derive(Clone, Copy)]
enum Wanted {
    /// The reader finds nothing.
    Nothing,
    /// The reader ends at this offset, and has read no comment.
    End(usize),
    /// The reader ends at this offset. It has read one comment, `# c`, at this offset and with this note of a blank
    /// line.
    Comment(usize, usize, bool),
}

/// A text, an offset, and the expected result. The separation that begins at the offset has an indentation and a
/// context; without them the end of a line is read.
type Row = (&'static str, usize, Option<(i32, Ctx)>, Wanted);

static ROWS: [Row; 14] = [
    // past a comment
    (
        "x # c\n  y",
        1,
        Some((2, Ctx::FlowOut)),
        Wanted::Comment(8, 2, false),
    ),
    ("x # c\n  y", 1, None, Wanted::Comment(6, 2, false)),
    // in the indentation of a comment line
    (" \n  # c\nx", 0, Some((1, Ctx::BlockIn)), Wanted::End(4)),
    // before a comment that no indentation follows
    (" # c\ny", 0, Some((2, Ctx::FlowIn)), Wanted::End(1)),
    // over blank lines
    ("x\n\n  y", 1, Some((2, Ctx::FlowOut)), Wanted::End(5)),
    // no line break in keys
    ("x \n y", 1, Some((0, Ctx::FlowKey)), Wanted::End(2)),
    ("a \tb", 1, Some((0, Ctx::FlowKey)), Wanted::End(3)),
    ("ab", 1, Some((0, Ctx::FlowKey)), Wanted::Nothing),
    // tabs after the indentation of a line, and within it
    ("x\n  \tb", 1, Some((2, Ctx::FlowOut)), Wanted::End(5)),
    ("x\n \tb", 1, Some((2, Ctx::FlowOut)), Wanted::Nothing),
    // after a mark
    ("\u{FEFF}# c\n", 3, None, Wanted::Comment(7, 3, false)),
    ("a\n \t\n# c", 1, None, Wanted::Comment(8, 5, true)),
    // in the middle of a line break
    ("a\r\nb", 2, None, Wanted::Nothing),
    // before a comment that a mark ends
    ("a # c\u{FEFF}", 1, None, Wanted::Nothing),
];

/// Returns whether the result is as expected.
fn is_wanted(found: &Result<Option<Separation>, Fault>, wanted: Wanted) -> bool {
    match (found, wanted) {
        (Ok(Some(found)), Wanted::End(end)) => found.end == end && found.comments.len() == 0,
        (Ok(Some(found)), Wanted::Comment(end, offset, blank_before)) => {
            match found.comments.as_slice() {
                [comment] => {
                    let text = comment.text;
                    found.end == end
                        && text == "# c"
                        && comment.offset == offset
                        && comment.blank_before == blank_before
                }
                _ => false,
            }
        }
        (Ok(None), wanted) => matches!(wanted, Wanted::Nothing),
        _ => false,
    }
}

/// Returns whether the result at the offset of a source is as expected.
fn is_found(alloc: Global, src: &Src, row: &Row) -> bool {
    let (_, at, separation, wanted) = *row;
    if !src.text().is_char_boundary(at) {
        return false;
    }
    match separation {
        Some((n, ctx)) => is_wanted(&read_separation(alloc, src, at, n, ctx), wanted),
        None => is_wanted(&read_line_end(alloc, src, at), wanted),
    }
}

/// Returns whether the result for the row's text is as expected.
fn reads(alloc: Global, row: &Row) -> bool {
    match &Src::new(alloc, row.0) {
        Ok(src) => is_found(alloc, src, row),
        Err(AllocError) => false,
    }
}

#[test]
fn reads_separation_and_ends_of_lines(rt: HostRuntime) {
    for row in &ROWS {
        assert!(rt; reads(rt.alloc(), row), "{}", row.0);
    }
}
