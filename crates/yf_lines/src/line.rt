//! A line of a text.

/// A line of a text, as byte offsets: its start, its end before its break, and the start of the next line; and the
/// number of spaces that begin it.
///
/// A line that ends with the text and not with a break has `next` equal to `end`.
#[derive(Clone, Copy)]
pub struct Line {
    pub start: usize,
    pub end: usize,
    pub next: usize,
    pub indent: usize,
}
