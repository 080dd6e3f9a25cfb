//! One comment of a text.

/// A comment (c-nb-comment-text, production 75): its text from the `#` on, without the line break after it.
#[derive(Clone, Copy)]
pub struct Comment<'a> {
    pub text: &'a str,
    /// The byte offset of the `#`.
    pub offset: usize,
    /// Whether a line with only white space is before the comment, with only white space, line breaks and byte order
    /// marks between.
    pub blank_before: bool,
}
