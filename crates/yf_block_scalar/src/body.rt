//! The source form of a block scalar (YAML 1.2.2, section 8.1).
use crate::header::Header;
use crate::lines::Lines;
use yf_comments::comment::Comment;
use yf_comments::comments::Comments;

/// A block scalar in source form.
#[derive(Drop)]
pub struct BlockText<'a> {
    pub header: Header,
    /// The comment after the header.
    pub comment: Option<Comment<'a>>,
    /// The lines up to the last content line.
    pub lines: Lines<'a>,
    /// The number of empty lines after the last content line.
    pub tail: usize,
    /// Whether the last content line ends at the end of the text, without a break.
    pub open_end: bool,
    /// The comments of the comment lines after the tail.
    pub comments: Comments<'a>,
    /// The byte offset of the first line after the scalar and its comments.
    pub next: usize,
}
