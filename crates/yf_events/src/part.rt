//! The results of the readers of nodes.

use crate::comments::Comments;
use crate::events::Events;
use crate::values::Values;

/// One node: its events, its comments, and the byte offsets of its escapes that are not characters.
#[derive(Drop)]
pub struct Part<'a> {
    pub events: Events<'a>,
    pub comments: Comments<'a>,
    pub escapes: Values<usize>,
}
