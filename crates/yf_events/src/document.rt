//! The documents of a stream (YAML 1.2.2, section 9.1).

use crate::directive::Directives;
use crate::values::Values;

/// The start of a document, and the directives before it.
#[derive(Drop)]
pub struct Doc<'a> {
    /// The byte offset of the `---`, or of the first character of content if there is none.
    pub start: usize,
    pub directives: Directives<'a>,
}

/// Documents in order.
pub type Documents<'a> = Values<Doc<'a>>;
