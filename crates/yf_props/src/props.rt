//! The properties of a node, as they are written.

/// The properties of a node (c-ns-properties, production 96); each may be missing.
#[derive(Clone, Copy)]
pub struct Props<'a> {
    /// The name after the `&`.
    pub anchor: Option<&'a str>,
    pub tag: Option<Tag<'a>>,
}

/// A tag as it is written (c-ns-tag-property, production 97).
#[derive(Clone, Copy)]
pub enum Tag<'a> {
    /// `!<..>`: the text between `<` and `>`.
    Verbatim(&'a str),
    /// A shorthand: its handle with the exclamation marks, and its suffix with the escapes as written.
    Short { handle: &'a str, suffix: &'a str },
    /// A single `!`.
    NonSpecific,
}
