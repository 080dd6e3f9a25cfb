//! The form of hidden characters between quotes.

/// The form of hidden characters (those of `yf_chars::hidden`) in quoted scalars.
#[derive(Clone, Copy)]
pub enum Invisible {
    /// Unchanged, except those that double quotes always escape.
    Plain,
    /// As escapes, in double quotes.
    Escaped,
}
