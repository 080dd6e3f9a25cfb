//! The two kinds of quotes.

/// The quotes of a quoted scalar (YAML 1.2.2, section 7.3).
#[derive(Clone, Copy)]
pub enum Quotes {
    /// `'`, without escapes.
    Single,
    /// `"`, with escapes for any character.
    Double,
}
