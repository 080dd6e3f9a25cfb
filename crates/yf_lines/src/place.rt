//! A position in a text.

/// A position in a text: line and column, both from 1, in characters. Columns don't count byte order marks at the start
/// of a line.
#[derive(Clone, Copy, Debug, PartialEq, Eq)]
pub struct Position {
    pub line: usize,
    pub column: usize,
}

/// The name of `Position` in earlier versions.
pub type Place = Position;
