//! The cursor of a pass over the text.

use yf_lines::place::Position;

/// A cursor: the index of a line, from 0, and a byte offset after the line's byte order marks, with its column.
#[derive(Clone, Copy)]
pub struct Cursor {
    pub line: usize,
    pub at: usize,
    pub column: usize,
}

/// A position, and the cursor after it was found.
#[derive(Clone, Copy)]
pub struct Located {
    pub place: Position,
    pub cursor: Cursor,
}
