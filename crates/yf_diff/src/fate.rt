//! What an edit does with a line.

/// A line of the old text is kept or dropped, or a line of the new text is added.
#[derive(Clone, Copy)]
pub enum Fate {
    Kept,
    Dropped,
    Added,
}
