//! Lines of a text by their numbers.

/// Lines of a text by their numbers, from 1: all from `first` to `last`, and none if `last` is less than `first`.
#[derive(Clone, Copy)]
pub struct LineRange {
    /// The number of the first line.
    pub first: usize,
    /// The number of the last line.
    pub last: usize,
}
