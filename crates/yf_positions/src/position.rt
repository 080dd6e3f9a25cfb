//! Positions and ranges.

/// A position between two characters of a document, or at an end of a line (`Position` of LSP 3.17).
#[derive(Clone, Copy)]
pub struct LspPosition {
    /// The line, from 0.
    pub line: usize,
    /// The units of the line before the position, in the encoding that client and server agreed on.
    pub character: usize,
}

/// The part of a document from one position to another (`Range` of LSP 3.17).
#[derive(Clone, Copy)]
pub struct LspRange {
    pub start: LspPosition,
    pub end: LspPosition,
}
