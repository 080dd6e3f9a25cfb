//! A text with its lines, as the readers take it.
ghost use Rattle.std.specs.Prelude.{◌≡◌, ℕ, List, IfOk};
ghost use Rattle.std.specs.Str.{IsCharBoundary};
ghost use Rattle.yf_lines.specs.declared.line.Line.{Line};
ghost use Rattle.yf_lines.specs.Lines.{AreLines, PlaceOf};

use crate::place::Position;
use crate::table::LineTable;
use std::alloc::{AllocError, Global};
use std::marker::Model;

/// A text and the table of its lines. Contracts see the table.
#[derive(Drop)]
pub struct Src<'a> {
    table: LineTable<'a>,
}

impl<'a> Model for Src<'a> {
    ghost use Rattle.yf_lines.specs.Lines.{Table};

    ghost Value = { Table };

    ghost view = { λ s. s.table };
}

impl<'a> Src<'a> {
    /// Finds the lines of the text.
    ///
    /// # Errors
    ///
    /// Fails with `AllocError` if memory is refused, or if a line begins after byte 2^32 - 1 of the text.
    pub fn new(alloc: Global, text: &'a str) -> Result<Src<'a>, AllocError>
        ensures text { IfOk result (λ src. src.text ≡ text.now) }
        ensures lines { IfOk result (λ src. AreLines text.now src.lines) }
        ensures only { IfOk result (λ src. (ls : List Line) → AreLines text.now ls → ls ≡ src.lines) }
    {
        let table = LineTable::build(alloc, text)?;
        Ok(Src { table })
    }

    /// Returns the text.
    #[inline(always)]
    pub fn text(&self) -> &'a str
        ensures { result.now ≡ self.now.text }
    {
        self.table.text()
    }

    /// Returns the text's lines.
    #[inline(always)]
    pub fn lines(&self) -> &LineTable<'a>
        ensures { result.now ≡ self.now }
    {
        &self.table
    }

    /// Returns the position of the offset: its line and column, both from 1.
    pub fn place(&self, offset: usize) -> Position
        requires { IsCharBoundary self.now.text offset }
        ensures place { PlaceOf self.now.text offset result.line result.column }
        ensures only { (line column : ℕ) → PlaceOf self.now.text offset line column → (line ≡ result.line) × (column ≡ result.column) }
    {
        self.table.place(offset)
    }
}
