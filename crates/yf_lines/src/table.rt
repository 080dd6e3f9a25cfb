//! The table of a text's lines.
ghost use Rattle.std.specs.Prelude.{◌≡◌, ◌↔◌, ◌≢◌, ◌+◌, ◌-◌, ◌<◌, ◌≤◌, ℕ, true, false, Some, List, [], ◌∷◌, length, slice_get, IfOk, IfSome, IsTrue, MatchBool};
ghost use Rattle.std.specs.Str.{IsCharBoundary};
ghost use Rattle.yf_chars.specs.Chain.{Many};
ghost use Rattle.yf_lines.specs.Basic.{LineStart, ForbiddenLine, Clear};
ghost use Rattle.yf_lines.specs.declared.line.Line.{Line};
ghost use Rattle.yf_lines.specs.Lines.{AreLines, IsLine, IsCutAt, OneLine, Apart, Marks, IsForbiddenLine, PlaceOf, ColumnOf, is_char};

use crate::basic::{is_mark_at, is_marker_at, line_break, next_break, skip_spaces};
use crate::line::Line;
use crate::packed_lines::{PackedLine, line_at, lines_begun, row_of};
use crate::place::Position;
use std::alloc::{AllocError, Global};
use std::marker::Model;
use yf_chars::text::peek;

/// A text and all its lines. Contracts see the text's bytes and the list of the lines.
#[derive(Drop)]
pub struct LineTable<'a> {
    text: &'a str,
    rows: Vec<PackedLine>,
}

impl<'a> Model for LineTable<'a> {
    ghost use Rattle.std.specs.Prelude.{length};
    ghost use Rattle.yf_lines.specs.Lines.{IsTable, Table};
    ghost use Rattle.yf_lines.specs.Rows.{lines_of};

    ghost Value = { Table };

    ghost view = { λ a. record { text = a.text.now; lines = lines_of a.text.now (length a.text.now) a.rows.items } };

    ghost invariant = { λ a. IsTable a.text.now (lines_of a.text.now (length a.text.now) a.rows.items) };
}

impl<'a> LineTable<'a> {
    /// Finds the lines of the text, in one pass.
    ///
    /// # Errors
    ///
    /// Fails with `AllocError` if memory is refused, or if a line begins after byte 2^32 - 1 of the text.
    pub fn build(alloc: Global, text: &'a str) -> Result<LineTable<'a>, AllocError>
        ensures text { IfOk result (λ table. table.text ≡ text.now) }
        ensures lines { IfOk result (λ table. AreLines text.now table.lines) }
        ensures only { IfOk result (λ table. (ls : List Line) → AreLines text.now ls → ls ≡ table.lines) }
    {
        let mut rows = Vec::new(alloc);
        let mut at = 0;
        while at < text.len() {
            let line = read_line(text, at);
            let row = row_of(line)?;
            rows.push(row)?;
            at = line.next;
        }
        Ok(LineTable { text, rows })
    }

    /// Returns the text of the table.
    #[inline(always)]
    pub fn text(&self) -> &'a str
        ensures { result.now ≡ self.now.text }
    {
        self.text
    }

    /// Returns the number of lines.
    #[inline(always)]
    pub fn len(&self) -> usize
        ensures count { result ≡ length self.now.lines }
        ensures lines { AreLines self.now.text self.now.lines }
    {
        self.rows.as_slice().len()
    }

    /// Returns whether the text is empty, and so has no lines.
    pub fn is_empty(&self) -> bool
        ensures { IsTrue result ↔ (self.now.lines ≡ []) }
    {
        self.len() == 0
    }

    /// Returns the line at an index, from 0.
    #[inline(always)]
    pub fn line(&self, i: usize) -> Line
        requires { i < length self.now.lines }
        ensures item { slice_get self.now.lines i ≡ Some result }
        ensures line { IsLine self.now.text result }
        ensures start { LineStart self.now.text result.start }
        ensures cut { IsCutAt self.now.text result }
        ensures lines { AreLines self.now.text self.now.lines }
    {
        line_at(self.text, self.rows.as_slice(), i)
    }

    /// Returns whether the line at an index is forbidden: it begins, after its byte order marks, with a document marker
    /// (c-forbidden, production 206).
    pub fn is_forbidden(&self, i: usize) -> bool
        requires { i < length self.now.lines }
        ensures line { IfSome (slice_get self.now.lines i)
            (λ l. MatchBool result (IsForbiddenLine self.now.text l.start) (IsForbiddenLine self.now.text l.start → ⊥)) }
        ensures within { IfSome (slice_get self.now.lines i)
            (λ l. MatchBool result ((h : ℕ) × (l.start ≤ h) × (h < l.next) × ForbiddenLine self.now.text h)
            (Clear self.now.text l.start l.next)) }
    {
        let start = self.line(i).start;
        is_forbidden_line(self.text, start)
    }

    /// Returns the position of the offset: its line and column, both from 1.
    ///
    /// A binary search finds the line. The column takes one pass over the characters of only that line.
    pub fn place(&self, offset: usize) -> Position
        requires { IsCharBoundary self.now.text offset }
        ensures place { PlaceOf self.now.text offset result.line result.column }
        ensures only { (line column : ℕ) → PlaceOf self.now.text offset line column → (line ≡ result.line) × (column ≡ result.column) }
    {
        let begun = lines_begun(self.rows.as_slice(), offset);
        if begun == 0 {
            return Position { line: 1, column: 1 };
        }
        let line = self.line(begun - 1);
        if line.end < line.next {
            if offset == line.next {
                return Position {
                    line: begun + 1,
                    column: 1,
                };
            }
        }
        Position {
            line: begun,
            column: column_in_line(self.text, line.start, offset),
        }
    }
}

// Returns the column of the offset, from 1, in the line that begins at `start`.
fn column_in_line(text: &str, start: usize, offset: usize) -> usize
    requires start { IsCharBoundary text.now start }
    requires offset { IsCharBoundary text.now offset }
    ensures { ColumnOf text.now start offset result }
{
    let at = skip_marks(text, start);
    if offset < at {
        return 1;
    }
    column_from(text, at, 1, offset)
}

/// Returns the column of the byte offset, counted on from an earlier offset in its line.
pub fn column_from(text: &str, from: usize, column: usize, offset: usize) -> usize
    requires from { IsCharBoundary text.now from }
    requires offset { IsCharBoundary text.now offset }
    requires order { from ≤ offset }
    requires room { column ≤ from + 1 }
    ensures characters { (x : List ℕ) × Many text.now is_char from offset x × (result ≡ column + length x) }
    ensures room { result ≤ offset + 1 }
{
    let mut at = from;
    let mut reached = column;
    while at < offset {
        match peek(text, at) {
            Some((_, next)) => {
                at = next;
                reached += 1;
            }
            None => unreachable!(),
        }
    }
    reached
}

// Returns whether the line that begins at the offset is forbidden.
fn is_forbidden_line(text: &str, start: usize) -> bool
    requires { IsCharBoundary text.now start }
    ensures { MatchBool result (IsForbiddenLine text.now start) (IsForbiddenLine text.now start → ⊥) }
{
    let at = skip_marks(text, start);
    is_marker_at(text, at)
}

/// Returns the offset after all byte order marks at the offset.
pub fn skip_marks(text: &str, at: usize) -> usize
    requires { IsCharBoundary text.now at }
    ensures marks { Marks text.now at result }
    ensures order { at ≤ result }
    ensures boundary { IsCharBoundary text.now result }
{
    let mut end = at;
    while is_mark_at(text, end) {
        end += 3;
    }
    end
}

// Returns the line that begins at the offset.
fn read_line(text: &str, start: usize) -> Line
    requires inside { start < length text.now }
    requires boundary { IsCharBoundary text.now start }
    requires apart { Apart text.now start }
    ensures line { OneLine text.now start result.next (result ∷ []) }
    ensures order { start < result.next }
    ensures boundary { IsCharBoundary text.now result.next }
    ensures apart { Apart text.now result.next }
{
    let past_spaces = skip_spaces(text, start);
    let indent = past_spaces - start;
    let end = next_break(text, past_spaces);
    match line_break(text, end) {
        Some(next) => Line {
            start,
            end,
            next,
            indent,
        },
        None => Line {
            start,
            end,
            next: end,
            indent,
        },
    }
}
