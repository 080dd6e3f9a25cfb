//! A document of an editor: its text, and the starts of its lines.
ghost use Rattle.std.specs.Prelude.{◌≡◌, ◌↔◌, ◌<◌, ◌≤◌, ◌++◌, length, take, drop, IfOk, IsErrOf, string_bytes};
ghost use Rattle.std.specs.Str.{IsCharBoundary};
ghost use Rattle.yf_positions.specs.Changes.{all_changed, changed, changed_in};
ghost use Rattle.yf_positions.specs.Lines.{line_count, line_of};
ghost use Rattle.yf_positions.specs.Offsets.{offset_of, position_of};

use crate::change::{ChangeError, ContentChange};
use crate::columns::{character_start, column_at, offset_in};
use crate::encoding::Encoding;
use crate::line_starts::{line_at, line_start, line_starts};
use crate::position::{LspPosition, LspRange};
use std::alloc::{AllocError, Global};
use std::marker::Model;

/// The text of a document and the offsets at which its lines begin. A contract sees the bytes of the text.
#[derive(Drop)]
pub struct Document {
    text: String,
    starts: Vec<usize>,
}

impl Model for Document {
    ghost use Rattle.std.specs.Prelude.{List, ℕ, string_bytes};
    ghost use Rattle.yf_positions.specs.Lines.{AreLineStarts};

    ghost Value = { List ℕ };

    ghost view = { λ document. string_bytes document.text };

    ghost invariant = { λ document. AreLineStarts document.starts.items (string_bytes document.text) };
}

/// Returns the text with a new part from one offset to another.
fn replaced(
    alloc: Global,
    text: &str,
    start: usize,
    end: usize,
    new: &str,
) -> Result<String, AllocError>
    requires order { start ≤ end }
    requires start { IsCharBoundary text.now start }
    requires end { IsCharBoundary text.now end }
    ensures { IfOk result (λ s. string_bytes s ≡ take start text.now ++ (new.now ++ drop end text.now)) }
{
    let size = text.len().saturating_add(new.len());
    let mut whole = String::with_capacity(alloc, size)?;
    whole.push_str(&text[..start])?;
    whole.push_str(new)?;
    whole.push_str(&text[end..])?;
    Ok(whole)
}

impl Document {
    /// Finds the lines of the text, in one pass.
    ///
    /// # Errors
    ///
    /// `AllocError` if memory is refused.
    pub fn new(alloc: Global, text: String) -> Result<Document, AllocError>
        ensures { IfOk result (λ document. document ≡ string_bytes text) }
    {
        let starts = line_starts(alloc, text.as_bytes())?;
        Ok(Document { text, starts })
    }

    /// Returns the text.
    pub fn text(&self) -> &str
        ensures { result.now ≡ self.now }
    {
        self.text.as_str()
    }

    /// Returns the number of lines. The text after the last line break is a line, even if it is empty.
    pub fn line_count(&self) -> usize
        ensures { result ≡ line_count self.now }
    {
        self.starts.len()
    }

    /// Returns the line of a byte offset, from 0. An offset after the end of the text has the line of the end.
    pub fn line_of(&self, offset: usize) -> usize
        ensures exact { result ≡ line_of self.now offset }
        ensures bound { result < line_count self.now }
    {
        let bytes = self.text.as_bytes();
        line_at(self.starts.as_slice(), bytes, offset.min(bytes.len()))
    }

    /// Returns the byte offset of a position.
    ///
    /// A position after the end of its line is the line's end. A position inside a character, as between the two
    /// UTF-16 code units of a surrogate pair, is the character's start. A position in a line that the text does not
    /// have is the end of the text.
    pub fn offset_of(&self, position: LspPosition, encoding: Encoding) -> usize
        ensures exact { result ≡ offset_of encoding self.now position }
        ensures boundary { IsCharBoundary self.now result }
    {
        let bytes = self.text.as_bytes();
        let start = line_start(self.starts.as_slice(), bytes, position.line);
        offset_in(bytes, start, position.character, encoding)
    }

    /// Returns the position of a byte offset.
    ///
    /// An offset inside a character has the position of the character's start, one between the CR and the LF of a CR LF
    /// that of the line's end, and one after the end of the text that of the end.
    pub fn position_of(&self, offset: usize, encoding: Encoding) -> LspPosition
        ensures { result ≡ position_of encoding self.now offset }
    {
        let text = self.text.as_str();
        let bytes = text.as_bytes();
        let at = character_start(bytes, offset.min(bytes.len()));
        let line = line_at(self.starts.as_slice(), bytes, at);
        let start = line_start(self.starts.as_slice(), bytes, line);
        LspPosition {
            line,
            character: column_at(text, start, at, encoding),
        }
    }

    /// Returns the text after a change of a range.
    fn with_range(
        &self,
        alloc: Global,
        range: LspRange,
        new: &str,
        encoding: Encoding,
    ) -> Result<String, ChangeError>
        ensures done { IfOk result
            (λ text. changed_in encoding self.now (Some range) new.now ≡ Some (string_bytes text)) }
        ensures reversed { IsErrOf result ChangeError.ReversedRange
            ↔ (changed_in encoding self.now (Some range) new.now ≡ None) }
    {
        let start = self.offset_of(range.start, encoding);
        let end = self.offset_of(range.end, encoding);
        if end < start {
            return Err(ChangeError::ReversedRange);
        }
        let text = replaced(alloc, self.text(), start, end, new)?;
        Ok(text)
    }

    /// Returns the text after one change.
    fn changed_text(
        &self,
        alloc: Global,
        change: &ContentChange<'_>,
        encoding: Encoding,
    ) -> Result<String, ChangeError>
        ensures done { IfOk result (λ text. changed encoding self.now change.now ≡ Some (string_bytes text)) }
        ensures reversed { IsErrOf result ChangeError.ReversedRange ↔ (changed encoding self.now change.now ≡ None) }
    {
        match change.range {
            None => {
                let text = String::from_str(alloc, change.text)?;
                Ok(text)
            }
            Some(range) => self.with_range(alloc, range, change.text, encoding),
        }
    }

    /// Returns the document after one change.
    fn after_change(
        &self,
        alloc: Global,
        change: &ContentChange<'_>,
        encoding: Encoding,
    ) -> Result<Document, ChangeError>
        ensures done { IfOk result (λ document. changed encoding self.now change.now ≡ Some document) }
        ensures reversed { IsErrOf result ChangeError.ReversedRange → changed encoding self.now change.now ≡ None }
    {
        let text = self.changed_text(alloc, change, encoding)?;
        let document = Document::new(alloc, text)?;
        Ok(document)
    }

    /// Returns a document with the text of this one.
    fn copy(&self, alloc: Global) -> Result<Document, AllocError>
        ensures { IfOk result (λ document. document ≡ self.now) }
    {
        let text = String::from_str(alloc, self.text())?;
        Document::new(alloc, text)
    }

    /// Returns the document after all changes, in order; each refers to the text after the one before it.
    ///
    /// # Errors
    ///
    /// `ChangeError::ReversedRange` if the range of a change ends before it starts, and `ChangeError::Memory` if memory
    /// is refused. This document is unchanged.
    pub fn after_changes(
        &self,
        alloc: Global,
        changes: &[ContentChange<'_>],
        encoding: Encoding,
    ) -> Result<Document, ChangeError>
        ensures done { IfOk result (λ document. all_changed encoding self.now changes.now ≡ Some document) }
        ensures reversed { IsErrOf result ChangeError.ReversedRange → all_changed encoding self.now changes.now ≡ None }
    {
        if changes.is_empty() {
            let document = self.copy(alloc)?;
            return Ok(document);
        }
        let mut document = self.after_change(alloc, &changes[0], encoding)?;
        for change in &changes[1..] {
            document = document.after_change(alloc, change, encoding)?;
        }
        Ok(document)
    }
}
