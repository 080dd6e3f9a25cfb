//! The printed text, line by line. Columns count from 0.
ghost use Rattle.std.specs.Prelude.{◌≡◌, ◌++◌, ◌+◌, ◌≤◌, ◌&&◌, drop, length, map, Option, OnOk, IfOk};
ghost use Rattle.std.specs.String.{string_bytes};
ghost use Rattle.yf_comments.specs.Comment.{comment_value};
ghost use Rattle.yf_print.specs.Passes.Drafts as Drafts;
ghost use Rattle.yf_print.specs.Passes.Drafts.{between, blank_text, closed, draft, fresh, kept_column, line_column, met_lines, no_draft, opened, own_line, own_line_if, own_lines, remarks, with_blank, with_start, with_trail, without_blank};
ghost use Rattle.yf_forms.specs.Passes.Searches.{count_to};
ghost use Rattle.yf_events.specs.Tree.{starts_of_entry};
ghost use Rattle.yf_print.specs.Layouts.KeptColumns.{keeps_blocks};
ghost use Rattle.yf_print.specs.Layouts.Rows.{start_of};
ghost use Rattle.yf_print.specs.Passes.Pages.{work_on};
ghost use Rattle.yf_print.specs.Passes.PrintWork.{remarks_of};
ghost use Rattle.yf_events.specs.declared.reading.TheConstants.{LONGEST};

use crate::comment_texts::{push_after_space_if, push_comment};
use crate::open_blocks::{OpenBlock, OpenBlocks};
use crate::printer::PrintContext;
use crate::source_columns::{KnownLine, known_after, own_column, source_column};
use std::alloc::{AllocError, Global};
use yf_comments::comment::Comment;
use yf_events::event::Entry;
use yf_events::reading::Reading;
use yf_forms::form::comments_before::first_after;
use yf_forms::style::{CommentColumns, Style};
use yf_forms::text::block::push_spaces;
use yf_forms::text::limit::limited;
use yf_quoted::filled::push_if_filled;

/// The printed text and the current line. Comments that are met meanwhile go before that line.
///
/// A text of more than `LONGEST` bytes is refused when its next line begins, and so are the lines of a block scalar. So
/// an `Output` holds at most twice that and two lines. A line has at most `indent` bytes for each open collection, for
/// its column and its signs, and besides these a few bytes for each byte of the source on it: four if U+007F is written
/// as `\x7F`.
#[derive(Drop)]
pub struct Output {
    text: String,
    /// Whether a line is open, and its column.
    is_open: bool,
    column: usize,
    /// The text of the line, without its column.
    pub(crate) line: String,
    /// The comments that trail its leaves, as printed after its text.
    trails: String,
    /// The lines of a block scalar that begins in the line.
    pub(crate) body: String,
    /// Whether a blank line precedes the line's first entry.
    blank_before: bool,
    /// Whether a blank line may follow the line.
    may_follow: bool,
    /// How many comments were met, and how many of them were printed or trail.
    met: usize,
    passed: usize,
    /// Whether a blank line may follow the printed text.
    blank_may_follow: bool,
    /// The byte offset of the first item that was passed since the last line was printed.
    first: Option<usize>,
    /// If comments keep their blocks, the collections with an entry that begins on the line.
    starts: Vec<OpenBlock>,
    /// The source line of the last of these entries.
    known: KnownLine,
    /// Whether a leaf is on the line.
    has_leaf: bool,
    /// The open collections on the last printed line, and whether that line has no block scalar.
    chain: OpenBlocks,
    is_bodyless: bool,
}

/// Returns whether comments keep their blocks.
#[tactic(auto, unfolding(crate::specs::Layouts::KeptColumns::keeps_blocks))]
fn keeps(style: &Style) -> bool
    ensures { result ≡ keeps_blocks style.now }
{
    match style.comments {
        CommentColumns::Next => false,
        CommentColumns::Block => true,
    }
}

/// Returns whether the offset is before an item, or there is no item.
fn is_before(item: Option<usize>, offset: usize) -> bool
    ensures { result ≡ Drafts.is_before item offset }
{
    match item {
        Some(item) => offset < item,
        None => true,
    }
}

/// Appends a line feed if a blank line precedes the next line. Fails if the text has more than `LONGEST` bytes.
fn push_blank(out: &mut String, is_blank: bool) -> Result<(), AllocError>
    ensures { OnOk result (string_bytes out.new ≡ string_bytes out.old ++ blank_text is_blank) }
{
    limited(out.len())?;
    if is_blank {
        return out.push('\n');
    }
    Ok(())
}

impl Output {
    pub fn new(alloc: Global) -> Output
        ensures { draft result ≡ no_draft }
    {
        Output {
            text: String::new(alloc),
            is_open: false,
            column: 0,
            line: String::new(alloc),
            trails: String::new(alloc),
            body: String::new(alloc),
            blank_before: false,
            may_follow: false,
            met: 0,
            passed: 0,
            blank_may_follow: false,
            first: None,
            starts: Vec::new(alloc),
            known: KnownLine::TEXT,
            has_leaf: false,
            chain: OpenBlocks::new(alloc),
            is_bodyless: true,
        }
    }

    /// Passes all comments that begin before the byte offset.
    pub fn meet(&mut self, reading: &Reading, offset: usize)
        ensures { draft self.new ≡ Drafts.past reading.now.comments offset (draft self.old) }
    {
        self.met = first_after(reading.comments(), self.met, offset);
        if self.first.is_none() {
            self.first = Some(offset);
        }
    }

    /// Prints the current line, and begins the next one at that column.
    pub(crate) fn open_line(&mut self, page: &PrintContext, column: usize) -> Result<(), AllocError>
        ensures { OnOk result (draft self.new ≡ opened (remarks_of (work_on page.now)) column (draft self.old)) }
    {
        self.close_line(page)?;
        self.is_open = true;
        self.column = column;
        self.blank_before = false;
        self.may_follow = true;
        Ok(())
    }

    /// Begins an entry of a collection at that column on the line.
    pub(crate) fn mark_start(
        &mut self,
        page: &PrintContext,
        column: usize,
        is_item: bool,
        entry: Option<Entry>,
    ) -> Result<(), AllocError>
        ensures { OnOk result (draft self.new ≡ with_start (remarks_of (work_on page.now)) (start_of column is_item (starts_of_entry entry))
            (draft self.old)) }
    {
        if keeps(&page.plan.style) {
            return self.push_start(page.text, column, is_item, entry);
        }
        Ok(())
    }

    fn push_start(
        &mut self,
        text: &str,
        column: usize,
        is_item: bool,
        entry: Option<Entry>,
    ) -> Result<(), AllocError>
        ensures { OnOk result (draft self.new ≡ Drafts.with_block_start text.now (start_of column is_item (starts_of_entry entry)) (draft self.old)) }
    {
        self.known = known_after(text, self.known, entry);
        self.starts.push(OpenBlock {
            source: source_column(self.known, entry),
            printed: column,
            is_sequence: is_item,
        })?;
        Ok(())
    }

    /// Sets whether a blank line precedes the first entry of the line.
    pub fn set_blank_before(&mut self, blank_before: bool)
        ensures { draft self.new ≡ with_blank blank_before (draft self.old) }
    {
        self.blank_before = blank_before;
    }

    /// Forbids a blank line after the line.
    pub fn forbid_blank(&mut self)
        ensures { draft self.new ≡ without_blank (draft self.old) }
    {
        self.may_follow = false;
    }

    /// Adds the trailing comment of a leaf to the line, if there is one.
    #[inline(always)]
    pub fn add_trail(&mut self, reading: &Reading, comment: Option<usize>) -> Result<(), AllocError>
        ensures { OnOk result (draft self.new ≡ Drafts.with_trail reading.now.comments comment (draft self.old)) }
    {
        self.has_leaf = true;
        push_after_space_if(&mut self.trails, reading.comments(), comment)
    }

    /// Adds the trailing comment of a key to the text of the line, if there is one.
    pub fn add_key_trail(
        &mut self,
        reading: &Reading,
        comment: Option<usize>,
    ) -> Result<(), AllocError>
        ensures { OnOk result (draft self.new ≡ Drafts.with_key_trail reading.now.comments comment (draft self.old)) }
    {
        push_after_space_if(&mut self.line, reading.comments(), comment)
    }

    /// Prints the current line after the comments that were met before it.
    fn close_line(&mut self, page: &PrintContext) -> Result<(), AllocError>
        ensures { OnOk result (draft self.new ≡ closed (remarks_of (work_on page.now)) (draft self.old)) }
    {
        if self.is_open {
            self.push_own_lines(page, self.column)?;
            self.push_line()?;
        }
        Ok(())
    }

    /// Prints the current line.
    fn push_line(&mut self) -> Result<(), AllocError>
        ensures { OnOk result (draft self.new ≡ Drafts.with_line (draft self.old)) }
    {
        push_blank(&mut self.text, self.blank_before && self.blank_may_follow)?;
        push_spaces(&mut self.text, self.column)?;
        self.text.push_str(self.line.as_str())?;
        push_if_filled(&mut self.text, self.trails.as_str())?;
        self.text.push('\n')?;
        push_if_filled(&mut self.text, self.body.as_str())?;
        self.is_bodyless = self.body.as_str().is_empty();
        self.note_open()?;
        self.line.clear();
        self.trails.clear();
        self.body.clear();
        self.is_open = false;
        self.blank_may_follow = self.may_follow;
        self.first = None;
        Ok(())
    }

    /// Updates the collections that are open after the line.
    fn note_open(&mut self) -> Result<(), AllocError>
        ensures { OnOk result (draft self.new ≡ Drafts.with_open (draft self.old)) }
    {
        if self.starts.as_slice().is_empty() {
            if !self.has_leaf {
                self.chain.clear();
            }
        }
        self.chain.push_entries(self.starts.as_slice())?;
        self.starts.clear();
        self.known = KnownLine::TEXT;
        self.has_leaf = false;
        Ok(())
    }

    /// Prints the comments that were met and don't trail, each on a line of its own before a line at that column.
    #[inline(always)]
    fn push_own_lines(&mut self, page: &PrintContext, column: usize) -> Result<(), AllocError>
        ensures { OnOk result (draft self.new ≡ met_lines (remarks_of (work_on page.now)) column (draft self.old)) }
    {
        let comments = page.reading.comments();
        let end = self.met.min(comments.len());
        self.push_between(page, comments, column, self.passed, end)?;
        self.passed = self.met;
        Ok(())
    }

    /// Prints the comments between two indices that don't trail, each on a line of its own before a line at that
    /// column.
    #[inline(always)]
    fn push_between(
        &mut self,
        page: &PrintContext,
        comments: &[Comment],
        column: usize,
        first: usize,
        end: usize,
    ) -> Result<(), AllocError>
        requires { end ≤ length comments.now }
        ensures { OnOk result (draft self.new ≡ own_lines (work_on page.now).trailing (line_column (remarks_of (work_on page.now)) column (draft self.old)) first
            (between first end (map comment_value comments.now)) (draft self.old)) }
    {
        for k in first..end {
            let own = self.own_column(page, &comments[k], column)?;
            self.push_own_line(&comments[k], page.plan.trails.is_trailing(k), own)?;
        }
        Ok(())
    }

    /// Returns the column of a comment on a line of its own before a line at that column.
    fn own_column(
        &self,
        page: &PrintContext,
        comment: &Comment,
        column: usize,
    ) -> Result<usize, AllocError>
        ensures { IfOk result (λ own. own ≡ line_column (remarks_of (work_on page.now)) column (draft self.now) (comment_value comment.now)) }
    {
        if keeps(&page.plan.style) {
            return self.kept_column(page, comment.offset, column);
        }
        Ok(column)
    }

    fn kept_column(
        &self,
        page: &PrintContext,
        offset: usize,
        column: usize,
    ) -> Result<usize, AllocError>
        ensures { IfOk result (λ kept. kept ≡ Drafts.column_kept (remarks_of (work_on page.now)) column (draft self.now) offset) }
    {
        if !is_before(self.first, offset) {
            return Ok(column);
        }
        match own_column(page.text, offset) {
            Some(own) => self.chain.column_in(
                page.plan.style.indent,
                self.is_bodyless,
                column,
                own,
                self.starts.as_slice(),
                self.has_leaf,
            ),
            None => Ok(column),
        }
    }

    /// Prints a comment that doesn't trail, on a line of its own at that column.
    fn push_own_line(
        &mut self,
        comment: &Comment,
        is_trailing: bool,
        column: usize,
    ) -> Result<(), AllocError>
        ensures { OnOk result (draft self.new ≡ own_line_if is_trailing column (comment_value comment.now) (draft self.old)) }
    {
        if !is_trailing {
            push_blank(
                &mut self.text,
                comment.blank_before && self.blank_may_follow,
            )?;
            push_spaces(&mut self.text, column)?;
            push_comment(&mut self.text, comment)?;
            self.text.push('\n')?;
            self.blank_may_follow = true;
        }
        Ok(())
    }

    /// Prints the last line and the remaining comments, and returns the whole text. Fails if the text has more than
    /// `LONGEST` bytes.
    pub(crate) fn finish(mut self, page: &PrintContext) -> Result<String, AllocError>
        ensures finished { IfOk result (λ text. string_bytes text ≡ Drafts.finished (remarks_of (work_on page.now)) (draft self)) }
        ensures within { IfOk result (λ text. length (string_bytes text) ≤ LONGEST) }
    {
        self.close_line(page)?;
        self.met = page.reading.comments().len();
        self.push_own_lines(page, 0)?;
        limited(self.text.len())?;
        let Output { text, .. } = self;
        Ok(text)
    }
}
