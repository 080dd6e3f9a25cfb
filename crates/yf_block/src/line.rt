//! Awaited nodes: after an indicator, or at the start of a line (s-l+block-node, production 196).
ghost use Rattle.std.specs.Prelude.{◌≡◌, ◌<◌, ◌≤◌, ℕ, IfOk, IfSome, ◌+◌, Some, true, false, ◌⊎◌, MatchBool, MatchOption};
ghost use Rattle.std.specs.Str.{IsCharBoundary};
ghost use Rattle.yf_chars.specs.Chain.{Chosen, Stuck};
ghost use Rattle.yf_chars.specs.Boundary.{BoundaryFrom};
ghost use Rattle.yf_comments.specs.Comments.{LineEnd};
ghost use Rattle.yf_grammar.specs.BlockReader.BlockParser.{DashAt};
ghost use Rattle.yf_block.specs.BlockStepTied.{AtNode, AtLine};
ghost use Rattle.yf_block.specs.ColumnsTied.{CompactTied, SequenceBegins, SequenceTied};
ghost use Rattle.yf_block.specs.Counted.{CountedAt};
ghost use Rattle.yf_block.specs.LineStepTied.{AtEmpty};
ghost use Rattle.yf_block.specs.LineTied.{AtBelow};
ghost use Rattle.yf_block.specs.Machine.{IsReaderReady};
ghost use Rattle.yf_block.specs.StepAnswers.{StepPromises};

use crate::content::NodeStart;
use crate::frame::{AwaitedNode, BlockContext, BlockCursor, BlockReader, CollectionKind, Step};
use crate::halt::note_empty;
use crate::look::{is_dash_at, line_ends, node_ends};
use std::alloc::{AllocError, Global};
use yf_chars::text::is_char_at;
use yf_comments::comments::Separation;
use yf_comments::lines::line_end;
use yf_events::event::ScalarStyle;
use yf_flow::node::{empty_node, push_scalar};
use yf_lines::basic::{skip_spaces, skip_whites};
use yf_lines::text::Text;

/// Reads the end of a line, and the comment lines after it (s-l-comments, production 79).
#[inline(always)]
pub(crate) fn read_line_end<'a>(
    alloc: Global,
    text: &'a str,
    at: usize,
) -> Result<Option<Separation<'a>>, AllocError>
    requires { IsCharBoundary text.now at }
    ensures place { IfOk result (λ o. IfSome o (λ p. BoundaryFrom text.now at p.end)) }
    ensures reads { IfOk result (λ o. MatchOption o (Stuck (LineEnd text.now at)) (λ p. Chosen (LineEnd text.now at) p.end p.comments)) }
{
    match line_end(alloc, text, at)? {
        Some(separation) => Ok(Some(separation)),
        None => Ok(None),
    }
}

impl<'a> BlockReader<'a> {
    /// Reads the end of a line and the comment lines after it, before an awaited node that may have properties.
    pub(crate) fn end_line(
        &mut self,
        scope: BlockContext<'a>,
        at: usize,
    ) -> Result<Step, AllocError>
        requires { IsReaderReady scope.text.now at self.old }
        ensures { StepPromises AtBelow CountedAt scope.entry at 2 self.old self.new result }
    {
        match read_line_end(scope.alloc, scope.text, at)? {
            Some(Separation { comments, end }) => {
                self.part.comments.append(comments)?;
                self.progress.from = at;
                self.progress.first = end == at;
                Ok(Step::Line(end))
            }
            None => Ok(Step::Failed(at)),
        }
    }

    /// Begins the node awaited after an indicator that ends at the offset.
    pub(crate) fn take_node(
        &mut self,
        scope: BlockContext<'a>,
        at: usize,
    ) -> Result<Step, AllocError>
        requires { IsReaderReady scope.text.now at self.old }
        ensures { StepPromises AtNode CountedAt scope.entry at 2 self.old self.new result }
    {
        let place = skip_whites(scope.text, at);
        if line_ends(scope.text, place, place > at) {
            return self.end_line(scope, at);
        }
        if place == at {
            return Ok(Step::Failed(place));
        }
        let column = compact_column(scope.text, at, place, &self.progress.wanted);
        match dashed_column(scope.text, place, column) {
            Some(dashed) => self.open_collection(scope, CollectionKind::Sequence, place, dashed),
            None => self.take_content(scope, NodeStart { at: place, column }),
        }
    }

    /// Begins the node awaited at the start of a line, if it has anything on that line.
    pub(crate) fn take_line(
        &mut self,
        scope: BlockContext<'a>,
        at: usize,
    ) -> Result<Step, AllocError>
        requires { IsReaderReady scope.text.now at self.old }
        ensures { StepPromises AtLine CountedAt scope.entry at 1 self.old self.new result }
    {
        let text = scope.text;
        note_empty(text, at, &mut self.progress, &self.frames);
        if node_ends(text, at) {
            return self.end_empty(scope, at);
        }
        let start = skip_spaces(text, at);
        let width = start - at;
        if sequence_begins(text, start, &self.progress.wanted, width) {
            return self.open_collection(scope, CollectionKind::Sequence, start, width);
        }
        if !may_begin(&self.progress, width) {
            return self.end_empty(scope, at);
        }
        let place = skip_whites(text, start);
        if place == text.len() {
            return self.end_empty(scope, at);
        }
        if is_char_at(text, place, b'#') {
            return Ok(Step::Failed(place));
        }
        let column = line_column(self.progress.wanted.least, width, start, place);
        self.take_content(scope, NodeStart { at: place, column })
    }

    // Ends a node awaited at a line that is empty or has only its properties. The outermost node may not be empty.
    fn end_empty(&mut self, scope: BlockContext<'a>, at: usize) -> Result<Step, AllocError>
        requires { IsReaderReady scope.text.now at self.old }
        ensures { StepPromises AtEmpty CountedAt scope.entry at 1 self.old self.new result }
    {
        match self.progress.wanted.outer {
            Some(properties) => {
                let lead = properties.lead(self.progress.wanted.entry);
                push_scalar(
                    scope.alloc,
                    &lead,
                    ScalarStyle::Plain,
                    Text::Part(""),
                    properties.end,
                    &mut self.part,
                )?;
                self.progress.last = properties.end;
            }
            None => {
                if self.frames.len() == 0 {
                    return Ok(Step::Failed(at));
                }
                let empty = empty_node(scope.alloc, self.progress.wanted.entry);
                self.part.events.push(empty)?;
            }
        }
        Ok(Step::Resume(at))
    }
}

// Returns the column of a sequence if its `-` is at the offset.
fn dashed_column(text: &str, at: usize, column: Option<usize>) -> Option<usize>
    ensures boundary { IfSome result (λ _. IsCharBoundary text.now (at + 1)) }
    ensures dash { MatchOption result ((m : ℕ) → column ≡ Some m → DashAt text.now at → ⊥) (λ m. (column ≡ Some m) × DashAt text.now at) }
{
    match column {
        None => None,
        Some(column) => {
            if is_dash_at(text, at) {
                return Some(column);
            }
            None
        }
    }
}

// Returns the column of a collection that may begin on the line of an indicator. The indicator ends at `at`, and only
// spaces are between.
fn compact_column(text: &str, at: usize, place: usize, wanted: &AwaitedNode) -> Option<usize>
    requires boundary { IsCharBoundary text.now at }
    requires order { at ≤ place }
    ensures { CompactTied text.now wanted.now at place result }
{
    if !wanted.compact {
        return None;
    }
    if skip_spaces(text, at) == place {
        return Some(wanted.least.saturating_add(place - at));
    }
    None
}

// Returns whether the awaited node may be a sequence of that column, and its `-` is at the offset.
fn sequence_begins(text: &str, at: usize, wanted: &AwaitedNode, width: usize) -> bool
    ensures boundary { result ≡ true → IsCharBoundary text.now (at + 1) }
    ensures dash { SequenceBegins text.now at wanted.now width result }
    ensures is_there { result ≡ true → DashAt text.now at }
{
    if is_dash_at(text, at) {
        return may_hold_sequence(wanted, width);
    }
    false
}

// Returns whether a sequence of that column may be the awaited node.
fn may_hold_sequence(wanted: &AwaitedNode, width: usize) -> bool
    ensures { SequenceTied wanted.now width result }
{
    if width >= wanted.least {
        return true;
    }
    if !wanted.out {
        return false;
    }
    if width.saturating_add(1) >= wanted.least {
        return true;
    }
    false
}

// Returns whether a line has the indentation it needs; the first line needs none.
fn may_begin(progress: &BlockCursor, width: usize) -> bool
    ensures { MatchBool result ((progress.now.wanted.least ≤ width) ⊎ (progress.now.first ≡ true))
        ((width < progress.now.wanted.least) × (progress.now.first ≡ false)) }
{
    if width >= progress.wanted.least {
        return true;
    }
    progress.first
}

// Returns the column of a mapping that may begin at the first character of a line, after `width` spaces.
fn line_column(least: usize, width: usize, start: usize, place: usize) -> Option<usize>
    ensures { MatchOption result (place ≡ start → least ≤ width → ⊥) (λ m. (m ≡ width) × (place ≡ start) × (least ≤ width)) }
{
    if place == start {
        if width >= least {
            return Some(width);
        }
    }
    None
}
