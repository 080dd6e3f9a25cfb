//! Block scalars as nodes (YAML 1.2.2, section 8.1).
ghost use Rattle.std.specs.Prelude.{◌≡◌, IfOk, IfSome, MatchBool, MatchOption, ℤ, pos, ◌+ℤ◌, ◌+◌, ◌≤◌, ◌≤ℤ◌, length, ◌^◌, ◌<◌, ◌++◌, ◌∷◌, [], Ok};
ghost use Rattle.std.specs.Str.{IsCharBoundary};
ghost use Rattle.yf_chars.specs.Chain.{Chosen, Stuck};
ghost use Rattle.yf_chars.specs.Boundary.{BoundaryFrom};
ghost use Rattle.yf_lines.specs.Basic.{LineStart};
ghost use Rattle.yf_comments.specs.Comment.{row_comments};
ghost use Rattle.yf_block_scalar.specs.Body.{Body, body_value};
ghost use Rattle.yf_grammar.specs.Productions.BlockScalar.{kept_lines as kept_of, reach as reach_of, style_of as style_by};
ghost use Rattle.yf_block.specs.ContentTied.{ScalarSignAt};
ghost use Rattle.yf_block.specs.Counted.{CountedAt};
ghost use Rattle.yf_block.specs.Machine.{IsReaderReady};
ghost use Rattle.yf_block.specs.ScalarTied.{AtBody, AtHeader, scalar_event};
ghost use Rattle.yf_block.specs.StepAnswers.{StepPromises};

use crate::frame::{BlockContext, BlockReader, Step};
use crate::halt::note_node;
use crate::inline::flow_indentation;
use crate::look::skip_lines;
use std::alloc::{AllocError, Global};
use yf_block_scalar::body::BlockText;
use yf_block_scalar::content::content;
use yf_block_scalar::header::{Chomp, Header};
use yf_block_scalar::header_reader::{HeaderLine, block_header};
use yf_block_scalar::lines::Lines;
use yf_block_scalar::reader::block_body;
use yf_chars::text::is_char_at;
use yf_comments::comment::Comment;
use yf_comments::comments::Comments;
use yf_events::event::{NewEvent, PlacedEvent, ScalarStyle, Span};
use yf_events::part::Part;
use yf_events::slices::Slices;
use yf_flow::node::Lead;
use yf_lines::text::{OwnedText, Text};

impl<'a> BlockReader<'a> {
    /// Reads the block scalar that begins with the `|` or `>` at an offset (s-l+block-scalar, production 199).
    #[inline(never)]
    pub(crate) fn take_block_scalar(
        &mut self,
        scope: BlockContext<'a>,
        at: usize,
        lead: &Lead<'a>,
    ) -> Result<Step, AllocError>
        requires { IsReaderReady scope.text.now at self.old }
        ensures { StepPromises (AtHeader lead.now) CountedAt scope.entry at 0 self.old self.new result }
    {
        match block_header(scope.text, at) {
            None => Ok(Step::Failed(at)),
            Some(
                HeaderLine {
                    header,
                    comment,
                    end,
                },
            ) => {
                push_comment(comment, &mut self.part)?;
                match read_lines(scope, end, self.progress.wanted.least, header)? {
                    None => Ok(Step::Failed(end)),
                    Some(block) => self.take_body(scope, end, lead, block),
                }
            }
        }
    }

    // Adds a block scalar after its lines have been read. They begin at the offset.
    fn take_body(
        &mut self,
        scope: BlockContext<'a>,
        at: usize,
        lead: &Lead<'a>,
        block: BlockText<'a>,
    ) -> Result<Step, AllocError>
        requires standing { IsReaderReady scope.text.now at self.old }
        requires next { BoundaryFrom scope.text.now at block.next }
        ensures { StepPromises (AtBody lead.now block.entry) CountedAt scope.entry at 1 self.old self.new result }
    {
        let text = scope.text;
        let finish = skip_lines(text, at, reach(&block));
        let next = block.next;
        let pushed = push_block(scope.alloc, lead, &block, finish, &mut self.part);
        let BlockText { comments, .. } = block;
        match add_comments(pushed, comments, &mut self.part) {
            Ok(()) => {
                self.progress.last = finish;
                self.progress.floor = finish;
                note_node(text, None, next, next, &mut self.progress, &self.frames);
                Ok(Step::Resume(next))
            }
            Err(refused) => Err(refused),
        }
    }
}

/// Returns whether the header of a block scalar begins there.
pub(crate) fn is_block_scalar_at(text: &str, at: usize) -> bool
    ensures { MatchBool result (ScalarSignAt text.now at) (ScalarSignAt text.now at → ⊥) }
{
    if is_char_at(text, at, b'|') {
        return true;
    }
    is_char_at(text, at, b'>')
}

// Adds the comment after a header.
fn push_comment<'a>(comment: Option<Comment<'a>>, part: &mut Part<'a>) -> Result<(), AllocError>
    ensures events { IfOk result (λ _. part.new.events ≡ part.old.events) }
    ensures comments { IfOk result (λ _. part.new.comments ≡ part.old.comments ++ row_comments comment.entry) }
    ensures escapes { IfOk result (λ _. part.new.escapes ≡ part.old.escapes) }
{
    match comment {
        Some(comment) => part.comments.push(comment)?,
        None => {}
    }
    Ok(())
}

// Reads the lines of a block scalar after its header, which ends at the offset. The lines of the node have at least
// `least` spaces.
fn read_lines<'a>(
    scope: BlockContext<'a>,
    at: usize,
    least: usize,
    header: Header,
) -> Result<Option<BlockText<'a>>, AllocError>
    requires boundary { IsCharBoundary scope.text.now at }
    requires starts { at < length scope.text.now → LineStart scope.text.now at }
    ensures place { IfOk result (λ o. IfSome o (λ b. BoundaryFrom scope.entry.text.now at b.next)) }
    ensures reads { least ≤ 2 ^ 30 + 1 → (n : ℤ) → pos least ≡ n +ℤ pos 1
        → IfOk result (λ o. MatchOption o (Stuck (Body scope.entry.text.now n header at))
        (λ b. (b.header ≡ header) × Chosen (Body scope.entry.text.now n header at) b.next (body_value b))) }
{
    match block_body(
        scope.alloc,
        scope.text,
        at,
        outer_indentation(least),
        header,
    )? {
        Some(block) => Ok(Some(block)),
        None => Ok(None),
    }
}

// Returns the indentation of the collection around a node with lines of at least `least` spaces.
fn outer_indentation(least: usize) -> i32
    ensures same { least ≤ 2 ^ 30 + 1 → pos least ≡ result +ℤ pos 1 }
    ensures upper { result ≤ℤ pos (2 ^ 30) }
{
    flow_indentation(least) - 1
}

// Returns the number of lines of a scalar after its header: up to its last content line, or through its kept tail.
fn reach(block: &BlockText) -> usize
    ensures { length block.now.lines + block.now.tail < 2 ^ 64
        → result ≡ reach_of block.now.header.chomp (length block.now.lines) block.now.tail }
{
    match block.header.chomp {
        Chomp::Strip | Chomp::Clip => block.lines.len(),
        Chomp::Keep => block.lines.len().saturating_add(block.tail),
    }
}

// Adds the event of a block scalar that ends at an offset.
fn push_block<'a>(
    alloc: Global,
    lead: &Lead<'a>,
    block: &BlockText<'a>,
    finish: usize,
    part: &mut Part<'a>,
) -> Result<(), AllocError>
    ensures events { IfOk result (λ _. part.new.events ≡ part.old.events ++ scalar_event lead.now block.now finish ∷ []) }
    ensures comments { part.new.comments ≡ part.old.comments }
    ensures escapes { part.new.escapes ≡ part.old.escapes }
{
    let text = match content(alloc, block) {
        Ok(text) => Text::Owned(OwnedText::new(text)),
        Err(_refused) => return Err(AllocError),
    };
    let style = style_of(block.header.folded);
    let folded = kept_lines(alloc, block.header.folded, &block.lines)?;
    part.events.push(PlacedEvent {
        event: NewEvent::Scalar {
            props: lead.props,
            style,
            text,
        },
        span: Some(Span {
            start: lead.start,
            end: finish,
        }),
        tag_offset: lead.tag_offset,
        entry: lead.entry,
        folded,
    })
}

// Adds comments after an event, if the event could be added.
fn add_comments<'a>(
    pushed: Result<(), AllocError>,
    comments: Comments<'a>,
    part: &mut Part<'a>,
) -> Result<(), AllocError>
    ensures pushed { IfOk result (λ _. pushed ≡ Ok tt) }
    ensures events { part.new.events ≡ part.old.events }
    ensures comments { IfOk result (λ _. part.new.comments ≡ part.old.comments ++ comments.entry) }
    ensures escapes { part.new.escapes ≡ part.old.escapes }
{
    match pushed {
        Ok(()) => part.comments.append(comments),
        Err(refused) => Err(refused),
    }
}

fn style_of(folded: bool) -> ScalarStyle
    ensures { result ≡ style_by folded }
{
    if folded {
        return ScalarStyle::Folded;
    }
    ScalarStyle::Literal
}

// Returns the lines that are kept of a folded scalar.
fn kept_lines<'a>(alloc: Global, folded: bool, lines: &Lines<'a>) -> Result<Slices<'a>, AllocError>
    ensures { IfOk result (λ s. s ≡ kept_of folded lines.now) }
{
    let mut kept = Slices::new(alloc);
    if !folded {
        return Ok(kept);
    }
    for line in lines.as_slice() {
        kept.push(line)?;
    }
    Ok(kept)
}
