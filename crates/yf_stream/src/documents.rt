//! The documents of a stream (YAML 1.2.2, section 9.1): their starts and their ends. Offsets count bytes.
ghost use Rattle.std.specs.Prelude.{◌≡◌, ◌+◌, ◌<◌, ◌≤◌, ◌^◌, [], true, false, length, not, IfOk, IfSome, MatchBool, MatchOption};
ghost use Rattle.std.specs.Str.{IsCharBoundary};
ghost use Rattle.yf_events.specs.Event.{new_event_value};
ghost use Rattle.yf_stream.specs.DocumentReaders.{IsMarker, closed, opened, with_event};
ghost use Rattle.yf_chars.specs.Text.{code};
ghost use Rattle.yf_lines.specs.Basic.{ForbiddenLine};
ghost use Rattle.yf_stream.specs.DocumentSteps.{BareRead, EmptyAdded, FoundRead, MarkedRead, NextRead, NothingAt, RootRead, SomethingBegins};
ghost use Rattle.yf_stream.specs.RefusalPlaces.{DirectivesAt};
ghost use Rattle.yf_stream.specs.DerivedParts.{no_parts};
ghost use Rattle.yf_stream.specs.PartsPlaces.{PartsAt};
ghost use Rattle.yf_stream.specs.ReaderSteps.{NextAt};

use crate::between::read_suffix;
use crate::directives::{DirectiveLines, read_directives};
use std::alloc::{AllocError, Global};
use yf_block::look::node_ends;
use yf_block::nodes::{BlockOutcome, FoundBlock, block_node_in};
use yf_chars::context::Ctx;
use yf_chars::text::is_char_at;
use yf_comments::comments::{Comments, Separation};
use yf_comments::lines::line_end;
use yf_events::directive::Directives;
use yf_events::document::{Doc, Documents};
use yf_events::event::{NewEvent, PlacedEvent, ScalarStyle};
use yf_events::events::Events;
use yf_events::part::Part;
use yf_events::reading::DEPTH;
use yf_events::slices::Slices;
use yf_events::values::Values;
use yf_lines::basic::{is_forbidden_at, skip_whites};
use yf_lines::text::Text;
use yf_props::props::Props;

/// The text that is read, and the allocator for its parts.
#[derive(Clone, Copy)]
pub(crate) struct StreamContext<'a> {
    pub(crate) alloc: Global,
    pub(crate) text: &'a str,
}

/// How far the stream has been read.
#[derive(Clone, Copy)]
pub(crate) struct StreamCursor {
    /// The byte offset of the next line.
    pub(crate) at: usize,
    /// The lines of a block scalar before this offset are no blank lines.
    pub(crate) floor: usize,
    /// The furthest offset at which the reading of the last node went wrong, or the end of the node.
    pub(crate) reached: usize,
    /// Whether a document may begin here without `---`, or with directives. It may if the events have the end of each
    /// document that has been read.
    pub(crate) may_be_bare: bool,
}

impl StreamCursor {
    // Returns the cursor after a document's node. Another document needs a `---`, or a `...` before it.
    fn cursor_after(at: usize, floor: usize, reached: usize) -> StreamCursor
        ensures at { result.at ≡ at }
        ensures floor { result.floor ≡ floor }
        ensures reached { result.reached ≡ reached }
        ensures bare { result.may_be_bare ≡ false }
    {
        StreamCursor {
            at,
            floor,
            reached,
            may_be_bare: false,
        }
    }
}

/// The parts of a stream that have been read so far, in text order.
#[derive(Drop)]
pub(crate) struct Parts<'a> {
    /// The events and comments of the stream, and its escapes that are no character.
    pub(crate) part: Part<'a>,
    pub(crate) documents: Documents<'a>,
}

/// The result of a step of the reader.
#[derive(Clone, Copy)]
pub(crate) enum StreamStep {
    Go(StreamCursor),
    /// No stream is derived; the reading went wrong at the byte offset.
    Syntax(usize),
    /// The text passes the limit of open collections at the byte offset.
    TooDeep(usize),
}

// A document marker.
#[derive(Clone, Copy)]
enum Marker {
    // `---` (c-directives-end, production 203).
    DocumentStart,
    // `...` (c-document-end, production 204).
    DocumentEnd,
}

impl<'a> Parts<'a> {
    pub(crate) fn new(alloc: Global) -> Parts<'a>
        ensures nothing { result ≡ no_parts }
        ensures escapes { result.part.escapes ≡ [] }
        ensures documents { result.documents ≡ [] }
    {
        Parts {
            part: Part {
                events: Events::new(alloc),
                comments: Comments::new(alloc),
                escapes: Values::new(alloc),
            },
            documents: Documents::new(alloc),
        }
    }

    /// Adds an event without a span.
    pub(crate) fn push_unplaced(
        &mut self,
        alloc: Global,
        event: NewEvent<'a>,
    ) -> Result<(), AllocError>
        ensures documents { IfOk result (λ _. self.new.documents ≡ self.old.documents) }
        ensures parts { IfOk result (λ _. self.new ≡ with_event self.old (new_event_value event.entry)) }
        ensures escapes { IfOk result (λ _. self.new.part.escapes ≡ self.old.part.escapes) }
    {
        self.part.events.push(PlacedEvent {
            event,
            span: None,
            tag_offset: None,
            entry: None,
            folded: Slices::new(alloc),
        })
    }

    /// Adds the end of the open document, if one is open.
    pub(crate) fn close(
        &mut self,
        alloc: Global,
        cursor: StreamCursor,
        explicit: bool,
    ) -> Result<(), AllocError>
        ensures documents { IfOk result (λ _. self.new.documents ≡ self.old.documents) }
        ensures parts { IfOk result (λ _. self.new ≡ closed explicit (not cursor.may_be_bare) self.old) }
        ensures escapes { IfOk result (λ _. self.new.part.escapes ≡ self.old.part.escapes) }
    {
        if cursor.may_be_bare {
            return Ok(());
        }
        self.push_unplaced(alloc, NewEvent::DocEnd { explicit })
    }

    // Adds the start of a document.
    fn open(
        &mut self,
        alloc: Global,
        start: usize,
        explicit: bool,
        directives: Directives<'a>,
    ) -> Result<(), AllocError>
        ensures parts { IfOk result (λ _. self.new ≡ opened start explicit directives.entry self.old) }
        ensures escapes { IfOk result (λ _. self.new.part.escapes ≡ self.old.part.escapes) }
    {
        self.push_unplaced(alloc, NewEvent::DocStart { explicit })?;
        self.documents.push(Doc { start, directives })
    }

    /// Reads the document with its directives, or the `...`, at the offset. The caller has passed all comment lines
    /// before it, and the text does not end there.
    pub(crate) fn read_next(
        &mut self,
        source: StreamContext<'a>,
        cursor: StreamCursor,
    ) -> Result<StreamStep, AllocError>
        requires boundary { IsCharBoundary source.text.now cursor.at }
        requires reached { IsCharBoundary source.text.now cursor.reached }
        requires parts { PartsAt source.text.now self.old }
        ensures reads { length source.entry.text.now ≤ 2 ^ 30
            → IfOk result (λ next. NextRead source.entry.text.now cursor self.old self.new next) }
        ensures next { IfOk result (λ next. NextAt source.entry.text.now (cursor.at + 1) next) }
        ensures parts { IfOk result (λ _. PartsAt source.entry.text.now self.new) }
    {
        match marker_at(source.text, cursor.at) {
            Some(Marker::DocumentEnd) => return read_suffix(source, cursor, self),
            Some(Marker::DocumentStart) => {
                self.close(source.alloc, cursor, false)?;
                return self.explicit_document(source, cursor.at, Directives::new(source.alloc));
            }
            None => {}
        }
        if !cursor.may_be_bare {
            return Ok(StreamStep::Syntax(cursor.reached.max(cursor.at)));
        }
        if is_char_at(source.text, cursor.at, b'%') {
            return self.directive_document(source, cursor);
        }
        // A document without `---` (l-bare-document, production 207).
        let start = skip_whites(source.text, cursor.at);
        self.open(source.alloc, start, false, Directives::new(source.alloc))?;
        self.root_node(source, cursor.at)
    }

    // Reads directives and the document after them (l-directive-document, production 209).
    fn directive_document(
        &mut self,
        source: StreamContext<'a>,
        cursor: StreamCursor,
    ) -> Result<StreamStep, AllocError>
        requires boundary { IsCharBoundary source.text.now cursor.at }
        requires percent { code source.text.now cursor.at ≡ 37 }
        requires bare { cursor.may_be_bare ≡ true }
        requires parts { PartsAt source.text.now self.old }
        ensures reads { length source.entry.text.now ≤ 2 ^ 30
            → IfOk result (λ next. NextRead source.entry.text.now cursor self.old self.new next) }
        ensures next { IfOk result (λ next. NextAt source.entry.text.now (cursor.at + 1) next) }
        ensures parts { IfOk result (λ _. PartsAt source.entry.text.now self.new) }
    {
        match read_directives(
            source.alloc,
            source.text,
            cursor.at,
            &mut self.part.comments,
        )? {
            Ok(DirectiveLines { directives, end }) => {
                if has_dashes(source.text, end) {
                    return self.explicit_document(source, end, directives);
                }
                Ok(StreamStep::Syntax(end))
            }
            Err(place) => Ok(StreamStep::Syntax(place)),
        }
    }

    // Reads a document that begins with `---` (l-explicit-document, production 208).
    fn explicit_document(
        &mut self,
        source: StreamContext<'a>,
        at: usize,
        directives: Directives<'a>,
    ) -> Result<StreamStep, AllocError>
        requires boundary { IsCharBoundary source.text.now (at + 3) }
        requires directives { DirectivesAt source.text.now directives }
        requires parts { PartsAt source.text.now self.old }
        ensures reads { length source.entry.text.now ≤ 2 ^ 30
            → IfOk result (λ next. MarkedRead source.entry.text.now at directives.entry self.old self.new next) }
        ensures next { IfOk result (λ next. NextAt source.entry.text.now (at + 1) next) }
        ensures parts { IfOk result (λ _. PartsAt source.entry.text.now self.new) }
    {
        self.open(source.alloc, at, true, directives)?;
        if let Some(line) = empty_end(source, at + 3)? {
            return self.empty_document(source.alloc, line);
        }
        self.root_node(source, at + 3)
    }

    // Adds the empty node of a document with nothing after its `---`, and its comments.
    fn empty_document(
        &mut self,
        alloc: Global,
        line: Separation<'a>,
    ) -> Result<StreamStep, AllocError>
        ensures { IfOk result (λ next. EmptyAdded line.entry.end line.entry.comments self.old self.new next) }
    {
        let Separation { comments, end } = line;
        self.part.comments.append(comments)?;
        self.push_unplaced(
            alloc,
            NewEvent::Scalar {
                props: Props {
                    anchor: None,
                    tag: None,
                },
                style: ScalarStyle::Plain,
                text: Text::Part(""),
            },
        )?;
        Ok(StreamStep::Go(StreamCursor::cursor_after(end, 0, end)))
    }

    // Reads the node of a document. If it is found and nothing goes wrong after it, the reader goes on at the next
    // line.
    fn root_node(&mut self, source: StreamContext<'a>, at: usize) -> Result<StreamStep, AllocError>
        requires boundary { IsCharBoundary source.text.now at }
        requires parts { PartsAt source.text.now self.old }
        ensures reads { length source.entry.text.now ≤ 2 ^ 30
            → IfOk result (λ next. RootRead source.entry.text.now at self.old self.new next) }
        ensures next { IfOk result (λ next. NextAt source.entry.text.now (at + 1) next) }
        ensures parts { IfOk result (λ _. PartsAt source.entry.text.now self.new) }
    {
        let StreamContext { alloc, text } = source;
        match block_node_in(alloc, text, at, -1, Ctx::BlockIn, DEPTH, &mut self.part)? {
            BlockOutcome::Found(found) => Ok(after_found(found)),
            BlockOutcome::Nothing { reached } => Ok(StreamStep::Syntax(reached)),
            BlockOutcome::TooDeep(place) => Ok(StreamStep::TooDeep(place)),
        }
    }
}

// Returns the document marker at the start of a line that begins at the offset.
fn marker_at(text: &str, at: usize) -> Option<Marker>
    requires { IsCharBoundary text.now at }
    ensures marker { IsMarker text.now at result }
    ensures boundary { IfSome result (λ _. IsCharBoundary text.now (at + 3)) }
{
    if is_forbidden_at(text, at) {
        if is_char_at(text, at + 2, b'-') {
            return Some(Marker::DocumentStart);
        }
        if is_char_at(text, at + 2, b'.') {
            return Some(Marker::DocumentEnd);
        }
    }
    None
}

// Returns whether a `---` is at the start of a line that begins at the offset.
fn has_dashes(text: &str, at: usize) -> bool
    requires { IsCharBoundary text.now at }
    ensures marker { MatchBool result (ForbiddenLine text.now at × (code text.now at ≡ 45))
        (ForbiddenLine text.now at → code text.now at ≡ 45 → ⊥) }
    ensures boundary { result ≡ true → IsCharBoundary text.now (at + 3) }
{
    if is_forbidden_at(text, at) {
        if is_char_at(text, at + 2, b'-') {
            return true;
        }
        return false;
    }
    false
}

// Returns the rest of the line of a `---`, with the comment lines after it, if no node follows: the text ends there, or
// a byte order mark or a document marker is there.
fn empty_end<'a>(source: StreamContext<'a>, at: usize) -> Result<Option<Separation<'a>>, AllocError>
    requires { IsCharBoundary source.text.now at }
    ensures reads { IfOk result (λ o. MatchOption o (SomethingBegins source.entry.text.now at)
        (λ p. NothingAt source.entry.text.now at p.end p.comments)) }
    ensures boundary { IfOk result (λ o. IfSome o (λ p. IsCharBoundary source.entry.text.now p.end)) }
    ensures order { IfOk result (λ o. IfSome o (λ p. at ≤ p.end)) }
{
    match line_end(source.alloc, source.text, at)? {
        Some(Separation { comments, end }) => {
            if node_ends(source.text, end) {
                return Ok(Some(Separation { comments, end }));
            }
            Ok(None)
        }
        None => Ok(None),
    }
}

// Returns the step after a node that was found: to the next line, if nothing went wrong after the node.
fn after_found(found: FoundBlock) -> StreamStep
    ensures { FoundRead found result }
{
    if found.whole {
        return StreamStep::Go(StreamCursor::cursor_after(found.end, found.floor, found.reached));
    }
    if found.too_deep {
        return StreamStep::TooDeep(found.reached);
    }
    StreamStep::Syntax(found.reached)
}
