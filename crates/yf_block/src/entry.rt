//! Block collections and their entries (YAML 1.2.2, section 8.2).
ghost use Rattle.std.specs.Prelude.{◌≡◌, ◌≢◌, ◌+◌, ◌-◌, ◌^◌, ◌<◌, pos, true, false, None, IfOk, IfSome, MatchOption};
ghost use Rattle.std.specs.Str.{IsCharBoundary};
ghost use Rattle.yf_chars.specs.Chain.{Stuck};
ghost use Rattle.yf_chars.specs.Text.{code};
ghost use Rattle.yf_chars.specs.Boundary.{BoundaryFrom};
ghost use Rattle.yf_comments.specs.Comments.{Blank};
ghost use Rattle.yf_events.specs.Event.{placed_value};
ghost use Rattle.yf_props.specs.Names as Names;
ghost use Rattle.yf_props.specs.Props.{props_value};
ghost use Rattle.yf_grammar.specs.BlockReader.BlockParser.{DashAt};
ghost use Rattle.yf_grammar.specs.Productions.Meaning.{event_with, start_of};
ghost use Rattle.yf_grammar.specs.Productions.ReadParts.{NotedSince};
ghost use Rattle.yf_flow.specs.NodeStarts.{lead_event};
ghost use Rattle.yf_block.specs.BlockTied.{NodeAwaited};
ghost use Rattle.yf_block.specs.Counted.{CountedAt, EntryCounted};
ghost use Rattle.yf_block.specs.InlineTied.{is_sequence, started};
ghost use Rattle.yf_block.specs.KeyAwaited.{KeyAwaited};
ghost use Rattle.yf_block.specs.KeyTexts.{KeyTextAt, KeyTextPlace};
ghost use Rattle.yf_block.specs.Machine.{IsReaderReady};
ghost use Rattle.yf_block.specs.OpeningTied.{AtItem, AtOpening, AtPairEntry, SignOf};
ghost use Rattle.yf_block.specs.PropertiesAnswers.{LineProperties};
ghost use Rattle.yf_block.specs.StepAnswers.{StepPromises};

use crate::frame::{
    AwaitedNode, BlockContext, BlockCursor, BlockReader, CollectionKind, EntryStart, Frame, Step,
};
use crate::inline::read_inline;
use crate::line::read_line_end;
use crate::look::{is_blank_after, is_sign_at, key_ends};
use crate::properties::{PlacedProperties, is_property_at, lead_of, line_properties, place_after};
use std::alloc::{AllocError, Global};
use yf_chars::context::Ctx;
use yf_events::event::{Entry, NewEvent, PlacedEvent};
use yf_flow::node::{Lead, empty_node};
use yf_flow::nodes::Ending;
use yf_lines::basic::skip_whites;

// The start of the text of an implicit key.
#[derive(Clone, Copy)]
enum KeyText {
    At(usize),
    // No text begins after its properties; reading went wrong at the offset.
    Nowhere(usize),
}

/// Returns the entry that begins at an offset.
pub(crate) fn entry_at(text: &str, floor: usize, start: usize, colon: Option<usize>) -> Entry
    ensures start { result.start ≡ start }
    ensures colon { result.colon ≡ colon }
    ensures note { (code text.now start ≡ 10 → code text.now (start - 1) ≢ 13) → (floor < start → Blank text.now floor)
        → NotedSince text.now floor start result.blank_before }
{
    Entry {
        start,
        colon,
        blank_before: is_blank_after(text, floor, start),
    }
}

/// Returns the event that begins a block collection as the awaited node. The collection's end is set later.
pub(crate) fn collection_start<'a>(
    alloc: Global,
    kind: CollectionKind,
    at: usize,
    wanted: &AwaitedNode<'a>,
) -> PlacedEvent<'a>
    ensures { placed_value result ≡ started kind at wanted.now }
{
    start_with(alloc, kind, at, lead_of(at, wanted.outer, wanted.entry))
}

/// Like `collection_start`, for a node with a known lead.
#[inline(always)]
pub(crate) fn start_with<'a>(
    alloc: Global,
    kind: CollectionKind,
    at: usize,
    lead: Lead<'a>,
) -> PlacedEvent<'a>
    ensures { placed_value result ≡ lead_event lead.entry (event_with (props_value lead.entry.props) (start_of (is_sequence kind) false)) at }
{
    let event = match kind {
        CollectionKind::Sequence => NewEvent::SeqStart {
            flow: false,
            props: lead.props,
        },
        CollectionKind::Mapping => NewEvent::MapStart {
            flow: false,
            props: lead.props,
        },
    };
    lead.placed(alloc, event, at)
}

impl<'a> BlockReader<'a> {
    /// Opens the collection with its first entry at the offset, at its sign: `-`, `?` or `:` (l+block-sequence,
    /// production 183; l+block-mapping, production 187; compact forms: productions 186 and 195).
    #[inline(never)]
    pub(crate) fn open_collection(
        &mut self,
        scope: BlockContext<'a>,
        kind: CollectionKind,
        at: usize,
        column: usize,
    ) -> Result<Step, AllocError>
        requires standing { IsReaderReady scope.text.now at self.old }
        requires sign { SignOf kind scope.text.now at }
        ensures { StepPromises (AtOpening kind column) CountedAt scope.entry at 0 self.old self.new result }
    {
        if self.frames.len() >= scope.limit {
            return Ok(Step::TooDeep(at));
        }
        let frame = Frame::new(kind, column, self.part.events.len());
        let start = collection_start(scope.alloc, kind, at, &self.progress.wanted);
        self.part.events.push(start)?;
        match kind {
            CollectionKind::Sequence => self.take_item(scope, EntryStart { frame, at }),
            CollectionKind::Mapping => self.take_entry(scope, EntryStart { frame, at }),
        }
    }

    /// Takes the entry of a sequence at its `-`.
    #[inline(always)]
    pub(crate) fn take_item(
        &mut self,
        scope: BlockContext<'a>,
        slot: EntryStart,
    ) -> Result<Step, AllocError>
        requires standing { IsReaderReady scope.text.now slot.at self.old }
        requires after { IsCharBoundary scope.text.now (slot.at + 1) }
        requires dash { DashAt scope.text.now slot.at }
        ensures { StepPromises (AtItem slot.frame) CountedAt scope.entry slot.at 0 self.old self.new result }
    {
        let EntryStart { frame, at } = slot;
        self.frames.push(frame)?;
        let entry = entry_at(scope.text, self.progress.floor, at, None);
        let progress = &mut self.progress;
        Ok(await_node(at, true, false, frame.column, Some(entry), progress))
    }

    /// Takes the entry of a mapping that begins there (ns-l-block-map-entry, production 188).
    pub(crate) fn take_entry(
        &mut self,
        scope: BlockContext<'a>,
        slot: EntryStart,
    ) -> Result<Step, AllocError>
        requires { IsReaderReady scope.text.now slot.at self.old }
        ensures { StepPromises (AtPairEntry slot.frame) EntryCounted scope.entry slot.at 0 self.old self.new result }
    {
        let EntryStart { frame, at } = slot;
        let entry = entry_at(scope.text, self.progress.floor, at, None);
        if is_sign_at(scope.text, at, b'?') {
            self.frames.push(Frame {
                awaits_colon: true,
                entry_event: self.part.events.len(),
                ..frame
            })?;
            let progress = &mut self.progress;
            progress.colons = progress.colons.saturating_add(1);
            return Ok(await_node(at, true, true, frame.column, Some(entry), progress));
        }
        self.frames.push(Frame {
            awaits_colon: false,
            ..frame
        })?;
        if is_sign_at(scope.text, at, b':') {
            let keyless = Entry {
                colon: Some(at),
                ..entry
            };
            self.part
                .events
                .push(empty_node(scope.alloc, Some(keyless)))?;
            return Ok(await_value(at, frame.column, &mut self.progress));
        }
        self.take_key(scope, frame.column, entry)
    }

    /// Takes an implicit key of an open mapping (ns-s-block-map-implicit-key, production 193), from its properties
    /// on.
    #[inline(always)]
    pub(crate) fn take_key(
        &mut self,
        scope: BlockContext<'a>,
        column: usize,
        key: Entry,
    ) -> Result<Step, AllocError>
        requires { IsReaderReady scope.text.now key.start self.old }
        ensures { StepPromises (KeyAwaited column key) CountedAt scope.entry key.start 0 self.old self.new result }
    {
        if is_property_at(scope.text, key.start) {
            return self.take_held_key(scope, column, key);
        }
        self.take_key_after(scope, column, key, &None)
    }

    // Like `take_key`, for a key that begins with a property. A function of its own, which is faster: see
    // row `take_held_key` of docs/PERF.md.
    #[inline(never)]
    fn take_held_key(
        &mut self,
        scope: BlockContext<'a>,
        column: usize,
        key: Entry,
    ) -> Result<Step, AllocError>
        requires { IsReaderReady scope.text.now key.start self.old }
        ensures { StepPromises (KeyAwaited column key) CountedAt scope.entry key.start 0 self.old self.new result }
    {
        let inner = line_properties(scope.alloc, scope.text, key.start)?;
        self.take_key_after(scope, column, key, &inner)
    }

    // Takes an implicit key after its properties.
    #[inline(always)]
    fn take_key_after(
        &mut self,
        scope: BlockContext<'a>,
        column: usize,
        key: Entry,
        inner: &Option<PlacedProperties<'a>>,
    ) -> Result<Step, AllocError>
        requires standing { IsReaderReady scope.text.now key.start self.old }
        requires place { IfSome inner.now (λ h. BoundaryFrom scope.text.now (key.start + 1) h.end) }
        requires reads { MatchOption inner.now (Stuck (Names.Properties scope.text.now (pos 0) Ctx.FlowKey key.start))
            (LineProperties scope.text.now key.start) }
        ensures { StepPromises (KeyAwaited column key) CountedAt scope.entry key.start 0 self.old self.new result }
    {
        let start = key.start;
        match key_text(scope, start, inner)? {
            KeyText::Nowhere(place) => Ok(Step::Failed(place)),
            KeyText::At(at) => {
                let event = self.part.events.len();
                let lead = lead_of(start, *inner, Some(key));
                let least = column.saturating_add(1);
                let depth = self.frames.len();
                match read_inline(scope, least, at, inner, &lead, depth, &mut self.part)? {
                    Ending::End(node) => {
                        let colon = skip_whites(scope.text, node.end);
                        if key_ends(scope.text, start, colon) {
                            self.part.events.set_colon(event, colon)?;
                            return Ok(await_value(colon, column, &mut self.progress));
                        }
                        Ok(Step::Failed(colon))
                    }
                    Ending::Nothing => Ok(Step::Failed(at)),
                    Ending::TooDeep(deep) => Ok(Step::TooDeep(deep)),
                }
            }
        }
    }
}

/// Awaits a node after an indicator in a collection of that column.
pub(crate) fn await_node<'a>(
    at: usize,
    compact: bool,
    out: bool,
    column: usize,
    entry: Option<Entry>,
    progress: &mut BlockCursor<'a>,
) -> Step
    requires { at + 1 < 2 ^ 64 }
    ensures { NodeAwaited at column compact out entry progress.old progress.new result }
{
    progress.last = at + 1;
    let wanted = &mut progress.wanted;
    wanted.least = column.saturating_add(1);
    wanted.out = out;
    wanted.compact = compact;
    wanted.entry = entry;
    if wanted.outer.is_some() {
        wanted.outer = None;
    }
    Step::Node(at + 1)
}

/// Awaits the value after the `:` of an implicit or empty key.
pub(crate) fn await_value<'a>(colon: usize, column: usize, progress: &mut BlockCursor<'a>) -> Step
    requires { colon + 1 < 2 ^ 64 }
    ensures { NodeAwaited colon column false true None progress.old progress.new result }
{
    await_node(colon, false, true, column, None, progress)
}

// Returns the start of a key's text after its properties; their line goes on.
#[inline(always)]
fn key_text<'a>(
    scope: BlockContext<'a>,
    start: usize,
    inner: &Option<PlacedProperties<'a>>,
) -> Result<KeyText, AllocError>
    requires start { IsCharBoundary scope.text.now start }
    requires properties { IfSome inner.now (λ h. BoundaryFrom scope.text.now (start + 1) h.end) }
    ensures place { IfOk result (λ k. KeyTextPlace scope.entry.text.now start inner.now k) }
    ensures reads { IfOk result (λ k. KeyTextAt scope.entry.text.now start inner.now k) }
{
    match *inner {
        None => Ok(KeyText::At(start)),
        Some(properties) => {
            let ended = read_line_end(scope.alloc, scope.text, properties.end)?;
            match place_after(scope.text, properties) {
                None => Ok(KeyText::Nowhere(start)),
                Some(at) => match ended {
                    Some(_) => Ok(KeyText::Nowhere(at)),
                    None => Ok(KeyText::At(at)),
                },
            }
        }
    }
}
