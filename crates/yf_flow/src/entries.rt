//! The steps that begin and read the entries of a flow collection: keys, values and single pairs. Each step leads on
//! to a later offset of the text, and none goes back.
ghost use Rattle.std.specs.Prelude.{◌≢◌, ℕ, ◌+◌, ◌-◌, ◌*◌, ◌<◌, length, IfOk, IfSome};
ghost use Rattle.std.specs.List.{All};
ghost use Rattle.std.specs.Str.{IsCharBoundary};
ghost use Rattle.yf_chars.specs.Text.{code};
ghost use Rattle.yf_chars.specs.Boundary.{BoundaryFrom};
ghost use Rattle.yf_events.specs.Event.{placed_value};
ghost use Rattle.yf_flow.specs.EntryOfRole.{EntryBegun};
ghost use Rattle.yf_flow.specs.EntryStarts.{AtQuestioned, QuestionMark};
ghost use Rattle.yf_flow.specs.Machine.{EntryIsNext, left};
ghost use Rattle.yf_flow.specs.StepContract.{At, InMapping, StepLeads, QuestionRoom, ReaderCounted, ReaderTied, Ready, Room, SceneRead, IsReaderReady};
ghost use Rattle.yf_flow.specs.StackMeaning.{AtEntry, AtNode, Base, EntryNoted, NoteFilled, pair_event};

use crate::frame::{CollectionKind, FlowContext, FlowCursor, FlowReader, Frame, Role, Step};
use crate::gap::read_gap;
use crate::look::{closes, entry_ends, is_blank_before_entry, is_colon_at};
use crate::node::{Begun, begin_node, empty_node};
use std::alloc::{AllocError, Global};
use yf_chars::text::is_char_at;
use yf_events::comments::Comments;
use yf_events::event::{Entry, NewEvent, PlacedEvent, Span};
use yf_events::slices::Slices;
use yf_props::props::Props;

// Returns the entry that the present node begins, if it begins one.
fn entry_begun(text: &str, top: Frame) -> Option<Entry>
    ensures { EntryBegun text.now top.entry top.role result }
{
    match top.role {
        Role::Item | Role::Key => Some(entry_at(text, top.entry, None)),
        Role::Value => None,
    }
}

/// Returns the entry that begins at the offset, with its note.
pub(crate) fn entry_at(text: &str, start: usize, colon: Option<usize>) -> Entry
    ensures { code text.now start ≢ 10 → EntryNoted text.now start colon result }
{
    Entry {
        start,
        colon,
        blank_before: is_blank_before_entry(text, start),
    }
}

/// Returns the event that begins a single pair. The pair's end is set after it has been read.
pub(crate) fn pair_start<'a>(alloc: Global, text: &str, start: usize) -> PlacedEvent<'a>
    ensures { code text.now start ≢ 10 → NoteFilled text.now (pair_event start) (placed_value result) }
{
    PlacedEvent {
        event: NewEvent::MapStart {
            flow: true,
            props: Props {
                anchor: None,
                tag: None,
            },
        },
        span: Some(Span { start, end: start }),
        tag_offset: None,
        entry: Some(entry_at(text, start, None)),
        folded: Slices::new(alloc),
    }
}

// Reads the `?` of an entry at the offset and the separation after it. Returns the end of the separation, if both are
// there.
fn read_question<'a>(
    alloc: Global,
    scene: FlowContext<'a>,
    at: usize,
    comments: &mut Comments<'a>,
) -> Result<Option<usize>, AllocError>
    requires { IsCharBoundary scene.text.now at }
    ensures place { IfOk result (λ o. IfSome o (λ end. BoundaryFrom scene.entry.text.now (at + 1) end)) }
    ensures reads { IfOk result (λ o. QuestionMark scene.entry.text.now scene.entry.indentation scene.entry.context at comments.old comments.new o) }
{
    if is_char_at(scene.text, at, b'?') {
        let gap = read_gap(alloc, scene, at + 1, comments)?;
        if gap.is_separation {
            return Ok(Some(gap.end));
        }
        return Ok(None);
    }
    Ok(None)
}

impl<'a> FlowReader<'a> {
    /// Begins the node awaited at the offset.
    pub(crate) fn take_node(
        &mut self,
        scene: FlowContext<'a>,
        at: usize,
    ) -> Result<Step, AllocError>
        requires standing { IsReaderReady EntryIsNext scene.text.now at self.old }
        requires escapes { All (IsCharBoundary scene.text.now) self.old.part.escapes }
        ensures tied { (base : Base) → SceneRead scene.entry base → At AtNode scene.entry self.old at base → IfOk result (ReaderTied scene.entry base self.new) }
        ensures counted { (total : ℕ) → Room scene.entry self.old at total → IfOk result (ReaderCounted scene.entry total self.new) }
        ensures ready { IfOk result (Ready scene.entry.text.now at self.new) }
        ensures moves { IfOk result (λ s. left (length scene.entry.text.now) s < 2 * (length scene.entry.text.now - at) + 1) }
        ensures escapes { IfOk result (λ _. All (IsCharBoundary scene.entry.text.now) self.new.part.escapes) }
    {
        let entry = entry_begun(scene.text, self.top);
        let cursor = FlowCursor {
            alloc: self.alloc,
            scene,
            at,
            depth: self.top.depth,
        };
        match begin_node(cursor, entry, &mut self.part)? {
            Begun::Leaf(node) => Ok(Step::Ended(node)),
            Begun::Opened(frame) => {
                self.below.push(self.top)?;
                self.top = frame;
                Ok(Step::Entry(frame.entry))
            }
            Begun::Nothing => Ok(Step::Failed),
            Begun::TooDeep(place) => Ok(Step::TooDeep(place)),
        }
    }

    /// Begins the awaited entry, or closes the collection (ns-s-flow-seq-entries, production 138;
    /// ns-s-flow-map-entries, production 141).
    pub(crate) fn start_entry(
        &mut self,
        scene: FlowContext<'a>,
        at: usize,
    ) -> Result<Step, AllocError>
        requires { IsReaderReady EntryIsNext scene.text.now at self.old }
        ensures { IfOk result (StepLeads (At AtEntry scene.entry self.old at) (Room scene.entry self.old at) scene.entry at self.old self.new) }
    {
        let place = read_gap(self.alloc, scene, at, &mut self.part.comments)?.end;
        if closes(scene.text, place, self.top.kind) {
            return self.close(scene, place);
        }
        self.top = self.top.with_entry(place, self.part.events.len());
        match read_question(self.alloc, scene, place, &mut self.part.comments)? {
            Some(end) => return self.explicit_entry(scene, end),
            None => {}
        }
        if is_colon_at(scene, place, false) {
            if self.in_mapping(scene)? {
                return self.keyless_value(scene, place);
            }
            return Ok(Step::TooDeep(place));
        }
        Ok(Step::Node(place))
    }

    // Reads on after the `?` of an entry and its separation (ns-flow-map-explicit-entry, production 143).
    fn explicit_entry(&mut self, scene: FlowContext<'a>, at: usize) -> Result<Step, AllocError>
        requires { IsReaderReady EntryIsNext scene.text.now at self.old }
        ensures { IfOk result (StepLeads (At AtQuestioned scene.entry self.old at) (QuestionRoom scene.entry self.old at) scene.entry at self.old self.new) }
    {
        if self.in_mapping(scene)? {
            if entry_ends(scene.text, at) {
                let entry = entry_at(scene.text, self.top.entry, None);
                self.part.events.push(empty_node(self.alloc, Some(entry)))?;
                self.part.events.push(empty_node(self.alloc, None))?;
                return self.end_entry(scene, self.top.entry + 1, at);
            }
            if is_colon_at(scene, at, false) {
                return self.keyless_value(scene, at);
            }
            return Ok(Step::Node(at));
        }
        Ok(Step::TooDeep(self.top.entry))
    }

    // Goes over to the mapping of an entry with `?` or `:`. In a sequence that is a single pair, which begins with
    // the entry. Returns whether the limit allows it.
    fn in_mapping(&mut self, scene: FlowContext<'a>) -> Result<bool, AllocError>
        requires { IsReaderReady EntryIsNext scene.text.now self.old.top.entry self.old }
        ensures { IfOk result (InMapping scene.entry self.old self.new) }
    {
        match self.top.kind {
            CollectionKind::Mapping => Ok(true),
            CollectionKind::Pair => Ok(true),
            CollectionKind::Sequence => {
                if self.top.depth >= scene.limit {
                    return Ok(false);
                }
                let event = self.part.events.len();
                let start = pair_start(self.alloc, scene.text, self.top.entry);
                self.part.events.push(start)?;
                self.below.push(self.top)?;
                self.top = Frame {
                    kind: CollectionKind::Pair,
                    depth: self.top.depth + 1,
                    deepest: self.top.depth + 1,
                    event,
                    entry_event: self.part.events.len(),
                    role: Role::Key,
                    ..self.top
                };
                Ok(true)
            }
        }
    }
}
