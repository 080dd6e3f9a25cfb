//! The steps after a node of a flow collection: the effect of its end, the value of its entry, the end of that, and
//! the closing bracket. Each step leads on to a later offset of the text, and none goes back.
ghost use Rattle.std.specs.Prelude.{◌≡◌, ◌+◌, IfOk};
ghost use Rattle.yf_events.specs.Event.{new_event_value};
ghost use Rattle.yf_flow.specs.AfterNode.{AtEntryDoneFrom, AtKeyEnd, AtPairKey, AtValueOf};
ghost use Rattle.yf_flow.specs.EntryStarts.{AtLone};
ghost use Rattle.yf_flow.specs.Machine.{EntryIsNext, EntryIsIn};
ghost use Rattle.yf_flow.specs.StepContract.{At, EventThere, StepLeads, NodeRoom, PairRoom, Room, IsReaderReady};
ghost use Rattle.yf_flow.specs.StackMeaning.{AtClosing, AtEnded, AtEntryEnd, end_event};

use crate::entries::{entry_at, pair_start};
use crate::frame::{CollectionKind, FlowContext, FlowReader, Frame, Node, Role, Step};
use crate::gap::read_gap;
use crate::look::{closes, entry_ends, is_colon_at, is_pair_key};
use crate::node::{empty_node, unplaced};
use std::alloc::AllocError;
use yf_chars::text::is_char_at;
use yf_events::event::NewEvent;
use yf_lines::basic::skip_whites;

// Returns the event that ends a collection.
#[tactic(auto, unfolding(crate::specs::StackMeaning::end_event))]
fn collection_end<'a>(kind: CollectionKind) -> NewEvent<'a>
    ensures { new_event_value result ≡ end_event kind }
{
    match kind {
        CollectionKind::Sequence => NewEvent::SeqEnd,
        CollectionKind::Mapping => NewEvent::MapEnd,
        CollectionKind::Pair => NewEvent::MapEnd,
    }
}

impl<'a> FlowReader<'a> {
    /// Goes on after a node of the collection. If a `:` follows an item of a sequence on its line, the item is the
    /// key of a single pair (ns-flow-pair-entry, production 151).
    pub(crate) fn finish_node(
        &mut self,
        scene: FlowContext<'a>,
        node: Node,
    ) -> Result<Step, AllocError>
        requires { IsReaderReady EntryIsIn scene.text.now node.end self.old }
        ensures { IfOk result (StepLeads (At AtEnded scene.entry self.old node) (NodeRoom scene.entry self.old node) scene.entry node.end self.old self.new) }
    {
        match self.top.role {
            Role::Item => {
                let colon = skip_whites(scene.text, node.end);
                if is_pair_key(scene, self.top.entry, colon, node.json) {
                    return self.pair_of_key(scene, node, colon);
                }
                self.top = self.top.reaching(node.deepest);
                self.after_entry(scene, node.end)
            }
            Role::Key => {
                self.top = self.top.reaching(node.deepest);
                self.after_key(scene, node)
            }
            Role::Value => {
                self.top = self.top.reaching(node.deepest);
                self.end_entry(scene, node.end, node.end)
            }
        }
    }

    // Makes the last item the key of a single pair, with its `:` at the offset.
    fn pair_of_key(
        &mut self,
        scene: FlowContext<'a>,
        node: Node,
        at: usize,
    ) -> Result<Step, AllocError>
        requires { IsReaderReady EntryIsIn scene.text.now (at + 1) self.old }
        ensures { IfOk result (StepLeads (At (AtPairKey node) scene.entry self.old at) (PairRoom scene.entry self.old node at) scene.entry at self.old self.new) }
    {
        let deepest = self.top.depth.max(node.deepest);
        if deepest >= scene.limit {
            return Ok(Step::TooDeep(self.top.entry));
        }
        let event = self.top.entry_event;
        self.part.events.set_colon(event, at)?;
        let start = pair_start(self.alloc, scene.text, self.top.entry);
        self.part.events.insert(event, start)?;
        let pair = Frame {
            kind: CollectionKind::Pair,
            role: Role::Value,
            depth: self.top.depth + 1,
            deepest: deepest + 1,
            event,
            ..self.top
        };
        self.below.push(self.top)?;
        self.top = pair;
        self.await_value(scene, at, node.json)
    }

    // Goes on after the key of an entry of a mapping, or of a single pair with `?`.
    fn after_key(&mut self, scene: FlowContext<'a>, node: Node) -> Result<Step, AllocError>
        requires { IsReaderReady EntryIsIn scene.text.now node.end self.old }
        ensures { IfOk result (StepLeads (At AtKeyEnd scene.entry self.old node) (Room scene.entry self.old node.end) scene.entry node.end self.old self.new) }
    {
        let place = read_gap(self.alloc, scene, node.end, &mut self.part.comments)?.end;
        if is_colon_at(scene, place, node.json) {
            self.part.events.set_colon(self.top.entry_event, place)?;
            return self.await_value(scene, place, node.json);
        }
        self.part.events.push(empty_node(self.alloc, None))?;
        self.end_entry(scene, node.end, place)
    }

    /// Reads the empty key of an entry, and its value from the `:` on (c-ns-flow-map-empty-key-entry, production
    /// 146).
    pub(crate) fn keyless_value(
        &mut self,
        scene: FlowContext<'a>,
        at: usize,
    ) -> Result<Step, AllocError>
        requires { IsReaderReady EntryIsNext scene.text.now (at + 1) self.old }
        ensures { IfOk result (StepLeads (At AtLone scene.entry self.old at) (Room scene.entry self.old (at + 1)) scene.entry at self.old self.new) }
    {
        let entry = entry_at(scene.text, self.top.entry, Some(at));
        self.part.events.push(empty_node(self.alloc, Some(entry)))?;
        self.await_value(scene, at, false)
    }

    // Reads on after the `:` at an offset: a node is awaited, or there is none. After a key that is not like JSON's,
    // separation must come before the node (c-ns-flow-map-separate-value, production 147;
    // c-ns-flow-map-adjacent-value, production 149).
    #[inline(always)]
    fn await_value(
        &mut self,
        scene: FlowContext<'a>,
        at: usize,
        json: bool,
    ) -> Result<Step, AllocError>
        requires { IsReaderReady EntryIsIn scene.text.now (at + 1) self.old }
        ensures { IfOk result (StepLeads (At (AtValueOf json) scene.entry self.old at) (Room scene.entry self.old (at + 1)) scene.entry at self.old self.new) }
    {
        let gap = read_gap(self.alloc, scene, at + 1, &mut self.part.comments)?;
        if entry_ends(scene.text, gap.end) {
            self.part.events.push(empty_node(self.alloc, None))?;
            return self.end_entry(scene, at + 1, gap.end);
        }
        self.top = self.top.with_value();
        if gap.is_separation {
            return Ok(Step::Node(gap.end));
        }
        if json {
            return Ok(Step::Node(gap.end));
        }
        Ok(Step::Failed)
    }

    /// Ends an entry with its last node or indicator up to `finish`; reading goes on at `at`. A single pair ends with
    /// it, and the text after it belongs to its sequence.
    #[inline(always)]
    pub(crate) fn end_entry(
        &mut self,
        scene: FlowContext<'a>,
        finish: usize,
        at: usize,
    ) -> Result<Step, AllocError>
        requires { IsReaderReady EntryIsIn scene.text.now at self.old }
        ensures { IfOk result (StepLeads (At (AtEntryDoneFrom finish) scene.entry self.old at) (Room scene.entry self.old at) scene.entry at self.old self.new) }
    {
        if self.top.kind.is_pair() {
            self.part
                .events
                .push(unplaced(self.alloc, NewEvent::MapEnd, None))?;
            self.part.events.set_end(self.top.event, finish)?;
            match self.below.pop() {
                Some(sequence) => {
                    self.top = sequence.reaching(self.top.deepest);
                    return self.after_entry(scene, at);
                }
                None => return Ok(Step::Failed),
            }
        }
        self.after_entry(scene, at)
    }

    // Reads on after an entry: a comma, or the bracket that closes the collection.
    #[inline(always)]
    fn after_entry(&mut self, scene: FlowContext<'a>, at: usize) -> Result<Step, AllocError>
        requires { IsReaderReady EntryIsIn scene.text.now at self.old }
        ensures { IfOk result (StepLeads (At AtEntryEnd scene.entry self.old at) (Room scene.entry self.old at) scene.entry at self.old self.new) }
    {
        let place = read_gap(self.alloc, scene, at, &mut self.part.comments)?.end;
        if is_char_at(scene.text, place, b',') {
            return Ok(Step::Entry(place + 1));
        }
        if closes(scene.text, place, self.top.kind) {
            return self.close(scene, place);
        }
        Ok(Step::Failed)
    }

    /// Closes the collection with the bracket at an offset.
    #[inline(always)]
    pub(crate) fn close(&mut self, scene: FlowContext<'a>, at: usize) -> Result<Step, AllocError>
        requires { IsReaderReady EventThere scene.text.now (at + 1) self.old }
        ensures { IfOk result (StepLeads (At AtClosing scene.entry self.old at) (Room scene.entry self.old at) scene.entry at self.old self.new) }
    {
        let end = unplaced(self.alloc, collection_end(self.top.kind), None);
        self.part.events.push(end)?;
        self.part.events.set_end(self.top.event, at + 1)?;
        let node = Node {
            end: at + 1,
            json: true,
            deepest: self.top.deepest,
        };
        match self.below.pop() {
            Some(outer) => {
                self.top = outer;
                Ok(Step::Ended(node))
            }
            None => Ok(Step::Done(node)),
        }
    }
}
