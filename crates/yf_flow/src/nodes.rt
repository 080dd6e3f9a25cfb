//! The reader of flow nodes: one forward pass, with a stack of the open collections.
ghost use Rattle.std.specs.Prelude.{◌≡◌, ℕ, [], ◌+◌, ◌≤◌, length, true, false, IfOk, MatchOption};
ghost use Rattle.std.specs.List.{All};
ghost use Rattle.std.specs.Str.{IsCharBoundary, IsUtf8};
ghost use Rattle.yf_lines.specs.Basic.{is_block};
ghost use Rattle.yf_chars.specs.Text.{code};
ghost use Rattle.yf_grammar.specs.FlowReader.Parser.{begins_content, only};
ghost use Rattle.yf_flow.specs.ContentAnswers.{ContentEnds};
ghost use Rattle.yf_flow.specs.Depth.{AllCounted, BegunCounted, EndCounted, openers_from};
ghost use Rattle.yf_flow.specs.CollectionEnds.{BegunTied, EndTied, EndsAs};
ghost use Rattle.yf_flow.specs.Machine.{EntryIsNext, BegunAt, EndingAt};
ghost use Rattle.yf_flow.specs.NodeAnswers.{InnerContext, NodeAnswers, NodeEnds, OutcomeAt};
ghost use Rattle.yf_flow.specs.StepContract.{CollectionEnds, IsReaderReady};
ghost use Rattle.yf_flow.specs.ReadNodes.{NodeLost};
ghost use Rattle.yf_flow.specs.NodeOffsets.{NodeIsAwaited, Begins, PropertiesAt, CursorContent};
ghost use Rattle.yf_flow.specs.LeafEnds.{begun_of};
ghost use Rattle.yf_flow.specs.StepTerms.{Reading};
ghost use Rattle.yf_flow.specs.StackMeaning.{AtEntry, Base};

use crate::frame::{FlowContext, FlowCursor, FlowReader, Frame, Node, Step};
use crate::json::json_content;
use crate::leaf::{Scalar, read_plain, read_properties};
use crate::look::content_begins;
use crate::node::{Begun, Lead, begin_node, push_scalar};
use smallvec::SmallVec;
use std::alloc::{AllocError, Global};
use std::mem::{drop, replace, swap};
use yf_chars::context::Ctx;
use yf_events::comments::Comments;
use yf_events::event::ScalarStyle;
use yf_events::events::Events;
use yf_events::part::Part;
use yf_events::values::Values;
use yf_lines::text::Text;
use yf_props::properties::Properties;

/// The outcome of a reader of flow nodes.
#[derive(Clone, Copy)]
pub(crate) enum FlowOutcome {
    /// A node, and the byte offset after it.
    Found(usize),
    Nothing,
    /// No node within the limit of open collections; the collection of the bracket or entry at the offset would
    /// exceed it.
    TooDeep(usize),
}

/// The end of a flow node.
#[derive(Clone, Copy)]
pub enum Ending {
    End(Node),
    Nothing,
    /// The node opens more collections than the limit, the last of them at the offset.
    TooDeep(usize),
}

/// Reads a flow node (ns-flow-node, production 161) that opens no more collections at once than the limit, into an
/// empty part.
pub(crate) fn read_node<'a>(
    alloc: Global,
    scene: FlowContext<'a>,
    at: usize,
    part: &mut Part<'a>,
) -> Result<FlowOutcome, AllocError>
    requires boundary { IsCharBoundary scene.text.now at }
    requires events { part.old.events ≡ [] }
    requires comments { part.old.comments ≡ [] }
    requires escapes { part.old.escapes ≡ [] }
    ensures place { IfOk result (λ o. OutcomeAt scene.entry.text.now at o) }
    ensures escapes { IfOk result (λ _. All (IsCharBoundary scene.entry.text.now) part.new.escapes) }
    ensures answers { IsUtf8 scene.entry.text.now → is_block scene.entry.context ≡ false
        → IfOk result (λ o. NodeAnswers scene.entry.text.now scene.entry.indentation scene.entry.context scene.entry.limit at part.new o) }
{
    match inner_context(scene.context) {
        None => Ok(FlowOutcome::Nothing),
        Some(inner) => {
            let cursor = FlowCursor {
                alloc,
                scene,
                at,
                depth: 0,
            };
            let begun = begin_node(cursor, None, part)?;
            let inside = FlowCursor {
                scene: FlowContext {
                    context: inner,
                    ..scene
                },
                ..cursor
            };
            let ending = end_node(inside, begun, part)?;
            node_found(cursor, ending, part)
        }
    }
}

/// Reads a flow node after its properties: a plain scalar, a quoted one or a flow collection. Adds its events to the
/// part, with its lead; `depth` collections are open already.
///
/// # Errors
///
/// Fails with `AllocError` if the allocator refuses memory.
#[inline(always)]
pub fn read_content<'a>(
    alloc: Global,
    scene: &FlowContext<'a>,
    at: usize,
    lead: &Lead<'a>,
    depth: usize,
    part: &mut Part<'a>,
) -> Result<Ending, AllocError>
    requires boundary { IsCharBoundary scene.now.text.now at }
    requires escapes { All (IsCharBoundary scene.now.text.now) part.old.escapes }
    ensures answers { IsUtf8 scene.now.text.now → is_block scene.now.context ≡ false → (room : ℕ) → depth + room ≡ scene.now.limit
        → IfOk result (λ e. ContentEnds scene.now.text.now scene.now.indentation scene.now.context room at depth lead.now part.old part.new e) }
    ensures counted { IsUtf8 scene.now.text.now → (total : ℕ) → depth + openers_from scene.now.text.now at ≤ total
        → IfOk result (λ e. EndCounted scene.now.text.now scene.now.limit total e) }
    ensures found { IfOk result (λ e. EndingAt scene.now.text.now (at + 1) e) }
    ensures escapes { IfOk result (λ _. All (IsCharBoundary scene.now.text.now) part.new.escapes) }
{
    match inner_context(scene.context) {
        None => Ok(Ending::Nothing),
        Some(inner) => {
            let cursor = FlowCursor {
                alloc,
                scene: *scene,
                at,
                depth,
            };
            if content_begins(scene.text, at) {
                let begun = json_content(&cursor, lead, part)?;
                let inside = FlowCursor {
                    scene: FlowContext {
                        context: inner,
                        ..*scene
                    },
                    ..cursor
                };
                return end_node(inside, begun, part);
            }
            plain_ending(&cursor, lead, part)
        }
    }
}

// Reads a plain scalar as a whole node (ns-plain, production 131).
#[inline(always)]
fn plain_ending<'a>(
    cursor: &FlowCursor<'a>,
    lead: &Lead<'a>,
    part: &mut Part<'a>,
) -> Result<Ending, AllocError>
    requires awaited { NodeIsAwaited cursor.now part.old }
    requires other { begins_content (code cursor.now.scene.text.now cursor.now.at) ≡ false }
    ensures { IfOk result (λ e. Begins (CursorContent cursor.now lead.now) cursor.now part.old part.new (begun_of e)) }
{
    match read_plain(cursor)? {
        Some(Scalar { text, end }) => {
            push_scalar(cursor.alloc, lead, ScalarStyle::Plain, text, end, part)?;
            Ok(Ending::End(Node {
                end,
                json: false,
                deepest: cursor.depth,
            }))
        }
        None => Ok(Ending::Nothing),
    }
}

// Reads on after a node has begun. Returns its end.
#[inline(always)]
fn end_node<'a>(
    cursor: FlowCursor<'a>,
    begun: Begun,
    part: &mut Part<'a>,
) -> Result<Ending, AllocError>
    requires begun { (m : ℕ) × BegunAt cursor.scene.text.now cursor.at m (length part.old.events) begun }
    requires escapes { All (IsCharBoundary cursor.scene.text.now) part.old.escapes }
    ensures ends { (base : Base) → BegunTied cursor.entry.scene.text.now cursor.entry.scene.indentation cursor.entry.scene.context cursor.entry.scene.limit base begun part.old → IfOk result (λ e. EndsAs cursor.entry.scene.text.now cursor.entry.scene.indentation base begun part.old part.new e) }
    ensures counted { IsUtf8 cursor.entry.scene.text.now → (total : ℕ) → BegunCounted cursor.entry.scene.text.now cursor.entry.scene.limit total begun
        → IfOk result (λ e. EndCounted cursor.entry.scene.text.now cursor.entry.scene.limit total e) }
    ensures found { IfOk result (λ e. EndingAt cursor.entry.scene.text.now (cursor.entry.at + 1) e) }
    ensures escapes { IfOk result (λ _. All (IsCharBoundary cursor.entry.scene.text.now) part.new.escapes) }
{
    match begun {
        Begun::Leaf(node) => Ok(Ending::End(node)),
        Begun::Opened(frame) => read_entries(cursor, frame, part),
        Begun::Nothing => Ok(Ending::Nothing),
        Begun::TooDeep(place) => Ok(Ending::TooDeep(place)),
    }
}

// Returns the context within flow collections of that context (in-flow(c)), or `None` for the two block contexts,
// which have no flow nodes.
fn inner_context(context: Ctx) -> Option<Ctx>
    ensures { MatchOption result (is_block context ≡ true) (InnerContext context) }
{
    match context {
        Ctx::BlockOut | Ctx::BlockIn => None,
        Ctx::FlowOut | Ctx::FlowIn => Some(Ctx::FlowIn),
        Ctx::BlockKey | Ctx::FlowKey => Some(Ctx::FlowKey),
    }
}

/// Returns an empty part.
pub fn new_part<'a>(alloc: Global) -> Part<'a>
    ensures events { result.events ≡ [] }
    ensures comments { result.comments ≡ [] }
    ensures escapes { result.escapes ≡ [] }
{
    Part {
        events: Events::new(alloc),
        comments: Comments::new(alloc),
        escapes: Values::new(alloc),
    }
}

// Reads the entries of a collection up to its closing bracket.
#[inline(never)]
fn read_entries<'a>(
    cursor: FlowCursor<'a>,
    top: Frame,
    part: &mut Part<'a>,
) -> Result<Ending, AllocError>
    requires boundary { IsCharBoundary cursor.scene.text.now top.entry }
    requires top { EntryIsNext cursor.scene.text.now (length part.old.events) top }
    requires escapes { All (IsCharBoundary cursor.scene.text.now) part.old.escapes }
    ensures tied { (base : Base) → Reading cursor.entry.scene.text.now cursor.entry.scene.context cursor.entry.scene.limit base
        → AtEntry cursor.entry.scene.text.now cursor.entry.scene.indentation cursor.entry.scene.context base [] top top.entry part.old
        → IfOk result (λ e. EndTied cursor.entry.scene.text.now cursor.entry.scene.indentation base e part.new) }
    ensures counted { (total : ℕ) → AllCounted cursor.entry.scene.text.now total top.entry [] top
        → IfOk result (λ e. EndCounted cursor.entry.scene.text.now cursor.entry.scene.limit total e) }
    ensures found { IfOk result (λ e. EndingAt cursor.entry.scene.text.now top.entry e) }
    ensures escapes { IfOk result (λ _. All (IsCharBoundary cursor.entry.scene.text.now) part.new.escapes) }
{
    let alloc = cursor.alloc;
    let mut reader = FlowReader {
        alloc,
        top,
        below: SmallVec::new(alloc),
        part: new_part(alloc),
    };
    swap(part, &mut reader.part);
    let ending = reader.read_on(cursor.scene, top.entry);
    swap(part, &mut reader.part);
    ending
}

impl<'a> FlowReader<'a> {
    // Goes on step by step from an offset that awaits an entry.
    fn read_on(&mut self, scene: FlowContext<'a>, at: usize) -> Result<Ending, AllocError>
        requires standing { IsReaderReady EntryIsNext scene.text.now at self.old }
        requires escapes { All (IsCharBoundary scene.text.now) self.old.part.escapes }
        ensures { IfOk result (CollectionEnds scene.entry at self.old self.new) }
    {
        let mut step = Step::Entry(at);
        'steps: loop {
            step = match step {
                Step::Entry(place) => self.start_entry(scene, place)?,
                Step::Node(place) => self.take_node(scene, place)?,
                Step::Ended(node) => self.finish_node(scene, node)?,
                Step::Done(node) => return Ok(Ending::End(node)),
                Step::Failed => return Ok(Ending::Nothing),
                Step::TooDeep(place) => return Ok(Ending::TooDeep(place)),
            };
        }
    }
}

// Returns the outcome of a node with this end. If the content after properties is not derived, the node is empty and
// is only its properties.
fn node_found<'a>(
    cursor: FlowCursor<'a>,
    ending: Ending,
    part: &mut Part<'a>,
) -> Result<FlowOutcome, AllocError>
    requires boundary { IsCharBoundary cursor.scene.text.now cursor.at }
    requires ending { EndingAt cursor.scene.text.now (cursor.at + 1) ending }
    requires escapes { All (IsCharBoundary cursor.scene.text.now) part.old.escapes }
    ensures place { IfOk result (λ o. OutcomeAt cursor.entry.scene.text.now cursor.entry.at o) }
    ensures escapes { IfOk result (λ _. All (IsCharBoundary cursor.entry.scene.text.now) part.new.escapes) }
    ensures answers { IsUtf8 cursor.entry.scene.text.now → is_block cursor.entry.scene.context ≡ false
        → NodeEnds cursor.entry.scene.text.now cursor.entry.scene.indentation cursor.entry.scene.context cursor.entry.scene.limit cursor.entry.at (only [] 0) part.old ending
        → EndCounted cursor.entry.scene.text.now cursor.entry.scene.limit (openers_from cursor.entry.scene.text.now cursor.entry.at) ending
        → IfOk result (λ o. NodeAnswers cursor.entry.scene.text.now cursor.entry.scene.indentation cursor.entry.scene.context cursor.entry.scene.limit cursor.entry.at part.new o) }
{
    let otherwise = match ending {
        Ending::End(node) => return Ok(FlowOutcome::Found(node.end)),
        Ending::Nothing => FlowOutcome::Nothing,
        Ending::TooDeep(place) => FlowOutcome::TooDeep(place),
    };
    match read_properties(cursor.alloc, cursor.scene, cursor.at) {
        Ok(Some(properties)) => lone_node(cursor, properties, part),
        Ok(None) => Ok(otherwise),
        Err(error) => Err(error),
    }
}

// Replaces the contents of the part with an empty node that has only the properties.
fn lone_node<'a>(
    cursor: FlowCursor<'a>,
    properties: Properties<'a>,
    part: &mut Part<'a>,
) -> Result<FlowOutcome, AllocError>
    requires { PropertiesAt cursor properties }
    ensures place { IfOk result (λ o. OutcomeAt cursor.entry.scene.text.now cursor.entry.at o) }
    ensures escapes { IfOk result (λ _. part.new.escapes ≡ []) }
    ensures answers { IsUtf8 cursor.entry.scene.text.now → is_block cursor.entry.scene.context ≡ false
        → NodeLost cursor.entry.scene.text.now cursor.entry.scene.limit cursor.entry.scene.indentation cursor.entry.scene.context cursor.entry.at
        → IfOk result (λ o. NodeAnswers cursor.entry.scene.text.now cursor.entry.scene.indentation cursor.entry.scene.context cursor.entry.scene.limit cursor.entry.at part.new o) }
{
    let Properties {
        props,
        tag_offset,
        comments,
        end,
    } = properties;
    empty(cursor.alloc, part);
    part.comments.append(comments)?;
    let lead = Lead {
        start: cursor.at,
        props,
        tag_offset,
        entry: None,
    };
    let text = Text::Part("");
    push_scalar(cursor.alloc, &lead, ScalarStyle::Plain, text, end, part)?;
    Ok(FlowOutcome::Found(end))
}

// Empties a part.
fn empty<'a>(alloc: Global, part: &mut Part<'a>)
    ensures events { part.new.events ≡ [] }
    ensures comments { part.new.comments ≡ [] }
    ensures escapes { part.new.escapes ≡ [] }
{
    drop(replace(part, new_part(alloc)));
}
