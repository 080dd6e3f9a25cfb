//! Flow nodes, aliases and first keys of mappings on a line, with or without properties before them.
ghost use Rattle.std.specs.Prelude.{◌≡◌, ℕ, ℤ, ◌+◌, ◌^◌, ◌<◌, ◌≤◌, ◌≤ℤ◌, pos, false, None, IfOk, IfSome, MatchOption, length, true, List, ◌∷◌, ◌++◌, Some, MatchBool};
ghost use Rattle.std.specs.List.{All};
ghost use Rattle.std.specs.Str.{IsCharBoundary, IsUtf8};
ghost use Rattle.yf_chars.specs.Text.{code};
ghost use Rattle.yf_chars.specs.Boundary.{BoundaryFrom};
ghost use Rattle.yf_events.specs.Event.{EventInText};
ghost use Rattle.yf_props.specs.Props.{props_value};
ghost use Rattle.yf_grammar.specs.Productions.Meaning.{event_with, start_of};
ghost use Rattle.yf_flow.specs.NodeStarts.{lead_event};
ghost use Rattle.yf_flow.specs.Machine.{EndingAt};
ghost use Rattle.yf_flow.specs.Depth.{EndCounted, openers_from};
ghost use Rattle.yf_block.specs.ContentTied.{AtKeyEnd, AtNodeEnd, KeyOrLost, KeyRead, LeafEnding};
ghost use Rattle.yf_block.specs.Counted.{CountedAt, CountedPast, CountedWith};
ghost use Rattle.yf_block.specs.InlineAnswers.{EmptyKeyAt, InlineEnds, KeyEnds, NoEmptyKey};
ghost use Rattle.yf_block.specs.InlineTied.{started};
ghost use Rattle.yf_block.specs.Machine.{IsReaderReady, IsReaderReadyAfter, PropertiesBefore, earliest_end, MayBoundary};
ghost use Rattle.yf_block.specs.StepAnswers.{StepPromises};

use crate::content::{AfterProperties, Belonging, NodeFacts, NodeStart, is_apart};
use crate::entry::{await_value, collection_start, entry_at, start_with};
use crate::frame::{AwaitedNode, BlockContext, BlockReader, CollectionKind, Frame, Step};
use crate::halt::{note_node, note_shorter};
use crate::line::read_line_end;
use crate::look::{is_sign_at, key_ends};
use crate::properties::{PlacedProperties, lead_of};
use std::alloc::{AllocError, Global};
use yf_chars::context::Ctx;
use yf_chars::text::is_char_at;
use yf_comments::comments::Separation;
use yf_events::event::{Entry, NewEvent, ScalarStyle};
use yf_events::part::Part;
use yf_flow::frame::{FlowContext, Node};
use yf_flow::node::{Lead, push_scalar};
use yf_flow::nodes::{Ending, read_content};
use yf_lines::basic::skip_whites;
use yf_lines::text::Text;
use yf_props::alias::alias_node;

/// Reads an empty key before its `:`, an alias (without properties), or the content of a flow node. `depth`
/// collections are open.
#[inline(always)]
pub(crate) fn read_inline<'a>(
    scope: BlockContext<'a>,
    least: usize,
    at: usize,
    inner: &Option<PlacedProperties<'a>>,
    lead: &Lead<'a>,
    depth: usize,
    part: &mut Part<'a>,
) -> Result<Ending, AllocError>
    requires boundary { IsCharBoundary scope.text.now at }
    requires properties { PropertiesBefore scope.text.now at inner.now }
    requires escapes { All (IsCharBoundary scope.text.now) part.old.escapes }
    ensures answers { IsUtf8 scope.entry.text.now → least ≤ 2 ^ 30 + 1 → (room : ℕ) → depth + room ≡ scope.entry.limit
        → IfOk result (λ e. InlineEnds scope.entry.text.now room (pos least) at depth inner.now lead.now part.old part.new e) }
    ensures escapes { IfOk result (λ _. All (IsCharBoundary scope.entry.text.now) part.new.escapes) }
    ensures found { IfOk result (λ e. EndingAt scope.entry.text.now (earliest_end at inner.now) e) }
    ensures counted { IsUtf8 scope.entry.text.now → (total : ℕ) → (start : ℕ) → start < earliest_end at inner.now
        → depth + openers_from scope.entry.text.now start ≤ total
        → IfOk result (λ e. EndCounted scope.entry.text.now scope.entry.limit total e) }
{
    match empty_key_end(scope.text, at, inner) {
        Some(end) => {
            let style = ScalarStyle::Plain;
            push_scalar(scope.alloc, lead, style, Text::Part(""), end, part)?;
            Ok(inline_end(end, depth))
        }
        None => {
            if is_char_at(scope.text, at, b'*') {
                return match *inner {
                    Some(_) => Ok(Ending::Nothing),
                    None => read_alias(scope, at, lead, depth, part),
                };
            }
            let scene = FlowContext {
                text: scope.text,
                indentation: flow_indentation(least),
                context: Ctx::FlowOut,
                limit: scope.limit,
            };
            read_content(scope.alloc, &scene, at, lead, depth, part)
        }
    }
}

// Returns the offset after properties that are an empty key, if its `:` is at the offset.
fn empty_key_end(text: &str, at: usize, inner: &Option<PlacedProperties>) -> Option<usize>
    requires { PropertiesBefore text.now at inner.now }
    ensures reads { MatchOption result (NoEmptyKey text.now at inner.now) (EmptyKeyAt text.now at inner.now) }
    ensures place { IfSome result (λ p. BoundaryFrom text.now (earliest_end at inner.now) p) }
{
    match *inner {
        None => None,
        Some(properties) => {
            if is_sign_at(text, at, b':') {
                return Some(properties.end);
            }
            None
        }
    }
}

#[inline(never)]
fn read_alias<'a>(
    scope: BlockContext<'a>,
    at: usize,
    lead: &Lead<'a>,
    depth: usize,
    part: &mut Part<'a>,
) -> Result<Ending, AllocError>
    requires { code scope.text.now at ≡ 42 }
    ensures answers { (room : ℕ) → (n : ℤ)
        → IfOk result (λ e. InlineEnds scope.entry.text.now room n at depth None lead.now part.old part.new e) }
    ensures escapes { IfOk result (λ _. part.new.escapes ≡ part.old.escapes) }
    ensures found { IfOk result (λ e. EndingAt scope.entry.text.now (at + 1) e) }
    ensures counted { (limit : ℕ) → (total : ℕ) → depth + openers_from scope.entry.text.now at ≤ total
        → IfOk result (λ e. EndCounted scope.entry.text.now limit total e) }
{
    match alias_node(scope.text, at) {
        None => Ok(Ending::Nothing),
        Some((name, end)) => {
            part.events
                .push(lead.placed(scope.alloc, NewEvent::Alias { name }, end))?;
            Ok(inline_end(end, depth))
        }
    }
}

fn inline_end(end: usize, depth: usize) -> Ending
    ensures { result ≡ Ending.End (record { end = end; json = false; deepest = depth }) }
{
    Ending::End(Node {
        end,
        json: false,
        deepest: depth,
    })
}

// One more than the largest indentation of a collection. No text of 1 GiB has as many columns.
const WIDEST: usize = (1 << 30) + 1;

/// Returns the indentation of that many spaces as a number, at most 2^30 + 1.
pub(crate) fn flow_indentation(least: usize) -> i32
    ensures same { least ≤ 2 ^ 30 + 1 → result ≡ pos least }
    ensures upper { result ≤ℤ pos (2 ^ 30 + 1) }
    ensures lower { pos 0 ≤ℤ result }
{
    least.min(WIDEST) as i32
}

impl<'a> BlockReader<'a> {
    /// Goes on after a flow node on its line: the node is the first key of a mapping, or the line ends.
    #[inline(always)]
    pub(crate) fn finish_inline(
        &mut self,
        scope: BlockContext<'a>,
        after: &AfterProperties<'a>,
        facts: &NodeFacts<'a>,
        node: Node,
    ) -> Result<Step, AllocError>
        requires standing { IsReaderReadyAfter scope.text.now after.now self.old }
        requires node { BoundaryFrom scope.text.now (after.now.node_start.at + 1) node.end }
        ensures { StepPromises (AtNodeEnd after.now facts.now node) (CountedWith node) scope.entry after.now.node_start.at 0 self.old self.new result }
    {
        let colon = skip_whites(scope.text, node.end);
        match keyed_column(scope.text, after.node_start, colon) {
            Some(column) => {
                if node.deepest.max(self.frames.len()) >= scope.limit {
                    return Ok(Step::TooDeep(after.node_start.at));
                }
                self.take_first_key(scope, column, colon, after, facts)
            }
            None => {
                if is_apart(facts.belonging) {
                    return Ok(Step::Failed(after.node_start.at));
                }
                self.progress.last = node.end;
                self.end_inline(scope, plain_place(node, after.at), node.end)
            }
        }
    }

    // Opens a mapping with its first key, which has been read up to its `:`.
    #[inline(never)]
    fn take_first_key(
        &mut self,
        scope: BlockContext<'a>,
        column: usize,
        colon: usize,
        after: &AfterProperties<'a>,
        facts: &NodeFacts<'a>,
    ) -> Result<Step, AllocError>
        requires standing { IsReaderReadyAfter scope.text.now after.now self.old }
        requires order { after.now.node_start.at ≤ colon }
        requires next { IsCharBoundary scope.text.now (colon + 1) }
        ensures { StepPromises (AtKeyEnd after.now facts.now column colon) (CountedPast colon) scope.entry after.now.node_start.at 0 self.old self.new result }
    {
        let frame = Frame::new(CollectionKind::Mapping, column, facts.before.events);
        let entry = entry_at(
            scope.text,
            self.progress.floor,
            after.node_start.at,
            Some(colon),
        );
        begin_mapping(
            scope,
            after,
            facts,
            entry,
            &self.progress.wanted,
            self.frames.len(),
            &mut self.part,
        )?;
        self.frames.push(frame)?;
        Ok(await_value(colon, column, &mut self.progress))
    }

    // Reads the end of the line after a flow node that is not a key. `plain` is the start of a plain scalar.
    #[inline(always)]
    fn end_inline(
        &mut self,
        scope: BlockContext<'a>,
        plain: Option<usize>,
        at: usize,
    ) -> Result<Step, AllocError>
        requires standing { IsReaderReady scope.text.now at self.old }
        requires plain { MayBoundary scope.text.now plain }
        ensures { StepPromises (LeafEnding plain) CountedAt scope.entry at 1 self.old self.new result }
    {
        let text = scope.text;
        match read_line_end(scope.alloc, text, at)? {
            Some(Separation { comments, end }) => {
                self.part.comments.append(comments)?;
                note_node(text, plain, at, end, &mut self.progress, &self.frames);
                Ok(Step::Resume(end))
            }
            None => {
                note_shorter(text, plain, at, &mut self.progress);
                Ok(Step::Failed(skip_whites(text, at)))
            }
        }
    }
}

// Returns the column of a mapping if a key of it begins there and ends at the `:`.
#[inline(always)]
fn keyed_column(text: &str, node_start: NodeStart, colon: usize) -> Option<usize>
    requires { IsCharBoundary text.now node_start.at }
    ensures boundary { IfSome result (λ _. IsCharBoundary text.now (colon + 1)) }
    ensures key { MatchOption result ((m : ℕ) → node_start.column ≡ Some m → KeyEnds text.now (node_start.at) colon → ⊥)
        (λ m. (node_start.column ≡ Some m) × KeyEnds text.now (node_start.at) colon) }
{
    match node_start.column {
        Some(column) => {
            if key_ends(text, node_start.at, colon) {
                return Some(column);
            }
            None
        }
        None => None,
    }
}

// Returns whether the properties of earlier lines belong to the node, unless it is a key.
fn is_joined(belonging: Belonging) -> bool
    ensures { MatchBool result (belonging ≡ Belonging.Joined) (belonging ≡ Belonging.Joined → ⊥) }
{
    match belonging {
        Belonging::Joined => true,
        Belonging::Nothing | Belonging::Apart => false,
    }
}

// Returns the start of a node without quotes or brackets.
fn plain_place(node: Node, at: usize) -> Option<usize>
    ensures other { node.json ≡ true → result ≡ None }
    ensures plain { node.json ≡ false → result ≡ Some at }
{
    if node.json { None } else { Some(at) }
}

// Puts the event that begins a mapping before its first key. The mapping has the properties of earlier lines.
#[inline(always)]
fn begin_mapping<'a>(
    scope: BlockContext<'a>,
    after: &AfterProperties<'a>,
    facts: &NodeFacts<'a>,
    entry: Entry,
    wanted: &AwaitedNode<'a>,
    depth: usize,
    part: &mut Part<'a>,
) -> Result<(), AllocError>
    requires place { IsCharBoundary scope.text.now after.now.at }
    requires properties { PropertiesBefore scope.text.now after.now.at after.now.inner }
    requires escapes { All (IsCharBoundary scope.text.now) part.old.escapes }
    ensures key { (earlier : Part) → (room : ℕ) → IsUtf8 scope.entry.text.now → wanted.now.least ≤ 2 ^ 30 + 1
        → depth + room ≡ scope.entry.limit
        → KeyRead scope.entry.text.now room (pos wanted.now.least) depth after.now facts.now wanted.now earlier part.old
        → IfOk result (λ _. KeyOrLost scope.entry.text.now room (pos wanted.now.least) depth after.now entry
        (started CollectionKind.Mapping after.now.node_start.at wanted.now) earlier part.new) }
    ensures escapes { IfOk result (λ _. All (IsCharBoundary scope.entry.text.now) part.new.escapes) }
{
    if is_joined(facts.belonging) {
        return begin_held_mapping(scope, after, facts, entry, wanted, depth, part);
    }
    match wanted.outer {
        Some(_) => begin_held_mapping(scope, after, facts, entry, wanted, depth, part),
        None => {
            let at = after.node_start.at;
            let lead = Lead::bare(at, wanted.entry);
            put_before(scope.alloc, facts.before.events, at, lead, entry, part)
        }
    }
}

// Like `begin_mapping`, with properties on earlier lines: a key read with them is read again.
// A function of its own, which is faster: see row `begin_held_mapping` of docs/PERF.md.
#[inline(never)]
fn begin_held_mapping<'a>(
    scope: BlockContext<'a>,
    after: &AfterProperties<'a>,
    facts: &NodeFacts<'a>,
    entry: Entry,
    wanted: &AwaitedNode<'a>,
    depth: usize,
    part: &mut Part<'a>,
) -> Result<(), AllocError>
    requires place { IsCharBoundary scope.text.now after.now.at }
    requires properties { PropertiesBefore scope.text.now after.now.at after.now.inner }
    requires escapes { All (IsCharBoundary scope.text.now) part.old.escapes }
    ensures key { (earlier : Part) → (room : ℕ) → IsUtf8 scope.entry.text.now → wanted.now.least ≤ 2 ^ 30 + 1
        → depth + room ≡ scope.entry.limit
        → KeyRead scope.entry.text.now room (pos wanted.now.least) depth after.now facts.now wanted.now earlier part.old
        → IfOk result (λ _. KeyOrLost scope.entry.text.now room (pos wanted.now.least) depth after.now entry
        (started CollectionKind.Mapping after.now.node_start.at wanted.now) earlier part.new) }
    ensures escapes { IfOk result (λ _. All (IsCharBoundary scope.entry.text.now) part.new.escapes) }
{
    let at = after.node_start.at;
    if is_joined(facts.belonging) {
        facts.before.cut(part);
        part.events.push(collection_start(scope.alloc, CollectionKind::Mapping, at, wanted))?;
        let lead = lead_of(at, after.inner, Some(entry));
        let _again = read_inline(
            scope,
            wanted.least,
            after.at,
            &after.inner,
            &lead,
            depth,
            part,
        )?;
        return Ok(());
    }
    let lead = lead_of(at, wanted.outer, wanted.entry);
    put_before(scope.alloc, facts.before.events, at, lead, entry, part)
}

// Puts the event that begins a mapping before the event at an index, which begins the entry. Changes nothing if the
// index has no event.
#[inline(always)]
fn put_before<'a>(
    alloc: Global,
    event: usize,
    at: usize,
    lead: Lead<'a>,
    entry: Entry,
    part: &mut Part<'a>,
) -> Result<(), AllocError>
    ensures events { (earlier : List EventInText) → (first : EventInText) → (others : List EventInText) → event ≡ length earlier
        → part.old.events ≡ earlier ++ first ∷ others
        → IfOk result (λ _. part.new.events ≡ earlier ++ lead_event lead.entry (event_with (props_value lead.entry.props) (start_of false false)) at
        ∷ record first { entry = Some entry } ∷ others) }
    ensures comments { part.new.comments ≡ part.old.comments }
    ensures escapes { part.new.escapes ≡ part.old.escapes }
{
    if event < part.events.len() {
        part.events.set_entry(event, entry)?;
        return part.events.insert(event, start_with(alloc, CollectionKind::Mapping, at, lead));
    }
    Ok(())
}
