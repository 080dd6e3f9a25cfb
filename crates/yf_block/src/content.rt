//! The parts of a node on one line: the sign of an entry, properties, a block scalar, or a flow node.
ghost use Rattle.std.specs.Prelude.{◌≡◌, ◌+◌, Some, MatchBool, ℕ, MatchOption};
ghost use Rattle.std.specs.Str.{IsCharBoundary};
ghost use Rattle.yf_chars.specs.Boundary.{BoundaryFrom};
ghost use Rattle.yf_grammar.specs.BlockReader.BlockParser.{Ahead};
ghost use Rattle.yf_block.specs.declared.properties.PlacedProperties.{PlacedProperties as PropertiesThere};
ghost use Rattle.yf_block.specs.BlockStepTied.{AheadTied};
ghost use Rattle.yf_block.specs.BelongingTied.{BelongingTied};
ghost use Rattle.yf_block.specs.ContentTied.{AtAfterProperties, AtProperties, AtUndashed, CountsOf};
ghost use Rattle.yf_block.specs.Counted.{CountedAt};
ghost use Rattle.yf_block.specs.PropertiesAnswers.{HoldsProperties, LineProperties, held_lead, lead_at};
ghost use Rattle.yf_block.specs.InlineTied.{EntrySignAt};
ghost use Rattle.yf_block.specs.Machine.{PropertiesTo, IsReaderReady};
ghost use Rattle.yf_block.specs.StepAnswers.{StepPromises};

use crate::frame::{BlockContext, BlockReader, CollectionKind, Step};
use crate::halt::Counts;
use crate::inline::read_inline;
use crate::line::read_line_end;
use crate::look::{is_entry_sign_at, line_ends};
use crate::properties::{
    PlacedProperties, is_property_at, joined, joined_after, lead_of, line_properties, place_after,
};
use crate::scalar::is_block_scalar_at;
use std::alloc::AllocError;
use yf_chars::text::is_char_at;
use yf_events::event::Entry;
use yf_events::part::Part;
use yf_flow::node::Lead;
use yf_flow::nodes::Ending;
use yf_lines::basic::skip_whites;

/// The offset on a line at which the text of a node begins.
#[derive(Clone, Copy)]
pub(crate) struct NodeStart {
    pub(crate) at: usize,
    /// The column of a collection that may begin there.
    pub(crate) column: Option<usize>,
}

/// The text after the properties of a line.
#[derive(Clone, Copy)]
pub(crate) struct AfterProperties<'a> {
    pub(crate) at: usize,
    /// The properties of the line.
    pub(crate) inner: Option<PlacedProperties<'a>>,
    /// The start of the node's text.
    pub(crate) node_start: NodeStart,
}

/// The owner of properties on earlier lines.
#[derive(Clone, Copy)]
pub(crate) enum Belonging {
    /// No earlier line has properties.
    Nothing,
    /// They belong to the node on the line, unless it is a key.
    Joined,
    /// They can't belong to the node on the line, so it must be the first key of a mapping.
    Apart,
}

/// The reader's knowledge of a node before its text.
#[derive(Clone, Copy)]
pub(crate) struct NodeFacts<'a> {
    pub(crate) lead: Lead<'a>,
    pub(crate) belonging: Belonging,
    /// The counts of the part before the node.
    pub(crate) before: Counts,
}

/// Returns whether the properties of earlier lines can't belong to the node on the line.
pub(crate) fn is_apart(belonging: Belonging) -> bool
    ensures { MatchBool result (belonging ≡ Belonging.Apart) (belonging ≡ Belonging.Apart → ⊥) }
{
    match belonging {
        Belonging::Apart => true,
        Belonging::Nothing | Belonging::Joined => false,
    }
}

impl<'a> BlockReader<'a> {
    /// Begins the content of a node on a line.
    #[inline(always)]
    pub(crate) fn take_content(
        &mut self,
        scope: BlockContext<'a>,
        node_start: NodeStart,
    ) -> Result<Step, AllocError>
        requires { IsReaderReady scope.text.now node_start.at self.old }
        ensures { StepPromises (AtUndashed node_start.column) CountedAt scope.entry node_start.at 0 self.old self.new result }
    {
        if is_property_at(scope.text, node_start.at) {
            return self.take_held_content(scope, node_start);
        }
        match signed_column(scope.text, node_start) {
            Some(column) => self.open_collection(
                scope,
                CollectionKind::Mapping,
                node_start.at,
                column,
            ),
            None => {
                let after = AfterProperties {
                    at: node_start.at,
                    inner: None,
                    node_start,
                };
                self.take_after_properties(scope, &after)
            }
        }
    }

    // Like `take_content`, for content that begins with a property. A function of its own, which is
    // faster: see row `take_held_content` of docs/PERF.md.
    #[inline(never)]
    fn take_held_content(
        &mut self,
        scope: BlockContext<'a>,
        node_start: NodeStart,
    ) -> Result<Step, AllocError>
        requires { IsReaderReady scope.text.now node_start.at self.old }
        ensures { StepPromises (AtUndashed node_start.column) CountedAt scope.entry node_start.at 0 self.old self.new result }
    {
        match signed_column(scope.text, node_start) {
            Some(column) => self.open_collection(
                scope,
                CollectionKind::Mapping,
                node_start.at,
                column,
            ),
            None => match line_properties(scope.alloc, scope.text, node_start.at)? {
                Some(inner) => self.take_propertied(scope, inner, node_start),
                None => {
                    let after = AfterProperties {
                        at: node_start.at,
                        inner: None,
                        node_start,
                    };
                    self.take_after_properties(scope, &after)
                }
            },
        }
    }

    // Takes a flow node, a key or a block scalar after the properties of its line. Few nodes have properties on
    // earlier lines.
    #[inline(always)]
    fn take_after_properties(
        &mut self,
        scope: BlockContext<'a>,
        after: &AfterProperties<'a>,
    ) -> Result<Step, AllocError>
        requires standing { IsReaderReady scope.text.now after.now.at self.old }
        requires start { IsCharBoundary scope.text.now after.now.node_start.at }
        requires properties { PropertiesTo scope.text.now after.now.node_start.at after.now.at after.now.inner }
        ensures { StepPromises (AtAfterProperties after.now) CountedAt scope.entry after.now.node_start.at 0 self.old self.new result }
    {
        match self.progress.wanted.outer {
            Some(outer) => self.take_after_lines(scope, after, outer),
            None => {
                let facts = facts_alone(after, self.progress.wanted.entry, &self.part);
                self.take_text(scope, after, &facts)
            }
        }
    }

    // Like `take_after_properties`, with properties on earlier lines. A function of its own, which is faster:
    // see row `take_after_lines` of docs/PERF.md.
    #[inline(never)]
    fn take_after_lines(
        &mut self,
        scope: BlockContext<'a>,
        after: &AfterProperties<'a>,
        outer: PlacedProperties<'a>,
    ) -> Result<Step, AllocError>
        requires standing { IsReaderReady scope.text.now after.now.at self.old }
        requires start { IsCharBoundary scope.text.now after.now.node_start.at }
        requires properties { PropertiesTo scope.text.now after.now.node_start.at after.now.at after.now.inner }
        requires outer { self.old.progress.wanted.outer ≡ Some outer }
        ensures { StepPromises (AtAfterProperties after.now) CountedAt scope.entry after.now.node_start.at 0 self.old self.new result }
    {
        let facts = facts_with_outer(
            scope.text,
            after,
            outer,
            self.progress.wanted.entry,
            Counts::of(&self.part),
        );
        self.take_text(scope, after, &facts)
    }

    // Takes the text of a node or key with known facts.
    #[inline(always)]
    fn take_text(
        &mut self,
        scope: BlockContext<'a>,
        after: &AfterProperties<'a>,
        facts: &NodeFacts<'a>,
    ) -> Result<Step, AllocError>
        requires standing { IsReaderReady scope.text.now after.now.at self.old }
        requires start { IsCharBoundary scope.text.now after.now.node_start.at }
        requires properties { PropertiesTo scope.text.now after.now.node_start.at after.now.at after.now.inner }
        requires counts { CountsOf self.old.part facts.now.before }
        requires belonging { (a : Ahead) → AheadTied a self.old.progress.wanted.outer
            → ((h : PropertiesThere) → after.now.inner ≡ Some h → LineProperties scope.text.now after.now.node_start.at h)
            → BelongingTied scope.text.now after.now.node_start.at after.now.at a after.now.inner self.old.progress.wanted.entry
            facts.now.lead facts.now.belonging }
        ensures { StepPromises (AtAfterProperties after.now) CountedAt scope.entry after.now.node_start.at 0 self.old self.new result }
    {
        if is_block_scalar_at(scope.text, after.at) {
            if is_apart(facts.belonging) {
                return Ok(Step::Failed(after.node_start.at));
            }
            return self.take_block_scalar(scope, after.at, &facts.lead);
        }
        match read_inline(
            scope,
            self.progress.wanted.least,
            after.at,
            &after.inner,
            &facts.lead,
            self.frames.len(),
            &mut self.part,
        )? {
            Ending::End(node) => self.finish_inline(scope, after, facts, node),
            Ending::Nothing => Ok(Step::Failed(after.at)),
            Ending::TooDeep(place) => Ok(Step::TooDeep(place)),
        }
    }

    // Takes the text after the properties of a line: nothing if the node is on a later line, or the content of a node
    // or key.
    #[inline(never)]
    fn take_propertied(
        &mut self,
        scope: BlockContext<'a>,
        inner: PlacedProperties<'a>,
        node_start: NodeStart,
    ) -> Result<Step, AllocError>
        requires standing { IsReaderReady scope.text.now node_start.at self.old }
        requires inner { BoundaryFrom scope.text.now (node_start.at + 1) inner.end }
        ensures { StepPromises (AtProperties inner.entry node_start.column) CountedAt scope.entry node_start.at 0 self.old self.new result }
    {
        let place = skip_whites(scope.text, inner.end);
        if line_ends(scope.text, place, place > inner.end) {
            match joined_after(self.progress.wanted.outer, inner) {
                None => {
                    let _ended = read_line_end(scope.alloc, scope.text, inner.end)?;
                    return Ok(Step::Failed(node_start.at));
                }
                Some(outer) => {
                    self.progress.wanted.outer = Some(outer);
                    return self.end_line(scope, inner.end);
                }
            }
        }
        match place_after(scope.text, inner) {
            None => Ok(Step::Failed(place)),
            Some(at) => {
                let after = AfterProperties {
                    at,
                    inner: Some(inner),
                    node_start,
                };
                self.take_after_properties(scope, &after)
            }
        }
    }
}

// Returns the column of a mapping if its first entry begins there with a `?` or a `:`.
fn signed_column(text: &str, node_start: NodeStart) -> Option<usize>
    ensures { MatchOption result ((m : ℕ) → node_start.column ≡ Some m → EntrySignAt text.now (node_start.at) → ⊥)
        (λ m. (node_start.column ≡ Some m) × EntrySignAt text.now (node_start.at)) }
{
    match node_start.column {
        Some(column) => {
            if is_entry_sign_at(text, node_start.at) {
                return Some(column);
            }
            None
        }
        None => None,
    }
}

// Returns the facts about a node after the properties of its line, before it is known to be a key. No earlier line
// has properties.
#[inline(always)]
fn facts_alone<'a>(
    after: &AfterProperties<'a>,
    entry: Option<Entry>,
    part: &Part<'a>,
) -> NodeFacts<'a>
    ensures counts { CountsOf part.now result.before }
    ensures lead { result.lead ≡ lead_at after.now.node_start.at after.now.inner entry }
    ensures belonging { result.belonging ≡ Belonging.Nothing }
{
    NodeFacts {
        lead: lead_of(after.node_start.at, after.inner, entry),
        belonging: Belonging::Nothing,
        before: Counts::of(part),
    }
}

// Like `facts_alone`, with properties on earlier lines.
#[inline(never)]
fn facts_with_outer<'a>(
    text: &str,
    after: &AfterProperties<'a>,
    outer: PlacedProperties<'a>,
    entry: Option<Entry>,
    before: Counts,
) -> NodeFacts<'a>
    ensures before { result.before ≡ before }
    ensures belonging { (a : Ahead) → HoldsProperties a outer.entry
        → ((h : PropertiesThere) → after.now.inner ≡ Some h → LineProperties text.now after.now.node_start.at h)
        → BelongingTied text.now after.now.node_start.at after.now.at a after.now.inner entry result.lead result.belonging }
{
    if is_char_at(text, after.at, b'*') {
        return apart_facts(after, entry, before);
    }
    match after.inner {
        None => joined_facts(outer, entry, before),
        Some(inner) => match joined(outer, inner) {
            None => apart_facts(after, entry, before),
            Some(properties) => joined_facts(properties, entry, before),
        },
    }
}

// Returns the facts about a node that has all properties, unless it is a key.
fn joined_facts<'a>(
    properties: PlacedProperties<'a>,
    entry: Option<Entry>,
    before: Counts,
) -> NodeFacts<'a>
    ensures lead { result.lead ≡ held_lead properties.entry entry }
    ensures belonging { result.belonging ≡ Belonging.Joined }
    ensures before { result.before ≡ before }
{
    NodeFacts {
        lead: properties.lead(entry),
        belonging: Belonging::Joined,
        before,
    }
}

// Returns the facts about a node that has only the properties of its line.
fn apart_facts<'a>(
    after: &AfterProperties<'a>,
    entry: Option<Entry>,
    before: Counts,
) -> NodeFacts<'a>
    ensures lead { result.lead ≡ lead_at after.now.node_start.at after.now.inner entry }
    ensures belonging { result.belonging ≡ Belonging.Apart }
    ensures before { result.before ≡ before }
{
    NodeFacts {
        lead: lead_of(after.node_start.at, after.inner, entry),
        belonging: Belonging::Apart,
        before,
    }
}
