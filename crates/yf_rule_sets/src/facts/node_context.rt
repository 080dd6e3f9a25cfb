//! Finds the block collection around each node and the column of its entries, in one pass over the events that keeps
//! only the open collections. Columns count from 0.
ghost use Rattle.std.specs.Prelude.{◌≡◌, ◌<◌, ◌+◌, ◌&&◌, ℕ, List, Some, None, [], drop, get_or, length, reverse, slice_get, IfOk};
ghost use Rattle.yf_events.specs.Event.{EventValue, scalar_node};
ghost use Rattle.yf_events.specs.Reading.{events_of};
ghost use Rattle.yf_events.specs.declared.event.ScalarStyle.{ScalarStyle};
ghost use Rattle.yf_props.specs.Props.{PropsValue};
ghost use Rattle.yf_rule_sets.specs.Passes.Entries as Entries;
ghost use Rattle.yf_rule_sets.specs.Passes.Entries.{all_entries, entries_from, start_at, unmarked_at};
ghost use Rattle.yf_rule_sets.specs.Passes.ContextPass.{IsPass, OpeningPass, Passes};
ghost use Rattle.yf_rule_sets.specs.Passes.NodeContexts.{after, held, is_beside, past, stand_in};

use crate::facts::found::push_found;
use crate::facts::places::columns_of;
use crate::facts::whites::has_question_mark;
use std::alloc::{AllocError, Global};
use yf_events::event::Event;
use yf_events::reading::Reading;
use yf_lines::source_text::Src;

/// What holds a node.
#[derive(Clone, Copy)]
pub enum Around {
    /// Nothing: the node is the root of a document.
    Nothing,
    /// A block collection with entries at that column.
    Entries(usize),
    /// A flow collection, or a block collection without a position of its first entry.
    Unknown,
}

/// The context of the node that an event begins.
#[derive(Clone, Copy)]
pub struct NodeContext {
    pub outer: Around,
    /// Whether the node is the value of a key without `?`.
    pub is_implicit_value: bool,
    /// The column of the first entry, of a block collection.
    pub column: Option<usize>,
    /// The byte offset of the first entry, of a block collection.
    pub first: usize,
}

impl NodeContext {
    const NONE: NodeContext = NodeContext {
        outer: Around::Unknown,
        is_implicit_value: false,
        column: None,
        first: 0,
    };
}

/// An open collection.
#[derive(Clone, Copy)]
struct ContextFrame {
    column: Option<usize>,
    is_map: bool,
    /// In a mapping, if a value comes next, whether its key has no `?`.
    key: Option<bool>,
}

/// Returns the byte offset of the entry that the event begins, if it is a boundary.
#[inline(always)]
fn entry_start(src: &Src, reading: &Reading, i: usize) -> Option<usize>
    requires { i < length reading.now.events }
    ensures { result ≡ start_at src.now.text (Entries.first_entry (drop i reading.now.events)) }
{
    match reading.entry(i) {
        Some(entry) => {
            if src.text().is_char_boundary(entry.start) {
                return Some(entry.start);
            }
            None
        }
        None => None,
    }
}

/// Returns whether the event begins a block collection.
#[inline(always)]
fn starts_block(reading: &Reading, i: usize) -> bool
    requires { i < length reading.now.events }
    ensures { (e : EventValue) → slice_get (events_of reading.now) i ≡ Some e → result ≡ Entries.starts_block e }
{
    match reading.event(i) {
        Event::SeqStart { flow, .. } => !flow,
        Event::MapStart { flow, .. } => !flow,
        _ => false,
    }
}

/// Returns the byte offset of the first entry of the block collection that the event begins.
#[inline(always)]
fn first_entry(src: &Src, reading: &Reading, i: usize) -> Option<usize>
    requires { i < length reading.now.events }
    ensures { result ≡ entries_from src.now.text (drop i reading.now.events) }
{
    if starts_block(reading, i) {
        let next = i.saturating_add(1);
        if next < reading.len() {
            return entry_start(src, reading, next);
        }
    }
    None
}

/// Returns the byte offsets of the first entries of all block collections, in order.
fn first_entries(alloc: Global, src: &Src, reading: &Reading) -> Result<Vec<usize>, AllocError>
    ensures { IfOk result (λ offsets. offsets.items ≡ all_entries src.now.text reading.now.events) }
{
    let mut offsets = Vec::new(alloc);
    for i in 0..reading.len() {
        push_found(&mut offsets, first_entry(src, reading, i))?;
    }
    Ok(offsets)
}

/// Passes a node in the collection and returns whether it is the value of a key without `?`.
#[inline(always)]
fn begins_next_entry(collection: &mut ContextFrame, src: &Src, reading: &Reading, i: usize) -> bool
    requires { i < length reading.now.events }
    ensures collection { collection.new ≡ past (unmarked_at src.now.text reading.now.events i) collection.old }
    ensures value { result ≡ (collection.old.is_map && is_beside collection.old.key) }
{
    if !collection.is_map {
        return false;
    }
    match collection.key {
        Some(is_implicit) => {
            collection.key = None;
            is_implicit
        }
        None => {
            collection.key = Some(match reading.entry(i) {
                Some(entry) => !has_question_mark(src.text(), entry),
                None => false,
            });
            false
        }
    }
}

/// Returns what holds the next node, from the innermost open collection.
#[inline(always)]
fn held_by(collection: &ContextFrame) -> Around
    ensures { result ≡ held collection.now.column }
{
    match collection.column {
        Some(column) => Around::Entries(column),
        None => Around::Unknown,
    }
}

/// Returns the context of the next node, without its own entries.
#[inline(always)]
fn next_context(
    stack: &mut Vec<ContextFrame>,
    src: &Src,
    reading: &Reading,
    i: usize,
) -> NodeContext
    requires { i < length reading.now.events }
    ensures stack { reverse stack.new.items ≡ after (unmarked_at src.now.text reading.now.events i) (reverse stack.old.items) }
    ensures stand { result ≡ stand_in (reverse stack.old.items) None 0 }
{
    match stack.last_mut() {
        None => NodeContext {
            outer: Around::Nothing,
            is_implicit_value: false,
            column: None,
            first: 0,
        },
        Some(collection) => {
            let is_value = begins_next_entry(collection, src, reading, i);
            NodeContext {
                outer: held_by(collection),
                is_implicit_value: is_value,
                column: None,
                first: 0,
            }
        }
    }
}

/// A pass over the events of a reading that finds the context of each node.
#[derive(Drop)]
pub struct Pass {
    /// The columns of the first entries of all block collections, in order.
    columns: Vec<usize>,
    /// How many of these collections have begun.
    begun: usize,
    stack: Vec<ContextFrame>,
}

impl Pass {
    /// Returns a pass before the first event of a reading.
    pub fn new(alloc: Global, src: &Src, reading: &Reading) -> Result<Pass, AllocError>
        ensures pass { IfOk result (λ pass. IsPass src.now.text reading.now.events pass.columns.items pass.begun 0) }
        ensures stack { IfOk result (λ pass. reverse pass.stack.items ≡ []) }
    {
        let offsets = first_entries(alloc, src, reading)?;
        Ok(Pass {
            columns: columns_of(src, offsets),
            begun: 0,
            stack: Vec::new(alloc),
        })
    }

    /// Passes the event at an index, which is the next one, and returns the context of the node that it begins.
    #[inline(always)]
    pub fn next(
        &mut self,
        src: &Src,
        reading: &Reading,
        i: usize,
    ) -> Result<NodeContext, AllocError>
        requires { i < length reading.now.events }
        ensures { IfOk result (λ stand. (e : EventValue) → slice_get (events_of reading.now) i ≡ Some e
            → Passes src.now.text reading.now.events i e self.old self.new stand) }
    {
        match reading.event(i) {
            Event::Scalar { .. } | Event::Alias { .. } => {
                Ok(next_context(&mut self.stack, src, reading, i))
            }
            Event::SeqStart { .. } => self.open(src, reading, i, false),
            Event::MapStart { .. } => self.open(src, reading, i, true),
            Event::SeqEnd | Event::MapEnd => {
                let _ = self.stack.pop();
                Ok(NodeContext::NONE)
            }
            Event::StreamStart | Event::StreamEnd | Event::DocStart { .. } | Event::DocEnd { .. } =>
                Ok(NodeContext::NONE),
        }
    }

    /// Passes a scalar, the next event, without computing its context.
    #[inline(always)]
    pub fn go_by(&mut self, src: &Src, reading: &Reading, i: usize)
        requires { i < length reading.now.events }
        ensures { (props : PropsValue) (style : ScalarStyle) (text : List ℕ) → slice_get (events_of reading.now) i ≡ Some (scalar_node props style text)
            → Passes src.now.text reading.now.events i (scalar_node props style text) self.old self.new (stand_in (reverse self.old.stack.items) None 0) }
    {
        let _ = next_context(&mut self.stack, src, reading, i);
    }

    /// Passes the start of a collection.
    #[inline(always)]
    fn open(
        &mut self,
        src: &Src,
        reading: &Reading,
        i: usize,
        is_map: bool,
    ) -> Result<NodeContext, AllocError>
        requires { i < length reading.now.events }
        ensures { IfOk result (λ stand. OpeningPass src.now.text reading.now.events i is_map self.old self.new stand) }
    {
        let stand = next_context(&mut self.stack, src, reading, i);
        let first = first_entry(src, reading, i);
        let column = match first {
            Some(_) => Some(self.next_column()),
            None => None,
        };
        self.stack.push(ContextFrame {
            column,
            is_map,
            key: None,
        })?;
        Ok(NodeContext {
            outer: stand.outer,
            is_implicit_value: stand.is_implicit_value,
            column,
            first: first.unwrap_or(0),
        })
    }

    /// Returns the column of the first entry of the block collection that begins next.
    fn next_column(&mut self) -> usize
        ensures column { result ≡ get_or self.old.columns.items self.old.begun 0 }
        ensures begun { self.old.begun < length self.old.columns.items → self.new.begun ≡ self.old.begun + 1 }
        ensures columns { self.new.columns ≡ self.old.columns }
        ensures stack { self.new.stack ≡ self.old.stack }
    {
        let k = self.begun;
        self.begun = k.saturating_add(1);
        if k < self.columns.len() {
            return self.columns[k];
        }
        0
    }
}
