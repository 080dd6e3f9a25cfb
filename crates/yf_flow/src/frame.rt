//! The open collections of a flow node, and the steps of its reader.
ghost use Rattle.std.specs.Prelude.{◌≡◌, max, MatchBool};
ghost use Rattle.yf_flow.specs.StepTerms.{first_role};

use smallvec::SmallVec;
use std::alloc::Global;
use yf_chars::context::Ctx;
use yf_events::part::Part;

/// The input of a reader: the text, its indentation and context, and the limit of collections that may be open at
/// once.
#[derive(Clone, Copy)]
pub struct FlowContext<'a> {
    pub text: &'a str,
    pub indentation: i32,
    pub context: Ctx,
    pub limit: usize,
}

/// The offset in the input at which a node is awaited, and the number of collections open there.
#[derive(Clone, Copy)]
pub(crate) struct FlowCursor<'a> {
    pub(crate) alloc: Global,
    pub(crate) scene: FlowContext<'a>,
    pub(crate) at: usize,
    pub(crate) depth: usize,
}

/// The kind of an open collection. A single pair is a mapping without brackets, in a sequence.
#[derive(Clone, Copy, Default)]
pub(crate) enum CollectionKind {
    #[default]
    Sequence,
    Mapping,
    Pair,
}

/// The role of a node in its entry.
#[derive(Clone, Copy, Default)]
pub(crate) enum Role {
    /// An item of a sequence, or the key of a single pair.
    #[default]
    Item,
    Key,
    Value,
}

/// An open collection: the reader's state for it while it reads a node within it.
#[derive(Clone, Copy, Default)]
pub(crate) struct Frame {
    pub(crate) kind: CollectionKind,
    /// The number of open collections, including this one.
    pub(crate) depth: usize,
    /// The most collections that were open at once within it.
    pub(crate) deepest: usize,
    /// The index of the event that begins it.
    pub(crate) event: usize,
    /// The byte offset at which its present entry begins.
    pub(crate) entry: usize,
    /// The index of the event that begins its present entry, as item or key, until a value is awaited in it.
    pub(crate) entry_event: usize,
    /// The role of the present node.
    pub(crate) role: Role,
}

/// A node after reading.
#[derive(Clone, Copy)]
pub struct Node {
    /// The byte offset after it.
    pub end: usize,
    /// Whether it is a node like those of JSON: a quoted scalar or a flow collection.
    pub json: bool,
    /// The most collections that were open at once until its end.
    pub deepest: usize,
}

/// The next step.
#[derive(Clone, Copy)]
pub(crate) enum Step {
    /// A node is awaited at the byte offset.
    Node(usize),
    /// An entry, or the bracket that closes the collection, is awaited at the byte offset or after a separation.
    Entry(usize),
    /// A node of the collection has been read.
    Ended(Node),
    /// The outermost collection has been read.
    Done(Node),
    /// No node is derived.
    Failed,
    /// The collection at the byte offset would exceed the limit.
    TooDeep(usize),
}

/// The reader of a collection: the state that its steps change.
#[derive(Drop)]
pub(crate) struct FlowReader<'a> {
    pub(crate) alloc: Global,
    /// The innermost open collection.
    pub(crate) top: Frame,
    /// The open collections around it, the outermost first.
    pub(crate) below: SmallVec<Frame, 8>,
    /// The events, comments and escapes read so far.
    pub(crate) part: Part<'a>,
}

impl CollectionKind {
    pub(crate) fn is_pair(self) -> bool
        ensures cases { MatchBool result (self ≡ CollectionKind.Pair) (self ≡ CollectionKind.Pair → ⊥) }
    {
        match self {
            CollectionKind::Sequence => false,
            CollectionKind::Mapping => false,
            CollectionKind::Pair => true,
        }
    }
}

impl Frame {
    /// Returns the collection with another entry. The index is that of the entry's first event.
    pub(crate) fn with_entry(self, entry: usize, entry_event: usize) -> Frame
        ensures event { result.event ≡ self.event }
        ensures index { result.entry_event ≡ entry_event }
        ensures entry { result.entry ≡ entry }
        ensures kind { result.kind ≡ self.kind }
        ensures depth { result.depth ≡ self.depth }
        ensures deepest { result.deepest ≡ self.deepest }
        ensures role { result.role ≡ first_role self.kind }
    {
        let role = match self.kind {
            CollectionKind::Sequence => Role::Item,
            CollectionKind::Mapping | CollectionKind::Pair => Role::Key,
        };
        Frame {
            entry,
            entry_event,
            role,
            ..self
        }
    }

    /// Returns the collection with a value awaited in its entry.
    pub(crate) fn with_value(self) -> Frame
        ensures event { result.event ≡ self.event }
        ensures index { result.entry_event ≡ self.entry_event }
        ensures entry { result.entry ≡ self.entry }
        ensures kind { result.kind ≡ self.kind }
        ensures depth { result.depth ≡ self.depth }
        ensures deepest { result.deepest ≡ self.deepest }
        ensures role { result.role ≡ Role.Value }
    {
        Frame {
            role: Role::Value,
            ..self
        }
    }

    /// Returns the collection with a node in it.
    pub(crate) fn reaching(self, deepest: usize) -> Frame
        ensures event { result.event ≡ self.event }
        ensures index { result.entry_event ≡ self.entry_event }
        ensures entry { result.entry ≡ self.entry }
        ensures kind { result.kind ≡ self.kind }
        ensures depth { result.depth ≡ self.depth }
        ensures deepest { result.deepest ≡ max self.deepest deepest }
        ensures role { result.role ≡ self.role }
    {
        Frame {
            deepest: self.deepest.max(deepest),
            ..self
        }
    }
}
