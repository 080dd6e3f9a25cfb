//! The open collections of a block node, and the steps of its reader.
ghost use Rattle.std.specs.Prelude.{◌≡◌, false};

use crate::properties::PlacedProperties;
use smallvec::SmallVec;
use std::alloc::Global;
use yf_events::event::Entry;
use yf_events::part::Part;

/// The input of a reader: the text, and the limit of collections that may be open at once. The allocator gives memory
/// for what is read.
#[derive(Clone, Copy)]
pub(crate) struct BlockContext<'a> {
    pub(crate) alloc: Global,
    pub(crate) text: &'a str,
    pub(crate) limit: usize,
}

/// The kind of an open collection.
#[derive(Clone, Copy, Default)]
pub(crate) enum CollectionKind {
    #[default]
    Sequence,
    Mapping,
}

/// An open block collection.
#[derive(Clone, Copy, Default)]
pub(crate) struct Frame {
    pub(crate) kind: CollectionKind,
    /// The column of its entries: the number of spaces before each.
    pub(crate) column: usize,
    /// The index of the event that begins it.
    pub(crate) event: usize,
    /// The index of the event that begins its last entry with a `?`.
    pub(crate) entry_event: usize,
    /// Whether it awaits the `:` of an entry with a `?`.
    pub(crate) awaits_colon: bool,
}

/// The open collections, the outermost first.
pub(crate) type Frames = SmallVec<Frame, 8>;

/// The start of an entry; the frame of its collection is not on the stack.
#[derive(Clone, Copy)]
pub(crate) struct EntryStart {
    pub(crate) frame: Frame,
    pub(crate) at: usize,
}

/// The awaited node.
#[derive(Clone, Copy)]
pub(crate) struct AwaitedNode<'a> {
    /// The least number of spaces of its indentation, n + 1.
    pub(crate) least: usize,
    /// Whether a sequence may be one column less deep, as in the context block-out.
    pub(crate) out: bool,
    /// Whether a collection may begin on the line of the indicator before it (s-l+block-indented, production 185).
    pub(crate) compact: bool,
    /// The entry that it begins.
    pub(crate) entry: Option<Entry>,
    /// Its properties on earlier lines.
    pub(crate) outer: Option<PlacedProperties<'a>>,
}

/// The next step of the reader, at a byte offset.
#[derive(Clone, Copy)]
pub(crate) enum Step {
    /// The awaited node comes after an indicator that ends there.
    Node(usize),
    /// The awaited node comes at the start of a line.
    Line(usize),
    /// A node has been read; the line may go on with an open collection.
    Resume(usize),
    /// The outermost node has been read; it ends there.
    Done(usize),
    /// The text goes wrong.
    Failed(usize),
    /// The text opens more collections than the limit.
    TooDeep(usize),
}

/// The cursor in the text, and the awaited node. The reader changes it in place.
#[derive(Clone, Copy)]
pub(crate) struct BlockCursor<'a> {
    /// The byte offset after the last node with characters, or the last indicator.
    pub(crate) last: usize,
    /// The byte offset after the last block scalar, or 0 if there is none.
    pub(crate) floor: usize,
    /// The number of open collections that await the `:` of an entry with a `?`.
    pub(crate) colons: usize,
    pub(crate) wanted: AwaitedNode<'a>,
    /// The offset from which the end of the line before the awaited node was read, with the comment lines after it.
    pub(crate) from: usize,
    /// Whether the line of the awaited node begins at `from`. Then nothing was read before it, so a node without
    /// entries needs no indentation, or the text ends there.
    pub(crate) first: bool,
    /// The last byte offset at which all open nodes may end.
    pub(crate) halt: Option<usize>,
}

/// The reader of a block node: its cursor, the open collections, and the events read so far. Each step changes it.
#[derive(Drop)]
pub(crate) struct BlockReader<'a> {
    pub(crate) progress: BlockCursor<'a>,
    pub(crate) frames: Frames,
    pub(crate) part: Part<'a>,
}

impl Frame {
    /// Returns a collection with the column of its entries and the index of the event that begins it.
    pub(crate) fn new(kind: CollectionKind, column: usize, event: usize) -> Frame
        ensures { result ≡ record { kind = kind; column = column; event = event; entry_event = event; awaits_colon = false } }
    {
        Frame {
            kind,
            column,
            event,
            entry_event: event,
            awaits_colon: false,
        }
    }
}
