//! The details of a finding besides its rule and its position.

pub use yf_events::event::{ScalarStyle, Span};

/// The message of a finding, with its values.
#[derive(Clone, Copy)]
pub enum Message {
    /// White space ends the line.
    TrailingBlanks,
    /// The entries, or the lines of a block scalar, are at another column than the house style's.
    Indentation,
    /// The entries, or the lines of a block scalar, are at the column `found`, from 0, and the house style has them at
    /// the column `expected`.
    Indented {
        found: usize,
        expected: usize,
    },
    /// The scalar has another style than the house style's.
    Quoting,
    /// The scalar has that style, and the house style gives it the other one.
    Quotes {
        found: ScalarStyle,
        expected: ScalarStyle,
    },
    /// No `---` begins the document.
    NoMarker,
    /// Text is after the `---` on its line.
    TextAfterMarker,
    /// The text doesn't end with a line break.
    NoFinalBreak,
    /// The line ends with a carriage return, or with one and a line feed.
    CarriageReturn {
        has_feed: bool,
    },
    /// A byte order mark is outside of scalars.
    ByteOrderMark,
    /// A blank line is in a wrong place.
    BlankLine,
    /// The flow collection is not laid out as the house style lays it out.
    FlowLayout,
    /// The collection is in brackets, and the house style writes it as a block collection.
    FlowStyle,
    /// The flow collection would end after the last column that a line may have, if it were on one line.
    LongFlow {
        limit: usize,
    },
    /// The flow collection is on several lines, and the house style writes it on one line.
    BrokenFlow,
    /// The flow collection is on one line, and the house style writes it with other characters: where they first
    /// differ, the text has the byte `found`, and the house style `expected`. The byte `after` is before both.
    FlowText {
        after: Option<u8>,
        found: Option<u8>,
        expected: Option<u8>,
    },
    /// Before the comment are that many spaces and tabs, and whether a tab is among them.
    CommentSpace {
        found: usize,
        has_tab: bool,
    },
    /// The line is longer than the limit by the given number of characters.
    LineLength {
        limit: usize,
        over: usize,
    },
    /// The mapping has the key already.
    RepeatedKey,
    /// The key is written after a `?` that it doesn't need.
    KeyMark,
    /// The character is hidden.
    HiddenCharacter {
        character: char,
    },
}

/// The details of a finding.
#[derive(Clone, Copy)]
pub struct Detail {
    /// The byte offsets at which the fault begins and ends. It begins at the finding's position.
    pub span: Span,
    pub message: Message,
}
