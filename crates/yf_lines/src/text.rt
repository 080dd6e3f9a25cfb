//! Texts that are slices of their source if possible.
ghost use Rattle.std.specs.Prelude.{◌≡◌, List, ℕ};
ghost use Rattle.std.specs.String.{string_bytes};

use crate::fault::Fault;
use std::marker::Model;

/// An owned text. Contracts see the list of its bytes, which are UTF-8.
#[derive(Debug, Drop)]
pub struct OwnedText {
    string: String,
}

impl Model for OwnedText {
    ghost Value = { List ℕ };

    ghost view = { λ t. string_bytes t.string };
}

impl OwnedText {
    /// Creates a text from a `String`.
    pub fn new(string: String) -> OwnedText
        ensures { result ≡ string_bytes string }
    {
        OwnedText { string }
    }

    pub fn as_str(&self) -> &str
        ensures { result.now ≡ self.now }
    {
        self.string.as_str()
    }
}

/// A text: a slice of the source, or an owned text if its meaning differs from the source.
#[derive(Drop)]
pub enum Text<'a> {
    Part(&'a str),
    Owned(OwnedText),
}

/// The result of a reader of texts: a text and the offset after it, `None` if there is none, or a refusal.
pub type FoundText<'a> = ReadResult<(Text<'a>, usize)>;

/// The result of a reader: the value read, `None` if nothing of its kind is at the offset, or a refusal.
pub type ReadResult<T> = Result<Option<T>, Fault>;

impl Text<'_> {
    ghost use Rattle.yf_lines.specs.Text.{text_bytes};

    /// Returns the text's characters.
    pub fn as_str(&self) -> &str
        ensures { result.now ≡ text_bytes self.now }
    {
        match self {
            Text::Part(part) => part,
            Text::Owned(text) => text.as_str(),
        }
    }
}
