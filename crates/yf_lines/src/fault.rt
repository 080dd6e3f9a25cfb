//! Refusals of a stream, a settings file or a run.

use crate::place::Position;
use crate::text::OwnedText;
use thiserror::Error;

/// A refusal: the error of the calls in the crates above.
///
/// `offset` counts bytes from 0; a `Position` counts lines and columns from 1.
#[derive(Debug, Drop, Error)]
pub enum Fault {
    /// The bytes are not UTF-8; the longest valid prefix ends at the offset.
    #[error("not UTF-8 after byte {offset}")]
    NotUtf8 { offset: usize },
    /// The productions derive no reading of the text.
    #[error("syntax: {what}")]
    Syntax { place: Position, what: &'static str },
    /// More collections are open than the depth limit allows.
    #[error("collections are nested too deep")]
    TooDeep { place: Position },
    /// The handle of a shorthand tag is not declared in its document (section 6.8.2).
    #[error("a tag's handle is not declared")]
    UnknownHandle { place: Position },
    /// An alias names no anchor that occurred before it in its document (section 7.1).
    #[error("an alias names no earlier anchor")]
    UnknownAlias { place: Position },
    /// A second YAML directive, or a second TAG directive for one handle (section 6.8).
    #[error("a directive is repeated")]
    RepeatedDirective { place: Position },
    /// The YAML directive's major version is not 1 (section 6.8.1).
    #[error("the YAML version is not 1.x")]
    BadVersion { place: Position },
    /// The number of an escape is not a Unicode scalar value (section 5.7).
    #[error("an escape is no character")]
    EscapeValue { place: Position },
    /// Memory was refused.
    #[error("no memory")]
    Memory,
    /// The reader failed, or returned more than the limit.
    #[error("the input could not be read")]
    ReadFailed,
    /// The writer failed, or took no bytes.
    #[error("the output could not be written")]
    WriteFailed,
    /// A settings key is unknown, of a wrong type or out of range; the key is empty if the text is not TOML.
    #[error("a setting is wrong")]
    Config { key: OwnedText },
}
