//! The pieces that streams are made of.

use std::alloc::{AllocError, Global};

/// The text before a part's text.
#[derive(Clone, Copy)]
pub enum Preamble {
    /// Nothing.
    Nothing,
    /// One of the words.
    Word,
    /// A number.
    Number,
    /// A number that occurs once.
    Count,
    /// The sign of slots itself.
    Sign,
}

/// A slot with the text after it.
#[derive(Clone, Copy)]
pub struct TextPart<'a> {
    pub slot: Preamble,
    pub text: &'a str,
}

/// Returns the slot of a letter with the text after it. For another letter, it returns the text with the sign before
/// it.
fn part_of(text: &str) -> TextPart<'_> {
    if let Some(text) = text.strip_prefix('w') {
        return TextPart {
            slot: Preamble::Word,
            text,
        };
    }
    if let Some(text) = text.strip_prefix('n') {
        return TextPart {
            slot: Preamble::Number,
            text,
        };
    }
    if let Some(text) = text.strip_prefix('i') {
        return TextPart {
            slot: Preamble::Count,
            text,
        };
    }
    TextPart {
        slot: Preamble::Sign,
        text,
    }
}

/// Returns the parts of a piece.
fn parts_of(alloc: Global, piece: &str) -> Result<Vec<TextPart<'_>>, AllocError> {
    let mut parts = Vec::new(alloc);
    let mut texts = piece.split('@');
    if let Some(text) = texts.next() {
        parts.push(TextPart {
            slot: Preamble::Nothing,
            text,
        })?;
    }
    for text in texts {
        parts.push(part_of(text))?;
    }
    Ok(parts)
}

/// Returns all pieces of a text, each with its parts.
pub fn pieces_of(alloc: Global, text: &str) -> Result<Vec<Vec<TextPart<'_>>>, AllocError> {
    let mut pieces = Vec::new(alloc);
    for piece in text.split("%%\n") {
        pieces.push(parts_of(alloc, piece)?)?;
    }
    Ok(pieces)
}
