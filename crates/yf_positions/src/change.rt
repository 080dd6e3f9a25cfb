//! Changes of a document.
ghost use Rattle.std.specs.Prelude.{◌≡◌};

use crate::position::LspRange;
use std::alloc::AllocError;
use std::marker::Model;

/// One change of a document (`TextDocumentContentChangeEvent` of LSP 3.17).
#[derive(Drop)]
pub struct ContentChange<'a> {
    /// The part that gets a new text; `None` for the whole document.
    pub range: Option<LspRange>,
    /// The new text.
    pub text: &'a str,
}

impl<'a> Model for ContentChange<'a> {
    ghost use Rattle.yf_positions.specs.Changes.{TextChange};

    ghost Value = { TextChange };

    ghost view = { λ change. record { range = change.range; text = change.text.now } };
}

/// Why a document was not changed.
#[derive(Clone, Copy)]
pub enum ChangeError {
    /// Memory was refused.
    Memory,
    /// A range ends before it starts.
    ReversedRange,
}

impl From<AllocError> for ChangeError {
    ghost use Rattle.yf_positions.specs.declared.change.ChangeError.TheVariants.{Memory};

    ghost from_gives = { λ _ error. error ≡ Memory };

    fn from(_refused: AllocError) -> ChangeError {
        ChangeError::Memory
    }
}
