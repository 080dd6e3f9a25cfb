//! Why a text is not a baseline.

use std::alloc::AllocError;

/// Why a baseline was not read.
#[derive(Clone, Copy, Debug, Drop, PartialEq, Eq)]
pub enum Refusal {
    /// Memory ran out.
    Memory,
    /// The text is not JSON.
    NotJson,
    /// It is not an object with a member `version` of 1.
    Version,
    /// The member `findings` is not an array of entries.
    Shape,
}

impl From<AllocError> for Refusal {
    ghost use Rattle.std.specs.Prelude.{◌≡◌};
    ghost use Rattle.yf_baseline.specs.declared.refusal.Refusal.TheVariants.{Memory};

    ghost from_gives = { λ _ e. e ≡ Memory };

    fn from(_refused: AllocError) -> Refusal {
        Refusal::Memory
    }
}
