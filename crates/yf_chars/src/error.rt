//! The only error of this crate.

use std::alloc::AllocError;

/// Memory was refused.
#[derive(Clone, Copy)]
pub struct NoMemory;

impl From<AllocError> for NoMemory {
    fn from(_refused: AllocError) -> NoMemory {
        NoMemory
    }
}
