//! The search for lines that two texts have in common. No contract depends on it.

use crate::guide::Guide;
use crate::hashed_line::HashedLine;
use crate::single_lines::{Indices, single_lines};
use std::alloc::{AllocError, Global};

/// The state of the search.
#[derive(Drop)]
pub struct Search {
    /// The lines to be kept that are still ahead; the next one is last.
    ahead: Vec<Indices>,
    /// The ends of both texts.
    ends: Indices,
    guide: Guide,
}

impl Search {
    pub fn new(
        alloc: Global,
        old: &[HashedLine<'_>],
        new: &[HashedLine<'_>],
    ) -> Result<Search, AllocError> {
        Ok(Search {
            ahead: single_lines(alloc, old, new)?,
            ends: Indices {
                old: old.len(),
                new: new.len(),
            },
            guide: Guide::new(alloc),
        })
    }

    /// Returns the next line to be kept at or after `place`, or else the ends of both texts.
    fn next(&mut self, place: Indices) -> Indices {
        for _ in 0..self.ahead.len() {
            if let Some(line) = self.ahead.last() {
                if line.old >= place.old && line.new >= place.new {
                    return *line;
                }
            }
            let _passed = self.ahead.pop();
        }
        self.ends
    }

    /// Returns whether to drop the line of the old text at `place` before adding one of the new text.
    pub fn drops(
        &mut self,
        alloc: Global,
        old: &[HashedLine<'_>],
        new: &[HashedLine<'_>],
        place: Indices,
    ) -> Result<bool, AllocError> {
        if !self.guide.covers(place.old, place.new) {
            let to = self.next(place);
            self.guide = Guide::look(alloc, old, new, place, to)?;
        }
        Ok(self.guide.drops(place.old, place.new))
    }
}
