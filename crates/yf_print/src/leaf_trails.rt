//! The comments that trail leaves, in four bytes for each event.
ghost use Rattle.std.specs.Prelude.{◌≡◌, get_or, length, replicate, set, None, Some, IfOk};
ghost use Rattle.yf_print.specs.Layouts.LeafTrails.{counted};

use std::alloc::{AllocError, Global};
use std::marker::Model;
use yf_lines::packed_lines::narrow;

/// For each event that begins a leaf, the index of the comment that trails it. Contracts see the list of these indices.
#[derive(Drop)]
pub struct LeafTrails {
    /// The index plus one, or 0 for none.
    list: Vec<u32>,
}

impl Model for LeafTrails {
    ghost use Rattle.std.specs.Prelude.{List, Option, ℕ, map};
    ghost use Rattle.yf_print.specs.Layouts.LeafTrails.{counted};

    ghost Value = { List (Option ℕ) };

    ghost view = { λ t. map counted t.list.items };
}

impl LeafTrails {
    /// Returns a list for `count` events, with no trailing comments.
    pub(crate) fn none(alloc: Global, count: usize) -> Result<LeafTrails, AllocError>
        ensures { IfOk result (λ trails. trails ≡ replicate count None) }
    {
        let list = vec![in alloc; 0u32; count]?;
        Ok(LeafTrails { list })
    }

    /// Sets the comment that trails the leaf that an event begins.
    pub(crate) fn set(&mut self, event: usize, k: usize) -> Result<(), AllocError>
        ensures { IfOk result (λ _. self.new ≡ set self.old event (Some k)) }
    {
        let Some(count) = k.checked_add(1) else {
            return Err(AllocError);
        };
        let row = narrow(count)?;
        if event < self.list.len() {
            self.list[event] = row;
        }
        Ok(())
    }

    /// Returns the index of the comment that trails the leaf that the event at an index begins.
    pub(crate) fn at(&self, i: usize) -> Option<usize>
        ensures { result ≡ get_or self.now i None }
    {
        match self.list.get(i) {
            Some(count) => comment_of(*count),
            None => None,
        }
    }
}

fn comment_of(count: u32) -> Option<usize>
    ensures { result ≡ counted count }
{
    if count == 0 {
        return None;
    }
    Some(count as usize - 1)
}
