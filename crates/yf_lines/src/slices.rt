//! Slices of the source.
ghost use Rattle.std.specs.Prelude.{◌≡◌, ◌<◌, [], ◌∷◌, ◌++◌, length, take, map, if◌then◌else◌, is_ok, slice_index_or};

use std::alloc::{AllocError, Global};
use std::marker::Model;

/// Slices of the source, in order: the lines of a block scalar without their indentation and breaks, or the words of a
/// directive. Contracts see the list of their bytes.
#[derive(Drop)]
pub struct Slices<'a> {
    list: Vec<&'a str>,
}

impl<'a> Model for Slices<'a> {
    ghost use Rattle.std.specs.Prelude.{List, ℕ, map};

    ghost Value = { List (List ℕ) };

    ghost view = { λ s. map (λ part. part.now) s.list.items };
}

impl<'a> Slices<'a> {
    pub fn new(alloc: Global) -> Slices<'a>
        ensures { result ≡ [] }
    {
        Slices {
            list: Vec::new(alloc),
        }
    }

    /// Adds a slice at the end.
    pub fn push(&mut self, part: &'a str) -> Result<(), AllocError>
        ensures { self.new ≡ (if is_ok result then self.old ++ part.now ∷ [] else self.old) }
    {
        self.list.push(part)?;
        Ok(())
    }

    /// Keeps only the first `count` slices.
    pub fn truncate(&mut self, count: usize)
        ensures { self.new ≡ take count self.old }
    {
        self.list.truncate(count);
    }

    pub fn len(&self) -> usize
        ensures { result ≡ length self.now }
    {
        self.list.len()
    }

    /// Returns the slice at an index, from 0.
    pub fn at(&self, index: usize) -> &'a str
        requires { index < length self.now }
        ensures { result.now ≡ slice_index_or self.now index [] }
    {
        self.list[index]
    }

    pub fn as_slice(&self) -> &[&'a str]
        ensures { map (λ part. part.now) result.now ≡ self.now }
    {
        self.list.as_slice()
    }
}
