//! A list of values.
ghost use Rattle.std.specs.Prelude.{◌≡◌, ◌<◌, [], ◌∷◌, ◌++◌, List, MatchOption, length, slice_get, take, if◌then◌else◌, is_ok};

use std::alloc::{AllocError, Global};
use std::marker::Model;

/// Values in order. Contracts see the list of the values.
#[derive(Drop)]
pub struct Values<T> {
    list: Vec<T>,
}

impl<T> Model for Values<T> {
    ghost use Rattle.std.specs.Prelude.{List};

    ghost Value = { List T };

    ghost view = { λ r. r.list.items };
}

impl<T> Values<T> {
    /// Creates an empty list. Allocates no memory.
    pub fn new(alloc: Global) -> Values<T>
        ensures { result ≡ [] }
    {
        Values {
            list: Vec::new(alloc),
        }
    }

    pub fn len(&self) -> usize
        ensures { result ≡ length self.now }
    {
        self.list.len()
    }

    /// Returns the value at an index.
    pub fn at(&self, i: usize) -> &T
        requires { i < length self.now }
        ensures { slice_get self.now i ≡ Some result.now }
    {
        &self.list[i]
    }

    /// Returns the first value, if any.
    pub fn first(&self) -> Option<&T>
        ensures { MatchOption result (self.now ≡ []) (λ first. (more : List T) × (self.now ≡ first.now ∷ more)) }
    {
        match self.list.as_slice() {
            [] => None,
            [first, ..] => Some(first),
        }
    }

    pub fn as_slice(&self) -> &[T]
        ensures { result.now ≡ self.now }
    {
        self.list.as_slice()
    }
}

impl<T: Drop> Values<T> {
    /// Adds a value at the end.
    pub fn push(&mut self, value: T) -> Result<(), AllocError>
        ensures { self.new ≡ (if is_ok result then self.old ++ value ∷ [] else self.old) }
    {
        self.list.push(value)?;
        Ok(())
    }

    /// Keeps only the first `count` values.
    pub fn truncate(&mut self, count: usize)
        ensures { self.new ≡ take count self.old }
    {
        self.list.truncate(count);
    }

    /// Moves all values of another list to the end.
    pub fn append(&mut self, mut other: Values<T>) -> Result<(), AllocError>
        ensures { self.new ≡ (if is_ok result then self.old ++ other else self.old) }
    {
        self.list.append(&mut other.list)?;
        Ok(())
    }
}
