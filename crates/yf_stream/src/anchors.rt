//! The anchors that have occurred in a document.
ghost use Rattle.std.specs.Prelude.{◌≡◌, [], ◌∷◌, IfOk};
ghost use Rattle.yf_stream.specs.TagPass.{SameNames};
ghost use Rattle.yf_stream.specs.WellFormed.{has_name};

use indexmap::IndexSet;
use std::alloc::{AllocError, Global};
use std::collections::BTreeSet;
use std::marker::Model;

/// The maximum number of anchors that are found by their hashes.
const FEW: usize = 64;

/// The anchors that have occurred in a document. The first ones are in a hash table, as most documents have few. The
/// others are in a tree, since names can be chosen to have equal hashes. In a contract, they are a list.
#[derive(Drop)]
pub(crate) struct Anchors<'a> {
    few: IndexSet<&'a str>,
    others: BTreeSet<&'a str>,
}

impl<'a> Model for Anchors<'a> {
    ghost use Rattle.std.specs.Prelude.{◌++◌, List, ℕ, map};

    ghost Value = { List (List ℕ) };

    ghost view = { λ a. map (λ name. name.now) (a.few.keys ++ a.others.keys) };
}

impl<'a> Anchors<'a> {
    pub(crate) fn new(alloc: Global) -> Anchors<'a>
        ensures { result ≡ [] }
    {
        Anchors {
            few: IndexSet::new(alloc),
            others: BTreeSet::new(alloc),
        }
    }

    pub(crate) fn insert(&mut self, name: &'a str) -> Result<(), AllocError>
        ensures { IfOk result (λ _. SameNames self.new (name.entry.now ∷ self.old)) }
    {
        if self.few.len() < FEW {
            return match self.few.insert(name) {
                Ok(_) => Ok(()),
                Err(_) => Err(AllocError),
            };
        }
        match self.others.insert(name) {
            Ok(_) => Ok(()),
            Err(_) => Err(AllocError),
        }
    }

    pub(crate) fn contains(&self, name: &'a str) -> bool
        ensures { result ≡ has_name self.now name.entry.now }
    {
        if self.few.contains(name) {
            return true;
        }
        self.others.contains(&name)
    }
}
