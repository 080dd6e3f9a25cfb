//! Folders, as the search for a settings file sees them.
ghost use Rattle.std.specs.Prelude.{ℕ, IfOk, List, Option, option_map};
ghost use Rattle.yf_discovery.specs.declared.folders.There.{There};

use std::alloc::{AllocError, Global};

/// The kind of thing with a name.
#[derive(Clone, Copy, Drop)]
pub enum There {
    /// Nothing.
    Nothing,
    /// A file, or anything else that is not a folder.
    File,
    /// A folder.
    Folder,
    /// Something or nothing: it can't be looked at.
    Unknown,
}

/// The current folder and those above it.
pub trait Folders {
    /// The possible results of a look at a name. The name is relative to the current folder.
    ghost shows: { Self → List ℕ → There → Type 0 };

    /// The possible paths of the current folder, if it is known.
    ghost current: { Self → Option (List ℕ) → Type 0 };

    /// Returns the kind of thing with a name. A symbolic link counts as its target.
    fn look(&self, name: &str) -> There
        ensures { shows self.now name.now result };

    /// Returns the path of the current folder, from the root on, or `None` if the system doesn't know it.
    fn current_path(&self, alloc: Global) -> Result<Option<Vec<u8>>, AllocError>
        ensures { IfOk result (λ o. current self.now (option_map (λ v. v.items) o)) };
}
