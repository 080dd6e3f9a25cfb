//! The file system, as the rewriting of a file uses it.
ghost use Rattle.std.specs.Prelude.{◌≡◌, ◌≢◌, OnOk, OnErr, IfOk, IsErrOf, Some};
ghost use Rattle.yf_files.specs.Calls.{FolderStored, HasFailed, FileMade, FileRemoved, RenameCall, Stays, FileStored, WriteChanges};
ghost use Rattle.yf_files.specs.Tree.{TimePasses, IsSound, FilesState, at, regular};

use std::alloc::Global;

/// A call of the file system failed, or a check of it did.
#[derive(Clone, Copy, Drop)]
pub struct Failed;

/// Why a file can't be read.
#[derive(Clone, Copy, Drop)]
pub enum ReadError {
    /// The call failed, or the name is not a regular file.
    Failed,
    /// Memory was refused.
    Memory,
}

/// The calls of a file system that rewriting a file needs. One file is read, and one is made.
///
/// A call that fails has changed nothing. The exception is `write`: if it fails, the new file may hold anything.
pub trait FileSystem {
    /// Holds if the contents of the file system are known. If they are not, as for the files of the system, the
    /// contracts promise nothing about them.
    ghost tells: { Type 0 };

    /// What the file system holds, and what may be found of it after a stop.
    ghost state: { Self → FilesState };

    /// Returns all bytes of the regular file at the name.
    fn read(&mut self, alloc: Global, name: &str) -> Result<Vec<u8>, ReadError>
        ensures bytes { tells → IfOk result (λ bytes. at (state self.old) name.now ≡ Some (regular bytes.items)) }
        ensures stays { tells → Stays (state self.old) (state self.new) }
        ensures cause { tells → IsErrOf result ReadError.Failed → HasFailed (state self.old) (state self.new) }
        ensures time { tells → TimePasses (state self.old) (state self.new) };

    /// Locks the file that was read last, until the value is dropped. Fails if another run has locked the file, or if
    /// nobody may write to it.
    fn lock(&mut self) -> Result<(), Failed>
        ensures stays { tells → Stays (state self.old) (state self.new) }
        ensures cause { tells → OnErr result (HasFailed (state self.old) (state self.new)) }
        ensures time { tells → TimePasses (state self.old) (state self.new) };

    /// Fails if the file at the name is not the one that was read last, or if it was written since.
    fn confirm(&mut self, name: &str) -> Result<(), Failed>
        ensures stays { tells → Stays (state self.old) (state self.new) }
        ensures cause { tells → OnErr result (HasFailed (state self.old) (state self.new)) }
        ensures time { tells → TimePasses (state self.old) (state self.new) };

    /// Removes the entry at the name, if there is one. If it is a link, the call removes the link and not the file to
    /// which it leads.
    fn remove(&mut self, name: &str) -> Result<(), Failed>
        ensures ok { tells → OnOk result (FileRemoved (state self.old) (state self.new) name.now) }
        ensures err { tells → OnErr result (Stays (state self.old) (state self.new)) }
        ensures cause { tells → OnErr result (HasFailed (state self.old) (state self.new)) }
        ensures time { tells → TimePasses (state self.old) (state self.new) };

    /// Makes an empty file that only its owner may read. Fails if anything is at the name.
    fn make(&mut self, name: &str) -> Result<(), Failed>
        ensures ok { tells → OnOk result (FileMade (state self.old) (state self.new) name.now) }
        ensures err { tells → OnErr result (Stays (state self.old) (state self.new)) }
        ensures cause { tells → OnErr result (HasFailed (state self.old) (state self.new)) }
        ensures time { tells → TimePasses (state self.old) (state self.new) };

    /// Writes all bytes to the file that was made last, which is empty.
    fn write(&mut self, bytes: &[u8]) -> Result<(), Failed>
        ensures written { tells → OnOk result ((state self.new).node (state self.old).made ≡ regular bytes.now) }
        ensures nothing_else { tells → WriteChanges (state self.old) (state self.new) }
        ensures cause { tells → OnErr result (HasFailed (state self.old) (state self.new)) }
        ensures time { tells → TimePasses (state self.old) (state self.new) };

    /// Gives the file that was made last the owner, the group and the permissions of the file that was read last. Fails
    /// if the owner would be another one.
    fn adopt(&mut self) -> Result<(), Failed>
        ensures stays { tells → Stays (state self.old) (state self.new) }
        ensures cause { tells → OnErr result (HasFailed (state self.old) (state self.new)) }
        ensures time { tells → TimePasses (state self.old) (state self.new) };

    /// Stores the file that was made last, so that it survives a crash.
    fn store(&mut self) -> Result<(), Failed>
        ensures ok { tells → OnOk result (FileStored (state self.old) (state self.new)) }
        ensures err { tells → OnErr result (Stays (state self.old) (state self.new)) }
        ensures cause { tells → OnErr result (HasFailed (state self.old) (state self.new)) }
        ensures time { tells → TimePasses (state self.old) (state self.new) };

    /// Renames `from` to `to`, and replaces the entry at `to`. At any moment both names have changed, or neither has.
    fn rename(&mut self, from: &str, to: &str) -> Result<(), Failed>
        ensures ok { tells → OnOk result (RenameCall (state self.old) (state self.new) from.now to.now) }
        ensures err { tells → OnErr result (Stays (state self.old) (state self.new)) }
        ensures cause { tells → OnErr result (HasFailed (state self.old) (state self.new)) }
        ensures time { tells → TimePasses (state self.old) (state self.new) };

    /// Stores the names of the folder that holds the name, so that they survive a crash.
    fn store_folder(&mut self, name: &str) -> Result<(), Failed>
        ensures ok { tells → OnOk result (FolderStored (state self.old) (state self.new) name.now) }
        ensures err { tells → OnErr result (Stays (state self.old) (state self.new)) }
        ensures cause { tells → OnErr result (HasFailed (state self.old) (state self.new)) }
        ensures time { tells → TimePasses (state self.old) (state self.new) };

    ghost sound: { (files : Self) → tells → IsSound (state files) };
}
