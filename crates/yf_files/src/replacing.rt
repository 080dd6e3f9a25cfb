//! Gives a file another text: a new file in the same folder gets the text, and is renamed to the file.
ghost use Rattle.std.specs.Prelude.{◌≡◌, ◌≢◌, OnOk, OnErr, IfErr, None};
ghost use Rattle.yf_files.specs.Aside.{Aside, IsBack, IsReady, NewFileWithdrawn, Withdraws};
ghost use Rattle.yf_files.specs.Calls.{HasFailed};
ghost use Rattle.yf_files.specs.Replaced.{AtAnyMoment, IsText, ErrorLeaves, FileReplaced};
ghost use Rattle.yf_files.specs.Tree.{folder_of};

use crate::file_system::{Failed, FileSystem};

/// What is left after a file did not get another text, or may lose it in a crash.
#[derive(Clone, Copy, Drop)]
pub enum ReplaceError {
    /// The file is as it was, and nothing of ours is left.
    Untouched,
    /// The file is as it was, but the new file could not be removed.
    Left,
    /// The file has its new text, but its folder could not be stored: a crash may bring back the old one.
    Unsure,
}

/// Gives the file that was read last another text. The text goes into a new file at the other name, in the same folder,
/// which is then renamed to the file.
///
/// The function locks the file first. It then removes the entry at the new name, if there is one, and makes the new
/// file, which fails if the name is taken again. The new file gets the text, and the owner, the group and the
/// permissions of the old file. It is stored and renamed to the file, and then the folder is stored. After a failure
/// before the renaming, the new file is removed.
pub fn replace<S: FileSystem>(
    files: &mut S,
    file: &str,
    new_name: &str,
    text: &[u8],
) -> Result<(), ReplaceError>
    requires other { file.now ≢ new_name.now }
    requires beside { folder_of new_name.now ≡ folder_of file.now }
    ensures any_moment { S.tells → AtAnyMoment (S.state files.old) (S.state files.new) new_name.now (IsText file.now text.now) }
    ensures replaced { S.tells → OnOk result (FileReplaced (S.state files.old) (S.state files.new) file.now new_name.now text.now) }
    ensures leaves { S.tells → IfErr result (ErrorLeaves (S.state files.old) (S.state files.new) file.now new_name.now text.now) }
    ensures cause { S.tells → OnErr result (HasFailed (S.state files.old) (S.state files.new)) }
{
    match prepare(files, file, new_name, text) {
        Ok(()) => {}
        Err(error) => return Err(error),
    }
    match files.rename(new_name, file) {
        Ok(()) => {}
        Err(Failed) => return Err(withdrawn(files, new_name)),
    }
    match files.store_folder(file) {
        Ok(()) => Ok(()),
        Err(Failed) => Err(ReplaceError::Unsure),
    }
}

// Makes the new file ready for renaming, and checks that the old file is as it was read.
fn prepare<S: FileSystem>(
    files: &mut S,
    file: &str,
    new_name: &str,
    text: &[u8],
) -> Result<(), ReplaceError>
    ensures aside { S.tells → Aside (S.state files.old) (S.state files.new) new_name.now }
    ensures ready { S.tells → OnOk result (IsReady (S.state files.old) (S.state files.new) new_name.now text.now) }
    ensures back { S.tells → IfErr result (Withdraws (S.state files.old) (S.state files.new) new_name.now) }
    ensures cause { S.tells → OnErr result (HasFailed (S.state files.old) (S.state files.new)) }
{
    match claim(files, file, new_name) {
        Ok(()) => {}
        Err(Failed) => return Err(ReplaceError::Untouched),
    }
    match make_new(files, new_name, text) {
        Ok(()) => {}
        Err(error) => return Err(error),
    }
    match files.confirm(file) {
        Ok(()) => Ok(()),
        Err(Failed) => Err(withdrawn(files, new_name)),
    }
}

// Makes the new file with the text, and stores it.
fn make_new<S: FileSystem>(files: &mut S, new_name: &str, text: &[u8]) -> Result<(), ReplaceError>
    ensures aside { S.tells → Aside (S.state files.old) (S.state files.new) new_name.now }
    ensures ready { S.tells → OnOk result (IsReady (S.state files.old) (S.state files.new) new_name.now text.now) }
    ensures back { S.tells → IfErr result (Withdraws (S.state files.old) (S.state files.new) new_name.now) }
    ensures cause { S.tells → OnErr result (HasFailed (S.state files.old) (S.state files.new)) }
{
    match files.make(new_name) {
        Ok(()) => {}
        Err(Failed) => return Err(ReplaceError::Untouched),
    }
    match files.write(text) {
        Ok(()) => {}
        Err(Failed) => return Err(withdrawn(files, new_name)),
    }
    match files.adopt() {
        Ok(()) => {}
        Err(Failed) => return Err(withdrawn(files, new_name)),
    }
    match files.store() {
        Ok(()) => Ok(()),
        Err(Failed) => Err(withdrawn(files, new_name)),
    }
}

// Locks the file that was read, and removes the entry at the new name.
fn claim<S: FileSystem>(files: &mut S, file: &str, new_name: &str) -> Result<(), Failed>
    ensures aside { S.tells → Aside (S.state files.old) (S.state files.new) new_name.now }
    ensures free { S.tells → OnOk result ((S.state files.new).entry new_name.now ≡ None) }
    ensures back { S.tells → OnErr result ((S.state files.new).entry new_name.now ≡ (S.state files.old).entry new_name.now) }
    ensures cause { S.tells → OnErr result (HasFailed (S.state files.old) (S.state files.new)) }
{
    match files.lock() {
        Ok(()) => {}
        Err(Failed) => return Err(Failed),
    }
    match files.confirm(file) {
        Ok(()) => {}
        Err(Failed) => return Err(Failed),
    }
    files.remove(new_name)
}

// Removes the new file after a failure, and returns the error: `Left` if the file can't be removed.
fn withdrawn<S: FileSystem>(files: &mut S, new_name: &str) -> ReplaceError
    ensures aside { S.tells → Aside (S.state files.old) (S.state files.new) new_name.now }
    ensures how { S.tells → NewFileWithdrawn (S.state files.new) new_name.now result }
{
    match files.remove(new_name) {
        Ok(()) => ReplaceError::Untouched,
        Err(Failed) => ReplaceError::Left,
    }
}
