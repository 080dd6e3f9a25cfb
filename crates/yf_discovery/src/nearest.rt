//! The nearest settings file, above the current folder or above a file.
ghost use Rattle.std.specs.Prelude.{◌≡◌, ◌<◌, ◌++◌, codes, length, IfOk, IfSome, MatchOption};
ghost use Rattle.yf_discovery.specs.Nearest.{EndsIn, HasNoSlash, IsFolderOf, IsNearest, IsNearestTo, Passes};

use crate::folders::{Folders, There};
use std::alloc::{AllocError, Global};
use yf_lines::text::OwnedText;

/// The name of a settings file, in its folder.
pub const SETTINGS_NAME: &str = ".yamlfmt.toml";

/// The name of the folder or file that marks the top folder of a Git work tree, in that folder.
pub const REPOSITORY_NAME: &str = ".git";

/// The way from a folder to the one above it.
const ABOVE: &str = "../";

/// The result of the search for a settings file.
#[derive(Drop)]
pub enum Discovery {
    /// The settings file with this name. The name is relative to the current folder, such as `../.yamlfmt.toml`.
    Settings(OwnedText),
    /// No settings file.
    Nothing,
    /// The thing with this name decides, and it is not a file or can't be looked at.
    Fault(OwnedText),
}

/// Finds the nearest settings file at or above the current folder. `above` is the number of folders above the current
/// one.
///
/// A folder with `.git`, which may be a folder or a file, is the last one that is searched. The result is a fault if
/// the nearest settings file is a folder, or if a name that decides can't be looked at.
///
/// # Errors
///
/// `AllocError` if memory is refused.
pub fn nearest_settings<F: Folders>(
    alloc: Global,
    folders: &F,
    above: usize,
) -> Result<Discovery, AllocError>
    ensures { IfOk result (IsNearest (F.shows folders.now) above) }
{
    let mut folder = String::new(alloc);
    for _depth in 0..above {
        match look_in(alloc, folders, folder.as_str())? {
            Some(discovery) => return Ok(discovery),
            None => folder.push_str(ABOVE)?,
        }
    }
    match look_in(alloc, folders, folder.as_str())? {
        Some(discovery) => Ok(discovery),
        None => Ok(Discovery::Nothing),
    }
}

/// Finds the nearest settings file in the folder of a file or above it, by the path of the file. The name in the result
/// begins like the path.
///
/// No link is followed: the folder above `a/b` is `a`. The rest is as for `nearest_settings`.
///
/// # Errors
///
/// `AllocError` if memory is refused.
pub fn nearest_to<F: Folders>(
    alloc: Global,
    folders: &F,
    path: &str,
) -> Result<Discovery, AllocError>
    ensures { IfOk result (IsNearestTo (F.shows folders.now) path.now) }
{
    let mut rest = path;
    'folders: loop {
        match before_slash(rest) {
            None => return Ok(Discovery::Nothing),
            Some(front) => match look_at(alloc, folders, front)? {
                Some(discovery) => return Ok(discovery),
                None => rest = front,
            },
        }
    }
}

// Returns the part of a path before its last slash.
fn before_slash(path: &str) -> Option<&str>
    ensures split { MatchOption result (HasNoSlash path.now) (λ front. IsFolderOf path.now front.now) }
    ensures shorter { IfSome result (λ front. length front.now < length path.now) }
{
    match path.rsplit_once('/') {
        None => None,
        Some((front, _)) => Some(front),
    }
}

// Looks into the folder with this path. Returns the result if the search ends there.
fn look_at<F: Folders>(
    alloc: Global,
    folders: &F,
    path: &str,
) -> Result<Option<Discovery>, AllocError>
    ensures { IfOk result (λ o. MatchOption o (Passes (F.shows folders.now) (path.now ++ codes "/"))
        (EndsIn (F.shows folders.now) (path.now ++ codes "/"))) }
{
    let folder = name_in(alloc, path, "/")?;
    look_in(alloc, folders, folder.as_str())
}

// Looks into a folder, whose name is empty or ends with a slash. Returns the result if the search ends there.
fn look_in<F: Folders>(
    alloc: Global,
    folders: &F,
    folder: &str,
) -> Result<Option<Discovery>, AllocError>
    ensures { IfOk result (λ o. MatchOption o (Passes (F.shows folders.now) folder.now)
        (EndsIn (F.shows folders.now) folder.now)) }
{
    let settings = name_in(alloc, folder, SETTINGS_NAME)?;
    let repository = name_in(alloc, folder, REPOSITORY_NAME)?;
    match folders.look(settings.as_str()) {
        There::Nothing => match folders.look(repository.as_str()) {
            There::Nothing => Ok(None),
            There::File => Ok(Some(Discovery::Nothing)),
            There::Folder => Ok(Some(Discovery::Nothing)),
            There::Unknown => Ok(Some(Discovery::Fault(repository))),
        },
        There::File => Ok(Some(Discovery::Settings(settings))),
        There::Folder => Ok(Some(Discovery::Fault(settings))),
        There::Unknown => Ok(Some(Discovery::Fault(settings))),
    }
}

// Returns the name of something in a folder.
fn name_in(alloc: Global, folder: &str, name: &str) -> Result<OwnedText, AllocError>
    ensures { IfOk result (λ t. t ≡ folder.now ++ name.now) }
{
    let mut full = String::from_str(alloc, folder)?;
    full.push_str(name)?;
    Ok(OwnedText::new(full))
}
