//! The files that a settings file excludes, by the names of both.
ghost use Rattle.std.specs.Prelude.{◌≡◌, ◌↔◌, ◌∷◌, ◌++◌, [], ℕ, IfOk, IsTrue, List, MatchOption, Some};
ghost use Rattle.yf_excludes.specs.Located.{ExcludesFile, IsNoFolder, LeadsToFile, from_root};
ghost use Rattle.yf_excludes.specs.Names.{texts};
ghost use Rattle.yf_excludes.specs.Signs.{SLASH};

use crate::excluded::is_excluded;
use crate::parts::from_index;
use crate::path::names_led;
use crate::pattern::Pattern;
use crate::read_pattern::begins_with;
use std::alloc::{AllocError, Global};

/// Returns whether the patterns of a settings file exclude a file. The names of both are relative to the current
/// folder, or begin with a slash. `current` is the path of the current folder, from the root on. A file that isn't
/// below the folder of the settings file is not excluded.
///
/// No file system is read: a name before `..` that is a symbolic link is taken for a folder.
///
/// # Errors
///
/// `AllocError` if memory is refused.
pub fn excludes_file(
    alloc: Global,
    patterns: &[Pattern],
    current: &[u8],
    settings: &[u8],
    file: &[u8],
) -> Result<bool, AllocError>
    ensures { IfOk result (λ excludes.
        IsTrue excludes ↔ ExcludesFile patterns.now current.now settings.now file.now) }
{
    let settings_path = path_from_root(alloc, current, settings)?;
    let folder = match folder_led(alloc, settings_path.as_slice())? {
        Some(names) => names,
        None => return Ok(false),
    };
    let file_path = path_from_root(alloc, current, file)?;
    match names_led(alloc, file_path.as_slice())? {
        Some(names) => match names_below(folder.as_slice(), names.as_slice()) {
            Some(path) => Ok(is_excluded(patterns, path)),
            None => Ok(false),
        },
        None => Ok(false),
    }
}

// Returns the path from the root of a path that begins with a slash or in the current folder.
fn path_from_root(alloc: Global, current: &[u8], path: &[u8]) -> Result<Vec<u8>, AllocError>
    ensures { IfOk result (λ full. full.items ≡ from_root current.now path.now) }
{
    if begins_with(path, b'/') {
        return Vec::from_slice(alloc, path);
    }
    let mut full = Vec::from_slice(alloc, current)?;
    full.push(b'/')?;
    full.extend_from_slice(path)?;
    Ok(full)
}

// Returns the names of the folder of a file, by the path of the file.
fn folder_led<'a>(alloc: Global, path: &'a [u8]) -> Result<Option<Vec<&'a [u8]>>, AllocError>
    ensures { IfOk result (λ o. MatchOption o (IsNoFolder path.now)
        (λ names. LeadsToFile path.now (texts names.items))) }
{
    match names_led(alloc, path)? {
        Some(mut names) => {
            if names.pop().is_some() {
                return Ok(Some(names));
            }
            Ok(None)
        }
        None => Ok(None),
    }
}

// Returns the names of a file below a folder.
fn names_below<'l, 'a>(folder: &[&[u8]], file: &'l [&'a [u8]]) -> Option<&'l [&'a [u8]]>
    ensures { MatchOption result ((path : List (List ℕ)) → ¬ (texts file.now ≡ texts folder.now ++ path))
        (λ path. texts file.now ≡ texts folder.now ++ texts path.now) }
{
    if folder.len() > file.len() {
        return None;
    }
    for k in 0..folder.len() {
        if !is_same(folder[k], file[k]) {
            return None;
        }
    }
    Some(from_index(file, folder.len()))
}

// Returns whether two names are one.
fn is_same(name: &[u8], other: &[u8]) -> bool
    ensures { IsTrue result ↔ (name.now ≡ other.now) }
{
    name == other
}
