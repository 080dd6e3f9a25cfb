//! Paths, as the lists of their names.
ghost use Rattle.std.specs.Prelude.{◌≡◌, [], IfOk, MatchBool, None, Some};
ghost use Rattle.std.specs.Option.{option_map};
ghost use Rattle.yf_excludes.specs.Names.{Leads, NamesOf, after_part, is_dots, is_nothing, texts};

use crate::parts::{after_index, slash_at, up_to};
use crate::read_pattern::begins_with;
use std::alloc::{AllocError, Global};

// Returns whether a part of a path counts for nothing.
fn is_nothing(part: &[u8]) -> bool
    ensures { result ≡ is_nothing part.now }
{
    part.is_empty() || part.len() == 1 && part[0] == b'.'
}

// Returns whether a part of a path leads to the folder above.
fn is_dots(part: &[u8]) -> bool
    ensures { result ≡ is_dots part.now }
{
    part.len() == 2 && part[0] == b'.' && part[1] == b'.'
}

// Takes a part of a path. Returns whether the path is still in its folder.
fn take_part<'a>(names: &mut Vec<&'a [u8]>, part: &'a [u8]) -> Result<bool, AllocError>
    ensures { IfOk result (λ inside. MatchBool inside
        (after_part (texts names.old.items) part.now ≡ Some (texts names.new.items))
        (after_part (texts names.old.items) part.now ≡ None)) }
{
    if is_nothing(part) {
        return Ok(true);
    }
    if is_dots(part) {
        return Ok(names.pop().is_some());
    }
    names.push(part)?;
    Ok(true)
}

/// Returns the names of a path, from its folder on. `.` and a slash after another one count for nothing, and `..`
/// takes back the name before it. Returns `None` if the path begins with a slash or leads out of its folder.
///
/// No file system is read: a name before `..` that is a symbolic link is taken for a folder.
pub fn normalised<'a>(alloc: Global, path: &'a [u8]) -> Result<Option<Vec<&'a [u8]>>, AllocError>
    ensures { IfOk result (λ o. NamesOf path.now (option_map (λ v. texts v.items) o)) }
{
    if begins_with(path, b'/') {
        return Ok(None);
    }
    names_led(alloc, path)
}

/// Returns the names to which the parts of a path lead, one after the other. `.` and empty parts have no effect, also
/// at the beginning, and `..` removes the name before it. Returns `None` if `..` has no name before it.
pub fn names_led<'a>(alloc: Global, path: &'a [u8]) -> Result<Option<Vec<&'a [u8]>>, AllocError>
    ensures { IfOk result (λ o. Leads [] path.now (option_map (λ v. texts v.items) o)) }
{
    let mut names = Vec::new(alloc);
    let mut rest = path;
    'parts: loop {
        match slash_at(rest) {
            None => {
                if take_part(&mut names, rest)? {
                    return Ok(Some(names));
                }
                return Ok(None);
            }
            Some(slash) => {
                if !take_part(&mut names, up_to(rest, slash))? {
                    return Ok(None);
                }
                rest = after_index(rest, slash);
            }
        }
    }
}
