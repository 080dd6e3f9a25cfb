//! The entries of a baseline as a set, and those that no longer occur.
ghost use Rattle.std.specs.Prelude.{◌≡◌, ◌&&◌, ℕ, List, map, not, IfOk};
ghost use Rattle.std.specs.BTreeSet.{contains_text};
ghost use Rattle.yf_baseline.specs.Baselines.{entry_line};
ghost use Rattle.yf_baseline.specs.Listed.{missing};
ghost use Rattle.yf_baseline.specs.SeenTexts.{Holds};

use crate::entry::Entry;
use crate::line::entry_line;
use std::alloc::{AllocError, Global};
use std::collections::BTreeSet;

/// A set of texts.
pub type Texts = BTreeSet<String>;

/// Returns the lines of entries as a set.
///
/// # Errors
///
/// `AllocError` if memory runs out.
pub fn lines_of(alloc: Global, entries: &[Entry]) -> Result<Texts, AllocError>
    ensures { IfOk result (λ set. Holds set (map (λ e. entry_line e) entries.now)) }
{
    let mut set = BTreeSet::new(alloc);
    for entry in entries {
        let line = entry_line(alloc, entry)?;
        set.insert(line)?;
    }
    Ok(set)
}

/// Returns the names of files as a set.
///
/// # Errors
///
/// `AllocError` if memory runs out.
pub fn names_of(alloc: Global, files: &[&str]) -> Result<Texts, AllocError>
    ensures { IfOk result (λ set. Holds set (map (λ name. name.now) files.now)) }
{
    let mut set = BTreeSet::new(alloc);
    for name in files {
        let text = String::from_str(alloc, name)?;
        set.insert(text)?;
    }
    Ok(set)
}

/// Returns the entries of a baseline that no longer occur, in order, without those of files that were not checked.
/// `files` has the names of the files that were checked, and `current` has the lines of the entries of their findings.
///
/// # Errors
///
/// `AllocError` if memory runs out.
pub fn missing<'a>(
    alloc: Global,
    baseline: &'a [Entry],
    files: &Texts,
    current: &Texts,
) -> Result<Vec<&'a Entry>, AllocError>
    ensures { IfOk result (λ found. (names lines : List (List ℕ)) → Holds files.now names → Holds current.now lines
        → map (λ e. e.now) found.items ≡ missing names lines baseline.now) }
{
    let mut found = Vec::new(alloc);
    for entry in baseline {
        if is_missing(alloc, entry, files, current)? {
            found.push(entry)?;
        }
    }
    Ok(found)
}

// Returns whether an entry belongs to a file that was checked, and no longer occurs.
fn is_missing(
    alloc: Global,
    entry: &Entry,
    files: &Texts,
    current: &Texts,
) -> Result<bool, AllocError>
    ensures { IfOk result (λ gone. gone ≡ (contains_text files.now entry.now.file
        && not (contains_text current.now (entry_line entry.now)))) }
{
    if !files.contains(entry.file.as_str()) {
        return Ok(false);
    }
    let line = entry_line(alloc, entry)?;
    Ok(!current.contains(line.as_str()))
}
