//! The rewriting of a file by a formatter.
ghost use Rattle.std.specs.Prelude.{◌≡◌, ℕ, List, IfOk, IfErr, OnOk, string_bytes};
ghost use Rattle.yf_files.specs.Replaced.{AtAnyMoment};
ghost use Rattle.yf_files.specs.Rewritten.{IsFormatting, LeavesRefused, Rewrote, WhyRefused, new_name_of};

use crate::file_system::{FileSystem, ReadError};
use crate::replacing::{ReplaceError, replace};
use std::alloc::{AllocError, Global};

/// A formatter, which returns the formatting of a text.
pub trait Formatter {
    /// Why a text has no formatting.
    type Error: Drop;

    /// The second text is a formatting of the first.
    ghost Formats: { Self → List ℕ → List ℕ → Type 0 };

    /// The text has no formatting, and the error is the reason.
    ghost Refuses: { Self → List ℕ → Self.Error → Type 0 };

    /// Returns the formatting of the text with these bytes.
    fn format(&self, alloc: Global, bytes: &[u8]) -> Result<String, Self::Error>
        ensures formats { IfOk result (λ formatted. Formats self.now bytes.now (string_bytes formatted)) }
        ensures refuses { IfErr result (Refuses self.now bytes.now) };
}

/// Why a file is not rewritten.
#[derive(Drop)]
pub enum RewriteError<E: Drop> {
    /// Memory was refused. Nothing was touched.
    Memory,
    /// The file can't be read, or is no regular file. Nothing was touched.
    Unreadable,
    /// Its text has no formatting. Nothing was touched.
    Refused(E),
    /// The new text can't be put into the file.
    Unwritten(ReplaceError),
}

/// Rewrites the file at this name by the formatter. The text goes into a new file, whose name is the file's name with
/// `.yamlfmt-new` after it, which is then renamed to the file.
///
/// At any moment, even if the run or the machine stops, the file holds its old text or its formatting, whole. If the
/// text is its own formatting, nothing is touched.
///
/// # Errors
///
/// - `Memory` if memory is refused.
/// - `Unreadable` if the file can't be read, or is not a regular file.
/// - `Refused` with the formatter's error if the text has no formatting.
/// - `Unwritten` if another run rewrites the file, if the file has changed since it was read, if nobody may write to
///   it, if its owner would change, or if a call failed. Its value says what remains.
///
/// After an error the file is as it was, except after `Unwritten(Unsure)`.
pub fn rewrite<S: FileSystem, F: Formatter>(
    alloc: Global,
    files: &mut S,
    formatter: &F,
    file: &str,
) -> Result<(), RewriteError<F::Error>>
    ensures any_moment { S.tells → AtAnyMoment (S.state files.old) (S.state files.new) (new_name_of file.now)
        (IsFormatting (F.Formats formatter.now) (S.state files.old) file.now) }
    ensures rewrote { S.tells → OnOk result (Rewrote (F.Formats formatter.now) (S.state files.old) (S.state files.new) file.now) }
    ensures refused { S.tells → IfErr result (LeavesRefused (F.Formats formatter.now) (F.Refuses formatter.now)
        (S.state files.old) (S.state files.new) file.now) }
    ensures why { IfErr result (WhyRefused (F.Refuses formatter.now)) }
{
    let bytes = match files.read(alloc, file) {
        Ok(bytes) => bytes,
        Err(ReadError::Failed) => return Err(RewriteError::Unreadable),
        Err(ReadError::Memory) => return Err(RewriteError::Memory),
    };
    let formatted = match formatter.format(alloc, bytes.as_slice()) {
        Ok(formatted) => formatted,
        Err(refusal) => return Err(RewriteError::Refused(refusal)),
    };
    if formatted.as_str().as_bytes() == bytes.as_slice() {
        return Ok(());
    }
    let new_name = match new_name_of(alloc, file) {
        Ok(new_name) => new_name,
        Err(AllocError) => return Err(RewriteError::Memory),
    };
    match replace(
        files,
        file,
        new_name.as_str(),
        formatted.as_str().as_bytes(),
    ) {
        Ok(()) => Ok(()),
        Err(error) => Err(RewriteError::Unwritten(error)),
    }
}

// Returns the name of the new file, which is in the file's folder.
fn new_name_of(alloc: Global, file: &str) -> Result<String, AllocError>
    ensures { IfOk result (λ name. string_bytes name ≡ new_name_of file.now) }
{
    let mut name = String::from_str(alloc, file)?;
    name.push_str(".yamlfmt-new")?;
    Ok(name)
}
