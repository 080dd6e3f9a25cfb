//! The files that the program reads, and the file that it rewrites.
ghost use Rattle.std.specs.Prelude.{◌≡◌, ℕ, List, string_bytes, IfErr, IfOk, MatchOption};
ghost use Rattle.yf_lines.specs.declared.fault.Fault.TheVariants.{ReadFailed};
ghost use Rattle.yf_rules.specs.Runs.ByteStream.{WrittenOrFailed, stream_of};
ghost use Rattle.yf_host.specs.Rewriting.{FileRewrite, IsNewText, IsUnfound, LeadsNowhere, RefusesBytes, RewritesFile};
ghost use Rattle.yf_host.specs.Rewriting.{claim_of, rewrite_line, rewrite_status, unwritten_line};

use crate::guarded_text::{GuardedText, NoNewText, report_no_text};
use crate::report::report;
use std::alloc::Global;
use std::fs::File;
use std::rt::Files;
use yf_chars::utf8::{BadByte, check_utf8};
use yf_files::{FileSystem, Formatter, MemoryFiles, ReplaceError, RewriteError};
use yf_forms::style::Style;
use yf_line_ranges::range::LineRange;
use yf_lines::fault::Fault;
use yf_lines::output::write_text;
use yf_lines::watched::Sink;
use yf_parts::run::with_lines_formatted;
use yf_rules::format::format;
use yf_rules::run::INPUT_LIMIT;

/// Opens a file for reading. Fails with `Fault::ReadFailed` if the file can't be opened.
pub fn open<R: Files>(rt: &R, path: &str) -> Result<R::File, Fault>
    ensures { IfErr result (λ fault. fault ≡ ReadFailed) }
{
    match File::open(rt, path) {
        Ok(file) => Ok(file),
        Err(_) => Err(Fault::ReadFailed),
    }
}

/// Files that the program rewrites, and links to them.
pub trait Links: FileSystem {
    /// The second name is the name of the file at the first name, or of the file to which a link there leads.
    ghost leads: { Self → List ℕ → List ℕ → Type 0 };

    /// Returns the name of the file to which a link at the name leads, or `None` if no link is there. Fails with
    /// `RewriteError::Unreadable` if the name leads to no regular file.
    fn followed(&self, alloc: Global, name: &str) -> Result<Option<String>, RewriteError<NoNewText>>
        ensures leads { IfOk result (λ found. MatchOption found (leads self.now name.now name.now)
            (λ file. leads self.now name.now (string_bytes file))) }
        ensures error { IfErr result
            (IsUnfound (Self.tells → LeadsNowhere (Self.state self.now) (leads self.now name.now))) };
}

/// Files in memory, with links among them.
impl Links for MemoryFiles {
    ghost use Rattle.yf_files.specs.Links.{LeadsTo};

    ghost leads = { λ files name file. LeadsTo files name file };

    fn followed(
        &self,
        alloc: Global,
        name: &str,
    ) -> Result<Option<String>, RewriteError<NoNewText>> {
        let Some(file) = self.led(name) else {
            return Err(RewriteError::Unreadable);
        };
        if file == name {
            return Ok(None);
        }
        if !self.has_file(file) {
            return Err(RewriteError::Unreadable);
        }
        match String::from_str(alloc, file) {
            Ok(file) => Ok(Some(file)),
            Err(_) => Err(RewriteError::Memory),
        }
    }
}

/// The new text of a file.
#[derive(Clone, Copy)]
pub enum NewText<'a> {
    /// The formatting of its text in a style.
    Formatted(&'a Style),
    /// Its text with these lines formatted in a style.
    Part(&'a Style, &'a [LineRange]),
}

/// Rewrites the file at this name with its new text. If the name is a link, the file to which it leads is rewritten.
///
/// The function first reads and formats the whole text. If the new text equals the text, nothing else happens.
/// Otherwise it writes a new file (its name is the file's name with `.yamlfmt-new` after it), and gives it the file's
/// name. So at any moment, even if the run or the machine stops, the file holds its old text or exactly the new text.
/// All other names, except the new one, keep their contents.
///
/// # Errors
///
/// - `Unreadable` if the name is neither a regular file nor a link to one, or the file can't be read.
/// - `Refused` with the faults of `format`, with `Fault::NotUtf8`, and if the text is no data.
/// - `Memory` if memory is refused.
/// - `Unwritten` if another run rewrites the file, if the file has changed since it was read, if nobody may write to
///   it, if its owner would change, or if the new file can't be made, written or renamed.
///
/// After an error the file is as it was, except after `Unwritten(Unsure)`.
pub fn rewrite<S: Links>(
    alloc: Global,
    files: &mut S,
    name: &str,
    new_text: &GuardedText<'_>,
) -> Result<(), RewriteError<NoNewText>>
    ensures { FileRewrite S.tells (S.state files.old) (S.state files.new)
        (S.leads files.old name.now) (claim_of new_text.now) result }
{
    match files.followed(alloc, name) {
        Ok(None) => rewrite_in(alloc, files, name, new_text),
        Ok(Some(file)) => rewrite_in(alloc, files, file.as_str(), new_text),
        Err(error) => Err(error),
    }
}

/// Rewrites a file of a file system with its new text, as `rewrite` does.
pub fn rewrite_in<S: FileSystem>(
    alloc: Global,
    files: &mut S,
    file: &str,
    new_text: &GuardedText<'_>,
) -> Result<(), RewriteError<NoNewText>>
    ensures { RewritesFile S.tells (S.state files.old) (S.state files.new) file.now (claim_of new_text.now) result }
{
    yf_files::rewrite(alloc, files, new_text, file)
}

impl Formatter for NewText<'_> {
    type Error = Fault;

    ghost Formats = { λ it bytes text. IsNewText it bytes text };

    ghost Refuses = { λ _ bytes fault. RefusesBytes bytes fault };

    fn format(&self, alloc: Global, bytes: &[u8]) -> Result<String, Fault> {
        let text = match check_utf8(bytes) {
            Ok(text) => text,
            Err(BadByte { offset }) => return Err(Fault::NotUtf8 { offset }),
        };
        if bytes.len() > INPUT_LIMIT {
            return Err(Fault::Memory);
        }
        match *self {
            NewText::Formatted(style) => format(alloc, text, style),
            NewText::Part(style, lines) => with_lines_formatted(alloc, text, style, lines),
        }
    }
}

/// Writes the line of a file that is not rewritten to the error stream, and returns the status of the line. The line
/// says so if the new file is left, or if the new text may not survive a crash.
pub fn report_rewrite<E: Sink>(error: &RewriteError<NoNewText>, error_stream: &mut E) -> u8
    ensures status { result ≡ rewrite_status error.now }
    ensures line { WrittenOrFailed (stream_of E.contents E.has_failed error_stream.old)
        (stream_of E.contents E.has_failed error_stream.new) (rewrite_line error.now) }
{
    match error {
        RewriteError::Memory => report(&Fault::Memory, error_stream),
        RewriteError::Unreadable => report(&Fault::ReadFailed, error_stream),
        RewriteError::Refused(why) => report_no_text(why, error_stream),
        RewriteError::Unwritten(left) => report_unwritten(*left, error_stream),
    }
}

// Writes the line of a file if its new text is not in place, or may not survive a crash. Returns the status.
fn report_unwritten<E: Sink>(left: ReplaceError, error_stream: &mut E) -> u8
    ensures status { result ≡ 3 }
    ensures line { WrittenOrFailed (stream_of E.contents E.has_failed error_stream.old)
        (stream_of E.contents E.has_failed error_stream.new) (unwritten_line left) }
{
    match left {
        ReplaceError::Untouched => report(&Fault::WriteFailed, error_stream),
        ReplaceError::Left => tell(
            b"write failed: the .yamlfmt-new file is left\n",
            error_stream,
        ),
        ReplaceError::Unsure => tell(
            b"write failed: the new text may not survive a crash\n",
            error_stream,
        ),
    }
}

/// The exit status of a failed write.
const UNWRITTEN: u8 = 3;

// Writes a line, and returns the exit status of a failed write.
fn tell<E: Sink>(line: &[u8], error_stream: &mut E) -> u8
    ensures status { result ≡ 3 }
    ensures line { WrittenOrFailed (stream_of E.contents E.has_failed error_stream.old)
        (stream_of E.contents E.has_failed error_stream.new) line.now }
{
    let _ = write_text(error_stream, line);
    UNWRITTEN
}
