//! Why the words of a command line make no request, and the text that says so.
ghost use Rattle.std.specs.Prelude.{◌≡◌, ⊤};
ghost use Rattle.clap.specs.Words.{kind_of};
ghost use Rattle.yf_command_line.specs.Requests.{IsUsageOf, RefusedBy};

use crate::build::build_lines;
use crate::options::yamlfmt_command;
use clap::Error;
use clap::error::ErrorKind;
use std::alloc::{AllocError, Global};
use yf_lines::shown::shown_text;
use yf_lines::text::OwnedText;

/// Why the words of a command line make no request.
#[derive(Drop)]
pub enum Usage {
    /// The words ask for help, for the version, or for what `explain` prints. This is the text, for standard output.
    Help(OwnedText),
    /// The program does not accept the words. The text says why, for standard error.
    Wrong(OwnedText),
    /// Memory was refused.
    Memory,
}

impl From<AllocError> for Usage {
    ghost use Rattle.yf_command_line.specs.declared.usage.Usage.TheVariants.{Memory};

    ghost from_gives = { λ _ usage. usage ≡ Memory };

    fn from(_error: AllocError) -> Usage {
        Usage::Memory
    }
}

// Returns the result for a refusal by the library.
pub(crate) fn usage_of(alloc: Global, words: &[String], error: &Error) -> Usage
    ensures { IsUsageOf (kind_of error.now) result }
{
    match error.kind() {
        ErrorKind::OutOfMemory => Usage::Memory,
        ErrorKind::DisplayHelp => match text_of(alloc, error) {
            Ok(text) => Usage::Help(text),
            Err(_) => Usage::Memory,
        },
        ErrorKind::DisplayVersion => match version_text(alloc, error) {
            Ok(text) => Usage::Help(text),
            Err(_) => Usage::Memory,
        },
        _ => match refusal_text(alloc, words, error) {
            Ok(text) => Usage::Wrong(text),
            Err(_) => Usage::Memory,
        },
    }
}

// Returns the refusal with this text.
pub(crate) fn refusal(alloc: Global, text: &str) -> Usage
    ensures { RefusedBy ⊤ result }
{
    match String::from_str(alloc, text) {
        Ok(text) => Usage::Wrong(OwnedText::new(text)),
        Err(_) => Usage::Memory,
    }
}

// Returns the refusal of a value of an option. `reason` ends the message.
pub(crate) fn refusal_of_value(alloc: Global, value: &str, option: &str, reason: &str) -> Usage
    ensures { RefusedBy ⊤ result }
{
    match value_text(alloc, value, option, reason) {
        Ok(text) => Usage::Wrong(text),
        Err(_) => Usage::Memory,
    }
}

// Returns the message for such a value.
fn value_text(
    alloc: Global,
    value: &str,
    option: &str,
    reason: &str,
) -> Result<OwnedText, AllocError> {
    let value = shown_text(alloc, value)?;
    Ok(OwnedText::new(format!(in alloc;
        "error: invalid value '{value}' for '{option}'{reason}

For more information, try '--help'.
"
    )?))
}

fn text_of(alloc: Global, error: &Error) -> Result<OwnedText, AllocError> {
    Ok(OwnedText::new(format!(in alloc; "{error}")?))
}

// Returns the name and the version, and after them lines about the build.
fn version_text(alloc: Global, error: &Error) -> Result<OwnedText, AllocError> {
    let lines = build_lines(alloc)?;
    Ok(OwnedText::new(format!(in alloc; "{error}{lines}")?))
}

// Returns why the words are refused. The library leaves control characters of the words out of its text. So this
// function replaces the control characters in the words by their numbers, and returns the library's refusal of these
// words, which it refuses as well.
fn refusal_text(alloc: Global, words: &[String], error: &Error) -> Result<OwnedText, AllocError> {
    let shown = shown_words(alloc, words)?;
    match yamlfmt_command(alloc)?.try_get_matches_from(shown.as_slice()) {
        Ok(_) => shown_text_of(alloc, error),
        Err(again) => text_of_refusal(alloc, &again),
    }
}

// Returns the text of an error, with control characters shown by their numbers.
fn shown_text_of(alloc: Global, error: &Error) -> Result<OwnedText, AllocError> {
    let text = text_of(alloc, error)?;
    Ok(OwnedText::new(shown_text(alloc, text.as_str())?))
}

// Returns the text of an error, or fails if the error is that memory was refused.
fn text_of_refusal(alloc: Global, error: &Error) -> Result<OwnedText, AllocError> {
    match error.kind() {
        ErrorKind::OutOfMemory => Err(AllocError),
        _ => text_of(alloc, error),
    }
}

fn shown_words(alloc: Global, words: &[String]) -> Result<Vec<String>, AllocError> {
    let mut shown = Vec::new(alloc);
    for word in words {
        shown.push(shown_text(alloc, word.as_str())?)?;
    }
    Ok(shown)
}
