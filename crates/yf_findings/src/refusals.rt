//! The problem of a refusal.
ghost use Rattle.std.specs.Prelude.{◌≡◌, take, IfOk};
ghost use Rattle.yf_findings.specs.Refusals.{EndsFront, RefusalProblem, RefusedAt, empty_at, kind_of, refusal_words};

use crate::owned::OwnedProblem;
use std::alloc::{AllocError, Global};
use yf_chars::utf8::check_utf8;
use yf_lines::fault::Fault;
use yf_lines::place::Position;
use yf_lines::source_text::Src;
use yf_lines::text::OwnedText;
use yf_report::problem::{Range, Severity};

/// Returns the problem of a refusal of these bytes.
///
/// # Errors
///
/// `AllocError` if memory is refused.
pub fn refusal(alloc: Global, bytes: &[u8], fault: &Fault) -> Result<OwnedProblem, AllocError>
    ensures { IfOk result (λ p. RefusalProblem bytes.now fault.now p) }
{
    let place = refused_at(alloc, bytes, fault)?;
    let message = OwnedText::new(String::from_str(alloc, refusal_words(fault))?);
    Ok(OwnedProblem {
        range: empty_at(place),
        rule: kind_of(fault),
        severity: Severity::Error,
        message,
        fixable: false,
        line_text: OwnedText::new(String::new(alloc)),
    })
}

/// Returns an empty range at a position.
pub(crate) fn empty_at(place: Position) -> Range
    ensures { result ≡ empty_at place }
{
    Range {
        line: place.line,
        column: place.column,
        end_line: place.line,
        end_column: place.column,
    }
}

// Returns the position of a refusal.
fn refused_at(alloc: Global, bytes: &[u8], fault: &Fault) -> Result<Position, AllocError>
    ensures { IfOk result (λ place. RefusedAt bytes.now fault.now place) }
{
    match fault {
        Fault::NotUtf8 { offset } => front_end(alloc, bytes, *offset),
        Fault::Syntax { place, .. } => Ok(*place),
        Fault::TooDeep { place } => Ok(*place),
        Fault::UnknownHandle { place } => Ok(*place),
        Fault::UnknownAlias { place } => Ok(*place),
        Fault::RepeatedDirective { place } => Ok(*place),
        Fault::BadVersion { place } => Ok(*place),
        Fault::EscapeValue { place } => Ok(*place),
        Fault::Memory | Fault::ReadFailed | Fault::WriteFailed | Fault::Config { .. } => {
            Ok(Position { line: 1, column: 1 })
        }
    }
}

// Returns the position at which the front of the bytes up to an offset ends.
fn front_end(alloc: Global, bytes: &[u8], offset: usize) -> Result<Position, AllocError>
    ensures { IfOk result (EndsFront (take offset bytes.now)) }
{
    if offset < bytes.len() {
        return text_end(alloc, &bytes[..offset]);
    }
    text_end(alloc, bytes)
}

// Returns the position at which the bytes end, or the first position if they are not UTF-8.
fn text_end(alloc: Global, bytes: &[u8]) -> Result<Position, AllocError>
    ensures { IfOk result (EndsFront bytes.now) }
{
    match check_utf8(bytes) {
        Ok(text) => {
            let src = Src::new(alloc, text)?;
            Ok(src.place(text.len()))
        }
        Err(_) => Ok(Position { line: 1, column: 1 }),
    }
}

// Returns the kind of a refusal.
fn kind_of(fault: &Fault) -> &'static str
    ensures { result.now ≡ kind_of fault.now }
{
    match fault {
        Fault::NotUtf8 { .. } => "not-utf8",
        Fault::Syntax { .. } => "syntax",
        Fault::TooDeep { .. } => "too-deep",
        Fault::UnknownHandle { .. } => "unknown-handle",
        Fault::UnknownAlias { .. } => "unknown-alias",
        Fault::RepeatedDirective { .. } => "repeated-directive",
        Fault::BadVersion { .. } => "bad-version",
        Fault::EscapeValue { .. } => "escape-value",
        Fault::Memory => "no-memory",
        Fault::ReadFailed => "read-failed",
        Fault::WriteFailed => "write-failed",
        Fault::Config { .. } => "config",
    }
}

// Returns why the text is refused.
fn refusal_words(fault: &Fault) -> &'static str
    ensures { result.now ≡ refusal_words fault.now }
{
    match fault {
        Fault::NotUtf8 { .. } => "byte is no UTF-8",
        Fault::Syntax { what, .. } => what,
        Fault::TooDeep { .. } => "more than 1,024 collections would be open here",
        Fault::UnknownHandle { .. } =>
            "no %TAG directive of this document declares the tag's handle",
        Fault::UnknownAlias { .. } => "no anchor with this name comes before it in this document",
        Fault::RepeatedDirective { .. } =>
            "a document has at most one %YAML, and one %TAG for each handle",
        Fault::BadVersion { .. } => "unsupported YAML version: write 1.2",
        Fault::EscapeValue { .. } => "this escape is not a Unicode character",
        Fault::Memory => "no memory",
        Fault::ReadFailed => "input can't be read",
        Fault::WriteFailed => "output can't be written",
        Fault::Config { .. } => "a setting is wrong",
    }
}
