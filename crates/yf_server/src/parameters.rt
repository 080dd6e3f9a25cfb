//! The parameters of notifications on documents.
ghost use Rattle.std.specs.Prelude.{◌≡◌, ◌∷◌, ◌++◌, [], Some, IfOk, OnOk, map, option_map};
ghost use Rattle.serde_json.specs.View.{items_of, view};
ghost use Rattle.yf_server.specs.Documents.{event_read};
ghost use Rattle.yf_server.specs.Parameters.{change_of, changed, changed_document, changes_of, closed, content_changes, integer_in, opened, position_in, position_of, range_of, size_in, string_in};

use crate::documents::{DocumentAct, DocumentEvent};
use serde_json::Value;
use std::alloc::{AllocError, Global};
use yf_positions::change::ContentChange;
use yf_positions::position::{LspPosition, LspRange};

/// Returns the text of a member.
pub fn string_in<'v>(value: &'v Value, key: &str) -> Option<&'v str>
    ensures { option_map (λ s. s.now) result ≡ string_in key.now (view value.now) }
{
    match value.get(key) {
        None => None,
        Some(found) => found.as_str(),
    }
}

/// Returns the integer of a member.
fn integer_in(value: &Value, key: &str) -> Option<i64>
    ensures { result ≡ integer_in key.now (view value.now) }
{
    match value.get(key) {
        None => None,
        Some(found) => found.as_i64(),
    }
}

/// Returns the number of a member, which counts lines or units.
fn size_in(value: &Value, key: &str) -> Option<usize>
    ensures { result ≡ size_in key.now (view value.now) }
{
    match value.get(key) {
        None => None,
        Some(found) => match found.as_u64() {
            None => None,
            Some(size) => Some(size as usize),
        },
    }
}

/// Returns the position that a value is.
pub fn position_of(value: &Value) -> Option<LspPosition>
    ensures { result ≡ position_of (view value.now) }
{
    match size_in(value, "line") {
        None => None,
        Some(line) => match size_in(value, "character") {
            None => None,
            Some(character) => Some(LspPosition { line, character }),
        },
    }
}

/// Returns the position of a member.
fn position_in(value: &Value, key: &str) -> Option<LspPosition>
    ensures { result ≡ position_in key.now (view value.now) }
{
    match value.get(key) {
        None => None,
        Some(found) => position_of(found),
    }
}

/// Returns the range that a value is.
pub fn range_of(value: &Value) -> Option<LspRange>
    ensures { result ≡ range_of (view value.now) }
{
    match position_in(value, "start") {
        None => None,
        Some(start) => match position_in(value, "end") {
            None => None,
            Some(end) => Some(LspRange { start, end }),
        },
    }
}

/// Returns the change that a value is.
fn change_of(value: &Value) -> Option<ContentChange<'_>>
    ensures { result ≡ change_of (view value.now) }
{
    match string_in(value, "text") {
        None => None,
        Some(text) => match value.get("range") {
            None => Some(ContentChange { range: None, text }),
            Some(found) => match range_of(found) {
                None => None,
                Some(range) => Some(ContentChange {
                    range: Some(range),
                    text,
                }),
            },
        },
    }
}

/// Adds a change after the others.
fn push_change<'v>(
    changes: &mut Vec<ContentChange<'v>>,
    change: ContentChange<'v>,
) -> Result<(), AllocError>
    ensures { OnOk result (changes.new.items ≡ changes.old.items ++ change.entry ∷ []) }
{
    changes.push(change)?;
    Ok(())
}

/// Returns the changes that the values describe, in order, or `None` if one of them is not a change.
fn changes_of<'v>(
    alloc: Global,
    values: &'v [Value],
) -> Result<Option<Vec<ContentChange<'v>>>, AllocError>
    ensures { IfOk result (λ found. option_map (λ changes. changes.items) found
        ≡ changes_of (items_of (map view values.now))) }
{
    let mut changes = Vec::new(alloc);
    for value in values {
        match change_of(value) {
            None => return Ok(None),
            Some(change) => push_change(&mut changes, change)?,
        }
    }
    Ok(Some(changes))
}

/// Returns the event of `textDocument/didOpen`.
pub fn opened(params: &Value) -> Option<DocumentEvent<'_>>
    ensures { option_map event_read result ≡ opened (view params.now) }
{
    match params.get("textDocument") {
        None => None,
        Some(document) => match string_in(document, "uri") {
            None => None,
            Some(uri) => match integer_in(document, "version") {
                None => None,
                Some(version) => match string_in(document, "text") {
                    None => None,
                    Some(text) => Some(DocumentEvent {
                        uri,
                        act: DocumentAct::Open { version, text },
                    }),
                },
            },
        },
    }
}

/// Returns the changes of the array `contentChanges`.
fn content_changes<'v>(
    alloc: Global,
    params: &'v Value,
) -> Result<Option<Vec<ContentChange<'v>>>, AllocError>
    ensures { IfOk result (λ found. option_map (λ changes. changes.items) found ≡ content_changes (view params.now)) }
{
    match params.get("contentChanges") {
        None => Ok(None),
        Some(found) => match found.as_array() {
            None => Ok(None),
            Some(values) => changes_of(alloc, values.as_slice()),
        },
    }
}

/// Returns the event of the change of a document.
fn changed_document<'v>(
    document: &'v Value,
    changes: Vec<ContentChange<'v>>,
) -> Option<DocumentEvent<'v>>
    ensures { option_map event_read result ≡ changed_document (Some changes.entry.items) (view document.now) }
{
    match string_in(document, "uri") {
        None => None,
        Some(uri) => match integer_in(document, "version") {
            None => None,
            Some(version) => Some(DocumentEvent {
                uri,
                act: DocumentAct::Change { version, changes },
            }),
        },
    }
}

/// Returns the event of `textDocument/didChange`.
///
/// # Errors
///
/// `AllocError` if memory is refused.
pub fn changed(alloc: Global, params: &Value) -> Result<Option<DocumentEvent<'_>>, AllocError>
    ensures { IfOk result (λ event. option_map event_read event ≡ changed (view params.now)) }
{
    let document = match params.get("textDocument") {
        None => return Ok(None),
        Some(document) => document,
    };
    match content_changes(alloc, params)? {
        None => Ok(None),
        Some(changes) => Ok(changed_document(document, changes)),
    }
}

/// Returns the event of `textDocument/didClose`.
pub fn closed(params: &Value) -> Option<DocumentEvent<'_>>
    ensures { option_map event_read result ≡ closed (view params.now) }
{
    match params.get("textDocument") {
        None => None,
        Some(document) => match string_in(document, "uri") {
            None => None,
            Some(uri) => Some(DocumentEvent {
                uri,
                act: DocumentAct::Close,
            }),
        },
    }
}
