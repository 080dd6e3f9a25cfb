//! Notifications on documents.
ghost use Rattle.std.specs.Prelude.{◌≡◌, ◌≢◌, ℕ, List, None, MatchBool, IfOk, OnErr, OnOk, option_map};
ghost use Rattle.serde_json.specs.View.{view};
ghost use Rattle.yf_server.specs.Documents.{act_read, after_loss, after_tried, event_read, find, outcome_of};
ghost use Rattle.yf_server.specs.Edits.{named_uri};
ghost use Rattle.yf_server.specs.Steps.{IsLogged, IsNote, IsNoteOf, about_uri, after_notification, event_named, event_of, is_of_document, log_message, warning_params};

use crate::documents::{DocumentEvent, OpenDocument, Outcome, act, is_done, lose};
use crate::parameters::{changed, closed, opened};
use crate::respond::{LOST, named_uri};
use serde_json::{Value, json};
use std::alloc::{AllocError, Global};
use yf_json_rpc::message::notification;
use yf_positions::encoding::Encoding;

/// Returns the event of a notification on a document with these parameters.
fn event_named<'v>(
    alloc: Global,
    method: &str,
    params: &'v Value,
) -> Result<Option<DocumentEvent<'v>>, AllocError>
    ensures { IfOk result (λ event. option_map event_read event ≡ event_named method.now (view params.now)) }
{
    if method == "textDocument/didOpen" {
        return Ok(opened(params));
    }
    if method == "textDocument/didChange" {
        return changed(alloc, params);
    }
    if method == "textDocument/didClose" {
        return Ok(closed(params));
    }
    Ok(None)
}

/// Returns the event of a notification on a document.
fn event_of<'v>(
    alloc: Global,
    method: &str,
    value: &'v Value,
) -> Result<Option<DocumentEvent<'v>>, AllocError>
    ensures { IfOk result (λ event. option_map event_read event ≡ event_of method.now (view value.now)) }
{
    match value.get("params") {
        None => Ok(None),
        Some(params) => event_named(alloc, method, params),
    }
}

/// Returns what the client's log shows of an outcome.
fn warning(outcome: Outcome) -> &'static str {
    match outcome {
        Outcome::Done => "the document was changed",
        Outcome::NotOpen => "the document is not open, so nothing was changed",
        Outcome::OldVersion =>
            "the version is not higher than the one before: open the document again, or send the whole text",
        Outcome::ReversedRange =>
            "the end of a range is before its start: open the document again, or send the whole text",
        Outcome::Lost => LOST,
    }
}

/// Returns the parameters of a warning (`LogMessageParams`).
fn warning_params(alloc: Global, text: &str) -> Result<Value, AllocError>
    ensures { IfOk result (λ value. view value ≡ warning_params text.now) }
{
    json!(in alloc; {"type": 2, "message": text})
}

/// Returns a warning for the log of the client (`window/logMessage`).
pub fn log_message(alloc: Global, text: &str) -> Result<Value, AllocError>
    ensures { IfOk result (λ value. view value ≡ log_message text.now) }
{
    let params = warning_params(alloc, text)?;
    notification(alloc, "window/logMessage", &params)
}

/// Returns the warning for an outcome; `None` if all was done.
fn note_of(alloc: Global, outcome: Outcome) -> Result<Option<Value>, AllocError>
    ensures note { IfOk result (λ note. IsNote outcome (option_map view note)) }
    ensures refused { OnErr result (outcome ≢ Outcome.Done) }
{
    let text = warning(outcome);
    match outcome {
        Outcome::Done => Ok(None),
        Outcome::NotOpen => {
            let note = log_message(alloc, text)?;
            Ok(Some(note))
        }
        Outcome::OldVersion => {
            let note = log_message(alloc, text)?;
            Ok(Some(note))
        }
        Outcome::ReversedRange => {
            let note = log_message(alloc, text)?;
            Ok(Some(note))
        }
        Outcome::Lost => {
            let note = log_message(alloc, text)?;
            Ok(Some(note))
        }
    }
}

/// Handles an event, and returns the warning if it failed. The text of the document is then lost.
fn act_on(
    alloc: Global,
    documents: &mut Vec<OpenDocument>,
    event: &DocumentEvent<'_>,
    encoding: Encoding,
) -> Result<Option<Value>, AllocError>
    ensures done { OnOk result ((uri : List ℕ) → find uri documents.new.items ≡
        after_tried encoding uri (find uri documents.old.items) (event_read event.now)) }
    ensures note { IfOk result (λ note. IsNote
        (outcome_of encoding (find event.now.uri.now documents.old.items) (act_read event.now.act))
        (option_map view note)) }
    ensures kept { OnErr result (documents.new.items ≡ documents.old.items) }
{
    let outcome = act(alloc, documents, event, encoding)?;
    let note = note_of(alloc, outcome)?;
    if is_done(outcome) {
        return Ok(note);
    }
    lose(documents, event.uri);
    Ok(note)
}

/// Returns whether a notification with this method is on a document.
pub fn is_of_document(method: &str) -> bool
    ensures { result ≡ is_of_document method.now }
{
    method == "textDocument/didOpen"
        || method == "textDocument/didChange"
        || method == "textDocument/didClose"
}

/// Returns the URI of the document that a notification is about, if it is a notification on a document.
pub fn about_uri<'v>(method: &str, value: &'v Value) -> Option<&'v str>
    ensures { option_map (λ uri. uri.now) result ≡ about_uri method.now (view value.now) }
{
    if !is_of_document(method) {
        return None;
    }
    named_uri(value)
}

/// Drops the text of the document that the parameters of a message name.
fn lose_named(documents: &mut Vec<OpenDocument>, value: &Value)
    ensures { (uri : List ℕ) → find uri documents.new.items ≡
        after_loss uri (find uri documents.old.items) (named_uri (view value.now)) }
{
    match named_uri(value) {
        None => {}
        Some(uri) => lose(documents, uri),
    }
}

/// Drops the text of the document that a notification with malformed parameters is about, and returns the warning for
/// it. Does nothing for a method that is not one on a document.
fn malformed(
    alloc: Global,
    documents: &mut Vec<OpenDocument>,
    method: &str,
    value: &Value,
) -> Result<Option<Value>, AllocError>
    ensures done { OnOk result ((uri : List ℕ) → find uri documents.new.items ≡
        after_loss uri (find uri documents.old.items) (about_uri method.now (view value.now))) }
    ensures kept { OnErr result (documents.new.items ≡ documents.old.items) }
    ensures note { IfOk result (λ note. MatchBool (is_of_document method.now) (IsLogged (option_map view note))
        (option_map view note ≡ None)) }
{
    if !is_of_document(method) {
        return Ok(None);
    }
    let note = log_message(
        alloc,
        "the parameters are not those of the method: open the document again, or send the whole text",
    )?;
    lose_named(documents, value);
    Ok(Some(note))
}

/// Acts on a notification.
pub fn notify(
    alloc: Global,
    documents: &mut Vec<OpenDocument>,
    method: &str,
    value: &Value,
    encoding: Encoding,
) -> Result<Option<Value>, AllocError>
    ensures done { OnOk result ((uri : List ℕ) → find uri documents.new.items ≡
        after_notification encoding uri (find uri documents.old.items) method.now (view value.now)) }
    ensures note { IfOk result (λ note. IsNoteOf encoding documents.old.items method.now
        (event_of method.now (view value.now)) (option_map view note)) }
    ensures kept { OnErr result (documents.new.items ≡ documents.old.items) }
{
    match event_of(alloc, method, value)? {
        None => malformed(alloc, documents, method, value),
        Some(event) => act_on(alloc, documents, &event, encoding),
    }
}
